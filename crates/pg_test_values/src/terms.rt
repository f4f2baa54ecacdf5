//! Tests of terms and their bytes: what no clause says. Each test passes wherever an allocation is refused: `OutOfMemory` is
//! told, and the same call made again succeeds.

mod faults;
mod made;
mod order;
mod written;
