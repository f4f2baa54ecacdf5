//! Tests of rings: what moves, frames that cross them, and threads.

mod crossing;
mod ends;
mod threads;
