//! Where a program reads and writes: the traits of readers and writers that say where they failed, with the system's as such.
//!
//! `AnyReader { reader }` is any reader as a `Source`. Begin with `src/source.rt` and `src/sink.rt`.
#![tactic(auto)]

mod sink;
mod source;

pub use sink::{AnyWriter, Sink};
pub use source::{AnyReader, Source};
