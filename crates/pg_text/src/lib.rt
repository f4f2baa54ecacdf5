//! Text of terms: as scripts are written and answers are printed.
//!
//! `read_term(alloc, "{a,1}")?` reads a term, and `write_term(&term, &mut text)?` writes it. Begin with `specs/Reading.antt`, then
//! `src/reading.rt`.
#![tactic(auto)]

mod again;
mod fault;
mod laws;
mod reading;
mod writing;

pub use fault::TextFault;
pub use laws::{just_those_are_read, printed_is_read, texts_are_read, updates_are_tuples};
pub use reading::{read_atom, read_number, read_pid, read_term};
pub use writing::{write_atom, write_pid, write_term, write_update};
