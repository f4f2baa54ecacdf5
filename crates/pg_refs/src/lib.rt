//! Fresh references: the references that one node makes, all different.
//!
//! `reference_of(&node, number)?` is the reference of a number. Begin with `specs/Numbered.antt`, then `src/numbers.rt`.
#![tactic(auto)]

mod fault;
mod laws;
mod numbers;
mod source;

pub use fault::RefFault;
pub use laws::fresh_references;
pub use numbers::{number_of, reference_of, words_of};
pub use source::{MAX_REFERENCES, RefSource};
