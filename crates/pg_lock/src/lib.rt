//! The lock of each name at one node, and the rounds in which a command asks for it at all nodes.
//!
//! `locks.ask(formed, &name, &reference)?` grants a name's lock, or does not. Begin with `specs/Locks.antt`, then `src/table.rt`; rounds are
//! in `specs/Attempts.antt`.
#![tactic(auto)]

mod attempt;
mod holders;
mod table;

pub use attempt::Attempt;
pub use table::LockTable;
