//! What a world keeps beside its nodes: what began and what was applied, by group, and which nodes are lost.
//!
//! `histories.history(&name)` gives the updates of a group in the order in which they began. Begin with `src/histories.rt`.
#![tactic(auto)]

mod entry;
mod histories;
mod losses;
mod row;
mod rows;
mod tally;

pub use entry::{Entry, same_update};
pub use histories::Histories;
pub use losses::Losses;
