//! What a node answers of its groups: it reads its own table and takes no lock.
//!
//! `closest(&table, &own, &name, word)?` is the member that a word picks. Begin with `src/lists.rt`, then
//! `specs/Closest.antt`.
#![tactic(auto)]

mod choice;
mod fault;
mod lists;
mod same;

pub use choice::closest;
pub use fault::QueryFault;
pub use lists::{local_members, members, which_groups};
pub use same::{same_group, same_groups};
