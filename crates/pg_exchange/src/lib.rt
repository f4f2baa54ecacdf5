//! How a node forms: it announces its groups to each peer, and merges what each peer announces, once.
//!
//! `snapshot(alloc, &table)?` is what a node announces, and `formation.take(..)` merges what a peer announced. Begin with `src/formation.rt`.
#![tactic(auto)]

mod fault;
mod formation;
mod group_list;
mod laws;
mod merging;

pub use fault::ExchangeFault;
pub use formation::Formation;
pub use group_list::snapshot;
pub use laws::exchange_merges_tables;
