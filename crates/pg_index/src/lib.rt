//! The table of groups for many members: groups by number, and the groups of each pid.
//!
//! `IndexTable::new(alloc)` is an empty table, which is called by `GroupTable` of pg_group. Begin with `src/index_table.rt`, then
//! `specs/Index.antt`.
#![tactic(auto)]

mod by_place;
mod groups;
mod index_table;
mod listing;
mod listings;
mod memberships;

pub use by_place::GroupsByPlace;
pub use index_table::IndexTable;
