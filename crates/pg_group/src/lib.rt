//! Process groups: what updates make of them, and the tables that keep them.
//!
//! `table.apply(&Update::Create(name), &ended)?` makes a group. Begin with `src/update.rt`; `specs/Value.antt` says what an update makes of a
//! group, and `src/table.rt` what each table keeps.
#![tactic(auto)]

mod append;
mod chunk;
mod ended;
mod laws;
mod members;
mod number;
mod numbers;
mod row_table;
mod rows;
mod scope;
mod table;
mod update;

pub use append::append_member;
pub use ended::Ended;
pub use laws::{
    ended_stay_out, left_out_at_once, longer_by_what_came, merged_in_any_order, one_member_list,
    one_more_at_most,
};
pub use row_table::RowTable;
pub use scope::Scope;
pub use table::GroupTable;
pub use update::Update;
