//! Worked examples of the step, as laws: lists of events, each of which happens, and what they lead to.
//!
//! There is no code: `two_creators()` and its like are laws. Begin with `specs/Examples.antt`, then `src/examples.rt`.
#![tactic(auto)]

mod commands;
mod examples;
mod losses;

pub use commands::{
    busy_node, foreign_members, large_names, looked_for, process_limit, refused_ends,
};
pub use examples::{
    change_of_three, configurations_are_accepted, delete_between_look_and_lock, denied_by_another,
    denied_by_itself, end_beats_late_join, formation_of_three, gathered_replies, greatest_first,
    initial_tables, join_twice_leave_once, one_after_another, pending_end, queries_read,
    single_node, two_creators,
};
pub use losses::{
    drained, held_until_retry, lock_of_the_lost, loss_with_clocks, members_of_the_lost,
    no_loss_to_see, ready_by_loss,
};
