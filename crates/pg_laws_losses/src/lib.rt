//! What runs keep in which nodes are lost: what the live ones agree on, what becomes of commands that a loss has left ready, and what
//! retries come to.
//!
//! There is no code: `one_history_past_losses()` is the law of histories, answers and locks, and `each_world_past_losses()` joins all laws of one
//! world. Begin with `specs/Survived.antt`, then `src/survival.rt`; `src/left.rt`, `src/ready.rt` and `src/retried.rt` each stand on those before.
#![tactic(auto)]

mod lasting;
mod left;
mod ready;
mod retried;
mod steps;
mod survival;
mod world;

pub use lasting::{
    answers_stay_past_losses, changes_are_answered_past_losses, changes_stand_once_past_losses,
    commands_are_counted_past_losses, ended_are_in_no_group_past_losses,
    ends_stay_taken_past_losses, formed_nodes_stay_formed_past_losses,
    histories_go_by_real_time_past_losses, histories_grow_past_losses, lost_nodes_are_not_heard,
    lost_nodes_do_nothing, seen_losses_stay_seen,
};
pub use left::{
    ended_processes_were_finished_past_losses, losses_take_along, nodes_that_heard_the_lost_agree,
    tables_are_made_of_what_was_taken,
};
pub use pg_laws::{
    ended_processes_were_finished, first_packets_were_welcome, no_loss_is_seen, nobody_is_harmed,
    nothing_is_stuck, one_history,
};
pub use ready::{
    a_retry_leaves_the_others, a_retry_of_a_ready_command_goes_on,
    a_world_comes_to_rest_past_losses, all_ready_commands_can_be_retried,
    live_locks_are_of_ready_commands, no_lock_where_none_is_ready, only_a_seen_loss_makes_ready,
    quiet_nodes_saw_the_losses, retries_free_the_locks, retries_leave_fewer_ready,
};
pub use retried::{
    a_retry_is_answered_past_losses, each_world_past_losses,
    every_command_can_be_answered_past_losses, every_lock_can_be_freed_past_losses,
    retries_are_answered_where_none_is_ready,
};
pub use steps::{
    commands_are_refused_exactly_past_losses, processes_are_fresh_past_losses,
    queries_read_the_table_past_losses, references_have_one_use_past_losses,
    updates_are_applied_once_past_losses,
};
pub use survival::{
    a_quiet_node_is_formed_past_losses, ended_processes_were_made_past_losses,
    ends_at_home_past_losses, histories_are_thinned, live_nodes_agree,
    locks_are_exclusive_past_losses, no_lock_of_the_lost, no_packet_is_refused, no_reply_is_odd,
    open_commands_wait_for_retries_past_losses, tables_are_replayed_past_losses,
    takes_end_past_losses, unanswered_changes_are_last,
};
pub use world::one_history_past_losses;
