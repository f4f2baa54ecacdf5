//! What holds of every run of the nodes of a configuration, whatever is done there and in whatever order packets are
//! taken: one history of each group, what each node has applied of it, and what the tables are; and the laws of
//! exchanges, ends, locks and references on which that rests.
//!
//! There is no code: `one_history()` is the law of all of it. Begin with `specs/Headline.antt` beside
//! docs/HEADLINE.md, then `src/laws.rt`.
#![tactic(auto)]

mod events;
mod lasting;
mod laws;

pub use events::{
    changes_are_answered_at_once_exactly, commands_are_refused_exactly, updates_are_applied_once,
};
pub use lasting::{answers_stay, commands_are_counted, ends_stay_taken, formed_nodes_stay_formed};
pub use laws::{
    a_quiet_world_holds_no_lock, a_quiet_world_is_formed, a_quiet_world_waits_for_retries,
    a_retry_is_answered, a_world_comes_to_rest, changes_stand_once, ended_are_in_no_group,
    ended_processes_were_finished, ends_at_home, every_command_can_be_answered, exchanges_once,
    first_packets_were_welcome, history_grows, history_is_applied, locks_are_exclusive,
    no_loss_is_seen, nobody_is_harmed, nothing_is_stuck, one_history, one_history_without_losses,
    processes_are_fresh, references_have_one_use, references_within_the_clock, tables_are_replayed,
    unformed_hold_no_lock, updates_go_by_real_time, what_is_sent,
};
