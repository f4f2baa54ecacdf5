//! What becomes of commands that a loss has left ready: begin with `specs/Readiness/Ready.antt`, then `src/ready/laws.rt`.

mod laws;

pub use laws::{
    a_retry_leaves_the_others, a_retry_of_a_ready_command_goes_on,
    a_world_comes_to_rest_past_losses, all_ready_commands_can_be_retried,
    live_locks_are_of_ready_commands, no_lock_where_none_is_ready, only_a_seen_loss_makes_ready,
    quiet_nodes_saw_the_losses, retries_free_the_locks, retries_leave_fewer_ready,
};
