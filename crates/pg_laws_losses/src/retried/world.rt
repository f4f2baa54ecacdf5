ghost use Rattle.std.specs.Prelude.{List};
ghost use Rattle.std.specs.List.{IsDistinct};
ghost use Rattle.pg_term.specs.Same.{same_atom};
ghost use Rattle.pg_laws.specs.PgStep.Machines.Losing.{LosingEvent};
ghost use Rattle.pg_laws.specs.PgStep.Config.{Config, names_of};
ghost use Rattle.pg_laws.specs.PgStep.LossLaws.{LosingFrameWorld};
ghost use Rattle.pg_laws.specs.PgStep.Step.{Action};
ghost use Rattle.pg_laws_losses.specs.Reached.{LosingReaches};
ghost use Rattle.pg_laws_losses.specs.Retrying.Survived.{LossesSurvived};

use crate::lasting::{
    answers_stay_past_losses, ends_stay_taken_past_losses, formed_nodes_stay_formed_past_losses,
    lost_nodes_are_not_heard, lost_nodes_do_nothing, seen_losses_stay_seen,
};
use crate::left::{
    ended_processes_were_finished_past_losses, losses_take_along, nodes_that_heard_the_lost_agree,
    tables_are_made_of_what_was_taken,
};
use crate::ready::{
    a_retry_leaves_the_others, a_retry_of_a_ready_command_goes_on,
    a_world_comes_to_rest_past_losses, all_ready_commands_can_be_retried,
    live_locks_are_of_ready_commands, no_lock_where_none_is_ready, quiet_nodes_saw_the_losses,
    retries_free_the_locks,
};
use crate::retried::laws::{
    a_retry_is_answered_past_losses, every_command_can_be_answered_past_losses,
    every_lock_can_be_freed_past_losses, retries_are_answered_where_none_is_ready,
};
use crate::steps::{
    commands_are_refused_exactly_past_losses, processes_are_fresh_past_losses,
    queries_read_the_table_past_losses, references_have_one_use_past_losses,
    updates_are_applied_once_past_losses,
};
use crate::survival::a_quiet_node_is_formed_past_losses;
use crate::world::one_history_past_losses;

/// What worlds and clusters promise of each world that their runs lead to, whoever is lost and whenever.
pub fn each_world_past_losses()
    ensures { (config : Config) (w : LosingFrameWorld) (events : List (LosingEvent Action))
        → IsDistinct same_atom (names_of config) → LosingReaches config events w
        → LossesSurvived config events w }
{
    one_history_past_losses();
    tables_are_made_of_what_was_taken();
    losses_take_along();
    nodes_that_heard_the_lost_agree();
    ended_processes_were_finished_past_losses();
    quiet_nodes_saw_the_losses();
    live_locks_are_of_ready_commands();
    no_lock_where_none_is_ready();
    a_retry_of_a_ready_command_goes_on();
    retries_free_the_locks();
    all_ready_commands_can_be_retried();
    a_retry_leaves_the_others();
    a_world_comes_to_rest_past_losses();
    a_retry_is_answered_past_losses();
    retries_are_answered_where_none_is_ready();
    every_lock_can_be_freed_past_losses();
    every_command_can_be_answered_past_losses();
    answers_stay_past_losses();
    formed_nodes_stay_formed_past_losses();
    a_quiet_node_is_formed_past_losses();
    ends_stay_taken_past_losses();
    seen_losses_stay_seen();
    lost_nodes_are_not_heard();
    lost_nodes_do_nothing();
    processes_are_fresh_past_losses();
    references_have_one_use_past_losses();
    queries_read_the_table_past_losses();
    commands_are_refused_exactly_past_losses();
    updates_are_applied_once_past_losses();
}
