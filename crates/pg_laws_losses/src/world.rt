ghost use Rattle.std.specs.Prelude.{List};
ghost use Rattle.std.specs.List.{IsDistinct};
ghost use Rattle.pg_term.specs.Same.{same_atom};
ghost use Rattle.pg_laws.specs.PgStep.Machines.Losing.{LosingEvent};
ghost use Rattle.pg_laws.specs.PgStep.Config.{Config, names_of};
ghost use Rattle.pg_laws.specs.PgStep.LossLaws.{LosingFrameWorld};
ghost use Rattle.pg_laws.specs.PgStep.Step.{Action};
ghost use Rattle.pg_laws_losses.specs.Reached.{LosingReaches};
ghost use Rattle.pg_laws_losses.specs.Survived.{OneHistoryPastLosses};

use crate::lasting::{
    changes_are_answered_past_losses, changes_stand_once_past_losses,
    commands_are_counted_past_losses, ended_are_in_no_group_past_losses,
    histories_go_by_real_time_past_losses, histories_grow_past_losses,
};
use crate::survival::{
    ended_processes_were_made_past_losses, ends_at_home_past_losses, histories_are_thinned,
    live_nodes_agree, locks_are_exclusive_past_losses, no_lock_of_the_lost, no_packet_is_refused,
    no_reply_is_odd, tables_are_replayed_past_losses, unanswered_changes_are_last,
};

/// All that the laws say of one world, whoever is lost and whenever.
pub fn one_history_past_losses()
    ensures { (config : Config) (w : LosingFrameWorld) (events : List (LosingEvent Action))
        → IsDistinct same_atom (names_of config) → LosingReaches config events w
        → OneHistoryPastLosses config events w }
{
    tables_are_replayed_past_losses();
    histories_are_thinned();
    no_lock_of_the_lost();
    histories_grow_past_losses();
    histories_go_by_real_time_past_losses();
    locks_are_exclusive_past_losses();
    no_reply_is_odd();
    no_packet_is_refused();
    unanswered_changes_are_last();
    ends_at_home_past_losses();
    ended_processes_were_made_past_losses();
    live_nodes_agree();
    changes_stand_once_past_losses();
    changes_are_answered_past_losses();
    commands_are_counted_past_losses();
    ended_are_in_no_group_past_losses();
}
