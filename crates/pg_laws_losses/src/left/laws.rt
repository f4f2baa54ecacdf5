ghost use Rattle.std.specs.Prelude.{◌≡◌, ℕ, true, false, length, List};
ghost use Rattle.std.specs.List.{IsDistinct};
ghost use Rattle.pg_term.specs.declared.pid.Pid.{Pid};
ghost use Rattle.pg_term.specs.declared.term.Term.{Term};
ghost use Rattle.pg_term.specs.Same.{same_atom};
ghost use Rattle.pg_laws.specs.PgStep.Machines.Losing.{LosingEvent};
ghost use Rattle.pg_laws.specs.PgStep.Machines.Places.{is_place};
ghost use Rattle.pg_laws.specs.PgStep.Config.{Config, name_at, names_of};
ghost use Rattle.pg_laws.specs.PgStep.LossLaws.{LosingFrameWorld};
ghost use Rattle.pg_laws.specs.PgStep.State.{formed};
ghost use Rattle.pg_laws.specs.PgStep.Step.{Action};
ghost use Rattle.pg_laws.specs.Reached.{FinishedAt};
ghost use Rattle.pg_laws_losses.specs.Reached.{LosingReaches, steps_of};
ghost use Rattle.pg_laws_losses.specs.Remains.Agreed.{AgreeOnUnchanged};
ghost use Rattle.pg_laws_losses.specs.Remains.Heard.{MadeOf};
ghost use Rattle.pg_laws_losses.specs.Remains.Missed.{TakenAlong};

use crate::world::one_history_past_losses;

/// Two formed live nodes agree on a group, whoever was formed when others were lost: where each has seen the loss of
/// every node that is lost and took its exchange before, no end is pending among the live, no lost node began an update of
/// the group, and one live node sees its lock free.
pub fn nodes_that_heard_the_lost_agree()
    ensures { (config : Config) (w : LosingFrameWorld) (events : List (LosingEvent Action)) (i j x : ℕ) (name : Term)
        → IsDistinct same_atom (names_of config) → LosingReaches config events w
        → AgreeOnUnchanged config events w i j x name }
{
    one_history_past_losses();
}

/// What a table is made of, whoever is lost and whoever was formed when: a node's own groups, and those of each exchange that it
/// took, after the updates that it has applied, without the ends that it took.
///
/// A loss takes along what was not taken before it was seen: the groups of an exchange that never came, and the updates of lost
/// nodes that `histories_are_thinned` of pg_laws_losses leaves out.
pub fn tables_are_made_of_what_was_taken()
    ensures { (config : Config) (w : LosingFrameWorld) (events : List (LosingEvent Action)) (i : ℕ)
        → IsDistinct same_atom (names_of config) → LosingReaches config events w
        → is_place (length config) i ≡ true → MadeOf config events w i }
{
    one_history_past_losses();
}

/// What a loss takes along, whoever is lost and whoever was formed when: those entries of nodes whose loss a live node has seen
/// that it has not applied (`missed`).
///
/// It has applied the history of a group without these, or all of that but its last entry. None of them was answered. Of each
/// lost node there is one at most. Its table is what the rest makes of the groups that it began with and was told.
pub fn losses_take_along()
    ensures { (config : Config) (w : LosingFrameWorld) (events : List (LosingEvent Action)) (i : ℕ) (name : Term)
        → IsDistinct same_atom (names_of config) → LosingReaches config events w
        → is_place (length config) i ≡ true → w.gone i ≡ false → TakenAlong config events w i name }
{
    tables_are_made_of_what_was_taken();
}

/// Whoever is lost, a process of a node which that node has as ended was told to end there.
pub fn ended_processes_were_finished_past_losses()
    ensures { (config : Config) (w : LosingFrameWorld) (events : List (LosingEvent Action)) (i : ℕ) (pid : Pid)
        → IsDistinct same_atom (names_of config) → LosingReaches config events w
        → pid.node ≡ name_at config i → (w.world.node i).state.ended pid ≡ true → FinishedAt (steps_of events) i pid }
{}
