ghost use Rattle.std.specs.Prelude.{◌≡◌, ℕ, List, length};
ghost use Rattle.std.specs.List.{IsDistinct};
ghost use Rattle.pg_term.specs.Same.{same_atom};
ghost use Rattle.pg_world.specs.PgMessageTypes.declared.message.Message.{Message};
ghost use Rattle.pg_world.specs.PgStep.Machines.Machine.{Event};
ghost use Rattle.pg_world.specs.PgStep.Machines.Clocked.{Timed, Stamped, plain};
ghost use Rattle.pg_world.specs.PgStep.State.{State};
ghost use Rattle.pg_world.specs.PgStep.Turns.{Report};
ghost use Rattle.pg_world.specs.PgStep.Step.{Action};
ghost use Rattle.pg_world.specs.PgStep.Config.{Config, names_of};
ghost use Rattle.pg_world.specs.PgStep.FrameMachine.{frame_machine};
ghost use Rattle.pg_world.specs.PgLaws.Headline.{OneHistory};
ghost use Rattle.pg_cluster_judges.specs.Logs.{LoggedAct, AreLogs};
ghost use Rattle.pg_cluster_judges.specs.Merge.{Merges, clocks_of, merged_logs};
ghost use Rattle.pg_cluster_judges.specs.Joined.{Joined};

use pg_world::{nodes_keep_time, one_history};

/// The nodes of a configuration that ran apart have one history of each group: their logs join to one run, and of the world that it
/// leads to, which shows each node as its log ended, everything holds that `one_history` says.
pub fn joined_history()
    ensures { (config : Config) (logs : ℕ → List (ℕ × Event Action))
        (acts : ℕ → List (LoggedAct (Timed State) (Stamped Message) Action Report)) (ends : ℕ → Timed State)
        (left : ℕ → ℕ → List (Stamped Message)) (order : List (ℕ × ℕ))
        → IsDistinct same_atom (names_of config) → AreLogs (frame_machine config) logs acts ends left
        → Merges (length config) (λ i. clocks_of (logs i)) order
        → (run : Joined (frame_machine config) logs acts ends left (merged_logs logs order))
        × OneHistory config (merged_logs logs order) (plain run.world) }
{
    nodes_keep_time();
    one_history();
}
