ghost use Rattle.std.specs.Prelude.{◌≡◌, ◌++◌, ℕ, List, true};
ghost use Rattle.pg_term.specs.declared.pid.Pid.{Pid};
ghost use Rattle.pg_step.specs.Machines.Machine.{Event};
ghost use Rattle.pg_step.specs.Machines.Clocked.{plain};
ghost use Rattle.pg_step.specs.Machines.Runs.{Leads};
ghost use Rattle.pg_step.specs.Config.{Config};
ghost use Rattle.pg_step.specs.FrameMachine.{frame_machine};
ghost use Rattle.pg_step.specs.State.{Response};
ghost use Rattle.pg_step.specs.Step.{Action};
ghost use Rattle.pg_laws.specs.History.{answers_by, is_formed};
ghost use Rattle.pg_laws.specs.Counted.{CountsCommands};
ghost use Rattle.pg_laws.specs.Reached.{TimedFrameWorld, Reaches};

/// Answers that were given stay, each with its number and its response: a later world's list of a port is that of the earlier
/// one, and more.
pub fn answers_stay()
    ensures { (config : Config) (w v : TimedFrameWorld) (events : List (Event Action)) (i port : ℕ)
        → Leads (frame_machine config) w events v
        → (more : List (ℕ × Response))
        × (answers_by i (plain v).reported port ≡ answers_by i (plain w).reported port ++ more) }
{}

/// A node that is formed stays formed.
pub fn formed_nodes_stay_formed()
    ensures { (config : Config) (w v : TimedFrameWorld) (events : List (Event Action)) (i : ℕ)
        → Leads (frame_machine config) w events v
        → is_formed config (plain w) i ≡ true → is_formed config (plain v) i ≡ true }
{}

/// An end that a node has taken stays taken.
pub fn ends_stay_taken()
    ensures { (config : Config) (w v : TimedFrameWorld) (events : List (Event Action)) (i : ℕ) (pid : Pid)
        → Leads (frame_machine config) w events v
        → ((plain w).node i).ended pid ≡ true → ((plain v).node i).ended pid ≡ true }
{}

/// Each command that came in at a port is answered, or it is open; and a node counts as open as many as are.
pub fn commands_are_counted()
    ensures { (config : Config) (w : TimedFrameWorld) (events : List (Event Action)) (i : ℕ)
        → Reaches config events w → CountsCommands config (plain w) i }
{}
