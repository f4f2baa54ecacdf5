ghost use Rattle.std.specs.Prelude.{◌≡◌, ℕ, List, Some};
ghost use Rattle.pg_laws.specs.PgStep.Machines.Losing.{LosingEvent, LosingLeads, Step, losing_happens};
ghost use Rattle.pg_laws.specs.PgStep.Machines.Machine.{Event, Do};
ghost use Rattle.pg_laws.specs.PgStep.declared.command.Command.{Command};
ghost use Rattle.pg_laws.specs.PgStep.Config.{Config};
ghost use Rattle.pg_laws.specs.PgStep.FrameMachine.{last_notice, losing_frame_machine};
ghost use Rattle.pg_laws.specs.PgStep.LossLaws.{LosingFrameWorld};
ghost use Rattle.pg_laws.specs.PgStep.Step.{Action, Issue};
ghost use Rattle.pg_laws.specs.Fresh.{MakesFresh};
ghost use Rattle.pg_laws.specs.ReferencesFit.{ReferencesFit, UseFollows};
ghost use Rattle.pg_laws_losses.specs.Onward.{AppliesOnce, LookAnswers, ReadsTable, RefusesExactly};
ghost use Rattle.pg_laws_losses.specs.Reached.{LosingReaches, nodes_of};

/// Whoever is lost, a query is answered from its node's table as it is, formed or not, and nothing else comes of it; so is a
/// command that the look answers.
pub fn queries_read_the_table_past_losses()
    ensures reads { (config : Config) (m v : LosingFrameWorld) (i port : ℕ) (c : Command)
        → losing_happens (losing_frame_machine config) last_notice m (Step (Do i (Issue port c))) ≡ Some v
        → ReadsTable i port c m v }
    ensures looks { (config : Config) (m v : LosingFrameWorld) (i port : ℕ) (c : Command)
        → losing_happens (losing_frame_machine config) last_notice m (Step (Do i (Issue port c))) ≡ Some v
        → LookAnswers config i port c m v }
{}

/// Whoever is lost, a command is refused exactly where it has a fault, by the first, or finds too many open; and a change is
/// answered at once exactly where the look finds an answer, or too many are open.
pub fn commands_are_refused_exactly_past_losses()
    ensures { (config : Config) (m v : LosingFrameWorld) (i port : ℕ) (c : Command)
        → losing_happens (losing_frame_machine config) last_notice m (Step (Do i (Issue port c))) ≡ Some v
        → RefusesExactly config i port c m v }
{}

/// Whoever is lost, an event applies at most one update, and reports it, and changes no other node.
pub fn updates_are_applied_once_past_losses()
    ensures { (config : Config) (m v : LosingFrameWorld) (d : Event Action)
        → losing_happens (losing_frame_machine config) last_notice m (Step d) ≡ Some v → AppliesOnce d m v }
{}

/// Whoever is lost, no process is made twice: those that a node makes have the numbers after those that it had made at the start.
pub fn processes_are_fresh_past_losses()
    ensures { (config : Config) (w : LosingFrameWorld) (events : List (LosingEvent Action)) (i : ℕ)
        → LosingReaches config events w → MakesFresh config (nodes_of w) i }
{}

/// Whoever is lost, each reference of a node has one use, and has it for good.
pub fn references_have_one_use_past_losses()
    ensures fitting { (config : Config) (w : LosingFrameWorld) (events : List (LosingEvent Action)) (i : ℕ)
        → LosingReaches config events w → ReferencesFit (w.world.node i).state }
    ensures later { (config : Config) (m w : LosingFrameWorld) (before events : List (LosingEvent Action)) (i c : ℕ)
        → LosingReaches config before m → LosingLeads (losing_frame_machine config) last_notice m events w
        → UseFollows ((m.world.node i).state.uses c) ((w.world.node i).state.uses c) }
{}
