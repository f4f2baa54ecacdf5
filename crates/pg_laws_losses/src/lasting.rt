ghost use Rattle.std.specs.Prelude.{◌≡◌, ◌++◌, ◌<◌, ◌≤◌, ℕ, true, List, ◌∷◌, Some};
ghost use Rattle.pg_term.specs.declared.pid.Pid.{Pid};
ghost use Rattle.pg_term.specs.declared.term.Term.{Term};
ghost use Rattle.pg_laws.specs.PgGroup.Value.{NoneEnded};
ghost use Rattle.pg_laws.specs.PgStep.Machines.Losing.{LosingEvent, LosingLeads, Step};
ghost use Rattle.pg_laws.specs.PgStep.Machines.Machine.{Take};
ghost use Rattle.pg_laws.specs.PgStep.Machines.Runs.{reported_by};
ghost use Rattle.pg_laws.specs.PgStep.Config.{Config, name_at, nodes_at};
ghost use Rattle.pg_laws.specs.PgStep.FrameMachine.{last_notice, losing_frame_machine};
ghost use Rattle.pg_laws.specs.PgStep.LossLaws.{LosingFrameWorld};
ghost use Rattle.pg_laws.specs.PgStep.Nodes.{Node};
ghost use Rattle.pg_laws.specs.PgStep.State.{Response, formed};
ghost use Rattle.pg_laws.specs.PgStep.Step.{Action};
ghost use Rattle.pg_laws.specs.PgStep.Commands.{change_of};
ghost use Rattle.pg_laws.specs.PgStep.declared.command.Command.{Command};
ghost use Rattle.pg_laws.specs.PgStep.declared.command.OpId.{OpId};
ghost use Rattle.pg_laws.specs.Counted.{CountsCommands};
ghost use Rattle.pg_laws.specs.History.{
  Entry,
  IsAnsweredOk,
  answered_count,
  answers_by,
  answers_to,
  command_at,
  entries,
  has_answer,
  history,
  ok_means_lock,
  times,
};
ghost use Rattle.pg_laws.specs.RealTime.{StandsBefore};
ghost use Rattle.pg_laws_losses.specs.Reached.{LosingReaches, nodes_of, steps_of};

/// Answers that were given stay, each with its number and its response, whoever is lost.
pub fn answers_stay_past_losses()
    ensures { (config : Config) (w v : LosingFrameWorld) (events : List (LosingEvent Action)) (i port : ℕ)
        → LosingLeads (losing_frame_machine config) last_notice w events v
        → (more : List (ℕ × Response))
        × (answers_by i v.world.reported port ≡ answers_by i w.world.reported port ++ more) }
{}

/// The history of each group only grows, whoever is lost. So it is, in each world, that of each world before it, and more.
pub fn histories_grow_past_losses()
    ensures later { (config : Config) (w v : LosingFrameWorld) (events : List (LosingEvent Action)) (name : Term)
        → LosingLeads (losing_frame_machine config) last_notice w events v
        → (more : List Entry)
        × (history name v.world.reported ≡ history name w.world.reported ++ more) }
    ensures from_all { (config : Config) (w m : LosingFrameWorld) (events first last : List (LosingEvent Action)) (name : Term)
        → LosingReaches config events w → events ≡ first ++ last → LosingReaches config first m
        → (more : List Entry)
        × (history name w.world.reported ≡ history name m.world.reported ++ more) }
{}

/// Whoever is lost, histories go by real time: a change that was answered under its lock before another command came
/// in is before it, and so does each entry of a group that was there by then. No node goes back.
pub fn histories_go_by_real_time_past_losses()
    ensures { (config : Config) (w m : LosingFrameWorld) (events first last : List (LosingEvent Action))
        → LosingReaches config events w → events ≡ first ++ last → LosingReaches config first m
        → StandsBefore (steps_of first) m.world.reported w.world.reported }
{}

/// A node that is formed stays formed, whoever is lost.
pub fn formed_nodes_stay_formed_past_losses()
    ensures { (config : Config) (w v : LosingFrameWorld) (events : List (LosingEvent Action)) (i : ℕ)
        → LosingLeads (losing_frame_machine config) last_notice w events v
        → formed (nodes_at config i) (w.world.node i).state ≡ true
        → formed (nodes_at config i) (v.world.node i).state ≡ true }
{}

/// An end that a node has taken stays taken, whoever is lost.
pub fn ends_stay_taken_past_losses()
    ensures { (config : Config) (w v : LosingFrameWorld) (events : List (LosingEvent Action)) (i : ℕ) (pid : Pid)
        → LosingLeads (losing_frame_machine config) last_notice w events v
        → (w.world.node i).state.ended pid ≡ true → (v.world.node i).state.ended pid ≡ true }
{}

/// A loss that a node has seen stays seen.
pub fn seen_losses_stay_seen()
    ensures { (config : Config) (w v : LosingFrameWorld) (events : List (LosingEvent Action)) (i : ℕ) (peer : Node)
        → LosingLeads (losing_frame_machine config) last_notice w events v
        → (w.world.node i).state.lost peer ≡ true → (v.world.node i).state.lost peer ≡ true }
{}

/// A node that has seen the loss of a peer never takes from it again.
pub fn lost_nodes_are_not_heard()
    ensures { (config : Config) (w v : LosingFrameWorld) (events before after : List (LosingEvent Action)) (i p : ℕ)
        → (w.world.node i).state.lost (name_at config p) ≡ true
        → LosingLeads (losing_frame_machine config) last_notice w events v
        → events ≡ before ++ Step (Take i p) ∷ after → ⊥ }
{}

/// A node that is lost does nothing more: it is lost for good, keeps its state, and reports nothing.
pub fn lost_nodes_do_nothing()
    ensures { (config : Config) (w v : LosingFrameWorld) (events : List (LosingEvent Action)) (i : ℕ)
        → w.gone i ≡ true → LosingLeads (losing_frame_machine config) last_notice w events v
        → (v.gone i ≡ true) × ((v.world.node i).state ≡ (w.world.node i).state)
        × (reported_by i v.world.reported ≡ reported_by i w.world.reported) }
{}

/// Whoever is lost, no command is among the entries more than once, and none is answered under its lock more than
/// once. One that was answered so is there; one that was refused, or answered by the look, is not. No command has two
/// answers.
pub fn changes_stand_once_past_losses()
    ensures at_most_once { (config : Config) (w : LosingFrameWorld) (events : List (LosingEvent Action)) (i : ℕ) (op : OpId)
        → LosingReaches config events w → times i op (entries w.world.reported) ≤ 1 }
    ensures answered_once { (config : Config) (w : LosingFrameWorld) (events : List (LosingEvent Action)) (i : ℕ) (op : OpId)
        → LosingReaches config events w → answered_count i op w.world.reported ≤ 1 }
    ensures answered { (config : Config) (w : LosingFrameWorld) (events : List (LosingEvent Action)) (i : ℕ) (op : OpId)
        → LosingReaches config events w → 0 < answered_count i op w.world.reported
        → times i op (entries w.world.reported) ≡ 1 }
    ensures not_looked { (config : Config) (w : LosingFrameWorld) (events : List (LosingEvent Action)) (i : ℕ) (op : OpId)
        → LosingReaches config events w → has_answer op (answers_by i w.world.reported) ≡ true
        → answered_count i op w.world.reported ≡ 0 → times i op (entries w.world.reported) ≡ 0 }
    ensures one_answer { (config : Config) (w : LosingFrameWorld) (events : List (LosingEvent Action)) (i : ℕ) (op : OpId)
        → LosingReaches config events w → answers_to op (answers_by i w.world.reported) ≤ 1 }
{}

/// Whoever is lost, each entry is the change that its command asked for, which came in before. A change that was
/// answered under its lock was answered ok; a delete, a join or a leave that was answered ok was answered under its
/// lock.
pub fn changes_are_answered_past_losses()
    ensures given { (config : Config) (w : LosingFrameWorld) (events : List (LosingEvent Action))
        (before after : List Entry) (e : Entry)
        → LosingReaches config events w → entries w.world.reported ≡ before ++ e ∷ after
        → (c : Command) × (command_at e.node e.op (steps_of events) ≡ Some c) × (change_of c ≡ Some e.update) }
    ensures answered_ok { (config : Config) (w : LosingFrameWorld) (events : List (LosingEvent Action)) (i : ℕ) (op : OpId)
        → LosingReaches config events w → 0 < answered_count i op w.world.reported
        → IsAnsweredOk op (answers_by i w.world.reported) }
    ensures ok_behind_lock { (config : Config) (w : LosingFrameWorld) (events : List (LosingEvent Action)) (i : ℕ) (op : OpId)
        (c : Command)
        → LosingReaches config events w → command_at i op (steps_of events) ≡ Some c → ok_means_lock c ≡ true
        → IsAnsweredOk op (answers_by i w.world.reported) → 0 < answered_count i op w.world.reported }
{}

/// Whoever is lost, each command that came in at a port is answered, or it is open; and a node counts as open as many as are.
pub fn commands_are_counted_past_losses()
    ensures { (config : Config) (w : LosingFrameWorld) (events : List (LosingEvent Action)) (i : ℕ)
        → LosingReaches config events w → CountsCommands config (nodes_of w) i }
{}

/// Whoever is lost, a process that has ended at a node is a member of no group there.
pub fn ended_are_in_no_group_past_losses()
    ensures { (config : Config) (w : LosingFrameWorld) (events : List (LosingEvent Action)) (i : ℕ) (name : Term)
        → LosingReaches config events w
        → NoneEnded ((w.world.node i).state.table name) (w.world.node i).state.ended }
{}
