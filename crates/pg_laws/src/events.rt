ghost use Rattle.std.specs.Prelude.{◌≡◌, ◌↔◌, ℕ, None, Some};
ghost use Rattle.pg_step.specs.PgGroup.declared.update.Update.{Update};
ghost use Rattle.pg_step.specs.PgMessageTypes.declared.message.Message.{Message};
ghost use Rattle.pg_step.specs.Machines.Machine.{Input, Turn};
ghost use Rattle.pg_step.specs.declared.answer.Reply.{Reply};
ghost use Rattle.pg_step.specs.declared.command.Command.{Command};
ghost use Rattle.pg_step.specs.declared.command_fault.CommandFault.{CommandFault};
ghost use Rattle.pg_step.specs.Commands.{change_of, command, fault_of, next_op, refused};
ghost use Rattle.pg_step.specs.Config.{Config};
ghost use Rattle.pg_step.specs.FrameMachine.{node_step};
ghost use Rattle.pg_step.specs.Nodes.{Nodes};
ghost use Rattle.pg_step.specs.State.{State};
ghost use Rattle.pg_step.specs.State.Response.{Given};
ghost use Rattle.pg_step.specs.Step.{Action};
ghost use Rattle.pg_step.specs.Turns.{Report};
ghost use Rattle.pg_laws.specs.Lasting.{Tabling, at_once, refused_by};

/// An event applies at most one update, and reports it. An event that changes the table otherwise, by the end of a process or
/// by the groups of a peer, applies none.
pub fn updates_are_applied_once()
    ensures { (config : Config) (i : ℕ) (s : State) (input : Input Message Action)
        (turn : Turn State Message Report) → node_step config i s input ≡ Some turn → Tabling s turn }
{}

/// A command is answered by a fault exactly where it has that fault: the first of its faults; or, for a change without one of
/// which the look finds nothing, `Busy`, where as many commands are open as can be.
pub fn commands_are_refused_exactly()
    ensures { (whole m : Nodes) (port : ℕ) (c : Command) (s : State) (fault : CommandFault)
        → ((command whole m port c s).reported.gave ≡ Some (next_op port s, refused fault))
        ↔ (refused_by whole s c ≡ Some fault) }
{}

/// A change without a fault is answered at once, and not after a lock, exactly where the look finds an answer, or too
/// many commands are open.
pub fn changes_are_answered_at_once_exactly()
    ensures { (whole m : Nodes) (port : ℕ) (c : Command) (update : Update) (s : State) (r : Reply)
        → change_of c ≡ Some update → fault_of whole s c ≡ None
        → (((command whole m port c s).reported.gave ≡ Some (next_op port s, Given r))
        × ((command whole m port c s).reported.answered ≡ None))
        ↔ (at_once s update ≡ Some r) }
{}
