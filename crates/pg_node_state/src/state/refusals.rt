//! Why a command is refused.

ghost use Rattle.std.specs.Prelude.{◌≡◌, ◌∷◌, [], not, Some, None, Err, IsOk};
ghost use Rattle.pg_node_ports.specs.PgEnds.declared.fault.EndFault.TheVariants as ends;
ghost use Rattle.pg_node_ports.specs.PgStep.declared.command_fault.CommandFault.TheVariants as faults;
ghost use Rattle.pg_node_ports.specs.PgMessageTypes.Name.{is_name};
ghost use Rattle.pg_node_ports.specs.PgStep.declared.command.Command.TheVariants as commands;
ghost use Rattle.pg_node_ports.specs.PgStep.declared.command_fault.CommandFault.TheVariants.{NameTooLarge};
ghost use Rattle.pg_node_ports.specs.PgStep.Faults.{first_that_holds};

use crate::state::NodeState;
use pg_node_ports::{Command, CommandFault, EndFault, GroupTable, check_name};
use pg_term::{Pid, Term};

impl<T: GroupTable + Drop> NodeState<T> {
    ghost use Rattle.pg_node_ports.specs.PgStep.Commands.{fault_of};
    ghost use Rattle.pg_node_state.specs.States.{nodes_of, kept_by};

    /// Why a command is refused, the first that holds: `NameTooLarge`, `ForeignPid`, `NotFormed`, `NotMade`, `AlreadyEnded`,
    /// `ProcessLimit`. It takes no memory: a walk over the name, O(nodes), and O(log n) in the ended.
    pub(crate) fn command_fault(&self, command: &Command) -> Option<CommandFault>
        ensures { result ≡ fault_of (nodes_of self.now) (kept_by self.now) command.now }
    {
        match command {
            Command::Create(name) | Command::Delete(name) => name_fault(name),
            Command::Join(name, pid) | Command::Leave(name, pid) => self.member_fault(name, pid),
            Command::Make => self.make_fault(),
            Command::Finish(pid) => self.end_fault(pid),
            Command::Members(name) | Command::LocalMembers(name) => name_fault(name),
            Command::WhichGroups => None,
            Command::Closest(name, _) => name_fault(name),
        }
    }

    /// Why a process can't join or leave a group.
    fn member_fault(&self, name: &Term, pid: &Pid) -> Option<CommandFault>
        ensures { result ≡ fault_of (nodes_of self.now) (kept_by self.now) (commands.Join name.now pid.now) }
    {
        match name_fault(name) {
            Some(fault) => Some(fault),
            None => match self.opens.place_of_name(&pid.node) {
                Some(_) => None,
                None => Some(CommandFault::ForeignPid),
            },
        }
    }

    /// Why no process can be made.
    fn make_fault(&self) -> Option<CommandFault>
        ensures { result ≡ fault_of (nodes_of self.now) (kept_by self.now) commands.Make }
    {
        if self.processes.is_full() {
            Some(CommandFault::ProcessLimit)
        } else {
            None
        }
    }

    /// Why a process can't end.
    fn end_fault(&self, pid: &Pid) -> Option<CommandFault>
        ensures { result ≡ fault_of (nodes_of self.now) (kept_by self.now) (commands.Finish pid.now) }
    {
        let end = self.processes.finish(pid, &self.ended);
        if end == Err(EndFault::ForeignPid) {
            return Some(CommandFault::ForeignPid);
        }
        if !self.formed() {
            return Some(CommandFault::NotFormed);
        }
        fault_of_end(end)
    }
}

/// Why a name can't be sent.
fn name_fault(name: &Term) -> Option<CommandFault>
    ensures { result ≡ first_that_holds ((not (is_name name.now), NameTooLarge) ∷ []) }
{
    match check_name(name) {
        Ok(()) => None,
        Err(_) => Some(CommandFault::NameTooLarge),
    }
}

/// Why a process of a formed node can't end, as its processes tell.
fn fault_of_end(end: Result<(), EndFault>) -> Option<CommandFault>
    ensures unmade { end ≡ Err ends.NotMade → result ≡ Some faults.NotMade }
    ensures ended { end ≡ Err ends.AlreadyEnded → result ≡ Some faults.AlreadyEnded }
    ensures none { IsOk end → result ≡ None }
{
    match end {
        Err(EndFault::NotMade) => Some(CommandFault::NotMade),
        Err(EndFault::AlreadyEnded) => Some(CommandFault::AlreadyEnded),
        _ => None,
    }
}
