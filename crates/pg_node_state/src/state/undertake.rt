//! How a command that changes a group is opened.

ghost use Rattle.std.specs.Prelude.{◌≡◌, ◌<◌, true, is_some, Some, IfOk};
ghost use Rattle.pg_node_ports.specs.PgGroup.declared.update.Update.{Update};
ghost use Rattle.pg_node_ports.specs.PgGroup.Value.{name_of};
ghost use Rattle.pg_node_ports.specs.PgMessageTypes.Name.{is_name};
ghost use Rattle.pg_node_ports.specs.PgStep.Commands.{change_of};

use crate::state::NodeState;
use crate::state::fresh::prepared;
use bytes::BytesMut;
use pg_node_ports::{Command, CommandFault, GroupTable, Reply, count, next_op, uncount};
use pg_node_sends::{Done, Outgoing, is_busy};
use std::alloc::AllocError;

impl<T: GroupTable + Drop> NodeState<T> {
    ghost use Rattle.pg_node_ports.specs.PgStep.Attempts.{attempt};
    ghost use Rattle.pg_node_ports.specs.PgStep.Commands.{undertake, open_command};
    ghost use Rattle.pg_node_ports.specs.PgStep.Step.{at_clock};
    ghost use Rattle.pg_node_ports.specs.PgStep.Turns.{and_then};
    ghost use Rattle.pg_node_state.specs.Clocks.{IsNow};
    ghost use Rattle.pg_node_state.specs.Issued.{op_issued, ports_of};
    ghost use Rattle.pg_node_sends.specs.Sendable.{AreSendable};
    ghost use Rattle.pg_node_state.specs.States.{Stays};
    ghost use Rattle.pg_node_state.specs.States.{names_of, live_of, kept_by, state_of, answers_of, Happens};

    /// Carries out a change that has to take the lock, the next command of a port: it is refused as busy where as many
    /// commands are open as can be, else it is opened, and its first attempt begins.
    pub(crate) fn undertake<S: Outgoing + Drop>(
        &mut self,
        buffer: &mut BytesMut,
        clock: u32,
        port: u16,
        command: &Command,
    ) -> Result<Done<S>, AllocError>
        requires now { IsNow self.old.clock clock }
        requires place { port < ports_of self.old }
        requires change { is_some (change_of command.now) ≡ true }
        requires named { (update : Update) → change_of command.now ≡ Some update → is_name (name_of update) ≡ true }
        ensures happens { (update : Update) → change_of command.now ≡ Some update → IfOk result (λ done. Happens (names_of self.old)
            (at_clock clock (op_issued port (λ op. undertake (live_of self.old) op update) (kept_by self.old)))
            done (state_of self.new) (answers_of self.old) (answers_of self.new)) }
        ensures stays { Stays self.old self.new result }
        ensures fits { IfOk result (λ done. AreSendable (names_of self.old) (S.listed done.sends)) }
    {
        if is_busy(&self.opens) {
            return self.answer(clock, port, Reply::Refused(CommandFault::Busy.number()));
        }
        self.open(buffer, clock, port, command)
    }

    /// Opens the next command of a port, and begins its first attempt.
    fn open<S: Outgoing + Drop>(
        &mut self,
        buffer: &mut BytesMut,
        clock: u32,
        port: u16,
        command: &Command,
    ) -> Result<Done<S>, AllocError>
        requires now { IsNow self.old.clock clock }
        requires place { port < ports_of self.old }
        requires change { is_some (change_of command.now) ≡ true }
        requires named { (update : Update) → change_of command.now ≡ Some update → is_name (name_of update) ≡ true }
        ensures happens { (update : Update) → change_of command.now ≡ Some update → IfOk result (λ done. Happens (names_of self.old)
            (at_clock clock (op_issued port (λ op s. and_then (open_command op update s) (attempt (live_of self.old) op update)) (kept_by self.old)))
            done (state_of self.new) (answers_of self.old) (answers_of self.new)) }
        ensures stays { Stays self.old self.new result }
        ensures fits { IfOk result (λ done. AreSendable (names_of self.old) (S.listed done.sends)) }
    {
        let before = self.clock;
        let update = prepared(self.alloc, &mut self.opens, command)?;
        let op = next_op(&self.ports, port);
        count(&mut self.ports, port);
        self.opens.add(op, update);
        self.clock = clock;
        match self.attempt(buffer, clock, op) {
            Ok(done) => Ok(done),
            Err(fault) => {
                self.opens.take_back(op);
                uncount(&mut self.ports, port);
                self.clock = before;
                Err(fault)
            }
        }
    }
}
