//! What a command that changes a group leads to.

ghost use Rattle.std.specs.Prelude.{◌≡◌, ◌<◌, true, Some, IfOk};
ghost use Rattle.std.specs.Option.{is_some};
ghost use Rattle.pg_node_ports.specs.PgGroup.declared.update.Update.{Update};
ghost use Rattle.pg_node_ports.specs.PgGroup.Value.{name_of};
ghost use Rattle.pg_node_ports.specs.PgMessageTypes.Name.{is_name};
ghost use Rattle.pg_node_ports.specs.PgStep.Commands.{change_of, look};

use crate::state::NodeState;
use bytes::BytesMut;
use pg_node_ports::{Command, GroupTable, look};
use pg_node_sends::{Done, Outgoing};
use std::alloc::AllocError;

impl<T: GroupTable + Drop> NodeState<T> {
    ghost use Rattle.pg_node_ports.specs.PgStep.Commands.{change};
    ghost use Rattle.pg_node_ports.specs.PgStep.Step.{at_clock};
    ghost use Rattle.pg_node_state.specs.Clocks.{IsNow};
    ghost use Rattle.pg_node_state.specs.Issued.{op_issued, ports_of};
    ghost use Rattle.pg_node_sends.specs.Sendable.{AreSendable};
    ghost use Rattle.pg_node_state.specs.States.{Stays};
    ghost use Rattle.pg_node_state.specs.States.{names_of, live_of, kept_by, state_of, answers_of, Happens};

    /// Changes a group, for the next command of a port: it is answered at once by the look, or begun.
    pub(crate) fn change<S: Outgoing + Drop>(
        &mut self,
        buffer: &mut BytesMut,
        clock: u32,
        port: u16,
        command: &Command,
    ) -> Result<Done<S>, AllocError>
        requires now { IsNow self.old.clock clock }
        requires place { port < ports_of self.old }
        requires change { is_some (change_of command.now) ≡ true }
        requires named { (update : Update) → change_of command.now ≡ Some update → is_name (name_of update) ≡ true }
        ensures happens { (update : Update) → change_of command.now ≡ Some update → IfOk result (λ done. Happens (names_of self.old)
            (at_clock clock (op_issued port (λ op. change (live_of self.old) op update) (kept_by self.old)))
            done (state_of self.new) (answers_of self.old) (answers_of self.new)) }
        ensures stays { Stays self.old self.new result }
        ensures fits { IfOk result (λ done. AreSendable (names_of self.old) (S.listed done.sends)) }
    {
        match look(self.alloc, &self.table, command)? {
            Some(reply) => self.answer(clock, port, reply),
            None => self.undertake(buffer, clock, port, command),
        }
    }
}
