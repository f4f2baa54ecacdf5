//! How a command is counted at its port, and answered.

ghost use Rattle.std.specs.Prelude.{◌<◌, IfOk};
ghost use Rattle.pg_node_ports.specs.PgStep.State.{Response};

use crate::state::NodeState;
use pg_node_ports::{GroupTable, Reply, give, reserve_answer};
use pg_node_sends::{Done, Outgoing};
use std::alloc::AllocError;

impl<T: GroupTable + Drop> NodeState<T> {
    ghost use Rattle.pg_node_ports.specs.PgNodeOpens.Places.{name_at};
    ghost use Rattle.pg_node_ports.specs.PgStep.Commands.{Answers, answer};
    ghost use Rattle.pg_node_ports.specs.PgStep.Step.{at_clock};
    ghost use Rattle.pg_node_state.specs.Clocks.{IsNow};
    ghost use Rattle.pg_node_state.specs.Issued.{op_issued, ports_of};
    ghost use Rattle.pg_node_state.specs.States.{Stays};
    ghost use Rattle.pg_node_state.specs.States.{names_of, kept_by, state_of, answers_of, Happens};
    ghost use Rattle.pg_node_sends.specs.Sendable.{AreSendable};

    /// Counts the next command of a port, and answers it.
    pub(crate) fn answer<S: Outgoing + Drop>(
        &mut self,
        clock: u32,
        port: u16,
        reply: Reply,
    ) -> Result<Done<S>, AllocError>
        requires now { IsNow self.old.clock clock }
        requires place { port < ports_of self.old }
        ensures happens { (response : Response) → Answers (name_at (names_of self.old) 0) response reply
            → IfOk result (λ done. Happens (names_of self.old) (at_clock clock (op_issued port (λ op. answer op response) (kept_by self.old)))
            done (state_of self.new) (answers_of self.old) (answers_of self.new)) }
        ensures stays { Stays self.old self.new result }
        ensures fits { IfOk result (λ done. AreSendable (names_of self.old) (S.listed done.sends)) }
    {
        match reserve_answer(&mut self.ports, port) {
            Ok(()) => {
                give(&mut self.ports, port, reply);
                self.clock = clock;
                Ok(Done::nothing(self.alloc))
            }
            Err(fault) => {
                drop(reply);
                Err(fault)
            }
        }
    }
}
