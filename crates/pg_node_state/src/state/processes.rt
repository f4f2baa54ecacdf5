//! How a process of the node is made, and how it ends.

ghost use Rattle.std.specs.Prelude.{◌≡◌, ◌<◌, ◌+◌, ◌++◌, ◌∷◌, ◌^◌, [], true, length, nat_eq, IfOk, OnOk, OnErr};
ghost use Rattle.pg_term.specs.Same.{same_pid};
ghost use Rattle.pg_node_ports.specs.PgGroup.Ended.{ended_of};
ghost use Rattle.pg_node_ports.specs.PgGroup.Functions.{upd};
ghost use Rattle.pg_node_ports.specs.PgGroup.Table.{without};
ghost use Rattle.pg_node_ports.specs.PgEnds.Limits.{max_processes};
ghost use Rattle.pg_node_ports.specs.PgStep.declared.answer.Reply.TheVariants as replies;
ghost use Rattle.pg_node_ports.specs.Ports.{counted_at};
ghost use Rattle.pg_node_ports.specs.Ports.{port_commands, answers_in, forgotten_in};

use crate::state::NodeState;
use bytes::BytesMut;
use pg_node_ports::{Ended, GroupTable, Port, Reply, give, reserve_answer, take_end};
use pg_node_sends::{Done, Order, Outgoing, to_live};
use pg_term::Pid;
use std::alloc::AllocError;

impl<T: GroupTable + Drop> NodeState<T> {
    ghost use Rattle.pg_node_ports.specs.PgStep.Commands.{make, end_process};
    ghost use Rattle.pg_node_ports.specs.PgStep.Step.{at_clock};
    ghost use Rattle.pg_node_state.specs.Clocks.{IsNow};
    ghost use Rattle.pg_node_state.specs.Issued.{op_issued, ports_of};
    ghost use Rattle.pg_node_state.specs.States.{Stays};
    ghost use Rattle.pg_node_state.specs.States.{names_of, live_of, kept_by, state_of, answers_of, Happens};
    ghost use Rattle.pg_node_sends.specs.Sendable.{AreSendable};

    /// Makes a process, for the next command of a port.
    pub(crate) fn make_process<S: Outgoing + Drop>(
        &mut self,
        clock: u32,
        port: u16,
    ) -> Result<Done<S>, AllocError>
        requires now { IsNow self.old.clock clock }
        requires place { port < ports_of self.old }
        requires limit { (kept_by self.old).processes < max_processes }
        ensures happens { IfOk result (λ done. Happens (names_of self.old) (at_clock clock (op_issued port (make (live_of self.old)) (kept_by self.old)))
            done (state_of self.new) (answers_of self.old) (answers_of self.new)) }
        ensures stays { Stays self.old self.new result }
        ensures fits { IfOk result (λ done. AreSendable (names_of self.old) (S.listed done.sends)) }
    {
        reserve_answer(&mut self.ports, port)?;
        // The limit is not reached, so that only memory can be missing.
        let Ok(pid) = self.processes.make() else {
            return Err(AllocError);
        };
        give(&mut self.ports, port, Reply::Made(pid));
        self.clock = clock;
        Ok(Done::nothing(self.alloc))
    }
    /// Ends a process of the node, for the next command of a port: it is in no group, and each live peer is sent its
    /// end.
    pub(crate) fn end_process<S: Outgoing + Drop>(
        &mut self,
        buffer: &mut BytesMut,
        clock: u32,
        port: u16,
        pid: &Pid,
    ) -> Result<Done<S>, AllocError>
        requires now { IsNow self.old.clock clock }
        requires place { port < ports_of self.old }
        ensures happens { IfOk result (λ done. Happens (names_of self.old) (at_clock clock (op_issued port (λ op. end_process (live_of self.old) op pid.now) (kept_by self.old)))
            done (state_of self.new) (answers_of self.old) (answers_of self.new)) }
        ensures stays { Stays self.old self.new result }
        ensures fits { IfOk result (λ done. AreSendable (names_of self.old) (S.listed done.sends)) }
    {
        let sends = to_live(self.alloc, buffer, clock, Order::End(pid), &self.opens)?;
        end_at(&mut self.ports, &mut self.table, &mut self.ended, port, pid)?;
        self.clock = clock;
        Ok(Done {
            sends,
            began: None,
            odd: None,
        })
    }
}

/// A process ends, for the next command of a port, which is answered ok.
///
/// Errors: `AllocError`, which changes nothing.
fn end_at<T: GroupTable + Drop>(
    ports: &mut Vec<Port>,
    table: &mut T,
    ended: &mut Ended,
    port: u16,
    pid: &Pid,
) -> Result<(), AllocError>
    requires place { port < length ports.old.items }
    requires few { port_commands ports.old.items port + 1 < 2 ^ 32 }
    ensures ended { OnOk result (ended_of ended.new ≡ upd same_pid (ended_of ended.old) pid.now true) }
    ensures dropped { OnOk result (T.contents table.new ≡ without (T.contents table.old) pid.now) }
    ensures counts { OnOk result (port_commands ports.new.items ≡ counted_at port (port_commands ports.old.items)) }
    ensures answers { OnOk result (answers_in ports.new.items ≡ upd nat_eq (answers_in ports.old.items) port
        (answers_in ports.old.items port ++ record { number = port_commands ports.old.items port + 1; reply = replies.Ok } ∷ [])) }
    ensures err_ended { OnErr result (ended_of ended.new ≡ ended_of ended.old) }
    ensures err_table { OnErr result (T.contents table.new ≡ T.contents table.old) }
    ensures err_counts { OnErr result (port_commands ports.new.items ≡ port_commands ports.old.items) }
    ensures err_answers { OnErr result (answers_in ports.new.items ≡ answers_in ports.old.items) }
    ensures len { length ports.new.items ≡ length ports.old.items }
    ensures forgotten { forgotten_in ports.new.items ≡ forgotten_in ports.old.items }
{
    reserve_answer(ports, port)?;
    take_end(pid, table, ended)?;
    give(ports, port, Reply::Ok);
    Ok(())
}
