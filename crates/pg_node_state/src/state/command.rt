//! What a node makes of a command.

ghost use Rattle.std.specs.Prelude.{◌≡◌, ◌<◌, ◌+◌, true, None, IfOk};
ghost use Rattle.pg_node_ports.specs.PgMessageTypes.Limits.{max_stamp};

use crate::state::{NodeFault, NodeState};
use bytes::BytesMut;
use pg_node_ports::{Command, GroupTable, MAX_STAMP, Refusal, Reply, query_reply};
use pg_node_sends::{Done, Outgoing};
use std::alloc::AllocError;

impl<T: GroupTable + Drop> NodeState<T> {
    ghost use Rattle.pg_node_ports.specs.PgStep.Commands.{carried_out, fault_of, answer};
    ghost use Rattle.pg_node_ports.specs.PgStep.Commands as commands;
    ghost use Rattle.pg_node_ports.specs.PgStep.State.Response.{Read};
    ghost use Rattle.pg_node_ports.specs.PgStep.StepLaws.{is_query};
    ghost use Rattle.pg_node_ports.specs.PgStep.Step.{Issue, step_act, at_clock};
    ghost use Rattle.pg_node_state.specs.Clocks.{IsNow};
    ghost use Rattle.pg_node_state.specs.Issued.{op_issued, ports_of};
    ghost use Rattle.pg_node_sends.specs.Sendable.{AreSendable};
    ghost use Rattle.pg_node_state.specs.States.{Stays};
    ghost use Rattle.pg_node_state.specs.States.{names_of, nodes_of, live_of, kept_by};
    ghost use Rattle.pg_node_state.specs.States.{state_of, answers_of, Happens, Comes};

    /// Takes a command that comes in at a port: it is the port's next, with the next number. `port`: its place among
    /// the ports. The event adds 1 to the clock, and what is sent carries it.
    ///
    /// Answered at once: a command with a `CommandFault`, by the number of the first that holds; a query, by the own
    /// table as it is; a process that is made; a process that ends, which each live peer is sent; and by a look into
    /// the own table a create of a group that is there, and a join or a leave of one that is not. Any other change is
    /// refused as `Busy` where 256 commands are open. Else it is opened, and its first attempt begins: the greatest
    /// live node is asked for the lock, alone.
    ///
    /// Errors: `Refused` by `ClockFull` where the clock would pass 1,073,741,824; `OutOfMemory`. They change nothing.
    ///
    /// Cost: a walk over the name; the table's `has` for a look, the lists for a query, the table's `drop_pid` for an
    /// end; and two allocations for each peer that something goes to.
    ///
    /// The rule: `create/1`, `delete/1`, `join/2`, `leave/2`, `get_members/1`, `get_local_members/1`,
    /// `which_groups/0` and `get_closest_pid/1` of the pg2 manual page, and the making and ending of processes.
    pub fn command(&mut self, port: u16, command: &Command) -> Result<Done, NodeFault>
        requires place { port < ports_of self.old }
        ensures event { Comes (names_of self.old)
            (step_act (nodes_of self.old) (ports_of self.old) (Issue port command.now) (state_of self.old))
            result (state_of self.new) (answers_of self.old) (answers_of self.new) }
        ensures stays { Stays self.old self.new result }
        ensures fits { IfOk result (λ done. AreSendable (names_of self.old) done.sends.items) }
    {
        self.command_as(&mut BytesMut::new(self.alloc), port, command)
    }

    /// The same, in the form in which the caller sends: a list of packets, or a frame. `buffer`: its memory takes the frame,
    /// where one is written; what it held is lost.
    ///
    /// Errors: those of `command`. They change nothing but `buffer`, which may be left empty and without its memory.
    ///
    /// Cost: that of `command`; a frame takes memory only where `buffer` has too little.
    pub fn command_as<S: Outgoing + Drop>(
        &mut self,
        buffer: &mut BytesMut,
        port: u16,
        command: &Command,
    ) -> Result<Done<S>, NodeFault>
        requires place { port < ports_of self.old }
        ensures event { Comes (names_of self.old)
            (step_act (nodes_of self.old) (ports_of self.old) (Issue port command.now) (state_of self.old))
            result (state_of self.new) (answers_of self.old) (answers_of self.new) }
        ensures stays { Stays self.old self.new result }
        ensures fits { IfOk result (λ done. AreSendable (names_of self.old) (S.listed done.sends)) }
    {
        if self.clock >= MAX_STAMP {
            return Err(NodeFault::Refused(Refusal::ClockFull));
        }
        Ok(self.issue(buffer, self.clock + 1, port, command)?)
    }

    /// Answers the next command of a port, where it is refused, and else carries it out.
    fn issue<S: Outgoing + Drop>(
        &mut self,
        buffer: &mut BytesMut,
        clock: u32,
        port: u16,
        command: &Command,
    ) -> Result<Done<S>, AllocError>
        requires now { IsNow self.old.clock clock }
        requires place { port < ports_of self.old }
        ensures happens { IfOk result (λ done. Happens (names_of self.old)
            (at_clock clock (commands.command (nodes_of self.old) (live_of self.old) port command.now (kept_by self.old)))
            done (state_of self.new) (answers_of self.old) (answers_of self.new)) }
        ensures stays { Stays self.old self.new result }
        ensures fits { IfOk result (λ done. AreSendable (names_of self.old) (S.listed done.sends)) }
    {
        match self.command_fault(command) {
            Some(fault) => self.answer(clock, port, Reply::Refused(fault.number())),
            None => self.carry_out(buffer, clock, port, command),
        }
    }

    /// Carries out the next command of a port, which is not refused.
    fn carry_out<S: Outgoing + Drop>(
        &mut self,
        buffer: &mut BytesMut,
        clock: u32,
        port: u16,
        command: &Command,
    ) -> Result<Done<S>, AllocError>
        requires now { IsNow self.old.clock clock }
        requires place { port < ports_of self.old }
        requires taken { fault_of (nodes_of self.old) (kept_by self.old) command.now ≡ None }
        ensures happens { IfOk result (λ done. Happens (names_of self.old)
            (at_clock clock (op_issued port (λ op. carried_out (live_of self.old) op command.now) (kept_by self.old)))
            done (state_of self.new) (answers_of self.old) (answers_of self.new)) }
        ensures stays { Stays self.old self.new result }
        ensures fits { IfOk result (λ done. AreSendable (names_of self.old) (S.listed done.sends)) }
    {
        match command {
            Command::Create(_) | Command::Delete(_) => self.change(buffer, clock, port, command),
            Command::Join(_, _) | Command::Leave(_, _) => self.change(buffer, clock, port, command),
            Command::Make => self.make_process(clock, port),
            Command::Finish(pid) => self.end_process(buffer, clock, port, pid),
            _ => self.read(clock, port, command),
        }
    }

    /// Answers a query, the next command of a port, by the own table as it is.
    fn read<S: Outgoing + Drop>(
        &mut self,
        clock: u32,
        port: u16,
        query: &Command,
    ) -> Result<Done<S>, AllocError>
        requires now { IsNow self.old.clock clock }
        requires place { port < ports_of self.old }
        requires query { is_query query.now ≡ true }
        ensures happens { IfOk result (λ done. Happens (names_of self.old)
            (at_clock clock (op_issued port (λ op. answer op (Read query.now (kept_by self.old).table)) (kept_by self.old)))
            done (state_of self.new) (answers_of self.old) (answers_of self.new)) }
        ensures stays { Stays self.old self.new result }
        ensures fits { IfOk result (λ done. AreSendable (names_of self.old) (S.listed done.sends)) }
    {
        let reply = query_reply(self.alloc, &self.table, self.opens.name(0), query)?;
        self.answer(clock, port, reply)
    }
}
