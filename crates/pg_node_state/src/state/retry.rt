//! How a command that waits is tried again.

ghost use Rattle.std.specs.Prelude.{◌≡◌, ◌<◌, IfOk};
ghost use Rattle.pg_node_ports.specs.PgMessageTypes.Limits.{max_stamp};

use crate::state::{NodeFault, NodeState};
use bytes::BytesMut;
use pg_node_ports::{Gathering, GroupTable, MAX_STAMP, OpId, Refusal, Stage};
use pg_node_sends::{Done, Outgoing};
use std::alloc::AllocError;

impl<T: GroupTable + Drop> NodeState<T> {
    ghost use Rattle.pg_node_ports.specs.PgStep.Attempts.{go_on, replies_in, tried_again, is_complete};
    ghost use Rattle.pg_node_ports.specs.PgStep.Step.{Retry, at_clock, step_act};
    ghost use Rattle.pg_node_state.specs.Clocks.{IsNow};
    ghost use Rattle.pg_node_state.specs.Issued.{ports_of};
    ghost use Rattle.pg_node_sends.specs.Sendable.{AreSendable};
    ghost use Rattle.pg_node_state.specs.States.{Stays};
    ghost use Rattle.pg_node_state.specs.States.{names_of, nodes_of, live_of, kept_by};
    ghost use Rattle.pg_node_state.specs.States.{state_of, answers_of, Happens, Comes};
    ghost use Rattle.pg_node_state.specs.Waiting.{is_ready};

    /// Tries a command again that waits: a new attempt begins, or, where all has come that it gathers, what follows
    /// then (as where the last that it waited for was lost). The clock is one more.
    ///
    /// Errors: `Refused` by `NotWaiting` where the command does not wait, and by `ClockFull` where the clock would
    /// pass 1,073,741,824; `OutOfMemory`. They change nothing.
    ///
    /// Cost: O(open commands + peers) and that of what the turn does to the table.
    pub fn retry(&mut self, op: OpId) -> Result<Done, NodeFault>
        requires place { op.port < ports_of self.old }
        ensures event { Comes (names_of self.old)
            (step_act (nodes_of self.old) (ports_of self.old) (Retry op) (state_of self.old))
            result (state_of self.new) (answers_of self.old) (answers_of self.new) }
        ensures stays { Stays self.old self.new result }
        ensures fits { IfOk result (λ done. AreSendable (names_of self.old) done.sends.items) }
    {
        self.retry_as(&mut BytesMut::new(self.alloc), op)
    }

    /// The same, in the form in which the caller sends: a list of packets, or a frame. `buffer`: its memory takes the frame,
    /// where one is written; what it held is lost.
    ///
    /// Errors: those of `retry`. They change nothing but `buffer`, which may be left empty and without its memory.
    ///
    /// Cost: that of `retry`; a frame takes memory only where `buffer` has too little.
    pub fn retry_as<S: Outgoing + Drop>(
        &mut self,
        buffer: &mut BytesMut,
        op: OpId,
    ) -> Result<Done<S>, NodeFault>
        requires place { op.port < ports_of self.old }
        ensures event { Comes (names_of self.old)
            (step_act (nodes_of self.old) (ports_of self.old) (Retry op) (state_of self.old))
            result (state_of self.new) (answers_of self.old) (answers_of self.new) }
        ensures stays { Stays self.old self.new result }
        ensures fits { IfOk result (λ done. AreSendable (names_of self.old) (S.listed done.sends)) }
    {
        if !self.opens.waits(op) {
            return Err(NodeFault::Refused(Refusal::NotWaiting));
        }
        if self.clock >= MAX_STAMP {
            return Err(NodeFault::Refused(Refusal::ClockFull));
        }
        match self.try_again(buffer, self.clock + 1, op) {
            Ok(done) => Ok(done),
            Err(AllocError) => Err(NodeFault::OutOfMemory),
        }
    }

    /// Whether a command has an attempt under way and all has come that it gathers, of the live nodes: a retry goes
    /// on from there. So it is where the last that was missing was a lost node's.
    ///
    /// Cost: no memory; O(open commands + peers).
    pub fn is_ready(&self, op: OpId) -> bool
        ensures { result ≡ is_ready (live_of self.now) ((kept_by self.now).stages op) (kept_by self.now) }
    {
        match self.opens.stage(op) {
            Stage::Asking(number) | Stage::Changing(number) => self.opens.is_complete(number),
            Stage::Closed | Stage::Waiting => false,
        }
    }

    /// What a retry of a command leads to.
    fn try_again<S: Outgoing + Drop>(
        &mut self,
        buffer: &mut BytesMut,
        clock: u32,
        op: OpId,
    ) -> Result<Done<S>, AllocError>
        requires now { IsNow self.old.clock clock }
        ensures happens { IfOk result (λ done. Happens (names_of self.old) (at_clock clock
            (tried_again ((kept_by self.old).stages op) (live_of self.old) op (kept_by self.old)))
            done (state_of self.new) (answers_of self.old) (answers_of self.new)) }
        ensures stays { Stays self.old self.new result }
        ensures fits { IfOk result (λ done. AreSendable (names_of self.old) (S.listed done.sends)) }
    {
        match self.opens.stage(op) {
            Stage::Closed => Ok(self.wait(clock)),
            Stage::Waiting => self.attempt(buffer, clock, op),
            Stage::Asking(number) => self.go_on_asking(buffer, clock, number),
            Stage::Changing(number) => self.go_on_changing(buffer, clock, number),
        }
    }

    /// What follows for the request for the lock under the reference of this number.
    fn go_on_asking<S: Outgoing + Drop>(
        &mut self,
        buffer: &mut BytesMut,
        clock: u32,
        number: u32,
    ) -> Result<Done<S>, AllocError>
        requires now { IsNow self.old.clock clock }
        ensures happens { IfOk result (λ done. Happens (names_of self.old) (at_clock clock
            (go_on (live_of self.old) number ((kept_by self.old).uses number) (kept_by self.old)))
            done (state_of self.new) (answers_of self.old) (answers_of self.new)) }
        ensures stays { Stays self.old self.new result }
        ensures fits { IfOk result (λ done. AreSendable (names_of self.old) (S.listed done.sends)) }
    {
        match self.opens.gathering(number) {
            Gathering::Lock(op) => self.go_on(buffer, clock, number, op),
            Gathering::Update(_, _) => Ok(self.wait(clock)),
            Gathering::Nothing => Ok(self.wait(clock)),
        }
    }

    /// What follows for the update under the reference of this number.
    fn go_on_changing<S: Outgoing + Drop>(
        &mut self,
        buffer: &mut BytesMut,
        clock: u32,
        number: u32,
    ) -> Result<Done<S>, AllocError>
        requires now { IsNow self.old.clock clock }
        ensures happens { IfOk result (λ done. Happens (names_of self.old) (at_clock clock
            (replies_in (live_of self.old) number ((kept_by self.old).uses number) (kept_by self.old)))
            done (state_of self.new) (answers_of self.old) (answers_of self.new)) }
        ensures stays { Stays self.old self.new result }
        ensures fits { IfOk result (λ done. AreSendable (names_of self.old) (S.listed done.sends)) }
    {
        match self.opens.gathering(number) {
            Gathering::Update(op, lock) => {
                if self.opens.is_complete(number) {
                    self.finish(buffer, clock, number, op, lock)
                } else {
                    Ok(self.wait(clock))
                }
            }
            Gathering::Lock(_) => Ok(self.wait(clock)),
            Gathering::Nothing => Ok(self.wait(clock)),
        }
    }
}
