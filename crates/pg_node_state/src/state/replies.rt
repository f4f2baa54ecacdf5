//! What a node makes of a reply.

ghost use Rattle.std.specs.Prelude.{◌≡◌, ◌≢◌, ◌<◌, ◌+◌, true, false, Err, IfOk, length};
ghost use Rattle.pg_node_ports.specs.PgMessageTypes.declared.message.Said.{Said};

use crate::state::{NodeFault, NodeState};
use bytes::BytesMut;
use pg_node_ports::{Gathering, GroupTable, Odd, OpId, Refusal, Said, Taken, number_of};
use pg_node_sends::{Done, Outgoing};
use pg_term::Reference;
use std::alloc::AllocError;

impl<T: GroupTable + Drop> NodeState<T> {
    ghost use Rattle.pg_node_ports.specs.PgMulticall.Gathered.{what_of};
    ghost use Rattle.pg_node_ports.specs.PgMulticall.declared.gather.Taken.TheVariants.{Counted};
    ghost use Rattle.pg_node_ports.specs.PgRefs.Numbered.{numbered};
    ghost use Rattle.pg_node_ports.specs.PgNodeOpens.Places.{name_at};
    ghost use Rattle.pg_node_ports.specs.PgNodeOpens.Readings.{gathering_of};
    ghost use Rattle.pg_node_ports.specs.PgNodeOpens.declared.command.Gathering.TheVariants as gatherings;
    ghost use Rattle.pg_node_ports.specs.PgStep.Attempts.{counted, gathered, use_of, reply_taken, strange};
    ghost use Rattle.pg_node_state.specs.Clocks.{IsNow};
    ghost use Rattle.pg_node_state.specs.declared.state.fault.NodeFault.TheVariants.{OutOfMemory};
    ghost use Rattle.pg_node_ports.specs.PgStep.Step.{at_clock};
    ghost use Rattle.pg_node_state.specs.Issued.{ports_of};
    ghost use Rattle.pg_node_state.specs.States.{Stays};
    ghost use Rattle.pg_node_state.specs.States.{names_of, live_of, kept_by, state_of};
    ghost use Rattle.pg_node_state.specs.States.{answers_of, forgotten_of, is_counted, Happens, ComesAt};
    ghost use Rattle.pg_node_sends.specs.Sendable.{AreSendable};

    /// Takes the reply of a peer, which is not lost.
    ///
    /// Errors: `Refused` by `NotAMessage` where the reply is not of the kind that is gathered; else `OutOfMemory`.
    pub(crate) fn take_reply<S: Outgoing + Drop>(
        &mut self,
        buffer: &mut BytesMut,
        clock: u32,
        peer: usize,
        reference: &Reference,
        said: Said,
    ) -> Result<Done<S>, NodeFault>
        requires now { IsNow self.old.clock clock }
        requires place { peer + 1 < length (names_of self.old) }
        ensures light { is_counted (what_of true (gathered (use_of (live_of self.old) reference.now (kept_by self.old)) (name_at (names_of self.old) (peer + 1)))) ≡ false
            → result ≢ Err OutOfMemory }
        ensures comes { ComesAt clock (names_of self.old) (reply_taken (live_of self.old) (name_at (names_of self.old) (peer + 1)) reference.now said (kept_by self.old))
            result (state_of self.new) (answers_of self.old) (answers_of self.new) }
        ensures stays { Stays self.old self.new result }
        ensures fits { IfOk result (λ done. AreSendable (names_of self.old) (S.listed done.sends)) }
    {
        match number_of(self.opens.name(0), reference) {
            Some(number) => self.take_numbered(buffer, clock, peer, number, said),
            None => Ok(self.note_odd(clock, Odd::Stranger)),
        }
    }

    /// Takes the reply of a peer, which is not lost, to the reference of this number.
    ///
    /// Errors: those of `take_reply`.
    pub(crate) fn take_numbered<S: Outgoing + Drop>(
        &mut self,
        buffer: &mut BytesMut,
        clock: u32,
        peer: usize,
        number: u32,
        said: Said,
    ) -> Result<Done<S>, NodeFault>
        requires now { IsNow self.old.clock clock }
        requires place { peer + 1 < length (names_of self.old) }
        ensures light { is_counted (what_of true (gathered (use_of (live_of self.old) (numbered (live_of self.old).own number) (kept_by self.old)) (name_at (names_of self.old) (peer + 1)))) ≡ false
            → result ≢ Err OutOfMemory }
        ensures comes { ComesAt clock (names_of self.old) (reply_taken (live_of self.old) (name_at (names_of self.old) (peer + 1)) (numbered (live_of self.old).own number) said (kept_by self.old))
            result (state_of self.new) (answers_of self.old) (answers_of self.new) }
        ensures stays { Stays self.old self.new result }
        ensures fits { IfOk result (λ done. AreSendable (names_of self.old) (S.listed done.sends)) }
    {
        self.look_for(number);
        self.take_looked_for(buffer, clock, peer, number, said)
    }

    /// Looks for the command that has the reference of this number, so that what follows finds it at once.
    fn look_for(&mut self, number: u32)
        ensures state { state_of self.new ≡ state_of self.old }
        ensures answers { answers_of self.new ≡ answers_of self.old }
        ensures live { live_of self.new ≡ live_of self.old }
        ensures names { names_of self.new ≡ names_of self.old }
        ensures ports { ports_of self.new ≡ ports_of self.old }
        ensures forgotten { forgotten_of self.new ≡ forgotten_of self.old }
    {
        self.opens.look_for(number);
    }

    /// Takes the reply once its command was looked for.
    fn take_looked_for<S: Outgoing + Drop>(
        &mut self,
        buffer: &mut BytesMut,
        clock: u32,
        peer: usize,
        number: u32,
        said: Said,
    ) -> Result<Done<S>, NodeFault>
        requires now { IsNow self.old.clock clock }
        requires place { peer + 1 < length (names_of self.old) }
        ensures light { is_counted (what_of true (gathered (use_of (live_of self.old) (numbered (live_of self.old).own number) (kept_by self.old)) (name_at (names_of self.old) (peer + 1)))) ≡ false
            → result ≢ Err OutOfMemory }
        ensures comes { ComesAt clock (names_of self.old) (reply_taken (live_of self.old) (name_at (names_of self.old) (peer + 1)) (numbered (live_of self.old).own number) said (kept_by self.old))
            result (state_of self.new) (answers_of self.old) (answers_of self.new) }
        ensures stays { Stays self.old self.new result }
        ensures fits { IfOk result (λ done. AreSendable (names_of self.old) (S.listed done.sends)) }
    {
        let kind = is_kind(self.opens.gathering(number), said);
        match self.opens.heard(number, peer + 1) {
            Taken::Stranger => Ok(self.note_odd(clock, Odd::Stranger)),
            Taken::Double if kind => Ok(self.note_odd(clock, Odd::Double)),
            Taken::Counted if kind => match self.count(buffer, clock, number, peer, said) {
                Ok(done) => Ok(done),
                Err(AllocError) => Err(NodeFault::OutOfMemory),
            },
            Taken::Double | Taken::Counted => Err(NodeFault::Refused(Refusal::NotAMessage)),
        }
    }

    /// Counts the reply of a peer, and goes on.
    fn count<S: Outgoing + Drop>(
        &mut self,
        buffer: &mut BytesMut,
        clock: u32,
        number: u32,
        peer: usize,
        said: Said,
    ) -> Result<Done<S>, AllocError>
        requires now { IsNow self.old.clock clock }
        requires place { peer + 1 < length (names_of self.old) }
        requires new { what_of true (gathered ((kept_by self.old).uses number) (name_at (names_of self.old) (peer + 1))) ≡ Counted }
        ensures happens { IfOk result (λ done. Happens (names_of self.old) (at_clock clock
            (counted ((kept_by self.old).uses number) (live_of self.old) (name_at (names_of self.old) (peer + 1)) number said (kept_by self.old)))
            done (state_of self.new) (answers_of self.old) (answers_of self.new)) }
        ensures stays { Stays self.old self.new result }
        ensures fits { IfOk result (λ done. AreSendable (names_of self.old) (S.listed done.sends)) }
    {
        match self.opens.gathering(number) {
            Gathering::Lock(op) => self.count_answer(buffer, clock, number, op, peer, said),
            Gathering::Update(op, lock) => self.count_ok(buffer, clock, number, op, lock, peer),
            Gathering::Nothing => unreachable!(),
        }
    }

    /// Counts the answer of a peer to a request for the lock, and goes on.
    fn count_answer<S: Outgoing + Drop>(
        &mut self,
        buffer: &mut BytesMut,
        clock: u32,
        number: u32,
        op: OpId,
        peer: usize,
        said: Said,
    ) -> Result<Done<S>, AllocError>
        requires now { IsNow self.old.clock clock }
        requires place { peer + 1 < length (names_of self.old) }
        requires locking { gathering_of ((kept_by self.old).uses number) ≡ gatherings.Lock op }
        requires new { what_of true (gathered ((kept_by self.old).uses number) (name_at (names_of self.old) (peer + 1))) ≡ Counted }
        ensures happens { IfOk result (λ done. Happens (names_of self.old) (at_clock clock
            (counted ((kept_by self.old).uses number) (live_of self.old) (name_at (names_of self.old) (peer + 1)) number said (kept_by self.old)))
            done (state_of self.new) (answers_of self.old) (answers_of self.new)) }
        ensures stays { Stays self.old self.new result }
        ensures fits { IfOk result (λ done. AreSendable (names_of self.old) (S.listed done.sends)) }
    {
        self.opens.count_answer(number, peer + 1, is_granted(said));
        match self.go_on(buffer, clock, number, op) {
            Ok(done) => Ok(done),
            Err(fault) => {
                self.opens.take_back_answer(number, peer + 1);
                Err(fault)
            }
        }
    }

    /// Counts the ok of a peer, and ends the command where all have come.
    fn count_ok<S: Outgoing + Drop>(
        &mut self,
        buffer: &mut BytesMut,
        clock: u32,
        number: u32,
        op: OpId,
        lock: u32,
        peer: usize,
    ) -> Result<Done<S>, AllocError>
        requires now { IsNow self.old.clock clock }
        requires place { peer + 1 < length (names_of self.old) }
        requires updating { gathering_of ((kept_by self.old).uses number) ≡ gatherings.Update op lock }
        requires new { what_of true (gathered ((kept_by self.old).uses number) (name_at (names_of self.old) (peer + 1))) ≡ Counted }
        ensures happens { (said : Said) → IfOk result (λ done. Happens (names_of self.old) (at_clock clock
            (counted ((kept_by self.old).uses number) (live_of self.old) (name_at (names_of self.old) (peer + 1)) number said (kept_by self.old)))
            done (state_of self.new) (answers_of self.old) (answers_of self.new)) }
        ensures stays { Stays self.old self.new result }
        ensures fits { IfOk result (λ done. AreSendable (names_of self.old) (S.listed done.sends)) }
    {
        self.opens.count_ok(number, peer + 1);
        if !self.opens.is_complete(number) {
            return Ok(self.wait(clock));
        }
        match self.finish(buffer, clock, number, op, lock) {
            Ok(done) => Ok(done),
            Err(fault) => {
                self.opens.take_back_ok(number, peer + 1);
                Err(fault)
            }
        }
    }

    /// Notes a reply that completes nothing.
    fn note_odd<S: Outgoing + Drop>(&mut self, clock: u32, odd: Odd) -> Done<S>
        requires now { IsNow self.old.clock clock }
        ensures happens { Happens (names_of self.old) (at_clock clock (strange odd (kept_by self.old))) result (state_of self.new) (answers_of self.old) (answers_of self.new) }
        ensures names { names_of self.new ≡ names_of self.old }
        ensures ports { ports_of self.new ≡ ports_of self.old }
        ensures forgotten { forgotten_of self.new ≡ forgotten_of self.old }
        ensures fits { AreSendable (names_of self.old) (S.listed result.sends) }
    {
        self.clock = clock;
        Done {
            sends: S::nothing(self.alloc),
            began: None,
            odd: Some(odd),
        }
    }
}

ghost use Rattle.pg_node_ports.specs.PgStep.Attempts.{is_kind};
ghost use Rattle.pg_node_ports.specs.PgStep.State.{Use};
ghost use Rattle.pg_node_ports.specs.PgNodeOpens.Readings.{gathering_of as what_is_gathered};

/// Whether a reply is of the kind that is gathered.
pub(crate) fn is_kind(gathering: Gathering, said: Said) -> bool
    ensures { (used : Use) → gathering ≡ what_is_gathered used → result ≡ is_kind used said }
{
    match gathering {
        Gathering::Lock(_) => is_of_lock(said),
        Gathering::Update(_, _) => !is_of_lock(said),
        Gathering::Nothing => true,
    }
}

ghost use Rattle.pg_node_ports.specs.PgStep.Attempts.{is_of_lock};

/// Whether it is what a request for a lock is answered.
fn is_of_lock(said: Said) -> bool
    ensures { result ≡ is_of_lock said }
{
    match said {
        Said::Granted | Said::Denied => true,
        Said::Applied => false,
    }
}

ghost use Rattle.pg_node_ports.specs.PgStep.Attempts.{own_verdict, lock_status};

/// Whether a reply grants the lock.
fn is_granted(said: Said) -> bool
    ensures { own_verdict result ≡ lock_status said }
{
    match said {
        Said::Granted => true,
        Said::Denied | Said::Applied => false,
    }
}
