//! What follows from what a process keeps: answers are said, changes are handed over, bytes go out.

use crate::fault::ProcessFault;
use crate::process::Process;
use pg_node::OpId;
use pg_node_process::Seen;

/// From this clock on it is old: half of the clocks are left.
const OLD_CLOCK: u32 = 1 << 29;

/// So many ended processes are many.
const MANY_ENDED: u64 = 1_000_000;

impl Process {
    ghost use Rattle.std.specs.Prelude.{◌≡◌, ◌≢◌, ◌≤◌, ◌<◌, ◌↔◌, ℕ, Bool, nat_lt, true, false, IfErr, IfOk, IsTrue, OnOk, [], length};
    ghost use Rattle.pg_node.specs.Nodes.{held_by, links_of};
    ghost use Rattle.pg_node.specs.PgNodeState.Issued.{ports_of};
    ghost use Rattle.pg_node.specs.PgNodeState.States.{answers_of};
    ghost use Rattle.pg_node_process.specs.Retries.{gives_way, is_due};
    ghost use Rattle.pg_process.specs.Chains.{Makes, Works, WorksUntil};
    ghost use Rattle.pg_process.specs.Changes.{Retries};
    ghost use Rattle.pg_process.specs.Deeds.{Looked};
    ghost use Rattle.pg_process.specs.Locks.{IsDenied};
    ghost use Rattle.pg_node.specs.PgNodeState.States.{kept_by, live_of};
    ghost use Rattle.pg_node.specs.PgNodeState.Waiting.{AreWaiting};
    ghost use Rattle.pg_node.specs.PgStep.Attempts.{waits};
    ghost use Rattle.pg_process.specs.Settled.{AllToldDenied, IsSettled, IsToldAll, IsToldDenied, IsToldFormed, IsToldMany, IsToldOld, NoneComes, NoneKeeps, NoneUnsaid, NoneWaits, OnlyDenied, OnlyLinks, OnlySends, OnlyTold};
    ghost use Rattle.pg_process.specs.Situations.{setting_of, situation_of};
    ghost use Rattle.pg_process.specs.Takings.{HasNone};
    ghost use Rattle.pg_process.specs.Turns.{Attends, HandsAt, HandsIf, HandsMany, HandsUpTo, RetriesAll, SaysAll, Serves, TriesAt, TriesEach, is_free};

    /// Says all answers at a port.
    ///
    /// Errors: `OutOfMemory`.
    ///
    /// Cost: that of `answer` for each.
    pub fn answer_all(&mut self, port: usize) -> Result<(), ProcessFault>
        requires { port < ports_of (held_by self.old.node) }
        ensures works { OnOk result (Works self.old self.new) }
        ensures says { OnOk result (SaysAll port self.old self.new) }
        ensures none { OnOk result (answers_of (held_by self.new.node) port ≡ []) }
        ensures others { OnOk result ((other : ℕ) → other ≢ port → answers_of (held_by self.new.node) other ≡ answers_of (held_by self.old.node) other) }
        ensures until { IfErr result (λ fault. WorksUntil fault self.old self.new) }
    {
        loop {
            match self.answer(port) {
                Ok(true) => {}
                Ok(false) => return Ok(()),
                Err(fault) => return Err(fault),
            }
        }
    }

    /// All bytes that wait for a peer go out.
    ///
    /// Errors: `OutOfMemory`.
    ///
    /// Cost: O(bytes).
    pub fn send_all(&mut self, peer: usize) -> Result<(), ProcessFault>
        requires { peer < length self.old.peers.items }
        ensures works { OnOk result (Works self.old self.new) }
        ensures none { OnOk result ((links_of self.new.node peer).outbox ≡ []) }
        ensures sends { OnOk result (OnlySends peer self.old self.new) }
        ensures until { IfErr result (λ fault. WorksUntil fault self.old self.new) }
    {
        loop {
            match self.send(peer) {
                Ok(true) => {}
                Ok(false) => return Ok(()),
                Err(fault) => return Err(fault),
            }
        }
    }

    /// Takes all whole packets of a peer.
    ///
    /// Errors: `ClockFull`, where the step says so; `OutOfMemory`.
    ///
    /// Cost: that of `take_next` for each.
    pub fn take_all(&mut self, peer: usize) -> Result<(), ProcessFault>
        requires { peer < length self.old.peers.items }
        ensures works { OnOk result (Works self.old self.new) }
        ensures none { OnOk result (HasNone peer self.new) }
        ensures until { IfErr result (λ fault. WorksUntil fault self.old self.new) }
    {
        loop {
            match self.take_next(peer) {
                Ok(true) => {}
                Ok(false) => return Ok(()),
                Err(fault) => return Err(fault),
            }
        }
    }

    /// Does what follows from what is kept. `is_tick`: time has passed.
    ///
    /// Errors: `ClockFull`, where the step says so; `OutOfMemory`.
    #[tactic(auto, using(crate::proofs::Chained::works_on, crate::proofs::Chained::works_until, crate::proofs::Chained::works_then, crate::proofs::Chained::until_then, crate::proofs::Chained::work_rests, crate::proofs::Chained::itself))]
    pub fn attend(&mut self, is_tick: bool) -> Result<(), ProcessFault>
        ensures works { OnOk result (Works self.old self.new) }
        ensures attends { OnOk result (Attends is_tick self.old self.new) }
        ensures settled { OnOk result (IsSettled self.new) }
        ensures until { IfErr result (λ fault. WorksUntil fault self.old self.new) }
    {
        match self.take_from_peers() {
            Ok(()) => {}
            Err(fault) => return Err(fault),
        }
        match self.serve_ports(is_tick) {
            Ok(()) => {}
            Err(fault) => return Err(fault),
        }
        match self.tell_once() {
            Ok(()) => {}
            Err(fault) => return Err(fault),
        }
        self.send_to_peers()
    }

    /// Takes all whole packets of all peers.
    fn take_from_peers(&mut self) -> Result<(), ProcessFault>
        ensures works { OnOk result (Works self.old self.new) }
        ensures none { OnOk result (NoneComes self.new) }
        ensures until { IfErr result (λ fault. WorksUntil fault self.old self.new) }
    {
        for peer in 0..self.peers.len() {
            match self.take_all(peer) {
                Ok(()) => {}
                Err(fault) => return Err(fault),
            }
        }
        Ok(())
    }

    /// Says the answers at all ports, tries denied changes again, hands over the next ones, and tells which were denied. No answer is left, and no
    /// change that could be handed over.
    #[tactic(auto, using(crate::proofs::Chained::works_on, crate::proofs::Chained::works_until, crate::proofs::Chained::works_then, crate::proofs::Chained::until_then, crate::proofs::Chained::work_rests, crate::proofs::Chained::itself))]
    fn serve_ports(&mut self, is_tick: bool) -> Result<(), ProcessFault>
        ensures works { OnOk result (Works self.old self.new) }
        ensures serves { OnOk result (Serves is_tick self.old self.new) }
        ensures said { OnOk result (NoneUnsaid self.new) }
        ensures handed { OnOk result (NoneKeeps self.new) }
        ensures denied { OnOk result (AllToldDenied self.new) }
        ensures until { IfErr result (λ fault. WorksUntil fault self.old self.new) }
    {
        match self.answer_ports() {
            Ok(()) => {}
            Err(fault) => return Err(fault),
        }
        match self.retry_all(is_tick) {
            Ok(()) => {}
            Err(fault) => return Err(fault),
        }
        match self.hand_over_all(is_tick) {
            Ok(()) => {}
            Err(fault) => return Err(fault),
        }
        self.tell_all_denied()
    }

    /// Says all answers at all ports.
    fn answer_ports(&mut self) -> Result<(), ProcessFault>
        ensures works { OnOk result (Works self.old self.new) }
        ensures said { OnOk result (NoneUnsaid self.new) }
        ensures until { IfErr result (λ fault. WorksUntil fault self.old self.new) }
    {
        for port in 0..self.desks.len() {
            match self.answer_all(port) {
                Ok(()) => {}
                Err(fault) => return Err(fault),
            }
        }
        Ok(())
    }

    /// Tries each denied change again that is due.
    fn retry_all(&mut self, is_tick: bool) -> Result<(), ProcessFault>
        ensures works { OnOk result (Works self.old self.new) }
        ensures retries { OnOk result (RetriesAll is_tick self.old self.new) }
        ensures until { IfErr result (λ fault. WorksUntil fault self.old self.new) }
    {
        let Ok(ops) = self.node.state().waiting() else {
            return Err(ProcessFault::OutOfMemory);
        };
        let tried = self.retry_each(ops.as_slice(), is_tick);
        drop(ops);
        tried
    }

    /// Tries each of these changes again that is due.
    fn retry_each(&mut self, ops: &[OpId], is_tick: bool) -> Result<(), ProcessFault>
        ensures works { OnOk result (Works self.old self.new) }
        ensures each { OnOk result (TriesEach ops.now is_tick self.old self.new) }
        ensures until { IfErr result (λ fault. WorksUntil fault self.old self.new) }
    {
        for op in ops {
            match self.retry_if_due(*op, is_tick) {
                Ok(()) => {}
                Err(fault) => return Err(fault),
            }
        }
        Ok(())
    }

    /// Looks at the lock of a denied change, and tries the change again where that is due.
    #[tactic(auto, using(crate::proofs::Chained::works_on, crate::proofs::Chained::works_until, crate::proofs::Chained::works_then, crate::proofs::Chained::until_then, crate::proofs::Chained::work_rests, crate::proofs::Chained::itself))]
    fn retry_if_due(&mut self, op: OpId, is_tick: bool) -> Result<(), ProcessFault>
        ensures works { OnOk result (Works self.old self.new) }
        ensures tries { OnOk result (TriesAt (nat_lt op.port (setting_of self.old).ports) op is_tick self.old self.new) }
        ensures until { IfErr result (λ fault. WorksUntil fault self.old self.new) }
    {
        let port = usize::from(op.port);
        if port >= self.desks.len() {
            return Ok(());
        }
        let seen = self.look_on(port, is_tick);
        if !self.is_due(port, seen, is_tick) {
            return Ok(());
        }
        match self.retry_now(op) {
            Ok(()) => {}
            Err(fault) => return Err(fault),
        }
        self.answer_all(port)
    }

    /// Whether the denied change of a port is tried again, by what was seen of its lock.
    fn is_due(&self, port: usize, seen: Seen, is_tick: bool) -> bool
        requires { port < ports_of (held_by self.now.node) }
        ensures { result ≡ is_due seen is_tick ((situation_of self.now).courtesies port) }
    {
        self.courtesies[port].is_due(seen, is_tick)
    }

    /// Tries a denied change again.
    fn retry_now(&mut self, op: OpId) -> Result<(), ProcessFault>
        requires { op.port < ports_of (held_by self.old.node) }
        ensures works { OnOk result (Works self.old self.new) }
        ensures retries { OnOk result ((did : Bool) × Retries op did self.old self.new) }
        ensures until { IfErr result (λ fault. WorksUntil fault self.old self.new) }
    {
        match self.retry(op) {
            Ok(_) => Ok(()),
            Err(fault) => Err(fault),
        }
    }

    /// Looks at the lock of a port's group; what it saw.
    fn look_on(&mut self, port: usize, is_tick: bool) -> Seen
        requires { port < ports_of (held_by self.old.node) }
        ensures works { Works self.old self.new }
        ensures made { Makes (Looked port result is_tick) self.old self.new }
        ensures setting { setting_of self.new ≡ setting_of self.old }
    {
        self.look(port, is_tick)
    }

    /// Says the answers at all ports, and hands over their next changes.
    fn hand_over_all(&mut self, is_tick: bool) -> Result<(), ProcessFault>
        ensures works { OnOk result (Works self.old self.new) }
        ensures hands { OnOk result (HandsUpTo (setting_of self.old).ports is_tick self.old self.new) }
        ensures said { OnOk result (NoneUnsaid self.new) }
        ensures kept { OnOk result (NoneKeeps self.new) }
        ensures until { IfErr result (λ fault. WorksUntil fault self.old self.new) }
    {
        for port in 0..self.desks.len() {
            match self.hand_over_at(port, is_tick) {
                Ok(()) => {}
                Err(fault) => return Err(fault),
            }
        }
        Ok(())
    }

    /// Says the answers at a port, and hands over its next changes, where none is with the node.
    fn hand_over_at(&mut self, port: usize, is_tick: bool) -> Result<(), ProcessFault>
        requires { port < ports_of (held_by self.old.node) }
        ensures works { OnOk result (Works self.old self.new) }
        ensures hands { OnOk result (HandsAt port is_tick self.old self.new) }
        ensures until { IfErr result (λ fault. WorksUntil fault self.old self.new) }
    {
        match self.answer_all(port) {
            Ok(()) => {}
            Err(fault) => return Err(fault),
        }
        if !self.is_free(port) {
            return Ok(());
        }
        self.look_on(port, is_tick);
        self.hand_over_many(port)
    }

    /// Whether a port has a change to hand over: none is with the node, and one waits.
    fn is_free(&self, port: usize) -> bool
        requires { port < ports_of (held_by self.now.node) }
        ensures { result ≡ is_free ((situation_of self.now).ports port) }
    {
        let desk = &self.desks[port];
        desk.current().is_none() && desk.front().is_some()
    }

    /// Hands over the next changes of a port, as long as the node answers them at once and the port does not give way.
    fn hand_over_many(&mut self, port: usize) -> Result<(), ProcessFault>
        requires { port < ports_of (held_by self.old.node) }
        ensures works { OnOk result (Works self.old self.new) }
        ensures hands { OnOk result (HandsMany port self.old self.new) }
        ensures until { IfErr result (λ fault. WorksUntil fault self.old self.new) }
    {
        loop {
            match self.hand_over_one(port) {
                Ok(true) => {}
                Ok(false) => return Ok(()),
                Err(fault) => return Err(fault),
            }
        }
    }

    /// Hands over the next change of a port, where it does not give way, and says its answer, where the node answers it at once; whether
    /// one was handed over.
    fn hand_over_one(&mut self, port: usize) -> Result<bool, ProcessFault>
        requires { port < ports_of (held_by self.old.node) }
        ensures works { OnOk result (Works self.old self.new) }
        ensures hands { IfOk result (λ did. HandsIf port did self.old self.new) }
        ensures until { IfErr result (λ fault. WorksUntil fault self.old self.new) }
    {
        if self.gives_way(port) {
            return Ok(false);
        }
        match self.hand_over(port) {
            Ok(true) => {}
            Ok(false) => return Ok(false),
            Err(fault) => return Err(fault),
        }
        match self.answer_all(port) {
            Ok(()) => Ok(true),
            Err(fault) => Err(fault),
        }
    }

    /// Whether a port gives way to other nodes.
    fn gives_way(&self, port: usize) -> bool
        requires { port < ports_of (held_by self.now.node) }
        ensures { result ≡ gives_way ((situation_of self.now).courtesies port) }
    {
        self.courtesies[port].gives_way()
    }

    /// Tells of each change that was denied its lock, once for each trial.
    fn tell_all_denied(&mut self) -> Result<(), ProcessFault>
        ensures works { OnOk result (Works self.old self.new) }
        ensures only { OnOk result (OnlyDenied (situation_of self.old) (situation_of self.new)) }
        ensures told { OnOk result (AllToldDenied self.new) }
        ensures until { IfErr result (λ fault. WorksUntil fault self.old self.new) }
    {
        let Ok(ops) = self.node.state().waiting() else {
            return Err(ProcessFault::OutOfMemory);
        };
        let told = self.tell_each_denied(ops.as_slice());
        drop(ops);
        told
    }

    /// Tells of each of these changes that it was denied its lock, once for each trial.
    fn tell_each_denied(&mut self, ops: &[OpId]) -> Result<(), ProcessFault>
        requires { AreWaiting (live_of (held_by self.old.node)) (kept_by (held_by self.old.node)) ops.now }
        ensures works { OnOk result (Works self.old self.new) }
        ensures only { OnOk result (OnlyDenied (situation_of self.old) (situation_of self.new)) }
        ensures told { OnOk result (AllToldDenied self.new) }
        ensures until { IfErr result (λ fault. WorksUntil fault self.old self.new) }
    {
        for op in ops {
            match self.tell_if_there(*op) {
                Ok(()) => {}
                Err(fault) => return Err(fault),
            }
        }
        Ok(())
    }

    /// Tells that a change was denied its lock, where there is such a port, once for each trial.
    fn tell_if_there(&mut self, op: OpId) -> Result<(), ProcessFault>
        requires { waits (live_of (held_by self.old.node)) ((kept_by (held_by self.old.node)).stages op) (kept_by (held_by self.old.node)) ≡ true }
        ensures works { OnOk result (Works self.old self.new) }
        ensures only { OnOk result (OnlyDenied (situation_of self.old) (situation_of self.new)) }
        ensures told { op.port < ports_of (held_by self.old.node) → OnOk result (IsToldDenied (situation_of self.new) op.port) }
        ensures until { IfErr result (λ fault. WorksUntil fault self.old self.new) }
        ensures node { self.new.node ≡ self.old.node }
    {
        let port = usize::from(op.port);
        if port >= self.desks.len() {
            return Ok(());
        }
        match self.tell_denied(port) {
            Ok(_) => Ok(()),
            Err(fault) => Err(fault),
        }
    }

    /// Says that the node is formed, once it is.
    fn form(&mut self) -> Result<(), ProcessFault>
        ensures works { OnOk result (Works self.old self.new) }
        ensures told { OnOk result (IsToldFormed (setting_of self.new) (situation_of self.new)) }
        ensures rest { OnOk result (OnlyTold self.old self.new) }
        ensures until { IfErr result (λ fault. WorksUntil fault self.old self.new) }
    {
        if self.told.formed || !self.node.state().formed() {
            return Ok(());
        }
        self.tell_formed()
    }

    /// Tells what is told once and is due: that the node is formed, and each warning.
    #[tactic(auto, using(crate::proofs::Chained::works_on, crate::proofs::Chained::works_until, crate::proofs::Chained::works_then, crate::proofs::Chained::until_then, crate::proofs::Chained::work_rests, crate::proofs::Chained::itself))]
    fn tell_once(&mut self) -> Result<(), ProcessFault>
        ensures works { OnOk result (Works self.old self.new) }
        ensures told { OnOk result (IsToldAll self.new) }
        ensures rest { OnOk result (OnlyTold self.old self.new) }
        ensures until { IfErr result (λ fault. WorksUntil fault self.old self.new) }
    {
        match self.form() {
            Ok(()) => {}
            Err(fault) => return Err(fault),
        }
        match self.warn_of_clock() {
            Ok(()) => {}
            Err(fault) => return Err(fault),
        }
        self.warn_of_ended()
    }

    /// Tells that the clock is old, once it is.
    fn warn_of_clock(&mut self) -> Result<(), ProcessFault>
        ensures works { OnOk result (Works self.old self.new) }
        ensures old { OnOk result (IsToldOld (situation_of self.new)) }
        ensures rest { OnOk result (OnlyTold self.old self.new) }
        ensures formed { OnOk result (self.new.told.formed ≡ self.old.told.formed) }
        ensures until { IfErr result (λ fault. WorksUntil fault self.old self.new) }
    {
        if self.told.old_clock || self.node.state().clock() < OLD_CLOCK {
            return Ok(());
        }
        self.tell_old_clock()
    }

    /// Tells that many processes have ended, once they are many.
    fn warn_of_ended(&mut self) -> Result<(), ProcessFault>
        ensures works { OnOk result (Works self.old self.new) }
        ensures many { OnOk result (IsToldMany (situation_of self.new)) }
        ensures rest { OnOk result (OnlyTold self.old self.new) }
        ensures formed { OnOk result (self.new.told.formed ≡ self.old.told.formed) }
        ensures clock { OnOk result (self.new.told.old_clock ≡ self.old.told.old_clock) }
        ensures until { IfErr result (λ fault. WorksUntil fault self.old self.new) }
    {
        let count = self.node.state().ended_count();
        if count < MANY_ENDED {
            return Ok(());
        }
        if self.told.many_ended {
            return Ok(());
        }
        self.tell_many_ended(count)
    }

    /// All bytes that wait for peers go out.
    fn send_to_peers(&mut self) -> Result<(), ProcessFault>
        ensures works { OnOk result (Works self.old self.new) }
        ensures unsent { OnOk result (NoneWaits self.new) }
        ensures links { OnOk result (OnlyLinks self.old self.new) }
        ensures until { IfErr result (λ fault. WorksUntil fault self.old self.new) }
    {
        for peer in 0..self.peers.len() {
            match self.send_all(peer) {
                Ok(()) => {}
                Err(fault) => return Err(fault),
            }
        }
        Ok(())
    }
}
