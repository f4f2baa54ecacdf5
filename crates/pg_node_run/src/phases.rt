//! The phases of a turn that are between a node and its peers.

ghost use Rattle.std.specs.Prelude.{◌≡◌, ◌⊎◌, ◌<◌, [], true, false, length, IfErr, IfSome, IfNone, IsErrAnd, IsSomeAnd};
ghost use Rattle.pg_node_run.specs.Tries.{IsNoWant, IsWant};

use crate::linked::LinkedNode;
use pg_node::{GroupTable, Inlet, Link, NodeFault, Refusal};

/// How many bytes are pulled of a peer in one turn at most.
pub(crate) const PULL_LEN: usize = 4096;

/// How a part of a turn went.
#[derive(Clone, Copy, Debug, PartialEq, Eq)]
pub(crate) struct Phase {
    /// No growth of memory was refused, and the clock was not full.
    pub whole: bool,
    /// Something moved or happened.
    pub busy: bool,
}

impl Phase {
    /// Nothing was there to be done.
    pub(crate) fn idle() -> Phase
        ensures whole { result.whole ≡ true }
        ensures busy { result.busy ≡ false }
    {
        Phase {
            whole: true,
            busy: false,
        }
    }

    /// Something happened, or nothing was there to do, or this fault came.
    pub(crate) fn of(busy: bool, fault: Option<NodeFault>) -> Phase
        ensures no_want { result.whole ≡ true → IfSome fault IsNoWant }
        ensures want { result.whole ≡ false → IsSomeAnd fault IsWant }
        ensures none { IfNone fault (result.whole ≡ true) }
        ensures busy { result.busy ≡ busy }
    {
        match fault {
            Some(NodeFault::OutOfMemory | NodeFault::Refused(Refusal::ClockFull)) => {
                Phase { whole: false, busy }
            }
            Some(_) | None => Phase { whole: true, busy },
        }
    }

    /// So many bytes came in, or this fault came.
    fn of_pull(pulled: Result<usize, NodeFault>) -> Phase
        ensures no_want { result.whole ≡ true → IfErr pulled IsNoWant }
        ensures want { result.whole ≡ false → IsErrAnd pulled IsWant }
    {
        match pulled {
            Ok(count) => Phase::of(count > 0, None),
            Err(fault) => Phase::of(false, Some(fault)),
        }
    }

    /// A packet was taken, or none was there, or this fault came.
    fn of_take(taken: Result<bool, NodeFault>) -> Phase
        ensures no_want { result.whole ≡ true → IfErr taken IsNoWant }
        ensures want { result.whole ≡ false → IsErrAnd taken IsWant }
    {
        match taken {
            Ok(happened) => Phase {
                whole: true,
                busy: happened,
            },
            Err(NodeFault::OutOfMemory | NodeFault::Refused(Refusal::ClockFull)) => Phase {
                whole: false,
                busy: false,
            },
            Err(_) => Phase::idle(),
        }
    }

    /// Both parts.
    pub(crate) fn and(self, other: Phase) -> Phase
        ensures first { result.whole ≡ true → self.whole ≡ true }
        ensures second { result.whole ≡ true → other.whole ≡ true }
        ensures both { self.whole ≡ true → other.whole ≡ true → result.whole ≡ true }
        ensures either { result.whole ≡ false → (self.whole ≡ false) ⊎ (other.whole ≡ false) }
    {
        Phase {
            whole: self.whole && other.whole,
            busy: self.busy || other.busy,
        }
    }
}

impl<T: GroupTable + Drop, L: Link + Drop, I: Inlet + Drop> LinkedNode<T, L, I> {
    ghost use Rattle.pg_node_run.specs.Follows.{log_of, peers_of};
    ghost use Rattle.pg_node_run.specs.Logs.{IsTake, LogsOnly};
    ghost use Rattle.pg_node_run.specs.Tries.{HasPulled, HasPulledAll, HasPutAll, HasTried, HasTriedAll, WasWanting};
    ghost use Rattle.pg_node_run.specs.Turns.{GoesOn};

    /// Of each peer up to 4,096 bytes come in, and the next packet is taken; what it makes the node send is put at once.
    pub(crate) fn take_all(&mut self) -> Phase
        ensures goes { GoesOn L.accepts I.gives self.old self.new }
        ensures pulled { result.whole ≡ true → HasPulledAll L.accepts I.gives I.moves self.old self.new }
        ensures tried { result.whole ≡ true → HasTriedAll L.accepts I.gives self.old self.new }
        ensures wanting { result.whole ≡ false → WasWanting L.accepts I.gives self.old self.new }
        ensures logs { LogsOnly IsTake (log_of self.old) (log_of self.new) }
    {
        let mut phase = Phase::idle();
        for peer in 0..self.peer_count() {
            phase = phase.and(self.pull_and_take(peer));
        }
        phase
    }

    /// Of a peer up to 4,096 bytes come in, and the next packet is taken; what it makes the node send is put at once.
    fn pull_and_take(&mut self, peer: usize) -> Phase
        requires place { peer < length (peers_of self.old) }
        ensures goes { GoesOn L.accepts I.gives self.old self.new }
        ensures pulled { result.whole ≡ true → HasPulled L.accepts I.gives I.moves peer self.old self.new }
        ensures tried { result.whole ≡ true → HasTried L.accepts I.gives peer self.old self.new }
        ensures wanting { result.whole ≡ false → WasWanting L.accepts I.gives self.old self.new }
        ensures logs { LogsOnly IsTake (log_of self.old) (log_of self.new) }
    {
        let pulled = Phase::of_pull(self.pull(peer, PULL_LEN));
        let taken = Phase::of_take(self.take(peer));
        if taken.busy {
            self.put_waiting();
        }
        pulled.and(taken)
    }

    /// What waits for each peer is put, behind an event.
    pub(crate) fn put_waiting(&mut self)
        ensures goes { GoesOn L.accepts I.gives self.old self.new }
        ensures log { log_of self.new ≡ log_of self.old }
    {
        for peer in 0..self.peer_count() {
            self.put(peer);
        }
    }

    /// What waits for each peer is put.
    pub(crate) fn put_all(&mut self) -> Phase
        ensures goes { GoesOn L.accepts I.gives self.old self.new }
        ensures log { log_of self.new ≡ log_of self.old }
        ensures put { HasPutAll L.accepts I.gives L.moves self.old self.new }
        ensures whole { result.whole ≡ true }
    {
        let mut phase = Phase::idle();
        for peer in 0..self.peer_count() {
            let count = self.put(peer);
            phase = phase.and(Phase::of(count > 0, None));
        }
        phase
    }
}
