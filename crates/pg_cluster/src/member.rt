//! A node of a cluster: in its thread, or lost.

ghost use Rattle.std.specs.Prelude.{◌≡◌, true, false};
ghost use Rattle.pg_cluster.specs.Threads.{Holds};

use crate::promise::{NodeRan, NodeThread};
use rand_core::Rng;
use std::snapshot::Snapshot;
use std::thread::Threads;

/// A node of a cluster: its thread, or, where the node was lost, what that gave back.
#[derive(Drop)]
pub(crate) struct Member<K: Rng + Drop> {
    thread: Option<NodeThread<K>>,
    ran: Option<NodeRan<K>>,
    // The thread, as clauses see it once it was joined.
    joined: Snapshot<NodeThread<K>>,
    ghost holds: { ∥ Holds joined.value thread ran ∥₁ },
}

impl<K: Rng + Drop + Send + 'static> Member<K> {
    ghost use Rattle.pg_cluster.specs.Members.{thread_of, is_lost, last_of, clock_of};
    ghost use Rattle.pg_cluster.specs.Promises.{RanAs};
    ghost use Rattle.pg_cluster.specs.Threads.{begun_by, limit_of};

    /// A node whose thread was started.
    ///
    /// Cost: no memory.
    pub fn new(thread: NodeThread<K>) -> Member<K>
        ensures thread { thread_of result ≡ thread }
        ensures lost { is_lost result ≡ false }
    {
        let joined = Snapshot::of(&thread);
        Member {
            thread: Some(thread),
            ran: None,
            joined,
        }
    }

    /// Whether the node was lost.
    ///
    /// Cost: no memory.
    pub fn is_lost(&self) -> bool
        ensures { result ≡ is_lost self.now }
    {
        self.thread.is_none()
    }

    /// Joins the thread: the clock of the node at last, or 0 where it was joined before. It may wait for the thread.
    pub fn stop<R: Threads>(&mut self, rt: &R) -> u32
        ensures thread { thread_of self.new ≡ thread_of self.old }
        ensures lost { is_lost self.new ≡ true }
        ensures last { is_lost self.old ≡ false → result ≡ last_of self.new }
    {
        match self.thread.take() {
            Some(thread) => {
                self.joined = Snapshot::of(&thread);
                let ran = thread.join(rt);
                let last = ran.run.linked().node().state().clock();
                drop(self.ran.replace(ran));
                last
            }
            None => 0,
        }
    }

    /// What the thread gives back. It may wait for the thread.
    pub fn join<R: Threads>(self, rt: &R) -> NodeRan<K>
        ensures ran { ∥ RanAs (begun_by (thread_of self)) (limit_of (thread_of self)) result ∥₁ }
        ensures alone { is_lost self ≡ false → RanAs (begun_by (thread_of self)) (limit_of (thread_of self)) result }
        ensures last { is_lost self ≡ true → clock_of result ≡ last_of self }
    {
        match (self.thread, self.ran) {
            (Some(thread), _) => thread.join(rt),
            (None, Some(ran)) => ran,
            (None, None) => unreachable!(),
        }
    }
}
