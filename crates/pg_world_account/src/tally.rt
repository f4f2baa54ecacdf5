//! How many updates of one group each node has applied.

ghost use Rattle.std.specs.Prelude.{◌≡◌, ℕ, ◌+◌, nat_eq, IfOk, OnOk};

use std::alloc::{AllocError, Global};

/// How many updates of one group each node has applied.
#[derive(Drop)]
pub(crate) struct Tally {
    // By the places of the nodes; a node that is not there yet has applied none.
    counts: Vec<u64>,
}

impl Tally {
    ghost use Rattle.pg_node_opens.specs.PgGroup.Functions.{upd};
    ghost use Rattle.pg_world_account.specs.Histories.{count_at, CanCount};

    /// No node has applied any.
    ///
    /// Cost: no memory.
    pub(crate) fn new(alloc: Global) -> Tally
        ensures { count_at result ≡ (λ node. 0) }
    {
        Tally {
            counts: Vec::new(alloc),
        }
    }

    /// The same counts.
    ///
    /// Errors: `AllocError`.
    pub(crate) fn copy(&self) -> Result<Tally, AllocError>
        ensures { IfOk result (λ copy. count_at copy ≡ count_at self.now) }
    {
        Ok(Tally {
            counts: self.counts.clone()?,
        })
    }

    /// How many a node has applied.
    ///
    /// Cost: no memory.
    pub(crate) fn count(&self, node: usize) -> u64
        ensures { result ≡ count_at self.now node }
    {
        match self.counts.get(node) {
            Some(count) => *count,
            None => 0,
        }
    }

    /// Makes room for one more of a node.
    ///
    /// Errors: `AllocError`, by which no count changes; also where the count is 2^64 - 1.
    pub(crate) fn make_room(&mut self, node: usize) -> Result<(), AllocError>
        ensures same { count_at self.new ≡ count_at self.old }
        ensures room { OnOk result (CanCount self.new node) }
    {
        if node < self.counts.len() {
            if self.counts[node] < u64::MAX {
                Ok(())
            } else {
                Err(AllocError)
            }
        } else {
            match node.checked_add(1) {
                Some(places) => self.counts.resize(places, 0),
                None => Err(AllocError),
            }
        }
    }

    /// Counts one more of a node, where there is room.
    ///
    /// Cost: no memory.
    pub(crate) fn add(&mut self, node: usize)
        requires { CanCount self.old node }
        ensures { count_at self.new ≡ upd nat_eq (count_at self.old) node (count_at self.old node + 1) }
    {
        self.counts[node] += 1;
    }
}
