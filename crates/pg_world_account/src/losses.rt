//! The nodes of a world that are lost.

ghost use Rattle.std.specs.Prelude.{◌≡◌, ◌∷◌, ◌++◌, ◌↔◌, [], IsTrue, IfOk, OnOk, OnErr};
ghost use Rattle.std.specs.List.{list_all};

use std::alloc::{AllocError, Global};

/// The places of the nodes of a world that are lost.
#[derive(Drop)]
pub struct Losses {
    places: Vec<usize>,
}

impl Losses {
    ghost use Rattle.pg_world_account.specs.Agreeing.{AreSameLost};
    ghost use Rattle.pg_world_account.specs.Losses.{lost_in, is_lost};

    /// No node is lost.
    ///
    /// Cost: no memory.
    pub fn new(alloc: Global) -> Losses
        ensures { lost_in result ≡ [] }
    {
        Losses {
            places: Vec::new(alloc),
        }
    }

    /// The same nodes are lost.
    ///
    /// Errors: `AllocError`.
    ///
    /// Cost: one allocation at most; O(n) in the nodes that are lost.
    pub fn copy(&self) -> Result<Losses, AllocError>
        ensures { IfOk result (λ copy. lost_in copy ≡ lost_in self.now) }
    {
        Ok(Losses {
            places: self.places.clone()?,
        })
    }

    /// Whether the same nodes are lost.
    ///
    /// Cost: no memory; O(n^2) in the nodes that are lost.
    pub fn same(&self, other: &Losses) -> bool
        ensures { IsTrue result ↔ AreSameLost (lost_in self.now) (lost_in other.now) }
    {
        self.are_among(other) && other.are_among(self)
    }

    /// Whether each node that is lost here is lost there.
    fn are_among(&self, other: &Losses) -> bool
        ensures { result ≡ list_all (is_lost (lost_in other.now)) (lost_in self.now) }
    {
        for place in &self.places {
            if !other.has(*place) {
                return false;
            }
        }
        true
    }

    /// Whether no node is lost.
    ///
    /// Cost: no memory.
    pub fn is_empty(&self) -> bool
        ensures { IsTrue result ↔ (lost_in self.now ≡ []) }
    {
        self.places.is_empty()
    }

    /// Whether a node is lost.
    ///
    /// Cost: no memory; O(n) in the nodes that are lost.
    pub fn has(&self, node: usize) -> bool
        ensures { result ≡ is_lost (lost_in self.now) node }
    {
        self.places.as_slice().contains(&node)
    }

    /// A node is lost.
    ///
    /// Errors: `AllocError`, which changes nothing.
    ///
    /// Cost: memory for one more place, and at times O(n) in the nodes that are lost.
    pub fn add(&mut self, node: usize) -> Result<(), AllocError>
        ensures added { OnOk result (lost_in self.new ≡ lost_in self.old ++ node ∷ []) }
        ensures err { OnErr result (lost_in self.new ≡ lost_in self.old) }
    {
        self.places.push(node)?;
        Ok(())
    }
}
