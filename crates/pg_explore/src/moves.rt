//! The steps of an exploration.

ghost use Rattle.std.specs.Prelude.{◌≡◌, IfOk};

use pg_term::Items;
use pg_world_packets::OpId;
use std::alloc::{AllocError, Global};

/// How far an exploration goes.
#[derive(Clone, Copy, Debug)]
pub struct Limits {
    /// How many moments are met at most; the first is met in any case.
    pub worlds: usize,
    /// How often each waiting command is tried again at most.
    pub retries: u32,
}

/// A step that is made at a moment. Nodes are named by their places.
#[derive(Debug, Drop)]
pub enum Move {
    /// The node takes the first packet on the way from the peer.
    Take { node: usize, peer: usize },
    /// The step that is planned next of the node is made.
    Next { node: usize },
    /// The node is lost, as is planned next. Of what is on the way to each peer so many packets stay, by the places of the peers.
    Loss { node: usize, keep: Items<usize> },
    /// The node tries a command again that waits.
    Retry { node: usize, op: OpId },
    /// The node sees the loss of the peer.
    SeeLoss { node: usize, peer: usize },
}

impl Move {
    /// The same step.
    ///
    /// Errors: `AllocError`.
    ///
    /// Cost: memory for a loss alone.
    pub fn copy(&self, alloc: Global) -> Result<Move, AllocError>
        ensures { IfOk result (λ step. step ≡ self.now) }
    {
        Ok(match self {
            Move::Take { node, peer } => Move::Take {
                node: *node,
                peer: *peer,
            },
            Move::Next { node } => Move::Next { node: *node },
            Move::Loss { node, keep } => {
                let keep = Vec::from_slice(alloc, keep.as_slice())?;
                Move::Loss {
                    node: *node,
                    keep: Items::from_vec(keep),
                }
            }
            Move::Retry { node, op } => Move::Retry {
                node: *node,
                op: *op,
            },
            Move::SeeLoss { node, peer } => Move::SeeLoss {
                node: *node,
                peer: *peer,
            },
        })
    }
}
