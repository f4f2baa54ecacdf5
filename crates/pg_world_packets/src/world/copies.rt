//! A copy of a world of packets.

ghost use Rattle.std.specs.Prelude.{◌≡◌, IfOk, map};

use crate::ways::Ways;
use crate::world::FrameNodes;
use pg_node_state::GroupTable;
use std::alloc::{AllocError, Global};

impl<T: GroupTable + Drop> FrameNodes<T> {
    ghost use Rattle.pg_world_packets.specs.Losing.{lost_of};
    ghost use Rattle.pg_world_packets.specs.Worlds.{view_of};

    /// The same nodes, and the same on the way between them.
    ///
    /// Errors: `AllocError`.
    ///
    /// Cost: that of the copies of all that they keep.
    pub(crate) fn copy(&self) -> Result<FrameNodes<T>, AllocError>
        ensures view { IfOk result (λ copy. view_of copy ≡ view_of self.now) }
        ensures lost { IfOk result (λ copy. lost_of copy ≡ lost_of self.now) }
    {
        let outgoing = copy_ways(*self.outgoing.allocator(), &self.outgoing)?;
        let histories = self.histories.copy()?;
        let losses = self.losses.copy()?;
        let nodes = self.nodes.clone()?;
        Ok(FrameNodes {
            nodes,
            outgoing,
            histories,
            losses,
        })
    }
}

ghost use Rattle.pg_world_packets.specs.Views.{ways_of};

/// The same packets on each way.
///
/// Errors: `AllocError`.
fn copy_ways(alloc: Global, outgoing: &[Ways]) -> Result<Vec<Ways>, AllocError>
    ensures { IfOk result (λ copies. map ways_of copies.items ≡ map ways_of outgoing.now) }
{
    let mut copies = Vec::with_capacity(alloc, outgoing.len())?;
    for ways in outgoing {
        copies.push(ways.copy()?)?;
    }
    Ok(copies)
}
