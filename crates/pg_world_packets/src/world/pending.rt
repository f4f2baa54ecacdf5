//! Which ends are pending in a world of packets.

ghost use Rattle.std.specs.Prelude.{◌≡◌, IfOk};

use crate::pending::pending_among;
use crate::world::FrameNodes;
use pg_node_state::{GroupTable, NodeState};
use pg_term::Pid;
use std::alloc::AllocError;

impl<T: GroupTable + Drop> FrameNodes<T> {
    ghost use Rattle.pg_world_packets.specs.Losing.{lost_of};
    ghost use Rattle.pg_world_packets.specs.Pending.{lent_as, live_states, pending_of};
    ghost use Rattle.pg_world_packets.specs.Worlds.{traffic_of};

    /// The ends that are pending: each is that of a process whose home has it, and which some node has not. Of nodes
    /// that are lost nothing counts. They are listed home by home, and by number at each.
    ///
    /// Errors: `AllocError`.
    ///
    /// Cost: a search at each live node for each process that has ended at its home, and the memory of the
    /// list.
    pub(crate) fn pending_ends(&self) -> Result<Vec<Pid>, AllocError>
        ensures list { IfOk result (λ pids. pids.items ≡ pending_of (traffic_of self.now).nodes (lost_of self.now)) }
    {
        let left = self.live_states()?;
        pending_among(*self.nodes.allocator(), left.as_slice())
    }

    /// The nodes that are not lost.
    ///
    /// Errors: `AllocError`.
    fn live_states(&self) -> Result<Vec<&NodeState<T>>, AllocError>
        ensures { IfOk result (λ left. lent_as left.items ≡ live_states (traffic_of self.now).nodes (lost_of self.now)) }
    {
        let mut left = Vec::new(*self.nodes.allocator());
        for place in 0..self.nodes.len() {
            if !self.losses.has(place) {
                left.push(&self.nodes[place])?;
            }
        }
        Ok(left)
    }
}
