//! Which ends are pending in a world of bytes.

ghost use Rattle.std.specs.Prelude.{◌≡◌, IfOk};

use crate::bytes::ByteNodes;
use pg_node::NodeState;
use pg_term::Pid;
use pg_world_packets::{GroupTable, pending_among};
use std::alloc::AllocError;

impl<T: GroupTable + Drop> ByteNodes<T> {
    ghost use Rattle.pg_world.specs.Crossings.{crossing_of};
    ghost use Rattle.pg_world_packets.specs.PgWorldAccount.Losses.{lost_in};
    ghost use Rattle.pg_world_packets.specs.Pending.{lent_as, live_states, pending_of};

    /// The ends that are pending: each is that of a process whose home has it, and which some node has not. Of nodes
    /// that are lost nothing counts. They are listed home by home, and by number at each.
    ///
    /// Errors: `AllocError`.
    ///
    /// Cost: a search at each live node for each process that has ended at its home, and the memory of the
    /// list.
    pub(crate) fn pending_ends(&self) -> Result<Vec<Pid>, AllocError>
        ensures list { IfOk result (λ pids. pids.items ≡ pending_of (crossing_of self.now).nodes (lost_in self.now.losses)) }
    {
        let left = self.live_states()?;
        pending_among(*self.nodes.allocator(), left.as_slice())
    }

    /// The nodes that are not lost.
    ///
    /// Errors: `AllocError`.
    fn live_states(&self) -> Result<Vec<&NodeState<T>>, AllocError>
        ensures { IfOk result (λ left. lent_as left.items ≡ live_states (crossing_of self.now).nodes (lost_in self.now.losses)) }
    {
        let mut left = Vec::new(*self.nodes.allocator());
        for place in 0..self.nodes.len() {
            if !self.losses.has(place) {
                let over = &self.nodes[place];
                left.push(over.state())?;
            }
        }
        Ok(left)
    }
}
