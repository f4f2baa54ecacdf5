//! Whether two worlds of packets are alike.

ghost use Rattle.std.specs.Prelude.{◌≡◌, ◌↔◌, IsTrue, IfOk, map};

use crate::ways::Ways;
use crate::world::FrameNodes;
use pg_node_state::{GroupTable, NodeState};
use std::alloc::AllocError;

impl<T: GroupTable + Drop> FrameNodes<T> {
    ghost use Rattle.pg_world_packets.specs.Alike.{AreAlikeWorlds, AreAlikeBeside};
    ghost use Rattle.pg_world_packets.specs.Losing.{lost_of};
    ghost use Rattle.pg_world_packets.specs.Worlds.{view_of};

    /// Whether both are the same but for clocks and stamps.
    ///
    /// Errors: `AllocError`.
    ///
    /// Cost: that of `NodeState::is_alike` for each node, which alone takes memory, and a walk over the packets and
    /// the histories.
    pub(crate) fn is_alike(&self, other: &FrameNodes<T>) -> Result<bool, AllocError>
        ensures { IfOk result (λ alike. IsTrue alike ↔ AreAlikeWorlds (view_of self.now) (lost_of self.now) (view_of other.now) (lost_of other.now)) }
    {
        if self.is_alike_beside(other) {
            are_alike(&self.nodes, &other.nodes)
        } else {
            Ok(false)
        }
    }

    /// Whether both are the same but for their nodes and for stamps.
    ///
    /// Cost: no memory.
    fn is_alike_beside(&self, other: &FrameNodes<T>) -> bool
        ensures { IsTrue result ↔ AreAlikeBeside (view_of self.now) (lost_of self.now) (view_of other.now) (lost_of other.now) }
    {
        self.losses.same(&other.losses)
            && same_ways(&self.outgoing, &other.outgoing)
            && self.histories.agree(&other.histories, self.nodes.len())
    }
}

ghost use Rattle.pg_world_packets.specs.Alike.{without_clock, without_stamps};
ghost use Rattle.pg_world_config.specs.Seen.{seen_of};
ghost use Rattle.pg_world_packets.specs.Views.{ways_of};

/// Whether as many nodes are the same, place by place, but for their clocks.
///
/// Errors: `AllocError`.
fn are_alike<T: GroupTable + Drop>(
    nodes: &[NodeState<T>],
    others: &[NodeState<T>],
) -> Result<bool, AllocError>
    ensures { IfOk result (λ alike. IsTrue alike ↔ (map without_clock (map seen_of nodes.now) ≡ map without_clock (map seen_of others.now))) }
{
    if nodes.len() != others.len() {
        return Ok(false);
    }
    for place in 0..nodes.len() {
        if !nodes[place].is_alike(&others[place])? {
            return Ok(false);
        }
    }
    Ok(true)
}

/// Whether the same packets are on each way, but for their stamps.
///
/// Cost: no memory.
fn same_ways(outgoing: &[Ways], others: &[Ways]) -> bool
    ensures { IsTrue result ↔ (map without_stamps (map ways_of outgoing.now) ≡ map without_stamps (map ways_of others.now)) }
{
    if outgoing.len() != others.len() {
        return false;
    }
    for place in 0..outgoing.len() {
        if !outgoing[place].is_alike(&others[place]) {
            return false;
        }
    }
    true
}
