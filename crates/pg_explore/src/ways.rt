//! What is on the way from a node.

ghost use Rattle.std.specs.Prelude.{◌≡◌, ◌≢◌, ◌<◌, ◌≤◌, ◌+◌, ◌^◌, [], get_or, length, map};
ghost use Rattle.pg_world_packets.specs.Views.{peer_place};
ghost use Rattle.pg_world_packets.specs.PgNodeSends.Sent.{stamped_of};
ghost use Rattle.pg_world_packets.specs.FrameWorlds.{traffic_of};
ghost use Rattle.pg_explore.specs.Moments.{IsSized};

use crate::moment::Moment;
use pg_world_packets::Packet;
use std::collections::VecDeque;

/// The packets on the way from a node to its peer at a place, which are the other nodes in their order. It takes no memory.
pub(crate) fn way(moment: &Moment, node: usize, place: usize) -> &VecDeque<Packet>
    requires sized { IsSized moment.now }
    requires node { node < length moment.now.strands.items }
    requires peer { place + 1 < length moment.now.strands.items }
    ensures { map stamped_of result.now.items ≡ get_or (get_or (traffic_of moment.now.world).ways node []) place [] }
{
    let peer = peer_at(node, place);
    moment.world.on_way(node, peer).unwrap()
}

/// The peer of a node at a place.
fn peer_at(node: usize, place: usize) -> usize
    requires { place + 1 < 2 ^ 64 }
    ensures place { peer_place node result ≡ place }
    ensures other { result ≢ node }
    ensures near { result ≤ place + 1 }
{
    if place < node { place } else { place + 1 }
}
