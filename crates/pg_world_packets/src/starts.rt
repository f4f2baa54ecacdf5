//! What the nodes of a configuration send as they start.

ghost use Rattle.std.specs.Prelude.{◌≡◌, ◌≤◌, ◌-◌, ◌^◌, ◌∷◌, [], true, IfOk, IfErr, length, map, replicate};
ghost use Rattle.std.specs.List.{All};
ghost use Rattle.pg_node_state.specs.PgMessageTypes.Members.{IsShort};
ghost use Rattle.pg_node_state.specs.PgMessageTypes.Writing.{is_sayable};
ghost use Rattle.pg_node_state.specs.PgMessageTypes.Limits.{max_stamp};
ghost use Rattle.pg_node_state.specs.States.{kept_by};
ghost use Rattle.pg_node_state.specs.PgNodeSends.Sent.{stamped_of};
ghost use Rattle.pg_world_config.specs.Seen.{seen_of};
ghost use Rattle.pg_world_packets.specs.Fitting.{FitsFrame, CantSend};
ghost use Rattle.pg_world_packets.specs.Openings.{TellsNames, CantOpen, SomeCantOpen};
ghost use Rattle.pg_world_packets.specs.Starts.{TellsFew, AnnouncesToEach, AllOpen};
ghost use Rattle.pg_world_packets.specs.Views.{ways_of};

use crate::ways::Ways;
use pg_node_state::{GroupTable, NodeState, Packet, packet_len};
use pg_world_config::WorldFault;
use std::alloc::{AllocError, Global};

/// What each node sends as it starts: all groups of its table to each other, one packet each.
///
/// Errors: `TooLong`, where what one of them announces takes more than a frame; `OutOfMemory`.
///
/// Cost: that of the snapshots, and of a copy for each peer.
pub(crate) fn openings<T: GroupTable + Drop>(
    alloc: Global,
    nodes: &[NodeState<T>],
) -> Result<Vec<Ways>, WorldFault>
    requires few { All (λ node. TellsFew (kept_by node).table) nodes.now }
    requires named { All (λ node. TellsNames (kept_by node).table) nodes.now }
    ensures open { IfOk result (λ outgoing. AllOpen (length nodes.now - 1) (map seen_of nodes.now) (map ways_of outgoing.items)) }
    ensures fault { IfErr result (SomeCantOpen (map seen_of nodes.now)) }
{
    let mut outgoing = Vec::with_capacity(alloc, nodes.len())?;
    for place in 0..nodes.len() {
        match opening(alloc, &nodes[place], nodes.len() - 1) {
            Ok(ways) => outgoing.push(ways)?,
            Err(fault) => return Err(fault),
        }
    }
    Ok(outgoing)
}

/// What one node sends to so many peers as it starts.
///
/// Errors: `TooLong`, where what it announces takes more than a frame; `OutOfMemory`.
fn opening<T: GroupTable + Drop>(
    alloc: Global,
    node: &NodeState<T>,
    peers: usize,
) -> Result<Ways, WorldFault>
    requires few { TellsFew (kept_by node.now).table }
    requires named { TellsNames (kept_by node.now).table }
    ensures open { IfOk result (λ outgoing. AnnouncesToEach peers (seen_of node.now) (ways_of outgoing)) }
    ensures fault { IfErr result (CantOpen (seen_of node.now)) }
{
    match node.announcement() {
        Ok(packet) => {
            let outgoing = opened(alloc, peers, &packet);
            drop(packet);
            outgoing
        }
        Err(AllocError) => Err(WorldFault::OutOfMemory),
    }
}

/// A packet that can be sent is on the way to each of so many peers.
///
/// Errors: `TooLong`, where it takes more than a frame; `OutOfMemory`.
fn opened(alloc: Global, peers: usize, packet: &Packet) -> Result<Ways, WorldFault>
    requires short { IsShort (2 ^ 32) packet.now.message }
    requires named { is_sayable packet.now.message ≡ true }
    requires stamp { packet.now.stamp ≤ max_stamp }
    ensures fits { IfOk result (λ outgoing. FitsFrame packet.now) }
    ensures ways { IfOk result (λ outgoing. ways_of outgoing ≡ replicate peers (stamped_of packet.now ∷ [])) }
    ensures fault { IfErr result (CantSend packet.now) }
{
    match packet_len(packet) {
        Ok(_) => Ok(Ways::opened(alloc, peers, packet)?),
        Err(_) => Err(WorldFault::TooLong),
    }
}
