//! How a world of bytes begins.

ghost use Rattle.std.specs.Prelude.{◌≡◌, [], true, ◌<◌, ◌-◌, ℕ, IfOk, IfErr, length, map, get_or};
ghost use Rattle.pg_world_packets.specs.PgRing.Capacity.{IsCapacity};
ghost use Rattle.pg_world_packets.specs.PgStep.Config.{IsConfig};
ghost use Rattle.pg_node.specs.Nodes.{links_of};
ghost use Rattle.pg_world.specs.Crossings.{node_of, no_links, idle_crossing};
ghost use Rattle.pg_world_packets.specs.PgWorldAccount.Histories.{no_account};
ghost use Rattle.pg_world_packets.specs.Openings.{AreReady, CantOpen, CantStart, opening_fault_of};
ghost use Rattle.pg_world_packets.specs.PgWorldConfig.Firsts.{seen_first, firsts};
ghost use Rattle.pg_world.specs.BytesStart.{OpensLinks};

use crate::bytes::ByteNodes;
use pg_node::{Node, NodeFault};
use pg_world_packets::{Config, IndexTable, Start, WorldFault, node_at, ready};
use std::alloc::Global;

impl ByteNodes<IndexTable> {
    ghost use Rattle.pg_world_packets.specs.PgWorldAccount.Histories.{account_of};
    ghost use Rattle.pg_world.specs.BytesStart.{BytesBegin, OpensBytes};
    ghost use Rattle.pg_world.specs.Crossings.{crossing_of, room_of};
    ghost use Rattle.pg_world_packets.specs.PgWorldAccount.Losses.{lost_in};
    ghost use Rattle.pg_world_packets.specs.Openings.{AllFit, CantBegin, CantStart, AreReady};

    /// The nodes of a configuration as they start, where what each of them announces of its groups is in its outbox
    /// to each other, and the ring from each to each other is empty.
    ///
    /// Errors: those of `FrameWorld::new`.
    ///
    /// Cost: that of `FrameWorld::new`, and of the rings.
    pub(crate) fn new(alloc: Global, config: &Config) -> Result<ByteNodes<IndexTable>, WorldFault>
        ensures good { IfOk result (λ world. IsConfig config.now.starts.items × IsCapacity config.now.ring) }
        ensures fits { IfOk result (λ world. AllFit config.now.starts.items) }
        ensures few { IfOk result (λ world. have_few config.now.starts.items ≡ true) }
        ensures begins { IfOk result (λ world. BytesBegin config.now.starts.items (crossing_of world) (account_of world.histories)) }
        ensures opens { IfOk result (λ world. OpensBytes config.now.starts.items (crossing_of world)) }
        ensures room { IfOk result (λ world. room_of world ≡ config.now.ring) }
        ensures lost { IfOk result (λ world. lost_in world.losses ≡ []) }
        ensures formed { IfOk result (λ world. world.histories.formed ≡ true) }
        ensures fault { IfErr result (CantBegin config.now.ring config.now.starts.items) }
    {
        match ready(alloc, config) {
            Ok(()) => ByteNodes::begun(alloc, config.starts.as_slice(), config.ring),
            Err(fault) => Err(fault),
        }
    }

    /// The same of nodes that can start.
    fn begun(
        alloc: Global,
        starts: &[Start],
        ring: usize,
    ) -> Result<ByteNodes<IndexTable>, WorldFault>
        requires ready { AreReady starts.now }
        requires capacity { IsCapacity ring }
        ensures fits { IfOk result (λ world. AllFit starts.now) }
        ensures begins { IfOk result (λ world. BytesBegin starts.now (crossing_of world) (account_of world.histories)) }
        ensures opens { IfOk result (λ world. OpensBytes starts.now (crossing_of world)) }
        ensures room { IfOk result (λ world. room_of world ≡ ring) }
        ensures lost { IfOk result (λ world. lost_in world.losses ≡ []) }
        ensures formed { IfOk result (λ world. world.histories.formed ≡ true) }
        ensures fault { IfErr result (CantStart starts.now) }
    {
        match opened_nodes(alloc, starts) {
            Ok(nodes) => Ok(ByteNodes::idle(alloc, nodes, ring)?),
            Err(fault) => Err(fault),
        }
    }
}

ghost use Rattle.pg_world_packets.specs.Openings.{AllFit as AllFitFrames, CantBegin as CantBeginWith, have_few};
ghost use Rattle.pg_world.specs.BytesStart.{BytesBegin as BytesBeginOf};

/// The nodes of a configuration as they start over bytes, by their places, for who moves the bytes between them: what
/// each of them announces of its groups is in its outbox to each other.
///
/// Errors: those of `FrameWorld::new`.
///
/// Cost: that of `FrameWorld::new`.
pub fn starting_nodes(alloc: Global, config: &Config) -> Result<Vec<Node<IndexTable>>, WorldFault>
    ensures good { IfOk result (λ nodes. IsConfig config.now.starts.items × IsCapacity config.now.ring) }
    ensures count { IfOk result (λ nodes. length nodes.items ≡ length config.now.starts.items) }
    ensures fits { IfOk result (λ nodes. AllFitFrames config.now.starts.items) }
    ensures few { IfOk result (λ nodes. have_few config.now.starts.items ≡ true) }
    ensures begins { IfOk result (λ nodes. BytesBeginOf config.now.starts.items (idle_crossing nodes.items) no_account) }
    ensures fault { IfErr result (CantBeginWith config.now.ring config.now.starts.items) }
{
    match ready(alloc, config) {
        Ok(()) => opened_nodes(alloc, config.starts.as_slice()),
        Err(fault) => Err(fault),
    }
}

/// The nodes of a configuration as they start, by their places: what each announces is in its outboxes.
///
/// Errors: `TooLong`, where what one of them announces takes more than a frame; `OutOfMemory`.
fn opened_nodes(alloc: Global, starts: &[Start]) -> Result<Vec<Node<IndexTable>>, WorldFault>
    requires ready { AreReady starts.now }
    ensures nodes { IfOk result (λ nodes. map node_of nodes.items ≡ firsts starts.now (length starts.now)) }
    ensures opened { IfOk result (λ nodes. (i : ℕ) → i < length starts.now
        → OpensLinks (length starts.now - 1) (seen_first starts.now i) (get_or (map links_of nodes.items) i no_links)) }
    ensures fault { IfErr result (CantStart starts.now) }
{
    let mut nodes = Vec::with_capacity(alloc, starts.len())?;
    for place in 0..starts.len() {
        match opened_node(alloc, starts, place) {
            Ok(node) => nodes.push(node)?,
            Err(fault) => return Err(fault),
        }
    }
    Ok(nodes)
}

/// The node at a place of a configuration as it starts.
///
/// Errors: `TooLong`, where what it announces takes more than a frame; `OutOfMemory`.
fn opened_node(
    alloc: Global,
    starts: &[Start],
    place: usize,
) -> Result<Node<IndexTable>, WorldFault>
    requires place { place < length starts.now }
    requires ready { AreReady starts.now }
    ensures node { IfOk result (λ node. node_of node ≡ seen_first starts.now place) }
    ensures opened { IfOk result (λ node. OpensLinks (length starts.now - 1) (seen_first starts.now place) (links_of node)) }
    ensures fault { IfErr result (CantOpen (seen_first starts.now place)) }
{
    let state = node_at(alloc, starts, place)?;
    match Node::opened(alloc, state) {
        Ok(node) => Ok(node),
        Err(fault) => Err(opening_fault(fault)),
    }
}

/// Why a world can't begin where a node can't.
fn opening_fault(fault: NodeFault) -> WorldFault
    ensures { result ≡ opening_fault_of fault }
{
    match fault {
        NodeFault::OutOfMemory => WorldFault::OutOfMemory,
        _ => WorldFault::TooLong,
    }
}
