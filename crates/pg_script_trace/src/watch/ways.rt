//! The packets on the way between nodes, by their numbers.

use pg_world::{GroupTable, World};
use std::alloc::{AllocError, Global};
use std::collections::VecDeque;

/// The packets on the way from each node to each other.
#[derive(Drop)]
pub(crate) struct Ways {
    // By the place of the sender, and then by that of the other.
    ways: Vec<Vec<VecDeque<usize>>>,
}

impl Ways {
    /// Nothing is on the way, and no node is there.
    pub(crate) fn new(alloc: Global) -> Ways {
        Ways {
            ways: Vec::new(alloc),
        }
    }

    /// One node more, of so many: nothing is on the way from it.
    pub(crate) fn add_node(&mut self, alloc: Global, nodes: usize) -> Result<(), AllocError> {
        let mut row = Vec::with_capacity(alloc, nodes)?;
        for _ in 0..nodes {
            row.push(VecDeque::new(alloc))?;
        }
        Ok(self.ways.push(row)?)
    }

    /// A packet is on the way.
    pub(crate) fn send(&mut self, from: usize, to: usize, packet: usize) -> Result<(), AllocError> {
        match self.way(from, to) {
            Some(way) => Ok(way.push_back(packet)?),
            None => Ok(()),
        }
    }

    /// The first packet on the way is taken.
    pub(crate) fn pass(&mut self, from: usize, to: usize) -> Option<usize> {
        self.way(from, to)?.pop_front()
    }

    fn way(&mut self, from: usize, to: usize) -> Option<&mut VecDeque<usize>> {
        self.ways.get_mut(from)?.get_mut(to)
    }
}

/// The place of the peer of a node that has this place among its peers: these are the others, in their order.
pub(crate) fn node_at(node: usize, peer: usize) -> usize {
    if peer < node {
        peer
    } else {
        peer.saturating_add(1)
    }
}

/// The bytes that wait at a node to go to a peer. `peer`: its place among the peers.
pub(crate) fn outbox<T: GroupTable + Drop>(world: &World<T>, node: usize, peer: usize) -> &[u8] {
    match world.node(node) {
        Some(node) if peer < node.state().peer_count() => node.outbox(peer),
        _ => &[],
    }
}

/// How many peers a node has.
pub(crate) fn peer_count<T: GroupTable + Drop>(world: &World<T>, node: usize) -> usize {
    match world.node(node) {
        Some(node) => node.state().peer_count(),
        None => 0,
    }
}
