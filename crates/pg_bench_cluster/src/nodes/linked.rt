//! A node between two rings of bytes.

use crate::nodes::Player;
use crate::nodes::made::{answered, new_state};
use bytes::BytesMut;
use pg_cluster::{
    Command, Done, Framed, IndexTable, Inlet, Link, MemRing, Node, NodeFault, Packet, RingFault,
    write_packet_into,
};
use std::alloc::{AllocError, Global};

// How many bytes a ring has room for, and how many move at once.
const RING: usize = 65_536;

/// The node, and its rings.
#[derive(Drop)]
pub struct OverBytes {
    node: Node<IndexTable>,
    rings: Rings,
}

/// A ring to a node and one from it, and what is read of the second.
#[derive(Drop)]
struct Rings {
    to: MemRing,
    from: MemRing,
    piece: Vec<u8>,
}

fn both_rings(alloc: Global) -> Result<Rings, RingFault> {
    let to = MemRing::new(alloc, RING)?;
    let from = MemRing::new(alloc, RING)?;
    match Vec::from_elem(alloc, 0, RING) {
        Ok(piece) => Ok(Rings { to, from, piece }),
        Err(AllocError) => Err(RingFault::OutOfMemory),
    }
}

fn opened(alloc: Global) -> Option<Node<IndexTable>> {
    match new_state(alloc) {
        Ok(state) => Node::opened(alloc, state).ok(),
        Err(_) => None,
    }
}

impl OverBytes {
    // What goes out to a peer goes on the ring; how many bytes.
    fn put(&mut self, peer: usize) -> usize {
        if peer < self.node.state().peer_count() {
            self.node.put(peer, &mut self.rings.from, RING)
        } else {
            0
        }
    }

    // The same, and it is dropped.
    fn drain(&mut self, peer: usize) {
        for _ in 0..100 {
            if self.put(peer) == 0 {
                break;
            }
            self.rings.from.take(self.rings.piece.as_mut_slice());
        }
    }

    // What is on the ring comes in.
    fn pull(&mut self, peer: usize) -> bool {
        peer < self.node.state().peer_count()
            && self.node.pull(peer, &mut self.rings.to, RING).is_ok()
    }

    fn taken(&mut self, peer: usize) -> Result<Option<Done<Framed>>, NodeFault> {
        if peer < self.node.state().peer_count() {
            self.node.take(peer)
        } else {
            Ok(None)
        }
    }

    // Takes the whole frames that have come of a peer; whether none was refused.
    fn take_all(&mut self, peer: usize) -> bool {
        for _ in 0..10_000 {
            match self.taken(peer) {
                Ok(Some(done)) => self.node.reuse(done),
                Ok(None) => return true,
                Err(_) => return false,
            }
        }
        false
    }

    // Gives a command at the port; whether it was taken.
    fn is_given(&mut self, command: &Command) -> bool {
        if self.node.state().port_count() != 1 {
            return false;
        }
        match self.node.command(0, command) {
            Ok(done) => {
                self.node.reuse(done);
                true
            }
            Err(_) => false,
        }
    }
}

impl Player for OverBytes {
    type Load = BytesMut;

    fn new(alloc: Global) -> Option<OverBytes> {
        let Ok(rings) = both_rings(alloc) else {
            return None;
        };
        match opened(alloc) {
            Some(node) => Some(OverBytes { node, rings }),
            None => None,
        }
    }

    fn load(alloc: Global, packets: Vec<Packet>) -> Option<BytesMut> {
        let mut frames = BytesMut::new(alloc);
        for packet in &packets {
            if write_packet_into(packet, &mut frames).is_err() {
                return None;
            }
        }
        Some(frames)
    }

    fn take(&mut self, peer: usize, load: &BytesMut) -> bool {
        for piece in load.as_slice().chunks(RING / 2) {
            self.rings.to.put(piece);
            if !self.pull(peer) || !self.take_all(peer) {
                return false;
            }
            self.drain(0);
            self.drain(1);
        }
        true
    }

    fn ask(&mut self, commands: &[Command]) -> bool {
        for command in commands {
            if !self.is_given(command) {
                return false;
            }
        }
        self.drain(1);
        true
    }

    fn answered(&self) -> u64 {
        answered(self.node.state())
    }

    fn forget(&mut self) {
        if self.node.state().port_count() == 1 {
            self.node.forget_answers(0, usize::MAX);
        }
    }
}
