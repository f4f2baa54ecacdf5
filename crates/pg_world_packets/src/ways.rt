//! The packets on the way from one node to each of its peers.

ghost use Rattle.std.specs.Prelude.{◌≡◌, ◌↔◌, ◌<◌, ◌+◌, ◌++◌, ◌∷◌, ◌^◌, ℕ, [], Some, get_or, slice_set};
ghost use Rattle.std.specs.Prelude.{drop, take, length, map, replicate, option_map, IsTrue, IfOk, OnOk};
ghost use Rattle.std.specs.Option.{option_copied};
ghost use Rattle.pg_node_state.specs.PgMessageTypes.declared.packet.Packet.{Packet};
ghost use Rattle.pg_node_state.specs.PgMessageTypes.Members.{IsShort};
ghost use Rattle.pg_node_state.specs.PgNodeSends.Sent.{stamped_of};

use crate::way::Way;
use pg_node_state::{Done, Held, OpId, Packet, Update};
use std::alloc::{AllocError, Global};
use std::collections::VecDeque;

/// The packets on the way from one node to each of its peers.
#[derive(Drop)]
pub(crate) struct Ways {
    // By the places of the peers.
    ways: Vec<Way>,
}

impl Ways {
    ghost use Rattle.pg_world_packets.specs.Alike.{without_stamps};
    ghost use Rattle.pg_world_packets.specs.Views.{ways_of, next_packet_of, packets_to, CanStay, HaveWayRoom, FitWays};

    /// Nothing is on the way to so many peers. One allocation.
    ///
    /// Errors: `AllocError`.
    pub(crate) fn new(alloc: Global, peers: usize) -> Result<Ways, AllocError>
        ensures { IfOk result (λ outgoing. ways_of outgoing ≡ replicate peers []) }
    {
        let mut ways = Vec::with_capacity(alloc, peers)?;
        for _ in 0..peers {
            ways.push(Way::new(alloc))?;
        }
        Ok(Ways { ways })
    }

    /// A copy of the packet is on the way to each of so many peers.
    ///
    /// Errors: `AllocError`.
    ///
    /// Cost: that of the copies.
    pub(crate) fn opened(alloc: Global, peers: usize, packet: &Packet) -> Result<Ways, AllocError>
        requires short { IsShort (2 ^ 32) packet.now.message }
        ensures { IfOk result (λ outgoing. ways_of outgoing ≡ replicate peers (stamped_of packet.now ∷ [])) }
    {
        let mut ways = Vec::with_capacity(alloc, peers)?;
        for _ in 0..peers {
            ways.push(Way::opened(alloc, packet)?)?;
        }
        Ok(Ways { ways })
    }

    /// The same packets on the way to each peer.
    ///
    /// Errors: `AllocError`.
    ///
    /// Cost: that of the copies.
    pub(crate) fn copy(&self) -> Result<Ways, AllocError>
        ensures { IfOk result (λ copy. ways_of copy ≡ ways_of self.now) }
    {
        let mut ways = Vec::with_capacity(*self.ways.allocator(), self.ways.len())?;
        for way in &self.ways {
            ways.push(way.copy()?)?;
        }
        Ok(Ways { ways })
    }

    /// Whether both have the same packets on the way to each of as many peers, but for their stamps.
    ///
    /// Cost: no memory.
    pub(crate) fn is_alike(&self, other: &Ways) -> bool
        ensures { IsTrue result ↔ (without_stamps (ways_of self.now) ≡ without_stamps (ways_of other.now)) }
    {
        if self.ways.len() != other.ways.len() {
            return false;
        }
        for place in 0..self.ways.len() {
            let way = &self.ways[place];
            let twin = &other.ways[place];
            if !way.is_alike(twin) {
                return false;
            }
        }
        true
    }

    /// Makes room for one more packet to each peer.
    ///
    /// Errors: `AllocError`, which changes nothing.
    pub(crate) fn make_room(&mut self) -> Result<(), AllocError>
        ensures same { ways_of self.new ≡ ways_of self.old }
        ensures room { OnOk result (HaveWayRoom self.new) }
    {
        for place in 0..self.ways.len() {
            let way = &mut self.ways[place];
            way.reserve()?;
        }
        Ok(())
    }

    /// Puts the packets that an event sends on their ways, where there is room for one on each, and gives what began. It takes
    /// no memory.
    pub(crate) fn send_all(&mut self, done: Done) -> Option<(OpId, Update)>
        requires fit { FitWays (length (ways_of self.old)) done.sends.items }
        requires room { HaveWayRoom self.old }
        ensures len { length (ways_of self.new) ≡ length (ways_of self.old) }
        ensures sent { (place : ℕ) → get_or (ways_of self.new) place []
            ≡ get_or (ways_of self.old) place [] ++ packets_to done.sends.items place }
        ensures began { result ≡ done.began }
    {
        for sent in done.sends {
            let way = &mut self.ways[sent.0];
            way.send(sent.1);
        }
        Held::unpack(done.began)
    }

    /// The first packet on the way to a peer, if there is one. `peer`: its place among the peers.
    ///
    /// Cost: no memory.
    pub(crate) fn first(&self, peer: usize) -> Option<&Packet>
        requires place { peer < length (ways_of self.now) }
        ensures first { option_map stamped_of (option_copied result) ≡ next_packet_of (get_or (ways_of self.now) peer []) }
        ensures short { (packet : Packet) → option_copied result ≡ Some packet → IsShort (2 ^ 32) packet.message }
    {
        let way = &self.ways[peer];
        way.first()
    }

    /// The packets on the way to a peer, the first to be taken first. `peer`: its place among the peers.
    ///
    /// Cost: no memory.
    pub(crate) fn packets(&self, peer: usize) -> &VecDeque<Packet>
        requires place { peer < length (ways_of self.now) }
        ensures { map stamped_of result.now.items ≡ get_or (ways_of self.now) peer [] }
    {
        let way = &self.ways[peer];
        way.packets()
    }

    /// Takes the first packet off the way to a peer. `peer`: its place among the peers.
    ///
    /// Cost: no memory.
    pub(crate) fn pass(&mut self, peer: usize)
        requires place { peer < length (ways_of self.old) }
        ensures { ways_of self.new ≡ slice_set (ways_of self.old) peer (drop 1 (get_or (ways_of self.old) peer [])) }
    {
        let way = &mut self.ways[peer];
        way.pass();
    }

    /// Whether so many packets can stay on the ways to the peers, by their places: on each as many as are there at most. It takes
    /// no memory.
    pub(crate) fn can_keep(&self, keep: &[usize]) -> bool
        requires { length keep.now ≡ length (ways_of self.now) }
        ensures { IsTrue result ↔ CanStay keep.now (ways_of self.now) }
    {
        for place in 0..self.ways.len() {
            let way = &self.ways[place];
            let count = keep[place];
            if count > way.len() {
                return false;
            }
        }
        true
    }

    /// Only the first packets stay on each way, as many as `keep` has at the place of the peer.
    ///
    /// Cost: no memory; O(packets that go).
    pub(crate) fn cut(&mut self, keep: &[usize])
        requires { length keep.now ≡ length (ways_of self.old) }
        ensures len { length (ways_of self.new) ≡ length (ways_of self.old) }
        ensures cut { (place : ℕ) → get_or (ways_of self.new) place [] ≡ take (get_or keep.now place 0) (get_or (ways_of self.old) place []) }
    {
        for place in 0..self.ways.len() {
            let count = keep[place];
            let way = &mut self.ways[place];
            way.cut(count);
        }
    }
}
