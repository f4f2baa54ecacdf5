//! The packets on the way from one node to another.

ghost use Rattle.std.specs.Prelude.{◌≡◌, ◌↔◌, IsTrue, ◌++◌, ◌∷◌, ◌^◌, [], drop};
ghost use Rattle.std.specs.Prelude.{take, length, map, option_map, IfOk, OnOk};
ghost use Rattle.std.specs.Option.{option_copied};
ghost use Rattle.pg_node_state.specs.PgMessageTypes.declared.packet.Packet.{Packet};
ghost use Rattle.pg_node_state.specs.PgMessageTypes.Members.{IsShort};
ghost use Rattle.pg_world_packets.specs.Short.{HaveShortGroups, HaveShortGroups-prop};

use crate::message::same_message;
use pg_node_state::Packet;
use std::alloc::{AllocError, Global};
use std::collections::VecDeque;

/// The packets on the way from one node to another, the first to be taken first.
#[derive(Drop)]
pub(crate) struct Way {
    packets: VecDeque<Packet>,
    ghost short: { HaveShortGroups packets.items } by { HaveShortGroups-prop packets.items },
}

impl Way {
    ghost use Rattle.pg_world_packets.specs.Views.{packets_of, next_packet_of, HasWayRoom};
    ghost use Rattle.pg_node_state.specs.PgStep.Machines.Clocked.{packets_of as unstamped};
    ghost use Rattle.pg_node_state.specs.PgNodeSends.Sent.{stamped_of};

    /// Nothing is on the way.
    ///
    /// Cost: no memory.
    pub(crate) fn new(alloc: Global) -> Way
        ensures { packets_of result ≡ [] }
    {
        Way {
            packets: VecDeque::new(alloc),
        }
    }

    /// A copy of the packet is on the way.
    ///
    /// Errors: `AllocError`.
    pub(crate) fn opened(alloc: Global, packet: &Packet) -> Result<Way, AllocError>
        requires short { IsShort (2 ^ 32) packet.now.message }
        ensures { IfOk result (λ way. packets_of way ≡ stamped_of packet.now ∷ []) }
    {
        let mut way = Way::new(alloc);
        way.reserve()?;
        way.send(packet.copy(alloc)?);
        Ok(way)
    }

    /// The same packets in the same order.
    ///
    /// Errors: `AllocError`.
    ///
    /// Cost: that of the copies.
    pub(crate) fn copy(&self) -> Result<Way, AllocError>
        ensures { IfOk result (λ copy. packets_of copy ≡ packets_of self.now) }
    {
        let packets = copy_packets(*self.packets.allocator(), &self.packets)?;
        Ok(Way {
            packets: VecDeque::from_vec(packets),
        })
    }

    /// Whether both have the same packets in the same order, but for their stamps.
    ///
    /// Cost: no memory.
    pub(crate) fn is_alike(&self, other: &Way) -> bool
        ensures { IsTrue result ↔ (unstamped (packets_of self.now) ≡ unstamped (packets_of other.now)) }
    {
        if self.packets.len() != other.packets.len() {
            return false;
        }
        for place in 0..self.packets.len() {
            let packet = &self.packets[place];
            let twin = &other.packets[place];
            if !same_message(&packet.message, &twin.message) {
                return false;
            }
        }
        true
    }

    /// Makes room for one more packet.
    ///
    /// Errors: `AllocError`, which changes nothing.
    pub(crate) fn reserve(&mut self) -> Result<(), AllocError>
        ensures same { packets_of self.new ≡ packets_of self.old }
        ensures room { OnOk result (HasWayRoom self.new) }
    {
        self.packets.reserve(1)
    }

    /// Puts a packet after the others, where there is room.
    ///
    /// Cost: no memory.
    pub(crate) fn send(&mut self, packet: Packet)
        requires short { IsShort (2 ^ 32) packet.message }
        requires room { HasWayRoom self.old }
        ensures { packets_of self.new ≡ packets_of self.old ++ stamped_of packet ∷ [] }
    {
        self.packets.push_back_reserved(packet);
    }

    /// The first packet, if there is one.
    ///
    /// Cost: no memory.
    pub(crate) fn first(&self) -> Option<&Packet>
        ensures first { option_map stamped_of (option_copied result) ≡ next_packet_of (packets_of self.now) }
        ensures short { (packet : Packet) → option_copied result ≡ Some packet → IsShort (2 ^ 32) packet.message }
    {
        self.packets.front()
    }

    /// All of them, the first to be taken first.
    ///
    /// Cost: no memory.
    pub(crate) fn packets(&self) -> &VecDeque<Packet>
        ensures { map stamped_of result.now.items ≡ packets_of self.now }
    {
        &self.packets
    }

    /// How many packets there are.
    ///
    /// Cost: no memory.
    pub(crate) fn len(&self) -> usize
        ensures { result ≡ length (packets_of self.now) }
    {
        self.packets.len()
    }

    /// Only the first packets stay, so many at most.
    ///
    /// Cost: no memory; O(packets that go).
    pub(crate) fn cut(&mut self, keep: usize)
        ensures { packets_of self.new ≡ take keep (packets_of self.old) }
    {
        self.packets.truncate(keep);
    }

    /// Takes the first packet out, if there is one.
    ///
    /// Cost: no memory.
    pub(crate) fn pass(&mut self)
        ensures { packets_of self.new ≡ drop 1 (packets_of self.old) }
    {
        drop(self.packets.pop_front());
    }
}

/// The same packets in the same order.
///
/// Errors: `AllocError`.
fn copy_packets(alloc: Global, packets: &VecDeque<Packet>) -> Result<Vec<Packet>, AllocError>
    ensures { IfOk result (λ copies. copies.items ≡ packets.now.items) }
{
    let mut copies = Vec::with_capacity(alloc, packets.len())?;
    for place in 0..packets.len() {
        copies.push(packets[place].copy(alloc)?)?;
    }
    Ok(copies)
}
