//! A node over packets.

ghost use Rattle.std.specs.Prelude.{◌^◌, IsTrue};
ghost use Rattle.pg_cluster.specs.PgMessageTypes.Members.{IsShort};

use crate::nodes::Player;
use crate::nodes::made::{answered, new_state};
use pg_cluster::{Command, IndexTable, Message, NodeState, Packet};
use std::alloc::Global;

/// The node.
#[derive(Drop)]
pub struct OverPackets {
    node: NodeState<IndexTable>,
}

// Whether it announces no group.
fn tells_no_group(packet: &Packet) -> bool
    ensures { IsTrue result → IsShort (2 ^ 32) packet.now.message }
{
    match &packet.message {
        Message::Exchange(_, groups) => groups.as_slice().is_empty(),
        Message::Call(..) | Message::Reply(..) | Message::DelLock(..) | Message::Down(_) => true,
    }
}

impl OverPackets {
    // Takes a packet that announces no group; whether it was taken.
    fn is_taken(&mut self, peer: usize, packet: &Packet) -> bool {
        peer < self.node.peer_count()
            && tells_no_group(packet)
            && self.node.take(peer, packet).is_ok()
    }

    // Gives a command at the port; whether it was taken.
    fn is_given(&mut self, command: &Command) -> bool {
        self.node.port_count() == 1 && self.node.command(0, command).is_ok()
    }
}

impl Player for OverPackets {
    type Load = Vec<Packet>;

    fn new(alloc: Global) -> Option<OverPackets> {
        match new_state(alloc) {
            Ok(node) => Some(OverPackets { node }),
            Err(_) => None,
        }
    }

    fn load(_alloc: Global, packets: Vec<Packet>) -> Option<Vec<Packet>> {
        Some(packets)
    }

    fn take(&mut self, peer: usize, load: &Vec<Packet>) -> bool {
        for packet in load {
            if !self.is_taken(peer, packet) {
                return false;
            }
        }
        true
    }

    fn ask(&mut self, commands: &[Command]) -> bool {
        for command in commands {
            if !self.is_given(command) {
                return false;
            }
        }
        true
    }

    fn answered(&self) -> u64 {
        answered(&self.node)
    }

    fn forget(&mut self) {
        if self.node.port_count() == 1 {
            self.node.forget_answers(0, usize::MAX);
        }
    }
}
