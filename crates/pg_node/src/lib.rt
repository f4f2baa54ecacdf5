//! One node of a set over bytes, and the replica: one node with one peer, over a stream of frames. The crate hands on the node over
//! packets (pg_node_state), with what a node is told and answers.
//!
//! `node.command(port, &command)?` gives a node a command, and `node.take(peer)?` has it take a packet. Begin with CALLING.md, then
//! `src/node/events.rt`; docs/STEP.md says what each does. The replica begins in `src/replica.rt`.
#![tactic(auto)]

mod node;
mod replica;

pub use node::Node;
pub use pg_index::{GroupsByPlace, IndexTable};
pub use pg_message_reader::{OwnReply, read_own_reply, read_packet};
pub use pg_node_state::{
    Answer, Command, Deframer, Done, Framed, Goes, GroupTable, Held, MAX_SMALL_LEN, Message,
    NodeConfig, NodeFault, NodeState, Odd, OpId, Outgoing, Packet, Places, Refusal, Reply, Request,
    Said, encode, packet_len, started, write_packet_into,
};
pub use pg_ring::{Inlet, Link, SlotIn, SlotOut, slot_pair, slots_together};
pub use replica::{ServeFault, serve};
