//! One node over bytes: what came in from its peers, and what goes out to them.

ghost use Rattle.std.specs.Prelude.{◌≡◌, ◌+◌, true, length};
ghost use Rattle.pg_node.specs.Links.{HaveFrameRoom};
ghost use Rattle.pg_node_state.specs.States.{names_of as names_known};

mod announced;
mod begun;
mod events;
mod forgets;
mod moved;
mod own;
mod wire;
mod wires;

use crate::node::wire::Wire;
use bytes::BytesMut;
use pg_node_state::{GroupTable, NodeState};
use std::alloc::Global;

/// A node of a set over the bytes of its links.
#[derive(Drop)]
pub struct Node<T: GroupTable> {
    state: NodeState<T>,
    // The links to its peers, in their order.
    wires: Vec<Wire>,
    // Where bytes are on their way from an inlet.
    piece: Vec<u8>,
    // No event has taken of the room for a small frame since it was made in every outbox.
    has_room: bool,
    // The memory for the frame of the next event.
    buffer: BytesMut,
    alloc: Global,
    ghost linked: { length wires.items + 1 ≡ length (names_known state) },
    ghost passage: { length piece.items ≡ 65536 },
    ghost room: { has_room ≡ true → HaveFrameRoom wires.items },
}
