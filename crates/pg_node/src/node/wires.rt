//! The links of a node to all its peers.

ghost use Rattle.std.specs.Prelude.{◌≡◌, ◌≤◌, ◌<◌, ◌+◌, ◌&&◌, ℕ, [], true, cond, nat_eq, length, OnOk};
ghost use Rattle.pg_node_state.specs.PgMessageTypes.declared.packet.Packet.{Packet};
ghost use Rattle.pg_node_state.specs.PgNodeSends.declared.goes.Goes.TheVariants.{Marked};
ghost use Rattle.pg_node_state.specs.PgNodeSends.Framed.{listed_of};
ghost use Rattle.pg_node_state.specs.PgNodeSends.Frames.{frames_to, AreSmallFrames, IsFrame};
ghost use Rattle.pg_node_state.specs.PgNodeSends.Going.{going};
ghost use Rattle.pg_node_state.specs.PgNodeSends.Sendable.{FitLinks};
ghost use Rattle.pg_node.specs.Links.{links_in, room_in, with_more, HaveFrameRoom};
ghost use Rattle.pg_node_state.specs.PgMessageWriter.Limits.{max_small_len};

use crate::node::wire::Wire;
use pg_node_state::{Framed, Goes, Places};
use std::alloc::AllocError;

/// Makes room for one small frame in every outbox, where it was not made, or taken since. `has_room`: whether it is there, which
/// is known.
///
/// Errors: `AllocError`, which changes nothing.
pub(crate) fn make_room(wires: &mut Vec<Wire>, has_room: &mut bool) -> Result<(), AllocError>
    requires known { has_room.old ≡ true → HaveFrameRoom wires.old.items }
    ensures same { links_in wires.new.items ≡ links_in wires.old.items }
    ensures len { length wires.new.items ≡ length wires.old.items }
    ensures room { OnOk result (HaveFrameRoom wires.new.items) }
    ensures known { has_room.new ≡ true → HaveFrameRoom wires.new.items }
{
    if *has_room {
        return Ok(());
    }
    for place in 0..wires.len() {
        let wire = &mut wires[place];
        wire.reserve()?;
    }
    *has_room = true;
    Ok(())
}

/// Appends a frame to the outboxes of the peers that it goes to, where there is room for one in each. It takes no memory.
/// `has_room`: whether that is so behind it, as far as is known.
pub(crate) fn send_all(wires: &mut Vec<Wire>, has_room: &mut bool, framed: &Framed)
    requires fit { FitLinks (length wires.old.items) (listed_of framed.now) }
    requires room { HaveFrameRoom wires.old.items }
    ensures sent { (place : ℕ) → links_in wires.new.items place ≡ with_more (links_in wires.old.items place) (frames_to (listed_of framed.now) place) }
    ensures small { AreSmallFrames (listed_of framed.now) }
    ensures len { length wires.new.items ≡ length wires.old.items }
    ensures known { has_room.new ≡ true → HaveFrameRoom wires.new.items }
{
    match framed.goes() {
        Goes::Nobody => {}
        Goes::One(peer) => {
            *has_room = false;
            append_if(wires, peer, true, framed.frame());
        }
        Goes::Marked(marked, peers) => {
            *has_room = false;
            append_marked(wires, marked, peers, framed.frame());
        }
    }
}

/// Appends a frame to the outboxes of the marked ones of so many peers, where there is room for it in each. It takes no memory.
fn append_marked(wires: &mut Vec<Wire>, marked: Places, peers: usize, frame: &[u8])
    requires fit { (packet : Packet) × IsFrame frame.now packet × FitLinks (length wires.old.items) (going (Marked marked peers) packet) }
    requires room { HaveFrameRoom wires.old.items }
    ensures sent { (packet : Packet) → IsFrame frame.now packet → (place : ℕ)
        → links_in wires.new.items place ≡ with_more (links_in wires.old.items place) (frames_to (going (Marked marked peers) packet) place) }
    ensures len { length wires.new.items ≡ length wires.old.items }
{
    for peer in 0..peers {
        append_if(wires, peer, marked.has(peer), frame);
    }
}

/// Appends a small frame to the outbox of a peer, where that is marked. It takes no memory.
fn append_if(wires: &mut Vec<Wire>, peer: usize, marked: bool, frame: &[u8])
    requires short { length frame.now ≤ 4 + max_small_len }
    requires place { marked ≡ true → peer < length wires.old.items }
    requires room { marked ≡ true → 4 + max_small_len ≤ room_in wires.old.items peer }
    ensures sent { (place : ℕ) → links_in wires.new.items place ≡ with_more (links_in wires.old.items place) (cond (marked && nat_eq peer place) frame.now []) }
    ensures others { (place : ℕ) → peer < place → room_in wires.new.items place ≡ room_in wires.old.items place }
    ensures len { length wires.new.items ≡ length wires.old.items }
{
    if marked {
        let wire = &mut wires[peer];
        wire.append(frame);
    }
}
