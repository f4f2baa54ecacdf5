//! How a node over bytes begins.

ghost use Rattle.std.specs.Prelude.{◌≡◌, ◌∷◌, ◌≤◌, ◌<◌, ◌+◌, ◌^◌, ℕ, [], length, Ok, IfOk, IfErr, IfSome};
ghost use Rattle.std.specs.List.{IsDistinct};
ghost use Rattle.pg_term.specs.Same.{same_atom};
ghost use Rattle.pg_term.specs.declared.pid.Pid.{Pid};
ghost use Rattle.pg_term.specs.declared.term.Term.{Term};
ghost use Rattle.pg_node_state.specs.PgTermIo.Writing.{written};
ghost use Rattle.pg_node_state.specs.PgGroup.Value.{count_in};
ghost use Rattle.pg_node_state.specs.PgEnds.Limits.{max_processes};
ghost use Rattle.pg_node_state.specs.PgMessageTypes.Writing.{body_of, term_of_packet};
ghost use Rattle.pg_node_state.specs.PgNodeOpens.Places.{name_at};
ghost use Rattle.pg_node.specs.Begun.{BeginsLinked, CantBegin, IsOpened};
ghost use Rattle.pg_node.specs.Links.{link_of, links_in};
ghost use Rattle.pg_node_state.specs.States.{names_of as names_known, kept_by};

use crate::node::Node;
use crate::node::announced::begin_fault_or_memory;
use crate::node::wire::Wire;
use bytes::BytesMut;
use pg_index::GroupsByPlace;
use pg_node_state::{
    GroupTable, NodeConfig, NodeFault, NodeState, Packet, packet_len, started, write_packet_into,
};
use std::alloc::{AllocError, Global};

/// How many bytes are on their way from an inlet at once.
const PIECE_LEN: usize = 65_536;

impl<T: GroupsByPlace + Drop> Node<T> {
    ghost use Rattle.pg_node_state.specs.PgStep.State.{new_state};
    ghost use Rattle.pg_node_state.specs.Issued.{ports_of};
    ghost use Rattle.pg_node.specs.Nodes.{held_by, links_of};
    ghost use Rattle.pg_node_state.specs.States.{names_of, state_of, answers_of};

    /// A node at time 0, as `NodeState::new` makes it: in the outbox to each peer is the frame that announces the
    /// groups of the table.
    ///
    /// Errors: `Message`, where what it announces can't be written, whatever memory there is: by `NotAMessage` where
    /// `check_name` refuses the name of a group, else by `TooLong` where the body would take more than 16,777,216
    /// bytes; else `OutOfMemory`.
    ///
    /// Cost: that of `snapshot`, and of the frame for each peer; besides, without memory, one look at each name and at
    /// each member that a body has room for.
    pub fn new(alloc: Global, config: NodeConfig, table: T) -> Result<Node<T>, NodeFault>
        requires apart { IsDistinct same_atom (config.own ∷ config.peers.items) }
        requires peers { length config.peers.items ≤ 15 }
        requires made { config.made ≤ max_processes }
        requires few { (name : Term) (pid : Pid) → count_in (T.contents table name) pid ≤ 2 ^ 32 }
        ensures names { IfOk result (λ node. names_of (held_by node) ≡ config.own ∷ config.peers.items) }
        ensures state { IfOk result (λ node. state_of (held_by node) ≡ record { clock = 0; state = new_state (T.contents table) config.made }) }
        ensures ports { IfOk result (λ node. ports_of (held_by node) ≡ config.ports) }
        ensures answers { IfOk result (λ node. answers_of (held_by node) ≡ (λ port. [])) }
        ensures begun { IfOk result (λ node. BeginsLinked (T.contents table) config.own (length config.peers.items) (links_of node)) }
        ensures fault { IfErr result (λ fault. CantBegin (T.contents table) config.own fault) }
    {
        let fault = begin_fault_or_memory(&config.own, &table);
        match started(alloc, config, table) {
            Ok(state) => Node::opened(alloc, state),
            Err(AllocError) => Err(fault),
        }
    }

    /// The node over bytes of one over packets: in the outbox to each peer is the frame that announces the groups of
    /// its table at time 0.
    ///
    /// Errors: those of `new`.
    ///
    /// Cost: that of `snapshot`, and of the frame for each peer. Where memory runs out, the names and members are looked at once
    /// more, without memory.
    pub fn opened(alloc: Global, state: NodeState<T>) -> Result<Node<T>, NodeFault>
        ensures state { IfOk result (λ node. held_by node ≡ state) }
        ensures begun { (peers : ℕ) → peers + 1 ≡ length (names_of state)
            → IfOk result (λ node. BeginsLinked (kept_by state).table (name_at (names_of state) 0) peers (links_of node)) }
        ensures fault { IfErr result (λ fault. CantBegin (kept_by state).table (name_at (names_of state) 0) fault) }
    {
        let Some(wires) = opening_wires(alloc, &state) else {
            return Err(begin_fault_or_memory(state.own(), state.table()));
        };
        let piece = match Vec::from_elem(alloc, 0, PIECE_LEN) {
            Ok(piece) => piece,
            Err(AllocError) => return Err(NodeFault::OutOfMemory),
        };
        Ok(Node {
            state,
            wires,
            piece,
            has_room: false,
            buffer: BytesMut::new(alloc),
            alloc,
        })
    }
}

/// The links of a node that begins, one to each peer; `None` where memory runs out, or what it announces can't be
/// written.
fn opening_wires<T: GroupTable + Drop>(alloc: Global, state: &NodeState<T>) -> Option<Vec<Wire>>
    ensures len { IfSome result (λ wires. length wires.items + 1 ≡ length (names_known state.now)) }
    ensures begun { (peers : ℕ) → peers + 1 ≡ length (names_known state.now)
        → IfSome result (λ wires. BeginsLinked (kept_by state.now).table (name_at (names_known state.now) 0) peers (links_in wires.items)) }
{
    let Ok(packet) = state.announcement() else {
        return None;
    };
    let wires = opened_wires(alloc, state.peer_count(), &packet);
    drop(packet);
    wires
}

/// Links in each of which the frame of a packet goes out, if it can be written.
fn opened_wires(alloc: Global, peers: usize, packet: &Packet) -> Option<Vec<Wire>>
    ensures len { IfSome result (λ wires. length wires.items ≡ peers) }
    ensures body { IfSome result (λ wires. body_of packet.now ≡ Ok (written (term_of_packet packet.now))) }
    ensures opened { IfSome result (λ wires. (place : ℕ) → place < peers → IsOpened packet.now (links_in wires.items place)) }
{
    match packet_len(packet) {
        Ok(_) => wires_with(alloc, peers, packet),
        Err(_) => None,
    }
}

/// Links in each of which the frame of a packet goes out.
fn wires_with(alloc: Global, peers: usize, packet: &Packet) -> Option<Vec<Wire>>
    ensures len { IfSome result (λ wires. length wires.items ≡ peers) }
    ensures opened { IfSome result (λ wires. (place : ℕ) → place < peers → IsOpened packet.now (links_in wires.items place)) }
{
    let Ok(mut wires) = Vec::with_capacity(alloc, peers) else {
        return None;
    };
    for place in 0..peers {
        let wire = opened_wire(alloc, packet)?;
        match wires.push(wire) {
            Ok(()) => {}
            Err(_) => return None,
        }
    }
    Some(wires)
}

/// A link in which the frame of a packet goes out.
fn opened_wire(alloc: Global, packet: &Packet) -> Option<Wire>
    ensures { IfSome result (λ wire. IsOpened packet.now (link_of wire)) }
{
    let mut wire = Wire::new(alloc);
    match write_packet_into(packet, &mut wire.outbox) {
        Ok(()) => Some(wire),
        Err(_) => None,
    }
}
