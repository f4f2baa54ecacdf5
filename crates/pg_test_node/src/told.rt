//! What happens at a node, and what it did.

use crate::nodes::State;
use crate::texts::{command_of, packet_of};
use pg_node::{Command, Done, Message, NodeFault, Odd, OpId, Packet, Refusal, Request, Said};
use std::alloc::Global;

/// What happens at a node.
#[derive(Clone, Copy)]
pub enum Event<'a> {
    /// A command comes in at the port: a line of a script.
    Command(&'a str),
    /// A packet of this peer is taken.
    Take(usize, &'a str),
    /// The command of this number is tried again.
    Retry(u32),
    /// The loss of this peer is seen, whose clock was this at last.
    Loss(usize, u32),
}

/// What an event did.
#[derive(Clone, Copy)]
pub struct Did {
    /// How many packets are sent.
    pub sends: usize,
    /// The peer that the first packet goes to.
    pub peer: usize,
    /// The number of the reference of the call that the first packet is, and else 0.
    pub call: u32,
    /// Whether that call asks for the lock.
    pub asks_lock: bool,
    /// What the first packet replies.
    pub said: Option<Said>,
    /// Whether a command got its last grant.
    pub began: bool,
    /// A reply that completed nothing.
    pub odd: Option<Odd>,
}

pub const NOTHING: Did = Did {
    sends: 0,
    peer: 0,
    call: 0,
    asks_lock: false,
    said: None,
    began: false,
    odd: None,
};

const NO_MEMORY: Result<Did, NodeFault> = Err(NodeFault::OutOfMemory);

const NO_PLACE: NodeFault = NodeFault::Refused(Refusal::NoSuchPlace);

/// What this event does at the node.
pub fn happens(alloc: Global, node: &mut State, event: Event<'_>) -> Result<Did, NodeFault> {
    match event {
        Event::Command(line) => {
            with!(command_in(alloc, line), Some command => told(given(node, &command)), else NO_MEMORY)
        }
        Event::Take(peer, text) => {
            with!(packet_in(alloc, text), Some packet => told(taken(node, peer, &packet)), else NO_MEMORY)
        }
        Event::Retry(number) => told(retried(node, number)),
        Event::Loss(peer, last) => told(lost(node, peer, last)),
    }
}

// The command in a line, which is read a second time where memory was refused: what the node is told is its own.
fn command_in(alloc: Global, line: &str) -> Option<Command> {
    match command_of(alloc, line) {
        Some(command) => Some(command),
        None => command_of(alloc, line),
    }
}

// The packet in a text, as `command_in`.
fn packet_in(alloc: Global, text: &str) -> Option<Packet> {
    match packet_of(alloc, text) {
        Some(packet) => Some(packet),
        None => packet_of(alloc, text),
    }
}

fn given(node: &mut State, command: &Command) -> Result<Done, NodeFault> {
    if node.port_count() == 1 {
        node.command(0, command)
    } else {
        Err(NO_PLACE)
    }
}

fn retried(node: &mut State, number: u32) -> Result<Done, NodeFault> {
    if node.port_count() == 1 {
        node.retry(OpId { port: 0, number })
    } else {
        Err(NO_PLACE)
    }
}

fn lost(node: &mut State, peer: usize, last: u32) -> Result<Done, NodeFault> {
    if peer < node.peer_count() {
        node.see_loss(peer, last)
    } else {
        Err(NO_PLACE)
    }
}

// Takes a packet that tells no group with a member.
fn taken(node: &mut State, peer: usize, packet: &Packet) -> Result<Done, NodeFault> {
    if peer >= node.peer_count() {
        return Err(NO_PLACE);
    }
    match &packet.message {
        Message::Call(_, _) => node.take(peer, packet),
        Message::Reply(_, _) => node.take(peer, packet),
        Message::DelLock(_, _) => node.take(peer, packet),
        Message::Down(_) => node.take(peer, packet),
        Message::Exchange(_, groups) if groups.as_slice().is_empty() => node.take(peer, packet),
        Message::Exchange(_, _) => Err(NO_PLACE),
    }
}

// What an event did, which was not refused.
fn told(done: Result<Done, NodeFault>) -> Result<Did, NodeFault> {
    let done = done?;
    let did = seen(&done);
    drop(done);
    Ok(did)
}

fn seen(done: &Done) -> Did {
    let mut did = NOTHING;
    did.sends = done.sends.len();
    did.began = done.began.is_some();
    did.odd = done.odd;
    if let Some((peer, packet)) = done.sends.first() {
        did.peer = *peer;
        match &packet.message {
            Message::Call(reference, request) => {
                did.call = *reference.words().first().unwrap_or(&0);
                did.asks_lock = matches!(request, Request::SetLock(_));
            }
            Message::Reply(_, said) => did.said = Some(*said),
            _ => {}
        }
    }
    did
}
