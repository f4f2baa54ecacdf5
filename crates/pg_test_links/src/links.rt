//! Two nodes over bytes, and rings between them.

ghost use Rattle.std.proofs.Math.Nat.{le_refl};
ghost use Rattle.std.specs.Prelude.{◌≤◌};
ghost use Rattle.pg_ring.specs.MemRing.{Grows};
ghost use Rattle.pg_ring.specs.MemRingLaws.{Grows-rests, Grows-composes, Grows-agrees};

use pg_ring::{Link, MemRing};
use pg_script::{Command, IndexTable, Node, NodeFault, Outgoing, read_script, starting_nodes};
use std::alloc::Global;
use std::process::Abort;

/// A node over bytes.
pub type Linked = Node<IndexTable>;

/// A ring for 64 bytes, of which one put moves nothing.
#[derive(Drop)]
struct Skips {
    ring: MemRing,
    // How many puts there were.
    puts: u32,
    // The put that moves nothing, from 1.
    skipped: u32,
    // How many bytes it was offered at last.
    offered: usize,
}

impl Link for Skips {
    ghost accepts = { λ a xs b. Grows a.ring xs b.ring };

    ghost moves = { λ link offered count. count ≤ offered };

    fn put(&mut self, bytes: &[u8]) -> usize {
        self.puts = self.puts.saturating_add(1);
        self.offered = bytes.len();
        if self.puts == self.skipped {
            0
        } else {
            self.ring.put(bytes)
        }
    }

    ghost rests = { λ a. Grows-rests a.ring };

    ghost composes = { λ a b c xs ys. Grows-composes a.ring b.ring c.ring xs ys };

    ghost agrees = { λ a b xs ys. Grows-agrees a.ring b.ring xs ys };

    ghost idles = { λ a. le_refl 0 };
}

/// Two nodes, and a ring each way.
#[derive(Drop)]
pub struct Pair {
    pub one: Linked,
    pub other: Linked,
    // The place of the second node among the peers of the first. That is the first peer of the second.
    peer: usize,
    there: Skips,
    back: Skips,
    // What the test plays for the first node, and what goes out to its first peer where the test plays that.
    inlet: MemRing,
    outlet: MemRing,
}

// The number of a place that is not there.
const NO_PLACE: Option<u8> = Some(16);

// The number of the fault of a call, if there is one.
fn number_of<V: Drop>(done: Result<V, NodeFault>) -> Option<u8> {
    match done {
        Ok(value) => {
            drop(value);
            None
        }
        Err(fault) => Some(fault.number()),
    }
}

// So many bytes at most of a ring come from a peer: the number of the fault, if there is one.
fn pull(node: &mut Linked, peer: usize, ring: &mut MemRing, max: usize) -> Option<u8> {
    if peer >= node.state().peer_count() {
        return NO_PLACE;
    }
    number_of(node.pull(peer, ring, max))
}

/// Takes the next packet of a peer, if it is whole: the number of the fault, if there is one.
pub fn take(node: &mut Linked, peer: usize) -> Option<u8> {
    if peer >= node.state().peer_count() {
        return NO_PLACE;
    }
    number_of(node.take(peer))
}

/// Reads the next packet of a peer, if it is whole: the number of the fault, if there is one.
pub fn read(node: &mut Linked, peer: usize) -> Option<u8> {
    if peer >= node.state().peer_count() {
        return NO_PLACE;
    }
    number_of(node.next(peer))
}

/// Sees the loss of a peer, whose clock was this at last: the number of the fault, if there is one.
pub fn lose(node: &mut Linked, peer: usize, last: u32) -> Option<u8> {
    if peer >= node.state().peer_count() {
        return NO_PLACE;
    }
    number_of(node.see_loss(peer, last))
}

/// How many bytes go out to a peer and were not put, and whether the link to it is damaged.
pub fn link_to(node: &Linked, peer: usize) -> (usize, bool) {
    if peer < node.state().peer_count() {
        (node.outbox(peer).len(), node.damaged(peer))
    } else {
        (0, true)
    }
}

// Puts so many bytes at most, of what goes out to a peer, on a link, and nothing where the put is skipped. Whether what was not put stays.
fn puts(node: &mut Linked, peer: usize, link: &mut Skips, max: usize) -> bool {
    if peer >= node.state().peer_count() {
        return false;
    }
    let before = node.outbox(peer).len();
    let count = node.put(peer, link, max);
    before.checked_sub(count) == Some(node.outbox(peer).len())
        && (link.puts != link.skipped || count == 0)
        && (link.offered > 0 || before == 0)
}

// The same, and what comes to the other node is taken there, where it is whole. Whether no fault is told.
fn crosses(
    from: &mut Linked,
    peer: usize,
    link: &mut Skips,
    to: &mut Linked,
    sender: usize,
    max: usize,
) -> bool {
    puts(from, peer, link, max)
        && pull(to, sender, &mut link.ring, max) == None
        && take(to, sender) == None
}

impl Pair {
    /// The first node, or the second.
    pub fn node(&self, is_first: bool) -> &Linked {
        if is_first { &self.one } else { &self.other }
    }

    /// At most so many bytes move from one node to the other, or back, and what is whole then is taken. Whether no fault is told.
    pub fn moves(&mut self, is_there: bool, max: usize) -> bool {
        if is_there {
            let link = &mut self.there;
            crosses(&mut self.one, self.peer, link, &mut self.other, 0, max)
        } else {
            let link = &mut self.back;
            crosses(&mut self.other, 0, link, &mut self.one, self.peer, max)
        }
    }

    /// These bytes come to the first node from a peer: the number of the fault by which they are refused, if they are.
    pub fn feed(&mut self, peer: usize, bytes: &[u8]) -> Option<u8> {
        let mut fault = None;
        for piece in bytes.chunks(64) {
            self.inlet.put(piece);
            fault = pull(&mut self.one, peer, &mut self.inlet, 64);
        }
        fault
    }

    /// Whether bytes of the first node go out to its first peer.
    pub fn goes_out(&mut self) -> bool {
        0 < self.one.state().peer_count() && self.one.put(0, &mut self.outlet, 64) > 0
    }

    /// Whether the first node takes this command, and sends something for it.
    pub fn is_given(&mut self, command: &Command) -> bool {
        if self.one.state().port_count() != 1 {
            return false;
        }
        let Ok(done) = self.one.command(0, command) else {
            return false;
        };
        let sends = done.sends.count() > 0;
        drop(done);
        sends
    }

    /// How often the first node has put.
    pub fn puts(&self) -> u32 {
        self.there.puts
    }
}

/// The nodes of these declarations, by their places, which have told each other nothing yet.
pub fn nodes_of(rt: &impl Abort, alloc: Global, declared: &str) -> Vec<Linked> {
    let script = read_script(alloc, declared).ok().expect(rt, "memory");
    let nodes = starting_nodes(alloc, &script.config)
        .ok()
        .expect(rt, "memory");
    drop(script);
    nodes
}

fn new_ring(rt: &impl Abort, alloc: Global) -> MemRing {
    MemRing::new(alloc, 64).ok().expect(rt, "memory")
}

fn new_link(rt: &impl Abort, alloc: Global, skipped: u32) -> Skips {
    Skips {
        ring: new_ring(rt, alloc),
        puts: 0,
        skipped,
        offered: 0,
    }
}

// `peer`: the place of the second among the peers of the first.
fn linked(
    rt: &impl Abort,
    alloc: Global,
    one: Linked,
    other: Linked,
    peer: usize,
    skipped: u32,
) -> Pair {
    Pair {
        one,
        other,
        peer,
        there: new_link(rt, alloc, skipped),
        back: new_link(rt, alloc, skipped),
        inlet: new_ring(rt, alloc),
        outlet: new_ring(rt, alloc),
    }
}

/// The nodes `a` and `b`, of which each is the other's only peer. This put of each moves nothing; each does by 0.
pub fn two_alone(rt: &impl Abort, alloc: Global, skipped: u32) -> Pair {
    let mut nodes = nodes_of(rt, alloc, "node a\nnode b");
    let b = nodes.pop().expect(rt, "b");
    let a = nodes.pop().expect(rt, "a");
    drop(nodes);
    linked(rt, alloc, a, b, 0, skipped)
}

/// The nodes `a` and `c` of three. The test plays `b`, the first peer of `a`.
pub fn two_of_three(rt: &impl Abort, alloc: Global) -> Pair {
    let mut nodes = nodes_of(rt, alloc, "node a\nnode b\nnode c");
    let c = nodes.pop().expect(rt, "c");
    drop(nodes.pop());
    let a = nodes.pop().expect(rt, "a");
    drop(nodes);
    linked(rt, alloc, a, c, 1, 0)
}
