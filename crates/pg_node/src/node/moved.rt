//! What is read of a node over bytes, and how bytes move between its links and its peers.

ghost use Rattle.std.specs.Prelude.{◌≡◌, ◌↔◌, ◌≤◌, ◌<◌, ◌+◌, ℕ, List, true, false};
ghost use Rattle.std.specs.Prelude.{length, take, min, None, Ok, Err, IfOk, IfErr, OnErr};

use crate::node::Node;
use crate::node::wire::Wire;
use pg_node_state::{GroupTable, NodeFault, NodeState, Refusal};
use pg_ring::{Inlet, Link};

impl<T: GroupTable + Drop> Node<T> {
    ghost use Rattle.pg_node_state.specs.PgStep.declared.refusal.Refusal.TheVariants.{NodeLost};
    ghost use Rattle.pg_node_state.specs.declared.state.fault.NodeFault.TheVariants.{Refused, Damaged, OutOfMemory};
    ghost use Rattle.pg_node.specs.Links.{at_link, with_fed, without_front};
    ghost use Rattle.pg_node.specs.Nodes.{held_by, links_of, buffer_of, has_lost, read_next};
    ghost use Rattle.pg_node_state.specs.States.{names_of};

    /// The node over packets.
    ///
    /// Cost: no memory.
    pub fn state(&self) -> &NodeState<T>
        ensures { result.now ≡ held_by self.now }
    {
        &self.state
    }

    /// The bytes that go out to a peer and were not put. `peer`: its place among the peers.
    ///
    /// Cost: no memory.
    pub fn outbox(&self, peer: usize) -> &[u8]
        requires place { peer + 1 < length (names_of (held_by self.now)) }
        ensures { result.now ≡ (links_of self.now peer).outbox }
    {
        self.wires[peer].outbox.as_slice()
    }

    /// Whether the link to a peer is damaged: what came in had a fault.
    ///
    /// Cost: no memory.
    pub fn damaged(&self, peer: usize) -> bool
        requires place { peer + 1 < length (names_of (held_by self.now)) }
        ensures { result ≡ (links_of self.now peer).damaged }
    {
        self.wires[peer].damaged
    }

    /// Whether nothing is there to be taken of a peer yet: its loss was not seen, the link is not damaged, and neither a
    /// whole frame came nor a length that is too long. `take` gives `None` exactly then.
    ///
    /// Cost: no memory.
    pub fn is_idle(&self, peer: usize) -> bool
        requires place { peer + 1 < length (names_of (held_by self.now)) }
        ensures { (result ≡ true) ↔ (read_next (has_lost (held_by self.now) peer) (links_of self.now peer) ≡ Ok None) }
    {
        if self.state.is_lost(peer) {
            return false;
        }
        self.wires[peer].is_idle()
    }

    /// Moves up to `max` bytes from the front of the outbox of a peer into a link, and returns how many it took.
    ///
    /// Cost: no memory; O(bytes moved).
    pub fn put<L: Link>(&mut self, peer: usize, link: &mut L, max: usize) -> usize
        requires place { peer + 1 < length (names_of (held_by self.old)) }
        ensures within { result ≤ max }
        ensures some { result ≤ length (links_of self.old peer).outbox }
        ensures moved { L.accepts link.old (take result (links_of self.old peer).outbox) link.new }
        ensures many { L.moves link.old (min max (length (links_of self.old peer).outbox)) result }
        ensures rest { links_of self.new ≡ at_link peer (λ l. without_front l result) (links_of self.old) }
        ensures state { held_by self.new ≡ held_by self.old }
        ensures buffer { buffer_of self.new ≡ buffer_of self.old }
    {
        let wire = &mut self.wires[peer];
        wire.put(link, max)
    }

    /// Adds what an inlet gives to the bytes that came in from a peer, and returns how many it gave: up to `max`, and
    /// up to 65,536.
    ///
    /// Errors: `Refused` by `NodeLost`, exactly where the loss of the peer was seen; `Damaged`, exactly where the
    /// link is damaged; else `OutOfMemory`. They change nothing.
    ///
    /// Cost: O(bytes moved), and at times that of the bytes that were not taken yet.
    pub fn pull<I: Inlet>(
        &mut self,
        peer: usize,
        inlet: &mut I,
        max: usize,
    ) -> Result<usize, NodeFault>
        requires place { peer + 1 < length (names_of (held_by self.old)) }
        ensures within { IfOk result (λ count. (count ≤ max) × (count ≤ 65536)) }
        ensures many { IfOk result (λ count. I.moves inlet.old (min max 65536) count) }
        ensures fed { IfOk result (λ count. (piece : List ℕ) × (length piece ≡ count) × I.gives inlet.old piece inlet.new
            × (links_of self.new ≡ at_link peer (λ l. with_fed l piece) (links_of self.old))) }
        ensures lost { has_lost (held_by self.old) peer ≡ true → result ≡ Err (Refused NodeLost) }
        ensures damaged { has_lost (held_by self.old) peer ≡ false → (links_of self.old peer).damaged ≡ true → result ≡ Err Damaged }
        ensures memory { has_lost (held_by self.old) peer ≡ false → (links_of self.old peer).damaged ≡ false → IfErr result (λ fault. fault ≡ OutOfMemory) }
        ensures err { OnErr result (links_of self.new ≡ links_of self.old) }
        ensures err_inlet { OnErr result (inlet.new ≡ inlet.old) }
        ensures state { held_by self.new ≡ held_by self.old }
        ensures buffer { buffer_of self.new ≡ buffer_of self.old }
    {
        if self.state.is_lost(peer) {
            return Err(NodeFault::Refused(Refusal::NodeLost));
        }
        let wire = &mut self.wires[peer];
        pull_some(wire, inlet, &mut self.piece, max)
    }
}

ghost use Rattle.pg_node_state.specs.declared.state.fault.NodeFault.TheVariants as faults;
ghost use Rattle.pg_node.specs.Links.{link_of, with_fed as link_fed};

/// Adds what an inlet gives to what came in, up to `max` bytes and to the length of `piece`, where they are on the
/// way.
fn pull_some<I: Inlet>(
    wire: &mut Wire,
    inlet: &mut I,
    piece: &mut Vec<u8>,
    max: usize,
) -> Result<usize, NodeFault>
    ensures within { IfOk result (λ count. (count ≤ max) × (count ≤ length piece.old.items)) }
    ensures many { IfOk result (λ count. I.moves inlet.old (min max (length piece.old.items)) count) }
    ensures fed { IfOk result (λ count. (bytes : List ℕ) × (length bytes ≡ count) × I.gives inlet.old bytes inlet.new
        × (link_of wire.new ≡ link_fed (link_of wire.old) bytes)) }
    ensures len { length piece.new.items ≡ length piece.old.items }
    ensures damaged { (link_of wire.old).damaged ≡ true → result ≡ Err faults.Damaged }
    ensures memory { (link_of wire.old).damaged ≡ false → IfErr result (λ fault. fault ≡ faults.OutOfMemory) }
    ensures err { OnErr result (link_of wire.new ≡ link_of wire.old) }
    ensures room { wire.new.outbox.spare ≡ wire.old.outbox.spare }
    ensures err_inlet { OnErr result (inlet.new ≡ inlet.old) }
{
    let some = max.min(piece.len());
    wire.pull(inlet, &mut piece[..some])
}
