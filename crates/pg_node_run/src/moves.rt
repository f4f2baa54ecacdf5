//! How bytes move between a node and its links. No event happens.

ghost use Rattle.std.specs.Prelude.{◌≡◌, ◌<◌, ◌≤◌, ◌+◌, ◌-◌, ◌^◌, ℕ, List, [], true, false};
ghost use Rattle.std.specs.Prelude.{Err, length, min, slice_get, IfOk, IfErr, IfSome, OnErr};

use crate::linked::LinkedNode;
use pg_node::{GroupTable, Inlet, Link, NodeFault};

impl<T: GroupTable + Drop, L: Link + Drop, I: Inlet + Drop> LinkedNode<T, L, I> {
    ghost use Rattle.pg_node.specs.PgStep.declared.refusal.Refusal.TheVariants.{NodeLost};
    ghost use Rattle.pg_node.specs.PgNodeState.declared.state.fault.NodeFault.TheVariants.{Refused, Damaged, OutOfMemory};
    ghost use Rattle.pg_node.specs.Nodes.{held_by, links_of, has_lost};
    ghost use Rattle.pg_node.specs.Links.{at_link, with_fed, without_front};
    ghost use Rattle.pg_node_run.specs.Follows.{Follows, InletMoves, LinkMoves, node_of, peers_of};

    /// Moves what waits for a peer into the link to it, as much as that takes, and returns how many bytes. `peer`:
    /// its place among the peers. Where nothing waits the link is left alone.
    ///
    /// Cost: no memory; O(bytes moved).
    pub fn put(&mut self, peer: usize) -> usize
        requires place { peer < length (peers_of self.old) }
        ensures follows { Follows L.accepts I.gives [] self.old self.new }
        ensures count { length (links_of (node_of self.new) peer).outbox + result ≡ length (links_of (node_of self.old) peer).outbox }
        ensures many { IfSome (slice_get (peers_of self.old) peer)
            (λ of. L.moves of.link (min (2 ^ 64 - 1) (length (links_of (node_of self.old) peer).outbox)) result) }
        ensures rest { links_of (node_of self.new) ≡ at_link peer (λ l. without_front l result) (links_of (node_of self.old)) }
        ensures peers { LinkMoves peer (peers_of self.old) (peers_of self.new) }
        ensures state { held_by (node_of self.new) ≡ held_by (node_of self.old) }
    {
        if self.node.outbox(peer).is_empty() {
            return 0;
        }
        let links = &mut self.peers[peer];
        self.node.put(peer, &mut links.link, usize::MAX)
    }

    /// Adds what the inlet from a peer gives to what came in from it, and returns how many bytes: up to `max`, and up
    /// to 65,536. `peer`: its place among the peers.
    ///
    /// Errors, by which nothing moves, the first that holds: `Refused` by `NodeLost`, exactly where the loss of the
    /// peer was seen; `Damaged`, exactly where the link is damaged; else `OutOfMemory`.
    ///
    /// Cost: O(bytes moved), and at times that of the bytes that were not taken yet.
    pub fn pull(&mut self, peer: usize, max: usize) -> Result<usize, NodeFault>
        requires place { peer < length (peers_of self.old) }
        ensures follows { Follows L.accepts I.gives [] self.old self.new }
        ensures within { IfOk result (λ count. (count ≤ max) × (count ≤ 65536)) }
        ensures count { IfOk result (λ count. length (links_of (node_of self.new) peer).unread ≡ length (links_of (node_of self.old) peer).unread + count) }
        ensures many { IfOk result (λ count. IfSome (slice_get (peers_of self.old) peer) (λ of. I.moves of.inlet (min max 65536) count)) }
        ensures lost { has_lost (held_by (node_of self.old)) peer ≡ true → result ≡ Err (Refused NodeLost) }
        ensures damaged { has_lost (held_by (node_of self.old)) peer ≡ false → (links_of (node_of self.old) peer).damaged ≡ true → result ≡ Err Damaged }
        ensures memory { has_lost (held_by (node_of self.old)) peer ≡ false → (links_of (node_of self.old) peer).damaged ≡ false
            → IfErr result (λ fault. fault ≡ OutOfMemory) }
        ensures fed { IfOk result (λ count. (piece : List ℕ) × (length piece ≡ count)
            × (links_of (node_of self.new) ≡ at_link peer (λ l. with_fed l piece) (links_of (node_of self.old)))) }
        ensures peers { InletMoves peer (peers_of self.old) (peers_of self.new) }
        ensures err { OnErr result (links_of (node_of self.new) ≡ links_of (node_of self.old)) }
        ensures err_peers { OnErr result (peers_of self.new ≡ peers_of self.old) }
        ensures state { held_by (node_of self.new) ≡ held_by (node_of self.old) }
    {
        let links = &mut self.peers[peer];
        self.node.pull(peer, &mut links.inlet, max)
    }
}
