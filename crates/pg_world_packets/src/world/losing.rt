//! Nodes of a world of packets that are lost.

ghost use Rattle.std.specs.Prelude.{◌≡◌, ◌≢◌, ◌<◌, ◌+◌, ◌↔◌, [], true, false, IsTrue, Ok, Err, IfOk, OnErr};
ghost use Rattle.std.specs.Prelude.{get_or, length, map};
ghost use Rattle.std.specs.List.{list_all};

use crate::effect::Effect;
use crate::step::{FrameStep, Stepped};
use crate::world::{FrameNodes, peer_place};
use pg_node_state::{Done, GroupTable, NodeFault, Refusal};
use pg_term::Term;
use pg_world_account::Entry;
use std::alloc::AllocError;

impl<T: GroupTable + Drop> FrameNodes<T> {
    ghost use Rattle.pg_node_state.specs.PgStep.Machines.Places.{is_pair};
    ghost use Rattle.pg_node_state.specs.PgStep.Config.{Config};
    ghost use Rattle.pg_node_state.specs.PgStep.LossLaws.{LosingFrameWorld};
    ghost use Rattle.pg_node_state.specs.PgStep.declared.refusal.Refusal.TheVariants.{NotLost};
    ghost use Rattle.pg_node_state.specs.declared.state.fault.NodeFault.TheVariants.{Refused};
    ghost use Rattle.pg_world_account.specs.Losses.{is_lost};
    ghost use Rattle.pg_world_packets.specs.Losing.{lost_of, lost_with, seen_at, is_cut_off, is_barred, is_formed};
    ghost use Rattle.pg_world_account.specs.Histories.{as_entry, is_among};
    ghost use Rattle.pg_world_packets.specs.Losing.{formed_at, formed_with};
    ghost use Rattle.pg_world_packets.specs.Past.{has_seen_in, missed_in};
    ghost use Rattle.pg_world_packets.specs.Losing.{told_sight, told_loss, ShowsLosing, LosingComesTo};
    ghost use Rattle.pg_world_packets.specs.Views.{CanStay, on_the_way};
    ghost use Rattle.pg_world_packets.specs.Worlds.{traffic_of, view_of, has_places};

    /// Whether a step is one of a node that is lost, or one with a peer whose loss the node has seen.
    pub(crate) fn is_barred(&self, step: &FrameStep) -> bool
        requires { has_places (traffic_of self.now).nodes step.now ≡ true }
        ensures { result ≡ is_barred (traffic_of self.now).nodes (lost_of self.now) step.now }
    {
        match step {
            FrameStep::Take { node, peer } => self.is_cut_off(*node, *peer),
            FrameStep::Command {
                node,
                port: _,
                command: _,
            } => self.losses.has(*node),
            FrameStep::Retry { node, op: _ } => self.losses.has(*node),
            FrameStep::SeeLoss { node, peer } => self.is_cut_off(*node, *peer),
            FrameStep::Lose { node: _, keep: _ } => false,
        }
    }

    /// Whether a node takes nothing of a peer any more: it is lost, or has seen the loss of the peer.
    fn is_cut_off(&self, node: usize, peer: usize) -> bool
        requires { is_pair (length (traffic_of self.now).nodes) node peer ≡ true }
        ensures { result ≡ is_cut_off (traffic_of self.now).nodes (lost_of self.now) node peer }
    {
        self.losses.has(node) || (self.losses.has(peer) && self.has_seen(node, peer))
    }

    /// Whether a node has seen the loss of a peer.
    fn has_seen(&self, node: usize, peer: usize) -> bool
        requires { is_pair (length (traffic_of self.now).nodes) node peer ≡ true }
        ensures { result ≡ seen_at (traffic_of self.now).nodes node peer }
    {
        let state = &self.nodes[node];
        state.is_lost(peer_place(node, peer))
    }

    /// The updates of a group that a node has not applied, of the nodes whose loss it has seen.
    ///
    /// Errors: `AllocError`.
    pub(crate) fn missed(&self, node: usize, name: &Term) -> Result<Vec<Entry>, AllocError>
        ensures { IfOk result (λ missed. map as_entry missed.items ≡ missed_in (traffic_of self.now).nodes (view_of self.now).account node name.now) }
    {
        let seen = self.seen_by(node)?;
        self.histories.missed(node, name, seen.as_slice())
    }

    /// Of each node, by its place, whether a node is there that has seen its loss.
    ///
    /// Errors: `AllocError`.
    fn seen_by(&self, node: usize) -> Result<Vec<bool>, AllocError>
        ensures { IfOk result (λ seen. is_among seen.items ≡ has_seen_in (traffic_of self.now).nodes node) }
    {
        let mut seen = Vec::with_capacity(*self.nodes.allocator(), self.nodes.len())?;
        for peer in 0..self.nodes.len() {
            seen.push(self.has_pair(node, peer) && self.has_seen(node, peer))?;
        }
        Ok(seen)
    }

    /// A node sees the loss of a peer that is not known to it yet.
    pub(crate) fn see_loss(&mut self, node: usize, peer: usize) -> Result<Stepped, NodeFault>
        requires pair { is_pair (length (traffic_of self.old).nodes) node peer ≡ true }
        requires lives { is_cut_off (traffic_of self.old).nodes (lost_of self.old) node peer ≡ false }
        ensures losing { (config : Config) (u : LosingFrameWorld) → ShowsLosing config (view_of self.old) (lost_of self.old) u
            → LosingComesTo config u (told_sight config u node peer) result (ShowsLosing config (view_of self.new) (lost_of self.new)) }
        ensures none { is_lost (lost_of self.old) peer ≡ false → result ≡ Err (Refused NotLost) }
        ensures happens { result ≢ Ok Stepped.Nothing }
        ensures err { OnErr result (view_of self.new ≡ view_of self.old) }
        ensures lost { lost_of self.new ≡ lost_of self.old }
        ensures formed { (view_of self.new).account.formed ≡ (view_of self.old).account.formed }
    {
        if !self.losses.has(peer) {
            return Err(NodeFault::Refused(Refusal::NotLost));
        }
        if self.has_packet(node, peer) {
            return Err(NodeFault::Refused(Refusal::NotDrained));
        }
        let lost = &self.nodes[peer];
        let last = lost.clock();
        let state = &mut self.nodes[node];
        match state.see_loss(peer_place(node, peer), last) {
            Ok(done) => {
                let_go(done);
                Ok(Stepped::Happened(Effect::nothing()))
            }
            Err(fault) => Err(fault),
        }
    }

    /// Whether a packet is on the way to a node from a peer.
    fn has_packet(&self, node: usize, peer: usize) -> bool
        requires { is_pair (length (traffic_of self.now).nodes) node peer ≡ true }
        ensures { (result ≡ false) ↔ (on_the_way (traffic_of self.now) peer node ≡ []) }
    {
        let sender = &self.outgoing[peer];
        match sender.first(peer_place(peer, node)) {
            Some(_) => true,
            None => false,
        }
    }

    /// Whether so many packets can stay on the ways from a node to its peers.
    fn can_keep(&self, node: usize, keep: &[usize]) -> bool
        requires place { node < length (traffic_of self.now).nodes }
        requires len { length keep.now + 1 ≡ length (traffic_of self.now).nodes }
        ensures { IsTrue result ↔ CanStay keep.now (get_or (traffic_of self.now).ways node []) }
    {
        let outgoing = &self.outgoing[node];
        outgoing.can_keep(keep)
    }

    /// Whether every node is formed when the first is lost, where one is lost now.
    fn formed_at_loss(&self) -> bool
        ensures { result ≡ formed_at (traffic_of self.now).nodes (lost_of self.now) (view_of self.now).account.formed }
    {
        if self.losses.is_empty() {
            self.are_formed()
        } else {
            self.histories.formed_at_first_loss()
        }
    }

    /// Whether each node is formed.
    fn are_formed(&self) -> bool
        ensures { result ≡ list_all is_formed (traffic_of self.now).nodes }
    {
        for node in &self.nodes {
            if !node.formed() {
                return false;
            }
        }
        true
    }

    /// A node is lost, and of what is on the way from it the first packets stay.
    pub(crate) fn lose(&mut self, node: usize, keep: &[usize]) -> Result<Stepped, NodeFault>
        requires place { node < length (traffic_of self.old).nodes }
        ensures losing { (config : Config) (u : LosingFrameWorld) → ShowsLosing config (view_of self.old) (lost_of self.old) u
            → LosingComesTo config u (told_loss config u node keep.now) result (ShowsLosing config (view_of self.new) (lost_of self.new)) }
        ensures happens { result ≢ Ok Stepped.Nothing }
        ensures err { OnErr result (view_of self.new ≡ view_of self.old) }
        ensures lost { lost_of self.new ≡ lost_with node result (lost_of self.old) }
        ensures formed { (view_of self.new).account.formed
            ≡ formed_with result (traffic_of self.old).nodes (lost_of self.old) (view_of self.old).account.formed }
    {
        if keep.len() != self.nodes.len() - 1 {
            return Err(NodeFault::Refused(Refusal::NoSuchPlace));
        }
        if !self.can_keep(node, keep) {
            return Err(NodeFault::Refused(Refusal::NoSuchPlace));
        }
        if self.losses.has(node) {
            return Err(NodeFault::Refused(Refusal::NodeLost));
        }
        let formed = self.formed_at_loss();
        match self.losses.add(node) {
            Ok(()) => {}
            Err(AllocError) => return Err(NodeFault::OutOfMemory),
        }
        self.histories.note_formed(formed);
        let outgoing = &mut self.outgoing[node];
        outgoing.cut(keep);
        Ok(Stepped::Gone)
    }
}

/// Lets go of what was done, where nothing is sent. One function for it, as a drop in an arm is proved variant by variant.
fn let_go(done: Done) {
    drop(done);
}
