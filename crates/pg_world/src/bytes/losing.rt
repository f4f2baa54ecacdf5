//! Nodes of a world of bytes that are lost.

ghost use Rattle.std.specs.Prelude.{◌≡◌, true, false, Err, IfErr, IfOk, length, map};
ghost use Rattle.std.specs.List.{list_all};

use crate::bytes::ByteNodes;
use pg_node::{Done, Framed, NodeFault};
use pg_term::Term;
use pg_world_packets::{
    Effect, Entry, FrameStep, GroupTable, Packet, Refusal, Stepped, front_is_first_of_cut,
    loss_cuts_packets, peer_place,
};
use std::alloc::AllocError;

impl<T: GroupTable + Drop> ByteNodes<T> {
    ghost use Rattle.pg_world_packets.specs.PgStep.Machines.Places.{is_pair};
    ghost use Rattle.pg_world_packets.specs.PgStep.Config.{Config};
    ghost use Rattle.pg_world_packets.specs.PgStep.LossLaws.{LosingFrameWorld};
    ghost use Rattle.pg_world.specs.BytesLosing.{ShowsLosingBytes, SightComesTo, LossComesTo};
    ghost use Rattle.pg_world.specs.Bars.{IsFaultOf, RefusesBarred, TellsUndrained, has_bytes, sight_bar, loss_bar};
    ghost use Rattle.pg_world_packets.specs.PgStep.declared.refusal.Refusal.TheVariants.{NotLost};
    ghost use Rattle.pg_world_packets.specs.PgNodeState.declared.state.fault.NodeFault.TheVariants.{Refused};
    ghost use Rattle.pg_world.specs.Changes.{SightChanges};
    ghost use Rattle.pg_world_packets.specs.declared.step.FrameStep.TheVariants.{SeeLoss};
    ghost use Rattle.pg_world.specs.Crossings.{crossing_of, room_of, bytes_at};
    ghost use Rattle.pg_world_packets.specs.PgWorldAccount.Histories.{account_of};
    ghost use Rattle.pg_world_packets.specs.PgWorldAccount.Losses.{lost_in, is_lost};
    ghost use Rattle.pg_world_packets.specs.Losing.{told_sight, lost_with, seen_at, is_cut_off, is_barred};
    ghost use Rattle.pg_world_packets.specs.PgWorldAccount.Histories.{as_entry, is_among};
    ghost use Rattle.pg_world_packets.specs.Losing.{account_with, formed_at, is_formed};
    ghost use Rattle.pg_world_packets.specs.Past.{has_seen_in, missed_in};
    ghost use Rattle.pg_world_packets.specs.Worlds.{has_places};

    /// Whether an event is one of a node that is lost, or one with a peer whose loss the node has seen.
    pub(crate) fn is_barred(&self, event: &FrameStep) -> bool
        requires { has_places (crossing_of self.now).nodes event.now ≡ true }
        ensures { result ≡ is_barred (crossing_of self.now).nodes (lost_in self.now.losses) event.now }
    {
        match event {
            FrameStep::Take { node, peer } => self.is_cut_off(*node, *peer),
            FrameStep::Command {
                node,
                port: _,
                command: _,
            } => self.losses.has(*node),
            FrameStep::Retry { node, op: _ } => self.losses.has(*node),
            FrameStep::SeeLoss { node, peer } => self.is_cut_off(*node, *peer),
            FrameStep::Lose { node: _, keep: _ } => false,
        }
    }

    /// Whether a node takes nothing of a peer any more: it is lost, or has seen the loss of the peer.
    pub(crate) fn is_cut_off(&self, node: usize, peer: usize) -> bool
        requires { is_pair (length (crossing_of self.now).nodes) node peer ≡ true }
        ensures { result ≡ is_cut_off (crossing_of self.now).nodes (lost_in self.now.losses) node peer }
    {
        self.losses.has(node) || (self.losses.has(peer) && self.has_seen(node, peer))
    }

    /// Whether a node has seen the loss of a peer.
    fn has_seen(&self, node: usize, peer: usize) -> bool
        requires { is_pair (length (crossing_of self.now).nodes) node peer ≡ true }
        ensures { result ≡ seen_at (crossing_of self.now).nodes node peer }
    {
        let over = &self.nodes[node];
        over.state().is_lost(peer_place(node, peer))
    }

    /// The updates of a group that a node has not applied, of the nodes whose loss it has seen.
    ///
    /// Errors: `AllocError`.
    pub(crate) fn missed(&self, node: usize, name: &Term) -> Result<Vec<Entry>, AllocError>
        ensures { IfOk result (λ missed. map as_entry missed.items ≡ missed_in (crossing_of self.now).nodes (account_of self.now.histories) node name.now) }
    {
        let seen = self.seen_by(node)?;
        self.histories.missed(node, name, seen.as_slice())
    }

    /// Of each node, by its place, whether a node is there that has seen its loss.
    ///
    /// Errors: `AllocError`.
    fn seen_by(&self, node: usize) -> Result<Vec<bool>, AllocError>
        ensures { IfOk result (λ seen. is_among seen.items ≡ has_seen_in (crossing_of self.now).nodes node) }
    {
        let mut seen = Vec::with_capacity(*self.nodes.allocator(), self.nodes.len())?;
        for peer in 0..self.nodes.len() {
            seen.push(self.has_pair(node, peer) && self.has_seen(node, peer))?;
        }
        Ok(seen)
    }

    /// A node sees the loss of a peer that is not known to it yet.
    pub(crate) fn see_loss(&mut self, node: usize, peer: usize) -> Result<Stepped, NodeFault>
        requires pair { is_pair (length (crossing_of self.old).nodes) node peer ≡ true }
        requires lives { is_cut_off (crossing_of self.old).nodes (lost_in self.old.losses) node peer ≡ false }
        ensures changes { SightChanges (crossing_of self.old) (crossing_of self.new) node peer result }
        ensures account { account_of self.new.histories ≡ account_of self.old.histories }
        ensures none { is_lost (lost_in self.old.losses) peer ≡ false → result ≡ Err (Refused NotLost) }
        ensures barred { RefusesBarred (sight_bar (crossing_of self.old) (lost_in self.old.losses) node peer) result }
        ensures undrained { TellsUndrained (crossing_of self.old) (SeeLoss node peer) result }
        ensures lost { lost_in self.new.losses ≡ lost_in self.old.losses }
        ensures losing { (config : Config) (u : LosingFrameWorld) → ShowsLosingBytes config (crossing_of self.old) (account_of self.old.histories) (lost_in self.old.losses) u
            → SightComesTo config u (told_sight config u node peer) result (ShowsLosingBytes config (crossing_of self.new) (account_of self.new.histories) (lost_in self.new.losses)) }
        ensures room { room_of self.new ≡ room_of self.old }
    {
        front_is_first_of_cut::<Packet>();
        if !self.losses.has(peer) {
            return Err(NodeFault::Refused(Refusal::NotLost));
        }
        if self.has_bytes(node, peer) {
            return Err(NodeFault::Refused(Refusal::NotDrained));
        }
        let lost = &self.nodes[peer];
        let last = lost.state().clock();
        let over = &mut self.nodes[node];
        match over.see_loss(peer_place(node, peer), last) {
            Ok(done) => {
                let_go(done);
                Ok(Stepped::Happened(Effect::nothing()))
            }
            Err(fault) => Err(fault),
        }
    }

    /// Whether bytes are on the ring to a node from a peer.
    fn has_bytes(&self, node: usize, peer: usize) -> bool
        requires { is_pair (length (crossing_of self.now).nodes) node peer ≡ true }
        ensures { result ≡ has_bytes (bytes_at (crossing_of self.now) peer node).ring }
    {
        let row = &self.rings[peer];
        !row.rings[peer_place(peer, node)].is_empty()
    }

    /// Whether every node is formed when the first is lost, where one is lost now.
    fn formed_at_loss(&self) -> bool
        ensures { result ≡ formed_at (crossing_of self.now).nodes (lost_in self.now.losses) (account_of self.now.histories).formed }
    {
        if self.losses.is_empty() {
            self.are_formed()
        } else {
            self.histories.formed_at_first_loss()
        }
    }

    /// Whether each node is formed.
    fn are_formed(&self) -> bool
        ensures { result ≡ list_all is_formed (crossing_of self.now).nodes }
    {
        for over in &self.nodes {
            if !over.state().formed() {
                return false;
            }
        }
        true
    }

    /// A node is lost.
    pub(crate) fn lose(&mut self, node: usize) -> Result<Stepped, NodeFault>
        ensures same { crossing_of self.new ≡ crossing_of self.old }
        ensures account { account_of self.new.histories ≡ account_with result (crossing_of self.old).nodes (lost_in self.old.losses) (account_of self.old.histories) }
        ensures barred { RefusesBarred (loss_bar (crossing_of self.old) (lost_in self.old.losses) node) result }
        ensures fault { IfErr result (IsFaultOf (loss_bar (crossing_of self.old) (lost_in self.old.losses) node)) }
        ensures lost { lost_in self.new.losses ≡ lost_with node result (lost_in self.old.losses) }
        ensures losing { (config : Config) (u : LosingFrameWorld) → ShowsLosingBytes config (crossing_of self.old) (account_of self.old.histories) (lost_in self.old.losses) u
            → LossComesTo config u node result (ShowsLosingBytes config (crossing_of self.new) (account_of self.new.histories) (lost_in self.new.losses)) }
        ensures room { room_of self.new ≡ room_of self.old }
    {
        loss_cuts_packets::<Packet>();
        if node >= self.nodes.len() {
            return Err(NodeFault::Refused(Refusal::NoSuchPlace));
        }
        if self.losses.has(node) {
            return Err(NodeFault::Refused(Refusal::NodeLost));
        }
        let formed = self.formed_at_loss();
        match self.losses.add(node) {
            Ok(()) => {
                self.histories.note_formed(formed);
                Ok(Stepped::Gone)
            }
            Err(AllocError) => Err(NodeFault::OutOfMemory),
        }
    }
}

/// Lets go of what was done, where nothing is sent. One function for it, as a drop in an arm is proved variant by variant.
fn let_go(done: Done<Framed>) {
    drop(done);
}
