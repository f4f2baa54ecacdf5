//! Nodes and the packets on the way between them, and what a step makes of them.

ghost use Rattle.std.specs.Prelude.{◌≡◌, ◌≢◌, [], true, false, Ok, IfSome, OnErr, length, map};
ghost use Rattle.std.specs.Option.{is_some};
ghost use Rattle.pg_node_state.specs.PgNodeSends.Sent.{stamped_of};
ghost use Rattle.pg_world_packets.specs.Views.{IsWhole, traffic_in};

mod alike;
mod copies;
mod losing;
mod pending;

use crate::effect::Effect;
use crate::step::{FrameStep, Stepped};
use crate::ways::Ways;
use pg_node_state::{Command, Done, GroupTable, NodeFault, NodeState, OpId, Packet, Refusal};
use pg_world_account::{Histories, Losses};
use std::alloc::{AllocError, Global};
use std::collections::VecDeque;

/// Nodes over packets, and the packets on the way between them.
#[derive(Drop)]
pub(crate) struct FrameNodes<T: GroupTable> {
    pub(crate) nodes: Vec<NodeState<T>>,
    // What is on the way from each of them.
    outgoing: Vec<Ways>,
    pub(crate) histories: Histories,
    pub(crate) losses: Losses,
    ghost whole: { IsWhole (traffic_in nodes.items outgoing.items) },
}

impl<T: GroupTable + Drop> FrameNodes<T> {
    ghost use Rattle.pg_world_packets.specs.Views.{fresh_view, on_the_way};
    ghost use Rattle.pg_node_state.specs.PgStep.Machines.Places.{is_pair};
    ghost use Rattle.pg_node_state.specs.PgStep.Config.{Config};
    ghost use Rattle.pg_node_state.specs.PgStep.Step.{Issue, Retry};
    ghost use Rattle.pg_world_account.specs.Histories.{AreInRows};
    ghost use Rattle.pg_world_account.specs.Losses.{is_lost};
    ghost use Rattle.pg_world_packets.specs.Worlds.{traffic_of, view_of, has_port, has_places};
    ghost use Rattle.pg_node_state.specs.PgStep.LossLaws.{LosingFrameWorld};
    ghost use Rattle.pg_world_packets.specs.Losing.{lost_of, lost_after, formed_after, is_cut_off};
    ghost use Rattle.pg_world_packets.specs.Losing.{told_of, told_take, told_own, ShowsLosing, LosingComesTo};

    /// These nodes, and what is on the way from each of them, where nothing has begun.
    ///
    /// Cost: no memory.
    pub(crate) fn of_parts(
        alloc: Global,
        nodes: Vec<NodeState<T>>,
        outgoing: Vec<Ways>,
    ) -> FrameNodes<T>
        requires { IsWhole (traffic_in nodes.items outgoing.items) }
        ensures view { view_of result ≡ fresh_view (traffic_in nodes.items outgoing.items) }
        ensures lost { lost_of result ≡ [] }
    {
        FrameNodes {
            nodes,
            outgoing,
            histories: Histories::new(alloc),
            losses: Losses::new(alloc),
        }
    }

    /// Makes one step. Whatever world of the machine with losses the world shows, the step is its event there, and the world shows
    /// what it leaves.
    ///
    /// Errors, which change nothing, the first that holds: `Refused` by `NoSuchPlace` where a node, a port or a peer
    /// is not there, or a node would take from itself; those of `NodeState::take`, `command` and `retry`;
    /// `OutOfMemory` may come in the place of each after `NoSuchPlace`, as room for what is sent is made before
    /// anything changes. It never comes in the place of `NoSuchPlace`, `NodeLost`, `NotLost` or `NotDrained`.
    ///
    /// A step of a node that is lost is refused by `NodeLost`, after `NoSuchPlace`, and so is a take of a peer whose loss was
    /// seen. `SeeLoss`: `NoSuchPlace`; `NodeLost`, also where it was seen before; `NotLost`; `NotDrained` where a packet of the
    /// peer is on the way; `ClockFull`. `Lose`: `NoSuchPlace`, also where `keep` has not one number for each peer, or more
    /// should stay than are on the way; `NodeLost`.
    pub(crate) fn step(&mut self, step: &FrameStep) -> Result<Stepped, NodeFault>
        ensures losing { (config : Config) (u : LosingFrameWorld) → ShowsLosing config (view_of self.old) (lost_of self.old) u
            → LosingComesTo config u (told_of config u step.now) result (ShowsLosing config (view_of self.new) (lost_of self.new)) }
        ensures lost { lost_of self.new ≡ lost_after step.now result (lost_of self.old) }
        ensures formed { (view_of self.new).account.formed
            ≡ formed_after step.now result (traffic_of self.old).nodes (lost_of self.old) (view_of self.old).account.formed }
        ensures nothing { result ≡ Ok Stepped.Nothing → view_of self.new ≡ view_of self.old }
        ensures err { OnErr result (view_of self.new ≡ view_of self.old) }
    {
        if !self.has_places(step) {
            return Err(NodeFault::Refused(Refusal::NoSuchPlace));
        }
        if self.is_barred(step) {
            return Err(NodeFault::Refused(Refusal::NodeLost));
        }
        match step {
            FrameStep::Take { node, peer } => match self.histories.settle() {
                Ok(()) => self.take(*node, *peer),
                Err(AllocError) => Err(NodeFault::OutOfMemory),
            },
            FrameStep::Command {
                node,
                port,
                command,
            } => match self.histories.settle() {
                Ok(()) => self.command(*node, *port, command),
                Err(AllocError) => Err(NodeFault::OutOfMemory),
            },
            FrameStep::Retry { node, op } => match self.histories.settle() {
                Ok(()) => self.retry(*node, *op),
                Err(AllocError) => Err(NodeFault::OutOfMemory),
            },
            FrameStep::SeeLoss { node, peer } => self.see_loss(*node, *peer),
            FrameStep::Lose { node, keep } => self.lose(*node, keep.as_slice()),
        }
    }

    /// Whether the places that a step names are there.
    fn has_places(&self, step: &FrameStep) -> bool
        ensures { result ≡ has_places (traffic_of self.now).nodes step.now }
    {
        match step {
            FrameStep::Take { node, peer } => self.has_pair(*node, *peer),
            FrameStep::Command {
                node,
                port,
                command: _,
            } => self.has_port(*node, *port),
            FrameStep::Retry { node, op } => self.has_port(*node, op.port),
            FrameStep::SeeLoss { node, peer } => self.has_pair(*node, *peer),
            FrameStep::Lose { node, keep: _ } => *node < self.nodes.len(),
        }
    }

    /// Whether there are these two nodes, apart from each other.
    fn has_pair(&self, node: usize, peer: usize) -> bool
        ensures { result ≡ is_pair (length (traffic_of self.now).nodes) node peer }
    {
        let count = self.nodes.len();
        node < count && peer < count && node != peer
    }

    /// The packets on the way from one node to another, the first to be taken first; `None` unless both are there and differ.
    pub(crate) fn on_way(&self, from: usize, to: usize) -> Option<&VecDeque<Packet>>
        ensures there { is_some result ≡ is_pair (length (traffic_of self.now).nodes) to from }
        ensures packets { IfSome result (λ packets. map stamped_of packets.now.items ≡ on_the_way (traffic_of self.now) from to) }
    {
        if !self.has_pair(to, from) {
            return None;
        }
        let outgoing = &self.outgoing[from];
        Some(outgoing.packets(peer_place(from, to)))
    }

    /// Whether a node has that port.
    fn has_port(&self, node: usize, port: u16) -> bool
        ensures { result ≡ has_port (traffic_of self.now).nodes node port }
    {
        match self.nodes.get(node) {
            Some(state) => usize::from(port) < state.port_count(),
            None => false,
        }
    }

    /// A node takes the first packet on the way from a peer.
    fn take(&mut self, node: usize, peer: usize) -> Result<Stepped, NodeFault>
        requires settled { AreInRows self.old.histories }
        requires pair { is_pair (length (traffic_of self.old).nodes) node peer ≡ true }
        requires lives { is_cut_off (traffic_of self.old).nodes (lost_of self.old) node peer ≡ false }
        ensures losing { (config : Config) (u : LosingFrameWorld) → ShowsLosing config (view_of self.old) (lost_of self.old) u
            → LosingComesTo config u (told_take config u node peer) result (ShowsLosing config (view_of self.new) (lost_of self.new)) }
        ensures nothing { result ≡ Ok Stepped.Nothing → view_of self.new ≡ view_of self.old }
        ensures err { OnErr result (view_of self.new ≡ view_of self.old) }
        ensures lost { lost_of self.new ≡ lost_of self.old }
        ensures formed { (view_of self.new).account.formed ≡ (view_of self.old).account.formed }
    {
        let outgoing = &mut self.outgoing[node];
        match outgoing.make_room() {
            Ok(()) => {}
            Err(AllocError) => return Err(NodeFault::OutOfMemory),
        }
        let sender = &self.outgoing[peer];
        match sender.first(peer_place(peer, node)) {
            None => Ok(Stepped::Nothing),
            Some(packet) => {
                match self.histories.make_room(node, packet) {
                    Ok(()) => {}
                    Err(AllocError) => return Err(NodeFault::OutOfMemory),
                }
                let state = &mut self.nodes[node];
                match state.take(peer_place(node, peer), packet) {
                    Ok(done) => {
                        let effect = Effect::of(&done);
                        self.histories.serve(node, packet);
                        let sender = &mut self.outgoing[peer];
                        sender.pass(peer_place(peer, node));
                        let outgoing = &mut self.outgoing[node];
                        self.histories.begin(node, outgoing.send_all(done));
                        Ok(Stepped::Happened(effect))
                    }
                    Err(fault) => Err(fault),
                }
            }
        }
    }

    /// A command comes in at a port of a node.
    fn command(&mut self, node: usize, port: u16, command: &Command) -> Result<Stepped, NodeFault>
        requires settled { AreInRows self.old.histories }
        requires port { has_port (traffic_of self.old).nodes node port ≡ true }
        requires lives { is_lost (lost_of self.old) node ≡ false }
        ensures losing { (config : Config) (u : LosingFrameWorld) → ShowsLosing config (view_of self.old) (lost_of self.old) u
            → LosingComesTo config u (told_own config u node (Issue port command.now)) result (ShowsLosing config (view_of self.new) (lost_of self.new)) }
        ensures happens { result ≢ Ok Stepped.Nothing }
        ensures err { OnErr result (view_of self.new ≡ view_of self.old) }
        ensures lost { lost_of self.new ≡ lost_of self.old }
        ensures formed { (view_of self.new).account.formed ≡ (view_of self.old).account.formed }
    {
        let outgoing = &mut self.outgoing[node];
        match outgoing.make_room() {
            Ok(()) => {}
            Err(AllocError) => return Err(NodeFault::OutOfMemory),
        }
        let state = &mut self.nodes[node];
        match state.command(port, command) {
            Ok(done) => {
                let effect = Effect::of(&done);
                let outgoing = &mut self.outgoing[node];
                self.histories.begin(node, outgoing.send_all(done));
                Ok(Stepped::Happened(effect))
            }
            Err(fault) => Err(fault),
        }
    }

    /// A node tries a command again that waits.
    fn retry(&mut self, node: usize, op: OpId) -> Result<Stepped, NodeFault>
        requires settled { AreInRows self.old.histories }
        requires port { has_port (traffic_of self.old).nodes node op.port ≡ true }
        requires lives { is_lost (lost_of self.old) node ≡ false }
        ensures losing { (config : Config) (u : LosingFrameWorld) → ShowsLosing config (view_of self.old) (lost_of self.old) u
            → LosingComesTo config u (told_own config u node (Retry op)) result (ShowsLosing config (view_of self.new) (lost_of self.new)) }
        ensures happens { result ≢ Ok Stepped.Nothing }
        ensures err { OnErr result (view_of self.new ≡ view_of self.old) }
        ensures lost { lost_of self.new ≡ lost_of self.old }
        ensures formed { (view_of self.new).account.formed ≡ (view_of self.old).account.formed }
    {
        let outgoing = &mut self.outgoing[node];
        match outgoing.make_room() {
            Ok(()) => {}
            Err(AllocError) => return Err(NodeFault::OutOfMemory),
        }
        let state = &mut self.nodes[node];
        match state.retry(op) {
            Ok(done) => {
                let effect = Effect::of(&done);
                let outgoing = &mut self.outgoing[node];
                self.histories.begin(node, outgoing.send_all(done));
                Ok(Stepped::Happened(effect))
            }
            Err(fault) => Err(fault),
        }
    }
}

ghost use Rattle.pg_world_packets.specs.Views.{peer_place};

/// The place of another node among the peers of a node, which are the others in their order.
///
/// Cost: no memory.
pub fn peer_place(node: usize, other: usize) -> usize
    requires { node ≢ other }
    ensures { result ≡ peer_place node other }
{
    if other < node { other } else { other - 1 }
}
