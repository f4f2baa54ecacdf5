//! Nodes whose packets cross as bytes, by rings between them, and what a step makes of them.

ghost use Rattle.std.specs.Prelude.{◌≡◌, ◌+◌, ◌^◌, ℕ, List, true, false, [], Ok};
ghost use Rattle.std.specs.Prelude.{Some, None, IfOk, length, option_map, slice_get};
ghost use Rattle.std.specs.List.{All};
ghost use Rattle.pg_node.specs.Nodes.{held_by};
ghost use Rattle.pg_world_packets.specs.PgNodeState.States.{names_of};
ghost use Rattle.pg_world.specs.declared.rings.Rings.{Rings};
ghost use Rattle.pg_world.specs.Rooms.{HaveRoomFor};

mod begun;
mod losing;
mod pending;
mod runs;

use crate::rings::{Rings, rings_between};
use crate::step::Step;
pub use begun::starting_nodes;
use pg_node::{Held, Node, NodeFault};
use pg_world_packets::{
    Command, Effect, FrameStep, GroupTable, Histories, Losses, OpId, Packet, Refusal, Stepped,
    front_is_first_of_cut, front_is_first_packet, loss_cuts_packets, moving_keeps_packets,
    no_packet_is_refused, peer_place, sending_adds_packets,
};
pub use runs::run;
use std::alloc::{AllocError, Global};

/// Nodes whose packets cross as bytes, and the rings between them.
#[derive(Drop)]
pub(crate) struct ByteNodes<T: GroupTable> {
    pub(crate) nodes: Vec<Node<T>>,
    // The rings from each of them, each with room for as many bytes.
    rings: Vec<Rings>,
    ring: usize,
    pub(crate) histories: Histories,
    pub(crate) losses: Losses,
    ghost rows: { length rings.items ≡ length nodes.items },
    // Each node knows as many as there are, and has a ring to each other.
    ghost known: { All (λ node. length (names_of (held_by node)) ≡ length rings.items) nodes.items },
    ghost others: { All (λ (row : Rings). length row.rings.items + 1 ≡ length rings.items) rings.items },
    ghost sized: { All (HaveRoomFor ring) rings.items },
}

impl<T: GroupTable + Drop> ByteNodes<T> {
    ghost use Rattle.std.specs.Option.{option_copied};
    ghost use Rattle.pg_node.specs.Nodes.{links_of};
    ghost use Rattle.pg_world_packets.specs.PgRing.Capacity.{IsCapacity};
    ghost use Rattle.pg_world_packets.specs.PgStep.Machines.Places.{is_pair};
    ghost use Rattle.pg_world_packets.specs.PgStep.Config.{Config, name_at};
    ghost use Rattle.pg_world_packets.specs.PgStep.Step.{Issue, Retry};
    ghost use Rattle.pg_world_packets.specs.PgMessageTypes.Members.{IsShort};
    ghost use Rattle.pg_node.specs.Bytes.{next_packet};
    ghost use Rattle.pg_world_packets.specs.PgWorldAccount.Histories.{AreInRows, account_of};
    ghost use Rattle.pg_world_packets.specs.PgStep.LossLaws.{LosingFrameWorld};
    ghost use Rattle.pg_world.specs.BytesLosing.{ShowsLosingBytes, MoveLeaves, WholeComesTo, EventLeaves, StepLeaves};
    ghost use Rattle.pg_world_packets.specs.Losing.{IsReachedLosing, LosingComesTo, is_cut_off, told_take, told_own};
    ghost use Rattle.pg_world_packets.specs.PgWorldAccount.Losses.{lost_in, is_lost};
    ghost use Rattle.pg_world_packets.specs.Losing.{SeenAreLost, formed_after, lost_after};
    ghost use Rattle.pg_world.specs.Bars.{RefusesBarred, StepTellsUndrained, TellsUndrained, put_bar};
    ghost use Rattle.pg_world.specs.Bars.{pull_bar, event_bar, bar_of, bytes_formed_after, bytes_lost_after};
    ghost use Rattle.pg_world_packets.specs.Worlds.{has_port, has_places, TimedFrameWorld};
    ghost use Rattle.pg_world_packets.specs.PgWorldAccount.Histories.{no_account};
    ghost use Rattle.pg_world.specs.Changes.{Moves, put_count, pull_count, MoveChanges};
    ghost use Rattle.pg_world.specs.Changes.{TakeChanges, OwnChanges, FrameChanges, StepChanges};
    ghost use Rattle.pg_world.specs.Changes.{is_harmless, spares, spares_links};
    ghost use Rattle.pg_world_packets.specs.PgFrame.Pieces.{ring_put, pull};
    ghost use Rattle.pg_world.specs.Crossings.{crossing_of, node_of, room_of, idle_crossing, link_at};
    ghost use Rattle.pg_world.specs.Crossings.{bytes_at, IsWelcome, ShowsPast, ShowsBytesPast};

    /// A world of these nodes, with an empty ring from each to each other, which has room for `ring` bytes, and where
    /// nothing has begun.
    ///
    /// Errors: `AllocError`.
    ///
    /// Cost: one allocation for each node and for each ring, and one.
    fn idle(alloc: Global, nodes: Vec<Node<T>>, ring: usize) -> Result<ByteNodes<T>, AllocError>
        requires known { All (λ node. length (names_of (held_by node)) ≡ length nodes.items) nodes.items }
        requires capacity { IsCapacity ring }
        ensures crossing { IfOk result (λ world. crossing_of world ≡ idle_crossing nodes.items) }
        ensures account { IfOk result (λ world. account_of world.histories ≡ no_account) }
        ensures room { IfOk result (λ world. room_of world ≡ ring) }
        ensures lost { IfOk result (λ world. lost_in world.losses ≡ []) }
    {
        let rings = rings_between(alloc, nodes.len(), ring)?;
        Ok(ByteNodes {
            nodes,
            rings,
            ring,
            histories: Histories::new(alloc),
            losses: Losses::new(alloc),
        })
    }

    /// The node at a place.
    ///
    /// Cost: no memory.
    pub(crate) fn node(&self, place: usize) -> Option<&Node<T>>
        ensures node { option_map node_of (option_copied result) ≡ slice_get (crossing_of self.now).nodes place }
        ensures links { option_map links_of (option_copied result) ≡ slice_get (crossing_of self.now).links place }
    {
        self.nodes.get(place)
    }

    /// Makes one step. Whatever world of the machine with losses the world shows, as events lead to it from the start of a
    /// configuration: an event that happens is its event there, and the world shows what it leaves; bytes that move leave it as it is.
    ///
    /// Errors, which change nothing, the first that holds: `Refused` by `NoSuchPlace` where a node, a port or a peer
    /// is not there, or a node and its peer are one; those of `NodeState::take`, once the whole frame has come, and of
    /// `command` and `retry`, of which `NotAMessage` never comes; `OutOfMemory` may come in the place of each, but not of
    /// `NoSuchPlace`, `NodeLost`, `NotLost` or `NotDrained`. No link is ever damaged: none of the faults does that.
    ///
    /// A step of a node that is lost, and a put from it, is refused by `NodeLost`, after `NoSuchPlace`, and so is a pull or a take
    /// of a peer whose loss was seen.
    /// `SeeLoss`: `NoSuchPlace`; `NodeLost`, also where it was seen before; `NotLost`; `NotDrained` where bytes of
    /// the peer are on the ring, or a whole frame of it has come; `ClockFull`. `Lose`: `NoSuchPlace`, `NodeLost`.
    pub(crate) fn step(&mut self, step: &Step) -> Result<Stepped, NodeFault>
        ensures losing { (config : Config) (u : LosingFrameWorld) → IsReachedLosing config u
            → ShowsLosingBytes config (crossing_of self.old) (account_of self.old.histories) (lost_in self.old.losses) u
            → StepLeaves config u step.now result (ShowsLosingBytes config (crossing_of self.new) (account_of self.new.histories) (lost_in self.new.losses)) }
        ensures harmless { (config : Config) (u : LosingFrameWorld) → IsReachedLosing config u
            → ShowsLosingBytes config (crossing_of self.old) (account_of self.old.histories) (lost_in self.old.losses) u → spares_links step.now result ≡ true }
        ensures changes { spares_links step.now result ≡ true → StepChanges (room_of self.old) (crossing_of self.old) (crossing_of self.new) step.now result }
        ensures barred { RefusesBarred (bar_of (crossing_of self.old) (lost_in self.old.losses) step.now) result }
        ensures undrained { StepTellsUndrained (crossing_of self.old) step.now result }
        ensures lost { lost_in self.new.losses ≡ bytes_lost_after step.now result (lost_in self.old.losses) }
        ensures formed { self.new.histories.formed
            ≡ bytes_formed_after step.now result (crossing_of self.old).nodes (lost_in self.old.losses) self.old.histories.formed }
        ensures room { room_of self.new ≡ room_of self.old }
    {
        match step {
            Step::Put { from, to, max } => self.put(*from, *to, *max),
            Step::Pull { to, from, max } => self.pull(*to, *from, *max),
            Step::Event(event) => self.event(event),
            Step::Lose { node } => self.lose(*node),
        }
    }

    /// Up to so many bytes of what a node sends to another go on the ring between them.
    fn put(&mut self, from: usize, to: usize, max: usize) -> Result<Stepped, NodeFault>
        ensures came { (config : Config) (w : TimedFrameWorld)
            → ShowsBytesPast config (lost_in self.old.losses) (crossing_of self.old) (account_of self.old.histories) w
            → MoveLeaves (put_bar (crossing_of self.old) (lost_in self.old.losses) from to) result (ShowsBytesPast config (lost_in self.old.losses) (crossing_of self.new) (account_of self.new.histories) w) }
        ensures barred { RefusesBarred (put_bar (crossing_of self.old) (lost_in self.old.losses) from to) result }
        ensures formed { self.new.histories.formed ≡ self.old.histories.formed }
        ensures lost { lost_in self.new.losses ≡ lost_in self.old.losses }
        ensures changes { MoveChanges (crossing_of self.old) (crossing_of self.new) from to (put_count (room_of self.old) max (bytes_at (crossing_of self.old) from to)) ring_put result }
        ensures room { room_of self.new ≡ room_of self.old }
    {
        if !self.has_pair(from, to) {
            return Err(NodeFault::Refused(Refusal::NoSuchPlace));
        }
        if self.losses.has(from) {
            return Err(NodeFault::Refused(Refusal::NodeLost));
        }
        Ok(Stepped::Moved(self.put_some(from, to, max)))
    }

    /// The same, where both are there; and how many.
    fn put_some(&mut self, from: usize, to: usize, max: usize) -> usize
        requires pair { is_pair (length (crossing_of self.old).nodes) from to ≡ true }
        ensures shown { (config : Config) (lost : List ℕ) (w : TimedFrameWorld) → is_lost lost from ≡ false
            → ShowsPast config lost (crossing_of self.old) w → ShowsPast config lost (crossing_of self.new) w }
        ensures account { account_of self.new.histories ≡ account_of self.old.histories }
        ensures lost { lost_in self.new.losses ≡ lost_in self.old.losses }
        ensures many { result ≡ put_count (room_of self.old) max (bytes_at (crossing_of self.old) from to) }
        ensures moves { Moves (crossing_of self.old) (crossing_of self.new) from to (ring_put result) }
        ensures room { room_of self.new ≡ room_of self.old }
    {
        moving_keeps_packets::<Packet>();
        let place = peer_place(from, to);
        let node = &mut self.nodes[from];
        let row = &mut self.rings[from];
        let ring = &mut row.rings[place];
        node.put(place, ring, max)
    }

    /// Up to so many bytes of what is on the ring from one node to another come there.
    fn pull(&mut self, to: usize, from: usize, max: usize) -> Result<Stepped, NodeFault>
        ensures came { (config : Config) (w : TimedFrameWorld) → SeenAreLost config w (lost_in self.old.losses)
            → ShowsBytesPast config (lost_in self.old.losses) (crossing_of self.old) (account_of self.old.histories) w
            → MoveLeaves (pull_bar (crossing_of self.old) (lost_in self.old.losses) to from) result (ShowsBytesPast config (lost_in self.old.losses) (crossing_of self.new) (account_of self.new.histories) w) }
        ensures barred { RefusesBarred (pull_bar (crossing_of self.old) (lost_in self.old.losses) to from) result }
        ensures formed { self.new.histories.formed ≡ self.old.histories.formed }
        ensures lost { lost_in self.new.losses ≡ lost_in self.old.losses }
        ensures changes { MoveChanges (crossing_of self.old) (crossing_of self.new) from to (pull_count max (bytes_at (crossing_of self.old) from to)) pull result }
        ensures room { room_of self.new ≡ room_of self.old }
    {
        if !self.has_pair(from, to) {
            return Err(NodeFault::Refused(Refusal::NoSuchPlace));
        }
        if self.is_cut_off(to, from) {
            return Err(NodeFault::Refused(Refusal::NodeLost));
        }
        self.pull_some(to, from, max)
    }

    /// The same, where both are there.
    fn pull_some(&mut self, to: usize, from: usize, max: usize) -> Result<Stepped, NodeFault>
        requires pair { is_pair (length (crossing_of self.old).nodes) from to ≡ true }
        ensures came { (config : Config) (lost : List ℕ) (w : TimedFrameWorld) → (w.node to).state.lost (name_at config from) ≡ false
            → ShowsBytesPast config lost (crossing_of self.old) (account_of self.old.histories) w
            → MoveLeaves None result (ShowsBytesPast config lost (crossing_of self.new) (account_of self.new.histories) w) }
        ensures formed { self.new.histories.formed ≡ self.old.histories.formed }
        ensures lost { lost_in self.new.losses ≡ lost_in self.old.losses }
        ensures changes { MoveChanges (crossing_of self.old) (crossing_of self.new) from to (pull_count max (bytes_at (crossing_of self.old) from to)) pull result }
        ensures room { room_of self.new ≡ room_of self.old }
    {
        moving_keeps_packets::<Packet>();
        loss_cuts_packets::<Packet>();
        let node = &mut self.nodes[to];
        let row = &mut self.rings[from];
        let ring = &mut row.rings[peer_place(from, to)];
        match node.pull(peer_place(to, from), ring, max) {
            Ok(count) => Ok(Stepped::Moved(count)),
            Err(fault) => Err(fault),
        }
    }

    /// An event.
    fn event(&mut self, event: &FrameStep) -> Result<Stepped, NodeFault>
        ensures losing { (config : Config) (u : LosingFrameWorld) → IsReachedLosing config u
            → ShowsLosingBytes config (crossing_of self.old) (account_of self.old.histories) (lost_in self.old.losses) u
            → EventLeaves config u event.now result (ShowsLosingBytes config (crossing_of self.new) (account_of self.new.histories) (lost_in self.new.losses)) }
        ensures harmless { (config : Config) (u : LosingFrameWorld) → IsReachedLosing config u
            → ShowsLosingBytes config (crossing_of self.old) (account_of self.old.histories) (lost_in self.old.losses) u → spares event.now result ≡ true }
        ensures changes { spares event.now result ≡ true → FrameChanges (crossing_of self.old) (crossing_of self.new) event.now result }
        ensures barred { RefusesBarred (event_bar (crossing_of self.old) (lost_in self.old.losses) event.now) result }
        ensures undrained { TellsUndrained (crossing_of self.old) event.now result }
        ensures lost { lost_in self.new.losses ≡ lost_after event.now result (lost_in self.old.losses) }
        ensures formed { self.new.histories.formed
            ≡ formed_after event.now result (crossing_of self.old).nodes (lost_in self.old.losses) self.old.histories.formed }
        ensures room { room_of self.new ≡ room_of self.old }
    {
        no_packet_is_refused();
        if !self.has_places(event) {
            return Err(NodeFault::Refused(Refusal::NoSuchPlace));
        }
        if self.is_barred(event) {
            return Err(NodeFault::Refused(Refusal::NodeLost));
        }
        match event {
            FrameStep::Take { node, peer } => match self.histories.settle() {
                Ok(()) => self.take(*node, *peer),
                Err(AllocError) => Err(NodeFault::OutOfMemory),
            },
            FrameStep::Command {
                node,
                port,
                command,
            } => match self.histories.settle() {
                Ok(()) => self.command(*node, *port, command),
                Err(AllocError) => Err(NodeFault::OutOfMemory),
            },
            FrameStep::Retry { node, op } => match self.histories.settle() {
                Ok(()) => self.retry(*node, *op),
                Err(AllocError) => Err(NodeFault::OutOfMemory),
            },
            FrameStep::SeeLoss { node, peer } => self.see_loss(*node, *peer),
            FrameStep::Lose { node, keep: _ } => self.lose(*node),
        }
    }

    /// Whether the places that an event names are there.
    fn has_places(&self, event: &FrameStep) -> bool
        ensures { result ≡ has_places (crossing_of self.now).nodes event.now }
    {
        match event {
            FrameStep::Take { node, peer } => self.has_pair(*node, *peer),
            FrameStep::Command {
                node,
                port,
                command: _,
            } => self.has_port(*node, *port),
            FrameStep::Retry { node, op } => self.has_port(*node, op.port),
            FrameStep::SeeLoss { node, peer } => self.has_pair(*node, *peer),
            FrameStep::Lose { node, keep: _ } => *node < self.nodes.len(),
        }
    }

    /// Whether there are these two nodes, apart from each other.
    fn has_pair(&self, node: usize, peer: usize) -> bool
        ensures { result ≡ is_pair (length (crossing_of self.now).nodes) node peer }
    {
        let count = self.nodes.len();
        node < count && peer < count && node != peer
    }

    /// Whether a node has that port.
    fn has_port(&self, node: usize, port: u16) -> bool
        ensures { result ≡ has_port (crossing_of self.now).nodes node port }
    {
        match self.nodes.get(node) {
            Some(node) => usize::from(port) < node.state().port_count(),
            None => false,
        }
    }

    /// A node takes the first packet of a peer, where the whole of its frame has come.
    fn take(&mut self, node: usize, peer: usize) -> Result<Stepped, NodeFault>
        requires settled { AreInRows self.old.histories }
        requires pair { is_pair (length (crossing_of self.old).nodes) node peer ≡ true }
        requires lives { is_cut_off (crossing_of self.old).nodes (lost_in self.old.losses) node peer ≡ false }
        ensures losing { (config : Config) (u : LosingFrameWorld) (shown : ShowsLosingBytes config (crossing_of self.old) (account_of self.old.histories) (lost_in self.old.losses) u)
            → IsWelcome config shown.frames node peer
            → WholeComesTo config u (told_take config u node peer) result (ShowsLosingBytes config (crossing_of self.new) (account_of self.new.histories) (lost_in self.new.losses)) }
        ensures harmless { (config : Config) (u : LosingFrameWorld) (shown : ShowsLosingBytes config (crossing_of self.old) (account_of self.old.histories) (lost_in self.old.losses) u)
            → IsWelcome config shown.frames node peer → is_harmless result ≡ true }
        ensures changes { is_harmless result ≡ true → TakeChanges (crossing_of self.old) (crossing_of self.new) node peer result }
        ensures formed { self.new.histories.formed ≡ self.old.histories.formed }
        ensures lost { lost_in self.new.losses ≡ lost_in self.old.losses }
        ensures room { room_of self.new ≡ room_of self.old }
    {
        front_is_first_packet::<Packet>();
        front_is_first_of_cut::<Packet>();
        let taker = &mut self.nodes[node];
        match taker.next(peer_place(node, peer)) {
            Ok(next) => {
                let taken = self.take_next(node, peer, &next);
                drop(next);
                taken
            }
            Err(fault) => Err(fault),
        }
    }

    /// A node takes the packet that it has read of a peer, if there is one.
    fn take_next(
        &mut self,
        node: usize,
        peer: usize,
        next: &Option<Packet>,
    ) -> Result<Stepped, NodeFault>
        requires settled { AreInRows self.old.histories }
        requires pair { is_pair (length (crossing_of self.old).nodes) node peer ≡ true }
        requires lives { is_cut_off (crossing_of self.old).nodes (lost_in self.old.losses) node peer ≡ false }
        requires few { (packet : Packet) → next.now ≡ Some packet → IsShort (2 ^ 32) packet.message }
        requires front { next_packet (link_at (crossing_of self.old) node peer) ≡ Ok next.now }
        ensures losing { (config : Config) (u : LosingFrameWorld) (shown : ShowsLosingBytes config (crossing_of self.old) (account_of self.old.histories) (lost_in self.old.losses) u)
            → IsWelcome config shown.frames node peer
            → WholeComesTo config u (told_take config u node peer) result (ShowsLosingBytes config (crossing_of self.new) (account_of self.new.histories) (lost_in self.new.losses)) }
        ensures harmless { (config : Config) (u : LosingFrameWorld) (shown : ShowsLosingBytes config (crossing_of self.old) (account_of self.old.histories) (lost_in self.old.losses) u)
            → IsWelcome config shown.frames node peer → is_harmless result ≡ true }
        ensures changes { is_harmless result ≡ true → TakeChanges (crossing_of self.old) (crossing_of self.new) node peer result }
        ensures formed { self.new.histories.formed ≡ self.old.histories.formed }
        ensures lost { lost_in self.new.losses ≡ lost_in self.old.losses }
        ensures room { room_of self.new ≡ room_of self.old }
    {
        match next {
            None => Ok(Stepped::Nothing),
            Some(packet) => self.take_read(node, peer, packet),
        }
    }

    /// A node takes the packet that it has read of a peer.
    fn take_read(&mut self, node: usize, peer: usize, packet: &Packet) -> Result<Stepped, NodeFault>
        requires settled { AreInRows self.old.histories }
        requires pair { is_pair (length (crossing_of self.old).nodes) node peer ≡ true }
        requires lives { is_cut_off (crossing_of self.old).nodes (lost_in self.old.losses) node peer ≡ false }
        requires few { IsShort (2 ^ 32) packet.now.message }
        requires front { next_packet (link_at (crossing_of self.old) node peer) ≡ Ok (Some packet.now) }
        ensures losing { (config : Config) (u : LosingFrameWorld) (shown : ShowsLosingBytes config (crossing_of self.old) (account_of self.old.histories) (lost_in self.old.losses) u)
            → IsWelcome config shown.frames node peer
            → WholeComesTo config u (told_take config u node peer) result (ShowsLosingBytes config (crossing_of self.new) (account_of self.new.histories) (lost_in self.new.losses)) }
        ensures harmless { (config : Config) (u : LosingFrameWorld) (shown : ShowsLosingBytes config (crossing_of self.old) (account_of self.old.histories) (lost_in self.old.losses) u)
            → IsWelcome config shown.frames node peer → is_harmless result ≡ true }
        ensures changes { is_harmless result ≡ true → TakeChanges (crossing_of self.old) (crossing_of self.new) node peer result }
        ensures formed { self.new.histories.formed ≡ self.old.histories.formed }
        ensures lost { lost_in self.new.losses ≡ lost_in self.old.losses }
        ensures room { room_of self.new ≡ room_of self.old }
    {
        sending_adds_packets::<Packet>();
        front_is_first_packet::<Packet>();
        front_is_first_of_cut::<Packet>();
        match self.histories.make_room(node, packet) {
            Ok(()) => {}
            Err(AllocError) => return Err(NodeFault::OutOfMemory),
        }
        let taker = &mut self.nodes[node];
        match taker.take_read(peer_place(node, peer), packet) {
            Ok(done) => {
                let effect = Effect::of(&done);
                self.histories.serve(node, packet);
                self.histories.begin(node, Held::unpack(done.began));
                Ok(Stepped::Happened(effect))
            }
            Err(fault) => Err(fault),
        }
    }

    /// A command comes in at a port of a node.
    fn command(&mut self, node: usize, port: u16, command: &Command) -> Result<Stepped, NodeFault>
        requires settled { AreInRows self.old.histories }
        requires port { has_port (crossing_of self.old).nodes node port ≡ true }
        requires lives { is_lost (lost_in self.old.losses) node ≡ false }
        ensures losing { (config : Config) (u : LosingFrameWorld) → ShowsLosingBytes config (crossing_of self.old) (account_of self.old.histories) (lost_in self.old.losses) u
            → LosingComesTo config u (told_own config u node (Issue port command.now)) result (ShowsLosingBytes config (crossing_of self.new) (account_of self.new.histories) (lost_in self.new.losses)) }
        ensures changes { OwnChanges (crossing_of self.old) (crossing_of self.new) node result }
        ensures formed { self.new.histories.formed ≡ self.old.histories.formed }
        ensures lost { lost_in self.new.losses ≡ lost_in self.old.losses }
        ensures room { room_of self.new ≡ room_of self.old }
    {
        sending_adds_packets::<Packet>();
        let state = &mut self.nodes[node];
        match state.command(port, command) {
            Ok(done) => {
                let effect = Effect::of(&done);
                self.histories.begin(node, Held::unpack(done.began));
                Ok(Stepped::Happened(effect))
            }
            Err(fault) => Err(fault),
        }
    }

    /// A node tries a command again that waits.
    fn retry(&mut self, node: usize, op: OpId) -> Result<Stepped, NodeFault>
        requires settled { AreInRows self.old.histories }
        requires port { has_port (crossing_of self.old).nodes node op.port ≡ true }
        requires lives { is_lost (lost_in self.old.losses) node ≡ false }
        ensures losing { (config : Config) (u : LosingFrameWorld) → ShowsLosingBytes config (crossing_of self.old) (account_of self.old.histories) (lost_in self.old.losses) u
            → LosingComesTo config u (told_own config u node (Retry op)) result (ShowsLosingBytes config (crossing_of self.new) (account_of self.new.histories) (lost_in self.new.losses)) }
        ensures changes { OwnChanges (crossing_of self.old) (crossing_of self.new) node result }
        ensures formed { self.new.histories.formed ≡ self.old.histories.formed }
        ensures lost { lost_in self.new.losses ≡ lost_in self.old.losses }
        ensures room { room_of self.new ≡ room_of self.old }
    {
        sending_adds_packets::<Packet>();
        let state = &mut self.nodes[node];
        match state.retry(op) {
            Ok(done) => {
                let effect = Effect::of(&done);
                self.histories.begin(node, Held::unpack(done.began));
                Ok(Stepped::Happened(effect))
            }
            Err(fault) => Err(fault),
        }
    }
}
