//! What is told of an event for which there is no room: its refusal, where it is refused, whatever memory there is.

ghost use Rattle.std.specs.Prelude.{◌≡◌, ◌<◌, ◌+◌, length};
ghost use Rattle.pg_node_ports.specs.PgMessageTypes.declared.message.Message.{Message};
ghost use Rattle.pg_node_ports.specs.PgMessageTypes.declared.message.Message.TheVariants as messages;
ghost use Rattle.pg_node_ports.specs.PgStep.Machines.Clocked.{Stamped};

use crate::state::replies::is_kind;
use crate::state::{NodeFault, NodeState};
use pg_node_ports::{
    Command, GroupTable, MAX_STAMP, Message, OpId, Packet, Refusal, Said, Taken, number_of,
};
use pg_term::{Atom, Reference};

impl<T: GroupTable + Drop> NodeState<T> {
    ghost use Rattle.pg_node_ports.specs.PgNodeOpens.Places.{name_at};
    ghost use Rattle.pg_node_ports.specs.PgRefs.Numbered.{numbered};
    ghost use Rattle.pg_node_ports.specs.PgStep.Attempts.{reply_taken};
    ghost use Rattle.pg_node_ports.specs.PgStep.Peers.{is_bad_exchange};
    ghost use Rattle.pg_node_ports.specs.PgStep.Step.{Issue, Retry, step_act, step_take, taken};
    ghost use Rattle.pg_node_state.specs.Issued.{ports_of};
    ghost use Rattle.pg_node_state.specs.States.{names_of, nodes_of, live_of, kept_by, state_of, fault_or_memory, IsRefused};
    ghost use Rattle.pg_node_sends.specs.Sent.{stamped_of};

    /// What is told of a command for which there is no room: `Refused` by `ClockFull`, where `command` refuses it so; else
    /// `OutOfMemory`.
    ///
    /// Cost: no memory.
    pub fn command_fault_or_memory(&self, port: u16, _command: &Command) -> NodeFault
        requires place { port < ports_of self.now }
        ensures { result ≡ fault_or_memory (step_act (nodes_of self.now) (ports_of self.now) (Issue port _command.now) (state_of self.now)) }
    {
        if self.clock >= MAX_STAMP {
            return NodeFault::Refused(Refusal::ClockFull);
        }
        NodeFault::OutOfMemory
    }

    /// The same of a retry: `Refused` by `NotWaiting`, and by `ClockFull`, as `retry` refuses it; else `OutOfMemory`.
    ///
    /// Cost: no memory; O(open commands + peers).
    pub fn retry_fault_or_memory(&self, op: OpId) -> NodeFault
        requires place { op.port < ports_of self.now }
        ensures { result ≡ fault_or_memory (step_act (nodes_of self.now) (ports_of self.now) (Retry op) (state_of self.now)) }
    {
        if !self.opens.waits(op) {
            return NodeFault::Refused(Refusal::NotWaiting);
        }
        if self.clock >= MAX_STAMP {
            return NodeFault::Refused(Refusal::ClockFull);
        }
        NodeFault::OutOfMemory
    }

    /// The same of a packet of a peer: `Refused` by `NodeLost`, by `ClockFull`, and by `NotAMessage`, as `take` refuses it; else
    /// `OutOfMemory`. `peer`: its place among the peers.
    ///
    /// Cost: no memory; O(open commands + peers).
    pub fn take_fault_or_memory(&self, peer: usize, packet: &Packet) -> NodeFault
        requires place { peer + 1 < length (names_of self.now) }
        ensures { result ≡ fault_or_memory (step_take (nodes_of self.now) (name_at (names_of self.now) (peer + 1)) (stamped_of packet.now) (state_of self.now)) }
    {
        let is_refused = self.is_no_message(peer, &packet.message);
        self.fault_by(peer, packet.stamp, is_refused)
    }

    /// The same of a reply of a peer, with this stamp, to the node's own reference of this number.
    ///
    /// Cost: no memory; O(open commands + peers).
    pub fn reply_fault_or_memory(
        &self,
        peer: usize,
        stamp: u32,
        number: u32,
        said: Said,
    ) -> NodeFault
        requires place { peer + 1 < length (names_of self.now) }
        ensures { result ≡ fault_or_memory (step_take (nodes_of self.now) (name_at (names_of self.now) (peer + 1))
            (record { stamp = stamp; packet = messages.Reply (numbered (nodes_of self.now).own number) said }) (state_of self.now)) }
    {
        let is_refused = self.is_other_kind(peer, number, said);
        self.fault_by(peer, stamp, is_refused)
    }

    /// What is told of a packet of a peer that is refused as no message, or is not.
    fn fault_by(&self, peer: usize, stamp: u32, is_refused: bool) -> NodeFault
        requires place { peer + 1 < length (names_of self.now) }
        ensures { (message : Message) → IsRefused (taken (live_of self.now) (name_at (names_of self.now) (peer + 1)) message (kept_by self.now)) is_refused
            → result ≡ fault_or_memory (step_take (nodes_of self.now) (name_at (names_of self.now) (peer + 1)) (record { stamp = stamp; packet = message }) (state_of self.now)) }
    {
        if self.opens.is_lost(peer + 1) {
            return NodeFault::Refused(Refusal::NodeLost);
        }
        if self.clock.max(stamp) >= MAX_STAMP {
            return NodeFault::Refused(Refusal::ClockFull);
        }
        if is_refused {
            return NodeFault::Refused(Refusal::NotAMessage);
        }
        NodeFault::OutOfMemory
    }

    /// Whether a packet of a peer is refused as no message, where its loss was not seen: groups of another node or told a
    /// second time, or a reply to a command that gathers the other kind.
    fn is_no_message(&self, peer: usize, message: &Message) -> bool
        requires place { peer + 1 < length (names_of self.now) }
        ensures { IsRefused (taken (live_of self.now) (name_at (names_of self.now) (peer + 1)) message.now (kept_by self.now)) result }
    {
        match message {
            Message::Call(_, _) | Message::DelLock(_, _) | Message::Down(_) => false,
            Message::Reply(reference, said) => self.is_reply_refused(peer, reference, *said),
            Message::Exchange(node, _) => self.is_exchange_refused(peer, node),
        }
    }

    fn is_exchange_refused(&self, peer: usize, node: &Atom) -> bool
        requires place { peer + 1 < length (names_of self.now) }
        ensures { result ≡ is_bad_exchange (name_at (names_of self.now) (peer + 1)) node.now (kept_by self.now) }
    {
        node != self.opens.name(peer + 1) || self.formation.is_merged(peer)
    }

    fn is_reply_refused(&self, peer: usize, reference: &Reference, said: Said) -> bool
        requires place { peer + 1 < length (names_of self.now) }
        ensures { IsRefused (reply_taken (live_of self.now) (name_at (names_of self.now) (peer + 1)) reference.now said (kept_by self.now)) result }
    {
        match number_of(self.opens.name(0), reference) {
            Some(number) => self.is_other_kind(peer, number, said),
            None => false,
        }
    }

    /// Whether a reply to the node's own reference of this number is to a command that gathers the other kind.
    fn is_other_kind(&self, peer: usize, number: u32, said: Said) -> bool
        requires place { peer + 1 < length (names_of self.now) }
        ensures { IsRefused (reply_taken (live_of self.now) (name_at (names_of self.now) (peer + 1)) (numbered (live_of self.now).own number) said (kept_by self.now)) result }
    {
        let is_kind = is_kind(self.opens.gathering(number), said);
        match self.opens.heard(number, peer + 1) {
            Taken::Stranger => false,
            Taken::Double | Taken::Counted => !is_kind,
        }
    }
}
