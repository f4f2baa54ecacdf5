//! The events of a node over bytes.

ghost use Rattle.std.specs.Prelude.{◌≡◌, ◌<◌, ◌+◌, ◌^◌, ℕ, true, false, None, Some, Ok, Err};
ghost use Rattle.std.specs.Prelude.{IfOk, IfErr, IfSome, OnOk, OnErr, length};
ghost use Rattle.pg_node_state.specs.PgMessageTypes.Members.{IsShort};

use crate::node::Node;
use crate::node::wires::{make_room, send_all};
use pg_node_state::{Command, Done, Framed, Goes, GroupTable, NodeFault, OpId, Packet, Refusal};
use std::alloc::AllocError;
use std::mem;

impl<T: GroupTable + Drop> Node<T> {
    ghost use Rattle.pg_node_state.specs.PgNodeOpens.Places.{name_at};
    ghost use Rattle.pg_node_state.specs.PgStep.Step.{Issue, Retry, step_act, step_take};
    ghost use Rattle.pg_node_state.specs.PgStep.declared.refusal.Refusal.TheVariants.{NodeLost};
    ghost use Rattle.pg_node_state.specs.declared.state.fault.NodeFault.TheVariants.{Refused};
    ghost use Rattle.pg_node.specs.Bytes.{ReadsNext, IsSeenBroken, next_packet, marked, passed, closed};
    ghost use Rattle.pg_node_state.specs.PgMessageTypes.declared.fault.MessageFault.{MessageFault};
    ghost use Rattle.pg_node_state.specs.NodeFault.{from_message};
    ghost use Rattle.pg_node.specs.Nodes.{held_by, links_of, has_lost, read_next, step_link};
    ghost use Rattle.pg_node.specs.Nodes.{buffer_of, taken_of, TakesNext, sent_out, step_lose};
    ghost use Rattle.pg_node_state.specs.PgNodeSends.Dones.{FramedDone};
    ghost use Rattle.pg_node_state.specs.PgNodeSends.Framed.{listed_of};
    ghost use Rattle.pg_node_state.specs.PgNodeSends.Frames.{AreSmallFrames};
    ghost use Rattle.pg_node_state.specs.PgNodeSends.Going.{goes_out};
    ghost use Rattle.pg_node.specs.Links.{at_link};
    ghost use Rattle.pg_node_state.specs.Issued.{ports_of};
    ghost use Rattle.pg_node_state.specs.PgNodeSends.Sendable.{AreSendable};
    ghost use Rattle.pg_node_state.specs.States.{Stays};
    ghost use Rattle.pg_node_state.specs.States.{names_of, nodes_of, state_of, answers_of, Comes};
    ghost use Rattle.pg_node_state.specs.PgNodeSends.Sent.{stamped_of};

    /// Takes the next packet of a peer, if its frame is whole: what the step sends is framed in the outboxes. `peer`:
    /// its place among the peers.
    ///
    /// Errors: `Refused` by `NodeLost` where the loss of the peer was seen; `Damaged`, where the link had a fault
    /// before; `TooLong`; `Message`; `Refused` by `ClockFull` and by `NotAMessage`, as `NodeState::take` has them;
    /// `OutOfMemory` may come in the place of those from `Message` on. `TooLong`, `Message` and `NotAMessage` damage
    /// the link for good, and change nothing else; no other error changes anything, and the frame stays. A `Message` that is
    /// seen without memory, as `read_packet` has it, is told whatever memory there is.
    ///
    /// Cost: that of the body's length, of the event, and of the frames that go out.
    pub fn take(&mut self, peer: usize) -> Result<Option<Done<Framed>>, NodeFault>
        requires place { peer + 1 < length (names_of (held_by self.old)) }
        ensures event { TakesNext (names_of (held_by self.old))
            (step_link (nodes_of (held_by self.old)) (name_at (names_of (held_by self.old)) (peer + 1)) (links_of self.old peer) (state_of (held_by self.old)))
            result (state_of (held_by self.old)) (state_of (held_by self.new)) (answers_of (held_by self.old)) (answers_of (held_by self.new)) }
        ensures sent { (done : FramedDone) → result ≡ Ok (Some done)
            → (place : ℕ) → links_of self.new place ≡ at_link peer passed (sent_out (listed_of done.sends) (links_of self.old)) place }
        ensures small { (done : FramedDone) → result ≡ Ok (Some done) → AreSmallFrames (listed_of done.sends) }
        ensures fits { (done : FramedDone) → result ≡ Ok (Some done) → AreSendable (names_of (held_by self.old)) (listed_of done.sends) }
        ensures none { result ≡ Ok None → links_of self.new ≡ links_of self.old }
        ensures marked { IfErr result (λ fault. links_of self.new ≡ at_link peer (λ l. marked l fault) (links_of self.old)) }
        ensures lost { has_lost (held_by self.old) peer ≡ true → result ≡ Err (Refused NodeLost) }
        ensures broken { (fault : MessageFault) → has_lost (held_by self.old) peer ≡ false → IsSeenBroken (links_of self.old peer) fault
            → result ≡ Err (from_message fault) }
        ensures stays { Stays (held_by self.old) (held_by self.new) result }
    {
        match self.own_reply(peer) {
            Some(reply) => match self.take_own_reply(peer, reply) {
                Ok(done) => Ok(Some(done)),
                Err(fault) => Err(fault),
            },
            None => self.take_packet(peer),
        }
    }

    /// The same of a packet that is read whole.
    fn take_packet(&mut self, peer: usize) -> Result<Option<Done<Framed>>, NodeFault>
        requires place { peer + 1 < length (names_of (held_by self.old)) }
        ensures event { TakesNext (names_of (held_by self.old))
            (step_link (nodes_of (held_by self.old)) (name_at (names_of (held_by self.old)) (peer + 1)) (links_of self.old peer) (state_of (held_by self.old)))
            result (state_of (held_by self.old)) (state_of (held_by self.new)) (answers_of (held_by self.old)) (answers_of (held_by self.new)) }
        ensures sent { (done : FramedDone) → result ≡ Ok (Some done)
            → (place : ℕ) → links_of self.new place ≡ at_link peer passed (sent_out (listed_of done.sends) (links_of self.old)) place }
        ensures small { (done : FramedDone) → result ≡ Ok (Some done) → AreSmallFrames (listed_of done.sends) }
        ensures fits { (done : FramedDone) → result ≡ Ok (Some done) → AreSendable (names_of (held_by self.old)) (listed_of done.sends) }
        ensures none { result ≡ Ok None → links_of self.new ≡ links_of self.old }
        ensures marked { IfErr result (λ fault. links_of self.new ≡ at_link peer (λ l. marked l fault) (links_of self.old)) }
        ensures lost { has_lost (held_by self.old) peer ≡ true → result ≡ Err (Refused NodeLost) }
        ensures broken { (fault : MessageFault) → has_lost (held_by self.old) peer ≡ false → IsSeenBroken (links_of self.old peer) fault
            → result ≡ Err (from_message fault) }
        ensures stays { Stays (held_by self.old) (held_by self.new) result }
    {
        match self.next(peer) {
            Ok(next) => self.take_next(peer, next),
            Err(fault) => Err(fault),
        }
    }

    /// Takes the packet, if there is one, which the next frame of a peer holds.
    fn take_next(
        &mut self,
        peer: usize,
        next: Option<Packet>,
    ) -> Result<Option<Done<Framed>>, NodeFault>
        requires place { peer + 1 < length (names_of (held_by self.old)) }
        requires few { (packet : Packet) → next ≡ Some packet → IsShort (2 ^ 32) packet.message }
        requires next { next_packet (links_of self.old peer) ≡ Ok next }
        ensures event { TakesNext (names_of (held_by self.old))
            (taken_of (nodes_of (held_by self.old)) (name_at (names_of (held_by self.old)) (peer + 1)) (state_of (held_by self.old)) (Ok next))
            result (state_of (held_by self.old)) (state_of (held_by self.new)) (answers_of (held_by self.old)) (answers_of (held_by self.new)) }
        ensures sent { (done : FramedDone) → result ≡ Ok (Some done)
            → (place : ℕ) → links_of self.new place ≡ at_link peer passed (sent_out (listed_of done.sends) (links_of self.old)) place }
        ensures small { (done : FramedDone) → result ≡ Ok (Some done) → AreSmallFrames (listed_of done.sends) }
        ensures fits { (done : FramedDone) → result ≡ Ok (Some done) → AreSendable (names_of (held_by self.old)) (listed_of done.sends) }
        ensures none { result ≡ Ok None → links_of self.new ≡ links_of self.old }
        ensures marked { IfErr result (λ fault. links_of self.new ≡ at_link peer (λ l. marked l fault) (links_of self.old)) }
        ensures stays { Stays (held_by self.old) (held_by self.new) result }
    {
        match next {
            None => Ok(None),
            Some(packet) => match self.take_owned(peer, packet) {
                Ok(done) => Ok(Some(done)),
                Err(fault) => Err(fault),
            },
        }
    }

    /// Reads the next packet of a peer, if its frame is whole. It stays, to be taken by `take_read`. `peer`: its
    /// place among the peers.
    ///
    /// Errors: `Refused` by `NodeLost` where the loss of the peer was seen; `Damaged`, `TooLong` and `Message`, as
    /// `take` has them, of which the last two damage the link for good; `OutOfMemory` may come in the place of a
    /// `Message` that takes memory to be seen. Nothing else changes.
    ///
    /// Cost: that of the body's length.
    pub fn next(&mut self, peer: usize) -> Result<Option<Packet>, NodeFault>
        requires place { peer + 1 < length (names_of (held_by self.old)) }
        ensures told { ReadsNext (read_next (has_lost (held_by self.old) peer) (links_of self.old peer)) result }
        ensures broken { (fault : MessageFault) → has_lost (held_by self.old) peer ≡ false → IsSeenBroken (links_of self.old peer) fault
            → result ≡ Err (from_message fault) }
        ensures few { IfOk result (λ some. IfSome some (λ packet. IsShort (2 ^ 32) packet.message)) }
        ensures same { OnOk result (links_of self.new ≡ links_of self.old) }
        ensures marked { IfErr result (λ fault. links_of self.new ≡ at_link peer (λ l. marked l fault) (links_of self.old)) }
        ensures state { held_by self.new ≡ held_by self.old }
        ensures buffer { buffer_of self.new ≡ buffer_of self.old }
    {
        if self.state.is_lost(peer) {
            return Err(NodeFault::Refused(Refusal::NodeLost));
        }
        let wire = &mut self.wires[peer];
        wire.next(self.alloc)
    }

    /// Takes the packet that `next` has read of a peer, which is the next of its link: what the step sends is framed
    /// in the outboxes. `peer`: its place among the peers. `packet`: that packet.
    ///
    /// Errors: those of `NodeState::take`, in its order, of which `NotAMessage` damages the link for good: a refusal is
    /// told whatever memory there is. Nothing else changes, and the frame stays.
    ///
    /// Cost: that of the event, and of the frames that go out.
    pub fn take_read(&mut self, peer: usize, packet: &Packet) -> Result<Done<Framed>, NodeFault>
        requires place { peer + 1 < length (names_of (held_by self.old)) }
        requires few { IsShort (2 ^ 32) packet.now.message }
        requires next { next_packet (links_of self.old peer) ≡ Ok (Some packet.now) }
        ensures event { Comes (names_of (held_by self.old))
            (step_take (nodes_of (held_by self.old)) (name_at (names_of (held_by self.old)) (peer + 1)) (stamped_of packet.now) (state_of (held_by self.old)))
            result (state_of (held_by self.new)) (answers_of (held_by self.old)) (answers_of (held_by self.new)) }
        ensures sent { IfOk result (λ done. (place : ℕ) → links_of self.new place ≡ at_link peer passed (sent_out (listed_of done.sends) (links_of self.old)) place) }
        ensures small { IfOk result (λ done. AreSmallFrames (listed_of done.sends)) }
        ensures fits { IfOk result (λ done. AreSendable (names_of (held_by self.old)) (listed_of done.sends)) }
        ensures marked { IfErr result (λ fault. links_of self.new ≡ at_link peer (λ l. marked l fault) (links_of self.old)) }
        ensures stays { Stays (held_by self.old) (held_by self.new) result }
    {
        match make_room(&mut self.wires, &mut self.has_room) {
            Ok(()) => {}
            Err(AllocError) => {
                let fault = self.state.take_fault_or_memory(peer, packet);
                self.mark(peer, fault);
                return Err(fault);
            }
        }
        match self.state.take_as(&mut self.buffer, peer, packet) {
            Ok(done) => {
                send_all(&mut self.wires, &mut self.has_room, &done.sends);
                let wire = &mut self.wires[peer];
                wire.pass();
                Ok(done)
            }
            Err(fault) => {
                let wire = &mut self.wires[peer];
                wire.mark(fault);
                Err(fault)
            }
        }
    }

    /// The same of a packet that is given to the node.
    fn take_owned(&mut self, peer: usize, packet: Packet) -> Result<Done<Framed>, NodeFault>
        requires place { peer + 1 < length (names_of (held_by self.old)) }
        requires few { IsShort (2 ^ 32) packet.message }
        requires next { next_packet (links_of self.old peer) ≡ Ok (Some packet) }
        ensures event { Comes (names_of (held_by self.old))
            (step_take (nodes_of (held_by self.old)) (name_at (names_of (held_by self.old)) (peer + 1)) (stamped_of packet) (state_of (held_by self.old)))
            result (state_of (held_by self.new)) (answers_of (held_by self.old)) (answers_of (held_by self.new)) }
        ensures sent { IfOk result (λ done. (place : ℕ) → links_of self.new place ≡ at_link peer passed (sent_out (listed_of done.sends) (links_of self.old)) place) }
        ensures small { IfOk result (λ done. AreSmallFrames (listed_of done.sends)) }
        ensures fits { IfOk result (λ done. AreSendable (names_of (held_by self.old)) (listed_of done.sends)) }
        ensures marked { IfErr result (λ fault. links_of self.new ≡ at_link peer (λ l. marked l fault) (links_of self.old)) }
        ensures stays { Stays (held_by self.old) (held_by self.new) result }
    {
        match make_room(&mut self.wires, &mut self.has_room) {
            Ok(()) => {}
            Err(AllocError) => {
                let fault = self.state.take_fault_or_memory(peer, &packet);
                drop(packet);
                self.mark(peer, fault);
                return Err(fault);
            }
        }
        match self.state.take_owned_as(&mut self.buffer, peer, packet) {
            Ok(done) => {
                send_all(&mut self.wires, &mut self.has_room, &done.sends);
                let wire = &mut self.wires[peer];
                wire.pass();
                Ok(done)
            }
            Err(fault) => {
                let wire = &mut self.wires[peer];
                wire.mark(fault);
                Err(fault)
            }
        }
    }

    /// Damages the link to a peer, where this fault of what came in does. It takes no memory.
    pub(crate) fn mark(&mut self, peer: usize, fault: NodeFault)
        requires place { peer + 1 < length (names_of (held_by self.old)) }
        ensures marked { links_of self.new ≡ at_link peer (λ l. marked l fault) (links_of self.old) }
        ensures state { held_by self.new ≡ held_by self.old }
    {
        let wire = &mut self.wires[peer];
        wire.mark(fault);
    }

    /// Takes a command that comes in at a port, as `NodeState::command` does: what the step sends is framed in the
    /// outboxes. `port`: its place among the ports.
    ///
    /// Errors: those of `NodeState::command`, in its order: a refusal is told whatever memory there is. They change nothing.
    ///
    /// Cost: that of the event, and of the frames that go out.
    pub fn command(&mut self, port: u16, command: &Command) -> Result<Done<Framed>, NodeFault>
        requires place { port < ports_of (held_by self.old) }
        ensures event { Comes (names_of (held_by self.old))
            (step_act (nodes_of (held_by self.old)) (ports_of (held_by self.old)) (Issue port command.now) (state_of (held_by self.old)))
            result (state_of (held_by self.new)) (answers_of (held_by self.old)) (answers_of (held_by self.new)) }
        ensures sent { IfOk result (λ done. (place : ℕ) → links_of self.new place ≡ sent_out (listed_of done.sends) (links_of self.old) place) }
        ensures fits { IfOk result (λ done. AreSendable (names_of (held_by self.old)) (listed_of done.sends)) }
        ensures small { IfOk result (λ done. AreSmallFrames (listed_of done.sends)) }
        ensures kept { OnErr result (links_of self.new ≡ links_of self.old) }
        ensures stays { Stays (held_by self.old) (held_by self.new) result }
    {
        match make_room(&mut self.wires, &mut self.has_room) {
            Ok(()) => {}
            Err(AllocError) => return Err(self.state.command_fault_or_memory(port, command)),
        }
        match self.state.command_as(&mut self.buffer, port, command) {
            Ok(done) => {
                send_all(&mut self.wires, &mut self.has_room, &done.sends);
                Ok(done)
            }
            Err(fault) => Err(fault),
        }
    }

    /// Tries a command again that waits, as `NodeState::retry` does: what the step sends is framed in the outboxes.
    ///
    /// Errors: those of `NodeState::retry`, in its order: a refusal is told whatever memory there is. They change nothing.
    ///
    /// Cost: that of the event, and of the frames that go out.
    pub fn retry(&mut self, op: OpId) -> Result<Done<Framed>, NodeFault>
        requires place { op.port < ports_of (held_by self.old) }
        ensures event { Comes (names_of (held_by self.old))
            (step_act (nodes_of (held_by self.old)) (ports_of (held_by self.old)) (Retry op) (state_of (held_by self.old)))
            result (state_of (held_by self.new)) (answers_of (held_by self.old)) (answers_of (held_by self.new)) }
        ensures sent { IfOk result (λ done. (place : ℕ) → links_of self.new place ≡ sent_out (listed_of done.sends) (links_of self.old) place) }
        ensures fits { IfOk result (λ done. AreSendable (names_of (held_by self.old)) (listed_of done.sends)) }
        ensures small { IfOk result (λ done. AreSmallFrames (listed_of done.sends)) }
        ensures kept { OnErr result (links_of self.new ≡ links_of self.old) }
        ensures stays { Stays (held_by self.old) (held_by self.new) result }
    {
        match make_room(&mut self.wires, &mut self.has_room) {
            Ok(()) => {}
            Err(AllocError) => return Err(self.state.retry_fault_or_memory(op)),
        }
        match self.state.retry_as(&mut self.buffer, op) {
            Ok(done) => {
                send_all(&mut self.wires, &mut self.has_room, &done.sends);
                Ok(done)
            }
            Err(fault) => Err(fault),
        }
    }

    /// Sees the loss of a peer, as `NodeState::see_loss` does; what goes out to it is dropped. `peer`: its place
    /// among the peers. `last`: its clock at last.
    ///
    /// Errors: `Refused` by `NodeLost` where the loss was seen before, by `NotDrained` where a whole frame of the
    /// peer is left (none is at a damaged link), and by `ClockFull`; `OutOfMemory`. They change nothing.
    ///
    /// Cost: that of `NodeState::see_loss`.
    pub fn see_loss(&mut self, peer: usize, last: u32) -> Result<Done<Framed>, NodeFault>
        requires place { peer + 1 < length (names_of (held_by self.old)) }
        ensures event { Comes (names_of (held_by self.old))
            (step_lose (name_at (names_of (held_by self.old)) (peer + 1)) last (links_of self.old peer) (state_of (held_by self.old)))
            result (state_of (held_by self.new)) (answers_of (held_by self.old)) (answers_of (held_by self.new)) }
        ensures closed { OnOk result (links_of self.new ≡ at_link peer closed (links_of self.old)) }
        ensures kept { OnErr result (links_of self.new ≡ links_of self.old) }
        ensures stays { Stays (held_by self.old) (held_by self.new) result }
        ensures buffer { buffer_of self.new ≡ buffer_of self.old }
    {
        if self.state.is_lost(peer) {
            return Err(NodeFault::Refused(Refusal::NodeLost));
        }
        if !self.wires[peer].is_drained() {
            return Err(NodeFault::Refused(Refusal::NotDrained));
        }
        match self.state.see_loss_as(peer, last) {
            Ok(done) => {
                let wire = &mut self.wires[peer];
                wire.close();
                Ok(done)
            }
            Err(fault) => Err(fault),
        }
    }

    /// Takes back what an event did, once nobody looks at it: the next event that sends writes its frame in the memory of
    /// this one. Without it each such event takes a block of memory.
    ///
    /// Cost: no memory.
    pub fn reuse(&mut self, done: Done<Framed>)
        ensures held { held_by self.new ≡ held_by self.old }
        ensures links { links_of self.new ≡ links_of self.old }
        ensures frame { goes_out done.sends.goes ≡ true → buffer_of self.new ≡ done.sends.frame }
        ensures none { goes_out done.sends.goes ≡ false → buffer_of self.new ≡ buffer_of self.old }
    {
        let sends = done.sends;
        drop(done.began);
        match sends.goes() {
            Goes::Nobody => drop(sends),
            Goes::One(_) | Goes::Marked(_, _) => {
                drop(mem::replace(&mut self.buffer, sends.into_frame()));
            }
        }
    }
}
