//! What a node makes of a packet.

ghost use Rattle.std.specs.Prelude.{◌≡◌, ◌≢◌, ◌<◌, ◌+◌, ◌^◌, true, Err, IfOk, length};
ghost use Rattle.pg_node_ports.specs.PgMessageTypes.Members.{IsShort, HasFewMembers};
ghost use Rattle.pg_node_ports.specs.PgMessageTypes.Limits.{max_stamp};

use crate::state::{NodeFault, NodeState};
use bytes::BytesMut;
use pg_node_ports::{GroupTable, MAX_STAMP, Message, Packet, Refusal, Request};
use pg_node_sends::{Done, Outgoing};
use pg_term::{Atom, Items, Pid, Term};

impl<T: GroupTable + Drop> NodeState<T> {
    ghost use Rattle.pg_node_ports.specs.PgNodeOpens.Places.{name_at};
    ghost use Rattle.pg_node_ports.specs.PgStep.Step.{step_take};
    ghost use Rattle.pg_node_state.specs.declared.state.fault.NodeFault.TheVariants.{OutOfMemory};
    ghost use Rattle.pg_node_state.specs.States.{Stays};
    ghost use Rattle.pg_node_state.specs.States.{names_of, nodes_of, live_of, kept_by, state_of};
    ghost use Rattle.pg_node_state.specs.States.{answers_of, announced_at, step_see_loss, takes_none, Comes};
    ghost use Rattle.pg_node_sends.specs.Sent.{stamped_of};
    ghost use Rattle.pg_node_sends.specs.Sendable.{AreSendable};

    /// Takes a packet of a peer. `peer`: its place among the peers. What is sent carries the clock that the event
    /// sets: the greater of the node's and the packet's, and 1 more.
    ///
    /// Errors: `Refused` by `NodeLost` where the loss of the peer was seen, by `ClockFull` where the clock would pass
    /// 1,073,741,824, and by `NotAMessage` for the groups of another node, or where the peer has announced its
    /// groups; `OutOfMemory`, which never comes where a lock is freed, or of a reply that is not counted. They change
    /// nothing.
    ///
    /// Cost: that of the table's call for what the packet says, and of what is sent.
    pub fn take(&mut self, peer: usize, packet: &Packet) -> Result<Done, NodeFault>
        requires place { peer + 1 < length (names_of self.old) }
        requires few { IsShort (2 ^ 32) packet.now.message }
        ensures event { Comes (names_of self.old)
            (step_take (nodes_of self.old) (name_at (names_of self.old) (peer + 1)) (stamped_of packet.now) (state_of self.old))
            result (state_of self.new) (answers_of self.old) (answers_of self.new) }
        ensures light { takes_none (live_of self.old) (name_at (names_of self.old) (peer + 1)) (kept_by self.old) packet.now.message ≡ true
            → result ≢ Err OutOfMemory }
        ensures stays { Stays self.old self.new result }
        ensures fits { IfOk result (λ done. AreSendable (names_of self.old) done.sends.items) }
    {
        self.take_as(&mut BytesMut::new(self.alloc), peer, packet)
    }

    /// The same, in the form in which the caller sends: a list of packets, or a frame. `buffer`: its memory takes the frame,
    /// where one is written; what it held is lost.
    ///
    /// Errors: those of `take`. They change nothing but `buffer`, which may be left empty and without its memory.
    ///
    /// Cost: that of `take`; a frame takes memory only where `buffer` has too little.
    pub fn take_as<S: Outgoing + Drop>(
        &mut self,
        buffer: &mut BytesMut,
        peer: usize,
        packet: &Packet,
    ) -> Result<Done<S>, NodeFault>
        requires place { peer + 1 < length (names_of self.old) }
        requires few { IsShort (2 ^ 32) packet.now.message }
        ensures event { Comes (names_of self.old)
            (step_take (nodes_of self.old) (name_at (names_of self.old) (peer + 1)) (stamped_of packet.now) (state_of self.old))
            result (state_of self.new) (answers_of self.old) (answers_of self.new) }
        ensures light { takes_none (live_of self.old) (name_at (names_of self.old) (peer + 1)) (kept_by self.old) packet.now.message ≡ true
            → result ≢ Err OutOfMemory }
        ensures stays { Stays self.old self.new result }
        ensures fits { IfOk result (λ done. AreSendable (names_of self.old) (S.listed done.sends)) }
    {
        if self.opens.is_lost(peer + 1) {
            return Err(NodeFault::Refused(Refusal::NodeLost));
        }
        let latest = self.clock.max(packet.stamp);
        if latest >= MAX_STAMP {
            return Err(NodeFault::Refused(Refusal::ClockFull));
        }
        let clock = latest + 1;
        match &packet.message {
            Message::Call(reference, request) => match request {
                Request::SetLock(name) => Ok(self.serve_lock(
                    buffer, clock, peer, reference, name,
                )?),
                Request::Change(update) => Ok(self.serve_update(
                    buffer, clock, peer, reference, update,
                )?),
            },
            Message::Reply(reference, said) => self.take_reply(
                buffer, clock, peer, reference, *said,
            ),
            Message::DelLock(name, reference) => Ok(self.free_lock(clock, reference, name)),
            Message::Exchange(node, groups) => {
                self.take_groups(clock, peer, node, groups.as_slice())
            }
            Message::Down(pid) => Ok(self.take_end(clock, pid)?),
        }
    }

    /// The same of a packet that is given to the node: of the groups that it announces, the table takes the names that
    /// it lacks, so that the node holds none of them twice.
    ///
    /// Errors: those of `take`. They change nothing; the packet is gone.
    ///
    /// Cost: that of `take`.
    pub fn take_owned(&mut self, peer: usize, packet: Packet) -> Result<Done, NodeFault>
        requires place { peer + 1 < length (names_of self.old) }
        requires few { IsShort (2 ^ 32) packet.message }
        ensures event { Comes (names_of self.old)
            (step_take (nodes_of self.old) (name_at (names_of self.old) (peer + 1)) (stamped_of packet) (state_of self.old))
            result (state_of self.new) (answers_of self.old) (answers_of self.new) }
        ensures light { takes_none (live_of self.old) (name_at (names_of self.old) (peer + 1)) (kept_by self.old) packet.message ≡ true
            → result ≢ Err OutOfMemory }
        ensures stays { Stays self.old self.new result }
        ensures fits { IfOk result (λ done. AreSendable (names_of self.old) done.sends.items) }
    {
        self.take_owned_as(&mut BytesMut::new(self.alloc), peer, packet)
    }

    /// The same, in the form in which the caller sends: a list of packets, or a frame. `buffer`: its memory takes the frame,
    /// where one is written; what it held is lost.
    ///
    /// Errors: those of `take_owned`. They change nothing but `buffer`, which may be left empty and without its memory.
    ///
    /// Cost: that of `take_owned`; a frame takes memory only where `buffer` has too little.
    pub fn take_owned_as<S: Outgoing + Drop>(
        &mut self,
        buffer: &mut BytesMut,
        peer: usize,
        packet: Packet,
    ) -> Result<Done<S>, NodeFault>
        requires place { peer + 1 < length (names_of self.old) }
        requires few { IsShort (2 ^ 32) packet.message }
        ensures event { Comes (names_of self.old)
            (step_take (nodes_of self.old) (name_at (names_of self.old) (peer + 1)) (stamped_of packet) (state_of self.old))
            result (state_of self.new) (answers_of self.old) (answers_of self.new) }
        ensures light { takes_none (live_of self.old) (name_at (names_of self.old) (peer + 1)) (kept_by self.old) packet.message ≡ true
            → result ≢ Err OutOfMemory }
        ensures stays { Stays self.old self.new result }
        ensures fits { IfOk result (λ done. AreSendable (names_of self.old) (S.listed done.sends)) }
    {
        let Packet { stamp, message } = packet;
        match message {
            Message::Exchange(node, groups) => {
                let taken = self.take_exchange(peer, stamp, &node, groups.into_vec());
                drop(node);
                taken
            }
            message => {
                let packet = Packet { stamp, message };
                let taken = self.take_as(buffer, peer, &packet);
                drop(packet);
                taken
            }
        }
    }

    /// The same of the groups that a packet announces.
    fn take_exchange<S: Outgoing + Drop>(
        &mut self,
        peer: usize,
        stamp: u32,
        node: &Atom,
        groups: Vec<(Term, Items<Pid>)>,
    ) -> Result<Done<S>, NodeFault>
        requires place { peer + 1 < length (names_of self.old) }
        requires few { HasFewMembers (2 ^ 32) groups.items }
        ensures event { Comes (names_of self.old)
            (step_take (nodes_of self.old) (name_at (names_of self.old) (peer + 1)) (announced_at stamp node.now groups.items) (state_of self.old))
            result (state_of self.new) (answers_of self.old) (answers_of self.new) }
        ensures stays { Stays self.old self.new result }
        ensures answers { answers_of self.new ≡ answers_of self.old }
        ensures fits { IfOk result (λ done. AreSendable (names_of self.old) (S.listed done.sends)) }
    {
        if self.opens.is_lost(peer + 1) {
            drop(groups);
            return Err(NodeFault::Refused(Refusal::NodeLost));
        }
        let latest = self.clock.max(stamp);
        if latest >= MAX_STAMP {
            drop(groups);
            return Err(NodeFault::Refused(Refusal::ClockFull));
        }
        self.take_owned_groups(latest + 1, peer, node, groups)
    }

    /// Sees the loss of a peer, once all that came from it was taken: it is live no more, the locks of its references
    /// are free, its processes have ended and are in no group, and it counts as merged. `peer`: its place among the
    /// peers. `last`: its clock at last. Nothing is sent.
    ///
    /// Errors: `Refused` by `NodeLost` where the loss was seen before, and by `ClockFull` where the clock would pass
    /// 1,073,741,824; `OutOfMemory`. They change nothing.
    ///
    /// Cost: that of the table's `drop_node` and of the names that have a holder.
    pub fn see_loss(&mut self, peer: usize, last: u32) -> Result<Done, NodeFault>
        requires place { peer + 1 < length (names_of self.old) }
        ensures event { Comes (names_of self.old)
            (step_see_loss (name_at (names_of self.old) (peer + 1)) last (state_of self.old))
            result (state_of self.new) (answers_of self.old) (answers_of self.new) }
        ensures stays { Stays self.old self.new result }
        ensures fits { IfOk result (λ done. AreSendable (names_of self.old) done.sends.items) }
    {
        self.see_loss_as(peer, last)
    }

    /// The same, in the form in which the caller sends: a list of packets, or a frame.
    ///
    /// Errors: those of `see_loss`. They change nothing.
    ///
    /// Cost: that of `see_loss`.
    pub fn see_loss_as<S: Outgoing + Drop>(
        &mut self,
        peer: usize,
        last: u32,
    ) -> Result<Done<S>, NodeFault>
        requires place { peer + 1 < length (names_of self.old) }
        ensures event { Comes (names_of self.old)
            (step_see_loss (name_at (names_of self.old) (peer + 1)) last (state_of self.old))
            result (state_of self.new) (answers_of self.old) (answers_of self.new) }
        ensures stays { Stays self.old self.new result }
        ensures fits { IfOk result (λ done. AreSendable (names_of self.old) (S.listed done.sends)) }
    {
        if self.opens.is_lost(peer + 1) {
            return Err(NodeFault::Refused(Refusal::NodeLost));
        }
        let latest = self.clock.max(last);
        if latest >= MAX_STAMP {
            return Err(NodeFault::Refused(Refusal::ClockFull));
        }
        Ok(self.forget_peer(latest + 1, peer)?)
    }
}
