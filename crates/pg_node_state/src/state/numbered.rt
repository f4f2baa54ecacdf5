//! What a node makes of a reply that is read as numbers.

ghost use Rattle.std.specs.Prelude.{◌≡◌, ◌≢◌, ◌<◌, ◌+◌, true, Err, IfOk, length};
ghost use Rattle.pg_node_ports.specs.PgMessageTypes.declared.message.Message.TheVariants as messages;

use crate::state::{NodeFault, NodeState};
use bytes::BytesMut;
use pg_node_ports::{GroupTable, MAX_STAMP, Refusal, Said};
use pg_node_sends::{Done, Outgoing};

impl<T: GroupTable + Drop> NodeState<T> {
    ghost use Rattle.pg_node_ports.specs.PgRefs.Numbered.{numbered};
    ghost use Rattle.pg_node_ports.specs.PgNodeOpens.Places.{name_at};
    ghost use Rattle.pg_node_ports.specs.PgStep.Step.{step_take};
    ghost use Rattle.pg_node_state.specs.declared.state.fault.NodeFault.TheVariants.{OutOfMemory};
    ghost use Rattle.pg_node_state.specs.States.{Stays};
    ghost use Rattle.pg_node_state.specs.States.{names_of, nodes_of, live_of, kept_by, state_of};
    ghost use Rattle.pg_node_state.specs.States.{answers_of, takes_none, Comes};
    ghost use Rattle.pg_node_sends.specs.Sendable.{AreSendable};

    /// Takes a reply of a peer to a reference of the node itself, as `take` does where the packet says that: no packet
    /// is built. `peer`: its place among the peers. `stamp`: the clock that the packet has. `number`: that of the reference,
    /// as `pg_refs::reference_of` numbers it. `said`: what the reply says.
    ///
    /// Errors: those of `take`; they change nothing.
    ///
    /// Cost: that of what is sent.
    pub fn take_own_reply(
        &mut self,
        peer: usize,
        stamp: u32,
        number: u32,
        said: Said,
    ) -> Result<Done, NodeFault>
        requires place { peer + 1 < length (names_of self.old) }
        ensures event { Comes (names_of self.old)
            (step_take (nodes_of self.old) (name_at (names_of self.old) (peer + 1))
            (record { stamp = stamp; packet = messages.Reply (numbered (nodes_of self.old).own number) said }) (state_of self.old))
            result (state_of self.new) (answers_of self.old) (answers_of self.new) }
        ensures light { takes_none (live_of self.old) (name_at (names_of self.old) (peer + 1)) (kept_by self.old)
            (messages.Reply (numbered (nodes_of self.old).own number) said) ≡ true
            → result ≢ Err OutOfMemory }
        ensures stays { Stays self.old self.new result }
        ensures fits { IfOk result (λ done. AreSendable (names_of self.old) done.sends.items) }
    {
        self.take_own_reply_as(&mut BytesMut::new(self.alloc), peer, stamp, number, said)
    }

    /// The same, in the form in which the caller sends: a list of packets, or a frame. `buffer`: its memory takes the frame,
    /// where one is written; what it held is lost.
    ///
    /// Errors: those of `take_own_reply`. They change nothing but `buffer`, which may be left empty and without its memory.
    ///
    /// Cost: that of `take_own_reply`; a frame takes memory only where `buffer` has too little.
    pub fn take_own_reply_as<S: Outgoing + Drop>(
        &mut self,
        buffer: &mut BytesMut,
        peer: usize,
        stamp: u32,
        number: u32,
        said: Said,
    ) -> Result<Done<S>, NodeFault>
        requires place { peer + 1 < length (names_of self.old) }
        ensures event { Comes (names_of self.old)
            (step_take (nodes_of self.old) (name_at (names_of self.old) (peer + 1))
            (record { stamp = stamp; packet = messages.Reply (numbered (nodes_of self.old).own number) said }) (state_of self.old))
            result (state_of self.new) (answers_of self.old) (answers_of self.new) }
        ensures light { takes_none (live_of self.old) (name_at (names_of self.old) (peer + 1)) (kept_by self.old)
            (messages.Reply (numbered (nodes_of self.old).own number) said) ≡ true
            → result ≢ Err OutOfMemory }
        ensures stays { Stays self.old self.new result }
        ensures fits { IfOk result (λ done. AreSendable (names_of self.old) (S.listed done.sends)) }
    {
        if self.opens.is_lost(peer + 1) {
            return Err(NodeFault::Refused(Refusal::NodeLost));
        }
        let latest = self.clock.max(stamp);
        if latest >= MAX_STAMP {
            return Err(NodeFault::Refused(Refusal::ClockFull));
        }
        self.take_numbered(buffer, latest + 1, peer, number, said)
    }
}
