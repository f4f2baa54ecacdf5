//! Replies to references of the node itself, which are taken as numbers.

ghost use Rattle.std.specs.Prelude.{◌≡◌, ◌<◌, ◌+◌, ℕ, Some, Ok, IfOk, IfErr, IfSome, length};

use crate::node::Node;
use crate::node::wires::{make_room, send_all};
use pg_message_reader::OwnReply;
use pg_node_state::{Done, Framed, GroupTable, NodeFault};
use std::alloc::AllocError;

impl<T: GroupTable + Drop> Node<T> {
    ghost use Rattle.pg_node_state.specs.PgNodeOpens.Places.{name_at};
    ghost use Rattle.pg_message_reader.specs.Own.{own_reply};
    ghost use Rattle.pg_node_state.specs.PgStep.Step.{step_take};
    ghost use Rattle.pg_node.specs.Bytes.{next_packet, marked, passed};
    ghost use Rattle.pg_node.specs.Links.{at_link};
    ghost use Rattle.pg_node.specs.Nodes.{held_by, links_of, has_lost, read_next, sent_out};
    ghost use Rattle.pg_node_state.specs.PgNodeSends.Framed.{listed_of};
    ghost use Rattle.pg_node_state.specs.PgNodeSends.Frames.{AreSmallFrames};
    ghost use Rattle.pg_node_state.specs.PgNodeSends.Sendable.{AreSendable};
    ghost use Rattle.pg_node_state.specs.States.{Stays};
    ghost use Rattle.pg_node_state.specs.States.{names_of, nodes_of, state_of, answers_of, Comes};
    ghost use Rattle.pg_node_state.specs.PgNodeSends.Sent.{stamped_of};

    /// The next packet of a peer, where that is a reply which is read as numbers, and the loss of the peer was not seen.
    pub(crate) fn own_reply(&self, peer: usize) -> Option<OwnReply>
        requires place { peer + 1 < length (names_of (held_by self.now)) }
        ensures { IfSome result (λ reply. read_next (has_lost (held_by self.now) peer) (links_of self.now peer)
            ≡ Ok (Some (own_reply (name_at (names_of (held_by self.now)) 0) reply))) }
    {
        if self.state.is_lost(peer) {
            return None;
        }
        self.wires[peer].own_reply(self.state.own())
    }

    /// Takes the reply that `own_reply` has read of a peer, as `take_read` does where it is read as a packet.
    pub(crate) fn take_own_reply(
        &mut self,
        peer: usize,
        reply: OwnReply,
    ) -> Result<Done<Framed>, NodeFault>
        requires place { peer + 1 < length (names_of (held_by self.old)) }
        requires next { next_packet (links_of self.old peer) ≡ Ok (Some (own_reply (name_at (names_of (held_by self.old)) 0) reply)) }
        ensures event { Comes (names_of (held_by self.old))
            (step_take (nodes_of (held_by self.old)) (name_at (names_of (held_by self.old)) (peer + 1)) (stamped_of (own_reply (name_at (names_of (held_by self.old)) 0) reply)) (state_of (held_by self.old)))
            result (state_of (held_by self.new)) (answers_of (held_by self.old)) (answers_of (held_by self.new)) }
        ensures sent { IfOk result (λ done. (place : ℕ) → links_of self.new place ≡ at_link peer passed (sent_out (listed_of done.sends) (links_of self.old)) place) }
        ensures small { IfOk result (λ done. AreSmallFrames (listed_of done.sends)) }
        ensures fits { IfOk result (λ done. AreSendable (names_of (held_by self.old)) (listed_of done.sends)) }
        ensures marked { IfErr result (λ fault. links_of self.new ≡ at_link peer (λ l. marked l fault) (links_of self.old)) }
        ensures stays { Stays (held_by self.old) (held_by self.new) result }
    {
        match make_room(&mut self.wires, &mut self.has_room) {
            Ok(()) => {}
            Err(AllocError) => {
                let fault = self
                    .state
                    .reply_fault_or_memory(peer, reply.stamp, reply.number, reply.said);
                self.mark(peer, fault);
                return Err(fault);
            }
        }
        match self.state.take_own_reply_as(
            &mut self.buffer,
            peer,
            reply.stamp,
            reply.number,
            reply.said,
        ) {
            Ok(done) => {
                send_all(&mut self.wires, &mut self.has_room, &done.sends);
                let wire = &mut self.wires[peer];
                wire.pass();
                Ok(done)
            }
            Err(fault) => {
                let wire = &mut self.wires[peer];
                wire.mark(fault);
                Err(fault)
            }
        }
    }
}
