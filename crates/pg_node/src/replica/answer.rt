//! What a node with one peer answers to a packet of it.

ghost use Rattle.std.specs.Prelude.{◌≡◌, ◌≤◌, ◌+◌, ◌++◌, ◌^◌, length, IfErr, OnOk, OnErr};
ghost use Rattle.pg_node_state.specs.PgMessageTypes.Members.{IsShort};
ghost use Rattle.pg_node_state.specs.PgMessageWriter.Limits.{max_small_len};
ghost use Rattle.pg_node.specs.Replicas.Fault.{untaken_as, Refuses};
ghost use Rattle.pg_node_state.specs.PgNodeSends.Frames.{frames_to};
ghost use Rattle.pg_node_state.specs.PgNodeSends.Sendable.{FitLinks};
ghost use Rattle.pg_node.specs.Replicas.Replica.{pair_of, taken_packet, answered, AnswersServed};
ghost use Rattle.pg_node_state.specs.States.{names_of, state_of};

use crate::replica::fault::ServeFault;
use bytes::BytesMut;
use pg_message_reader::read_packet;
use pg_node_state::{
    GroupTable, MAX_SMALL_LEN, MessageFault, NodeFault, NodeState, Packet, Refusal, write_small,
};
use pg_term::TermFault;
use std::alloc::Global;

/// Takes the body of a packet of the one peer, and appends what is sent for it, framed, to the output.
///
/// Errors: those of the term and of the message, and then those of the node's step; `OutOfMemory` in the place of
/// any. They change nothing.
pub(crate) fn answer<T: GroupTable + Drop>(
    alloc: Global,
    node: &mut NodeState<T>,
    body: &[u8],
    out: &mut BytesMut,
) -> Result<(), ServeFault>
    requires one_peer { length (names_of node.old) ≡ 2 }
    requires len { length body.now ≤ 16777216 }
    ensures ok { OnOk result (AnswersServed (answered (pair_of node.old) (state_of node.old) body.now)
        (state_of node.new) out.old.items out.new.items) }
    ensures fault { IfErr result (Refuses (answered (pair_of node.old) (state_of node.old) body.now)) }
    ensures err_state { OnErr result (state_of node.new ≡ state_of node.old) }
    ensures err_out { OnErr result (out.new.items ≡ out.old.items) }
    ensures names { names_of node.new ≡ names_of node.old }
{
    // Room is made first, so that nothing has to be taken back.
    out.reserve(4 + MAX_SMALL_LEN)?;
    let packet = read_packet(alloc, body)?;
    answer_packet(node, packet, out)
}

/// Takes a packet of the one peer. A fault, of the node's step or `OutOfMemory`, changes nothing.
fn answer_packet<T: GroupTable + Drop>(
    node: &mut NodeState<T>,
    packet: Packet,
    out: &mut BytesMut,
) -> Result<(), ServeFault>
    requires one_peer { length (names_of node.old) ≡ 2 }
    requires few { IsShort (2 ^ 32) packet.message }
    requires room { 4 + max_small_len ≤ out.old.spare }
    ensures ok { OnOk result (AnswersServed (taken_packet (pair_of node.old) (state_of node.old) packet)
        (state_of node.new) out.old.items out.new.items) }
    ensures fault { IfErr result (Refuses (taken_packet (pair_of node.old) (state_of node.old) packet)) }
    ensures err_state { OnErr result (state_of node.new ≡ state_of node.old) }
    ensures err_out { OnErr result (out.new.items ≡ out.old.items) }
    ensures names { names_of node.new ≡ names_of node.old }
{
    match node.take_owned(0, packet) {
        Ok(done) => {
            write_sent(done.sends.as_slice(), out);
            drop(done);
            Ok(())
        }
        Err(fault) => Err(untaken(fault)),
    }
}

/// Appends the packet that is sent to the one peer, if there is one, as a frame. It takes no memory.
fn write_sent(sends: &[(usize, Packet)], out: &mut BytesMut)
    requires fit { FitLinks 1 sends.now }
    requires room { 4 + max_small_len ≤ out.old.spare }
    ensures { out.new.items ≡ out.old.items ++ frames_to sends.now 0 }
{
    if let Some(sent) = sends.first() {
        write_small(&sent.1, out);
    }
}

/// Why a packet is not taken.
fn untaken(fault: NodeFault) -> ServeFault
    ensures { result ≡ untaken_as fault }
{
    match fault {
        NodeFault::Refused(Refusal::ClockFull) => ServeFault::ClockFull,
        NodeFault::Refused(_) | NodeFault::Damaged => {
            ServeFault::Message(MessageFault::NotAMessage)
        }
        NodeFault::Message(fault) => ServeFault::Message(fault),
        NodeFault::TooLong => ServeFault::FrameTooLong,
        NodeFault::OutOfMemory => ServeFault::Message(MessageFault::Term(TermFault::OutOfMemory)),
    }
}
