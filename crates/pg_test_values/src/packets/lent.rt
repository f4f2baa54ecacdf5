//! Packets that are written of parts that are lent.

use bytes::BytesMut;
use pg_message::{
    Asked, MAX_STAMP, Mark, Message, MessageFault, Packet, Request, write_call_into,
    write_del_lock_into, write_down_into, write_packet_into, write_reply_into,
};
use pg_term::Reference;

// A reference of three words by its parts, and another as it is.
fn mark_of(reference: &Reference) -> Mark<'_> {
    match reference.words() {
        [first, second, third] => Mark::Parts(
            reference.node(),
            reference.creation(),
            [*first, *second, *third],
        ),
        _ => Mark::Whole(reference),
    }
}

fn asked_of(request: &Request) -> Asked<'_> {
    match request {
        Request::SetLock(name) => Asked::SetLock(name),
        Request::Change(update) => Asked::Change(update),
    }
}

/// Appends the packet's frame by the call that is lent its parts, if there is one.
pub fn write_lent(packet: &Packet, out: &mut BytesMut) -> Result<(), MessageFault> {
    let stamp = packet.stamp;
    match &packet.message {
        Message::Call(reference, request) => {
            write_call_into(stamp, &mark_of(reference), &asked_of(request), out)
        }
        Message::Reply(reference, said) if stamp <= MAX_STAMP => {
            Ok(write_reply_into(stamp, reference, *said, out)?)
        }
        Message::DelLock(name, reference) => {
            write_del_lock_into(stamp, name, &mark_of(reference), out)
        }
        Message::Down(pid) => write_down_into(stamp, pid, out),
        _ => write_packet_into(packet, out),
    }
}
