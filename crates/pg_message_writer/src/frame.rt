//! Packets to bodies and frames.

ghost use Rattle.std.specs.Prelude.{◌≡◌, ◌+◌, ◌≤◌, ◌++◌, length, true, false, Ok};
ghost use Rattle.std.specs.Prelude.{Err, IfOk, IsOk, OnOk, OnErr, MatchResult};
ghost use Rattle.pg_message_types.specs.PgTermIo.Writing.{written, IsSpelled};
ghost use Rattle.pg_message_types.specs.Fault.{Gives};
ghost use Rattle.pg_message_types.specs.declared.fault.MessageFault.{MessageFault};
ghost use Rattle.pg_message_types.specs.Limits.{max_stamp};
ghost use Rattle.pg_message_types.specs.Reading.{packet_spelled};
ghost use Rattle.pg_message_types.specs.Writing.{term_of_packet, is_exchange, is_sayable, body_of};
ghost use Rattle.pg_message_writer.specs.Frames.{frame_of};
ghost use Rattle.pg_message_writer.specs.Told.{message_told, packet_told};
ghost use Rattle.pg_message_types.specs.PgTermIo.Limits.{max_len};
ghost use Rattle.pg_message_writer.specs.Limits.{max_small_len};

use crate::parts::put_body;
use crate::size::told_len;
use crate::told::Told;
use bytes::BytesMut;
use pg_message_types::{MessageFault, Packet};
use std::alloc::Global;

/// Appends a packet as one whole frame: four bytes of length, the highest first, and the body.
///
/// Errors: `NotAMessage`, where `check_name` refuses a name, or an exchange names a group twice; `StampTooLarge`;
/// `TooLong`, where the body takes more than 16,777,216 bytes; `OutOfMemory`, where the room does not suffice and the
/// buffer can't grow. They leave the bytes of the buffer as they were.
///
/// Cost: no allocation where the room suffices; that of `packet_len` and of one walk over the packet.
///
/// The rule: the forms of the External Term Format chapter of the Erlang documentation.
pub fn write_packet_into(packet: &Packet, out: &mut BytesMut) -> Result<(), MessageFault>
    ensures ok { OnOk result (out.new.items ≡ out.old.items ++ frame_of packet.now) }
    ensures err { OnErr result (out.new.items ≡ out.old.items) }
    ensures told { Gives (λ done. written (term_of_packet packet.now)) result (body_of packet.now) }
    ensures unsendable { (fault : MessageFault) → body_of packet.now ≡ Err fault → result ≡ Err fault }

    // What is written is read as the packet.
    ensures read { OnOk result (packet_spelled (written (term_of_packet packet.now)) ≡ Ok packet.now) }

    // Only room can be missing for a body.
    ensures succeeds { IsOk (body_of packet.now)
        → length (frame_of packet.now) ≤ out.old.spare → IsOk result }
    ensures succeeds_small { is_sayable packet.now.message ≡ true → packet.now.stamp ≤ max_stamp
        → is_exchange packet.now.message ≡ false → 4 + max_small_len ≤ out.old.spare → IsOk result }

    // It takes no more room than the frame.
    ensures few { OnOk result (is_exchange packet.now.message ≡ false
        → length (frame_of packet.now) ≤ 4 + max_small_len) }
    ensures spare { MatchResult result
        (λ done. out.old.spare ≤ out.new.spare + length (frame_of packet.now))
        (λ fault. out.old.spare ≤ out.new.spare) }
{
    write_told_into(packet.stamp, &Told::of(&packet.message), out)
}

/// The same of a message that is lent.
pub(crate) fn write_told_into(
    stamp: u32,
    told: &Told<'_>,
    out: &mut BytesMut,
) -> Result<(), MessageFault>
    ensures ok { OnOk result (out.new.items ≡ out.old.items ++ frame_of (packet_told stamp told.now)) }
    ensures err { OnErr result (out.new.items ≡ out.old.items) }
    ensures told { Gives (λ done. written (term_of_packet (packet_told stamp told.now))) result (body_of (packet_told stamp told.now)) }
    ensures unsendable { (fault : MessageFault) → body_of (packet_told stamp told.now) ≡ Err fault → result ≡ Err fault }

    // What is written is read as the packet.
    ensures read { OnOk result (packet_spelled (written (term_of_packet (packet_told stamp told.now))) ≡ Ok (packet_told stamp told.now)) }

    // Only room can be missing for a body.
    ensures succeeds { IsOk (body_of (packet_told stamp told.now))
        → length (frame_of (packet_told stamp told.now)) ≤ out.old.spare → IsOk result }
    ensures succeeds_small { is_sayable (message_told told.now) ≡ true → stamp ≤ max_stamp
        → is_exchange (message_told told.now) ≡ false → 4 + max_small_len ≤ out.old.spare → IsOk result }

    // It takes no more room than the frame.
    ensures few { OnOk result (is_exchange (message_told told.now) ≡ false
        → length (frame_of (packet_told stamp told.now)) ≤ 4 + max_small_len) }
    ensures spare { MatchResult result
        (λ done. out.old.spare ≤ out.new.spare + length (frame_of (packet_told stamp told.now)))
        (λ fault. out.old.spare ≤ out.new.spare) }
{
    let len = told_len(stamp, told)?;
    out.reserve(4 + len)?;
    put_frame(out, len, stamp, told);
    Ok(())
}

/// Appends a frame in room that was reserved. `len`: how many bytes its body takes.
pub(crate) fn put_frame(out: &mut BytesMut, len: usize, stamp: u32, told: &Told<'_>)
    requires len { len ≡ length (written (term_of_packet (packet_told stamp told.now))) }
    requires short { len ≤ max_len }
    requires room { 4 + len ≤ out.old.spare }
    ensures items { out.new.items ≡ out.old.items ++ frame_of (packet_told stamp told.now) }
    ensures spare { out.new.spare + 4 + len ≡ out.old.spare }
    ensures spelled { IsSpelled (term_of_packet (packet_told stamp told.now)) }
{
    out.extend_reserved(&(len as u32).to_be_bytes());
    put_body(out, stamp, told);
}

/// The body of a packet: the byte 131 and `{Stamp, Message}` as one item.
///
/// Errors: those of `packet_len`, before anything is allocated; `OutOfMemory`.
///
/// Cost: one allocation; that of `packet_len` and of one walk over the packet.
///
/// The rule: the External Term Format chapter of the Erlang documentation.
pub fn write_packet(alloc: Global, packet: &Packet) -> Result<Vec<u8>, MessageFault>
    ensures told { Gives (λ body. body.items) result (body_of packet.now) }
    ensures unsendable { (fault : MessageFault) → body_of packet.now ≡ Err fault → result ≡ Err fault }

    // What is written is read as the packet.
    ensures read { IfOk result (λ body. packet_spelled body.items ≡ Ok packet.now) }
{
    let told = Told::of(&packet.message);
    let body_len = told_len(packet.stamp, &told)?;
    let mut out = BytesMut::with_capacity(alloc, body_len)?;
    put_body(&mut out, packet.stamp, &told);
    Ok(out.into_vec()?)
}
