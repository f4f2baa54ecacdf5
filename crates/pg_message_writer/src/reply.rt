//! The packet that answers a call, of parts that are only lent.

ghost use Rattle.std.specs.Prelude.{◌≡◌, ◌≤◌, ◌+◌, ◌++◌, length, Ok, IsOk, OnOk, OnErr, MatchResult};
ghost use Rattle.pg_message_types.specs.PgTermIo.Writing.{written};
ghost use Rattle.pg_message_types.specs.declared.message.Message.TheVariants as messages;
ghost use Rattle.pg_message_types.specs.Reading.{packet_spelled};
ghost use Rattle.pg_message_types.specs.Writing.{term_of_packet, framed};
ghost use Rattle.pg_message_writer.specs.Told.{reference_lent};
ghost use Rattle.pg_message_types.specs.Limits.{max_stamp};
ghost use Rattle.pg_message_writer.specs.Limits.{max_small_len};

use crate::frame::put_frame;
use crate::size::{reply_len, stamp_len};
use crate::told::{Mark, Told};
use bytes::BytesMut;
use pg_message_types::Said;
use pg_term::Reference;
use std::alloc::AllocError;

/// Appends the packet `{Stamp, {reply, Ref, Said}}` as one whole frame, as `write_packet_into` does: a `gen_server`
/// call's reply, or the answer to `global:set_lock/2`. The stamp is at most 1,073,741,824.
///
/// Errors: `AllocError`, where the room does not suffice and the buffer can't grow; the bytes of the buffer are as
/// they were.
///
/// Cost: no allocation where the room suffices.
pub fn write_reply_into(
    stamp: u32,
    reference: &Reference,
    said: Said,
    out: &mut BytesMut,
) -> Result<(), AllocError>
    requires { stamp ≤ max_stamp }
    ensures ok { OnOk result (out.new.items ≡ out.old.items ++ framed (written
        (term_of_packet (record { stamp = stamp; message = messages.Reply reference.now said })))) }
    ensures err { OnErr result (out.new.items ≡ out.old.items) }

    // What is written is read as the packet, and is short.
    ensures read { OnOk result (packet_spelled (written
        (term_of_packet (record { stamp = stamp; message = messages.Reply reference.now said })))
        ≡ Ok (record { stamp = stamp; message = messages.Reply reference.now said })) }
    ensures few { OnOk result (length (framed (written
        (term_of_packet (record { stamp = stamp; message = messages.Reply reference.now said }))))
        ≤ 4 + max_small_len) }

    // Only room can be missing.
    ensures succeeds { length (framed (written
        (term_of_packet (record { stamp = stamp; message = messages.Reply reference.now said })))) ≤ out.old.spare
        → IsOk result }

    // It takes no more room than the frame.
    ensures spare { MatchResult result
        (λ done. out.old.spare ≤ out.new.spare + length (framed (written
        (term_of_packet (record { stamp = stamp; message = messages.Reply reference.now said })))))
        (λ failed. out.old.spare ≤ out.new.spare) }
{
    let mark = Mark::Whole(reference);
    let len = reply_packet_len(stamp, &mark, said);
    out.reserve(4 + len)?;
    put_frame(out, len, stamp, &Told::Reply(mark, said));
    Ok(())
}

// How many bytes the body takes.
fn reply_packet_len(stamp: u32, mark: &Mark<'_>, said: Said) -> usize
    ensures value { result ≡ length (written (term_of_packet
        (record { stamp = stamp; message = messages.Reply (reference_lent mark.now) said }))) }
    ensures few { result ≤ max_small_len }
{
    3 + stamp_len(stamp) + reply_len(mark, said)
}
