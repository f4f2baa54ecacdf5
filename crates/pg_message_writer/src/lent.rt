//! Packets of parts that are only lent: no message is built of them.

ghost use Rattle.pg_message_types.specs.declared.message.Message.TheVariants as messages;
ghost use Rattle.pg_message_writer.specs.Frames.{AppendsFrame};
ghost use Rattle.pg_message_writer.specs.Told.{reference_lent, asked_for};

use crate::frame::write_told_into;
use crate::told::{Asked, Mark, Told};
use bytes::BytesMut;
use pg_message_types::MessageFault;
use pg_term::{Pid, Term};

/// Appends the packet `{Stamp, {call, Ref, Request}}` as one whole frame, as `write_packet_into` does: a call of
/// `gen_server`, or the question of `global:set_lock/2`.
///
/// Errors: those of `write_packet_into`, which leave the bytes of the buffer as they were.
///
/// Cost: no allocation where the room suffices.
pub fn write_call_into(
    stamp: u32,
    mark: &Mark<'_>,
    asked: &Asked<'_>,
    out: &mut BytesMut,
) -> Result<(), MessageFault>
    ensures { AppendsFrame (record {
      stamp = stamp;
      message
          = messages.Call (reference_lent mark.now) (asked_for asked.now);
    }) out.old out.new result }
{
    write_told_into(stamp, &Told::Call(*mark, *asked), out)
}

/// Appends the packet `{Stamp, {cast, {del_lock, Name, Ref}}}` as one whole frame, as `write_packet_into` does:
/// `global:del_lock/2`.
///
/// Errors: those of `write_packet_into`, which leave the bytes of the buffer as they were.
///
/// Cost: no allocation where the room suffices.
pub fn write_del_lock_into(
    stamp: u32,
    name: &Term,
    mark: &Mark<'_>,
    out: &mut BytesMut,
) -> Result<(), MessageFault>
    ensures { AppendsFrame (record {
      stamp = stamp;
      message
          = messages.DelLock name.now (reference_lent mark.now);
    }) out.old out.new result }
{
    write_told_into(stamp, &Told::DelLock(name, *mark), out)
}

/// Appends the packet `{Stamp, {down, Pid}}` as one whole frame, as `write_packet_into` does: a process has ended.
///
/// Errors: those of `write_packet_into`, which leave the bytes of the buffer as they were.
///
/// Cost: no allocation where the room suffices.
pub fn write_down_into(stamp: u32, pid: &Pid, out: &mut BytesMut) -> Result<(), MessageFault>
    ensures { AppendsFrame (record { stamp = stamp; message = messages.Down pid.now }) out.old out.new
        result }
{
    write_told_into(stamp, &Told::Down(pid), out)
}
