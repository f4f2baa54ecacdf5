//! The frames of what a node sends.

ghost use Rattle.std.specs.Prelude.{◌≡◌, ◌≤◌, ◌+◌, ◌++◌, length, true, false};
ghost use Rattle.pg_node_opens.specs.PgMessageTypes.Limits.{max_stamp};
ghost use Rattle.pg_node_opens.specs.PgMessageTypes.Writing.{is_exchange, is_sayable};
ghost use Rattle.pg_message_writer.specs.Frames.{frame_of};
ghost use Rattle.pg_node_sends.specs.Frames.{IsSmallFrame};
ghost use Rattle.pg_message_writer.specs.Limits.{max_small_len};

use bytes::BytesMut;
use pg_message_writer::write_packet_into;
use pg_node_opens::Packet;

/// Appends a small packet as one frame, where there is room.
///
/// Cost: no memory.
pub fn write_small(packet: &Packet, out: &mut BytesMut)
    requires named { is_sayable packet.now.message ≡ true }
    requires stamp { packet.now.stamp ≤ max_stamp }
    requires small { is_exchange packet.now.message ≡ false }
    requires room { 4 + max_small_len ≤ out.old.spare }
    ensures items { out.new.items ≡ out.old.items ++ frame_of packet.now }
    ensures spare { out.old.spare ≤ out.new.spare + length (frame_of packet.now) }
    ensures small { IsSmallFrame packet.now }
{
    write_packet_into(packet, out).unwrap();
}
