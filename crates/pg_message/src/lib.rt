//! Packets, as users know them: what they are (pg_message_types), read from bodies (pg_message_reader) and written (pg_message_writer).
//!
//! `read_packet(alloc, body)?` gives the packet that a body spells, and `write_packet(alloc, &packet)?` its bytes. All is in these three.
#![tactic(auto)]

pub use pg_message_reader::{OwnReply, read_own_reply, read_packet};
pub use pg_message_types::{
    MAX_NAME_DEPTH, MAX_NAME_LEN, MAX_STAMP, Message, MessageFault, Packet, Request, Said,
    are_named_once, are_told_once, check_name, is_name, name_len, read_back,
};
pub use pg_message_writer::{
    Asked, MAX_SMALL_LEN, Mark, packet_len, write_call_into, write_del_lock_into, write_down_into,
    write_packet, write_packet_into, write_reply_into,
};
