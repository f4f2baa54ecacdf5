//! Each message, read from its bytes, copied, and written as them, wherever memory is refused; and what is read straight off
//! its bytes, since it is spelled as it is written.

use super::bodies::{APPLIED, CREATE, DEL_LOCK, DOWN, EMPTY, EXCHANGE, JOIN};
use super::lent::write_lent;
use crate::rows::{OUT_OF_MEMORY, Row, check};
use bytes::BytesMut;
use pg_group::Update;
use pg_message::{
    Message, MessageFault, Packet, Request, Said, packet_len, read_packet, write_packet,
    write_packet_into,
};
use std::alloc::{AllocError, Global};
use std::test::*;

/// The bytes of a packet in parts, and what it says, in words.
#[derive(Clone, Copy)]
struct Both(&'static [&'static [u8]], &'static str);

fn update_kind(update: &Update) -> &'static str {
    match update {
        Update::Create(_) => "create",
        Update::Delete(_) => "delete",
        Update::Join(_, _) => "join",
        Update::Leave(_, _) => "leave",
    }
}

fn kind_of(packet: &Packet) -> &'static str {
    match &packet.message {
        Message::Call(_, Request::SetLock(_)) => "set_lock",
        Message::Call(_, Request::Change(update)) => update_kind(update),
        Message::Reply(_, Said::Granted) => "true",
        Message::Reply(_, Said::Denied) => "false",
        Message::Reply(_, Said::Applied) => "ok",
        Message::DelLock(_, _) => "del_lock",
        Message::Exchange(_, _) => "exchange",
        Message::Down(_) => "down",
    }
}

fn write_once(packet: &Packet, is_lent: bool, out: &mut BytesMut) -> Result<(), MessageFault> {
    if is_lent {
        write_lent(packet, out)
    } else {
        write_packet_into(packet, out)
    }
}

// Whether the packet is appended, or its parts, which are lent; again where memory was refused and the buffer is as it was.
fn is_put(packet: &Packet, is_lent: bool, out: &mut BytesMut) -> bool {
    let before = out.len();
    let mut told = write_once(packet, is_lent, out);
    if told == Err(OUT_OF_MEMORY) && out.len() == before {
        told = write_once(packet, is_lent, out);
    }
    told.is_ok()
}

// Whether these are the bytes behind their length in four bytes.
fn is_frame(frame: &[u8], bytes: &[u8]) -> bool {
    let len = u32::try_from(bytes.len()).unwrap_or(u32::MAX);
    frame.len() == bytes.len().saturating_add(4)
        && frame.starts_with(&len.to_be_bytes())
        && frame.ends_with(bytes)
}

// Whether the packet is written as the bytes in a frame, and once more behind it of its parts.
fn is_framed(alloc: Global, packet: &Packet, bytes: &[u8]) -> bool {
    let mut out = BytesMut::new(alloc);
    let is_whole = is_put(packet, false, &mut out);
    let one = out.len();
    let is_lent = is_put(packet, true, &mut out);
    let is_framed = match out.as_slice().split_at_checked(one) {
        Some((first, second)) => is_frame(first, bytes) && is_frame(second, bytes),
        None => false,
    };
    drop(out);
    is_whole && is_lent && is_framed
}

// Whether the packet is written as the bytes, and in frames.
fn is_written(alloc: Global, packet: &Packet, bytes: &[u8]) -> Result<bool, MessageFault> {
    let is_long = packet_len(packet) == Ok(bytes.len());
    with!(write_packet(alloc, packet), body => {
        Ok(body.as_slice() == bytes && is_long && is_framed(alloc, packet, bytes))
    })
}

// Whether a copy of the packet is of this kind, and both are written as the bytes.
fn is_both_ways(
    alloc: Global,
    packet: &Packet,
    bytes: &[u8],
    kind: &str,
) -> Result<bool, MessageFault> {
    match packet.copy(alloc) {
        Ok(copy) => {
            let is_same = kind_of(&copy) == kind;
            let is_copied = is_written(alloc, &copy, bytes);
            drop(copy);
            Ok(is_copied? && is_written(alloc, packet, bytes)? && is_same)
        }
        Err(AllocError) => Err(OUT_OF_MEMORY),
    }
}

// Whether the bytes are read as a packet of this kind.
fn is_read(alloc: Global, bytes: &[u8], kind: &str) -> Result<bool, MessageFault> {
    with!(read_packet(alloc, bytes), packet => is_both_ways(alloc, &packet, bytes, kind))
}

impl Row for Both {
    fn told(&self, alloc: Global) -> Result<bool, MessageFault> {
        let mut bytes = Vec::new(alloc);
        for part in self.0 {
            bytes.extend_from_slice(part)?;
        }
        is_read(alloc, &bytes, self.1)
    }
}

#[test]
fn each_message_both_ways(rt: HostRuntime) {
    const ROWS: &[Both] = &[
        Both(&[CREATE], "create"),
        Both(&[NOW, CALL, b"h\x02w\x06deletej"], "delete"),
        Both(&[NOW, CALL, b"h\x02w\x06deletew\x01g"], "delete"),
        Both(&[LATEST, CALL, SET_LOCK], "set_lock"),
        Both(&[NOW, CALL, b"h\x02w\x08set_lockw\x01g"], "set_lock"),
        Both(&[NOW, CALL_OF_THREE, SET_LOCK], "set_lock"),
        Both(&[NOW, CALL_OF_THREE, b"h\x02w\x06deletew\x01g"], "delete"),
        Both(&[JOIN], "join"),
        Both(&[NOW, CALL, b"h\x03w\x05leavew\x01g", PID], "leave"),
        Both(&[b"\x83h\x02a\xff", GRANTED], "true"),
        Both(&[NOW, GRANTED], "true"),
        Both(&[b"\x83h\x02b\0\0\x01\0", DENIED], "false"),
        Both(&[NOW, DENIED], "false"),
        Both(&[APPLIED], "ok"),
        Both(&[DEL_LOCK], "del_lock"),
        Both(&[NOW, FREE, REFERENCE_OF_THREE], "del_lock"),
        // Members in no order, and one that joined twice; no groups; members in order.
        Both(&[EXCHANGE], "exchange"),
        Both(&[EMPTY], "exchange"),
        Both(&[NOW, TELL, TWO_OF_H, PID, PID_2, END], "exchange"),
        Both(&[DOWN], "down"),
    ];
    // The beginning of a packet at 0, and a call and replies of #<a/0.7>.
    const NOW: &[u8] = b"\x83h\x02a\0";
    const CALL: &[u8] = b"h\x03w\x04callZ\0\x01w\x01a\0\0\0\0\0\0\0\x07";
    // A call, a freed lock and a reference of #<b/257.131075.67108869> with creation 2.
    const CALL_OF_THREE: &[u8] =
        b"h\x03w\x04callZ\0\x03w\x01b\0\0\0\x02\0\0\x01\x01\0\x02\0\x03\x04\0\0\x05";
    const FREE: &[u8] = b"h\x02w\x04casth\x03w\x08del_lockw\x01g";
    const REFERENCE_OF_THREE: &[u8] =
        b"Z\0\x03w\x01b\0\0\0\x02\0\0\x01\x01\0\x02\0\x03\x04\0\0\x05";
    const GRANTED: &[u8] = b"h\x03w\x05replyZ\0\x01w\x01a\0\0\0\0\0\0\0\x07w\x04true";
    const DENIED: &[u8] = b"h\x03w\x05replyZ\0\x01w\x01a\0\0\0\0\0\0\0\x07w\x05false";
    const PID: &[u8] = b"Xw\x01a\0\0\0\x01\0\0\0\0\0\0\0\x01";
    const PID_2: &[u8] = b"Xw\x01a\0\0\0\x02\0\0\0\0\0\0\0\x01";
    // The beginning of an exchange: g, which has no members, and another group.
    const TELL: &[u8] = b"h\x02w\x04casth\x03w\x08exchangew\x01al\0\0\0\x02l\0\0\0\x02w\x01gjj";
    const SET_LOCK: &[u8] = b"h\x02w\x08set_locka\x05";
    const END: &[u8] = b"jjj";
    const LATEST: &[u8] = b"\x83h\x02b@\0\0\0";
    const TWO_OF_H: &[u8] = b"l\0\0\0\x02w\x01hl\0\0\0\x02";
    check(&rt, rt.alloc(), ROWS);
}
