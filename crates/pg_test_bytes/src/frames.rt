//! Frames: known bytes, and calls that get memory again once they were refused it.

use crate::moves::Move::{self, *};
use crate::moves::plays;
use crate::rows::{holds, row_holds};
use bytes::BytesMut;
use pg_frame::{Deframer, FrameFault, MAX_BODY, TooLong, frame_into, write_frame};
use std::alloc::Global;
use std::test::*;

/// A `create` call of the process groups, 45 bytes of external term format in a frame.
pub const CREATE_CALL: &[u8] =
    b"\0\0\0\x2d\x83h\x02a\0h\x03w\x04callr\0\x03w\x01a\x01\0\0\0\x01\0\0\0\0\0\0\0\0\
    h\x02w\x06createw\x01g";

// A frame of three bytes and one of none.
const TWO_FRAMES: &[u8] = &[0, 0, 0, 3, 7, 8, 9, 0, 0, 0, 0];

// Whether a deframer plays the moves.
fn is_played(alloc: Global, moves: &[Move<'_>]) -> bool {
    let mut deframer = Deframer::new(alloc);
    let is_played = plays(&mut deframer, moves);
    drop(deframer);
    is_played
}

// Whether both frames are taken, their bytes fed in two pieces, and the first as soon as it is whole.
fn are_taken_cut(alloc: Global, cut: usize) -> bool {
    let first = Feed(TWO_FRAMES.get(..cut).unwrap_or(&[]));
    let rest = Feed(TWO_FRAMES.get(cut..).unwrap_or(&[]));
    let three = Take(&[7, 8, 9]);
    if 7 <= cut {
        is_played(alloc, &[first, three, rest, Take(&[]), Open, Rest(0)])
    } else {
        is_played(alloc, &[first, Open, rest, three, Take(&[]), Open, Rest(0)])
    }
}

#[test]
fn cut_anywhere(rt: HostRuntime) {
    for cut in 0..12usize {
        row_holds(&rt, are_taken_cut(rt.alloc(), cut), cut);
    }
}

// A length of 16,777,217 in two pieces stays refused, whatever follows.
const TOO_LONG: &[&[Move<'static>]] = &[
    &[Feed(&[1, 0, 0]), Open],
    &[Feed(&[1]), Refused, Rest(4)],
    &[Feed(&[0]), Refused, Rest(5)],
    &[Feed(&[1]), Refused, Rest(6)],
    &[Feed(&[2]), Refused, Rest(7)],
];

#[test]
fn frame_too_long(rt: HostRuntime) {
    let mut deframer = Deframer::new(rt.alloc());
    for (at, moves) in TOO_LONG.iter().enumerate() {
        row_holds(&rt, plays(&mut deframer, moves), at);
    }
    drop(deframer);
    let fault = FrameFault::from(TooLong);
    let are_11 = TooLong.number() == 11 && fault.number() == 11;
    let is_10 = FrameFault::OutOfMemory.number() == 10;
    holds(&rt, are_11 && is_10, "the numbers of the faults");
}

// A thousand frames cross once there is room, a part of the next behind each.
fn are_crossed(deframer: &mut Deframer) -> bool {
    let (front, rest) = CREATE_CALL.split_at(20);
    let body = CREATE_CALL.get(4..).unwrap_or(&[]);
    let mut is_played = plays(deframer, &[Feed(front), Room(100_000), Rest(20)]);
    for _ in 0..1_000u32 {
        is_played = is_played && plays(deframer, &[Put(rest), Take(body), Put(front), Rest(20)]);
    }
    is_played
}

#[test]
fn room_is_kept(rt: HostRuntime) {
    let mut deframer = Deframer::new(rt.alloc());
    let are_crossed = are_crossed(&mut deframer);
    drop(deframer);
    holds(&rt, are_crossed, "a thousand frames cross");
}

// Whether a frame is written, the second time where memory is refused once, which may change nothing.
fn is_written(out: &mut Vec<u8>, body: &[u8]) -> bool {
    let before = out.len();
    match write_frame(out, body) {
        Err(FrameFault::OutOfMemory) => out.len() == before && write_frame(out, body) == Ok(()),
        told => told == Ok(()),
    }
}

// The same into a buffer.
fn is_written_into(out: &mut BytesMut, body: &[u8]) -> bool {
    let before = out.len();
    match frame_into(out, body) {
        Err(FrameFault::OutOfMemory) => out.len() == before && frame_into(out, body) == Ok(()),
        told => told == Ok(()),
    }
}

// Whether bodies are written as these frames.
fn are_written(alloc: Global, bodies: &[&[u8]], frames: &[u8]) -> bool {
    let mut out = Vec::new(alloc);
    let mut buffer = BytesMut::new(alloc);
    let mut are_written = true;
    for body in bodies {
        are_written = are_written && is_written(&mut out, body);
        are_written = are_written && is_written_into(&mut buffer, body);
    }
    let are_same = out.as_slice() == frames && buffer.as_slice() == frames;
    drop(out);
    drop(buffer);
    are_written && are_same
}

#[test]
fn write_and_read(rt: HostRuntime) {
    let body = CREATE_CALL.get(4..).unwrap_or(&[]);
    let is_one = are_written(rt.alloc(), &[body], CREATE_CALL);
    let are_two = are_written(rt.alloc(), &[&[7, 8, 9], &[]], TWO_FRAMES);
    holds(&rt, is_one, "a create call");
    holds(&rt, are_two, "two frames");
}

// Whether a body is refused behind a frame, which stays as it is, and written there without its first byte.
fn is_one_too_long(out: &mut Vec<u8>, body: &[u8]) -> bool {
    is_written(out, &[7, 8, 9])
        && write_frame(out, body) == Err(FrameFault::TooLong)
        && out.as_slice() == &TWO_FRAMES[..7]
        && is_written(out, body.get(1..).unwrap_or(&[]))
        && out.len() == 7 + 4 + MAX_BODY as usize
        && out.get(7..12) == Some([1, 0, 0, 0, 5].as_slice())
}

// Whether a buffer refuses it too.
fn is_refused(alloc: Global, body: &[u8]) -> bool {
    let mut buffer = BytesMut::new(alloc);
    frame_into(&mut buffer, body) == Err(FrameFault::TooLong) && buffer.len() == 0
}

#[test]
fn body_too_long(rt: HostRuntime) -> Result<(), Fail> {
    let len = MAX_BODY as usize + 1;
    let mut body = Vec::new(rt.alloc());
    if body.resize(len, 5).is_err() {
        body.resize(len, 5)?;
    }
    let mut out = Vec::new(rt.alloc());
    let is_one_too_long = is_one_too_long(&mut out, &body);
    holds(&rt, is_one_too_long, "one byte too long");
    let is_refused = is_refused(rt.alloc(), &body);
    holds(&rt, is_refused, "a buffer refuses it too");
    Ok(())
}
