//! Bodies in other forms than they are written in, and such as are no packets, each with its outer tuple as a
//! SMALL_TUPLE_EXT and as a LARGE_TUPLE_EXT.

use super::bodies::{APPLIED, CREATE, DOWN, DOWN_AT_0, EXCHANGE, JOIN, JOIN_OF_LIST};
use crate::rows::Edit::{self, At};
use crate::rows::{OUT_OF_MEMORY, Row, check, edited, holds};
use pg_message::MessageFault::{self, *};
use pg_message::{read_packet, write_packet};
use pg_term::TermFault;
use std::alloc::Global;
use std::test::*;

/// A body that begins with a tuple of two, how it is changed behind it, and what it is read as.
#[derive(Clone, Copy)]
pub struct Changed(pub &'static [u8], pub &'static [Edit], pub Wanted);

#[derive(Clone, Copy)]
pub enum Wanted {
    /// The packet that is written as the body was.
    Same,
    /// The packet that is written as the body is with a SMALL_TUPLE_EXT.
    Itself,
    /// None, for this fault.
    Fault(MessageFault),
}

pub use Wanted::{Fault, Itself, Same};

pub const NO_PACKET: Wanted = Fault(NotAMessage);

pub const CUT: Wanted = Fault(Term(TermFault::Truncated));

const LATE: Wanted = Fault(StampTooLarge);

const SMALL: &[u8] = b"\x83h\x02";

const LARGE: &[u8] = b"\x83i\0\0\0\x02";

/// How the packet that is read from a body is written.
pub fn rewritten(alloc: Global, body: &[u8]) -> Result<Vec<u8>, MessageFault> {
    with!(read_packet(alloc, body), packet => write_packet(alloc, &packet))
}

// Whether a body is read as the packet that is written so behind its outer tuple.
fn is_read_as(alloc: Global, body: &[u8], others: Option<&[u8]>) -> Result<bool, MessageFault> {
    with!(
        rewritten(alloc, body),
        written => Ok(written.as_slice().starts_with(SMALL) && written.get(3..) == others)
    )
}

/// Whether the body has this fault.
pub fn has_fault(alloc: Global, body: &[u8], fault: MessageFault) -> Result<bool, MessageFault> {
    match read_packet(alloc, body).err() {
        Some(OUT_OF_MEMORY) => Err(OUT_OF_MEMORY),
        told => Ok(told == Some(fault)),
    }
}

fn is_read_with(
    alloc: Global,
    head: &[u8],
    base: &[u8],
    edits: &[Edit],
    wanted: Wanted,
) -> Result<bool, MessageFault> {
    with!(edited(alloc, head, 3, base, edits), body => match wanted {
        Same => is_read_as(alloc, &body, base.get(3..)),
        Itself => is_read_as(alloc, &body, body.get(head.len()..)),
        Fault(fault) => has_fault(alloc, &body, fault),
    })
}

/// Whether a body is read as wanted with either tag of its outer tuple.
pub fn is_read_in_both_forms(
    alloc: Global,
    base: &[u8],
    edits: &[Edit],
    wanted: Wanted,
) -> Result<bool, MessageFault> {
    match is_read_with(alloc, SMALL, base, edits, wanted) {
        Ok(true) => is_read_with(alloc, LARGE, base, edits, wanted),
        other => other,
    }
}

impl Row for Changed {
    fn told(&self, alloc: Global) -> Result<bool, MessageFault> {
        is_read_in_both_forms(alloc, self.0, self.1, self.2)
    }
}

/// At a place of a body so many bytes are replaced by each of these in turn: each is read as the packet that the body is.
#[derive(Clone, Copy)]
pub struct Forms(
    pub &'static [u8],
    pub usize,
    pub usize,
    pub &'static [&'static [u8]],
);

impl Row for Forms {
    fn told(&self, alloc: Global) -> Result<bool, MessageFault> {
        for form in self.3 {
            let edit = At(self.1, self.2, *form);
            match is_read_in_both_forms(alloc, self.0, &[edit], Same) {
                Ok(true) => (),
                other => return other,
            }
        }
        Ok(true)
    }
}

/// An atom of one character in other forms, less the character: as an ATOM_UTF8_EXT, a SMALL_ATOM_EXT and an ATOM_EXT.
pub const LETTER: &[&[u8]] = &[b"v\0\x01", b"s\x01", b"d\0\x01"];

#[test]
fn each_part_in_other_forms(rt: HostRuntime) {
    const ROWS: &[Forms] = &[
        Forms(JOIN, 3, 2, ZERO),
        Forms(JOIN, 5, 2, &[b"i\0\0\0\x03"]),
        Forms(JOIN, 7, 2, &[b"v\0\x04", b"s\x04", b"d\0\x04"]),
        Forms(JOIN, 13, 14, REFERENCES),
        Forms(JOIN, 16, 2, LETTER),
        Forms(JOIN, 27, 2, &[b"i\0\0\0\x03"]),
        Forms(JOIN, 29, 2, &[b"v\0\x04", b"s\x04", b"d\0\x04"]),
        Forms(JOIN, 35, 2, LETTER),
        Forms(JOIN, 38, 16, OLD_PID),
        Forms(JOIN, 39, 2, LETTER),
        // The name as a string of bytes, and as a list in two parts.
        Forms(JOIN_OF_LIST, 35, 10, &[b"k\0\x02\x01\x02", TWO_PARTS]),
        Forms(DOWN, 13, 16, OLD_PID),
        Forms(DOWN_AT_0, 13, 16, OLD_PID),
    ];
    const ZERO: &[&[u8]] = &[b"a\0", b"b\0\0\0\0", b"n\0\0", b"n\x02\x01\0\0"];
    const REFERENCES: &[&[u8]] = &[b"ew\x01a\0\0\0\x07\0", b"r\0\x01w\x01a\0\0\0\0\x07"];
    const OLD_PID: &[&[u8]] = &[b"gw\x01a\0\0\0\x01\0\0\0\0\x01"];
    const TWO_PARTS: &[u8] = b"l\0\0\0\x01a\x01l\0\0\0\x01a\x02j";
    check(&rt, rt.alloc(), ROWS);
}

#[test]
fn stamp_edges(rt: HostRuntime) {
    const ROWS: &[Changed] = &[
        Changed(DOWN, &[At(3, 2, b"a\0")], Itself),
        Changed(DOWN, &[At(3, 2, b"b@\0\0\0")], Itself),
        Changed(DOWN, &[At(3, 2, TOO_LARGE)], LATE),
        Changed(DOWN, &[At(3, 2, b"n\x05\0\0\0\0\0\x01")], LATE),
        Changed(DOWN, &[At(3, 2, b"b\xff\xff\xff\xff")], NO_PACKET),
        Changed(DOWN, &[At(3, 2, b"j")], NO_PACKET),
        // What is no message is told before a stamp that is too large: {Stamp, {downs, <a.1.0>}}
        Changed(DOWN, &[At(3, 2, b"a\0"), DOWNS], NO_PACKET),
        Changed(DOWN, &[At(3, 2, TOO_LARGE), DOWNS], NO_PACKET),
    ];
    const DOWNS: Edit = At(8, 5, b"\x05downs");
    const TOO_LARGE: &[u8] = b"b@\0\0\x01";
    check(&rt, rt.alloc(), ROWS);
    let are_right = NotAMessage.number() == 12 && StampTooLarge.number() == 13;
    holds(&rt, are_right, "the numbers of the faults");
}

/// A body and its fault.
#[derive(Clone, Copy)]
struct Broken(&'static [u8], MessageFault);

impl Row for Broken {
    fn told(&self, alloc: Global) -> Result<bool, MessageFault> {
        has_fault(alloc, self.0, self.1)
    }
}

#[test]
fn broken_bodies(rt: HostRuntime) {
    const BROKEN: &[Broken] = &[
        Broken(b"", Term(TermFault::Truncated)),
        Broken(b"\x83h\x02a\0a", Term(TermFault::Truncated)),
        Broken(b"\x82", Term(TermFault::BadVersion)),
        Broken(b"\x83a\x05", NotAMessage),
        Broken(b"\x83a\x05\0", Term(TermFault::TrailingBytes)),
    ];
    const ROWS: &[Changed] = &[
        Changed(CREATE, &[At(47, 1, b"")], CUT),
        Changed(APPLIED, &[At(39, 1, b"")], CUT),
        Changed(EXCHANGE, &[At(106, 1, b"")], CUT),
    ];
    check(&rt, rt.alloc(), BROKEN);
    check(&rt, rt.alloc(), ROWS);
}
