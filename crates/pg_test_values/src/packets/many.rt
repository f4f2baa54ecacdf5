//! Packets that are made, some of them large, and bodies that are cut and changed at each place: what takes long where each
//! growth is refused in turn.

use super::bodies::{APPLIED, CREATE, DEL_LOCK, EXCHANGE, JOIN};
use super::drafts::{Draft, drafted};
use super::forms::{Same, is_read_in_both_forms, rewritten};
use super::lent::write_lent;
use crate::rows::{Edit, Row, check, edited};
use bytes::BytesMut;
use pg_message::MessageFault::{self, NotAMessage, StampTooLarge};
use pg_message::{Packet, packet_len, write_packet, write_packet_into};
use pg_term::TermFault;
use pg_term_io::{decode, encode};
use std::alloc::Global;
use std::test::*;

/// A packet, and why it is not written.
#[derive(Clone, Copy)]
struct Drafted(Draft, Option<MessageFault>);

// Whether the packet is neither measured nor written, for this fault, and nothing is appended.
fn is_refused(alloc: Global, packet: &Packet, fault: MessageFault) -> bool {
    let mut out = BytesMut::new(alloc);
    packet_len(packet) == Err(fault)
        && write_packet_into(packet, &mut out) == Err(fault)
        && write_lent(packet, &mut out) == Err(fault)
        && write_packet(alloc, packet).err() == Some(fault)
        && out.as_slice().is_empty()
}

// Whether the packet is read from what is written of it, and from another form of that.
fn is_read_again(alloc: Global, packet: &Packet) -> Result<bool, MessageFault> {
    with!(write_packet(alloc, packet), body => is_read_in_both_forms(alloc, &body, &[], Same))
}

impl Row for Drafted {
    fn told(&self, alloc: Global) -> Result<bool, MessageFault> {
        let Drafted(draft, fault) = *self;
        with!(drafted(alloc, draft), packet => match fault {
            Some(fault) => Ok(is_refused(alloc, &packet, fault)),
            None => is_read_again(alloc, &packet),
        })
    }
}

#[test]
fn packets_not_written(rt: HostRuntime) {
    const ROWS: &[Drafted] = &[
        Drafted(Draft::Late, Some(StampTooLarge)),
        Drafted(Draft::Twice, Some(NotAMessage)),
        Drafted(Draft::Long(16_600), Some(TOO_LONG)),
    ];
    const TOO_LONG: MessageFault = MessageFault::Term(TermFault::TooLong);
    check(&rt, rt.alloc(), ROWS);
}

#[test]
fn exchanges_of_many(rt: HostRuntime) {
    const ROWS: &[Drafted] = &[
        Drafted(Draft::Many(0, 0), None),
        Drafted(Draft::Many(1, 1), None),
        Drafted(Draft::Many(1, 300), None),
        Drafted(Draft::Many(300, 1), None),
        Drafted(Draft::Many(40, 40), None),
        Drafted(Draft::Many(300, 0), None),
    ];
    check(&rt, rt.alloc(), ROWS);
}

/// A body: it is read as its term is, wherever it is cut, or a byte of it is one of the tags, or one follows it.
#[derive(Clone, Copy)]
struct Altered(&'static [u8]);

const TAGS: &[&[u8]] = &[
    b"\0", b"\x01", b"\x02", b"\x03", b"\x04", b"X", b"Z", b"a", b"b", b"c", b"g", b"h", b"i",
    b"j", b"k", b"l", b"m", b"n", b"r", b"w", b"\x80", b"\x83", b"\xff",
];

// How the term of a body is written.
fn written_of_term(alloc: Global, body: &[u8]) -> Result<Vec<u8>, TermFault> {
    with!(decode(alloc, body), term => encode(alloc, &term))
}

// Whether a body that is refused for this fault has it as its term is: the term's own, or that of no message.
fn is_fault_of_its_term(alloc: Global, body: &[u8], told: MessageFault) -> bool {
    match decode(alloc, body).err() {
        Some(fault) => told == MessageFault::Term(fault),
        None => told == NotAMessage || told == StampTooLarge,
    }
}

// Whether a body is read as its term is: with its fault, or as the packet that is written as its term is.
fn is_read_as_its_term(alloc: Global, body: &[u8]) -> Result<bool, MessageFault> {
    match rewritten(alloc, body) {
        Ok(written) => {
            let told = written_of_term(alloc, body);
            let is_same = match &told {
                Ok(wanted) => *wanted == written,
                Err(_) => false,
            };
            drop(told);
            drop(written);
            Ok(is_same)
        }
        Err(fault) => Ok(is_fault_of_its_term(alloc, body, fault)),
    }
}

fn is_read_with(alloc: Global, body: &[u8], edit: Edit) -> Result<bool, MessageFault> {
    with!(edited(alloc, b"", 0, body, &[edit]), changed => is_read_as_its_term(alloc, &changed))
}

// Whether a body is read as its term is, cut at this place, and with each of the tags there.
fn is_read_changed(alloc: Global, body: &[u8], at: usize) -> Result<bool, MessageFault> {
    for tag in TAGS {
        match is_read_with(alloc, body, Edit::At(at, 1, tag)) {
            Ok(true) => (),
            other => return other,
        }
    }
    is_read_as_its_term(alloc, body.get(..at).unwrap_or(&[]))
}

impl Row for Altered {
    fn told(&self, alloc: Global) -> Result<bool, MessageFault> {
        for at in 0..=self.0.len() {
            match is_read_changed(alloc, self.0, at) {
                Ok(true) => (),
                other => return other,
            }
        }
        Ok(true)
    }
}

#[test]
fn bodies_cut_and_changed(rt: HostRuntime) {
    for body in [CREATE, JOIN, APPLIED, DEL_LOCK, EXCHANGE] {
        check(&rt, rt.alloc(), &[Altered(body)]);
    }
}
