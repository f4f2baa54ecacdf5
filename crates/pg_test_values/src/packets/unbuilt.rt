//! What is no packet is refused with its fault before anything of it is built.

use super::bodies::{CREATE, EMPTY, JOIN_OF_LIST};
use crate::rows::Edit::{self, At, Times};
use crate::rows::{Row, check, edited, holds};
use pg_message::MessageFault::{self, NotAMessage, StampTooLarge, Term};
use pg_message::read_packet;
use pg_term::TermFault::{BadAtom, BadVersion, ImproperList, TrailingBytes, Truncated, UnknownTag};
use pg_term_io::{NextElement, next_element, skip_item};
use std::alloc::{AllocError, Global};
use std::test::*;

/// A body, how it is changed to what is no packet, and its fault then.
#[derive(Clone, Copy)]
struct Unbuilt(&'static [u8], &'static [Edit], MessageFault);

// Nothing is built of it: where a growth is refused, it is one of the body's own.
impl Row for Unbuilt {
    fn told(&self, alloc: Global) -> Result<bool, MessageFault> {
        match edited(alloc, b"", 0, self.0, self.1) {
            Ok(bytes) => {
                let fault = read_packet(alloc, &bytes).err();
                drop(bytes);
                Ok(fault == Some(self.2))
            }
            Err(AllocError) => Ok(true),
        }
    }
}

#[test]
fn what_is_no_packet_takes_no_memory(rt: HostRuntime) {
    const ROWS: &[Unbuilt] = &[
        // [1, 2], <<1, 2>>, {a}, {[], {a, b}}
        Unbuilt(b"\x83k\0\x02\x01\x02", &[], NotAMessage),
        Unbuilt(b"\x83m\0\0\0\x02\x01\x02", &[], NotAMessage),
        Unbuilt(b"\x83h\x01w\x01a", &[], NotAMessage),
        Unbuilt(b"\x83h\x02jh\x02w\x01aw\x01b", &[], NotAMessage),
        // {0, [a]}, {0, {down, [a]}}, {0, {reply, {a}, ok}}
        Unbuilt(b"\x83h\x02a\0l\0\0\0\x01w\x01aj", &[], NotAMessage),
        Unbuilt(
            b"\x83h\x02a\0h\x02w\x04downl\0\0\0\x01w\x01aj",
            &[],
            NotAMessage,
        ),
        Unbuilt(
            b"\x83h\x02a\0h\x03w\x05replyh\x01w\x01aw\x02ok",
            &[],
            NotAMessage,
        ),
        // An exchange of 100,000 integers, and such as are wrong in the last of 1,000 groups.
        Unbuilt(EMPTY, &[COUNT, INTEGERS, END], NotAMessage),
        Unbuilt(EMPTY, &[THOUSAND, GROUPS, WRONG_MEMBER, END], NotAMessage),
        Unbuilt(EMPTY, &[THOUSAND, GROUPS, WRONG_IN_PARTS, END], NotAMessage),
        Unbuilt(EMPTY, &[THOUSAND, GROUPS, TEXT_IN_PARTS, END], NotAMessage),
        Unbuilt(EMPTY, &[THOUSAND, GROUPS, THREE, END], NotAMessage),
        Unbuilt(EMPTY, &[THOUSAND, GROUPS, TEXT, END], NotAMessage),
        // {0, {call, Ref, {create, g}}} with a stamp above all, and with one below; and with another name: bytes of no
        // text, of no term, and a list that ends in no list.
        Unbuilt(CREATE, &[At(3, 2, b"b\x40\0\0\x01")], StampTooLarge),
        Unbuilt(CREATE, &[At(3, 2, b"b\xff\xff\xff\xff")], NotAMessage),
        Unbuilt(CREATE, &[At(45, 3, b"w\x01\xff")], Term(BadAtom)),
        Unbuilt(CREATE, &[At(45, 3, b"F")], Term(UnknownTag)),
        Unbuilt(
            CREATE,
            &[At(45, 3, b"l\0\0\0\x01a\x01a\x02")],
            Term(ImproperList),
        ),
        // {0, {call, Ref, {join, [1, 2], Pid}}}, whose name takes memory: with a stamp below all, with other words, and
        // with an atom in the place of the reference and of the pid.
        Unbuilt(JOIN_OF_LIST, &[At(3, 2, b"b\xff\xff\xff\xff")], NotAMessage),
        Unbuilt(JOIN_OF_LIST, &[At(9, 4, b"cast")], NotAMessage),
        Unbuilt(JOIN_OF_LIST, &[At(13, 14, b"w\x01a")], NotAMessage),
        Unbuilt(JOIN_OF_LIST, &[At(31, 4, b"jump")], NotAMessage),
        Unbuilt(JOIN_OF_LIST, &[At(45, 16, b"w\x01a")], NotAMessage),
        // An exchange of the group 1, of no node.
        Unbuilt(EMPTY, &[At(25, 3, b"a\x07"), ALONE, ONE, END], NotAMessage),
        // The create call cut, with a byte behind it, and of another version.
        Unbuilt(CREATE, &[At(47, 1, b"")], Term(Truncated)),
        Unbuilt(CREATE, &[At(48, 0, b"\0")], Term(TrailingBytes)),
        Unbuilt(CREATE, &[At(0, 1, b"\x82")], Term(BadVersion)),
        // An exchange of 1,000 groups that ascend in no order, and then ends.
        Unbuilt(EMPTY, &[THOUSAND, GROUPS], Term(Truncated)),
    ];
    const COUNT: Edit = At(28, 1, b"l\0\x01\x86\xa0");
    const INTEGERS: Edit = Times(100_000, b"a\x01");
    const THOUSAND: Edit = At(28, 1, b"l\0\0\x03\xe8");
    // [g, [<a.1.0>]]
    const GROUPS: Edit = Times(999, GROUP);
    const GROUP: &[u8] = b"l\0\0\0\x02w\x01gl\0\0\0\x01Xw\x01a\0\0\0\x01\0\0\0\0\0\0\0\x01jj";
    // [g, [a]]
    const WRONG_MEMBER: Edit = Times(1, b"l\0\0\0\x02w\x01gl\0\0\0\x01w\x01ajj");
    // [g | [[a]]], a pair in two parts
    const WRONG_IN_PARTS: Edit = Times(1, b"l\0\0\0\x01w\x01gl\0\0\0\x01l\0\0\0\x01w\x01ajj");
    // [g | "1"], [g, [], []], "1"
    const TEXT_IN_PARTS: Edit = Times(1, b"l\0\0\0\x01w\x01gk\0\x011");
    const THREE: Edit = Times(1, b"l\0\0\0\x03w\x01gjjj");
    const TEXT: Edit = Times(1, b"k\0\x011");
    const ALONE: Edit = At(28, 1, b"l\0\0\0\x01");
    const ONE: Edit = Times(1, b"l\0\0\0\x02a\x01jj");
    const END: Edit = Times(1, b"j");
    check(&rt, rt.alloc(), ROWS);
}

// [1 | [2 | ""]]
const IN_PARTS: &[u8] = b"l\0\0\0\x01a\x01l\0\0\0\x01a\x02k\0\0";

// What follows an element that is this small integer: it may nest so many levels, and is the last before the tail.
fn behind(next: NextElement<'_>, deep: u8, number: u8) -> Option<&[u8]> {
    match next {
        NextElement::Item(levels, 0, bytes)
            if levels == deep && bytes.starts_with(&[b'a', number]) => {
            skip_item(levels, bytes).ok()
        }
        _ => None,
    }
}

// Whether the elements are 1 and 2.
fn are_two(bytes: &[u8]) -> bool {
    let Some(tail) = behind(next_element(3, 0, bytes), 2, 1) else {
        return false;
    };
    let Some(end) = behind(next_element(2, 0, tail), 1, 2) else {
        return false;
    };
    matches!(next_element(1, 0, end), NextElement::End(_))
}

#[test]
fn elements_stand_in_tails(rt: HostRuntime) {
    holds(&rt, are_two(IN_PARTS), "the elements are 1 and 2");
}
