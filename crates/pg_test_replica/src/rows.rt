//! Inputs of a frame or two, what is answered, and the number of the fault.

use crate::frames::{
    CREATE, CREATED, CUT, DENIED, EXCHANGE, FULL_STAMP, GRANTED, LARGE_STAMP, LAST_REPLY,
    LAST_STAMP, SET_LOCK, WIDE_CALL, WIDE_REPLY,
};
use crate::served::{Sheet, joined, served};
use std::alloc::{AllocError, Global};
use std::test::*;

// The name of the row, the names of the node and its peer, the parts of the input, what is answered, and the number of the fault (0: none).
type Row<'a> = (&'a str, (&'a str, &'a str), &'a [&'a [u8]], &'a [u8], u8);

const PAIR: (&str, &str) = ("b", "a");

const ROWS: &[Row] = &[
    ("create_call", PAIR, &[CREATE], CREATED, 0),
    ("wide_creations", PAIR, &[WIDE_CALL], WIDE_REPLY, 0),
    ("empty_input", PAIR, &[], &[], 0),
    ("cut_input", PAIR, &[CUT], &[], 1),
    ("frame_too_long", PAIR, &[&[1, 0, 0, 1]], &[], 11),
    ("stamp_edges, the last", PAIR, &[LAST_STAMP], LAST_REPLY, 0),
    ("stamp_edges, full", PAIR, &[FULL_STAMP], &[], 30),
    ("stamp_too_large", PAIR, &[LARGE_STAMP], &[], 13),
    ("broken_bodies, empty", PAIR, &[&[0, 0, 0, 0]], &[], 1),
    ("broken_bodies, 5", PAIR, &[FIVE], &[], 12),
    ("broken_bodies, a call", PAIR, &[CREATE, OTHER], CREATED, 2),
    ("exchange, lock", PAIR, &[EXCHANGE, SET_LOCK], GRANTED, 0),
    ("the lock alone", PAIR, &[SET_LOCK], DENIED, 0),
    ("a second exchange", PAIR, &[EXCHANGE, EXCHANGE], &[], 12),
    ("names alike", ("a", "a"), &[EXCHANGE, SET_LOCK], GRANTED, 0),
    ("no names", ("", ""), &[CREATE], CREATED, 0),
];

// A body that is the number 5, and one that begins with another version.
const FIVE: &[u8] = &[0, 0, 0, 3, 131, 97, 5];

const OTHER: &[u8] = &[0, 0, 0, 1, 130];

fn is_answered(
    alloc: Global,
    names: (&str, &str),
    input: &[u8],
    output: &[u8],
    number: u8,
) -> bool {
    let mut reader = input;
    let mut writer = Sheet::writer(alloc, usize::MAX);
    let got = served(alloc, names.0, names.1, &mut reader, &mut writer);
    let is_written = writer.writer.held.as_slice() == output;
    drop(writer);
    is_written && got == number
}

fn holds(alloc: Global, names: (&str, &str), parts: &[&[u8]], output: &[u8], number: u8) -> bool {
    match joined(alloc, parts) {
        Ok(input) => {
            let is_answered = is_answered(alloc, names, input.as_slice(), output, number);
            drop(input);
            is_answered
        }
        Err(AllocError) => false,
    }
}

#[test]
fn rows(rt: HostRuntime) {
    for (name, names, parts, output, number) in ROWS {
        let holds = holds(rt.alloc(), *names, parts, output, *number);
        assert!(&rt; holds, "{name}");
    }
}
