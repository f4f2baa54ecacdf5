//! An input that is cut anywhere, or comes in any two pieces, or a byte a read, and where a read, a write or a flush fails.

use crate::frames::{CREATE, CREATED};
use crate::served::{Sheet, cut_text, holds_at, joined, served};
use pg_streams::Source;
use std::alloc::{AllocError, Global};
use std::process::Abort;
use std::test::*;

// Frames of node a, and of each the frame that node b answers, if it answers one.
#[derive(Clone, Copy)]
struct Turns<'a> {
    sent: &'a [&'a [u8]],
    answered: &'a [&'a [u8]],
}

// A call that creates a group.
const CALL: Turns = Turns {
    sent: &[CREATE],
    answered: &[CREATED],
};

// The lock is granted after the exchange, and then to no other; a stamp ahead of the clock sets it.
const FORMED: Turns = Turns {
    sent: &[
        b"\x00\x00\x00\x1d\x83h\x02a\x00h\x02w\x04casth\x03w\x08exchangew\x01aj",
        b"\x00\x00\x00*\x83h\x02a\x01h\x03w\x04callZ\x00\x01w\x01a\x00\x00\x00\x01\x00\x00\x00\x01h\x02w\x08set_lockw\x01g",
        b"\x00\x00\x00*\x83h\x02a\x09h\x03w\x04callZ\x00\x01w\x01a\x00\x00\x00\x01\x00\x00\x00\x02h\x02w\x08set_lockw\x01g",
    ],
    answered: &[
        b"",
        b"\x00\x00\x00\x22\x83h\x02a\x02h\x03w\x05replyZ\x00\x01w\x01a\x00\x00\x00\x01\x00\x00\x00\x01w\x04true",
        b"\x00\x00\x00#\x83h\x02a\x0ah\x03w\x05replyZ\x00\x01w\x01a\x00\x00\x00\x01\x00\x00\x00\x02w\x05false",
    ],
};

// No lock is granted before the exchange.
const UNFORMED: Turns = Turns {
    sent: &[
        b"\x00\x00\x00*\x83h\x02a\x05h\x03w\x04callZ\x00\x01w\x01a\x00\x00\x00\x01\x00\x00\x00\x01h\x02w\x08set_lockw\x01g",
        b"\x00\x00\x00\x1d\x83h\x02a\x05h\x02w\x04casth\x03w\x08exchangew\x01aj",
        b"\x00\x00\x00*\x83h\x02a\x06h\x03w\x04callZ\x00\x01w\x01a\x00\x00\x00\x01\x00\x00\x00\x02h\x02w\x08set_lockw\x01g",
    ],
    answered: &[
        b"\x00\x00\x00#\x83h\x02a\x06h\x03w\x05replyZ\x00\x01w\x01a\x00\x00\x00\x01\x00\x00\x00\x01w\x05false",
        b"",
        b"\x00\x00\x00\x22\x83h\x02a\x08h\x03w\x05replyZ\x00\x01w\x01a\x00\x00\x00\x01\x00\x00\x00\x02w\x04true",
    ],
};

// The numbers of the faults.
const DONE: u8 = 0;

const CUT: u8 = 1;

const READ_FAULT: u8 = 31;

const WRITE_FAULT: u8 = 32;

// How many bytes are answered to the frames that are whole in the first so many bytes.
fn answered_len(turns: Turns<'_>, len: usize) -> usize {
    let mut end: usize = 0;
    let mut answered_len: usize = 0;
    for (sent, answered) in turns.sent.iter().zip(turns.answered) {
        end = end.saturating_add(sent.len());
        if end <= len {
            answered_len = answered_len.saturating_add(answered.len());
        }
    }
    answered_len
}

// The fault where the input ends after so many bytes: none where that is between two frames.
fn fault_after(turns: Turns<'_>, len: usize) -> u8 {
    let mut end: usize = 0;
    let mut is_between = len == 0;
    for sent in turns.sent {
        end = end.saturating_add(sent.len());
        is_between = is_between || end == len;
    }
    if is_between { DONE } else { CUT }
}

// Whether these are the first so many bytes of what is answered.
fn are_first(turns: Turns<'_>, bytes: &[u8], len: usize) -> bool {
    let mut rest = bytes;
    for answered in turns.answered {
        let count = answered.len().min(rest.len());
        let (first, others) = rest.split_at(count);
        if !answered.starts_with(first) {
            return false;
        }
        rest = others;
    }
    rest.is_empty() && bytes.len() == len
}

// How a run goes: how often the writer may be called, how many bytes are answered, the fault, and whether all was flushed.
#[derive(Clone, Copy)]
struct Run(usize, usize, u8, bool);

// Whether a run over this reader goes so.
fn goes<R: Source>(alloc: Global, turns: Turns<'_>, reader: &mut R, run: Run) -> bool {
    let Run(calls, answered, number, must_flush) = run;
    let mut writer = Sheet::writer(alloc, calls);
    let got = served(alloc, "b", "a", reader, &mut writer);
    let held = writer.writer.held.as_slice();
    let is_answered = are_first(turns, held, answered);
    let is_flushed = writer.writer.flushed == held.len();
    drop(writer);
    is_answered && (is_flushed || !must_flush) && got == number
}

// Whether the first so many bytes are served and answered.
fn is_prefix_served(alloc: Global, turns: Turns<'_>, input: &[u8], len: usize) -> bool {
    let (mut reader, _) = input.split_at(len.min(input.len()));
    let (answered, number) = (answered_len(turns, len), fault_after(turns, len));
    let run = Run(usize::MAX, answered, number, false);
    goes(alloc, turns, &mut reader, run)
}

// Whether what was read is answered, and that is flushed, where the input comes in a piece of `first` bytes and then of `next`, in so many reads.
fn is_read_in(
    alloc: Global,
    turns: Turns<'_>,
    input: &[u8],
    first: usize,
    next: usize,
    reads_left: usize,
) -> bool {
    let mut reader = cut_text(input, first, next, reads_left);
    let later = reads_left.saturating_sub(1).saturating_mul(next);
    let read = first.saturating_add(later);
    let answered = answered_len(turns, if reads_left == 0 { 0 } else { read });
    // The last read finds the end.
    let rest = input.len().saturating_sub(first);
    let needed = rest.div_ceil(next.max(1)).saturating_add(2);
    let is_whole = reads_left >= needed;
    let number = if is_whole { DONE } else { READ_FAULT };
    let run = Run(usize::MAX, answered, number, true);
    goes(alloc, turns, &mut reader, run)
}

// How many bytes are held after so many calls of the writer: writes of 5 bytes, and a flush after the last.
fn held_after(turns: Turns<'_>, calls: usize) -> usize {
    let mut held: usize = 0;
    let mut left = calls;
    for answered in turns.answered {
        let writes = answered.len().div_ceil(5).min(left);
        held = held.saturating_add(writes.saturating_mul(5).min(answered.len()));
        left = left.saturating_sub(writes);
    }
    held
}

// How many calls of the writer there are.
fn calls_of(turns: Turns<'_>) -> usize {
    let mut calls: usize = 1;
    for answered in turns.answered {
        calls = calls.saturating_add(answered.len().div_ceil(5));
    }
    calls
}

// Whether as much of the replies was written as the writer took.
fn is_held(alloc: Global, turns: Turns<'_>, input: &[u8], calls: usize) -> bool {
    let mut reader = input;
    let is_whole = calls >= calls_of(turns);
    let number = if is_whole { DONE } else { WRITE_FAULT };
    let run = Run(calls, held_after(turns, calls), number, false);
    goes(alloc, turns, &mut reader, run)
}

// Whether the replies to all that came before the last read were flushed by then, where the input comes 7 bytes a read and the writer is
// called so often.
fn is_out_before(alloc: Global, turns: Turns<'_>, input: &[u8], calls: usize) -> bool {
    let mut reader = cut_text(input, 7, 7, usize::MAX);
    let mut writer = Sheet::writer(alloc, calls);
    let got = served(alloc, "b", "a", &mut reader, &mut writer);
    let read = input.len().saturating_sub(reader.reader.text.len());
    let is_out = writer.writer.flushed >= answered_len(turns, read.saturating_sub(7));
    drop(writer);
    is_out && (got == WRITE_FAULT || got == DONE)
}

// Whether as much is served into memory as is answered.
fn is_kept(alloc: Global, turns: Turns<'_>, input: &[u8], len: usize) -> bool {
    let (mut reader, _) = input.split_at(len.min(input.len()));
    let mut writer = Vec::new(alloc);
    let got = served(alloc, "b", "a", &mut reader, &mut writer);
    let is_kept = are_first(turns, writer.as_slice(), answered_len(turns, len));
    drop(writer);
    is_kept && got == fault_after(turns, len)
}

// Where an input is cut, or fails.
#[derive(Clone, Copy)]
enum Part {
    // It ends after so many bytes.
    Prefix,
    // It comes in a piece of so many bytes, and the rest.
    Piece,
    // It comes 7 bytes a read, of which so many are made.
    Sevens,
    // It comes a byte a read, of which so many are made.
    Bytes,
    // The writer is called so often.
    Writes,
    // The writer is called so often, and the input comes 7 bytes a read.
    Turns,
    // It ends after so many bytes, and is served into memory.
    Memory,
}

// How many of these there are.
fn count_of(turns: Turns<'_>, input: &[u8], part: Part) -> usize {
    match part {
        Part::Prefix | Part::Piece | Part::Memory => input.len().saturating_add(1),
        Part::Sevens => input.len().div_ceil(7).saturating_add(2),
        Part::Bytes => input.len().saturating_add(2),
        Part::Writes => calls_of(turns).saturating_add(1),
        Part::Turns => calls_of(turns).saturating_add(input.len().div_ceil(7)),
    }
}

fn is_so(alloc: Global, turns: Turns<'_>, input: &[u8], part: Part, at: usize) -> bool {
    match part {
        Part::Prefix => is_prefix_served(alloc, turns, input, at),
        Part::Piece if at > 0 => is_read_in(alloc, turns, input, at, usize::MAX, usize::MAX),
        Part::Piece => true,
        Part::Sevens => is_read_in(alloc, turns, input, 7, 7, at),
        Part::Bytes => is_read_in(alloc, turns, input, 1, 1, at),
        Part::Writes => is_held(alloc, turns, input, at),
        Part::Turns => is_out_before(alloc, turns, input, at),
        Part::Memory => is_kept(alloc, turns, input, at),
    }
}

fn check_input(rt: &impl Abort, alloc: Global, row: &Row, input: &[u8]) {
    let (said, turns, part) = *row;
    for at in 0..count_of(turns, input, part) {
        holds_at(rt, is_so(alloc, turns, input, part, at), said, at);
    }
}

fn check(rt: &impl Abort, alloc: Global, row: &Row) {
    match joined(alloc, row.1.sent) {
        Ok(input) => {
            check_input(rt, alloc, row, input.as_slice());
            drop(input);
        }
        Err(AllocError) => holds_at(rt, false, "no memory", 0),
    }
}

// What is cut or fails, at each of its places.
type Row = (&'static str, Turns<'static>, Part);

const ROWS: &[Row] = &[
    ("the prefix of a call", CALL, Part::Prefix),
    ("the prefix of an exchange", FORMED, Part::Prefix),
    ("the prefix of a lock", UNFORMED, Part::Prefix),
    ("a piece of", CALL, Part::Piece),
    ("bytes, of reads", CALL, Part::Bytes),
    // The replies to what was read before are written and flushed, wherever a read fails.
    ("each read fails, of", FORMED, Part::Sevens),
    // What was written is a prefix of the replies, wherever a write or the flush fails.
    ("each write fails, of", UNFORMED, Part::Writes),
    // Wherever a write or a flush fails, no more was read before the replies to what came before were written and flushed.
    ("replies are out before a read, of", UNFORMED, Part::Turns),
    ("served into memory", FORMED, Part::Memory),
];

#[test]
fn inputs_that_are_cut_or_fail(rt: HostRuntime) {
    for row in ROWS {
        check(&rt, rt.alloc(), row);
    }
}
