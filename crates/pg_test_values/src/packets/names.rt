//! What may name a group, and the names of the groups that an exchange tells: in any order, each once, and each within the
//! limits.

use super::bodies::{CREATE, EMPTY};
use super::drafts::created;
use super::forms::{Changed, Itself, NO_PACKET, is_read_in_both_forms};
use crate::rows::Edit::{self, At, Times};
use crate::rows::{OUT_OF_MEMORY, Row, check, edited, holds};
use pg_message::MessageFault::{self, NameTooLarge, NotAMessage};
use pg_message::{
    MAX_NAME_DEPTH, MAX_NAME_LEN, are_named_once, are_told_once, check_name, write_packet,
};
use pg_term::{Items, Pid, Term, TermFault};
use pg_term_io::{decode, encode_len};
use std::alloc::Global;
use std::test::*;

/// The bytes of a name in place of that of a create call, how many they are with the first of a term, and whether such a call is read and
/// written, or refused for its name.
#[derive(Clone, Copy)]
struct Name(&'static [Edit], usize, bool);

// The name alone.
fn decoded(alloc: Global, edits: &[Edit]) -> Result<Term, TermFault> {
    with!(edited(alloc, b"\x83", 0, b"", edits), bytes => decode(alloc, &bytes))
}

// Why a create call of this name is not written.
fn fault_of(alloc: Global, name: Term) -> Result<Option<MessageFault>, MessageFault> {
    with!(created(alloc, 0, name), packet => match write_packet(alloc, &packet).err() {
        Some(OUT_OF_MEMORY) => Err(OUT_OF_MEMORY),
        told => Ok(told),
    })
}

impl Row for Name {
    fn told(&self, alloc: Global) -> Result<bool, MessageFault> {
        let Name(edits, len, is_name) = *self;
        let (checked, written, read) = if is_name {
            (None, None, Itself)
        } else {
            (Some(NameTooLarge), Some(NotAMessage), NO_PACKET)
        };
        match decoded(alloc, edits) {
            Ok(name) => {
                let is_long = encode_len(&name) == Ok(len);
                let is_checked = check_name(&name).err() == checked;
                let is_written = fault_of(alloc, name)? == written;
                let is_read = is_read_in_both_forms(alloc, CREATE, edits, read)?;
                Ok(is_long && is_checked && is_written && is_read)
            }
            Err(fault) => Err(MessageFault::Term(fault)),
        }
    }
}

#[test]
fn name_limits(rt: HostRuntime) {
    const ROWS: &[Name] = &[
        Name(ZEROS_508, 1023, true),
        Name(ZEROS_509, 1025, false),
        Name(ZEROS_AND_PID_500, 1023, true),
        Name(ZEROS_AND_PID_501, 1025, false),
        Name(DEEP_31, 65, true),
        Name(DEEP_32, 67, false),
    ];
    // Zeros in a list, and a pid behind them; a zero inside so many tuples.
    const ZEROS_508: &[Edit] = &[At(45, 3, b"l\0\0\x01\xfc"), Times(508, b"a\0"), END];
    const ZEROS_509: &[Edit] = &[At(45, 3, b"l\0\0\x01\xfd"), Times(509, b"a\0"), END];
    const ZEROS_AND_PID_500: &[Edit] = &[At(45, 3, b"l\0\0\x01\xf5"), Times(500, b"a\0"), PID, END];
    const ZEROS_AND_PID_501: &[Edit] = &[At(45, 3, b"l\0\0\x01\xf6"), Times(501, b"a\0"), PID, END];
    const DEEP_31: &[Edit] = &[At(45, 3, b""), Times(31, b"h\x01"), Times(1, b"a\0")];
    const DEEP_32: &[Edit] = &[At(45, 3, b""), Times(32, b"h\x01"), Times(1, b"a\0")];
    const PID: Edit = Times(1, b"Xw\x01a\0\0\0\x01\0\0\0\0\0\0\0\x01");
    let are_right = MAX_NAME_LEN == 1024 && MAX_NAME_DEPTH == 32;
    holds(&rt, are_right, "the limits of a name");
    check(&rt, rt.alloc(), ROWS);
}

const END: Edit = Times(1, b"j");

#[test]
fn names_in_an_exchange(rt: HostRuntime) {
    const ROWS: &[Changed] = &[
        // In any order.
        Changed(EMPTY, &[SIX, ONE, G, H, TUPLE, LIST, BINARY, END], Itself),
        Changed(EMPTY, &[SIX, BINARY, LIST, TUPLE, H, G, ONE, END], Itself),
        Changed(EMPTY, &[FIVE, H, TUPLE, ONE, BINARY, G, END], Itself),
        Changed(EMPTY, &[TWO, H, G, END], Itself),
        // Some stand twice, or are too long.
        Changed(EMPTY, &[TWO, G, G, END], NO_PACKET),
        Changed(EMPTY, &[THREE, G, H, G, END], NO_PACKET),
        Changed(EMPTY, &[FOUR, ONE, G, TUPLE, TUPLE, END], NO_PACKET),
        Changed(EMPTY, &[THREE, BINARY, G, BINARY, END], NO_PACKET),
        Changed(EMPTY, &[TWO, ONE, LONG_ONE, END], NO_PACKET),
        Changed(EMPTY, &[TWO, LATIN_G, G, END], NO_PACKET),
        Changed(EMPTY, &[THREE, G, H, LATIN_G, END], NO_PACKET),
        Changed(EMPTY, &[TWO, LIST, TEXT, END], NO_PACKET),
        Changed(EMPTY, &[TWO, SEVEN, SEVEN, END], NO_PACKET),
        Changed(EMPTY, &[THREE, SEVEN, EIGHT, SEVEN, END], NO_PACKET),
        Changed(EMPTY, &[LATE, THREE, SEVEN, EIGHT, SEVEN, END], NO_PACKET),
        Changed(EMPTY, &[ALONE, LONG, ZEROS, NIL, END], NO_PACKET),
        Changed(EMPTY, &[TWO, LONG, ZEROS, NIL, G, END], NO_PACKET),
        Changed(EMPTY, &[FOUR, ONE, G, H, LONG, ZEROS, NIL, END], NO_PACKET),
    ];
    // Groups without members, named 1, 7, 8, g, h, {g}, [1] and <<"g">>; and 1, g and [1] in other forms.
    const ONE: Edit = Times(1, b"l\0\0\0\x02a\x01jj");
    const SEVEN: Edit = Times(1, b"l\0\0\0\x02a\x07jj");
    const EIGHT: Edit = Times(1, b"l\0\0\0\x02a\x08jj");
    const G: Edit = Times(1, b"l\0\0\0\x02w\x01gjj");
    const H: Edit = Times(1, b"l\0\0\0\x02w\x01hjj");
    const TUPLE: Edit = Times(1, b"l\0\0\0\x02h\x01w\x01gjj");
    const LIST: Edit = Times(1, b"l\0\0\0\x02l\0\0\0\x01a\x01jjj");
    const BINARY: Edit = Times(1, b"l\0\0\0\x02m\0\0\0\x01gjj");
    const LONG_ONE: Edit = Times(1, b"l\0\0\0\x02b\0\0\0\x01jj");
    const LATIN_G: Edit = Times(1, b"l\0\0\0\x02s\x01gjj");
    const TEXT: Edit = Times(1, b"l\0\0\0\x02k\0\x01\x01jj");
    // A text of 600 zeros, which is written as a list of more than 1,024 bytes.
    const LONG: Edit = Times(1, b"l\0\0\0\x02k\x02X");
    const ZEROS: Edit = Times(600, b"\0");
    const NIL: Edit = Times(1, b"jj");
    // The stamp that is too large, so many groups, and their end.
    const LATE: Edit = At(3, 2, b"b@\0\0\x01");
    const ALONE: Edit = At(28, 1, b"l\0\0\0\x01");
    const TWO: Edit = At(28, 1, b"l\0\0\0\x02");
    const THREE: Edit = At(28, 1, b"l\0\0\0\x03");
    const FOUR: Edit = At(28, 1, b"l\0\0\0\x04");
    const FIVE: Edit = At(28, 1, b"l\0\0\0\x05");
    const SIX: Edit = At(28, 1, b"l\0\0\0\x06");
    check(&rt, rt.alloc(), ROWS);
}

/// The names of groups, integers, and whether each stands once.
#[derive(Clone, Copy)]
struct Once(&'static [i64], bool);

impl Row for Once {
    fn told(&self, alloc: Global) -> Result<bool, MessageFault> {
        with!(
            groups(alloc, self.0),
            groups => Ok(are_told_once(alloc, &groups) == self.1 && are_named_once(&groups) == self.1)
        )
    }
}

fn groups(alloc: Global, names: &[i64]) -> Result<Vec<(Term, Items<Pid>)>, TermFault> {
    let mut groups = Vec::with_capacity(alloc, names.len())?;
    for name in names {
        groups.push((Term::Int(*name), Items::from_vec(Vec::new(alloc))))?;
    }
    Ok(groups)
}

// Whether names stand once is told whatever memory there is.
#[test]
fn names_stand_once(rt: HostRuntime) {
    const ROWS: &[Once] = &[
        Once(&[], true),
        Once(&[5, 6, 7], true),
        Once(&[7, 5, 6], true),
        Once(&[7, 5, 6, 5], false),
        Once(&[5, 5], false),
    ];
    check(&rt, rt.alloc(), ROWS);
}
