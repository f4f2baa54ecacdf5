//! Texts of terms, from outside and both ways.

use crate::rows::holds;
use pg_term::Term;
use pg_text::{TextFault, read_atom, read_number, read_pid, read_term, write_term};
use std::alloc::Global;
use std::process::Abort;
use std::test::*;

// Texts that are printed as they are read, a bar between them.
const TERMS: &[&str] = &[
    r"0|-1|9223372036854775807|-9223372036854775808|g|aB9_@",
    r"''|'A'|'a b'|'\''|'\\'|'\x{a}'|'\x{7f}'|'é'",
    r"<a.1.0>|<a.1.0/2>|<'n 1'.4294967295.8191/0>|#<a/1.0>|#<a/1.0.1.2>",
    r"{}|{1}|[]|[1,a]|{[],[{x}],'$1'}|<<>>|<<1,255>>",
];

// Texts that are no terms. The first is empty.
const NO_TERMS: &[&str] = &[
    r"|-0|01|-|9223372036854775808|-9223372036854775809|A|'a'",
    r"'\x{61}'|'\x{0a}'|'\x{A}'|'\x{}'|'\x{d800}'|'\x{110000}'|'\n'|'|'a b|a b",
    r"<a.1.0/1>|<a.1>|<a.01.0>|<a.1.0|#<a/1>|#<a/1.0.1.2.3>",
    r"[1,]|[1|[,1]|{1|<<256>>|<<1,>>|<<1>|1 | 1|[1, 2]|1,2|{a,'b c',<a.1.0>,[x,#<a/1.0>],Y}",
];

// Texts that are no atoms, no pids, and no numbers of 32 bits. The first of each is empty.
const NO_ATOMS: &[&str] = &[r"|A|1|a b|'a'|'ab c|'a b' |'\x{d800}'|[]"];

const NO_PIDS: &[&str] = &[r"|a|<a.1>|<a.1.0/1>|<'a'.1.0>|<'a b'.1.0|<'a b'.1.0> |{<a.1.0>}"];

const NO_NUMBERS: &[&str] = &[r"|-1|01|4294967296|a|1 |1a"];

// What a text is read as.
#[derive(Clone, Copy)]
enum Kind {
    Term,
    Atom,
    Pid,
    Number,
}

// Whether a term is printed as this text.
fn is_printed(alloc: Global, term: &Term, shown: &str) -> Result<bool, TextFault> {
    let mut out = String::new(alloc);
    write_term(term, &mut out)?;
    Ok(out.as_str() == shown)
}

// Whether the term that a text spells is printed as this one.
fn is_shown(alloc: Global, text: &str, shown: &str) -> Result<bool, TextFault> {
    with!(read_term(alloc, text), term => is_printed(alloc, &term, shown))
}

// The text is shown so. Where memory was refused it is read a second time.
fn check_text(rt: &impl Abort, alloc: Global, text: &str, shown: &str) {
    let told = match is_shown(alloc, text, shown) {
        Err(TextFault::OutOfMemory) => is_shown(alloc, text, shown),
        told => told,
    };
    holds(rt, told == Ok(true), text);
}

// What a text is told of that is read as a term, an atom, a pid or a number.
fn is_bad(alloc: Global, text: &str, kind: Kind) -> bool {
    let fault = match kind {
        Kind::Term => read_term(alloc, text).err(),
        Kind::Atom => read_atom(alloc, text).err(),
        Kind::Pid => read_pid(alloc, text).err(),
        Kind::Number => read_number(text).err(),
    };
    fault == Some(TextFault::BadText)
}

// Each of the texts is bad, at the first time, whichever growth of memory is refused.
fn check_bad(rt: &impl Abort, alloc: Global, rows: &[&str], kind: Kind) {
    for row in rows {
        for text in row.split('|') {
            holds(rt, is_bad(alloc, text, kind), text);
        }
    }
}

#[test]
fn texts_are_printed_as_they_are_read(rt: HostRuntime) {
    for row in TERMS {
        for text in row.split('|') {
            check_text(&rt, rt.alloc(), text, text);
        }
    }
    check_text(&rt, rt.alloc(), r"'\x{e9}'", "'é'");
    holds(&rt, read_number("4294967295") == Ok(u32::MAX), "number");
}

#[test]
fn bad_texts_are_told_also_where_memory_is_refused(rt: HostRuntime) {
    check_bad(&rt, rt.alloc(), NO_TERMS, Kind::Term);
    check_bad(&rt, rt.alloc(), NO_ATOMS, Kind::Atom);
    check_bad(&rt, rt.alloc(), NO_PIDS, Kind::Pid);
    check_bad(&rt, rt.alloc(), NO_NUMBERS, Kind::Number);
}
