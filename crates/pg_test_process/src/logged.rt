//! What is logged.

use crate::sights::holds_at;
use pg_node_process::{Head, Journal, Mark};
use pg_term::Atom;
use std::alloc::{AllocError, Global};

/// The head `{1, "0.1", a, [b], 2, 0, "run"}`, the body of a tick, a change of port 2 that was handed over, and one of port 1 that was tried.
const LOGGED: &[u8] =
    b"\0\0\0\x25\x83h\x07a\x01m\0\0\0\x030.1w\x01al\0\0\0\x01w\x01bja\x02a\0m\0\0\0\x03run\0\0\0\x01\x10\xff\x02\0\x02\xff\x01\0\x01";

/// Logs one after the other.
fn log_all(alloc: Global, journal: &mut Journal, names: &[Atom]) -> Result<(), AllocError> {
    if names.len() != 2 {
        return Ok(());
    }
    let head = Head {
        version: b"0.1",
        own: &names[0],
        peers: &names[1..],
        ports: 2,
        made: 0,
        label: b"run",
    };
    journal.put_head(alloc, head)?;
    journal.put_body(b"\x10")?;
    journal.put_mark(Mark::Handed(2))?;
    journal.put_mark(Mark::Tried(1))
}

/// The names a and b.
fn names(alloc: Global) -> Result<Vec<Atom>, AllocError> {
    let mut names = Vec::with_capacity(alloc, 2)?;
    for text in ["a", "b"] {
        match Atom::new(alloc, text) {
            Ok(name) => names.push(name)?,
            Err(_) => return Err(AllocError),
        }
    }
    Ok(names)
}

/// Whether it is gathered so.
fn is_logged(alloc: Global) -> Result<bool, AllocError> {
    let names = names(alloc)?;
    let mut journal = Journal::new(alloc);
    let logged = log_all(alloc, &mut journal, names.as_slice());
    drop(names);
    let is_so = journal.bytes() == LOGGED;
    journal.clear();
    let is_empty = journal.bytes().is_empty();
    drop(journal);
    logged?;
    Ok(is_so && is_empty)
}

#[test]
fn what_is_logged_is_gathered(rt: HostRuntime) {
    holds_at(&rt, is_logged(rt.alloc()) == Ok(true), "it is logged at", 0);
}
