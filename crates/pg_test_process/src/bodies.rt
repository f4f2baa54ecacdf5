//! What bodies of the input ask for.

use crate::sights::holds_at;
use pg_node_process::{Body, Parties};
use pg_term::Atom;
use std::alloc::{AllocError, Global};

/// Bodies of node a, which has two ports and two peers, and what they ask for: the number by which `kind` has it, and a place.
const ROWS: &[(&[u8], u8, usize)] = &[
    (b"", BAD, 0),
    (b"\0", BYTES, 0),
    (b"\x01xyz", BYTES, 1),
    (b"\x02xyz", BAD, 0),
    (b"\x0f", BAD, 0),
    (b"\x10", TICK, 0),
    (b"\x10\0", BAD, 0),
    (b"\x11", CLOCK, 0),
    (b"\x11\0", BAD, 0),
    (b"\x12\0\0\0\0\0", BAD, 0),
    (b"\x13\x01", DENIED, 0),
    (b"\x13\x02", DENIED, 1),
    (b"\x13\0", BAD, 0),
    (b"\x13\x03", BAD, 0),
    (b"\x13", BAD, 0),
    (b"\x13\x01\x01", BAD, 0),
    (b"\x14\x83j", GROUPS, 0),
    (b"\x14", GROUPS, 0),
    (b"\x15", BAD, 0),
    (b"\xff", BAD, 0),
    // {a, 1, make}, {a, 2, make}
    (b"\x83h\x03w\x01aa\x01w\x04make", ASK, 0),
    (b"\x83h\x03w\x01aa\x02w\x04make", ASK, 1),
    // A port that is not there, another node, no command, a loss, a cut term and a byte behind one.
    (b"\x83h\x03w\x01aa\x03w\x04make", BAD, 0),
    (b"\x83h\x03w\x01aa\0w\x04make", BAD, 0),
    (b"\x83h\x03w\x01ba\x01w\x04make", BAD, 0),
    (b"\x83h\x03w\x01aa\x01w\x04mare", BAD, 0),
    (b"\x83h\x02w\x04losew\x01a", BAD, 0),
    (b"\x83h\x03w\x01aa\x01w\x04mak", BAD, 0),
    (b"\x83h\x03w\x01aa\x01w\x04make\0", BAD, 0),
];

const BAD: u8 = 0;

const BYTES: u8 = 1;

const ASK: u8 = 2;

const TICK: u8 = 3;

const CLOCK: u8 = 4;

const DENIED: u8 = 5;

const GROUPS: u8 = 6;

/// What a body asks for, as a number and a place.
fn kind(body: &Body) -> (u8, usize) {
    match body {
        Body::Bad => (BAD, 0),
        Body::Bytes(peer) => (BYTES, *peer),
        Body::Ask { port, command: _ } => (ASK, *port),
        Body::Tick => (TICK, 0),
        Body::Clock => (CLOCK, 0),
        Body::Denied(port) => (DENIED, *port),
        Body::Groups => (GROUPS, 0),
    }
}

/// The parties of node a.
fn parties(alloc: Global) -> Result<Parties, AllocError> {
    match Atom::new(alloc, "a") {
        Ok(name) => Parties::new(alloc, name, 2, 2),
        Err(_) => Err(AllocError),
    }
}

/// What a body asks for, where there is memory to read it.
fn told(alloc: Global, body: &[u8]) -> Result<(u8, usize), AllocError> {
    let parties = parties(alloc)?;
    let read = parties.read(alloc, body);
    drop(parties);
    let body = read?;
    let told = kind(&body);
    drop(body);
    Ok(told)
}

#[test]
fn bodies_are_read(rt: HostRuntime) {
    for place in 0..ROWS.len() {
        let (body, number, at) = ROWS[place];
        let is_so = told(rt.alloc(), body) == Ok((number, at));
        holds_at(&rt, is_so, "what is asked for in row", place);
    }
}
