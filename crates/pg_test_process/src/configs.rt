//! How a process may begin.

use crate::sights::holds_at;
use pg_node_process::ProcessConfig;
use pg_term::Atom;
use std::alloc::{AllocError, Global};

/// Names, the own one first, how many ports there are and processes were made, and how long the label is.
#[derive(Clone, Copy)]
struct Given<'a> {
    names: &'a [&'a str],
    ports: u16,
    made: u32,
    label: usize,
}

/// What is given, and whether a process can begin so.
const ROWS: &[(Given, bool)] = &[
    (
        Given {
            names: &["a"],
            ports: 1,
            made: 0,
            label: 0,
        },
        true,
    ),
    (
        Given {
            names: &["b", "c", "a"],
            ports: 64,
            made: 268_435_455,
            label: 255,
        },
        true,
    ),
    (
        Given {
            names: &["a", "b"],
            ports: 0,
            made: 0,
            label: 0,
        },
        false,
    ),
    (
        Given {
            names: &["a", "b"],
            ports: 65,
            made: 0,
            label: 0,
        },
        false,
    ),
    (
        Given {
            names: &["a", "b"],
            ports: 1,
            made: 268_435_456,
            label: 0,
        },
        false,
    ),
    (
        Given {
            names: &["a", "b"],
            ports: 1,
            made: 0,
            label: 256,
        },
        false,
    ),
    (
        Given {
            names: &["a", "b", "a"],
            ports: 1,
            made: 0,
            label: 0,
        },
        false,
    ),
    (
        Given {
            names: &["a", "b", "c", "b"],
            ports: 1,
            made: 0,
            label: 0,
        },
        false,
    ),
    (
        Given {
            names: &[
                "a", "b", "c", "d", "e", "f", "g", "h", "i", "j", "k", "l", "m", "n", "o", "p",
            ],
            ports: 1,
            made: 0,
            label: 0,
        },
        true,
    ),
    (
        Given {
            names: &[
                "a", "b", "c", "d", "e", "f", "g", "h", "i", "j", "k", "l", "m", "n", "o", "p", "q",
            ],
            ports: 1,
            made: 0,
            label: 0,
        },
        false,
    ),
];

/// The atom of a text.
fn atom(alloc: Global, text: &str) -> Result<Atom, AllocError> {
    match Atom::new(alloc, text) {
        Ok(atom) => Ok(atom),
        Err(_) => Err(AllocError),
    }
}

/// All names but the first.
fn peers(alloc: Global, names: &[&str]) -> Result<Vec<Atom>, AllocError> {
    let mut peers = Vec::with_capacity(alloc, names.len())?;
    for place in 1..names.len() {
        peers.push(atom(alloc, names[place])?)?;
    }
    Ok(peers)
}

/// The first of some names.
fn first_of<'a>(names: &[&'a str]) -> &'a str {
    match names.first() {
        Some(name) => name,
        None => "",
    }
}

/// Whether a process can begin so.
fn told(alloc: Global, given: Given<'_>) -> Result<bool, AllocError> {
    let peers = peers(alloc, given.names)?;
    let label = Vec::from_elem(alloc, 7, given.label)?;
    let own = atom(alloc, first_of(given.names))?;
    let config = ProcessConfig {
        own,
        peers,
        ports: given.ports,
        made: given.made,
        label,
        mirrored: false,
    };
    let is_valid = config.is_valid();
    drop(config);
    Ok(is_valid)
}

#[test]
fn configurations_are_judged(rt: HostRuntime) {
    for place in 0..ROWS.len() {
        let (given, can_begin) = ROWS[place];
        let is_so = told(rt.alloc(), given) == Ok(can_begin);
        holds_at(&rt, is_so, "whether it can begin, in row", place);
    }
}
