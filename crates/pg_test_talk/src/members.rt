//! What nodes know as they start.

use crate::verdicts::holds_at;
use pg_talk::{ServiceFault, config_of, node_names};
use pg_world::Config;
use std::alloc::Global;

/// Texts, and of how many groups of the first node they tell; none where they tell of no members.
const ROWS: &[(&str, Option<usize>)] = &[
    ("[]", Some(0)),
    ("[{n1,3,[]}]", Some(0)),
    (
        "[{n2,1,[]},{n1,3,[{g,[<n1.1.0>,<n1.1.0>]},{[h],[]}]}]",
        Some(2),
    ),
    ("", None),
    ("n1", None),
    ("[n1]", None),
    ("[{n1,3}]", None),
    ("[{n1,-1,[]}]", None),
    ("[{n1,4294967296,[]}]", None),
    ("[{n3,3,[]}]", None),
    ("[{n1,3,[]},{n1,3,[]}]", None),
    ("[{n1,3,[g]}]", None),
    ("[{n1,3,[{g,[h]}]}]", None),
    ("[{n1,3,[{g,<n1.1.0>}]}]", None),
];

/// How many groups the first node knows.
fn group_count(config: &Config) -> usize {
    match config.starts.first() {
        Some(start) => start.groups.len(),
        None => 0,
    }
}

/// What a text of members comes to.
fn told(alloc: Global, text: &str) -> Result<usize, ServiceFault> {
    let names = node_names(alloc, 2)?;
    let config = config_of(alloc, names.as_slice(), 1, text);
    drop(names);
    let config = config?;
    let count = group_count(&config);
    drop(config);
    Ok(count)
}

#[test]
fn members_are_read(rt: HostRuntime) {
    for place in 0..ROWS.len() {
        let (text, count) = ROWS[place];
        let is_so = match count {
            Some(count) => told(rt.alloc(), text) == Ok(count),
            None => told(rt.alloc(), text) == Err(ServiceFault::BadText),
        };
        holds_at(&rt, is_so, "members of row", place as u64);
    }
}
