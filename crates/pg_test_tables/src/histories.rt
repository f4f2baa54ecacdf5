//! All small histories, each answer compared with a slow reading of the rules.

use crate::answers::group_is;
use crate::change::{Act, has_groups, perform};
use crate::reading::Reading;
use crate::samples::{Cast, holds};
use crate::trial::{Trial, on_both};
use pg_group::GroupTable;
use std::alloc::Global;
use std::process::Abort;

/// All updates of two groups by two pids.
const UPDATES: &[(i64, Act<'static>)] = &[
    (1, Act::Create),
    (2, Act::Create),
    (1, Act::Delete),
    (2, Act::Delete),
    (1, Act::Join(0)),
    (1, Act::Join(1)),
    (2, Act::Join(0)),
    (2, Act::Join(1)),
    (1, Act::Leave(0)),
    (1, Act::Leave(1)),
    (2, Act::Leave(0)),
    (2, Act::Leave(1)),
];

/// Updates of one group, merges and drops.
const MIXED: &[(i64, Act<'static>)] = &[
    (1, Act::Create),
    (1, Act::Delete),
    (1, Act::Join(0)),
    (1, Act::Join(1)),
    (1, Act::Leave(0)),
    (2, Act::Join(0)),
    (1, Act::Merge(&[])),
    (1, Act::Merge(&[1, 0, 0])),
    (2, Act::Merge(&[0])),
    (2, Act::Merge(&[1, 1, 1])),
    (1, Act::Drop(0)),
    (1, Act::Drop(1)),
    (1, Act::DropNode(0)),
];

#[test]
fn agree_in_all_histories(rt: HostRuntime) {
    on_both(&rt, rt.alloc(), &[Trial::Histories]);
}

/// An empty table answers as the rules say after each step of all histories of up to five updates, and of up to four updates,
/// merges and drops; and of up to four of either, where the process of the first pid has ended.
pub fn agrees<T: GroupTable + Drop>(rt: &impl Abort, alloc: Global, empty: &T) {
    let mut cast = Cast::new(rt, alloc, &[("a", 1, 2), ("b", 1, 2)]);
    let mut reading = Reading {
        first: None,
        second: None,
        first_ended: false,
    };
    walk(rt, UPDATES, empty, &cast, &reading, 5);
    walk(rt, MIXED, empty, &cast, &reading, 4);
    cast.end(rt, 0);
    reading.first_ended = true;
    walk(rt, UPDATES, empty, &cast, &reading, 4);
    walk(rt, MIXED, empty, &cast, &reading, 4);
    drop(cast);
}

/// The table agrees, and after each way to go on by at most `left` steps.
fn walk<T: GroupTable + Drop>(
    rt: &impl Abort,
    steps: &[(i64, Act<'_>)],
    table: &T,
    cast: &Cast,
    reading: &Reading,
    left: u32,
) {
    let pids = (cast.pid(rt, 0), cast.pid(rt, 1));
    let first = group_is(cast.alloc, table, pids, 1, reading.first);
    holds(rt, first, "first");
    let second = group_is(cast.alloc, table, pids, 2, reading.second);
    holds(rt, second, "second");
    holds(rt, has_groups(rt, table, reading.group_count()), "groups");
    if left == 0 {
        return;
    }
    for (group, act) in steps {
        let mut next = table.copy().expect(rt, "copy");
        perform(rt, &mut next, cast, *group, *act);
        let after = reading.after(*group, *act);
        walk(rt, steps, &next, cast, &after, left - 1);
        drop(next);
    }
}
