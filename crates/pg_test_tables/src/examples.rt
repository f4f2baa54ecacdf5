//! Worked examples, each of which is run on both kinds of tables. Each test passes wherever an allocation is refused.

use crate::change::Act::{self, *};
use crate::change::perform_all;
use crate::queries::{FILLED, PIDS, READINGS, Reading, are_read};
use crate::samples::Cast;
use crate::trial::{Trial, on_both};
use pg_group::GroupTable;
use std::alloc::Global;
use std::process::Abort;

/// The pids that have ended before, by their places in the cast; what is made of an empty table; and what is read of it then.
pub type Example = (
    &'static [usize],
    &'static [(i64, Act<'static>)],
    &'static [Reading],
);

/// A pid that joined twice and left once is a member once.
const JOIN_TWICE_LEAVE_ONCE: Example = (
    &[],
    &[(7, Create), (7, Join(0)), (7, Join(0)), (7, Leave(0))],
    &[(7, "a", (0, 1), (0, 1), &[(0, Some(1)), (5, Some(1))])],
);

/// Two nodes tell of one group at first: of each pid the greater count stays.
const INITIAL_TABLES: Example = (
    &[],
    &[(7, Merge(&[0, 1, 2])), (7, Merge(&[1, 3]))],
    &[(7, "b", (0, 4), (3, 4), &[(0, Some(9))])],
);

/// A process ends while its join is on the way: the join adds nothing.
const END_BEATS_LATE_JOIN: Example = (
    &[0],
    &[(7, Create), (7, Join(0)), (7, Join(3))],
    &[(7, "a", (3, 4), (0, 0), &[(0, Some(9)), (4, Some(9))])],
);

/// A local member is closest where there is one, else any.
const CLOSEST_MEMBER: Example = (&[], FILLED, READINGS);

/// A pid is dropped from all of its groups at once; the groups stay.
const DROP_FROM_MANY_GROUPS: Example = (
    &[],
    &[
        (3, Create),
        (3, Join(0)),
        (7, Create),
        (7, Join(0)),
        (7, Join(0)),
        (7, Join(3)),
        (3, Drop(0)),
    ],
    &[
        (3, "a", (0, 0), (0, 0), &[(0, None)]),
        (7, "a", (3, 4), (0, 0), &[(1, Some(9))]),
    ],
);

const EXAMPLES: &[Trial] = &[
    Trial::Example(&JOIN_TWICE_LEAVE_ONCE),
    Trial::Example(&INITIAL_TABLES),
    Trial::Example(&END_BEATS_LATE_JOIN),
    Trial::Example(&CLOSEST_MEMBER),
    Trial::Example(&DROP_FROM_MANY_GROUPS),
];

#[test]
fn worked_examples(rt: HostRuntime) {
    on_both(&rt, rt.alloc(), EXAMPLES);
}

/// What an example makes of a table is read of it.
pub fn is_so<T: GroupTable>(
    rt: &impl Abort,
    alloc: Global,
    table: &mut T,
    (ended, changes, readings): &Example,
) {
    let mut cast = Cast::new(rt, alloc, PIDS);
    cast.end_all(rt, ended);
    perform_all(rt, table, &cast, changes);
    are_read(rt, table, &cast, readings);
    drop(cast);
}
