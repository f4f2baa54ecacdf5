//! Who has ended. Each test passes wherever an allocation is refused.

use crate::pids::{pid_at, pids_of};
use crate::verdicts::holds;
use pg_group::Ended;
use pg_term::Pid;
use std::alloc::{AllocError, Global};
use std::process::Abort;

/// The pids that the ends are about.
const PIDS: &[(&str, u32, u32)] = &[("a", 1, 3), ("b", 1, 3)];

/// The end of a pid, by its place, or the loss of its node.
#[derive(Clone, Copy)]
enum End {
    Pid(usize),
    Node(usize),
}

/// An end that is put in the first or in the second, whether both are the same then, and which of the pids have ended there.
type Row = (bool, End, bool, u32);

/// The ended are compared as pids, however they were put in: a pid of a lost node counts once.
const ENDS: &[&[Row]] = &[
    &[
        (true, End::Pid(0), false, 0b1000),
        (true, End::Pid(3), false, 0b1001),
        (false, End::Pid(3), false, 0b0001),
        (false, End::Pid(0), true, 0b1001),
        (true, End::Node(0), false, 0b1101),
        (false, End::Node(0), true, 0b1101),
    ],
    &[
        (true, End::Node(0), false, 0b1100),
        (false, End::Pid(3), false, 0b0001),
        (false, End::Node(0), false, 0b1101),
        (true, End::Pid(0), false, 0b1100),
        (true, End::Pid(3), true, 0b1101),
    ],
];

#[test]
fn same_have_ended(rt: HostRuntime) {
    let pids = pids_of(&rt, rt.alloc(), PIDS);
    for rows in ENDS {
        check_rows(&rt, rt.alloc(), &pids, rows);
    }
    drop(pids);
}

fn check_rows(rt: &impl Abort, alloc: Global, pids: &[Pid], rows: &[Row]) {
    let mut first = Ended::new(alloc);
    let mut second = Ended::new(alloc);
    holds(rt, first.same(&second), "none of", 2);
    for (place, row) in rows.iter().enumerate() {
        let is_so = if row.0 {
            is_row(rt, pids, &mut first, &second, row)
        } else {
            is_row(rt, pids, &mut second, &first, row)
        };
        holds(rt, is_so, "row", place);
    }
    drop(first);
    drop(second);
}

fn is_row(rt: &impl Abort, pids: &[Pid], one: &mut Ended, other: &Ended, row: &Row) -> bool {
    let (_, end, is_same, have_ended) = *row;
    let before = (one.same(other), have(one, pids));
    if put(rt, one, pids, end).is_err() {
        let after = (one.same(other), have(one, pids));
        holds(rt, after == before, "as before, pids:", pids.len());
        put(rt, one, pids, end).expect(rt, "again");
    }
    (one.same(other), other.same(one), have(one, pids)) == (is_same, is_same, have_ended)
}

/// A refused end changes nothing.
fn put(rt: &impl Abort, ended: &mut Ended, pids: &[Pid], end: End) -> Result<(), AllocError> {
    match end {
        End::Pid(place) => {
            let pid = pid_at(rt, pids, place);
            ended.add(pid.copy().or(pid.copy()).expect(rt, "a copy"))
        }
        End::Node(place) => ended.add_node(&pid_at(rt, pids, place).node),
    }
}

/// Which of the pids have ended, a bit for each.
fn have(ended: &Ended, pids: &[Pid]) -> u32 {
    let mut have = 0;
    for pid in pids {
        have = u32::wrapping_mul(have, 2) | u32::from(ended.has(pid));
    }
    have
}

/// Of a node, by the place of a pid of it: the pids that have ended one by one, from one place up to another.
const LISTED: &[(usize, (usize, usize))] = &[(0, (0, 1)), (1, (1, 3)), (3, (0, 0))];

/// Of the ended pids those of one node are listed in their order, and a node that was put in as a whole adds none to them.
#[test]
fn ended_of_a_node(rt: HostRuntime) {
    let rows = [("a", 9, 10), ("b", 2, 3), ("b", 7, 8), ("c", 1, 2)];
    let pids = pids_of(&rt, rt.alloc(), &rows);
    let mut ended = Ended::new(rt.alloc());
    for place in [2, 0, 1] {
        put_twice(&rt, &mut ended, &pids, End::Pid(place));
    }
    for (place, range) in LISTED {
        are_listed(&rt, rt.alloc(), &ended, &pids, *place, *range, false);
    }
    holds(&rt, ended.count() == 3, "counted", 3);
    put_twice(&rt, &mut ended, &pids, End::Pid(0));
    put_twice(&rt, &mut ended, &pids, End::Node(1));
    holds(&rt, ended.count() == 3, "counted behind a second end", 3);
    are_listed(&rt, rt.alloc(), &ended, &pids, 1, (1, 3), true);
    drop(ended);
    drop(pids);
}

/// Puts an end in, once more where memory was refused.
fn put_twice(rt: &impl Abort, ended: &mut Ended, pids: &[Pid], end: End) {
    if put(rt, ended, pids, end).is_err() {
        put(rt, ended, pids, end).expect(rt, "again");
    }
}

/// Of the node of the pid at a place these have ended one by one, and the node has ended as a whole, or not.
fn are_listed(
    rt: &impl Abort,
    alloc: Global,
    ended: &Ended,
    pids: &[Pid],
    place: usize,
    (from, to): (usize, usize),
    is_whole: bool,
) {
    let node = &pid_at(rt, pids, place).node;
    let listed = ended.pids_of(alloc, node).or(ended.pids_of(alloc, node));
    let listed = listed.expect(rt, "a list");
    let is_range = pids.get(from..to) == Some(listed.as_slice());
    drop(listed);
    holds(rt, is_range, "the list of", place);
    holds(rt, ended.has_node(node) == is_whole, "its node:", place);
}

/// So many pids of a node end, from the last to the first, that their numbers are split. Where memory is refused for one, it has not ended,
/// and ends when it is asked for again.
#[test]
fn many_ended_of_a_node(rt: HostRuntime) {
    let pids = pids_of(&rt, rt.alloc(), &[("a", 0, 520)]);
    let mut ended = Ended::new(rt.alloc());
    for place in 0..pids.len() {
        ends_once(&rt, &mut ended, &pids, 519usize.saturating_sub(place));
    }
    are_listed(&rt, rt.alloc(), &ended, &pids, 0, (0, 520), false);
    let copy = ended.copy(rt.alloc()).or(ended.copy(rt.alloc()));
    let copy = copy.expect(&rt, "a copy");
    holds(
        &rt,
        copy.same(&ended) && ended.same(&copy),
        "a copy of",
        520,
    );
    drop(copy);
    drop(ended);
    drop(pids);
}

fn ends_once(rt: &impl Abort, ended: &mut Ended, pids: &[Pid], place: usize) {
    if put(rt, ended, pids, End::Pid(place)).is_err() {
        holds(rt, !ended.has(pid_at(rt, pids, place)), "not ended:", place);
        put(rt, ended, pids, End::Pid(place)).expect(rt, "again");
    }
    holds(rt, ended.has(pid_at(rt, pids, place)), "ended:", place);
}
