//! Lists of groups and members, and the closest member. Each test passes wherever an allocation is refused.

use crate::change::Act::{self, *};
use crate::change::perform_all;
use crate::samples::{Cast, atom, either, holds, row_holds};
use crate::trial::{Trial, on_both};
use pg_group::{GroupTable, RowTable};
use pg_index::IndexTable;
use pg_query::{QueryFault, closest, local_members, members, same_groups, which_groups};
use pg_term::{Atom, Items, Pid, Term};
use std::alloc::Global;
use std::process::Abort;

/// The members of the group 7, in their order.
pub const PIDS: &[(&str, u32, u32)] = &[("a", 1, 3), ("a", 2, 3), ("b", 9, 10)];

/// The group 7 has two members on node a, one of them twice, and one on node b; the group 3 has none.
pub const FILLED: &[(i64, Act<'static>)] = &[(7, Merge(&[3, 1, 0, 1])), (3, Merge(&[]))];

/// What is made of a second table, and whether it says the same then.
const OTHERS: &[(&[(i64, Act<'static>)], bool)] = &[
    (FILLED, true),
    (&[(7, Merge(&[3, 1, 0, 0])), (3, Merge(&[]))], false),
    (&[(8, Merge(&[3, 1, 0, 1])), (3, Merge(&[]))], false),
    (
        &[(7, Merge(&[3, 1, 0, 1])), (3, Merge(&[])), (3, Delete)],
        false,
    ),
];

const QUERIES: &[Trial] = &[Trial::SameTables, Trial::NamesInOrder];

#[test]
fn tables_are_read(rt: HostRuntime) {
    on_both(&rt, rt.alloc(), QUERIES);
    holds(&rt, QueryFault::NoSuchGroup.number() == 20, "number");
}

/// Tables are compared by what they say, whichever keeps it: the names of both, and of each the members as often.
pub fn compares<T: GroupTable>(rt: &impl Abort, alloc: Global, table: &mut T) {
    let cast = Cast::new(rt, alloc, PIDS);
    perform_all(rt, table, &cast, FILLED);
    for (changes, is_same) in OTHERS {
        let mut rows = RowTable::new(alloc);
        compares_with(rt, table, &mut rows, &cast, changes, *is_same);
        drop(rows);
        let mut index = IndexTable::new(alloc);
        compares_with(rt, table, &mut index, &cast, changes, *is_same);
        drop(index);
    }
    drop(cast);
}

/// Whether a table says the same as another, of which something is made, and the other the same as it.
fn compares_with<S: GroupTable, T: GroupTable>(
    rt: &impl Abort,
    table: &S,
    other: &mut T,
    cast: &Cast,
    changes: &[(i64, Act<'_>)],
    is_same: bool,
) {
    perform_all(rt, other, cast, changes);
    let first = same_groups(cast.alloc, table, other);
    let same = either(rt, first, same_groups(cast.alloc, table, other));
    holds(rt, same == is_same, "same");
    let first = same_groups(cast.alloc, other, table);
    let same = either(rt, first, same_groups(cast.alloc, other, table));
    holds(rt, same == is_same, "same");
}

/// What a group has at a node: its members from one place of the cast up to another, the local ones among them, and the id of the pid
/// that each word picks: a local one, or one of all where there is none.
pub type Reading = (
    i64,
    &'static str,
    (usize, usize),
    (usize, usize),
    &'static [(u32, Option<u32>)],
);

const LOCAL: &[(u32, Option<u32>)] = &[(0, Some(1)), (2, Some(2)), (3, Some(1))];

pub const READINGS: &[Reading] = &[
    (7, "a", (0, 4), (0, 3), LOCAL),
    (7, "b", (0, 4), (3, 4), &[(5, Some(9))]),
    (7, "c", (0, 4), (0, 0), &[(3, Some(9)), (4, Some(1))]),
    (3, "a", (0, 0), (0, 0), &[(0, None)]),
];

pub fn are_read<T: GroupTable>(rt: &impl Abort, table: &T, cast: &Cast, readings: &[Reading]) {
    for (place, reading) in readings.iter().enumerate() {
        let name = Term::Int(reading.0);
        let own = atom(rt, cast.alloc, reading.1);
        let is_read = is_read(rt, table, cast, &name, &own, reading);
        drop(own);
        drop(name);
        row_holds(rt, is_read, place);
    }
}

fn is_read<T: GroupTable>(
    rt: &impl Abort,
    table: &T,
    cast: &Cast,
    name: &Term,
    own: &Atom,
    reading: &Reading,
) -> bool {
    let first = members(cast.alloc, table, name);
    let listed = either(rt, first, members(cast.alloc, table, name));
    let first = local_members(cast.alloc, table, own, name);
    let local = either(rt, first, local_members(cast.alloc, table, own, name));
    let is_listed = is_range(listed, &cast.pids, reading.2);
    is_range(local, &cast.pids, reading.3) && is_listed && are_picked(table, own, name, reading.4)
}

/// Whether these are the pids from one place up to another.
fn is_range(listed: Items<Pid>, pids: &[Pid], (from, to): (usize, usize)) -> bool {
    let is_range = pids.get(from..to) == Some(listed.as_slice());
    drop(listed);
    is_range
}

/// Whether each word picks the pid with its id from a group, or nobody.
fn are_picked<T: GroupTable>(
    table: &T,
    own: &Atom,
    name: &Term,
    words: &[(u32, Option<u32>)],
) -> bool {
    for (word, id) in words {
        let is_picked = match closest(table, own, name, *word) {
            Ok(pid) => *id == Some(pid.id),
            Err(fault) => id.is_none() && fault == QueryFault::NoMember,
        };
        if !is_picked {
            return false;
        }
    }
    true
}

/// The groups are named in their order, and one that is absent has no members.
pub fn names_in_order<T: GroupTable>(rt: &impl Abort, alloc: Global, table: &mut T) {
    let cast = Cast::new(rt, alloc, PIDS);
    perform_all(rt, table, &cast, FILLED);
    drop(cast);
    holds(rt, is_absent(alloc, table, Term::Int(5)), "absent");
    let names = either(rt, which_groups(table), which_groups(table));
    holds(rt, are_named(names, 3, 7), "names");
}

fn is_absent<T: GroupTable>(alloc: Global, table: &T, name: Term) -> bool {
    let fault = members(alloc, table, &name).err();
    drop(name);
    fault == Some(QueryFault::NoSuchGroup)
}

fn are_named(names: Items<Term>, first: i64, second: i64) -> bool {
    let are_named = match names.as_slice() {
        [Term::Int(one), Term::Int(two)] => *one == first && *two == second,
        _ => false,
    };
    drop(names);
    are_named
}
