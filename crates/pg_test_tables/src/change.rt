//! Changes of a group, which are made in any table. Where memory is refused, the table is as it was, and the change is made again.

ghost use Rattle.std.specs.Prelude.{IsTrue};
ghost use Rattle.pg_group.specs.Table.{HasRoom};

use crate::samples::{Cast, either, holds, push};
use pg_group::{Ended, GroupTable, Update};
use pg_term::{Pid, Term};
use std::alloc::AllocError;
use std::process::Abort;

/// A change of one group, or of all. Pids are named by their places in a cast.
#[derive(Clone, Copy)]
pub enum Act<'a> {
    Create,
    Delete,
    Join(usize),
    Leave(usize),
    /// Takes in that another node has these members.
    Merge(&'a [usize]),
    /// Drops a pid from all groups.
    Drop(usize),
    /// Drops all pids of the node of a pid from all groups.
    DropNode(usize),
}

/// Makes changes, each of the group of its number.
pub fn perform_all<T: GroupTable>(
    rt: &impl Abort,
    table: &mut T,
    cast: &Cast,
    changes: &[(i64, Act<'_>)],
) {
    for (group, act) in changes {
        perform(rt, table, cast, *group, *act);
    }
}

/// Makes a change of the group of this number.
pub fn perform<T: GroupTable>(
    rt: &impl Abort,
    table: &mut T,
    cast: &Cast,
    group: i64,
    act: Act<'_>,
) {
    match act {
        Act::Create => put(rt, table, cast, Update::Create(Term::Int(group))),
        Act::Delete => put(rt, table, cast, Update::Delete(Term::Int(group))),
        Act::Join(place) => {
            let pid = cast.copy(rt, place);
            put(rt, table, cast, Update::Join(Term::Int(group), pid));
        }
        Act::Leave(place) => {
            let pid = cast.copy(rt, place);
            put(rt, table, cast, Update::Leave(Term::Int(group), pid));
        }
        Act::Merge(places) => merge(rt, table, cast, group, places),
        Act::Drop(place) => table.drop_pid(cast.pid(rt, place)),
        Act::DropNode(place) => table.drop_node(&cast.pid(rt, place).node),
    }
}

/// Applies an update. A refused one leaves its group, and the count there of its pid, as they were.
fn put<T: GroupTable>(rt: &impl Abort, table: &mut T, cast: &Cast, update: Update) {
    let before = seen(table, &update);
    if apply(rt, table, &update, &cast.ended).is_err() {
        holds(rt, seen(table, &update) == before, "as before");
        apply(rt, table, &update, &cast.ended).expect(rt, "again");
    }
    drop(update);
}

/// Whether the group of an update is there, and how often its pid is a member.
fn seen<T: GroupTable>(table: &T, update: &Update) -> (bool, u64) {
    match update {
        Update::Create(name) | Update::Delete(name) => (table.has(name), 0),
        Update::Join(name, pid) | Update::Leave(name, pid) => {
            (table.has(name), table.count(name, pid))
        }
    }
}

fn apply<T: GroupTable>(
    rt: &impl Abort,
    table: &mut T,
    update: &Update,
    ended: &Ended,
) -> Result<(), AllocError> {
    holds(rt, has_room(table, update), "room");
    table.apply(update, ended)
}

/// Whether the count that an update raises is below the greatest that is told.
fn has_room<T: GroupTable>(table: &T, update: &Update) -> bool
    ensures { IsTrue result → HasRoom (T.contents table.now) update.now }
{
    match update {
        Update::Join(name, pid) => table.count(name, pid) < u64::MAX,
        Update::Create(_) | Update::Delete(_) | Update::Leave(..) => true,
    }
}

fn merge<T: GroupTable>(rt: &impl Abort, table: &mut T, cast: &Cast, group: i64, places: &[usize]) {
    let mut told = Vec::new(cast.alloc);
    for place in places {
        push(rt, &mut told, cast.copy(rt, *place));
    }
    let name = Term::Int(group);
    merge_told(rt, table, &name, &told, &cast.ended);
    drop(name);
    drop(told);
}

/// Takes in that another node has these members of a group. A refused merge raises no count above what was told.
pub fn merge_told<T: GroupTable>(
    rt: &impl Abort,
    table: &mut T,
    name: &Term,
    told: &[Pid],
    ended: &Ended,
) {
    let before = most(table, name, told);
    if table.merge(name, told, ended).is_err() {
        holds(rt, most(table, name, told) == before, "not above");
        table.merge(name, told, ended).expect(rt, "again");
    }
}

/// How often one of these pids is a member at most, or how many were told.
fn most<T: GroupTable>(table: &T, name: &Term, told: &[Pid]) -> u64 {
    let mut most = told.len() as u64;
    for pid in told {
        most = most.max(table.count(name, pid));
    }
    most
}

/// Whether a table names so many groups, and has each.
pub fn has_groups<T: GroupTable>(rt: &impl Abort, table: &T, count: usize) -> bool {
    let names = either(rt, table.groups(), table.groups());
    let has_groups = names.len() == count && has_all(table, &names);
    drop(names);
    has_groups
}

fn has_all<T: GroupTable>(table: &T, names: &[Term]) -> bool {
    for name in names {
        if !table.has(name) {
            return false;
        }
    }
    true
}
