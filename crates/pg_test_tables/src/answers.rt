//! What a table answers.

use crate::reading::Counts;
use pg_group::{GroupTable, Scope};
use pg_query::{QueryFault, members};
use pg_term::{Items, Pid, Term};
use std::alloc::Global;

/// Whether a table answers as the rules say, in all that can be asked of a group: each of the two pids, which are the only ones of
/// their nodes, is so often a member.
pub fn group_is<T: GroupTable>(
    alloc: Global,
    table: &T,
    pids: (&Pid, &Pid),
    group: i64,
    counts: Counts,
) -> bool {
    let name = Term::Int(group);
    let is_so = table.has(&name) == counts.is_some()
        && members_are(table, pids, &name, counts.unwrap_or((0, 0)))
        && lists_so(alloc, table, pids, &name, counts);
    drop(name);
    is_so
}

/// Whether each of the two is so often a member, and stands at so many places: in the group, and on its node.
fn members_are<T: GroupTable>(
    table: &T,
    (one, two): (&Pid, &Pid),
    name: &Term,
    (a, b): (u64, u64),
) -> bool {
    let all = a.saturating_add(b);
    table.count(name, one) == a
        && table.count(name, two) == b
        && stands_at(table, name, Scope::All, one, 0, a)
        && stands_at(table, name, Scope::All, two, a, all)
        && table.pid_at(name, Scope::All, all).is_none()
        && stands_at(table, name, Scope::At(&one.node), one, 0, a)
        && table.pid_at(name, Scope::At(&one.node), a).is_none()
        && stands_at(table, name, Scope::At(&two.node), two, 0, b)
        && table.pid_at(name, Scope::At(&two.node), b).is_none()
}

/// Whether a pid stands at the places from one up to another.
pub fn stands_at<T: GroupTable>(
    table: &T,
    name: &Term,
    scope: Scope<'_>,
    pid: &Pid,
    from: u64,
    to: u64,
) -> bool {
    for place in from..to {
        if table.pid_at(name, scope, place) != Some(pid) {
            return false;
        }
    }
    true
}

/// Whether the list of a group, and its sizes, are so.
fn lists_so<T: GroupTable>(
    alloc: Global,
    table: &T,
    pids: (&Pid, &Pid),
    name: &Term,
    counts: Counts,
) -> bool {
    match members(alloc, table, name) {
        Ok(listed) => {
            let is_so = list_is(table, pids, name, &listed);
            drop(listed);
            counts.is_some() && is_so
        }
        Err(fault) => counts.is_none() && fault == QueryFault::NoSuchGroup,
    }
}

/// Whether a list has what stands at the places of a group, and the sizes are as many as the members.
fn list_is<T: GroupTable>(table: &T, pids: (&Pid, &Pid), name: &Term, listed: &Items<Pid>) -> bool {
    let (one, two) = pids;
    table.size(name, Scope::All) == Some(listed.len() as u64)
        && table.size(name, Scope::At(&one.node)) == Some(table.count(name, one))
        && table.size(name, Scope::At(&two.node)) == Some(table.count(name, two))
        && are_at(table, name, listed.as_slice())
}

/// Whether these are the members of a group, place by place.
fn are_at<T: GroupTable>(table: &T, name: &Term, pids: &[Pid]) -> bool {
    for place in 0..pids.len() {
        if table.pid_at(name, Scope::All, place as u64) != pids.get(place) {
            return false;
        }
    }
    table.pid_at(name, Scope::All, pids.len() as u64).is_none()
}
