use crate::answers::stands_at;
use crate::change::Act::{self, Create, Delete, DropNode, Join, Leave, Merge};
use crate::change::{has_groups, merge_told, perform};
use crate::samples::{Cast, holds};
use pg_group::{GroupTable, Scope};
use pg_term::{Pid, Term};
use std::alloc::Global;
use std::process::Abort;

/// How many of the groups get changes, and which; how often each of three pids is in each group then.
type Phase = (u16, &'static [Act<'static>], [u64; 3]);

/// How many groups there are, what is made of them first, and then, which a copy does not see.
pub type Groups = (u16, Phase, &'static [Phase]);

/// 1,001 groups are made, get members, lose one of them, then those of a node.
pub const EMPTIED: Groups = (
    1001,
    (1001, &[Create, Merge(&[0, 1, 1, 2])], [1, 2, 1]),
    &[
        (1001, &[Leave(1)], [1, 1, 1]),
        (1, &[Act::Drop(1)], [1, 0, 1]),
        (1, &[DropNode(0)], [0, 0, 1]),
    ],
);

/// A pid that joined each of 300 groups twice is dropped: the groups stay, of size 0.
pub const DROPPED: Groups = (
    300,
    (300, &[Merge(&[]), Join(0), Join(0)], [2, 0, 0]),
    &[(1, &[Act::Drop(0)], [0, 0, 0])],
);

/// Groups are made and changed, and are deleted; a copy keeps them as they were first.
pub fn keeps_groups<T: GroupTable + Drop>(
    rt: &impl Abort,
    alloc: Global,
    table: &mut T,
    (groups, first, then): &Groups,
) {
    let cast = Cast::new(rt, alloc, &[("a", 1, 3), ("b", 1, 2)]);
    run(rt, table, &cast, *groups, first);
    let copy = table.copy().expect(rt, "copy");
    for phase in *then {
        run(rt, table, &cast, *groups, phase);
    }
    are_kept(rt, &copy, &cast, *groups, &first.2);
    drop(copy);
    act_on_each(rt, table, &cast, *groups, &[Delete]);
    holds(rt, has_groups(rt, table, 0), "none");
    drop(cast);
}

fn run<T: GroupTable>(rt: &impl Abort, table: &mut T, cast: &Cast, groups: u16, phase: &Phase) {
    let (changed, acts, counts) = phase;
    act_on_each(rt, table, cast, *changed, acts);
    are_kept(rt, table, cast, groups, counts);
}

fn act_on_each<T: GroupTable>(
    rt: &impl Abort,
    table: &mut T,
    cast: &Cast,
    groups: u16,
    acts: &[Act<'_>],
) {
    for group in 0..groups {
        for act in acts {
            perform(rt, table, cast, i64::from(group), *act);
        }
    }
}

/// The table has so many groups, and the pids are so often in each.
fn are_kept<T: GroupTable>(
    rt: &impl Abort,
    table: &T,
    cast: &Cast,
    groups: u16,
    counts: &[u64; 3],
) {
    for group in 0..groups {
        let name = Term::Int(i64::from(group));
        holds(rt, is_kept(table, &name, &cast.pids, counts), "group");
        drop(name);
    }
    holds(rt, has_groups(rt, table, usize::from(groups)), "groups");
}

fn is_kept<T: GroupTable>(table: &T, name: &Term, pids: &[Pid], counts: &[u64; 3]) -> bool {
    let mut all = 0u64;
    for place in 0..3 {
        match pids.get(place) {
            Some(pid) if table.count(name, pid) == counts[place] => {
                all = all.saturating_add(counts[place]);
            }
            _ => return false,
        }
    }
    table.size(name, Scope::All) == Some(all)
}

/// A group gets 1,001 members, which join it once more; a copy lists each twice, in their order.
pub fn keeps_members<T: GroupTable + Drop>(rt: &impl Abort, alloc: Global, table: &mut T) {
    let cast = Cast::new(rt, alloc, &[("a", 0, 1001)]);
    let name = Term::Int(1);
    merge_told(rt, table, &name, &cast.pids, &cast.ended);
    for place in 0..1001 {
        perform(rt, table, &cast, 1, Join(place));
    }
    let copy = table.copy().expect(rt, "copy");
    holds(rt, each_is_twice(&copy, &name, &cast.pids), "each twice");
    drop(copy);
    drop(name);
    drop(cast);
}

fn each_is_twice<T: GroupTable>(table: &T, name: &Term, pids: &[Pid]) -> bool {
    let mut place = 0u64;
    for pid in pids {
        let next = place.saturating_add(2);
        if table.count(name, pid) != 2 || !stands_at(table, name, Scope::All, pid, place, next) {
            return false;
        }
        place = next;
    }
    table.pid_at(name, Scope::All, place).is_none()
}
