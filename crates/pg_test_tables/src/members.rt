//! The members of one group, with counts that no list could tell. The test passes wherever an allocation is refused.

use crate::samples::{Cast, either, holds, row_holds};
use pg_group::Scope;
use pg_index_members::Members;
use std::alloc::Global;
use std::process::Abort;

/// So often each is a member.
const OFTEN: u64 = 1 << 40;

/// How many members there are: of one block, and of several in levels.
const CROWDS: &[u32] = &[1, 63, 64, 65, 200];

/// A copy has the counts of all, and all can leave.
#[test]
fn copies_large_counts(rt: HostRuntime) {
    for crowd in CROWDS {
        let cast = Cast::new(&rt, rt.alloc(), &[("a", 0, *crowd)]);
        let mut members = joined(&rt, &cast);
        let copy = either(&rt, members.copy(), members.copy());
        let are_joined = are_counted(&members, &cast, OFTEN);
        empty(&rt, &mut members, &cast);
        let are_left = are_counted(&members, &cast, 0) && are_counted(&copy, &cast, OFTEN);
        drop(members);
        drop(copy);
        drop(cast);
        row_holds(&rt, are_joined && are_left, *crowd as usize);
    }
}

/// A group that each of the pids has joined.
fn joined(rt: &impl Abort, cast: &Cast) -> Members {
    let mut members = Members::new(cast.alloc);
    for pid in &cast.pids {
        if members.add(pid, OFTEN).is_err() {
            holds(rt, members.count(pid) == 0, "as before");
            members.add(pid, OFTEN).expect(rt, "again");
        }
    }
    members
}

/// Takes all pids out; each tells its count when one of it is taken.
fn empty(rt: &impl Abort, members: &mut Members, cast: &Cast) {
    for pid in &cast.pids {
        holds(rt, members.take_one(pid) == OFTEN, "its count");
        members.remove(pid);
    }
}

/// Whether each of the pids is so often a member, and nobody else is one.
fn are_counted(members: &Members, cast: &Cast, often: u64) -> bool {
    for pid in &cast.pids {
        if members.count(pid) != often {
            return false;
        }
    }
    members.size(Scope::All) == (cast.pids.len() as u64).wrapping_mul(often)
}
