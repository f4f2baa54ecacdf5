//! Each growth of memory may be refused once: the call says so, the table is as it was, and the call is made again.

use crate::change::{Act, has_groups, perform};
use crate::queries::are_read;
use crate::samples::{Cast, either, holds};
use crate::trial::{Trial, on_both};
use pg_group::GroupTable;
use std::alloc::Global;
use std::process::Abort;

#[test]
fn whole_after_refusals(rt: HostRuntime) {
    on_both(&rt, rt.alloc(), &[Trial::Memory]);
}

/// So many joins that a block of members is split, and a merge of the last member: a copy lists each once, and has no other group.
pub fn is_whole<T: GroupTable + Drop>(rt: &impl Abort, alloc: Global, table: &mut T) {
    let cast = Cast::new(rt, alloc, &[("a", 0, 71)]);
    perform(rt, table, &cast, 7, Act::Create);
    for place in 0..70 {
        perform(rt, table, &cast, 7, Act::Join(place));
    }
    perform(rt, table, &cast, 7, Act::Merge(&[70]));
    let copy = either(rt, table.copy(), table.copy());
    are_read(rt, &copy, &cast, &[(7, "a", (0, 71), (0, 71), &[])]);
    holds(rt, has_groups(rt, &copy, 1), "no other");
    drop(copy);
    drop(cast);
}
