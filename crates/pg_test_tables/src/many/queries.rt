use crate::change::{Act, merge_told, perform};
use crate::queries::{Reading, are_read};
use crate::samples::{Cast, holds};
use pg_group::GroupTable;
use pg_query::which_groups;
use pg_term::Term;
use std::alloc::Global;
use std::process::Abort;

const PICKS: &[(u32, Option<u32>)] = &[(1000, Some(1000)), (1001, Some(0))];

/// All are on node a, and none on node b. Either picks the last of all, and the first by the next word.
const READINGS: &[Reading] = &[
    (7, "a", (0, 1001), (0, 1001), PICKS),
    (7, "b", (0, 1001), (0, 0), PICKS),
];

/// 1,001 pids join from the last on, and are listed from the first on.
pub fn lists_all<T: GroupTable>(rt: &impl Abort, alloc: Global, table: &mut T) {
    let name = Term::Int(7);
    let mut cast = Cast::new(rt, alloc, &[("a", 0, 1001)]);
    cast.pids.reverse();
    merge_told(rt, table, &name, &cast.pids, &cast.ended);
    drop(name);
    cast.pids.reverse();
    are_read(rt, table, &cast, READINGS);
    drop(cast);
}

/// The groups 0 to 1000 are made, the last first, and named from the first on.
pub fn names_all<T: GroupTable>(rt: &impl Abort, alloc: Global, table: &mut T) {
    let cast = Cast::new(rt, alloc, &[]);
    for group in (0..1001).rev() {
        perform(rt, table, &cast, group, Act::Merge(&[]));
    }
    drop(cast);
    let names = which_groups(table).expect(rt, "names");
    holds(rt, are_ordered(names.as_slice()), "names");
    drop(names);
}

/// Whether the names are 0 to 1000, in this order.
fn are_ordered(names: &[Term]) -> bool {
    for place in 0..1001 {
        match names.get(place) {
            Some(Term::Int(number)) if *number == place as i64 => (),
            _ => return false,
        }
    }
    names.len() == 1001
}
