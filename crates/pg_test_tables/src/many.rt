//! Groups and members that are many: sizes above 1,000, past which code changes its way.

pub mod queries;
pub mod tables;

use crate::trial::{Trial, on_both};

const SIZES: &[Trial] = &[
    Trial::LongGroup,
    Trial::ManyNames,
    Trial::ManyGroups(&tables::EMPTIED),
    Trial::ManyGroups(&tables::DROPPED),
    Trial::ManyMembers,
];

#[test]
fn sizes_above_a_thousand(rt: HostRuntime) {
    on_both(&rt, rt.alloc(), SIZES);
}
