//! What a table of either kind is put to.

use crate::examples::Example;
use crate::many::tables::Groups;
use crate::{examples, histories, many, memory, queries};
use pg_group::{GroupTable, RowTable};
use pg_index::IndexTable;
use std::alloc::Global;
use std::process::Abort;

#[derive(Clone, Copy)]
pub enum Trial {
    Histories,
    Memory,
    SameTables,
    Example(&'static Example),
    NamesInOrder,
    ManyGroups(&'static Groups),
    ManyMembers,
    LongGroup,
    ManyNames,
}

/// Puts an empty table of each kind to each of the trials.
pub fn on_both(rt: &impl Abort, alloc: Global, trials: &[Trial]) {
    for trial in trials {
        let mut rows = RowTable::new(alloc);
        put_to(rt, alloc, &mut rows, *trial);
        drop(rows);
        let mut index = IndexTable::new(alloc);
        put_to(rt, alloc, &mut index, *trial);
        drop(index);
    }
}

fn put_to<T: GroupTable + Drop>(rt: &impl Abort, alloc: Global, table: &mut T, trial: Trial) {
    match trial {
        Trial::Histories => histories::agrees(rt, alloc, table),
        Trial::Memory => memory::is_whole(rt, alloc, table),
        Trial::SameTables => queries::compares(rt, alloc, table),
        Trial::Example(example) => examples::is_so(rt, alloc, table, example),
        Trial::NamesInOrder => queries::names_in_order(rt, alloc, table),
        Trial::ManyGroups(groups) => many::tables::keeps_groups(rt, alloc, table, groups),
        Trial::ManyMembers => many::tables::keeps_members(rt, alloc, table),
        Trial::LongGroup => many::queries::lists_all(rt, alloc, table),
        Trial::ManyNames => many::queries::names_all(rt, alloc, table),
    }
}
