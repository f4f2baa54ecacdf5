//! What began and what was applied, by group.

ghost use Rattle.std.specs.Prelude.{◌≡◌, ℕ, ◌+◌, ◌<◌, ◌&&◌, ◌++◌, ◌∷◌, [], map, nat_eq, Some, IsSome, IfOk, OnOk};
ghost use Rattle.std.specs.BTreeMap.{get};
ghost use Rattle.pg_term.specs.declared.term.Term.{Term};
ghost use Rattle.pg_term.specs.Same.{term_cmp};
ghost use Rattle.pg_node_opens.specs.PgGroup.Value.{name_of};
ghost use Rattle.pg_laws_losses.specs.PgLaws.History.{is_update_of, of_group};
ghost use Rattle.pg_laws_losses.specs.Remains.Missed.{marked_after};
ghost use Rattle.pg_world_account.specs.Histories.{as_entry, as_marked, entries_in, tallied_in, last_marks, marked_entries_in, one_of, HasRow};

use crate::entry::Entry;
use crate::row::Row;
use pg_node_opens::Update;
use pg_term::Term;
use std::alloc::{AllocError, Global};
use std::collections::BTreeMap;

/// The row of each group that was named.
pub(crate) type Rows = BTreeMap<Term, Row>;

/// The same entries and counts of each group.
///
/// Errors: `AllocError`.
///
/// Cost: that of the copies: O(n log n) in the groups that were named.
pub(crate) fn copy(rows: &Rows, alloc: Global) -> Result<Rows, AllocError>
    ensures entries { IfOk result (λ copy. entries_in copy ≡ entries_in rows.now) }
    ensures counts { IfOk result (λ copy. tallied_in copy ≡ tallied_in rows.now) }
    ensures marks { IfOk result (λ copy. marked_entries_in copy ≡ marked_entries_in rows.now) }
{
    let mut copy = BTreeMap::new(alloc);
    for (name, row) in rows {
        copy.insert(name.copy(alloc)?, row.copy(alloc)?)?;
    }
    Ok(copy)
}

/// A group has a row, which is empty where it had none.
///
/// Errors: `AllocError`, which changes nothing.
fn open_row(rows: &mut Rows, alloc: Global, name: &Term) -> Result<(), AllocError>
    ensures entries { entries_in rows.new ≡ entries_in rows.old }
    ensures counts { tallied_in rows.new ≡ tallied_in rows.old }
    ensures marks { marked_entries_in rows.new ≡ marked_entries_in rows.old }
    ensures there { OnOk result (IsSome (get term_cmp rows.new name.now)) }
{
    if rows.contains_key(name) {
        return Ok(());
    }
    let key = name.copy(alloc)?;
    rows.insert(key, Row::new(alloc))?;
    Ok(())
}

/// Makes room for one more entry of a group and a node.
///
/// Errors: `AllocError`, which changes nothing.
pub(crate) fn make_room(
    rows: &mut Rows,
    alloc: Global,
    name: &Term,
    node: usize,
) -> Result<(), AllocError>
    ensures entries { entries_in rows.new ≡ entries_in rows.old }
    ensures counts { tallied_in rows.new ≡ tallied_in rows.old }
    ensures marks { marked_entries_in rows.new ≡ marked_entries_in rows.old }
    ensures room { OnOk result (HasRow rows.new name.now node) }
{
    open_row(rows, alloc, name)?;
    match rows.get_mut(name) {
        Some(row) => row.make_room(node),
        None => Err(AllocError),
    }
}

/// A node applies the last update of a group, one of a peer, where there is room.
///
/// Cost: no memory.
pub(crate) fn serve(rows: &mut Rows, update: &Update, node: usize)
    requires { HasRow rows.old (name_of update.now) node }
    ensures entries { entries_in rows.new ≡ entries_in rows.old }
    ensures counts { (i : ℕ) (name : Term) → tallied_in rows.new i name
        ≡ tallied_in rows.old i name + one_of node i name (Some update.now) }
    ensures marks { (i : ℕ) (name : Term) → i < 16 → marked_entries_in rows.new i name
        ≡ marked_after [] (nat_eq node i && is_update_of name (Some update.now)) (marked_entries_in rows.old i name) }
{
    match rows.get_mut(update.name()) {
        Some(row) => row.serve(node),
        None => {}
    }
}

/// An update begins, and its node applies it, where there is room.
///
/// Cost: no memory.
pub(crate) fn begin(rows: &mut Rows, entry: Entry)
    requires { HasRow rows.old (name_of entry.update) entry.node }
    ensures entries { (name : Term) → entries_in rows.new name
        ≡ entries_in rows.old name ++ of_group name (as_entry entry ∷ []) }
    ensures counts { (i : ℕ) (name : Term) → tallied_in rows.new i name
        ≡ tallied_in rows.old i name + one_of entry.node i name (Some entry.update) }
    ensures marks { (i : ℕ) (name : Term) → marked_entries_in rows.new i name ≡ marked_entries_in rows.old i name ++ last_marks (Some entry) i name }
{
    match rows.get_mut(entry.update.name()) {
        Some(row) => row.begin(entry),
        None => drop(entry),
    }
}

/// The entries of a group.
///
/// Cost: no memory.
pub(crate) fn entries<'a>(rows: &'a Rows, name: &Term) -> &'a [Entry]
    ensures entries { map as_entry result.now ≡ entries_in rows.now name.now }
    ensures marks { (i : ℕ) → map (as_marked i) result.now ≡ marked_entries_in rows.now i name.now }
{
    match rows.get(name) {
        Some(row) => row.entries.as_slice(),
        None => &[],
    }
}

/// How many updates of a group a node has applied.
///
/// Cost: no memory.
pub(crate) fn count(rows: &Rows, node: usize, name: &Term) -> u64
    ensures { result ≡ tallied_in rows.now node name.now }
{
    match rows.get(name) {
        Some(row) => row.tally.count(node),
        None => 0,
    }
}
