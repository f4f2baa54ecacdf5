//! What a host is told that mirrors the table of a node.

ghost use Rattle.std.specs.Prelude.{◌≡◌, ◌<◌, ◌^◌, ◌∷◌, ℕ, Bool, [], IfOk, IfSome, IsOk, OnOk, OnErr, List, map, take};
ghost use Rattle.pg_step.specs.PgGroup.Value.{count_in};
ghost use Rattle.pg_step.specs.PgGroup.declared.update.Update.TheVariants.{Create};
ghost use Rattle.pg_term.specs.declared.term.Term.{Term, List as Listed};
ghost use Rattle.pg_node_process.specs.Mirrors.{Adds, AreGroupsOf, IsLonger, RowsOf, SaysOne, SaysRows, SaysTable, SaysUpdate, all_assigned, count_told, gone, no_groups};
ghost use Rattle.pg_node_process.specs.Outputs.{Mirrored, Output, Says};

use crate::assignments::{Batch, gone_term, row_term};
use crate::outlet::Outlet;
use pg_index::GroupsByPlace;
use pg_step::{GroupTable, Scope, Update};
use pg_term::{Items, Pid, Term};
use std::alloc::{AllocError, Global};

/// Tells of all groups of a table a host that knows of none.
///
/// Errors: `AllocError`, which says nothing.
///
/// Cost: that of all groups and members.
pub fn tell_groups<T: GroupsByPlace>(
    outlet: &mut Outlet,
    alloc: Global,
    table: &T,
) -> Result<(), AllocError>
    ensures ok { OnOk result ((outputs : List Output) × SaysTable no_groups (T.contents table.now) outlet.old.gathered.items outlet.new.gathered.items outputs) }
    ensures err { OnErr result (outlet.new.gathered.items ≡ outlet.old.gathered.items) }
{
    let len = outlet.bytes().len();
    let mut batch = Batch::new(alloc);
    let added = add_places(outlet, &mut batch, alloc, table);
    finish(outlet, batch, len, added)
}

/// Tells of the groups that an exchange named, as they are now.
///
/// Errors: `AllocError`, which says nothing.
///
/// Cost: that of these groups, with all their members.
pub fn tell_rows<T: GroupTable>(
    outlet: &mut Outlet,
    alloc: Global,
    table: &T,
    groups: &[(Term, Items<Pid>)],
) -> Result<(), AllocError>
    ensures ok { OnOk result ((outputs : List Output) × SaysRows (map (λ group. group.0) groups.now) (T.contents table.now) outlet.old.gathered.items outlet.new.gathered.items outputs) }
    ensures err { OnErr result (outlet.new.gathered.items ≡ outlet.old.gathered.items) }
{
    let len = outlet.bytes().len();
    let mut batch = Batch::new(alloc);
    let added = add_rows(outlet, &mut batch, alloc, table, groups);
    finish(outlet, batch, len, added)
}

/// Tells of an update that was applied. `has_ended`: it is a join, of a process that has ended.
///
/// Errors: `AllocError`, which says nothing.
///
/// Cost: that of one assignment.
pub fn tell_update<T: GroupsByPlace>(
    outlet: &mut Outlet,
    alloc: Global,
    table: &T,
    update: &Update,
    has_ended: bool,
) -> Result<(), AllocError>
    ensures ok { OnOk result (SaysUpdate update.now has_ended (T.contents table.now) outlet.old.gathered.items outlet.new.gathered.items) }
    ensures err { OnErr result (outlet.new.gathered.items ≡ outlet.old.gathered.items) }
{
    match update {
        Update::Create(name) => tell_created(outlet, alloc, table, name),
        Update::Delete(name) => tell_deleted(outlet, alloc, name),
        Update::Join(name, pid) => {
            if has_ended {
                Ok(())
            } else {
                tell_count(outlet, table, name, pid)
            }
        }
        Update::Leave(name, pid) => tell_count(outlet, table, name, pid),
    }
}

/// Tells of the groups in which a process was that has ended, as they are without it.
///
/// Errors: `AllocError`, which says nothing.
///
/// Cost: that of these groups, with all their members.
pub fn tell_end<T: GroupTable>(
    outlet: &mut Outlet,
    alloc: Global,
    table: &T,
    names: &[Term],
) -> Result<(), AllocError>
    ensures ok { OnOk result ((outputs : List Output) × SaysRows names.now (T.contents table.now) outlet.old.gathered.items outlet.new.gathered.items outputs) }
    ensures err { OnErr result (outlet.new.gathered.items ≡ outlet.old.gathered.items) }
{
    let len = outlet.bytes().len();
    let mut batch = Batch::new(alloc);
    let added = add_named(outlet, &mut batch, alloc, table, names);
    finish(outlet, batch, len, added)
}

/// The groups in which a process is a member.
///
/// Errors: `AllocError`.
///
/// Cost: a look at each group, and memory for the names.
pub fn groups_with<T: GroupsByPlace>(
    alloc: Global,
    table: &T,
    pid: &Pid,
) -> Result<Vec<Term>, AllocError>
    ensures { IfOk result (λ names. AreGroupsOf (T.contents table.now) pid.now names.items) }
{
    let mut names = Vec::new(alloc);
    for place in 0..table.group_count() {
        let name = table.name_at(place);
        if table.count(name, pid) > 0 {
            names.push(name.copy(alloc)?)?;
        }
    }
    Ok(names)
}

/// Says what is left, or lets go what was said behind so many bytes, where memory ran out.
fn finish(
    outlet: &mut Outlet,
    batch: Batch,
    len: usize,
    added: Result<(), AllocError>,
) -> Result<(), AllocError>
    ensures ok { OnOk result ((terms : List Term) (before : List ℕ) → OnOk added (Adds terms before outlet.old.gathered.items [] batch.terms.items)
        → Adds terms before outlet.new.gathered.items [] []) }
    ensures was { OnOk result (IsOk added) }
    ensures err { OnErr result (outlet.new.gathered.items ≡ take len outlet.old.gathered.items) }
{
    let mut batch = batch;
    let finished = match added {
        Ok(()) => batch.flush(outlet),
        Err(AllocError) => Err(AllocError),
    };
    drop(batch);
    match finished {
        Ok(()) => Ok(()),
        Err(AllocError) => {
            outlet.cut(len);
            Err(AllocError)
        }
    }
}

/// Adds each group of a table.
fn add_places<T: GroupsByPlace>(
    outlet: &mut Outlet,
    batch: &mut Batch,
    alloc: Global,
    table: &T,
) -> Result<(), AllocError>
    ensures ok { OnOk result ((terms : List Term) × Adds terms outlet.old.gathered.items outlet.new.gathered.items batch.old.terms.items batch.new.terms.items
        × (all_assigned terms no_groups ≡ T.contents table.now)) }
    ensures err { OnErr result (IsLonger outlet.old.gathered.items outlet.new.gathered.items) }
{
    for place in 0..table.group_count() {
        add_group(outlet, batch, alloc, table, table.name_at(place))?;
    }
    Ok(())
}

/// Adds each of these groups.
fn add_rows<T: GroupTable>(
    outlet: &mut Outlet,
    batch: &mut Batch,
    alloc: Global,
    table: &T,
    groups: &[(Term, Items<Pid>)],
) -> Result<(), AllocError>
    ensures ok { OnOk result ((terms : List Term) × Adds terms outlet.old.gathered.items outlet.new.gathered.items batch.old.terms.items batch.new.terms.items
        × RowsOf (map (λ group. group.0) groups.now) (T.contents table.now) terms) }
    ensures err { OnErr result (IsLonger outlet.old.gathered.items outlet.new.gathered.items) }
{
    for (name, _) in groups {
        add_group(outlet, batch, alloc, table, name)?;
    }
    Ok(())
}

/// Adds a group as it is.
fn add_group<T: GroupTable>(
    outlet: &mut Outlet,
    batch: &mut Batch,
    alloc: Global,
    table: &T,
    name: &Term,
) -> Result<(), AllocError>
    ensures ok { OnOk result ((terms : List Term) × Adds terms outlet.old.gathered.items outlet.new.gathered.items batch.old.terms.items batch.new.terms.items
        × RowsOf (name.now ∷ []) (T.contents table.now) terms) }
    ensures err { OnErr result (IsLonger outlet.old.gathered.items outlet.new.gathered.items) }
{
    if !table.has(name) {
        let term = gone_term(alloc, name)?;
        return batch.add(outlet, term, 0);
    }
    let pids = table.list(alloc, name, Scope::All)?;
    let members = pids.len();
    let term = row_term(alloc, name, pids)?;
    batch.add(outlet, term, members)
}

/// Adds each group of these names.
fn add_named<T: GroupTable>(
    outlet: &mut Outlet,
    batch: &mut Batch,
    alloc: Global,
    table: &T,
    names: &[Term],
) -> Result<(), AllocError>
    ensures ok { OnOk result ((terms : List Term) × Adds terms outlet.old.gathered.items outlet.new.gathered.items batch.old.terms.items batch.new.terms.items
        × RowsOf names.now (T.contents table.now) terms) }
    ensures err { OnErr result (IsLonger outlet.old.gathered.items outlet.new.gathered.items) }
{
    for name in names {
        add_group(outlet, batch, alloc, table, name)?;
    }
    Ok(())
}

/// Tells that a group was created, if it has no member.
fn tell_created<T: GroupTable>(
    outlet: &mut Outlet,
    alloc: Global,
    table: &T,
    name: &Term,
) -> Result<(), AllocError>
    ensures ok { OnOk result ((joined : Bool) → SaysUpdate (Create name.now) joined (T.contents table.now) outlet.old.gathered.items outlet.new.gathered.items) }
    ensures err { OnErr result (outlet.new.gathered.items ≡ outlet.old.gathered.items) }
{
    let Some(size) = table.size(name, Scope::All) else {
        return Ok(());
    };
    if size > 0 {
        return Ok(());
    }
    let term = row_term(alloc, name, Vec::new(alloc))?;
    tell_one(outlet, alloc, term)
}

/// Tells that a group is gone.
fn tell_deleted(outlet: &mut Outlet, alloc: Global, name: &Term) -> Result<(), AllocError>
    ensures ok { OnOk result (Says outlet.old.gathered.items outlet.new.gathered.items (Mirrored (Listed (gone name.now ∷ [])))) }
    ensures err { OnErr result (outlet.new.gathered.items ≡ outlet.old.gathered.items) }
{
    let term = gone_term(alloc, name)?;
    tell_one(outlet, alloc, term)
}

/// Tells how often a process counts in a group, where that is there.
fn tell_count<T: GroupsByPlace>(
    outlet: &mut Outlet,
    table: &T,
    name: &Term,
    pid: &Pid,
) -> Result<(), AllocError>
    ensures ok { OnOk result (SaysOne (count_told (T.contents table.now name.now) name.now pid.now) outlet.old.gathered.items outlet.new.gathered.items) }
    ensures few { OnOk result (IfSome (count_told (T.contents table.now name.now) name.now pid.now) (λ term. count_in (T.contents table.now name.now) pid.now < 2 ^ 63)) }
    ensures err { OnErr result (outlet.new.gathered.items ≡ outlet.old.gathered.items) }
{
    match table.count_if_there(name, pid) {
        Some(count) => outlet.put_entry(name, pid, count),
        None => Ok(()),
    }
}

/// Tells one assignment.
fn tell_one(outlet: &mut Outlet, alloc: Global, term: Term) -> Result<(), AllocError>
    ensures ok { OnOk result (Says outlet.old.gathered.items outlet.new.gathered.items (Mirrored (Listed (term ∷ [])))) }
    ensures err { OnErr result (outlet.new.gathered.items ≡ outlet.old.gathered.items) }
{
    let mut terms = Vec::new(alloc);
    match terms.reserve(1) {
        Ok(()) => {}
        Err(AllocError) => {
            drop(term);
            return Err(AllocError);
        }
    }
    terms.push_reserved(term);
    let list = Term::List(Items::from_vec(terms));
    let said = outlet.put_mirrored(&list);
    drop(list);
    said
}
