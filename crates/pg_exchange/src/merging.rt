ghost use Rattle.std.specs.Prelude.{◌≡◌, ◌≤◌, [], Bool, length, map, IfOk, OnOk, OnErr};
ghost use Rattle.pg_term.specs.declared.pid.Pid.{Pid};
ghost use Rattle.pg_term.specs.Same.{same_term};
ghost use Rattle.pg_group.specs.Functions.{upd};
ghost use Rattle.pg_group.specs.Ended.{ended_of};
ghost use Rattle.pg_group.specs.Table.{Table, AreAbsent};
ghost use Rattle.pg_exchange.specs.GroupList.{all_merged};
ghost use Rattle.pg_exchange.specs.Undone.{noted, before_of, put_back, undone, ArePresent};

use pg_group::{Ended, GroupTable};
use pg_term::{Items, Pid, Term};
use std::alloc::{AllocError, Global};

// How a group was before it was merged: how often each pid that is announced was a member; `None` where it was
// absent.
type Before = Option<Vec<u64>>;

// The name of a group and its members.
type Group = (Term, Items<Pid>);

/// Takes in groups, one after the other. It notes how each group was before.
///
/// Errors: `AllocError`, which changes nothing: what was merged is taken back, which needs no memory.
///
/// Cost: that of merging them, and a look-up for each pid of a group that is there.
pub fn merge_all<T: GroupTable>(
    alloc: Global,
    groups: &[(Term, Items<Pid>)],
    table: &mut T,
    ended: &Ended,
) -> Result<(), AllocError>
    ensures ok { OnOk result
        (T.contents table.new ≡ all_merged (T.contents table.old) groups.now (ended_of ended.now)) }
    ensures err { OnErr result (T.contents table.new ≡ T.contents table.old) }
{
    let mut before = Vec::with_capacity(alloc, groups.len())?;
    let merged = merge_each(alloc, groups, table, ended, &mut before);
    if merged.is_err() {
        undo(groups, table, before);
    }
    merged
}

/// The same of groups whose names are given to the table, where it lacks them.
///
/// Errors: `AllocError`, which changes nothing.
///
/// Cost: that of merging them, and for those that are there that of `merge_all`.
pub fn merge_owned<T: GroupTable>(
    alloc: Global,
    groups: Vec<Group>,
    table: &mut T,
    ended: &Ended,
) -> Result<(), AllocError>
    ensures ok { OnOk result
        (T.contents table.new ≡ all_merged (T.contents table.old) groups.items (ended_of ended.now)) }
    ensures err { OnErr result (T.contents table.new ≡ T.contents table.old) }
{
    let (present, absent) = part(alloc, groups, table)?;
    merge_parts(alloc, present, absent, table, ended)
}

/// The groups that are there, and those that are absent: to merge the former and then the latter is to merge all.
fn part<T: GroupTable>(
    alloc: Global,
    groups: Vec<Group>,
    table: &T,
) -> Result<(Vec<Group>, Vec<Group>), AllocError>
    ensures present { IfOk result (λ parts. ArePresent (T.contents table.now) parts.0.items) }
    ensures absent { IfOk result (λ parts. AreAbsent (T.contents table.now) parts.1.items) }
    ensures all { IfOk result (λ parts. (before : Table) (ended : Pid → Bool)
        → all_merged (all_merged before parts.0.items ended) parts.1.items ended
        ≡ all_merged before groups.items ended) }
{
    let mut present = Vec::new(alloc);
    let mut absent = Vec::new(alloc);
    for group in groups {
        if table.has(&group.0) {
            present.push(group)?;
        } else {
            absent.push(group)?;
        }
    }
    Ok((present, absent))
}

/// Takes in groups that are there, and then others that are absent.
fn merge_parts<T: GroupTable>(
    alloc: Global,
    present: Vec<Group>,
    absent: Vec<Group>,
    table: &mut T,
    ended: &Ended,
) -> Result<(), AllocError>
    requires present { ArePresent (T.contents table.old) present.items }
    requires absent { AreAbsent (T.contents table.old) absent.items }
    ensures ok { OnOk result (T.contents table.new
        ≡ all_merged (all_merged (T.contents table.old) present.items (ended_of ended.now))
        absent.items (ended_of ended.now)) }
    ensures err { OnErr result (T.contents table.new ≡ T.contents table.old) }
{
    let mut before = Vec::with_capacity(alloc, present.len())?;
    let merged = merge_both(alloc, present.as_slice(), absent, table, ended, &mut before);
    if merged.is_err() {
        undo(present.as_slice(), table, before);
    }
    merged
}

/// The same, which notes how each group that is there was before.
fn merge_both<T: GroupTable>(
    alloc: Global,
    present: &[Group],
    absent: Vec<Group>,
    table: &mut T,
    ended: &Ended,
    before: &mut Vec<Before>,
) -> Result<(), AllocError>
    requires none { before.old.items ≡ [] }
    requires present { ArePresent (T.contents table.old) present.now }
    requires absent { AreAbsent (T.contents table.old) absent.items }
    ensures ok { OnOk result (T.contents table.new
        ≡ all_merged (all_merged (T.contents table.old) present.now (ended_of ended.now))
        absent.items (ended_of ended.now)) }
    ensures back { OnErr result (undone (T.contents table.new) present.now (map noted before.new.items)
        ≡ T.contents table.old) }
    ensures within { length before.new.items ≤ length present.now }
{
    match merge_each(alloc, present, table, ended, before) {
        Ok(()) => table.merge_absent(absent, ended),
        Err(error) => {
            drop(absent);
            Err(error)
        }
    }
}

/// Merges group after group, and notes how each was before.
fn merge_each<T: GroupTable>(
    alloc: Global,
    groups: &[(Term, Items<Pid>)],
    table: &mut T,
    ended: &Ended,
    before: &mut Vec<Before>,
) -> Result<(), AllocError>
    requires { before.old.items ≡ [] }
    ensures ok { OnOk result
        (T.contents table.new ≡ all_merged (T.contents table.old) groups.now (ended_of ended.now)) }
    ensures back { undone (T.contents table.new) groups.now (map noted before.new.items) ≡ T.contents table.old }
    ensures within { length before.new.items ≤ length groups.now }
{
    for (name, members) in groups {
        let members = members.as_slice();
        before.push(counts_of(alloc, table, name, members)?)?;
        table.merge(name, members, ended)?;
    }
    Ok(())
}

/// How often each pid is a member of a group now; `None` where the group is absent.
fn counts_of<T: GroupTable>(
    alloc: Global,
    table: &T,
    name: &Term,
    pids: &[Pid],
) -> Result<Before, AllocError>
    ensures { IfOk result (λ before. noted before ≡ before_of (T.contents table.now name.now) pids.now) }
{
    if !table.has(name) {
        return Ok(None);
    }
    let mut counts = Vec::with_capacity(alloc, pids.len())?;
    for pid in pids {
        counts.push(table.count(name, pid))?;
    }
    Ok(Some(counts))
}

/// Takes back what was merged of the first groups, the last one first.
fn undo<T: GroupTable>(groups: &[(Term, Items<Pid>)], table: &mut T, mut before: Vec<Before>)
    requires { length before.items ≤ length groups.now }
    ensures { T.contents table.new ≡ undone (T.contents table.old) groups.now (map noted before.items) }
{
    while let Some(counts) = before.pop() {
        let (name, members) = &groups[before.len()];
        put_back(table, name, members.as_slice(), &counts);
    }
}

/// Takes back what was merged of a group: each count that was raised goes down again, and a group that was absent is deleted.
fn put_back<T: GroupTable>(table: &mut T, name: &Term, pids: &[Pid], before: &Before)
    ensures { T.contents table.new ≡ upd same_term (T.contents table.old) name.now
        (put_back (T.contents table.old name.now) pids.now (noted before.now)) }
{
    let Some(counts) = before else {
        table.delete(name);
        return;
    };
    for (pid, count) in pids.iter().zip(counts) {
        if *count < table.count(name, pid) {
            table.leave(name, pid);
        }
    }
}
