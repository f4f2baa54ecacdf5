ghost use Rattle.std.specs.Prelude.{◌≡◌, ◌+◌, ◌<◌, ◌^◌, None, IsSome, OnOk, OnErr, IfOk};
ghost use Rattle.pg_term.specs.Same.{same_term};
ghost use Rattle.pg_group.specs.Functions.{upd};
ghost use Rattle.pg_group.specs.Value.{apply, count_in};
ghost use Rattle.pg_group.specs.Table.{merged, PartlyMerged, all_merged, without, without_node};
ghost use Rattle.pg_group.specs.Ended.{ended_of};
ghost use Rattle.pg_group.specs.Rows.{table_of};
ghost use Rattle.pg_group.specs.declared.update.Update.TheVariants.{Create, Delete, Join, Leave};

use crate::ended::Ended;
use crate::members::Members;
use pg_term::{Atom, Items, Pid, Term};
use std::alloc::{AllocError, Global};
use std::collections::BTreeMap;

/// The members of each group that is there.
pub type Rows = BTreeMap<Term, Members>;

/// Makes an absent group empty.
///
/// Errors: `AllocError`, which changes nothing.
///
/// Cost: memory for a group that is made alone.
pub fn create(rows: &mut Rows, alloc: Global, name: &Term) -> Result<(), AllocError>
    ensures ok { OnOk result (table_of rows.new
        ≡ upd same_term (table_of rows.old) name.now (apply (table_of rows.old name.now) (Create name.now))) }
    ensures err { OnErr result (table_of rows.new ≡ table_of rows.old) }
    ensures memory { OnErr result (table_of rows.old name.now ≡ None) }
{
    if rows.contains_key(name) {
        return Ok(());
    }
    let row = name.copy(alloc)?;
    rows.insert(row, Members::new(alloc))?;
    Ok(())
}

/// Makes a group absent.
pub fn delete(rows: &mut Rows, name: &Term)
    ensures { table_of rows.new
        ≡ upd same_term (table_of rows.old) name.now (apply (table_of rows.old name.now) (Delete name.now)) }
{
    rows.remove(name);
}

/// Adds one to the count of a pid in a group that is there.
///
/// Errors: `AllocError`.
///
/// Cost: memory for a new member alone.
pub fn join(rows: &mut Rows, name: &Term, pid: &Pid) -> Result<(), AllocError>
    requires { count_in (table_of rows.old name.now) pid.now + 1 < 2 ^ 64 }
    ensures ok { OnOk result (table_of rows.new
        ≡ upd same_term (table_of rows.old) name.now (apply (table_of rows.old name.now) (Join name.now pid.now))) }
    ensures err { OnErr result (table_of rows.new ≡ table_of rows.old) }
    ensures there { OnErr result (IsSome (table_of rows.old name.now)) }
    ensures memory { OnErr result (count_in (table_of rows.old name.now) pid.now ≡ 0) }
{
    match rows.get_mut(name) {
        Some(members) => {
            members.add_one(pid)?;
            Ok(())
        }
        None => Ok(()),
    }
}

/// Takes one from the count of a pid in a group that is there.
pub fn leave(rows: &mut Rows, name: &Term, pid: &Pid)
    ensures { table_of rows.new
        ≡ upd same_term (table_of rows.old) name.now (apply (table_of rows.old name.now) (Leave name.now pid.now)) }
{
    match rows.get_mut(name) {
        Some(members) => members.take_one(pid),
        None => (),
    }
}

/// Makes a group if it is missing, and raises its counts to those of a list, without the ended.
///
/// Errors: `AllocError`, which may leave the group made and some counts raised.
///
/// Cost: memory for a group that is made and for new members alone.
pub fn merge(
    rows: &mut Rows,
    alloc: Global,
    name: &Term,
    pids: &[Pid],
    ended: &Ended,
) -> Result<(), AllocError>
    ensures ok { OnOk result (table_of rows.new
        ≡ merged (table_of rows.old) name.now pids.now (ended_of ended.now)) }
    ensures err { OnErr result
        (PartlyMerged (table_of rows.old) (table_of rows.new) name.now pids.now (ended_of ended.now)) }
{
    create(rows, alloc, name)?;
    let Some(members) = rows.get_mut(name) else {
        unreachable!()
    };
    members.raise_all(alloc, pids, ended)?;
    Ok(())
}

/// Merges groups, one after the other.
///
/// Errors: `AllocError`, which may leave some of them merged.
///
/// Cost: that of merging them.
pub fn merge_all(
    rows: &mut Rows,
    alloc: Global,
    groups: &[(Term, Items<Pid>)],
    ended: &Ended,
) -> Result<(), AllocError>
    ensures { OnOk result (table_of rows.new
        ≡ all_merged (table_of rows.old) groups.now (ended_of ended.now)) }
{
    for (name, pids) in groups {
        merge(rows, alloc, name, pids.as_slice(), ended)?;
    }
    Ok(())
}

/// Takes a pid out of every group.
pub fn drop_pid(rows: &mut Rows, pid: &Pid)
    ensures { table_of rows.new ≡ without (table_of rows.old) pid.now }
{
    rows.retain(|_, members| {
        members.take_all(pid);
        true
    });
}

/// Takes every pid of a node out of every group.
pub fn drop_node(rows: &mut Rows, node: &Atom)
    ensures { table_of rows.new ≡ without_node (table_of rows.old) node.now }
{
    rows.retain(|_, members| {
        members.take_all_of(node);
        true
    });
}

/// The same groups.
///
/// Errors: `AllocError`.
///
/// Cost: memory for each group and each member.
pub fn copy(rows: &Rows, alloc: Global) -> Result<Rows, AllocError>
    ensures { IfOk result (λ copy. table_of copy ≡ table_of rows.now) }
{
    let mut copy = BTreeMap::new(alloc);
    for (name, row) in rows {
        copy.insert(name.copy(alloc)?, row.copy(alloc)?)?;
    }
    Ok(copy)
}
