ghost use Rattle.std.specs.Prelude.{◌≡◌, ◌↔◌, ◌⊎◌, None, Err, IfOk, IfErr};
ghost use Rattle.std.specs.List.Sorted.{IsSorted};
ghost use Rattle.pg_term.specs.Same.{term_cmp};
ghost use Rattle.pg_group.specs.Scope.{anywhere, at_node};
ghost use Rattle.pg_group.specs.Members.{IsMemberList};
ghost use Rattle.pg_group.specs.Table.{AreNames};
ghost use Rattle.pg_query.specs.declared.fault.QueryFault.TheVariants.{NoSuchGroup, OutOfMemory};

use crate::fault::QueryFault;
use pg_group::{GroupTable, Scope};
use pg_term::{Atom, Items, Pid, Term};
use std::alloc::{AllocError, Global};

/// All members of a group, in the order of pids, each as often as its count.
///
/// Errors: `NoSuchGroup` where the group is absent; else `OutOfMemory`.
///
/// Cost: that of the table's `list`.
///
/// The rule: `get_members/1` of the pg2 manual page.
pub fn members<T: GroupTable>(
    alloc: Global,
    table: &T,
    name: &Term,
) -> Result<Items<Pid>, QueryFault>
    ensures ok { IfOk result (λ pids. IsMemberList (T.contents table.now name.now) anywhere pids) }
    ensures missing { (result ≡ Err NoSuchGroup) ↔ (T.contents table.now name.now ≡ None) }
    ensures faults { IfErr result (λ fault. (fault ≡ NoSuchGroup) ⊎ (fault ≡ OutOfMemory)) }
{
    if !table.has(name) {
        return Err(QueryFault::NoSuchGroup);
    }
    Ok(Items::from_vec(table.list(alloc, name, Scope::All)?))
}

/// The members of a group on one node, in the order of pids, each as often as its count.
///
/// Errors: `NoSuchGroup` where the group is absent; else `OutOfMemory`.
///
/// Cost: that of the table's `list`.
///
/// The rule: `get_local_members/1` of the pg2 manual page.
pub fn local_members<T: GroupTable>(
    alloc: Global,
    table: &T,
    own: &Atom,
    name: &Term,
) -> Result<Items<Pid>, QueryFault>
    ensures ok { IfOk result (λ pids. IsMemberList (T.contents table.now name.now) (at_node own.now) pids) }
    ensures missing { (result ≡ Err NoSuchGroup) ↔ (T.contents table.now name.now ≡ None) }
    ensures faults { IfErr result (λ fault. (fault ≡ NoSuchGroup) ⊎ (fault ≡ OutOfMemory)) }
{
    if !table.has(name) {
        return Err(QueryFault::NoSuchGroup);
    }
    Ok(Items::from_vec(table.list(alloc, name, Scope::At(own))?))
}

/// The names of all groups, in the order of terms.
///
/// Errors: `AllocError`.
///
/// Cost: that of the table's `groups`.
///
/// The rule: `which_groups/0` of the pg2 manual page.
pub fn which_groups<T: GroupTable>(table: &T) -> Result<Items<Term>, AllocError>
    ensures names { IfOk result (AreNames (T.contents table.now)) }
    ensures ordered { IfOk result (IsSorted term_cmp) }
{
    let mut names = table.groups()?;
    names.sort()?;
    Ok(Items::from_vec(names))
}
