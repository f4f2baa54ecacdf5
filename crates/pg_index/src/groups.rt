ghost use Rattle.std.specs.Prelude.{◌≡◌, ◌+◌, ◌<◌, ◌⊎◌, ◌↔◌, true, IsTrue, Some, OnOk, OnErr, IfOk, nat_eq};
ghost use Rattle.pg_term.specs.Same.{same_pid};
ghost use Rattle.pg_group.specs.Functions.{upd};
ghost use Rattle.pg_group.specs.Value.{with_one_less, nobody};
ghost use Rattle.pg_index.specs.Groups.{counts_by_number, is_used, counts_changed};
ghost use Rattle.pg_group.specs.Table.{LacksRoom};

use pg_group::Scope;
use pg_index_members::Members;
use pg_term::Pid;
use slab::Slab;
use std::alloc::AllocError;

/// The members of each group, by the group's number.
pub type Groups = Slab<Members>;

/// The count of a pid in a group.
pub fn count(groups: &Groups, group: u32, pid: &Pid) -> u64
    ensures { result ≡ counts_by_number groups.now group pid.now }
{
    match groups.get(group as usize) {
        Some(members) => members.count(pid),
        None => 0,
    }
}

/// Whether nobody is in a group.
pub fn is_empty(groups: &Groups, group: u32) -> bool
    ensures { IsTrue result ↔ (counts_by_number groups.now group ≡ nobody) }
{
    match groups.get(group as usize) {
        Some(members) => members.size(Scope::All) == 0,
        None => true,
    }
}

/// Adds to the count of a pid, and gives the count after that.
///
/// Errors: `AllocError`, which changes nothing.
///
/// Cost: memory for a new member alone.
pub fn add(groups: &mut Groups, group: u32, pid: &Pid, more: u64) -> Result<u64, AllocError>
    requires used { is_used groups.old group ≡ true }
    requires some { 0 < more }
    ensures ok { OnOk result (counts_by_number groups.new ≡ counts_changed (counts_by_number groups.old) group pid.now
        (counts_by_number groups.old group pid.now + more)) }
    ensures count { IfOk result (λ count. count ≡ counts_by_number groups.old group pid.now + more) }
    ensures err { OnErr result (counts_by_number groups.new ≡ counts_by_number groups.old) }
    ensures memory { OnErr result ((counts_by_number groups.old group pid.now ≡ 0)
        ⊎ LacksRoom (Some (counts_by_number groups.old group)) more) }
    ensures used { is_used groups.new ≡ is_used groups.old }
{
    match groups.get_mut(group as usize) {
        Some(members) => members.add(pid, more),
        None => unreachable!(),
    }
}

/// Takes one from the count of a pid, if it is a member, and gives the count before.
///
/// Cost: no memory.
pub fn take_one(groups: &mut Groups, group: u32, pid: &Pid) -> u64
    ensures counts { counts_by_number groups.new
        ≡ upd nat_eq (counts_by_number groups.old) group (with_one_less (counts_by_number groups.old group) pid.now) }
    ensures count { result ≡ counts_by_number groups.old group pid.now }
    ensures used { is_used groups.new ≡ is_used groups.old }
{
    match groups.get_mut(group as usize) {
        Some(members) => members.take_one(pid),
        None => 0,
    }
}

/// Takes a pid out of a group, whatever its count.
///
/// Cost: no memory.
pub fn remove(groups: &mut Groups, group: u32, pid: &Pid)
    ensures counts { counts_by_number groups.new ≡ counts_changed (counts_by_number groups.old) group pid.now 0 }
    ensures used { is_used groups.new ≡ is_used groups.old }
{
    match groups.get_mut(group as usize) {
        Some(members) => members.remove(pid),
        None => (),
    }
}
