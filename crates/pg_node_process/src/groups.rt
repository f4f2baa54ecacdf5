//! The groups with which a node begins, as its host brings them.

ghost use Rattle.std.specs.Prelude.{◌≡◌, [], Err, IfOk, IfSome, IsOk, OnErr, false, length};
ghost use Rattle.std.specs.List.{list_all};
ghost use Rattle.pg_term.specs.declared.pid.Pid.{Pid};
ghost use Rattle.pg_step.specs.PgMessageTypes.Members.{HasFewMembers};
ghost use Rattle.pg_step.specs.PgGroup.Table.{all_merged};
ghost use Rattle.pg_step.specs.PgEnds.Processes.{made_of, node_of};
ghost use Rattle.pg_step.specs.PgGroup.Ended.{ended_of};
ghost use Rattle.pg_node_process.specs.declared.groups.GroupsFault.TheVariants.{OutOfMemory};
ghost use Rattle.pg_node_process.specs.Bodies.{IsTerm};
ghost use Rattle.pg_node_process.specs.Groups.{Brings, are_names as are_names_in, are_own as are_own_of, brought, checked, groups_spelled, is_own as is_own_of};

use pg_node_requests::groups_of;
use pg_step::{Ended, GroupTable, Processes, are_told_once, check_name, decode};
use pg_term::faults::{BAD_CONFIG, FOREIGN_PID, NAME_TOO_LARGE, OUT_OF_MEMORY};
use pg_term::{Items, Pid, Term, TermFault};
use std::alloc::{AllocError, Global};
use thiserror::Error;

/// Why a node can't begin with the groups that its host brings.
#[derive(Clone, Copy, Debug, PartialEq, Eq, Error)]
pub enum GroupsFault {
    /// A growth of memory was refused.
    #[error("out of memory")]
    OutOfMemory,
    /// The bytes spell no list of groups, or one that names a group twice.
    #[error("no list of groups, or one that names a group twice")]
    BadConfig,
    /// A member is a process of another node, or none of those that count as made.
    #[error("a member is no process of the node")]
    ForeignPid,
    /// The name of a group takes more than 1,024 bytes or nests more than 32 levels deep.
    #[error("the name of a group is too large")]
    NameTooLarge,
}

impl GroupsFault {
    ghost use Rattle.pg_node_process.specs.Groups.{groups_number_of};

    /// The number of the fault in this project's one list of faults.
    ///
    /// Cost: no memory.
    pub fn number(self) -> u8
        ensures { result ≡ groups_number_of self }
    {
        match self {
            GroupsFault::OutOfMemory => OUT_OF_MEMORY,
            GroupsFault::BadConfig => BAD_CONFIG,
            GroupsFault::ForeignPid => FOREIGN_PID,
            GroupsFault::NameTooLarge => NAME_TOO_LARGE,
        }
    }
}

impl From<AllocError> for GroupsFault {
    ghost use Rattle.std.specs.Prelude.{◌≡◌};
    ghost use Rattle.pg_node_process.specs.declared.groups.GroupsFault.TheVariants.{OutOfMemory};

    ghost from_gives = { λ _ e. e ≡ OutOfMemory };

    fn from(_e: AllocError) -> GroupsFault {
        GroupsFault::OutOfMemory
    }
}

/// The groups that a host brings: those of a term `[{Name, [Pid, ..]}, ..]`, which is all of `bytes`. `processes`: those of the node.
///
/// Errors, the first that holds: `BadConfig`, where the bytes spell no such term, or a group is named twice; `ForeignPid`, where a member is
/// none of these processes; `NameTooLarge`. `OutOfMemory` may come in the place of each, but only of bytes that spell a term.
///
/// Cost: that of reading the term, and of `are_told_once`.
pub fn read_groups(
    alloc: Global,
    bytes: &[u8],
    processes: &Processes,
) -> Result<Items<(Term, Items<Pid>)>, GroupsFault>
    ensures groups { Brings (brought (node_of processes.now) (made_of processes.now) bytes.now) result }
    ensures few { IfOk result (λ groups. HasFewMembers (length bytes.now) groups) }
    // So is what spells no term, whatever memory there is.
    ensures memory { result ≡ Err OutOfMemory → IsTerm bytes.now }
{
    let Some(groups) = groups_in(alloc, bytes)? else {
        return Err(GroupsFault::BadConfig);
    };
    match check(alloc, groups.as_slice(), processes) {
        Ok(()) => Ok(groups),
        Err(fault) => {
            drop(groups);
            Err(fault)
        }
    }
}

/// The groups that bytes list.
#[tactic(auto, using(crate::proofs::Few::few_spelled))]
fn groups_in(alloc: Global, bytes: &[u8]) -> Result<Option<Items<(Term, Items<Pid>)>>, AllocError>
    ensures groups { IfOk result (λ groups. groups ≡ groups_spelled bytes.now) }
    ensures few { IfOk result (λ groups. IfSome groups (HasFewMembers (length bytes.now))) }
    ensures err { OnErr result (IsTerm bytes.now) }
{
    match decode(alloc, bytes) {
        Ok(term) => groups_of(alloc, term),
        Err(TermFault::OutOfMemory) => Err(AllocError),
        Err(_) => Ok(None),
    }
}

/// Whether a node can begin with these groups.
fn check(
    alloc: Global,
    groups: &[(Term, Items<Pid>)],
    processes: &Processes,
) -> Result<(), GroupsFault>
    ensures { result ≡ checked (node_of processes.now) (made_of processes.now) groups.now }
{
    if !are_told_once(alloc, groups) {
        return Err(GroupsFault::BadConfig);
    }
    if !are_own(alloc, groups, processes) {
        return Err(GroupsFault::ForeignPid);
    }
    if !are_names(groups) {
        return Err(GroupsFault::NameTooLarge);
    }
    Ok(())
}

/// Whether each member is one of these processes.
fn are_own(alloc: Global, groups: &[(Term, Items<Pid>)], processes: &Processes) -> bool
    ensures { result ≡ are_own_of (node_of processes.now) (made_of processes.now) groups.now }
{
    let nobody = Ended::new(alloc);
    for group in groups {
        if !all_own(group.1.as_slice(), processes, &nobody) {
            return false;
        }
    }
    true
}

fn all_own(members: &[Pid], processes: &Processes, nobody: &Ended) -> bool
    requires { ended_of nobody.now ≡ (λ pid. false) }
    ensures { result ≡ list_all (is_own_of (node_of processes.now) (made_of processes.now)) members.now }
{
    for pid in members {
        if !is_own(pid, processes, nobody) {
            return false;
        }
    }
    true
}

/// Whether a pid is one of these processes, of which nobody has ended.
fn is_own(pid: &Pid, processes: &Processes, nobody: &Ended) -> bool
    requires { ended_of nobody.now ≡ (λ pid. false) }
    ensures { result ≡ is_own_of (node_of processes.now) (made_of processes.now) pid.now }
{
    processes.finish(pid, nobody).is_ok()
}

/// Whether each name of a group can be sent.
fn are_names(groups: &[(Term, Items<Pid>)]) -> bool
    ensures { result ≡ are_names_in groups.now }
{
    for group in groups {
        if check_name(&group.0).is_err() {
            return false;
        }
    }
    true
}

/// A table with these groups, too.
///
/// Errors: `AllocError`, by which the table is gone. It comes only where there is a group.
///
/// Cost: that of `GroupTable::merge` for each.
pub fn filled<T: GroupTable + Drop>(
    alloc: Global,
    table: T,
    groups: &[(Term, Items<Pid>)],
) -> Result<T, AllocError>
    ensures groups { IfOk result (λ full. T.contents full ≡ all_merged (T.contents table) groups.now (λ pid. false)) }
    ensures none { groups.now ≡ [] → IsOk result }
{
    let nobody = Ended::new(alloc);
    let mut full = table;
    for (name, members) in groups {
        full.merge(name, members.as_slice(), &nobody)?;
    }
    Ok(full)
}
