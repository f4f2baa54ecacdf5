ghost use Rattle.pg_group.specs.Counted.{NoneIsZero};

use crate::append::append_member;
use crate::ended::Ended;
use crate::scope::Scope;
use pg_term::{Atom, Pid};
use std::alloc::{AllocError, Global};
use std::collections::BTreeMap;

/// How often each pid is a member of one group. A pid that is none is not kept: no count is 0.
#[derive(Drop)]
pub struct Members {
    counts: BTreeMap<Pid, u64>,
    ghost living: { NoneIsZero counts },
}

impl Members {
    ghost use Rattle.std.specs.Prelude.{◌≡◌, ◌+◌, ◌<◌, ◌^◌, max, min, List, length};
    ghost use Rattle.std.specs.Prelude.{slice_get, Some, option_copied, OnOk, OnErr, IfOk};
    ghost use Rattle.pg_term.specs.Same.{same_pid};
    ghost use Rattle.pg_term.specs.declared.pid.Pid.{Pid};
    ghost use Rattle.pg_group.specs.Ended.{ended_of};
    ghost use Rattle.pg_group.specs.Functions.{upd};
    ghost use Rattle.pg_group.specs.Value.{nobody, with_one_more, with_one_less, greater, told, none_of, IsBetween};
    ghost use Rattle.pg_group.specs.Rows.{counts_of};
    ghost use Rattle.pg_group.specs.Scope.{in_scope, at_node};
    ghost use Rattle.pg_group.specs.Members.{IsMemberList};

    /// Nobody is a member.
    ///
    /// Cost: no memory.
    pub fn new(alloc: Global) -> Members
        ensures { counts_of result ≡ nobody }
    {
        Members {
            counts: BTreeMap::new(alloc),
        }
    }

    /// The count of a pid.
    pub fn count(&self, pid: &Pid) -> u64
        ensures { result ≡ counts_of self.now pid.now }
    {
        self.counts.get(pid).copied().unwrap_or(0)
    }

    /// Adds one to the count of a pid.
    ///
    /// Errors: `AllocError`.
    ///
    /// Cost: memory for a new member alone.
    pub fn add_one(&mut self, pid: &Pid) -> Result<(), AllocError>
        requires { counts_of self.old pid.now + 1 < 2 ^ 64 }
        ensures ok { OnOk result (counts_of self.new ≡ with_one_more (counts_of self.old) pid.now) }
        ensures err { OnErr result (counts_of self.new ≡ counts_of self.old) }
        ensures memory { OnErr result (counts_of self.old pid.now ≡ 0) }
    {
        match self.counts.get_mut(pid) {
            Some(count) => {
                *count += 1;
                Ok(())
            }
            None => {
                self.counts.insert(pid.copy()?, 1)?;
                Ok(())
            }
        }
    }

    /// Takes one from the count of a pid, if it is a member.
    pub fn take_one(&mut self, pid: &Pid)
        ensures { counts_of self.new ≡ with_one_less (counts_of self.old) pid.now }
    {
        match self.counts.get_mut(pid) {
            None => (),
            Some(count) if *count > 1 => *count -= 1,
            Some(_) => {
                self.counts.remove(pid);
            }
        }
    }

    /// Takes a pid out, whatever its count.
    pub fn take_all(&mut self, pid: &Pid)
        ensures { counts_of self.new ≡ none_of (same_pid pid.now) (counts_of self.old) }
    {
        self.counts.remove(pid);
    }

    /// Takes the pids of a node out, whatever their counts.
    pub fn take_all_of(&mut self, node: &Atom)
        ensures { counts_of self.new ≡ none_of (at_node node.now) (counts_of self.old) }
    {
        self.counts.retain(|pid, _| *node != pid.node);
    }

    /// Raises the count of a pid to `least`, where it is below.
    fn raise(&mut self, pid: &Pid, least: u64) -> Result<(), AllocError>
        requires { 0 < least }
        ensures ok { OnOk result (counts_of self.new
            ≡ upd same_pid (counts_of self.old) pid.now (max (counts_of self.old pid.now) least)) }
        ensures err { OnErr result (counts_of self.new ≡ counts_of self.old) }
    {
        match self.counts.get_mut(pid) {
            Some(count) => {
                *count = (*count).max(least);
                Ok(())
            }
            None => {
                self.counts.insert(pid.copy()?, least)?;
                Ok(())
            }
        }
    }

    /// Raises the count of each pid that has not ended to how often it is in a list.
    ///
    /// Errors: `AllocError`, which may leave some raised.
    ///
    /// Cost: memory for new members alone.
    pub fn raise_all(
        &mut self,
        alloc: Global,
        pids: &[Pid],
        ended: &Ended,
    ) -> Result<(), AllocError>
        ensures ok { OnOk result (counts_of self.new
            ≡ greater (counts_of self.old) (told pids.now (ended_of ended.now))) }
        ensures err { OnErr result (IsBetween (counts_of self.old)
            (greater (counts_of self.old) (told pids.now (ended_of ended.now))) (counts_of self.new)) }
    {
        let mut seen = Members::new(alloc);
        for pid in pids {
            if !ended.has(pid) {
                seen.add_one(pid)?;
                self.raise(pid, seen.count(pid))?;
            }
        }
        Ok(())
    }

    /// How many members there are, each as often as its count, or `u64::MAX` where there are more.
    pub fn size(&self, scope: Scope<'_>) -> u64
        ensures { (pids : List Pid) × (IsMemberList (Some (counts_of self.now)) (in_scope scope.entry) pids
            × (result ≡ min (length pids) u64.MAX)) }
    {
        let mut size = 0_u64;
        for (pid, count) in &self.counts {
            if scope.has(pid) {
                size = size.saturating_add(*count);
            }
        }
        size
    }

    /// The member at a place.
    pub fn pid_at(&self, scope: Scope<'_>, place: u64) -> Option<&Pid>
        ensures { (pids : List Pid) × (IsMemberList (Some (counts_of self.now)) (in_scope scope.entry) pids
            × (option_copied result ≡ slice_get pids place)) }
    {
        let mut left = place;
        for (pid, count) in &self.counts {
            if scope.has(pid) {
                if left < *count {
                    return Some(pid);
                }
                left -= *count;
            }
        }
        None
    }

    /// The members, each as often as its count, by one walk.
    ///
    /// Errors: `AllocError`.
    ///
    /// Cost: memory for each time that each is listed, and for the name of its node.
    pub fn list(&self, alloc: Global, scope: Scope<'_>) -> Result<Vec<Pid>, AllocError>
        ensures { IfOk result (λ pids. IsMemberList (Some (counts_of self.now)) (in_scope scope.entry) pids.items) }
    {
        let mut pids = Vec::new(alloc);
        for (pid, count) in &self.counts {
            if scope.has(pid) {
                append_member(&mut pids, pid, *count)?;
            }
        }
        Ok(pids)
    }

    /// The same counts.
    ///
    /// Errors: `AllocError`.
    ///
    /// Cost: memory for each member.
    pub fn copy(&self, alloc: Global) -> Result<Members, AllocError>
        ensures { IfOk result (λ copy. counts_of copy ≡ counts_of self.now) }
    {
        let mut counts = BTreeMap::new(alloc);
        for (pid, count) in &self.counts {
            counts.insert(pid.copy()?, *count)?;
        }
        Ok(Members { counts })
    }
}
