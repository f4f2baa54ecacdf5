ghost use Rattle.std.specs.Prelude.{◌≡◌, ◌+◌, ◌<◌, ◌^◌, ◌⊎◌, true, false, Some};
ghost use Rattle.std.specs.Prelude.{max, OnOk, OnErr, IfOk, nat_eq, option_copied};
ghost use Rattle.slab.specs.Slab.{get};
ghost use Rattle.pg_group.specs.Ended.{ended_of};
ghost use Rattle.pg_group.specs.Functions.{upd};
ghost use Rattle.pg_group.specs.Value.{with_one_less, nobody};
ghost use Rattle.pg_index.specs.Groups.{counts_by_number, is_used, counts_changed, counts_raised};
ghost use Rattle.pg_index.specs.Groups.{without_pid, without_nodes, IsPartlyRaised};
ghost use Rattle.pg_group.specs.Table.{LacksRoom};
ghost use Rattle.pg_index.specs.Listings.{listed_in, ListsByMember};

use crate::groups::{self, Groups};
use crate::listings::{self, Listings};
use pg_group::Ended;
use pg_index_members::Members;
use pg_term::{Atom, Pid};
use slab::Slab;
use std::alloc::{AllocError, Global};
use std::collections::BTreeMap;

/// The members of each group by the group's number, and the numbers of the groups of each pid.
#[derive(Drop)]
pub struct Memberships {
    pub groups: Groups,
    pub listings: Listings,
    alloc: Global,
    ghost each: { ListsByMember (listed_in listings) (counts_by_number groups) },
}

impl Memberships {
    /// No group.
    ///
    /// Cost: no memory.
    pub fn new(alloc: Global) -> Memberships
        ensures counts { counts_by_number result.groups ≡ (λ group. nobody) }
        ensures used { is_used result.groups ≡ (λ group. false) }
    {
        Memberships {
            groups: Slab::new(alloc),
            listings: BTreeMap::new(alloc),
            alloc,
        }
    }

    /// The members of a group.
    ///
    /// Cost: no memory.
    pub fn members(&self, group: u32) -> Option<&Members>
        ensures { option_copied result ≡ get self.now.groups group }
    {
        self.groups.get(group as usize)
    }

    /// The count of a pid in a group.
    ///
    /// Cost: no memory.
    pub fn count(&self, group: u32, pid: &Pid) -> u64
        ensures { result ≡ counts_by_number self.now.groups group pid.now }
    {
        groups::count(&self.groups, group, pid)
    }

    /// Makes an empty group, and gives its number.
    ///
    /// Errors: `AllocError`, which changes nothing.
    ///
    /// Cost: memory for a group.
    pub fn open(&mut self) -> Result<u32, AllocError>
        ensures free { IfOk result (λ group. is_used self.old.groups group ≡ false) }
        ensures used { IfOk result (λ group. is_used self.new.groups ≡ upd nat_eq (is_used self.old.groups) group true) }
        ensures counts { counts_by_number self.new.groups ≡ counts_by_number self.old.groups }
        ensures nobody { IfOk result (λ group. counts_by_number self.old.groups group ≡ nobody) }
        ensures err { OnErr result (is_used self.new.groups ≡ is_used self.old.groups) }
    {
        let Ok(group) = u32::try_from(self.groups.vacant_key()) else {
            return Err(AllocError);
        };
        self.groups.insert(Members::new(self.alloc))?;
        Ok(group)
    }

    /// Adds to the count of a pid.
    ///
    /// Errors: `AllocError`, which changes nothing.
    ///
    /// Cost: memory for a new member alone.
    pub fn add(&mut self, group: u32, pid: &Pid, more: u64) -> Result<(), AllocError>
        requires used { is_used self.old.groups group ≡ true }
        requires some { 0 < more }
        ensures ok { OnOk result (counts_by_number self.new.groups ≡ counts_changed (counts_by_number self.old.groups) group pid.now
            (counts_by_number self.old.groups group pid.now + more)) }
        ensures err { OnErr result (counts_by_number self.new.groups ≡ counts_by_number self.old.groups) }
        ensures memory { OnErr result ((counts_by_number self.old.groups group pid.now ≡ 0)
            ⊎ LacksRoom (Some (counts_by_number self.old.groups group)) more) }
        ensures used { is_used self.new.groups ≡ is_used self.old.groups }
    {
        let count = groups::add(&mut self.groups, group, pid, more)?;
        if count != more {
            return Ok(());
        }
        match listings::add(&mut self.listings, self.alloc, pid, group) {
            Ok(()) => Ok(()),
            Err(error) => {
                groups::remove(&mut self.groups, group, pid);
                Err(error)
            }
        }
    }

    /// Raises the count of a pid to `least`, where it is below.
    ///
    /// Errors: `AllocError`, which changes nothing.
    ///
    /// Cost: memory for a new member alone.
    pub fn raise(&mut self, group: u32, pid: &Pid, least: u64) -> Result<(), AllocError>
        requires { is_used self.old.groups group ≡ true }
        ensures ok { OnOk result (counts_by_number self.new.groups ≡ counts_changed (counts_by_number self.old.groups) group pid.now
            (max (counts_by_number self.old.groups group pid.now) least)) }
        ensures err { OnErr result (counts_by_number self.new.groups ≡ counts_by_number self.old.groups) }
        ensures used { is_used self.new.groups ≡ is_used self.old.groups }
    {
        let count = groups::count(&self.groups, group, pid);
        if count < least {
            self.add(group, pid, least - count)
        } else {
            Ok(())
        }
    }

    /// Raises the count of each pid that has not ended to how often it is in a list.
    ///
    /// Errors: `AllocError`, which may leave some raised.
    ///
    /// Cost: memory for new members; and for each of the list as long as the call lasts, where the group has members.
    pub fn raise_all(&mut self, group: u32, pids: &[Pid], ended: &Ended) -> Result<(), AllocError>
        requires { is_used self.old.groups group ≡ true }
        ensures ok { OnOk result (counts_by_number self.new.groups
            ≡ counts_raised (counts_by_number self.old.groups) group pids.now (ended_of ended.now)) }
        ensures err { OnErr result (IsPartlyRaised (counts_by_number self.old.groups) (counts_by_number self.new.groups) group
            pids.now (ended_of ended.now)) }
        ensures used { is_used self.new.groups ≡ is_used self.old.groups }
    {
        if groups::is_empty(&self.groups, group) {
            self.add_each(group, pids, ended)
        } else {
            self.raise_each(group, pids, ended)
        }
    }

    /// The same in any group.
    fn raise_each(&mut self, group: u32, pids: &[Pid], ended: &Ended) -> Result<(), AllocError>
        requires { is_used self.old.groups group ≡ true }
        ensures ok { OnOk result (counts_by_number self.new.groups
            ≡ counts_raised (counts_by_number self.old.groups) group pids.now (ended_of ended.now)) }
        ensures err { OnErr result (IsPartlyRaised (counts_by_number self.old.groups) (counts_by_number self.new.groups) group
            pids.now (ended_of ended.now)) }
        ensures used { is_used self.new.groups ≡ is_used self.old.groups }
    {
        let mut seen = Members::new(self.alloc);
        for pid in pids {
            if !ended.has(pid) {
                let count = seen.add(pid, 1)?;
                self.raise(group, pid, count)?;
            }
        }
        Ok(())
    }

    /// The same in a group that has no members.
    fn add_each(&mut self, group: u32, pids: &[Pid], ended: &Ended) -> Result<(), AllocError>
        requires used { is_used self.old.groups group ≡ true }
        requires nobody { counts_by_number self.old.groups group ≡ nobody }
        ensures ok { OnOk result (counts_by_number self.new.groups
            ≡ counts_raised (counts_by_number self.old.groups) group pids.now (ended_of ended.now)) }
        ensures err { OnErr result (IsPartlyRaised (counts_by_number self.old.groups) (counts_by_number self.new.groups) group
            pids.now (ended_of ended.now)) }
        ensures used { is_used self.new.groups ≡ is_used self.old.groups }
    {
        for pid in pids {
            if !ended.has(pid) {
                self.add(group, pid, 1)?;
            }
        }
        Ok(())
    }

    /// Takes one from the count of a pid, if it is a member.
    ///
    /// Cost: no memory.
    pub fn take_one(&mut self, group: u32, pid: &Pid)
        ensures counts { counts_by_number self.new.groups
            ≡ upd nat_eq (counts_by_number self.old.groups) group (with_one_less (counts_by_number self.old.groups group) pid.now) }
        ensures used { is_used self.new.groups ≡ is_used self.old.groups }
    {
        let count = groups::take_one(&mut self.groups, group, pid);
        if count == 1 {
            listings::remove(&mut self.listings, pid, group);
        }
    }

    /// Equal groups by the same numbers.
    ///
    /// Errors: `AllocError`.
    ///
    /// Cost: memory for each group, for each member with the name of its node, and for each listing.
    pub fn copy(&self) -> Result<Memberships, AllocError>
        ensures counts { IfOk result (λ copy. counts_by_number copy.groups ≡ counts_by_number self.now.groups) }
        ensures used { IfOk result (λ copy. is_used copy.groups ≡ is_used self.now.groups) }
    {
        let groups = self.groups.clone()?;
        let listings = listings::copy(&self.listings, self.alloc)?;
        Ok(Memberships {
            groups,
            listings,
            alloc: self.alloc,
        })
    }

    /// Makes a group's number free again, with its members.
    ///
    /// Cost: no memory, and time for each member.
    pub fn close(&mut self, group: u32)
        ensures counts { counts_by_number self.new.groups ≡ upd nat_eq (counts_by_number self.old.groups) group nobody }
        ensures used { is_used self.new.groups ≡ upd nat_eq (is_used self.old.groups) group false }
    {
        if let Some(members) = self.groups.try_remove(group as usize) {
            listings::remove_all(&mut self.listings, members, group);
        }
    }

    /// Takes a pid out of each group.
    ///
    /// Cost: no memory, and time for the groups of that pid alone.
    pub fn drop_pid(&mut self, pid: &Pid)
        ensures counts { counts_by_number self.new.groups ≡ without_pid (counts_by_number self.old.groups) pid.now }
        ensures used { is_used self.new.groups ≡ is_used self.old.groups }
    {
        listings::drop_pid(&mut self.listings, &mut self.groups, pid);
    }

    /// Takes the pids of a node out of each group.
    ///
    /// Cost: no memory, and time for what it removes.
    pub fn drop_node(&mut self, node: &Atom)
        ensures counts { counts_by_number self.new.groups ≡ without_nodes (counts_by_number self.old.groups) node.now }
        ensures used { is_used self.new.groups ≡ is_used self.old.groups }
    {
        listings::drop_node(&mut self.listings, &mut self.groups, node);
    }
}
