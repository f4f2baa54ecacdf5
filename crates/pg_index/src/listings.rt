ghost use Rattle.std.specs.Prelude.{◌≡◌, ℕ, true, false, OnOk, OnErr, IfOk, nat_eq, nat_lt};
ghost use Rattle.std.specs.BTreeSet.{contains};
ghost use Rattle.pg_term.specs.declared.pid.Pid.{Pid};
ghost use Rattle.pg_term.specs.Same.{same_pid};
ghost use Rattle.pg_group.specs.Scope.{at_node};
ghost use Rattle.pg_index_members.specs.Rows.{counts_of};
ghost use Rattle.pg_index.specs.Groups.{counts_by_number, is_used, without_pid, without_nodes};
ghost use Rattle.pg_index.specs.Listings.{process_of, listing_of, listing_cmp, listed_in};
ghost use Rattle.pg_index.specs.Listings.{listed_as, IsFirstListing, AreGroupsOf, ListsByMember};

use crate::groups::{self, Groups};
use crate::listing::{Listing, Process};
use pg_index_members::Members;
use pg_term::{Atom, Pid};
use std::alloc::{AllocError, Global};
use std::collections::{BTreeMap, BTreeSet};

/// The listings of the processes of each node.
pub type Listings = BTreeMap<Atom, BTreeSet<Listing>>;

/// What a pid says beside its node.
pub fn process_in(pid: &Pid) -> Process
    ensures { result ≡ process_of pid.now }
{
    Process {
        serial: pid.serial,
        id: pid.id,
        creation: pid.creation,
    }
}

/// The listing of a pid in a group.
pub fn listing(pid: &Pid, group: u32) -> Listing
    ensures { result ≡ listing_of pid.now group }
{
    Listing {
        process: process_in(pid),
        group,
    }
}

/// Lists a pid in a group.
///
/// Errors: `AllocError`, which changes nothing.
///
/// Cost: memory for a new listing alone.
pub fn add(listings: &mut Listings, alloc: Global, pid: &Pid, group: u32) -> Result<(), AllocError>
    ensures ok { OnOk result (listed_in listings.new ≡ listed_as (listed_in listings.old) pid.now group true) }
    ensures err { OnErr result (listed_in listings.new ≡ listed_in listings.old) }
    ensures memory { OnErr result (listed_in listings.old pid.now group ≡ false) }
{
    match listings.get_mut(&pid.node) {
        Some(set) => {
            set.insert(listing(pid, group))?;
            Ok(())
        }
        None => {
            let mut set = BTreeSet::new(alloc);
            set.insert(listing(pid, group))?;
            listings.insert(pid.node.copy()?, set)?;
            Ok(())
        }
    }
}

/// Lists a pid no longer in a group.
///
/// Cost: no memory.
pub fn remove(listings: &mut Listings, pid: &Pid, group: u32)
    ensures { listed_in listings.new ≡ listed_as (listed_in listings.old) pid.now group false }
{
    match listings.get_mut(&pid.node) {
        Some(set) => {
            set.remove(&listing(pid, group));
        }
        None => (),
    }
}

/// Equal listings.
///
/// Errors: `AllocError`.
///
/// Cost: memory for each, and for the names of nodes.
pub fn copy(listings: &Listings, alloc: Global) -> Result<Listings, AllocError>
    ensures { IfOk result (λ copy. listed_in copy ≡ listed_in listings.now) }
{
    let mut copy = BTreeMap::new(alloc);
    for (node, set) in listings {
        copy.insert(node.copy()?, set.clone()?)?;
    }
    Ok(copy)
}

/// Lists the members of a group no longer in it.
///
/// Cost: no memory.
pub fn remove_all(listings: &mut Listings, mut members: Members, group: u32)
    requires { (pid : Pid) → listed_in listings.old pid group ≡ nat_lt 0 (counts_of members pid) }
    ensures none { (pid : Pid) → listed_in listings.new pid group ≡ false }
    ensures others { (pid : Pid) (other : ℕ) → nat_eq group other ≡ false
        → listed_in listings.new pid other ≡ listed_in listings.old pid other }
{
    while let Some(row) = members.take_last() {
        remove(listings, &row.pid, group);
    }
}

/// The first group that a process is listed in.
pub fn first_of(set: &BTreeSet<Listing>, process: Process) -> Option<u32>
    ensures { IsFirstListing set.now process result }
{
    let from = Listing { process, group: 0 };
    match set.range(from..).next() {
        Some(listing) if listing.process == process => Some(listing.group),
        _ => None,
    }
}

/// Takes a pid of the node of these listings out of each group that it is listed in, and out of the listings.
///
/// Cost: no memory.
pub fn drop_listed(set: &mut BTreeSet<Listing>, groups: &mut Groups, pid: &Pid)
    requires { AreGroupsOf set.old (counts_by_number groups.old) pid.now }
    ensures counts { counts_by_number groups.new ≡ without_pid (counts_by_number groups.old) pid.now }
    ensures used { is_used groups.new ≡ is_used groups.old }
    ensures none { (group : ℕ) → contains listing_cmp set.new (listing_of pid.now group) ≡ false }
    ensures others { (other : Pid) (group : ℕ) → pid.now.node ≡ other.node → same_pid pid.now other ≡ false
        → contains listing_cmp set.new (listing_of other group) ≡ contains listing_cmp set.old (listing_of other group) }
{
    let process = process_in(pid);
    while let Some(group) = first_of(set, process) {
        groups::remove(groups, group, pid);
        set.remove(&Listing { process, group });
    }
}

/// Takes a pid out of each group, and out of the listings.
///
/// Cost: no memory.
pub fn drop_pid(listings: &mut Listings, groups: &mut Groups, pid: &Pid)
    requires { ListsByMember (listed_in listings.old) (counts_by_number groups.old) }
    ensures counts { counts_by_number groups.new ≡ without_pid (counts_by_number groups.old) pid.now }
    ensures used { is_used groups.new ≡ is_used groups.old }
    ensures listed { ListsByMember (listed_in listings.new) (counts_by_number groups.new) }
{
    match listings.get_mut(&pid.node) {
        Some(set) => drop_listed(set, groups, pid),
        None => (),
    }
}

/// Takes each process of a node that one of these listings, which are the node's, names out of the group of that
/// listing.
///
/// Cost: no memory; once over the listings.
pub fn drop_each(groups: &mut Groups, set: BTreeSet<Listing>, node: Atom)
    requires { (pid : Pid) → at_node node pid ≡ true → AreGroupsOf set (counts_by_number groups.old) pid }
    ensures counts { counts_by_number groups.new ≡ without_nodes (counts_by_number groups.old) node }
    ensures used { is_used groups.new ≡ is_used groups.old }
{
    let mut pid = Pid {
        node,
        id: 0,
        serial: 0,
        creation: 0,
    };
    for listing in set {
        pid.id = listing.process.id;
        pid.serial = listing.process.serial;
        pid.creation = listing.process.creation;
        groups::remove(groups, listing.group, &pid);
    }
}

/// Takes the pids of a node out of each group, and out of the listings.
///
/// Cost: no memory.
pub fn drop_node(listings: &mut Listings, groups: &mut Groups, node: &Atom)
    requires { ListsByMember (listed_in listings.old) (counts_by_number groups.old) }
    ensures counts { counts_by_number groups.new ≡ without_nodes (counts_by_number groups.old) node.now }
    ensures used { is_used groups.new ≡ is_used groups.old }
    ensures listed { ListsByMember (listed_in listings.new) (counts_by_number groups.new) }
{
    if let Some((owner, set)) = listings.remove_entry(node) {
        drop_each(groups, set, owner);
    }
}
