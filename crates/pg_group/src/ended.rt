ghost use Rattle.std.specs.Prelude.{◌≡◌, [], true, false, None, IsTrue, ◌↔◌, IfOk, OnOk, OnErr};
ghost use Rattle.std.specs.BTreeMap.{get};
ghost use Rattle.std.specs.BTreeSet.{insert_key};
ghost use Rattle.std.specs.List.{list_all, filter};
ghost use Rattle.std.specs.List.Sorted.{IsStrictlySortedBy};
ghost use Rattle.pg_term.specs.Same.{same_pid, atom_cmp, pid_cmp};
ghost use Rattle.pg_group.specs.Functions.{upd};
ghost use Rattle.pg_group.specs.Scope.{at_node};
ghost use Rattle.pg_group.specs.Numbers.{has_number, pid_at};
ghost use Rattle.pg_group.specs.Ends.{AreCounted, has_pid, pids_at, all_pids, numbers_at};
ghost use Rattle.pg_group.specs.Ended.{ended_of, ended_with, is_whole, single_of, IsEndedCount, IsWithin};

use crate::number::Number;
use crate::numbers::Numbers;
use pg_term::{Atom, Pid};
use std::alloc::{AllocError, Global};
use std::collections::{BTreeMap, BTreeSet};
use std::marker::Model;

/// The pids of processes that have ended: a set that only grows.
#[derive(Drop)]
pub struct Ended {
    /// All pids of these nodes have ended.
    nodes: BTreeSet<Atom>,
    /// The numbers of the pids that were put in one by one, by their nodes.
    numbers: BTreeMap<Atom, Numbers>,
    /// How many these are.
    count: u64,
    alloc: Global,
}

impl Model for Ended {
    ghost use Rattle.pg_group.specs.Ends.{Ends, AreCounted, all_pids};

    ghost Value = { Ends };

    ghost view = { λ e. record { nodes = e.nodes.keys; pids = all_pids e.numbers.entries } };

    ghost invariant = { λ e. AreCounted (all_pids e.numbers.entries) e.count };
}

/// Whether a pid is among those of these numbers.
fn has_pid(numbers: &BTreeMap<Atom, Numbers>, pid: &Pid) -> bool
    ensures { result ≡ has_pid (all_pids numbers.now.entries) pid.now }
{
    // read, so that the proof knows that the nodes are in order
    let _nodes = numbers.len();
    match numbers.get(&pid.node) {
        Some(numbers) => numbers.has(Number::of(pid)),
        None => false,
    }
}

/// Whether a node has all of some numbers.
fn has_all(numbers: &BTreeMap<Atom, Numbers>, alloc: Global, node: &Atom, some: &Numbers) -> bool
    ensures { result ≡ list_all (has_number (numbers_at numbers.now node.now)) some.now }
{
    match numbers.get(node) {
        Some(numbers) => some.is_within(numbers),
        None => {
            let none = Numbers::new(alloc);
            let is_within = some.is_within(&none);
            drop(none);
            is_within
        }
    }
}

/// The pids of a node.
fn list(
    numbers: &BTreeMap<Atom, Numbers>,
    alloc: Global,
    node: &Atom,
) -> Result<Vec<Pid>, AllocError>
    ensures pids { IfOk result (λ pids. pids.items ≡ filter (at_node node.now) (all_pids numbers.now.entries)) }
    ensures ordered { IfOk result (λ pids. IsStrictlySortedBy pid_cmp pids.items) }
{
    let _nodes = numbers.len();
    let mut pids = Vec::new(alloc);
    match numbers.get(node) {
        Some(numbers) => {
            numbers.list(node, &mut pids)?;
            Ok(pids)
        }
        None => Ok(pids),
    }
}

/// Puts the first number of a node in.
fn put_first(
    numbers: &mut BTreeMap<Atom, Numbers>,
    alloc: Global,
    node: Atom,
    number: Number,
) -> Result<(), AllocError>
    requires { get atom_cmp numbers.old node ≡ None }
    ensures ok { OnOk result (all_pids numbers.new.entries ≡ insert_key pid_cmp (all_pids numbers.old.entries) (pid_at node number)) }
    ensures err { OnErr result (all_pids numbers.new.entries ≡ all_pids numbers.old.entries) }
{
    let _nodes = numbers.len();
    let mut first = Numbers::new(alloc);
    first.insert(number)?;
    numbers.insert(node, first)?;
    Ok(())
}

/// Puts the number of a pid in.
fn put(numbers: &mut BTreeMap<Atom, Numbers>, alloc: Global, pid: Pid) -> Result<(), AllocError>
    ensures ok { OnOk result (all_pids numbers.new.entries ≡ insert_key pid_cmp (all_pids numbers.old.entries) pid) }
    ensures err { OnErr result (all_pids numbers.new.entries ≡ all_pids numbers.old.entries) }
{
    let number = Number::of(&pid);
    match numbers.get_mut(&pid.node) {
        Some(numbers) => {
            numbers.insert(number)?;
            Ok(())
        }
        None => put_first(numbers, alloc, pid.node, number),
    }
}

/// The same nodes.
fn copy_nodes(nodes: &BTreeSet<Atom>, alloc: Global) -> Result<BTreeSet<Atom>, AllocError>
    ensures { IfOk result (λ copy. copy.keys ≡ nodes.now.keys) }
{
    let _nodes = nodes.len();
    let mut copy = BTreeSet::new(alloc);
    for node in nodes {
        copy.insert(node.copy()?)?;
    }
    Ok(copy)
}

/// The same numbers.
fn copy_numbers(
    numbers: &BTreeMap<Atom, Numbers>,
    alloc: Global,
) -> Result<BTreeMap<Atom, Numbers>, AllocError>
    ensures { IfOk result (λ copy. copy.entries ≡ numbers.now.entries) }
{
    let _nodes = numbers.len();
    let mut copy = BTreeMap::new(alloc);
    for (node, some) in numbers {
        copy.insert(node.copy()?, some.copy()?)?;
    }
    Ok(copy)
}

impl Ended {
    /// No pid has ended.
    ///
    /// Cost: no memory.
    pub fn new(alloc: Global) -> Ended
        ensures none { ended_of result ≡ (λ pid. false) }
        ensures nodes { result.nodes ≡ [] }
        ensures pids { result.pids ≡ [] }
    {
        Ended {
            nodes: BTreeSet::new(alloc),
            numbers: BTreeMap::new(alloc),
            count: 0,
            alloc,
        }
    }

    /// Whether the pid has ended.
    ///
    /// Cost: no memory; O(log n) in the pids and the nodes that were put in.
    pub fn has(&self, pid: &Pid) -> bool
        ensures { result ≡ ended_of self.now pid.now }
    {
        self.nodes.contains(&pid.node) || has_pid(&self.numbers, pid)
    }

    /// How many pids were put in one by one, or `u64::MAX` where there are more.
    ///
    /// Cost: no memory, and O(1).
    pub fn count(&self) -> u64
        ensures pids { AreCounted self.now.pids result }
        ensures ended { IsEndedCount (ended_of self.now) result }
    {
        self.count
    }

    /// Whether all pids of the node were put in at once.
    ///
    /// Cost: no memory; O(log n) in the nodes that were put in.
    pub fn has_node(&self, node: &Atom) -> bool
        ensures { result ≡ is_whole self.now node.now }
    {
        self.nodes.contains(node)
    }

    /// The pids of the node that were put in one by one, in their order.
    ///
    /// Errors: `AllocError`.
    ///
    /// Cost: O(log n) in the nodes whose pids were put in, and the copies of those of the node.
    pub fn pids_of(&self, alloc: Global, node: &Atom) -> Result<Vec<Pid>, AllocError>
        ensures pids { IfOk result (λ pids. pids.items ≡ single_of self.now node.now) }
        ensures ordered { IfOk result (λ pids. IsStrictlySortedBy pid_cmp pids.items) }
    {
        list(&self.numbers, alloc, node)
    }

    /// Whether the same pids have ended in both.
    ///
    /// Cost: no memory; O(n log n) in the pids and the nodes that were put in.
    pub fn same(&self, other: &Ended) -> bool
        ensures { IsTrue result ↔ (ended_of self.now ≡ ended_of other.now) }
    {
        self.is_within(other) && other.is_within(self)
    }

    /// Whether each pid that has ended has ended in the other too.
    fn is_within(&self, other: &Ended) -> bool
        ensures { IsTrue result ↔ IsWithin (ended_of self.now) (ended_of other.now) }
    {
        self.nodes.is_subset(&other.nodes) && other.has_each(&self.numbers)
    }

    /// Whether all pids of these numbers have ended.
    fn has_each(&self, numbers: &BTreeMap<Atom, Numbers>) -> bool
        ensures { result ≡ list_all (λ entry. list_all (ended_of self.now) (pids_at entry)) numbers.now.entries }
    {
        numbers.iter().all(|(node, some)| self.has_all(node, some))
    }

    /// Whether all pids of a node that have some numbers have ended.
    fn has_all(&self, node: &Atom, some: &Numbers) -> bool
        ensures { result ≡ list_all (ended_of self.now) (pids_at (node.now, some.now)) }
    {
        let _nodes = self.numbers.len();
        self.has_node(node) || has_all(&self.numbers, self.alloc, node, some)
    }

    /// The same pids and nodes.
    ///
    /// Errors: `AllocError`.
    ///
    /// Cost: O(n log n) in the nodes that were put in and those of the pids, with their copies, and memory for each pid.
    pub fn copy(&self, alloc: Global) -> Result<Ended, AllocError>
        ensures { IfOk result (λ copy. copy ≡ self.now) }
    {
        Ok(Ended {
            nodes: copy_nodes(&self.nodes, alloc)?,
            numbers: copy_numbers(&self.numbers, alloc)?,
            count: self.count,
            alloc,
        })
    }

    /// Puts the pid in.
    ///
    /// Errors: `AllocError`, which changes nothing.
    ///
    /// Cost: O(log n) in the pids that were put in; memory for some more pids of the node, 12 bytes for each.
    pub fn add(&mut self, pid: Pid) -> Result<(), AllocError>
        ensures ok { OnOk result (ended_of self.new ≡ upd same_pid (ended_of self.old) pid true) }
        ensures err { OnErr result (ended_of self.new ≡ ended_of self.old) }
        ensures pids { OnOk result (self.new.pids ≡ insert_key pid_cmp self.old.pids pid) }
        ensures nodes { self.new.nodes ≡ self.old.nodes }
        ensures kept { OnErr result (self.new ≡ self.old) }
    {
        let more = u64::from(!has_pid(&self.numbers, &pid));
        put(&mut self.numbers, self.alloc, pid)?;
        self.count = self.count.saturating_add(more);
        Ok(())
    }

    /// Puts all pids of the node in, as where the node is lost.
    ///
    /// Errors: `AllocError`, which changes nothing.
    ///
    /// Cost: O(log n) in the nodes that were put in.
    pub fn add_node(&mut self, node: &Atom) -> Result<(), AllocError>
        ensures ok { OnOk result (ended_of self.new ≡ ended_with (ended_of self.old) node.now) }
        ensures err { OnErr result (ended_of self.new ≡ ended_of self.old) }
        ensures nodes { OnOk result (self.new.nodes ≡ insert_key atom_cmp self.old.nodes node.now) }
        ensures pids { self.new.pids ≡ self.old.pids }
        ensures kept { OnErr result (self.new ≡ self.old) }
    {
        self.nodes.insert(node.copy()?)?;
        Ok(())
    }
}
