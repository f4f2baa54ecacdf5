ghost use Rattle.std.specs.Prelude.{◌≡◌, ◌↔◌, ◌≤◌, IsTrue, false, Ok, Err, None};
ghost use Rattle.std.specs.Prelude.{Some, IsSome, IfSome, IfOk, OnOk, OnErr, length};
ghost use Rattle.std.specs.BTreeMap.{get, IsOrdered};
ghost use Rattle.std.specs.List.{list_all};
ghost use Rattle.std.specs.List.Sorted.{IsSearchInRange, IsStrictlySortedBy-prop};
ghost use Rattle.std.specs.Map.{keys_of};
ghost use Rattle.std.specs.Option.{option_copied, is_some};
ghost use Rattle.pg_term.specs.Same.{term_cmp};
ghost use Rattle.pg_lock.specs.Holders.{AreSorted, AreApart, IsPlace, IsWithin};

use crate::holders::{Holder, has_parts, is_held_by, place_among};
use pg_term::{Atom, Reference, Term};
use std::alloc::{AllocError, Global};
use std::collections::BTreeMap;

// How many holders are kept sorted in one vector. A new one moves those after it: beyond a hundred the map is faster.
const MAX_SORTED: usize = 64;

/// Who holds the lock of each name at one node.
#[derive(Drop)]
pub struct LockTable {
    // Up to 64 holders in the order of their names, and those of other names. The vector keeps its room.
    sorted: Vec<Holder>,
    beyond: BTreeMap<Term, Reference>,
    alloc: Global,
    ghost ordered: { AreSorted sorted.items } by { IsStrictlySortedBy-prop term_cmp (keys_of sorted.items) },
    ghost apart: { AreApart sorted.items beyond },
}

impl LockTable {
    ghost use Rattle.pg_lock.specs.Locks.{locks_of, held, grants, after_ask, given_up};
    ghost use Rattle.pg_lock.specs.Locks.{is_holder, of_parts, holds_so, without_node};

    /// No name has a holder.
    ///
    /// Cost: no memory.
    pub fn new(alloc: Global) -> LockTable
        ensures { locks_of result ≡ (λ name. None) }
    {
        LockTable {
            sorted: Vec::new(alloc),
            beyond: BTreeMap::new(alloc),
            alloc,
        }
    }

    /// The same holders of the same names.
    ///
    /// Errors: `AllocError`.
    ///
    /// Cost: that of the copies: O(n log n) in the names that have a holder.
    pub fn copy(&self) -> Result<LockTable, AllocError>
        ensures { IfOk result (λ copy. locks_of copy ≡ locks_of self.now) }
    {
        let sorted = copy_sorted(self.alloc, &self.sorted)?;
        let beyond = copy_beyond(self.alloc, &self.beyond)?;
        Ok(LockTable {
            sorted,
            beyond,
            alloc: self.alloc,
        })
    }

    /// Whether a request for the lock of a name would be granted: the node is formed and the name has no holder.
    ///
    /// Cost: no memory; O(log n) in the names that have a holder.
    pub fn grants(&self, formed: bool, name: &Term) -> bool
        ensures { result ≡ grants formed (locks_of self.now) name.now }
    {
        formed && self.holder(name).is_none()
    }

    /// Asks for the lock of a name: granted exactly where the node is formed and the name has no holder, and then the
    /// reference is its holder. No other name changes.
    ///
    /// Errors: `AllocError`, which changes nothing; only for a lock that would be granted.
    ///
    /// Cost: one search, O(log n) in the names that have a holder; for a lock that is granted the copies of the name
    /// and the reference, and the moves of at most 64 holders.
    ///
    /// The rule: `global:set_lock/2`.
    pub fn ask(
        &mut self,
        formed: bool,
        name: &Term,
        reference: &Reference,
    ) -> Result<bool, AllocError>
        ensures granted { IfOk result (λ granted. granted ≡ grants formed (locks_of self.old) name.now) }
        ensures after { IfOk result (λ granted. locks_of self.new
            ≡ after_ask granted (locks_of self.old) name.now reference.now) }
        ensures err { OnErr result (locks_of self.new ≡ locks_of self.old) }
        ensures denied { grants formed (locks_of self.old) name.now ≡ false → result ≡ Ok false }
    {
        let Some(gap) = self.gap_of(formed, name) else {
            return Ok(false);
        };
        let holder = reference.copy()?;
        let name = name.copy(self.alloc)?;
        self.put(gap, name, holder)?;
        Ok(true)
    }

    /// Asks as `ask` does, with a reference that is moved in where it is granted, and else let go.
    ///
    /// Errors: `AllocError`, which changes nothing; only for a lock that would be granted.
    ///
    /// Cost: that of `ask` without the copy of the reference.
    pub fn ask_moved(
        &mut self,
        formed: bool,
        name: &Term,
        reference: Reference,
    ) -> Result<bool, AllocError>
        ensures granted { IfOk result (λ granted. granted ≡ grants formed (locks_of self.old) name.now) }
        ensures after { IfOk result (λ granted. locks_of self.new
            ≡ after_ask granted (locks_of self.old) name.now reference) }
        ensures err { OnErr result (locks_of self.new ≡ locks_of self.old) }
        ensures denied { grants formed (locks_of self.old) name.now ≡ false → result ≡ Ok false }
    {
        let Some(gap) = self.gap_of(formed, name) else {
            return Ok(false);
        };
        let name = name.copy(self.alloc)?;
        self.put(gap, name, reference)?;
        Ok(true)
    }

    /// The place for a name among the sorted, where its lock would be granted.
    fn gap_of(&self, formed: bool, name: &Term) -> Option<usize>
        ensures granted { is_some result ≡ grants formed (locks_of self.now) name.now }
        ensures bound { IfSome result (λ gap. gap ≤ length self.now.sorted.items) }
        ensures place { IfSome result (λ gap. IsPlace self.now.sorted.items name.now (Err gap)) }
        ensures beyond { IsSome result → get term_cmp self.now.beyond name.now ≡ None }
    {
        if !formed {
            return None;
        }
        let Err(gap) = self.place_of(name) else {
            return None;
        };
        if self.beyond.contains_key(name) {
            return None;
        }
        Some(gap)
    }

    /// Where a name is among the sorted; where it is not among them, `Err` of where it would be.
    fn place_of(&self, name: &Term) -> Result<usize, usize>
        ensures bound { IsSearchInRange result (length self.now.sorted.items) }
        ensures place { IsPlace self.now.sorted.items name.now result }
    {
        place_among(&self.sorted, name)
    }

    /// Puts in a name that has no holder, at its gap among the sorted where these are not full.
    fn put(&mut self, gap: usize, name: Term, holder: Reference) -> Result<(), AllocError>
        requires bound { gap ≤ length self.old.sorted.items }
        requires gap { IsPlace self.old.sorted.items name (Err gap) }
        requires free { get term_cmp self.old.beyond name ≡ None }
        ensures ok { OnOk result (locks_of self.new ≡ held (locks_of self.old) name (Some holder)) }
        ensures err { OnErr result (locks_of self.new ≡ locks_of self.old) }
    {
        if self.sorted.len() < MAX_SORTED {
            self.sorted.insert(gap, (name, holder))?;
        } else {
            self.beyond.insert(name, holder)?;
        }
        Ok(())
    }

    /// Frees a name where the reference is its holder (`global:del_lock/1`), and else changes nothing. No other name
    /// changes.
    ///
    /// Cost: no memory; O(log n), and for a name that is freed the moves of at most 64 holders.
    pub fn give_up(&mut self, name: &Term, reference: &Reference)
        ensures { locks_of self.new
            ≡ given_up (is_holder (locks_of self.old name.now) reference.now) (locks_of self.old) name.now }
    {
        self.give_up_by(
            name,
            reference.node(),
            reference.creation(),
            reference.words(),
        );
    }

    /// Frees a name where the reference of these parts is its holder, as `give_up` does: that reference is not needed.
    ///
    /// Cost: that of `give_up`.
    pub fn give_up_by(&mut self, name: &Term, node: &Atom, creation: u32, words: &[u32])
        ensures { locks_of self.new
            ≡ given_up (is_holder (locks_of self.old name.now) (of_parts node.now creation words.now)) (locks_of self.old) name.now }
    {
        match self.place_of(name) {
            Ok(place) => {
                if has_parts(Some(&self.sorted[place].1), node, creation, words) {
                    drop(self.sorted.remove(place));
                }
            }
            Err(_) => {
                if has_parts(self.beyond.get(name), node, creation, words) {
                    drop(self.beyond.remove(name));
                }
            }
        }
    }

    /// Frees each name that a reference of the node holds, as where the node is lost; all else stays as it was.
    ///
    /// Cost: no memory; O(n).
    pub fn free_node(&mut self, node: &Atom)
        ensures { locks_of self.new ≡ without_node (locks_of self.old) node.now }
    {
        self.sorted.retain(|holder| node != holder.1.node());
        self.beyond.retain(|_, holder| node != holder.node());
    }

    /// Whether both have the same holder of each name.
    ///
    /// Cost: no memory; O(n log n) in the names that have a holder.
    pub fn same(&self, other: &LockTable) -> bool
        ensures { IsTrue result ↔ (locks_of self.now ≡ locks_of other.now) }
    {
        self.is_within(other) && other.is_within(self)
    }

    /// Whether each name that has a holder has the same one in the other.
    fn is_within(&self, other: &LockTable) -> bool
        ensures { IsTrue result ↔ IsWithin (locks_of self.now) (locks_of other.now) }
    {
        other.has_all(&self.sorted) && other.has_all_beyond(&self.beyond)
    }

    fn has_all(&self, holders: &[Holder]) -> bool
        ensures { result ≡ list_all (holds_so (locks_of self.now)) holders.now }
    {
        holders
            .iter()
            .all(|holder| is_held_by(self.holder(&holder.0), &holder.1))
    }

    fn has_all_beyond(&self, holders: &BTreeMap<Term, Reference>) -> bool
        ensures all { result ≡ list_all (holds_so (locks_of self.now)) holders.now.entries }
        ensures ordered { IsOrdered term_cmp holders.now }
    {
        holders
            .iter()
            .all(|(name, holder)| is_held_by(self.holder(name), holder))
    }

    /// The holder of a name.
    ///
    /// Cost: no memory; O(log n).
    pub fn holder(&self, name: &Term) -> Option<&Reference>
        ensures { option_copied result ≡ locks_of self.now name.now }
    {
        match self.place_of(name) {
            Ok(place) => Some(&self.sorted[place].1),
            Err(_) => self.beyond.get(name),
        }
    }
}

/// The same holders in the same order.
fn copy_sorted(alloc: Global, holders: &[Holder]) -> Result<Vec<Holder>, AllocError>
    ensures { IfOk result (λ copies. copies.items ≡ holders.now) }
{
    let mut copies = Vec::with_capacity(alloc, holders.len())?;
    for (name, reference) in holders {
        copies.push((name.copy(alloc)?, reference.copy()?))?;
    }
    Ok(copies)
}

/// The same holders of the same names.
fn copy_beyond(
    alloc: Global,
    holders: &BTreeMap<Term, Reference>,
) -> Result<BTreeMap<Term, Reference>, AllocError>
    ensures { IfOk result (λ copy. (name : Term) → get term_cmp copy name ≡ get term_cmp holders.now name) }
{
    let mut copy = BTreeMap::new(alloc);
    for (name, reference) in holders {
        copy.insert(name.copy(alloc)?, reference.copy()?)?;
    }
    Ok(copy)
}
