//! What began and what was applied in a world, by group.

ghost use Rattle.std.specs.Prelude.{◌≡◌, ◌↔◌, ℕ, ◌<◌, ◌+◌, ◌&&◌, ◌++◌, ◌∷◌, [], map, nat_eq, IsTrue, IsSome};
ghost use Rattle.std.specs.Prelude.{IfOk, OnOk, option_map};
ghost use Rattle.std.specs.BTreeMap.{get};
ghost use Rattle.std.specs.Option.{option_copied, option_to_list};
ghost use Rattle.pg_term.specs.declared.term.Term.{Term};
ghost use Rattle.pg_term.specs.Same.{term_cmp};
ghost use Rattle.pg_world_account.specs.Histories.{update_asked_by};

use crate::entry::{Entry, add_each_missed, add_missed, same_with_last};
use crate::rows::{self, Rows};
use pg_node_opens::{Message, OpId, Packet, Request, Update};
use pg_term::Term;
use std::alloc::{AllocError, Global};
use std::collections::BTreeMap;

/// What began and what was applied in a world, by group.
///
/// Which group an update is of that begins is seen once it has begun, and its row takes memory; so the entry waits beside the
/// rows, and is put in its row before the next event.
#[derive(Drop)]
pub struct Histories {
    rows: Rows,
    // The entry that is not in its row yet.
    last: Option<Entry>,
    // Whether every node was formed when the first was lost; true where none is.
    formed: bool,
    alloc: Global,
}

impl Histories {
    ghost use Rattle.pg_laws_losses.specs.PgLaws.History.{of_group, entry_of, is_update_of};
    ghost use Rattle.pg_laws_losses.specs.Remains.Missed.{marked_after, missed_of};
    ghost use Rattle.pg_world_account.specs.Agreeing.{HaveSameUpdates, IsNamedLast, AgreeOnNamed};
    ghost use Rattle.pg_world_account.specs.Histories.{account_of, history_in, applied_in, marked_in, no_account, begun_by, one_of};
    ghost use Rattle.pg_world_account.specs.Histories.{last_entries, last_count, as_entry, entries_in};
    ghost use Rattle.pg_world_account.specs.Histories.{account_formed, as_marked, is_among, last_marks};
    ghost use Rattle.pg_world_account.specs.Histories.{tallied_in, AreInRows, LastHasRow, CanServe};

    /// Nothing has begun.
    ///
    /// Cost: no memory.
    pub fn new(alloc: Global) -> Histories
        ensures { account_of result ≡ no_account }
    {
        Histories {
            rows: BTreeMap::new(alloc),
            last: None,
            formed: true,
            alloc,
        }
    }

    /// The same account.
    ///
    /// Errors: `AllocError`.
    ///
    /// Cost: that of the copies: O(n log n) in the groups that were named, and memory for each entry and each count.
    pub fn copy(&self) -> Result<Histories, AllocError>
        ensures { IfOk result (λ copy. account_of copy ≡ account_of self.now) }
    {
        let last = copy_last(self.alloc, &self.last)?;
        let rows = rows::copy(&self.rows, self.alloc)?;
        Ok(Histories {
            rows,
            last,
            formed: self.formed,
            alloc: self.alloc,
        })
    }

    /// Whether both have the same history of each group, and so many nodes have applied as many of its updates.
    ///
    /// Cost: no memory; O(log n) in the groups that were named for each of them and each node, and a walk over the
    /// entries.
    pub fn agree(&self, other: &Histories, nodes: usize) -> bool
        ensures { IsTrue result ↔ ((name : Term) → HaveSameUpdates nodes (account_of self.now) (account_of other.now) name) }
    {
        self.agree_on_own(other, nodes) && other.agree_on_own(self, nodes)
    }

    /// Whether both agree on each group that is named here.
    fn agree_on_own(&self, other: &Histories, nodes: usize) -> bool
        ensures { IsTrue result ↔ AgreeOnNamed nodes self.now other.now }
    {
        self.agree_on_last(other, nodes) && self.agree_on_rows(other, nodes)
    }

    /// Whether both agree on the group of the entry that is not in its row yet.
    fn agree_on_last(&self, other: &Histories, nodes: usize) -> bool
        ensures { IsTrue result ↔ ((name : Term) → IsNamedLast self.now.last name → HaveSameUpdates nodes (account_of self.now) (account_of other.now) name) }
    {
        match &self.last {
            Some(entry) => self.agree_on(other, nodes, entry.update.name()),
            None => true,
        }
    }

    /// Whether both agree on each group that has a row here.
    fn agree_on_rows(&self, other: &Histories, nodes: usize) -> bool
        ensures { IsTrue result ↔ ((name : Term) → IsSome (get term_cmp self.now.rows name) → HaveSameUpdates nodes (account_of self.now) (account_of other.now) name) }
    {
        for name in self.rows.keys() {
            if !self.agree_on(other, nodes, name) {
                return false;
            }
        }
        true
    }

    /// Whether both have the same history of a group, and each of so many nodes has applied as many of its updates.
    fn agree_on(&self, other: &Histories, nodes: usize, name: &Term) -> bool
        ensures { IsTrue result ↔ HaveSameUpdates nodes (account_of self.now) (account_of other.now) name.now }
    {
        self.same_history(other, name) && self.same_counts(other, nodes, name)
    }

    /// Whether both have the same history of a group.
    fn same_history(&self, other: &Histories, name: &Term) -> bool
        ensures { IsTrue result ↔ (history_in self.now name.now ≡ history_in other.now name.now) }
    {
        let (entries, last) = self.history(name);
        let (others, other_last) = other.history(name);
        same_with_last(entries, last, others, other_last)
    }

    /// Whether each of so many nodes has applied as many updates of a group.
    fn same_counts(&self, other: &Histories, nodes: usize, name: &Term) -> bool
        ensures { IsTrue result ↔ ((i : ℕ) → i < nodes → applied_in self.now i name.now ≡ applied_in other.now i name.now) }
    {
        for node in 0..nodes {
            if self.applied(node, name) != other.applied(node, name) {
                return false;
            }
        }
        true
    }

    /// Makes room for the last entry in its row.
    ///
    /// Errors: `AllocError`, which changes nothing.
    fn make_room_for_last(&mut self) -> Result<(), AllocError>
        ensures last { self.new.last ≡ self.old.last }
        ensures account { account_of self.new ≡ account_of self.old }
        ensures room { OnOk result (LastHasRow self.new.rows self.new.last) }
    {
        match &self.last {
            Some(entry) => {
                rows::make_room(&mut self.rows, self.alloc, entry.update.name(), entry.node)
            }
            None => Ok(()),
        }
    }

    /// Puts the last entry in its row, where there is room.
    ///
    /// Cost: no memory.
    fn put_last(&mut self)
        requires { LastHasRow self.old.rows self.old.last }
        ensures account { account_of self.new ≡ account_of self.old }
        ensures settled { AreInRows self.new }
    {
        match self.last.take() {
            Some(entry) => rows::begin(&mut self.rows, entry),
            None => {}
        }
    }

    /// Puts the last entry in its row, as before an event.
    ///
    /// Errors: `AllocError`, which changes nothing.
    ///
    /// Cost: O(log n) in the groups that were named; memory for one more entry in the row of its group, for the
    /// counts there, and for the row where there is none.
    pub fn settle(&mut self) -> Result<(), AllocError>
        ensures account { account_of self.new ≡ account_of self.old }
        ensures settled { OnOk result (AreInRows self.new) }
    {
        self.make_room_for_last()?;
        self.put_last();
        Ok(())
    }

    /// Makes room for the update that a packet asks for, if it does, at the node that takes it.
    ///
    /// Errors: `AllocError`, which changes nothing.
    ///
    /// Cost: no memory where it asks for none; else O(log n) in the groups that were named, and the memory of one
    /// more entry, as `settle` takes it.
    pub fn make_room(&mut self, node: usize, packet: &Packet) -> Result<(), AllocError>
        ensures account { account_of self.new ≡ account_of self.old }
        ensures last { self.new.last ≡ self.old.last }
        ensures room { OnOk result (CanServe self.new.rows node (update_asked_by packet.now.message)) }
    {
        match asked_update(packet) {
            Some(update) => rows::make_room(&mut self.rows, self.alloc, update.name(), node),
            None => Ok(()),
        }
    }

    /// The update that a packet asks for, if it does, counts as the last of its group, which the node that took it has applied. Who has
    /// applied it is kept of the first 16 nodes.
    ///
    /// Cost: no memory.
    pub fn serve(&mut self, node: usize, packet: &Packet)
        requires settled { AreInRows self.old }
        requires room { CanServe self.old.rows node (update_asked_by packet.now.message) }
        ensures history { history_in self.new ≡ history_in self.old }
        ensures applied { (i : ℕ) (name : Term) → applied_in self.new i name
            ≡ applied_in self.old i name + one_of node i name (update_asked_by packet.now.message) }
        ensures marked { (i : ℕ) (name : Term) → i < 16 → marked_in self.new i name
            ≡ marked_after [] (nat_eq node i && is_update_of name (update_asked_by packet.now.message)) (marked_in self.old i name) }
        ensures formed { self.new.formed ≡ self.old.formed }
        ensures last { self.new.last ≡ self.old.last }
    {
        match asked_update(packet) {
            Some(update) => rows::serve(&mut self.rows, update, node),
            None => {}
        }
    }

    /// An update has begun at a node, if one has, which has applied it.
    ///
    /// Cost: no memory.
    pub fn begin(&mut self, node: usize, began: Option<(OpId, Update)>)
        requires { AreInRows self.old }
        ensures history { (name : Term) → history_in self.new name
            ≡ history_in self.old name ++ of_group name (entry_of node began) }
        ensures applied { (i : ℕ) (name : Term) → applied_in self.new i name
            ≡ applied_in self.old i name + one_of node i name (begun_by began) }
        ensures marked { (i : ℕ) (name : Term) → marked_in self.new i name
            ≡ marked_after (of_group name (entry_of node began)) (nat_eq node i && is_update_of name (begun_by began)) (marked_in self.old i name) }
        ensures formed { self.new.formed ≡ self.old.formed }
    {
        if let Some((op, update)) = began {
            drop(self.last.replace(Entry::new(node, op, update)));
        }
    }

    /// Notes whether every node was formed when the first was lost, in place of what was noted.
    ///
    /// Cost: no memory.
    pub fn note_formed(&mut self, formed: bool)
        ensures { account_of self.new ≡ account_formed formed (account_of self.old) }
    {
        self.formed = formed;
    }

    /// Whether every node was formed when the first was lost, or none is lost.
    ///
    /// Cost: no memory.
    pub fn formed_at_first_loss(&self) -> bool
        ensures { result ≡ (account_of self.now).formed }
    {
        self.formed
    }

    /// The updates of a group in the order in which they began: those in its row, and one more that is not there yet.
    ///
    /// Cost: no memory; O(log n) in the groups that were named.
    pub fn history(&self, name: &Term) -> (&[Entry], Option<&Entry>)
        ensures { map as_entry result.0.now ++ last_entries (option_copied result.1) ≡ history_in self.now name.now }
    {
        (rows::entries(&self.rows, name), self.last_of(name))
    }

    /// The updates of a group that a node has not applied, of the nodes whose loss it has seen, in their order. `seen` says it of
    /// each node by its place. It is exact for the first 16 nodes.
    ///
    /// Errors: `AllocError`.
    ///
    /// Cost: O(log n) in the groups that were named, a walk over the entries of the group, and a copy of each that is missed.
    pub fn missed(&self, node: usize, name: &Term, seen: &[bool]) -> Result<Vec<Entry>, AllocError>
        ensures { IfOk result (λ missed. map as_entry missed.items ≡ missed_of (is_among seen.now) (marked_in self.now node name.now)) }
    {
        let mut missed = Vec::new(self.alloc);
        add_each_missed(
            self.alloc,
            rows::entries(&self.rows, name),
            node,
            seen,
            &mut missed,
        )?;
        if let Some(entry) = self.last_of(name) {
            add_missed(self.alloc, entry, node, seen, &mut missed)?;
        }
        Ok(missed)
    }

    /// How many updates of a group a node has applied.
    ///
    /// Cost: no memory; O(log n) in the groups that were named.
    pub fn applied(&self, node: usize, name: &Term) -> u128
        ensures { result ≡ applied_in self.now node name.now }
    {
        u128::from(rows::count(&self.rows, node, name)) + u128::from(self.last_count(node, name))
    }

    /// 1 where the entry that is not in its row yet is one of this node and this group.
    fn last_count(&self, node: usize, name: &Term) -> u8
        ensures { result ≡ last_count self.now.last node name.now }
    {
        match &self.last {
            Some(entry) => u8::from(entry.node == node && name == entry.update.name()),
            None => 0,
        }
    }

    /// The entry that is not in its row yet, where it is one of this group.
    fn last_of(&self, name: &Term) -> Option<&Entry>
        ensures history { last_entries (option_copied result) ≡ of_group name.now (last_entries self.now.last) }
        ensures marks { (i : ℕ) → option_to_list (option_map (as_marked i) (option_copied result)) ≡ last_marks self.now.last i name.now }
    {
        match &self.last {
            Some(entry) if name == entry.update.name() => Some(entry),
            _ => None,
        }
    }
}

/// The same entry, where there is one.
///
/// Errors: `AllocError`.
fn copy_last(alloc: Global, last: &Option<Entry>) -> Result<Option<Entry>, AllocError>
    ensures { IfOk result (λ copy. copy ≡ last.now) }
{
    match last {
        Some(entry) => Ok(Some(entry.copy(alloc)?)),
        None => Ok(None),
    }
}

/// The update that a packet asks for, if it does.
fn asked_update(packet: &Packet) -> Option<&Update>
    ensures { option_copied result ≡ update_asked_by packet.now.message }
{
    match &packet.message {
        Message::Call(_, Request::Change(update)) => Some(update),
        _ => None,
    }
}
