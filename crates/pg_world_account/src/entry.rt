ghost use Rattle.std.specs.Prelude.{◌≡◌, ◌<◌, ◌↔◌, ◌||◌, ◌++◌, ◌∷◌, [], ℕ, false, IsTrue};
ghost use Rattle.std.specs.Prelude.{IfOk, OnOk, get_or, map, nat_eq};
ghost use Rattle.std.specs.Option.{option_copied};
ghost use Rattle.pg_node_opens.specs.Twins.{same_update};
ghost use Rattle.pg_node_opens.specs.PgStep.Attempts.{same_op};
ghost use Rattle.pg_laws_losses.specs.Remains.Missed.{missed_of};
ghost use Rattle.pg_world_account.specs.Histories.{as_entry, as_marked, is_among, is_applied_by, last_entries};
ghost use Rattle.pg_world_account.specs.Agreeing.{same_entry};

use pg_node_opens::{OpId, Update};
use std::alloc::{AllocError, Global};

/// An update that has every grant.
#[derive(Debug, Drop)]
pub struct Entry {
    /// The node of its command, by its place.
    pub node: usize,
    /// The command there.
    pub op: OpId,
    /// The update.
    pub update: Update,
    // Which of the first 16 nodes have taken it, by their places.
    takers: [bool; 16],
}

impl Entry {
    /// An update that no other node has taken.
    ///
    /// Cost: no memory.
    pub(crate) fn new(node: usize, op: OpId, update: Update) -> Entry
        ensures entry { as_entry result ≡ record { node = node; op = op; update = update } }
        ensures update { result.update ≡ update }
        ensures own { (i : ℕ) → is_applied_by result i ≡ nat_eq node i }
    {
        Entry {
            node,
            op,
            update,
            takers: [false; 16],
        }
    }

    /// The same entry.
    ///
    /// Errors: `AllocError`.
    ///
    /// Cost: memory for the name, and a walk over it.
    pub fn copy(&self, alloc: Global) -> Result<Entry, AllocError>
        ensures { IfOk result (λ copy. copy ≡ self.now) }
    {
        let update = self.update.copy(alloc)?;
        Ok(Entry {
            node: self.node,
            op: self.op,
            update,
            takers: self.takers,
        })
    }

    /// Whether a node has applied it: its own, and each that took it.
    ///
    /// Cost: no memory.
    pub(crate) fn is_applied_by(&self, node: usize) -> bool
        ensures { result ≡ is_applied_by self.now node }
    {
        self.node == node || self.has_taken(node)
    }

    /// Whether a node is one of those that took it.
    fn has_taken(&self, node: usize) -> bool
        ensures { result ≡ get_or self.now.takers node false }
    {
        node < 16 && self.takers[node]
    }

    /// A node takes it. Of nodes behind the first 16 nothing is kept.
    ///
    /// Cost: no memory.
    pub(crate) fn take(&mut self, node: usize)
        ensures same { as_entry self.new ≡ as_entry self.old }
        ensures taken { (i : ℕ) → i < 16 → is_applied_by self.new i ≡ (nat_eq node i || is_applied_by self.old i) }
    {
        if node < 16 {
            self.takers[node] = true;
        }
    }

    /// Whether both are one.
    ///
    /// Cost: no memory.
    pub(crate) fn same(&self, other: &Entry) -> bool
        ensures { result ≡ same_entry self.now other.now }
    {
        self.node == other.node
            && same_op(self.op, other.op)
            && same_update(&self.update, &other.update)
    }
}

/// Whether both are one command.
fn same_op(op: OpId, other: OpId) -> bool
    ensures { result ≡ same_op op other }
{
    op.port == other.port && op.number == other.number
}

/// The same entries in the same order.
///
/// Errors: `AllocError`.
pub(crate) fn copy_entries(alloc: Global, entries: &[Entry]) -> Result<Vec<Entry>, AllocError>
    ensures { IfOk result (λ copies. copies.items ≡ entries.now) }
{
    let mut copies = Vec::with_capacity(alloc, entries.len())?;
    for entry in entries {
        copies.push(entry.copy(alloc)?)?;
    }
    Ok(copies)
}

/// Adds copies of those entries that a node has not applied, of the nodes whose loss it has seen, by their places.
///
/// Errors: `AllocError`.
pub(crate) fn add_each_missed(
    alloc: Global,
    entries: &[Entry],
    node: usize,
    seen: &[bool],
    missed: &mut Vec<Entry>,
) -> Result<(), AllocError>
    ensures { OnOk result (map as_entry missed.new.items
        ≡ map as_entry missed.old.items ++ missed_of (is_among seen.now) (map (as_marked node) entries.now)) }
{
    for entry in entries {
        add_missed(alloc, entry, node, seen, missed)?;
    }
    Ok(())
}

/// Adds a copy of an entry, where a node has not applied it, and has seen the loss of its node.
///
/// Errors: `AllocError`.
pub(crate) fn add_missed(
    alloc: Global,
    entry: &Entry,
    node: usize,
    seen: &[bool],
    missed: &mut Vec<Entry>,
) -> Result<(), AllocError>
    ensures { OnOk result (map as_entry missed.new.items
        ≡ map as_entry missed.old.items ++ missed_of (is_among seen.now) (as_marked node entry.now ∷ [])) }
{
    if !entry.is_applied_by(node) && is_among(seen, entry.node) {
        missed.push(entry.copy(alloc)?)?;
    }
    Ok(())
}

/// Whether a place is one of those that are marked.
fn is_among(marks: &[bool], place: usize) -> bool
    ensures { result ≡ is_among marks.now place }
{
    match marks.get(place) {
        Some(mark) => *mark,
        None => false,
    }
}

/// Whether these are the same entries in the same order.
///
/// Cost: no memory.
pub(crate) fn same_entries(entries: &[Entry], others: &[Entry]) -> bool
    ensures { IsTrue result ↔ (map as_entry entries.now ≡ map as_entry others.now) }
{
    if entries.len() != others.len() {
        return false;
    }
    for place in 0..entries.len() {
        if !entries[place].same(&others[place]) {
            return false;
        }
    }
    true
}

/// Whether these are the same entries in the same order, each list with one more after it where there is one.
///
/// Cost: no memory.
pub(crate) fn same_with_last(
    entries: &[Entry],
    last: Option<&Entry>,
    others: &[Entry],
    other_last: Option<&Entry>,
) -> bool
    ensures { IsTrue result ↔ (map as_entry entries.now ++ last_entries (option_copied last.entry) ≡ map as_entry others.now ++ last_entries (option_copied other_last.entry)) }
{
    match (last, other_last) {
        (None, None) => same_entries(entries, others),
        (Some(last), Some(other)) => last.same(other) && same_entries(entries, others),
        (Some(last), None) => ends_with(others, entries, last),
        (None, Some(other)) => ends_with(entries, others, other),
    }
}

/// Whether entries are these others, and one more after them.
///
/// Cost: no memory.
fn ends_with(entries: &[Entry], others: &[Entry], last: &Entry) -> bool
    ensures { IsTrue result ↔ (map as_entry entries.now ≡ map as_entry others.now ++ as_entry last.now ∷ []) }
{
    match entries.split_last() {
        Some((end, rest)) => end.same(last) && same_entries(rest, others),
        None => false,
    }
}

/// Whether both are one change of a group.
///
/// Cost: no memory.
pub fn same_update(update: &Update, other: &Update) -> bool
    ensures { result ≡ same_update update.now other.now }
{
    match (update, other) {
        (Update::Create(name), Update::Create(other)) => name == other,
        (Update::Delete(name), Update::Delete(other)) => name == other,
        (Update::Join(name, pid), Update::Join(other, member)) => name == other && pid == member,
        (Update::Leave(name, pid), Update::Leave(other, member)) => name == other && pid == member,
        _ => false,
    }
}
