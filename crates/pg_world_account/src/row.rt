//! What began of one group, and what was applied of it.

ghost use Rattle.std.specs.Prelude.{◌≡◌, ℕ, ◌+◌, ◌<◌, ◌++◌, ◌∷◌, [], cond, nat_eq, IfOk, OnOk};

use crate::entry::{Entry, copy_entries};
use crate::tally::Tally;
use std::alloc::{AllocError, Global};

/// What began of one group, and how many of its updates each node has applied.
#[derive(Drop)]
pub(crate) struct Row {
    pub(crate) entries: Vec<Entry>,
    pub(crate) tally: Tally,
}

impl Row {
    ghost use Rattle.pg_node_opens.specs.PgGroup.Functions.{upd};
    ghost use Rattle.pg_laws_losses.specs.Remains.Missed.{last_applied};
    ghost use Rattle.pg_world_account.specs.Histories.{count_at, as_entry, as_marked, entries_of, marked_entries_of, HasRowRoom};

    /// Nothing has begun.
    ///
    /// Cost: no memory.
    pub(crate) fn new(alloc: Global) -> Row
        ensures entries { entries_of result ≡ [] }
        ensures counts { count_at result.tally ≡ (λ node. 0) }
        ensures marks { marked_entries_of result ≡ (λ node. []) }
    {
        Row {
            entries: Vec::new(alloc),
            tally: Tally::new(alloc),
        }
    }

    /// The same entries and counts. Its cost grows with the entries.
    ///
    /// Errors: `AllocError`.
    pub(crate) fn copy(&self, alloc: Global) -> Result<Row, AllocError>
        ensures entries { IfOk result (λ copy. entries_of copy ≡ entries_of self.now) }
        ensures counts { IfOk result (λ copy. count_at copy.tally ≡ count_at self.now.tally) }
        ensures marks { IfOk result (λ copy. marked_entries_of copy ≡ marked_entries_of self.now) }
    {
        let entries = copy_entries(alloc, &self.entries)?;
        let tally = self.tally.copy()?;
        Ok(Row { entries, tally })
    }

    /// Makes room for one more entry of a node.
    ///
    /// Errors: `AllocError`, which changes nothing.
    pub(crate) fn make_room(&mut self, node: usize) -> Result<(), AllocError>
        ensures entries { entries_of self.new ≡ entries_of self.old }
        ensures counts { count_at self.new.tally ≡ count_at self.old.tally }
        ensures marks { marked_entries_of self.new ≡ marked_entries_of self.old }
        ensures room { OnOk result (HasRowRoom self.new node) }
    {
        self.entries.reserve(1)?;
        self.tally.make_room(node)
    }

    /// A node applies the last update, where there is room.
    ///
    /// Cost: no memory.
    pub(crate) fn serve(&mut self, node: usize)
        requires { HasRowRoom self.old node }
        ensures entries { entries_of self.new ≡ entries_of self.old }
        ensures counts { count_at self.new.tally
            ≡ upd nat_eq (count_at self.old.tally) node (count_at self.old.tally node + 1) }
        ensures marks { (i : ℕ) → i < 16 → marked_entries_of self.new i ≡ cond (nat_eq node i) (last_applied (marked_entries_of self.old i)) (marked_entries_of self.old i) }
    {
        self.tally.add(node);
        if let Some(last) = self.entries.last_mut() {
            last.take(node);
        }
    }

    /// An update begins, and its node applies it, where there is room.
    ///
    /// Cost: no memory.
    pub(crate) fn begin(&mut self, entry: Entry)
        requires { HasRowRoom self.old entry.node }
        ensures entries { entries_of self.new ≡ entries_of self.old ++ as_entry entry ∷ [] }
        ensures counts { count_at self.new.tally
            ≡ upd nat_eq (count_at self.old.tally) entry.node (count_at self.old.tally entry.node + 1) }
        ensures marks { (i : ℕ) → marked_entries_of self.new i ≡ marked_entries_of self.old i ++ as_marked i entry ∷ [] }
    {
        self.tally.add(entry.node);
        self.entries.push_reserved(entry);
    }
}
