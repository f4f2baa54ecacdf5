ghost use Rattle.std.specs.Prelude.{◌≡◌, ◌+◌, ◌-◌, ◌<◌, ◌≤◌, ◌^◌, length, take, drop, OnOk, OnErr};
ghost use Rattle.std.specs.Prelude.{IfOk, IfSome, IfNone, [], ◌∷◌, ◌++◌, vec_len, vec_capacity};
ghost use Rattle.std.specs.List.{flat_map};
ghost use Rattle.pg_group.specs.Scope.{in_scope, at_node};
ghost use Rattle.pg_index_members.specs.Edges.{before};
ghost use Rattle.pg_index_members.specs.Rows.{AreRows, counts_of, total_of, spread, added, one_taken};
ghost use Rattle.pg_index_members.specs.Levels.{IsChoice, IsHome, NoneEmpty};

use crate::edge::Edge;
use crate::part::Part;
use crate::row::Row;
use pg_group::Scope;
use pg_term::{Atom, Pid};
use std::alloc::{AllocError, Global};
use std::marker::Model;

/// A level of so many parts is split.
const FULL_PARTS: usize = 64;

/// Parts one after the other.
#[derive(Drop)]
pub struct Level<P: Part> {
    parts: Vec<P>,
    // the sum of the counts
    total: u64,
    alloc: Global,
}

impl<P: Part> Model for Level<P> {
    ghost use Rattle.std.specs.Prelude.{List};
    ghost use Rattle.std.specs.List.{flat_map};
    ghost use Rattle.pg_index_members.specs.declared.row.Row.{Row};

    ghost Value = { List Row };

    ghost use Rattle.pg_index_members.specs.Levels.{IsLevel};

    ghost view = { λ l. flat_map P.rows l.parts.items };

    ghost invariant = { λ l. IsLevel P.rows l.parts.items l.total };
}

/// The first part that is not all before an edge; the last part, where each other is. The last part is not looked at.
fn choose<P: Part>(parts: &[P], edge: Edge<'_>) -> usize
    requires in_order { AreRows (flat_map P.rows parts.now) }
    requires some { NoneEmpty P.rows parts.now }
    requires there { 0 < length parts.now }
    ensures { IsChoice P.rows (before edge.entry) parts.now result }
{
    let mut low = 0;
    let mut high = parts.len() - 1;
    while low < high {
        let middle = low + (high - low) / 2;
        if parts[middle].is_before(edge) {
            low = middle + 1;
        } else {
            high = middle;
        }
    }
    low
}

/// The part where a pid is, or is to be.
fn home<P: Part>(parts: &[P], pid: &Pid) -> usize
    requires in_order { AreRows (flat_map P.rows parts.now) }
    requires some { NoneEmpty P.rows parts.now }
    requires there { 0 < length parts.now }
    ensures { IsHome P.rows pid.now parts.now result }
{
    choose(parts, Edge::AtPid(pid))
}

/// The sum of the counts of some parts.
fn sum<P: Part>(parts: &[P]) -> u64
    requires { total_of (flat_map P.rows parts.now) < 2 ^ 64 }
    ensures { result ≡ total_of (flat_map P.rows parts.now) }
{
    let mut total = 0;
    for part in parts {
        total += part.total();
    }
    total
}

/// From which part on, and up to which, the members of a node are.
fn span<P: Part>(parts: &[P], node: &Atom) -> (usize, usize)
    requires in_order { AreRows (flat_map P.rows parts.now) }
    requires some { NoneEmpty P.rows parts.now }
    requires there { 0 < length parts.now }
    ensures in_order { result.0 ≤ result.1 }
    ensures within { result.1 ≤ length parts.now }
    ensures members { spread (at_node node.now) (flat_map P.rows (take (result.1 - result.0) (drop result.0 parts.now)))
        ≡ spread (at_node node.now) (flat_map P.rows parts.now) }
{
    let from = choose(parts, Edge::AtNode(node));
    let last = choose(parts, Edge::PastNode(node));
    (from, last + 1)
}

/// The parts in which the members of a scope are.
fn asked<'a, P: Part>(parts: &'a [P], scope: Scope<'_>) -> &'a [P]
    requires in_order { AreRows (flat_map P.rows parts.now) }
    requires some { NoneEmpty P.rows parts.now }
    requires there { 0 < length parts.now }
    ensures { spread (in_scope scope.entry) (flat_map P.rows result.now)
        ≡ spread (in_scope scope.entry) (flat_map P.rows parts.now) }
{
    match scope {
        Scope::All => parts,
        Scope::At(node) => {
            let (from, end) = span(parts, node);
            &parts[from..end]
        }
    }
}

/// Splits a part in two, if it has too many rows and there is memory for it.
fn divide<P: Part>(parts: &mut Vec<P>, at: usize)
    requires within { at < length parts.old.items }
    requires some { NoneEmpty P.rows parts.old.items }
    ensures rows { flat_map P.rows parts.new.items ≡ flat_map P.rows parts.old.items }
    ensures some { NoneEmpty P.rows parts.new.items }
{
    let Ok(()) = parts.reserve(1) else {
        return;
    };
    let Ok(later) = parts[at].split() else {
        return;
    };
    if let Some(part) = later {
        let _ = parts.insert(at + 1, part);
    }
}

/// Adds to the count of a pid in the part where it is at home, and gives the count after that.
fn add_at<P: Part>(parts: &mut Vec<P>, at: usize, pid: &Pid, more: u64) -> Result<u64, AllocError>
    requires home { IsHome P.rows pid.now parts.old.items at }
    requires parts { NoneEmpty P.rows parts.old.items }
    requires some { 0 < more }
    requires fits { total_of (flat_map P.rows parts.old.items) + more < 2 ^ 64 }
    ensures ok { OnOk result (flat_map P.rows parts.new.items ≡ added (flat_map P.rows parts.old.items) pid.now more) }
    ensures err { OnErr result (flat_map P.rows parts.new.items ≡ flat_map P.rows parts.old.items) }
    ensures count { IfOk result (λ count. count ≡ counts_of (flat_map P.rows parts.old.items) pid.now + more) }
    ensures memory { OnErr result (counts_of (flat_map P.rows parts.old.items) pid.now ≡ 0) }
    ensures parts { NoneEmpty P.rows parts.new.items }
{
    let count = parts[at].add(pid, more)?;
    if count == more {
        divide(parts, at);
    }
    Ok(count)
}

/// Takes from the count of a pid in the part where it is at home, and gives the count before.
fn take_at<P: Part>(parts: &mut Vec<P>, at: usize, pid: &Pid, most: u64) -> u64
    requires home { IsHome P.rows pid.now parts.old.items at }
    requires parts { NoneEmpty P.rows parts.old.items }
    requires some { 0 < most }
    ensures count { result ≡ counts_of (flat_map P.rows parts.old.items) pid.now }
    ensures rest { flat_map P.rows parts.new.items ≡ one_taken (flat_map P.rows parts.old.items) pid.now most }
    ensures parts { NoneEmpty P.rows parts.new.items }
{
    let count = parts[at].take(pid, most);
    if parts[at].is_empty() {
        parts.remove(at);
    }
    count
}

/// Takes the last row out of the last part.
fn take_last_of<P: Part>(parts: &mut Vec<P>) -> Option<Row>
    requires parts { NoneEmpty P.rows parts.old.items }
    ensures some { IfSome result (λ row. flat_map P.rows parts.old.items ≡ flat_map P.rows parts.new.items ++ row ∷ []) }
    ensures none { IfNone result (flat_map P.rows parts.old.items ≡ []) }
    ensures kept { IfNone result (flat_map P.rows parts.new.items ≡ []) }
    ensures parts { NoneEmpty P.rows parts.new.items }
{
    let len = parts.len();
    if len == 0 {
        return None;
    }
    let at = len - 1;
    let row = parts[at].take_last();
    if parts[at].is_empty() {
        parts.remove(at);
    }
    row
}

impl<P: Part> Level<P> {
    /// A level of the rows of one part, which is split if it has too many. There is room for the part.
    ///
    /// Cost: memory for one more part, and that of `Part::split`.
    pub fn of(alloc: Global, mut parts: Vec<P>, part: P) -> Level<P>
        requires none { parts.items ≡ [] }
        requires room { vec_len parts < vec_capacity parts }
        requires some { 0 < length (P.rows part) }
        ensures { result ≡ P.rows part }
    {
        let total = part.total();
        parts.push_reserved(part);
        divide(&mut parts, 0);
        Level {
            parts,
            total,
            alloc,
        }
    }
}

impl<P: Part> Part for Level<P> {
    ghost rows = { λ level. level };

    fn new(alloc: Global) -> Level<P> {
        Level {
            parts: Vec::new(alloc),
            total: 0,
            alloc,
        }
    }

    fn is_empty(&self) -> bool {
        self.total == 0
    }

    fn total(&self) -> u64 {
        self.total
    }

    fn is_before(&self, edge: Edge<'_>) -> bool {
        match self.parts.last() {
            Some(part) => part.is_before(edge),
            None => true,
        }
    }

    fn count(&self, pid: &Pid) -> u64 {
        if self.parts.is_empty() {
            return 0;
        }
        let at = home(&self.parts, pid);
        self.parts[at].count(pid)
    }

    fn add(&mut self, pid: &Pid, more: u64) -> Result<u64, AllocError> {
        if self.parts.is_empty() {
            let mut part = P::new(self.alloc);
            part.add(pid, more)?;
            self.parts.push(part)?;
            self.total = more;
            return Ok(more);
        }
        let at = home(&self.parts, pid);
        let count = add_at(&mut self.parts, at, pid, more)?;
        self.total += more;
        Ok(count)
    }

    fn take(&mut self, pid: &Pid, most: u64) -> u64 {
        if self.parts.is_empty() {
            return 0;
        }
        let at = home(&self.parts, pid);
        let count = take_at(&mut self.parts, at, pid, most);
        self.total -= count.min(most);
        count
    }

    fn take_last(&mut self) -> Option<Row> {
        let row = take_last_of(&mut self.parts)?;
        self.total -= row.count;
        Some(row)
    }

    fn at(&self, place: u64) -> Option<&Pid> {
        let mut left = place;
        for part in &self.parts {
            let total = part.total();
            if left < total {
                return part.at(left);
            }
            left -= total;
        }
        None
    }

    fn rank(&self, edge: Edge<'_>) -> u64 {
        if self.parts.is_empty() {
            return 0;
        }
        let at = choose(&self.parts, edge);
        sum(&self.parts[..at]) + self.parts[at].rank(edge)
    }

    fn split(&mut self) -> Result<Option<Level<P>>, AllocError> {
        let len = self.parts.len();
        if len < FULL_PARTS {
            return Ok(None);
        }
        let half = len / 2;
        let later = self.parts.split_off(half)?;
        let total = sum(&later);
        self.total -= total;
        Ok(Some(Level {
            parts: later,
            total,
            alloc: self.alloc,
        }))
    }

    fn copy(&self) -> Result<Level<P>, AllocError> {
        let mut parts = Vec::with_capacity(self.alloc, self.parts.len())?;
        for part in &self.parts {
            let copy = part.copy()?;
            parts.push(copy)?;
        }
        Ok(Level {
            parts,
            total: self.total,
            alloc: self.alloc,
        })
    }

    fn list(&self, scope: Scope<'_>, pids: &mut Vec<Pid>) -> Result<(), AllocError> {
        if self.parts.is_empty() {
            return Ok(());
        }
        for part in asked(&self.parts, scope) {
            part.list(scope, pids)?;
        }
        Ok(())
    }
}
