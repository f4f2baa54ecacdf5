ghost use Rattle.std.specs.Prelude.{◌≡◌, ◌+◌, ◌<◌, ◌≤◌, ◌^◌, length, take, drop};
ghost use Rattle.std.specs.Prelude.{slice_get, option_copied, Some, IsTrue};
ghost use Rattle.std.specs.List.{AllByRecursion};
ghost use Rattle.pg_index_members.specs.declared.row.Row.{Row};
ghost use Rattle.pg_index_members.specs.Edges.{before, IsOnNode};
ghost use Rattle.pg_index_members.specs.Rows.{AreRows, IsCut, is_here, total_of};

use crate::edge::Edge;
use crate::part::Part;
use crate::row::Row;
use pg_group::{Scope, append_member};
use pg_term::{Atom, Pid};
use std::alloc::{AllocError, Global};
use std::marker::Model;

/// A block of so many rows is split.
const FULL_ROWS: usize = 64;

/// Some rows in one piece of memory.
#[derive(Drop)]
pub struct Block {
    rows: Vec<Row>,
    // the sum of the counts
    total: u64,
    alloc: Global,
}

impl Model for Block {
    ghost use Rattle.std.specs.Prelude.{◌≡◌, List};
    ghost use Rattle.pg_index_members.specs.declared.row.Row.{Row};

    ghost Value = { List Row };

    ghost use Rattle.pg_index_members.specs.Rows.{AreRows, total_of};

    ghost view = { λ b. b.rows.items };

    ghost invariant = { λ b. (b.total ≡ total_of b.rows.items) × AreRows b.rows.items };
}

/// Whether there is a row, and it is of a node.
fn is_on(row: Option<&Row>, node: &Atom) -> bool
    ensures { IsTrue result → (there : Row) × (option_copied row.entry ≡ Some there) × (there.pid.node ≡ node.now) }
{
    match row {
        Some(row) => row.pid.node == *node,
        None => false,
    }
}

/// Whether an edge is at a pid, and all rows are of its node, as the first and the last are.
fn are_on_node(rows: &[Row], edge: Edge<'_>) -> bool
    requires { AreRows rows.now }
    ensures { IsTrue result → AllByRecursion (λ row. IsOnNode edge.entry row.pid) rows.now }
{
    match edge {
        Edge::AtPid(pid) => is_on(rows.first(), &pid.node) && is_on(rows.last(), &pid.node),
        Edge::AtNode(_) | Edge::PastNode(_) => false,
    }
}

/// Whether a row is before an edge. Names are not looked at where it is known to be of the node of the edge's pid.
fn is_before(row: &Row, edge: Edge<'_>, is_on_node: bool) -> bool
    requires { IsTrue is_on_node → IsOnNode edge row.now.pid }
    ensures { result ≡ before edge.entry row.now.pid }
{
    if is_on_node {
        edge.is_after_on_node(&row.pid)
    } else {
        edge.is_after(&row.pid)
    }
}

/// How many rows are before an edge.
fn find(rows: &[Row], edge: Edge<'_>) -> usize
    requires { AreRows rows.now }
    ensures { IsCut (before edge.entry) rows.now result }
{
    let are_on_node = are_on_node(rows, edge);
    let mut low = 0;
    let mut high = rows.len();
    while low < high {
        let middle = low + (high - low) / 2;
        if is_before(&rows[middle], edge, are_on_node) {
            low = middle + 1;
        } else {
            high = middle;
        }
    }
    low
}

/// Whether the row at a place is a pid's.
fn is_at(rows: &[Row], at: usize, pid: &Pid) -> bool
    ensures value { result ≡ is_here pid.now (drop at rows.now) }
    ensures within { IsTrue result → at < length rows.now }
{
    at < rows.len() && rows[at].pid == *pid
}

/// The sum of the counts of some rows.
fn sum(rows: &[Row]) -> u64
    requires { total_of rows.now < 2 ^ 64 }
    ensures { result ≡ total_of rows.now }
{
    let mut total = 0;
    for row in rows {
        total += row.count;
    }
    total
}

impl Block {
    /// Whether it has so many rows that it is to be split.
    ///
    /// Cost: no memory.
    pub fn is_full(&self) -> bool
        ensures { IsTrue result → 0 < length self.now }
    {
        self.rows.len() >= FULL_ROWS
    }

    /// Gives back its memory, where it has no row.
    ///
    /// Cost: no memory.
    pub fn shrink(&mut self)
        ensures { self.new ≡ self.old }
    {
        if self.rows.is_empty() {
            self.rows.shrink_to_fit();
        }
    }

    /// What it takes its memory from.
    ///
    /// Cost: no memory.
    pub(crate) fn allocator(&self) -> Global {
        self.alloc
    }
}

impl Part for Block {
    ghost rows = { λ block. block };

    fn new(alloc: Global) -> Block {
        Block {
            rows: Vec::new(alloc),
            total: 0,
            alloc,
        }
    }

    fn is_empty(&self) -> bool {
        self.rows.is_empty()
    }

    fn total(&self) -> u64 {
        self.total
    }

    fn is_before(&self, edge: Edge<'_>) -> bool {
        match self.rows.last() {
            Some(row) => edge.is_after(&row.pid),
            None => true,
        }
    }

    fn count(&self, pid: &Pid) -> u64 {
        let at = find(&self.rows, Edge::AtPid(pid));
        if is_at(&self.rows, at, pid) {
            self.rows[at].count
        } else {
            0
        }
    }

    fn add(&mut self, pid: &Pid, more: u64) -> Result<u64, AllocError> {
        let at = find(&self.rows, Edge::AtPid(pid));
        if is_at(&self.rows, at, pid) {
            let count = self.rows[at].count + more;
            self.rows[at].count = count;
            self.total += more;
            return Ok(count);
        }
        let row = Row {
            pid: pid.copy()?,
            count: more,
        };
        self.rows.insert(at, row)?;
        self.total += more;
        Ok(more)
    }

    fn take(&mut self, pid: &Pid, most: u64) -> u64 {
        let at = find(&self.rows, Edge::AtPid(pid));
        if is_at(&self.rows, at, pid) {
            let count = self.rows[at].count;
            if count <= most {
                self.rows.remove(at);
                self.total -= count;
            } else {
                self.rows[at].count = count - most;
                self.total -= most;
            }
            count
        } else {
            0
        }
    }

    fn take_last(&mut self) -> Option<Row> {
        let row = self.rows.pop()?;
        self.total -= row.count;
        Some(row)
    }

    fn at(&self, place: u64) -> Option<&Pid> {
        let mut left = place;
        for row in &self.rows {
            if left < row.count {
                return Some(&row.pid);
            }
            left -= row.count;
        }
        None
    }

    fn rank(&self, edge: Edge<'_>) -> u64 {
        // read, so that the proof knows that it fits
        let _total = self.total;
        let at = find(&self.rows, edge);
        sum(&self.rows[..at])
    }

    fn split(&mut self) -> Result<Option<Block>, AllocError> {
        let len = self.rows.len();
        if len < FULL_ROWS {
            return Ok(None);
        }
        let half = len / 2;
        let later = self.rows.split_off(half)?;
        let total = sum(&later);
        self.total -= total;
        Ok(Some(Block {
            rows: later,
            total,
            alloc: self.alloc,
        }))
    }

    fn copy(&self) -> Result<Block, AllocError> {
        let mut rows = Vec::with_capacity(self.alloc, self.rows.len())?;
        for row in &self.rows {
            let pid = row.pid.copy()?;
            rows.push(Row {
                pid,
                count: row.count,
            })?;
        }
        Ok(Block {
            rows,
            total: self.total,
            alloc: self.alloc,
        })
    }

    fn list(&self, scope: Scope<'_>, pids: &mut Vec<Pid>) -> Result<(), AllocError> {
        for row in &self.rows {
            if scope.has(&row.pid) {
                append_member(pids, &row.pid, row.count)?;
            }
        }
        Ok(())
    }
}
