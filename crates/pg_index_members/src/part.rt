ghost use Rattle.std.specs.Prelude.{◌≡◌, ◌↔◌, ◌+◌, ◌<◌, ◌≤◌, ◌^◌, ◌++◌, IsTrue, List, [], ◌∷◌, IfSome};
ghost use Rattle.std.specs.Prelude.{IfNone, length, slice_get, option_copied, OnOk, OnErr, IfOk, MatchOption};
ghost use Rattle.pg_index_members.specs.declared.row.Row.{Row};
ghost use Rattle.pg_index_members.specs.Edges.{before};
ghost use Rattle.pg_index_members.specs.Rows.{counts_of, total_of, spread, AreRows};
ghost use Rattle.pg_index_members.specs.Rows.{all_before, added, one_taken, IsSplit};
ghost use Rattle.pg_group.specs.Scope.{anywhere, in_scope};

use crate::edge::Edge;
use crate::row::Row;
use pg_group::Scope;
use pg_term::{Atom, Pid};
use std::alloc::{AllocError, Global};

/// A run of rows, however it is kept.
pub trait Part: Drop {
    /// What it holds.
    ghost rows: { Self → List Row };

    /// No row.
    ///
    /// Cost: no memory.
    fn new(alloc: Global) -> Self
    where
        Self: Sized,
        ensures { rows result ≡ [] };

    /// Whether it has no row.
    fn is_empty(&self) -> bool
        ensures { IsTrue result ↔ (rows self.now ≡ []) };

    /// How many members it has, each as often as its count.
    fn total(&self) -> u64
        ensures value { result ≡ total_of (rows self.now) }
        ensures in_order { AreRows (rows self.now) };

    /// Whether all its rows are before an edge.
    fn is_before(&self, edge: Edge<'_>) -> bool
        ensures { result ≡ all_before (before edge.entry) (rows self.now) };

    /// The count of a pid.
    fn count(&self, pid: &Pid) -> u64
        ensures { result ≡ counts_of (rows self.now) pid.now };

    /// Adds to the count of a pid, and gives the count after that.
    ///
    /// Errors: `AllocError`.
    ///
    /// Cost: memory for a new member alone.
    fn add(&mut self, pid: &Pid, more: u64) -> Result<u64, AllocError>
        requires some { 0 < more }
        requires fits { total_of (rows self.old) + more < 2 ^ 64 }
        ensures ok { OnOk result (rows self.new ≡ added (rows self.old) pid.now more) }
        ensures err { OnErr result (rows self.new ≡ rows self.old) }
        ensures count { IfOk result (λ count. count ≡ counts_of (rows self.old) pid.now + more) }
        ensures memory { OnErr result (counts_of (rows self.old) pid.now ≡ 0) };

    /// Takes at most so many from the count of a pid, and gives the count before.
    fn take(&mut self, pid: &Pid, most: u64) -> u64
        requires { 0 < most }
        ensures count { result ≡ counts_of (rows self.old) pid.now }
        ensures rest { rows self.new ≡ one_taken (rows self.old) pid.now most };

    /// Takes the last row out.
    fn take_last(&mut self) -> Option<Row>
        ensures some { IfSome result (λ row. rows self.old ≡ rows self.new ++ row ∷ []) }
        ensures none { IfNone result (rows self.old ≡ []) };

    /// The member at a place, each as often as its count.
    fn at(&self, place: u64) -> Option<&Pid>
        ensures { option_copied result ≡ slice_get (spread anywhere (rows self.now)) place };

    /// How many members are before an edge, each as often as its count.
    fn rank(&self, edge: Edge<'_>) -> u64
        ensures { result ≡ length (spread (before edge.entry) (rows self.now)) };

    /// Moves the later half of the rows into a part of its own, where there are too many for one; `None` where there
    /// are not.
    ///
    /// Errors: `AllocError`, which changes nothing.
    fn split(&mut self) -> Result<Option<Self>, AllocError>
    where
        Self: Sized,
        ensures ok { IfOk result (λ later. MatchOption later (rows self.new ≡ rows self.old)
            (λ part. IsSplit (rows self.old) (rows self.new) (rows part))) }
        ensures err { OnErr result (rows self.new ≡ rows self.old) };

    /// The same rows.
    ///
    /// Errors: `AllocError`.
    ///
    /// Cost: memory for each, and for the name of its node.
    fn copy(&self) -> Result<Self, AllocError>
    where
        Self: Sized,
        ensures { IfOk result (λ copy. rows copy ≡ rows self.now) };

    /// Appends the members of a scope to a list, each as often as its count.
    ///
    /// Errors: `AllocError`.
    ///
    /// Cost: memory for each, and for the name of its node.
    fn list(&self, scope: Scope<'_>, pids: &mut Vec<Pid>) -> Result<(), AllocError>
        ensures { OnOk result (pids.new.items ≡ pids.old.items ++ spread (in_scope scope.entry) (rows self.now)) };
}
