ghost use Rattle.std.specs.Prelude.{◌≡◌, ◌+◌, ◌-◌, ◌<◌, ◌≤◌, ◌^◌, List, Some, [], ◌∷◌, ◌++◌, ◌⊎◌, min, length};
ghost use Rattle.std.specs.Prelude.{slice_get, option_copied, IsErr, OnOk, OnErr, IfOk, IfSome, IfNone};
ghost use Rattle.pg_term.specs.declared.pid.Pid.{Pid};
ghost use Rattle.pg_term.specs.Same.{same_pid};
ghost use Rattle.pg_group.specs.Functions.{upd};
ghost use Rattle.pg_group.specs.Value.{with_one_less};
ghost use Rattle.pg_group.specs.Scope.{in_scope, anywhere, at_node};
ghost use Rattle.pg_group.specs.Members.{IsMemberList};
ghost use Rattle.pg_index_members.specs.Edges.{before};
ghost use Rattle.pg_index_members.specs.Forms.{rows_of};
ghost use Rattle.pg_index_members.specs.Rows.{AreRows, counts_of, total_of, spread};

use crate::edge::Edge;
use crate::form::Form;
use crate::part::Part;
use crate::row::Row;
use pg_group::Scope;
use pg_term::{Atom, Pid};
use std::alloc::{AllocError, Global};
use std::marker::Model;

/// The members of one group, in the order of pids, each with its count.
#[derive(Drop)]
pub struct Members {
    rows: Form,
}

impl Model for Members {
    ghost use Rattle.std.specs.Prelude.{List};
    ghost use Rattle.pg_index_members.specs.declared.row.Row.{Row};

    ghost Value = { List Row };

    ghost use Rattle.pg_index_members.specs.Forms.{rows_of};

    ghost view = { λ members. rows_of members.rows };
}

impl Clone for Members {
    ghost is_clone = { λ members copy. copy ≡ members };

    fn clone(&self) -> Result<Members, AllocError> {
        self.copy()
    }
}

impl Members {
    /// Nobody.
    ///
    /// Cost: no memory.
    pub fn new(alloc: Global) -> Members
        ensures { result ≡ [] }
    {
        Members {
            rows: Form::new(alloc),
        }
    }

    /// The count of a pid.
    ///
    /// Cost: no memory.
    pub fn count(&self, pid: &Pid) -> u64
        ensures { result ≡ counts_of self.now pid.now }
    {
        self.rows.count(pid)
    }

    /// Adds to the count of a pid, and gives the count after that.
    ///
    /// Errors: `AllocError`, which changes nothing, where there is no memory for a new member, and always where the
    /// counts of all members would pass 64 bits.
    ///
    /// Cost: memory for a new member alone.
    pub fn add(&mut self, pid: &Pid, more: u64) -> Result<u64, AllocError>
        requires { 0 < more }
        ensures ok { OnOk result (counts_of self.new
            ≡ upd same_pid (counts_of self.old) pid.now (counts_of self.old pid.now + more)) }
        ensures count { IfOk result (λ count. count ≡ counts_of self.old pid.now + more) }
        ensures err { OnErr result (self.new ≡ self.old) }
        ensures full { 2 ^ 64 ≤ length (spread anywhere self.old) + more → IsErr result }
        ensures memory { OnErr result
            ((counts_of self.old pid.now ≡ 0) ⊎ (2 ^ 64 ≤ length (spread anywhere self.old) + more)) }
        ensures list { IsMemberList (Some (counts_of self.old)) anywhere (spread anywhere self.old) }
    {
        let room = u64::MAX - self.rows.total();
        if room < more {
            return Err(AllocError);
        }
        let count = self.rows.add(pid, more)?;
        Ok(count)
    }

    /// Takes one from the count of a pid, if it is a member, and gives the count before.
    ///
    /// Cost: no memory.
    pub fn take_one(&mut self, pid: &Pid) -> u64
        ensures counts { counts_of self.new ≡ with_one_less (counts_of self.old) pid.now }
        ensures count { result ≡ counts_of self.old pid.now }
    {
        self.rows.total();
        self.rows.take(pid, 1)
    }

    /// Takes a pid out, whatever its count.
    ///
    /// Cost: no memory.
    pub fn remove(&mut self, pid: &Pid)
        ensures { counts_of self.new ≡ upd same_pid (counts_of self.old) pid.now 0 }
    {
        self.rows.total();
        self.rows.take(pid, u64::MAX);
    }

    /// Takes the last pid out, with its count.
    ///
    /// Cost: no memory.
    pub fn take_last(&mut self) -> Option<Row>
        ensures last { IfSome result (λ row. self.old ≡ self.new ++ row ∷ []) }
        ensures rest { IfSome result (λ row. counts_of self.new ≡ upd same_pid (counts_of self.old) row.pid 0) }
        ensures fewer { IfSome result (λ row. length self.new < length self.old) }
        ensures nobody { IfNone result ((pid : Pid) → counts_of self.old pid ≡ 0) }
    {
        self.rows.total();
        self.rows.take_last()
    }

    /// How many members there are, each as often as its count.
    ///
    /// Cost: no memory; O(1) for all, and for those of a node two searches, which add up the sums of parts and the
    /// counts within one block.
    pub fn size(&self, scope: Scope<'_>) -> u64
        ensures exact { result ≡ length (spread (in_scope scope.entry) self.now) }
        ensures list { IsMemberList (Some (counts_of self.now)) (in_scope scope.entry) (spread (in_scope scope.entry) self.now) }
    {
        match scope {
            Scope::All => self.rows.total(),
            Scope::At(node) => self.size_at(node),
        }
    }

    /// The member at a place.
    ///
    /// Cost: no memory; it adds up the sums of parts and the counts within one block, and does so once more for a
    /// place among the members of a node.
    pub fn pid_at(&self, scope: Scope<'_>, place: u64) -> Option<&Pid>
        ensures exact { option_copied result ≡ slice_get (spread (in_scope scope.entry) self.now) place }
        ensures list { IsMemberList (Some (counts_of self.now)) (in_scope scope.entry) (spread (in_scope scope.entry) self.now) }
    {
        self.rows.total();
        match scope {
            Scope::All => self.rows.at(place),
            Scope::At(node) => self.pid_of_node(node, place),
        }
    }

    /// An equal group.
    ///
    /// Errors: `AllocError`.
    ///
    /// Cost: memory for each member, and for the name of its node.
    pub fn copy(&self) -> Result<Members, AllocError>
        ensures { IfOk result (λ copy. copy ≡ self.now) }
    {
        Ok(Members {
            rows: self.rows.copy()?,
        })
    }

    /// The members of a scope, each as often as its count.
    ///
    /// Errors: `AllocError`.
    ///
    /// Cost: memory for each, and for the name of its node; one walk over their blocks.
    pub fn list(&self, alloc: Global, scope: Scope<'_>) -> Result<Vec<Pid>, AllocError>
        ensures exact { IfOk result (λ pids. pids.items ≡ spread (in_scope scope.entry) self.now) }
        ensures list { IfOk result (λ pids. IsMemberList (Some (counts_of self.now)) (in_scope scope.entry) pids.items) }
    {
        let mut pids = Vec::new(alloc);
        self.rows.total();
        self.rows.list(scope, &mut pids)?;
        Ok(pids)
    }

    fn size_at(&self, node: &Atom) -> u64
        ensures value { result ≡ length (spread (at_node node.now) self.now) }
        ensures in_order { AreRows self.now }
    {
        self.rows.total();
        self.rows.rank(Edge::PastNode(node)) - self.rows.rank(Edge::AtNode(node))
    }

    fn pid_of_node(&self, node: &Atom, place: u64) -> Option<&Pid>
        ensures { option_copied result ≡ slice_get (spread (at_node node.now) self.now) place }
    {
        self.rows.total();
        let first = self.rows.rank(Edge::AtNode(node));
        let pid = self.rows.at(first.checked_add(place)?)?;
        if *node == pid.node { Some(pid) } else { None }
    }
}
