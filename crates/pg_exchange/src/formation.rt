ghost use Rattle.std.specs.Prelude.{◌≡◌, ◌<◌, ◌↔◌, IsTrue, true, false, length};
ghost use Rattle.std.specs.Prelude.{slice_set, slice_get, Some, Err, IfOk, OnOk, OnErr};
ghost use Rattle.std.specs.List.{list_all};
ghost use Rattle.std.proofs.Common.{replicate};
ghost use Rattle.pg_group.specs.Ended.{ended_of};
ghost use Rattle.pg_exchange.specs.GroupList.{all_merged};
ghost use Rattle.pg_exchange.specs.declared.fault.ExchangeFault.TheVariants.{NotAMessage};

use crate::fault::ExchangeFault;
use crate::merging::{merge_all, merge_owned};
use pg_group::{Ended, GroupTable};
use pg_term::{Items, Pid, Term};
use std::alloc::{AllocError, Global};
use std::marker::Model;

/// Which peers are merged; contracts see a mark for each peer, in the order of the peers.
#[derive(Debug, Drop)]
pub struct Formation {
    marks: Vec<bool>,
    // How many are not merged.
    missing: usize,
    alloc: Global,
}

impl Model for Formation {
    ghost use Rattle.std.specs.Prelude.{◌≡◌, List, Bool};
    ghost use Rattle.pg_exchange.specs.Marks.{unmarked};

    ghost Value = { List Bool };

    ghost view = { λ formation. formation.marks.items };

    ghost invariant = { λ formation. formation.missing ≡ unmarked formation.marks.items };
}

impl Formation {
    /// No peer of so many is merged.
    ///
    /// Errors: `AllocError`.
    ///
    /// Cost: one allocation.
    pub fn new(alloc: Global, peers: usize) -> Result<Formation, AllocError>
        ensures { IfOk result (λ formation. formation ≡ replicate peers false) }
    {
        let mut marks = Vec::new(alloc);
        marks.resize(peers, false)?;
        Ok(Formation {
            marks,
            missing: peers,
            alloc,
        })
    }

    /// How many peers there are.
    ///
    /// Cost: no memory.
    pub fn peers(&self) -> usize
        ensures { result ≡ length self.now }
    {
        self.marks.len()
    }

    /// The same peers are merged, of as many.
    ///
    /// Errors: `AllocError`.
    ///
    /// Cost: one allocation.
    pub fn copy(&self) -> Result<Formation, AllocError>
        ensures { IfOk result (λ copy. copy ≡ self.now) }
    {
        let marks = self.marks.clone()?;
        Ok(Formation {
            marks,
            missing: self.missing,
            alloc: self.alloc,
        })
    }

    /// Whether the same peers are merged, of as many.
    ///
    /// Cost: no memory; O(n) in the peers.
    pub fn same(&self, other: &Formation) -> bool
        ensures { IsTrue result ↔ (self.now ≡ other.now) }
    {
        self.marks == other.marks
    }

    /// Takes the groups that a peer announces: merges each into the table, and counts the peer as merged. `peer` is a
    /// place among the peers. Each group becomes the merge of what it was and of what is announced of it, without the
    /// ended: the law `exchange_merges_tables`.
    ///
    /// Errors: `NotAMessage` where the peer is merged already; else `OutOfMemory`. They change nothing.
    ///
    /// Cost: that of the groups that are announced, however many more the table has.
    pub fn take<T: GroupTable>(
        &mut self,
        peer: usize,
        groups: &[(Term, Items<Pid>)],
        table: &mut T,
        ended: &Ended,
    ) -> Result<(), ExchangeFault>
        requires { peer < length self.old }
        ensures marked { OnOk result (self.new ≡ slice_set self.old peer true) }
        ensures merged { OnOk result
            (T.contents table.new ≡ all_merged (T.contents table.old) groups.now (ended_of ended.now)) }
        ensures err_marks { OnErr result (self.new ≡ self.old) }
        ensures err_table { OnErr result (T.contents table.new ≡ T.contents table.old) }
        ensures second { (result ≡ Err NotAMessage) ↔ (slice_get self.old peer ≡ Some true) }
    {
        if self.marks[peer] {
            return Err(ExchangeFault::NotAMessage);
        }
        merge_all(self.alloc, groups, table, ended)?;
        self.forget(peer);
        Ok(())
    }

    /// The same of groups that are given to the table, which takes the names of those that it lacks, so that it holds
    /// none of them twice.
    ///
    /// Errors: `NotAMessage` where the peer is merged already; else `OutOfMemory`. They change nothing.
    ///
    /// Cost: that of `take`.
    pub fn take_owned<T: GroupTable>(
        &mut self,
        peer: usize,
        groups: Vec<(Term, Items<Pid>)>,
        table: &mut T,
        ended: &Ended,
    ) -> Result<(), ExchangeFault>
        requires { peer < length self.old }
        ensures marked { OnOk result (self.new ≡ slice_set self.old peer true) }
        ensures merged { OnOk result
            (T.contents table.new ≡ all_merged (T.contents table.old) groups.items (ended_of ended.now)) }
        ensures err_marks { OnErr result (self.new ≡ self.old) }
        ensures err_table { OnErr result (T.contents table.new ≡ T.contents table.old) }
        ensures second { (result ≡ Err NotAMessage) ↔ (slice_get self.old peer ≡ Some true) }
    {
        let merged = self.marks[peer];
        if merged {
            drop(groups);
            return Err(ExchangeFault::NotAMessage);
        }
        merge_owned(self.alloc, groups, table, ended)?;
        self.forget(peer);
        Ok(())
    }

    /// Counts a peer as merged, as where it is lost, whether it has announced its groups or not; all else stays as it
    /// was. `peer` is a place among the peers. It can be called again.
    ///
    /// Cost: no memory.
    pub fn forget(&mut self, peer: usize)
        requires { peer < length self.old }
        ensures { self.new ≡ slice_set self.old peer true }
    {
        if !self.marks[peer] {
            self.marks[peer] = true;
            self.missing -= 1;
        }
    }

    /// Whether a peer is merged: it has announced its groups, or was forgotten. `peer` is a place among the peers.
    ///
    /// Cost: no memory.
    pub fn is_merged(&self, peer: usize) -> bool
        requires { peer < length self.now }
        ensures { slice_get self.now peer ≡ Some result }
    {
        self.marks[peer]
    }

    /// Whether every peer is merged: it has announced its groups, or was forgotten.
    ///
    /// Cost: no memory.
    pub fn formed(&self) -> bool
        ensures { result ≡ list_all (λ marked. marked) self.now }
    {
        self.missing == 0
    }
}
