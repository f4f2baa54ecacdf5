//! The headline, read slowly off a world: what each node's table should be, by the history of each group.

use crate::slow::held::{ALL, Held, bit_of, count_in};
use crate::slow::kept::{LeftOut, lost_to};
use pg_term::{Pid, Term};
use pg_world::{Entry, GroupTable, IndexTable, NodeState, Scope, Start};
use std::alloc::{AllocError, Global};

/// A world over bytes, and a node of one.
pub type World = pg_world::World<IndexTable>;

pub type State = NodeState<IndexTable>;

/// The node at a place.
///
/// Cost: no memory; O(1).
pub fn state_of(world: &World, place: usize) -> Option<&State> {
    Some(world.node(place)?.state())
}

/// The history of a group: a slice, and one more behind it, where the last event began it.
pub type History<'a> = (&'a [Entry], Option<&'a Entry>);

/// The groups that tests speak of.
pub const GROUPS: [i64; 4] = [1, 2, 3, 4];

/// How many updates there are.
///
/// Cost: no memory; O(1).
pub fn len_of(history: History<'_>) -> usize {
    history
        .0
        .len()
        .saturating_add(usize::from(history.1.is_some()))
}

/// The update at a place.
pub(crate) fn entry_at(history: History<'_>, place: usize) -> Option<&Entry> {
    if place == history.0.len() {
        history.1
    } else {
        history.0.get(place)
    }
}

/// A world that is looked at.
#[derive(Clone, Copy)]
pub struct Scene<'a> {
    pub alloc: Global,
    pub world: &'a World,
    /// How its nodes began.
    pub starts: &'a [Start],
    /// The processes that a test speaks of.
    pub pids: &'a [Pid],
    /// Which exchanges were taken.
    pub heard: &'a [Heard],
}

/// The exchange of a peer was taken by a node: the places of both.
#[derive(Clone, Copy)]
pub struct Heard {
    pub node: usize,
    pub peer: usize,
}

/// What the table of a node should hold.
#[derive(Clone, Copy)]
enum Wanted<'a> {
    /// What the updates of a history, but for these, make of what all began with, less the processes that it knows to have ended.
    AllBut(LeftOut),
    /// What the nodes at these places began with, a bit for each, less the processes that it knows to have ended.
    BegunBy(u32),
    /// What the table of another node holds.
    Of(&'a State),
}

impl<'a> Scene<'a> {
    /// The node at a place, if it is not lost.
    fn left_at(&self, place: usize) -> Option<&'a State> {
        if self.world.is_lost(place) {
            None
        } else {
            state_of(self.world, place)
        }
    }

    /// What a node should hold of a process in a group.
    fn wanted(&self, node: &State, name: &Term, wanted: Wanted<'_>, pid: &Pid) -> Held {
        match wanted {
            Wanted::AllBut(out) => {
                let mut held = Held::begun(self.starts, ALL, name, pid);
                self.replay(&mut held, self.world.history(name), out, pid);
                held.less(node.ended(pid))
            }
            Wanted::BegunBy(places) => {
                Held::begun(self.starts, places, name, pid).less(node.ended(pid))
            }
            Wanted::Of(other) => Held {
                is_there: other.table().has(name),
                count: other.table().count(name, pid),
            },
        }
    }

    /// Whether a node, whose list of a group this is, holds of each of these processes what it should.
    fn are_held(
        &self,
        node: &State,
        name: &Term,
        wanted: Wanted<'_>,
        list: &[Pid],
        pids: &[Pid],
    ) -> bool {
        let is_there = node.table().has(name);
        for pid in pids {
            let held = self.wanted(node, name, wanted, pid);
            if held.is_there != is_there || held.count != count_in(list, pid) {
                return false;
            }
        }
        true
    }

    /// Whether a node holds of a group what it should.
    fn is_right(&self, node: &State, name: &Term, wanted: Wanted<'_>) -> bool {
        match node.table().list(self.alloc, name, Scope::All) {
            Ok(list) => {
                let pids = list.as_slice();
                let is_right = self.are_held(node, name, wanted, pids, self.pids)
                    && self.are_held(node, name, wanted, pids, pids);
                drop(list);
                is_right
            }
            Err(AllocError) => false,
        }
    }

    /// Whether the table of a node is that of the updates that it has applied: the history, or all of it but the last, less one that is
    /// not answered of each lost node whose loss it saw. Where the lock is free the last is among them.
    fn has_its_table(&self, place: usize, node: &State, name: &Term, is_free: bool) -> bool {
        let seen = lost_to(place, node);
        let applied = Some(self.world.applied(place, name));
        for of_lost in 0..seen.saturating_add(1) {
            for is_short in [false, true] {
                let out = LeftOut { of_lost, is_short };
                if of_lost | seen == seen
                    && !(is_short && is_free)
                    && self.kept(self.world.history(name), out) == applied
                    && self.is_right(node, name, Wanted::AllBut(out))
                {
                    return true;
                }
            }
        }
        false
    }

    /// Whether one node sees the lock of a group free.
    fn is_free(&self, name: &Term) -> bool {
        for place in 0..self.starts.len() {
            if self.world.lock_free(place, name) {
                return true;
            }
        }
        false
    }

    /// Whether no process has ended at its home, and not everywhere. Lost nodes do not count.
    fn none_pending(&self) -> bool {
        for pid in self.pids {
            let mut has_ended = false;
            let mut is_alive = false;
            for place in 0..self.starts.len() {
                if let Some(node) = self.left_at(place) {
                    let ended = node.ended(pid);
                    has_ended = has_ended || ended && *node.own() == pid.node;
                    is_alive = is_alive || !ended;
                }
            }
            if has_ended && is_alive {
                return false;
            }
        }
        true
    }

    /// Whether a formed live node has applied the whole history of a group, and has seen each loss.
    fn is_calm(&self, place: usize, node: &State, name: &Term) -> bool {
        node.formed()
            && self.world.applied(place, name) == len_of(self.world.history(name)) as u128
            && lost_to(place, node) == self.lost()
    }

    /// The first such node.
    fn first_calm(&self, name: &Term) -> Option<&'a State> {
        for place in 0..self.starts.len() {
            match self.left_at(place) {
                Some(node) if self.is_calm(place, node, name) => return Some(node),
                _ => {}
            }
        }
        None
    }

    /// The places of a node and of the peers whose exchange it took, a bit for each.
    fn known_at(&self, place: usize) -> u32 {
        let mut known = bit_of(place);
        for heard in self.heard {
            if heard.node == place {
                known |= bit_of(heard.peer);
            }
        }
        known
    }

    /// What does not hold of a group at a node that is not formed, if something does not.
    fn fault_unformed(&self, place: usize, node: &State, name: &Term) -> Option<&'static str> {
        if len_of(self.world.history(name)) > 0 {
            return Some("an update while a node is not formed");
        }
        if self.is_right(node, name, Wanted::BegunBy(self.known_at(place))) {
            None
        } else {
            Some("the table of a node that is not formed is another")
        }
    }

    /// What does not hold of a group at a node, if something does not. `is_free`: its lock is free; `none_pending`: no end is pending.
    fn fault_at(
        &self,
        place: usize,
        name: &Term,
        is_free: bool,
        none_pending: bool,
    ) -> Option<&'static str> {
        let node = self.left_at(place)?;
        if self.is_of_lost(node.holder(name), lost_to(place, node)) {
            return Some("a lock of a lost node");
        }
        if !node.formed() {
            return self.fault_unformed(place, node, name);
        }
        let is_free = is_free || self.world.lock_free(place, name);
        if !self.has_its_table(place, node, name, is_free) {
            return Some("the table is another");
        }
        match self.first_calm(name) {
            Some(first)
                if none_pending
                    && self.is_calm(place, node, name)
                    && !self.is_right(node, name, Wanted::Of(first)) => {
                Some("the tables do not agree")
            }
            _ => None,
        }
    }

    /// Whether each live node has seen each loss.
    ///
    /// Cost: no memory; O(n²) in the nodes.
    pub fn all_saw(&self) -> bool {
        for place in 0..self.starts.len() {
            match self.left_at(place) {
                Some(node) if lost_to(place, node) != self.lost() => return false,
                _ => {}
            }
        }
        true
    }

    /// What does not hold of the headline, of some group at some node, or of what survives where nodes are lost. `memory` where
    /// that was refused.
    ///
    /// Cost: memory for lists of members; a node's table is made of each history as often as there are sets of lost nodes.
    pub fn fault(&self) -> Option<&'static str> {
        let none_pending = self.none_pending();
        let Ok(pids) = self.world.pending_ends() else {
            return Some("memory");
        };
        let is_told = pids.is_empty() == none_pending;
        drop(pids);
        if !is_told {
            return Some("other ends are pending");
        }
        for group in GROUPS {
            let name = Term::Int(group);
            // Where none is lost, all have applied the whole history if one sees the lock free.
            let is_free = self.lost() == 0 && self.is_free(&name);
            let mut fault = if self.are_others_answered(self.world.history(&name)) {
                None
            } else {
                Some("two updates are not answered")
            };
            for place in 0..self.starts.len() {
                if fault.is_none() {
                    fault = self.fault_at(place, &name, is_free, none_pending);
                }
            }
            drop(name);
            if fault.is_some() {
                return fault;
            }
        }
        None
    }
}
