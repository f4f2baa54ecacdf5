//! Random changes of two tables at once: mostly joins and leaves, of groups that come and go.

use crate::change::{Act, has_groups, perform};
use crate::samples::{Cast, holds};
use pg_group::{GroupTable, RowTable, Scope};
use pg_index::{GroupsByPlace, IndexTable};
use pg_query::{QueryFault, local_members, members};
use pg_term::{Items, Pid, Term};
use pg_test_kit::Random;
use std::alloc::Global;
use std::process::Abort;

/// The pids of three nodes.
const CROWD: &[(&str, u32, u32)] = &[("a", 0, 150), ("b@host", 0, 150), ("c", 0, 150)];

const PIDS: u32 = 450;

/// The places of the first pids of the nodes.
const FIRSTS: &[usize] = &[0, 150, 300];

const GROUPS: u32 = 5;

/// The pids of three nodes, of which every tenth has ended.
fn crowd(rt: &impl Abort, alloc: Global) -> Cast {
    let mut cast = Cast::new(rt, alloc, CROWD);
    for pid in cast.pids.iter_mut() {
        pid.serial = pid.id % 3;
        if pid.id % 10 == 9 {
            let copy = pid.copy().expect(rt, "copy");
            cast.ended.add(copy).expect(rt, "end");
        }
    }
    cast
}

/// Two tables that get the same changes, and the pids which those are of.
#[derive(Drop)]
struct Both {
    rows: RowTable,
    index: IndexTable,
    cast: Cast,
    random: Random,
}

/// Groups of some hundred members, which are several blocks of rows: 100,000 changes, compared after each thousand.
#[test]
fn index_agrees_with_rows_in_random_changes(rt: HostRuntime) {
    let mut both = Both {
        rows: RowTable::new(rt.alloc()),
        index: IndexTable::new(rt.alloc()),
        cast: crowd(&rt, rt.alloc()),
        random: Random::new(1),
    };
    for _ in 0..100 {
        both.change(&rt);
        holds(&rt, both.all_alike(&rt), "alike");
    }
    drop(both);
}

impl Both {
    /// Makes a thousand changes of both tables.
    fn change(&mut self, rt: &impl Abort) {
        let random = &mut self.random;
        for _ in 0..1_000 {
            let [p, q, r, s] = [place(random), place(random), place(random), place(random)];
            let told = [p, q, r, s, p, q];
            let group = i64::from(random.below(GROUPS));
            let act = drawn(random, p, &told);
            perform(rt, &mut self.rows, &self.cast, group, act);
            perform(rt, &mut self.index, &self.cast, group, act);
        }
    }

    /// Whether both tables name as many groups, and answer alike of each.
    fn all_alike(&self, rt: &impl Abort) -> bool {
        for group in 0..i64::from(GROUPS) {
            if !self.are_alike(rt, group) {
                return false;
            }
        }
        self.have_as_many(rt)
    }

    /// Whether both tables answer alike, in all that can be asked of a group.
    fn are_alike(&self, rt: &impl Abort, group: i64) -> bool {
        let name = Term::Int(group);
        let has = self.index.has(&name);
        let are_alike = self.rows.has(&name) == has
            && self.count_alike(&name, has)
            && self.rows.size(&name, Scope::All) == self.index.size(&name, Scope::All)
            && (!has || self.list_alike(rt, &name));
        drop(name);
        are_alike
    }

    fn count_alike(&self, name: &Term, has: bool) -> bool {
        for pid in &self.cast.pids {
            let count = self.rows.count(name, pid);
            let there = if has { Some(count) } else { None };
            if self.index.count(name, pid) != count
                || self.index.count_if_there(name, pid) != there
            {
                return false;
            }
        }
        true
    }

    /// Whether both list the same members of a group, in all and on each node.
    fn list_alike(&self, rt: &impl Abort, name: &Term) -> bool {
        let alloc = self.cast.alloc;
        let first = members(alloc, &self.rows, name);
        let mut alike = are_equal(rt, first, members(alloc, &self.index, name));
        for place in FIRSTS {
            let node = &self.cast.pid(rt, *place).node;
            let first = local_members(alloc, &self.rows, node, name);
            let second = local_members(alloc, &self.index, node, name);
            alike = are_equal(rt, first, second) && alike;
        }
        alike
    }

    /// Whether both tables name as many groups.
    fn have_as_many(&self, rt: &impl Abort) -> bool {
        let names = self.rows.groups().expect(rt, "groups");
        let have_as_many = has_groups(rt, &self.index, names.len());
        drop(names);
        have_as_many
    }
}

type Listed = Result<Items<Pid>, QueryFault>;

fn are_equal(rt: &impl Abort, one: Listed, other: Listed) -> bool {
    let one = one.expect(rt, "members");
    let other = other.expect(rt, "members");
    let are_equal = one == other;
    drop(one);
    drop(other);
    are_equal
}

fn place(random: &mut Random) -> usize {
    random.below(PIDS) as usize
}

/// A change by a pid, or by a few that another node told, some of them twice.
fn drawn<'a>(random: &mut Random, pid: usize, told: &'a [usize]) -> Act<'a> {
    match random.below(1_000) {
        0 => Act::DropNode(pid),
        1 => Act::Delete,
        2..20 => Act::Create,
        20..40 => Act::Drop(pid),
        40..60 => Act::Merge(told),
        60..350 => Act::Leave(pid),
        _ => Act::Join(pid),
    }
}
