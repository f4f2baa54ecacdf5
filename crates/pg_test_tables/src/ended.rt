//! Who has ended, beside a plain list of pids in order.

use crate::samples::{atom, holds, push};
use pg_group::Ended;
use pg_term::{Atom, Pid};
use pg_test_kit::Random;
use std::alloc::Global;
use std::process::Abort;

/// So many that the numbers of each node are split some times, and some come twice.
const PIDS: u32 = 5_000;

const IDS: u32 = 1_000;

/// Pids by chance, of two nodes and creations, end one by one. They are those of a plain list, also in their order; those of the list in a row
/// make the same set.
#[test]
fn ended_as_in_a_plain_list(rt: HostRuntime) {
    let names = [atom(&rt, rt.alloc(), "a"), atom(&rt, rt.alloc(), "b")];
    let mut plain = Vec::new(rt.alloc());
    let mut ended = Ended::new(rt.alloc());
    let mut random = Random::new(1);
    for _ in 0..PIDS {
        let pid = by_chance(&rt, &mut random, &names);
        ends_in_both(&rt, &mut plain, &mut ended, pid);
    }
    for name in &names {
        are_of(&rt, rt.alloc(), &plain, &ended, name);
    }
    is_in_a_row(&rt, rt.alloc(), &plain, &ended);
    drop(ended);
    drop(plain);
    drop(names);
}

fn by_chance(rt: &impl Abort, random: &mut Random, names: &[Atom]) -> Pid {
    let node = random.pick(names).expect(rt, "a name").copy();
    Pid {
        node: node.expect(rt, "a copy"),
        serial: random.below(2),
        id: random.below(IDS),
        creation: random.below(2),
    }
}

/// A pid has ended where the list has it, before and after it is put into both.
fn ends_in_both(rt: &impl Abort, plain: &mut Vec<Pid>, ended: &mut Ended, pid: Pid) {
    let place = plain.binary_search(&pid);
    holds(rt, ended.has(&pid) == place.is_ok(), "before");
    end(rt, ended, &pid);
    holds(rt, ended.has(&pid), "after");
    match place {
        Ok(_) => drop(pid),
        Err(place) => plain.insert(place, pid).expect(rt, "room"),
    }
}

/// Those of a node are those of the list, in its order.
fn are_of(rt: &impl Abort, alloc: Global, plain: &[Pid], ended: &Ended, name: &Atom) {
    let mut own = Vec::new(alloc);
    for pid in plain {
        if pid.node == *name {
            push(rt, &mut own, pid.copy().expect(rt, "a copy"));
        }
    }
    let listed = ended.pids_of(alloc, name).expect(rt, "a list");
    holds(rt, own.len() > 1_000 && listed == own, "listed");
    drop(listed);
    drop(own);
}

/// The pids of the list make the same set where they end in a row, and all but the last do not.
fn is_in_a_row(rt: &impl Abort, alloc: Global, plain: &[Pid], ended: &Ended) {
    let (last, others) = plain.split_last().expect(rt, "a pid");
    let mut other = Ended::new(alloc);
    for pid in others {
        end(rt, &mut other, pid);
    }
    holds(rt, !other.same(ended) && !ended.same(&other), "another");
    end(rt, &mut other, last);
    let copy = other.copy(alloc).expect(rt, "a copy");
    holds(rt, copy.same(ended) && ended.same(&copy), "the same");
    drop(copy);
    drop(other);
}

fn end(rt: &impl Abort, ended: &mut Ended, pid: &Pid) {
    let pid = pid.copy().expect(rt, "a copy");
    ended.add(pid).expect(rt, "an end");
}
