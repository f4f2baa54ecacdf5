//! Pids that tests are about. Memory that is refused is asked for once more.

use pg_term::{Atom, Pid};
use std::alloc::Global;
use std::process::Abort;

/// The pids of each of these nodes with the ids from one up to another.
pub fn pids_of(rt: &impl Abort, alloc: Global, rows: &[(&str, u32, u32)]) -> Vec<Pid> {
    let mut pids = Vec::new(alloc);
    for row in rows {
        put(rt, alloc, &mut pids, *row);
    }
    pids
}

/// Puts the pids of a node behind the others.
pub fn put(rt: &impl Abort, alloc: Global, pids: &mut Vec<Pid>, row: (&str, u32, u32)) {
    let (node, from, to) = row;
    for id in from..to {
        pids.reserve(1).or(pids.reserve(1)).expect(rt, "room");
        let node = named(rt, alloc, node);
        let (serial, creation) = (0, 1);
        let pid = Pid {
            node,
            serial,
            id,
            creation,
        };
        pids.push(pid).expect(rt, "room");
    }
}

/// The name of a node.
pub fn named(rt: &impl Abort, alloc: Global, name: &str) -> Atom {
    Atom::new(alloc, name)
        .or(Atom::new(alloc, name))
        .expect(rt, "a name")
}

/// The pid at a place.
pub fn pid_at<'a>(rt: &impl Abort, pids: &'a [Pid], place: usize) -> &'a Pid {
    pids.get(place).expect(rt, "a pid")
}
