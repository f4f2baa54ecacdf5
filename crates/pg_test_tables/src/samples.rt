//! Small values that tests are made of, and how a test ends that finds another. Each value is made a second time where memory
//! was refused.

ghost use Rattle.std.specs.Prelude.{IsTrue};

use pg_group::Ended;
use pg_term::{Atom, Pid};
use std::alloc::Global;
use std::fmt::Debug;
use std::process::Abort;

/// Ends the test where something does not hold, and tells of it.
pub fn holds(rt: &impl Abort, holds: bool, said: &str)
    ensures { IsTrue holds }
{
    assert!(rt; holds, "{said}");
}

/// Ends the test where a row of a table does not hold, and tells its place.
pub fn row_holds(rt: &impl Abort, holds: bool, row: usize) {
    assert!(rt; holds, "at {row}");
}

/// What one of two same calls gives, of which one may have found no memory.
pub fn either<V: Drop, E: Debug + Drop>(
    rt: &impl Abort,
    one: Result<V, E>,
    other: Result<V, E>,
) -> V {
    match one {
        Ok(value) => {
            drop(other);
            value
        }
        Err(_) => other.expect(rt, "again"),
    }
}

/// The name of a node.
pub fn atom(rt: &impl Abort, alloc: Global, name: &str) -> Atom {
    either(rt, Atom::new(alloc, name), Atom::new(alloc, name))
}

/// The pid of this node with this id.
pub fn pid(rt: &impl Abort, alloc: Global, node: &str, id: u32) -> Pid {
    Pid {
        node: atom(rt, alloc, node),
        serial: 0,
        id,
        creation: 1,
    }
}

/// Puts a pid behind the others.
pub fn push(rt: &impl Abort, pids: &mut Vec<Pid>, pid: Pid) {
    either(rt, pids.reserve(1), pids.reserve(1));
    pids.push(pid).expect(rt, "room");
}

/// The pids that a test is about, of which some have ended.
#[derive(Drop)]
pub struct Cast {
    pub alloc: Global,
    pub pids: Vec<Pid>,
    pub ended: Ended,
}

impl Cast {
    /// The pids of each of these nodes with the ids from one up to another, of which none has ended.
    pub fn new(rt: &impl Abort, alloc: Global, rows: &[(&str, u32, u32)]) -> Cast {
        let mut pids = Vec::new(alloc);
        for (node, from, to) in rows {
            for id in *from..*to {
                push(rt, &mut pids, pid(rt, alloc, node, id));
            }
        }
        let ended = Ended::new(alloc);
        Cast { alloc, pids, ended }
    }

    /// The pid at a place.
    pub fn pid<'a>(&'a self, rt: &impl Abort, place: usize) -> &'a Pid {
        self.pids.get(place).expect(rt, "a pid")
    }

    /// A copy of the pid at a place.
    pub fn copy(&self, rt: &impl Abort, place: usize) -> Pid {
        let pid = self.pid(rt, place);
        either(rt, pid.copy(), pid.copy())
    }

    /// The pids at these places have ended.
    pub fn end_all(&mut self, rt: &impl Abort, places: &[usize]) {
        for place in places {
            self.end(rt, *place);
        }
    }

    /// The pid at a place has ended.
    pub fn end(&mut self, rt: &impl Abort, place: usize) {
        let pid = self.copy(rt, place);
        if self.ended.add(pid).is_err() {
            let again = self.copy(rt, place);
            self.ended.add(again).expect(rt, "again");
        }
    }
}
