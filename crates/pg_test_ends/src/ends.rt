//! Processes and their ends. Each test passes wherever an allocation is refused: the call that failed is made again.

ghost use Rattle.std.specs.Prelude.{◌≤◌};

use crate::pids::{named, pids_of};
use crate::verdicts::holds;
use pg_ends::{EndFault, MAX_PROCESSES, Processes, take_end};
use pg_group::{Ended, GroupTable, RowTable};
use pg_index::IndexTable;
use pg_term::{Pid, Term};
use std::alloc::Global;
use std::process::Abort;

/// How many processes were made, the serials and the ids of the next, and whether those are the last.
const NEXT: &[(u32, &[(u32, u32)], bool)] = &[
    (32_766, &[(0, 32_767), (1, 0), (1, 1)], false),
    (MAX_PROCESSES - 1, &[(8191, 32_767)], true),
];

/// The ids go on in the next serial, and no process is made behind the last.
#[test]
fn process_limit(rt: HostRuntime) {
    for (before, next, are_last) in NEXT {
        let mut processes = processes(&rt, rt.alloc(), *before);
        make_each(&rt, &mut processes, next);
        let is_limit = processes.make().err() == Some(EndFault::ProcessLimit);
        drop(processes);
        holds(&rt, is_limit == *are_last, "limit", next.len());
    }
    holds(&rt, EndFault::ProcessLimit.number() == 28, "number", 28);
}

fn make_each(rt: &impl Abort, processes: &mut Processes, next: &[(u32, u32)]) {
    for (serial, id) in next {
        drop(made(rt, processes, *serial, *id));
    }
}

/// The processes of node a, which has made so many.
fn processes(rt: &impl Abort, alloc: Global, made: u32) -> Processes {
    holds(rt, made <= MAX_PROCESSES, "made", made as usize);
    Processes::new(named(rt, alloc, "a"), made)
}

/// The next process, which has this serial and this id.
fn made(rt: &impl Abort, processes: &mut Processes, serial: u32, id: u32) -> Pid {
    let pid = match processes.make() {
        Ok(pid) => pid,
        Err(_) => processes.make().expect(rt, "again"),
    };
    let parts = (pid.serial, pid.id, pid.creation);
    holds(rt, parts == (serial, id, 1), "made", id as usize);
    pid
}

/// Of the processes 2, 0 and 3 the first has ended once its end is taken, and the others were not made; process 1 of node b is of
/// another node.
#[test]
fn refused_ends(rt: HostRuntime) {
    each_ends(&rt, rt.alloc(), 1, 2);
}

/// All end, whichever of the tables they are in.
pub fn each_ends(rt: &impl Abort, alloc: Global, before: u32, last: u32) {
    let mut rows = RowTable::new(alloc);
    all_end(rt, alloc, &mut rows, before, last);
    drop(rows);
    let mut index = IndexTable::new(alloc);
    all_end(rt, alloc, &mut index, before, last);
    drop(index);
}

/// A node that has made some processes makes more, up to a number. They can end, and are in their group no more once their ends are
/// taken; then they have ended. The process 0 was not made, and neither was the next; those of node b are of another node.
fn all_end<T: GroupTable>(rt: &impl Abort, alloc: Global, table: &mut T, before: u32, last: u32) {
    let mut processes = processes(rt, alloc, before);
    let mut pids = Vec::new(alloc);
    for id in before..last {
        pids.reserve(1).or(pids.reserve(1)).expect(rt, "room");
        let pid = made(rt, &mut processes, 0, id.saturating_add(1));
        pids.push(pid).expect(rt, "room");
    }
    let mut ended = Ended::new(alloc);
    end_each(rt, table, &processes, &pids, &mut ended);
    drop(pids);
    let (next, behind) = (last.saturating_add(1), last.saturating_add(2));
    let rows = [
        ("a", 0, 1),
        ("a", next, behind),
        ("b", 1, 2),
        ("b", next, behind),
    ];
    let others = pids_of(rt, alloc, &rows);
    for (other, number) in others.iter().zip([26, 26, 24, 24]) {
        let is_refused = is_refused(&processes, &ended, other, number);
        holds(rt, is_refused, "no process of", other.id as usize);
    }
    holds(rt, others.len() == 4, "all", 4);
    drop(others);
    drop(ended);
    drop(processes);
}

/// The pids are in a group, and end one after the other. Where it is refused that they come there, each is in it at most once.
fn end_each<T: GroupTable>(
    rt: &impl Abort,
    table: &mut T,
    processes: &Processes,
    pids: &[Pid],
    ended: &mut Ended,
) {
    let name = Term::Int(1);
    if table.merge(&name, pids, ended).is_err() {
        for (place, pid) in pids.iter().enumerate() {
            holds(rt, table.count(&name, pid) <= 1, "not above", place);
        }
        table.merge(&name, pids, ended).expect(rt, "again");
    }
    for (place, pid) in pids.iter().enumerate() {
        holds(rt, processes.finish(pid, ended).is_ok(), "can end", place);
        ends(rt, table, &name, pid, ended);
        let is_refused = is_refused(processes, ended, pid, 27);
        holds(rt, is_refused, "has ended", place);
    }
    holds(rt, table.has(&name), "the group of", pids.len());
    drop(name);
}

/// Whether a pid can't end, for the fault of this number.
fn is_refused(processes: &Processes, ended: &Ended, pid: &Pid, number: u8) -> bool {
    match processes.finish(pid, ended) {
        Ok(_) => false,
        Err(fault) => fault.number() == number,
    }
}

/// A refused end changes nothing.
fn ends<T: GroupTable>(rt: &impl Abort, table: &mut T, name: &Term, pid: &Pid, ended: &mut Ended) {
    let id = pid.id as usize;
    holds(rt, table.count(name, pid) == 1, "count", id);
    if take_end(pid, table, ended).is_err() {
        holds(rt, table.count(name, pid) == 1, "as before", id);
        take_end(pid, table, ended).expect(rt, "again");
    }
    holds(rt, table.count(name, pid) == 0, "none", id);
}
