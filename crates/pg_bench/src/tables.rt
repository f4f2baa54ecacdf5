//! How fast tables of groups are changed and asked, and how much memory they take.

mod calls;
mod crowd;

use calls::{About, apply, apply_all, each, read};
use crowd::{joins_of_300, names, pairs, pid_of, pids, updates};
use pg_group::{Ended, GroupTable, RowTable, Update};
use pg_index::IndexTable;
use pg_term::{Atom, Pid, Term};
use pg_test_kit::{Change, Random, Watch, number, report_each, word};
use std::alloc::{AllocError, Global};
use std::fs;

/// How many members or groups there are, of how many nodes, and how many times each call is made.
#[derive(Clone, Copy)]
struct Sizes {
    count: u64,
    nodes: u64,
    times: u64,
}

// Updates that were made, timed.
fn applied<T: GroupTable>(
    rt: &HostRuntime,
    table: &mut T,
    what: &str,
    updates: Result<Vec<Update>, AllocError>,
    times: u64,
) -> bool {
    match updates {
        Ok(updates) => {
            let watch = Watch::begin(rt);
            let is_done = apply_all(rt.alloc(), table, &updates);
            report_each(rt, what, times, watch);
            drop(updates);
            is_done
        }
        Err(AllocError) => false,
    }
}

// Applies an update that is made for it.
fn apply_once<T: GroupTable>(alloc: Global, table: &mut T, update: Update) -> bool {
    let ended = Ended::new(alloc);
    let is_done = apply(table, &update, &ended);
    drop(update);
    is_done
}

// Each of these pids joins the group, or leaves it, timed.
fn updated<T: GroupTable>(
    rt: &HostRuntime,
    table: &mut T,
    what: &str,
    pids: &[Pid],
    change: Change,
) -> bool {
    let updates = updates(rt.alloc(), pids, change);
    applied(rt, table, what, updates, pids.len() as u64)
}

fn counted<T: GroupTable>(rt: &HostRuntime, table: &mut T, name: &Term, pids: &[Pid]) {
    let watch = Watch::begin(rt);
    let sum = each(table, name, pids, About::Count);
    report_each(rt, "count", pids.len() as u64, watch);
    drop(sum);
}

// A node that is dropped, and the group that is deleted, timed.
fn dropped<T: GroupTable>(rt: &HostRuntime, table: &mut T, names: &[Atom], sizes: Sizes) -> bool {
    if let Some(node) = names.last() {
        let watch = Watch::begin(rt);
        table.drop_node(node);
        report_each(
            rt,
            "drop_node, a member",
            sizes.count / sizes.nodes.max(1),
            watch,
        );
    }
    let watch = Watch::begin(rt);
    let is_done = apply_once(rt.alloc(), table, Update::Delete(Term::Int(1)));
    report_each(rt, "delete, a member", sizes.count, watch);
    is_done
}

// So many pids join the group, and leave it after the calls that only read; then it goes.
fn each_call<T: GroupTable>(
    rt: &HostRuntime,
    table: &mut T,
    names: &[Atom],
    pids: &[Pid],
    sizes: Sizes,
) -> bool {
    let name = Term::Int(1);
    let is_joined = updated(rt, table, "join", pids, Change::Join);
    counted(rt, table, &name, pids);
    let is_read = read(rt, table, &name, names, sizes.times);
    drop(name);
    is_joined
        && is_read
        && updated(rt, table, "leave", pids, Change::Leave)
        && dropped(rt, table, names, sizes)
}

// A group of these pids.
fn built<T: GroupTable>(rt: &HostRuntime, table: &mut T, pids: &[Pid]) -> bool {
    apply_once(rt.alloc(), table, Update::Create(Term::Int(1)))
        && updated(rt, table, "join, while it grows", pids, Change::Join)
}

// So many groups of one member each.
fn grouped<T: GroupTable>(rt: &HostRuntime, table: &mut T, pids: &[Pid]) -> bool {
    let updates = pairs(rt.alloc(), pids);
    applied(rt, table, "create and join", updates, pids.len() as u64)
}

// The end of each of these pids, timed.
fn ended<T: GroupTable>(rt: &HostRuntime, table: &mut T, what: &str, pids: &[Pid]) {
    let name = Term::Int(1);
    let watch = Watch::begin(rt);
    let sum = each(table, &name, pids, About::End);
    report_each(rt, what, pids.len() as u64, watch);
    drop(name);
    drop(sum);
}

// The end of pids that are in 300 of so many groups, and of the same, which are in none then.
fn all_ended<T: GroupTable>(rt: &HostRuntime, table: &mut T, pids: &[Pid], count: u64) -> bool {
    let count = u32::try_from(count).unwrap_or(u32::MAX);
    let updates = joins_of_300(rt.alloc(), pids, count);
    let is_done = applied(rt, table, "join, in 300 groups", updates, pids.len() as u64);
    ended(rt, table, "the end of a pid in 300 groups", pids);
    ended(rt, table, "the end of a pid in no group", pids);
    is_done
}

// The figures that a word names, with two crowds of pids.
fn measure_crowds<T: GroupTable>(
    rt: &HostRuntime,
    table: &mut T,
    calls: &str,
    names: &[Atom],
    many: &[Pid],
    few: &[Pid],
    sizes: Sizes,
) -> bool {
    match calls {
        "groups" => grouped(rt, table, many),
        "ends" => all_ended(rt, table, few, sizes.count),
        _ => built(rt, table, many) && each_call(rt, table, names, few, sizes),
    }
}

fn measure_crowd<T: GroupTable>(
    rt: &HostRuntime,
    table: &mut T,
    calls: &str,
    names: &[Atom],
    many: &[Pid],
    sizes: Sizes,
) -> bool {
    match pids(rt.alloc(), names, 2, sizes.times) {
        Ok(few) => {
            let is_done = measure_crowds(rt, table, calls, names, many, &few, sizes);
            drop(few);
            is_done
        }
        Err(AllocError) => false,
    }
}

fn measure<T: GroupTable>(
    rt: &HostRuntime,
    table: &mut T,
    calls: &str,
    names: &[Atom],
    sizes: Sizes,
) -> bool {
    match pids(rt.alloc(), names, 1, sizes.count) {
        Ok(many) => {
            let is_done = measure_crowd(rt, table, calls, names, &many, sizes);
            drop(many);
            is_done
        }
        Err(AllocError) => false,
    }
}

fn measure_of<T: GroupTable>(rt: &HostRuntime, table: &mut T, calls: &str, sizes: Sizes) -> bool {
    match names(rt.alloc(), sizes.nodes) {
        Ok(names) => {
            let is_done = measure(rt, table, calls, &names, sizes);
            drop(names);
            is_done
        }
        Err(_) => false,
    }
}

/// The words after `tables`: `rows` or `index`; `members`, `groups` or `ends`; how many members or groups (1,000); of how many
/// nodes (3); how many times each call is made (1,000). Whether it could.
pub fn run(rt: &HostRuntime, words: &[String]) -> bool {
    let numbers = (
        number(words, 3, 1_000),
        number(words, 4, 3),
        number(words, 5, 1_000),
    );
    let (Some(count), Some(nodes), Some(times)) = numbers else {
        return false;
    };
    let sizes = Sizes {
        count,
        nodes,
        times,
    };
    match word(words, 1) {
        "rows" => measure_of(rt, &mut RowTable::new(rt.alloc()), word(words, 2), sizes),
        _ => measure_of(rt, &mut IndexTable::new(rt.alloc()), word(words, 2), sizes),
    }
}

// The number of KiB in a line as `VmHWM:   1234 kB`.
fn kibibytes(line: &str) -> Option<u64> {
    let number = line.strip_prefix("VmHWM:")?.strip_suffix("kB")?;
    number.trim().parse::<u64>().ok()
}

// The most memory that the program has had, in bytes, as Linux reports it.
pub fn peak(rt: &HostRuntime) -> Option<u64> {
    let status = fs::read_to_string(rt, "/proc/self/status").ok()?;
    let found = status.as_str().lines().find_map(kibibytes);
    drop(status);
    found
}

// One group that so many pids join one after the other; nothing else is kept.
fn grow<T: GroupTable>(alloc: Global, table: &mut T, names: &[Atom], count: u64) -> bool {
    let mut random = Random::new(1);
    for _ in 0..count {
        let Ok(pid) = pid_of(names, &mut random) else {
            return false;
        };
        if !apply_once(alloc, table, Update::Join(Term::Int(1), pid)) {
            return false;
        }
    }
    true
}

fn weigh<T: GroupTable>(rt: &HostRuntime, table: &mut T, names: &[Atom], count: u64) -> bool {
    let before = peak(rt);
    let is_grown = apply_once(rt.alloc(), table, Update::Create(Term::Int(1)))
        && grow(rt.alloc(), table, names, count);
    match (before, peak(rt)) {
        (Some(before), Some(then)) => {
            let bytes = then.saturating_sub(before) / count.max(1);
            let _ = eprintln!(rt; "{count} members: {bytes} bytes a membership");
            is_grown
        }
        _ => false,
    }
}

/// The words after `memory`: how many members (1,000,000), of how many nodes (3), and `rows` for the table without an index. What a
/// membership takes is the growth of the program's own peak. Whether it could.
pub fn run_memory(rt: &HostRuntime, words: &[String]) -> bool {
    let (Some(count), Some(nodes)) = (number(words, 1, 1_000_000), number(words, 2, 3)) else {
        return false;
    };
    match names(rt.alloc(), nodes) {
        Ok(names) => {
            let is_done = match word(words, 3) {
                "rows" => weigh(rt, &mut RowTable::new(rt.alloc()), &names, count),
                _ => weigh(rt, &mut IndexTable::new(rt.alloc()), &names, count),
            };
            drop(names);
            is_done
        }
        Err(_) => false,
    }
}
