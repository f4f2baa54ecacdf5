//! Calls of a table, many times.

ghost use Rattle.std.specs.Prelude.{IsTrue};
ghost use Rattle.pg_group.specs.Table.{HasRoom};

use pg_group::{Ended, GroupTable, Scope, Update};
use pg_query::{closest, members};
use pg_term::{Atom, Pid, Term};
use pg_test_kit::{Random, Watch, report_each};
use std::alloc::Global;

/// Whether the count that the update raises is below the greatest that there is.
fn has_room<T: GroupTable>(table: &T, update: &Update) -> bool
    ensures { IsTrue result → HasRoom (T.contents table.now) update.now }
{
    match update {
        Update::Join(name, pid) => table.count(name, pid) < u64::MAX,
        Update::Create(_) | Update::Delete(_) | Update::Leave(..) => true,
    }
}

/// Applies an update; whether there was room.
pub fn apply<T: GroupTable>(table: &mut T, update: &Update, ended: &Ended) -> bool {
    has_room(table, update) && table.apply(update, ended).is_ok()
}

/// Applies updates; whether there was room for all.
pub fn apply_all<T: GroupTable>(alloc: Global, table: &mut T, updates: &[Update]) -> bool {
    let ended = Ended::new(alloc);
    for update in updates {
        if !apply(table, update, &ended) {
            return false;
        }
    }
    true
}

/// What is asked of a table about each of some pids.
#[derive(Clone, Copy)]
pub enum About {
    /// The count in the group 1.
    Count,
    /// Its end.
    End,
}

/// Asks that of a table about each of these pids; the sum of the counts.
pub fn each<T: GroupTable>(table: &mut T, name: &Term, pids: &[Pid], about: About) -> u64 {
    let mut sum = 0_u64;
    for pid in pids {
        match about {
            About::Count => sum = sum.wrapping_add(table.count(name, pid)),
            About::End => table.drop_pid(pid),
        }
    }
    sum
}

// How many places of a group are asked for.
const PLACES: u32 = 1_000;

/// What is asked about a group.
#[derive(Clone, Copy)]
enum Ask {
    Closest,
    Size,
    Place,
}

const ASKS: &[(&str, Ask)] = &[
    ("closest", Ask::Closest),
    ("size of a node", Ask::Size),
    ("member at a place", Ask::Place),
];

/// The id of the closest member of a group.
fn closest_id<T: GroupTable>(table: &T, name: &Term, own: &Atom, word: u32) -> u64 {
    match closest(table, own, name, word) {
        Ok(pid) => u64::from(pid.id),
        Err(_) => 0,
    }
}

/// The id of the member at a place.
fn id_at<T: GroupTable>(table: &T, name: &Term, place: u64) -> u64 {
    match table.pid_at(name, Scope::All, place) {
        Some(pid) => u64::from(pid.id),
        None => 0,
    }
}

fn asked<T: GroupTable>(table: &T, name: &Term, node: &Atom, word: u32, ask: Ask) -> u64 {
    match ask {
        Ask::Closest => closest_id(table, name, node, word),
        Ask::Size => table.size(name, Scope::At(node)).unwrap_or(0),
        Ask::Place => id_at(table, name, u64::from(word % PLACES)),
    }
}

fn ask_all<T: GroupTable>(table: &T, name: &Term, names: &[Atom], times: u64, ask: Ask) -> u64 {
    let mut random = Random::new(3);
    let mut found = 0_u64;
    for _ in 0..times {
        let word = random.word();
        if let Some(node) = random.pick(names) {
            found = found.wrapping_add(asked(table, name, node, word, ask));
        }
    }
    found
}

fn ask_each<T: GroupTable>(rt: &HostRuntime, table: &T, name: &Term, names: &[Atom], times: u64) {
    for (what, ask) in ASKS {
        let watch = Watch::begin(rt);
        let found = ask_all(table, name, names, times, *ask);
        report_each(rt, what, times, watch);
        drop(found);
    }
}

/// The list of the members of a group, and what asks for some of them, timed.
pub fn read<T: GroupTable>(
    rt: &HostRuntime,
    table: &T,
    name: &Term,
    names: &[Atom],
    times: u64,
) -> bool {
    let watch = Watch::begin(rt);
    match members(rt.alloc(), table, name) {
        Ok(listed) => {
            report_each(rt, "members, a member", listed.len() as u64, watch);
            drop(listed);
            ask_each(rt, table, name, names, times);
            true
        }
        Err(_) => false,
    }
}
