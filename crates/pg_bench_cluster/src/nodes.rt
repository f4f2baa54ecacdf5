//! How many events a second a node makes, over packets and over bytes, with two peers that are played here.

mod linked;
mod made;
mod packets;
mod said;

use crate::commands::command;
use linked::OverBytes;
use made::OWN;
use packets::OverPackets;
use pg_cluster::{Command, Packet, RefFault, RefSource, Said};
use pg_term::{Atom, Term, TermFault};
use pg_test_kit::{Change, Groups, Watch, head, number, pid, report, say, word};
use said::{calls, no_groups, replies};
use std::alloc::Global;

/// The node `a`, whose peers `b` and `c` are played.
trait Player: Drop {
    /// Packets as they come in.
    type Load: Drop;

    /// The node, which has taken nothing yet.
    fn new(alloc: Global) -> Option<Self>;

    /// These packets, as they come in.
    fn load(alloc: Global, packets: Vec<Packet>) -> Option<Self::Load>;

    /// Takes packets of a peer; whether all were taken.
    fn take(&mut self, peer: usize, load: &Self::Load) -> bool;

    /// Gives commands at the port; whether all were taken.
    fn ask(&mut self, commands: &[Command]) -> bool;

    /// How many commands of the port are answered, those whose answers were forgotten too.
    fn answered(&self) -> u64;

    /// Forgets all answers of the port.
    fn forget(&mut self);
}

// Packets that were made, as they come in.
fn loaded<P: Player, E: Drop>(alloc: Global, packets: Result<Vec<Packet>, E>) -> Option<P::Load> {
    match packets {
        Ok(packets) => P::load(alloc, packets),
        Err(_) => None,
    }
}

// Packets of a peer are taken, where they could be made; whether they were.
fn feed<P: Player>(player: &mut P, peer: usize, load: Option<P::Load>) -> bool {
    match load {
        Some(load) => {
            let is_taken = player.take(peer, &load);
            drop(load);
            is_taken
        }
        None => false,
    }
}

// Both peers announce that they have no group.
fn form<P: Player>(alloc: Global, player: &mut P) -> bool {
    let one = loaded::<P, TermFault>(alloc, no_groups(alloc, "b"));
    let other = loaded::<P, TermFault>(alloc, no_groups(alloc, "c"));
    feed(player, 0, one) && feed(player, 1, other)
}

// So many calls of b, as they come in.
fn calls_of<P: Player>(
    alloc: Global,
    change: Change,
    groups: Groups,
    count: u32,
) -> Option<P::Load> {
    loaded::<P, TermFault>(alloc, calls(alloc, change, groups, count))
}

// Calls of b are taken.
fn change<P: Player>(
    alloc: Global,
    player: &mut P,
    change: Change,
    groups: Groups,
    count: u32,
) -> bool {
    let load = calls_of::<P>(alloc, change, groups, count);
    feed(player, 0, load)
}

/// What a peer asks for, in this order.
const UPDATES: [(Change, Groups); 5] = [
    (Change::Create, Groups::Own),
    (Change::Join, Groups::Own),
    (Change::Leave, Groups::Own),
    (Change::Join, Groups::One),
    (Change::Leave, Groups::One),
];

// Updates that b asks for are taken, and replied to, timed.
fn updates<P: Player>(rt: &HostRuntime, player: &mut P, count: u32) -> bool {
    let mut is_done = true;
    for (change, groups) in UPDATES {
        head(rt, u64::from(count), groups.name());
        let load = calls_of::<P>(rt.alloc(), change, groups, count);
        let watch = Watch::begin(rt);
        is_done = feed(player, 0, load) && is_done;
        report(rt, change.name(), u64::from(count), 0, watch);
    }
    is_done
}

// A query, so many times.
fn query<P: Player>(
    rt: &HostRuntime,
    player: &mut P,
    what: &str,
    commands: &[Command],
    count: u32,
) -> bool {
    let watch = Watch::begin(rt);
    for _ in 0..count {
        if !player.ask(commands) {
            return false;
        }
    }
    report(rt, what, u64::from(count), 0, watch);
    true
}

// A query that is made for it.
fn query_made<P: Player>(
    rt: &HostRuntime,
    player: &mut P,
    what: &str,
    command: Command,
    count: u32,
) -> bool {
    let commands = [command];
    let is_done = query(rt, player, what, &commands, count);
    drop(commands);
    is_done
}

// Queries of a group of 10 members, and then of 1,000 more.
fn queries<P: Player>(rt: &HostRuntime, player: &mut P, count: u32) -> bool {
    let alloc = rt.alloc();
    change(alloc, player, Change::Create, Groups::One, 1)
        && change(alloc, player, Change::Join, Groups::One, 10)
        && query_made(
            rt,
            player,
            "members of 10",
            Command::Members(Term::Int(0)),
            count,
        )
        && change(alloc, player, Change::Join, Groups::One, 1_000)
        && query_made(
            rt,
            player,
            "closest of 1,010",
            Command::Closest(Term::Int(0), 700),
            count,
        )
}

// Both peers say this to the next so many calls of the node, the greatest first. They know its references, which it numbers in turn.
fn reply<P: Player>(
    alloc: Global,
    player: &mut P,
    references: &mut RefSource,
    count: usize,
    said: Said,
) -> bool {
    match loaded::<P, RefFault>(alloc, replies(alloc, references, count, said)) {
        Some(load) => {
            let is_taken = player.take(1, &load) && player.take(0, &load);
            drop(load);
            is_taken
        }
        None => false,
    }
}

// Changes of the node that are open at once, each of another group: its commands, and what both peers reply. Each has a reference
// for its lock, and then one for its update.
fn changed<P: Player>(
    alloc: Global,
    player: &mut P,
    references: &mut RefSource,
    commands: &[Command],
) -> bool {
    player.ask(commands)
        && reply(alloc, player, references, commands.len(), Said::Granted)
        && reply(alloc, player, references, commands.len(), Said::Applied)
}

// Commands that ask for the change, each of another group.
fn commands(alloc: Global, change: Change, count: u32) -> Result<Vec<Command>, TermFault> {
    let mut commands = Vec::new(alloc);
    for number in 0..count {
        let process = pid(alloc, "a", 1)?;
        commands.push(command(change, Groups::Own.group(number), process))?;
    }
    Ok(commands)
}

// Joins and leaves in turn, so many rounds, timed. `forgets`: whether the answers are forgotten behind each round.
fn change_in_turn<P: Player>(
    rt: &HostRuntime,
    player: &mut P,
    references: &mut RefSource,
    commands: (&[Command], &[Command]),
    rounds: u32,
    forgets: bool,
) -> bool {
    let before = player.answered();
    let watch = Watch::begin(rt);
    for round in 0..rounds {
        let commands = if round % 2 == 0 {
            commands.0
        } else {
            commands.1
        };
        if !changed(rt.alloc(), player, references, commands) {
            return false;
        }
        if forgets {
            player.forget();
        }
    }
    let answered = player.answered().saturating_sub(before);
    report(rt, "own changes", answered, 0, watch);
    true
}

// Joins by these commands and leaves in turn.
fn join_and_leave<P: Player>(
    rt: &HostRuntime,
    player: &mut P,
    references: &mut RefSource,
    joins: &[Command],
    rounds: u32,
    forgets: bool,
) -> bool {
    let open = u32::try_from(joins.len()).unwrap_or(u32::MAX);
    match commands(rt.alloc(), Change::Leave, open) {
        Ok(leaves) => {
            let both = (joins, leaves.as_slice());
            let is_done = change_in_turn(rt, player, references, both, rounds, forgets);
            drop(leaves);
            is_done
        }
        Err(_) => false,
    }
}

// Changes of the node's own, so many open at once.
fn own_changes<P: Player>(
    rt: &HostRuntime,
    player: &mut P,
    references: &mut RefSource,
    count: u32,
    open: u32,
    forgets: bool,
) -> bool {
    head(
        rt,
        u64::from(open),
        "own changes open at once, of five events each",
    );
    match commands(rt.alloc(), Change::Join, open) {
        Ok(joins) => {
            let rounds = count / open.max(1);
            let is_done = join_and_leave(rt, player, references, &joins, rounds, forgets);
            drop(joins);
            is_done
        }
        Err(_) => false,
    }
}

// Changes of the node's own, one at a time where their answers are kept, and then 64 at once. `forgets`: whether they are forgotten.
fn changes<P: Player>(rt: &HostRuntime, player: &mut P, count: u32, forgets: bool) -> bool {
    let Ok(own) = Atom::new(rt.alloc(), OWN) else {
        return false;
    };
    let mut references = RefSource::new(own);
    let is_done = change(rt.alloc(), player, Change::Create, Groups::Own, 64)
        && (forgets || own_changes(rt, player, &mut references, count, 1, false))
        && own_changes(rt, player, &mut references, count, 64, forgets);
    drop(references);
    is_done
}

// Which figures of a node.
#[derive(Clone, Copy)]
enum Figure {
    Updates,
    Queries,
    Changes,
    Forgotten,
}

const FIGURES: &[(&str, Figure)] = &[
    ("updates", Figure::Updates),
    ("queries", Figure::Queries),
    ("changes", Figure::Changes),
    ("forgotten", Figure::Forgotten),
];

fn measure_one<P: Player>(rt: &HostRuntime, player: &mut P, figure: Figure, count: u32) -> bool {
    if !form(rt.alloc(), player) {
        return false;
    }
    match figure {
        Figure::Updates => updates(rt, player, count),
        Figure::Queries => queries(rt, player, count),
        Figure::Changes => changes(rt, player, count, false),
        Figure::Forgotten => changes(rt, player, count, true),
    }
}

// The figures that are asked for, each with a node of its own.
fn measure<P: Player>(rt: &HostRuntime, what: &str, count: u32, only: &str) -> bool {
    say(rt, what);
    for (name, figure) in FIGURES {
        if only.is_empty() || only == *name {
            let Some(mut player) = P::new(rt.alloc()) else {
                return false;
            };
            let is_done = measure_one(rt, &mut player, *figure, count);
            drop(player);
            if !is_done {
                return false;
            }
        }
    }
    true
}

/// The words after `nodes`: `packets` or `bytes`; how many events of each kind (200); and `updates`, `queries`, `changes`, or
/// `forgotten`, for changes whose answers are forgotten, where only these are measured. Whether it could.
pub fn run(rt: &HostRuntime, words: &[String]) -> bool {
    let Some(count) = number(words, 2, 200) else {
        return false;
    };
    let count = u32::try_from(count).unwrap_or(u32::MAX);
    let (only, over) = (word(words, 3), word(words, 1));
    let is_over_packets = over == "bytes"
        || measure::<OverPackets>(rt, "one node over packets", count, only);
    let is_over_bytes = over == "packets"
        || measure::<OverBytes>(rt, "one node over bytes", count, only);
    is_over_packets && is_over_bytes
}
