//! Tables of what happens in clusters, and how they end then.

use crate::setting::{End, Setting, Started, end_of, holds, start};
use pg_cluster::{NodeFault, OpenGate, Refusal, StartFault};
use std::alloc::Global;
use std::process::Abort;
use std::sync::Wait;
use std::thread::Threads;

/// What happens in a cluster.
#[derive(Clone, Copy)]
pub enum Row<'a> {
    /// The client at this place asks by a line of a script, and is answered by what begins so.
    Asks(usize, &'a str, &'a str),
    /// The client at this place asks, and waits for no answer.
    Submits(usize, &'a str),
    /// The node is lost.
    Lose(usize),
    /// The loss of the node is refused.
    NoLoss(usize, Refusal),
}

/// How often some rows happen, one after another.
pub type Part<'a> = (u32, &'a [Row<'a>]);

/// A setting, what happens in a cluster that begins so, and how many nodes are lost then.
pub type Case<'a> = (Setting<'a>, &'a [Part<'a>], usize);

// Where the start is refused for one of these faults no thread goes on, and a second start starts all.
fn start_again<R: Threads>(
    rt: &R,
    alloc: Global,
    setting: Setting<'_>,
    refused: &[StartFault],
) -> Result<Started, StartFault> {
    match start(rt, alloc, setting, OpenGate) {
        Err(fault) if refused.contains(&fault) => start(rt, alloc, setting, OpenGate),
        started => started,
    }
}

fn is_refused(lost: Result<(), NodeFault>, wanted: Refusal) -> bool {
    matches!(lost, Err(NodeFault::Refused(refusal)) if refusal == wanted)
}

fn holds_in(
    rt: &(impl Threads + Wait),
    alloc: Global,
    started: &mut Started,
    row: &Row<'_>,
) -> bool {
    match row {
        Row::Asks(place, line, begin) => started.asks(rt, alloc, *place, line, begin),
        Row::Submits(place, line) => started.takes(alloc, *place, line),
        Row::Lose(node) => started.lose(rt, *node).is_ok(),
        Row::NoLoss(node, refusal) => is_refused(started.lose(rt, *node), *refusal),
    }
}

// Each row holds, one after another.
fn play(
    rt: &(impl Threads + Wait + Abort),
    alloc: Global,
    started: &mut Started,
    rows: &[Row<'_>],
) {
    for (place, row) in rows.iter().enumerate() {
        assert!(rt; holds_in(rt, alloc, started, row), "row {place}");
    }
}

// Whether so many nodes were closed, of which so many were lost, and the schedule leads to them; those that were not lost agree.
fn is_end(end: End, nodes: usize, losses: usize) -> bool {
    end.nodes == nodes
        && end.events > 0
        && end.losses == losses
        && end.replays
        && end.survivors_agree
        && (end.agrees || losses > 0)
}

// Each row of each part holds.
fn play_all(
    rt: &(impl Threads + Wait + Abort),
    alloc: Global,
    started: &mut Started,
    parts: &[Part<'_>],
) {
    for (times, rows) in parts {
        for _ in 0..*times {
            play(rt, alloc, started, rows);
        }
    }
}

/// Each row of each part holds in a cluster, of which so many nodes are lost then, and its schedule leads to its nodes. A first start may
/// be refused for one of these faults.
pub fn check(
    rt: &(impl Threads + Wait + Abort),
    alloc: Global,
    (setting, parts, losses): &Case<'_>,
    refused: &[StartFault],
) {
    let begun = start_again(rt, alloc, *setting, refused);
    let mut started = begun.ok().expect(rt, "it starts");
    play_all(rt, alloc, &mut started, parts);
    let end = end_of(rt, alloc, started).expect(rt, "an end");
    holds(rt, is_end(end, setting.nodes, *losses), "the end");
}

/// The same of each case.
pub fn check_all(
    rt: &(impl Threads + Wait + Abort),
    alloc: Global,
    cases: &[Case<'_>],
    refused: &[StartFault],
) {
    for case in cases {
        check(rt, alloc, case, refused);
    }
}
