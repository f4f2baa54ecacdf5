//! Clusters that are closed once the lines of a script have happened in them.

use pg_cluster::{Closed, Command, Config, FrameStep, OpenGate, Reply, Running, Sleepless, Step};
use pg_script::{Act, Script, ScriptLine, read_script};
use std::alloc::Global;
use std::process::Abort;
use std::thread;
use std::thread::Threads;

/// Ends the test where something does not hold, and tells of it.
pub fn holds(rt: &impl Abort, holds: bool, said: &str) {
    assert!(rt; holds, "{said}");
}

/// A cluster that is closed, and what it began with.
#[derive(Drop)]
pub struct Judged {
    pub closed: Closed,
    pub config: Config,
}

/// The nodes of a script as a cluster, in which each line happened, one after another, and that is closed.
pub fn closed_after(rt: &(impl Threads + Abort), alloc: Global, script: &str) -> Judged {
    let read = read_script(alloc, script).ok().expect(rt, "memory");
    let Script { config, lines } = read;
    let begun = Running::start(rt, alloc, config, 0, OpenGate, Sleepless, 1_000_000_000);
    let mut running = begun.ok().expect(rt, "it starts");
    for line in lines {
        let ScriptLine { number: _, act } = line;
        holds(rt, happens(rt, &mut running, act), script);
    }
    let (closed, config) = running.close(rt);
    let closed = closed.ok().expect(rt, "it is closed");
    Judged { closed, config }
}

// Whether a node is lost, or a command is answered `ok`. The client of a node has its place.
fn happens(rt: &impl Threads, running: &mut Running, act: Act) -> bool {
    match act {
        Act::Step(Step::Lose { node }) => running.lose(rt, node).is_ok(),
        Act::Step(Step::Event(FrameStep::Command { node, command, .. })) => {
            is_taken(running, node, command) && is_answered(running, node)
        }
        other => {
            drop(other);
            false
        }
    }
}

fn is_taken(running: &mut Running, place: usize, command: Command) -> bool {
    if place >= running.client_count() {
        drop(command);
        return false;
    }
    let submitted = running.submit(place, command);
    let is_taken = submitted.is_ok();
    drop(submitted);
    is_taken
}

// Whether the next answer at a place is `ok`, if it comes before very many looks.
fn is_answered(running: &mut Running, place: usize) -> bool {
    for _ in 0..1_000_000_000u64 {
        if place >= running.client_count() {
            return false;
        }
        if let Some(answer) = running.poll(place) {
            let is_ok = matches!(&answer.reply, Reply::Ok);
            drop(answer);
            return is_ok;
        }
        thread::yield_now();
    }
    false
}
