//! Schedules: how the nodes of a world start, and steps.

use crate::slow::{Heard, Scene, State, World, state_of};
use pg_script::{Act, Config, FrameStep, Script, ScriptLine, Start, Step, read_script};
use pg_term::Pid;
use std::alloc::{AllocError, Global};
use std::process::Abort;

/// Ends the test where something does not hold, and tells of it, and of its place: a node, a row or a step.
pub fn holds(rt: &impl Abort, holds: bool, said: &str, place: usize) {
    assert!(rt; holds, "{said} {place}");
}

/// A schedule.
#[derive(Drop)]
pub struct Schedule {
    pub config: Config,
    pub steps: Vec<Step>,
}

// What a node sends comes to another, as far as there is room, which takes up to two packets of it.
fn put_way(steps: &mut Vec<Step>, from: usize, to: usize) -> Result<(), AllocError> {
    let (node, peer, max) = (to, from, 65_536);
    steps.push(Step::Put { from, to, max })?;
    steps.push(Step::Pull { to, from, max })?;
    steps.push(Step::Event(FrameStep::Take { node, peer }))?;
    Ok(steps.push(Step::Event(FrameStep::Take { node, peer }))?)
}

// So many rounds, in each of which what each of these nodes sends comes to the others.
fn put_rounds(steps: &mut Vec<Step>, nodes: usize, rounds: usize) -> Result<(), AllocError> {
    let nodes = nodes.max(1);
    for round in 0..rounds.saturating_mul(nodes).saturating_mul(nodes) {
        let (from, to) = (round / nodes % nodes, round % nodes);
        if from != to {
            put_way(steps, from, to)?;
        }
    }
    Ok(())
}

// The steps of lines of which each is one, or settles in so many rounds.
fn put_steps(
    steps: &mut Vec<Step>,
    lines: Vec<ScriptLine>,
    nodes: usize,
    rounds: usize,
) -> Result<(), AllocError> {
    for line in lines {
        let ScriptLine { number: _, act } = line;
        match act {
            Act::Step(step) => steps.push(step)?,
            Act::Settle(_) => put_rounds(steps, nodes, rounds)?,
            other => drop(other),
        }
    }
    Ok(())
}

fn with_steps(alloc: Global, script: Script, rounds: usize) -> Option<Schedule> {
    let Script { config, lines } = script;
    let mut steps = Vec::new(alloc);
    let told = put_steps(&mut steps, lines, config.starts.len(), rounds);
    let schedule = Schedule { config, steps };
    match told {
        Ok(()) => Some(schedule),
        Err(AllocError) => {
            drop(schedule);
            None
        }
    }
}

/// The schedule of a script, which settles in so many rounds. None where memory was refused.
pub fn schedule_of(alloc: Global, script: &str, rounds: usize) -> Option<Schedule> {
    match read_script(alloc, script) {
        Ok(script) => with_steps(alloc, script, rounds),
        Err(_) => None,
    }
}

/// Whether both nodes are there, and are the same. It is asked a second time where memory was refused.
pub fn are_same(one: Option<&State>, other: Option<&State>) -> bool {
    match (one, other) {
        (Some(one), Some(other)) => match one.same(other) {
            Ok(same) => same,
            Err(_) => one.same(other) == Ok(true),
        },
        _ => false,
    }
}

/// Whether so many nodes of two worlds are the same.
pub fn are_same_worlds(one: &World, other: &World, nodes: usize) -> bool {
    for place in 0..nodes {
        if !are_same(state_of(one, place), state_of(other, place)) {
            return false;
        }
    }
    true
}

/// The first so many processes of each node.
pub fn first_pids(rt: &impl Abort, alloc: Global, starts: &[Start], count: u32) -> Vec<Pid> {
    let mut pids = Vec::new(alloc);
    for start in starts {
        for id in 1..count.saturating_add(1) {
            let pid = Pid {
                node: start.name.copy().expect(rt, "memory"),
                serial: 0,
                id,
                creation: 1,
            };
            pids.push(pid).ok().expect(rt, "memory");
        }
    }
    pids
}

/// Notes the exchange that a step took, if it took a packet and that was the first of its way.
pub fn put_heard(
    heard: &mut Vec<Heard>,
    step: &Step,
    has_happened: bool,
) -> Result<(), AllocError> {
    if let Step::Event(FrameStep::Take { node, peer }) = step {
        let (node, peer) = (*node, *peer);
        if has_happened && !has_heard(heard.as_slice(), node, peer) {
            heard.push(Heard { node, peer })?;
        }
    }
    Ok(())
}

// Whether the exchange of a peer was taken by a node.
fn has_heard(heard: &[Heard], node: usize, peer: usize) -> bool {
    heard
        .iter()
        .any(|heard| heard.node == node && heard.peer == peer)
}

/// A world of a schedule, in which the test speaks of these processes, and these exchanges were taken.
pub fn scene_of<'a>(
    alloc: Global,
    schedule: &'a Schedule,
    world: &'a World,
    pids: &'a [Pid],
    heard: &'a [Heard],
) -> Scene<'a> {
    let starts = schedule.config.starts.as_slice();
    Scene {
        alloc,
        world,
        starts,
        pids,
        heard,
    }
}
