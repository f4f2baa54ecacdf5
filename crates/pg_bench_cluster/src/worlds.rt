//! How many steps a second a world makes.

use crate::commands::command;
use crate::config::config;
use pg_cluster::{Config, FrameStep, IndexTable, Step, Stepped, World};
use pg_term::TermFault;
use pg_test_kit::{Change, Groups, Watch, number, pid};
use std::alloc::Global;

/// A world of so many nodes, and how many steps it made, of which some were events.
#[derive(Drop)]
struct Measured {
    world: World<IndexTable>,
    nodes: usize,
    steps: u64,
    events: u64,
}

impl Measured {
    // Makes a step; whether it was an event.
    fn step(&mut self, step: &Step) -> bool {
        self.steps = self.steps.saturating_add(1);
        let is_event = matches!(self.world.step(step), Ok(Stepped::Happened(_)));
        if is_event {
            self.events = self.events.saturating_add(1);
        }
        is_event
    }

    // The same of a step that is made once.
    fn make(&mut self, step: Step) -> bool {
        let is_event = self.step(&step);
        drop(step);
        is_event
    }

    // What one node sends goes to another, which takes it.
    fn cross(&mut self, from: usize, to: usize) {
        let max = 65_536;
        self.make(Step::Put { from, to, max });
        self.make(Step::Pull { to, from, max });
        for _ in 0..100 {
            if !self.make(Step::Event(FrameStep::Take {
                node: to,
                peer: from,
            })) {
                break;
            }
        }
    }

    // What each node sends goes to the others.
    fn cross_all(&mut self) {
        for from in 0..self.nodes {
            for to in 0..self.nodes {
                if from != to {
                    self.cross(from, to);
                }
            }
        }
    }

    // Each node makes such a change of its own group, and all is done; whether there was memory for the commands.
    fn round(&mut self, alloc: Global, change: Change) -> bool {
        for node in 0..self.nodes {
            match step_of(alloc, node, change) {
                Ok(step) => {
                    self.make(step);
                }
                Err(_) => return false,
            }
        }
        for _ in 0..8 {
            self.cross_all();
        }
        true
    }
}

// The command by which a node changes its own group; what joins and leaves is the process of the first node.
fn step_of(alloc: Global, node: usize, change: Change) -> Result<Step, TermFault> {
    let process = pid(alloc, "n0", 1)?;
    let command = command(
        change,
        Groups::Own.group(u32::try_from(node).unwrap_or(0)),
        process,
    );
    Ok(Step::Event(FrameStep::Command {
        node,
        port: 0,
        command,
    }))
}

// What is done in the round of this number: at first all groups are created, and then joined and left in turn.
fn change_of(round: u64) -> Change {
    if round == 0 {
        Change::Create
    } else if round % 2 == 1 {
        Change::Join
    } else {
        Change::Leave
    }
}

// Rounds until so many steps were made, timed.
fn measure_rounds(rt: &HostRuntime, measured: &mut Measured, steps: u64) -> bool {
    let watch = Watch::begin(rt);
    for round in 0..steps {
        if measured.steps >= steps {
            break;
        }
        if !measured.round(rt.alloc(), change_of(round)) {
            return false;
        }
    }
    let made = watch.rate(rt, measured.steps);
    let happened = watch.rate(rt, measured.events);
    let _ = eprintln!(rt;
        "a world of {} nodes, {} steps of which {} are events: {made} steps a second, {happened} events",
        measured.nodes, measured.steps, measured.events
    );
    true
}

fn measure_config(rt: &HostRuntime, config: &Config, steps: u64) -> bool {
    match World::new(rt.alloc(), config) {
        Ok(world) => {
            let mut measured = Measured {
                world,
                nodes: config.starts.len(),
                steps: 0,
                events: 0,
            };
            let is_done = measure_rounds(rt, &mut measured, steps);
            drop(measured);
            is_done
        }
        Err(_) => false,
    }
}

fn measure(rt: &HostRuntime, nodes: u16, steps: u64) -> bool {
    match config(rt.alloc(), nodes, 1) {
        Ok(config) => {
            let is_done = measure_config(rt, &config, steps);
            drop(config);
            is_done
        }
        Err(_) => false,
    }
}

/// The word after `worlds`: how many steps (300). Whether it could.
pub fn run(rt: &HostRuntime, words: &[String]) -> bool {
    match number(words, 1, 300) {
        Some(steps) => measure(rt, 3, steps) && measure(rt, 16, steps),
        None => false,
    }
}
