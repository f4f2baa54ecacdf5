//! Random schedules of worlds over bytes, cut at random. Whatever moved when, packets that cross whole lead to the same nodes.

use crate::schedules::{
    Schedule, are_same, are_same_worlds, first_pids, holds, put_heard, scene_of, schedule_of,
};
use crate::slow::{GROUPS, Heard, Scene, World, are_answered, len_of, state_of};
use pg_script::{
    Command, Config, Effect, FrameStep, NodeFault, OpId, Step, Stepped, run, run_frames,
};
use pg_term::{Pid, Term};
use pg_test_kit::Random;
use std::alloc::Global;
use std::process::Abort;

/// How many steps a schedule has.
const STEPS: usize = 10_000;

// How nodes start, of which the first so many are taken: two of them with groups.
const BEGUN: &str = "ring 150
node a made 2
node b made 2
node c made 2
node d made 2
node e made 2
has a 1 <a.1.0> <a.1.0> <b.1.0>
has a 3
has b 1 <a.1.0> <b.1.0> <b.1.0>
";

/// Steps by chance.
#[derive(Drop)]
struct Chance {
    random: Random,
    // How many nodes there are, at least 1, and whether some are lost.
    nodes: u32,
    is_lossy: bool,
    // How many commands there were at all nodes.
    asked: u32,
}

impl Chance {
    fn place(&mut self) -> usize {
        self.random.below(self.nodes) as usize
    }

    // Two nodes, apart from each other but for a time in twenty.
    fn pair(&mut self) -> (usize, usize) {
        let one = self.place();
        let other = self.place();
        if one == other && self.random.below(20) > 0 {
            let next = one.saturating_add(1);
            (one, if next < self.nodes as usize { next } else { 0 })
        } else {
            (one, other)
        }
    }

    // One of the last commands of a node, if each had as many.
    fn number(&mut self) -> u32 {
        let last = self.asked / self.nodes.max(1);
        last.saturating_sub(self.random.below(30)).saturating_add(1)
    }

    // A command.
    fn command(&mut self, rt: &impl Abort, pids: &[Pid]) -> Command {
        let name = Term::Int(i64::from(self.random.below(4)).saturating_add(1));
        match self.random.below(80) {
            0..10 => Command::Create(name),
            10..15 => Command::Delete(name),
            15..23 => Command::Members(name),
            23..31 => Command::Closest(name, self.random.below(100)),
            31..64 => self.about(rt, name, pids),
            64..72 => {
                drop(name);
                Command::Make
            }
            _ => {
                drop(name);
                Command::WhichGroups
            }
        }
    }

    // The same about a process.
    fn about(&mut self, rt: &impl Abort, name: Term, pids: &[Pid]) -> Command {
        let picked = self.random.pick(pids).expect(rt, "a process");
        let pid = picked.copy().expect(rt, "memory");
        match self.random.below(33) {
            0..15 => Command::Join(name, pid),
            15..25 => Command::Leave(name, pid),
            _ => {
                drop(name);
                Command::Finish(pid)
            }
        }
    }

    // A step.
    fn step(&mut self, rt: &impl Abort, pids: &[Pid]) -> Step {
        let (node, peer) = self.pair();
        let (from, to) = (node, peer);
        let max = self.random.below(200) as usize;
        match self.random.below(100) {
            0..28 => Step::Put { from, to, max },
            28..56 => Step::Pull {
                to: from,
                from: to,
                max,
            },
            56..88 => Step::Event(FrameStep::Take { node, peer }),
            88..96 => {
                self.asked = self.asked.saturating_add(1);
                let command = self.command(rt, pids);
                let port = 0;
                Step::Event(FrameStep::Command {
                    node,
                    port,
                    command,
                })
            }
            // A loss is seen, or a command is tried again.
            _ if self.is_lossy && self.random.below(2) > 0 => {
                Step::Event(FrameStep::SeeLoss { node, peer })
            }
            _ => {
                let (port, number) = (0, self.number());
                let op = OpId { port, number };
                Step::Event(FrameStep::Retry { node, op })
            }
        }
    }

    // The node that is lost at a step, if one is, all formed by then: the last of four nodes or five, and then the second.
    fn lost_at(&self, step: usize) -> Option<usize> {
        match step {
            4_000 if self.is_lossy => Some((self.nodes as usize).saturating_sub(1)),
            7_000 if self.is_lossy => Some(1),
            _ => None,
        }
    }
}

// Puts steps by chance behind the others.
fn put_steps(rt: &impl Abort, steps: &mut Vec<Step>, chance: &mut Chance, pids: &[Pid]) {
    for place in 0..STEPS {
        let step = match chance.lost_at(place) {
            Some(node) => Step::Lose { node },
            None => chance.step(rt, pids),
        };
        steps.push(step).ok().expect(rt, "memory");
    }
}

/// What a step of a world did: its event, if it was one that happened, and the number of its fault.
type Noted = (Option<Effect>, u8);

fn noted(stepped: Result<Stepped, NodeFault>) -> Noted {
    match stepped {
        Ok(Stepped::Happened(effect)) => (Some(effect), 0),
        Ok(_) => (None, 0),
        Err(fault) => (None, fault.number()),
    }
}

/// A world, what each step of it did, and which exchanges were taken.
#[derive(Drop)]
struct Played {
    world: World,
    notes: Vec<Noted>,
    heard: Vec<Heard>,
}

impl Played {
    fn scene<'a>(&'a self, alloc: Global, schedule: &'a Schedule, pids: &'a [Pid]) -> Scene<'a> {
        scene_of(alloc, schedule, &self.world, pids, self.heard.as_slice())
    }

    // Makes a step, and notes what it did.
    fn step(&mut self, rt: &impl Abort, step: &Step) {
        let noted = noted(self.world.step(step));
        let told = put_heard(&mut self.heard, step, noted.0.is_some());
        told.ok().expect(rt, "memory");
        self.notes.push(noted).ok().expect(rt, "memory");
    }
}

// Makes the steps one by one.
fn step_all(
    rt: &impl Abort,
    alloc: Global,
    schedule: &Schedule,
    pids: &[Pid],
    played: &mut Played,
) {
    for (place, step) in schedule.steps.as_slice().iter().enumerate() {
        played.step(rt, step);
        // Now and then the headline is read.
        if place % 50 == 0 {
            check_headline(rt, played.scene(alloc, schedule, pids), place);
        }
    }
}

fn check_headline(rt: &impl Abort, scene: Scene<'_>, step: usize) {
    if let Some(fault) = scene.fault() {
        holds(rt, false, fault, step);
    }
}

// How many updates of the groups were begun.
fn begun(world: &World) -> usize {
    let mut count = 0usize;
    for group in GROUPS {
        let name = Term::Int(group);
        count = count.saturating_add(len_of(world.history(&name)));
        drop(name);
    }
    count
}

// How many events began an update, by what was noted; and whether one has told of an odd reply.
fn noted_begun(notes: &[Noted]) -> (usize, bool) {
    let mut count = 0usize;
    let mut is_odd = false;
    for noted in notes {
        if let Some(effect) = noted.0 {
            count = count.saturating_add(usize::from(effect.began.is_some()));
            is_odd = is_odd || effect.odd.is_some();
        }
    }
    (count, is_odd)
}

// Whether a run of all steps leads to the same nodes, and gives each step the number that was noted of it.
fn is_run(alloc: Global, schedule: &Schedule, world: &World, notes: &[Noted]) -> bool {
    match run(alloc, &schedule.config, schedule.steps.as_slice()) {
        Ok((other, numbers)) => {
            let mut is_run = are_same_worlds(world, &other, schedule.config.starts.len());
            for (number, noted) in numbers.as_slice().iter().zip(notes) {
                is_run = is_run && *number == noted.1;
            }
            drop(other);
            drop(numbers);
            is_run
        }
        Err(_) => false,
    }
}

// Puts the events that happened behind the others.
fn put_events(rt: &impl Abort, events: &mut Vec<FrameStep>, steps: Vec<Step>, notes: &[Noted]) {
    for (step, noted) in steps.into_iter().zip(notes) {
        match step {
            Step::Event(event) if noted.0.is_some() => {
                events.push(event).ok().expect(rt, "memory");
            }
            other => drop(other),
        }
    }
}

// Whether the events over packets all happen, and lead to the same nodes.
fn is_run_over_packets(
    alloc: Global,
    config: &Config,
    world: &World,
    events: &[FrameStep],
) -> bool {
    match run_frames(alloc, config, events) {
        Ok((packets, numbers)) => {
            let mut is_run = true;
            for place in 0..config.starts.len() {
                is_run = is_run && are_same(state_of(world, place), packets.node(place));
            }
            for number in numbers.as_slice() {
                is_run = is_run && *number == 0;
            }
            drop(packets);
            drop(numbers);
            is_run
        }
        Err(_) => false,
    }
}

// The first so many of the nodes, and steps by chance.
fn drawn(
    rt: &impl Abort,
    alloc: Global,
    nodes: usize,
    is_lossy: bool,
    seed: u64,
) -> (Schedule, Vec<Pid>) {
    let mut schedule = schedule_of(alloc, BEGUN, 0).expect(rt, "memory");
    schedule.config.starts.truncate(nodes);
    let pids = first_pids(rt, alloc, schedule.config.starts.as_slice(), 3);
    let mut chance = Chance {
        random: Random::new(seed),
        nodes: u32::try_from(nodes).unwrap_or(1),
        is_lossy,
        asked: 0,
    };
    put_steps(rt, &mut schedule.steps, &mut chance, pids.as_slice());
    drop(chance);
    (schedule, pids)
}

// A run of the steps that were made, and one of the events over packets, lead to the same nodes; of losses, which keep as many packets as
// were put whole, the first alone.
fn check_runs(
    rt: &impl Abort,
    alloc: Global,
    schedule: Schedule,
    is_lossy: bool,
    world: &World,
    notes: &[Noted],
) {
    let is_run = is_run(alloc, &schedule, world, notes);
    let Schedule { config, steps } = schedule;
    let count = config.starts.len();
    holds(rt, is_run, "the same by a run, nodes:", count);
    let mut events = Vec::new(alloc);
    put_events(rt, &mut events, steps, notes);
    let is_run = is_lossy || is_run_over_packets(alloc, &config, world, events.as_slice());
    drop(events);
    drop(config);
    holds(rt, is_run, "the same over packets, nodes:", count);
}

// How many nodes make steps by chance, whether some are lost, and a seed.
type Draw = (usize, bool, u64);

fn check(rt: &impl Abort, alloc: Global, (nodes, is_lossy, seed): Draw) {
    let (schedule, pids) = drawn(rt, alloc, nodes, is_lossy, seed);
    let world = World::new(alloc, &schedule.config).expect(rt, "memory");
    let (notes, heard) = (Vec::new(alloc), Vec::new(alloc));
    let mut played = Played {
        world,
        notes,
        heard,
    };
    step_all(rt, alloc, &schedule, &pids, &mut played);
    let scene = played.scene(alloc, &schedule, &pids);
    check_answers(rt, scene, schedule.steps.as_slice());
    drop(pids);
    let (world, notes) = (&played.world, played.notes.as_slice());
    check_notes(rt, world, notes);
    check_runs(rt, alloc, schedule, is_lossy, world, notes);
    drop(played);
}

// What was answered stands in the histories.
fn check_answers(rt: &impl Abort, scene: Scene<'_>, steps: &[Step]) {
    check_headline(rt, scene, STEPS);
    let nodes = scene.starts.len();
    holds(rt, are_answered(scene, steps), "answers of nodes:", nodes);
    holds(rt, scene.all_saw(), "the losses, nodes:", nodes);
}

fn check_notes(rt: &impl Abort, world: &World, notes: &[Noted]) {
    holds(rt, notes.len() == STEPS, "steps:", notes.len());
    let begun = begun(world);
    holds(rt, begun > 9, "updates begun:", begun);
    let is_noted = noted_begun(notes) == (begun, false);
    holds(rt, is_noted, "as noted, updates begun:", begun);
}

#[test]
fn two_and_three_nodes(rt: HostRuntime) {
    for draw in [(2, false, 20_261_125), (3, false, 20_261_126)] {
        check(&rt, rt.alloc(), draw);
    }
}

#[test]
fn four_and_five_nodes(rt: HostRuntime) {
    for draw in [(4, false, 20_261_127), (5, false, 20_261_128)] {
        check(&rt, rt.alloc(), draw);
    }
}

#[test]
fn nodes_are_lost(rt: HostRuntime) {
    for draw in [(4, true, 12), (5, true, 3)] {
        check(&rt, rt.alloc(), draw);
    }
}
