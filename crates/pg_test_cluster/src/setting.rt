//! Clusters that tests begin with, what their clients ask, and how they end.

use pg_cluster::{
    Answer, Closed, Command, Config, FrameStep, Gate, NodeFault, Running, Sleepless, StartFault,
    Stopped, WorldFault,
};
use pg_script::{Line, NodeForm, Script, print_reply, read_line, read_script};
use std::alloc::{AllocError, Global};
use std::process::Abort;
use std::sync::Wait;
use std::thread;
use std::thread::Threads;

/// Ends the test where something does not hold, and tells of it.
pub fn holds(rt: &impl Abort, holds: bool, said: &str) {
    assert!(rt; holds, "{said}");
}

/// What a cluster begins with: so many nodes, which are declared, of which each has so many ports, rings of so many bytes, the seed of its
/// pauses, and at most so many turns of each node.
#[derive(Clone, Copy)]
pub struct Setting<'a> {
    pub nodes: usize,
    pub declared: &'a str,
    pub ports: u16,
    pub ring: usize,
    pub seed: u64,
    pub limit: u64,
}

pub const ONE: Setting = Setting {
    nodes: 1,
    declared: "node a",
    ports: 1,
    ring: 65536,
    seed: 0,
    limit: 1_000_000_000,
};

pub const TWO: Setting = Setting {
    nodes: 2,
    declared: "node a\nnode b",
    ..ONE
};

pub const THREE: Setting = Setting {
    nodes: 3,
    declared: "node a\nnode b\nnode c",
    ..ONE
};

// The configuration of a setting; none where memory was refused.
fn config(alloc: Global, setting: Setting<'_>) -> Option<Config> {
    let Script { mut config, lines } = read_script(alloc, setting.declared).ok()?;
    drop(lines);
    config.ring = setting.ring;
    for start in config.starts.as_mut_slice() {
        start.ports = setting.ports;
    }
    Some(config)
}

fn read(alloc: Global, line: &str) -> Option<Command> {
    match read_line(alloc, line) {
        Ok(Line::At { node, form }) => {
            drop(node);
            match form {
                NodeForm::Command(command) => Some(command),
                other => {
                    drop(other);
                    None
                }
            }
        }
        other => {
            drop(other);
            None
        }
    }
}

/// The command of a line of a script, which is read a second time where memory was refused.
pub fn command_of(alloc: Global, line: &str) -> Option<Command> {
    match read(alloc, line) {
        Some(command) => Some(command),
        None => read(alloc, line),
    }
}

// Whether the text of a reply begins so. It is asked a second time where memory was refused.
fn is_reply(alloc: Global, answer: &Answer, begin: &str) -> bool {
    let mut out = String::new(alloc);
    let mut told = print_reply(&mut out, &answer.reply);
    if told.is_err() {
        out.clear();
        told = print_reply(&mut out, &answer.reply);
    }
    let is_reply = told.is_ok() && out.as_str().starts_with(begin);
    drop(out);
    is_reply
}

// Whether a command was submitted, and not handed back.
fn is_taken(submitted: Result<(), Command>) -> bool {
    let is_taken = submitted.is_ok();
    drop(submitted);
    is_taken
}

/// A cluster that runs. A client that is not there hands back, and gives nothing.
#[derive(Drop)]
pub struct Started {
    running: Running,
}

impl Started {
    /// Submits a command at the client at a place, or hands it back.
    pub fn submit(&mut self, place: usize, command: Command) -> Result<(), Command> {
        if place >= self.running.client_count() {
            return Err(command);
        }
        self.running.submit(place, command)
    }

    /// Whether the client at a place takes the command of a line.
    pub fn takes(&mut self, alloc: Global, place: usize, line: &str) -> bool {
        match command_of(alloc, line) {
            Some(command) => is_taken(self.submit(place, command)),
            None => false,
        }
    }

    /// The next answer of the client at a place, once it is there; none after very many looks.
    fn answer(&mut self, rt: &impl Wait, place: usize) -> Option<Answer> {
        for _ in 0..1_000_000_000u64 {
            if place < self.running.client_count() {
                if let Some(answer) = self.running.poll(place) {
                    return Some(answer);
                }
            }
            thread::yield_now();
        }
        None
    }

    /// Whether the client at a place takes the command of a line, and is answered by what begins so.
    pub fn asks(
        &mut self,
        rt: &impl Wait,
        alloc: Global,
        place: usize,
        line: &str,
        begin: &str,
    ) -> bool {
        self.takes(alloc, place, line)
            && with!(
                self.answer(rt, place),
                Some answer => is_reply(alloc, &answer, begin),
                else false
            )
    }

    /// The node at a place is lost.
    pub fn lose<R: Threads>(&mut self, rt: &R, node: usize) -> Result<(), NodeFault> {
        self.running.lose(rt, node)
    }
}

/// The nodes of a setting as a cluster.
pub fn start<R: Threads, G: Gate + Drop + Send + Sync + 'static>(
    rt: &R,
    alloc: Global,
    setting: Setting<'_>,
    gate: G,
) -> Result<Started, StartFault> {
    match config(alloc, setting) {
        Some(config) => match Running::start(
            rt,
            alloc,
            config,
            setting.seed,
            gate,
            Sleepless,
            setting.limit,
        ) {
            Ok(running) => Ok(Started { running }),
            Err(fault) => Err(fault),
        },
        None => Err(StartFault::World(WorldFault::OutOfMemory)),
    }
}

/// How a cluster ended.
#[derive(Clone, Copy)]
pub struct End {
    /// How many nodes, steps, and losses among these, there were.
    pub nodes: usize,
    pub events: usize,
    pub losses: usize,
    /// Whether the nodes agree, those that were not lost do, and the steps lead to them.
    pub agrees: bool,
    pub survivors_agree: bool,
    pub replays: bool,
}

/// How many losses of nodes are among these steps.
fn loss_count(steps: &[FrameStep]) -> usize {
    let mut count: usize = 0;
    for step in steps {
        if matches!(step, FrameStep::Lose { .. }) {
            count = count.saturating_add(1);
        }
    }
    count
}

/// How many steps a cluster that is closed has, and how many of them are losses.
fn step_counts(alloc: Global, closed: &Closed) -> Result<(usize, usize), AllocError> {
    let steps = closed.schedule(alloc)?;
    Ok((steps.len(), loss_count(steps.as_slice())))
}

// The answer to a question, which is asked a second time where memory was refused.
macro_rules! asked {
    ($call:expr) => {
        match $call {
            Ok(told) => told,
            Err(AllocError) => $call.unwrap_or(false),
        }
    };
}

// How a cluster ended that is closed.
fn end_of_closed(alloc: Global, closed: &Closed, config: &Config) -> End {
    let (events, losses) = match step_counts(alloc, closed) {
        Ok(counts) => counts,
        Err(AllocError) => step_counts(alloc, closed).unwrap_or((0, 0)),
    };
    End {
        nodes: closed.nodes.len(),
        events,
        losses,
        agrees: asked!(closed.agrees(alloc)),
        survivors_agree: asked!(closed.survivors_agree(alloc)),
        replays: asked!(closed.replays(alloc, config)),
    }
}

// What stopped is finished a second time where memory was refused.
fn finished(closed: Result<Closed, Stopped>) -> Option<Closed> {
    match closed {
        Ok(closed) => Some(closed),
        Err(stopped) => stopped.finish().ok(),
    }
}

/// Closes the cluster: how it ended; none where its logs have no order.
pub fn end_of<R: Threads>(rt: &R, alloc: Global, started: Started) -> Option<End> {
    let (closed, config) = started.running.close(rt);
    let end = with!(
        finished(closed),
        Some closed => Some(end_of_closed(alloc, &closed, &config)),
        else None
    );
    drop(config);
    end
}
