//! Gates that hold nodes, and what is seen through them.

use crate::setting::{ONE, Setting, Started, THREE, TWO, command_of, end_of, holds, start};
use pg_cluster::{Command, Gate};
use std::alloc::Global;
use std::process::Abort;
use std::sync::atomic::{AtomicU64, Ordering};
use std::sync::{Arc, Wait};
use std::thread;
use std::thread::Threads;

/// Numbers that threads share, which all begin at 0. What they count is told by the rule of a gate.
#[derive(Drop)]
struct Board {
    first: AtomicU64,
    second: AtomicU64,
    third: AtomicU64,
}

/// Whom a gate holds.
#[derive(Clone, Copy)]
enum Rule {
    /// Each node in its first turn, until the first number is set.
    Held,
    /// Each node in its first turn, until two are there, as the first number counts; the second counts those who missed another.
    Meeting,
    /// Each of three nodes, in its first turns, until the others are as far. A number for each is the turn it is in.
    InStep,
}

#[derive(Drop)]
struct Watch {
    board: Arc<Board, Global>,
    rule: Rule,
}

/// How often a gate looks at most.
const LOOKS: u64 = 1_000_000_000;

/// How many turns nodes go in step.
const STEPS: u64 = 1_000;

/// Waits until the number is at least so much; whether it is.
fn wait_for(number: &AtomicU64, least: u64) -> bool {
    for _ in 0..LOOKS {
        if number.load(Ordering::SeqCst) >= least {
            return true;
        }
        thread::yield_now();
    }
    false
}

impl Board {
    fn meet(&self) {
        self.first.fetch_add(1, Ordering::SeqCst);
        if !wait_for(&self.first, 2) {
            self.second.fetch_add(1, Ordering::SeqCst);
        }
    }

    /// Whether all three nodes come as far as this turn.
    fn are_at(&self, turn: u64) -> bool {
        wait_for(&self.first, turn) && wait_for(&self.second, turn) && wait_for(&self.third, turn)
    }

    fn step(&self, node: usize, turn: u64) {
        match node {
            0 => self.first.store(turn, Ordering::SeqCst),
            1 => self.second.store(turn, Ordering::SeqCst),
            _ => self.third.store(turn, Ordering::SeqCst),
        }
        self.are_at(turn);
    }
}

impl Gate for Watch {
    fn pass(&self, node: usize, turn: u64, _clock: u32) {
        match self.rule {
            Rule::Held if turn == 0 => {
                wait_for(&self.board.first, 1);
            }
            Rule::Meeting if turn == 0 => self.board.meet(),
            Rule::InStep if turn <= STEPS => self.board.step(node, turn),
            _ => {}
        }
    }
}

// Whether 64 commands are taken.
fn are_taken(started: &mut Started) -> bool {
    for _ in 0..64 {
        if started.submit(0, Command::WhichGroups).is_err() {
            return false;
        }
    }
    true
}

fn is_create(back: Result<(), Command>) -> bool {
    with!(back, Err command => matches!(&command, Command::Create(_)), else false)
}

// Whether the port of a node takes 64 commands, and hands back the next.
fn is_full(alloc: Global, started: &mut Started) -> bool {
    are_taken(started)
        && match command_of(alloc, "create a g") {
            Some(command) => is_create(started.submit(0, command)),
            None => false,
        }
}

// Whether what is seen while nodes pass a gate is as it should be.
fn is_seen<R: Threads + Wait>(
    rt: &R,
    alloc: Global,
    started: &mut Started,
    rule: Rule,
    board: &Board,
) -> bool {
    match rule {
        Rule::Held => {
            let is_full = is_full(alloc, started);
            board.first.store(1, Ordering::SeqCst);
            is_full
        }
        Rule::Meeting => true,
        // A group is created at the last node while all go in step.
        Rule::InStep => started.asks(rt, alloc, 2, "create c g", "ok") && board.are_at(STEPS),
    }
}

// All is seen as it should be, and all is well then; none missed another who meet.
fn check<R: Threads + Wait + Abort>(rt: &R, alloc: Global, setting: Setting<'_>, rule: Rule) {
    let numbers = Board {
        first: AtomicU64::new(0),
        second: AtomicU64::new(0),
        third: AtomicU64::new(0),
    };
    let board = Arc::new(alloc, numbers).ok().expect(rt, "memory");
    let copy = Arc::try_clone(&board).ok().expect(rt, "memory");
    let begun = start(rt, alloc, setting, Watch { board: copy, rule });
    let mut started = begun.ok().expect(rt, "it starts");
    holds(
        rt,
        is_seen(rt, alloc, &mut started, rule, &board),
        "what is seen at a gate",
    );
    let end = end_of(rt, alloc, started).expect(rt, "an end");
    holds(rt, end.agrees && end.replays, "all is well");
    let missed = board.second.load(Ordering::SeqCst);
    drop(board);
    holds(
        rt,
        missed == 0 || matches!(rule, Rule::InStep),
        "none is missed",
    );
}

const SMALL: Setting = Setting { ring: 64, ..ONE };

const SHORT: Setting = Setting {
    ports: 0,
    ring: 64,
    limit: 10,
    ..TWO
};

const LARGE: Setting = Setting { ring: 64, ..THREE };

const RULES: &[(Setting, Rule)] = &[
    // While its node is held a port takes 64 commands, and hands back the next.
    (SMALL, Rule::Held),
    // In its first turn each node says that it is there, and waits for the other.
    (SHORT, Rule::Meeting),
    // No node is more than a turn ahead of the others for a thousand turns, in which a group is created.
    (LARGE, Rule::InStep),
];

#[test]
fn nodes_pass_gates(rt: HostRuntime) {
    for (setting, rule) in RULES {
        check(&rt, rt.alloc(), *setting, *rule);
    }
}
