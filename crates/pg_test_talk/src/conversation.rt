//! The conversation of the program.

use crate::verdicts::holds_at;
use pg_talk::{CLOCK_MARGIN, Conversation, Outcome, Quiet, run_threads};
use std::alloc::{AllocError, Global};
use std::thread::Threads;
use std::time::Clock;

/// How many nodes there are, how many clients each has, how often these change, and how many turns there are; how many commands are
/// answered, of how many.
type Row = ((u16, u16, u32, u64), u64, u64);

const ROWS: &[Row] = &[
    ((3, 2, 50, 100_000_000), 607, 607),
    ((1, 1, 0, 100_000_000), 2, 2),
    ((3, 2, 50, 0), 0, 607),
    ((16, 2, 2, 100_000_000), 161, 161),
];

// So many commands are answered, of so many, and all is well where all are.
fn is_so(outcome: &Outcome, answered: u64, asked: u64) -> bool {
    outcome.answered == answered
        && outcome.asked == asked
        && outcome.agree
        && outcome.replay
        && outcome.is_good() == (answered == asked)
}

fn goes<R: Threads, C: Clock + Clone + Drop + Send + 'static>(
    rt: &R,
    alloc: Global,
    clock: C,
    row: &Row,
) -> bool {
    let ((nodes, clients, rounds, turns), answered, all) = *row;
    let asked = Conversation {
        nodes,
        clients,
        rounds,
        seed: 1,
        turns,
        margin: CLOCK_MARGIN,
    };
    match run_threads(rt, alloc, clock, asked, &mut Quiet) {
        Ok(outcome) => is_so(&outcome, answered, all),
        Err(_) => false,
    }
}

#[test]
fn clients_are_answered(rt: HostRuntime) {
    for place in 0..ROWS.len() {
        let clock: Result<HostRuntime, AllocError> = rt.clone();
        let goes = match clock {
            Ok(clock) => goes(&rt, rt.alloc(), clock, &ROWS[place]),
            Err(AllocError) => false,
        };
        holds_at(&rt, goes, "a conversation of row", place as u64);
    }
}
