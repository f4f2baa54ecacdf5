//! How a thread rests that finds nothing to do, and which commands let none rest.

use crate::sights::holds;
use pg_node_run::{Pauses, Rest};
use pg_script::OpId;
use rand_pcg::Pcg32;
use std::alloc::Global;
use std::cell::Cell;
use std::io;
use std::time::{Clock, Duration};

/// A clock that tells how often a thread slept, and for how many microseconds at most.
#[derive(Drop)]
pub struct Sleeps {
    pub count: Cell<u64>,
    pub longest: Cell<u128>,
}

impl Sleeps {
    /// Nobody slept.
    pub fn none() -> Sleeps {
        Sleeps {
            count: Cell::new(0),
            longest: Cell::new(0),
        }
    }
}

impl Clock for Sleeps {
    fn monotonic(&self) -> io::Result<Duration> {
        Ok(Duration::ZERO)
    }

    fn since_1970(&self) -> io::Result<Duration> {
        Ok(Duration::ZERO)
    }

    fn sleep(&self, duration: Duration) {
        self.count.set(self.count.get().saturating_add(1));
        self.longest
            .set(self.longest.get().max(duration.as_micros()));
    }
}

// The first sleeps, in microseconds.
const SLEEPS: &[u32] = &[50, 100, 200, 400, 800, 1600, 3200, 4000, 4000];

// Whether 300 looks only yield, and then come these sleeps.
fn rests_so(rest: &mut Rest) -> bool {
    for _ in 0..300 {
        if rest.next().is_some() {
            return false;
        }
    }
    for sleep in SLEEPS {
        if rest.next() != Some(*sleep) {
            return false;
        }
    }
    true
}

#[test]
fn a_rest_begins_anew(rt: HostRuntime) {
    let mut rest = Rest::new();
    for turn in 0..3 {
        holds(&rt, rests_so(&mut rest), "it rests so at time", turn);
        rest.found();
    }
}

// Whether turns count for a command while it is in its pause alone.
fn counts_so(alloc: Global) -> Option<bool> {
    let op = OpId { port: 0, number: 1 };
    let mut generator = Pcg32::new(1, 2);
    let mut pauses = Pauses::new(alloc);
    let at_first = pauses.are_running();
    pauses.pass(op, &mut generator).ok()?;
    let in_its_pause = pauses.are_running();
    pauses.tried(op);
    let once_tried = pauses.are_running();
    pauses.pass(op, &mut generator).ok()?;
    let in_the_next = pauses.are_running();
    pauses.forget(op);
    let at_last = pauses.are_running();
    Some(!at_first && in_its_pause && !once_tried && in_the_next && !at_last)
}

#[test]
fn turns_count_in_a_pause(rt: HostRuntime) {
    let counts = counts_so(rt.alloc()) == Some(true);
    holds(&rt, counts, "turns count in a pause, of commands:", 1);
}
