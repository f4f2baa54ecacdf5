//! When a service ends by itself: where a clock is full.

use pg_cluster::Clocks;
use std::time::{Clock, Duration, Instant};

/// When a service ends by itself.
#[derive(Drop)]
pub(crate) struct Limits {
    /// The clocks of its nodes.
    pub clocks: Clocks,
    /// How near to its end a clock counts as full.
    pub margin: u32,
    /// How many milliseconds requests that are open then are waited for at most.
    pub wait: u32,
}

impl Limits {
    /// Whether a clock is full.
    pub(crate) fn are_full(&self) -> bool {
        self.clocks.are_full(self.margin)
    }

    /// From when on it is waited.
    pub(crate) fn begin<C: Clock>(&self, clock: &C) -> Waiting {
        Waiting {
            begun: Instant::now(clock).ok(),
            wait: Duration::from_millis(u64::from(self.wait)),
        }
    }
}

/// How long something is waited for.
#[derive(Drop)]
pub(crate) struct Waiting {
    // None where the clock could not be read.
    begun: Option<Instant>,
    wait: Duration,
}

impl Waiting {
    /// Whether it was waited for as long as it was to be. A clock that can't be read ends it.
    pub(crate) fn is_over<C: Clock>(&self, clock: &C) -> bool {
        match &self.begun {
            Some(begun) => match begun.elapsed(clock) {
                Ok(time) => time >= self.wait,
                Err(_) => true,
            },
            None => true,
        }
    }
}
