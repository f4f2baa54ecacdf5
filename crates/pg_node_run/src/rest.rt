//! How long a thread rests that finds nothing to do.

ghost use Rattle.std.specs.Prelude.{◌≡◌, ◌≢◌, ◌-◌, ◌*◌, Some, None, min};

use std::time::{Clock, Duration};
use std::{io, thread};

/// How many looks in a row that find nothing only yield the processor.
const YIELDS: u32 = 300;

/// How long the first sleep is, in microseconds.
const FIRST_SLEEP: u32 = 50;

/// How long a sleep is at most, in microseconds.
const LONGEST_SLEEP: u32 = 4000;

/// How a thread rests that looks for something to do and finds nothing.
#[derive(Clone, Copy, Debug, PartialEq, Eq)]
pub struct Rest {
    // How many further looks only yield the processor.
    yields: u32,
    // For how many microseconds the thread sleeps at the next look then.
    sleep: u32,
}

impl Rest {
    ghost use Rattle.pg_node_run.specs.Rests.{sleep_of, yields_of, RestsOnce};

    /// That of a thread that begins, or found something: 300 looks only yield the processor, and the first sleep takes
    /// 50 microseconds.
    ///
    /// Cost: no memory.
    pub fn new() -> Rest
        ensures yields { yields_of result ≡ 300 }
        ensures sleep { sleep_of result ≡ 50 }
    {
        Rest {
            yields: YIELDS,
            sleep: FIRST_SLEEP,
        }
    }

    /// Nothing was found once more: for how many microseconds to sleep, or none, to yield the processor. A sleep takes
    /// twice as long as that before it, and 4,000 microseconds at most.
    ///
    /// Cost: no memory.
    pub fn next(&mut self) -> Option<u32>
        ensures yields { yields_of self.old ≢ 0 → (result ≡ None) × (yields_of self.new ≡ yields_of self.old - 1) × (sleep_of self.new ≡ sleep_of self.old) }
        ensures sleeps { yields_of self.old ≡ 0 → (result ≡ Some (sleep_of self.old)) × (yields_of self.new ≡ 0) × (sleep_of self.new ≡ min (2 * sleep_of self.old) 4000) }
    {
        if self.yields > 0 {
            self.yields -= 1;
            return None;
        }
        let sleep = self.sleep;
        self.sleep = sleep.saturating_mul(2).min(LONGEST_SLEEP);
        Some(sleep)
    }

    /// Nothing was found once more: the thread yields the processor, or sleeps by the clock, as `next` says. No clause
    /// says how long that takes.
    ///
    /// Cost: no memory.
    pub fn rest<C: Clock>(&mut self, clock: &C)
        ensures { RestsOnce self.old self.new }
    {
        match self.next() {
            None => thread::yield_now(),
            Some(microseconds) => {
                thread::sleep(clock, Duration::from_micros(u64::from(microseconds)));
            }
        }
    }

    /// Something was found: the next rest begins anew.
    ///
    /// Cost: no memory.
    pub fn found(&mut self)
        ensures yields { yields_of self.new ≡ 300 }
        ensures sleep { sleep_of self.new ≡ 50 }
    {
        *self = Rest::new();
    }
}

/// A clock that stands still, and by which nobody sleeps: a thread that finds nothing only yields the processor.
#[derive(Clone, Copy, Debug, Drop)]
pub struct Sleepless;

impl Clock for Sleepless {
    fn monotonic(&self) -> io::Result<Duration> {
        Ok(Duration::ZERO)
    }

    fn since_1970(&self) -> io::Result<Duration> {
        Ok(Duration::ZERO)
    }

    // (a sleep that returned at once would keep the processor from who has something to do)
    fn sleep(&self, _duration: Duration) {
        thread::yield_now();
    }
}
