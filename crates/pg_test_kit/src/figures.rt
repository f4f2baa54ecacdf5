//! Words and figures. Figures go to standard error, since they differ from run to run.

use std::io::Eprint;
use std::time::{Clock, Instant};

/// The word at a place, empty where there is none.
pub fn word(words: &[String], place: usize) -> &str {
    match words.get(place) {
        Some(word) => word.as_str(),
        None => "",
    }
}

/// The number at a place, another where there is no word; `None` where the word is no number.
pub fn number(words: &[String], place: usize, other: u64) -> Option<u64> {
    match words.get(place) {
        Some(word) => word.as_str().parse::<u64>().ok(),
        None => Some(other),
    }
}

/// When something began; `None` where the clock can't be read.
#[derive(Clone, Copy)]
pub struct Watch(Option<Instant>);

impl Watch {
    /// It begins now.
    pub fn begin(rt: &impl Clock) -> Watch {
        Watch(Instant::now(rt).ok())
    }

    /// How many nanoseconds went by; 1 where no clock could be read.
    pub fn nanos(self, rt: &impl Clock) -> u128 {
        match self.0 {
            Some(start) => match start.elapsed(rt) {
                Ok(time) => time.as_nanos(),
                Err(_) => 1,
            },
            None => 1,
        }
    }

    /// How many a second, of so many.
    pub fn rate(self, rt: &impl Clock, count: u64) -> u128 {
        u128::from(count).saturating_mul(1_000_000_000) / self.nanos(rt).max(1)
    }
}

/// Prints a line. It can't be helped where it can't be written.
pub fn say<R: Eprint>(rt: &R, line: &str) {
    let _ = eprintln!(rt; "{line}");
}

/// Prints how many of something there are.
pub fn head<R: Eprint>(rt: &R, count: u64, what: &str) {
    let _ = eprintln!(rt; "{count} {what}");
}

/// Prints how often a call was made a second, and how many megabytes that is where it is of some bytes.
pub fn report<R: Clock + Eprint>(rt: &R, what: &str, count: u64, len: usize, watch: Watch) {
    let calls = watch.rate(rt, count);
    let megabytes = calls.saturating_mul(len as u128) / 1_000_000;
    let _ = if len > 0 {
        eprintln!(rt; "  {what}: {calls} a second, {megabytes} MB a second")
    } else {
        eprintln!(rt; "  {what}: {calls} a second")
    };
}

/// Prints how many nanoseconds a call took.
pub fn report_each<R: Clock + Eprint>(rt: &R, what: &str, count: u64, watch: Watch) {
    let each = watch.nanos(rt) / u128::from(count.max(1));
    let _ = eprintln!(rt; "  {what}: {each} ns");
}
