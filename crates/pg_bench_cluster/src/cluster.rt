//! How many commands a second a cluster of threads answers, and how long an answer takes.

mod running;
mod talker;

use crate::config::config;
use pg_test_kit::{Groups, Watch, number, word};
use running::Running;
use std::alloc::{AllocError, Global};
use std::io::Eprint;
use std::thread;
use std::thread::Threads;
use std::time::{Clock, Duration};
use talker::Talker;

/// What the clients of a cluster do.
#[derive(Clone, Copy)]
struct Setting {
    groups: Groups,
    nodes: u16,
    // How many clients each node has.
    clients: u16,
    // How often each joins and leaves.
    rounds: u64,
}

impl Setting {
    fn of(words: &[String]) -> Option<Setting> {
        Some(Setting {
            groups: Groups::of(word(words, 1)),
            nodes: u16::try_from(number(words, 2, 3)?).ok()?,
            clients: u16::try_from(number(words, 3, 2)?).ok()?,
            rounds: number(words, 4, 1_000)?,
        })
    }

    // One for each client.
    fn talkers(self, alloc: Global) -> Result<Vec<Talker>, AllocError> {
        let mut talkers = Vec::new(alloc);
        for number in 0..u32::from(self.nodes).saturating_mul(u32::from(self.clients)) {
            talkers.push(Talker::new(self.groups, number))?;
        }
        Ok(talkers)
    }
}

// Each client speaks once; whether something moved.
fn speak_once<R: Clock>(
    rt: &R,
    running: &mut Running,
    talkers: &mut [Talker],
    times: &mut Vec<Duration>,
) -> bool {
    let mut moved = false;
    for talker in talkers {
        moved |= talker.speak(rt, running, times);
    }
    moved
}

// All speak until each has said what it has to say: how long each answer took.
fn speak<R: Clock>(
    rt: &R,
    running: &mut Running,
    talkers: &mut [Talker],
    times: &mut Vec<Duration>,
) {
    for _ in 0..u64::MAX {
        if talkers.iter().all(|talker| talker.is_silent()) {
            break;
        }
        if !speak_once(rt, running, talkers, times) {
            thread::yield_now();
        }
    }
}

// The time within which so many of a hundred were answered, in microseconds.
fn part(times: &[Duration], hundredths: usize) -> u128 {
    let place = times.len().saturating_mul(hundredths) / 100;
    match times.get(place) {
        Some(time) => time.as_micros(),
        None => 0,
    }
}

// The clients make their processes and groups; then they join and leave, which is measured.
fn measure<R: Clock + Eprint>(
    rt: &R,
    running: &mut Running,
    talkers: &mut [Talker],
    times: &mut Vec<Duration>,
    rounds: u64,
) {
    speak(rt, running, talkers, times);
    times.clear();
    for talker in &mut *talkers {
        talker.go_on(rounds);
    }
    let watch = Watch::begin(rt);
    speak(rt, running, talkers, times);
    let answered = watch.rate(rt, times.len() as u64);
    times.sort_unstable();
    let _ = eprintln!(rt;
        "{} commands: {answered} a second; half within {} microseconds, 99 of 100 within {}",
        times.len(),
        part(times, 50),
        part(times, 99)
    );
}

fn measure_talkers<R: Clock + Eprint>(
    rt: &R,
    alloc: Global,
    running: &mut Running,
    setting: Setting,
) -> bool {
    match setting.talkers(alloc) {
        Ok(mut talkers) => {
            let mut times = Vec::new(alloc);
            measure(rt, running, &mut talkers, &mut times, setting.rounds);
            drop(talkers);
            drop(times);
            true
        }
        Err(AllocError) => false,
    }
}

fn run_setting<R: Threads + Clock + Clone + Drop + Send + Eprint + AllocGlobal + 'static>(
    rt: &R,
    setting: Setting,
) -> bool {
    let clock: Result<R, AllocError> = rt.clone();
    let Ok(clock) = clock else {
        return false;
    };
    let Ok(config) = config(rt.alloc(), setting.nodes, setting.clients) else {
        return false;
    };
    match Running::start(rt, rt.alloc(), config, clock) {
        Some(mut running) => {
            let is_done = measure_talkers(rt, rt.alloc(), &mut running, setting);
            running.close(rt);
            is_done
        }
        None => false,
    }
}

/// The words after `cluster`: `one`, where all clients change one group, or `own`, where each has its own; how many nodes (3),
/// clients of each (2) and rounds of a join and a leave (1,000). Whether it could.
pub fn run<R: Threads + Clock + Clone + Drop + Send + Eprint + AllocGlobal + 'static>(
    rt: &R,
    words: &[String],
) -> bool {
    match Setting::of(words) {
        Some(setting) => run_setting(rt, setting),
        None => false,
    }
}
