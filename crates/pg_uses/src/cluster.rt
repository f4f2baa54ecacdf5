//! A cluster: two nodes run in threads, and their clients ask.

use crate::setting::{two_nodes, workers};
use pg_cluster::{Command, OpenGate, Reply, Running};
use pg_term::Pid;
use pg_text::write_pid;
use std::alloc::Global;
use std::thread;
use std::thread::Threads;
use std::time::Clock;

/// The clients, by their places: each node has one.
const AT_A: usize = 0;

const AT_B: usize = 1;

/// A process of `b` joins a group, and `a` is asked for the member that is closest to it. Nodes that find nothing to do sleep by the clock.
/// It may wait for threads.
pub(crate) fn closest_member<R: Threads, C: Clock + Clone + Drop + Send + 'static>(
    rt: &R,
    alloc: Global,
    clock: C,
) -> Option<String> {
    let config = two_nodes(alloc)?;
    let mut running = Running::start(rt, alloc, config, 1, OpenGate, clock, u64::MAX).ok()?;
    let closest = speak(alloc, &mut running);
    drop(running.close(rt));
    let closest = closest?;
    let mut text = String::new(alloc);
    write_pid(&closest, &mut text).ok()?;
    Some(text)
}

fn speak(alloc: Global, running: &mut Running) -> Option<Pid> {
    let worker = pid_in(ask(running, AT_B, Command::Make))?;
    if !join(alloc, running, worker) {
        return None;
    }
    let name = workers(alloc)?;
    pid_in(ask(running, AT_A, Command::Closest(name, 0)))
}

/// Makes the group, and joins a process to it.
fn join(alloc: Global, running: &mut Running, worker: Pid) -> bool {
    let (Some(name), Some(again)) = (workers(alloc), workers(alloc)) else {
        drop(worker);
        return false;
    };
    drop(ask(running, AT_B, Command::Create(name)));
    drop(ask(running, AT_B, Command::Join(again, worker)));
    true
}

/// Submits a command at the client at a place, and gives its reply once it is there.
fn ask(running: &mut Running, place: usize, command: Command) -> Option<Reply> {
    if !submit(running, place, command) {
        return None;
    }
    for _ in 0..u64::MAX {
        if place >= running.client_count() {
            return None;
        }
        if let Some(answer) = running.poll(place) {
            return Some(answer.reply);
        }
        thread::yield_now();
    }
    None
}

/// Whether there is such a client, and it takes a command.
fn submit(running: &mut Running, place: usize, command: Command) -> bool {
    if place >= running.client_count() {
        drop(command);
        return false;
    }
    match running.submit(place, command) {
        Ok(()) => true,
        Err(command) => {
            drop(command);
            false
        }
    }
}

/// The process that a reply names.
fn pid_in(reply: Option<Reply>) -> Option<Pid> {
    match reply {
        Some(Reply::Made(pid)) => Some(pid),
        Some(Reply::Closest(pid)) => Some(pid),
        other => {
            drop(other);
            None
        }
    }
}
