//! How a service and a conversation end where a clock is full.

use crate::service::service_of;
use crate::verdicts::holds_at;
use pg_streams::Source;
use pg_talk::{CLOCK_WAIT, Conversation, Quiet, Service, Sleepless, run_threads, serve_cluster};
use pg_text::read_term;
use pg_world::{encode, write_frame};
use std::alloc::Global;
use std::sync::Arc;
use std::sync::atomic::{AtomicBool, Ordering};
use std::thread::Threads;
use std::{io, thread};

/// Where a clock is full for these tests: after a thousand ticks.
const MARGIN: u32 = (1 << 30) - 1_000;

/// Where it is full before it ticks.
const AT_ONCE: u32 = 1 << 30;

/// Gives these bytes at once, and then nothing, and does not end until it is told to.
#[derive(Drop)]
struct Silent {
    bytes: Vec<u8>,
    at: usize,
    is_over: Arc<AtomicBool, Global>,
}

impl Source for Silent {
    ghost use Rattle.std.specs.Prelude.{⊤, None};

    ghost remaining = { λ source. None };

    ghost gives = { λ a bytes b. ⊤ };

    ghost fails = { λ a b. ⊤ };

    fn read_some(&mut self, piece: &mut [u8]) -> io::Result<usize> {
        let rest = &self.bytes[self.at.min(self.bytes.len())..];
        if !rest.is_empty() {
            let count = rest.len().min(piece.len());
            piece[..count].copy_from_slice(&rest[..count]);
            self.at = self.at.saturating_add(count);
            return Ok(count);
        }
        for _ in 0..u64::MAX {
            if self.is_over.load(Ordering::SeqCst) {
                break;
            }
            thread::yield_now();
        }
        Ok(0)
    }
}

/// How many changes of each node are asked for.
const CHANGES: u64 = 2_000;

/// The changes that are asked for: at the port of each of two nodes a group of its own is created and deleted, again and again.
fn requests(alloc: Global) -> Option<Vec<u8>> {
    let mut bytes = Vec::new(alloc);
    for number in 0..CHANGES {
        let word = if number % 2 == 0 { "create" } else { "delete" };
        for node in 1..3 {
            let text = format!(in alloc; "{{n{node},1,{{{word},g{node}}}}}").ok()?;
            put(alloc, &mut bytes, text.as_str())?;
        }
    }
    Some(bytes)
}

/// Puts the frame of a term behind these bytes.
fn put(alloc: Global, bytes: &mut Vec<u8>, text: &str) -> Option<()> {
    let term = read_term(alloc, text).ok()?;
    let body = encode(alloc, &term);
    drop(term);
    write_frame(bytes, body.ok()?.as_slice()).ok()
}

/// How far the replies at the port of a node are read.
#[derive(Clone, Copy)]
struct Replies {
    node: u64,
    /// How many there were.
    count: u64,
    /// How many told that a change happened.
    answered: u64,
    /// How many told that nobody knows.
    unknown: u64,
}

impl Replies {
    /// Whether the next reply comes next in these bytes, and where the others begin. None told `ok` after one that did not, and one
    /// at most that nobody knows, before all that were refused.
    fn next(&mut self, alloc: Global, bytes: &[u8]) -> Option<Option<usize>> {
        let number = self.count.saturating_add(1);
        let node = self.node;
        let mut frame = Vec::new(alloc);
        for (place, reply) in ["ok", "{error,{unknown,30}}", "{refused,30}"]
            .iter()
            .enumerate()
        {
            let text = format!(in alloc; "{{n{node},1,{number},{reply}}}").ok()?;
            frame.clear();
            put(alloc, &mut frame, text.as_str())?;
            if bytes.starts_with(frame.as_slice()) {
                return Some(self.hear(place).then_some(frame.len()));
            }
        }
        Some(None)
    }

    /// Whether a reply of this kind may come now.
    fn hear(&mut self, place: usize) -> bool {
        let is_first = self.answered.saturating_add(self.unknown) == self.count;
        self.count = self.count.saturating_add(1);
        match place {
            0 => {
                self.answered = self.answered.saturating_add(1);
                is_first && self.unknown == 0
            }
            1 => {
                self.unknown = self.unknown.saturating_add(1);
                is_first && self.unknown == 1
            }
            _ => true,
        }
    }
}

/// The replies at the ports of both nodes, where these bytes are such replies and nothing else.
fn replies_in(alloc: Global, bytes: &[u8]) -> Option<[Replies; 2]> {
    let mut all = [1, 2].map(|node| Replies {
        node,
        count: 0,
        answered: 0,
        unknown: 0,
    });
    let mut rest = bytes;
    for _ in 0..bytes.len() {
        if rest.is_empty() {
            break;
        }
        let count = match all[0].next(alloc, rest)? {
            Some(count) => count,
            None => all[1].next(alloc, rest)??,
        };
        rest = &rest[count.min(rest.len())..];
    }
    rest.is_empty().then_some(all)
}

/// Whether a service with these limits, whose input goes on, ends as a clock is full, and what was replied then.
fn ends_full(rt: &impl Threads, alloc: Global, margin: u32, wait: u32) -> Option<[Replies; 2]> {
    let is_over = Arc::new(alloc, AtomicBool::new(false)).ok()?;
    let source = Silent {
        bytes: requests(alloc)?,
        at: 0,
        is_over: Arc::try_clone(&is_over).ok()?,
    };
    let service = Service {
        margin,
        wait,
        ..service_of(alloc, u64::MAX)?
    };
    let mut written = Vec::new(alloc);
    let served = serve_cluster(rt, alloc, Sleepless, service, source, &mut written);
    is_over.store(true, Ordering::SeqCst);
    let is_well = match served {
        Ok(served) => served.verdict.agree && served.verdict.replay && served.fault == Some(30),
        Err(_) => false,
    };
    if is_well {
        replies_in(alloc, written.as_slice())
    } else {
        None
    }
}

/// Whether some changes happened at both nodes, and not all.
fn are_some(all: &[Replies; 2]) -> bool {
    all.iter()
        .all(|one| one.answered > 10 && one.answered < CHANGES)
}

#[test]
fn a_full_clock_ends_a_service(rt: HostRuntime) {
    let went = match ends_full(&rt, rt.alloc(), MARGIN, CLOCK_WAIT) {
        Some(all) => are_some(&all)
            && all
                .iter()
                .all(|one| one.unknown == 0 && one.count > one.answered),
        None => false,
    };
    holds_at(
        &rt,
        went,
        "a service whose clocks are full, waiting for milliseconds",
        u64::from(CLOCK_WAIT),
    );
}

#[test]
fn nobody_is_waited_for(rt: HostRuntime) {
    let went = match ends_full(&rt, rt.alloc(), MARGIN, 0) {
        Some(all) => are_some(&all),
        None => false,
    };
    holds_at(
        &rt,
        went,
        "a service whose clocks are full, waiting for milliseconds",
        0,
    );
}

#[test]
fn clocks_are_full_at_once(rt: HostRuntime) {
    let went = match ends_full(&rt, rt.alloc(), AT_ONCE, 0) {
        Some(all) => all.iter().all(|one| one.answered == 0 && one.unknown == 0),
        None => false,
    };
    holds_at(&rt, went, "a service whose clocks are full after ticks", 0);
}

/// Whether a conversation ends as a clock is full before all is answered.
fn talk_ends_full(rt: &impl Threads, alloc: Global) -> bool {
    let asked = Conversation {
        nodes: 3,
        clients: 2,
        rounds: 1_000,
        seed: 1,
        turns: 100_000_000,
        margin: MARGIN,
    };
    match run_threads(rt, alloc, Sleepless, asked, &mut Quiet) {
        Ok(outcome) => {
            outcome.is_full
                && outcome.agree
                && outcome.replay
                && outcome.answered > 10
                && outcome.answered < outcome.asked
        }
        Err(_) => false,
    }
}

#[test]
fn a_full_clock_ends_a_conversation(rt: HostRuntime) {
    let went = talk_ends_full(&rt, rt.alloc());
    holds_at(
        &rt,
        went,
        "a conversation whose clocks are full before",
        u64::from(MARGIN),
    );
}
