//! What a service does at rest, and how it ends where its reader has gone.

use crate::service::{CALLS, MAKES, OTHER_MAKES, Said, frames, service_of};
use crate::verdicts::holds_at;
use pg_streams::{AnyWriter, Source};
use pg_talk::{ServiceFault, Sleepless, serve_cluster};
use std::alloc::{AllocError, Global};
use std::io::{ErrorKind, Write};
use std::sync::Arc;
use std::sync::atomic::{AtomicU64, Ordering};
use std::thread::Threads;
use std::time::{Clock, Duration};
use std::{io, thread};

/// A clock by which nobody sleeps, and that counts how often someone would have.
#[derive(Drop)]
struct Counting {
    count: Arc<AtomicU64, Global>,
}

impl Clone for Counting {
    ghost use Rattle.std.specs.Prelude.{⊤};

    ghost is_clone = { λ a b. ⊤ };

    ghost is_infallible = { λ a. ⊥ };

    fn clone(&self) -> Result<Counting, AllocError> {
        let count = Arc::try_clone(&self.count)?;
        Ok(Counting { count })
    }
}

impl Clock for Counting {
    fn monotonic(&self) -> io::Result<Duration> {
        Ok(Duration::ZERO)
    }

    fn since_1970(&self) -> io::Result<Duration> {
        Ok(Duration::ZERO)
    }

    fn sleep(&self, _duration: Duration) {
        self.count.fetch_add(1, Ordering::SeqCst);
    }
}

/// Gives a byte at each read, once somebody slept for so many times since the last.
#[derive(Drop)]
struct Slow {
    bytes: Vec<u8>,
    at: usize,
    sleeps: u64,
    count: Arc<AtomicU64, Global>,
}

impl Slow {
    fn wait(&self) {
        let begun = self.count.load(Ordering::SeqCst);
        for _ in 0..u64::MAX {
            if self.count.load(Ordering::SeqCst).saturating_sub(begun) >= self.sleeps {
                return;
            }
            thread::yield_now();
        }
    }
}

impl Source for Slow {
    ghost use Rattle.std.specs.Prelude.{⊤, None};

    ghost remaining = { λ source. None };

    ghost gives = { λ a bytes b. ⊤ };

    ghost fails = { λ a b. ⊤ };

    fn read_some(&mut self, piece: &mut [u8]) -> io::Result<usize> {
        self.wait();
        match (self.bytes.get(self.at), piece.first_mut()) {
            (Some(byte), Some(first)) => {
                *first = *byte;
                self.at = self.at.saturating_add(1);
                Ok(1)
            }
            _ => Ok(0),
        }
    }
}

/// What two nodes are asked.
const SAID: &[Said] = &[MAKES, OTHER_MAKES];

/// Whether a service of which a byte comes in at a time, and each after a while in which threads sleep, replies to all.
fn waits_for_bytes(rt: &impl Threads, alloc: Global) -> Option<bool> {
    let wanted = frames(alloc, SAID, true)?;
    let bytes = frames(alloc, SAID, false)?;
    let count = Arc::new(alloc, AtomicU64::new(0)).ok()?;
    let source = Slow {
        bytes,
        at: 0,
        sleeps: 20,
        count: Arc::try_clone(&count).ok()?,
    };
    let service = service_of(alloc, u64::MAX)?;
    let mut written = Vec::new(alloc);
    let served = serve_cluster(rt, alloc, Counting { count }, service, source, &mut written);
    let is_well = match served {
        Ok(served) => served.verdict.agree && served.verdict.replay && served.fault.is_none(),
        Err(_) => false,
    };
    Some(is_well && written == wanted)
}

#[test]
fn threads_sleep_at_rest(rt: HostRuntime) {
    let went = waits_for_bytes(&rt, rt.alloc()) == Some(true);
    holds_at(&rt, went, "a service whose bytes come late, of requests", 2);
}

/// Takes so many bytes, and then none.
#[derive(Drop)]
struct Gone {
    written: Vec<u8>,
    room: usize,
}

impl Write for Gone {
    fn write(&mut self, bytes: &[u8]) -> io::Result<usize> {
        let count = bytes.len().min(self.room);
        if count == 0 {
            return Err(io::Error::from(ErrorKind::BrokenPipe));
        }
        self.written.extend_from_slice(&bytes[..count])?;
        self.room -= count;
        Ok(count)
    }

    fn flush(&mut self) -> io::Result<()> {
        Ok(())
    }
}

/// Gives these bytes again and again, and never ends.
#[derive(Drop)]
struct Endless {
    bytes: Vec<u8>,
    at: usize,
}

impl Source for Endless {
    ghost use Rattle.std.specs.Prelude.{⊤, None};

    ghost remaining = { λ source. None };

    ghost gives = { λ a bytes b. ⊤ };

    ghost fails = { λ a b. ⊤ };

    fn read_some(&mut self, piece: &mut [u8]) -> io::Result<usize> {
        let rest = &self.bytes[self.at.min(self.bytes.len())..];
        let count = rest.len().min(piece.len());
        piece[..count].copy_from_slice(&rest[..count]);
        self.at = if self.at.saturating_add(count) < self.bytes.len() {
            self.at.saturating_add(count)
        } else {
            0
        };
        Ok(count)
    }
}

/// After how many bytes the reader of a service's replies has gone.
const ROOMS: &[usize] = &[0, 1, 4, 100];

/// Whether a service whose input does not end ends by a write fault, once its reader has gone, and wrote the first replies until then.
fn ends_by_its_reader(rt: &impl Threads, alloc: Global, room: usize) -> Option<bool> {
    let wanted = frames(alloc, CALLS, true)?;
    let source = Endless {
        bytes: frames(alloc, CALLS, false)?,
        at: 0,
    };
    let service = service_of(alloc, u64::MAX)?;
    let mut writer = AnyWriter {
        writer: Gone {
            written: Vec::new(alloc),
            room,
        },
    };
    let served = serve_cluster(rt, alloc, Sleepless, service, source, &mut writer);
    let is_fault = matches!(served, Err(ServiceFault::WriteFault));
    let written = writer.writer.written.as_slice();
    Some(is_fault && written.len() == room && wanted.starts_with(written))
}

#[test]
fn a_reader_has_gone(rt: HostRuntime) {
    for room in ROOMS {
        let went = ends_by_its_reader(&rt, rt.alloc(), *room) == Some(true);
        holds_at(
            &rt,
            went,
            "a service whose reader has gone after bytes",
            *room as u64,
        );
    }
}
