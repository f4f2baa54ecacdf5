//! The system that the program runs on.

ghost use Rattle.std.specs.Prelude.{Result};
ghost use Rattle.pg_talk.specs.declared.conversation.Conversation.{Conversation};
ghost use Rattle.pg_talk.specs.declared.conversation.Outcome.{Outcome};
ghost use Rattle.pg_cluster.specs.declared.fault.StartFault.{StartFault};

use pg_cluster::{StartFault, WorldFault};
use pg_program::{LogFile, System};
use pg_progress::Progress;
use pg_streams::{AnyReader, Sink};
use pg_talk::{
    Conversation, Onlooker, Outcome, Served, Service, ServiceFault, run_threads, serve_cluster,
};
use std::alloc::{AllocError, Global};
use std::fs::{File, OpenOptions};
use std::io::{ErrorKind, Write};
use std::thread::Threads;
use std::time::{Clock, Instant};
use std::{fs, io};

/// The system that runs the program: a conversation that it tells of took place, and a service that it tells of was served. While a
/// conversation goes on, or an exploration, its progress is shown on the terminal. No clause says when a file can't be made or read.
#[derive(Drop)]
pub(crate) struct HostSystem<'a, R, T> {
    pub(crate) alloc: Global,
    pub(crate) rt: &'a HostRuntime,
    pub(crate) threads: &'a R,
    pub(crate) begun: Instant,
    pub(crate) progress: Shown<T, &'a HostRuntime>,
    pub(crate) exploring: Progress<T, &'a HostRuntime>,
    /// Why a file could not be made or read, where one could not.
    pub(crate) missed: Option<&'static str>,
}

/// Why a file could not be made or read; `absent` where something of its name is not there.
fn reason(error: &io::Error, absent: &'static str) -> &'static str {
    match error.kind() {
        ErrorKind::NotFound => absent,
        ErrorKind::PermissionDenied => "permission denied",
        ErrorKind::IsADirectory => "it is a folder",
        ErrorKind::NotADirectory => "a part of its path is no folder",
        _ => "the system refuses it",
    }
}

/// The log of a node: a file, once it was made. Without one all that is written is let go.
#[derive(Drop)]
pub(crate) struct HostLog<'a> {
    pub(crate) rt: &'a HostRuntime,
    pub(crate) file: Option<File>,
    /// Why the file could not be made, where it could not.
    pub(crate) missed: Option<&'static str>,
}

/// No clause says what a file holds.
impl Sink for HostLog<'_> {
    ghost use Rattle.std.specs.Prelude.{⊤, None};

    ghost contents = { λ log. None };

    ghost fails = { λ a b. ⊤ };

    ghost flushed = { λ log. ⊤ };

    fn write_some(&mut self, bytes: &[u8]) -> io::Result<usize> {
        match &mut self.file {
            Some(file) => match file.write(bytes) {
                Ok(0) if !bytes.is_empty() => Err(io::Error::from(ErrorKind::WriteZero)),
                written => written,
            },
            None => Ok(bytes.len()),
        }
    }

    fn flush_all(&mut self) -> io::Result<()> {
        match &mut self.file {
            Some(file) => file.flush(),
            None => Ok(()),
        }
    }
}

impl LogFile for HostLog<'_> {
    ghost use Rattle.std.specs.Prelude.{◌≡◌, true, is_some};

    ghost made = { λ a name b. is_some b.file ≡ true };

    ghost unmade = { λ a b. b.file ≡ a.file };

    fn create(&mut self, name: &str) -> io::Result<()> {
        match OpenOptions::new()
            .write(true)
            .create_new(true)
            .open(self.rt, name)
        {
            Ok(file) => {
                drop(self.file.replace(file));
                Ok(())
            }
            Err(error) => {
                self.missed = Some(unmade_for(&error));
                Err(error)
            }
        }
    }
}

/// Why a new file could not be made.
fn unmade_for(error: &io::Error) -> &'static str {
    match error.kind() {
        ErrorKind::AlreadyExists => "it is there already, and a new one is made",
        _ => reason(error, "no such folder"),
    }
}

/// A conversation's progress, on a terminal.
#[derive(Drop)]
pub(crate) struct Shown<T, C>(pub(crate) Progress<T, C>);

impl<T: Write, C: Clock> Onlooker for Shown<T, C> {
    fn look(&mut self, answered: u64, asked: u64) {
        self.0.look(answered, asked);
    }
}

impl<R: Threads, T: Write> System for HostSystem<'_, R, T> {
    ghost use Rattle.std.specs.Prelude.{IfOk};
    ghost use Rattle.pg_talk.specs.Conversations.{TookPlace};
    ghost use Rattle.pg2sim.specs.Services.{IsServed};

    ghost went = { λ a asked told b. IfOk told (TookPlace asked) };

    ghost served = { λ a service before after told b. IfOk told (IsServed service before after) };

    fn put(&mut self, name: &str, bytes: &[u8]) -> io::Result<()> {
        let done = fs::write(self.rt, name, bytes);
        if let Err(error) = &done {
            self.missed = Some(reason(error, "no such folder"));
        }
        done
    }

    fn converse(&mut self, asked: Conversation) -> Result<Outcome, StartFault> {
        let clock: Result<HostRuntime, AllocError> = self.rt.clone();
        let Ok(clock) = clock else {
            return Err(StartFault::World(WorldFault::OutOfMemory));
        };
        let told = run_threads(self.threads, self.alloc, clock, asked, &mut self.progress);
        self.progress.0.end();
        told
    }

    fn get(&mut self, name: &str) -> io::Result<Vec<u8>> {
        let bytes = fs::read(self.rt, name);
        if let Err(error) = &bytes {
            self.missed = Some(reason(error, "no such file"));
        }
        bytes
    }

    fn serve<W: Sink>(&mut self, service: Service, writer: &mut W) -> Result<Served, ServiceFault> {
        let source = AnyReader {
            reader: self.rt.stdin(),
        };
        let clock: Result<HostRuntime, AllocError> = self.rt.clone();
        match clock {
            Ok(clock) => serve_cluster(self.threads, self.alloc, clock, service, source, writer),
            Err(_) => Err(ServiceFault::OutOfMemory),
        }
    }

    fn look(&mut self, explored: u64, limit: u64) {
        self.exploring.look(explored, limit);
    }

    fn look_away(&mut self) {
        self.exploring.end();
    }

    fn microseconds(&mut self) -> u64 {
        match self.begun.elapsed(self.rt) {
            Ok(time) => u64::try_from(time.as_micros()).unwrap_or(u64::MAX),
            Err(_) => 0,
        }
    }
}
