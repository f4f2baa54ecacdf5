//! What a test gives the program in the place of an input, an output, files, a log, threads and a clock.

use pg_cluster::StartFault;
use pg_program::{LogFile, System};
use pg_streams::Sink;
use pg_talk::{Conversation, Outcome, Served, Service, ServiceFault, Verdict};
use std::alloc::Global;
use std::io;
use std::io::{ErrorKind, Read, Write};

/// Gives so many signs `%`, and then its text, in pieces of so many bytes at most; a read behind that fails by the fault, if there is one.
#[derive(Drop)]
pub(crate) struct Input<'a> {
    signs: usize,
    pub(crate) text: &'a [u8],
    piece: usize,
    fault: Option<ErrorKind>,
}

impl<'a> Input<'a> {
    pub(crate) fn new(text: &'a [u8]) -> Input<'a> {
        Input {
            signs: 0,
            text,
            piece: usize::MAX,
            fault: None,
        }
    }
}

impl<'a> Read for Input<'a> {
    fn read(&mut self, buf: &mut [u8]) -> io::Result<usize> {
        if self.signs > 0 {
            let count = self.signs.min(buf.len()).min(self.piece);
            buf[..count].fill(b'%');
            self.signs -= count;
            return Ok(count);
        }
        if let (Some(fault), true) = (self.fault, self.text.is_empty()) {
            return Err(io::Error::from(fault));
        }
        let count = self.text.len().min(buf.len()).min(self.piece);
        let (piece, rest) = self.text.split_at(count);
        buf[..count].copy_from_slice(piece);
        self.text = rest;
        Ok(count)
    }
}

/// Holds what is written.
#[derive(Drop)]
pub(crate) struct Output {
    pub(crate) text: Vec<u8>,
    /// How many bytes it takes in a write.
    piece: usize,
    /// How many it holds at most.
    pub(crate) room: usize,
    /// A flush fails.
    is_stuck: bool,
}

impl Output {
    /// Takes all.
    pub(crate) fn new(alloc: Global) -> Output {
        Output {
            text: Vec::new(alloc),
            piece: usize::MAX,
            room: usize::MAX,
            is_stuck: false,
        }
    }
}

impl Write for Output {
    fn write(&mut self, buf: &[u8]) -> io::Result<usize> {
        let room = self.room.saturating_sub(self.text.len());
        let count = buf.len().min(self.piece).min(room);
        if count == 0 && !buf.is_empty() {
            return Err(io::Error::from(ErrorKind::BrokenPipe));
        }
        match self.text.extend_from_slice(&buf[..count]) {
            Ok(()) => Ok(count),
            Err(_) => Err(io::Error::from(ErrorKind::OutOfMemory)),
        }
    }

    fn flush(&mut self) -> io::Result<()> {
        if self.is_stuck {
            return Err(io::Error::from(ErrorKind::BrokenPipe));
        }
        Ok(())
    }
}

/// Holds one file, which can't be made where `is_full` is set, and two that tell of members; tells of a conversation that went so, if it
/// did, and of a service that went so.
#[derive(Drop)]
pub(crate) struct Desk {
    name: Vec<u8>,
    bytes: Vec<u8>,
    /// The name of a picture that there should be then.
    picture: &'static str,
    is_full: bool,
    alloc: Global,
    outcome: Option<Outcome>,
    served: Result<Served, ServiceFault>,
    microseconds: u64,
}

/// A service that went well.
pub(crate) const WELL: Served = Served {
    verdict: Verdict {
        agree: true,
        replay: true,
    },
    fault: None,
};

// Texts in the picture.
const SHOWN: &[&str] = &[
    ">&#39;a&lt;b&#39;</text>",
    ">1: create g</text>",
    ">1: ok</text>",
    ">lost</text>",
];

impl Desk {
    pub(crate) fn new(alloc: Global) -> Desk {
        Desk {
            name: Vec::new(alloc),
            bytes: Vec::new(alloc),
            picture: "",
            is_full: false,
            alloc,
            outcome: None,
            served: Ok(WELL),
            microseconds: 0,
        }
    }

    /// Whether there is a file if there should be one, and it shows what it should.
    pub(crate) fn is_drawn(&self) -> bool {
        let is_shown = match str::from_utf8(self.bytes.as_slice()) {
            Ok(drawn) => self.picture.is_empty()
                || SHOWN.iter().all(|shown| drawn.contains(*shown)),
            Err(_) => false,
        };
        is_shown && self.name.as_slice() == self.picture.as_bytes()
    }
}

impl System for Desk {
    fn put(&mut self, name: &str, bytes: &[u8]) -> io::Result<()> {
        if self.is_full || !self.name.is_empty() {
            return Err(io::Error::from(ErrorKind::PermissionDenied));
        }
        self.name.extend_from_slice(name.as_bytes())?;
        self.bytes.extend_from_slice(bytes)?;
        Ok(())
    }

    fn converse(&mut self, _asked: Conversation) -> Result<Outcome, StartFault> {
        match self.outcome {
            Some(outcome) => Ok(outcome),
            None => Err(StartFault::NoThread),
        }
    }

    fn look(&mut self, _explored: u64, _limit: u64) {}

    fn look_away(&mut self) {}

    fn get(&mut self, name: &str) -> io::Result<Vec<u8>> {
        let text: &[u8] = match name {
            "members" => b"[{n1,1,[{g,[<n1.1.0>]}]}]\n",
            "none" => b"[{n1,1",
            "bytes" => b"\xff",
            _ => return Err(io::Error::from(ErrorKind::NotFound)),
        };
        Ok(text.to_vec(self.alloc)?)
    }

    fn serve<W: Sink>(
        &mut self,
        service: Service,
        _writer: &mut W,
    ) -> Result<Served, ServiceFault> {
        drop(service);
        self.served
    }

    fn microseconds(&mut self) -> u64 {
        self.microseconds = self.microseconds.saturating_add(41);
        self.microseconds
    }
}

/// Holds what is logged, once it was made; it can't be made where `is_full` is set.
#[derive(Drop)]
pub(crate) struct Log {
    alloc: Global,
    file: Option<(String, Vec<u8>)>,
    is_full: bool,
    /// The name of the file that there should be then, and what it should hold.
    wanted: Option<(&'static str, &'static [u8])>,
}

impl Log {
    pub(crate) fn new(alloc: Global) -> Log {
        Log {
            alloc,
            file: None,
            is_full: false,
            wanted: None,
        }
    }

    /// Whether there is a file if there should be one, and it holds what it should.
    pub(crate) fn is_kept(&self) -> bool {
        match (&self.file, self.wanted) {
            (Some((name, text)), Some((wanted, bytes))) => {
                name.as_str() == wanted && text.as_slice() == bytes
            }
            (None, None) => true,
            _ => false,
        }
    }
}

impl Sink for Log {
    ghost use Rattle.std.specs.Prelude.{⊤, None};

    ghost contents = { λ log. None };

    ghost fails = { λ a b. ⊤ };

    ghost flushed = { λ log. ⊤ };

    fn write_some(&mut self, bytes: &[u8]) -> io::Result<usize> {
        match &mut self.file {
            Some((_, text)) => match text.extend_from_slice(bytes) {
                Ok(()) => Ok(bytes.len()),
                Err(_) => Err(io::Error::from(ErrorKind::OutOfMemory)),
            },
            None => Ok(bytes.len()),
        }
    }

    fn flush_all(&mut self) -> io::Result<()> {
        Ok(())
    }
}

impl LogFile for Log {
    fn create(&mut self, name: &str) -> io::Result<()> {
        if self.is_full || self.file.is_some() {
            return Err(io::Error::from(ErrorKind::AlreadyExists));
        }
        let name = String::from_str(self.alloc, name)?;
        drop(self.file.replace((name, Vec::new(self.alloc))));
        Ok(())
    }
}

/// What else is so in a run.
#[derive(Clone, Copy)]
pub(crate) enum With {
    /// So many signs come in before the text.
    Signs(usize),
    /// A read gives so many bytes at most.
    Pieces(usize),
    /// A read behind the text fails.
    Fails(ErrorKind),
    /// A write takes five bytes at most, and all of them so many.
    Room(usize),
    /// A flush fails.
    Stuck,
    /// No file can be made, and no log.
    Full,
    /// A file of this name is made, which has a picture.
    Draws(&'static str),
    /// A log of this name is made, which holds this.
    Logs(&'static str, &'static [u8]),
    /// A conversation goes so.
    Talks(Outcome),
    /// A service goes so.
    Serves(Result<Served, ServiceFault>),
}

impl With {
    pub(crate) fn set(
        self,
        input: &mut Input<'_>,
        output: &mut Output,
        desk: &mut Desk,
        log: &mut Log,
    ) {
        match self {
            With::Signs(count) => input.signs = count,
            With::Pieces(piece) => input.piece = piece,
            With::Fails(fault) => input.fault = Some(fault),
            With::Room(room) => {
                output.piece = 5;
                output.room = room;
            }
            With::Stuck => output.is_stuck = true,
            With::Full => {
                desk.is_full = true;
                log.is_full = true;
            }
            With::Logs(name, bytes) => log.wanted = Some((name, bytes)),
            With::Draws(name) => desk.picture = name,
            With::Talks(outcome) => desk.outcome = Some(outcome),
            With::Serves(served) => desk.served = served,
        }
    }
}
