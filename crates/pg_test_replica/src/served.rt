//! Runs of the replica, and the readers and writers that they go over.

use pg_node::serve;
use pg_streams::{AnyReader, AnyWriter, Sink, Source};
use pg_term::Atom;
use std::alloc::{AllocError, Global};
use std::io;
use std::io::{ErrorKind, Read, Write};
use std::process::Abort;

/// Ends the test where something does not hold, and says what, and at which number.
pub fn holds_at(rt: &impl Abort, holds: bool, what: &str, at: usize) {
    assert!(rt; holds, "{what} {at}");
}

/// Serves as the node `own` with the peer `peer`; the number of the fault, 0 where there is none, and 10 where there is no memory for the
/// names.
pub fn served<R: Source, W: Sink>(
    alloc: Global,
    own: &str,
    peer: &str,
    reader: &mut R,
    writer: &mut W,
) -> u8 {
    let (Ok(own), Ok(peer)) = (Atom::new(alloc, own), Atom::new(alloc, peer)) else {
        return 10;
    };
    let served = serve(alloc, &own, &peer, reader, writer);
    drop(own);
    drop(peer);
    match served {
        Ok(()) => 0,
        Err(fault) => fault.number(),
    }
}

/// These parts, one after the other.
pub fn joined(alloc: Global, parts: &[&[u8]]) -> Result<Vec<u8>, AllocError> {
    let mut bytes = Vec::new(alloc);
    for part in parts {
        bytes.extend_from_slice(part)?;
    }
    Ok(bytes)
}

/// Gives its text in a piece of `first` bytes and then in pieces of `next`, and fails once it has made so many reads.
#[derive(Drop)]
pub struct Pieces<'a> {
    pub text: &'a [u8],
    pub first: usize,
    pub next: usize,
    pub reads_left: usize,
}

/// A reader of this text in pieces.
pub fn cut_text(
    text: &[u8],
    first: usize,
    next: usize,
    reads_left: usize,
) -> AnyReader<Pieces<'_>> {
    let reader = Pieces {
        text,
        first,
        next,
        reads_left,
    };
    AnyReader { reader }
}

impl<'a> Read for Pieces<'a> {
    fn read(&mut self, buf: &mut [u8]) -> io::Result<usize> {
        if self.reads_left == 0 {
            return Err(io::Error::from(ErrorKind::BrokenPipe));
        }
        self.reads_left -= 1;
        let count = self.text.len().min(buf.len()).min(self.first);
        let (piece, rest) = self.text.split_at(count);
        buf[..count].copy_from_slice(piece);
        self.text = rest;
        self.first = self.next;
        Ok(count)
    }
}

/// Takes 5 bytes a write, and fails once it was called so often. What was flushed is counted.
#[derive(Drop)]
pub struct Sheet {
    pub held: Vec<u8>,
    pub flushed: usize,
    pub calls_left: usize,
}

impl Sheet {
    /// A sheet on which nothing is written yet.
    pub fn writer(alloc: Global, calls_left: usize) -> AnyWriter<Sheet> {
        let writer = Sheet {
            held: Vec::new(alloc),
            flushed: 0,
            calls_left,
        };
        AnyWriter { writer }
    }
}

impl Write for Sheet {
    fn write(&mut self, buf: &[u8]) -> io::Result<usize> {
        if self.calls_left == 0 {
            return Err(io::Error::from(ErrorKind::BrokenPipe));
        }
        self.calls_left -= 1;
        let count = buf.len().min(5);
        match self.held.extend_from_slice(&buf[..count]) {
            Ok(()) => Ok(count),
            Err(_) => Err(io::Error::from(ErrorKind::OutOfMemory)),
        }
    }

    fn flush(&mut self) -> io::Result<()> {
        if self.calls_left == 0 {
            return Err(io::Error::from(ErrorKind::BrokenPipe));
        }
        self.calls_left -= 1;
        self.flushed = self.held.len();
        Ok(())
    }
}
