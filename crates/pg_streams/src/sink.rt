//! Where a server writes its output.

ghost use Rattle.std.specs.Prelude.{◌≡◌, ◌<◌, ⊤, Option, Some, List, ℕ, length};
ghost use Rattle.std.specs.Prelude.{IfOk, OnOk, OnErr, vec_len, vec_capacity};
ghost use Rattle.std.specs.Io.{WritesAtMost};
ghost use Rattle.std.specs.Io.KnownBytes.{WriteAppends, Keeps};

use std::io;
use std::io::{ErrorKind, Write};

/// A writer that says where it failed and what was flushed: where bytes go.
pub trait Sink {
    /// The bytes that it holds, where they are known.
    ghost contents: { Self → Option (List ℕ) };

    /// `fails a b`: a write to `a` failed or took none of some bytes, or a flush of `a` failed, and left `b`.
    ghost fails: { Self → Self → Type 0 };

    /// All that was written was flushed.
    ghost flushed: { Self → Type 0 };

    /// Appends the first of the bytes to what was written, and returns how many: none only where there are none. It
    /// may wait.
    ///
    /// Errors: any, where the write fails or takes none of some bytes.
    fn write_some(&mut self, bytes: &[u8]) -> io::Result<usize>
        ensures bound { WritesAtMost result bytes.now }
        ensures some { IfOk result (λ count. 0 < length bytes.now → 0 < count) }
        ensures bytes { WriteAppends (contents self.old) (contents self.new) result bytes.now }
        ensures err { OnErr result (fails self.old self.new) };

    /// Passes on all that was written. It may wait.
    ///
    /// Errors: any, where the flush fails.
    fn flush_all(&mut self) -> io::Result<()>
        ensures bytes { Keeps (contents self.old) (contents self.new) }
        ensures ok { OnOk result (flushed self.new) }
        ensures err { OnErr result (fails self.old self.new) };
}

/// Any writer as a sink. A write or a flush that fails leaves the bytes that it holds; no clause says when one fails, nor what a flush does.
#[derive(Drop)]
pub struct AnyWriter<W> {
    /// What is written to.
    pub writer: W,
}

impl<W: Write> Sink for AnyWriter<W> {
    ghost contents = { λ sink. W.contents sink.writer };

    ghost fails = { λ a b. Keeps (W.contents a.writer) (W.contents b.writer) };

    ghost flushed = { λ sink. ⊤ };

    fn write_some(&mut self, bytes: &[u8]) -> io::Result<usize> {
        match self.writer.write(bytes) {
            Ok(0) if !bytes.is_empty() => Err(io::Error::from(ErrorKind::WriteZero)),
            written => written,
        }
    }

    fn flush_all(&mut self) -> io::Result<()> {
        self.writer.flush()
    }
}

/// Bytes in memory: a write fails only where the buffer is full and can't grow, and changes no byte then. A flush never fails.
impl Sink for Vec<u8> {
    ghost contents = { λ sink. Some sink.items };

    ghost fails = { λ a b. (b.items ≡ a.items) × (vec_len b ≡ vec_capacity b) };

    ghost flushed = { λ sink. ⊤ };

    fn write_some(&mut self, bytes: &[u8]) -> io::Result<usize> {
        let is_short = self.reserve(bytes.len()).is_err();
        let room = self.capacity() - self.len();
        if is_short && room == 0 {
            return Err(io::Error::from(ErrorKind::OutOfMemory));
        }
        let count = bytes.len().min(room);
        self.extend_from_slice(&bytes[..count]).unwrap();
        Ok(count)
    }

    fn flush_all(&mut self) -> io::Result<()> {
        Ok(())
    }
}
