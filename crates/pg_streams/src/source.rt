//! Where a server reads its input.

ghost use Rattle.std.specs.Prelude.{◌≡◌, ◌++◌, ⊤, Option, List, ℕ, Some, IfOk, OnErr, take};
ghost use Rattle.std.specs.Io.{ReadsAtMost};
ghost use Rattle.std.specs.Io.KnownBytes.{ReadConsumes, Consumes, Keeps};

use std::io;
use std::io::Read;

/// A reader that says where it failed: where bytes come from.
pub trait Source {
    /// The bytes that reads will give from here on, where they are known.
    ghost remaining: { Self → Option (List ℕ) };

    /// `gives a bytes b`: a read of `a` gave these bytes and left `b`.
    ghost gives: { Self → List ℕ → Self → Type 0 };

    /// `fails a b`: a read of `a` failed and left `b`.
    ghost fails: { Self → Self → Type 0 };

    /// Fills the first places of `piece` with the next bytes, and returns how many: none only at the end of the input
    /// or where there is no place. It may wait.
    ///
    /// Errors: any, where the read fails.
    fn read_some(&mut self, piece: &mut [u8]) -> io::Result<usize>
        ensures bound { ReadsAtMost result piece.new }
        ensures bytes { ReadConsumes (remaining self.old) (remaining self.new) result piece.new }
        ensures ok { IfOk result (λ count. gives self.old (take count piece.new) self.new) }
        ensures err { OnErr result (fails self.old self.new) };
}

/// Any reader as a source. What its reads gave is no longer left of it, and a read that fails leaves it all; no clause says when one fails.
#[derive(Drop)]
pub struct AnyReader<R> {
    /// What is read.
    pub reader: R,
}

impl<R: Read> Source for AnyReader<R> {
    ghost remaining = { λ source. R.remaining source.reader };

    ghost gives = { λ a bytes b. Consumes (R.remaining a.reader) (R.remaining b.reader) bytes };

    ghost fails = { λ a b. Keeps (R.remaining a.reader) (R.remaining b.reader) };

    fn read_some(&mut self, piece: &mut [u8]) -> io::Result<usize> {
        self.reader.read(piece)
    }
}

/// Bytes in memory: a read never fails.
impl Source for &[u8] {
    ghost remaining = { λ source. Some source.now };

    ghost gives = { λ a bytes b. a.now ≡ bytes ++ b.now };

    ghost fails = { λ a b. ⊥ };

    fn read_some(&mut self, piece: &mut [u8]) -> io::Result<usize> {
        self.read(piece)
    }
}
