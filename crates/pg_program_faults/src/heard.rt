//! What is read and written, kept for a second look at it.

ghost use Rattle.std.specs.Prelude.{◌≡◌, ◌⊎◌, ◌++◌, IsFalse, [], string_bytes};
ghost use Rattle.std.specs.Io.{WritesAtMost};
ghost use Rattle.std.specs.Io.KnownBytes.{Keeps, WriteAppends};
ghost use Rattle.pg_program_faults.specs.Heard.{held_by, left_by};

use std::alloc::Global;
use std::io;
use std::io::{Read, Write};

/// How many bytes of a line are kept.
const MAX_LINE: usize = 64;

/// A reader. What it gave is kept, where that is wanted, as far as there is memory.
#[derive(Drop)]
pub struct Kept<R> {
    pub reader: R,
    /// What it gave.
    pub bytes: Vec<u8>,
    /// Whether that is wanted.
    pub keeps: bool,
}

/// What its reader has left is left.
impl<R: Read> Read for Kept<R> {
    ghost remaining = { left_by R.remaining };

    fn read(&mut self, buf: &mut [u8]) -> io::Result<usize> {
        let count = self.reader.read(buf)?;
        keep(&mut self.bytes, self.keeps, &buf[..count]);
        Ok(count)
    }
}

/// Appends bytes, where they are wanted and there is memory.
fn keep(kept: &mut Vec<u8>, keeps: bool, bytes: &[u8])
    ensures wanted { (kept.new.items ≡ kept.old.items ++ bytes.now) ⊎ (kept.new.items ≡ kept.old.items) }
    ensures unwanted { IsFalse keeps → kept.new ≡ kept.old }
{
    if keeps {
        let _ = kept.extend_from_slice(bytes);
    }
}

/// Standard error, or standard output in its place. The last line is kept.
#[derive(Drop)]
pub struct Heard<O, E> {
    output: O,
    error: E,
    is_output: bool,
    last: LastLine,
}

/// The last line that was written.
#[derive(Drop)]
struct LastLine {
    /// Without its line feed; its first 64 characters.
    text: String,
    /// Its line feed was written.
    is_over: bool,
}

impl LastLine {
    fn hear_all(&mut self, bytes: &[u8]) {
        for byte in bytes {
            self.hear(*byte);
        }
    }

    fn hear(&mut self, byte: u8) {
        if byte == b'\n' {
            self.is_over = true;
            return;
        }
        if self.is_over {
            self.text.clear();
            self.is_over = false;
        }
        if self.text.len() < MAX_LINE {
            let _ = self.text.push(char::from(byte));
        }
    }
}

impl<O, E> Heard<O, E> {
    /// Nothing was written yet. By `is_output` standard output takes the place of standard error.
    ///
    /// Cost: no memory.
    pub fn new(alloc: Global, output: O, error: E, is_output: bool) -> Heard<O, E>
        ensures output { result.output ≡ output }
        ensures error { result.error ≡ error }
        ensures place { result.is_output ≡ is_output }
        ensures line { string_bytes result.last.text ≡ [] }
    {
        Heard {
            output,
            error,
            is_output,
            last: LastLine {
                text: String::new(alloc),
                is_over: false,
            },
        }
    }

    /// The last line, without its line feed; its first 64 characters.
    ///
    /// Cost: no memory.
    pub fn line(&self) -> &str
        ensures { result.now ≡ string_bytes self.now.last.text }
    {
        self.last.text.as_str()
    }
}

impl<O: Write, E: Write> Heard<O, E> {
    /// Writes to the one of both that all goes to.
    fn pass(&mut self, buf: &[u8]) -> io::Result<usize>
        ensures bound { WritesAtMost result buf.now }
        ensures bytes { WriteAppends (held_by O.contents E.contents self.old) (held_by O.contents E.contents self.new) result buf.now }
    {
        if self.is_output {
            self.output.write(buf)
        } else {
            self.error.write(buf)
        }
    }
}

/// What the one of both holds is held that all goes to.
impl<O: Write, E: Write> Write for Heard<O, E> {
    ghost contents = { held_by O.contents E.contents };

    fn write(&mut self, buf: &[u8]) -> io::Result<usize> {
        let count = self.pass(buf)?;
        self.last.hear_all(&buf[..count]);
        Ok(count)
    }

    fn flush(&mut self) -> io::Result<()> {
        if self.is_output {
            self.output.flush()
        } else {
            self.error.flush()
        }
    }
}
