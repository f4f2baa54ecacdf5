//! The pen that writes a picture.

ghost use Rattle.std.specs.Prelude.{◌≡◌, true, false, IfSome, [], IfOk, string_bytes, is_ok};
ghost use Rattle.pg_script_diagram.specs.Pens.{Writes, written};

use crate::adding::add_char;
use crate::escape::{add_escaped, add_escaped_char};
use std::alloc::{AllocError, Global};
use std::fmt::Display;

/// Writes at the end of a text. That memory was short is kept, and given at the end.
#[derive(Drop)]
pub(crate) struct Pen {
    out: String,
    is_short: bool,
}

impl Pen {
    /// Nothing is written yet. It takes no memory.
    pub(crate) fn new(alloc: Global) -> Pen
        ensures none { written result ≡ [] }
        ensures enough { result.is_short ≡ false }
    {
        Pen {
            out: String::new(alloc),
            is_short: false,
        }
    }

    /// Appends a text as it is.
    pub(crate) fn add(&mut self, text: &str)
        ensures { Writes text.now self.old self.new }
    {
        let written = self.out.push_str(text);
        self.keep(written);
    }

    /// Appends what `write!` makes.
    pub(crate) fn write_fmt<D: Display + Drop>(&mut self, value: D)
        ensures { IfSome (D.output value) (λ text. Writes text self.old self.new) }
    {
        let written = self.out.write_fmt(value);
        self.keep(written);
    }

    /// Appends a character as it is.
    pub(crate) fn add_char(&mut self, character: char) {
        let written = add_char(&mut self.out, character);
        self.keep(written);
    }

    /// Appends a text so that XML reads it as this text.
    pub(crate) fn add_escaped(&mut self, text: &str) {
        let written = add_escaped(&mut self.out, text);
        self.keep(written);
    }

    /// Appends a character so that XML reads it as this character.
    pub(crate) fn add_escaped_char(&mut self, character: char) {
        let written = add_escaped_char(&mut self.out, character);
        self.keep(written);
    }

    /// Keeps that memory was short, where it was.
    fn keep(&mut self, written: Result<(), AllocError>)
        ensures out { self.new.out ≡ self.old.out }
        ensures kept { self.new.is_short ≡ false → self.old.is_short ≡ false }
        ensures made { self.new.is_short ≡ false → is_ok written ≡ true }
    {
        if written.is_err() {
            self.is_short = true;
        }
    }

    /// The text.
    ///
    /// Errors: where memory was short.
    pub(crate) fn finish(self) -> Result<String, AllocError>
        ensures text { IfOk result (λ text. string_bytes text ≡ written self) }
        ensures enough { IfOk result (λ text. self.is_short ≡ false) }
    {
        let Pen { out, is_short } = self;
        if is_short { Err(AllocError) } else { Ok(out) }
    }
}
