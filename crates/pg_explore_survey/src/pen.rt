//! The pen that writes texts.

use pg_script::{Reply, print_reply, write_atom, write_term};
use pg_term::{Atom, Term};
use std::alloc::{AllocError, Global};
use std::fmt::Display;

/// Writes at the end of a text. That memory was short is kept, and told at the end.
#[derive(Drop)]
pub(crate) struct Pen {
    out: String,
    is_short: bool,
}

impl Pen {
    ghost use Rattle.std.specs.Prelude.{◌≡◌, false, true, [], IfOk, IfSome, encode_utf8_all};
    ghost use Rattle.std.specs.Prelude.{is_ok, nat_eq, length, string_bytes};
    ghost use Rattle.pg_script.specs.PgText.Writing.{atom_text, term_text};
    ghost use Rattle.pg_script.specs.PgScriptLines.Printing.{reply_text};
    ghost use Rattle.pg_explore_survey.specs.Texts.{Writes, written};

    /// Nothing is written yet.
    ///
    /// Cost: no memory.
    pub(crate) fn new(alloc: Global) -> Pen
        ensures none { written result ≡ [] }
        ensures enough { result.is_short ≡ false }
    {
        Pen {
            out: String::new(alloc),
            is_short: false,
        }
    }

    pub(crate) fn is_empty(&self) -> bool
        ensures { result ≡ nat_eq (length (written self.now)) 0 }
    {
        self.out.is_empty()
    }

    /// Appends a text.
    pub(crate) fn add(&mut self, text: &str)
        ensures { Writes text.now self.old self.new }
    {
        let written = self.out.push_str(text);
        self.keep(written);
    }

    /// Appends what `write!` makes.
    pub(crate) fn write_fmt<D: Display + Drop>(&mut self, value: D)
        ensures { IfSome (D.output value) (λ text. Writes text self.old self.new) }
    {
        let written = self.out.write_fmt(value);
        self.keep(written);
    }

    /// Appends the text of a term.
    pub(crate) fn add_term(&mut self, term: &Term)
        ensures { Writes (encode_utf8_all (term_text term.now)) self.old self.new }
    {
        let written = write_term(term, &mut self.out);
        self.keep(written);
    }

    /// Appends the text of an atom.
    pub(crate) fn add_atom(&mut self, atom: &Atom)
        ensures { Writes (encode_utf8_all (atom_text atom.now)) self.old self.new }
    {
        let written = write_atom(atom, &mut self.out);
        self.keep(written);
    }

    /// Appends the text of a reply.
    pub(crate) fn add_reply(&mut self, reply: &Reply)
        ensures { Writes (encode_utf8_all (reply_text reply.now)) self.old self.new }
    {
        let written = print_reply(&mut self.out, reply);
        self.keep(written);
    }

    /// Keeps that memory was short, where it was.
    fn keep(&mut self, written: Result<(), AllocError>)
        ensures out { self.new.out ≡ self.old.out }
        ensures kept { self.new.is_short ≡ false → self.old.is_short ≡ false }
        ensures made { self.new.is_short ≡ false → is_ok written ≡ true }
    {
        if written.is_err() {
            self.is_short = true;
        }
    }

    /// The text.
    ///
    /// Errors: where memory was short.
    pub(crate) fn finish(self) -> Result<String, AllocError>
        ensures text { IfOk result (λ text. string_bytes text ≡ written self) }
        ensures enough { IfOk result (λ text. self.is_short ≡ false) }
    {
        let Pen { out, is_short } = self;
        if is_short { Err(AllocError) } else { Ok(out) }
    }
}
