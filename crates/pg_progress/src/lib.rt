//! A line on a terminal that shows how far some work is: `Progress`.
#![tactic(auto)]

ghost use Rattle.std.specs.Prelude.{◌≡◌, ◌≤◌, ◌-◌, ◌/◌, ◌↔◌, ⊤, IsTrue, IsFalse, MatchOption, None, OnOk};
ghost use Rattle.std.specs.Io.KnownBytes.{Appends};
ghost use Rattle.std.specs.Time.{instant_nanos};
ghost use Rattle.pg_progress.specs.Lines.{progress_line, wiped_line};

use std::io;
use std::io::{IsTerminal, Write};
use std::time::{Clock, Instant};

/// How many looks go by at most before the clock is read again.
const MOST_PASSED: u32 = 4_096;

/// How many milliseconds looks may take that go by with no reading of the clock: where they took longer, fewer go by.
const BETWEEN_READINGS: u128 = 125;

/// How many milliseconds a line stands before it is written anew.
const BETWEEN_LINES: u128 = 1_000;

/// A line `WORD X of Y` that shows how far some work is, where there is a terminal. It is written anew over itself about once a second.
#[derive(Drop)]
pub struct Progress<T, C> {
    /// Where it is shown.
    pub terminal: T,
    clock: C,
    // What was done of so many.
    word: &'static str,
    is_terminal: bool,
    // When the line was written last; `None`: no line stands.
    written: Option<Instant>,
    // When the clock was read last.
    read: Option<Instant>,
    // How many looks go by between readings of the clock, and how many of them are left.
    passed: u32,
    left: u32,
    ghost shown: { IsFalse is_terminal → written ≡ None },
}

impl<T: Write + IsTerminal, C: Clock> Progress<T, C> {
    /// No line stands yet. `word`: what the line says was done of so many.
    ///
    /// Cost: no memory; the terminal is asked once whether it is one.
    pub fn new(terminal: T, clock: C, word: &'static str) -> Progress<T, C>
        ensures terminal { result.terminal ≡ terminal }
        ensures none { result.written ≡ None }
    {
        let is_terminal = terminal.is_terminal();
        Progress {
            terminal,
            clock,
            word,
            is_terminal,
            written: None,
            read: None,
            passed: 1,
            left: 0,
        }
    }
}

impl<T: Write, C: Clock> Progress<T, C> {
    /// Wipes the line, if one stands; a write that fails changes nothing else.
    ///
    /// Cost: no memory; one write and one flush where a line stands.
    pub fn end(&mut self)
        ensures wiped { self.new.written ≡ None }
        ensures elsewhere { IsFalse self.old.is_terminal → self.new.terminal ≡ self.old.terminal }
    {
        if self.written.take().is_some() {
            let _ = wipe(&mut self.terminal);
        }
        self.left = 0;
    }

    /// Shows that so many are done of so many, if it is time to write the line anew. A write that fails changes
    /// nothing else.
    ///
    /// Cost: no memory, and reads the clock only now and then: once in 4,097 looks, and more often only where these
    /// would take longer than an eighth of a second.
    pub fn look(&mut self, done: u64, all: u64)
        ensures elsewhere { IsFalse self.old.is_terminal → self.new ≡ self.old }
    {
        if !self.is_terminal {
            return;
        }
        if self.left > 0 {
            self.left -= 1;
            return;
        }
        self.show(done, all);
    }

    /// Reads the clock, and writes the line anew if it is time to; a write that fails changes nothing else.
    fn show(&mut self, done: u64, all: u64)
        requires { IsTrue self.old.is_terminal }
    {
        let Ok(now) = Instant::now(&self.clock) else {
            self.left = MOST_PASSED;
            return;
        };
        self.pass(now);
        if has_gone_by(self.written, now, BETWEEN_LINES) {
            self.written = Some(now);
            let _ = write_line(&mut self.terminal, self.word, done, all);
        }
    }

    /// Lets further looks go by: fewer where the last ones took too long, else more.
    fn pass(&mut self, now: Instant)
        ensures few { self.new.left ≤ 4_096 }
        ensures terminal { self.new.terminal ≡ self.old.terminal }
        ensures is_terminal { self.new.is_terminal ≡ self.old.is_terminal }
        ensures word { self.new.word.now ≡ self.old.word.now }
        ensures written { self.new.written ≡ self.old.written }
    {
        let passed = if has_gone_by(self.read, now, BETWEEN_READINGS) {
            self.passed / 2
        } else {
            self.passed.saturating_mul(2)
        };
        self.passed = passed.max(1).min(MOST_PASSED);
        self.left = self.passed;
        self.read = Some(now);
    }
}

/// Whether so many milliseconds went by since some time, or there was none.
fn has_gone_by(since: Option<Instant>, now: Instant, milliseconds: u128) -> bool
    ensures { IsTrue result ↔ MatchOption since ⊤ (λ since. milliseconds ≤ (instant_nanos now - instant_nanos since) / 1_000_000) }
{
    match since {
        Some(since) => now.duration_since(since).as_millis() >= milliseconds,
        None => true,
    }
}

/// Writes how far the work is, over the line that stands.
///
/// Errors: that of the writer.
fn write_line<W: Write>(out: &mut W, word: &str, done: u64, all: u64) -> io::Result<()>
    ensures { OnOk result (Appends (W.contents out.old) (W.contents out.new) (progress_line word.now done all)) }
{
    write!(out, "\r{word} {done} of {all}")?;
    out.flush()
}

/// Wipes the line that stands.
///
/// Errors: that of the writer.
fn wipe<W: Write>(out: &mut W) -> io::Result<()>
    ensures { OnOk result (Appends (W.contents out.old) (W.contents out.new) wiped_line) }
{
    write!(out, "\r\x1b[K")?;
    out.flush()
}
