//! When the line is written, and that it is wiped.

use pg_progress::Progress;
use std::alloc::Global;
use std::cell::Cell;
use std::io;
use std::io::{ErrorKind, IsTerminal, Write};
use std::process::Abort;
use std::test::*;
use std::time::{Clock, Duration};

// Holds what is written, and may be a terminal.
#[derive(Drop)]
struct Screen {
    text: Vec<u8>,
    is_terminal: bool,
}

impl Write for Screen {
    fn write(&mut self, buf: &[u8]) -> io::Result<usize> {
        match self.text.extend_from_slice(buf) {
            Ok(()) => Ok(buf.len()),
            Err(_) => Err(io::Error::from(ErrorKind::OutOfMemory)),
        }
    }

    fn flush(&mut self) -> io::Result<()> {
        Ok(())
    }
}

impl IsTerminal for Screen {
    fn is_terminal(&self) -> bool {
        self.is_terminal
    }
}

// Stands where it is put.
#[derive(Drop)]
struct Hand {
    milliseconds: Cell<u64>,
}

impl Clock for Hand {
    fn monotonic(&self) -> io::Result<Duration> {
        Ok(Duration::from_millis(self.milliseconds.get()))
    }

    fn since_1970(&self) -> io::Result<Duration> {
        self.monotonic()
    }
}

// Ends the test where something does not hold, and says what, and in which row.
fn holds(rt: &impl Abort, holds: bool, what: &str, row: usize) {
    assert!(rt; holds, "{what} {row}");
}

// When many looks tell so many answered commands, and what they write.
const LOOKS: &[(u64, u64, &[u8])] = &[
    (0, 0, b"\ranswered 0 of 12"),
    (999, 3, b""),
    (1_000, 8, b"\ranswered 8 of 12"),
    (1_999, 9, b""),
    (3_500, 10, b"\ranswered 10 of 12"),
];

// What was written since it had so many bytes.
fn shows_since(screen: &Screen, len: usize, text: &[u8]) -> bool {
    match screen.text.as_slice().get(len..) {
        Some(written) => written == text,
        None => false,
    }
}

// Whether many looks write this.
fn looks(progress: &mut Progress<Screen, &Hand>, answered: u64, line: &[u8]) -> bool {
    let len = progress.terminal.text.len();
    for _ in 0..10_000 {
        progress.look(answered, 12);
    }
    shows_since(&progress.terminal, len, line)
}

// Whether an end writes this, and another nothing more.
fn ends(progress: &mut Progress<Screen, &Hand>, line: &[u8]) -> bool {
    let len = progress.terminal.text.len();
    for _ in 0..2 {
        progress.end();
    }
    shows_since(&progress.terminal, len, line)
}

fn check(rt: &impl Abort, hand: &Hand, progress: &mut Progress<Screen, &Hand>, is_shown: bool) {
    for (place, (milliseconds, answered, line)) in LOOKS.iter().enumerate() {
        hand.milliseconds.set(*milliseconds);
        let line = if is_shown { *line } else { b"" };
        holds(rt, looks(progress, *answered, line), "look", place);
    }
    let wiped = if is_shown {
        b"\r\x1b[K".as_slice()
    } else {
        b""
    };
    holds(rt, ends(progress, wiped), "the line is wiped", 0);
}

fn check_screen(rt: &impl Abort, alloc: Global, is_terminal: bool) {
    let hand = Hand {
        milliseconds: Cell::new(0),
    };
    let screen = Screen {
        text: Vec::new(alloc),
        is_terminal,
    };
    let mut progress = Progress::new(screen, &hand, "answered");
    check(rt, &hand, &mut progress, is_terminal);
}

#[test]
fn progress_lines(rt: HostRuntime) {
    for is_terminal in [true, false] {
        check_screen(&rt, rt.alloc(), is_terminal);
    }
}
