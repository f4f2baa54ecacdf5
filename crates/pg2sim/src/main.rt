//! `pg2sim`: the replica of one node over bytes, runs of scripts, all runs of one, nodes as threads, and one node as a process.
#![tactic(auto)]

mod host;

use host::{HostLog, HostSystem, Shown};
use pg_program::{refuse, refuse_given, run_words};
use pg_program_faults::{Aside, Heard, Kept, Told, aside_of, explain};
use pg_progress::Progress;
use pg_streams::{AnyReader, AnyWriter};
use pg_term::faults::{OUT_OF_MEMORY, WRITE_FAULT};
use std::io::{BufWriter, IsTerminal, Write};
use std::process::ExitCode;
use std::thread::Threads;
use std::time::Instant;
use std::{env, io, vec};

/// What the program was given behind its name.
#[derive(Drop)]
struct Given {
    /// The words, without `--explain`.
    words: Vec<String>,
    /// A fault is said in words, too: `--explain` is one of the words, or standard error is a terminal.
    explains: bool,
}

/// The words behind the program's name.
fn given_words(rt: &HostRuntime) -> io::Result<Given> {
    let mut words = Vec::new(rt.alloc());
    let mut explains = rt.stderr().is_terminal();
    for word in env::args(rt)?.skip(1) {
        if word.as_str() == "--explain" {
            explains = true;
        } else {
            words.push(word)?;
        }
    }
    Ok(Given { words, explains })
}

/// Runs what the words ask for on standard input and both outputs, and says a fault in words, where that is wanted.
/// By `is_output` all goes to standard output that goes to standard error else.
fn run(
    rt: &HostRuntime,
    threads: &impl Threads,
    words: &[String],
    explains: bool,
    is_output: bool,
) -> io::Result<u8> {
    let mut reader = AnyReader {
        reader: Kept {
            reader: rt.stdin(),
            bytes: Vec::new(rt.alloc()),
            keeps: explains && is_read_again(words),
        },
    };
    let mut writer = AnyWriter {
        writer: BufWriter::new(rt.alloc(), rt.stdout())?,
    };
    let mut faults = AnyWriter {
        writer: Heard::new(rt.alloc(), rt.stdout(), rt.stderr(), is_output),
    };
    let mut system = HostSystem {
        alloc: rt.alloc(),
        rt,
        threads,
        begun: Instant::now(rt)?,
        progress: Shown(Progress::new(rt.stderr(), rt, "answered")),
        exploring: Progress::new(rt.stderr(), rt, "explored"),
        missed: None,
    };
    let mut log = HostLog {
        rt,
        file: None,
        missed: None,
    };
    let status = run_words(
        rt.alloc(),
        words,
        &mut reader,
        &mut writer,
        &mut system,
        &mut log,
        &mut faults,
    );
    if explains {
        let missed = system.missed.or(log.missed);
        say_fault(rt, words, &reader.reader, &faults.writer, missed);
    }
    Ok(status)
}

/// Whether these words read a script.
fn is_read_again(words: &[String]) -> bool {
    match words.first() {
        Some(word) => matches!(word.as_str(), "script" | "explore"),
        None => false,
    }
}

/// Says on standard error in words what its last line says by a number, if it does.
fn say_fault<R, O, E>(
    rt: &HostRuntime,
    words: &[String],
    kept: &Kept<R>,
    heard: &Heard<O, E>,
    missed: Option<&'static str>,
) {
    let told = Told {
        words,
        input: kept.bytes.as_slice(),
        line: heard.line(),
        missed,
    };
    let text = explain(rt.alloc(), told);
    let _ = rt.stderr().write_all(text.as_bytes());
}

/// Answers a question about the program itself, and gives the status.
fn answer(rt: &HostRuntime, threads: &impl Threads, aside: Aside) -> io::Result<u8> {
    match aside {
        Aside::Says(text) => Ok(print(rt, text.as_str())),
        Aside::Shows(words) => match run(rt, threads, words.as_slice(), false, true) {
            Ok(2) => Ok(0),
            ended => ended,
        },
        Aside::NoFault => {
            let text = b"error: no fault has that number; `pg2sim fault` prints all\n";
            let _ = rt.stderr().write_all(text);
            Ok(2)
        }
    }
}

/// Writes a text to standard output, and gives the status.
fn print(rt: &HostRuntime, text: &str) -> u8 {
    if rt.stdout().write_all(text.as_bytes()).is_ok() {
        return 0;
    }
    let mut faults = AnyWriter {
        writer: rt.stderr(),
    };
    refuse(&mut faults, WRITE_FAULT)
}

/// Does what the words ask for, and gives the status.
fn status(rt: &HostRuntime, threads: &impl Threads, given: &Given) -> io::Result<u8> {
    match aside_of(rt.alloc(), given.words.as_slice())? {
        Some(aside) => answer(rt, threads, aside),
        None => run(rt, threads, given.words.as_slice(), given.explains, false),
    }
}

fn main(rt: HostRuntime) -> ExitCode {
    let mut faults = AnyWriter {
        writer: rt.stderr(),
    };
    let status = match given_words(&rt) {
        Ok(given) => match status(&rt, &rt, &given) {
            Ok(status) => status,
            Err(_) => refuse(&mut faults, OUT_OF_MEMORY),
        },
        Err(error) => refuse_given(&mut faults, &error),
    };
    ExitCode::from(status)
}
