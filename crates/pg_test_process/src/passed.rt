//! What is passed on where a write or a flush fails.

use crate::sights::holds_at;
use pg_node_process::{Journal, Outlet, PassFault, pass_on};
use pg_streams::AnyWriter;
use std::alloc::{AllocError, Global};
use std::io;
use std::io::{ErrorKind, Write};

/// Takes 3 bytes a write, and fails once it was called so often. What was flushed is counted.
#[derive(Drop)]
pub struct Sheet {
    pub held: Vec<u8>,
    pub flushed: usize,
    pub calls_left: usize,
}

/// A sheet on which nothing is written yet.
pub fn blank_sheet(alloc: Global, calls_left: usize) -> AnyWriter<Sheet> {
    let writer = Sheet {
        held: Vec::new(alloc),
        flushed: 0,
        calls_left,
    };
    AnyWriter { writer }
}

impl Write for Sheet {
    fn write(&mut self, buf: &[u8]) -> io::Result<usize> {
        if self.calls_left == 0 {
            return Err(io::Error::from(ErrorKind::BrokenPipe));
        }
        self.calls_left -= 1;
        let count = buf.len().min(3);
        match self.held.extend_from_slice(&buf[..count]) {
            Ok(()) => Ok(count),
            Err(_) => Err(io::Error::from(ErrorKind::OutOfMemory)),
        }
    }

    fn flush(&mut self) -> io::Result<()> {
        if self.calls_left == 0 {
            return Err(io::Error::from(ErrorKind::BrokenPipe));
        }
        self.calls_left -= 1;
        self.flushed = self.held.len();
        Ok(())
    }
}

/// After how many calls the log and the output fail, what comes then, and how many bytes each holds and has flushed. Each is 5 bytes, so that it
/// takes two writes and a flush.
const ROWS: &[(usize, usize, Result<(), PassFault>, [usize; 4])] = &[
    (9, 9, Ok(()), [5, 5, 5, 5]),
    (3, 3, Ok(()), [5, 5, 5, 5]),
    (0, 9, Err(PassFault::Log), [0, 0, 0, 0]),
    (1, 9, Err(PassFault::Log), [3, 0, 0, 0]),
    (2, 9, Err(PassFault::Log), [5, 0, 0, 0]),
    (9, 0, Err(PassFault::Output), [5, 5, 0, 0]),
    (9, 1, Err(PassFault::Output), [5, 5, 3, 0]),
    (9, 2, Err(PassFault::Output), [5, 5, 5, 0]),
];

/// What comes of it, and the four counts.
fn told(
    alloc: Global,
    log_calls: usize,
    calls: usize,
) -> Result<(Result<(), PassFault>, [usize; 4]), AllocError> {
    let mut outlet = Outlet::new(alloc);
    outlet.put_formed()?;
    let mut journal = Journal::new(alloc);
    journal.put_body(b"\x10")?;
    let mut log = blank_sheet(alloc, log_calls);
    let mut writer = blank_sheet(alloc, calls);
    let passed = pass_on(&mut outlet, &mut writer, &mut journal, &mut log);
    let counts = [
        log.writer.held.len(),
        log.writer.flushed,
        writer.writer.held.len(),
        writer.writer.flushed,
    ];
    drop(outlet);
    drop(journal);
    drop(log);
    drop(writer);
    Ok((passed, counts))
}

#[test]
fn nothing_goes_out_before_it_is_logged(rt: HostRuntime) {
    for place in 0..ROWS.len() {
        let (log_calls, calls, passed, counts) = ROWS[place];
        let is_so = told(rt.alloc(), log_calls, calls) == Ok((passed, counts));
        holds_at(&rt, is_so, "what is passed on in row", place);
    }
}
