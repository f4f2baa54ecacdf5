//! How what is gathered is passed on: first to the log, then out.

ghost use Rattle.std.specs.Prelude.{◌≡◌, ◌≢◌, [], Err, IfErr, OnOk, OnErr, IsTrue, false};
ghost use Rattle.std.specs.Io.KnownBytes.{Appends};
ghost use Rattle.pg_node_process.specs.Passing.{Cause, FailedAt, Passes, WritesPart};
ghost use Rattle.pg_node_process.specs.declared.passing.PassFault.TheVariants.{Log, Output};

use crate::journal::Journal;
use crate::outlet::Outlet;
use pg_streams::Sink;
use pg_term::faults::WRITE_FAULT;
use thiserror::Error;

/// Why what is gathered was not passed on.
#[derive(Clone, Copy, Debug, PartialEq, Eq, Error)]
pub enum PassFault {
    /// A write or a flush of the log failed.
    #[error("a write of the log failed")]
    Log,
    /// A write or a flush of the output failed.
    #[error("a write of the output failed")]
    Output,
}

impl PassFault {
    ghost use Rattle.std.specs.Prelude.{◌≡◌};

    /// The number of the fault in this project's one list of faults.
    ///
    /// Cost: no memory.
    pub fn number(self) -> u8
        ensures { result ≡ 32 }
    {
        WRITE_FAULT
    }
}

/// Logs what is to be logged, and then writes what goes out. Each is flushed, where there is something, and let go.
///
/// Errors: `Log`, where a write or a flush of the log fails: nothing goes out then; `Output`, where one of the output fails, once all was
/// logged. A first part of what failed was written, and what is gathered there stays. Where nothing is gathered nothing fails.
///
/// Cost: no memory.
pub fn pass_on<W: Sink, L: Sink>(
    outlet: &mut Outlet,
    writer: &mut W,
    journal: &mut Journal,
    log: &mut L,
) -> Result<(), PassFault>
    ensures wrote { OnOk result (Passes W.contents W.flushed writer.old writer.new outlet.old.gathered.items) }
    ensures logged { result ≢ Err Log → Passes L.contents L.flushed log.old log.new journal.old.gathered.items }
    ensures before { result ≡ Err Log → writer.new ≡ writer.old }
    ensures log_part { result ≡ Err Log → WritesPart (L.contents log.old) (L.contents log.new) journal.old.gathered.items }
    ensures part { result ≡ Err Output → WritesPart (W.contents writer.old) (W.contents writer.new) outlet.old.gathered.items }
    ensures cause { IfErr result (Cause (FailedAt L.fails log.new) (FailedAt W.fails writer.new)) }

    // What was passed on is let go, and what failed stays.
    ensures gone { OnOk result (outlet.new.gathered.items ≡ []) }
    ensures forgotten { result ≢ Err Log → journal.new.gathered.items ≡ [] }
    ensures stays { OnErr result (outlet.new ≡ outlet.old) }
    ensures unlogged { result ≡ Err Log → journal.new ≡ journal.old }

    // Only a write or a flush of something fails.
    ensures log_needed { result ≡ Err Log → journal.old.gathered.items ≢ [] }
    ensures output_needed { result ≡ Err Output → outlet.old.gathered.items ≢ [] }
{
    if !pass(log, journal.bytes()) {
        return Err(PassFault::Log);
    }
    journal.clear();
    if !pass(writer, outlet.bytes()) {
        return Err(PassFault::Output);
    }
    outlet.clear();
    Ok(())
}

/// Writes all the bytes and flushes them, if there are some; whether it did.
fn pass<S: Sink>(sink: &mut S, bytes: &[u8]) -> bool
    ensures ok { IsTrue result → Passes S.contents S.flushed sink.old sink.new bytes.now }
    ensures part { result ≡ false → WritesPart (S.contents sink.old) (S.contents sink.new) bytes.now }
    ensures cause { result ≡ false → FailedAt S.fails sink.new }
    ensures needed { result ≡ false → bytes.now ≢ [] }
{
    if bytes.is_empty() {
        return true;
    }
    put_whole(sink, bytes) && sink.flush_all().is_ok()
}

/// Writes all the bytes; whether it did.
fn put_whole<S: Sink>(sink: &mut S, bytes: &[u8]) -> bool
    ensures ok { IsTrue result → Appends (S.contents sink.old) (S.contents sink.new) bytes.now }
    ensures part { result ≡ false → WritesPart (S.contents sink.old) (S.contents sink.new) bytes.now }
    ensures cause { result ≡ false → FailedAt S.fails sink.new }
{
    let mut rest = bytes;
    while !rest.is_empty() {
        match sink.write_some(rest) {
            Ok(count) => rest = &rest[count..],
            Err(_) => return false,
        }
    }
    true
}
