//! `pg2sim threads`.

ghost use Rattle.std.specs.Prelude.{◌≡◌, ◌++◌, OnOk};
ghost use Rattle.pg_talk.specs.Outcomes.{is_good};
ghost use Rattle.pg_cluster.specs.PgNode.Replicas.Causes.{FailedAt};
ghost use Rattle.pg_program.specs.Talks.{Printed, TalkEnd, json_line, outcome_text};

use crate::fault::Fault;
use crate::system::System;
use crate::words::Talk;
use pg_script::{RunFault, put_whole};
use pg_streams::Sink;
use pg_talk::Outcome;
use pg_term::faults::{CLOCK_FULL, OUT_OF_MEMORY};
use std::alloc::Global;
use std::io;
use std::io::Write;

/// Lets the clients of a cluster speak, and writes how it went, in four lines or as one; whether all is well.
pub(crate) fn converse<W: Sink, D: System>(
    alloc: Global,
    talk: Talk,
    writer: &mut W,
    system: &mut D,
) -> Result<bool, Fault>
    ensures { TalkEnd D.went talk.asked talk.is_json (writer.new ≡ writer.old) (FailedAt W.fails writer.new) (W.flushed writer.new)
        (W.contents writer.old) (W.contents writer.new) result }
{
    let begun = system.microseconds();
    match system.converse(talk.asked) {
        Ok(outcome) => {
            let microseconds = system.microseconds().saturating_sub(begun);
            let is_good = tell_outcome(alloc, &outcome, talk.is_json, microseconds, writer)?;
            if outcome.is_full {
                return Err(Fault::Run(CLOCK_FULL));
            }
            Ok(is_good)
        }
        Err(fault) => Err(Fault::Run(fault.number())),
    }
}

/// Writes how a conversation went; whether all is well.
fn tell_outcome<W: Sink>(
    alloc: Global,
    outcome: &Outcome,
    is_json: bool,
    microseconds: u64,
    writer: &mut W,
) -> Result<bool, Fault>
    ensures { Printed (writer.new ≡ writer.old) (FailedAt W.fails writer.new) (W.flushed writer.new)
        (W.contents writer.old) (W.contents writer.new) (outcome_text is_json outcome.now microseconds) (is_good outcome.now) result }
{
    let mut text = Vec::new(alloc);
    match write_outcome(outcome, is_json, microseconds, &mut text) {
        Ok(()) => print(writer, text.as_slice(), outcome.is_good()),
        Err(_) => Err(Fault::Run(OUT_OF_MEMORY)),
    }
}

/// Writes how a conversation went, in four lines or as one.
fn write_outcome(
    outcome: &Outcome,
    is_json: bool,
    microseconds: u64,
    text: &mut Vec<u8>,
) -> io::Result<()>
    ensures { OnOk result (text.new.items ≡ text.old.items ++ outcome_text is_json outcome.now microseconds) }
{
    if is_json {
        write_json(outcome, microseconds, text)
    } else {
        outcome.write(text)
    }
}

/// Writes how a conversation went as one line of JSON.
fn write_json(outcome: &Outcome, microseconds: u64, text: &mut Vec<u8>) -> io::Result<()>
    ensures { OnOk result (text.new.items ≡ text.old.items ++ json_line outcome.now microseconds) }
{
    let Outcome {
        nodes,
        clients,
        answered,
        asked,
        agree,
        replay,
        is_full: _,
    } = outcome;
    writeln!(
        text,
        "{{\"nodes\":{nodes},\"clients\":{clients},\"answered\":{answered},\"asked\":{asked},\"agree\":{agree},\"replay\":{replay},\"microseconds\":{microseconds}}}"
    )?;
    Ok(())
}

/// Writes a text whole, and flushes it; whether all is well.
pub(crate) fn print<W: Sink>(writer: &mut W, text: &[u8], is_good: bool) -> Result<bool, Fault>
    ensures { Printed (writer.new ≡ writer.old) (FailedAt W.fails writer.new) (W.flushed writer.new)
        (W.contents writer.old) (W.contents writer.new) text.now is_good result }
{
    match put_whole(writer, text) {
        Ok(()) => match writer.flush_all() {
            Ok(()) => Ok(is_good),
            Err(_) => Err(Fault::Run(RunFault::WriteFault.number())),
        },
        Err(fault) => Err(Fault::Run(fault.number())),
    }
}
