//! `pg2sim script`.

ghost use Rattle.std.specs.Prelude.{◌≡◌, ◌≢◌, ◌⊎◌, ◌≤◌, length, Ok, Err, IfOk, IfErr, OnErr};
ghost use Rattle.pg_cluster.specs.PgNode.Replicas.Causes.{FailedAt};
ghost use Rattle.pg_script.specs.Runs.{CausedBy};
ghost use Rattle.pg_script.specs.Scripts.{contents_of};
ghost use Rattle.pg_program.specs.Inputs.{IsInput, IsUnread, ScriptRead, bytes_said};
ghost use Rattle.pg_program.specs.Scripts.{NotDrawn, ScriptEnds, ScriptEnd, run_fault_of, script_fault_of};
ghost use Rattle.pg_program.specs.declared.fault.Fault.TheVariants.{Run};

use crate::fault::Fault;
use crate::input::{read_input, text_of};
use crate::system::System;
use crate::words::Aids;
use pg_cluster::WorldFault;
use pg_script::{
    LineFault, RunFault, Script, ScriptFault, Watch, diagram_of, read_script, run_script,
    watch_script, write_svg,
};
use pg_streams::{Sink, Source};
use pg_term::faults::OUT_OF_MEMORY;
use std::alloc::{AllocError, Global};

/// Runs the script that the input is, and writes what it prints; with these aids.
pub(crate) fn run_input<R: Source, W: Sink, D: System>(
    alloc: Global,
    aids: Aids<'_>,
    reader: &mut R,
    writer: &mut W,
    system: &mut D,
) -> Result<(), Fault>
    ensures { ScriptEnd (IsInput R.remaining R.gives reader.old reader.new) (IsUnread R.gives R.fails reader.old reader.new)
        (writer.new ≡ writer.old) (FailedAt W.fails writer.new ⊎ FailedAt D.fails system.new) (W.flushed writer.new) result }
{
    match script_in(alloc, reader) {
        Ok(script) => run(alloc, aids, &script, writer, system),
        Err(fault) => Err(fault),
    }
}

/// The script that the input is.
fn script_in<R: Source>(alloc: Global, reader: &mut R) -> Result<Script, Fault>
    ensures { ScriptRead (IsInput R.remaining R.gives reader.old reader.new) (IsUnread R.gives R.fails reader.old reader.new) result }
{
    match read_input(alloc, reader) {
        Ok(input) => script_of(alloc, input.as_slice()),
        Err(fault) => Err(fault),
    }
}

/// Runs a script, and writes what it prints; with these aids.
fn run<W: Sink, D: System>(
    alloc: Global,
    aids: Aids<'_>,
    script: &Script,
    writer: &mut W,
    system: &mut D,
) -> Result<(), Fault>
    ensures { ScriptEnds (contents_of script.now) (writer.new ≡ writer.old) (FailedAt W.fails writer.new ⊎ FailedAt D.fails system.new)
        (W.flushed writer.new) result }
{
    if aids.is_traced || aids.diagram.is_some() {
        run_watched(alloc, aids, script, writer, system)
    } else {
        match run_script(alloc, script, writer) {
            Ok(()) => Ok(()),
            Err(fault) => Err(run_fault(fault)),
        }
    }
}

/// Runs a script that is watched.
fn run_watched<W: Sink, D: System>(
    alloc: Global,
    aids: Aids<'_>,
    script: &Script,
    writer: &mut W,
    system: &mut D,
) -> Result<(), Fault>
    ensures { ScriptEnds (contents_of script.now) (writer.new ≡ writer.old) (FailedAt W.fails writer.new ⊎ FailedAt D.fails system.new)
        (W.flushed writer.new) result }
{
    match watch_script(alloc, script, aids.is_traced, writer) {
        Ok(watch) => match aids.diagram {
            Some(name) => draw(alloc, &watch, name, system),
            None => Ok(()),
        },
        Err(fault) => Err(run_fault(fault)),
    }
}

/// Makes a file that holds the diagram of a run.
fn draw<D: System>(alloc: Global, watch: &Watch, name: &str, system: &mut D) -> Result<(), Fault>
    ensures { IfErr result (NotDrawn (FailedAt D.fails system.new)) }
{
    let mut picture = Vec::new(alloc);
    match diagram_of(alloc, watch) {
        Ok(diagram) => {
            if write_svg(alloc, &diagram, &mut picture).is_err() {
                return Err(Fault::Run(OUT_OF_MEMORY));
            }
        }
        Err(AllocError) => return Err(Fault::Run(OUT_OF_MEMORY)),
    }
    match system.put(name, picture.as_slice()) {
        Ok(()) => Ok(()),
        Err(_) => Err(Fault::Run(RunFault::WriteFault.number())),
    }
}

/// The script of these bytes.
fn script_of(alloc: Global, input: &[u8]) -> Result<Script, Fault>
    ensures ok { IfOk result (λ script. bytes_said input.now ≡ Ok (contents_of script)) }
    ensures err { IfErr result (λ fault. fault ≢ Run 10 → bytes_said input.now ≡ Err fault) }
{
    let text = text_of(input)?;
    match read_script(alloc, text) {
        Ok(script) => Ok(script),
        Err(fault) => Err(script_fault(fault)),
    }
}

/// What is told of a text that is no script.
pub(crate) fn script_fault(fault: ScriptFault) -> Fault
    ensures { result ≡ script_fault_of fault }
{
    match fault.fault {
        LineFault::OutOfMemory => Fault::Run(OUT_OF_MEMORY),
        _ => Fault::Line {
            line: fault.line,
            number: fault.fault.number(),
        },
    }
}

/// What is told of a run that ended early.
fn run_fault(fault: RunFault) -> Fault
    ensures { result ≡ run_fault_of fault }
{
    match fault {
        RunFault::World(WorldFault::OutOfMemory) => Fault::Run(OUT_OF_MEMORY),
        RunFault::World(fault) => Fault::Given(fault.number()),
        _ => Fault::Run(fault.number()),
    }
}
