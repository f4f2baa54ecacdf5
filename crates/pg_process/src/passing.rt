//! How what a process says and logs is passed on.

use crate::process::Process;
use pg_node_process::{PassFault, pass_on};
use pg_streams::Sink;

impl Process {
    ghost use Rattle.std.specs.Prelude.{◌≡◌, ◌≢◌, [], Err, IfErr, OnOk, OnErr};
    ghost use Rattle.pg_node_process.specs.Passing.{Cause, FailedAt, Passes, WritesPart};
    ghost use Rattle.pg_node_process.specs.declared.passing.PassFault.TheVariants.{Log, Output};
    ghost use Rattle.pg_process.specs.Situations.{setting_of, situation_of};

    /// The bytes that are gathered to go out.
    ///
    /// Cost: no memory.
    pub fn output(&self) -> &[u8]
        ensures { result.now ≡ self.now.outlet.gathered.items }
    {
        self.outlet.bytes()
    }

    /// The bytes that are gathered for the log.
    ///
    /// Cost: no memory.
    pub fn logged(&self) -> &[u8]
        ensures { result.now ≡ self.now.journal.gathered.items }
    {
        self.journal.bytes()
    }

    /// Logs what is to be logged, and then writes what goes out. Each is flushed, where there is something, and let go.
    ///
    /// Errors: `Log`, where a write or a flush of the log fails: nothing goes out then; `Output`, where one of the output fails, once all was
    /// logged. A first part of what failed was written. What is kept stays as it is.
    ///
    /// Cost: no memory.
    pub fn pass_on<W: Sink, L: Sink>(
        &mut self,
        writer: &mut W,
        log: &mut L,
    ) -> Result<(), PassFault>
        ensures wrote { OnOk result (Passes W.contents W.flushed writer.old writer.new self.old.outlet.gathered.items) }
        ensures logged { result ≢ Err Log → Passes L.contents L.flushed log.old log.new self.old.journal.gathered.items }
        ensures before { result ≡ Err Log → writer.new ≡ writer.old }
        ensures log_part { result ≡ Err Log → WritesPart (L.contents log.old) (L.contents log.new) self.old.journal.gathered.items }
        ensures part { result ≡ Err Output → WritesPart (W.contents writer.old) (W.contents writer.new) self.old.outlet.gathered.items }
        ensures cause { IfErr result (Cause (FailedAt L.fails log.new) (FailedAt W.fails writer.new)) }

        // What was passed on is let go, and nothing else is another.
        ensures gone { OnOk result (self.new.outlet.gathered.items ≡ []) }
        ensures forgotten { result ≢ Err Log → self.new.journal.gathered.items ≡ [] }
        ensures situation { situation_of self.new ≡ situation_of self.old }
        ensures setting { setting_of self.new ≡ setting_of self.old }

        // Only a write or a flush of something fails.
        ensures log_needed { result ≡ Err Log → self.old.journal.gathered.items ≢ [] }
        ensures output_needed { result ≡ Err Output → self.old.outlet.gathered.items ≢ [] }
    {
        pass_on(&mut self.outlet, writer, &mut self.journal, log)
    }
}
