//! A process from its beginning to its end: what it reads, and how what follows is passed on.

ghost use Rattle.std.specs.Prelude.{◌≡◌, ◌≢◌, ◌≤◌, ◌<◌, ◌⊎◌, ◌==◌, true, false, [], List, ℕ, Ok, Err, None, Some, IfErr, IfOk, OnErr, OnOk, length, if◌then◌else◌};
ghost use Rattle.pg_frame.specs.Frames.{front_of};
ghost use Rattle.pg_frame.specs.Limits.{max_body};
ghost use Rattle.pg_node.specs.Replicas.Causes.{joined};
ghost use Rattle.pg_node.specs.Replicas.Progress.{ReadsSome};
ghost use Rattle.pg_node_process.specs.Configs.{is_config};
ghost use Rattle.pg_node_process.specs.Logs.{head_bytes};
ghost use Rattle.pg_node_process.specs.Outputs.{Version, said};
ghost use Rattle.pg_process.specs.declared.fault.BeginFault.TheVariants.{BadConfig};
ghost use Rattle.pg_process.specs.declared.fault.EndFault.TheVariants.{Begin, Truncated};
ghost use Rattle.pg_process.specs.Serving.{CantOpen, Ends, HasRead, Opens, Serves, Stops, head_in};
ghost use Rattle.pg_process.specs.Settled.{IsAtRest};
ghost use Rattle.pg_process.specs.Situations.{setting_of, situation_of};
ghost use Rattle.pg_process.specs.Stories.{Arrives, BeginsFrom, CantArrive, CantBeginFrom, CantHear, CantHearFirst, CantRead, HasServed, HearsFirst, HearsSome, IsHalted, IsNew, IsServing, Lapses, Story};

use crate::fault::{BeginFault, EndFault, ProcessFault};
use crate::process::Process;
use pg_frame::Deframer;
use pg_node_process::{Head, Journal, Outlet, ProcessConfig, pass_on};
use pg_streams::{Sink, Source};
use std::alloc::{AllocError, Global};

/// How many bytes one read asks for.
const PIECE: usize = 65_536;

/// How many reads a process makes at most before its first body came, and as many behind that.
const MAX_READS: u64 = 1 << 40;

/// How many bytes are gathered before they are passed on, though more bodies came.
const GATHERED: usize = 65_536;

/// The first byte of the body that brings the node's own groups.
const GROUPS: u8 = 20;

/// Serves a node of a set as a process: reads what its host says from `reader`, and writes what it says to `writer`, each body behind four
/// bytes of length. `version`: that of the program, of at most 255 bytes. `log`: where what comes and what is done is logged.
///
/// First the version goes out, and the head of the log. The first body brings the node's own groups, a term `[{Name, [Pid, ..]}, ..]`
/// behind a byte 20. Each body behind it is heard, as `Process::hear` says. All that follows from what was read is logged and flushed, and
/// then written and flushed, before the next read. It ends with `Ok` where the input ends between two bodies.
///
/// Errors, the first that comes:
///
/// - `Begin`: `BadConfig`, where the config is not valid; nothing is read or written then. The others are those of `Process::begin`.
/// - `NoGroups`, where the first body does not begin with 20.
/// - `Work`: `ClockFull`, where the node's step says so; `OutOfMemory`.
/// - `TooLong`, where the length of a body is above 16,777,216; `Truncated`, where the input ends within a body.
/// - `ReadFault`, where a read fails, or there were 2^40 reads.
/// - `Pass`: `Log`, where a write or a flush of the log fails, and `Output`, where one of the output does. It may come in the place of another
///   fault, as what follows from the bodies before a fault is passed on first.
///
/// Cost: that of each body, and memory for the longest, beside what the node keeps.
pub fn serve<R: Source, W: Sink, L: Sink>(
    alloc: Global,
    config: ProcessConfig,
    version: &str,
    reader: &mut R,
    writer: &mut W,
    log: &mut L,
) -> Result<(), EndFault>
    requires { length version.now ≤ 255 }
    ensures config { is_config config ≡ false → (result ≡ Err (Begin BadConfig)) × (reader.new ≡ reader.old) × (writer.new ≡ writer.old) × (log.new ≡ log.old) }
    ensures served { is_config config ≡ true → Serves W.contents W.flushed W.fails L.contents L.flushed L.fails R.gives R.remaining R.fails config version.now
        reader.old reader.new writer.old writer.new log.old log.new result }
{
    if !config.is_valid() {
        drop(config);
        return Err(EndFault::Begin(BeginFault::BadConfig));
    }
    match open(alloc, &config, version, writer, log) {
        Ok(()) => serve_opened(alloc, config, reader, writer, log),
        Err(fault) => {
            drop(config);
            Err(fault)
        }
    }
}

/// The version goes out, and the head is logged.
fn open<W: Sink, L: Sink>(
    alloc: Global,
    config: &ProcessConfig,
    version: &str,
    writer: &mut W,
    log: &mut L,
) -> Result<(), EndFault>
    requires { length version.now ≤ 255 }
    ensures opens { OnOk result (Opens W.contents W.flushed W.fails L.contents L.flushed L.fails config.now version.now writer.old writer.new log.old log.new) }
    ensures fault { IfErr result (CantOpen W.contents W.flushed W.fails L.contents L.flushed L.fails config.now version.now writer.old writer.new log.old log.new) }
{
    match openings(alloc, config, version) {
        Ok((mut outlet, mut journal)) => {
            let passed = pass_on(&mut outlet, writer, &mut journal, log);
            drop(outlet);
            drop(journal);
            match passed {
                Ok(()) => Ok(()),
                Err(fault) => Err(EndFault::Pass(fault)),
            }
        }
        Err(AllocError) => Err(EndFault::Work(ProcessFault::OutOfMemory)),
    }
}

/// The version, and the head of the log.
fn openings(
    alloc: Global,
    config: &ProcessConfig,
    version: &str,
) -> Result<(Outlet, Journal), AllocError>
    requires { length version.now ≤ 255 }
    ensures version { IfOk result (λ made. made.0.gathered.items ≡ said (Version 1 version.now)) }
    ensures head { IfOk result (λ made. made.1.gathered.items ≡ head_bytes (head_in config.now version.now)) }
{
    let mut outlet = Outlet::new(alloc);
    let mut journal = Journal::new(alloc);
    outlet.put_version(version)?;
    let head = Head {
        version: version.as_bytes(),
        own: &config.own,
        peers: config.peers.as_slice(),
        ports: config.ports,
        made: config.made,
        label: config.label.as_slice(),
    };
    journal.put_head(alloc, head)?;
    Ok((outlet, journal))
}

/// Serves a node whose version went out.
fn serve_opened<R: Source, W: Sink, L: Sink>(
    alloc: Global,
    config: ProcessConfig,
    reader: &mut R,
    writer: &mut W,
    log: &mut L,
) -> Result<(), EndFault>
    requires { is_config config ≡ true }
    ensures { Ends W.contents W.flushed W.fails L.contents L.flushed L.fails R.gives R.remaining R.fails config reader.old reader.new writer.old writer.new log.old log.new result }
{
    let mut deframer = Deframer::new(alloc);
    match await_first(&mut deframer, reader) {
        Ok(true) => serve_first(alloc, config, deframer, reader, writer, log),
        Ok(false) => {
            let ended = end_of(&deframer);
            drop(config);
            drop(deframer);
            ended
        }
        Err(fault) => {
            drop(config);
            drop(deframer);
            Err(fault)
        }
    }
}

/// Reads until the first body came whole. `false`: the input is over.
fn await_first<R: Source>(deframer: &mut Deframer, reader: &mut R) -> Result<bool, EndFault>
    requires { deframer.old.unread ≡ [] }
    ensures came { result ≡ Ok true → Arrives R.gives R.remaining reader.old deframer.new.unread reader.new }
    ensures over { result ≡ Ok false → Lapses R.gives R.remaining reader.old deframer.new.unread reader.new }
    ensures fault { IfErr result (CantArrive R.gives R.remaining R.fails reader.old reader.new) }
{
    let mut piece = [0; PIECE];
    for _ in 0..MAX_READS {
        match read(deframer, reader, &mut piece) {
            Ok(true) => {}
            Ok(false) => return Ok(false),
            Err(fault) => return Err(fault),
        }
        match deframer.front() {
            Ok(Some(_)) => return Ok(true),
            Ok(None) => {}
            Err(_) => return Err(EndFault::TooLong),
        }
    }
    Err(EndFault::ReadFault)
}

/// Reads the next piece. `false`: the input is over.
fn read<R: Source>(
    deframer: &mut Deframer,
    reader: &mut R,
    piece: &mut [u8],
) -> Result<bool, EndFault>
    requires { 0 < length piece.old }
    ensures piece { IfOk result (ReadsSome (λ bytes. R.gives reader.old bytes reader.new) (R.remaining reader.old) (R.remaining reader.new) deframer.old.unread deframer.new.unread) }
    ensures fault { IfErr result (CantRead R.gives R.remaining R.fails reader.old reader.new) }
    ensures kept { OnErr result (deframer.new.unread ≡ deframer.old.unread) }
{
    let count = match reader.read_some(piece) {
        Ok(count) => count,
        Err(_) => return Err(EndFault::ReadFault),
    };
    if count == 0 {
        return Ok(false);
    }
    match deframer.feed(&piece[..count]) {
        Ok(()) => Ok(true),
        Err(AllocError) => Err(EndFault::Work(ProcessFault::OutOfMemory)),
    }
}

/// What the end of the input leads to.
fn end_of(deframer: &Deframer) -> Result<(), EndFault>
    ensures { result ≡ (if length deframer.now.unread == 0 then Ok tt else Err Truncated) }
{
    if deframer.rest_len() == 0 {
        Ok(())
    } else {
        Err(EndFault::Truncated)
    }
}

/// Serves a node whose first body came whole.
fn serve_first<R: Source, W: Sink, L: Sink>(
    alloc: Global,
    config: ProcessConfig,
    deframer: Deframer,
    reader: &mut R,
    writer: &mut W,
    log: &mut L,
) -> Result<(), EndFault>
    requires valid { is_config config ≡ true }
    requires front { (body : List ℕ) × (front_of deframer.unread ≡ Ok (Some body)) }
    ensures { (first : R) → Arrives R.gives R.remaining first deframer.unread reader.old
        → Ends W.contents W.flushed W.fails L.contents L.flushed L.fails R.gives R.remaining R.fails config first reader.new writer.old writer.new log.old log.new result }
{
    let body = match deframer.front() {
        Ok(Some(body)) => body,
        Ok(None) | Err(_) => unreachable!(),
    };
    let begun = begun_by(alloc, config, body);
    match begun {
        Ok(process) => {
            let mut serving = Serving { deframer, process };
            let ended = serving.run(reader, writer, log);
            drop(serving);
            ended
        }
        Err(fault) => {
            drop(deframer);
            Err(fault)
        }
    }
}

/// The process that begins by its first body.
fn begun_by(alloc: Global, config: ProcessConfig, body: &[u8]) -> Result<Process, EndFault>
    requires { length body.now ≤ max_body }
    ensures begins { IfOk result (BeginsFrom config body.now) }
    ensures fault { IfErr result (CantBeginFrom config body.now) }
{
    match body {
        [GROUPS, bytes @ ..] => match Process::begin(alloc, config, bytes) {
            Ok(process) => Ok(process),
            Err(fault) => Err(EndFault::Begin(fault)),
        },
        _ => {
            drop(config);
            Err(EndFault::NoGroups)
        }
    }
}

/// A process, and the bytes that came and of which no body was taken.
#[derive(Drop)]
struct Serving {
    deframer: Deframer,
    process: Process,
}

impl Serving {
    /// Serves what came, and all that comes.
    fn run<R: Source, W: Sink, L: Sink>(
        &mut self,
        reader: &mut R,
        writer: &mut W,
        log: &mut L,
    ) -> Result<(), EndFault>
        requires { (body : List ℕ) × (front_of self.old.deframer.unread ≡ Ok (Some body)) }
        ensures { (story : Story W L) (first : R) → Arrives R.gives R.remaining first self.old.deframer.unread reader.old
            → IsNew story self.old.deframer.unread self.old.deframer.unread self.old.process writer.old log.old
            → Ends W.contents W.flushed W.fails L.contents L.flushed L.fails R.gives R.remaining R.fails story.config first reader.new story.out writer.new story.log log.new result }
    {
        match self.start(writer, log) {
            Ok(()) => {}
            Err(fault) => return Err(fault),
        }
        self.go_on(reader, writer, log)
    }

    /// Hears the first body, which is taken out, and all that came behind it.
    fn start<W: Sink, L: Sink>(&mut self, writer: &mut W, log: &mut L) -> Result<(), EndFault>
        requires { (body : List ℕ) × (front_of self.old.deframer.unread ≡ Ok (Some body)) }
        ensures rest { OnOk result (IsAtRest (setting_of self.new.process) (situation_of self.new.process)) }
        ensures served { OnOk result ((story : Story W L) (input : List ℕ) → IsNew story input self.old.deframer.unread self.old.process writer.old log.old
            → HasServed W.contents W.flushed L.contents L.flushed story input self.new.deframer.unread self.new.process writer.new log.new) }
        ensures fault { IfErr result (λ fault. (story : Story W L) (input : List ℕ) → IsNew story input self.old.deframer.unread self.old.process writer.old log.old
            → Stops W.contents W.flushed W.fails L.contents L.flushed L.fails story.config fault input story.out writer.new story.log log.new) }
    {
        match self.hear_first() {
            Ok(()) => self.hear_all(writer, log),
            Err(fault) => self.stop(fault, writer, log),
        }
    }

    /// The first body is logged and taken out, and what follows is done.
    fn hear_first(&mut self) -> Result<(), EndFault>
        requires { (body : List ℕ) × (front_of self.old.deframer.unread ≡ Ok (Some body)) }
        ensures heard { OnOk result (HearsFirst self.old.deframer.unread self.new.deframer.unread self.old.process self.new.process) }
        ensures fault { IfErr result (CantHearFirst self.old.deframer.unread self.old.process self.new.process) }
    {
        let body = match self.deframer.front() {
            Ok(Some(body)) => body,
            Ok(None) | Err(_) => unreachable!(),
        };
        match self.process.note(body) {
            Ok(()) => {}
            Err(fault) => return Err(EndFault::Work(fault)),
        }
        let _ = self.deframer.next();
        match self.process.tell_brought() {
            Ok(()) => {}
            Err(fault) => return Err(EndFault::Work(fault)),
        }
        match self.process.attend(false) {
            Ok(()) => Ok(()),
            Err(fault) => Err(EndFault::Work(fault)),
        }
    }

    /// Reads and hears what comes until the end of the input.
    fn go_on<R: Source, W: Sink, L: Sink>(
        &mut self,
        reader: &mut R,
        writer: &mut W,
        log: &mut L,
    ) -> Result<(), EndFault>
        requires { IsAtRest (setting_of self.old.process) (situation_of self.old.process) }
        ensures { (story : Story W L) (first : R) (pieces : List (List ℕ)) → HasRead R.gives R.remaining first pieces reader.old
            → HasServed W.contents W.flushed L.contents L.flushed story (joined pieces) self.old.deframer.unread self.old.process writer.old log.old
            → Ends W.contents W.flushed W.fails L.contents L.flushed L.fails R.gives R.remaining R.fails story.config first reader.new story.out writer.new story.log log.new result }
    {
        let mut piece = [0; PIECE];
        for _ in 0..MAX_READS {
            match read(&mut self.deframer, reader, &mut piece) {
                Ok(true) => {}
                Ok(false) => return end_of(&self.deframer),
                Err(fault) => return Err(fault),
            }
            match self.hear_all(writer, log) {
                Ok(()) => {}
                Err(fault) => return Err(fault),
            }
        }
        Err(EndFault::ReadFault)
    }

    /// Hears all bodies that are whole, and passes on what follows.
    fn hear_all<W: Sink, L: Sink>(&mut self, writer: &mut W, log: &mut L) -> Result<(), EndFault>
        requires { IsAtRest (setting_of self.old.process) (situation_of self.old.process) }
        ensures rest { OnOk result (IsAtRest (setting_of self.new.process) (situation_of self.new.process)) }
        ensures served { OnOk result ((story : Story W L) (input : List ℕ) → IsServing W.contents W.flushed L.contents L.flushed story input self.old.deframer.unread self.old.process writer.old log.old
            → HasServed W.contents W.flushed L.contents L.flushed story input self.new.deframer.unread self.new.process writer.new log.new) }
        ensures fault { IfErr result (λ fault. (story : Story W L) (input : List ℕ) → IsServing W.contents W.flushed L.contents L.flushed story input self.old.deframer.unread self.old.process writer.old log.old
            → Stops W.contents W.flushed W.fails L.contents L.flushed L.fails story.config fault input story.out writer.new story.log log.new) }
    {
        loop {
            match self.hear_next() {
                Ok(true) => {}
                Ok(false) => return self.pass(writer, log),
                Err(fault) => return self.stop(fault, writer, log),
            }
            match self.pass_much(writer, log) {
                Ok(()) => {}
                Err(fault) => return Err(fault),
            }
        }
    }

    /// Hears the next body, if it is whole; whether it was.
    fn hear_next(&mut self) -> Result<bool, EndFault>
        ensures heard { IfOk result (λ more. HearsSome more self.old.deframer.unread self.new.deframer.unread self.old.process self.new.process) }
        ensures fault { IfErr result (CantHear self.old.deframer.unread self.old.process self.new.process) }
    {
        let body = match self.deframer.front() {
            Ok(Some(body)) => body,
            Ok(None) => return Ok(false),
            Err(_) => return Err(EndFault::TooLong),
        };
        match self.process.hear(body) {
            Ok(()) => {}
            Err(fault) => return Err(EndFault::Work(fault)),
        }
        let _ = self.deframer.next();
        Ok(true)
    }

    /// Passes on what is gathered, where it is much.
    fn pass_much<W: Sink, L: Sink>(&mut self, writer: &mut W, log: &mut L) -> Result<(), EndFault>
        ensures passed { OnOk result ((story : Story W L) (input : List ℕ) → IsServing W.contents W.flushed L.contents L.flushed story input self.old.deframer.unread self.old.process writer.old log.old
            → IsServing W.contents W.flushed L.contents L.flushed story input self.new.deframer.unread self.new.process writer.new log.new) }
        ensures fault { IfErr result (λ fault. (story : Story W L) (input : List ℕ) → IsServing W.contents W.flushed L.contents L.flushed story input self.old.deframer.unread self.old.process writer.old log.old
            → Stops W.contents W.flushed W.fails L.contents L.flushed L.fails story.config fault input story.out writer.new story.log log.new) }
        ensures unread { self.new.deframer ≡ self.old.deframer }
        ensures situation { situation_of self.new.process ≡ situation_of self.old.process }
        ensures setting { setting_of self.new.process ≡ setting_of self.old.process }
    {
        if self.process.output().len() < GATHERED {
            return Ok(());
        }
        self.pass(writer, log)
    }

    /// Passes on what is gathered.
    fn pass<W: Sink, L: Sink>(&mut self, writer: &mut W, log: &mut L) -> Result<(), EndFault>
        ensures passed { OnOk result ((story : Story W L) (input : List ℕ) → IsServing W.contents W.flushed L.contents L.flushed story input self.old.deframer.unread self.old.process writer.old log.old
            → IsServing W.contents W.flushed L.contents L.flushed story input self.new.deframer.unread self.new.process writer.new log.new) }
        ensures fault { IfErr result (λ fault. (story : Story W L) (input : List ℕ) → IsServing W.contents W.flushed L.contents L.flushed story input self.old.deframer.unread self.old.process writer.old log.old
            → Stops W.contents W.flushed W.fails L.contents L.flushed L.fails story.config fault input story.out writer.new story.log log.new) }
        ensures unread { self.new.deframer ≡ self.old.deframer }
        ensures situation { situation_of self.new.process ≡ situation_of self.old.process }
        ensures setting { setting_of self.new.process ≡ setting_of self.old.process }
        ensures gone { OnOk result ((self.new.process.outlet.gathered.items ≡ []) × (self.new.process.journal.gathered.items ≡ [])) }
    {
        match self.process.pass_on(writer, log) {
            Ok(()) => Ok(()),
            Err(fault) => Err(EndFault::Pass(fault)),
        }
    }

    /// Passes on what follows from what came before a fault, and ends by that.
    fn stop<W: Sink, L: Sink>(
        &mut self,
        fault: EndFault,
        writer: &mut W,
        log: &mut L,
    ) -> Result<(), EndFault>
        ensures never { OnOk result ⊥ }
        ensures fault { IfErr result (λ told. (story : Story W L) (input : List ℕ) → IsHalted W.contents W.flushed L.contents L.flushed fault story input self.old.process writer.old log.old
            → Stops W.contents W.flushed W.fails L.contents L.flushed L.fails story.config told input story.out writer.new story.log log.new) }
    {
        match self.process.pass_on(writer, log) {
            Ok(()) => Err(fault),
            Err(fault) => Err(EndFault::Pass(fault)),
        }
    }
}
