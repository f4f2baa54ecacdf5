//! Runs of scripts.

ghost use Rattle.std.specs.Prelude.{◌≡◌, ◌<◌, List, ℕ, length, string_bytes, OnOk, IfErr, IfOk, ⊤};
ghost use Rattle.std.specs.Io.KnownBytes.{Appends};
ghost use Rattle.pg_script_trace.specs.PgNode.Replicas.Causes.{FailedAt};
ghost use Rattle.pg_script_trace.specs.PgText.Writing.{GrowsBy};
ghost use Rattle.pg_script.specs.Runs.{CanRun, CantRun, CausedBy, Refused, answer_lines};

use crate::act::Act;
use crate::fault::RunFault;
use crate::history::print_history;
use crate::script::{Script, ScriptLine};
use crate::settling::{Halt, settle};
use crate::stage::Stage;
use crate::writing::put_whole;
use pg_script_trace::{
    Answer, Columns, IndexTable, NodeFault, Sight, Start, Watch, World, print_answer, print_lock,
    print_outbox, print_refused,
};
use pg_streams::Sink;
use pg_term::{Atom, Term};
use std::alloc::{AllocError, Global};

/// A run: its world, the nodes as they started, how many answers of each were printed, and what is to be written.
#[derive(Drop)]
struct Run<'a> {
    alloc: Global,
    stage: Stage,
    starts: &'a [Start],
    printed: Vec<usize>,
    out: String,
    // Where what is seen is printed, and how much of it was.
    columns: Option<Columns>,
    told: usize,
    ghost rows: { length printed.items ≡ length starts.now },
}

impl Run<'_> {
    /// Does what a line says, and prints it: what is seen of it, its own print, the answers that are new, and by which number a
    /// step was refused.
    fn line(&mut self, line: &ScriptLine) -> Result<(), AllocError> {
        self.out.clear();
        if let Some(watch) = &mut self.stage.watch {
            watch.begin(line.number);
        }
        let refused = self.act(&line.act)?;
        self.print_sights()?;
        self.print_answers()?;
        match refused {
            Some(fault) => print_refused(&mut self.out, line.number, fault.number()),
            None => Ok(()),
        }
    }

    /// Does what a line says, with its own print; and by which fault a step was refused.
    fn act(&mut self, act: &Act) -> Result<Option<NodeFault>, AllocError> {
        match act {
            Act::Step(step) => Ok(self.stage.step(step, false)?.err()),
            Act::Settle(rounds) => self.settle(*rounds),
            other => {
                self.print_own(other)?;
                Ok(None)
            }
        }
    }

    /// What a line prints by itself.
    fn print_own(&mut self, act: &Act) -> Result<(), AllocError> {
        match act {
            Act::Step(_) | Act::Settle(_) => Ok(()),
            Act::Lock { node, group } => self.print_lock(*node, group),
            Act::Outbox { from, to } => self.print_outbox(*from, *to),
            Act::History(group) => {
                let (entries, last) = self.stage.world.history(group);
                print_history(&mut self.out, entries, last)
            }
        }
    }

    /// Makes rounds, so many at most; and by which fault a step was refused.
    fn settle(&mut self, rounds: u32) -> Result<Option<NodeFault>, AllocError> {
        let count = self.starts.len();
        match settle(&mut self.stage, count, rounds) {
            Ok(()) => Ok(None),
            Err(Halt::Refused(fault)) => Ok(Some(fault)),
            Err(Halt::OutOfMemory) => Err(AllocError),
        }
    }

    /// Prints what was seen and not printed yet.
    fn print_sights(&mut self) -> Result<(), AllocError> {
        let (Some(columns), Some(watch)) = (&self.columns, &self.stage.watch) else {
            return Ok(());
        };
        if let Some(new) = watch.sights.get(self.told..) {
            print_seen(&mut self.out, columns, watch, new)?;
        }
        self.told = watch.sights.len();
        Ok(())
    }

    /// Prints whether a node sees the lock of a group free.
    fn print_lock(&mut self, place: usize, group: &Term) -> Result<(), AllocError> {
        let Some(start) = self.starts.get(place) else {
            return Ok(());
        };
        match self.stage.world.node(place) {
            Some(node) => {
                let is_free = node.state().holder(group).is_none();
                print_lock(&mut self.out, &start.name, group, is_free)
            }
            None => Ok(()),
        }
    }

    /// Prints how many bytes wait at a node to go to another.
    fn print_outbox(&mut self, from: usize, to: usize) -> Result<(), AllocError> {
        let (Some(start), Some(other)) = (self.starts.get(from), self.starts.get(to)) else {
            return Ok(());
        };
        let len = outbox_len(&self.stage.world, from, to);
        print_outbox(&mut self.out, &start.name, &other.name, len)
    }

    /// Prints all answers that are new, by node.
    fn print_answers(&mut self) -> Result<(), AllocError> {
        for place in 0..self.starts.len() {
            self.print_answers_of(place)?;
        }
        Ok(())
    }

    /// Prints the answers of a node that are new.
    fn print_answers_of(&mut self, place: usize) -> Result<(), AllocError>
        requires { place < length self.old.starts.now }
        ensures { length self.new.starts.now ≡ length self.old.starts.now }
    {
        let starts = self.starts;
        let answers = answers_of(&self.stage.world, place);
        if let Some(new) = answers.get(self.printed[place]..) {
            print_all(&mut self.out, &starts[place].name, new)?;
            if let Some(watch) = &mut self.stage.watch {
                see_answers(watch, place, new)?;
            }
        }
        self.printed[place] = answers.len();
        Ok(())
    }
}

/// Prints sights of a watch, one after another.
fn print_seen(
    out: &mut String,
    columns: &Columns,
    watch: &Watch,
    sights: &[Sight],
) -> Result<(), AllocError> {
    for sight in sights {
        columns.print(out, watch, sight)?;
    }
    Ok(())
}

/// Prints answers of a node, one after another.
fn print_all(out: &mut String, node: &Atom, answers: &[Answer]) -> Result<(), AllocError>
    ensures { OnOk result (GrowsBy (answer_lines node.now answers.now) (string_bytes out.old) (string_bytes out.new)) }
{
    for answer in answers {
        print_answer(out, node, answer)?;
    }
    Ok(())
}

/// Has a watch see answers of a node.
fn see_answers(watch: &mut Watch, place: usize, answers: &[Answer]) -> Result<(), AllocError> {
    for answer in answers {
        watch.answered(place, answer)?;
    }
    Ok(())
}

/// All answers of a node, at its one port.
fn answers_of(world: &World<IndexTable>, place: usize) -> &[Answer] {
    match world.node(place) {
        Some(node) if node.state().port_count() > 0 => node.state().answers(0),
        _ => &[],
    }
}

/// How many bytes wait at a node to go to another.
fn outbox_len(world: &World<IndexTable>, from: usize, to: usize) -> usize {
    // The peers of a node are the others, in their order.
    let peer = if to < from { to } else { to.saturating_sub(1) };
    match world.node(from) {
        Some(node) if peer < node.state().peer_count() => node.outbox(peer).len(),
        _ => 0,
    }
}

/// Runs a script from the start of its configuration, and writes what it prints. For each line that is its own print,
/// the new answers by node and then in their order, and, where a step was refused, the number of the refusal; the run
/// then goes on.
///
/// Errors: `World`, where `World::new` refuses the configuration, and then nothing is written; `OutOfMemory`;
/// `WriteFault`, where a write or a flush failed. What was written is the first of what is printed.
///
/// Cost: that of the world's steps, and of what is printed; one write for each line.
pub fn run_script<W: Sink>(alloc: Global, script: &Script, writer: &mut W) -> Result<(), RunFault>
    ensures appended { (text : List ℕ) × Appends (W.contents writer.old) (W.contents writer.new) text }
    ensures flushed { OnOk result (W.flushed writer.new) }
    ensures good { OnOk result (CanRun script.now.config.ring script.now.config.starts.items) }
    ensures fault { IfErr result (CausedBy script.now.config (writer.new ≡ writer.old) (FailedAt W.fails writer.new)) }
{
    match begun(alloc, script) {
        Ok(begun) => {
            let mut run = begun;
            let ended = run_lines(&mut run, script.lines.as_slice(), writer);
            drop(run);
            ended
        }
        Err(fault) => Err(fault),
    }
}

/// Runs a script as `run_script` does, and gives what was seen of it. `is_told`: what is seen is printed, too, before
/// all else that a line prints, after a line of the columns' names; what was seen before the first line is before
/// that.
///
/// Errors: those of `run_script`.
///
/// Cost: that of `run_script`, and of a `Watch` of its world.
pub fn watch_script<W: Sink>(
    alloc: Global,
    script: &Script,
    is_told: bool,
    writer: &mut W,
) -> Result<Watch, RunFault>
    ensures appended { (text : List ℕ) × Appends (W.contents writer.old) (W.contents writer.new) text }
    ensures flushed { OnOk result (W.flushed writer.new) }
    ensures good { OnOk result (CanRun script.now.config.ring script.now.config.starts.items) }
    ensures fault { IfErr result (CausedBy script.now.config (writer.new ≡ writer.old) (FailedAt W.fails writer.new)) }
{
    match begun(alloc, script) {
        Ok(begun) => {
            let mut run = begun;
            let watched = run_watched(&mut run, script.lines.as_slice(), is_told, writer);
            drop(run);
            watched
        }
        Err(fault) => Err(fault),
    }
}

/// Runs lines one after another, watched, and writes what they print.
fn run_watched<W: Sink>(
    run: &mut Run<'_>,
    lines: &[ScriptLine],
    is_told: bool,
    writer: &mut W,
) -> Result<Watch, RunFault>
    ensures appended { (text : List ℕ) × Appends (W.contents writer.old) (W.contents writer.new) text }
    ensures flushed { OnOk result (W.flushed writer.new) }
    ensures fault { IfErr result (Refused (FailedAt W.fails writer.new)) }
{
    run.watch(lines, is_told)?;
    put_whole(writer, run.out.as_bytes())?;
    run_lines(run, lines, writer)?;
    match run.stage.watch.take() {
        Some(watch) => Ok(watch),
        None => Err(RunFault::OutOfMemory),
    }
}

/// A run of a script that begins. It is not watched.
fn begun(alloc: Global, script: &Script) -> Result<Run<'_>, RunFault>
    ensures good { OnOk result (CanRun script.now.config.ring script.now.config.starts.items) }
    ensures fault { IfErr result (CantRun script.now.config) }
{
    let starts = script.config.starts.as_slice();
    let printed = Vec::from_elem(alloc, 0, starts.len())?;
    match World::new(alloc, &script.config) {
        Ok(world) => Ok(Run {
            alloc,
            stage: Stage { world, watch: None },
            starts,
            printed,
            out: String::new(alloc),
            columns: None,
            told: 0,
        }),
        Err(fault) => Err(RunFault::World(fault)),
    }
}

impl Run<'_> {
    /// Watches the run, which has these lines, from now on. `is_told`: what is seen is printed, that of the begin now.
    fn watch(&mut self, lines: &[ScriptLine], is_told: bool) -> Result<(), AllocError> {
        let watch = Watch::new(self.alloc, self.starts, &self.stage.world)?;
        drop(self.stage.watch.replace(watch));
        if is_told {
            self.print_head(lines)?;
        }
        self.print_sights()
    }

    /// Prints the names of the columns, which are printed from now on.
    fn print_head(&mut self, lines: &[ScriptLine]) -> Result<(), AllocError> {
        let Some(watch) = &self.stage.watch else {
            return Ok(());
        };
        let columns = Columns::new(self.alloc, watch, last_line(lines));
        self.columns = Some(columns);
        columns.print_head(&mut self.out)
    }
}

/// The number of the last of these lines.
fn last_line(lines: &[ScriptLine]) -> usize {
    match lines.last() {
        Some(line) => line.number,
        None => 0,
    }
}

/// Runs lines one after another, and writes what they print.
fn run_lines<W: Sink>(
    run: &mut Run<'_>,
    lines: &[ScriptLine],
    writer: &mut W,
) -> Result<(), RunFault>
    ensures appended { (text : List ℕ) × Appends (W.contents writer.old) (W.contents writer.new) text }
    ensures flushed { OnOk result (W.flushed writer.new) }
    ensures fault { IfErr result (Refused (FailedAt W.fails writer.new)) }
{
    for line in lines {
        run.line(line)?;
        put_whole(writer, run.out.as_bytes())?;
    }
    match writer.flush_all() {
        Ok(()) => Ok(()),
        Err(_) => Err(RunFault::WriteFault),
    }
}
