//! `pg2sim explore`.

ghost use Rattle.std.specs.Prelude.{◌≡◌, ◌⊎◌, ◌<◌, ◌≤◌, IfErr, IfOk, Ok, length, max, option_map, string_bytes};
ghost use Rattle.pg_explore.specs.Explorations.{AreUnlike, AreFollowed, AreReached};
ghost use Rattle.pg_explore.specs.Faults.{CantExplore};
ghost use Rattle.pg_explore.specs.Ways.{AreWays};
ghost use Rattle.pg_cluster.specs.PgNode.Replicas.Causes.{FailedAt};
ghost use Rattle.pg_script.specs.Scripts.{Contents};
ghost use Rattle.pg_explore_survey.specs.Findings.{IsCounted, led_in, met_in};
ghost use Rattle.pg_explore_survey.specs.Scenarios.{IsScenarioOf};
ghost use Rattle.pg_program.specs.Explorations.{ExploreEnd, IsAnswer, NotPictured};
ghost use Rattle.pg_program.specs.Explorations.{PlannedEnd, Shown, WhyNot, bytes_planned};
ghost use Rattle.pg_program.specs.Inputs.{IsInput, IsUnread};

use crate::fault::Fault;
use crate::input::{read_input, text_of};
use crate::script::script_fault;
use crate::system::System;
use crate::threads::print;
use crate::words::Quest;
use pg_cluster::WorldFault;
use pg_explore::{ExploreFault, Limits};
use pg_explore_survey::{Findings, Observer, Scenario, read_scenario, survey};
use pg_script::{RunFault, graph_svg};
use pg_streams::{Sink, Source};
use pg_term::faults::{NO_SUCH_PLACE, OUT_OF_MEMORY, TOO_LONG};
use std::alloc::{AllocError, Global};

/// Explores the script that the input is, and writes what was found; whether all worlds were met.
pub(crate) fn explore_input<R: Source, W: Sink, D: System>(
    alloc: Global,
    quest: Quest<'_>,
    reader: &mut R,
    writer: &mut W,
    system: &mut D,
) -> Result<bool, Fault>
    ensures { ExploreEnd (IsInput R.remaining R.gives reader.old reader.new) (IsUnread R.gives R.fails reader.old reader.new) quest.entry (writer.new ≡ writer.old)
        (FailedAt W.fails writer.new ⊎ FailedAt D.fails system.new) (W.flushed writer.new) (W.contents writer.old) (W.contents writer.new) result }
{
    match read_input(alloc, reader) {
        Ok(input) => {
            let told = explore_bytes(alloc, quest, input.as_slice(), writer, system);
            drop(input);
            told
        }
        Err(fault) => Err(fault),
    }
}

/// Explores the script of these bytes, and writes what was found.
fn explore_bytes<W: Sink, D: System>(
    alloc: Global,
    quest: Quest<'_>,
    input: &[u8],
    writer: &mut W,
    system: &mut D,
) -> Result<bool, Fault>
    ensures { PlannedEnd (bytes_planned input.now) quest.entry (writer.new ≡ writer.old)
        (FailedAt W.fails writer.new ⊎ FailedAt D.fails system.new) (W.flushed writer.new) (W.contents writer.old) (W.contents writer.new) result }
{
    let text = match text_of(input) {
        Ok(text) => text,
        Err(fault) => return Err(fault),
    };
    match read_scenario(alloc, text) {
        Ok(scenario) => {
            let told = explore_scenario(alloc, quest, &scenario, writer, system);
            drop(scenario);
            told
        }
        Err(fault) => Err(script_fault(fault)),
    }
}

/// Shows on a system how far an exploration is.
#[derive(Drop)]
struct Looking<'a, D> {
    system: &'a mut D,
    limit: u64,
}

impl<D: System> Observer for Looking<'_, D> {
    fn look(&mut self, explored: u64) {
        self.system.look(explored, self.limit);
    }
}

/// Explores a scenario, and writes what was found.
fn explore_scenario<W: Sink, D: System>(
    alloc: Global,
    quest: Quest<'_>,
    scenario: &Scenario<'_>,
    writer: &mut W,
    system: &mut D,
) -> Result<bool, Fault>
    ensures { (contents : Contents) → IsScenarioOf contents scenario.now → PlannedEnd (Ok contents) quest.entry (writer.new ≡ writer.old)
        (FailedAt W.fails writer.new ⊎ FailedAt D.fails system.new) (W.flushed writer.new) (W.contents writer.old) (W.contents writer.new) result }
{
    match found_in(alloc, quest, scenario, system) {
        Ok(found) => {
            let told = show_found(alloc, quest, &found, writer, system);
            drop(found);
            told
        }
        Err(fault) => Err(explore_fault(fault)),
    }
}

/// Explores a scenario, and shows on a system how far it is.
fn found_in<'a, 'b, D: System>(
    alloc: Global,
    quest: Quest<'_>,
    scenario: &'a Scenario<'b>,
    system: &mut D,
) -> Result<Findings<'a, 'b>, ExploreFault>
    ensures reached { IfOk result (λ found. AreReached scenario.now.config.starts.items scenario.now.plans.items quest.entry.retries (met_in found)) }
    ensures distinct { IfOk result (λ found. AreUnlike (met_in found)) }
    ensures first { IfOk result (λ found. 0 < length (met_in found)) }
    ensures few { IfOk result (λ found. length (met_in found) ≤ max 1 quest.entry.limit) }
    ensures followed { IfOk result (λ found. AreFollowed scenario.now.plans.items quest.entry.retries (met_in found) found.explored.lent) }
    ensures cut { IfOk result (λ found. found.explored.lent < length (met_in found) → quest.entry.limit ≤ length (met_in found)) }
    ensures ways { IfOk result (λ found. AreWays scenario.now.plans.items quest.entry.retries (met_in found) found.explored.lent (led_in found)) }
    ensures scenario { IfOk result (λ found. found.scenario.now ≡ scenario.now) }
    ensures counted { IfOk result IsCounted }
    ensures fault { IfErr result (CantExplore scenario.now.config) }
{
    let limits = Limits {
        worlds: quest.limit as usize,
        retries: quest.retries,
    };
    let mut looking = Looking {
        system,
        limit: quest.limit,
    };
    let found = survey(alloc, scenario, limits, &mut looking);
    let Looking { system, limit: _ } = looking;
    system.look_away();
    found
}

/// Makes the file of the state graph, where one is asked for, and writes what was found.
fn show_found<W: Sink, D: System>(
    alloc: Global,
    quest: Quest<'_>,
    found: &Findings<'_, '_>,
    writer: &mut W,
    system: &mut D,
) -> Result<bool, Fault>
    ensures { Shown quest.entry found.now (writer.new ≡ writer.old) (FailedAt W.fails writer.new ⊎ FailedAt D.fails system.new) (W.flushed writer.new)
        (W.contents writer.old) (W.contents writer.new) result }
{
    if let Some(name) = quest.graph {
        match draw(alloc, found, name, system) {
            Ok(()) => {}
            Err(fault) => return Err(fault),
        }
    }
    print_found(quest, found, writer)
}

/// Writes what was found.
fn print_found<W: Sink>(
    quest: Quest<'_>,
    found: &Findings<'_, '_>,
    writer: &mut W,
) -> Result<bool, Fault>
    ensures { Shown quest.entry found.now (writer.new ≡ writer.old) (FailedAt W.fails writer.new) (W.flushed writer.new)
        (W.contents writer.old) (W.contents writer.new) result }
{
    match text_asked(quest.show, quest.is_differing, found) {
        Ok(Some(text)) => print(writer, text.as_bytes(), found.is_whole()),
        Ok(None) => Err(Fault::Given(NO_SUCH_PLACE)),
        Err(AllocError) => Err(Fault::Run(OUT_OF_MEMORY)),
    }
}

/// What is to be printed: what was counted, or a run; `None` where there is no such run.
///
/// Error: `AllocError`.
fn text_asked(
    show: u64,
    is_differing: bool,
    found: &Findings<'_, '_>,
) -> Result<Option<String>, AllocError>
    ensures { IfOk result (λ text. IsAnswer show is_differing found.now (option_map string_bytes text)) }
{
    if show > 0 {
        return found.script_to_end(show as usize);
    }
    if is_differing {
        return found.script_of_differing();
    }
    match found.page() {
        Ok(page) => Ok(Some(page)),
        Err(AllocError) => Err(AllocError),
    }
}

/// Makes a file that holds the state graph.
fn draw<D: System>(
    alloc: Global,
    found: &Findings<'_, '_>,
    name: &str,
    system: &mut D,
) -> Result<(), Fault>
    ensures { IfErr result (NotPictured (FailedAt D.fails system.new) (length (met_in found.now))) }
{
    let graph = match found.graph() {
        Ok(Some(graph)) => graph,
        Ok(None) => return Err(Fault::Given(TOO_LONG)),
        Err(AllocError) => return Err(Fault::Run(OUT_OF_MEMORY)),
    };
    let picture = match graph_svg(alloc, &graph) {
        Ok(picture) => picture,
        Err(AllocError) => return Err(Fault::Run(OUT_OF_MEMORY)),
    };
    match system.put(name, picture.as_bytes()) {
        Ok(()) => Ok(()),
        Err(_) => Err(Fault::Run(RunFault::WriteFault.number())),
    }
}

/// What is told of an exploration that ended early.
fn explore_fault(fault: ExploreFault) -> Fault
    ensures { WhyNot fault result }
{
    match fault {
        ExploreFault::World(WorldFault::OutOfMemory) => Fault::Run(OUT_OF_MEMORY),
        ExploreFault::World(fault) => Fault::Given(fault.number()),
        ExploreFault::OutOfMemory => Fault::Run(OUT_OF_MEMORY),
    }
}
