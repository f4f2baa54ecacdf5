//! What a survey finds.

ghost use Rattle.std.specs.Prelude.{◌≡◌, ◌↔◌, ◌<◌, ◌≤◌, IsTrue, IfOk, IfErr, length, max};
ghost use Rattle.std.specs.Option.{option_copied};
ghost use Rattle.pg_explore.specs.Explorations.{AreUnlike, AreFollowed, AreReached};
ghost use Rattle.pg_explore.specs.Faults.{CantExplore};
ghost use Rattle.pg_explore.specs.Ways.{AreWays};
ghost use Rattle.pg_explore.specs.declared.fault.ExploreFault.TheVariants.{OutOfMemory};
ghost use Rattle.pg_explore_survey.specs.Findings.{IsCounted, end_numbered, end_places, led_in, met_in, moment_at};
ghost use Rattle.pg_explore_survey.specs.Ways.{AreWaysOf, all_led};

use crate::recorder::{Observer, Recorder, Ways};
use crate::scenario::Scenario;
use crate::tally::{Tally, tally_of};
use pg_explore::{ExploreFault, Explored, Led, Limits, Moment, explore};
use std::alloc::{AllocError, Global};

/// What a survey found: the worlds that were met, the ways between them, and what was counted of them.
#[derive(Drop)]
pub struct Findings<'a, 'b> {
    pub(crate) alloc: Global,
    pub(crate) scenario: &'a Scenario<'b>,
    pub(crate) explored: Explored,
    pub(crate) ways: Ways,
    pub(crate) tally: Tally,
}

impl Findings<'_, '_> {
    /// Whether all worlds were explored.
    ///
    /// Cost: no memory.
    pub fn is_whole(&self) -> bool
        ensures { IsTrue result ↔ (length (met_in self.now) ≤ self.now.explored.lent) }
    {
        self.explored.is_whole()
    }

    /// How many ends were met.
    ///
    /// Cost: no memory.
    pub fn end_count(&self) -> usize
        ensures { result ≡ length (end_places self.now) }
    {
        self.tally.ends.len()
    }

    /// The place of an end, from 1 on.
    pub(crate) fn end_place(&self, number: usize) -> Option<usize>
        ensures { result ≡ end_numbered (end_places self.now) number }
    {
        if number < 1 {
            return None;
        }
        self.tally.ends.as_slice().get(number - 1).copied()
    }

    /// The moment of an end, from 1 on.
    ///
    /// Cost: no memory.
    pub fn end(&self, number: usize) -> Option<&Moment>
        ensures { option_copied result ≡ moment_at (met_in self.now) (end_numbered (end_places self.now) number) }
    {
        match self.end_place(number) {
            Some(place) => match self.explored.met().get(place) {
                Some(met) => Some(&met.moment),
                None => None,
            },
            None => None,
        }
    }
}

/// Explores a scenario within limits.
///
/// Errors: those of `explore`.
///
/// Cost: that of `explore`, and memory for each step that happens at a world. For each world that was met, its nodes
/// are compared by `same_group` on each group, and its pending ends are listed.
pub fn survey<'a, 'b, O: Observer>(
    alloc: Global,
    scenario: &'a Scenario<'b>,
    limits: Limits,
    observer: &mut O,
) -> Result<Findings<'a, 'b>, ExploreFault>
    ensures reached { IfOk result (λ found. AreReached scenario.now.config.starts.items scenario.now.plans.items limits.retries (met_in found)) }
    ensures distinct { IfOk result (λ found. AreUnlike (met_in found)) }
    ensures first { IfOk result (λ found. 0 < length (met_in found)) }
    ensures few { IfOk result (λ found. length (met_in found) ≤ max 1 limits.worlds) }
    ensures followed { IfOk result (λ found. AreFollowed scenario.now.plans.items limits.retries (met_in found) found.explored.lent) }
    ensures cut { IfOk result (λ found. found.explored.lent < length (met_in found) → limits.worlds ≤ length (met_in found)) }
    ensures ways { IfOk result (λ found. AreWays scenario.now.plans.items limits.retries (met_in found) found.explored.lent (led_in found)) }
    ensures scenario { IfOk result (λ found. found.scenario.now ≡ scenario.now) }
    ensures counted { IfOk result IsCounted }
    ensures fault { IfErr result (CantExplore scenario.now.config) }
{
    let mut recorder = Recorder {
        alloc,
        led: Vec::new(alloc),
        observer,
    };
    let explored = explore(
        alloc,
        &scenario.config,
        scenario.plans.as_slice(),
        limits,
        &mut recorder,
    );
    let Recorder {
        alloc: _,
        led,
        observer: _,
    } = recorder;
    match explored {
        Ok(explored) => counted(alloc, scenario, explored, led),
        Err(fault) => {
            drop(led);
            Err(fault)
        }
    }
}

/// What is found of the worlds that were met.
///
/// Errors: `OutOfMemory`.
fn counted<'a, 'b>(
    alloc: Global,
    scenario: &'a Scenario<'b>,
    explored: Explored,
    led: Vec<Vec<Led>>,
) -> Result<Findings<'a, 'b>, ExploreFault>
    ensures explored { IfOk result (λ found. found.explored ≡ explored) }
    ensures scenario { IfOk result (λ found. found.scenario.now ≡ scenario.now) }
    ensures led { IfOk result (λ found. found.ways.led ≡ led) }
    ensures counted { IfOk result IsCounted }
    ensures fault { IfErr result (λ fault. fault ≡ OutOfMemory) }
{
    match Ways::of(alloc, led) {
        Ok(ways) => found_of(alloc, scenario, explored, ways),
        Err(AllocError) => {
            drop(explored);
            Err(ExploreFault::OutOfMemory)
        }
    }
}

/// What is found of the worlds that were met, and of the ways between them.
///
/// Errors: `OutOfMemory`.
fn found_of<'a, 'b>(
    alloc: Global,
    scenario: &'a Scenario<'b>,
    explored: Explored,
    ways: Ways,
) -> Result<Findings<'a, 'b>, ExploreFault>
    requires { AreWaysOf (all_led ways.led.items) ways.ways.items }
    ensures explored { IfOk result (λ found. found.explored ≡ explored) }
    ensures scenario { IfOk result (λ found. found.scenario.now ≡ scenario.now) }
    ensures led { IfOk result (λ found. found.ways.led ≡ ways.led) }
    ensures counted { IfOk result IsCounted }
    ensures fault { IfErr result (λ fault. fault ≡ OutOfMemory) }
{
    match tally_of(alloc, scenario, explored.met(), ways.ways.as_slice()) {
        Ok(tally) => Ok(Findings {
            alloc,
            scenario,
            explored,
            ways,
            tally,
        }),
        Err(AllocError) => {
            drop(explored);
            drop(ways);
            Err(ExploreFault::OutOfMemory)
        }
    }
}
