//! Runs to ends play as scripts, over bytes, and lead there.

use pg_explore::{Limits, Moment};
use pg_explore_survey::{Findings, Observer, read_scenario, survey};
use pg_script::{Act, IndexTable, Script, World, read_script};
use std::alloc::{AllocError, Global};
use std::test::*;

#[derive(Drop)]
struct Quiet;

impl Observer for Quiet {
    fn look(&mut self, _explored: u64) {}
}

// Scripts, and how many ends they have.
const ROWS: &[(&str, usize)] = &[
    ("node a\nnode b\ncreate a g\ncreate b g\n", 9),
    (
        "node a made 1\nnode b\nhas a g <a.1.0>\njoin b g <a.1.0>\nend a <a.1.0>\n",
        4,
    ),
    // A node is lost, with what it sent on the way.
    ("node a\nnode b\ncreate a g\nlose a\n", 7),
];

// Makes the steps of a script; whether all happened, or moved bytes.
fn make_all(world: &mut World<IndexTable>, script: &Script) -> bool {
    for line in script.lines.as_slice() {
        match &line.act {
            Act::Step(step) => {
                if world.step(step).is_err() {
                    return false;
                }
            }
            _ => return false,
        }
    }
    true
}

// Whether the nodes of a world over bytes are those of a moment, but for their clocks.
fn are_alike(world: &World<IndexTable>, moment: &Moment) -> Result<bool, AllocError> {
    for place in 0..moment.strands.len() {
        match (world.node(place), moment.world.node(place)) {
            (Some(node), Some(other)) => {
                if !node.state().is_alike(other)? {
                    return Ok(false);
                }
            }
            _ => return Ok(false),
        }
    }
    Ok(true)
}

fn play(alloc: Global, script: &Script) -> Option<World<IndexTable>> {
    let mut world = World::new(alloc, &script.config).ok()?;
    if make_all(&mut world, script) {
        Some(world)
    } else {
        drop(world);
        None
    }
}

// The world that a script leads to.
fn played(alloc: Global, text: &str) -> Option<World<IndexTable>> {
    let script = read_script(alloc, text).ok()?;
    let played = play(alloc, &script);
    drop(script);
    played
}

// Whether a script leads to the nodes of a moment.
fn leads(alloc: Global, text: &str, moment: &Moment) -> Result<bool, AllocError> {
    match played(alloc, text) {
        Some(world) => {
            let alike = are_alike(&world, moment);
            drop(world);
            alike
        }
        None => Ok(false),
    }
}

// How many runs to ends lead there.
fn good_runs(alloc: Global, findings: &Findings<'_, '_>) -> Result<usize, AllocError> {
    let mut good = 0usize;
    for number in 1..=findings.end_count() {
        if let (Some(text), Some(end)) = (findings.script_to_end(number)?, findings.end(number)) {
            if leads(alloc, text.as_str(), end)? {
                good = good.saturating_add(1);
            }
        }
    }
    Ok(good)
}

// Whether a run in which nodes differ plays.
fn differing_plays(alloc: Global, findings: &Findings<'_, '_>) -> Result<bool, AllocError> {
    let Some(text) = findings.script_of_differing()? else {
        return Ok(false);
    };
    match played(alloc, text.as_str()) {
        Some(world) => {
            drop(world);
            Ok(true)
        }
        None => Ok(false),
    }
}

// Whether all runs to so many ends lead there, and a run in which nodes differ plays.
fn is_good(alloc: Global, script: &str, ends: usize) -> Result<bool, AllocError> {
    let limits = Limits {
        worlds: 10_000,
        retries: 1,
    };
    match read_scenario(alloc, script) {
        Ok(scenario) => match survey(alloc, &scenario, limits, &mut Quiet) {
            Ok(findings) => {
                let good = good_runs(alloc, &findings);
                let plays = differing_plays(alloc, &findings);
                drop(findings);
                Ok(good? == ends && plays?)
            }
            Err(_) => Ok(false),
        },
        Err(_) => Ok(false),
    }
}

#[test]
fn runs_play(rt: HostRuntime) {
    for (script, ends) in ROWS {
        let good = is_good(rt.alloc(), script, *ends) == Ok(true);
        assert!(&rt; good, "{script}");
    }
}
