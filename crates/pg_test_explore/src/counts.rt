//! How many worlds and ends there are.

use pg_explore::{Led, Limits, Met, Visitor, explore};
use pg_explore_survey::read_scenario;
use pg_script::LineFault;
use std::alloc::{AllocError, Global};
use std::test::*;

// Counts what it is lent.
#[derive(Clone, Copy)]
struct Counts {
    worlds: usize,
    ends: usize,
    ways: usize,
}

impl Visitor for Counts {
    fn visit(&mut self, place: usize, _met: &Met, led: &[Led]) -> Result<(), AllocError> {
        // Worlds are lent in the order of their places.
        if place == self.worlds {
            self.worlds = self.worlds.saturating_add(1);
        }
        self.ways = self.ways.saturating_add(led.len());
        if led.is_empty() {
            self.ends = self.ends.saturating_add(1);
        }
        Ok(())
    }
}

// Scripts, and how many worlds, ends and ways they have.
const ROWS: &[(&str, [usize; 3])] = &[
    ("node a\n", [1, 1, 0]),
    // Two creators of one group.
    ("node a\nnode b\ncreate a g\ncreate b g\n", [143, 9, 214]),
    // One creator of three nodes.
    ("node a\nnode b\nnode c\ncreate a g\n", [328, 3, 938]),
    (JOIN_AND_END, [170, 12, 265]),
];

// A join that an end can come before.
const JOIN_AND_END: &str = "node a made 1\nnode b\ncreate a g\nend a <a.1.0>\njoin b g <a.1.0>\n";

// What is counted of a script, at a limit of worlds; whether all are met.
fn counted(alloc: Global, script: &str, worlds: usize, counts: &mut Counts) -> Option<bool> {
    let limits = Limits { worlds, retries: 1 };
    let scenario = read_scenario(alloc, script).ok()?;
    let plans = scenario.plans.as_slice();
    let explored = explore(alloc, &scenario.config, plans, limits, counts);
    drop(scenario);
    let explored = explored.ok()?;
    let is_whole = explored.is_whole();
    drop(explored);
    Some(is_whole)
}

fn has_counts(alloc: Global, script: &str, limit: usize, wanted: [usize; 3], whole: bool) -> bool {
    let mut counts = Counts {
        worlds: 0,
        ends: 0,
        ways: 0,
    };
    counted(alloc, script, limit, &mut counts) == Some(whole)
        && [counts.worlds, counts.ends, counts.ways] == wanted
}

#[test]
fn all_counts(rt: HostRuntime) {
    for (script, counts) in ROWS {
        assert!(&rt;
            has_counts(rt.alloc(), script, 1_000_000, *counts, true),
            "{script}"
        );
    }
    let script = "node a\nnode b\ncreate a g\n";
    assert!(&rt;
        has_counts(rt.alloc(), script, 5, [1, 0, 3], false),
        "the limit is reached"
    );
}

// Lines that are refused, by their number and their fault.
const FAULTY: &[(&str, usize, LineFault)] = &[
    ("ring 9\nnode a\n", 1, LineFault::BadLine),
    ("node a\nsettle\n", 2, LineFault::BadLine),
    ("node a\nnode b\nput a b\n", 3, LineFault::BadLine),
    ("node a\nretry a 1\n", 2, LineFault::BadLine),
    ("node a\nlock a g\n", 2, LineFault::BadLine),
    ("node a\nhistory g\n", 2, LineFault::BadLine),
    ("node a\ncreate b g\nsettle\n", 2, LineFault::UnknownNode),
    ("node a\nmake a\nnode b\n", 3, LineFault::LateDeclaration),
];

#[test]
fn faulty_lines(rt: HostRuntime) {
    for (script, line, fault) in FAULTY {
        let is_told = match read_scenario(rt.alloc(), script) {
            Ok(scenario) => {
                drop(scenario);
                false
            }
            Err(told) => told.line == *line && told.fault == *fault,
        };
        assert!(&rt; is_told, "{script}");
    }
}
