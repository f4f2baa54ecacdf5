//! The loop of a node's thread.

ghost use Rattle.std.specs.Prelude.{◌≤◌};
ghost use Rattle.pg_node_run.specs.Runs.{Runs, RanBy, Ended, stop_of};

use crate::rest::Rest;
use crate::run::{NodeRun, Turned};
use pg_node::{GroupTable, Inlet, Link};
use rand_core::Rng;
use std::thread;
use std::time::Clock;

/// What a node passes at the start of each turn.
pub trait Gate {
    /// Lets the node at this place into this turn, counted from 0. `clock`: that of the node then.
    fn pass(&self, node: usize, turn: u64, clock: u32);
}

/// A node that has run.
#[derive(Drop)]
pub struct Ran<T: GroupTable, L: Drop, I: Drop, K: Drop> {
    /// The node.
    pub run: NodeRun<T, L, I, K>,
    /// How many turns it made; that in which it was stopped counts not.
    pub turns: u64,
    /// How many of them were short.
    pub short: u64,
}

/// Runs the node at a place until the stop byte comes, or for `limit` turns. A node that found nothing to do rests by
/// the clock, as `Rest` says; while a command of its is in a pause, which is counted in turns, it only yields the
/// processor.
///
/// Cost: that of the turns.
pub fn run_node<
    T: GroupTable + Drop,
    L: Link + Drop,
    I: Inlet + Drop,
    K: Rng + Drop,
    G: Gate,
    C: Clock,
>(place: usize, run: NodeRun<T, L, I, K>, gate: &G, clock: &C, limit: u64) -> Ran<T, L, I, K>
    ensures runs { Runs L.accepts I.gives run result.run }
    ensures turns { result.turns ≤ limit }
    ensures short { result.short ≤ result.turns }
    ensures made { RanBy L.accepts I.gives L.moves I.moves run result }
    ensures ended { Ended I.gives (stop_of run) (stop_of result.run) limit result.turns }
{
    let mut run = run;
    let mut turns = 0;
    let mut short = 0;
    let mut rest = Rest::new();
    for turn in 0..limit {
        gate.pass(place, turn, run.linked.node().state().clock());
        match run.turn() {
            Turned::Stopped => break,
            Turned::Whole => {}
            Turned::Short => short += 1,
        }
        turns = turn + 1;
        go_on(&run, &mut rest, clock);
    }
    Ran { run, turns, short }
}

/// Rests where the last turn of the node found nothing to do.
fn go_on<T: GroupTable + Drop, L: Link + Drop, I: Inlet + Drop, K: Rng + Drop, C: Clock>(
    run: &NodeRun<T, L, I, K>,
    rest: &mut Rest,
    clock: &C,
) {
    if run.is_busy() {
        rest.found();
    } else if run.is_pausing() {
        rest.found();
        thread::yield_now();
    } else {
        rest.rest(clock);
    }
}
