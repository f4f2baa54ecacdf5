//! The open commands of a node, turn by turn: steps, and what is seen of the commands after each.

mod scripts;
mod sights;
mod steps;

use crate::commands::scripts::{ASKED, Both, DENIED, GATHERED, LOST, READY, Row, SAME, TAKEN_BACK};
use crate::commands::sights::see;
use crate::commands::steps::{go_all, opens_of_a};
use crate::samples::row_holds;
use std::alloc::Global;
use std::process::Abort;

/// Who is the greatest, who is asked, what is gathered, taken back and denied, and what a loss makes ready.
#[test]
fn turns_of_commands(rt: HostRuntime) {
    for rows in [LOST, ASKED, GATHERED, TAKEN_BACK, DENIED, READY] {
        run(&rt, rt.alloc(), rows);
    }
}

fn run(rt: &impl Abort, alloc: Global, rows: &[Row]) {
    let mut opens = opens_of_a(rt, alloc);
    for (row, (steps, sights)) in rows.iter().enumerate() {
        go_all(rt, &mut opens, steps);
        for sight in *sights {
            row_holds(rt, see(rt, alloc, &opens, *sight), row);
        }
    }
    drop(opens);
}

/// Commands that were opened in another order are the same ones, as long as they stand alike.
#[test]
fn same_in_another_order(rt: HostRuntime) {
    run_both(&rt, rt.alloc(), SAME);
}

fn run_both(rt: &impl Abort, alloc: Global, rows: &[Both]) {
    let mut one = opens_of_a(rt, alloc);
    let mut other = opens_of_a(rt, alloc);
    row_holds(rt, (one.same(&other), other.same(&one)) == (true, true), 0);
    for (row, (is_first, steps, sights, same)) in rows.iter().enumerate() {
        let opens = if *is_first { &mut one } else { &mut other };
        go_all(rt, opens, steps);
        for sight in *sights {
            row_holds(rt, see(rt, alloc, opens, *sight), row);
        }
        let are_same = (one.same(&other), other.same(&one)) == (*same, *same);
        row_holds(rt, are_same, row);
    }
    drop(one);
    drop(other);
}
