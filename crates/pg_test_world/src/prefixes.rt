//! After each prefix of the steps of an example the headline holds, or what survives losses, by a slow reading.

use crate::examples::{
    DELETE_BETWEEN_LOOK_AND_LOCK, END_BEATS_LATE_JOIN, Example, INITIAL_TABLES,
    JOIN_TWICE_LEAVE_ONCE, LOSS_DROPS_MEMBERS, LOSS_LEAVES_OUT, TWO_CREATORS,
};
use crate::schedules::{Schedule, first_pids, holds, put_heard, scene_of, schedule_of};
use crate::slow::{Heard, World, are_answered, is_query_told};
use pg_script::{Step, Stepped, run};
use pg_term::Pid;
use std::alloc::Global;
use std::process::Abort;

// Whether the headline holds after these steps, by which these exchanges were taken, what is answered stands in the histories, and the
// last step, if it is a query, is answered by the table.
fn is_right(
    alloc: Global,
    schedule: &Schedule,
    pids: &[Pid],
    heard: &[Heard],
    steps: &[Step],
) -> bool {
    match run(alloc, &schedule.config, steps) {
        Ok((world, numbers)) => {
            let scene = scene_of(alloc, schedule, &world, pids, heard);
            let is_right = scene.fault().is_none()
                && are_answered(scene, schedule.steps.as_slice())
                && is_query_told(scene, steps);
            drop(world);
            drop(numbers);
            is_right
        }
        Err(_) => false,
    }
}

fn check(rt: &impl Abort, alloc: Global, example: &Example<'_>) {
    let schedule = schedule_of(alloc, example.script, 4).expect(rt, "memory");
    let starts = schedule.config.starts.as_slice();
    let pids = first_pids(rt, alloc, starts, 2);
    let mut world = World::new(alloc, &schedule.config).expect(rt, "memory");
    let mut heard = Vec::new(alloc);
    let steps = schedule.steps.as_slice();
    for len in 0..steps.len().saturating_add(1) {
        let (some, rest) = steps.split_at(len);
        let is_right = is_right(alloc, &schedule, pids.as_slice(), heard.as_slice(), some);
        holds(rt, is_right, "the headline after steps:", len);
        if let Some(step) = rest.first() {
            let has_happened = matches!(world.step(step), Ok(Stepped::Happened(_)));
            put_heard(&mut heard, step, has_happened)
                .ok()
                .expect(rt, "memory");
        }
    }
    drop(world);
    drop(heard);
    drop(pids);
    drop(schedule);
}

const EXAMPLES: &[Example] = &[
    JOIN_TWICE_LEAVE_ONCE,
    TWO_CREATORS,
    INITIAL_TABLES,
    END_BEATS_LATE_JOIN,
    DELETE_BETWEEN_LOOK_AND_LOCK,
    LOSS_DROPS_MEMBERS,
    LOSS_LEAVES_OUT,
];

// After each prefix there is one history, or what survives losses.
#[test]
fn each_prefix_is_right(rt: HostRuntime) {
    for example in EXAMPLES {
        check(&rt, rt.alloc(), example);
    }
}
