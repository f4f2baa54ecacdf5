//! Each growth of memory may be refused once in an example: the step says so, every node is as it was, and the step is made
//! again. Each test passes whichever growth is refused.

use crate::examples::{
    CLOSEST_MEMBER, DELETE_BETWEEN_LOOK_AND_LOCK, END_BEATS_LATE_JOIN, Example, FORMATION,
    INITIAL_TABLES, JOIN_TWICE_LEAVE_ONCE, LOSS_DROPS_MEMBERS, LOSS_FREES_LOCK, LOSS_LEAVES_OUT,
    NEW_GREATEST, TWO_CREATORS,
};
use crate::schedules::{are_same_worlds, holds, schedule_of};
use crate::slow::{World, state_of};
use pg_script::{Config, NodeFault, Step, print_answer};
use std::alloc::{AllocError, Global};
use std::process::Abort;

// The world of a configuration, made a second time where memory was refused.
fn new_world(rt: &impl Abort, alloc: Global, config: &Config) -> World {
    match World::new(alloc, config) {
        Ok(world) => world,
        Err(_) => World::new(alloc, config).ok().expect(rt, "memory"),
    }
}

// Whether a step does the same in two worlds, where it is made again if memory was refused: all of so many nodes were as in the other,
// then.
fn does_same(one: &mut World, other: &mut World, nodes: usize, step: &Step) -> bool {
    let first = match one.step(step) {
        Err(NodeFault::OutOfMemory) if are_same_worlds(one, other, nodes) => one.step(step),
        stepped => stepped,
    };
    let second = match other.step(step) {
        Err(NodeFault::OutOfMemory) => other.step(step),
        stepped => stepped,
    };
    first == second
}

fn print_answers(out: &mut String, world: &World, nodes: usize) -> Result<(), AllocError> {
    for place in 0..nodes {
        if let Some(node) = state_of(world, place) {
            if node.port_count() == 1 {
                for answer in node.answers(0) {
                    print_answer(out, node.own(), answer)?;
                }
            }
        }
    }
    Ok(())
}

// Whether these are the answers of the nodes. It is asked a second time where memory was refused.
fn are_answers(alloc: Global, world: &World, nodes: usize, answers: &str) -> bool {
    let mut text = String::new(alloc);
    let mut told = print_answers(&mut text, world, nodes);
    if told.is_err() {
        text.clear();
        told = print_answers(&mut text, world, nodes);
    }
    let are_said = told.is_ok() && text.as_str() == answers;
    drop(text);
    are_said
}

fn check(rt: &impl Abort, alloc: Global, example: &Example<'_>) {
    let schedule = match schedule_of(alloc, example.script, 5) {
        Some(schedule) => schedule,
        None => schedule_of(alloc, example.script, 5).expect(rt, "memory"),
    };
    let nodes = schedule.config.starts.len();
    let mut one = new_world(rt, alloc, &schedule.config);
    let mut other = new_world(rt, alloc, &schedule.config);
    for (number, step) in schedule.steps.as_slice().iter().enumerate() {
        let is_same = does_same(&mut one, &mut other, nodes, step);
        holds(rt, is_same, "the same by step", number);
    }
    let are_same = are_same_worlds(&one, &other, nodes);
    holds(rt, are_same, "same nodes:", nodes);
    let are_answers = are_answers(alloc, &one, nodes, example.answers);
    holds(rt, are_answers, "answers of nodes:", nodes);
    drop(one);
    drop(other);
    drop(schedule);
}

#[test]
fn two_nodes(rt: HostRuntime) {
    for example in [
        JOIN_TWICE_LEAVE_ONCE,
        DELETE_BETWEEN_LOOK_AND_LOCK,
        TWO_CREATORS,
    ] {
        check(&rt, rt.alloc(), &example);
    }
}

#[test]
fn nodes_that_start_with_groups(rt: HostRuntime) {
    for example in [INITIAL_TABLES, END_BEATS_LATE_JOIN, CLOSEST_MEMBER] {
        check(&rt, rt.alloc(), &example);
    }
}

#[test]
fn three_nodes(rt: HostRuntime) {
    for example in [FORMATION, NEW_GREATEST] {
        check(&rt, rt.alloc(), &example);
    }
}

#[test]
fn losses(rt: HostRuntime) {
    for example in [LOSS_DROPS_MEMBERS, LOSS_FREES_LOCK, LOSS_LEAVES_OUT] {
        check(&rt, rt.alloc(), &example);
    }
}
