//! A world: two nodes that make one step after another, and the history of a group.

use crate::setting::{two_nodes, workers};
use pg_cluster::{Command, FrameStep, FrameWorld, IndexTable, Stepped};
use pg_term::Term;
use pg_text::write_update;
use std::alloc::Global;

/// `a` makes a group and `b` deletes it: the history of the group.
pub(crate) fn history(alloc: Global) -> Option<String> {
    let mut world = begun(alloc)?;
    settle(&mut world);
    create(alloc, &mut world, 0);
    settle(&mut world);
    delete(alloc, &mut world, 1);
    settle(&mut world);
    let text = told(alloc, &world);
    drop(world);
    text
}

/// The nodes as they start.
fn begun(alloc: Global) -> Option<FrameWorld<IndexTable>> {
    let config = two_nodes(alloc)?;
    let world = FrameWorld::new(alloc, &config);
    drop(config);
    world.ok()
}

/// A node is told to make the group.
fn create(alloc: Global, world: &mut FrameWorld<IndexTable>, node: usize) {
    if let Some(name) = workers(alloc) {
        command(world, node, Command::Create(name));
    }
}

/// A node is told to delete it.
fn delete(alloc: Global, world: &mut FrameWorld<IndexTable>, node: usize) {
    if let Some(name) = workers(alloc) {
        command(world, node, Command::Delete(name));
    }
}

/// A command comes in at the port of a node; whether it did.
fn command(world: &mut FrameWorld<IndexTable>, node: usize, command: Command) -> bool {
    let step = FrameStep::Command {
        node,
        port: 0,
        command,
    };
    is_made(world, step)
}

/// Each node takes the packets on the way to it, until there are none.
fn settle(world: &mut FrameWorld<IndexTable>) {
    for _ in 0..1_000 {
        let at_a = is_made(world, FrameStep::Take { node: 0, peer: 1 });
        let at_b = is_made(world, FrameStep::Take { node: 1, peer: 0 });
        if !at_a && !at_b {
            return;
        }
    }
}

/// Makes a step; whether it happened. A step that is refused changes nothing.
fn is_made(world: &mut FrameWorld<IndexTable>, step: FrameStep) -> bool {
    let stepped = world.step(&step);
    drop(step);
    matches!(stepped, Ok(Stepped::Happened(_)))
}

/// The updates of the group, in their order, each after a space.
fn told(alloc: Global, world: &FrameWorld<IndexTable>) -> Option<String> {
    let name = workers(alloc)?;
    let text = text_of(alloc, world, &name);
    drop(name);
    text
}

fn text_of(alloc: Global, world: &FrameWorld<IndexTable>, name: &Term) -> Option<String> {
    let (entries, last) = world.history(name);
    let mut text = String::new(alloc);
    for entry in entries.iter().chain(last) {
        text.push(' ').ok()?;
        write_update(&entry.update, &mut text).ok()?;
    }
    Some(text)
}
