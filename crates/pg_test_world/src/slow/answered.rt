//! The updates that are answered stand in the history, each once.

use crate::slow::scene::{GROUPS, History, Scene, entry_at, len_of, state_of};
use pg_term::Term;
use pg_world::{Answer, Command, FrameStep, Reply, Step, Update};

/// The command of this number of a node, if these steps ask for as many.
pub(crate) fn command_of(steps: &[Step], place: usize, number: u32) -> Option<&Command> {
    let mut count = 0u32;
    for step in steps {
        match step {
            Step::Event(FrameStep::Command { node, command, .. }) if *node == place => {
                count = count.saturating_add(1);
                if count == number {
                    return Some(command);
                }
            }
            _ => {}
        }
    }
    None
}

/// Whether an update is the change that was asked for.
fn is_update(command: &Command, update: &Update) -> bool {
    match (command, update) {
        (Command::Create(name), Update::Create(group)) => name == group,
        (Command::Delete(name), Update::Delete(group)) => name == group,
        (Command::Join(name, pid), Update::Join(group, process)) => name == group && pid == process,
        (Command::Leave(name, pid), Update::Leave(group, process)) => {
            name == group && pid == process
        }
        _ => false,
    }
}

/// How many entries are of the command of this number of a node.
fn times(history: History<'_>, node: usize, number: u32) -> usize {
    let mut times = 0usize;
    for place in 0..len_of(history) {
        match entry_at(history, place) {
            Some(entry) if entry.node == node && entry.op.number == number => {
                times = times.saturating_add(1);
            }
            _ => {}
        }
    }
    times
}

/// Whether each entry of a group is the change that its command asked for, and stands once.
fn are_asked_once(steps: &[Step], history: History<'_>) -> bool {
    for place in 0..len_of(history) {
        if let Some(entry) = entry_at(history, place) {
            let number = entry.op.number;
            match command_of(steps, entry.node, number) {
                Some(command)
                    if is_update(command, &entry.update)
                        && times(history, entry.node, number) == 1 => {}
                _ => return false,
            }
        }
    }
    true
}

/// Whether a change of this number that is answered ok stands in the history, if that is always behind its lock.
fn stands(scene: Scene<'_>, command: &Command, node: usize, number: u32) -> bool {
    match command {
        Command::Delete(name) | Command::Join(name, _) | Command::Leave(name, _) => {
            times(scene.world.history(name), node, number) == 1
        }
        _ => true,
    }
}

/// Whether each answer of a node is to a command, and stands in the history if it is ok.
fn are_answers_right(scene: Scene<'_>, steps: &[Step], place: usize, answers: &[Answer]) -> bool {
    for answer in answers {
        match command_of(steps, place, answer.number) {
            Some(command)
                if answer.reply != Reply::Ok || stands(scene, command, place, answer.number) => {}
            _ => return false,
        }
    }
    true
}

/// Whether the history of each group holds what these steps asked for, each once, and what is answered ok.
///
/// Cost: no memory; O(n²) in the steps.
pub fn are_answered(scene: Scene<'_>, steps: &[Step]) -> bool {
    for group in GROUPS {
        let name = Term::Int(group);
        let are_asked_once = are_asked_once(steps, scene.world.history(&name));
        drop(name);
        if !are_asked_once {
            return false;
        }
    }
    for place in 0..scene.starts.len() {
        if let Some(node) = state_of(scene.world, place) {
            if node.port_count() != 1 || !are_answers_right(scene, steps, place, node.answers(0)) {
                return false;
            }
        }
    }
    true
}
