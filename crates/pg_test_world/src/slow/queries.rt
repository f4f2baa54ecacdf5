//! What a query answers, read slowly off its node's table.

use crate::slow::answered::command_of;
use crate::slow::scene::{GROUPS, Scene, State, state_of};
use pg_term::{Pid, Term};
use pg_world::{Command, FrameStep, GroupTable, Reply, Scope, Step};
use std::alloc::{AllocError, Global};

/// Whether these are the members of a group in a scope, in their order.
fn are_members(alloc: Global, node: &State, name: &Term, scope: Scope<'_>, pids: &[Pid]) -> bool {
    match node.table().list(alloc, name, scope) {
        Ok(list) => {
            let are_members = list.as_slice() == pids;
            drop(list);
            are_members
        }
        Err(AllocError) => false,
    }
}

/// Whether a reply lists the members of a group in a scope, or says that there is no such group.
fn is_list(alloc: Global, node: &State, name: &Term, scope: Scope<'_>, reply: &Reply) -> bool {
    match reply {
        Reply::NoSuchGroup(group) => group == name && !node.table().has(name),
        Reply::Pids(pids) => {
            node.table().has(name) && are_members(alloc, node, name, scope, pids.as_slice())
        }
        _ => false,
    }
}

/// Whether a reply lists the groups that are there, in the order of their names.
fn are_groups(node: &State, reply: &Reply) -> bool {
    let Reply::Groups(names) = reply else {
        return false;
    };
    let mut names = names.as_slice().iter();
    for group in GROUPS {
        let name = Term::Int(group);
        let is_told = !node.table().has(&name) || is_next(names.next(), &name);
        drop(name);
        if !is_told {
            return false;
        }
    }
    names.next().is_none()
}

/// Whether the next name is this one.
fn is_next(next: Option<&Term>, name: &Term) -> bool {
    match next {
        Some(next) => next == name,
        None => false,
    }
}

/// The members on the node itself, or all where there is none.
fn nearest(alloc: Global, node: &State, name: &Term) -> Result<Vec<Pid>, AllocError> {
    let local = node.table().list(alloc, name, Scope::At(node.own()))?;
    if local.is_empty() {
        drop(local);
        return node.table().list(alloc, name, Scope::All);
    }
    Ok(local)
}

/// Whether a reply is the one of these members that a word picks, counted round; or says that there is none of the group.
fn is_picked(pids: &[Pid], name: &Term, word: u32, reply: &Reply) -> bool {
    let place = word as usize % pids.len().max(1);
    match (reply, pids.get(place)) {
        (Reply::Closest(pid), Some(picked)) => pid == picked,
        (Reply::NoProcess(group), None) => group == name,
        _ => false,
    }
}

/// Whether a reply is the member of a group that a word picks among the nearest, or says why there is none.
fn is_closest(alloc: Global, node: &State, name: &Term, word: u32, reply: &Reply) -> bool {
    if let Reply::NoSuchGroup(group) = reply {
        return group == name && !node.table().has(name);
    }
    match nearest(alloc, node, name) {
        Ok(pids) => {
            let is_picked = node.table().has(name) && is_picked(pids.as_slice(), name, word, reply);
            drop(pids);
            is_picked
        }
        Err(AllocError) => false,
    }
}

/// Whether a node's table says what is replied to a command, if that is a query.
fn is_told(alloc: Global, node: &State, command: &Command, reply: &Reply) -> bool {
    match command {
        Command::Members(name) => is_list(alloc, node, name, Scope::All, reply),
        Command::LocalMembers(name) => is_list(alloc, node, name, Scope::At(node.own()), reply),
        Command::WhichGroups => are_groups(node, reply),
        Command::Closest(name, word) => is_closest(alloc, node, name, *word, reply),
        _ => true,
    }
}

/// Whether a command is a query.
fn is_query(command: &Command) -> bool {
    matches!(
        command,
        Command::Members(_)
            | Command::LocalMembers(_)
            | Command::WhichGroups
            | Command::Closest(_, _)
    )
}

/// How many of these steps are commands of a node.
fn asked(steps: &[Step], place: usize) -> u32 {
    let mut count = 0u32;
    for step in steps {
        match step {
            Step::Event(FrameStep::Command { node, .. }) if *node == place => {
                count = count.saturating_add(1);
            }
            _ => {}
        }
    }
    count
}

/// Whether a node has answered its command of this number by what its table says, if that is a query.
fn is_answer_told(scene: Scene<'_>, place: usize, command: &Command, number: u32) -> bool {
    match state_of(scene.world, place) {
        Some(node) if node.port_count() == 1 => {
            for answer in node.answers(0) {
                if answer.number == number {
                    return is_told(scene.alloc, node, command, &answer.reply);
                }
            }
            !is_query(command)
        }
        _ => false,
    }
}

/// Whether the last of these steps, if it is a query, is answered by what its node's table says.
///
/// Cost: memory for a list of members.
pub fn is_query_told(scene: Scene<'_>, steps: &[Step]) -> bool {
    let Some(Step::Event(FrameStep::Command { node, .. })) = steps.last() else {
        return true;
    };
    let number = asked(steps, *node);
    match command_of(steps, *node, number) {
        Some(command) => is_answer_told(scene, *node, command, number),
        None => false,
    }
}
