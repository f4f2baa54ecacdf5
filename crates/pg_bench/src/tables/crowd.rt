//! Names of nodes, and pids of them.

use pg_group::Update;
use pg_term::{Atom, Pid, Term, TermFault};
use pg_test_kit::{Change, Random};
use std::alloc::{AllocError, Global};

// The name of the node of this number.
fn name(alloc: Global, node: u64) -> Result<Atom, TermFault> {
    let text = format!(in alloc; "n{node}@example.org")?;
    Atom::new(alloc, text.as_str())
}

/// The names of so many nodes.
///
/// Errors: those of `Atom::new`.
///
/// Cost: memory for each.
pub fn names(alloc: Global, nodes: u64) -> Result<Vec<Atom>, TermFault> {
    let mut names = Vec::new(alloc);
    for node in 0..nodes {
        names.push(name(alloc, node)?)?;
    }
    Ok(names)
}

/// A pid of one of these nodes.
///
/// Errors: `AllocError`.
///
/// Cost: a copy of its node's name.
pub fn pid_of(names: &[Atom], random: &mut Random) -> Result<Pid, AllocError> {
    let id = random.word();
    match random.pick(names) {
        Some(node) => Ok(Pid {
            node: node.copy()?,
            serial: 0,
            id,
            creation: 1,
        }),
        None => Err(AllocError),
    }
}

/// So many pids of these nodes, from a seed.
///
/// Errors: `AllocError`.
///
/// Cost: memory for each.
pub fn pids(alloc: Global, names: &[Atom], seed: u64, count: u64) -> Result<Vec<Pid>, AllocError> {
    let mut random = Random::new(seed);
    let mut pids = Vec::new(alloc);
    for _ in 0..count {
        pids.push(pid_of(names, &mut random)?)?;
    }
    Ok(pids)
}

/// Updates of the group 1 by each of these pids.
///
/// Errors: `AllocError`.
///
/// Cost: memory for each.
pub fn updates(alloc: Global, pids: &[Pid], change: Change) -> Result<Vec<Update>, AllocError> {
    let mut updates = Vec::new(alloc);
    for pid in pids {
        let pid = pid.copy()?;
        updates.push(change.update(Term::Int(1), pid))?;
    }
    Ok(updates)
}

/// Creates and joins of a group for each of these pids.
///
/// Errors: `AllocError`.
///
/// Cost: memory for each.
pub fn pairs(alloc: Global, pids: &[Pid]) -> Result<Vec<Update>, AllocError> {
    let mut updates = Vec::new(alloc);
    for (number, pid) in (0..).zip(pids) {
        let pid = pid.copy()?;
        updates.push(Update::Create(Term::Int(number)))?;
        updates.push(Update::Join(Term::Int(number), pid))?;
    }
    Ok(updates)
}

/// Creates of so many groups, and joins of the first 300 by each of these pids.
///
/// Errors: `AllocError`.
///
/// Cost: memory for each.
pub fn joins_of_300(alloc: Global, pids: &[Pid], count: u32) -> Result<Vec<Update>, AllocError> {
    let mut updates = Vec::new(alloc);
    for number in 0..count {
        updates.push(Update::Create(Term::Int(i64::from(number))))?;
    }
    for pid in pids {
        put_joins(&mut updates, pid)?;
    }
    Ok(updates)
}

fn put_joins(updates: &mut Vec<Update>, pid: &Pid) -> Result<(), AllocError> {
    for number in 0..300 {
        let pid = pid.copy()?;
        updates.push(Update::Join(Term::Int(number), pid))?;
    }
    Ok(())
}
