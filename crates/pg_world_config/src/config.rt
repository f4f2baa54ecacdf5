//! The configuration of a world, and whether it is one.

ghost use Rattle.std.specs.Prelude.{◌≡◌, ◌≢◌, Err};
ghost use Rattle.std.specs.List.{list_any, list_all};
ghost use Rattle.pg_term.specs.Same.{same_atom};
ghost use Rattle.pg_step.specs.PgEnds.Numbers.{is_among as is_made_by};
ghost use Rattle.pg_step.specs.Config.{was_made};
ghost use Rattle.pg_world_config.specs.Configs.{are_apart, are_made, is_start, is_config, are_names};
ghost use Rattle.pg_world_config.specs.Configs.{have_names, is_capacity, refusal_of, IsAsTold};
ghost use Rattle.pg_world_config.specs.declared.fault.WorldFault.TheVariants.{OutOfMemory};

use crate::fault::WorldFault;
use pg_ring::is_capacity;
use pg_step::{MAX_PROCESSES, Start, are_told_once, check_name};
use pg_term::{Atom, Items, Pid, Term};
use std::alloc::Global;

/// How many nodes a configuration has at most.
pub const MAX_NODES: usize = 16;

/// How many ports a node has at most.
pub const MAX_PORTS: u16 = 64;

/// A configuration: the nodes of a world as they start.
#[derive(Debug, Drop)]
pub struct Config {
    /// How much room each ring between two nodes has, in bytes: 1 to 65,536. In a world of packets there is none.
    pub ring: usize,
    /// 1 to 16 nodes with different names. Each has 0 to 64 ports and has made at most 268,435,455 processes; its groups have
    /// different names, and each member of a group is a process that one of the nodes has made.
    pub starts: Vec<Start>,
}

impl Config {
    /// Whether it is a configuration.
    ///
    /// Errors, the first that holds: `BadConfig`, `NameTooLarge`, `BadCapacity`; whatever memory there is.
    ///
    /// Cost: a look at the nodes, at most 16, for each member, and a walk over the name of each group; that of
    /// `are_told_once` for the groups of a node.
    pub fn check(&self, alloc: Global) -> Result<(), WorldFault>
        ensures told { IsAsTold (refusal_of self.now.ring self.now.starts.items) result }
        ensures never { result ≢ Err OutOfMemory }
    {
        let starts = self.starts.as_slice();
        if !is_config(alloc, starts) {
            return Err(WorldFault::BadConfig);
        }
        if !have_names(starts) {
            return Err(WorldFault::NameTooLarge);
        }
        if !is_capacity(self.ring) {
            return Err(WorldFault::BadCapacity);
        }
        Ok(())
    }
}

/// Whether these are the nodes of a configuration, but for the size of names.
fn is_config(alloc: Global, starts: &[Start]) -> bool
    ensures { result ≡ is_config starts.now }
{
    if starts.is_empty() || starts.len() > MAX_NODES || !are_apart(starts) {
        return false;
    }
    are_starts(alloc, starts)
}

/// Whether no two nodes have one name. Each name is compared with all that follow it.
fn are_apart(starts: &[Start]) -> bool
    ensures { result ≡ are_apart starts.now }
{
    let mut left = starts;
    while let [first, rest @ ..] = left {
        if has_node(&first.name, rest) {
            return false;
        }
        left = rest;
    }
    true
}

/// Whether one of these nodes has the name.
fn has_node(name: &Atom, starts: &[Start]) -> bool
    ensures { result ≡ list_any (λ start. same_atom name.now start.name) starts.now }
{
    for start in starts {
        if *name == start.name {
            return true;
        }
    }
    false
}

/// Whether each node is as one may start, but for the size of names.
fn are_starts(alloc: Global, starts: &[Start]) -> bool
    ensures { result ≡ list_all (is_start starts.now) starts.now }
{
    for start in starts {
        if !is_start(alloc, starts, start) {
            return false;
        }
    }
    true
}

/// Whether a node among these is as one may start, but for the size of names.
fn is_start(alloc: Global, starts: &[Start], start: &Start) -> bool
    ensures { result ≡ is_start starts.now start.now }
{
    if start.ports > MAX_PORTS || start.made > MAX_PROCESSES {
        return false;
    }
    let groups = start.groups.as_slice();
    if !are_told_once(alloc, groups) {
        return false;
    }
    are_made(starts, groups)
}

/// Whether each member of these groups is a process that one of the nodes has made.
fn are_made(starts: &[Start], groups: &[(Term, Items<Pid>)]) -> bool
    ensures { result ≡ are_made starts.now groups.now }
{
    for group in groups {
        if !all_made(starts, group.1.as_slice()) {
            return false;
        }
    }
    true
}

fn all_made(starts: &[Start], members: &[Pid]) -> bool
    ensures { result ≡ list_all (was_made starts.now) members.now }
{
    for pid in members {
        if !was_made(starts, pid) {
            return false;
        }
    }
    true
}

fn was_made(starts: &[Start], pid: &Pid) -> bool
    ensures { result ≡ was_made starts.now pid.now }
{
    for start in starts {
        if pid.node == start.name && is_among(start.made, pid) {
            return true;
        }
    }
    false
}

/// Whether a pid is that of one of the first processes of its node.
fn is_among(made: u32, pid: &Pid) -> bool
    ensures { result ≡ is_made_by made pid.now }
{
    let serial = pid.serial;
    let id = pid.id;
    let number = u64::from(serial) * 32768 + u64::from(id);
    pid.creation == 1 && id < 32768 && 1 <= number && number <= u64::from(made)
}

/// Whether each name of a group can be sent.
fn have_names(starts: &[Start]) -> bool
    ensures { result ≡ have_names starts.now }
{
    for start in starts {
        if !are_names(start.groups.as_slice()) {
            return false;
        }
    }
    true
}

fn are_names(groups: &[(Term, Items<Pid>)]) -> bool
    ensures { result ≡ are_names groups.now }
{
    for group in groups {
        if check_name(&group.0).is_err() {
            return false;
        }
    }
    true
}
