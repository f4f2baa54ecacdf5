//! Whether a cluster that has ended came to where its steps lead, and to one opinion.

ghost use Rattle.std.specs.Prelude.{◌≡◌, ◌≢◌, ◌↔◌, Bool, true, false, IsTrue, IfOk, List, Some, map, slice_get};
ghost use Rattle.std.specs.List.{All, list_all, list_any};
ghost use Rattle.pg_world.specs.Crossings.{node_of};
ghost use Rattle.pg_world.specs.PgWorldPackets.FrameWorlds.{view_of as view_of_world};
ghost use Rattle.pg_cluster_judges.specs.Judges.{AreShown as AreShownAll, all_made as were_all_made, AgreesWith, AreOne, HasAs, formed_in, is_pending_end, is_end_pending as is_some_pending, is_seen_free as is_free, is_taken_by_some as is_taken, ran_out as has_run_out, state_in};

use crate::closed::Closed;
use pg_node_run::{LogEntry, NodeEvent};
use pg_term::{Pid, Term};
use pg_world::{
    Command, Config, FrameWorld, GroupTable, IndexTable, Node, WorldFault, configs_are_decided,
    same_group,
};
use std::alloc::{AllocError, Global};

impl Closed {
    ghost use Rattle.pg_world.specs.PgWorldPackets.FrameWorlds.{view_of};
    ghost use Rattle.pg_cluster_judges.specs.Closed.{IsOneLosingRun, IsOneRun, IsReplayed};
    ghost use Rattle.pg_cluster_judges.specs.Judges.{Agree, AreShown, all_made, ran_out};
    ghost use Rattle.pg_world.specs.PgWorldPackets.Openings.{CanBegin};

    /// Whether the nodes agree: formed nodes have the same of each group whose lock one node sees free, or an end is
    /// pending that a log has.
    ///
    /// Errors: `AllocError`.
    ///
    /// Cost: that of the list of each group of each node, for each other node.
    pub fn agrees(&self, alloc: Global) -> Result<bool, AllocError>
        ensures { IfOk result (λ yes. IsTrue yes ↔ Agree self.now.nodes.items self.now.logs.items) }
    {
        let nodes = self.nodes.as_slice();
        if is_end_pending(nodes, self.logs.as_slice()) {
            return Ok(true);
        }
        are_one(alloc, nodes)
    }

    /// Whether the steps, made one after another from the start of this configuration, come to the same nodes, and none
    /// of them is refused: never no of what `Cluster::close` gives, whoever was lost, and the configuration that was
    /// started.
    ///
    /// Errors: `AllocError`, also where a step was refused for memory.
    ///
    /// Cost: that of the steps, of which one is in memory at a time, a byte for each, and that of `NodeState::same` of
    /// each node.
    pub fn replays(&self, alloc: Global, config: &Config) -> Result<bool, AllocError>
        ensures one_run { IfOk result (λ yes. CanBegin config.now.ring config.now.starts.items → IsOneRun config.now.starts.items self.now → yes ≡ true) }
        ensures losing_run { IfOk result (λ yes. CanBegin config.now.ring config.now.starts.items → IsOneLosingRun config.now.starts.items self.now → yes ≡ true) }
        ensures replays { IfOk result (λ yes. IsTrue yes → IsReplayed config.now.starts.items self.now) }
    {
        configs_are_decided();
        match self.replayed(alloc, config) {
            Ok(replay) => {
                let told = self.is_shown(&replay.world, replay.numbers.as_slice());
                drop(replay);
                told
            }
            Err(fault) => unbegun(fault),
        }
    }

    /// Whether a world shows the nodes, where its steps had these numbers.
    fn is_shown(&self, world: &FrameWorld<IndexTable>, numbers: &[u8]) -> Result<bool, AllocError>
        ensures shown { IfOk result (λ yes. IsTrue yes ↔ ((all_made numbers.now ≡ true) × AreShown (view_of world.now).traffic.nodes self.now.nodes.items)) }
        ensures all_made { IfOk result (λ yes. ran_out numbers.now ≡ false) }
    {
        if ran_out(numbers) {
            return Err(AllocError);
        }
        if !all_made(numbers) {
            return Ok(false);
        }
        shows_all(world, self.nodes.as_slice())
    }
}

/// What is said of steps where no world could begin: they do not replay.
///
/// Errors: `AllocError`, where that was for memory.
fn unbegun(fault: WorldFault) -> Result<bool, AllocError>
    ensures { IfOk result (λ yes. (yes ≡ false) × (fault ≢ WorldFault.OutOfMemory)) }
{
    match fault {
        WorldFault::OutOfMemory => Err(AllocError),
        _ => Ok(false),
    }
}

/// Whether a step was refused since memory ran out, by the numbers of all steps.
pub(crate) fn ran_out(numbers: &[u8]) -> bool
    ensures { result ≡ has_run_out numbers.now }
{
    numbers.iter().any(|number| *number == 10)
}

/// Whether each step was made, or took nothing where nothing was on the way, by the numbers of all steps.
pub(crate) fn all_made(numbers: &[u8]) -> bool
    ensures { result ≡ were_all_made numbers.now }
{
    numbers.iter().all(|number| *number == 0)
}

/// Whether a world shows these nodes.
fn shows_all(world: &FrameWorld<IndexTable>, nodes: &[Node<IndexTable>]) -> Result<bool, AllocError>
    ensures { IfOk result (λ yes. IsTrue yes ↔ AreShownAll (view_of_world world.now).traffic.nodes nodes.now) }
{
    for place in 0..nodes.len() {
        if !shows_one(world, place, &nodes[place])? {
            return Ok(false);
        }
    }
    Ok(true)
}

/// Whether a world shows this node at a place.
fn shows_one(
    world: &FrameWorld<IndexTable>,
    place: usize,
    node: &Node<IndexTable>,
) -> Result<bool, AllocError>
    ensures { IfOk result (λ yes. IsTrue yes ↔ (slice_get (view_of_world world.now).traffic.nodes place ≡ Some (node_of node.now))) }
{
    match world.node(place) {
        Some(other) => node.state().looks_same(other),
        None => Ok(false),
    }
}

/// Whether these logs have an end that some of these nodes have taken and not all.
fn is_end_pending(nodes: &[Node<IndexTable>], logs: &[Vec<LogEntry>]) -> bool
    ensures { result ≡ is_some_pending nodes.now logs.now }
{
    logs.iter().any(|log| is_pending_in(nodes, log.as_slice()))
}

/// The same of one log.
fn is_pending_in(nodes: &[Node<IndexTable>], log: &[LogEntry]) -> bool
    ensures { result ≡ list_any (λ entry. is_pending_end nodes.now entry.1) log.now }
{
    log.iter().any(|entry| is_pending(nodes, &entry.1))
}

/// Whether an event is the end of a process that some of these nodes have taken and not all.
fn is_pending(nodes: &[Node<IndexTable>], event: &NodeEvent) -> bool
    ensures { result ≡ is_pending_end nodes.now event.now }
{
    match event {
        NodeEvent::Command(_, command) => match command.get() {
            Command::Finish(pid) => is_taken_by_some(nodes, pid),
            _ => false,
        },
        _ => false,
    }
}

/// Whether some of these nodes have taken the end of a process and not all.
fn is_taken_by_some(nodes: &[Node<IndexTable>], pid: &Pid) -> bool
    ensures { result ≡ is_taken nodes.now pid.now }
{
    is_taken_by_one(nodes, pid) && !is_taken_by_each(nodes, pid)
}

/// Whether one of these nodes has taken the end of a process.
fn is_taken_by_one(nodes: &[Node<IndexTable>], pid: &Pid) -> bool
    ensures { result ≡ list_any (λ node. (state_in node).ended pid.now) nodes.now }
{
    nodes.iter().any(|node| node.state().ended(pid))
}

/// Whether each of these nodes has.
fn is_taken_by_each(nodes: &[Node<IndexTable>], pid: &Pid) -> bool
    ensures { result ≡ list_all (λ node. (state_in node).ended pid.now) nodes.now }
{
    nodes.iter().all(|node| node.state().ended(pid))
}

/// Whether formed nodes have the same of each group whose lock one node sees free.
fn are_one(alloc: Global, nodes: &[Node<IndexTable>]) -> Result<bool, AllocError>
    ensures { IfOk result (λ yes. IsTrue yes ↔ AreOne nodes.now) }
{
    for node in nodes {
        if !agrees_if_formed(alloc, nodes, node)? {
            return Ok(false);
        }
    }
    Ok(true)
}

/// Whether a node, if it is formed, agrees with each node.
fn agrees_if_formed(
    alloc: Global,
    nodes: &[Node<IndexTable>],
    node: &Node<IndexTable>,
) -> Result<bool, AllocError>
    ensures { IfOk result (λ yes. IsTrue yes ↔ (formed_in node.now ≡ true → AgreesWith nodes.now node.now)) }
{
    if !node.state().formed() {
        return Ok(true);
    }
    let names = node.state().table().groups()?;
    agrees_on(alloc, nodes, node, names.as_slice())
}

/// Whether a node agrees with each node on the groups of these names.
fn agrees_on(
    alloc: Global,
    nodes: &[Node<IndexTable>],
    node: &Node<IndexTable>,
    names: &[Term],
) -> Result<bool, AllocError>
    ensures { IfOk result (λ yes. IsTrue yes ↔ All (λ name. is_free nodes.now name ≡ true → All (HasAs node.now name) nodes.now) names.now) }
{
    for name in names {
        if !agrees_if_free(alloc, nodes, node, name)? {
            return Ok(false);
        }
    }
    Ok(true)
}

/// Whether a node agrees with each node on a group, if one node sees its lock free.
fn agrees_if_free(
    alloc: Global,
    nodes: &[Node<IndexTable>],
    node: &Node<IndexTable>,
    name: &Term,
) -> Result<bool, AllocError>
    ensures { IfOk result (λ yes. IsTrue yes ↔ (is_free nodes.now name.now ≡ true → All (HasAs node.now name.now) nodes.now)) }
{
    if !is_seen_free(nodes, name) {
        return Ok(true);
    }
    for other in nodes {
        if !has_as(alloc, node, other, name)? {
            return Ok(false);
        }
    }
    Ok(true)
}

/// Whether one of these nodes sees the lock of a group free.
fn is_seen_free(nodes: &[Node<IndexTable>], name: &Term) -> bool
    ensures { result ≡ is_free nodes.now name.now }
{
    nodes.iter().any(|node| node.state().holder(name).is_none())
}

/// Whether two nodes have the same of a group, or the second is not formed.
pub(crate) fn has_as(
    alloc: Global,
    one: &Node<IndexTable>,
    other: &Node<IndexTable>,
    name: &Term,
) -> Result<bool, AllocError>
    ensures { IfOk result (λ yes. IsTrue yes ↔ HasAs one.now name.now other.now) }
{
    if !other.state().formed() {
        return Ok(true);
    }
    same_group(alloc, one.state().table(), other.state().table(), name)
}
