//! The schedule to which logs join.

ghost use Rattle.std.specs.Prelude.{◌≡◌, ◌++◌, ◌+◌, ◌∷◌, [], IfOk, OnOk, cond, length, map, nat_eq};
ghost use Rattle.pg_cluster_judges.specs.Merge.{log_at, entry_at};
ghost use Rattle.pg_cluster_judges.specs.ApartWithLosses.{is_take, takes_in, takes_of, takes_one};
ghost use Rattle.pg_world.specs.PgWorldPackets.Views.{place_of_peer};
ghost use Rattle.pg_cluster_judges.specs.Schedule.{AreSteps, is_alone, is_lost_in, keeps, loss_if, loss_seen};
ghost use Rattle.pg_cluster_judges.specs.Schedule.{losses_first, node_of_peer, seen_step, step_as, steps_at};

use pg_node_run::{LogEntry, NodeEvent};
use pg_world::{Command, FrameStep};
use std::alloc::{AllocError, Global};

/// An equal command.
///
/// Errors: `AllocError`.
fn copy_command(alloc: Global, command: &Command) -> Result<Command, AllocError>
    ensures { IfOk result (λ copy. copy ≡ command.now) }
{
    Ok(match command {
        Command::Create(name) => Command::Create(name.copy(alloc)?),
        Command::Delete(name) => Command::Delete(name.copy(alloc)?),
        Command::Join(name, pid) => {
            let pid = pid.copy()?;
            Command::Join(name.copy(alloc)?, pid)
        }
        Command::Leave(name, pid) => {
            let pid = pid.copy()?;
            Command::Leave(name.copy(alloc)?, pid)
        }
        Command::Make => Command::Make,
        Command::Finish(pid) => Command::Finish(pid.copy()?),
        Command::Members(name) => Command::Members(name.copy(alloc)?),
        Command::LocalMembers(name) => Command::LocalMembers(name.copy(alloc)?),
        Command::WhichGroups => Command::WhichGroups,
        Command::Closest(name, word) => Command::Closest(name.copy(alloc)?, *word),
    })
}

/// Which node the peer at a place among the peers of a node is.
fn node_of_peer(node: usize, peer: usize) -> usize
    ensures { result ≡ node_of_peer node peer }
{
    if peer < node {
        peer
    } else {
        peer.saturating_add(1)
    }
}

/// The step of a world that the event of a node is.
///
/// Errors: `AllocError`.
fn step_of(alloc: Global, node: usize, event: &NodeEvent) -> Result<FrameStep, AllocError>
    ensures { IfOk result (λ step. step ≡ step_as node event.now) }
{
    Ok(match event {
        NodeEvent::Take(peer) => FrameStep::Take {
            node,
            peer: node_of_peer(node, *peer),
        },
        NodeEvent::Command(port, command) => FrameStep::Command {
            node,
            port: *port,
            command: copy_command(alloc, command.get())?,
        },
        NodeEvent::Retry(op) => FrameStep::Retry { node, op: *op },
        NodeEvent::SeeLoss(peer) => FrameStep::SeeLoss {
            node,
            peer: node_of_peer(node, *peer),
        },
    })
}

/// Adds the step that the entry at a place of a log is, if one is there.
///
/// Errors: `AllocError`.
fn add_step(
    alloc: Global,
    logs: &[Vec<LogEntry>],
    node: usize,
    place: usize,
    steps: &mut Vec<FrameStep>,
) -> Result<(), AllocError>
    ensures { OnOk result (steps.new.items ≡ steps.old.items ++ map (step_as node) (entry_at (log_at (map (λ v. v.items) logs.now) node) place)) }
{
    if let Some(log) = logs.get(node) {
        if let Some(entry) = log.get(place) {
            let step = step_of(alloc, node, &entry.1)?;
            steps.push(step)?;
        }
    }
    Ok(())
}

/// The steps that the entries of these logs are, in this order, each given by its log and its place there, with the
/// losses of the nodes that were lost. Each loss comes after the node's last entry, and those of nodes that did
/// nothing come first. Of what is on the way from a lost node to each other as many packets stay as that takes by the
/// entries that follow. Takes a look at the entries after each loss for each node.
///
/// Errors: `AllocError`.
pub(crate) fn steps_with_losses(
    alloc: Global,
    logs: &[Vec<LogEntry>],
    lost: &[bool],
    order: &[(usize, usize)],
) -> Result<Vec<FrameStep>, AllocError>
    ensures { IfOk result (λ steps. AreSteps (map (λ v. v.items) logs.now) lost.now order.now steps.items) }
{
    let mut steps = first_losses(alloc, logs, lost, order)?;
    for place in 0..order.len() {
        let later = &order[place + 1..];
        add_with_loss(alloc, logs, lost, order[place], later, &mut steps)?;
    }
    Ok(steps)
}

/// The losses of the nodes that were lost and did nothing.
///
/// Errors: `AllocError`.
pub(crate) fn first_losses(
    alloc: Global,
    logs: &[Vec<LogEntry>],
    lost: &[bool],
    order: &[(usize, usize)],
) -> Result<Vec<FrameStep>, AllocError>
    ensures { IfOk result (λ steps. map seen_step steps.items ≡ losses_first (map (λ v. v.items) logs.now) lost.now order.now (length logs.now)) }
{
    let mut steps = Vec::new(alloc);
    for node in 0..logs.len() {
        add_if_alone(alloc, logs, lost, node, order, &mut steps)?;
    }
    Ok(steps)
}

/// Adds the loss of a node, if it was lost and did nothing.
///
/// Errors: `AllocError`.
fn add_if_alone(
    alloc: Global,
    logs: &[Vec<LogEntry>],
    lost: &[bool],
    node: usize,
    order: &[(usize, usize)],
    steps: &mut Vec<FrameStep>,
) -> Result<(), AllocError>
    ensures { OnOk result (map seen_step steps.new.items ≡ map seen_step steps.old.items
        ++ loss_if (is_alone (map (λ v. v.items) logs.now) lost.now node) (map (λ v. v.items) logs.now) node order.now) }
{
    if is_lost(lost, node) && entry_count(logs, node) == 0 {
        add_loss(alloc, logs, node, order, steps)?;
    }
    Ok(())
}

/// Adds the step that the entry at a place of a log is, and if it is the last of a node that was lost, the loss of
/// that. `later`: the entries that follow.
///
/// Errors: `AllocError`.
pub(crate) fn add_with_loss(
    alloc: Global,
    logs: &[Vec<LogEntry>],
    lost: &[bool],
    at: (usize, usize),
    later: &[(usize, usize)],
    steps: &mut Vec<FrameStep>,
) -> Result<(), AllocError>
    ensures { OnOk result (map seen_step steps.new.items ≡ map seen_step steps.old.items ++ steps_at (map (λ v. v.items) logs.now) lost.now at later.now) }
{
    add_step(alloc, logs, at.0, at.1, steps)?;
    if is_lost(lost, at.0) && is_last(logs, at.0, at.1) {
        add_loss(alloc, logs, at.0, later, steps)?;
    }
    Ok(())
}

/// Adds the loss of a node, which these entries follow.
///
/// Errors: `AllocError`.
fn add_loss(
    alloc: Global,
    logs: &[Vec<LogEntry>],
    node: usize,
    later: &[(usize, usize)],
    steps: &mut Vec<FrameStep>,
) -> Result<(), AllocError>
    ensures { OnOk result (map seen_step steps.new.items ≡ map seen_step steps.old.items ++ loss_seen (map (λ v. v.items) logs.now) node later.now ∷ []) }
{
    let keep = kept(alloc, logs, node, later)?;
    steps.push(FrameStep::Lose { node, keep })?;
    Ok(())
}

/// How many packets of a node each other takes by these entries, by the places of its peers.
///
/// Errors: `AllocError`.
fn kept(
    alloc: Global,
    logs: &[Vec<LogEntry>],
    node: usize,
    later: &[(usize, usize)],
) -> Result<Vec<usize>, AllocError>
    ensures { IfOk result (λ keep. keep.items ≡ keeps (map (λ v. v.items) logs.now) node later.now (length logs.now)) }
{
    let mut keep = Vec::new(alloc);
    for other in 0..logs.len() {
        if other != node {
            keep.push(taken_in(logs, node, other, later))?;
        }
    }
    Ok(keep)
}

/// How many packets of a peer a node takes by these entries.
fn taken_in(logs: &[Vec<LogEntry>], peer: usize, node: usize, later: &[(usize, usize)]) -> usize
    ensures { result ≡ takes_in (log_at (map (λ v. v.items) logs.now)) peer node later.now }
{
    let mut count: usize = 0;
    for place in 0..later.len() {
        if takes_at(logs, peer, node, later[place]) {
            count += 1;
        }
    }
    count
}

/// Whether a node takes a packet of a peer by this entry.
fn takes_at(logs: &[Vec<LogEntry>], peer: usize, node: usize, at: (usize, usize)) -> bool
    ensures { takes_one (log_at (map (λ v. v.items) logs.now)) peer node at ≡ cond result 1 0 }
{
    at.0 == node && takes(logs, node, at.1, peer)
}

/// Whether the entry at a place of the log of a node is that it took a packet of a peer.
fn takes(logs: &[Vec<LogEntry>], node: usize, place: usize, peer: usize) -> bool
    ensures { takes_of peer node (entry_at (log_at (map (λ v. v.items) logs.now) node) place) ≡ cond result 1 0 }
{
    if let Some(log) = logs.get(node) {
        if let Some(entry) = log.get(place) {
            return is_packet_of(&entry.1, node, peer);
        }
    }
    false
}

/// Whether an event of a node is that it took a packet of another.
fn is_packet_of(event: &NodeEvent, node: usize, other: usize) -> bool
    ensures { result ≡ is_take other node event.now }
{
    match event {
        NodeEvent::Take(peer) => is_peer_at(node, *peer, other),
        _ => false,
    }
}

/// Whether the peer at a place among the peers of a node is another.
fn is_peer_at(node: usize, peer: usize, other: usize) -> bool
    ensures { result ≡ nat_eq (place_of_peer node peer) other }
{
    if peer < node {
        peer == other
    } else {
        other > 0 && peer == other - 1
    }
}

/// Whether the node at a place was lost.
fn is_lost(lost: &[bool], node: usize) -> bool
    ensures { result ≡ is_lost_in lost.now node }
{
    match lost.get(node) {
        Some(lost) => *lost,
        None => false,
    }
}

/// How many entries the log of a node has.
fn entry_count(logs: &[Vec<LogEntry>], node: usize) -> usize
    ensures { result ≡ length (log_at (map (λ v. v.items) logs.now) node) }
{
    match logs.get(node) {
        Some(log) => log.len(),
        None => 0,
    }
}

/// Whether the place is that of the last entry of a node's log.
fn is_last(logs: &[Vec<LogEntry>], node: usize, place: usize) -> bool
    ensures { result ≡ nat_eq (place + 1) (length (log_at (map (λ v. v.items) logs.now) node)) }
{
    let count = entry_count(logs, node);
    count > 0 && place == count - 1
}
