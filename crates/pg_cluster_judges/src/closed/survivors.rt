//! Whether the nodes that outlived others came to one opinion.

ghost use Rattle.std.specs.Prelude.{◌≡◌, ◌↔◌, true, IsTrue, IfOk};
ghost use Rattle.std.specs.List.{All, list_all, list_any};
ghost use Rattle.pg_world.specs.PgWorldPackets.Views.{peer_place};
ghost use Rattle.pg_cluster_judges.specs.Judges.{HasAs, formed_in, is_end_pending as is_some_pending};
ghost use Rattle.pg_cluster_judges.specs.Judges.{is_pending_end, is_seen_free as is_free, state_in};
ghost use Rattle.pg_cluster_judges.specs.Survivors.{AgreesOf, AreOneOf, asks_of, has_event, is_change_of as is_change_of_event, is_compared as is_compared_in, is_loss_of as is_loss_of_event, is_loss_pending as is_some_loss_pending, is_missing, is_touched_by_lost as is_of_some_lost, is_take_of as is_take_of_event, survivors, was_lost as is_lost_at};

use crate::closed::Closed;
use crate::closed::judges::has_as;
use pg_node_run::{LogEntry, NodeEvent};
use pg_term::{Pid, Term};
use pg_world::{Command, GroupTable, IndexTable, Node};
use std::alloc::{AllocError, Global};

impl Closed {
    ghost use Rattle.pg_cluster_judges.specs.Survivors.{SurvivorsAgree};

    /// Whether the nodes that were not lost agree: those that are formed have the same of each group whose lock one
    /// of them sees free, of which no lost node was asked for an update, and which each knows as the lost nodes announced
    /// it at first. Yes, too, where an end is pending among them, or a loss that one of them has not seen.
    ///
    /// Errors: `AllocError`.
    ///
    /// Cost: that of the list of each group of each node, for each other node, and of a look at the logs of the lost
    /// nodes for each group.
    pub fn survivors_agree(&self, alloc: Global) -> Result<bool, AllocError>
        ensures { IfOk result (λ yes. IsTrue yes ↔ SurvivorsAgree self.now.nodes.items self.now.lost.items self.now.logs.items) }
    {
        let nodes = self.nodes.as_slice();
        let lost = self.lost.as_slice();
        let logs = self.logs.as_slice();
        if is_loss_pending(lost, logs) || is_end_pending(nodes, lost, logs) {
            return Ok(true);
        }
        are_one(alloc, nodes, lost, logs)
    }
}

/// Whether the node at a place was lost.
pub(crate) fn was_lost(lost: &[bool], place: usize) -> bool
    ensures { result ≡ is_lost_at lost.now place }
{
    match lost.get(place) {
        Some(lost) => *lost,
        None => false,
    }
}

/// Whether some node that was not lost has not seen some loss.
fn is_loss_pending(lost: &[bool], logs: &[Vec<LogEntry>]) -> bool
    ensures { result ≡ is_some_loss_pending lost.now logs.now }
{
    for node in 0..logs.len() {
        if was_lost(lost, node) && misses_loss(lost, logs, node) {
            return true;
        }
    }
    false
}

/// Whether some node that was not lost has not seen the loss of the node at a place.
fn misses_loss(lost: &[bool], logs: &[Vec<LogEntry>], node: usize) -> bool
    ensures { result ≡ is_missing is_loss_of_event lost.now logs.now node }
{
    for place in 0..logs.len() {
        if !was_lost(lost, place) && !saw(logs[place].as_slice(), place_among(place, node)) {
            return true;
        }
    }
    false
}

/// Whether some node that was not lost took no packet of the node at a place.
fn misses_packets(lost: &[bool], logs: &[Vec<LogEntry>], node: usize) -> bool
    ensures { result ≡ is_missing is_take_of_event lost.now logs.now node }
{
    for place in 0..logs.len() {
        if !was_lost(lost, place) && !took(logs[place].as_slice(), place_among(place, node)) {
            return true;
        }
    }
    false
}

/// Whether a lost node was asked for an update of a group, or told of it to some of the others and not to all.
fn is_of_lost(lost: &[bool], logs: &[Vec<LogEntry>], name: &Term) -> bool
    ensures { result ≡ is_of_some_lost lost.now logs.now name.now }
{
    for node in 0..logs.len() {
        if was_lost(lost, node)
            && (asks(logs[node].as_slice(), name) || misses_packets(lost, logs, node))
        {
            return true;
        }
    }
    false
}

/// The place of a node among the peers of another.
fn place_among(node: usize, peer: usize) -> usize
    ensures { result ≡ peer_place node peer }
{
    if peer < node {
        peer
    } else {
        peer.saturating_sub(1)
    }
}

/// Whether the loss of the peer at a place was seen, by the log of a node.
fn saw(log: &[LogEntry], place: usize) -> bool
    ensures { result ≡ has_event (is_loss_of_event place) log.now }
{
    log.iter().any(|entry| is_loss_of(&entry.1, place))
}

/// Whether an event is that the loss of the peer at a place is seen.
fn is_loss_of(event: &NodeEvent, place: usize) -> bool
    ensures { result ≡ is_loss_of_event place event.now }
{
    match event {
        NodeEvent::SeeLoss(peer) => *peer == place,
        _ => false,
    }
}

/// Whether a packet of the peer at a place was taken, by the log of a node.
fn took(log: &[LogEntry], place: usize) -> bool
    ensures { result ≡ has_event (is_take_of_event place) log.now }
{
    log.iter().any(|entry| is_take_of(&entry.1, place))
}

/// Whether an event is that a packet of the peer at a place is taken.
fn is_take_of(event: &NodeEvent, place: usize) -> bool
    ensures { result ≡ is_take_of_event place event.now }
{
    match event {
        NodeEvent::Take(peer) => *peer == place,
        _ => false,
    }
}

/// Whether a command of a log asks for an update of a group.
fn asks(log: &[LogEntry], name: &Term) -> bool
    ensures { result ≡ has_event (is_change_of_event name.now) log.now }
{
    log.iter().any(|entry| is_change_of(&entry.1, name))
}

/// Whether an event is a command that asks for an update of a group.
fn is_change_of(event: &NodeEvent, name: &Term) -> bool
    ensures { result ≡ is_change_of_event name.now event.now }
{
    match event {
        NodeEvent::Command(_, command) => changes(command.get(), name),
        _ => false,
    }
}

/// Whether a command asks for an update of a group.
fn changes(command: &Command, name: &Term) -> bool
    ensures { result ≡ asks_of name.now command.now }
{
    match command {
        Command::Create(group)
        | Command::Delete(group)
        | Command::Join(group, _)
        | Command::Leave(group, _) => group == name,
        _ => false,
    }
}

/// Whether the logs have the end of a process that some of the nodes that were not lost have taken, and not all.
fn is_end_pending(nodes: &[Node<IndexTable>], lost: &[bool], logs: &[Vec<LogEntry>]) -> bool
    ensures { result ≡ is_some_pending (survivors lost.now nodes.now) logs.now }
{
    logs.iter()
        .any(|log| is_pending_in(nodes, lost, log.as_slice()))
}

/// The same of one log.
fn is_pending_in(nodes: &[Node<IndexTable>], lost: &[bool], log: &[LogEntry]) -> bool
    ensures { result ≡ list_any (λ entry. is_pending_end (survivors lost.now nodes.now) entry.1) log.now }
{
    log.iter().any(|entry| is_pending(nodes, lost, &entry.1))
}

/// Whether an event is the end of a process that some of them have taken, and not all.
fn is_pending(nodes: &[Node<IndexTable>], lost: &[bool], event: &NodeEvent) -> bool
    ensures { result ≡ is_pending_end (survivors lost.now nodes.now) event.now }
{
    match event {
        NodeEvent::Command(_, command) => match command.get() {
            Command::Finish(pid) => {
                is_taken_by_one(nodes, lost, pid) && !is_taken_by_each(nodes, lost, pid)
            }
            _ => false,
        },
        _ => false,
    }
}

/// Whether one of the nodes that were not lost has taken the end of a process.
fn is_taken_by_one(nodes: &[Node<IndexTable>], lost: &[bool], pid: &Pid) -> bool
    ensures { result ≡ list_any (λ node. (state_in node).ended pid.now) (survivors lost.now nodes.now) }
{
    for place in 0..nodes.len() {
        if !was_lost(lost, place) && nodes[place].state().ended(pid) {
            return true;
        }
    }
    false
}

/// Whether each of them has.
fn is_taken_by_each(nodes: &[Node<IndexTable>], lost: &[bool], pid: &Pid) -> bool
    ensures { result ≡ list_all (λ node. (state_in node).ended pid.now) (survivors lost.now nodes.now) }
{
    for place in 0..nodes.len() {
        if !was_lost(lost, place) && !nodes[place].state().ended(pid) {
            return false;
        }
    }
    true
}

/// Whether one of the nodes that were not lost sees the lock of a group free.
fn is_seen_free(nodes: &[Node<IndexTable>], lost: &[bool], name: &Term) -> bool
    ensures { result ≡ is_free (survivors lost.now nodes.now) name.now }
{
    for place in 0..nodes.len() {
        if !was_lost(lost, place) && nodes[place].state().holder(name).is_none() {
            return true;
        }
    }
    false
}

/// Whether a group is compared: one of the nodes that were not lost sees its lock free, and it is not of a lost node.
fn is_compared(
    nodes: &[Node<IndexTable>],
    lost: &[bool],
    logs: &[Vec<LogEntry>],
    name: &Term,
) -> bool
    ensures { result ≡ is_compared_in (survivors lost.now nodes.now) lost.now logs.now name.now }
{
    is_seen_free(nodes, lost, name) && !is_of_lost(lost, logs, name)
}

/// Whether the nodes that were not lost, and are formed, have the same of each group that is compared.
fn are_one(
    alloc: Global,
    nodes: &[Node<IndexTable>],
    lost: &[bool],
    logs: &[Vec<LogEntry>],
) -> Result<bool, AllocError>
    ensures { IfOk result (λ yes. IsTrue yes ↔ AreOneOf (is_compared_in (survivors lost.now nodes.now) lost.now logs.now) (survivors lost.now nodes.now)) }
{
    for place in 0..nodes.len() {
        if !was_lost(lost, place) && !agrees_if_formed(alloc, nodes, lost, logs, &nodes[place])? {
            return Ok(false);
        }
    }
    Ok(true)
}

/// Whether a node, if it is formed, has the same as each that was not lost of each of its groups that is compared.
fn agrees_if_formed(
    alloc: Global,
    nodes: &[Node<IndexTable>],
    lost: &[bool],
    logs: &[Vec<LogEntry>],
    node: &Node<IndexTable>,
) -> Result<bool, AllocError>
    ensures { IfOk result (λ yes. IsTrue yes ↔ (formed_in node.now ≡ true
        → AgreesOf (is_compared_in (survivors lost.now nodes.now) lost.now logs.now) (survivors lost.now nodes.now) node.now)) }
{
    if !node.state().formed() {
        return Ok(true);
    }
    let names = node.state().table().groups()?;
    agrees_on(alloc, nodes, lost, logs, node, names.as_slice())
}

/// The same of the groups of these names.
fn agrees_on(
    alloc: Global,
    nodes: &[Node<IndexTable>],
    lost: &[bool],
    logs: &[Vec<LogEntry>],
    node: &Node<IndexTable>,
    names: &[Term],
) -> Result<bool, AllocError>
    ensures { IfOk result (λ yes. IsTrue yes ↔ All (λ name. is_compared_in (survivors lost.now nodes.now) lost.now logs.now name ≡ true
        → All (HasAs node.now name) (survivors lost.now nodes.now)) names.now) }
{
    for name in names {
        if is_compared(nodes, lost, logs, name) && !have_as(alloc, nodes, lost, node, name)? {
            return Ok(false);
        }
    }
    Ok(true)
}

/// Whether each node that was not lost, and is formed, has the same of a group as this one.
fn have_as(
    alloc: Global,
    nodes: &[Node<IndexTable>],
    lost: &[bool],
    node: &Node<IndexTable>,
    name: &Term,
) -> Result<bool, AllocError>
    ensures { IfOk result (λ yes. IsTrue yes ↔ All (HasAs node.now name.now) (survivors lost.now nodes.now)) }
{
    for place in 0..nodes.len() {
        if !was_lost(lost, place) && !has_as(alloc, node, &nodes[place], name)? {
            return Ok(false);
        }
    }
    Ok(true)
}
