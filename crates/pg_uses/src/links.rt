//! Nodes over links of one's own: two of them in one loop, with a wire each way.

use crate::setting::{two_nodes, workers};
use crate::wire::Wire;
use pg_cluster::{Command, IndexTable, Node, starting_nodes, which_groups};
use std::alloc::Global;

/// How many bytes move at once.
const PIECE: usize = 16;

/// The places of the nodes.
const A: usize = 0;

const B: usize = 1;

/// `a` makes a group, and the bytes between the nodes move a few at a time: how many groups each of them knows then, and how many
/// bytes `a` sent.
pub(crate) fn groups_of_both(alloc: Global) -> Option<String> {
    let mut there = Wire::new(alloc)?;
    let mut back = Wire::new(alloc)?;
    let mut nodes = both_nodes(alloc)?;
    create(alloc, &mut nodes, A);
    for _ in 0..100 {
        turn(&mut nodes, A, &mut there, &mut back);
        turn(&mut nodes, B, &mut back, &mut there);
    }
    let counts = (group_count(&nodes, A), group_count(&nodes, B));
    drop(nodes);
    let (at_a, at_b) = (counts.0?, counts.1?);
    let bytes = there.crossed();
    format!(in alloc; "{at_a} at a, {at_b} at b, by {bytes} bytes").ok()
}

/// Both nodes as they start.
fn both_nodes(alloc: Global) -> Option<Vec<Node<IndexTable>>> {
    let config = two_nodes(alloc)?;
    let nodes = starting_nodes(alloc, &config);
    drop(config);
    nodes.ok()
}

/// The node at a place makes the group.
fn create(alloc: Global, nodes: &mut Vec<Node<IndexTable>>, place: usize) {
    let Some(node) = nodes.get_mut(place) else {
        return;
    };
    let Some(name) = workers(alloc) else {
        return;
    };
    let command = Command::Create(name);
    if node.state().port_count() > 0 {
        drop(node.command(0, &command));
    }
    drop(command);
}

/// One turn of a node with its one peer: bytes go out and come in, a packet is taken if it is whole, and commands that wait are tried again.
fn turn(nodes: &mut Vec<Node<IndexTable>>, place: usize, out: &mut Wire, inn: &mut Wire) {
    let Some(node) = nodes.get_mut(place) else {
        return;
    };
    if node.state().peer_count() == 0 {
        return;
    }
    node.put(0, out, PIECE);
    if node.pull(0, inn, PIECE).is_ok() {
        drop(node.take(0));
    }
    try_again(node);
}

/// Tries each command again that waits.
fn try_again(node: &mut Node<IndexTable>) {
    let Ok(waiting) = node.state().waiting() else {
        return;
    };
    for op in waiting {
        if usize::from(op.port) < node.state().port_count() {
            drop(node.retry(op));
        }
    }
}

/// How many groups the node at a place knows.
fn group_count(nodes: &[Node<IndexTable>], place: usize) -> Option<usize> {
    match which_groups(nodes.get(place)?.state().table()) {
        Ok(names) => {
            let count = names.as_slice().len();
            drop(names);
            Some(count)
        }
        Err(_) => None,
    }
}
