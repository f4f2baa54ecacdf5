//! How long a turn takes in which a node finds nothing to do.

use crate::config::config;
use pg_cluster::{
    Config, IndexTable, LinkedNode, NOTICE_PLACES, Node, NodeRun, Notice, Peer, Port, RingFault,
    RingIn, RingOut, SlotIn, port_pair, ring_pair, slot_pair, starting_nodes,
};
use pg_test_kit::{Watch, number};
use rand_pcg::Pcg32;
use std::alloc::{AllocError, Global};

const RING: usize = 65_536;

type Row = Vec<Peer<RingOut, RingIn>>;

type Run = NodeRun<IndexTable, RingOut, RingIn, Pcg32>;

// The rings to a peer and back, whose other ends are gone.
fn silent_peer(alloc: Global) -> Result<Peer<RingOut, RingIn>, RingFault> {
    let (link, far) = ring_pair(alloc, RING)?;
    drop(far);
    let (far, inlet) = ring_pair(alloc, RING)?;
    drop(far);
    Ok(Peer { link, inlet })
}

fn silent_row(alloc: Global, peers: usize) -> Option<Row> {
    let mut row = Vec::new(alloc);
    for _ in 0..peers {
        let Ok(peer) = silent_peer(alloc) else {
            drop(row);
            return None;
        };
        if row.push(peer).is_err() {
            drop(row);
            return None;
        }
    }
    Some(row)
}

// Ports of which the clients are gone.
fn silent_ports(alloc: Global, count: usize) -> Result<Vec<Port>, AllocError> {
    let mut ports = Vec::new(alloc);
    for _ in 0..count {
        ports.reserve(1)?;
        let (client, port) = port_pair(alloc)?;
        drop(client);
        ports.push_reserved(port);
    }
    Ok(ports)
}

// Where the stop byte and the notices come, of which none will.
fn silence(alloc: Global) -> Result<(RingIn, SlotIn<Notice>), RingFault> {
    let (far, stop) = ring_pair(alloc, 1)?;
    drop(far);
    let (teller, notices) = slot_pair(alloc, NOTICE_PLACES)?;
    drop(teller);
    Ok((stop, notices))
}

fn first_node(alloc: Global, config: &Config) -> Option<Node<IndexTable>> {
    match starting_nodes(alloc, config) {
        Ok(nodes) => {
            let mut nodes = nodes;
            let node = nodes.pop();
            drop(nodes);
            node
        }
        Err(_) => None,
    }
}

// The node with these links and ports, if they are as many as it has.
fn run_with(alloc: Global, node: Node<IndexTable>, row: Row, ports: Vec<Port>) -> Option<Run> {
    let fits = node.state().peer_count() == row.len() && node.state().port_count() == ports.len();
    match silence(alloc) {
        Ok((stop, notices)) if fits => {
            let linked = LinkedNode::new(alloc, node, row);
            let generator = Pcg32::new(1, 2);
            Some(NodeRun::new(alloc, linked, ports, stop, notices, generator))
        }
        _ => {
            drop(node);
            drop(row);
            drop(ports);
            None
        }
    }
}

fn silent_run(alloc: Global, config: &Config) -> Option<Run> {
    let node = first_node(alloc, config)?;
    let Some(row) = silent_row(alloc, node.state().peer_count()) else {
        drop(node);
        return None;
    };
    match silent_ports(alloc, node.state().port_count()) {
        Ok(ports) => run_with(alloc, node, row, ports),
        Err(AllocError) => {
            drop(node);
            drop(row);
            None
        }
    }
}

// The first turn puts what the node announces.
fn measure_run(rt: &HostRuntime, run: Run, nodes: u16, turns: u64) {
    let mut run = run;
    run.turn();
    let watch = Watch::begin(rt);
    for _ in 0..turns {
        run.turn();
    }
    let nanos = watch.nanos(rt) / u128::from(turns.max(1));
    let _ = eprintln!(rt; "a node of {nodes}: {nanos} nanoseconds a turn that finds nothing");
    drop(run);
}

fn measure(rt: &HostRuntime, nodes: u16, turns: u64) -> bool {
    let Ok(config) = config(rt.alloc(), nodes, 2) else {
        return false;
    };
    let run = silent_run(rt.alloc(), &config);
    drop(config);
    match run {
        Some(run) => {
            measure_run(rt, run, nodes, turns);
            true
        }
        None => false,
    }
}

/// The word after `turns`: how many turns (300). Whether it could.
pub fn run(rt: &HostRuntime, words: &[String]) -> bool {
    match number(words, 1, 300) {
        Some(turns) => measure(rt, 3, turns) && measure(rt, 16, turns),
        None => false,
    }
}
