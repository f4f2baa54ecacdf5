//! A node with its links to its peers and its log.

ghost use Rattle.std.specs.Prelude.{◌≡◌, ◌+◌, [], length};
ghost use Rattle.pg_node.specs.Nodes.{held_by};
ghost use Rattle.pg_node.specs.PgNodeState.States.{names_of};

use crate::log::LogEntry;
use pg_node::{GroupTable, Node};
use std::alloc::Global;

/// The links of a node to one of its peers: where its bytes go out, and where those of the peer come in.
#[derive(Drop)]
pub struct Peer<L: Drop, I: Drop> {
    pub link: L,
    pub inlet: I,
}

/// A node, its links to its peers by their places, and the log of its events, the earliest first.
#[derive(Drop)]
pub struct LinkedNode<T: GroupTable, L: Drop, I: Drop> {
    pub(crate) node: Node<T>,
    pub(crate) peers: Vec<Peer<L, I>>,
    pub(crate) log: Vec<LogEntry>,
    ghost linked: { length peers.items + 1 ≡ length (names_of (held_by node)) },
}

impl<T: GroupTable + Drop, L: Drop, I: Drop> LinkedNode<T, L, I> {
    ghost use Rattle.pg_node_run.specs.Follows.{node_of, peers_of, log_of};

    /// A node with these links to its peers, in their order, which has logged nothing.
    ///
    /// Cost: no memory.
    pub fn new(alloc: Global, node: Node<T>, peers: Vec<Peer<L, I>>) -> LinkedNode<T, L, I>
        requires links { length peers.items + 1 ≡ length (names_of (held_by node)) }
        ensures node { node_of result ≡ node }
        ensures peers { peers_of result ≡ peers.items }
        ensures log { log_of result ≡ [] }
    {
        LinkedNode {
            node,
            peers,
            log: Vec::new(alloc),
        }
    }

    /// How many peers the node has.
    ///
    /// Cost: no memory.
    pub fn peer_count(&self) -> usize
        ensures { result ≡ length (peers_of self.now) }
    {
        self.peers.len()
    }

    /// The node.
    ///
    /// Cost: no memory.
    pub fn node(&self) -> &Node<T>
        ensures { result.now ≡ node_of self.now }
    {
        &self.node
    }

    /// The log, the earliest event first.
    ///
    /// Cost: no memory.
    pub fn log(&self) -> &[LogEntry]
        ensures { result.now ≡ log_of self.now }
    {
        self.log.as_slice()
    }

    /// The node, its links and its log.
    ///
    /// Cost: no memory.
    pub fn into_parts(self) -> (Node<T>, Vec<Peer<L, I>>, Vec<LogEntry>)
        ensures node { result.0 ≡ node_of self }
        ensures peers { result.1.items ≡ peers_of self }
        ensures log { result.2.items ≡ log_of self }
    {
        (self.node, self.peers, self.log)
    }
}
