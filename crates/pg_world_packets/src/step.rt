use crate::effect::Effect;
use pg_node_state::{Command, OpId};

/// A step of a world of packets. Nodes are named by their places.
#[derive(Debug, Drop)]
pub enum FrameStep {
    /// The node takes the first packet on the way from the peer.
    Take {
        node: usize,
        peer: usize,
    },
    /// A command comes in at a port of the node.
    Command {
        node: usize,
        port: u16,
        command: Command,
    },
    /// The node tries a command again that waits.
    Retry {
        node: usize,
        op: OpId,
    },
    /// The node sees the loss of the peer, once it has taken all that came from there.
    SeeLoss {
        node: usize,
        peer: usize,
    },
    /// The node is lost, and does nothing any more. Of what is on the way from it to each of its peers the first packets stay, as
    /// many as `keep` has at the place of the peer.
    Lose {
        node: usize,
        keep: Vec<usize>,
    },
}

/// What a step did.
#[derive(Clone, Copy, Debug, PartialEq, Eq)]
pub enum Stepped {
    /// Nothing: no packet was there to be taken.
    Nothing,
    /// So many bytes moved.
    Moved(usize),
    /// The event happened, and did this.
    Happened(Effect),
    /// The node is lost.
    Gone,
}
