//! What a node keeps of its events.

use pg_node::{Command, Held, OpId};

/// An event of one node.
#[derive(Debug, Drop)]
pub enum NodeEvent {
    /// It took the next packet of the peer at this place among its peers.
    Take(usize),
    /// A command came in at a port.
    Command(u16, Held<Command>),
    /// It tried a command again that waited.
    Retry(OpId),
    /// It saw the loss of the peer at this place among its peers.
    SeeLoss(usize),
}

/// The clock that an event set, and the event.
pub type LogEntry = (u32, NodeEvent);
