//! What a diagram shows.

/// What a packet is about: the colour of its arrow.
#[derive(Clone, Copy, Debug, PartialEq, Eq)]
pub enum Topic {
    /// A lock is asked for.
    Lock,
    /// A group is changed.
    Update,
    /// A call is answered.
    Reply,
    /// A lock is freed.
    Free,
    /// A process has ended.
    End,
    /// A node announces its groups.
    Exchange,
}

/// What happened. Nodes are named by their places. What names a node or a packet that is not there is not drawn.
#[derive(Debug, Drop)]
pub enum Event {
    /// What follows belongs to this line of the script.
    Line(usize),
    /// A packet was sent. The first is number 0.
    Sent {
        from: usize,
        to: usize,
        topic: Topic,
        label: String,
    },
    /// The packet of this number was taken.
    Taken {
        packet: usize,
    },
    /// Something happened at a node.
    Note {
        node: usize,
        label: String,
    },
    /// A node was lost.
    Lost {
        node: usize,
    },
}

/// The nodes by name, and what happened to them, the first first.
#[derive(Debug, Drop)]
pub struct Diagram {
    pub nodes: Vec<String>,
    pub events: Vec<Event>,
}
