//! What is seen.

/// What is seen of a world, while it does what a line of a script says.
#[derive(Debug, Drop)]
pub struct Sight {
    /// The number of the line; 0 before the first.
    pub line: usize,
    pub seen: Seen,
}

/// What moved or happened. Nodes are given by their places, packets by their numbers: the first that was sent is 0.
#[derive(Debug, Drop)]
pub enum Seen {
    /// Bytes went on the ring from one node to another.
    Put {
        from: usize,
        to: usize,
        count: usize,
    },
    /// Bytes came off the ring from one node to another.
    Pulled {
        to: usize,
        from: usize,
        count: usize,
    },
    /// A node would take a packet of a peer, and no whole packet had come.
    NotThere {
        node: usize,
        peer: usize,
    },
    /// A node took a packet, and set its clock.
    Taken {
        node: usize,
        packet: usize,
        clock: u32,
    },
    /// A node took the command of this number, and set its clock.
    Came {
        node: usize,
        number: u32,
        text: String,
        clock: u32,
    },
    /// A node tried the command of this number again, and set its clock.
    Tried {
        node: usize,
        number: u32,
        clock: u32,
    },
    /// A packet was sent.
    Sent {
        packet: usize,
    },
    /// A node granted a lock to a reference.
    Granted {
        node: usize,
        name: String,
        to: String,
    },
    /// A node freed a lock, which this reference held.
    Freed {
        node: usize,
        name: String,
        by: String,
    },
    /// A node denied a lock to a reference.
    Denied {
        node: usize,
        name: String,
        to: String,
    },
    /// The command of this number waits for its retry.
    Waits {
        node: usize,
        number: u32,
    },
    /// A node answered the command of this number.
    Answered {
        node: usize,
        number: u32,
        text: String,
    },
    /// A node saw the loss of a peer, and set its clock.
    LossSeen {
        node: usize,
        peer: usize,
        clock: u32,
    },
    /// A node is lost.
    Lost {
        node: usize,
    },
}
