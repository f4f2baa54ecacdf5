//! What comes in.

use pg_step::Command;

/// What came in next.
#[derive(Debug, Drop)]
pub enum Input {
    /// A request at the port of this client.
    Ask { client: usize, command: Command },
    /// A node is to be lost.
    Lose { node: usize },
    /// A body that asks for nothing.
    Bad,
    /// The input is over.
    End,
    /// The input is broken, or can't be read, by the number of the fault.
    Broken(u8),
}
