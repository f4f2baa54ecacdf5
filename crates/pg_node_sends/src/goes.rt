//! To which peers a frame goes.

use pg_node_opens::Places;

/// The peers that a frame goes to, by their places among the peers.
#[derive(Clone, Copy, Debug)]
pub enum Goes {
    /// None of them.
    Nobody,
    /// The peer at this place.
    One(usize),
    /// The marked ones of so many peers.
    Marked(Places, usize),
}
