//! Ways between worlds.

/// A way from a world to another.
#[derive(Clone, Copy, Debug)]
pub struct Way {
    /// The place of the world to which it leads.
    pub place: usize,
    /// A packet is taken on it.
    pub is_take: bool,
}
