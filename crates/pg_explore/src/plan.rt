//! What comes in at a node.

use pg_world_packets::FrameStep;

/// What comes in at a node at its place among all that comes in there.
#[derive(Debug, Drop)]
pub enum Planned {
    /// A step of a world, as that by which a command comes in.
    Step(FrameStep),
    /// The node is lost. Of what is on the way from it to each peer the first packets stay, whatever their number.
    Loss,
}

/// What comes in at a node, in its order.
#[derive(Debug, Drop)]
pub struct Plan {
    pub steps: Vec<Planned>,
}
