use pg_world_packets::FrameStep;

/// A step of a world whose packets cross as bytes. Nodes are named by their places.
#[derive(Debug, Drop)]
pub enum Step {
    /// Up to `max` bytes of what one node sends to another go on the ring between them.
    Put { from: usize, to: usize, max: usize },
    /// Up to `max` bytes, and up to 65,536, of what is on the ring from one node to another come there.
    Pull { to: usize, from: usize, max: usize },
    /// An event. A node takes the first packet of a peer where the whole of its frame has come. By `FrameStep::Lose` the node is
    /// lost as by `Lose`, whatever it would keep.
    Event(FrameStep),
    /// The node is lost, and does nothing any more. What is on the rings from it, and has come of it, stays.
    Lose { node: usize },
}
