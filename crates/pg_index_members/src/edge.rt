ghost use Rattle.std.specs.Prelude.{◌≡◌};
ghost use Rattle.pg_index_members.specs.Edges.{before, IsOnNode};

use pg_term::{Atom, Pid};

/// Where a search in rows stops.
#[derive(Clone, Copy)]
pub enum Edge<'a> {
    /// Before a pid.
    AtPid(&'a Pid),
    /// Before the first pid of a node.
    AtNode(&'a Atom),
    /// After the last pid of a node.
    PastNode(&'a Atom),
}

impl Edge<'_> {
    /// Whether a pid is before the edge.
    ///
    /// Cost: no memory.
    pub fn is_after(&self, pid: &Pid) -> bool
        ensures { result ≡ before self.now pid.now }
    {
        match self {
            Edge::AtPid(edge) => pid.cmp(*edge).is_lt(),
            Edge::AtNode(node) => pid.node.cmp(*node).is_lt(),
            Edge::PastNode(node) => pid.node.cmp(*node).is_le(),
        }
    }

    /// The same, for a pid that is of the node of the pid that the edge is at: no name is looked at.
    ///
    /// Cost: no memory.
    pub fn is_after_on_node(&self, pid: &Pid) -> bool
        requires { IsOnNode self.now pid.now }
        ensures { result ≡ before self.now pid.now }
    {
        match self {
            Edge::AtPid(edge) => {
                let later = pid.id.cmp(&edge.id).then(pid.creation.cmp(&edge.creation));
                pid.serial.cmp(&edge.serial).then(later).is_lt()
            }
            Edge::AtNode(_) | Edge::PastNode(_) => self.is_after(pid),
        }
    }
}
