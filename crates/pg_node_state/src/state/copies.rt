//! A copy of a node.

ghost use Rattle.std.specs.Prelude.{◌≡◌, IfOk};

use crate::state::NodeState;
use pg_node_ports::GroupTable;
use std::alloc::AllocError;

impl<T: GroupTable + Drop> NodeState<T> {
    ghost use Rattle.pg_node_state.specs.Same.{AreSameNodes};
    ghost use Rattle.pg_node_state.specs.States.{forgotten_of};

    /// The same node: what `same` compares is the same in both, and as many answers were forgotten.
    ///
    /// Errors: `AllocError`.
    ///
    /// Cost: that of the copies of all that it keeps.
    pub fn copy(&self) -> Result<NodeState<T>, AllocError>
        ensures same { IfOk result (AreSameNodes self.now) }
        ensures forgotten { IfOk result (λ copy. forgotten_of copy ≡ forgotten_of self.now) }
    {
        let formation = self.formation.copy()?;
        let processes = self.processes.copy()?;
        let opens = self.opens.copy()?;
        let ended = self.ended.copy(self.alloc)?;
        let locks = self.locks.copy()?;
        let ports = self.ports.clone()?;
        let table = self.table.copy()?;
        Ok(NodeState {
            clock: self.clock,
            opens,
            table,
            ended,
            locks,
            formation,
            processes,
            ports,
            alloc: self.alloc,
        })
    }
}

impl<T: GroupTable + Drop> Clone for NodeState<T> {
    ghost use Rattle.pg_node_state.specs.Same.{AreSameNodes};

    ghost is_clone = { λ node copy. AreSameNodes node copy };

    fn clone(&self) -> Result<NodeState<T>, AllocError> {
        self.copy()
    }
}
