//! What a node announces as it begins.

ghost use Rattle.std.specs.Prelude.{IfOk};
ghost use Rattle.pg_node_ports.specs.PgNodeOpens.Places.{name_at};
ghost use Rattle.pg_node_sends.specs.Opening.{IsAnnouncement};

use crate::state::NodeState;
use pg_node_ports::{GroupTable, Packet};
use pg_node_sends::announced;
use std::alloc::AllocError;

impl<T: GroupTable + Drop> NodeState<T> {
    ghost use Rattle.pg_node_state.specs.States.{names_of, kept_by};

    /// What a node that has its table announces to each peer as it begins: all groups of the table, as `snapshot`
    /// lists them, at time 0.
    ///
    /// Errors: `AllocError`.
    ///
    /// Cost: that of the snapshot.
    pub fn announcement(&self) -> Result<Packet, AllocError>
        ensures { IfOk result (IsAnnouncement (kept_by self.now).table (name_at (names_of self.now) 0)) }
    {
        announced(self.alloc, &self.opens, &self.table)
    }
}
