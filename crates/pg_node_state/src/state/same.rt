//! Whether two nodes are the same in all that is seen of them.

ghost use Rattle.std.specs.Prelude.{◌≡◌, ◌↔◌, IsTrue, IfOk};
ghost use Rattle.pg_node_ports.specs.PgGroup.Ended.{ended_of};
ghost use Rattle.pg_node_ports.specs.PgLock.Locks.{locks_of};
ghost use Rattle.pg_node_ports.specs.PgEnds.Processes.{made_of};
ghost use Rattle.pg_node_ports.specs.PgNodeOpens.Opens as opens;
ghost use Rattle.pg_node_state.specs.Same.{AreSameNodes, AreAlike, AreSameBeside};
ghost use Rattle.pg_node_ports.specs.Same.{AreSamePorts};
ghost use Rattle.pg_node_state.specs.Issued.{ports_of};
ghost use Rattle.pg_node_state.specs.States.{forgotten_of};

use crate::state::NodeState;
use pg_node_ports::{GroupTable, same_forgotten, same_groups, same_ports};
use std::alloc::AllocError;

impl<T: GroupTable + Drop> NodeState<T> {
    /// Whether both are one node: they look the same, and have forgotten as many answers of each port.
    ///
    /// Errors: `AllocError`.
    ///
    /// Cost: that of `looks_same`.
    pub fn same(&self, other: &NodeState<T>) -> Result<bool, AllocError>
        ensures { IfOk result (λ same. IsTrue same ↔ AreSameNodes self.now other.now × (forgotten_of self.now ≡ forgotten_of other.now)) }
    {
        if !self.same_forgotten(other) {
            return Ok(false);
        }
        self.looks_same(other)
    }

    /// Whether both are one node to everybody who steps it: they are alike, and have the same clock.
    ///
    /// Errors: `AllocError`.
    ///
    /// Cost: that of `is_alike`.
    pub fn looks_same(&self, other: &NodeState<T>) -> Result<bool, AllocError>
        ensures { IfOk result (λ same. IsTrue same ↔ AreSameNodes self.now other.now) }
    {
        if self.clock != other.clock {
            return Ok(false);
        }
        self.is_alike(other)
    }

    /// Whether both are the same but for their clocks: they know the same nodes by the same names, and have the same
    /// groups with the same members, the same ended processes, holders, merged and lost peers, as many processes and
    /// references made, the same open commands with the same gathered, and as many ports, where as many commands came
    /// in and the same answers are kept. How many answers were forgotten is not
    /// compared.
    ///
    /// Errors: `AllocError`.
    ///
    /// Cost: that of `same_groups`, which alone takes memory, and of `same` of each other part.
    pub fn is_alike(&self, other: &NodeState<T>) -> Result<bool, AllocError>
        ensures { IfOk result (λ alike. IsTrue alike ↔ AreAlike self.now other.now) }
    {
        if self.same_beside(other) {
            same_groups(self.alloc, &self.table, &other.table)
        } else {
            Ok(false)
        }
    }

    /// Whether both have as many ports, and have forgotten as many answers of each.
    fn same_forgotten(&self, other: &NodeState<T>) -> bool
        ensures { IsTrue result ↔ (ports_of self.now ≡ ports_of other.now) × (forgotten_of self.now ≡ forgotten_of other.now) }
    {
        same_forgotten(&self.ports, &other.ports)
    }

    /// Whether both are the same but for their clocks and their groups. It takes no memory.
    fn same_beside(&self, other: &NodeState<T>) -> bool
        ensures { IsTrue result ↔ AreSameBeside self.now other.now }
    {
        self.same_processes(other) && self.same_sets(other) && self.same_commands(other)
    }

    /// Whether both made as many processes.
    fn same_processes(&self, other: &NodeState<T>) -> bool
        ensures { IsTrue result ↔ (made_of self.now.processes ≡ made_of other.now.processes) }
    {
        self.processes.made() == other.processes.made()
    }

    /// Whether the same processes have ended, the same references hold locks, and the same peers are merged.
    fn same_sets(&self, other: &NodeState<T>) -> bool
        ensures { IsTrue result ↔ (ended_of self.now.ended ≡ ended_of other.now.ended) × (locks_of self.now.locks ≡ locks_of other.now.locks)
            × (self.now.formation ≡ other.now.formation) }
    {
        self.ended.same(&other.ended)
            && self.locks.same(&other.locks)
            && self.formation.same(&other.formation)
    }

    /// Whether both know the same nodes, and the same commands are open and were answered.
    fn same_commands(&self, other: &NodeState<T>) -> bool
        ensures { IsTrue result ↔ (opens.AreSame self.now.opens other.now.opens) × (AreSamePorts self.now.ports.items other.now.ports.items) }
    {
        self.opens.same(&other.opens) && same_ports(&self.ports, &other.ports)
    }
}
