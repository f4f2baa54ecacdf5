//! How answers are forgotten once they were read.

ghost use Rattle.std.specs.Prelude.{◌≡◌, ◌<◌, nat_eq, length};
ghost use Rattle.pg_node_ports.specs.PgGroup.Functions.{upd};
ghost use Rattle.pg_node_ports.specs.Ports.{forgotten_on};

use crate::state::NodeState;
use pg_node_ports::{GroupTable, forget, forgotten};

impl<T: GroupTable + Drop> NodeState<T> {
    ghost use Rattle.pg_node_state.specs.Issued.{ports_of};
    ghost use Rattle.pg_node_state.specs.States.{names_of, state_of, answers_of, forgotten_of, left_at};
    ghost use Rattle.pg_node_state.specs.Waiting.{ops_of};

    /// Forgets the first answers of a port: all, where there are fewer than `count`. Those that are kept stay in their order, each with
    /// the number of its command, and all else stays. The memory is used for later answers of the port.
    ///
    /// Cost: no memory; a move of each answer that is kept.
    pub fn forget_answers(&mut self, port: u16, count: usize)
        requires place { port < ports_of self.old }
        ensures answers { answers_of self.new ≡ left_at port count (answers_of self.old) }
        ensures forgotten { forgotten_of self.new ≡ upd nat_eq (forgotten_of self.old) port
            (forgotten_on (forgotten_of self.old port) count (length (answers_of self.old port))) }
        ensures state { state_of self.new ≡ state_of self.old }
        ensures names { names_of self.new ≡ names_of self.old }
        ensures ports { ports_of self.new ≡ ports_of self.old }
        ensures ops { ops_of self.new ≡ ops_of self.old }
    {
        forget(&mut self.ports, port, count);
    }

    /// How many answers of a port were forgotten: the place of its first answer that is kept, among all that were given there.
    ///
    /// Cost: no memory.
    pub fn forgotten(&self, port: u16) -> u64
        requires place { port < ports_of self.now }
        ensures { result ≡ forgotten_of self.now port }
    {
        forgotten(&self.ports, port)
    }
}
