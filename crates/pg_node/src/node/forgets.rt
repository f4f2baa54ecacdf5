//! How answers of a node over bytes are forgotten once they were read.

ghost use Rattle.std.specs.Prelude.{◌≡◌, ◌<◌, nat_eq, length};
ghost use Rattle.pg_node_state.specs.PgGroup.Functions.{upd};
ghost use Rattle.pg_node_state.specs.PgNodePorts.Ports.{forgotten_on};

use crate::node::Node;
use pg_node_state::GroupTable;

impl<T: GroupTable + Drop> Node<T> {
    ghost use Rattle.pg_node.specs.Nodes.{held_by, links_of, buffer_of};
    ghost use Rattle.pg_node_state.specs.Issued.{ports_of};
    ghost use Rattle.pg_node_state.specs.States.{names_of, state_of, answers_of, forgotten_of, left_at};
    ghost use Rattle.pg_node_state.specs.Waiting.{ops_of};

    /// Forgets the first answers of a port, as `NodeState::forget_answers` does: all, where there are fewer than `count`. Without
    /// it a node keeps each answer.
    ///
    /// Cost: no memory; a move of each answer that is kept.
    pub fn forget_answers(&mut self, port: u16, count: usize)
        requires place { port < ports_of (held_by self.old) }
        ensures answers { answers_of (held_by self.new) ≡ left_at port count (answers_of (held_by self.old)) }
        ensures forgotten { forgotten_of (held_by self.new) ≡ upd nat_eq (forgotten_of (held_by self.old)) port
            (forgotten_on (forgotten_of (held_by self.old) port) count (length (answers_of (held_by self.old) port))) }
        ensures state { state_of (held_by self.new) ≡ state_of (held_by self.old) }
        ensures names { names_of (held_by self.new) ≡ names_of (held_by self.old) }
        ensures ports { ports_of (held_by self.new) ≡ ports_of (held_by self.old) }
        ensures ops { ops_of (held_by self.new) ≡ ops_of (held_by self.old) }
        ensures links { links_of self.new ≡ links_of self.old }
        ensures buffer { buffer_of self.new ≡ buffer_of self.old }
    {
        self.state.forget_answers(port, count);
    }
}
