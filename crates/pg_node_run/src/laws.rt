ghost use Rattle.std.specs.Prelude.{ℕ};
ghost use Rattle.pg_node.specs.PgIndex.declared.index_table.IndexTable.{IndexTable};
ghost use Rattle.pg_node.specs.PgIndex.contracts.index_table.IndexTableGroupTable.TheImpl.{ghosts};
ghost use Rattle.pg_node.specs.PgRing.MemRing.{RingBytes};
ghost use Rattle.pg_node_run.specs.declared.run.NodeRun.{NodeRun};
ghost use Rattle.pg_node_run.specs.Still.{AllTaken, AreJoined, CountsOn, HasNothingToDo, IsStill};

/// A whole turn over rings in memory that logs nothing and moves no byte has nothing left to do for a peer whose loss was not seen and
/// whose link is sound: no byte is on the ring from there, none waits to go there unless that ring is full, and no whole packet of the
/// peer is left, unless the step refuses it.
pub fn a_still_turn_has_nothing_to_do<K>()
    ensures { (a b : NodeRun IndexTable RingBytes RingBytes K ghosts) (peer : ℕ)
        → IsStill a b → CountsOn peer b → HasNothingToDo peer a b }
{}

/// Where the turns of a round are still, all that one node sent another was taken: nothing of it waits or is on the ring, which both see
/// alike as no byte moved.
pub fn all_is_taken_where_a_round_is_still<K>()
    ensures { (from from2 to to2 : NodeRun IndexTable RingBytes RingBytes K ghosts) (peer other : ℕ)
        → IsStill from from2 → IsStill to to2 → CountsOn peer from2 → CountsOn other to2
        → AreJoined peer other from to → AllTaken peer other from from2 to to2 }
{}
