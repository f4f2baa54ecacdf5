ghost use Rattle.std.specs.Prelude.{◌≡◌, ℕ};
ghost use Rattle.pg_term.specs.declared.pid.Pid.{Pid};
ghost use Rattle.pg_term.specs.declared.term.Term.{Term};
ghost use Rattle.pg_term.specs.RefParts.{RefParts};
ghost use Rattle.pg_message_types.specs.PgGroup.declared.update.Update.{Update};
ghost use Rattle.pg_exchange.specs.GroupList.{GroupList};
ghost use Rattle.pg_message_types.specs.declared.message.Said.{Said};
ghost use Rattle.pg_step.specs.Nodes.{Node, Nodes};
ghost use Rattle.pg_step.specs.PeersServed.{LockServed, LockFreed, UpdateServed, NewsTaken, OddReplies};
ghost use Rattle.pg_step.specs.State.{State, Use};

/// What a node does for a peer. A lock is granted exactly where the node is formed and the name is free, and freed by
/// its holder alone. An update is applied whoever holds the lock, and answered; a join of a process that has ended
/// adds nothing. The groups that a peer announces are merged, and a process whose end it announces is in no group. A
/// reply that nobody waits for changes nothing.
pub fn peers_are_served()
    ensures locks { (m : Nodes) (peer : Node) (reference : RefParts) (name : Term) (s : State)
        → LockServed m peer reference name s }
    ensures freed { (name : Term) (reference : RefParts) (s : State) → LockFreed name reference s }
    ensures updates { (peer : Node) (reference : RefParts) (update : Update) (s : State)
        → UpdateServed peer reference update s }
    ensures news { (peer : Node) (groups : GroupList) (pid : Pid) (s : State)
        → NewsTaken peer groups pid s }
    ensures odd { (used : Use) (m : Nodes) (peer : Node) (number : ℕ) (said : Said) (s : State)
        → OddReplies used m peer number said s }
{}
