ghost use Rattle.std.specs.Prelude.{◌≡◌, ℕ, Bool, true, false};
ghost use Rattle.pg_term.specs.Same.{same_atom};
ghost use Rattle.pg_step.specs.PgGroup.declared.update.Update.{Update};
ghost use Rattle.pg_step.specs.PgGroup.Value.{name_of};
ghost use Rattle.pg_step.specs.declared.command.OpId.{OpId};
ghost use Rattle.pg_step.specs.Nodes.{Node, Nodes, is_peer};
ghost use Rattle.pg_step.specs.State.{State, Status};
ghost use Rattle.pg_step.specs.State.Use.{Locking};
ghost use Rattle.pg_step.specs.Peers.{would_grant};
ghost use Rattle.pg_step.specs.Attempts.{go_on};
ghost use Rattle.pg_node_opens.specs.Outlooks.{outlook_of, turn_by};

/// What a node makes of a request for the lock once answers are in goes by the outlook: it waits, gives up, asks the rest, or
/// begins once the rest is asked. No peer that counts has the own name.
pub fn steps_go_by_outlook()
    ensures { (m : Nodes) (c : ℕ) (op : OpId) (update : Update) (first : Node) (st : Node → Status) (s : State) (granted : Bool)
        → ((q : Node) → is_peer m q ≡ true → same_atom m.own q ≡ false)
        → would_grant m s (name_of update) ≡ granted
        → go_on m c (Locking op update first st) s
        ≡ turn_by (outlook_of m granted (Locking op update first st)) m c op update first st s }
{}
