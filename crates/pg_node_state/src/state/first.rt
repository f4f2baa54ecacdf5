//! The open commands as an attempt begins.

ghost use Rattle.std.specs.Prelude.{◌≡◌, ◌<◌, ◌+◌, ◌^◌, true, false, length};
ghost use Rattle.pg_node_ports.specs.PgGroup.declared.update.Update.{Update};
ghost use Rattle.pg_node_ports.specs.PgGroup.Value.{name_of};
ghost use Rattle.pg_node_ports.specs.PgNodeOpens.Opens.{names_of, live_of, references_of, stages_of, Shows};
ghost use Rattle.pg_node_ports.specs.PgNodeOpens.Places.{name_at};
ghost use Rattle.pg_node_ports.specs.PgNodeOpens.Readings.{stage_seen};
ghost use Rattle.pg_node_ports.specs.PgNodeOpens.declared.command.Stage.TheVariants as seen;
ghost use Rattle.pg_node_ports.specs.PgStep.Attempts.{attempt};
ghost use Rattle.pg_node_ports.specs.PgStep.Nodes.{Node, greatest, is_peer};
ghost use Rattle.pg_node_ports.specs.PgStep.Peers.{would_grant};
ghost use Rattle.pg_node_ports.specs.PgStep.State.{State};
ghost use Rattle.pg_node_ports.specs.PgStep.State.Stage.{Waiting};
ghost use Rattle.pg_node_state.specs.Issued.{asked_first};

use pg_node_ports::{Asked, OpId, Opens};

/// A command that waits begins an attempt, and the node at a place is asked, alone: the greatest live one. `granted`:
/// what the own node would answer. It takes no memory.
pub(crate) fn ask_first(opens: &mut Opens, op: OpId, first: usize, granted: bool)
    requires waits { stage_seen (stages_of opens.old op) ≡ seen.Waiting }
    requires next { references_of opens.old + 1 < 2 ^ 32 }
    requires place { first < length (names_of opens.old) }
    requires greatest { name_at (names_of opens.old) first ≡ greatest (live_of opens.old) }
    ensures turned { (update : Update) → stages_of opens.old op ≡ Waiting update
        → (s : State) → Shows opens.old s → would_grant (live_of opens.old) s (name_of update) ≡ granted
        → Shows opens.new (asked_first (live_of opens.old) op update s).state }
    ensures nodes { names_of opens.new ≡ names_of opens.old }
{
    opens.start(op, first);
    let number = opens.references();
    opens.ask(number, Asked::One(first), granted);
}

/// A command that waits is carried out at once, where the own node grants the lock and no peer counts. It takes no memory.
pub(crate) fn end_alone(opens: &mut Opens, op: OpId)
    requires waits { stage_seen (stages_of opens.old op) ≡ seen.Waiting }
    requires next { references_of opens.old + 2 < 2 ^ 32 }
    requires own { name_at (names_of opens.old) 0 ≡ greatest (live_of opens.old) }
    requires alone { (q : Node) → is_peer (live_of opens.old) q ≡ false }
    ensures turned { (update : Update) → stages_of opens.old op ≡ Waiting update
        → (s : State) → Shows opens.old s → would_grant (live_of opens.old) s (name_of update) ≡ true
        → Shows opens.new (attempt (live_of opens.old) op update s).state }
    ensures nodes { names_of opens.new ≡ names_of opens.old }
{
    ask_first(opens, op, 0, true);
    let number = opens.references();
    // The own node was asked, so that it does not matter what it would answer now: it holds the lock.
    opens.ask(number, Asked::All, false);
    opens.begin(number);
    opens.finish(number + 1);
}
