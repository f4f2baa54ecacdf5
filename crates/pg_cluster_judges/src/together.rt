ghost use Rattle.std.specs.Prelude.{ℕ, Bool, List, length};
ghost use Rattle.pg_world.specs.PgIndex.declared.index_table.IndexTable.{IndexTable};
ghost use Rattle.pg_world.specs.PgIndex.contracts.index_table.IndexTableGroupTable.TheImpl.{ghosts};
ghost use Rattle.pg_cluster_judges.specs.Merge.{Merges, clocks_of};
ghost use Rattle.pg_world.specs.PgNode.declared.node.Node.{Node};
ghost use Rattle.pg_node_run.specs.Follows.{log_of};
ghost use Rattle.pg_world.specs.PgStep.Config.{Config};
ghost use Rattle.pg_cluster_judges.specs.Apart.{Linked, RanApart, RanTogether, events_in};
ghost use Rattle.pg_cluster_judges.specs.ApartWithLosses.{RanLosing, RanPastLosses, losing_events};

use crate::history::joined_history;
use pg_world::{
    each_world_past_losses, first_packets_were_welcome, losing_nodes_keep_time, pieces_continue,
    written_is_read,
};

/// Nodes of a configuration that ran apart, with rings between them, made one run together: their logs, merged by clock and then by
/// node, are events that happen one after another from the start, and lead to a world that shows each node as it ended and of
/// which everything holds that `one_history` of pg_laws says. No link is damaged in the end: of what came to it no node has
/// told a fault that marks a link for good.
pub fn nodes_ran_together()
    ensures { (config : Config) (nodes : List (Node IndexTable ghosts)) (begun ended : ℕ → Linked IndexTable ghosts) (order : List (ℕ × ℕ))
        → RanApart config nodes begun ended → Merges (length config) (λ i. clocks_of (log_of (ended i))) order
        → RanTogether config ended (events_in ended order) }
{
    pieces_continue();
    written_is_read();
    joined_history();
    first_packets_were_welcome();
}

/// The same where nodes were lost, each where it ended: their logs, merged by clock and then by node, with the loss of each lost node
/// right after its last entry, are events of the machine with losses that happen one after another from the start. Of what a lost node
/// had sent as many packets stay as the others take by the entries that follow. An event takes a last notice just where an act saw a
/// loss. The events lead to a world that shows each node as it ended, and of which everything holds that survives losses.
pub fn nodes_ran_together_past_losses()
    ensures { (config : Config) (nodes : List (Node IndexTable ghosts)) (begun ended : ℕ → Linked IndexTable ghosts) (lost : ℕ → Bool) (order : List (ℕ × ℕ))
        → RanLosing config nodes begun ended lost → Merges (length config) (λ i. clocks_of (log_of (ended i))) order
        → RanPastLosses config lost ended (losing_events (length config) (λ i. log_of (ended i)) lost order) }
{
    pieces_continue();
    written_is_read();
    losing_nodes_keep_time();
    each_world_past_losses();
}
