ghost use Rattle.std.specs.Prelude.{ℕ, Bool, List, length, map};
ghost use Rattle.pg_cluster_judges.specs.PgNodeRun.declared.log.NodeEvent.{NodeEvent};
ghost use Rattle.pg_cluster_judges.specs.PgStep.Config.{Config};
ghost use Rattle.pg_cluster_judges.specs.PgWorldPackets.declared.step.FrameStep.{FrameStep};
ghost use Rattle.pg_cluster_judges.specs.declared.closed.TurnCount.{TurnCount};
ghost use Rattle.pg_cluster_judges.specs.Schedule.{NobodyLost};
ghost use Rattle.pg_cluster_judges.specs.Schedule.{IsSchedule, IsLosingSchedule};
ghost use Rattle.pg_cluster.specs.Threads.{Thread, AreMade, EndedWith, begun_by};
ghost use Rattle.pg_cluster_judges.specs.NodeOf.{NodeOf};
ghost use Rattle.pg_cluster_judges.specs.Together.{AreOneRun, AreOneLosingRun};

use pg_cluster_judges::{
    each_world_past_losses, nodes_ran_together, nodes_ran_together_past_losses,
};

/// The nodes of a configuration that ran as threads, with rings between them, and of which none was lost, made one run: their schedule is events that happen one
/// after another from the start, each node does there what its log has and comes to where it ended, and of the world to which
/// they lead everything holds that `one_history` of pg_laws says.
pub fn threads_are_one_run<K>()
    ensures { (given : Config) (lost : List Bool) (threads : List (Thread K)) (nodes : List NodeOf)
        (logs : List (List (ℕ × NodeEvent))) (turns : List TurnCount) (schedule : List FrameStep)
        → NobodyLost lost → AreMade given (map begun_by threads) → EndedWith lost threads nodes logs turns
        → IsSchedule logs (length logs) schedule → AreOneRun given nodes logs schedule }
{
    nodes_ran_together();
}

/// The same, whoever was lost: their schedule is events of the machine with losses that happen one after another from the start. They
/// lead to a world in which just those nodes are lost, that shows each node as it ended, and of which everything holds that survives
/// losses.
pub fn threads_are_one_losing_run<K>()
    ensures { (given : Config) (lost : List Bool) (threads : List (Thread K)) (nodes : List NodeOf)
        (logs : List (List (ℕ × NodeEvent))) (turns : List TurnCount) (schedule : List FrameStep)
        → AreMade given (map begun_by threads) → EndedWith lost threads nodes logs turns → IsLosingSchedule logs lost schedule
        → AreOneLosingRun given lost nodes schedule }
{
    nodes_ran_together_past_losses();
    each_world_past_losses();
}
