//! What holds of the nodes of one run, and of its schedule.

ghost use Rattle.std.specs.Prelude.{◌≡◌, ℕ, Bool, List, length, map};
ghost use Rattle.std.specs.declared.alloc.Global.{Global};
ghost use Rattle.std.specs.declared.vec.Vec.{Vec};
ghost use Rattle.pg_node_run.specs.declared.log.NodeEvent.{NodeEvent};
ghost use Rattle.pg_world.specs.PgStep.Config.{Config};
ghost use Rattle.pg_world.specs.PgWorldPackets.declared.step.FrameStep.{FrameStep};
ghost use Rattle.pg_cluster_judges.specs.Judges.{Agree, Replays};
ghost use Rattle.pg_cluster_judges.specs.Schedule.{IsLosingSchedule};
ghost use Rattle.pg_cluster_judges.specs.Survivors.{SurvivorsAgree};
ghost use Rattle.pg_cluster_judges.specs.NodeOf.{NodeOf};
ghost use Rattle.pg_cluster_judges.specs.Together.{AreOneRun, AreOneLosingRun};

use pg_world::{
    each_world_past_losses, ended_processes_were_finished,
    ended_processes_were_finished_past_losses, no_loss_is_seen, nodes_that_heard_the_lost_agree,
};

/// The nodes of one run agree.
pub fn nodes_of_one_run_agree()
    ensures { (given : Config) (nodes : List NodeOf) (logs : List (Vec (ℕ × NodeEvent) Global)) (schedule : List FrameStep)
        → AreOneRun given nodes (map (λ v. v.items) logs) schedule → Agree nodes logs }
{
    ended_processes_were_finished();
    no_loss_is_seen();
}

/// The survivors of one run agree, whoever was lost, where its schedule is that to which their logs join.
pub fn survivors_of_one_run_agree()
    ensures { (given : Config) (lost : List Bool) (nodes : List NodeOf) (logs : List (Vec (ℕ × NodeEvent) Global)) (schedule : List FrameStep)
        → AreOneLosingRun given lost nodes schedule → length logs ≡ length nodes → IsLosingSchedule (map (λ v. v.items) logs) lost schedule
        → SurvivorsAgree nodes lost logs }
{
    nodes_that_heard_the_lost_agree();
    ended_processes_were_finished_past_losses();
}

/// The schedule of one run replays: made again step by step, it leads to the nodes of the run.
pub fn one_run_replays()
    ensures { (given : Config) (nodes : List NodeOf) (logs : List (List (ℕ × NodeEvent))) (schedule : List FrameStep)
        → AreOneRun given nodes logs schedule → Replays given schedule nodes }
{
    each_world_past_losses();
}

/// So does that of one run in which nodes were lost.
pub fn one_losing_run_replays()
    ensures { (given : Config) (lost : List Bool) (nodes : List NodeOf) (schedule : List FrameStep)
        → AreOneLosingRun given lost nodes schedule → Replays given schedule nodes }
{
    each_world_past_losses();
}
