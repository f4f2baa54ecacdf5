ghost use Rattle.std.specs.Prelude.{◌≡◌, ◌≤◌, ◌+◌, ◌*◌, ◌∷◌, ℕ, true, false, length, List, Some};
ghost use Rattle.std.specs.List.{IsDistinct};
ghost use Rattle.pg_term.specs.Same.{same_atom};
ghost use Rattle.pg_laws.specs.PgGroup.Value.{name_of};
ghost use Rattle.pg_laws.specs.PgGroup.declared.update.Update.{Update};
ghost use Rattle.pg_laws.specs.PgStep.Machines.Losing.{LosingEvent, LosingLeads, Step, all_steps, losing_happens};
ghost use Rattle.pg_laws.specs.PgStep.Machines.Machine.{Do, Event};
ghost use Rattle.pg_laws.specs.PgStep.Machines.Places.{is_place};
ghost use Rattle.pg_laws.specs.PgStep.Config.{Config, names_of};
ghost use Rattle.pg_laws.specs.PgStep.FrameMachine.{last_notice, losing_frame_machine};
ghost use Rattle.pg_laws.specs.PgStep.LossLaws.{LosingFrameWorld};
ghost use Rattle.pg_laws.specs.PgStep.State.Stage.{Waiting};
ghost use Rattle.pg_laws.specs.PgStep.Step.{Action, CLOCK_LIMIT, Retry};
ghost use Rattle.pg_laws.specs.PgStep.declared.command.OpId.{OpId};
ghost use Rattle.pg_laws.specs.Counted.{is_open};
ghost use Rattle.pg_laws.specs.Quiet.{OnlyTakes, OnlyTakesAndRetries};
ghost use Rattle.pg_laws_losses.specs.Quiet.{IsQuietLive};
ghost use Rattle.pg_laws_losses.specs.Reached.{LosingReaches};
ghost use Rattle.pg_laws_losses.specs.Readiness.Ready.{AllHaveRoom, NoLockLive, NoneReadyLive};
ghost use Rattle.pg_laws_losses.specs.Retrying.Retried.{FreesLocks, LiveHaveRoom, IsFreeLive, NoneOpenLive};
ghost use Rattle.pg_laws_losses.specs.Retrying.Retried.{RetryGoesPastLosses, live_peer_count, most_events_live, most_events_to_free};

/// A retry is answered, whoever was lost. Where nothing is on the way to a live node, each open command of such a node can
/// be tried again. Let it wait for its next attempt, and no live node hold the lock of its group. From then on, in
/// whatever order packets are taken, it is answered ok when four for each live peer are taken, and after one more
/// for each of them nothing is on the way again.
///
/// It is about takes alone: where other commands come in meanwhile or a node is lost, this one may wait again.
pub fn a_retry_is_answered_past_losses()
    ensures begins { (config : Config) (w : LosingFrameWorld) (events : List (LosingEvent Action)) (i : ℕ) (op : OpId)
        → IsDistinct same_atom (names_of config) → LosingReaches config events w → IsQuietLive config w
        → is_place (length config) i ≡ true → w.gone i ≡ false
        → is_open ((w.world.node i).state.stages op) ≡ true → (w.world.node i).clock + 1 ≤ CLOCK_LIMIT
        → (v : LosingFrameWorld)
        × (losing_happens (losing_frame_machine config) last_notice w (Step (Do i (Retry op))) ≡ Some v) }
    ensures goes { (config : Config) (w v : LosingFrameWorld) (events : List (LosingEvent Action))
        (takes : List (Event Action)) (i : ℕ) (op : OpId) (update : Update)
        → IsDistinct same_atom (names_of config) → LosingReaches config events w → IsQuietLive config w
        → is_place (length config) i ≡ true → w.gone i ≡ false
        → (w.world.node i).state.stages op ≡ Waiting update → IsFreeLive config w (name_of update)
        → LiveHaveRoom config w (1 + 5 * live_peer_count config w) → OnlyTakes takes
        → LosingLeads (losing_frame_machine config) last_notice w (all_steps (Do i (Retry op) ∷ takes)) v
        → RetryGoesPastLosses config w i op (length takes) v }
{}

/// Where nothing is on the way to a live node, and no command of one is ready, the retry of each open command is answered
/// so; no command is ready meanwhile, and once all is taken no live node holds a lock.
pub fn retries_are_answered_where_none_is_ready()
    ensures goes { (config : Config) (w v : LosingFrameWorld) (events : List (LosingEvent Action))
        (takes : List (Event Action)) (i : ℕ) (op : OpId)
        → IsDistinct same_atom (names_of config) → LosingReaches config events w → IsQuietLive config w
        → NoneReadyLive config w → is_place (length config) i ≡ true → w.gone i ≡ false
        → is_open ((w.world.node i).state.stages op) ≡ true
        → LiveHaveRoom config w (1 + 5 * live_peer_count config w) → OnlyTakes takes
        → LosingLeads (losing_frame_machine config) last_notice w (all_steps (Do i (Retry op) ∷ takes)) v
        → RetryGoesPastLosses config w i op (length takes) v }
    ensures unready { (config : Config) (w v : LosingFrameWorld) (events : List (LosingEvent Action))
        (takes : List (Event Action)) (i : ℕ) (op : OpId)
        → IsDistinct same_atom (names_of config) → LosingReaches config events w → IsQuietLive config w
        → NoneReadyLive config w
        → LosingLeads (losing_frame_machine config) last_notice w (all_steps (Do i (Retry op) ∷ takes)) v
        → NoneReadyLive config v }
    ensures locks { (config : Config) (w v : LosingFrameWorld) (events : List (LosingEvent Action))
        (takes : List (Event Action)) (i : ℕ) (op : OpId)
        → IsDistinct same_atom (names_of config) → LosingReaches config events w → IsQuietLive config w
        → NoneReadyLive config w → is_place (length config) i ≡ true → w.gone i ≡ false
        → is_open ((w.world.node i).state.stages op) ≡ true
        → LiveHaveRoom config w (1 + 5 * live_peer_count config w) → OnlyTakes takes
        → LosingLeads (losing_frame_machine config) last_notice w (all_steps (Do i (Retry op) ∷ takes)) v
        → length takes ≡ 5 * live_peer_count config w → NoLockLive config v }
{}

/// From each world, whoever was lost, takes lead to where nothing is on the way to a live node; then a retry of each command
/// that is ready there, and of no other; then takes to where nothing is on the way again, no command of such a node is ready,
/// and none holds a lock, where no clock comes near its limit.
pub fn every_lock_can_be_freed_past_losses()
    ensures { (config : Config) (w : LosingFrameWorld) (events : List (LosingEvent Action))
        → IsDistinct same_atom (names_of config) → LosingReaches config events w
        → AllHaveRoom config w (most_events_to_free config w + 1) → FreesLocks config w }
{}

/// Nothing is stuck, whoever was lost. From each world takes and retries alone lead to one in which each command is answered that
/// came in at a live node, and nothing is on the way to such a node, where no clock comes near its limit.
pub fn every_command_can_be_answered_past_losses()
    ensures { (config : Config) (w : LosingFrameWorld) (events : List (LosingEvent Action))
        → IsDistinct same_atom (names_of config) → LosingReaches config events w
        → AllHaveRoom config w (most_events_live config w + 1)
        → (more : List (Event Action)) × (v : LosingFrameWorld) × OnlyTakesAndRetries more
        × LosingLeads (losing_frame_machine config) last_notice w (all_steps more) v
        × NoneOpenLive config v × IsQuietLive config v }
{}
