ghost use Rattle.std.specs.Prelude.{◌≡◌, ◌≢◌, ◌↔◌, ◌≤◌, ◌+◌, ◌∷◌, ℕ, true, false, length, List, Some};
ghost use Rattle.std.specs.List.{IsDistinct};
ghost use Rattle.pg_term.specs.RefParts.{RefParts};
ghost use Rattle.pg_term.specs.Same.{same_atom};
ghost use Rattle.pg_term.specs.declared.term.Term.{Term};
ghost use Rattle.pg_laws.specs.PgMessageTypes.declared.message.Message.{Message};
ghost use Rattle.pg_laws.specs.PgStep.Machines.Clocked.{Stamped};
ghost use Rattle.pg_laws.specs.PgStep.Machines.Losing.{LosingEvent, LosingLeads, Noticed, Step, all_steps, losing_happens};
ghost use Rattle.pg_laws.specs.PgStep.Machines.Machine.{Do, Event, Take};
ghost use Rattle.pg_laws.specs.PgStep.Machines.Places.{is_pair, is_place};
ghost use Rattle.pg_laws.specs.PgStep.Config.{Config, names_of};
ghost use Rattle.pg_laws.specs.PgStep.FrameMachine.{last_notice, losing_frame_machine};
ghost use Rattle.pg_laws.specs.PgStep.LossLaws.{LosingFrameWorld};
ghost use Rattle.pg_laws.specs.PgStep.Step.{Action, CLOCK_LIMIT, Retry};
ghost use Rattle.pg_laws.specs.PgStep.declared.command.OpId.{OpId};
ghost use Rattle.pg_laws.specs.Quiet.{OnlyTakes};
ghost use Rattle.pg_laws_losses.specs.Quiet.{IsQuietLive, live_open, most_takes_live};
ghost use Rattle.pg_laws_losses.specs.Reached.{LosingReaches};
ghost use Rattle.pg_laws_losses.specs.Readiness.Ready.{EachIsRetried, RetryGoesOn, AllHaveRoom, IsQuietAmongLive, LossesSeen, NoLockLive};
ghost use Rattle.pg_laws_losses.specs.Readiness.Ready.{NoneReadyLive, OfReady, OnlyReady, OnlyRetries, is_ready_at, is_retried};

/// Nothing is on the way to a node that is not lost exactly where each of them has seen each loss, and nothing is on the way
/// between two of them.
pub fn quiet_nodes_saw_the_losses()
    ensures { (config : Config) (w : LosingFrameWorld) (events : List (LosingEvent Action))
        → IsDistinct same_atom (names_of config) → LosingReaches config events w
        → IsQuietLive config w ↔ IsQuietAmongLive config w }
{}

/// Where nothing is on the way to a node that is not lost, a lock that is held at such a node is that of a ready command of one:
/// all has come that it gathers, as where the last that it waited for was lost, and its retry goes on from there.
pub fn live_locks_are_of_ready_commands()
    ensures { (config : Config) (w : LosingFrameWorld) (events : List (LosingEvent Action)) (i : ℕ) (name : Term)
        (holder : RefParts)
        → IsDistinct same_atom (names_of config) → LosingReaches config events w → IsQuietLive config w
        → is_place (length config) i ≡ true → w.gone i ≡ false
        → (w.world.node i).state.locks name ≡ Some holder → OfReady config w name holder }
{}

/// A ready command of a node that is not lost can be tried again, where its clock is not at the limit, whoever was lost. Then it
/// goes on at once: it is answered, its update goes out, it asks those for the
/// lock that it has not asked, or, where it was denied, gives up and waits for its next attempt. Then it is not ready any more.
pub fn a_retry_of_a_ready_command_goes_on()
    ensures happens { (config : Config) (w : LosingFrameWorld) (events : List (LosingEvent Action)) (i : ℕ) (op : OpId)
        → LosingReaches config events w → is_ready_at config w i op ≡ true
        → is_place (length config) i ≡ true → w.gone i ≡ false → (w.world.node i).clock + 1 ≤ CLOCK_LIMIT
        → (v : LosingFrameWorld)
        × (losing_happens (losing_frame_machine config) last_notice w (Step (Do i (Retry op))) ≡ Some v) }
    ensures goes { (config : Config) (w v : LosingFrameWorld) (events : List (LosingEvent Action)) (i : ℕ) (op : OpId)
        → LosingReaches config events w → is_ready_at config w i op ≡ true
        → losing_happens (losing_frame_machine config) last_notice w (Step (Do i (Retry op))) ≡ Some v
        → RetryGoesOn config w v i op }
{}

/// Where nothing is on the way to a node that is not lost, and no command of such a node is ready, no such node holds
/// a lock.
pub fn no_lock_where_none_is_ready()
    ensures { (config : Config) (w : LosingFrameWorld) (events : List (LosingEvent Action))
        → IsDistinct same_atom (names_of config) → LosingReaches config events w → IsQuietLive config w
        → NoneReadyLive config w → NoLockLive config w }
{}

/// A command becomes ready only where its node sees a loss. After any other event a command that is ready was ready
/// before it.
pub fn only_a_seen_loss_makes_ready()
    ensures { (config : Config) (w v : LosingFrameWorld) (events : List (LosingEvent Action))
        (event : LosingEvent Action) (i : ℕ) (op : OpId)
        → LosingReaches config events w
        → losing_happens (losing_frame_machine config) last_notice w event ≡ Some v
        → (v.world.node i).state.lost ≡ (w.world.node i).state.lost
        → is_ready_at config v i op ≡ true → is_ready_at config w i op ≡ true }
{}

/// Where each node that is not lost has seen each loss, as where nothing is on the way to one, let packets be taken
/// and commands come in or be tried again, in whatever order, while nobody is lost. A command that is ready then was
/// ready before, and was not tried again meanwhile.
pub fn retries_leave_fewer_ready()
    ensures { (config : Config) (w v : LosingFrameWorld) (events : List (LosingEvent Action))
        (steps : List (Event Action)) (i : ℕ) (op : OpId)
        → IsDistinct same_atom (names_of config) → LosingReaches config events w → LossesSeen config w
        → LosingLeads (losing_frame_machine config) last_notice w (all_steps steps) v
        → is_ready_at config v i op ≡ true
        → (is_ready_at config w i op ≡ true) × (is_retried i op steps ≡ false) }
{}

/// Once each command that was ready there was tried again, in whatever order and whatever else came in, no command of a
/// node that is not lost is ready. Where nothing is on the way to such a node then, none holds a lock.
pub fn retries_free_the_locks()
    ensures ready { (config : Config) (w v : LosingFrameWorld) (events : List (LosingEvent Action))
        (steps : List (Event Action))
        → IsDistinct same_atom (names_of config) → LosingReaches config events w → LossesSeen config w
        → LosingLeads (losing_frame_machine config) last_notice w (all_steps steps) v
        → EachIsRetried config w steps → NoneReadyLive config v }
    ensures locks { (config : Config) (w v : LosingFrameWorld) (events : List (LosingEvent Action))
        (steps : List (Event Action))
        → IsDistinct same_atom (names_of config) → LosingReaches config events w → LossesSeen config w
        → LosingLeads (losing_frame_machine config) last_notice w (all_steps steps) v
        → EachIsRetried config w steps → IsQuietLive config v → NoLockLive config v }
{}

/// After a retry each other command is ready exactly where it was before.
pub fn a_retry_leaves_the_others()
    ensures { (config : Config) (w v : LosingFrameWorld) (events : List (LosingEvent Action)) (i j : ℕ) (op other : OpId)
        → LosingReaches config events w
        → losing_happens (losing_frame_machine config) last_notice w (Step (Do i (Retry op))) ≡ Some v
        → (j ≡ i → op ≢ other) → is_ready_at config v j other ≡ is_ready_at config w j other }
{}

/// Where each node that is not lost has seen each loss, the ready commands, and no others, can be tried again one after another, if
/// no clock is nearer to its limit than commands are open. Then none is ready.
pub fn all_ready_commands_can_be_retried()
    ensures { (config : Config) (w : LosingFrameWorld) (events : List (LosingEvent Action)) (room : ℕ)
        → IsDistinct same_atom (names_of config) → LosingReaches config events w → LossesSeen config w
        → AllHaveRoom config w (live_open config w + room)
        → (retries : List (Event Action)) × (v : LosingFrameWorld) × OnlyRetries retries
        × LosingLeads (losing_frame_machine config) last_notice w (all_steps retries) v
        × EachIsRetried config w retries × OnlyReady config w retries
        × NoneReadyLive config v × AllHaveRoom config v room }
{}

/// A world comes to rest, whoever was lost. While a packet or a last notice is on the way to a node that is not lost,
/// each that is next there can be taken, where no clock is full. So where no clock comes near its limit takes lead to a
/// world in which nothing is on the way to such a node.
pub fn a_world_comes_to_rest_past_losses()
    ensures goes_on { (config : Config) (w : LosingFrameWorld) (events : List (LosingEvent Action)) (x y : ℕ)
        (packet : Stamped (Noticed Message)) (rest : List (Stamped (Noticed Message)))
        → IsDistinct same_atom (names_of config) → LosingReaches config events w → AllHaveRoom config w 1
        → is_pair (length config) x y ≡ true → w.gone y ≡ false → w.world.wire x y ≡ packet ∷ rest
        → (v : LosingFrameWorld)
        × (losing_happens (losing_frame_machine config) last_notice w (Step (Take y x)) ≡ Some v) }
    ensures rests { (config : Config) (w : LosingFrameWorld) (events : List (LosingEvent Action))
        → IsDistinct same_atom (names_of config) → LosingReaches config events w
        → AllHaveRoom config w (most_takes_live config w + 1)
        → (takes : List (Event Action)) × (v : LosingFrameWorld) × OnlyTakes takes
        × LosingLeads (losing_frame_machine config) last_notice w (all_steps takes) v × IsQuietLive config v }
{}
