ghost use Rattle.std.specs.Prelude.{◌≡◌, ◌↔◌, ℕ, List, None, true, is_some};
ghost use Rattle.pg_message_types.specs.declared.message.Message.{Message};
ghost use Rattle.pg_step.specs.Machines.Machine.{Event, start_of};
ghost use Rattle.pg_step.specs.Machines.Timely.{KeepsTime};
ghost use Rattle.pg_step.specs.Machines.Clocked.{Timed, Stamped, TimedWorld};
ghost use Rattle.pg_step.specs.Machines.Runs.{Leads};
ghost use Rattle.pg_step.specs.Machines.Losing.{Noticed, LosingWorld, LosingLeads, Step, Lose};
ghost use Rattle.pg_step.specs.Machines.Losing.{nobody_gone, all_steps, mapped, losing_happens};
ghost use Rattle.pg_step.specs.Machines.Machine.{Take};
ghost use Rattle.pg_step.specs.Nodes.{Node};
ghost use Rattle.pg_step.specs.Losses.{see_loss};
ghost use Rattle.pg_step.specs.LossLaws.{LosingFrameWorld, way_is_drained, see_refusal, lose_refusal, SeesLoss};
ghost use Rattle.pg_step.specs.State.{State};
ghost use Rattle.pg_step.specs.Turns.{Report};
ghost use Rattle.pg_step.specs.Step.{CLOCK_LIMIT, Action};
ghost use Rattle.pg_step.specs.Config.{Config};
ghost use Rattle.pg_step.specs.FrameMachine.{frame_machine, losing_frame_machine, last_notice, sent_packet};

/// Nodes that can see losses keep time as the others do: who sees a loss is later than the last event of the lost.
pub fn losing_nodes_keep_time()
    ensures { (config : Config) → KeepsTime CLOCK_LIMIT (losing_frame_machine config) }
{}

/// As long as no node is lost, the nodes that can see losses come to what the nodes come to that know of none.
pub fn without_losses()
    ensures { (config : Config) (es : List (Event Action)) (v : LosingWorld (Timed State) (Stamped (Noticed Message)) Report)
        → LosingLeads (losing_frame_machine config) last_notice
        (nobody_gone (start_of (losing_frame_machine config))) (all_steps es) v
        → (w : TimedWorld State Message Report)
        × Leads (frame_machine config) (start_of (frame_machine config)) es w
        × (v ≡ nobody_gone (mapped sent_packet w)) }
{}

/// What a node makes of the loss of a peer: the locks of the lost are free, its processes have ended and are in no group, it
/// counts as merged and counts no more, and what is gathered forgets it; all else stays, and nothing is sent or reported.
pub fn losses_are_seen()
    ensures { (peer : Node) (s : State) → SeesLoss peer s (see_loss peer s) }
{}

/// Where a node sees the loss of another, and where one is lost: exactly where there is no refusal, of which the
/// first is given. A loss is seen by taking the last notice, which comes after all that the lost node had sent.
pub fn losses_refused_in_order()
    ensures seen { (config : Config) (w : LosingFrameWorld) (i p : ℕ)
        → (see_refusal config w i p ≡ None) ↔ ((w.gone p ≡ true) × (way_is_drained (w.world.wire p i) ≡ true)
        × (is_some (losing_happens (losing_frame_machine config) last_notice w (Step (Take i p))) ≡ true)) }
    ensures lost { (config : Config) (w : LosingFrameWorld) (i : ℕ) (keep : ℕ → ℕ)
        → (lose_refusal config w i keep ≡ None)
        ↔ (is_some (losing_happens (losing_frame_machine config) last_notice w (Lose i keep)) ≡ true) }
{}
