ghost use Rattle.std.specs.Prelude.{◌≡◌, ◌≢◌, ◌≤◌, ◌++◌, ℕ, true, false, length, List, [], ◌∷◌, None};
ghost use Rattle.std.specs.List.{AllByRecursion, IsDistinct};
ghost use Rattle.pg_term.specs.declared.pid.Pid.{Pid};
ghost use Rattle.pg_term.specs.declared.term.Term.{Term};
ghost use Rattle.pg_term.specs.Same.{same_atom};
ghost use Rattle.pg_laws.specs.PgEnds.Numbers.{is_among};
ghost use Rattle.pg_laws.specs.PgRefs.Numbered.{numbered};
ghost use Rattle.pg_laws.specs.PgLock.Locks.{is_holder};
ghost use Rattle.pg_laws.specs.PgMessageTypes.declared.message.Message.{Message};
ghost use Rattle.pg_laws.specs.PgStep.Machines.Clocked.{plain};
ghost use Rattle.pg_laws.specs.PgStep.Machines.Losing.{LosingEvent, LosingLeads, Noticed, all_steps};
ghost use Rattle.pg_laws.specs.PgStep.Machines.Machine.{Event, Taken};
ghost use Rattle.pg_laws.specs.PgStep.Machines.Places.{is_pair, is_place};
ghost use Rattle.pg_laws.specs.PgStep.Config.{Config, name_at, names_of, nodes_at};
ghost use Rattle.pg_laws.specs.PgStep.FrameMachine.{last_notice, losing_frame_machine, losing_machine_of};
ghost use Rattle.pg_laws.specs.PgStep.LossLaws.{LosingFrameWorld};
ghost use Rattle.pg_laws.specs.PgStep.State.{formed};
ghost use Rattle.pg_laws.specs.PgStep.Step.{Action};
ghost use Rattle.pg_laws.specs.PgStep.Turns.{Report};
ghost use Rattle.pg_laws.specs.History.{Entry, answered_count, applied_by, history};
ghost use Rattle.pg_laws.specs.Exclusive.{ExclusiveLocks};
ghost use Rattle.pg_laws.specs.Quiet.{OnlyTakes};
ghost use Rattle.pg_laws.specs.WithLosses.{FormedAtLosses, NoLockOfLost, NonePendingLive, HasTablesPastLosses};
ghost use Rattle.pg_laws_losses.specs.Agreeing.{EndedHome, SawAll};
ghost use Rattle.pg_laws_losses.specs.Quiet.{IsQuietLive, WaitsForRetries, most_takes_live};
ghost use Rattle.pg_laws_losses.specs.Reached.{LosingReaches, lives_in, nodes_of};
ghost use Rattle.pg_laws_losses.specs.Thinned.{AppliesThinned};

/// The table of each node that is not lost, where every node was formed at the first loss, is that of a thinned history of
/// each group, and no answered update is left out of it. Where some node is lost, each is formed.
pub fn tables_are_replayed_past_losses()
    ensures { (config : Config) (w : LosingFrameWorld) (events : List (LosingEvent Action))
        → IsDistinct same_atom (names_of config) → LosingReaches config events w
        → FormedAtLosses config events → HasTablesPastLosses config events w }
{}

/// What a node that is not lost has applied of a group, whoever was formed when: the history, or all of it but its last entry,
/// with at most one entry left out of each node whose loss it saw, none of which was answered.
pub fn histories_are_thinned()
    ensures { (config : Config) (w : LosingFrameWorld) (events : List (LosingEvent Action)) (i : ℕ) (name : Term)
        → IsDistinct same_atom (names_of config) → LosingReaches config events w
        → is_place (length config) i ≡ true → w.gone i ≡ false → AppliesThinned config w i name }
{}

/// No name has, at any node, a holder whose node's loss that node has seen.
pub fn no_lock_of_the_lost()
    ensures { (config : Config) (w : LosingFrameWorld) (events : List (LosingEvent Action)) (i : ℕ)
        → IsDistinct same_atom (names_of config) → LosingReaches config events w
        → is_place (length config) i ≡ true → NoLockOfLost w i }
{}

/// Whoever is lost, locks are exclusive among the nodes that are not: two updates of one group, of two of them, are never under way
/// at once, and each has the lock of its group at all of them.
pub fn locks_are_exclusive_past_losses()
    ensures { (config : Config) (w : LosingFrameWorld) (events : List (LosingEvent Action))
        → IsDistinct same_atom (names_of config) → LosingReaches config events w
        → ExclusiveLocks config (lives_in config w) (nodes_of w).node }
{}

/// Whoever is lost, no reply that a node takes is a stranger's or a double.
pub fn no_reply_is_odd()
    ensures { (config : Config) (w : LosingFrameWorld) (events : List (LosingEvent Action))
        → IsDistinct same_atom (names_of config) → LosingReaches config events w
        → AllByRecursion (λ (t : ℕ × Report). t.1.odd ≡ None) w.world.reported }
{}

/// No link of a node that is not lost is damaged: the first packet on each way to it, from a node whose loss it has not seen, is one
/// that its step without its clock takes, a last notice among them.
pub fn no_packet_is_refused()
    ensures { (config : Config) (w : LosingFrameWorld) (events : List (LosingEvent Action)) (i p : ℕ)
        (packet : Noticed Message) (rest : List (Noticed Message))
        → IsDistinct same_atom (names_of config) → LosingReaches config events w
        → is_pair (length config) i p ≡ true → w.gone i ≡ false
        → (w.world.node i).state.lost (name_at config p) ≡ false → (plain w.world).wire p i ≡ packet ∷ rest
        → (losing_machine_of config).step i ((plain w.world).node i) (Taken p packet) ≢ None }
{}

/// A change of a node that is not lost, which has its last grant and is not answered yet, is the last of its group, and one
/// reference of its node holds the lock of the group at each node that it does not see lost.
pub fn unanswered_changes_are_last()
    ensures last { (config : Config) (w : LosingFrameWorld) (events : List (LosingEvent Action)) (name : Term)
        (before after : List Entry) (e : Entry)
        → IsDistinct same_atom (names_of config) → LosingReaches config events w
        → history name w.world.reported ≡ before ++ e ∷ after → answered_count e.node e.op w.world.reported ≡ 0
        → w.gone e.node ≡ false → after ≡ [] }
    ensures granted { (config : Config) (w : LosingFrameWorld) (events : List (LosingEvent Action)) (name : Term)
        (before after : List Entry) (e : Entry)
        → IsDistinct same_atom (names_of config) → LosingReaches config events w
        → history name w.world.reported ≡ before ++ e ∷ after → answered_count e.node e.op w.world.reported ≡ 0
        → w.gone e.node ≡ false
        → (c : ℕ) × ((x : ℕ) → is_place (length config) x ≡ true
        → (w.world.node e.node).state.lost (name_at config x) ≡ false
        → is_holder ((w.world.node x).state.locks name) (numbered (name_at config e.node) c) ≡ true) }
{}

/// An end that a node has taken is at the home of its process, or the node has seen the loss of the home.
pub fn ends_at_home_past_losses()
    ensures { (config : Config) (w : LosingFrameWorld) (events : List (LosingEvent Action)) (i : ℕ) (pid : Pid)
        → LosingReaches config events w → is_place (length config) i ≡ true
        → (w.world.node i).state.ended pid ≡ true → EndedHome config w i pid }
{}

/// A process of a node which that node has as ended is one that it made.
pub fn ended_processes_were_made_past_losses()
    ensures { (config : Config) (w : LosingFrameWorld) (events : List (LosingEvent Action)) (i : ℕ) (pid : Pid)
        → IsDistinct same_atom (names_of config) → LosingReaches config events w
        → pid.node ≡ name_at config i → (w.world.node i).state.ended pid ≡ true
        → is_among (w.world.node i).state.processes pid ≡ true }
{}

/// Two formed live nodes that have applied the same updates of a group agree on it, where each has seen the loss of every
/// node that is lost, no end is pending among the live, and every node was formed at the first loss.
pub fn live_nodes_agree()
    ensures { (config : Config) (w : LosingFrameWorld) (events : List (LosingEvent Action)) (i j : ℕ) (name : Term)
        → IsDistinct same_atom (names_of config) → LosingReaches config events w
        → FormedAtLosses config events → NonePendingLive config w
        → is_place (length config) i ≡ true → is_place (length config) j ≡ true
        → w.gone i ≡ false → w.gone j ≡ false
        → formed (nodes_at config i) (w.world.node i).state ≡ true
        → formed (nodes_at config j) (w.world.node j).state ≡ true
        → SawAll config w i → SawAll config w j
        → applied_by i name w.world.reported ≡ applied_by j name w.world.reported
        → (w.world.node i).state.table name ≡ (w.world.node j).state.table name }
{}

/// Where nothing is on the way to a node that is not lost, each open command of such a node waits for its retry: it waits for
/// nobody, also not for a node that was lost.
pub fn open_commands_wait_for_retries_past_losses()
    ensures { (config : Config) (w : LosingFrameWorld) (events : List (LosingEvent Action)) (i : ℕ)
        → IsDistinct same_atom (names_of config) → LosingReaches config events w → IsQuietLive config w
        → is_place (length config) i ≡ true → w.gone i ≡ false → WaitsForRetries config w i }
{}

/// Takes alone come to an end, whoever was lost. Before a command comes in, one is tried again, or a node is lost, no more packets
/// and last notices are taken than twice those on the way, and five for each peer of each open command, whatever their order.
pub fn takes_end_past_losses()
    ensures { (config : Config) (w v : LosingFrameWorld)
        (events : List (LosingEvent Action)) (takes : List (Event Action))
        → IsDistinct same_atom (names_of config) → LosingReaches config events w → OnlyTakes takes
        → LosingLeads (losing_frame_machine config) last_notice w (all_steps takes) v
        → length takes ≤ most_takes_live config w }
{}

/// Where nothing is on the way to a node that is not lost, that node is formed: it waits for the exchange of nobody, also not of
/// a node that was lost.
pub fn a_quiet_node_is_formed_past_losses()
    ensures { (config : Config) (w : LosingFrameWorld) (events : List (LosingEvent Action)) (i : ℕ)
        → IsDistinct same_atom (names_of config) → LosingReaches config events w → IsQuietLive config w
        → is_place (length config) i ≡ true → w.gone i ≡ false
        → formed (nodes_at config i) (w.world.node i).state ≡ true }
{}
