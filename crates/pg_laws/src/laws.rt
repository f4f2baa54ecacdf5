ghost use Rattle.std.specs.Prelude.{◌≡◌, ◌≢◌, ℕ, ◌+◌, ◌*◌, ◌≤◌, true, false};
ghost use Rattle.std.specs.Prelude.{cond, take, length, List, [], ◌∷◌, Some, Err};
ghost use Rattle.std.specs.List.{AllByRecursion, IsDistinct};
ghost use Rattle.pg_term.specs.declared.pid.Pid.{Pid};
ghost use Rattle.pg_term.specs.Same.{same_atom};
ghost use Rattle.pg_term.specs.declared.term.Term.{Term};
ghost use Rattle.pg_step.specs.PgGroup.Value.{NoneEnded};
ghost use Rattle.pg_step.specs.PgExchange.GroupList.{GroupList};
ghost use Rattle.pg_step.specs.PgMessageTypes.declared.message.Message.{Message};
ghost use Rattle.pg_step.specs.PgMessageTypes.declared.message.Message.TheVariants.{Exchange};
ghost use Rattle.pg_step.specs.Machines.Machine.{Do, Event, Input, Take, Turn, Taken, happens, start_of};
ghost use Rattle.pg_step.specs.Nodes.{Node};
ghost use Rattle.pg_step.specs.Peers.{is_bad_exchange};
ghost use Rattle.pg_step.specs.Machines.Clocked.{Timed, Stamped, plain};
ghost use Rattle.pg_step.specs.Machines.Losing.{Noticed, LosingWorld, LosingLeads, nobody_gone, all_steps, mapped};
ghost use Rattle.pg_step.specs.Machines.Runs.{Leads, run, ran};
ghost use Rattle.pg_step.specs.Machines.Places.{is_place, is_pair};
ghost use Rattle.pg_step.specs.State.{State, live_nodes};
ghost use Rattle.pg_step.specs.Turns.{Report};
ghost use Rattle.pg_step.specs.Step.{Action, Retry, step_take};
ghost use Rattle.pg_step.specs.declared.refusal.Refusal.TheVariants.{NotAMessage};
ghost use Rattle.pg_step.specs.Config.{Config, names_of, name_at, nodes_at, groups_at};
ghost use Rattle.pg_step.specs.declared.command.OpId.{OpId};
ghost use Rattle.pg_step.specs.FrameMachine.{node_step, frame_machine, losing_frame_machine, last_notice, sent_packet};
ghost use Rattle.pg_laws.specs.Counted.{is_open};
ghost use Rattle.pg_laws.specs.History.{LockFree, is_formed, history, updates_of, applied_count, applied_by};
ghost use Rattle.pg_laws.specs.Fresh.{MakesFresh};
ghost use Rattle.pg_laws.specs.Quiet.{AllFormed, HasClockRoom, IsQuiet, NoLockHeld, NoneOpen, NothingUnderWay, OnlyTakes};
ghost use Rattle.pg_laws.specs.Quiet.{OnlyTakesAndRetries, RetryGoes, most_events, most_takes, peer_count};
ghost use Rattle.pg_laws.specs.Unstuck.{NothingIsStuck};
ghost use Rattle.pg_laws.specs.Headline.{OneHistory, HoldsAnswered, AppliesHistory, HasTables, HarmsNobody, GoesOn};
ghost use Rattle.pg_laws.specs.Exclusive.{ExclusiveLocks};
ghost use Rattle.pg_laws.specs.RealTime.{InRealTime};
ghost use Rattle.pg_laws.specs.Reached.{TimedFrameWorld, Reaches, HasEndedAt, FinishedAt};
ghost use Rattle.pg_laws.specs.ReferencesFit.{ReferencesFit, UseFollows};
ghost use Rattle.pg_laws.specs.Sent.{ends_in, exchanges_in, is_reply};

/// One history of each group. In every world that the nodes of a configuration with different names come to, whatever
/// is done there and in whatever order packets are taken:
///
/// - the changes that were answered under their locks are, each once, in one history of their group, with at most one
///   more, which is its last; each of them was answered ok, and no other delete, join or leave was;
/// - each node has applied that history, or all but its last update, and all of it where one node sees the lock free;
/// - a formed node's table is that of what it has applied, without the ends that it took, and formed nodes agree
///   where one sees the lock free and no end is pending;
/// - each history only grew, and each query was answered by what its node's table had when it came in;
/// - a change that was answered before another command came in is before it, and each node has applied it from then
///   on;
/// - locks are exclusive: two updates of one group are never under way at once;
/// - no reply is a stranger's or a double, and no packet will be refused, but by a full clock.
pub fn one_history()
    ensures each_world { (config : Config) (w : TimedFrameWorld) (events : List (Event Action))
        → IsDistinct same_atom (names_of config) → Reaches config events w
        → OneHistory config events (plain w) }
    // Whatever events are tried: those that can happen do, the others change nothing.
    ensures any_events { (config : Config) (events : List (Event Action))
        → IsDistinct same_atom (names_of config)
        → OneHistory config (ran (frame_machine config) (start_of (frame_machine config)) events)
        (plain (run (frame_machine config) (start_of (frame_machine config)) events)) }
{}

/// The same of nodes that can see losses, as long as none is lost.
pub fn one_history_without_losses()
    ensures { (config : Config) (events : List (Event Action))
        (v : LosingWorld (Timed State) (Stamped (Noticed Message)) Report)
        → IsDistinct same_atom (names_of config)
        → LosingLeads (losing_frame_machine config) last_notice
        (nobody_gone (start_of (losing_frame_machine config))) (all_steps events) v
        → (w : TimedFrameWorld) × (v ≡ nobody_gone (mapped sent_packet w)) × OneHistory config events (plain w) }
{}

/// A change that was answered under its lock is once among the entries, and was answered once. No command is there
/// twice. An entry that is not answered yet is the last of its group, and has every grant. Each is the change that
/// its command asked for, which came in before. A command that was refused, or answered by the look, is not there.
///
/// What clients see of it: a change that was answered under its lock was answered ok; a delete, a join or a leave
/// that was answered ok was answered under its lock; no command has two answers.
pub fn changes_stand_once()
    ensures { (config : Config) (w : TimedFrameWorld) (events : List (Event Action))
        → IsDistinct same_atom (names_of config) → Reaches config events w
        → HoldsAnswered config events (plain w) }
{}

/// The history of each group only grows: a later world's is that of the earlier one, and more after it.
pub fn history_grows()
    ensures { (config : Config) (w v : TimedFrameWorld) (events : List (Event Action))
        → Leads (frame_machine config) w events v → GoesOn (plain w) (plain v) }
{}

/// What each node has applied of a group is its history from the beginning, in that order and nothing else: all of it, or
/// all but the last update; all of it where one node sees the lock free. Each node has applied what is answered.
pub fn history_is_applied()
    ensures { (config : Config) (w : TimedFrameWorld) (events : List (Event Action))
        → IsDistinct same_atom (names_of config) → Reaches config events w
        → AppliesHistory config (plain w) }
{}

/// What the tables are. A formed node's: what all nodes began with, after the updates that the node has applied,
/// without the ends that it took. An unformed node's: what it and those began with whose exchange it took, without
/// the ends that it took; while there is one no update has every grant. Formed nodes agree on a group where one node
/// sees its lock free and no end is pending.
pub fn tables_are_replayed()
    ensures { (config : Config) (w : TimedFrameWorld) (events : List (Event Action))
        → IsDistinct same_atom (names_of config) → Reaches config events w
        → HasTables config (plain w) }
{}

/// Locks are exclusive. A lock has one holder at most at each node, as a function of its name, and a grant that is counted
/// is held at the node that gave it; so two requests for one lock are never granted by the same node at once. While an
/// update is under way its command holds the lock of its group at every node, and no other update of that group is
/// under way.
pub fn locks_are_exclusive()
    ensures { (config : Config) (w : TimedFrameWorld) (events : List (Event Action))
        → IsDistinct same_atom (names_of config) → Reaches config events w
        → ExclusiveLocks config (is_place (length config)) (plain w).node }
{}

/// The history of a group goes by real time. A change that was answered under its lock before another command came
/// in, at whatever node, is before it; and from then on its update is among those that each node has applied, so that
/// a formed node answers queries from a table that has it. No node goes back.
///
/// So the changes of a group that go through its lock are linearizable. Of queries it says no more than this: one
/// that comes in after such a change was answered reads a table that has it. Two queries while a change is under way
/// may disagree, and the later one may read the older table. A create that is answered ok by the look, and a join or
/// a leave that the look finds no group for, promise nothing of other nodes.
pub fn updates_go_by_real_time()
    ensures { (config : Config) (w : TimedFrameWorld) (events : List (Event Action))
        → IsDistinct same_atom (names_of config) → Reaches config events w
        → InRealTime config events (plain w) }
{}

/// Nobody is harmed: no reply is a stranger's or a double, and no packet on the way will be refused, but by a full clock.
pub fn nobody_is_harmed()
    ensures { (config : Config) (w : TimedFrameWorld) (events : List (Event Action))
        → IsDistinct same_atom (names_of config) → Reaches config events w
        → HarmsNobody config (plain w) }
{}

/// A process ends at its home first: an end that any node has taken, and one that is on the way, is at the home of its
/// process, and it is on the way from there alone.
pub fn ends_at_home()
    ensures taken { (config : Config) (w : TimedFrameWorld)
        (events : List (Event Action)) (i : ℕ) (pid : Pid)
        → Reaches config events w → ((plain w).node i).ended pid ≡ true
        → (h : ℕ) × (is_place (length config) h ≡ true) × (pid.node ≡ name_at config h)
        × (((plain w).node h).ended pid ≡ true) }
    ensures on_the_way { (config : Config) (w : TimedFrameWorld)
        (events : List (Event Action)) (p i : ℕ)
        → Reaches config events w
        → AllByRecursion (λ pid. HasEndedAt config (plain w) pid p) (ends_in ((plain w).wire p i)) }
{}

/// A process of a node which that node has as ended ended by a command there.
pub fn ended_processes_were_finished()
    ensures { (config : Config) (w : TimedFrameWorld)
        (events : List (Event Action)) (i : ℕ) (pid : Pid)
        → IsDistinct same_atom (names_of config) → Reaches config events w
        → pid.node ≡ name_at config i → ((plain w).node i).ended pid ≡ true
        → FinishedAt events i pid }
{}

/// No process is made twice. Those that a node makes have the numbers after those that it had made at the start, in their order;
/// a number is never used again, whoever ends.
pub fn processes_are_fresh()
    ensures { (config : Config) (w : TimedFrameWorld) (events : List (Event Action)) (i : ℕ)
        → Reaches config events w → MakesFresh config (plain w) i }
{}

/// Where no node is lost none sees a loss, and so all count.
pub fn no_loss_is_seen()
    ensures { (config : Config) (w : TimedFrameWorld) (events : List (Event Action)) (i : ℕ)
        → Reaches config events w → live_nodes (nodes_at config i) ((plain w).node i) ≡ nodes_at config i }
{}

/// The exchange of each node is on the way to each other node once, with the groups that it started with, until it is
/// taken there; then none is. So no exchange is refused, and no other packet but a reply could be.
pub fn exchanges_once()
    ensures on_the_way { (config : Config) (w : TimedFrameWorld)
        (events : List (Event Action)) (i p : ℕ)
        → IsDistinct same_atom (names_of config) → Reaches config events w
        → is_pair (length config) i p ≡ true
        → exchanges_in ((plain w).wire p i) ≡ cond (((plain w).node i).merged (name_at config p)) []
        ((name_at config p, groups_at config p) ∷ []) }
    ensures accepted { (config : Config) (w : TimedFrameWorld) (events : List (Event Action)) (i p : ℕ)
        (node : Node) (groups : GroupList) (rest : List Message)
        → IsDistinct same_atom (names_of config) → Reaches config events w
        → is_pair (length config) i p ≡ true → (plain w).wire p i ≡ Exchange node groups ∷ rest
        → is_bad_exchange (name_at config p) node ((plain w).node i) ≡ false }
    ensures packets { (config : Config) (w : TimedFrameWorld) (events : List (Event Action)) (i p : ℕ)
        (x : Message) (rest : List Message)
        → IsDistinct same_atom (names_of config) → Reaches config events w
        → is_pair (length config) i p ≡ true → (plain w).wire p i ≡ x ∷ rest → is_reply x ≡ false
        → node_step config i ((plain w).node i) (Taken p x) ≢ None }
{}

/// The first packet on a way is none that its node would have refused as no message at any earlier time, before it had taken
/// what it took since.
pub fn first_packets_were_welcome()
    ensures { (config : Config) (m w : TimedFrameWorld) (before events : List (Event Action)) (i p : ℕ)
        (x : Stamped Message) (rest : List (Stamped Message))
        → IsDistinct same_atom (names_of config) → Reaches config before m
        → Leads (frame_machine config) m events w
        → is_pair (length config) i p ≡ true → w.wire p i ≡ x ∷ rest
        → step_take (nodes_at config i) (name_at config p) x (m.node i) ≢ Err NotAMessage }
{}

/// A process that has ended at a node is a member of no group there.
pub fn ended_are_in_no_group()
    ensures { (config : Config) (w : TimedFrameWorld)
        (events : List (Event Action)) (i : ℕ) (name : Term)
        → Reaches config events w
        → NoneEnded (((plain w).node i).table name) ((plain w).node i).ended }
{}

/// While a node is not formed it sees each lock free: it grants none.
pub fn unformed_hold_no_lock()
    ensures { (config : Config) (w : TimedFrameWorld)
        (events : List (Event Action)) (i : ℕ) (name : Term)
        → Reaches config events w → is_formed config (plain w) i ≡ false
        → LockFree (plain w) i name }
{}

/// What a step sends beside what is about locks and updates: no exchange, and of ends those of its own processes, which
/// have ended there.
pub fn what_is_sent()
    ensures exchanges { (config : Config) (i : ℕ) (s : State) (input : Input Message Action)
        (t : Turn State Message Report) (q : ℕ) → node_step config i s input ≡ Some t
        → exchanges_in (t.sends q) ≡ [] }
    ensures ends { (config : Config) (i : ℕ) (s : State) (input : Input Message Action)
        (t : Turn State Message Report) (q : ℕ) → node_step config i s input ≡ Some t
        → AllByRecursion (λ pid. (pid.node ≡ name_at config i) × (t.state.ended pid ≡ true))
        (ends_in (t.sends q)) }
{}

/// Each reference of a node has one use: one that asks for a lock is that of the attempt of its command, and one under
/// which an update goes out is that of the change of its command, for which the lock is held. It has it for good: one that
/// was used is never used for another command, and one that is spent is of no use any more.
pub fn references_have_one_use()
    ensures fitting { (config : Config) (w : TimedFrameWorld) (events : List (Event Action)) (i : ℕ)
        → Reaches config events w → ReferencesFit ((plain w).node i) }
    ensures later { (config : Config) (w v : TimedFrameWorld) (before events : List (Event Action)) (i c : ℕ)
        → Reaches config before w → Leads (frame_machine config) w events v
        → UseFollows (((plain w).node i).uses c) (((plain v).node i).uses c) }
{}

/// A node makes two references at an event at most, so that its clock is full by the time its 2^31 references are made.
pub fn references_within_the_clock()
    ensures step { (config : Config) (i : ℕ) (s : State) (input : Input Message Action)
        (t : Turn State Message Report) → node_step config i s input ≡ Some t
        → t.state.references ≤ s.references + 2 }
    ensures reached { (config : Config) (w : TimedFrameWorld) (events : List (Event Action)) (i : ℕ)
        → Reaches config events w → (w.node i).state.references ≤ 2 * (w.node i).clock }
{}

/// A world comes to rest. Before a command comes in or one is tried again no more packets are taken than twice those on the
/// way, and five for each peer of each open command, whatever their order. While one is on the way each that is next can be
/// taken, where no clock is full. So where no clock comes near its limit takes lead to a world in which no packet is on the way.
pub fn a_world_comes_to_rest()
    ensures ends { (config : Config) (w v : TimedFrameWorld) (events takes : List (Event Action))
        → IsDistinct same_atom (names_of config) → Reaches config events w
        → OnlyTakes takes → Leads (frame_machine config) w takes v
        → length takes ≤ most_takes config (plain w) }
    ensures goes_on { (config : Config) (w : TimedFrameWorld) (events : List (Event Action))
        (x y : ℕ) (packet : Stamped Message) (rest : List (Stamped Message))
        → IsDistinct same_atom (names_of config) → Reaches config events w → HasClockRoom config w 1
        → is_pair (length config) x y ≡ true → w.wire x y ≡ packet ∷ rest
        → (v : TimedFrameWorld) × (happens (frame_machine config) w (Take y x) ≡ Some v) }
    ensures rests { (config : Config) (w : TimedFrameWorld) (events : List (Event Action))
        → IsDistinct same_atom (names_of config) → Reaches config events w
        → HasClockRoom config w (most_takes config (plain w))
        → (takes : List (Event Action)) × (v : TimedFrameWorld) × OnlyTakes takes
        × Leads (frame_machine config) w takes v × IsQuiet config (plain v) }
{}

/// Where no packet is on the way each node is formed: none waits for the exchange of a peer.
pub fn a_quiet_world_is_formed()
    ensures { (config : Config) (w : TimedFrameWorld) (events : List (Event Action))
        → IsDistinct same_atom (names_of config) → Reaches config events w → IsQuiet config (plain w)
        → AllFormed config (plain w) }
{}

/// Where no packet is on the way no node holds a lock, of whatever name and for whomever.
pub fn a_quiet_world_holds_no_lock()
    ensures { (config : Config) (w : TimedFrameWorld) (events : List (Event Action))
        → IsDistinct same_atom (names_of config) → Reaches config events w → IsQuiet config (plain w)
        → NoLockHeld config (plain w) }
{}

/// Where no packet is on the way no command has an attempt under way: each open one waits for its retry, and no node waits
/// for a reply.
pub fn a_quiet_world_waits_for_retries()
    ensures { (config : Config) (w : TimedFrameWorld) (events : List (Event Action)) (i : ℕ)
        → IsDistinct same_atom (names_of config) → Reaches config events w → IsQuiet config (plain w)
        → is_place (length config) i ≡ true → NothingUnderWay ((plain w).node i) }
{}

/// A retry is answered. Where no packet is on the way, and no clock is within `5 (n - 1) + 1` of its limit, each open command
/// can be tried again. From then on as long as packets are on the way each that is next can be taken. In whatever order they
/// are, and whatever node takes them, the command is answered ok when `4 (n - 1)` are, and after `n - 1` more no packet is
/// on the way.
///
/// It is about takes alone: where other commands come in meanwhile, they may have the lock, and this one waits again.
pub fn a_retry_is_answered()
    ensures begins { (config : Config) (w : TimedFrameWorld) (events : List (Event Action)) (i : ℕ) (op : OpId)
        → IsDistinct same_atom (names_of config) → Reaches config events w → IsQuiet config (plain w)
        → is_place (length config) i ≡ true → is_open (((plain w).node i).stages op) ≡ true
        → HasClockRoom config w 1
        → (v : TimedFrameWorld) × (happens (frame_machine config) w (Do i (Retry op)) ≡ Some v) }
    ensures goes { (config : Config) (w v : TimedFrameWorld) (events takes : List (Event Action)) (i : ℕ) (op : OpId)
        → IsDistinct same_atom (names_of config) → Reaches config events w → IsQuiet config (plain w)
        → is_place (length config) i ≡ true → is_open (((plain w).node i).stages op) ≡ true
        → HasClockRoom config w (1 + 5 * peer_count config)
        → OnlyTakes takes → Leads (frame_machine config) w (Do i (Retry op) ∷ takes) v
        → RetryGoes config i op (length takes) v }
{}

/// Nothing is stuck. From each world takes and retries alone lead to one in which each command that came in is answered, and
/// no packet is on the way, where no clock comes near its limit.
pub fn every_command_can_be_answered()
    ensures { (config : Config) (w : TimedFrameWorld) (events : List (Event Action))
        → IsDistinct same_atom (names_of config) → Reaches config events w
        → HasClockRoom config w (most_events config (plain w))
        → (more : List (Event Action)) × (v : TimedFrameWorld) × OnlyTakesAndRetries more
        × Leads (frame_machine config) w more v × NoneOpen config (plain v) × IsQuiet config (plain v) }
{}

/// Nothing is stuck, where no node is lost: all that the six laws before say of one world (`NothingIsStuck`).
pub fn nothing_is_stuck()
    ensures { (config : Config) (w : TimedFrameWorld) (events : List (Event Action))
        → IsDistinct same_atom (names_of config) → Reaches config events w → NothingIsStuck config w }
{}
