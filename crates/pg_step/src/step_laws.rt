ghost use Rattle.std.specs.Prelude.{◌≡◌, ◌↔◌, ◌+◌, ℕ, Bool, true, false, not, cond};
ghost use Rattle.std.specs.Prelude.{max, nat_lt, List, [], ◌∷◌, Some, None, length};
ghost use Rattle.std.specs.List.{IsDistinct};
ghost use Rattle.pg_term.specs.Same.{same_atom};
ghost use Rattle.pg_term.specs.declared.pid.Pid.{Pid};
ghost use Rattle.pg_term.specs.declared.term.Term.{Term};
ghost use Rattle.pg_message_types.specs.PgGroup.Value.{Counts};
ghost use Rattle.pg_message_types.specs.PgGroup.Functions.{upd};
ghost use Rattle.pg_message_types.specs.PgGroup.declared.update.Update.{Update};
ghost use Rattle.pg_message_types.specs.declared.message.Said.{Said};
ghost use Rattle.pg_message_types.specs.declared.message.Said.TheVariants.{Applied};
ghost use Rattle.pg_multicall.specs.Gathered.{with_reply};
ghost use Rattle.pg_step.specs.declared.command.OpId.{OpId};
ghost use Rattle.pg_step.specs.State.{Status, State, live_nodes};
ghost use Rattle.pg_step.specs.State.Use.{Locking, Updating};
ghost use Rattle.pg_step.specs.Attempts.{all_granted, gathered, is_of_lock, is_unasked};
ghost use Rattle.pg_step.specs.Attempts.{lock_status, none_denied, none_missing};
ghost use Rattle.pg_lock.specs.Attempts.{after_round};
ghost use Rattle.pg_lock.specs.declared.attempt.Attempt.TheVariants.{AskingRest, Held};
ghost use Rattle.pg_message_types.specs.declared.message.Message.{Message};
ghost use Rattle.pg_step.specs.declared.command.Command.{Command};
ghost use Rattle.pg_step.specs.declared.command.Command.TheVariants.{Create, Join, Leave};
ghost use Rattle.pg_step.specs.declared.answer.Reply.TheVariants.{Refused, Ok, NoSuchGroup};
ghost use Rattle.pg_step.specs.Machines.Machine.{Input, Turn, Event, Taken, Own, Do, node_of, start_of, happens};
ghost use Rattle.pg_step.specs.Machines.Clocked.{Timed, Stamped, TimedWorld, plain};
ghost use Rattle.pg_step.specs.Machines.Runs.{Leads};
ghost use Rattle.pg_step.specs.Machines.Timely.{KeepsTime, IsTimely};
ghost use Rattle.pg_step.specs.Nodes.{Node, Nodes, every};
ghost use Rattle.pg_step.specs.State.Response.{Given, Read};
ghost use Rattle.pg_step.specs.Commands.{has_large_name, fault_of, refused};
ghost use Rattle.pg_step.specs.Turns.{Report};
ghost use Rattle.pg_step.specs.Step.{CLOCK_LIMIT, Action, Issue, taken, acted, step_take, step_act};
ghost use Rattle.pg_step.specs.Config.{Config, names_of, name_at, nodes_at, ports_at};
ghost use Rattle.pg_step.specs.FrameMachine.{node_step, machine_of, frame_machine, FrameWorld};
ghost use Rattle.pg_step.specs.Machines.Happened.{Happened};
ghost use Rattle.pg_step.specs.declared.refusal.Refusal.TheVariants.{NoSuchPlace, NodeLost, NotWaiting};
ghost use Rattle.pg_step.specs.declared.refusal.Refusal.TheVariants.{ClockFull, NotAMessage};
ghost use Rattle.pg_step.specs.StepLaws.{timed_placed, refusal_of, port_of, retries_none, is_full};
ghost use Rattle.pg_step.specs.StepLaws.{is_no_message, comes_from_there, SendsOne, is_query, OnlyAnswers};
ghost use Rattle.pg_step.specs.declared.command_fault.CommandFault.TheVariants.{NameTooLarge};
ghost use Rattle.pg_step.specs.declared.command_fault.CommandFault.{CommandFault};
ghost use Rattle.pg_step.specs.Faults.{first_that_holds};

/// The step of a node with its clock, which gives refusals, is the step of the machine with clocks.
pub fn step_is_clocked()
    ensures taken { (config : Config) (i p : ℕ) (s : Timed State) (x : Stamped Message)
        → (frame_machine config).step i s (Taken p x)
        ≡ timed_placed config (step_take (nodes_at config i) (name_at config p) x s) }
    ensures own { (config : Config) (i : ℕ) (s : Timed State) (action : Action)
        → (frame_machine config).step i s (Own action)
        ≡ timed_placed config (step_act (nodes_at config i) (ports_at config i) action s) }
{}

/// Which refusal is given, of several the first: a port that is not there, a peer whose loss was seen, a retry of a
/// command that does not wait, a clock past its limit, a packet that is no message.
pub fn refusals_in_order()
    ensures taken { (m : Nodes) (p : Node) (x : Stamped Message) (s : Timed State)
        → refusal_of (step_take m p x s) ≡ first_that_holds (
        (s.state.lost p, NodeLost)
        ∷ (is_full (max s.clock x.stamp + 1), ClockFull)
        ∷ (is_no_message (live_nodes m s.state) p x.packet s.state, NotAMessage) ∷ []) }
    ensures own { (m : Nodes) (ports : ℕ) (action : Action) (s : Timed State)
        → refusal_of (step_act m ports action s) ≡ first_that_holds (
        (not (nat_lt (port_of action) ports), NoSuchPlace)
        ∷ (retries_none (live_nodes m s.state) action s.state, NotWaiting)
        ∷ (is_full (s.clock + 1), ClockFull) ∷ []) }
{}

/// What is gathered under a reference goes on as pg_multicall's call does: a counted reply is kept for its node, and
/// all else is as it was. The node that was asked first for a lock is in no second round.
pub fn replies_are_gathered()
    ensures answers { (op : OpId) (update : Update) (first : Node) (st : Node → Status) (p : Node) (said : Said) (q : Node)
        → same_atom first p ≡ false → is_of_lock said ≡ true
        → gathered (Locking op update first (upd same_atom st p (lock_status said))) q
        ≡ with_reply (gathered (Locking op update first st)) p said q }
    ensures oks { (op : OpId) (update : Update) (c : ℕ) (replied : Node → Bool) (p q : Node)
        → gathered (Updating op update c (upd same_atom replied p true)) q
        ≡ with_reply (gathered (Updating op update c replied)) p Applied q }
{}

/// Once the rest was asked and no answer is missing, the update begins exactly where pg_lock's round ends with the lock held.
pub fn rounds_are_followed()
    ensures { (m : Nodes) (st : Node → Status)
        → every m (λ q. not (is_unasked (st q))) ≡ true → none_missing m st ≡ true
        → (all_granted m st ≡ true) ↔ (after_round AskingRest (none_denied m st) ≡ Held) }
{}

/// An event sends at most one packet to each node, and none to its own.
pub fn one_packet_each()
    ensures step { (config : Config) (i : ℕ) (s : State) (input : Input Message Action)
        (t : Turn State Message Report) → IsDistinct same_atom (names_of config)
        → comes_from_there (length config) i input ≡ true
        → node_step config i s input ≡ Some t → SendsOne i t }
    ensures event { (config : Config) (w v : FrameWorld) (e : Event Action)
        (h : Happened (machine_of config) w e v) → IsDistinct same_atom (names_of config)
        → SendsOne (node_of e) h.turn }
{}

/// The nodes of a configuration keep time: their clocks rise, stay within the limit, and pass the stamps of what is sent
/// and taken. Seen without clocks, what they come to is what the nodes without clocks come to by the same events.
pub fn nodes_keep_time()
    ensures steps { (config : Config) → KeepsTime CLOCK_LIMIT (frame_machine config) }
    ensures timely { (config : Config) (v : TimedWorld State Message Report) (es : List (Event Action))
        → Leads (frame_machine config) (start_of (frame_machine config)) es v → IsTimely CLOCK_LIMIT v }
    ensures plain { (config : Config) (v : TimedWorld State Message Report) (es : List (Event Action))
        → Leads (frame_machine config) (start_of (frame_machine config)) es v
        → Leads (machine_of config) (start_of (machine_of config)) es (plain v) }
{}

/// A query is answered from its node's table as it is, formed or not, by what it reads there (`Reads`); and a command that is
/// refused by its fault. Nothing else comes of either: no table, lock or end changes, and nothing is sent.
pub fn queries_read_the_table()
    ensures query { (config : Config) (w v : FrameWorld) (i port : ℕ) (c : Command)
        → is_query c ≡ true → has_large_name c ≡ false
        → happens (machine_of config) w (Do i (Issue port c)) ≡ Some v
        → OnlyAnswers i port (Read c (w.node i).table) w v }
    ensures refused { (config : Config) (w v : FrameWorld) (i port : ℕ) (c : Command) (fault : CommandFault)
        → fault_of (nodes_at config i) (w.node i) c ≡ Some fault
        → happens (machine_of config) w (Do i (Issue port c)) ≡ Some v
        → OnlyAnswers i port (refused fault) w v }
    ensures large { (m : Nodes) (s : State) (c : Command)
        → has_large_name c ≡ true → fault_of m s c ≡ Some NameTooLarge }
{}

/// What the look answers, where the command has no fault: a create of a group that is in the node's table is ok, and
/// a join or a leave of one that is not is answered by that. Nothing else comes of it.
pub fn looks_answer_at_once()
    ensures created { (config : Config) (w v : FrameWorld) (i port : ℕ) (name : Term) (counts : Counts)
        → fault_of (nodes_at config i) (w.node i) (Create name) ≡ None → (w.node i).table name ≡ Some counts
        → happens (machine_of config) w (Do i (Issue port (Create name))) ≡ Some v
        → OnlyAnswers i port (Given Ok) w v }
    ensures joined { (config : Config) (w v : FrameWorld) (i port : ℕ) (name : Term) (pid : Pid)
        → fault_of (nodes_at config i) (w.node i) (Join name pid) ≡ None → (w.node i).table name ≡ None
        → happens (machine_of config) w (Do i (Issue port (Join name pid))) ≡ Some v
        → OnlyAnswers i port (Given (NoSuchGroup name)) w v }
    ensures left { (config : Config) (w v : FrameWorld) (i port : ℕ) (name : Term) (pid : Pid)
        → fault_of (nodes_at config i) (w.node i) (Leave name pid) ≡ None → (w.node i).table name ≡ None
        → happens (machine_of config) w (Do i (Issue port (Leave name pid))) ≡ Some v
        → OnlyAnswers i port (Given (NoSuchGroup name)) w v }
{}
