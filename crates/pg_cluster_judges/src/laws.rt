ghost use Rattle.std.specs.Prelude.{◌≡◌, ◌<◌, ℕ, Bool, List, map, length};
ghost use Rattle.std.specs.List.{AllByRecursion, range_with_len};
ghost use Rattle.pg_world.specs.PgStep.Machines.Machine.{Machine, Event};
ghost use Rattle.pg_world.specs.PgStep.Machines.Clocked.{Timed, Stamped};
ghost use Rattle.pg_world.specs.PgStep.Machines.Timely.{KeepsTime};
ghost use Rattle.pg_cluster_judges.specs.Logs.{LoggedAct, AreLogs};
ghost use Rattle.pg_cluster_judges.specs.Merge.{Merges, IsRising, IsSorted, places_of, clocks_of, merged_logs, seen_log};
ghost use Rattle.pg_cluster_judges.specs.Joined.{Joined};
ghost use Rattle.pg_cluster_judges.specs.Losses.{Logged, AreLosingLogs, LosingJoined, with_loss, with_losses};

/// The logs of nodes that ran apart join to one run: their entries, merged by clock and then by node, happen one after another
/// from the start, and lead each node to where its log ended. So it is for every machine that keeps time.
pub fn logs_join<S, P, C, O>()
    ensures { (limit : ℕ) (m : Machine (Timed S) (Stamped P) C O) (logs : ℕ → List (ℕ × Event C))
        (acts : ℕ → List (LoggedAct (Timed S) (Stamped P) C O)) (ends : ℕ → Timed S)
        (left : ℕ → ℕ → List (Stamped P)) (order : List (ℕ × ℕ)) → KeepsTime limit m
        → AreLogs m logs acts ends left → Merges m.size (λ i. clocks_of (logs i)) order
        → Joined m logs acts ends left (merged_logs logs order) }
{}

/// The same where nodes are lost. A loss is in the log of the lost node as its last entry, at the clock at which it stopped. Its
/// last notice carries that clock, so that whoever takes it comes later in the merge. In the run a last notice is taken just where
/// the log of a node has it.
pub fn losing_logs_join<S, P, C, O>()
    ensures { (limit : ℕ) (m : Machine (Timed S) (Stamped P) C O) (last : Timed S → Stamped P) (is_last : Stamped P → Bool)
        (lost : ℕ → Bool) (kept : ℕ → ℕ → ℕ) (logs : ℕ → List (ℕ × Logged C))
        (acts : ℕ → List (LoggedAct (Timed S) (Stamped P) C O)) (ends : ℕ → Timed S)
        (left : ℕ → ℕ → List (Stamped P)) (order : List (ℕ × ℕ)) → KeepsTime limit m
        → ((s : Timed S) → (last s).stamp ≡ s.clock) → AreLosingLogs m last is_last lost kept logs acts ends left
        → Merges m.size (λ i. clocks_of (logs i)) order
        → LosingJoined m last is_last lost kept acts ends left (merged_logs logs order) }
{}

/// Where losses are in a merge: each right after the last entry of its node, at whose clock it is, and those of nodes that did
/// nothing before all entries. So the order of logs without losses gives that of the logs with them.
pub fn losses_stand_last()
    ensures { (size : ℕ) (lost : ℕ → Bool) (clocks : ℕ → List ℕ) (order : List (ℕ × ℕ)) → Merges size clocks order
        → ((i : ℕ) → i < size → AllByRecursion (λ clock. 0 < clock) (clocks i))
        → Merges size (λ i. with_loss (lost i) (clocks i)) (with_losses size lost clocks order) }
{}

/// Logs are merged in one order.
pub fn merge_is_one()
    ensures { (size : ℕ) (clocks : ℕ → List ℕ) (order others : List (ℕ × ℕ)) → Merges size clocks order
        → Merges size clocks others → order ≡ others }
{}

/// Whatever the entries of logs are seen as beside their clocks: the logs have the same clocks, so they are merged in the same order,
/// and what is in that order is seen so.
pub fn seen_logs_merge_alike<E, F>()
    ensures clocks { (view : E → F) (log : List (ℕ × E)) → clocks_of (seen_log view log) ≡ clocks_of log }
    ensures merged { (view : E → F) (logs : ℕ → List (ℕ × E)) (order : List (ℕ × ℕ))
        → merged_logs (λ i. seen_log view (logs i)) order ≡ map view (merged_logs logs order) }
{}

/// A merge has each entry of each log once, those of a log in their order. Where the clocks of no log fall, it is sorted by clock,
/// and at one clock by log.
pub fn merges_are_sorted()
    ensures once { (size : ℕ) (clocks : ℕ → List ℕ) (order : List (ℕ × ℕ)) (i : ℕ) → Merges size clocks order → i < size
        → places_of i order ≡ range_with_len 0 (length (clocks i)) }
    ensures logs { (size : ℕ) (clocks : ℕ → List ℕ) (order : List (ℕ × ℕ)) → Merges size clocks order
        → AllByRecursion (λ x. x.0 < size) order }
    ensures sorted { (size : ℕ) (clocks : ℕ → List ℕ) (order : List (ℕ × ℕ)) → Merges size clocks order
        → ((i : ℕ) → i < size → IsRising (clocks i)) → IsSorted clocks order }
{}
