ghost use Rattle.std.specs.Prelude.{◌≡◌, ◌≤◌, ◌+◌, ℕ, Bool, true, List, length};
ghost use Rattle.pg_term.specs.declared.pid.Pid.{Pid};
ghost use Rattle.pg_term.specs.Same.{same_pid};
ghost use Rattle.pg_group.specs.declared.update.Update.{Update};
ghost use Rattle.pg_group.specs.Functions.{upd};
ghost use Rattle.pg_group.specs.Scope.{at_node};
ghost use Rattle.pg_group.specs.Ended.{ended_with};
ghost use Rattle.pg_term.specs.declared.term.Term.{Term};
ghost use Rattle.pg_group.specs.Value.{Value, apply, less, merge, count_in, NoneEnded};
ghost use Rattle.pg_group.specs.Members.{IsMemberList};
ghost use Rattle.pg_group.specs.Table.{Table, applied, changed, exchanged};

/// A group without ended pids stays one, by updates and by exchanges, and where a pid, or each pid of a node, ends
/// and is taken out: what a table makes of it by an update is pg2's group after the update, without the ended.
pub fn ended_stay_out()
    ensures value { (v : Value) (update : Update) (ended : Pid → Bool) → NoneEnded v ended → applied v update ended ≡ less (apply v update) ended }
    ensures kept { (v : Value) (update : Update) (ended : Pid → Bool) → NoneEnded v ended → NoneEnded (applied v update ended) ended }
    ensures exchange { (v : Value) (pids : List Pid) (ended : Pid → Bool) → NoneEnded v ended → NoneEnded (exchanged v pids ended) ended }
    ensures end { (v : Value) (pid : Pid) (ended : Pid → Bool)
        → NoneEnded v ended → NoneEnded (less v (same_pid pid)) (upd same_pid ended pid true) }
    ensures loss { (v : Value) (node : List ℕ) (ended : Pid → Bool)
        → NoneEnded v ended → NoneEnded (less v (at_node node)) (ended_with ended node) }
{}

/// An update adds one at most to a count: where none is above n, it leaves none above n + 1.
pub fn one_more_at_most()
    ensures each { (table : Table) (update : Update) (ended : Pid → Bool) (name : Term) (pid : Pid)
        → count_in (changed table update ended name) pid ≤ count_in (table name) pid + 1 }
    ensures all { (n : ℕ) (table : Table) (update : Update) (ended : Pid → Bool) → ((name : Term) (pid : Pid) → count_in (table name) pid ≤ n)
        → (name : Term) (pid : Pid) → count_in (changed table update ended name) pid ≤ n + 1 }
{}

/// The list of the members that pass a test grows by one at most with an update, and with an exchange by no more than
/// the pids that are announced.
pub fn longer_by_what_came()
    ensures update { (table : Table) (update : Update) (ended : Pid → Bool) (name : Term)
        (among : Pid → Bool) (before after : List Pid)
        → IsMemberList (table name) among before → IsMemberList (changed table update ended name) among after
        → length after ≤ length before + 1 }
    ensures exchange { (v : Value) (pids : List Pid) (ended : Pid → Bool)
        (among : Pid → Bool) (before after : List Pid)
        → IsMemberList v among before → IsMemberList (exchanged v pids ended) among after
        → length after ≤ length before + length pids }
{}

/// Groups are merged in any order, and a group with itself stays as it is.
pub fn merged_in_any_order()
    ensures commutes { (v w : Value) → merge v w ≡ merge w v }
    ensures associates { (u v w : Value) → merge (merge u v) w ≡ merge u (merge v w) }
    ensures once { (v : Value) → merge v v ≡ v }
{}

/// Ended pids may be left out at once or at the end.
pub fn left_out_at_once()
    ensures update { (v : Value) (update : Update) (ended : Pid → Bool)
        → less (apply (less v ended) update) ended ≡ less (apply v update) ended }
    ensures merge { (v w : Value) (ended : Pid → Bool)
        → less (merge v w) ended ≡ merge (less v ended) (less w ended) }
{}

/// A group has one list of its members that pass a test.
pub fn one_member_list()
    ensures { (v : Value) (among : Pid → Bool) (pids others : List Pid)
        → IsMemberList v among pids → IsMemberList v among others → pids ≡ others }
{}
