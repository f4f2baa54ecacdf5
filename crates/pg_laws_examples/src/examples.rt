ghost use Rattle.std.specs.Prelude.{◌≡◌, ◌++◌, true, false};
ghost use Rattle.pg_term.specs.declared.term.Term.{Term};
ghost use Rattle.pg_term.specs.Same.{same_term};
ghost use Rattle.pg_laws.specs.PgMessageTypes.Name.{is_name};
ghost use Rattle.pg_laws_examples.specs.Examples.{behind, start, AllHappen, one_node, two_nodes, two_and_member, two_tables};
ghost use Rattle.pg_laws_examples.specs.Examples.{three_nodes, three_tables, with_replies, joined_twice, left_once};
ghost use Rattle.pg_laws_examples.specs.Examples.{deleted_between, created_by_two, tables_met, created_later, ended_between};
ghost use Rattle.pg_laws_examples.specs.Examples.{joined_late, asked_greatest, gathering_events, completed, met_one, met_both};
ghost use Rattle.pg_laws_examples.specs.Examples.{ended_at_home, joined_after, first_request, asked_unformed, given_back};
ghost use Rattle.pg_laws_examples.specs.Examples.{granted_at_home, denied_by_b, created_alone, created_by_three};
ghost use Rattle.pg_laws.specs.PgStep.Config.{IsConfig};
ghost use Rattle.pg_laws_examples.specs.Outcomes.{JoinTwiceLeaveOnce, DeleteBetween, TwoCreators, InitialTables};
ghost use Rattle.pg_laws_examples.specs.Outcomes.{EndBeatsLateJoin, GatheredReplies, FormationOfThree, PendingEnd};
ghost use Rattle.pg_laws_examples.specs.Outcomes.{OneAfterAnother};
ghost use Rattle.pg_laws_examples.specs.Outcomes.{GreatestFirst, DeniedByItself, DeniedByAnother, SingleNode, ChangeOfThree};
ghost use Rattle.pg_laws_examples.specs.QueriesRead.{QueriesRead};

/// A process that joins a group twice is a member twice, at each node; and once where it then leaves once.
pub fn join_twice_leave_once()
    ensures happen { (g : Term) → is_name g ≡ true →
        AllHappen two_nodes (start two_nodes) (joined_twice g ++ left_once g) }
    ensures outcome { (g : Term) → is_name g ≡ true →
        JoinTwiceLeaveOnce g
        (behind two_nodes (start two_nodes) (joined_twice g))
        (behind two_nodes (start two_nodes) (joined_twice g ++ left_once g)) }
{}

/// A join looks, finds its group, and is denied the lock by a delete that is under way. Tried again it does not look again:
/// it is answered ok, and there is no group.
pub fn delete_between_look_and_lock()
    ensures happen { (g : Term) → is_name g ≡ true →
        AllHappen two_nodes (start two_nodes) (deleted_between g) }
    ensures outcome { (g : Term) → is_name g ≡ true →
        DeleteBetween g
        (behind two_nodes (start two_nodes) (deleted_between g)) }
{}

/// Two nodes create one group at once. The greater wins the lock and creates it; the other waits, and its retry
/// creates it once more, which leaves it as it is. Both creates are in the history.
pub fn two_creators()
    ensures happen { (g : Term) → is_name g ≡ true →
        AllHappen two_nodes (start two_nodes) (created_by_two g) }
    ensures outcome { (g : Term) → is_name g ≡ true →
        TwoCreators g
        (behind two_nodes (start two_nodes) (created_by_two g)) }
{}

/// Two nodes that begin with different tables answer from their own until they have met, and then have the greater count of
/// each process. A change that was asked for too early waits.
pub fn initial_tables()
    ensures happen { (g h : Term) → is_name g ≡ true → is_name h ≡ true
        → same_term g h ≡ false →
        AllHappen (two_tables g) (start (two_tables g)) (tables_met g h ++ created_later) }
    ensures outcome { (g h : Term) → is_name g ≡ true → is_name h ≡ true
        → same_term g h ≡ false →
        InitialTables g h
        (behind (two_tables g) (start (two_tables g)) (tables_met g h))
        (behind (two_tables g) (start (two_tables g)) (tables_met g h ++ created_later)) }
{}

/// A process ends at home before the update of its second join comes there: that update adds nothing, and once the other
/// node has taken the end no node has the process.
pub fn end_beats_late_join()
    ensures happen { (g : Term) → is_name g ≡ true →
        AllHappen (two_and_member g) (start (two_and_member g)) (ended_between g ++ joined_late g) }
    ensures outcome { (g : Term) → is_name g ≡ true →
        EndBeatsLateJoin g
        (behind (two_and_member g) (start (two_and_member g)) (ended_between g))
        (behind (two_and_member g) (start (two_and_member g)) (ended_between g ++ joined_late g)) }
{}

/// A node that gathers replies counts each peer once, in the round in which it asked it: all others are a stranger's or
/// doubles and change nothing, and a reply of another kind is no message.
pub fn gathered_replies()
    ensures happen { (g : Term) → is_name g ≡ true →
        AllHappen three_nodes with_replies (asked_greatest g ++ gathering_events ++ completed) }
    ensures outcome { (g : Term) → is_name g ≡ true →
        GatheredReplies g
        (behind three_nodes with_replies (asked_greatest g))
        (behind three_nodes with_replies (asked_greatest g ++ gathering_events))
        (behind three_nodes with_replies (asked_greatest g ++ gathering_events ++ completed)) }
{}

/// A node of three is formed once it has taken both exchanges; until then it denies every lock. Each count becomes
/// the greatest that was announced.
pub fn formation_of_three()
    ensures happen { (g : Term) → is_name g ≡ true →
        AllHappen (three_tables g) (start (three_tables g)) (met_one g ++ met_both) }
    ensures outcome { (g : Term) → is_name g ≡ true →
        FormationOfThree g
        (behind (three_tables g) (start (three_tables g)) (met_one g))
        (behind (three_tables g) (start (three_tables g)) (met_one g ++ met_both)) }
{}

/// An end is pending until the other node has taken it. A later join of that process is answered ok and adds nothing.
pub fn pending_end()
    ensures happen { (g : Term) → is_name g ≡ true →
        AllHappen (two_and_member g) (start (two_and_member g)) (ended_at_home ++ joined_after g) }
    ensures outcome { (g : Term) → is_name g ≡ true →
        PendingEnd g
        (behind (two_and_member g) (start (two_and_member g)) (ended_at_home))
        (behind (two_and_member g) (start (two_and_member g)) (ended_at_home ++ joined_after g)) }
{}

/// The greatest of three nodes is asked for a lock alone.
pub fn greatest_first()
    ensures happen { (g : Term) → is_name g ≡ true →
        AllHappen three_nodes (start three_nodes) (first_request g) }
    ensures outcome { (g : Term) → is_name g ≡ true →
        GreatestFirst g
        (behind three_nodes (start three_nodes) (first_request g)) }
{}

/// A node of three that is not formed denies itself the lock which both others grant: no update begins, the others' locks
/// are freed, and the command waits.
pub fn denied_by_itself()
    ensures happen { (g : Term) → is_name g ≡ true →
        AllHappen three_nodes (start three_nodes) (asked_unformed g ++ given_back) }
    ensures outcome { (g : Term) → is_name g ≡ true →
        DeniedByItself g
        (behind three_nodes (start three_nodes) (asked_unformed g))
        (behind three_nodes (start three_nodes) (asked_unformed g ++ given_back)) }
{}

/// A node of three grants itself the lock that another denies: no update begins, its own lock and the third node's are freed,
/// and the command waits.
pub fn denied_by_another()
    ensures happen { (g : Term) → is_name g ≡ true →
        AllHappen three_nodes (start three_nodes) (granted_at_home g ++ denied_by_b) }
    ensures outcome { (g : Term) → is_name g ≡ true →
        DeniedByAnother g
        (behind three_nodes (start three_nodes) (granted_at_home g))
        (behind three_nodes (start three_nodes) (granted_at_home g ++ denied_by_b)) }
{}

/// A single node creates a group: it asks itself for the lock, applies its update and frees the lock, in one event.
pub fn single_node()
    ensures happen { (g : Term) → is_name g ≡ true →
        AllHappen one_node (start one_node) (created_alone g) }
    ensures outcome { (g : Term) → is_name g ≡ true →
        SingleNode g (behind one_node (start one_node) (created_alone g)) }
{}

/// One of three nodes creates a group: the greatest is asked first, then the rest; all apply the update, the command is
/// answered, and every lock is free.
pub fn change_of_three()
    ensures happen { (g : Term) → is_name g ≡ true →
        AllHappen three_nodes (start three_nodes) (created_by_three g) }
    ensures outcome { (g : Term) → is_name g ≡ true →
        ChangeOfThree g (behind three_nodes (start three_nodes) (created_by_three g)) }
{}

/// Queries read the members on a node, and pick one by a word: a local member where there is one, else one of all.
pub fn queries_read()
    ensures { (g : Term) → QueriesRead g }
{}

/// The configurations of these examples are such as a world accepts.
pub fn configurations_are_accepted()
    ensures plain { IsConfig one_node × IsConfig two_nodes × IsConfig three_nodes }
    ensures member { (g : Term) → is_name g ≡ true → IsConfig (two_and_member g) }
    ensures two { (g : Term) → is_name g ≡ true → IsConfig (two_tables g) }
    ensures three { (g : Term) → is_name g ≡ true → IsConfig (three_tables g) }
{}

/// A client at one node begins after a client at another was answered: its query reads what the other changed, though the lock
/// is still held there, and its change comes after the other in the history.
pub fn one_after_another()
    ensures { (g : Term) → is_name g ≡ true → OneAfterAnother g }
{}
