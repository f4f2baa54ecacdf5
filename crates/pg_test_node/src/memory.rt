//! Each growth of memory may be refused once: the event says so, its node is as it was, and the event is told again. Each
//! test passes whichever growth is refused.

use crate::nodes::Kind;
use crate::nodes::Sight::*;
use crate::nodes::Who::{A, C};
use crate::rows::Deed::*;
use crate::rows::Row::*;
use crate::rows::{Turn, check};
use crate::told::Event::*;
use pg_node::Odd::{Double, Stranger};
use pg_node::{Refusal, Said};

static GATHERED: &[Turn<'static>] = &[
    // The greatest node is asked alone.
    &[Told(Command("create a 7")), Did(SendsTo(1))],
    &[Did(AsksLock(true))],
    &[Told(Take(0, "{3,{reply,#<a/1.1.0.0>,true}}"))],
    &[Did(Odd(Some(Stranger)))],
    // Once it has granted the rest is asked.
    &[Told(Take(1, "{4,{reply,#<a/1.1.0.0>,true}}"))],
    &[Did(Odd(None)), Did(SendsTo(0)), Seen(Locked(true))],
    &[Told(Take(1, "{5,{reply,#<a/1.1.0.0>,true}}"))],
    &[Did(Odd(Some(Stranger)))],
    // Then the update goes to all.
    &[Told(Take(0, "{6,{reply,#<a/1.1.0.0>,true}}"))],
    &[Did(Began(true)), Did(Sends(2)), Did(AsksLock(false))],
    &[Seen(Group(true))],
    // The first has applied the update, and says so twice; a reply to another call is a stranger's.
    &[Told(Take(0, "{7,{reply,#<a/1.2.0.0>,ok}}"))],
    &[Did(Odd(None))],
    &[Told(Take(0, "{8,{reply,#<a/1.2.0.0>,ok}}"))],
    &[Did(Odd(Some(Double)))],
    &[Told(Take(1, "{9,{reply,#<a/1.9.0.0>,ok}}"))],
    &[Did(Odd(Some(Stranger))), Seen(Open(1)), Seen(Answers(0))],
    // A reply of the wrong kind is no message, and changes nothing.
    &[Refused(
        Take(1, "{10,{reply,#<a/1.2.0.0>,false}}"),
        Refusal::NotAMessage,
    )],
    // The second has applied the update too: the lock is freed at both.
    &[Told(Take(1, "{10,{reply,#<a/1.2.0.0>,ok}}"))],
    &[Did(Sends(2)), Seen(Open(0)), Seen(Locked(false))],
    &[Answered("a 1 ok")],
];

#[test]
fn gathered_replies(rt: HostRuntime) {
    check(&rt, rt.alloc(), "gathered, turn", Kind::Formed(A), GATHERED);
}

static GREATEST: &[Turn<'static>] = &[
    // The greatest node asks itself first, and all others where it grants.
    &[Told(Command("create c 7")), Did(Sends(2))],
    &[Seen(Locked(true))],
    // It denies itself a lock that it has granted: the second command waits.
    &[Told(Command("create c 7")), Did(Sends(0))],
    &[Seen(Waiting(1)), Seen(Open(2))],
    // The first peer grants the lock, the second denies it: who granted is told, and the lock is free.
    &[Told(Take(0, "{3,{reply,#<c/1.1.0.0>,true}}"))],
    &[Told(Take(1, "{4,{reply,#<c/1.1.0.0>,false}}"))],
    &[Did(SendsTo(0)), Seen(Locked(false)), Seen(Waiting(2))],
    &[Told(Retry(2)), Did(Sends(2))],
];

static DENIED: &[Turn<'static>] = &[
    &[Told(Command("create c 7")), Did(Sends(2))],
    // One grants the lock, the other denies it: who granted is told.
    &[Told(Take(0, "{3,{reply,#<c/1.1.0.0>,true}}"))],
    &[Told(Take(1, "{3,{reply,#<c/1.1.0.0>,false}}"))],
    &[Did(SendsTo(0)), Seen(Locked(false))],
    // Then both are asked again.
    &[Told(Retry(1)), Did(Sends(2)), Did(AsksLock(true))],
];

#[test]
fn greatest_asks_itself_first(rt: HostRuntime) {
    check(&rt, rt.alloc(), "greatest, turn", Kind::Formed(C), GREATEST);
    check(&rt, rt.alloc(), "denied, turn", Kind::Formed(C), DENIED);
}

// At a formed node: a process was not made, and then it has ended, of which both peers are told.
static ENDS: &[Turn<'static>] = &[
    &[Asked("end a <a.1.0>", "a 1 refused 26")],
    &[Asked("make a", "a 2 <a.1.0>"), Did(Sends(0))],
    &[Asked("end a <a.1.0>", "a 3 ok"), Did(Sends(2))],
    &[Asked("end a <a.1.0>", "a 4 refused 27"), Did(Sends(0))],
    &[Seen(Answers(4))],
];

// A peer that is lost.
static LOSS: &[Turn<'static>] = &[
    // The greatest makes the group, which a process of it joins.
    &[Told(Take(1, "{1,{call,#<c/1.1.0.0>,{create,7}}}"))],
    &[Told(Take(1, "{2,{call,#<c/1.2.0.0>,{join,7,<c.1.0>}}}"))],
    &[Seen(Counted("<c.1.0>", 1))],
    // It is asked, and is lost, and the command waits.
    &[Told(Command("delete a 7")), Did(SendsTo(1))],
    &[Told(Loss(1, 9)), Seen(Lost(1))],
    &[Seen(Counted("<c.1.0>", 0))],
    // Its retry asks the other.
    &[Told(Retry(1)), Did(SendsTo(0))],
];

static QUERIES: &[Turn<'static>] = &[
    &[Told(Command("members a 7")), Did(Sends(0))],
    &[Told(Command("local a 7")), Did(Sends(0))],
    &[Told(Command("closest a 7 5")), Did(Sends(0))],
    &[Told(Command("groups a")), Did(Sends(0)), Seen(Answers(4))],
];

// No lock is granted before both peers have told their groups. One that is granted and freed is granted again.
static FORMATION: &[Turn<'static>] = &[
    &[Told(Take(0, "{1,{call,#<b/1.1.0.0>,{set_lock,7}}}"))],
    &[Did(Replies(Said::Denied))],
    &[Told(Take(0, "{0,{cast,{exchange,b,[]}}}"))],
    &[Told(Take(1, "{0,{cast,{exchange,c,[]}}}"))],
    &[Seen(Formed(true))],
    &[Told(Take(0, "{1,{call,#<b/1.1.0.0>,{set_lock,7}}}"))],
    &[Did(Replies(Said::Granted))],
    &[Told(Take(0, "{1,{call,#<b/1.1.0.0>,{set_lock,7}}}"))],
    &[Did(Replies(Said::Denied))],
    &[Told(Take(0, "{1,{cast,{del_lock,7,#<b/1.1.0.0>}}}"))],
    &[Seen(Locked(false))],
    &[Told(Take(0, "{1,{call,#<b/1.1.0.0>,{set_lock,7}}}"))],
    &[Did(Replies(Said::Granted))],
];

// The group is made, a process joins it twice, and ends; a late join of it adds nothing.
static UPDATES: &[Turn<'static>] = &[
    &[Told(Take(0, "{3,{call,#<b/1.3.0.0>,{create,7}}}"))],
    &[Did(Replies(Said::Applied))],
    &[Told(Take(0, "{2,{call,#<b/1.2.0.0>,{join,7,<b.1.0>}}}"))],
    &[Told(Take(0, "{2,{call,#<b/1.2.0.0>,{join,7,<b.1.0>}}}"))],
    &[Seen(Counted("<b.1.0>", 2))],
    &[Told(Take(0, "{4,{down,<b.1.0>}}"))],
    &[Seen(Counted("<b.1.0>", 0))],
    &[Told(Take(0, "{2,{call,#<b/1.2.0.0>,{join,7,<b.1.0>}}}"))],
    &[Seen(Counted("<b.1.0>", 0))],
];

#[test]
fn others_are_whole(rt: HostRuntime) {
    check(&rt, rt.alloc(), "ends, turn", Kind::Formed(A), ENDS);
    check(&rt, rt.alloc(), "loss, turn", Kind::Formed(A), LOSS);
    check(&rt, rt.alloc(), "queries, turn", Kind::Formed(A), QUERIES);
    check(&rt, rt.alloc(), "formation, turn", Kind::New(A), FORMATION);
    check(&rt, rt.alloc(), "updates, turn", Kind::Formed(A), UPDATES);
}

// Refusals come whatever memory there is, and before the limit of the clock where they are told first.
static REFUSALS: &[Turn<'static>] = &[
    &[Told(Command("delete a 7")), Told(Command("delete a 8"))],
    &[Told(Take(1, "{3,{reply,#<a/1.1.0.0>,false}}"))],
    &[Told(Take(0, "{1073741823,{reply,#<a/1.77.0.0>,ok}}"))],
    &[Seen(Clock(1_073_741_824))],
    &[Refused(Retry(1), Refusal::ClockFull)],
    &[Refused(Retry(2), Refusal::NotWaiting)],
    &[Refused(Command("delete a 9"), Refusal::ClockFull)],
    &[Refused(Command("end a <b.1.0>"), Refusal::ClockFull)],
    &[Refused(Take(0, "{9,{reply,#<a/1.77.0.0>,ok}}"), Refusal::ClockFull)],
    &[Refused(Take(0, "{0,{cast,{exchange,b,[]}}}"), Refusal::ClockFull)],
    &[Refused(Loss(0, 7), Refusal::ClockFull)],
];

// A peer that was lost says nothing more, and an exchange that came before comes again.
static LOST_PEER: &[Turn<'static>] = &[
    &[Refused(Take(1, "{0,{cast,{exchange,b,[]}}}"), Refusal::NotAMessage)],
    &[Refused(Take(0, "{0,{cast,{exchange,b,[]}}}"), Refusal::NotAMessage)],
    &[Told(Loss(1, 9))],
    &[Refused(Loss(1, 9), Refusal::NodeLost)],
    &[Refused(
        Take(1, "{9,{call,#<c/1.1.0.0>,{create,7}}}"),
        Refusal::NodeLost,
    )],
];

// The first answers are forgotten, and those that come later stand after what is left.
static FORGOTTEN: &[Turn<'static>] = &[
    &[Forgets(1, 0, 0)],
    &[Told(Command("create a 7")), Told(Command("make a"))],
    &[Told(Command("make a")), Told(Command("groups a"))],
    &[Forgets(0, 4, 0), Forgets(1, 3, 1), Answered("a 4 [7]")],
    &[Asked("make a", "a 5 <a.3.0>"), Seen(Answers(4))],
    &[Forgets(3, 1, 4), Answered("a 5 <a.3.0>")],
    &[Forgets(7, 0, 5), Forgets(7, 0, 5)],
    &[Asked("make a", "a 6 <a.4.0>"), Forgets(1, 0, 6)],
];

#[test]
fn refusals_and_forgotten_answers(rt: HostRuntime) {
    check(&rt, rt.alloc(), "refusals, turn", Kind::Formed(A), REFUSALS);
    check(
        &rt,
        rt.alloc(),
        "a lost peer, turn",
        Kind::Formed(A),
        LOST_PEER,
    );
    check(
        &rt,
        rt.alloc(),
        "forgotten answers, turn",
        Kind::Lone,
        FORGOTTEN,
    );
}
