//! Commands of a node and the replies of its peers, where the test plays the peers. A line of a command stands for what the node is told.

use crate::nodes::Kind;
use crate::nodes::Sight::*;
use crate::nodes::Who::{A, B};
use crate::rows::Deed::*;
use crate::rows::Row::*;
use crate::rows::{Turn, check};
use crate::told::Event::*;
use pg_node::Refusal;

// A node that has no peer carries its commands out at once.
static LONE: &[Turn<'static>] = &[
    &[Seen(Formed(true))],
    &[Told(Command("create a 7")), Did(Sends(0))],
    &[Did(Began(true)), Answered("a 1 ok"), Seen(Group(true))],
    &[Seen(Open(0)), Seen(Locked(false))],
    &[Asked("delete a 7", "a 2 ok"), Seen(Group(false))],
    &[Seen(Clock(2))],
    // A look answers a create of a group that is there, and a leave of one that is not.
    &[Asked("leave a 7 <a.1.0>", "a 3 {error,{no_such_group,7}}")],
    &[Told(Command("create a 7"))],
    &[Told(Command("create a 7")), Did(Began(false))],
    &[Answered("a 5 ok")],
    // It lists its process until that ends.
    &[Asked("make a", "a 6 <a.1.0>")],
    &[Asked("join a 7 <a.1.0>", "a 7 ok")],
    &[Asked("members a 7", "a 8 [<a.1.0>]")],
    &[Asked("end a <a.1.0>", "a 9 ok")],
    &[Asked("closest a 7 4", "a 10 {error,{no_process,7}}")],
    &[Asked("end a <a.1.0>", "a 11 refused 27")],
];

// Nodes that were told the same are the same, until one answers another thing.
static ALONE: &[Turn<'static>] = &[
    &[Alone(true, Command("create a 7"), false, false)],
    &[Alone(false, Command("create a 7"), true, true)],
    &[Alone(true, Command("members a 7"), false, false)],
    &[Alone(false, Command("groups a"), false, false)],
];

// A reply that nobody waits for sets the clock, and changes nothing else.
static ALIKE: &[Turn<'static>] = &[
    &[Told(Command("create a 7"))],
    &[Alone(true, Take(0, "{9,{reply,#<a/1.77.0.0>,ok}}"), false, true)],
    &[Alone(false, Take(0, "{9,{reply,#<a/1.77.0.0>,ok}}"), true, true)],
];

// What the greatest denies waits for a retry, which asks it again under another reference.
static DENIED: &[Turn<'static>] = &[
    // Nothing waits.
    &[Refused(Retry(1), Refusal::NotWaiting)],
    &[Told(Command("delete a 7"))],
    // An answer is missing.
    &[Refused(Retry(1), Refusal::NotWaiting)],
    &[Told(Take(1, "{3,{reply,#<a/1.1.0.0>,false}}"))],
    &[Did(Sends(0)), Seen(Waiting(1)), Seen(Waits(1, false))],
    &[Told(Retry(1)), Did(SendsTo(1)), Did(CallsBut(1))],
    &[Seen(Waiting(0))],
];

static LIMIT: &[Turn<'static>] = &[
    &[Asked("make a", "a 1 <a.32767.8191>")],
    &[Asked("make a", "a 2 refused 28")],
    // Nothing was made: the next is refused too, and the last one can still end.
    &[Asked("make a", "a 3 refused 28")],
    &[Asked("end a <a.32767.8191>", "a 4 ok")],
];

// A process of `a` is in the group at `b`, which lists it until it is told that it has ended. A late join is answered, and adds nothing.
static IS_LISTED: &[Turn<'static>] = &[
    &[Told(Take(0, "{1,{call,#<a/1.1.0.0>,{create,7}}}"))],
    &[Did(Sends(1))],
    &[Told(Take(0, "{2,{call,#<a/1.2.0.0>,{join,7,<a.1.0>}}}"))],
    &[Did(Sends(1))],
    &[Asked("members b 7", "b 1 [<a.1.0>]")],
    &[Told(Take(0, "{4,{down,<a.1.0>}}"))],
    &[Asked("members b 7", "b 2 []")],
    &[Told(Take(0, "{9,{call,#<a/1.9.0.0>,{join,7,<a.1.0>}}}"))],
    &[Did(Sends(1))],
    &[Asked("members b 7", "b 3 []")],
];

// Tuples of a name of 253 characters that take four bytes each, and numbers: names of 1,030, 1,024 and 1,022 bytes, behind the byte of a
// version.
const CREATE_1030: &str =
    "create a {'😀😀😀😀😀😀😀😀😀😀😀😀😀😀😀😀😀😀😀😀😀😀😀😀😀😀😀😀😀😀😀😀😀😀😀😀😀😀😀😀😀😀😀😀😀😀😀😀😀😀😀😀😀😀😀😀😀😀😀😀😀😀😀😀😀😀😀😀😀😀😀😀😀😀😀😀😀😀😀😀😀😀😀😀😀😀😀😀😀😀😀😀😀😀😀😀😀😀😀😀😀😀😀😀😀😀😀😀😀😀😀😀😀😀😀😀😀😀😀😀😀😀😀😀😀😀😀😀😀😀😀😀😀😀😀😀😀😀😀😀😀😀😀😀😀😀😀😀😀😀😀😀😀😀😀😀😀😀😀😀😀😀😀😀😀😀😀😀😀😀😀😀😀😀😀😀😀😀😀😀😀😀😀😀😀😀😀😀😀😀😀😀😀😀😀😀😀😀😀😀😀😀😀😀😀😀😀😀😀😀😀😀😀😀😀😀😀😀😀😀😀😀😀😀😀😀😀😀😀😀😀😀😀😀😀😀😀😀😀😀😀😀😀😀😀😀😀😀😀😀😀😀😀',300,0,0,0,0}";

const MEMBERS_1030: &str =
    "members a {'😀😀😀😀😀😀😀😀😀😀😀😀😀😀😀😀😀😀😀😀😀😀😀😀😀😀😀😀😀😀😀😀😀😀😀😀😀😀😀😀😀😀😀😀😀😀😀😀😀😀😀😀😀😀😀😀😀😀😀😀😀😀😀😀😀😀😀😀😀😀😀😀😀😀😀😀😀😀😀😀😀😀😀😀😀😀😀😀😀😀😀😀😀😀😀😀😀😀😀😀😀😀😀😀😀😀😀😀😀😀😀😀😀😀😀😀😀😀😀😀😀😀😀😀😀😀😀😀😀😀😀😀😀😀😀😀😀😀😀😀😀😀😀😀😀😀😀😀😀😀😀😀😀😀😀😀😀😀😀😀😀😀😀😀😀😀😀😀😀😀😀😀😀😀😀😀😀😀😀😀😀😀😀😀😀😀😀😀😀😀😀😀😀😀😀😀😀😀😀😀😀😀😀😀😀😀😀😀😀😀😀😀😀😀😀😀😀😀😀😀😀😀😀😀😀😀😀😀😀😀😀😀😀😀😀😀😀😀😀😀😀😀😀😀😀😀😀😀😀😀😀😀😀',300,0,0,0,0}";

const CREATE_1024: &str =
    "create a {'😀😀😀😀😀😀😀😀😀😀😀😀😀😀😀😀😀😀😀😀😀😀😀😀😀😀😀😀😀😀😀😀😀😀😀😀😀😀😀😀😀😀😀😀😀😀😀😀😀😀😀😀😀😀😀😀😀😀😀😀😀😀😀😀😀😀😀😀😀😀😀😀😀😀😀😀😀😀😀😀😀😀😀😀😀😀😀😀😀😀😀😀😀😀😀😀😀😀😀😀😀😀😀😀😀😀😀😀😀😀😀😀😀😀😀😀😀😀😀😀😀😀😀😀😀😀😀😀😀😀😀😀😀😀😀😀😀😀😀😀😀😀😀😀😀😀😀😀😀😀😀😀😀😀😀😀😀😀😀😀😀😀😀😀😀😀😀😀😀😀😀😀😀😀😀😀😀😀😀😀😀😀😀😀😀😀😀😀😀😀😀😀😀😀😀😀😀😀😀😀😀😀😀😀😀😀😀😀😀😀😀😀😀😀😀😀😀😀😀😀😀😀😀😀😀😀😀😀😀😀😀😀😀😀😀😀😀😀😀😀😀😀😀😀😀😀😀😀😀😀😀😀😀',300,0}";

const CREATE_1022: &str =
    "create a {'😀😀😀😀😀😀😀😀😀😀😀😀😀😀😀😀😀😀😀😀😀😀😀😀😀😀😀😀😀😀😀😀😀😀😀😀😀😀😀😀😀😀😀😀😀😀😀😀😀😀😀😀😀😀😀😀😀😀😀😀😀😀😀😀😀😀😀😀😀😀😀😀😀😀😀😀😀😀😀😀😀😀😀😀😀😀😀😀😀😀😀😀😀😀😀😀😀😀😀😀😀😀😀😀😀😀😀😀😀😀😀😀😀😀😀😀😀😀😀😀😀😀😀😀😀😀😀😀😀😀😀😀😀😀😀😀😀😀😀😀😀😀😀😀😀😀😀😀😀😀😀😀😀😀😀😀😀😀😀😀😀😀😀😀😀😀😀😀😀😀😀😀😀😀😀😀😀😀😀😀😀😀😀😀😀😀😀😀😀😀😀😀😀😀😀😀😀😀😀😀😀😀😀😀😀😀😀😀😀😀😀😀😀😀😀😀😀😀😀😀😀😀😀😀😀😀😀😀😀😀😀😀😀😀😀😀😀😀😀😀😀😀😀😀😀😀😀😀😀😀😀😀😀',300}";

// At a node that is not formed.
static COMMANDS: &[Turn<'static>] = &[
    &[Asked(CREATE_1030, "a 1 refused 23")],
    &[Asked(MEMBERS_1030, "a 2 refused 23")],
    &[Asked("join a 7 <d.1.0>", "a 3 refused 24")],
    &[Asked("end a <b.1.0>", "a 4 refused 24")],
    &[Asked("end a <a.1.0>", "a 5 refused 25"), Seen(Open(0))],
];

// The greatest node is lost, whose answer alone was missing: the command waits, and its retry goes on from what was gathered, so that the
// own node is asked and the other peer.
static READY: &[Turn<'static>] = &[
    &[Told(Command("delete a 7")), Seen(Waiting(0))],
    &[Told(Loss(1, 4)), Seen(Waits(1, true))],
    &[Told(Retry(1)), Seen(Open(1))],
];

// The 257th command that is open at once is refused, and one that is answered at once is not.
static BUSY: &[Turn<'static>] = &[
    &[Creates(256), Seen(Open(256))],
    &[Asked("create a 7000", "a 257 refused 22")],
    &[Seen(Open(256))],
    &[Asked("join a 7001 <a.1.0>", "a 258 {error,{no_such_group,7001}}")],
    &[Asked("make a", "a 259 <a.1.0>")],
];

// A refused change raises the clock by 1, is answered, and does nothing else.
static CHANGES: &[Turn<'static>] = &[
    &[Seen(Clock(2))],
    &[Asked("join a 7 <x.1.0>", "a 1 refused 24"), Did(Sends(0))],
    &[Did(Began(false)), Did(Odd(None)), Seen(Clock(3))],
    &[Seen(Open(0)), Seen(Locked(false)), Seen(Group(false))],
    &[Asked(CREATE_1024, "a 2 refused 23"), Did(Sends(0))],
    &[Did(Began(false)), Did(Odd(None)), Seen(Clock(4))],
    &[Seen(Open(0)), Seen(Locked(false)), Seen(Group(false))],
    &[Seen(Answers(2))],
    // One zero less makes a name.
    &[Told(Command(CREATE_1022)), Seen(Answers(2))],
    &[Seen(Open(1))],
];

#[test]
fn changes(rt: HostRuntime) {
    // What each list is about, the node that it is played at, and the list.
    let lists: [(&str, Kind, &[Turn<'static>]); 10] = [
        ("a lone node answers at once, turn", Kind::Lone, LONE),
        ("nodes are the same, turn", Kind::Lone, ALONE),
        ("the same but for clocks, turn", Kind::Formed(A), ALIKE),
        ("a denied lock asked again, turn", Kind::Formed(A), DENIED),
        ("the process limit, turn", Kind::Last, LIMIT),
        ("a pending end, turn", Kind::Formed(B), IS_LISTED),
        ("refused commands, turn", Kind::New(A), COMMANDS),
        ("a lost answer makes ready, turn", Kind::Formed(A), READY),
        ("a busy node, turn", Kind::Formed(A), BUSY),
        ("refused changes, turn", Kind::Formed(A), CHANGES),
    ];
    for (of, kind, turns) in &lists {
        check(&rt, rt.alloc(), of, *kind, turns);
    }
}
