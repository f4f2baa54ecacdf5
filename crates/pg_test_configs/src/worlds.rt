//! Three nodes and the packets between them: what one does reaches the others, and what a world tells of it.

use crate::configs::holds;
use Row::*;
use pg_script::{
    Command, Config, Effect, Entry, FrameStep, FrameWorld, GroupTable, IndexTable, Line, NodeFault,
    NodeForm, OpId, Refusal, Reply, Stepped, read_line, read_script,
};
use pg_term::{Pid, Term};
use std::alloc::Global;
use std::process::Abort;

type World = FrameWorld<IndexTable>;

/// What a step did.
type Told = Result<Stepped, NodeFault>;

/// What happens in a world, or is seen there. The group is the one named 7.
#[derive(Clone, Copy)]
enum Row<'a> {
    /// A command comes in at the first node, and is not refused: a line of a script.
    Given(&'a str),
    /// A command comes in at a node.
    At(usize, &'a str, Told),
    /// A node takes the next packet of a peer.
    Take(usize, usize, Told),
    /// The first command of a port of a node is tried again.
    Retry(usize, u16, Told),
    /// Each node takes what is on the way, until nothing is: so many packets.
    Settle(u32),
    /// A node is lost, and nothing stays of what is on the way from it.
    Lose(usize, Told),
    /// A node sees the loss of a peer.
    See(usize, usize, Told),
    /// Whether a node has the group.
    Group(usize, bool),
    /// Whether a node sees the group's lock free.
    Free(usize, bool),
    /// The updates of the group, each by its node and the number of its command there.
    History(&'a [(usize, u32)]),
    /// So many of these a node has applied.
    Applied(usize, u128),
    /// The updates of the group that a node missed, each by its node and the number of its command there.
    Missed(usize, &'a [(usize, u32)]),
    /// Whether every node was formed when the first was lost.
    FormedFirst(bool),
    /// The first node has answered `ok` at last, to the command of this number.
    Answered(u32),
    /// The ends that are pending are those of these processes of the first node.
    Pending(&'a [u32]),
    /// The row holds in the world alone, and whether the copy is alike then.
    Alone(&'a Row<'a>, bool),
    /// The row holds in the copy alone, and whether the world is alike then.
    Beside(&'a Row<'a>, bool),
}

/// Rows, one after another: events, and what is seen then.
type Turn<'a> = &'a [Row<'a>];

const NOTHING: Effect = Effect {
    sent: 0,
    began: None,
    odd: None,
};

// What an event sends, where it reports nothing.
const QUIET: Told = Ok(Stepped::Happened(NOTHING));

const SENDS_1: Told = Ok(Stepped::Happened(Effect { sent: 1, ..NOTHING }));

const SENDS_2: Told = Ok(Stepped::Happened(Effect { sent: 2, ..NOTHING }));

// The first command of a node.
const FIRST: OpId = OpId { port: 0, number: 1 };

// The last grant of its first command has come: it sends the update to two others, or to one.
const BEGINS: Told = Ok(Stepped::Happened(Effect {
    sent: 2,
    began: Some(FIRST),
    odd: None,
}));

const BEGINS_WITH_1: Told = Ok(Stepped::Happened(Effect {
    sent: 1,
    began: Some(FIRST),
    odd: None,
}));

// All that each node tells as it starts has come to the others.
const FORMED: Row<'static> = Settle(5);

const NO_PLACE: Told = Err(NodeFault::Refused(Refusal::NoSuchPlace));

const NOT_WAITING: Told = Err(NodeFault::Refused(Refusal::NotWaiting));

const NOT_LOST: Told = Err(NodeFault::Refused(Refusal::NotLost));

const LOST: Told = Err(NodeFault::Refused(Refusal::NodeLost));

const GONE: Told = Ok(Stepped::Gone);

fn command_of(alloc: Global, line: &str) -> Option<Command> {
    match read_line(alloc, line) {
        Ok(Line::At { node, form }) => {
            drop(node);
            match form {
                NodeForm::Command(command) => Some(command),
                other => {
                    drop(other);
                    None
                }
            }
        }
        other => {
            drop(other);
            None
        }
    }
}

fn step(world: &mut World, step: FrameStep) -> Told {
    let stepped = world.step(&step);
    drop(step);
    stepped
}

// A command comes in at the first port of a node.
fn given(alloc: Global, world: &mut World, node: usize, line: &str) -> Told {
    match command_of(alloc, line) {
        Some(command) => {
            let asked = FrameStep::Command {
                node,
                port: 0,
                command,
            };
            step(world, asked)
        }
        None => Err(NodeFault::OutOfMemory),
    }
}

static WAYS: [(usize, usize); 6] = [(1, 0), (2, 0), (0, 1), (2, 1), (0, 2), (1, 2)];

// Each node takes what is on the way, until nothing is; how many packets there were. A fault counts as many.
fn settle(world: &mut World) -> u32 {
    let mut count = 0u32;
    for _ in 0..50 {
        for (node, peer) in &WAYS {
            let (node, peer) = (*node, *peer);
            count = count.saturating_add(match step(world, FrameStep::Take { node, peer }) {
                Ok(Stepped::Happened(_)) => 1,
                Ok(_) => 0,
                Err(_) => 1_000,
            });
        }
    }
    count
}

fn lose(alloc: Global, world: &mut World, node: usize) -> Told {
    match Vec::from_array(alloc, [0, 0]) {
        Ok(keep) => step(world, FrameStep::Lose { node, keep }),
        Err(_) => Err(NodeFault::OutOfMemory),
    }
}

// Whether these are the numbers of the processes, each of the first node.
fn are_numbered(pids: &[Pid], numbers: &[u32]) -> bool {
    let mut are_same = pids.len() == numbers.len();
    for (pid, number) in pids.iter().zip(numbers) {
        are_same = are_same && pid.node.as_str() == "a" && pid.serial == 0 && pid.id == *number;
    }
    are_same
}

fn are_pending(world: &World, numbers: &[u32]) -> bool {
    with!(world.pending_ends(), pids => are_numbered(pids.as_slice(), numbers), else false)
}

fn is_entry(entry: Option<&Entry>, (node, number): (usize, u32)) -> bool {
    match entry {
        Some(entry) => entry.node == node && entry.op.number == number,
        None => false,
    }
}

// Whether the updates of a history are of these commands, in this order: those of a slice, and one more where there is one.
fn are_entries(history: (&[Entry], Option<&Entry>), wanted: &[(usize, u32)]) -> bool {
    let (first, last) = history;
    let mut are_same = wanted.len() == first.len().saturating_add(usize::from(last.is_some()));
    for (place, wanted) in wanted.iter().enumerate() {
        are_same = are_same && is_entry(first.get(place).or(last), *wanted);
    }
    are_same
}

// Whether a world tells so of the group: what is `None` is not asked.
fn is_told(world: &World, name: &Term, row: &Row<'_>) -> bool {
    match row {
        Row::Group(node, has) => match world.node(*node) {
            Some(node) => node.table().has(name) == *has,
            None => false,
        },
        Row::Free(node, is_free) => world.lock_free(*node, name) == *is_free,
        Row::History(wanted) => are_entries(world.history(name), wanted),
        Row::Applied(node, count) => world.applied(*node, name) == *count,
        Row::Missed(node, wanted) => {
            with!(world.missed(*node, name), missed => are_entries((missed.as_slice(), None), wanted), else false)
        }
        Row::FormedFirst(is_formed) => world.formed_at_first_loss() == *is_formed,
        _ => false,
    }
}

// Whether the last answer of the first node is `ok`, and that to the command of this number.
fn has_answered(world: &World, number: u32) -> bool {
    match world.node(0) {
        Some(node) if node.port_count() == 1 => match node.answers(0).last() {
            Some(answer) => answer.number == number && matches!(&answer.reply, Reply::Ok),
            None => false,
        },
        _ => false,
    }
}

// Whether a row holds.
fn is_row(alloc: Global, world: &mut World, row: &Row<'_>) -> bool {
    match *row {
        Row::Given(line) => matches!(given(alloc, world, 0, line), Ok(Stepped::Happened(_))),
        Row::At(node, line, told) => given(alloc, world, node, line) == told,
        Row::Take(node, peer, told) => step(world, FrameStep::Take { node, peer }) == told,
        Row::Retry(node, port, told) => {
            let op = OpId { port, number: 1 };
            step(world, FrameStep::Retry { node, op }) == told
        }
        Row::See(node, peer, told) => step(world, FrameStep::SeeLoss { node, peer }) == told,
        Row::Settle(count) => settle(world) == count,
        Row::Lose(node, told) => lose(alloc, world, node) == told,
        Row::Answered(number) => has_answered(world, number),
        Row::Pending(numbers) => are_pending(world, numbers),
        _ => {
            let name = Term::Int(7);
            let is_told = is_told(world, &name, row);
            drop(name);
            is_told
        }
    }
}

// A world, and its copy.
#[derive(Drop)]
struct Twins {
    world: World,
    copy: World,
}

impl Twins {
    // Whether a row holds in the world and in the copy, which are alike then.
    fn agree_on(&mut self, alloc: Global, row: &Row<'_>) -> bool {
        is_row(alloc, &mut self.world, row)
            && is_row(alloc, &mut self.copy, row)
            && self.world.is_alike(&self.copy) == Ok(true)
    }

    // Whether a row holds.
    fn holds(&mut self, alloc: Global, row: &Row<'_>) -> bool {
        match row {
            Row::Alone(row, alike) => {
                is_row(alloc, &mut self.world, row) && self.world.is_alike(&self.copy) == Ok(*alike)
            }
            Row::Beside(row, alike) => {
                is_row(alloc, &mut self.copy, row) && self.copy.is_alike(&self.world) == Ok(*alike)
            }
            row => self.agree_on(alloc, row),
        }
    }
}

// A world in which one step was made and which was copied then.
fn twins_of(alloc: Global, config: &Config) -> Option<Twins> {
    match World::new(alloc, config) {
        Ok(mut world) => {
            let (node, peer) = (2, 0);
            let step = FrameStep::Take { node, peer };
            let stepped = world.step(&step);
            drop(step);
            match world.copy(config) {
                Ok(copy) if stepped == QUIET => Some(Twins { world, copy }),
                _ => None,
            }
        }
        Err(_) => None,
    }
}

// Three nodes, the last of which has taken what the first told as it started, and their copy.
fn three(alloc: Global) -> Option<Twins> {
    let script = read_script(alloc, "ring 1\nnode a\nnode b\nnode c");
    with!(script, script => twins_of(alloc, &script.config), else None)
}

// Each row of the table holds in a new world of three nodes and in its copy, one after another.
fn check(rt: &impl Abort, alloc: Global, list: usize, turns: &[Turn<'_>]) {
    let mut twins = three(alloc).expect(rt, "a world");
    for (place, turn) in turns.iter().enumerate() {
        for row in *turn {
            let turn = list.wrapping_mul(100).wrapping_add(place);
            holds(rt, twins.holds(alloc, row), "list and turn:", turn);
        }
    }
    drop(twins);
}

// A create at one node: it asks c, then b, for the lock, tells both the update, and frees the lock there.
static CREATE: &[Turn<'static>] = &[
    &[FORMED, Given("create a 7"), Group(0, false), History(&[])],
    &[Settle(10), Group(0, true), Group(1, true), Group(2, true)],
    &[History(&[(0, 1)]), Answered(1)],
    &[Settle(0)],
];

// Its history has the update once the last grant has come, and each node applies it as it takes it.
static APPLIED: &[Turn<'static>] = &[
    &[FORMED, Given("create a 7"), Free(3, false), Free(2, true)],
    &[Take(2, 0, SENDS_1), Free(2, false)],
    &[Take(0, 2, SENDS_1), Take(1, 0, SENDS_1), History(&[])],
    &[Take(0, 1, BEGINS), History(&[(0, 1)]), Applied(0, 1)],
    &[Applied(1, 0)],
    &[Take(1, 0, SENDS_1), Applied(1, 1), Applied(2, 0)],
    &[Settle(5), Applied(2, 1), Free(0, true), Free(2, true)],
    &[Given("delete a 7"), Settle(10)],
    &[History(&[(0, 1), (0, 2)]), Applied(2, 2), Applied(3, 0)],
];

// Steps of places that are not there, and a retry of what does not wait; what a lost node would do, and a second loss.
static REFUSALS: &[Turn<'static>] = &[
    &[FORMED, Take(3, 0, NO_PLACE), Take(0, 3, NO_PLACE)],
    &[Take(1, 1, NO_PLACE), Retry(3, 0, NO_PLACE)],
    &[Retry(0, 1, NO_PLACE), Retry(0, 0, NOT_WAITING)],
    &[Take(1, 0, Ok(Stepped::Nothing)), See(0, 2, NOT_LOST)],
    &[Lose(3, NO_PLACE), Lose(2, GONE)],
    &[Lose(2, LOST), Take(2, 0, LOST), See(0, 2, QUIET)],
    &[See(0, 2, LOST)],
];

// An end is pending until each node was told, or is lost that was not.
static LOSS: &[Turn<'static>] = &[
    &[FORMED, Given("make a"), Given("end a <a.1.0>")],
    &[Take(1, 0, QUIET), Pending(&[1])],
    &[Lose(2, GONE), Pending(&[])],
];

// One node has an update of a node that is lost then, and the other missed it once it has seen the loss.
static TAKEN_ALONG: &[Turn<'static>] = &[
    &[FORMED, Given("create a 7"), Take(2, 0, SENDS_1)],
    &[Take(0, 2, SENDS_1), Take(1, 0, SENDS_1)],
    &[Take(0, 1, BEGINS), Take(2, 0, SENDS_1), Missed(1, &[])],
    &[FormedFirst(true), Lose(0, GONE), FormedFirst(true)],
    &[Missed(1, &[]), See(1, 0, QUIET), Missed(1, &[(0, 1)])],
    &[See(2, 0, QUIET), Missed(2, &[]), Missed(3, &[])],
];

// A node is lost before the others are formed, which is told so for good.
static LOST_EARLY: &[Turn<'static>] = &[
    &[FormedFirst(true), Lose(2, GONE), FormedFirst(false)],
    &[Take(0, 1, QUIET), Take(1, 0, QUIET)],
    &[See(0, 2, QUIET), See(1, 2, QUIET)],
    &[Lose(1, GONE), FormedFirst(false)],
];

// The list has the pid of the process, until both others were told.
static LISTED: &[Turn<'static>] = &[
    &[FORMED, Given("make a"), Given("end a <a.1.0>")],
    &[Pending(&[1])],
    &[Settle(2), Pending(&[])],
];

// A create, an end and a loss, in a world and its copy.
static COPIES: &[Turn<'static>] = &[
    &[FORMED, Given("create a 7"), Take(2, 0, SENDS_1)],
    &[Take(0, 2, SENDS_1), Take(1, 0, SENDS_1)],
    &[Take(0, 1, BEGINS), History(&[(0, 1)])],
    &[Settle(6), Given("make a"), Given("end a <a.1.0>")],
    &[Lose(2, GONE), Take(2, 0, LOST)],
    &[Pending(&[1])],
    &[Take(1, 0, QUIET), See(0, 2, QUIET), Applied(1, 1)],
];

// A node takes what the others have sent in another order than its copy, by which its clock differs, and then what it sends has another
// stamp; and what is not alike.
static ALIKE: &[Turn<'static>] = &[
    &[Take(0, 1, QUIET), Take(0, 2, QUIET), Given("make a")],
    &[Given("end a <a.1.0>"), Alone(&Take(2, 0, QUIET), false)],
    &[Alone(&Take(2, 1, QUIET), false)],
    &[Beside(&Take(2, 1, QUIET), false)],
    &[Beside(&Take(2, 0, QUIET), true), Settle(3)],
    &[Given("create a 7"), Take(2, 0, SENDS_1), Settle(9)],
    &[History(&[(0, 3)])],
    &[Alone(&Lose(1, GONE), false)],
    &[Beside(&Lose(1, GONE), true)],
];

// The greatest node asks both others at once. Another asks the greatest alone, which denies it while it has the lock for itself: then the
// command waits, and asks again where it is tried again.
static ASKED: &[Turn<'static>] = &[
    &[FORMED, At(2, "create a 7", SENDS_2)],
    &[At(0, "create a 7", SENDS_1), Take(2, 0, SENDS_1)],
    &[Take(0, 2, SENDS_1), Take(0, 2, QUIET)],
    &[Take(1, 2, SENDS_1), Take(2, 0, QUIET)],
    &[Retry(0, 0, SENDS_1), History(&[])],
    &[Take(2, 1, BEGINS), History(&[(2, 1)])],
    &[At(1, "make b", QUIET), At(1, "end b <b.1.0>", SENDS_2)],
];

// A node whose loss was seen is neither asked nor told.
static ASKED_PAST_LOSS: &[Turn<'static>] = &[
    &[FORMED, Lose(2, GONE), See(0, 2, QUIET)],
    &[At(0, "create a 7", SENDS_1), Take(1, 0, SENDS_1)],
    &[Take(0, 1, BEGINS_WITH_1), At(0, "make a", QUIET)],
    &[At(0, "end a <a.1.0>", SENDS_1)],
];

#[test]
fn turns_of_worlds(rt: HostRuntime) {
    let lists: [&[Turn<'static>]; 11] = [
        ASKED,
        ASKED_PAST_LOSS,
        COPIES,
        ALIKE,
        CREATE,
        APPLIED,
        REFUSALS,
        TAKEN_ALONG,
        LOST_EARLY,
        LOSS,
        LISTED,
    ];
    for (place, turns) in lists.iter().enumerate() {
        check(&rt, rt.alloc(), place, turns);
    }
}
