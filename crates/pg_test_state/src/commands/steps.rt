ghost use Rattle.std.specs.Prelude.{◌≡◌, false};
ghost use Rattle.pg_term.specs.Same.{same_atom};

use crate::samples::atom;
use pg_node_opens::{Asked, OpId, Opens, Stage, Update};
use pg_term::{Atom, Term};
use std::alloc::{AllocError, Global};
use std::process::Abort;

/// What becomes of the commands of node a. A command is named by its number, an attempt and an update by the number of its
/// reference, a node by its place.
#[derive(Clone, Copy)]
pub enum Step {
    /// A command is opened, which creates a group.
    Opens(u32),
    /// An attempt begins, which asks a node first.
    Starts(u32, usize),
    /// A node is asked, or all; what the own node answers.
    Asks(u32, Option<usize>, bool),
    /// A node answers.
    Answers(u32, usize, bool),
    /// The update goes out.
    Updates(u32),
    /// A node replies to the update.
    Replies(u32, usize),
    /// The answer of a node is taken back, or its reply.
    TakesBackAnswer(u32, usize),
    TakesBackReply(u32, usize),
    GivesUp(u32),
    Finishes(u32),
    /// The command of a reference is looked for.
    LooksFor(u32),
    /// A node is lost.
    Loses(usize),
}

/// The command of this number.
pub const fn op(number: u32) -> OpId {
    OpId { port: 0, number }
}

/// Makes steps, one after another.
pub fn go_all(rt: &impl Abort, opens: &mut Opens, steps: &[Step]) {
    for step in steps {
        go(rt, opens, *step);
    }
}

fn go(rt: &impl Abort, opens: &mut Opens, step: Step) {
    match step {
        Step::Opens(number) => open(rt, opens, op(number)),
        Step::Starts(number, first) => start(rt, opens, op(number), first),
        Step::Asks(number, asked, granted) => ask(rt, opens, number, asked, granted),
        Step::Answers(number, place, granted) => answer(rt, opens, number, place, Some(granted)),
        Step::TakesBackAnswer(number, place) => answer(rt, opens, number, place, None),
        Step::Updates(number) => update(rt, opens, number),
        Step::Replies(number, place) => reply(rt, opens, number, place, true),
        Step::TakesBackReply(number, place) => reply(rt, opens, number, place, false),
        Step::GivesUp(number) => give_up(rt, opens, number),
        Step::Finishes(number) => finish(rt, opens, number),
        Step::LooksFor(number) => opens.look_for(number),
        Step::Loses(place) => lose(rt, opens, place),
    }
}

/// A refused growth is asked for once more.
fn open(rt: &impl Abort, opens: &mut Opens, op: OpId) {
    assert!(rt; opens.is_closed(op));
    if open_once(opens, op).is_err() {
        assert!(rt; opens.is_closed(op));
        open_once(opens, op).expect(rt, "opened");
    }
}

fn open_once(opens: &mut Opens, op: OpId) -> Result<(), AllocError> {
    opens.reserve()?;
    if opens.is_closed(op) {
        opens.add(op, Update::Create(Term::Int(1)));
        return Ok(());
    }
    Err(AllocError)
}

fn start(rt: &impl Abort, opens: &mut Opens, op: OpId, first: usize) {
    assert!(rt; opens.stage(op) == Stage::Waiting);
    assert!(rt; first < opens.node_count());
    assert!(rt; opens.references() < 1000);
    opens.start(op, first);
}

fn ask(rt: &impl Abort, opens: &mut Opens, number: u32, asked: Option<usize>, granted: bool) {
    assert!(rt; opens.is_locking(number));
    match asked {
        Some(place) => {
            assert!(rt; place < opens.node_count());
            opens.ask(number, Asked::One(place), granted);
        }
        None => opens.ask(number, Asked::All, granted),
    }
}

/// Counts an answer, or takes one back.
fn answer(rt: &impl Abort, opens: &mut Opens, number: u32, place: usize, granted: Option<bool>) {
    assert!(rt; opens.is_locking(number));
    assert!(rt; place < opens.node_count());
    match granted {
        Some(granted) => opens.count_answer(number, place, granted),
        None => opens.take_back_answer(number, place),
    }
}

fn give_up(rt: &impl Abort, opens: &mut Opens, number: u32) {
    assert!(rt; opens.is_locking(number));
    opens.give_up(number);
}

fn update(rt: &impl Abort, opens: &mut Opens, number: u32) {
    assert!(rt; opens.is_locking(number));
    assert!(rt; opens.references() < 1000);
    opens.begin(number);
}

/// Counts a reply, or takes one back.
fn reply(rt: &impl Abort, opens: &mut Opens, number: u32, place: usize, counts: bool) {
    assert!(rt; opens.is_updating(number));
    assert!(rt; place < opens.node_count());
    if counts {
        opens.count_ok(number, place);
    } else {
        opens.take_back_ok(number, place);
    }
}

fn finish(rt: &impl Abort, opens: &mut Opens, number: u32) {
    assert!(rt; opens.is_updating(number));
    opens.finish(number);
}

fn lose(rt: &impl Abort, opens: &mut Opens, place: usize) {
    assert!(rt; 0 < place);
    assert!(rt; place < opens.node_count());
    opens.lose(place);
}

/// The open commands of node a, whose peers are b and c: none.
pub fn opens_of_a(rt: &impl Abort, alloc: Global) -> Opens {
    asked!(rt; opens_of_a_once(rt, alloc))
}

fn opens_of_a_once(rt: &impl Abort, alloc: Global) -> Result<Opens, AllocError> {
    let a = atom(rt, alloc, "a");
    let b = atom(rt, alloc, "b");
    let c = atom(rt, alloc, "c");
    assert!(rt; a != b);
    assert!(rt; a != c);
    assert!(rt; b != c);
    opens_of(alloc, a, b, c)
}

fn opens_of(alloc: Global, a: Atom, b: Atom, c: Atom) -> Result<Opens, AllocError>
    requires ab { same_atom a b ≡ false }
    requires ac { same_atom a c ≡ false }
    requires bc { same_atom b c ≡ false }
{
    let names = Vec::from_array(alloc, [a, b, c])?;
    Opens::new(alloc, names)
}
