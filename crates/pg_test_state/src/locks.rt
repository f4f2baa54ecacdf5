//! The locks of a node, and the rounds of an attempt.

use crate::samples::{at_row, reference, row_holds};
use pg_node_opens::{Attempt, LockTable};
use pg_term::{Reference, Term};
use std::alloc::AllocError;
use std::process::Abort;

/// What a reference wants of a node about the lock of a name.
#[derive(Clone, Copy)]
enum Want {
    /// To hold it: whether the node has formed, and whether it grants it.
    Ask(bool, bool),
    GiveUp,
}

/// Whether it is asked of the first of two nodes, or of the other by a reference that is moved in, and by parts; what, of which name, by which reference; which reference holds the names 1 and 2
/// there then, and whether the same hold the same at both nodes.
type Row = (bool, Want, i64, usize, Holders, bool);

type Holders = (Option<usize>, Option<usize>);

const GRANTED: Want = Want::Ask(true, true);

const DENIED: Want = Want::Ask(true, false);

const WANTS: &[&[Row]] = &[
    // A node that has not formed grants nothing; then the first to ask for a name holds it, and frees it alone.
    &[
        (true, Want::Ask(false, false), 1, 0, (None, None), true),
        (true, GRANTED, 1, 0, (Some(0), None), false),
        (true, DENIED, 1, 1, (Some(0), None), false),
        (true, GRANTED, 2, 1, (Some(0), Some(1)), false),
        (true, Want::GiveUp, 1, 1, (Some(0), Some(1)), false),
        (true, Want::GiveUp, 1, 0, (None, Some(1)), false),
    ],
    // Tables are compared by who holds what, in whatever order it was asked for: one is missing, then another holds it.
    &[
        (true, GRANTED, 1, 0, (Some(0), None), false),
        (true, GRANTED, 2, 1, (Some(0), Some(1)), false),
        (false, GRANTED, 2, 1, (None, Some(1)), false),
        (false, GRANTED, 1, 1, (Some(1), Some(1)), false),
        (false, DENIED, 1, 0, (Some(1), Some(1)), false),
        (false, Want::GiveUp, 1, 0, (Some(1), Some(1)), false),
        (false, Want::GiveUp, 1, 1, (None, Some(1)), false),
        (false, GRANTED, 1, 0, (Some(0), Some(1)), true),
    ],
];

#[test]
fn holders(rt: HostRuntime) {
    let references = [
        reference(&rt, rt.alloc(), "a", 1),
        reference(&rt, rt.alloc(), "a", 2),
    ];
    for rows in WANTS {
        let mut one = LockTable::new(rt.alloc());
        let mut other = LockTable::new(rt.alloc());
        check_rows(&rt, rows, &references, &mut one, &mut other);
        drop(one);
        drop(other);
    }
    drop(references);
}

fn check_rows(
    rt: &impl Abort,
    rows: &[Row],
    references: &[Reference],
    one: &mut LockTable,
    other: &mut LockTable,
) {
    check!(rt; (one.same(other), other.same(one)) == (true, true));
    for (at, row) in rows.iter().enumerate() {
        let is_so = if row.0 {
            check_row(rt, row, references, one)
        } else {
            check_row(rt, row, references, other)
        };
        row_holds(rt, is_so, at);
        row_holds(rt, (one.same(other), other.same(one)) == (row.5, row.5), at);
    }
}

/// Whether the node answers as the row says, and the names are held as it says.
fn check_row(rt: &impl Abort, row: &Row, references: &[Reference], locks: &mut LockTable) -> bool {
    let (is_first, want, name, who, holders, _) = *row;
    let reference = references.get(who).expect(rt, "a reference");
    let is_answered = match want {
        Want::Ask(formed, granted) => {
            ask(rt, locks, formed, name, reference, is_first) == granted
        }
        Want::GiveUp => {
            give_up(locks, name, reference, is_first);
            true
        }
    };
    is_answered
        & is_held(locks, 1, holders.0.and_then(|place| references.get(place)))
        & is_held(locks, 2, holders.1.and_then(|place| references.get(place)))
}

/// Whether a node grants the lock of the name of this number. The reference is lent, or a copy of it is moved in.
pub fn ask(
    rt: &impl Abort,
    locks: &mut LockTable,
    has_formed: bool,
    number: i64,
    reference: &Reference,
    is_lent: bool,
) -> bool {
    let name = Term::Int(number);
    let told = if is_lent {
        asked!(rt; locks.ask(has_formed, &name, reference))
    } else {
        asked!(rt; ask_by_copy(locks, has_formed, &name, reference))
    };
    drop(name);
    told
}

fn ask_by_copy(
    locks: &mut LockTable,
    has_formed: bool,
    name: &Term,
    reference: &Reference,
) -> Result<bool, AllocError> {
    let moved = reference.copy()?;
    locks.ask_moved(has_formed, name, moved)
}

/// A reference, or its parts, gives up the lock of the name of this number.
pub fn give_up(locks: &mut LockTable, number: i64, reference: &Reference, is_whole: bool) {
    let name = Term::Int(number);
    if is_whole {
        locks.give_up(&name, reference);
    } else {
        let (node, creation) = (reference.node(), reference.creation());
        locks.give_up_by(&name, node, creation, reference.words());
    }
    drop(name);
}

/// Whether this reference holds the lock of a name, or none.
pub fn is_held(locks: &LockTable, number: i64, holder: Option<&Reference>) -> bool {
    let name = Term::Int(number);
    let is_held = locks.holder(&name) == holder;
    drop(name);
    is_held
}

/// An attempt, whether all have granted, and what is next.
const ROUNDS: &[(Attempt, bool, Attempt)] = &[
    (Attempt::AskingFirst, false, Attempt::Waiting),
    (Attempt::AskingFirst, true, Attempt::AskingRest),
    (Attempt::AskingRest, false, Attempt::Waiting),
    (Attempt::AskingRest, true, Attempt::Held),
    (Attempt::Held, false, Attempt::Held),
    (Attempt::Waiting, true, Attempt::Waiting),
];

#[test]
fn two_rounds(rt: HostRuntime) {
    check!(&rt; Attempt::new() == Attempt::AskingFirst);
    for row in ROUNDS {
        let (attempt, granted, next) = *row;
        at_row(&rt, attempt.after_round(granted) == next, row);
    }
    check!(&rt; Attempt::Waiting.retried() == Some(Attempt::AskingFirst));
    check!(&rt; Attempt::Held.retried() == None);
}
