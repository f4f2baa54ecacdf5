//! Answers: that they are copied where there is memory. The test passes wherever an allocation is refused.

use crate::samples::{atom, row_holds};
use pg_node_opens::{Answer, Reply};
use pg_term::{Items, Pid, Term};
use std::alloc::{AllocError, Global};
use std::process::Abort;

/// Answers are equal where they have one number, and replies with them; the copy of one is equal, and shows the same.
#[test]
fn answers_are_copied_and_told_apart(rt: HostRuntime) {
    for number in 0..8 {
        let one = answer(&rt, rt.alloc(), number);
        is_copied(&rt, rt.alloc(), &one);
        is_told_apart(&rt, rt.alloc(), &one);
        drop(one);
    }
}

/// The answer of this number, which has the reply of another kind than each other.
fn answer(rt: &impl Abort, alloc: Global, number: u32) -> Answer {
    let reply = match number {
        0 => Reply::Ok,
        1 => Reply::Made(pid(rt, alloc, 1)),
        2 => Reply::Pids(asked!(rt; pids(rt, alloc))),
        3 => Reply::Closest(pid(rt, alloc, 2)),
        4 => Reply::Groups(asked!(rt; names(alloc))),
        5 => Reply::NoSuchGroup(Term::Int(5)),
        6 => Reply::NoProcess(Term::Int(6)),
        _ => Reply::Refused(22),
    };
    Answer { number, reply }
}

fn pid(rt: &impl Abort, alloc: Global, id: u32) -> Pid {
    Pid {
        node: atom(rt, alloc, "a"),
        serial: 0,
        id,
        creation: 1,
    }
}

fn pids(rt: &impl Abort, alloc: Global) -> Result<Items<Pid>, AllocError> {
    let (one, two, three) = (pid(rt, alloc, 0), pid(rt, alloc, 1), pid(rt, alloc, 2));
    Ok(Items::from_vec(vec![in alloc; one, two, three]?))
}

fn names(alloc: Global) -> Result<Items<Term>, AllocError> {
    Ok(Items::from_vec(vec![in alloc; Term::Int(0), Term::Int(1), Term::Int(2)]?))
}

fn is_told_apart(rt: &impl Abort, alloc: Global, one: &Answer) {
    for number in 0..8 {
        let other = answer(rt, alloc, number);
        let same = one.number == number;
        row_holds(rt, (*one == other) == same, number as usize);
        row_holds(rt, (one.reply == other.reply) == same, number as usize);
        drop(other);
    }
}

fn is_copied(rt: &impl Abort, alloc: Global, answer: &Answer) {
    let copy = asked!(rt; answer.copy(alloc));
    let first = asked!(rt; shown(alloc, answer));
    let second = asked!(rt; shown(alloc, &copy));
    row_holds(rt, copy == *answer, answer.number as usize);
    row_holds(rt, first == second, answer.number as usize);
    drop(first);
    drop(second);
    drop(copy);
}

/// What an answer shows for debugging.
fn shown(alloc: Global, answer: &Answer) -> Result<String, AllocError> {
    format!(in alloc; "{answer:?}")
}
