//! Copies of updates. The test passes wherever an allocation is refused.

use crate::samples::{either, pid, row_holds};
use pg_group::Update;
use pg_term::Term;
use std::alloc::{AllocError, Global};
use std::process::Abort;

/// The copy of an update shows the same, and names the same group.
#[test]
fn copies_are_equal(rt: HostRuntime) {
    for kind in 0..4 {
        let update = update(&rt, rt.alloc(), kind);
        row_holds(&rt, is_copied(&rt, rt.alloc(), &update), kind);
        drop(update);
    }
}

fn update(rt: &impl Abort, alloc: Global, kind: usize) -> Update {
    match kind {
        0 => Update::Create(Term::Int(1)),
        1 => Update::Delete(Term::Int(2)),
        2 => Update::Join(Term::Int(3), pid(rt, alloc, "a", 1)),
        _ => Update::Leave(Term::Int(4), pid(rt, alloc, "a", 1)),
    }
}

fn is_copied(rt: &impl Abort, alloc: Global, update: &Update) -> bool {
    let copy = either(rt, update.copy(alloc), update.copy(alloc));
    let first = either(rt, shown(alloc, update), shown(alloc, update));
    let second = either(rt, shown(alloc, &copy), shown(alloc, &copy));
    let is_copied = first == second && copy.name().is(update.name());
    drop(first);
    drop(second);
    drop(copy);
    is_copied
}

/// What an update shows for debugging.
fn shown(alloc: Global, update: &Update) -> Result<String, AllocError> {
    format!(in alloc; "{update:?}")
}
