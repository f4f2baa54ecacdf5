//! References and locks that are many: sizes past which code changes its way.

use crate::locks::{ask, give_up, is_held};
use crate::references::next_has;
use crate::samples::{atom, reference};
use pg_node_opens::{LockTable, RefSource};
use pg_term::Reference;
use std::process::Abort;

/// The references 1 and 262144 differ in their words.
#[test]
fn reference_words(rt: HostRuntime) {
    let mut source = RefSource::new(atom(&rt, rt.alloc(), "a"));
    next_has(&rt, &mut source, &[1, 0, 0]);
    for _ in 2..262_144 {
        let skipped = source.next().expect(&rt, "a reference");
        drop(skipped);
    }
    next_has(&rt, &mut source, &[0, 1, 0]);
    drop(source);
}

/// A reference takes 501 locks, more than stand in a vector, and one of another node 500, which are denied to the first and free once the node is lost, but not in a
/// copy of before; then the first gives up its own.
#[test]
fn many_locks(rt: HostRuntime) {
    let mut locks = LockTable::new(rt.alloc());
    let first = reference(&rt, rt.alloc(), "a", 1);
    let other = reference(&rt, rt.alloc(), "b", 1);
    change_hands(&rt, &mut locks, &first, &other);
    drop(locks);
    drop(first);
    drop(other);
}

fn change_hands(rt: &impl Abort, locks: &mut LockTable, first: &Reference, other: &Reference) {
    for number in 0..1001 {
        let reference = if number < 501 { first } else { other };
        check!(rt; ask(rt, locks, true, number, reference, true));
    }
    for number in 501..1001 {
        check!(rt; !ask(rt, locks, true, number, first, true));
    }
    let copy = locks.copy().expect(rt, "a copy");
    check!(rt; copy.same(locks));
    locks.free_node(other.node());
    check!(rt; !copy.same(locks));
    drop(copy);
    for number in 501..1001 {
        check!(rt; is_held(locks, number, None));
    }
    for number in 0..501 {
        check!(rt; is_held(locks, number, Some(first)));
        give_up(locks, number, first, true);
        check!(rt; is_held(locks, number, None));
    }
}
