//! Fresh references, and their numbers. Each test passes wherever an allocation is refused.

use crate::samples::{atom, row_holds};
use pg_node_opens::{RefSource, number_of, reference_of, words_of};
use pg_term::{Atom, Reference, TermFault};
use std::process::Abort;

/// Numbers, and the words of their references.
const NUMBERS: &[(u32, [u32; 3])] = &[
    (1, [1, 0, 0]),
    (262_143, [262_143, 0, 0]),
    (262_144, [0, 1, 0]),
    (u32::MAX, [262_143, 16_383, 0]),
];

/// References of these parts have no number: two words, another creation, a large first word, a large number.
const FOREIGN: &[(u32, &[u32])] = &[
    (1, &[1, 0]),
    (2, &[1, 0, 0]),
    (1, &[262_144, 0, 0]),
    (1, &[0, 16_384, 0]),
];

#[test]
fn numbers_of_references(rt: HostRuntime) {
    let node = atom(&rt, rt.alloc(), "a");
    for ((number, words), row) in NUMBERS.iter().zip(0..4) {
        let reference = asked!(&rt; reference_of(&node, *number));
        row_holds(&rt, number_of(&node, &reference) == Some(*number), row);
        row_holds(&rt, words_of(*number) == *words, row);
        drop(reference);
    }
    for ((creation, words), row) in FOREIGN.iter().zip(0..4) {
        let reference = asked!(&rt; of_parts(&node, *creation, words));
        row_holds(&rt, number_of(&node, &reference).is_none(), row);
        drop(reference);
    }
    drop(node);
}

fn of_parts(node: &Atom, creation: u32, words: &[u32]) -> Result<Reference, TermFault> {
    Reference::new(node.copy()?, creation, words)
}

/// Where memory is refused nothing changes, and the same call succeeds.
#[test]
fn refused_growth(rt: HostRuntime) {
    let mut source = RefSource::new(atom(&rt, rt.alloc(), "a"));
    next_has(&rt, &mut source, &[1, 0, 0]);
    drop(source);
}

/// The next reference has these words.
pub fn next_has(rt: &impl Abort, source: &mut RefSource, words: &[u32]) {
    let next = asked!(rt; source.next());
    check!(rt; next.words() == words);
    drop(next);
}
