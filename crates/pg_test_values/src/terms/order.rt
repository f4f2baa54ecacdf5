//! Terms as values: their order, and their copies.

use crate::rows::{Row, check};
use crate::samples::{Sample, made};
use pg_message::MessageFault;
use pg_term::Term;
use std::alloc::Global;
use std::test::*;

/// The text of a tuple of terms in rising order, and its depth.
#[derive(Clone, Copy)]
struct Rising(&'static str, u64);

// Terms of every kind.
const RISING: Rising = Rising(
    "{1,a,#<a/1.0>,#<a/256.0>,#<a/4294967295.0>,<a.1.0>,<a.1.0/256>,<a.1.0/4294967295>,{},\
    [],[1],[1,0],<<>>,<<0>>,<<0,255>>,<<1>>}",
    3,
);

// Whether each of the terms stands to each as its place does, and is equal to itself alone.
fn are_rising(terms: &[Term]) -> bool {
    for (i, x) in terms.iter().enumerate() {
        for (j, y) in terms.iter().enumerate() {
            if x.cmp(y) != i.cmp(&j) || x.is(y) != (i == j) {
                return false;
            }
        }
    }
    true
}

// Whether a tuple is rising, and a copy of it is equal to it and so deep.
fn is_rising(alloc: Global, term: &Term, depth: u64) -> Result<bool, MessageFault> {
    let Term::Tuple(terms) = term else {
        return Ok(false);
    };
    with!(term.copy(alloc), copy => {
        Ok(copy.is(term) && copy.depth() == depth && are_rising(terms.as_slice()))
    })
}

impl Row for Rising {
    fn told(&self, alloc: Global) -> Result<bool, MessageFault> {
        with!(made(alloc, Sample::Text(self.0)), term => is_rising(alloc, &term, self.1))
    }
}

#[test]
fn term_order(rt: HostRuntime) {
    check(&rt, rt.alloc(), &[RISING]);
}
