//! Small values that tests are made of, and how a test ends that finds another. Each value is made a second time where memory
//! was refused.

use pg_term::{Atom, Reference};
use std::alloc::Global;
use std::fmt::Debug;
use std::process::Abort;

/// Ends the test where something does not hold, and tells of it.
pub fn holds(rt: &impl Abort, holds: bool, said: &str) {
    assert!(rt; holds, "{said}");
}

/// Ends the test where a row of a table does not hold.
pub fn row_holds(rt: &impl Abort, holds: bool, row: usize) {
    assert!(rt; holds, "at {row}");
}

/// Ends the test where a row of a table does not hold.
pub fn at_row<R: Debug>(rt: &impl Abort, holds: bool, row: &R) {
    assert!(rt; holds, "at {row:?}");
}

/// The name of a node.
pub fn atom(rt: &impl Abort, alloc: Global, name: &str) -> Atom {
    asked!(rt; Atom::new(alloc, name))
}

/// The reference of this node with this word.
pub fn reference(rt: &impl Abort, alloc: Global, node: &str, word: u32) -> Reference {
    asked!(rt; Reference::new(atom(rt, alloc, node), 1, &[word]))
}
