//! How a test ends where something does not hold.

use std::process::Abort;

/// Where a row of a table does not hold, its place is told.
pub fn row_holds(rt: &impl Abort, holds: bool, row: usize) {
    assert!(rt; holds, "at {row}");
}

/// Where something else does not hold, it is told.
pub fn holds(rt: &impl Abort, holds: bool, said: &str) {
    assert!(rt; holds, "{said}");
}
