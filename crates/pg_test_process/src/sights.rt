//! What tests end by.

use std::process::Abort;

/// Ends the test where something does not hold, and says what, and at which number.
pub fn holds_at(rt: &impl Abort, holds: bool, what: &str, at: usize) {
    assert!(rt; holds, "{what} {at}");
}
