//! How a test ends that finds another thing than it should.

use std::process::Abort;

/// Ends the test where something does not hold, and tells of it, and of its number.
pub fn holds_at(rt: &impl Abort, holds: bool, said: &str, at: u64) {
    assert!(rt; holds, "{said} {at}");
}
