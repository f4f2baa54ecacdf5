//! How a test ends that finds another thing than it should.

ghost use Rattle.std.specs.Prelude.{IsTrue};

use std::process::Abort;

/// Ends the test where something does not hold, and tells of it, and of its place: a row, a node or a pid.
pub fn holds(rt: &impl Abort, holds: bool, said: &str, place: usize)
    ensures { IsTrue holds }
{
    assert!(rt; holds, "{said} {place}");
}
