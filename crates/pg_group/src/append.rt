ghost use Rattle.std.specs.Prelude.{◌≡◌, ◌++◌, [], OnOk};
ghost use Rattle.pg_group.specs.Members.{put};

use pg_term::Pid;
use std::alloc::AllocError;

/// Appends a member to a list, as often as its count.
///
/// Errors: `AllocError`.
///
/// Cost: memory for each time, and for the name of the member's node.
pub fn append_member(pids: &mut Vec<Pid>, pid: &Pid, count: u64) -> Result<(), AllocError>
    ensures { OnOk result (pids.new.items ≡ pids.old.items ++ put count pid.now []) }
{
    for _ in 0..count {
        pids.push(pid.copy()?)?;
    }
    Ok(())
}
