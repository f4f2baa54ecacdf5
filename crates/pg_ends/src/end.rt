ghost use Rattle.std.specs.Prelude.{◌≡◌, true, OnOk, OnErr};
ghost use Rattle.pg_term.specs.Same.{same_pid};
ghost use Rattle.pg_group.specs.Functions.{upd};
ghost use Rattle.pg_group.specs.Ended.{ended_of};
ghost use Rattle.pg_group.specs.Table.{without};

use pg_group::{Ended, GroupTable};
use pg_term::Pid;
use std::alloc::AllocError;

/// Takes the end of a process: its pid is one of the ended from then on, and a member of no group; all else of the
/// table and of the ends stays as it was.
///
/// Errors: `AllocError`, which changes nothing.
///
/// Cost: that of the table's `drop_pid`.
pub fn take_end<T: GroupTable>(
    pid: &Pid,
    table: &mut T,
    ended: &mut Ended,
) -> Result<(), AllocError>
    ensures ended { OnOk result (ended_of ended.new ≡ upd same_pid (ended_of ended.old) pid.now true) }
    ensures dropped { OnOk result (T.contents table.new ≡ without (T.contents table.old) pid.now) }
    ensures err_ended { OnErr result (ended_of ended.new ≡ ended_of ended.old) }
    ensures err_table { OnErr result (T.contents table.new ≡ T.contents table.old) }
{
    ended.add(pid.copy()?)?;
    table.drop_pid(pid);
    Ok(())
}
