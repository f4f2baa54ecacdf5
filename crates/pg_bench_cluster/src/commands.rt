//! Commands by which a node or a client asks for a change.

use pg_cluster::Command;
use pg_term::{Pid, Term};
use pg_test_kit::Change;

/// The command that asks for this change of a group, with this process where one is needed.
pub fn command(change: Change, group: Term, process: Pid) -> Command {
    match change {
        Change::Create => Command::Create(group),
        Change::Join => Command::Join(group, process),
        Change::Leave => Command::Leave(group, process),
    }
}
