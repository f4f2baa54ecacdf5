//! What a command that is to be opened needs, made before anything changes.

ghost use Rattle.std.specs.Prelude.{◌≡◌, true, is_some, Some, IfOk, OnOk};
ghost use Rattle.pg_node_ports.specs.PgNodeOpens.Opens.{names_of, has_room, Follows};
ghost use Rattle.pg_node_ports.specs.PgStep.Commands.{change_of};
ghost use Rattle.pg_node_ports.specs.PgStep.Turns.{becomes};

use pg_node_ports::{Command, Opens, Update};
use std::alloc::{AllocError, Global};

/// Makes the update of a command, a copy of what it names, and room for it among the open ones.
///
/// Errors: `AllocError`, which changes nothing.
pub(crate) fn prepared(
    alloc: Global,
    opens: &mut Opens,
    command: &Command,
) -> Result<Update, AllocError>
    requires change { is_some (change_of command.now) ≡ true }
    ensures same { Follows opens.old opens.new becomes }
    ensures nodes { names_of opens.new ≡ names_of opens.old }
    ensures ok { OnOk result (has_room opens.new) }
    ensures update { IfOk result (λ update. change_of command.now ≡ Some update) }
{
    opens.reserve()?;
    update_of(alloc, command)
}

/// The change that a command asks for: a copy of what it names.
///
/// Errors: `AllocError`.
fn update_of(alloc: Global, command: &Command) -> Result<Update, AllocError>
    requires { is_some (change_of command.now) ≡ true }
    ensures { IfOk result (λ update. change_of command.now ≡ Some update) }
{
    Ok(match command {
        Command::Create(name) => Update::Create(name.copy(alloc)?),
        Command::Delete(name) => Update::Delete(name.copy(alloc)?),
        Command::Join(name, pid) => {
            let pid = pid.copy()?;
            Update::Join(name.copy(alloc)?, pid)
        }
        Command::Leave(name, pid) => {
            let pid = pid.copy()?;
            Update::Leave(name.copy(alloc)?, pid)
        }
        _ => unreachable!(),
    })
}
