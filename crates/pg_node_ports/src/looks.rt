//! What a change of a group is answered by a look into the own table.

ghost use Rattle.std.specs.Prelude.{◌≡◌, Some, None, Ok, IfOk, OnErr};
ghost use Rattle.pg_term.specs.declared.pid.Pid.{Pid};
ghost use Rattle.pg_node_opens.specs.PgGroup.declared.update.Update.{Update};
ghost use Rattle.pg_node_opens.specs.PgGroup.declared.update.Update.TheVariants as updates;
ghost use Rattle.pg_node_opens.specs.PgGroup.Value.{name_of};
ghost use Rattle.pg_node_opens.specs.PgStep.declared.answer.Reply.TheVariants as replies;
ghost use Rattle.pg_node_opens.specs.PgStep.Commands.{change_of, look};

use pg_node_opens::{Command, GroupTable, Reply};
use pg_term::Term;
use std::alloc::{AllocError, Global};

/// What a change is answered without any lock, by the own table: a create of a group that is there is ok, and a join
/// or a leave of one that is not is answered by that. A command that is no change has no answer here. One look into the
/// table, and a copy of the name where that is answered.
///
/// Errors: `AllocError`, only where the answer is that there is no such group.
pub fn look<T: GroupTable>(
    alloc: Global,
    table: &T,
    command: &Command,
) -> Result<Option<Reply>, AllocError>
    ensures change { (update : Update) → change_of command.now ≡ Some update
        → IfOk result (λ reply. reply ≡ look (T.contents table.now (name_of update)) update) }
    ensures other { change_of command.now ≡ None → result ≡ Ok None }
    ensures memory { OnErr result ((update : Update) × (change_of command.now ≡ Some update)
        × (look (T.contents table.now (name_of update)) update ≡ Some (replies.NoSuchGroup (name_of update)))) }
{
    match command {
        Command::Create(name) => Ok(look_there(table, name)),
        Command::Join(name, _) | Command::Leave(name, _) => look_absent(alloc, table, name),
        _ => Ok(None),
    }
}

/// What a create is answered by the look.
fn look_there<T: GroupTable>(table: &T, name: &Term) -> Option<Reply>
    ensures { result ≡ look (T.contents table.now name.now) (updates.Create name.now) }
{
    if table.has(name) {
        Some(Reply::Ok)
    } else {
        None
    }
}

/// What a join or a leave is answered by the look.
fn look_absent<T: GroupTable>(
    alloc: Global,
    table: &T,
    name: &Term,
) -> Result<Option<Reply>, AllocError>
    ensures join { (pid : Pid) → IfOk result (λ reply. reply ≡ look (T.contents table.now name.now) (updates.Join name.now pid)) }
    ensures leave { (pid : Pid) → IfOk result (λ reply. reply ≡ look (T.contents table.now name.now) (updates.Leave name.now pid)) }
    ensures memory { OnErr result (T.contents table.now name.now ≡ None) }
{
    if table.has(name) {
        Ok(None)
    } else {
        Ok(Some(Reply::NoSuchGroup(name.copy(alloc)?)))
    }
}
