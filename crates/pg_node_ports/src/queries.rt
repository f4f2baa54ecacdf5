//! What a query is answered, from the own table as it is.

ghost use Rattle.std.specs.Prelude.{◌≡◌, true, IfOk};
ghost use Rattle.pg_node_opens.specs.PgGroup.Scope.{anywhere, at_node};
ghost use Rattle.pg_node_opens.specs.PgStep.Commands.{ListsMembers, ListsGroups, PicksMember, Reads};
ghost use Rattle.pg_node_opens.specs.PgStep.StepLaws.{is_query};

use pg_node_opens::{
    Command, GroupTable, QueryFault, Reply, closest, local_members, members, which_groups,
};
use pg_term::{Atom, Term};
use std::alloc::{AllocError, Global};

/// What a query reads in the own table as it is (`get_members/1`, `get_local_members/1`, `which_groups/0` and
/// `get_closest_pid/1` of the pg2 manual page). Its cost is that of what it lists; the closest member's that of two
/// sizes and a place of the table.
///
/// Errors: `AllocError`.
pub fn query_reply<T: GroupTable>(
    alloc: Global,
    table: &T,
    own: &Atom,
    query: &Command,
) -> Result<Reply, AllocError>
    requires { is_query query.now ≡ true }
    ensures { IfOk result (Reads own.now query.now (T.contents table.now)) }
{
    match query {
        Command::Members(name) => members_reply(alloc, table, name),
        Command::LocalMembers(name) => local_members_reply(alloc, table, own, name),
        Command::WhichGroups => groups_reply(table),
        Command::Closest(name, word) => closest_reply(alloc, table, own, name, *word),
        _ => unreachable!(),
    }
}

/// The members of a group, or that there is none.
fn members_reply<T: GroupTable>(alloc: Global, table: &T, name: &Term) -> Result<Reply, AllocError>
    ensures { IfOk result (ListsMembers (T.contents table.now name.now) anywhere name.now) }
{
    match members(alloc, table, name) {
        Ok(pids) => Ok(Reply::Pids(pids)),
        Err(QueryFault::NoSuchGroup) => Ok(Reply::NoSuchGroup(name.copy(alloc)?)),
        Err(QueryFault::NoMember | QueryFault::OutOfMemory) => Err(AllocError),
    }
}

/// The members of a group at the own node, or that there is none.
fn local_members_reply<T: GroupTable>(
    alloc: Global,
    table: &T,
    own: &Atom,
    name: &Term,
) -> Result<Reply, AllocError>
    ensures { IfOk result (ListsMembers (T.contents table.now name.now) (at_node own.now) name.now) }
{
    match local_members(alloc, table, own, name) {
        Ok(pids) => Ok(Reply::Pids(pids)),
        Err(QueryFault::NoSuchGroup) => Ok(Reply::NoSuchGroup(name.copy(alloc)?)),
        Err(QueryFault::NoMember | QueryFault::OutOfMemory) => Err(AllocError),
    }
}

/// The names of the groups.
fn groups_reply<T: GroupTable>(table: &T) -> Result<Reply, AllocError>
    ensures { IfOk result (ListsGroups (T.contents table.now)) }
{
    Ok(Reply::Groups(which_groups(table)?))
}

/// The member that a word picks, or that there is none, or no group. Its cost is that of two sizes and a place of the table.
fn closest_reply<T: GroupTable>(
    alloc: Global,
    table: &T,
    own: &Atom,
    name: &Term,
    word: u32,
) -> Result<Reply, AllocError>
    ensures { IfOk result (PicksMember (T.contents table.now name.now) own.now word name.now) }
{
    match closest(table, own, name, word) {
        Ok(pid) => Ok(Reply::Closest(pid.copy()?)),
        Err(QueryFault::NoSuchGroup) => Ok(Reply::NoSuchGroup(name.copy(alloc)?)),
        Err(QueryFault::NoMember) => Ok(Reply::NoProcess(name.copy(alloc)?)),
        Err(QueryFault::OutOfMemory) => Err(AllocError),
    }
}
