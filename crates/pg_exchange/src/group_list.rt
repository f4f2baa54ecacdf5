ghost use Rattle.std.specs.Prelude.{◌≡◌, IsSome, IfOk};
ghost use Rattle.pg_group.specs.Scope.{anywhere};
ghost use Rattle.pg_group.specs.Members.{IsMemberList};
ghost use Rattle.pg_exchange.specs.GroupList.{IsSnapshot};

use pg_group::GroupTable;
use pg_query::{QueryFault, members, which_groups};
use pg_term::{Items, Pid, Term};
use std::alloc::{AllocError, Global};

/// All that a table says, as a node announces it: its groups in the order of terms, each with its members in the
/// order of pids.
///
/// Errors: `AllocError`.
///
/// Cost: that of the table's `groups`, whose names are those told, and of its `list` for each group.
pub fn snapshot<T: GroupTable>(
    alloc: Global,
    table: &T,
) -> Result<Items<(Term, Items<Pid>)>, AllocError>
    ensures { IfOk result (IsSnapshot (T.contents table.now)) }
{
    let names = which_groups(table)?.into_vec();
    let mut groups = Vec::new(alloc);
    for name in names {
        let pids = members_of(alloc, table, &name)?;
        groups.push((name, pids))?;
    }
    Ok(Items::from_vec(groups))
}

/// The members of a group that is there.
fn members_of<T: GroupTable>(
    alloc: Global,
    table: &T,
    name: &Term,
) -> Result<Items<Pid>, AllocError>
    requires { IsSome (T.contents table.now name.now) }
    ensures { IfOk result (IsMemberList (T.contents table.now name.now) anywhere) }
{
    match members(alloc, table, name) {
        Ok(pids) => Ok(pids),
        Err(QueryFault::OutOfMemory) => Err(AllocError),
        Err(QueryFault::NoSuchGroup | QueryFault::NoMember) => unreachable!(),
    }
}
