ghost use Rattle.std.specs.Prelude.{◌≡◌, ◌↔◌, ◌≢◌, None, Err, IsSome, IfOk, List, [], option_copied};
ghost use Rattle.pg_term.specs.declared.pid.Pid.{Pid};
ghost use Rattle.pg_group.specs.Scope.{in_scope, anywhere};
ghost use Rattle.pg_group.specs.Members.{IsMemberList};
ghost use Rattle.pg_query.specs.Closest.{IsClosest, picked};
ghost use Rattle.pg_query.specs.declared.fault.QueryFault.TheVariants.{NoSuchGroup, NoMember, OutOfMemory};

use crate::fault::QueryFault;
use pg_group::{GroupTable, Scope, one_member_list};
use pg_term::{Atom, Pid, Term};

/// The member of a group that a word picks: a local one where there is one, else any. The place is `word` modulo the
/// length of the list, counted from 0, the list being in the order of pids, each as often as its count.
///
/// Errors: `NoSuchGroup` where the group is absent; `NoMember` where it has no member.
///
/// Cost: no memory; that of two sizes and one place of the table.
///
/// The rule: `get_closest_pid/1` of the pg2 manual page, with the word in place of its random choice.
pub fn closest<'a, T: GroupTable>(
    table: &'a T,
    own: &Atom,
    name: &Term,
    word: u32,
) -> Result<&'a Pid, QueryFault>
    ensures ok { IfOk result (λ pid. IsClosest (T.contents table.now name.now) own.now word pid.now) }
    ensures missing { (result ≡ Err NoSuchGroup) ↔ (T.contents table.now name.now ≡ None) }
    ensures nobody { (result ≡ Err NoMember)
        ↔ (IsSome (T.contents table.now name.now) × IsMemberList (T.contents table.now name.now) anywhere []) }
    ensures memory { result ≢ Err OutOfMemory }
{
    one_member_list();
    if !table.has(name) {
        return Err(QueryFault::NoSuchGroup);
    }
    match pick(table, name, Scope::At(own), word) {
        Some(pid) => Ok(pid),
        None => match pick(table, name, Scope::All, word) {
            Some(pid) => Ok(pid),
            None => Err(QueryFault::NoMember),
        },
    }
}

/// The member that a word picks; `None` where there is none.
fn pick<'a, T: GroupTable>(
    table: &'a T,
    name: &Term,
    scope: Scope<'_>,
    word: u32,
) -> Option<&'a Pid>
    ensures { (pids : List Pid) × (IsMemberList (T.contents table.now name.now) (in_scope scope.entry) pids
        × (option_copied result ≡ picked pids word)) }
{
    one_member_list();
    match table.size(name, scope) {
        None | Some(0) => None,
        Some(size) => table.pid_at(name, scope, u64::from(word) % size),
    }
}
