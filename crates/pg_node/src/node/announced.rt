//! Why a node can't tell the groups of its table, which is found without memory.

ghost use Rattle.std.specs.Prelude.{◌≡◌, ◌+◌, ◌≤◌, List, length, map, min};
ghost use Rattle.pg_term.specs.declared.pid.Pid.{Pid};
ghost use Rattle.pg_term.specs.declared.term.Term.{List as Listed};
ghost use Rattle.pg_term.specs.declared.term.Term.TheVariants.{Pid as Process};
ghost use Rattle.pg_node_state.specs.PgTermIo.Writing.{item_bytes};
ghost use Rattle.pg_node_state.specs.PgGroup.Members.{IsMemberList};
ghost use Rattle.pg_node_state.specs.PgGroup.Scope.{anywhere};
ghost use Rattle.pg_node_state.specs.PgGroup.Table.{GroupList};
ghost use Rattle.pg_node.specs.Announced.{AreGroups, Measures, too_long};
ghost use Rattle.pg_node.specs.Begun.{CantBegin};

use pg_index::GroupsByPlace;
use pg_message_types::{MAX_LEN, atom_len, list_head_len, name_len, pid_len};
use pg_node_state::{GroupTable, MessageFault, NodeFault, Scope};
use pg_term::{Atom, Term, TermFault};

/// How many bytes an announcement takes beside the name of its node and the list of groups.
const AROUND: usize = 25;

/// The least length that a body can't have. Lengths are counted no further.
const TOO_LONG: usize = 16_777_217;

/// What is told where a node can't begin: why the groups of its table can't be announced, where they can't; else
/// `OutOfMemory`.
///
/// Cost: no memory; one walk over the names, and over the members as far as a body has room for them.
pub fn begin_fault_or_memory<T: GroupsByPlace>(own: &Atom, table: &T) -> NodeFault
    ensures { CantBegin (T.contents table.now) own.now result }
{
    let Some(groups) = groups_len(table) else {
        return NodeFault::Message(MessageFault::NotAMessage);
    };
    if groups + AROUND + atom_len(own) > MAX_LEN {
        return NodeFault::Message(MessageFault::Term(TermFault::TooLong));
    }
    NodeFault::OutOfMemory
}

/// How many bytes the groups of a table take as a list, or 16,777,217 where that is less; `None` where a name is none.
fn groups_len<T: GroupsByPlace>(table: &T) -> Option<usize>
    ensures { (groups : GroupList) × (AreGroups (T.contents table.now) groups × Measures groups result) }
{
    let count = table.group_count();
    let mut len = list_head_len(count) + 1;
    let mut are_names = true;
    for place in 0..count {
        let name = table.name_at(place);
        match name_len(name) {
            Some(more) => len = added(len, 6 + more),
            None => are_names = false,
        }
        len = with_members(table, name, len);
    }
    if are_names { Some(len) } else { None }
}

/// So many bytes and those of the list of a group's members, or 16,777,217 where that is less.
fn with_members<T: GroupTable>(table: &T, name: &Term, before: usize) -> usize
    requires { before ≤ too_long }
    ensures { (pids : List Pid) × (IsMemberList (T.contents table.now name.now) anywhere pids
        × (result ≡ min (before + length (item_bytes (Listed (map Process pids)))) too_long)) }
{
    let mut len = before;
    let mut place = 0_usize;
    while let Some(pid) = table.pid_at(name, Scope::All, place as u64) {
        len = added(len, pid_len(pid));
        if len == TOO_LONG {
            return TOO_LONG;
        }
        place += 1;
    }
    added(len, list_head_len(place) + 1)
}

/// Two lengths in one, or 16,777,217 where that is less.
fn added(len: usize, more: usize) -> usize
    ensures { result ≡ min (len + more) too_long }
{
    len.saturating_add(more).min(TOO_LONG)
}
