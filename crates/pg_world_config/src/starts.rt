//! The nodes of a configuration as they start.

ghost use Rattle.std.specs.Prelude.{◌≡◌, ◌≤◌, ◌<◌, ◌^◌, ℕ, false, IfOk, length, map};
ghost use Rattle.std.specs.List.{IsDistinct};
ghost use Rattle.pg_term.specs.Same.{same_atom};
ghost use Rattle.pg_node_state.specs.PgEnds.Limits.{max_processes};
ghost use Rattle.pg_node_state.specs.PgExchange.GroupList.{all_merged};
ghost use Rattle.pg_node_state.specs.PgMessageTypes.Members.{HasFewMembers};
ghost use Rattle.pg_node_state.specs.PgStep.Config.{names_of, groups_at, made_at};
ghost use Rattle.pg_world_config.specs.Firsts.{seen_first, firsts};
ghost use Rattle.pg_world_config.specs.Seen.{seen_of};

use pg_index::IndexTable;
use pg_node_state::{Ended, GroupTable, NodeConfig, NodeState, Start};
use pg_term::{Atom, Items, Pid, Term};
use std::alloc::{AllocError, Global};

/// The nodes of a configuration, at most 16, as they start, by their places.
///
/// Errors: `AllocError`.
///
/// Cost: that of the groups and, for each node, of all names.
pub fn nodes_of(alloc: Global, starts: &[Start]) -> Result<Vec<NodeState<IndexTable>>, AllocError>
    requires apart { IsDistinct same_atom (names_of starts.now) }
    requires nodes { length starts.now ≤ 16 }
    requires made { (i : ℕ) → made_at starts.now i ≤ max_processes }
    requires few { (i : ℕ) → HasFewMembers (2 ^ 32) (groups_at starts.now i) }
    ensures { IfOk result (λ nodes. map seen_of nodes.items ≡ firsts starts.now (length starts.now)) }
{
    let mut nodes = Vec::with_capacity(alloc, starts.len())?;
    for place in 0..starts.len() {
        nodes.push(node_at(alloc, starts, place)?)?;
    }
    Ok(nodes)
}

/// The node at a place of a configuration of at most 16 nodes, as it starts.
///
/// Errors: `AllocError`.
///
/// Cost: that of its groups, and of all names.
pub fn node_at(
    alloc: Global,
    starts: &[Start],
    place: usize,
) -> Result<NodeState<IndexTable>, AllocError>
    requires place { place < length starts.now }
    requires apart { IsDistinct same_atom (names_of starts.now) }
    requires nodes { length starts.now ≤ 16 }
    requires made { made_at starts.now place ≤ max_processes }
    requires few { HasFewMembers (2 ^ 32) (groups_at starts.now place) }
    ensures { IfOk result (λ node. seen_of node ≡ seen_first starts.now place) }
{
    let start = &starts[place];
    let mut peers = names_in(alloc, starts)?;
    let own = peers.remove(place);
    let config = NodeConfig {
        own,
        peers,
        made: start.made,
        ports: start.ports,
    };
    let table = filled(alloc, IndexTable::new(alloc), start.groups.as_slice())?;
    NodeState::started(alloc, config, table)
}

/// The names of all nodes of a configuration.
///
/// Errors: `AllocError`.
fn names_in(alloc: Global, starts: &[Start]) -> Result<Vec<Atom>, AllocError>
    ensures { IfOk result (λ names. names.items ≡ names_of starts.now) }
{
    let mut names = Vec::with_capacity(alloc, starts.len())?;
    for start in starts {
        names.push(start.name.copy()?)?;
    }
    Ok(names)
}

/// A table with these groups, too.
///
/// Errors: `AllocError`.
fn filled<T: GroupTable + Drop>(
    alloc: Global,
    table: T,
    groups: &[(Term, Items<Pid>)],
) -> Result<T, AllocError>
    ensures { IfOk result (λ full. T.contents full ≡ all_merged (T.contents table) groups.now (λ pid. false)) }
{
    let ended = Ended::new(alloc);
    let mut full = table;
    for (name, members) in groups {
        full.merge(name, members.as_slice(), &ended)?;
    }
    Ok(full)
}
