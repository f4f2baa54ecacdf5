//! Whether the nodes that outlived others have the same.

ghost use Rattle.std.specs.Prelude.{◌↔◌, IsTrue, IfOk};
ghost use Rattle.std.specs.List.{All};
ghost use Rattle.pg_cluster_judges.specs.Survivors.{HasSame, HaveSame, survivors};

use crate::closed::Closed;
use crate::closed::survivors::was_lost;
use pg_world::{IndexTable, Node, same_groups};
use std::alloc::{AllocError, Global};

impl Closed {
    /// Whether the nodes that were not lost have the same groups with the same members, formed or not. It judges nothing: an update
    /// of a lost node may have come to one of them, and never comes to another.
    ///
    /// Errors: `AllocError`.
    ///
    /// Cost: that of `same_groups` of pg_query for each such node and each, itself among them.
    pub fn same_after_loss(&self, alloc: Global) -> Result<bool, AllocError>
        ensures { IfOk result (λ yes. IsTrue yes ↔ HaveSame (survivors self.now.lost.items self.now.nodes.items)) }
    {
        have_same(alloc, self.nodes.as_slice(), self.lost.as_slice())
    }
}

/// Whether the nodes that were not lost have the same.
fn have_same(alloc: Global, nodes: &[Node<IndexTable>], lost: &[bool]) -> Result<bool, AllocError>
    ensures { IfOk result (λ yes. IsTrue yes ↔ HaveSame (survivors lost.now nodes.now)) }
{
    for place in 0..nodes.len() {
        if !was_lost(lost, place) && !has_same_as_all(alloc, nodes, lost, &nodes[place])? {
            return Ok(false);
        }
    }
    Ok(true)
}

/// Whether a node has the same as each that was not lost.
fn has_same_as_all(
    alloc: Global,
    nodes: &[Node<IndexTable>],
    lost: &[bool],
    node: &Node<IndexTable>,
) -> Result<bool, AllocError>
    ensures { IfOk result (λ yes. IsTrue yes ↔ All (HasSame node.now) (survivors lost.now nodes.now)) }
{
    for place in 0..nodes.len() {
        if !was_lost(lost, place) && !has_same(alloc, node, &nodes[place])? {
            return Ok(false);
        }
    }
    Ok(true)
}

/// Whether two nodes have the same.
fn has_same(
    alloc: Global,
    node: &Node<IndexTable>,
    other: &Node<IndexTable>,
) -> Result<bool, AllocError>
    ensures { IfOk result (λ yes. IsTrue yes ↔ HasSame node.now other.now) }
{
    same_groups(alloc, node.state().table(), other.state().table())
}
