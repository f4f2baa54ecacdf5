//! What a cluster that has ended tells of each of its nodes.

ghost use Rattle.std.specs.Prelude.{◌≡◌, option_map, slice_get};
ghost use Rattle.std.specs.Option.{option_and_then, option_copied};
ghost use Rattle.pg_cluster_judges.specs.Told.{answers_at as answers_given};

use crate::closed::Closed;
use crate::closed::survivors::was_lost;
use pg_world::{Answer, IndexTable, Node};

impl Closed {
    ghost use Rattle.pg_cluster_judges.specs.Survivors.{was_lost};
    ghost use Rattle.pg_cluster_judges.specs.Told.{answers_at};

    /// Whether the node at a place was lost; no where no node is there.
    ///
    /// Cost: no memory.
    pub fn is_lost(&self, node: usize) -> bool
        ensures { result ≡ was_lost self.now.lost.items node }
    {
        was_lost(self.lost.as_slice(), node)
    }

    /// How many turns the thread of the node at a place made; that in which it was stopped counts not. None where no
    /// node is there.
    ///
    /// Cost: no memory.
    pub fn turns(&self, node: usize) -> Option<u64>
        ensures { result ≡ option_map (λ count. count.made) (slice_get self.now.turns.items node) }
    {
        match self.turns.get(node) {
            Some(count) => Some(count.made),
            None => None,
        }
    }

    /// How many of the turns that `turns` counts were short: memory or the clock refused something. None where no node is there.
    ///
    /// Cost: no memory.
    pub fn short_turns(&self, node: usize) -> Option<u64>
        ensures { result ≡ option_map (λ count. count.short) (slice_get self.now.turns.items node) }
    {
        match self.turns.get(node) {
            Some(count) => Some(count.short),
            None => None,
        }
    }

    /// The answers that a node gave at a port, in their order, whether its client polled them or not. `node` and
    /// `port`: their places. None where no such node or port is there.
    ///
    /// Cost: no memory.
    pub fn answers(&self, node: usize, port: u16) -> Option<&[Answer]>
        ensures { option_copied result ≡ option_and_then (answers_at port) (slice_get self.now.nodes.items node) }
    {
        match self.nodes.get(node) {
            Some(node) => answers_at(node, port),
            None => None,
        }
    }
}

/// The answers that a node gave at a port; none where it has no such port.
fn answers_at(node: &Node<IndexTable>, port: u16) -> Option<&[Answer]>
    ensures { option_copied result ≡ answers_given port node.now }
{
    let state = node.state();
    if usize::from(port) < state.port_count() {
        Some(state.answers(port))
    } else {
        None
    }
}
