//! The node `a`, whose peers `b` and `c` are played.

ghost use Rattle.std.specs.Prelude.{◌≡◌, IsTrue, false};
ghost use Rattle.pg_term.specs.Same.{same_atom};

use pg_cluster::{IndexTable, NodeConfig, NodeState};
use pg_term::{Atom, TermFault};
use std::alloc::{AllocError, Global};

/// The name of the node.
pub const OWN: &str = "a";

// Whether the three names differ.
fn are_apart(own: &Atom, one: &Atom, two: &Atom) -> bool
    ensures first { IsTrue result → same_atom own.now one.now ≡ false }
    ensures second { IsTrue result → same_atom own.now two.now ≡ false }
    ensures third { IsTrue result → same_atom one.now two.now ≡ false }
{
    own != one && own != two && one != two
}

/// The node, with one port, which has taken nothing yet.
///
/// Errors: those of `Atom::new`.
///
/// Cost: that of `NodeState::new`.
pub fn new_state(alloc: Global) -> Result<NodeState<IndexTable>, TermFault> {
    let own = Atom::new(alloc, OWN)?;
    let one = Atom::new(alloc, "b")?;
    let two = Atom::new(alloc, "c")?;
    if are_apart(&own, &one, &two) {
        Ok(state_of(alloc, own, one, two)?)
    } else {
        Err(TermFault::BadAtom)
    }
}

fn state_of(
    alloc: Global,
    own: Atom,
    one: Atom,
    two: Atom,
) -> Result<NodeState<IndexTable>, AllocError>
    requires first { same_atom own one ≡ false }
    requires second { same_atom own two ≡ false }
    requires third { same_atom one two ≡ false }
{
    let peers = Vec::from_array(alloc, [one, two])?;
    let config = NodeConfig {
        own,
        peers,
        made: 1,
        ports: 1,
    };
    let table = IndexTable::new(alloc);
    NodeState::started(alloc, config, table)
}

/// How many commands of the port of a node are answered, those whose answers were forgotten too.
pub fn answered(state: &NodeState<IndexTable>) -> u64 {
    if state.port_count() == 1 {
        state
            .forgotten(0)
            .saturating_add(state.answers(0).len() as u64)
    } else {
        0
    }
}
