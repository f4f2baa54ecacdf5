ghost use Rattle.std.specs.Prelude.{◌≡◌, ◌≤◌, length};

use crate::held::Held;
use crate::outgoing::Outgoing;
use pg_node_opens::{Odd, OpId, Packet, Update};
use std::alloc::Global;

/// What an event did beside its change of the state. `S`: the form in which it sends.
#[derive(Debug, Drop)]
pub struct Done<S: Outgoing = Vec<(usize, Packet)>> {
    /// The packets that it sends, each to a peer by its place among the peers.
    pub sends: S,
    /// The command that got its last grant, with its update, in a block of their own.
    pub began: Option<Held<(OpId, Update)>>,
    /// A reply that completed nothing.
    pub odd: Option<Odd>,
    ghost counted: { 0 ≤ length (S.listed sends) },
}

impl<S: Outgoing> Done<S> {
    ghost use Rattle.std.specs.Prelude.{List, [], None};
    ghost use Rattle.pg_node_opens.specs.PgStep.Nodes.{Node};
    ghost use Rattle.pg_node_sends.specs.Sendable.{AreSendable};

    /// Nothing is sent, and nothing began. It takes no memory.
    pub fn nothing(alloc: Global) -> Done<S>
        ensures sends { S.listed result.sends ≡ [] }
        ensures began { result.began ≡ None }
        ensures odd { result.odd ≡ None }
        ensures fits { (names : List Node) → AreSendable names (S.listed result.sends) }
    {
        Done {
            sends: S::nothing(alloc),
            began: None,
            odd: None,
        }
    }
}
