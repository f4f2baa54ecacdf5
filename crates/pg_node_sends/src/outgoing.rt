//! The forms in which an event sends packets.

ghost use Rattle.std.specs.Prelude.{◌≡◌, ◌≤◌, ℕ, List, [], ◌∷◌, length, true, false, IfOk, IsOk};
ghost use Rattle.pg_node_opens.specs.PgMessageTypes.declared.packet.Packet.{Packet};
ghost use Rattle.pg_node_opens.specs.PgMessageTypes.Limits.{max_stamp};
ghost use Rattle.pg_node_opens.specs.PgMessageTypes.Writing.{is_sayable};
ghost use Rattle.pg_node_opens.specs.PgMulticall.Places.{has_of};
ghost use Rattle.pg_node_sends.specs.Marked.{marks_of, sent_below};
ghost use Rattle.pg_node_sends.specs.Orders.{message_of, ordered};

use crate::orders::Order;
use bytes::BytesMut;
use pg_node_opens::Places;
use std::alloc::{AllocError, Global};

/// What an event sends, in the form that its caller asks for: a list of packets, or a frame that is written straight
/// away.
pub trait Outgoing {
    /// The packets, each to a peer by its place among the peers.
    ghost listed: { Self → List (ℕ × Packet) };

    /// Nothing.
    ///
    /// Cost: no memory.
    fn nothing(alloc: Global) -> Self
        ensures { listed result ≡ [] };

    /// An order to one peer. `buffer`: its memory takes the frame, where one is written; what it held is lost. `stamp`: the
    /// clock that the packet has, at most 1,073,741,824.
    ///
    /// Errors: `AllocError`.
    fn to_one(
        alloc: Global,
        buffer: &mut BytesMut,
        stamp: u32,
        order: Order<'_>,
        peer: usize,
    ) -> Result<Self, AllocError>
        requires within { stamp ≤ max_stamp }
        requires named { is_sayable (message_of order) ≡ true }
        ensures { IfOk result (λ sends. listed sends ≡ (peer, ordered stamp order.entry) ∷ []) };

    /// An order to each peer that is marked, in the order of the peers. `goes`: who is marked, by the places of so many
    /// peers.
    ///
    /// Errors: `AllocError`, not where nobody is marked.
    fn to_marked(
        alloc: Global,
        buffer: &mut BytesMut,
        stamp: u32,
        order: Order<'_>,
        goes: Places,
        peers: usize,
    ) -> Result<Self, AllocError>
        requires within { stamp ≤ max_stamp }
        requires named { is_sayable (message_of order) ≡ true }
        ensures sends { IfOk result (λ sends. listed sends ≡ sent_below stamp (message_of order.entry) (marks_of goes peers) peers) }
        ensures none { ((place : ℕ) → has_of goes place ≡ false) → IsOk result };

    /// How many packets there are.
    ///
    /// Cost: no memory.
    fn count(&self) -> usize
        ensures { result ≡ length (listed self.now) };
}
