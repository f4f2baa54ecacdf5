//! What a node answers a peer.

ghost use Rattle.std.specs.Prelude.{◌≡◌, ◌≤◌, ◌<◌, ◌+◌, List, None, IfOk, length};
ghost use Rattle.pg_node_opens.specs.PgStep.Nodes.{Node, to_one};
ghost use Rattle.pg_node_opens.specs.PgStep.Machines.Clocked.{stamped};
ghost use Rattle.pg_node_opens.specs.PgMessageTypes.declared.message.Message.TheVariants as messages;
ghost use Rattle.pg_node_opens.specs.Places.{name_at};
ghost use Rattle.pg_node_sends.specs.Sent.{sends_in};
ghost use Rattle.pg_node_sends.specs.Sendable.{AreSendable};
ghost use Rattle.pg_node_opens.specs.PgStep.Peers.{verdict};
ghost use Rattle.pg_node_opens.specs.PgMessageTypes.Limits.{max_stamp};

use crate::calls::done_with;
use crate::done::Done;
use crate::orders::Order;
use crate::outgoing::Outgoing;
use crate::sends::send_one;
use bytes::BytesMut;
use pg_node_opens::Said;
use pg_term::Reference;
use std::alloc::{AllocError, Global};

/// A reply to a peer, and nothing else. `peer`: its place among the peers.
///
/// Errors: `AllocError`.
pub(crate) fn reply<S: Outgoing + Drop>(
    alloc: Global,
    buffer: &mut BytesMut,
    clock: u32,
    peer: usize,
    reference: &Reference,
    said: Said,
) -> Result<Done<S>, AllocError>
    requires within { clock ≤ max_stamp }
    ensures sends { (names : List Node) → IfOk result (λ done. sends_in names (S.listed done.sends)
        ≡ (λ q. stamped clock (to_one (name_at names (peer + 1)) (messages.Reply reference.now said) q))) }
    ensures began { IfOk result (λ done. done.began ≡ None) }
    ensures odd { IfOk result (λ done. done.odd ≡ None) }
    ensures fits { (names : List Node) → peer + 1 < length names → IfOk result (λ done. AreSendable names (S.listed done.sends)) }
{
    let sends = send_one(alloc, buffer, clock, Order::Reply(reference, said), peer)?;
    Ok(done_with(sends, None))
}

/// What is said to a request for a lock.
pub(crate) fn verdict(granted: bool) -> Said
    ensures { result ≡ verdict granted }
{
    if granted { Said::Granted } else { Said::Denied }
}
