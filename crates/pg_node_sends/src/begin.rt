//! What a node sends as it begins.

ghost use Rattle.std.specs.Prelude.{IfOk};
ghost use Rattle.pg_node_opens.specs.Opens.{names_of, live_of};
ghost use Rattle.pg_node_opens.specs.Places.{name_at};
ghost use Rattle.pg_node_sends.specs.Opening.{Announces, GoToPeers, IsAnnouncement};
ghost use Rattle.pg_node_sends.specs.Sent.{sends_in};

use crate::sends::copies_to_live;
use pg_node_opens::{GroupTable, Message, Opens, Packet, snapshot};
use std::alloc::{AllocError, Global};

/// The groups of a table to each live peer, by its place, at time 0.
///
/// Errors: `AllocError`.
pub fn opening<T: GroupTable>(
    alloc: Global,
    opens: &Opens,
    table: &T,
) -> Result<Vec<(usize, Packet)>, AllocError>
    ensures announces { IfOk result (λ sends. Announces (T.contents table.now) (live_of opens.now) (sends_in (names_of opens.now) sends.items)) }
    ensures place { IfOk result (λ sends. GoToPeers (names_of opens.now) sends.items) }
{
    let packet = announced(alloc, opens, table)?;
    let sends = copies_to_live(alloc, &packet, opens);
    drop(packet);
    sends
}

/// What a node announces to each peer as it begins: all groups of a table, at time 0.
///
/// Errors: `AllocError`.
pub fn announced<T: GroupTable>(
    alloc: Global,
    opens: &Opens,
    table: &T,
) -> Result<Packet, AllocError>
    ensures { IfOk result (IsAnnouncement (T.contents table.now) (name_at (names_of opens.now) 0)) }
{
    let groups = snapshot(alloc, table)?;
    let own = opens.name(0).copy()?;
    Ok(Packet {
        stamp: 0,
        message: Message::Exchange(own, groups),
    })
}
