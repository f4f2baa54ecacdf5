//! The packets of a turn, one to each peer that it sends to.

ghost use Rattle.std.specs.Prelude.{◌≡◌, ◌≤◌, ◌<◌, ◌+◌, ◌&&◌, ℕ, List, [], ◌∷◌, true, false, cond, length, IfOk, IsOk};
ghost use Rattle.std.specs.List.{IsDistinct};
ghost use Rattle.pg_term.specs.Same.{same_atom};
ghost use Rattle.pg_node_opens.specs.PgGroup.declared.update.Update.{Update};
ghost use Rattle.pg_node_opens.specs.PgStep.Machines.Clocked.{stamped};
ghost use Rattle.pg_node_opens.specs.PgMulticall.Places.{has_of};
ghost use Rattle.pg_node_opens.specs.PgStep.declared.command.OpId.{OpId};
ghost use Rattle.pg_node_opens.specs.PgStep.Nodes.{Node, is_peer, to_one, to_peers};
ghost use Rattle.pg_node_opens.specs.PgStep.State.{Status};
ghost use Rattle.pg_node_opens.specs.PgStep.State.Use.{Locking};
ghost use Rattle.pg_node_opens.specs.PgStep.Attempts.{asks, is_yes};
ghost use Rattle.pg_node_opens.specs.Opens.{names_of, live_of, uses_of};
ghost use Rattle.pg_node_opens.specs.Places.{name_at};
ghost use Rattle.pg_node_opens.specs.Readings.{is_locking};
ghost use Rattle.pg_node_sends.specs.Marked.{is_marked, marks_of, sent_below};
ghost use Rattle.pg_node_sends.specs.Opening.{GoToPeers};
ghost use Rattle.pg_node_sends.specs.Orders.{message_of};
ghost use Rattle.pg_node_sends.specs.Sent.{sends_in};
ghost use Rattle.pg_node_sends.specs.Sendable.{AreSendable};
ghost use Rattle.pg_node_opens.specs.PgMessageTypes.Writing.{is_sayable};
ghost use Rattle.pg_node_opens.specs.PgMessageTypes.Limits.{max_stamp};

use crate::orders::Order;
use crate::outgoing::Outgoing;
use bytes::BytesMut;
use pg_node_opens::{Asked, Opens, Packet, Places};
use std::alloc::{AllocError, Global};

/// An order to each live peer. Its cost grows with the peers and the names.
///
/// Errors: `AllocError`, where a peer is live.
pub fn to_live<S: Outgoing>(
    alloc: Global,
    buffer: &mut BytesMut,
    clock: u32,
    order: Order<'_>,
    opens: &Opens,
) -> Result<S, AllocError>
    requires within { clock ≤ max_stamp }
    requires named { is_sayable (message_of order) ≡ true }
    ensures sends { IfOk result (λ sends. sends_in (names_of opens.now) (S.listed sends)
        ≡ (λ q. stamped clock (to_peers (live_of opens.now) (λ q. true) (message_of order.entry) q))) }
    ensures fits { IfOk result (λ sends. AreSendable (names_of opens.now) (S.listed sends)) }
    ensures alone { ((q : Node) → is_peer (live_of opens.now) q ≡ false) → IsOk result }
{
    let goes = live_peers(opens);
    send_marked(alloc, buffer, clock, order, goes, peer_count(opens))
}

/// A copy of a packet to each live peer. Its cost grows with the peers and the packet.
///
/// Errors: `AllocError`.
pub fn copies_to_live(
    alloc: Global,
    packet: &Packet,
    opens: &Opens,
) -> Result<Vec<(usize, Packet)>, AllocError>
    ensures sends { IfOk result (λ sends. sends_in (names_of opens.now) sends.items
        ≡ (λ q. stamped packet.now.stamp (to_peers (live_of opens.now) (λ q. true) packet.now.message q))) }
    ensures place { IfOk result (λ sends. GoToPeers (names_of opens.now) sends.items) }
{
    let goes = live_peers(opens);
    copies_to_marked(alloc, packet, goes, peer_count(opens))
}

/// An order to each peer that is asked for the lock under the reference of this number, where all are: it counts and was not
/// asked.
///
/// Errors: `AllocError`.
pub fn to_asked<S: Outgoing>(
    alloc: Global,
    buffer: &mut BytesMut,
    clock: u32,
    order: Order<'_>,
    opens: &Opens,
    number: u32,
) -> Result<S, AllocError>
    requires locking { is_locking (uses_of opens.now number) ≡ true }
    requires within { clock ≤ max_stamp }
    requires named { is_sayable (message_of order) ≡ true }
    ensures sends { (op : OpId) (update : Update) (first : Node) (st : Node → Status)
        → uses_of opens.now number ≡ Locking op update first st
        → IfOk result (λ sends. sends_in (names_of opens.now) (S.listed sends)
        ≡ (λ q. stamped clock (to_peers (live_of opens.now) (asks (λ q. true) st) (message_of order.entry) q))) }
    ensures fits { IfOk result (λ sends. AreSendable (names_of opens.now) (S.listed sends)) }
{
    let goes = asked_peers(opens, number);
    send_marked(alloc, buffer, clock, order, goes, peer_count(opens))
}

/// An order to each live peer that has granted the lock which is asked for under the reference of this number.
///
/// Errors: `AllocError`.
pub fn to_granted<S: Outgoing>(
    alloc: Global,
    buffer: &mut BytesMut,
    clock: u32,
    order: Order<'_>,
    opens: &Opens,
    number: u32,
) -> Result<S, AllocError>
    requires locking { is_locking (uses_of opens.now number) ≡ true }
    requires within { clock ≤ max_stamp }
    requires named { is_sayable (message_of order) ≡ true }
    ensures sends { (op : OpId) (update : Update) (first : Node) (st : Node → Status)
        → uses_of opens.now number ≡ Locking op update first st
        → IfOk result (λ sends. sends_in (names_of opens.now) (S.listed sends)
        ≡ (λ q. stamped clock (to_peers (live_of opens.now) (λ q. is_yes (st q)) (message_of order.entry) q))) }
    ensures fits { IfOk result (λ sends. AreSendable (names_of opens.now) (S.listed sends)) }
{
    let goes = granted_peers(opens, number);
    send_marked(alloc, buffer, clock, order, goes, peer_count(opens))
}

/// An order to the node at a place, by the names, which is a peer.
///
/// Errors: `AllocError`.
pub fn to_place<S: Outgoing>(
    alloc: Global,
    buffer: &mut BytesMut,
    clock: u32,
    order: Order<'_>,
    place: usize,
) -> Result<S, AllocError>
    requires peer { 0 < place }
    requires within { clock ≤ max_stamp }
    requires named { is_sayable (message_of order) ≡ true }
    ensures sends { (names : List Node) → IfOk result (λ sends. sends_in names (S.listed sends)
        ≡ (λ q. stamped clock (to_one (name_at names place) (message_of order.entry) q))) }
    ensures fits { (names : List Node) → place < length names → IfOk result (λ sends. AreSendable names (S.listed sends)) }
{
    send_one(alloc, buffer, clock, order, place - 1)
}

/// An order to the peer at a place among the peers.
///
/// Errors: `AllocError`.
pub(crate) fn send_one<S: Outgoing>(
    alloc: Global,
    buffer: &mut BytesMut,
    clock: u32,
    order: Order<'_>,
    peer: usize,
) -> Result<S, AllocError>
    requires within { clock ≤ max_stamp }
    requires named { is_sayable (message_of order) ≡ true }
    ensures sends { (names : List Node) → IfOk result (λ sends. sends_in names (S.listed sends)
        ≡ (λ q. stamped clock (to_one (name_at names (peer + 1)) (message_of order.entry) q))) }
    ensures fits { (names : List Node) → peer + 1 < length names → IfOk result (λ sends. AreSendable names (S.listed sends)) }
{
    S::to_one(alloc, buffer, clock, order, peer)
}

/// An order to each peer that is marked, in the order of the peers. `goes`: who is marked, by the places of so many peers.
fn send_marked<S: Outgoing>(
    alloc: Global,
    buffer: &mut BytesMut,
    clock: u32,
    order: Order<'_>,
    goes: Places,
    peers: usize,
) -> Result<S, AllocError>
    requires within { clock ≤ max_stamp }
    requires named { is_sayable (message_of order) ≡ true }
    ensures sends { (names : List Node) → IsDistinct same_atom names → peers + 1 ≡ length names
        → IfOk result (λ sends. sends_in names (S.listed sends)
        ≡ (λ q. stamped clock (cond (is_marked names (marks_of goes peers) q) (message_of order.entry ∷ []) []))) }
    ensures fits { (names : List Node) → peers + 1 ≡ length names → IfOk result (λ sends. AreSendable names (S.listed sends)) }
    ensures none { ((place : ℕ) → has_of goes place ≡ false) → IsOk result }
{
    S::to_marked(alloc, buffer, clock, order, goes, peers)
}

impl Outgoing for Vec<(usize, Packet)> {
    ghost listed = { λ sends. sends.items };

    fn nothing(alloc: Global) -> Vec<(usize, Packet)> {
        Vec::new(alloc)
    }

    fn to_one(
        alloc: Global,
        buffer: &mut BytesMut,
        stamp: u32,
        order: Order<'_>,
        peer: usize,
    ) -> Result<Vec<(usize, Packet)>, AllocError> {
        let mut sends = Vec::with_capacity(alloc, 1)?;
        let message = order.message(alloc)?;
        sends.push_reserved((peer, Packet { stamp, message }));
        Ok(sends)
    }

    /// It takes no memory where nobody is marked, else that of the list once.
    fn to_marked(
        alloc: Global,
        buffer: &mut BytesMut,
        stamp: u32,
        order: Order<'_>,
        goes: Places,
        peers: usize,
    ) -> Result<Vec<(usize, Packet)>, AllocError> {
        list_marked(alloc, stamp, order, goes, peers)
    }

    fn count(&self) -> usize {
        self.len()
    }
}

/// An order to each peer that is marked, as a list of packets.
fn list_marked(
    alloc: Global,
    clock: u32,
    order: Order<'_>,
    goes: Places,
    peers: usize,
) -> Result<Vec<(usize, Packet)>, AllocError>
    ensures sends { IfOk result (λ sends. sends.items ≡ sent_below clock (message_of order.entry) (marks_of goes peers) peers) }
    ensures none { ((place : ℕ) → has_of goes place ≡ false) → IsOk result }
{
    let mut sends = room_for(alloc, goes, peers)?;
    for peer in 0..peers {
        if goes.has(peer) {
            let message = order.message(alloc)?;
            let packet = Packet {
                stamp: clock,
                message,
            };
            sends.push((peer, packet))?;
        }
    }
    Ok(sends)
}

/// A copy of a packet to each peer that is marked, in the order of the peers. `goes`: who is marked, by the places of so
/// many peers.
fn copies_to_marked(
    alloc: Global,
    packet: &Packet,
    goes: Places,
    peers: usize,
) -> Result<Vec<(usize, Packet)>, AllocError>
    ensures sends { (names : List Node) → IsDistinct same_atom names → peers + 1 ≡ length names
        → IfOk result (λ sends. sends_in names sends.items
        ≡ (λ q. stamped packet.now.stamp (cond (is_marked names (marks_of goes peers) q) (packet.now.message ∷ []) []))) }
    ensures place { (names : List Node) → peers + 1 ≡ length names → IfOk result (λ sends. GoToPeers names sends.items) }
{
    let mut sends = room_for(alloc, goes, peers)?;
    for peer in 0..peers {
        if goes.has(peer) {
            sends.push((peer, packet.copy(alloc)?))?;
        }
    }
    Ok(sends)
}

/// An empty list: with room for a packet to each peer, where one is marked.
fn room_for(alloc: Global, goes: Places, peers: usize) -> Result<Vec<(usize, Packet)>, AllocError>
    ensures items { IfOk result (λ sends. sends.items ≡ []) }
    ensures none { ((place : ℕ) → has_of goes place ≡ false) → IsOk result }
{
    if goes.are_within(Places::none()) {
        return Ok(Vec::new(alloc));
    }
    Vec::with_capacity(alloc, peers)
}

/// How many peers there are, the lost ones too. It takes no memory.
fn peer_count(opens: &Opens) -> usize
    ensures { result + 1 ≡ length (names_of opens.now) }
{
    opens.node_count() - 1
}

/// The peers that count, by their places among the peers. It takes no memory.
fn live_peers(opens: &Opens) -> Places
    ensures marks { (peers : ℕ) → peers + 1 ≡ length (names_of opens.now)
        → (q : Node) → is_marked (names_of opens.now) (marks_of result peers) q
        ≡ (is_peer (live_of opens.now) q && true) }
    ensures alone { ((q : Node) → is_peer (live_of opens.now) q ≡ false) → (place : ℕ) → has_of result place ≡ false }
{
    let mut goes = Places::none();
    for place in 1..opens.node_count() {
        goes = goes.with_or_without(place - 1, opens.is_live(place));
    }
    goes
}

/// The peers that are asked, where all are, by their places among the peers. It takes no memory.
fn asked_peers(opens: &Opens, number: u32) -> Places
    requires locking { is_locking (uses_of opens.now number) ≡ true }
    ensures { (op : OpId) (update : Update) (first : Node) (st : Node → Status)
        → uses_of opens.now number ≡ Locking op update first st
        → (peers : ℕ) → peers + 1 ≡ length (names_of opens.now)
        → (q : Node) → is_marked (names_of opens.now) (marks_of result peers) q
        ≡ (is_peer (live_of opens.now) q && asks (λ q. true) st q) }
{
    let mut goes = Places::none();
    for place in 1..opens.node_count() {
        let asks = opens.is_asked_by(number, Asked::All, place);
        goes = goes.with_or_without(place - 1, asks);
    }
    goes
}

/// The peers that count and have granted, by their places among the peers. It takes no memory.
fn granted_peers(opens: &Opens, number: u32) -> Places
    requires locking { is_locking (uses_of opens.now number) ≡ true }
    ensures { (op : OpId) (update : Update) (first : Node) (st : Node → Status)
        → uses_of opens.now number ≡ Locking op update first st
        → (peers : ℕ) → peers + 1 ≡ length (names_of opens.now)
        → (q : Node) → is_marked (names_of opens.now) (marks_of result peers) q
        ≡ (is_peer (live_of opens.now) q && is_yes (st q)) }
{
    let mut goes = Places::none();
    for place in 1..opens.node_count() {
        let granted = opens.is_live(place) & opens.has_granted(number, place);
        goes = goes.with_or_without(place - 1, granted);
    }
    goes
}
