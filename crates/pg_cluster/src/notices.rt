//! How the nodes of a cluster are told of losses.

ghost use Rattle.std.specs.Prelude.{◌≡◌, length};
ghost use Rattle.pg_cluster_judges.specs.PgWorldPackets.Views.{peer_place};
ghost use Rattle.pg_ring.specs.Slots.{AreSlots, SameSlotOut};
ghost use Rattle.pg_cluster.specs.Clients.{AllPairs};
ghost use Rattle.pg_cluster.specs.Notices.{SameTellers, NotifiedIfRoom, NotifiedUpTo, Told};

use pg_cluster_judges::Notice;
use pg_ring::{SlotIn, SlotOut, slots_together};

/// Where a node is told of losses.
pub(crate) type Teller = SlotOut<Notice>;

/// Which place a node has among the peers of another.
fn place_among(other: usize, node: usize) -> usize
    ensures { result ≡ peer_place other node }
{
    if node < other {
        node
    } else {
        node.saturating_sub(1)
    }
}

/// Tells each other node that has room for a notice that a node was lost, whose clock was this at last.
pub(crate) fn tell_all(tellers: &mut Vec<Teller>, node: usize, last: u32)
    ensures same { SameTellers tellers.old.items tellers.new.items }
    ensures told { NotifiedUpTo node last (length tellers.old.items) tellers.old.items tellers.new.items }
{
    for place in 0..tellers.len() {
        tell(&mut tellers[place], place, node, last);
    }
}

/// Tells the node at a place of the loss of another, if there is room for a notice.
fn tell(teller: &mut Teller, place: usize, node: usize, last: u32)
    ensures same { SameSlotOut teller.old teller.new }
    ensures told { NotifiedIfRoom place node last teller.old teller.new }
{
    if place != node {
        let peer = place_among(place, node);
        let _ = teller.give(Notice { peer, last });
    }
}

/// Looks at both ends of where each node was told of losses: what came is, in order, the first of what was told.
pub(crate) fn settle_notices(tellers: Vec<Teller>, inlets: Vec<SlotIn<Notice>>)
    requires { AllPairs AreSlots tellers.items inlets.items }
    ensures { AllPairs Told tellers.items inlets.items }
{
    let mut tellers = tellers;
    let mut inlets = inlets;
    for place in 0..inlets.len() {
        slots_together(&mut tellers[place], &mut inlets[place]);
    }
}
