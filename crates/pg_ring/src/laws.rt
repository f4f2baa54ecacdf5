//! Laws of rings: each function does nothing, and its contract is the law.
ghost use Rattle.pg_ring.specs.Laws.{LaterEndsPair, LaterSlotsPair, RingKeepsOrder};

/// The ends of one ring are the ends of one ring later too, in whatever threads they were meanwhile.
pub fn later_ends_pair()
    ensures { LaterEndsPair }
{}

/// The ends of one ring of values are the ends of one ring of values later too.
pub fn later_slots_pair<T>()
    ensures { LaterSlotsPair T }
{}

/// What a ring in memory gives, and then what is unread, is what was unread and then what it took in.
pub fn ring_keeps_order()
    ensures { RingKeepsOrder }
{}
