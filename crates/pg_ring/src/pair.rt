// Both ends of a ring between threads in one hand.
ghost use Rattle.std.specs.Prelude.{◌≡◌, ◌≢◌, ◌↔◌, ◌≤◌, ◌+◌, [], ◌++◌, length, IfOk};
ghost use mathlib.Core.List.{IsPrefix};
ghost use Rattle.pg_ring.specs.Capacity.{IsCapacity, IsBadCapacity};
ghost use Rattle.pg_ring.specs.Ends.{AreEnds, Sends, Receives, IsSettled, bytes_sent};
ghost use Rattle.pg_ring.specs.Ends.{bytes_free, bytes_room, bytes_received, bytes_left};

use crate::capacity::is_capacity;
use crate::{RingFault, RingIn, RingOut};
use rtrb::RingBuffer;
use std::alloc::Global;

/// The two ends of a new ring with room for `cap` bytes.
///
/// Errors: `BadCapacity` exactly where `cap` is 0 or above `MAX_CAPACITY`; else `OutOfMemory`.
///
/// Cost: O(`cap`).
pub fn ring_pair(alloc: Global, cap: usize) -> Result<(RingOut, RingIn), RingFault>
    ensures ends { IfOk result (λ pair. AreEnds pair.0 pair.1) }
    ensures unsent { IfOk result (λ pair. bytes_sent pair.0 ≡ []) }
    ensures free { IfOk result (λ pair. bytes_free pair.0 ≡ cap) }
    ensures room { IfOk result (λ pair. bytes_room pair.0 ≡ cap) }
    ensures unreceived { IfOk result (λ pair. bytes_received pair.1 ≡ []) }
    ensures left { IfOk result (λ pair. bytes_left pair.1 ≡ []) }
    ensures unsettled { IfOk result (λ pair. ¬ IsSettled pair.1) }
    ensures bad { (result ≡ Err RingFault.BadCapacity) ↔ IsBadCapacity cap }
    ensures good { result ≢ Err RingFault.BadCapacity → IsCapacity cap }
{
    if !is_capacity(cap) {
        return Err(RingFault::BadCapacity);
    }
    let (producer, consumer) = RingBuffer::new(alloc, cap)?;
    let inlet = RingIn {
        consumer,
        settled: false,
    };
    Ok((RingOut { producer }, inlet))
}

/// Looks at both ends of one ring at once: what was received, and then what is left, is what was sent. A `take` right
/// after it fills exactly the lesser of what is left and its room, and a `put` right after it knows of all the room
/// that what is left does not take. It moves nothing.
///
/// Cost: no memory; O(1).
pub fn together(out: &mut RingOut, inlet: &mut RingIn)
    requires { AreEnds out.old inlet.old }
    ensures sent { Sends out.old [] out.new }
    ensures free { bytes_free out.old ≤ bytes_free out.new }
    ensures received { Receives inlet.old [] inlet.new }
    ensures left { IsPrefix (bytes_left inlet.old) (bytes_left inlet.new) }
    ensures ends { AreEnds out.new inlet.new }
    ensures whole { bytes_received inlet.new ++ bytes_left inlet.new ≡ bytes_sent out.new }
    ensures settled { IsSettled inlet.new }
    ensures room { bytes_room out.old ≤ bytes_free out.new + length (bytes_left inlet.new) }
{
    out.producer.slots_beside(&mut inlet.consumer);
    inlet.consumer.slots_beside(&mut out.producer);
    inlet.settled = true;
}
