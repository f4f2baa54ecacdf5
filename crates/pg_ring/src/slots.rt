// Both ends of a ring of values in one hand.
ghost use Rattle.std.specs.Prelude.{◌≡◌, ◌≢◌, ◌↔◌, ◌≤◌, ◌+◌, [], ◌++◌, length, IfOk};
ghost use mathlib.Core.List.{IsPrefix};
ghost use Rattle.pg_ring.specs.Capacity.{IsCapacity, IsBadCapacity};
ghost use Rattle.pg_ring.specs.Slots.{AreSlots, SameSlotOut, SameSlotIn, given};
ghost use Rattle.pg_ring.specs.Slots.{taken, slots_free, slots_room, slots_left};

use crate::capacity::is_capacity;
use crate::{RingFault, SlotIn, SlotOut};
use rtrb::RingBuffer;
use std::alloc::Global;

/// The two ends of a new ring with room for `cap` values.
///
/// Errors: `BadCapacity` exactly where `cap` is 0 or above `MAX_CAPACITY`; else `OutOfMemory`.
///
/// Cost: O(`cap`).
pub fn slot_pair<T: Drop>(alloc: Global, cap: usize) -> Result<(SlotOut<T>, SlotIn<T>), RingFault>
    ensures slots { IfOk result (λ pair. AreSlots pair.0 pair.1) }
    ensures ungiven { IfOk result (λ pair. given pair.0 ≡ []) }
    ensures free { IfOk result (λ pair. slots_free pair.0 ≡ cap) }
    ensures room { IfOk result (λ pair. slots_room pair.0 ≡ cap) }
    ensures untaken { IfOk result (λ pair. taken pair.1 ≡ []) }
    ensures left { IfOk result (λ pair. slots_left pair.1 ≡ []) }
    ensures bad { (result ≡ Err RingFault.BadCapacity) ↔ IsBadCapacity cap }
    ensures good { result ≢ Err RingFault.BadCapacity → IsCapacity cap }
{
    if !is_capacity(cap) {
        return Err(RingFault::BadCapacity);
    }
    let (producer, consumer) = RingBuffer::new(alloc, cap)?;
    Ok((SlotOut { producer }, SlotIn { consumer }))
}

/// Looks at both ends of one ring at once: the values taken, and then those left, are the values given, and the first
/// end knows of all the room that those left do not take. It gives and takes nothing.
///
/// Cost: no memory; O(1).
pub fn slots_together<T>(out: &mut SlotOut<T>, inlet: &mut SlotIn<T>)
    requires { AreSlots out.old inlet.old }
    ensures out { SameSlotOut out.old out.new }
    ensures given { given out.new ≡ given out.old }
    ensures free { slots_free out.old ≤ slots_free out.new }
    ensures inlet { SameSlotIn inlet.old inlet.new }
    ensures taken { taken inlet.new ≡ taken inlet.old }
    ensures left { IsPrefix (slots_left inlet.old) (slots_left inlet.new) }
    ensures slots { AreSlots out.new inlet.new }
    ensures whole { taken inlet.new ++ slots_left inlet.new ≡ given out.new }
    ensures room { slots_room out.old ≤ slots_free out.new + length (slots_left inlet.new) }
{
    out.producer.slots_beside(&mut inlet.consumer);
    inlet.consumer.slots_beside(&mut out.producer);
}
