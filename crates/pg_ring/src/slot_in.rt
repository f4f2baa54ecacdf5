ghost use Rattle.std.specs.Prelude.{◌≡◌, ◌<◌, [], ◌∷◌, ◌++◌, length, IsSome, IfSome, IfNone};
ghost use mathlib.Core.List.{IsPrefix};
ghost use Rattle.pg_ring.specs.Slots.{SameSlotIn, taken, slots_left};

use rtrb::Consumer;

/// The end of a ring of values where they are taken. It can move to a thread of its own.
#[derive(Drop)]
pub struct SlotIn<T> {
    pub(crate) consumer: Consumer<T>,
}

impl<T> SlotIn<T> {
    /// Takes the next value, or `None` where the ring is found empty; then nothing was taken. It never waits.
    ///
    /// Cost: no memory; O(1).
    pub fn take_one(&mut self) -> Option<T>
        ensures same { SameSlotIn self.old self.new }
        ensures some { IfSome result (λ value. taken self.new ≡ taken self.old ++ value ∷ []) }
        // The values that are known to be in the ring come first.
        ensures known { IfSome result (λ value. IsPrefix (slots_left self.old) (value ∷ slots_left self.new)) }
        ensures none { IfNone result (taken self.new ≡ taken self.old) }
        ensures empty { IfNone result (slots_left self.new ≡ []) }
        ensures succeeds { 0 < length (slots_left self.old) → IsSome result }
    {
        self.consumer.pop().ok()
    }
}
