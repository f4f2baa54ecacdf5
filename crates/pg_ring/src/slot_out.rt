ghost use Rattle.std.specs.Prelude.{◌≡◌, ◌+◌, ◌<◌, ◌≤◌, [], ◌∷◌, ◌++◌, IsOk, OnOk, OnErr, IfErr};
ghost use Rattle.pg_ring.specs.Slots.{SameSlotOut, given, slots_free};

use rtrb::{Producer, PushError};

/// The end of a ring of values where they are given. It can move to a thread of its own.
#[derive(Drop)]
pub struct SlotOut<T> {
    pub(crate) producer: Producer<T>,
}

impl<T> SlotOut<T> {
    /// Gives a value, after those that were given before. It never waits.
    ///
    /// Errors: the value itself, where the ring is found full; then nothing was given.
    ///
    /// Cost: no memory; O(1).
    pub fn give(&mut self, value: T) -> Result<(), T>
        ensures same { SameSlotOut self.old self.new }
        ensures ok { OnOk result (given self.new ≡ given self.old ++ value ∷ []) }
        ensures free { OnOk result (slots_free self.old ≤ slots_free self.new + 1) }
        ensures back { IfErr result (λ back. back ≡ value) }
        ensures err { OnErr result (given self.new ≡ given self.old) }
        ensures full { OnErr result (slots_free self.new ≡ 0) }
        ensures succeeds { 0 < slots_free self.old → IsOk result }
    {
        match self.producer.push(value) {
            Ok(()) => Ok(()),
            Err(PushError::Full(back)) => Err(back),
        }
    }
}
