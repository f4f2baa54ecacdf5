ghost use Rattle.std.specs.Prelude.{◌≡◌, ◌<◌, ◌≤◌, [], ◌++◌, length, take, drop, min};
ghost use mathlib.Core.List.{IsPrefix};
ghost use Rattle.pg_ring.specs.Ends.{Receives, bytes_left, IsSettled};
ghost use Rattle.pg_ring.specs.EndsLaws.{Receives-rests, Receives-composes, Receives-agrees};

use crate::Inlet;
use rtrb::Consumer;

/// The end of a ring between threads where bytes are taken. It can move to a thread of its own.
#[derive(Drop)]
pub struct RingIn {
    pub(crate) consumer: Consumer<u8>,
    // Set by `together`: the next `take` gives what was found there and does not look for more, since
    // only with both ends in hand is it known that there is no more.
    pub(crate) settled: bool,
}

/// The next bytes are received. A move ends where the ring is found empty, while the other end may be
/// sending more; right after `together` it ends where what was left then ends. One atomic store a
/// call, whatever the number of bytes.
impl Inlet for RingIn {
    ghost gives = { Receives };

    // How many is known by what the end finds, `known`, `empty` and `settled`.
    ghost moves = { λ end asked count. count ≤ asked };

    fn take(&mut self, into: &mut [u8]) -> usize
        ensures within { result ≤ length into.old }
        ensures moved { Receives self.old (take result into.new) self.new }
        ensures others { drop result into.new ≡ drop result into.old }
        ensures many { result ≤ length into.old }
        // The bytes that are known to be in the ring come first.
        ensures known { IsPrefix (bytes_left self.old) (take result into.new ++ bytes_left self.new) }
        ensures empty { ¬ IsSettled self.old → result < length into.old → bytes_left self.new ≡ [] }
        ensures settled { IsSettled self.old → result ≡ min (length (bytes_left self.old)) (length into.old) }
        ensures unsettled { ¬ IsSettled self.new }
    {
        let most = if self.settled {
            into.len().min(self.consumer.cached_slots())
        } else {
            into.len()
        };
        self.settled = false;
        self.consumer.pop_partial_slice(&mut into[..most])
    }

    ghost rests = { Receives-rests };

    ghost composes = { Receives-composes };

    ghost agrees = { Receives-agrees };
}
