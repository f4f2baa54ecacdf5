ghost use Rattle.std.proofs.Math.Nat.{le_refl};
ghost use Rattle.std.specs.Prelude.{◌≡◌, ◌+◌, ◌<◌, ◌≤◌, length, take};
ghost use Rattle.pg_ring.specs.Ends.{Sends, bytes_free};
ghost use Rattle.pg_ring.specs.EndsLaws.{Sends-rests, Sends-composes, Sends-agrees};

use crate::Link;
use rtrb::Producer;

/// The end of a ring between threads where bytes are put. It can move to a thread of its own.
#[derive(Drop)]
pub struct RingOut {
    pub(crate) producer: Producer<u8>,
}

/// The bytes are sent, after those that were sent before. A move ends where the ring is found full, while the other
/// end may be making room. One atomic store a call, whatever the number of bytes.
impl Link for RingOut {
    ghost accepts = { Sends };

    // How many is known by what the end finds, `free` and `full`.
    ghost moves = { λ end offered count. count ≤ offered };

    fn put(&mut self, bytes: &[u8]) -> usize
        ensures within { result ≤ length bytes.now }
        ensures moved { Sends self.old (take result bytes.now) self.new }
        ensures many { result ≤ length bytes.now }
        // Room that is known is used, and the move ends early only at a full ring.
        ensures free { bytes_free self.old ≤ bytes_free self.new + result }
        ensures full { result < length bytes.now → bytes_free self.new ≡ 0 }
    {
        if bytes.is_empty() {
            return 0;
        }
        let (sent, _) = self.producer.push_partial_slice(bytes);
        sent.len()
    }

    ghost rests = { Sends-rests };

    ghost composes = { Sends-composes };

    ghost agrees = { Sends-agrees };

    ghost idles = { λ end. le_refl 0 };
}
