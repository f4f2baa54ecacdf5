ghost use Rattle.std.specs.Prelude.{◌≡◌, ◌==◌, ◌≢◌, ◌≤◌, ◌↔◌, [], length, take, drop, IfOk};
ghost use Rattle.pg_ring.specs.Capacity.{IsCapacity, IsBadCapacity};
ghost use Rattle.pg_ring.specs.MemRing.{Grows, Loses, HasRoomFor, HasUnread};
ghost use Rattle.pg_ring.specs.MemRingLaws.{Grows-rests, Grows-composes, Grows-agrees, HasRoomFor-idles};
ghost use Rattle.pg_ring.specs.MemRingLaws.{Loses-rests, Loses-composes, Loses-agrees};

use crate::capacity::is_capacity;
use crate::{Inlet, Link, RingFault};
use circular_buffer::HeapCircularBuffer;
use std::alloc::Global;
use std::marker::Model;

/// A ring in memory, both ends in one value: the bytes that were put and not yet taken.
#[derive(Drop)]
pub struct MemRing {
    bytes: HeapCircularBuffer<u8>,
}

impl Model for MemRing {
    ghost use Rattle.pg_ring.specs.MemRing.{RingBytes, ring_bytes_code};

    ghost Value = { RingBytes };

    ghost coded = { ring_bytes_code };

    ghost view = { λ r. record { unread = r.bytes.items; capacity = r.bytes.capacity } };
}

impl MemRing {
    /// An empty ring with room for `cap` bytes.
    ///
    /// Errors: `BadCapacity` exactly where `cap` is 0 or above `MAX_CAPACITY`; else `OutOfMemory`.
    ///
    /// Cost: O(`cap`).
    pub fn new(alloc: Global, cap: usize) -> Result<MemRing, RingFault>
        ensures unread { IfOk result (λ ring. ring.unread ≡ []) }
        ensures capacity { IfOk result (λ ring. ring.capacity ≡ cap) }
        ensures bad { (result ≡ Err RingFault.BadCapacity) ↔ IsBadCapacity cap }
        ensures good { result ≢ Err RingFault.BadCapacity → IsCapacity cap }
    {
        if !is_capacity(cap) {
            return Err(RingFault::BadCapacity);
        }
        let bytes = HeapCircularBuffer::with_capacity(alloc, cap)?;
        Ok(MemRing { bytes })
    }

    /// Whether no byte is there to be taken.
    ///
    /// Cost: no memory.
    pub fn is_empty(&self) -> bool
        ensures { result ≡ (length self.now.unread == 0) }
    {
        self.bytes.is_empty()
    }
}

/// The bytes are taken in after those that are unread, as many as there is room for. Moves runs.
impl Link for MemRing {
    ghost accepts = { Grows };

    ghost moves = { HasRoomFor };

    fn put(&mut self, bytes: &[u8]) -> usize
        ensures within { result ≤ length bytes.now }
        ensures moved { Grows self.old (take result bytes.now) self.new }
        ensures many { HasRoomFor self.old (length bytes.now) result }
    {
        self.bytes.fill_from_slice(bytes)
    }

    ghost rests = { Grows-rests };

    ghost composes = { Grows-composes };

    ghost agrees = { Grows-agrees };

    ghost idles = { HasRoomFor-idles };
}

/// The first unread bytes are given, as many as there are places. Moves runs.
impl Inlet for MemRing {
    ghost gives = { Loses };

    ghost moves = { HasUnread };

    fn take(&mut self, into: &mut [u8]) -> usize
        ensures within { result ≤ length into.old }
        ensures moved { Loses self.old (take result into.new) self.new }
        ensures others { drop result into.new ≡ drop result into.old }
        ensures many { HasUnread self.old (length into.old) result }
    {
        self.bytes.read_into(into)
    }

    ghost rests = { Loses-rests };

    ghost composes = { Loses-composes };

    ghost agrees = { Loses-agrees };
}
