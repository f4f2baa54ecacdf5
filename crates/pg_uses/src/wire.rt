//! A link of one's own: a queue of bytes in memory that counts what crossed it.

ghost use Rattle.pg_cluster.specs.PgRing.MemRing.{Grows, HasRoomFor, HasUnread, Loses};
ghost use Rattle.pg_cluster.specs.PgRing.MemRingLaws.{Grows-agrees, Grows-composes, Grows-rests, HasRoomFor-idles};
ghost use Rattle.pg_cluster.specs.PgRing.MemRingLaws.{Loses-agrees, Loses-composes, Loses-rests};

use pg_cluster::{Inlet, Link, MemRing};
use std::alloc::Global;

/// A queue of bytes in memory, and how many crossed it.
#[derive(Drop)]
pub(crate) struct Wire {
    ring: MemRing,
    crossed: u64,
}

impl Wire {
    /// One that nothing crossed.
    pub(crate) fn new(alloc: Global) -> Option<Wire> {
        let ring = MemRing::new(alloc, 64).ok()?;
        Some(Wire { ring, crossed: 0 })
    }

    /// How many bytes crossed it.
    pub(crate) fn crossed(&self) -> u64 {
        self.crossed
    }
}

impl Link for Wire {
    ghost accepts = { λ a bytes b. Grows a.ring bytes b.ring };

    ghost moves = { λ a offered count. HasRoomFor a.ring offered count };

    fn put(&mut self, bytes: &[u8]) -> usize {
        self.ring.put(bytes)
    }

    ghost rests = { λ a. Grows-rests a.ring };

    ghost composes = { λ a b c xs ys. Grows-composes a.ring b.ring c.ring xs ys };

    ghost agrees = { λ a b xs ys. Grows-agrees a.ring b.ring xs ys };

    ghost idles = { λ a. HasRoomFor-idles a.ring };
}

impl Inlet for Wire {
    ghost gives = { λ a bytes b. Loses a.ring bytes b.ring };

    ghost moves = { λ a asked count. HasUnread a.ring asked count };

    fn take(&mut self, into: &mut [u8]) -> usize {
        let count = self.ring.take(into);
        self.crossed = self.crossed.saturating_add(count as u64);
        count
    }

    ghost rests = { λ a. Loses-rests a.ring };

    ghost composes = { λ a b c xs ys. Loses-composes a.ring b.ring c.ring xs ys };

    ghost agrees = { λ a b xs ys. Loses-agrees a.ring b.ring xs ys };
}
