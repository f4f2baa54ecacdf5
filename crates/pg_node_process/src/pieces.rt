//! How bytes of peers go into a node and out of it: a portion of a body is an inlet, a parcel a link.

use bytes::BytesMut;
use pg_ring::{Inlet, Link};
use std::alloc::Global;

/// Bytes of a peer on their way into a node.
#[derive(Clone, Copy)]
pub struct Portion<'a> {
    /// Those that were not taken yet.
    pub rest: &'a [u8],
}

/// The next bytes are given, as many as there are places.
impl<'a> Inlet for Portion<'a> {
    ghost use Rattle.std.specs.Prelude.{◌≡◌, min, length};
    ghost use Rattle.pg_node_process.specs.Pieces.{Yields, Yields-agrees, Yields-composes, Yields-rests};

    ghost gives = { Yields };

    ghost moves = { λ a asked count. count ≡ min asked (length a.rest.now) };

    fn take(&mut self, into: &mut [u8]) -> usize {
        let count = self.rest.len().min(into.len());
        into[..count].copy_from_slice(&self.rest[..count]);
        self.rest = &self.rest[count..];
        count
    }

    ghost rests = { Yields-rests };

    ghost composes = { Yields-composes };

    ghost agrees = { Yields-agrees };
}

/// Bytes for a peer on their way out of a node.
#[derive(Drop)]
pub struct Parcel {
    bytes: BytesMut,
}

impl Parcel {
    ghost use Rattle.std.specs.Prelude.{◌≡◌, ◌≤◌, ◌+◌, [], length};

    /// One without bytes.
    ///
    /// Cost: no memory.
    pub fn new(alloc: Global) -> Parcel
        ensures { result.bytes.items ≡ [] }
    {
        Parcel {
            bytes: BytesMut::new(alloc),
        }
    }

    /// The bytes in it.
    ///
    /// Cost: no memory.
    pub fn bytes(&self) -> &[u8]
        ensures { result.now ≡ self.now.bytes.items }
    {
        self.bytes.as_slice()
    }

    /// Lets them go.
    ///
    /// Cost: no memory, and what was taken is kept for what comes.
    pub fn clear(&mut self)
        ensures items { self.new.bytes.items ≡ [] }
        ensures room { length self.old.bytes.items + self.old.bytes.spare ≤ self.new.bytes.spare }
    {
        self.bytes.clear();
    }
}

/// All bytes are taken in; none, where there is no memory for them.
impl Link for Parcel {
    ghost use Rattle.pg_node_process.specs.Parcels.{Gathers, Gathers-agrees, Gathers-composes, Gathers-rests, HasMemoryFor, HasMemoryFor-idles};

    ghost accepts = { Gathers };

    ghost moves = { HasMemoryFor };

    fn put(&mut self, bytes: &[u8]) -> usize {
        match self.bytes.extend_from_slice(bytes) {
            Ok(()) => bytes.len(),
            Err(_) => 0,
        }
    }

    ghost rests = { Gathers-rests };

    ghost composes = { Gathers-composes };

    ghost agrees = { Gathers-agrees };

    ghost idles = { HasMemoryFor-idles };
}
