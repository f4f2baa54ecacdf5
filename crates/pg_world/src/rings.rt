//! The rings from one node to its peers.

ghost use Rattle.std.specs.Prelude.{◌≡◌, ◌-◌, [], IfOk, map, replicate};
ghost use Rattle.std.specs.List.{All};
ghost use Rattle.pg_world_packets.specs.PgRing.Capacity.{IsCapacity};
ghost use Rattle.pg_world.specs.Rooms.{HaveRoomFor};
ghost use Rattle.pg_world.specs.Crossings.{bytes_of};

use pg_world_packets::MemRing;
use std::alloc::{AllocError, Global};

/// The rings from one node to each of its peers.
#[derive(Drop)]
pub(crate) struct Rings {
    // By the places of the peers.
    pub(crate) rings: Vec<MemRing>,
}

impl Rings {
    /// Empty rings to so many peers, each with room for so many bytes.
    ///
    /// Errors: `AllocError`.
    fn new(alloc: Global, peers: usize, capacity: usize) -> Result<Rings, AllocError>
        requires capacity { IsCapacity capacity }
        ensures bytes { IfOk result (λ row. bytes_of row ≡ replicate peers []) }
        ensures sized { IfOk result (HaveRoomFor capacity) }
    {
        let mut rings = Vec::with_capacity(alloc, peers)?;
        for _ in 0..peers {
            match MemRing::new(alloc, capacity) {
                Ok(ring) => rings.push(ring)?,
                Err(_) => return Err(AllocError),
            }
        }
        Ok(Rings { rings })
    }
}

/// Empty rings from each of so many nodes to each other, each with room for so many bytes.
///
/// Errors: `AllocError`.
pub(crate) fn rings_between(
    alloc: Global,
    nodes: usize,
    capacity: usize,
) -> Result<Vec<Rings>, AllocError>
    requires capacity { IsCapacity capacity }
    ensures bytes { IfOk result (λ rings. map bytes_of rings.items ≡ replicate nodes (replicate (nodes - 1) [])) }
    ensures sized { IfOk result (λ rings. All (HaveRoomFor capacity) rings.items) }
{
    let mut rings = Vec::with_capacity(alloc, nodes)?;
    for _ in 0..nodes {
        rings.push(Rings::new(alloc, nodes - 1, capacity)?)?;
    }
    Ok(rings)
}
