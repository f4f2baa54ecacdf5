//! The rings between the nodes.

ghost use Rattle.std.specs.Prelude.{◌≡◌, ◌<◌, IfOk, OnOk, vec_len};
ghost use Rattle.pg_cluster.specs.Rows.{HaveRowRoom, AreJoined, RowsWired};

use pg_cluster_judges::Peer;
use pg_ring::{RingFault, RingIn, RingOut, ring_pair};
use std::alloc::Global;

/// The links of a node to its peers, by their places.
pub(crate) type Row = Vec<Peer<RingOut, RingIn>>;

/// Joins node i, which has links to those before node j, to node j, which has links to those before node i.
fn connect(
    alloc: Global,
    rows: &mut Vec<Row>,
    i: usize,
    j: usize,
    ring: usize,
) -> Result<(), RingFault>
    requires { (i < j) × (j < vec_len rows.old) }
    ensures len { vec_len rows.new ≡ vec_len rows.old }
    ensures joined { OnOk result (AreJoined rows.old.items rows.new.items i j) }
    ensures room { OnOk result (HaveRowRoom ring rows.old.items → HaveRowRoom ring rows.new.items) }
{
    let (to_j, at_j) = ring_pair(alloc, ring)?;
    let (to_i, at_i) = ring_pair(alloc, ring)?;
    let Ok(()) = rows[i].push(Peer {
        link: to_j,
        inlet: at_i,
    }) else {
        return Err(RingFault::OutOfMemory);
    };
    let Ok(()) = rows[j].push(Peer {
        link: to_i,
        inlet: at_j,
    }) else {
        return Err(RingFault::OutOfMemory);
    };
    Ok(())
}

/// The links of each of so many nodes to each other, with rings of so many bytes.
///
/// Errors: those of `ring_pair`.
pub(crate) fn wire_all(alloc: Global, nodes: usize, ring: usize) -> Result<Vec<Row>, RingFault>
    ensures wired { IfOk result (λ rows. RowsWired nodes rows.items) }
    ensures room { IfOk result (λ rows. HaveRowRoom ring rows.items) }
{
    let mut rows = Vec::with_capacity(alloc, nodes)?;
    for _ in 0..nodes {
        rows.push_reserved(Vec::new(alloc));
    }
    for j in 0..nodes {
        for i in 0..j {
            connect(alloc, &mut rows, i, j, ring)?;
        }
    }
    Ok(rows)
}
