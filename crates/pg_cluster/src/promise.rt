//! What a node's thread promises.

use crate::runs::Run;
use pg_cluster_judges::{IndexTable, Ran};
use pg_ring::{RingIn, RingOut};
use rand_core::Rng;
use std::snapshot::Snapshot;
use std::thread::{Promise, PromisedHandle};

/// A node that has run.
pub(crate) type NodeRan<K> = Ran<IndexTable, RingOut, RingIn, K>;

/// What a thread promises: that it ran this node, for at most so many turns.
#[derive(Drop)]
pub struct RanFrom<K: Rng + Drop> {
    pub run: Snapshot<Run<K>>,
    pub limit: u64,
}

impl<K: Rng + Drop> Promise<NodeRan<K>> for RanFrom<K> {
    ghost use Rattle.pg_cluster.specs.Promises.{RanAs};

    ghost kept_by = { λ p r. RanAs p.run.value p.limit r };
}

/// The thread of a node.
pub(crate) type NodeThread<K> = PromisedHandle<NodeRan<K>, RanFrom<K>>;
