//! The clocks of the nodes of a cluster, as their threads tell them.

use crossbeam_utils::CachePadded;
use pg_cluster_judges::Gate;
use std::alloc::{AllocError, Global};
use std::sync::Arc;
use std::sync::atomic::{AtomicU32, Ordering};

/// A clock that stands here is full: no further event happens at its node.
const FULL: u32 = 1 << 30;

/// The clocks of the nodes of a cluster as they were when each began its turn. Each node's thread writes a word of its own, through the
/// gate that this is; who holds a copy reads all. No clause says what is read.
#[derive(Drop)]
pub struct Clocks {
    words: Arc<Vec<CachePadded<AtomicU32>>, Global>,
}

impl Clocks {
    /// Those of so many nodes, which stand at 0.
    ///
    /// Errors: `AllocError`.
    ///
    /// Cost: memory for a word of each node.
    pub fn new(alloc: Global, nodes: usize) -> Result<Clocks, AllocError> {
        let mut words = Vec::new(alloc);
        for _ in 0..nodes {
            words.push(CachePadded::new(AtomicU32::new(0)))?;
        }
        match Arc::new(alloc, words) {
            Ok(words) => Ok(Clocks { words }),
            Err(failed) => {
                drop(failed);
                Err(AllocError)
            }
        }
    }

    /// Another copy, of the same words.
    ///
    /// Errors: `AllocError`.
    ///
    /// Cost: no memory.
    pub fn share(&self) -> Result<Clocks, AllocError> {
        let words = Arc::try_clone(&self.words)?;
        Ok(Clocks { words })
    }

    /// Whether one of the clocks comes within so much of 1,073,741,824, where it is full.
    ///
    /// Cost: no memory; O(n) in the nodes.
    pub fn are_full(&self, margin: u32) -> bool {
        let first = FULL.saturating_sub(margin);
        self.words
            .iter()
            .any(|word| word.load(Ordering::SeqCst) >= first)
    }
}

impl Gate for Clocks {
    fn pass(&self, node: usize, _turn: u64, clock: u32) {
        if let Some(word) = self.words.get(node) {
            word.store(clock, Ordering::SeqCst);
        }
    }
}
