ghost use Rattle.std.specs.Prelude.{◌≡◌, ◌≤◌, length, IfOk};
ghost use Rattle.std.specs.Cmp.{partial_order_from_own_ties, partial_equiv_from_equiv};
ghost use Rattle.std.specs.Cmp.Rules.{comparing, hashing};
ghost use Rattle.std.specs.Ordering.{as_partial_cmp};
ghost use Rattle.std.proofs.Common.{rules};
ghost use Rattle.pg_term.specs.RefParts.{ref_of, ref_eq, ref_cmp, ref_hash};

use crate::atom::Atom;
use crate::fault::TermFault;
use std::alloc::AllocError;
use std::cmp::Ordering;
use std::hash::{Hash, Hasher};
use std::marker::Model;

/// A reference: its node, a creation and one to three words (NEWER_REFERENCE_EXT of the External Term Format). They
/// are compared by node, creation and words from the first.
#[derive(Debug, Drop)]
pub struct Reference {
    node: Atom,
    creation: u32,
    words: [u32; 3],
    count: u8,
}

impl Model for Reference {
    ghost use Rattle.std.specs.Prelude.{◌≤◌, take};
    ghost use Rattle.pg_term.specs.RefParts.{RefParts};

    ghost Value = { RefParts };

    ghost view = { λ a. record { node = a.node; creation = a.creation; words = take a.count a.words } };

    ghost invariant = { λ a. (1 ≤ a.count) × (a.count ≤ 3) };
}

impl Reference {
    /// The reference of these parts.
    ///
    /// Errors: `BadReference` unless there are one to three words.
    ///
    /// Cost: no memory.
    pub fn new(node: Atom, creation: u32, words: &[u32]) -> Result<Reference, TermFault>
        ensures { result ≡ ref_of node creation words.now }
    {
        let (count, words) = match words {
            [a] => (1, [*a, 0, 0]),
            [a, b] => (2, [*a, *b, 0]),
            [a, b, c] => (3, [*a, *b, *c]),
            _ => return Err(TermFault::BadReference),
        };
        Ok(Reference {
            node,
            creation,
            words,
            count,
        })
    }

    /// The node that made it.
    ///
    /// Cost: no memory.
    pub fn node(&self) -> &Atom
        ensures { result.now ≡ self.now.node }
    {
        &self.node
    }

    /// The creation of that node.
    ///
    /// Cost: no memory.
    pub fn creation(&self) -> u32
        ensures { result ≡ self.now.creation }
    {
        self.creation
    }

    /// Its one to three words.
    ///
    /// Cost: no memory.
    pub fn words(&self) -> &[u32]
        ensures value { result.now ≡ self.now.words }
        ensures some { 1 ≤ length result.now }
        ensures few { length result.now ≤ 3 }
    {
        &self.words[..self.count as usize]
    }

    /// An equal reference.
    ///
    /// Errors: `AllocError`.
    ///
    /// Cost: that of its node's copy.
    pub fn copy(&self) -> Result<Reference, AllocError>
        ensures { IfOk result (λ r. r ≡ self.now) }
    {
        Ok(Reference {
            node: self.node.copy()?,
            creation: self.creation,
            words: self.words,
            count: self.count,
        })
    }
}

impl PartialEq for Reference {
    ghost eq = { ref_eq };

    ghost laws = { Prim.search (comparing, rules) };

    fn eq(&self, other: &Reference) -> bool {
        self.node() == other.node()
            && self.creation() == other.creation()
            && self.words() == other.words()
    }
}

impl Eq for Reference {
    ghost laws = { Prim.search (comparing, rules) };
}

impl PartialOrd for Reference {
    ghost partial_cmp = { as_partial_cmp ref_cmp };

    ghost laws = { partial_order_from_own_ties (Prim.search (comparing, rules)) (Prim.search (comparing, rules)) };

    fn partial_cmp(&self, other: &Reference) -> Option<Ordering> {
        Some(self.cmp(other))
    }
}

impl Ord for Reference {
    ghost cmp = { ref_cmp };

    ghost total = { Prim.search (comparing, rules) };

    ghost matches_partial_cmp = { Prim.search (comparing, rules) };

    ghost matches_eq = { Prim.search (comparing, rules) };

    fn cmp(&self, other: &Reference) -> Ordering {
        self.node()
            .cmp(other.node())
            .then(self.creation().cmp(&other.creation()))
            .then(self.words().cmp(other.words()))
    }
}

impl Hash for Reference {
    ghost hash_input = { ref_hash };

    ghost respects_eq = { Prim.search (hashing, rules) };

    fn hash<H: Hasher>(&self, state: &mut H) {
        self.node().hash(state);
        self.creation().hash(state);
        self.words().hash(state);
    }
}
