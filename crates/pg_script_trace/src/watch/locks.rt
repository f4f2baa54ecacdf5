//! Who holds which lock, as it was seen last.

use crate::texts::term_text;
use pg_term::{Reference, Term};
use std::alloc::{AllocError, Global};

/// The name of a lock, and its text.
#[derive(Drop)]
pub(crate) struct Name {
    pub(crate) term: Term,
    pub(crate) text: String,
}

/// The locks of the names that commands came in for: no other is ever held.
#[derive(Drop)]
pub(crate) struct Locks {
    pub(crate) names: Vec<Name>,
    // For each name who holds its lock, by the places of the nodes.
    holders: Vec<Vec<Option<Reference>>>,
    nodes: usize,
}

impl Locks {
    /// No lock of so many nodes is known.
    pub(crate) fn new(alloc: Global, nodes: usize) -> Locks {
        Locks {
            names: Vec::new(alloc),
            holders: Vec::new(alloc),
            nodes,
        }
    }

    /// The lock of this name may be held from now on.
    pub(crate) fn know(&mut self, alloc: Global, name: &Term) -> Result<(), AllocError> {
        if self.is_known(name) {
            return Ok(());
        }
        self.add_holders(alloc)?;
        let text = term_text(alloc, name)?;
        let term = name.copy(alloc)?;
        Ok(self.names.push(Name { term, text })?)
    }

    fn is_known(&self, name: &Term) -> bool {
        for known in self.names.iter() {
            if known.term == *name {
                return true;
            }
        }
        false
    }

    /// One lock more, which no node has granted.
    fn add_holders(&mut self, alloc: Global) -> Result<(), AllocError> {
        let mut holders = Vec::with_capacity(alloc, self.nodes)?;
        for _ in 0..self.nodes {
            holders.push(None)?;
        }
        Ok(self.holders.push(holders)?)
    }

    /// The text of the name at a place.
    pub(crate) fn text(&self, place: usize) -> &str {
        match self.names.get(place) {
            Some(name) => name.text.as_str(),
            None => "",
        }
    }

    /// Who holds the lock of the name at a place, at a node, as it was seen last.
    pub(crate) fn holder(&self, place: usize, node: usize) -> Option<&Reference> {
        self.holders.get(place)?.get(node)?.as_ref()
    }

    /// Who holds the lock of the name at a place, at a node, is this.
    pub(crate) fn set_holder(
        &mut self,
        place: usize,
        node: usize,
        holder: Option<&Reference>,
    ) -> Result<(), AllocError> {
        let Some(row) = self.holders.get_mut(place) else {
            return Ok(());
        };
        let Some(held) = row.get_mut(node) else {
            return Ok(());
        };
        *held = copied(holder)?;
        Ok(())
    }
}

/// Whether two holders are the same.
pub(crate) fn is_same(one: Option<&Reference>, other: Option<&Reference>) -> bool {
    match one {
        Some(one) => match other {
            Some(other) => *one == *other,
            None => false,
        },
        None => other.is_none(),
    }
}

fn copied(reference: Option<&Reference>) -> Result<Option<Reference>, AllocError> {
    match reference {
        Some(reference) => Ok(Some(reference.copy()?)),
        None => Ok(None),
    }
}
