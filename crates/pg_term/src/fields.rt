ghost use Rattle.std.specs.Prelude.{◌≡◌, length};
ghost use Rattle.std.specs.Hash as fed;
ghost use Rattle.pg_term.specs.Arity as by_arity;

use crate::items::Items;
use std::cmp::Ordering;
use std::hash::{Hash, Hasher};
use std::marker::Model;

/// The elements of a tuple, of which contracts see the list. Of two tuples that with fewer elements is less, and then
/// the first two elements that differ decide.
#[derive(Debug, Drop)]
pub struct Fields<T> {
    elements: Items<T>,
}

impl<T> Model for Fields<T> {
    ghost use Rattle.std.specs.Prelude.{List};
    ghost use Rattle.std.specs.Coded.{coded_list};

    ghost Value = { List T };

    ghost coded = { coded_list T.code };

    ghost view = { λ inside. inside.elements };
}

impl<T> Fields<T> {
    /// These elements.
    ///
    /// Cost: no memory.
    pub fn from_vec(elements: Vec<T>) -> Fields<T>
        ensures { result ≡ elements.items }
    {
        Fields {
            elements: Items::from_vec(elements),
        }
    }

    /// Gives the vector back.
    ///
    /// Cost: no memory.
    pub fn into_vec(self) -> Vec<T>
        ensures { result.items ≡ self }
    {
        let Fields { elements } = self;
        elements.into_vec()
    }

    /// The elements in order.
    ///
    /// Cost: no memory.
    pub fn as_slice(&self) -> &[T]
        ensures { result.now ≡ self.now }
    {
        self.elements.as_slice()
    }

    /// How many elements there are.
    ///
    /// Cost: no memory.
    pub fn len(&self) -> usize
        ensures { result ≡ length self.now }
    {
        self.elements.len()
    }
}

impl<T: Hash> Hash for Fields<T> {
    ghost hash_input = { fed.slice T.hash_input };

    ghost respects_eq = { (by_arity.arity_alike (record { fed = T.respects_eq })).fed };

    fn hash<H: Hasher>(&self, state: &mut H) {
        self.as_slice().hash(state);
    }
}

impl<T: Ord> Ord for Fields<T> {
    ghost cmp = { by_arity.arity_cmp T.cmp };

    ghost total = { by_arity.arity_total T.total };

    ghost matches_partial_cmp = { by_arity.arity_agrees T.matches_partial_cmp };

    ghost matches_eq = { by_arity.arity_ties T.cmp T.matches_eq };

    fn cmp(&self, other: &Self) -> Ordering {
        self.len()
            .cmp(&other.len())
            .then_with(|| self.as_slice().cmp(other.as_slice()))
    }
}

impl<T: PartialOrd> PartialOrd for Fields<T> {
    ghost partial_cmp = { by_arity.arity_partial_cmp T.partial_cmp };

    ghost laws = { by_arity.arity_po T.PartialOrd.laws };

    fn partial_cmp(&self, other: &Self) -> Option<Ordering> {
        match self.len().cmp(&other.len()) {
            Ordering::Equal => self.as_slice().partial_cmp(other.as_slice()),
            unequal => Some(unequal),
        }
    }
}

impl<T: Eq> Eq for Fields<T> {
    ghost laws = { by_arity.arity_equiv T.Eq.laws };
}

impl<T: PartialEq> PartialEq for Fields<T> {
    ghost eq = { by_arity.arity_eq T.eq };

    ghost laws = { by_arity.arity_per T.laws };

    fn eq(&self, other: &Self) -> bool {
        self.len() == other.len() && self.as_slice() == other.as_slice()
    }
}
