ghost use Rattle.std.specs.Prelude.{◌≡◌, length};
ghost use Rattle.std.specs.Cmp.Lexicographic as by_element;
ghost use Rattle.std.specs.Hash as fed;

use std::cmp::Ordering;
use std::hash::{Hash, Hasher};
use std::marker::Model;

/// The elements of a list, or the bytes of a binary, in a vector; contracts see the list of them. The first two that
/// differ decide which of two is less, and what the other begins with is less than it.
#[derive(Debug, Drop)]
pub struct Items<T> {
    elements: Vec<T>,
}

impl<T> Model for Items<T> {
    ghost use Rattle.std.specs.Prelude.{List};
    ghost use Rattle.std.specs.Coded.{coded_list};

    ghost Value = { List T };

    ghost coded = { coded_list T.code };

    ghost view = { λ inside. inside.elements.items };
}

impl<T> Items<T> {
    /// These elements.
    ///
    /// Cost: no memory.
    pub fn from_vec(elements: Vec<T>) -> Items<T>
        ensures { result ≡ elements.items }
    {
        Items { elements }
    }

    /// Gives the vector back.
    ///
    /// Cost: no memory.
    pub fn into_vec(self) -> Vec<T>
        ensures { result.items ≡ self }
    {
        let Items { elements } = self;
        elements
    }

    /// The elements in order.
    ///
    /// Cost: no memory.
    pub fn as_slice(&self) -> &[T]
        ensures { result.now ≡ self.now }
    {
        self.elements.as_slice()
    }

    /// How many elements there are.
    ///
    /// Cost: no memory.
    pub fn len(&self) -> usize
        ensures { result ≡ length self.now }
    {
        self.elements.len()
    }
}

impl<T: Hash> Hash for Items<T> {
    ghost hash_input = { fed.slice T.hash_input };

    ghost respects_eq = { (fed.items_Alike (record { fed = T.respects_eq })).fed };

    fn hash<H: Hasher>(&self, state: &mut H) {
        self.as_slice().hash(state);
    }
}

impl<T: Ord> Ord for Items<T> {
    ghost cmp = { by_element.slice_cmp T.cmp };

    ghost total = { by_element.lists_total T.total };

    ghost matches_partial_cmp = { by_element.lists_agrees T.matches_partial_cmp };

    ghost matches_eq = { by_element.lists_ties T.cmp T.matches_eq };

    fn cmp(&self, other: &Self) -> Ordering {
        self.as_slice().cmp(other.as_slice())
    }
}

impl<T: PartialOrd> PartialOrd for Items<T> {
    ghost partial_cmp = { by_element.slice_partial_cmp T.partial_cmp };

    ghost laws = { by_element.lists_po T.PartialOrd.laws };

    fn partial_cmp(&self, other: &Self) -> Option<Ordering> {
        self.as_slice().partial_cmp(other.as_slice())
    }
}

impl<T: Eq> Eq for Items<T> {
    ghost laws = { by_element.lists_equiv T.Eq.laws };
}

impl<T: PartialEq> PartialEq for Items<T> {
    ghost eq = { by_element.pointwise T.eq };

    ghost laws = { by_element.lists_per T.laws };

    fn eq(&self, other: &Self) -> bool {
        self.as_slice() == other.as_slice()
    }
}
