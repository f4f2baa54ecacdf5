ghost use Rattle.std.specs.Prelude.{◌≡◌, ◌↔◌, ◌<◌, ℕ, Bool, true, false, not, ◌&&◌, ◌||◌, nat_eq, cond};
ghost use Rattle.pg_multicall.specs.Places.{has_of, is_set};

/// How many nodes a set has at most.
pub const MAX_PLACES: usize = 16;

/// Some of the nodes of a set, by their places: one word.
#[derive(Clone, Copy, Debug, PartialEq, Eq)]
pub struct Places {
    // The bit of each place, the lowest first.
    bits: u16,
}

impl Places {
    /// No node.
    ///
    /// Cost: no memory.
    pub fn none() -> Places
        ensures { (other : ℕ) → has_of result other ≡ false }
    {
        Places { bits: 0 }
    }

    /// Whether the node at a place is among them.
    ///
    /// Cost: no memory.
    pub fn has(self, place: usize) -> bool
        ensures has { result ≡ has_of self place }
        ensures within { result ≡ true → place < MAX_PLACES }
    {
        place < MAX_PLACES && (self.bits >> place) & 1 == 1
    }

    /// These, with the node at a place.
    ///
    /// Cost: no memory.
    pub fn with(self, place: usize) -> Places
        requires { place < MAX_PLACES }
        ensures { (other : ℕ) → has_of result other ≡ (nat_eq place other || has_of self other) }
    {
        Places {
            bits: self.bits | (1 << place),
        }
    }

    /// These, without the node at a place.
    ///
    /// Cost: no memory.
    pub fn without(self, place: usize) -> Places
        ensures { (other : ℕ) → has_of result other ≡ (not (nat_eq place other) && has_of self other) }
    {
        if place >= MAX_PLACES {
            return self;
        }
        Places {
            bits: self.bits & !(1 << place),
        }
    }

    /// These, with the node at a place or without it.
    ///
    /// Cost: no memory.
    pub fn with_or_without(self, place: usize, is_among: bool) -> Places
        requires { place < MAX_PLACES }
        ensures { (other : ℕ) → has_of result other ≡ cond (nat_eq place other) is_among (has_of self other) }
    {
        if is_among {
            self.with(place)
        } else {
            self.without(place)
        }
    }

    /// Whether each of them is among others.
    ///
    /// Cost: no memory.
    pub fn are_within(self, others: Places) -> bool
        ensures { (result ≡ true) ↔ ((place : ℕ) → has_of self place ≡ true → has_of others place ≡ true) }
    {
        is_within(self.bits, others.bits)
    }
}

fn is_within(bits: u16, others: u16) -> bool
    ensures { (result ≡ true) ↔ ((place : ℕ) → is_set bits place ≡ true → is_set others place ≡ true) }
{
    bits & !others == 0
}
