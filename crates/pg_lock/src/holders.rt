ghost use Rattle.std.specs.Prelude.{◌≡◌, length};
ghost use Rattle.std.specs.List.Sorted.{IsSearchInRange};
ghost use Rattle.pg_term.specs.Same.{term_cmp};
ghost use Rattle.pg_lock.specs.Holders.{AreSorted, IsPlace};
ghost use Rattle.pg_lock.specs.Locks.{is_holder, of_parts};
ghost use Rattle.std.specs.Option.{option_copied};

use pg_term::{Atom, Reference, Term};
use std::cmp::Ordering;

/// A name and the holder of its lock.
pub type Holder = (Term, Reference);

/// Where a name is among holders that are sorted by their names; where it is not among them, `Err` of where it would
/// be.
pub fn place_among(holders: &[Holder], name: &Term) -> Result<usize, usize>
    requires { AreSorted holders.now }
    ensures bound { IsSearchInRange result (length holders.now) }
    ensures place { IsPlace holders.now name.now result }
{
    holders.binary_search_by(|holder| by_name(holder, name))
}

/// How the name of a holder compares with a name.
fn by_name(holder: &Holder, name: &Term) -> Ordering
    ensures { result ≡ term_cmp holder.now.0 name.now }
{
    holder.0.cmp(name)
}

/// Whether the reference is the holder of a name that is held so.
pub fn is_held_by(holder: Option<&Reference>, reference: &Reference) -> bool
    ensures { result ≡ is_holder (option_copied holder.entry) reference.now }
{
    match holder {
        Some(holder) => holder == reference,
        None => false,
    }
}

/// Whether the reference of these parts is the holder of a name that is held so.
pub fn has_parts(holder: Option<&Reference>, node: &Atom, creation: u32, words: &[u32]) -> bool
    ensures { result ≡ is_holder (option_copied holder.entry) (of_parts node.now creation words.now) }
{
    match holder {
        Some(holder) => {
            holder.node() == node && holder.creation() == creation && holder.words() == words
        }
        None => false,
    }
}
