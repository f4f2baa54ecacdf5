ghost use Rattle.std.specs.Prelude.{◌≡◌, ◌<◌, ◌&&◌, true, false, not, cond, length, get_or, slice_get, IfSome, IfNone};
ghost use Rattle.std.specs.List.{IsDistinct, list_any};
ghost use Rattle.std.specs.Ordering.{is_gt};
ghost use Rattle.pg_term.specs.Same.{same_atom, atom_cmp};
ghost use Rattle.pg_step.specs.Nodes.{greatest};
ghost use Rattle.pg_node_opens.specs.Places.{ArePlaces, name_at, live_in};

use pg_term::Atom;

/// The place of the greatest live node.
pub fn greatest_place(names: &[Atom], lost: &[bool]) -> usize
    requires apart { IsDistinct same_atom names.now }
    requires places { ArePlaces names.now lost.now }
    ensures within { result < length names.now }
    ensures counts { get_or lost.now result false ≡ false }
    ensures greatest { name_at names.now result ≡ greatest (live_in names.now lost.now) }
{
    let mut best = 0;
    for place in 1..names.len() {
        best = greater(names, lost, best, place);
    }
    best
}

/// The place of two whose node is greater, where the second counts.
fn greater(names: &[Atom], lost: &[bool], best: usize, place: usize) -> usize
    requires best { best < length names.now }
    requires place { place < length names.now }
    requires flags { length lost.now ≡ length names.now }
    ensures { result ≡ cond (not (get_or lost.now place false) && is_gt (atom_cmp (name_at names.now place) (name_at names.now best))) place best }
{
    if !lost[place] && names[place].cmp(&names[best]).is_gt() {
        place
    } else {
        best
    }
}

/// The place of a name.
pub fn place_of_atom(names: &[Atom], name: &Atom) -> Option<usize>
    ensures none { IfNone result (list_any (same_atom name.now) names.now ≡ false) }
    ensures within { IfSome result (λ place. place < length names.now) }
    ensures some { IfSome result (λ place. IfSome (slice_get names.now place) (λ other. same_atom name.now other ≡ true)) }
{
    for (place, other) in names.iter().enumerate() {
        if name == other {
            return Some(place);
        }
    }
    None
}
