//! Walking over the elements of a list, whichever tails it is spelled with: no memory is taken.

ghost use Rattle.std.specs.Prelude.{◌≡◌, ◌<◌, ◌∷◌, ℕ, List, length, Ok};
ghost use Rattle.pg_term.specs.declared.term.Term.{Term};
ghost use Rattle.pg_term_io.specs.declared.tag.TheConstants.{STRING_EXT};
ghost use Rattle.std.specs.Int.{w16};
ghost use Rattle.pg_term_io.specs.Lists.{list_from, Continues, IsInList, next_from, text_next, ShowsNext};
ghost use Rattle.pg_term_io.specs.Reading.{number_at, tail_at};

use crate::element::NextElement;
use crate::reading::numbers::{u16_at, u32_at};
use crate::tag::{ListTag, Tag};

/// Where the next element of a list is, of which so many are at the start of the bytes before its tail, and may nest
/// so many levels each. A list that is at the start of the bytes is its own tail: its first element is the next one
/// for a count of 0 and as many levels as the list may nest.
///
/// The element is skipped by `skip_item`.
///
/// Cost: no memory; five bytes are looked at for each tail that holds no elements.
pub fn next_element(levels: u8, count: u32, bytes: &[u8]) -> NextElement<'_>
    // Of any bytes, also of those that spell no list.
    ensures shown { ShowsNext result (next_from levels count bytes.now) }
    // Of a list, what it says of its elements.
    ensures next { (elements : List Term) (rest : List ℕ)
        → list_from levels count bytes.now ≡ Ok (elements, rest) → Continues result elements rest }
    ensures within { IsInList levels bytes.now result }
{
    if count > 0 {
        return NextElement::Item(levels, count - 1, bytes);
    }
    let Some((tag, behind)) = bytes.split_first() else {
        return NextElement::NoItem;
    };
    match Tag::of_list(*tag) {
        Some(ListTag::Nil) => NextElement::End(behind),
        Some(ListTag::String) => text_end(behind),
        Some(ListTag::List) => {
            if levels == 0 {
                return NextElement::NoItem;
            }
            match u32_at(behind) {
                Ok((count, rest)) => next_element(levels - 1, count, rest),
                Err(_) => NextElement::NoItem,
            }
        }
        None => NextElement::NoItem,
    }
}

/// How a list goes on that is a text, after its tag.
fn text_end(bytes: &[u8]) -> NextElement<'_>
    ensures shown { ShowsNext result (text_next (number_at w16 bytes.now)) }
    ensures next { (room : ℕ) (elements : List Term) (rest : List ℕ)
        → tail_at room (STRING_EXT ∷ bytes.now) ≡ Ok (elements, rest) → Continues result elements rest }
    ensures within { (room : ℕ) (around : List ℕ) → length bytes.now < length around
        → IsInList room around result }
{
    match u16_at(bytes) {
        Ok((count, rest)) => {
            if count == 0 {
                NextElement::End(rest)
            } else {
                NextElement::NoItem
            }
        }
        Err(_) => NextElement::NoItem,
    }
}
