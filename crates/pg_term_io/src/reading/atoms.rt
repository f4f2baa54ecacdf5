//! Atoms.

ghost use Rattle.std.specs.Prelude.{◌≡◌};
ghost use Rattle.pg_term.specs.Fault.{Gives, checked_atom};
ghost use Rattle.pg_term_io.specs.Reading.{utf8_atom, latin_atom, atom_in, atom_behind, atom_at};

use crate::reading::numbers::{some_bytes, text_len_at};
use crate::tag::{Encoding, LeafTag, Size, Tag};
use arrayvec::ArrayString;
use pg_term::{Atom, TermFault};
use std::alloc::Global;
use std::str;

fn utf8_atom(alloc: Global, bytes: &[u8]) -> Result<Atom, TermFault>
    ensures { Gives (λ a. a) result (utf8_atom bytes.now) }
{
    match str::from_utf8(bytes) {
        Ok(text) => Atom::new(alloc, text),
        Err(_) => Err(TermFault::BadAtom),
    }
}

fn latin_atom(alloc: Global, bytes: &[u8]) -> Result<Atom, TermFault>
    ensures { Gives (λ a. a) result (latin_atom bytes.now) }
{
    if bytes.len() > 255 {
        return Err(TermFault::BadAtom);
    }
    // A character of Latin-1 takes at most two bytes in UTF-8.
    let mut text = ArrayString::<510>::new();
    for byte in bytes {
        text.push(char::from(*byte));
    }
    Atom::new(alloc, text.as_str())
}

fn atom_in(alloc: Global, encoding: Encoding, text: &[u8]) -> Result<Atom, TermFault>
    ensures { Gives (λ a. a) result (atom_in encoding text.now) }
{
    match encoding {
        Encoding::Utf8 => utf8_atom(alloc, text),
        Encoding::Latin => latin_atom(alloc, text),
    }
}

/// An atom, after its tag.
#[tactic(auto, unfolding(crate::specs::Reading::atom_behind, crate::specs::Reading::named_at))]
pub(crate) fn atom_behind(
    alloc: Global,
    size: Size,
    encoding: Encoding,
    bytes: &[u8],
) -> Result<(Atom, &[u8]), TermFault>
    ensures { Gives (λ x. (x.0, x.1.now)) result (atom_behind size encoding bytes.now) }
{
    let (len, rest) = text_len_at(size, bytes)?;
    let (text, rest) = some_bytes(len, rest)?;
    let atom = atom_in(alloc, encoding, text)?;
    Ok((atom, rest))
}

/// An atom in its place in a pid or a reference.
#[tactic(auto, unfolding(crate::specs::Reading::atom_at))]
pub(crate) fn atom_at(alloc: Global, bytes: &[u8]) -> Result<(Atom, &[u8]), TermFault>
    ensures { Gives (λ x. (x.0, x.1.now)) result (atom_at bytes.now) }
{
    let [tag, rest @ ..] = bytes else {
        return Err(TermFault::Truncated);
    };
    match Tag::of(*tag) {
        Some(Tag::Leaf(LeafTag::Atom(size, encoding))) => atom_behind(alloc, size, encoding, rest),
        _ => Err(TermFault::BadAtom),
    }
}
