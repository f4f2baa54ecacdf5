//! What is at the start of bytes, without building it: no memory is taken.

ghost use Rattle.std.specs.Prelude.{◌≡◌, ◌≢◌, ◌+◌, ◌*◌, ◌<◌, ◌≤◌, ℕ, suc, List, length, Some, Ok, IfOk, IfSome, IfNone};
ghost use Rattle.std.specs.Option.{option_map};
ghost use Rattle.pg_term.specs.Order.{kind_of};
ghost use Rattle.pg_term.specs.declared.term.Term.{Term, Tuple};
ghost use Rattle.pg_term_io.specs.Kinds.{place_of, kind_in, tuple_in};
ghost use Rattle.pg_term_io.specs.Reading.{as_term, items_at, item_at};
ghost use Rattle.pg_term_io.specs.Scanning.{past, ScansAs};
ghost use Rattle.pg_term_io.specs.Writing.{item_bytes};

use crate::kind::Kind;
use crate::reading::numbers::arity_at;
use crate::reading::scanning::item;
use crate::tag::Tag;
use pg_term::TermFault;

/// Which kind of term is at the start of the bytes, by their first one, if that is a tag. `None`: there is no term.
///
/// Cost: no memory.
#[tactic(auto, unfolding(crate::specs::Kinds::kind_in))]
pub fn kind_at(bytes: &[u8]) -> Option<Kind>
    ensures by_tag { result ≡ kind_in bytes.now }
    // It is the kind of the term that is read there, where one is.
    ensures of_term { (room : ℕ) (t : Term) (rest : List ℕ)
        → item_at room bytes.now ≡ Ok (t, rest) → option_map place_of result ≡ Some (kind_of t) }
{
    match bytes {
        [] => None,
        [tag, ..] => Some(Tag::of(*tag)?.kind()),
    }
}

/// How many elements the tuple at the start of the bytes has, and the bytes from its first element on. `None`: there
/// is no tuple. Its elements may nest one level fewer.
///
/// Cost: no memory.
pub fn tuple_at(bytes: &[u8]) -> Option<(u32, &[u8])>
    // Of any bytes, also where the tuple is broken.
    ensures exact { option_map (λ x. (x.0, x.1.now)) result ≡ tuple_in bytes.now }
    ensures some { (room : ℕ) → IfSome result (λ x. item_at (suc room) bytes.now
        ≡ as_term Tuple (items_at (item_at room) x.0 x.1.now)) }
    ensures none { (room : ℕ) (t : Term) (rest : List ℕ) → IfNone result
        (item_at room bytes.now ≡ Ok (t, rest) → kind_of t ≢ 4) }
{
    let Some((tag, behind)) = bytes.split_first() else {
        return None;
    };
    let Some(size) = Tag::of_tuple(*tag) else {
        return None;
    };
    match arity_at(size, behind) {
        Ok(found) => Some(found),
        Err(_) => None,
    }
}

/// What follows the item at the start of the bytes, as `decode_item` has it. So many levels of terms may nest in it,
/// itself the first of them.
///
/// Errors: that of `decode_item`, but for `OutOfMemory`.
///
/// Cost: no memory; linear in the bytes of the item.
pub fn skip_item(levels: u8, bytes: &[u8]) -> Result<&[u8], TermFault>
    ensures exact { ScansAs (λ rest. rest.now) result (past (item_at levels bytes.now)) }
    // An item takes some bytes.
    ensures shorter { IfOk result (λ rest. length rest.now < length bytes.now) }
    // However a term is spelled, it takes at most 400 times the bytes that it is written in.
    ensures spread { (t : Term) → levels ≤ 64 → IfOk result (λ rest. item_at levels bytes.now ≡ Ok (t, rest.now)
        → length bytes.now ≤ length rest.now + 400 * length (item_bytes t)) }
{
    item(levels, bytes)
}
