//! Items, and the lists that are tails. `room` is how many more levels of terms may nest, and `due` how many items
//! are still to come after what is read, each of which takes a byte at least.

ghost use Rattle.std.specs.Prelude.{◌≡◌, ◌++◌, ◌∷◌, [], map, OnOk};
ghost use Rattle.std.specs.Int.{w32, cast_signed};
ghost use Rattle.pg_term.specs.declared.term.Term.TheVariants.{Int, Atom, Pid, Ref, Binary};
ghost use Rattle.pg_term.specs.Fault.{Gives};
ghost use Rattle.pg_term_io.specs.Numbers.{int_of};
ghost use Rattle.pg_term_io.specs.Reading.{byte_at, number_at, big_at, atom_behind, pid_at, old_reference_at};
ghost use Rattle.pg_term_io.specs.Reading.{new_reference_at, as_term, string_at, binary_at, with_front};
ghost use Rattle.pg_term_io.specs.Reading.{items_at, item_at, tail_at, readers, list_at, elements_behind};
ghost use Rattle.pg_term_io.specs.Reading.{item_behind, leaf_behind, creation_width};

use crate::reading::atoms::atom_behind;
use crate::reading::identifiers::{old_reference_at, pid_at, reference_at};
use crate::reading::numbers::{arity_at, big_at, some_bytes, u8_at, u16_at, u32_at};
use crate::tag::{
    Creation, Encoding, LeafTag, ListTag, NEW_PID_EXT, SMALL_ATOM_UTF8_EXT, SMALL_INTEGER_EXT,
    SMALL_TUPLE_EXT, Size, Tag,
};
use pg_term::{Boxed, Fields, Items, Term, TermFault};
use std::alloc::{AllocError, Global};

fn int_at(bytes: &[u8]) -> Result<(Term, &[u8]), TermFault>
    ensures { Gives (λ x. (x.0, x.1.now)) result
        (as_term (λ n. Int (cast_signed w32 n)) (number_at w32 bytes.now)) }
{
    let (n, rest) = u32_at(bytes)?;
    Ok((Term::Int(i64::from(n.cast_signed())), rest))
}

/// The bytes after the tag of a STRING, at the end of the terms.
#[tactic(auto, unfolding(crate::specs::Reading::string_at))]
fn string_at<'a>(room: u8, terms: &mut Vec<Term>, bytes: &'a [u8]) -> Result<&'a [u8], TermFault>
    ensures { Gives (λ rest. (terms.new.items, rest.now)) result
        (with_front terms.old.items (string_at room bytes.now)) }
{
    let (count, rest) = u16_at(bytes)?;
    let (text, rest) = some_bytes(usize::from(count), rest)?;
    if room == 0 && count > 0 {
        return Err(TermFault::TooDeep);
    }
    push_bytes(terms, text)?;
    Ok(rest)
}

fn push_bytes(terms: &mut Vec<Term>, bytes: &[u8]) -> Result<(), AllocError>
    ensures { OnOk result (terms.new.items ≡ terms.old.items ++ map int_of bytes.now) }
{
    terms.reserve_exact(bytes.len())?;
    for byte in bytes {
        push(terms, small(*byte))?;
    }
    Ok(())
}

/// One term more.
#[inline]
fn push(terms: &mut Vec<Term>, term: Term) -> Result<(), AllocError>
    ensures items { OnOk result (terms.new.items ≡ terms.old.items ++ term ∷ []) }
{
    terms.push(term)?;
    Ok(())
}

/// A small integer.
#[inline]
fn small(number: u8) -> Term
    ensures { result ≡ int_of number }
{
    Term::Int(i64::from(number))
}

/// The bytes of a binary, after its tag.
#[tactic(auto, unfolding(crate::specs::Reading::binary_at))]
fn binary_at(alloc: Global, bytes: &[u8]) -> Result<(Items<u8>, &[u8]), TermFault>
    ensures { Gives (λ x. (x.0, x.1.now)) result (binary_at bytes.now) }
{
    let (count, rest) = u32_at(bytes)?;
    let (content, rest) = some_bytes(count as usize, rest)?;
    Ok((Items::from_vec(content.to_vec(alloc)?), rest))
}

/// So many items, at the end of the terms.
#[cycle(item)]
fn items<'a>(
    alloc: Global,
    room: u8,
    due: usize,
    count: u32,
    terms: &mut Vec<Term>,
    bytes: &'a [u8],
) -> Result<&'a [u8], TermFault>
    ensures { Gives (λ rest. (terms.new.items, rest.now)) result
        (with_front terms.old.items (items_at (item_at room) count bytes.now)) }
{
    // As many as there can be in these bytes.
    terms.reserve_exact(bytes.len().saturating_sub(due).min(count as usize))?;
    let mut rest = bytes;
    for index in 0..count {
        let behind = due.saturating_add((count - index - 1) as usize);
        rest = match rest {
            // A small integer at once, with no call.
            [tag, number, after @ ..] if *tag == SMALL_INTEGER_EXT && room > 0 => {
                push(terms, small(*number))?;
                after
            }
            // A tuple, an atom and a pid in their places, with no move of a whole result.
            [tag, arity, after @ ..] if *tag == SMALL_TUPLE_EXT && room > 0 => {
                let (inner, after) = fields(alloc, room - 1, behind, u32::from(*arity), after)?;
                push(terms, Term::Tuple(Fields::from_vec(inner)))?;
                after
            }
            [tag, after @ ..] if *tag == SMALL_ATOM_UTF8_EXT && room > 0 => {
                let (atom, after) = atom_behind(alloc, Size::Small, Encoding::Utf8, after)?;
                push(terms, Term::Atom(atom))?;
                after
            }
            [tag, after @ ..] if *tag == NEW_PID_EXT && room > 0 => {
                let (pid, after) = pid_at(alloc, Creation::Word, after)?;
                push(terms, Term::Pid(pid))?;
                after
            }
            _ => {
                let (term, after) = item(alloc, room, behind, rest)?;
                push(terms, term)?;
                after
            }
        };
    }
    Ok(rest)
}

/// After the tag of a LIST: its elements and those of its tail, at the end of the terms.
#[cycle(item)]
fn list_at<'a>(
    alloc: Global,
    room: u8,
    due: usize,
    terms: &mut Vec<Term>,
    bytes: &'a [u8],
) -> Result<&'a [u8], TermFault>
    ensures { Gives (λ rest. (terms.new.items, rest.now)) result
        (with_front terms.old.items (list_at (readers room) bytes.now)) }
{
    let (count, rest) = u32_at(bytes)?;
    let rest = items(alloc, room, due.saturating_add(1), count, terms, rest)?;
    tail(alloc, room, due, terms, rest)
}

/// After the tag of a list: its elements, at the end of the terms.
#[cycle(item)]
#[tactic(auto, unfolding(crate::specs::Reading::elements_behind))]
fn elements<'a>(
    alloc: Global,
    room: u8,
    due: usize,
    tag: ListTag,
    terms: &mut Vec<Term>,
    bytes: &'a [u8],
) -> Result<&'a [u8], TermFault>
    ensures { Gives (λ rest. (terms.new.items, rest.now)) result
        (with_front terms.old.items (elements_behind room (readers room) tag bytes.now)) }
{
    match tag {
        ListTag::Nil => Ok(bytes),
        ListTag::String => string_at(room, terms, bytes),
        ListTag::List => list_at(alloc, room, due, terms, bytes),
    }
}

/// A list in the place of a tail: its elements, at the end of the terms.
#[cycle(item)]
fn tail<'a>(
    alloc: Global,
    room: u8,
    due: usize,
    terms: &mut Vec<Term>,
    bytes: &'a [u8],
) -> Result<&'a [u8], TermFault>
    ensures { Gives (λ rest. (terms.new.items, rest.now)) result
        (with_front terms.old.items (tail_at room bytes.now)) }
{
    match bytes {
        [] => Err(TermFault::Truncated),
        [tag, rest @ ..] => {
            if room == 0 {
                return Err(TermFault::TooDeep);
            }
            match Tag::of_list(*tag) {
                Some(tag) => elements(alloc, room - 1, due, tag, terms, rest),
                None => Err(TermFault::ImproperList),
            }
        }
    }
}

/// The elements of a tuple.
#[cycle(item)]
fn fields(
    alloc: Global,
    room: u8,
    due: usize,
    count: u32,
    bytes: &[u8],
) -> Result<(Vec<Term>, &[u8]), TermFault>
    ensures { Gives (λ x. (x.0.items, x.1.now)) result (items_at (item_at room) count bytes.now) }
{
    let mut terms = Vec::new(alloc);
    let rest = items(alloc, room, due, count, &mut terms, bytes)?;
    Ok((terms, rest))
}

/// The elements of a list, after its tag.
#[cycle(item)]
fn list(
    alloc: Global,
    room: u8,
    due: usize,
    tag: ListTag,
    bytes: &[u8],
) -> Result<(Vec<Term>, &[u8]), TermFault>
    ensures { Gives (λ x. (x.0.items, x.1.now)) result
        (elements_behind room (readers room) tag bytes.now) }
{
    let mut terms = Vec::new(alloc);
    let rest = elements(alloc, room, due, tag, &mut terms, bytes)?;
    Ok((terms, rest))
}

/// One item.
#[cycle(item)]
pub(crate) fn item(
    alloc: Global,
    room: u8,
    due: usize,
    bytes: &[u8],
) -> Result<(Term, &[u8]), TermFault>
    ensures { Gives (λ x. (x.0, x.1.now)) result (item_at room bytes.now) }
{
    match bytes {
        [] => Err(TermFault::Truncated),
        [tag, rest @ ..] => {
            if room == 0 {
                return Err(TermFault::TooDeep);
            }
            item_behind(alloc, room - 1, due, Tag::of(*tag), rest)
        }
    }
}

/// One item, after its tag.
#[cycle(item)]
#[tactic(auto, unfolding(crate::specs::Reading::item_behind))]
fn item_behind(
    alloc: Global,
    room: u8,
    due: usize,
    tag: Option<Tag>,
    bytes: &[u8],
) -> Result<(Term, &[u8]), TermFault>
    ensures { Gives (λ x. (x.0, x.1.now)) result (item_behind room (readers room) tag bytes.now) }
{
    match tag {
        Some(Tag::Tuple(size)) => {
            let (arity, rest) = arity_at(size, bytes)?;
            let (terms, rest) = fields(alloc, room, due, arity, rest)?;
            Ok((Term::Tuple(Fields::from_vec(terms)), rest))
        }
        Some(Tag::List(tag)) => {
            let (terms, rest) = list(alloc, room, due, tag, bytes)?;
            Ok((Term::List(Items::from_vec(terms)), rest))
        }
        Some(Tag::Leaf(tag)) => leaf(alloc, tag, bytes),
        None => Err(TermFault::UnknownTag),
    }
}

/// An item that holds no terms, after its tag.
#[tactic(auto, unfolding(crate::specs::Reading::leaf_behind))]
fn leaf(alloc: Global, tag: LeafTag, bytes: &[u8]) -> Result<(Term, &[u8]), TermFault>
    ensures { Gives (λ x. (x.0, x.1.now)) result (leaf_behind tag bytes.now) }
{
    match tag {
        LeafTag::SmallInteger => byte_int(bytes),
        LeafTag::Integer => int_at(bytes),
        LeafTag::SmallBig => big_int(bytes),
        LeafTag::Atom(size, encoding) => atom_term(alloc, size, encoding, bytes),
        LeafTag::Pid(creation) => pid_term(alloc, creation, bytes),
        LeafTag::OldReference => old_reference_term(alloc, bytes),
        LeafTag::Reference(creation) => reference_term(alloc, creation, bytes),
        LeafTag::Binary => binary_term(alloc, bytes),
    }
}

fn byte_int(bytes: &[u8]) -> Result<(Term, &[u8]), TermFault>
    ensures { Gives (λ x. (x.0, x.1.now)) result (as_term int_of (byte_at bytes.now)) }
{
    let (n, rest) = u8_at(bytes)?;
    Ok((Term::Int(i64::from(n)), rest))
}

fn big_int(bytes: &[u8]) -> Result<(Term, &[u8]), TermFault>
    ensures { Gives (λ x. (x.0, x.1.now)) result (as_term Int (big_at bytes.now)) }
{
    let (n, rest) = big_at(bytes)?;
    Ok((Term::Int(n), rest))
}

fn atom_term(
    alloc: Global,
    size: Size,
    encoding: Encoding,
    bytes: &[u8],
) -> Result<(Term, &[u8]), TermFault>
    ensures { Gives (λ x. (x.0, x.1.now)) result
        (as_term Atom (atom_behind size encoding bytes.now)) }
{
    let (atom, rest) = atom_behind(alloc, size, encoding, bytes)?;
    Ok((Term::Atom(atom), rest))
}

fn pid_term(alloc: Global, creation: Creation, bytes: &[u8]) -> Result<(Term, &[u8]), TermFault>
    ensures { Gives (λ x. (x.0, x.1.now)) result
        (as_term Pid (pid_at (creation_width creation) bytes.now)) }
{
    let (pid, rest) = pid_at(alloc, creation, bytes)?;
    Ok((Term::Pid(pid), rest))
}

/// A reference of one word, as a term.
fn old_reference_term(alloc: Global, bytes: &[u8]) -> Result<(Term, &[u8]), TermFault>
    ensures { Gives (λ x. (x.0, x.1.now)) result (as_term Ref (old_reference_at bytes.now)) }
{
    let (reference, rest) = old_reference_at(alloc, bytes)?;
    Ok((Term::Ref(Boxed::new(alloc, reference)?), rest))
}

fn reference_term(
    alloc: Global,
    creation: Creation,
    bytes: &[u8],
) -> Result<(Term, &[u8]), TermFault>
    ensures { Gives (λ x. (x.0, x.1.now)) result
        (as_term Ref (new_reference_at (creation_width creation) bytes.now)) }
{
    let (reference, rest) = reference_at(alloc, creation, bytes)?;
    Ok((Term::Ref(Boxed::new(alloc, reference)?), rest))
}

fn binary_term(alloc: Global, bytes: &[u8]) -> Result<(Term, &[u8]), TermFault>
    ensures { Gives (λ x. (x.0, x.1.now)) result (as_term Binary (binary_at bytes.now)) }
{
    let (content, rest) = binary_at(alloc, bytes)?;
    Ok((Term::Binary(content), rest))
}
