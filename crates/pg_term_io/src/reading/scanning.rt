//! Walking over bytes without building what they spell: no memory is taken.

ghost use Rattle.std.specs.Prelude.{◌≡◌, Ok};
ghost use Rattle.std.specs.Int.{w16, w32};
ghost use Rattle.pg_term_io.specs.Reading.{byte_at, number_at, bytes_at, big_at, i64_of, utf8_atom, atom_in};
ghost use Rattle.pg_term_io.specs.Numbers.{big_value};
ghost use Rattle.pg_term_io.specs.Scanning.{past, ScansAs, Names, fault_or_memory, over_atom, over_node, over_creation, over_pid};
ghost use Rattle.pg_term_io.specs.Scanning.{over_old_reference, over_all, over_words, over_reference};
ghost use Rattle.pg_term_io.specs.Scanning.{over_binary, over_leaf, over_string, over_list, over_elements};
ghost use Rattle.pg_term_io.specs.Scanning.{over_behind, over_item, over_tail, over_term, walks};

use crate::limits::MAX_DEPTH;
use crate::reading::numbers::{arity_at, some_bytes, text_len_at, u8_at, u16_at, u32_at, value_of};
use crate::tag::{Creation, Encoding, LeafTag, ListTag, Size, Tag};
use pg_term::{TermFault, is_long};
use std::str;

/// What follows a byte.
fn past_byte(bytes: &[u8]) -> Result<&[u8], TermFault>
    ensures { ScansAs (λ rest. rest.now) result (past (byte_at bytes.now)) }
{
    let (_, rest) = u8_at(bytes)?;
    Ok(rest)
}

/// What follows four bytes.
fn past_word(bytes: &[u8]) -> Result<&[u8], TermFault>
    ensures { ScansAs (λ rest. rest.now) result (past (number_at w32 bytes.now)) }
{
    let (_, rest) = u32_at(bytes)?;
    Ok(rest)
}

/// Whether a text of UTF-8 is that of an atom.
fn check_utf8(text: &[u8]) -> Result<(), TermFault>
    ensures { Names result (utf8_atom text.now) }
{
    match str::from_utf8(text) {
        Ok(text) => {
            if is_long(text) {
                return Err(TermFault::BadAtom);
            }
            Ok(())
        }
        Err(_) => Err(TermFault::BadAtom),
    }
}

/// Whether a text is that of an atom.
fn check_text(encoding: Encoding, text: &[u8]) -> Result<(), TermFault>
    ensures { Names result (atom_in encoding text.now) }
{
    match encoding {
        Encoding::Utf8 => check_utf8(text),
        Encoding::Latin => {
            if text.len() > 255 {
                return Err(TermFault::BadAtom);
            }
            Ok(())
        }
    }
}

/// What follows an atom, after its tag.
#[tactic(auto, unfolding(crate::specs::Scanning::over_atom, crate::specs::Reading::named_at))]
fn atom(size: Size, encoding: Encoding, bytes: &[u8]) -> Result<&[u8], TermFault>
    ensures { ScansAs (λ rest. rest.now) result (over_atom size encoding bytes.now) }
{
    let (len, rest) = text_len_at(size, bytes)?;
    let (text, rest) = some_bytes(len, rest)?;
    check_text(encoding, text)?;
    Ok(rest)
}

/// What follows the atom of a pid or a reference.
#[tactic(auto, unfolding(crate::specs::Scanning::over_node))]
fn node(bytes: &[u8]) -> Result<&[u8], TermFault>
    ensures { ScansAs (λ rest. rest.now) result (over_node bytes.now) }
{
    let [tag, rest @ ..] = bytes else {
        return Err(TermFault::Truncated);
    };
    match Tag::of(*tag) {
        Some(Tag::Leaf(LeafTag::Atom(size, encoding))) => atom(size, encoding, rest),
        _ => Err(TermFault::BadAtom),
    }
}

/// What follows a creation.
fn past_creation(creation: Creation, bytes: &[u8]) -> Result<&[u8], TermFault>
    ensures { ScansAs (λ rest. rest.now) result (over_creation creation bytes.now) }
{
    match creation {
        Creation::Byte => past_byte(bytes),
        Creation::Word => past_word(bytes),
    }
}

/// What follows a pid, after its tag.
#[tactic(auto, unfolding(crate::specs::Scanning::over_pid))]
pub(crate) fn pid(creation: Creation, bytes: &[u8]) -> Result<&[u8], TermFault>
    ensures { ScansAs (λ rest. rest.now) result (over_pid (over_creation creation) bytes.now) }
{
    let rest = node(bytes)?;
    let rest = past_word(rest)?;
    let rest = past_word(rest)?;
    past_creation(creation, rest)
}

#[tactic(auto, unfolding(crate::specs::Scanning::over_old_reference))]
fn old_reference(bytes: &[u8]) -> Result<&[u8], TermFault>
    ensures { ScansAs (λ rest. rest.now) result (over_old_reference bytes.now) }
{
    let rest = node(bytes)?;
    let rest = past_word(rest)?;
    past_byte(rest)
}

/// What follows so many words.
fn words(count: u16, bytes: &[u8]) -> Result<&[u8], TermFault>
    ensures { ScansAs (λ rest. rest.now) result (over_words count bytes.now) }
{
    let mut rest = bytes;
    for _ in 0..count {
        rest = past_word(rest)?;
    }
    Ok(rest)
}

/// What follows a reference that says how many words it has, after its tag.
#[tactic(auto, unfolding(crate::specs::Scanning::over_reference))]
pub(crate) fn reference(creation: Creation, bytes: &[u8]) -> Result<&[u8], TermFault>
    ensures { ScansAs (λ rest. rest.now) result (over_reference (over_creation creation) bytes.now) }
{
    let (count, rest) = u16_at(bytes)?;
    if count == 0 || count > 3 {
        return Err(TermFault::BadReference);
    }
    let rest = node(rest)?;
    let rest = past_creation(creation, rest)?;
    words(count, rest)
}

#[tactic(auto, unfolding(crate::specs::Scanning::over_binary))]
fn binary(bytes: &[u8]) -> Result<&[u8], TermFault>
    ensures { ScansAs (λ rest. rest.now) result (over_binary bytes.now) }
{
    let (count, rest) = u32_at(bytes)?;
    let (_, rest) = some_bytes(count as usize, rest)?;
    Ok(rest)
}

/// What follows a big integer.
#[tactic(auto, unfolding(crate::specs::Reading::big_at))]
fn past_big(bytes: &[u8]) -> Result<&[u8], TermFault>
    ensures { ScansAs (λ rest. rest.now) result (past (big_at bytes.now)) }
{
    let (count, rest) = u8_at(bytes)?;
    let (sign, rest) = u8_at(rest)?;
    let (digits, rest) = some_bytes(usize::from(count), rest)?;
    match value_of(sign, digits) {
        Some(_) => Ok(rest),
        None => Err(TermFault::IntegerTooLarge),
    }
}

/// What follows an item that holds no terms, after its tag.
#[tactic(auto, unfolding(crate::specs::Scanning::over_leaf))]
fn leaf(tag: LeafTag, bytes: &[u8]) -> Result<&[u8], TermFault>
    ensures { ScansAs (λ rest. rest.now) result (over_leaf tag bytes.now) }
{
    match tag {
        LeafTag::SmallInteger => past_byte(bytes),
        LeafTag::Integer => past_word(bytes),
        LeafTag::SmallBig => past_big(bytes),
        LeafTag::Atom(size, encoding) => atom(size, encoding, bytes),
        LeafTag::Pid(creation) => pid(creation, bytes),
        LeafTag::OldReference => old_reference(bytes),
        LeafTag::Reference(creation) => reference(creation, bytes),
        LeafTag::Binary => binary(bytes),
    }
}

#[tactic(auto, unfolding(crate::specs::Scanning::over_string))]
fn string(room: u8, bytes: &[u8]) -> Result<&[u8], TermFault>
    ensures { ScansAs (λ rest. rest.now) result (over_string room bytes.now) }
{
    let (count, rest) = u16_at(bytes)?;
    let (_, rest) = some_bytes(usize::from(count), rest)?;
    if room == 0 && count > 0 {
        return Err(TermFault::TooDeep);
    }
    Ok(rest)
}

/// What follows so many items.
#[cycle(scan)]
fn items(room: u8, count: u32, bytes: &[u8]) -> Result<&[u8], TermFault>
    ensures { ScansAs (λ rest. rest.now) result (over_all (over_item room) count bytes.now) }
{
    let mut rest = bytes;
    for _ in 0..count {
        rest = item(room, rest)?;
    }
    Ok(rest)
}

#[cycle(scan)]
#[tactic(auto, unfolding(crate::specs::Scanning::over_list))]
fn list(room: u8, bytes: &[u8]) -> Result<&[u8], TermFault>
    ensures { ScansAs (λ rest. rest.now) result (over_list (walks room) bytes.now) }
{
    let (count, rest) = u32_at(bytes)?;
    let rest = items(room, count, rest)?;
    tail(room, rest)
}

#[cycle(scan)]
#[tactic(auto, unfolding(crate::specs::Scanning::over_elements))]
fn elements(room: u8, tag: ListTag, bytes: &[u8]) -> Result<&[u8], TermFault>
    ensures { ScansAs (λ rest. rest.now) result (over_elements room (walks room) tag bytes.now) }
{
    match tag {
        ListTag::Nil => Ok(bytes),
        ListTag::String => string(room, bytes),
        ListTag::List => list(room, bytes),
    }
}

#[cycle(scan)]
fn tail(room: u8, bytes: &[u8]) -> Result<&[u8], TermFault>
    ensures { ScansAs (λ rest. rest.now) result (over_tail room bytes.now) }
{
    match bytes {
        [] => Err(TermFault::Truncated),
        [tag, rest @ ..] => {
            if room == 0 {
                return Err(TermFault::TooDeep);
            }
            match Tag::of_list(*tag) {
                Some(tag) => elements(room - 1, tag, rest),
                None => Err(TermFault::ImproperList),
            }
        }
    }
}

/// What follows an item.
#[cycle(scan)]
pub(crate) fn item(room: u8, bytes: &[u8]) -> Result<&[u8], TermFault>
    ensures { ScansAs (λ rest. rest.now) result (over_item room bytes.now) }
{
    match bytes {
        [] => Err(TermFault::Truncated),
        [tag, rest @ ..] => {
            if room == 0 {
                return Err(TermFault::TooDeep);
            }
            behind(room - 1, Tag::of(*tag), rest)
        }
    }
}

#[cycle(scan)]
#[tactic(auto, unfolding(crate::specs::Scanning::over_behind))]
fn behind(room: u8, tag: Option<Tag>, bytes: &[u8]) -> Result<&[u8], TermFault>
    ensures { ScansAs (λ rest. rest.now) result (over_behind room (walks room) tag bytes.now) }
{
    match tag {
        Some(Tag::Tuple(size)) => {
            let (arity, rest) = arity_at(size, bytes)?;
            items(room, arity, rest)
        }
        Some(Tag::List(tag)) => elements(room, tag, bytes),
        Some(Tag::Leaf(tag)) => leaf(tag, bytes),
        None => Err(TermFault::UnknownTag),
    }
}

/// What follows all of the bytes: nothing.
#[tactic(auto, unfolding(crate::specs::Scanning::over_term))]
pub(crate) fn term(bytes: &[u8]) -> Result<&[u8], TermFault>
    ensures { ScansAs (λ rest. rest.now) result (over_term bytes.now) }
{
    match bytes {
        [] => Err(TermFault::Truncated),
        [131, rest @ ..] => {
            let rest = item(MAX_DEPTH, rest)?;
            if !rest.is_empty() {
                return Err(TermFault::TrailingBytes);
            }
            Ok(rest)
        }
        [_, ..] => Err(TermFault::BadVersion),
    }
}

/// What is told where memory ran out in reading the bytes that were walked over.
pub(crate) fn fault_of(walked: Result<&[u8], TermFault>) -> TermFault
    ensures { result ≡ fault_or_memory walked.entry }
{
    match walked {
        Ok(_) => TermFault::OutOfMemory,
        Err(fault) => fault,
    }
}
