//! Atoms and integers where they stand, in whichever form they are spelled: no memory is taken.

ghost use Rattle.std.specs.Prelude.{◌≡◌, ◌≢◌, ◌≤◌, ◌<◌, ◌∷◌, ◌++◌, ◌^◌, ℕ, List, length, Ok, Err};
ghost use Rattle.std.specs.Prelude.{pos, FitsSigned, MatchOption, IfSome, SomeIff};
ghost use Rattle.std.specs.Int.{w16, w32, w64, cast_signed, to_be_bytes};
ghost use Rattle.std.specs.Str.{chars, IsUtf8};
ghost use Rattle.pg_term.specs.declared.term.Term.{Term};
ghost use Rattle.pg_term.specs.declared.term.Term.TheVariants.{Atom, Int};
ghost use Rattle.pg_term.specs.Order.{kind_of};
ghost use Rattle.pg_term.specs.declared.fault.TermFault.{TermFault};
ghost use Rattle.pg_term.specs.Same.{term_cmp};
ghost use Rattle.pg_message_types.specs.PgTermIo.Numbers.{little_endian, big_value};
ghost use Rattle.pg_message_types.specs.PgTermIo.Reading.{item_at, i64_of};
ghost use Rattle.pg_message_types.specs.Groups.{is_less};
ghost use Rattle.pg_message_types.specs.Parts.{is_word};
ghost use Rattle.pg_message_reader.specs.Shapes.Leaves.{characters, AtomStands};

use crate::shape::parts::is_atom;
use arrayvec::ArrayString;
use std::cmp::Ordering;
use std::str;

/// The text of an atom.
#[derive(Drop)]
pub(crate) enum Text<'a> {
    /// As it stands there.
    Utf8(&'a str),
    /// That of an atom in Latin-1, whose characters take at most two bytes each.
    Latin(ArrayString<510>),
}

impl Text<'_> {
    fn as_str(&self) -> &str
        ensures { chars result.now ≡ characters self.now }
    {
        match self {
            Text::Utf8(text) => text,
            Text::Latin(text) => text.as_str(),
        }
    }
}

/// Whether a part is the atom of this text.
pub(crate) fn is_word(bytes: &[u8], word: &str) -> bool
    ensures { (room : ℕ) (t : Term) (rest : List ℕ) → item_at room bytes.now ≡ Ok (t, rest)
        → result ≡ is_word t word.now }
{
    if !is_atom(bytes) {
        return false;
    }
    match text_at(bytes) {
        Some(text) => text.as_str() == word,
        None => false,
    }
}

/// Whether an atom is less than another in the order of terms.
pub(crate) fn is_lower(bytes: &[u8], others: &[u8]) -> bool
    ensures { (a b : Term) → AtomStands bytes.now a → AtomStands others.now b
        → result ≡ is_less (term_cmp a b) }
{
    let Some(text) = text_at(bytes) else {
        return false;
    };
    let Some(other) = text_at(others) else {
        return false;
    };
    match text.as_str().cmp(other.as_str()) {
        Ordering::Less => true,
        _ => false,
    }
}

/// The text of an atom.
fn text_at(bytes: &[u8]) -> Option<Text<'_>>
    ensures { (room : ℕ) (t : Term) (rest : List ℕ) → item_at room bytes.now ≡ Ok (t, rest) → kind_of t ≡ 1
        → MatchOption result ⊥ (λ text. t ≡ Atom (characters text)) }
{
    let Some((tag, behind)) = bytes.split_first() else {
        return None;
    };
    if *tag == 119 {
        utf8_text(short_text(behind))
    } else if *tag == 118 {
        utf8_text(long_text(behind))
    } else if *tag == 115 {
        Some(latin_text(short_text(behind)))
    } else if *tag == 100 {
        Some(latin_text(long_text(behind)))
    } else {
        None
    }
}

/// The bytes of a text whose length takes one byte.
fn short_text(bytes: &[u8]) -> &[u8]
    ensures { (text rest : List ℕ) → bytes.now ≡ length text ∷ (text ++ rest) → result.now ≡ text }
{
    let Some((len, rest)) = bytes.split_first() else {
        return bytes;
    };
    match rest.get(..usize::from(*len)) {
        Some(text) => text,
        None => rest,
    }
}

/// The bytes of a text whose length takes two bytes.
fn long_text(bytes: &[u8]) -> &[u8]
    ensures { (text rest : List ℕ) → length text < 2 ^ 16
        → bytes.now ≡ to_be_bytes w16 (length text) ++ (text ++ rest) → result.now ≡ text }
{
    let Some((digits, rest)) = bytes.split_first_chunk::<2>() else {
        return bytes;
    };
    match rest.get(..usize::from(u16::from_be_bytes(*digits))) {
        Some(text) => text,
        None => rest,
    }
}

fn utf8_text(bytes: &[u8]) -> Option<Text<'_>>
    ensures { IsUtf8 bytes.now → MatchOption result ⊥ (λ text. characters text ≡ chars bytes.now) }
{
    match str::from_utf8(bytes) {
        Ok(text) => Some(Text::Utf8(text)),
        Err(_) => None,
    }
}

fn latin_text(bytes: &[u8]) -> Text<'_>
    ensures { length bytes.now ≤ 255 → characters result ≡ bytes.now }
{
    let mut text = ArrayString::<510>::new();
    if bytes.len() > 255 {
        return Text::Latin(text);
    }
    for byte in bytes {
        text.push(char::from(*byte));
    }
    Text::Latin(text)
}

/// The integer that a part is.
pub(crate) fn int_at(bytes: &[u8]) -> Option<i64>
    ensures int { (room : ℕ) (t : Term) (rest : List ℕ) → item_at room bytes.now ≡ Ok (t, rest) → kind_of t ≡ 0
        → MatchOption result ⊥ (λ z. t ≡ Int z) }
    ensures fits { IfSome result (FitsSigned w64) }
{
    let Some((tag, behind)) = bytes.split_first() else {
        return None;
    };
    if *tag == 97 {
        byte_at(behind)
    } else if *tag == 98 {
        word_at(behind)
    } else if *tag == 110 {
        big_at(behind)
    } else {
        None
    }
}

/// An integer of one byte, after its tag.
fn byte_at(bytes: &[u8]) -> Option<i64>
    ensures int { (number : ℕ) (rest : List ℕ) → bytes.now ≡ number ∷ rest
        → MatchOption result ⊥ (λ z. z ≡ pos number) }
    ensures fits { IfSome result (FitsSigned w64) }
{
    let (number, _) = bytes.split_first()?;
    Some(i64::from(*number))
}

/// An integer of four bytes, after its tag.
fn word_at(bytes: &[u8]) -> Option<i64>
    ensures fits { IfSome result (FitsSigned w64) }
    ensures int { (number : ℕ) (rest : List ℕ) → number < 2 ^ 32 → bytes.now ≡ to_be_bytes w32 number ++ rest
        → MatchOption result ⊥ (λ z. z ≡ cast_signed w32 number) }
{
    let (digits, _) = bytes.split_first_chunk::<4>()?;
    Some(i64::from(u32::from_be_bytes(*digits).cast_signed()))
}

/// A big integer, after its tag.
fn big_at(bytes: &[u8]) -> Option<i64>
    ensures fits { IfSome result (FitsSigned w64) }
    ensures int { (sign : ℕ) (digits rest : List ℕ) → FitsSigned w64 (big_value sign digits)
        → bytes.now ≡ length digits ∷ sign ∷ (digits ++ rest)
        → MatchOption result ⊥ (λ z. z ≡ big_value sign digits) }
{
    let (count, rest) = bytes.split_first()?;
    let (sign, rest) = rest.split_first()?;
    value_of(*sign, rest.get(..usize::from(*count))?)
}

/// The integer of these digits, where it is one of 64 bits with a sign.
fn value_of(sign: u8, digits: &[u8]) -> Option<i64>
    ensures fits { IfSome result (FitsSigned w64) }
    ensures value { MatchOption result
        (i64_of (big_value sign digits.now) ≡ Err TermFault.IntegerTooLarge)
        (λ z. i64_of (big_value sign digits.now) ≡ Ok z) }
{
    let magnitude = magnitude(digits)?;
    if sign == 0 {
        0_i64.checked_add_unsigned(magnitude)
    } else {
        0_i64.checked_sub_unsigned(magnitude)
    }
}

/// The number of the digits, the least significant first; `None` from 2 ^ 64 on.
fn magnitude(digits: &[u8]) -> Option<u64>
    ensures { SomeIff result (little_endian digits.now < 2 ^ 64) (little_endian digits.now) }
{
    let mut number = 0_u64;
    for place in (0..digits.len()).rev() {
        let above = number.checked_mul(256)?;
        number = above.checked_add(u64::from(digits[place]))?;
    }
    Some(number)
}
