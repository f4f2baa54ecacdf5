//! Atoms.

ghost use Rattle.std.specs.Prelude.{◌≡◌, ◌<◌, ◌≤◌, ◌∷◌, ◌++◌, length, drop, take, string_bytes, true, Some, None, IfOk, IfErr, IfSome};
ghost use Rattle.std.specs.Char.{encode_utf8};
ghost use Rattle.std.specs.List.{prefix_len};
ghost use Rattle.std.specs.Str.{chars};
ghost use Rattle.pg_text.specs.Reading.{atom_at as atom_read, bare_at as bare_read, quoted_at as quoted_read, short};
ghost use Rattle.pg_text.specs.Writing.{is_word_byte as counts_as_word};
ghost use Rattle.pg_text.specs.declared.fault.TextFault.TheVariants.{BadText};
ghost use Rattle.pg_text.specs.declared.reading.quoted.Place.TheVariants.{Plain};

use crate::fault::TextFault;
use crate::reading::Read;
use crate::reading::fronts::{after, first_of};
use crate::reading::quoted::{Place, Quoted, read_quoted};
use crate::writing::{begins_small, is_bare, is_word};
use pg_term::{Atom, TermFault};
use std::alloc::Global;

// The character of a bare atom that comes first, and what follows it.
fn word_first(text: &str) -> Option<(char, &str)>
    ensures bytes { IfSome result (λ read. text.now ≡ encode_utf8 read.0 ++ read.1.now) }
    ensures some { IfSome result (λ read. (chars text.now ≡ read.0 ∷ chars read.1.now) × (counts_as_word read.0 ≡ true)) }
    ensures none { result ≡ None → prefix_len counts_as_word (chars text.now) ≡ 0 }
{
    match first_of(text) {
        Some((character, rest)) if is_word(character) => Some((character, rest)),
        _ => None,
    }
}

// The characters of a bare atom at the start, which may be none, and what follows them.
pub fn word_of(text: &str) -> (&str, &str)
    ensures word { chars result.0.now ≡ take (prefix_len counts_as_word (chars text.now)) (chars text.now) }
    ensures rest { chars result.1.now ≡ drop (prefix_len counts_as_word (chars text.now)) (chars text.now) }
{
    let mut rest = text;
    while let Some((_, follows)) = word_first(rest) {
        rest = follows;
    }
    let (word, _) = text.split_at(text.len() - rest.len());
    (word, rest)
}

// The characters up to the closing quote, and what follows it.
fn quoted_at(alloc: Global, text: &str) -> Read<'_, String>
    ensures ok { IfOk result (λ read. quoted_read (chars text.now) Plain ≡ Some (chars (string_bytes read.0), chars read.1.now)) }
    ensures err { IfErr result (λ fault. fault ≡ BadText → quoted_read (chars text.now) Plain ≡ None) }
    ensures shorter { IfOk result (λ read. length (chars read.1.now) < length (chars text.now)) }
{
    let mut name = String::new(alloc);
    let mut place = Place::Plain;
    let mut rest = text;
    while let Some((character, follows)) = first_of(rest) {
        rest = follows;
        match read_quoted(place, character) {
            Quoted::Close => return Ok((name, rest)),
            Quoted::Character(read) => {
                name.push(read)?;
                place = Place::Plain;
            }
            Quoted::Within(next) => place = next,
            Quoted::Bad => return Err(TextFault::BadText),
        }
    }
    Err(TextFault::BadText)
}

// The atom of these characters, and what follows it.
fn atom_of<'a>(alloc: Global, name: &str, rest: &'a str) -> Read<'a, Atom>
    ensures ok { IfOk result (λ read. short (chars name.now) (chars rest.now) ≡ Some (read.0, chars read.1.now)) }
    ensures err { IfErr result (λ fault. fault ≡ BadText → short (chars name.now) (chars rest.now) ≡ None) }
    ensures rest { IfOk result (λ read. chars read.1.now ≡ chars rest.now) }
{
    match Atom::new(alloc, name) {
        Ok(atom) => Ok((atom, rest)),
        Err(TermFault::OutOfMemory) => Err(TextFault::OutOfMemory),
        Err(_) => Err(TextFault::BadText),
    }
}

// An atom that is written bare.
fn bare_at(alloc: Global, text: &str) -> Read<'_, Atom>
    ensures ok { IfOk result (λ read. bare_read (chars text.now) ≡ Some (read.0, chars read.1.now)) }
    ensures err { IfErr result (λ fault. fault ≡ BadText → bare_read (chars text.now) ≡ None) }
    ensures rest { IfOk result (λ read. chars read.1.now ≡ drop (prefix_len counts_as_word (chars text.now)) (chars text.now)) }
{
    let (word, rest) = word_of(text);
    atom_of(alloc, word, rest)
}

// An atom: bare where it can be written so, and only then.
#[tactic(auto, unfolding(crate::specs::Reading::atom_at))]
pub fn atom_at(alloc: Global, text: &str) -> Read<'_, Atom>
    ensures ok { IfOk result (λ read. atom_read (chars text.now) ≡ Some (read.0, chars read.1.now)) }
    ensures err { IfErr result (λ fault. fault ≡ BadText → atom_read (chars text.now) ≡ None) }
    ensures shorter { IfOk result (λ read. length (chars read.1.now) < length (chars text.now)) }
{
    match after(text, '\'') {
        Some(inside) => {
            let (name, rest) = quoted_at(alloc, inside)?;
            if is_bare(name.as_str()) {
                return Err(TextFault::BadText);
            }
            atom_of(alloc, name.as_str(), rest)
        }
        None if begins_small(text) => bare_at(alloc, text),
        None => Err(TextFault::BadText),
    }
}
