//! Where values end: walks that keep nothing, and take no memory.

ghost use Rattle.std.specs.Prelude.{◌≡◌, ◌<◌, ◌≤◌, ◌∷◌, ◌++◌, ◌==◌, ◌&&◌, not, nat_lt, if◌then◌else◌, [], ℕ, false, List, length, drop, Some, None, IfSome, is_some};
ghost use Rattle.std.specs.Char.{is_ascii_lowercase};
ghost use Rattle.std.specs.Str.{chars};
ghost use Rattle.pg_text.specs.Ends.{past, words_past, IsSeen};
ghost use Rattle.pg_text.specs.Reading.{then_read, unless_bare, bare_at as bare_read, atom_at as atom_read};
ghost use Rattle.pg_text.specs.Reading.{quoted_at as quoted_read, pid_at as pid_read};
ghost use Rattle.pg_text.specs.Reading.{reference_at as reference_read, elements_at as elements_read};
ghost use Rattle.pg_text.specs.Reading.{numeral_at as numeral_read, bytes_at as bytes_read, angled_at as angled_read};
ghost use Rattle.pg_text.specs.Reading.{leaf_at as leaf_read, term_at as term_read, term_of, pid_of, atom_from_text};
ghost use Rattle.pg_text.specs.declared.reading.quoted.Place.TheVariants.{Plain};

use crate::reading::MAX_DEPTH;
use crate::reading::atoms::word_of;
use crate::reading::fronts::{after, first_of, is_over};
use crate::reading::numerals::{integer_at, number_at, numeral_at};
use crate::reading::parts::{numbers_at, part_at};
use crate::reading::quoted::{Place, Quoted, read_quoted};
use crate::reading::terms::begins_number;
use crate::writing::{begins_small, is_word};
use pg_term::is_long;

/// Characters that were not kept: how many they are, and whether they stand bare.
#[derive(Clone, Copy)]
pub struct Seen {
    pub count: u32,
    pub bare: bool,
}

// Whether characters stand bare so far, with this one behind those that were seen: it is a small letter where it comes first.
fn begins_bare(seen: Seen, character: char) -> bool
    ensures { result ≡ (if seen.count == 0 then is_ascii_lowercase character else seen.bare) }
{
    if seen.count == 0 {
        character.is_ascii_lowercase()
    } else {
        seen.bare
    }
}

// One character more, where an atom has room for it.
fn with_one(seen: Seen, character: char) -> Option<Seen>
    ensures some { IfSome result (λ next. (characters : List ℕ) → IsSeen characters seen → IsSeen (characters ++ character ∷ []) next) }
    ensures none { result ≡ None → 255 ≤ seen.count }
{
    if seen.count >= 255 {
        return None;
    }
    Some(Seen {
        count: seen.count + 1,
        bare: begins_bare(seen, character) && is_word(character),
    })
}

// Whether an atom has so many characters, and stands in quotes.
fn is_quoted(seen: Seen) -> bool
    ensures { result ≡ (not seen.bare && not (nat_lt 255 seen.count)) }
{
    !seen.bare && seen.count <= 255
}

// Behind the quote that closes an atom.
fn quoted_end(text: &str) -> Option<&str>
    ensures some { IfSome result (λ rest. past (then_read (quoted_read (chars text.now) Plain) unless_bare) ≡ Some (chars rest.now)) }
    ensures none { result ≡ None → past (then_read (quoted_read (chars text.now) Plain) unless_bare) ≡ None }
    ensures shorter { IfSome result (λ rest. length (chars rest.now) < length (chars text.now)) }
{
    let mut seen = Seen {
        count: 0,
        bare: false,
    };
    let mut place = Place::Plain;
    let mut rest = text;
    while let Some((character, follows)) = first_of(rest) {
        rest = follows;
        match read_quoted(place, character) {
            Quoted::Close if is_quoted(seen) => return Some(rest),
            Quoted::Close => return None,
            Quoted::Character(read) => {
                seen = with_one(seen, read)?;
                place = Place::Plain;
            }
            Quoted::Within(next) => place = next,
            Quoted::Bad => return None,
        }
    }
    None
}

// Behind an atom that is written bare.
fn bare_end(text: &str) -> Option<&str>
    ensures some { IfSome result (λ rest. past (bare_read (chars text.now)) ≡ Some (chars rest.now)) }
    ensures none { result ≡ None → past (bare_read (chars text.now)) ≡ None }
{
    let (word, rest) = word_of(text);
    if is_long(word) {
        return None;
    }
    Some(rest)
}

// Behind an atom.
#[tactic(auto, unfolding(crate::specs::Reading::atom_at))]
fn atom_end(text: &str) -> Option<&str>
    ensures some { IfSome result (λ rest. past (atom_read (chars text.now)) ≡ Some (chars rest.now)) }
    ensures none { result ≡ None → past (atom_read (chars text.now)) ≡ None }
    ensures shorter { IfSome result (λ rest. length (chars rest.now) < length (chars text.now)) }
{
    match after(text, '\'') {
        Some(inside) => quoted_end(inside),
        None if begins_small(text) => bare_end(text),
        None => None,
    }
}

// Behind a pid.
#[tactic(auto, unfolding(crate::specs::Reading::pid_at))]
fn pid_end(text: &str) -> Option<&str>
    ensures some { IfSome result (λ rest. past (pid_read (chars text.now)) ≡ Some (chars rest.now)) }
    ensures none { result ≡ None → past (pid_read (chars text.now)) ≡ None }
    ensures shorter { IfSome result (λ rest. length (chars rest.now) < length (chars text.now)) }
{
    let numbers = atom_end(after(text, '<')?)?;
    match numbers_at(numbers) {
        Ok((_, _, _, rest)) => Some(rest),
        Err(_) => None,
    }
}

// Behind the words of a reference, of which there is at least one.
fn words_end(text: &str) -> Option<&str>
    ensures some { IfSome result (λ rest. words_past (chars text.now) ≡ Some (chars rest.now)) }
    ensures none { result ≡ None → words_past (chars text.now) ≡ None }
    ensures shorter { IfSome result (λ rest. length (chars rest.now) ≤ length (chars text.now)) }
{
    let _first = after(text, '.')?;
    let mut rest = text;
    for _ in 0..3_u32 {
        if let Some(digits) = after(rest, '.') {
            let Ok((_, follows)) = number_at(digits) else {
                return None;
            };
            rest = follows;
        }
    }
    after(rest, '>')
}

// Behind a reference, after its `#`.
fn reference_end(text: &str) -> Option<&str>
    ensures some { IfSome result (λ rest. past (reference_read (chars text.now)) ≡ Some (chars rest.now)) }
    ensures none { result ≡ None → past (reference_read (chars text.now)) ≡ None }
    ensures shorter { IfSome result (λ rest. length (chars rest.now) < length (chars text.now)) }
{
    let creation = atom_end(after(text, '<')?)?;
    let Ok((_, words)) = part_at(creation, '/') else {
        return None;
    };
    words_end(words)
}

// Behind bytes with commas between them, and the `>` that ends them.
fn byte_list_end(text: &str) -> Option<&str>
    ensures some { IfSome result (λ rest. past (elements_read (numeral_read 255) 62 (chars text.now)) ≡ Some (chars rest.now)) }
    ensures none { result ≡ None → past (elements_read (numeral_read 255) 62 (chars text.now)) ≡ None }
    ensures shorter { IfSome result (λ rest. length (chars rest.now) < length (chars text.now)) }
{
    if let Some(rest) = after(text, '>') {
        return Some(rest);
    }
    let mut rest = text;
    loop {
        let Ok((_, follows)) = numeral_at(rest, 255) else {
            return None;
        };
        match after(follows, ',') {
            Some(more) => rest = more,
            None => return after(follows, '>'),
        }
    }
}

// Behind a binary, after its `<<`.
fn bytes_end(text: &str) -> Option<&str>
    ensures some { IfSome result (λ rest. past (bytes_read (chars text.now)) ≡ Some (chars rest.now)) }
    ensures none { result ≡ None → past (bytes_read (chars text.now)) ≡ None }
    ensures shorter { IfSome result (λ rest. length (chars rest.now) < length (chars text.now)) }
{
    after(byte_list_end(text)?, '>')
}

// Behind a binary or a pid, whose first `<` stands before `inside`.
fn angled_end<'a>(text: &'a str, inside: &'a str) -> Option<&'a str>
    requires { chars inside.now ≡ drop 1 (chars text.now) }
    ensures some { IfSome result (λ rest. past (angled_read (chars text.now)) ≡ Some (chars rest.now)) }
    ensures none { result ≡ None → past (angled_read (chars text.now)) ≡ None }
    ensures shorter { IfSome result (λ rest. length (chars rest.now) < length (chars text.now)) }
{
    match after(inside, '<') {
        Some(bytes) => bytes_end(bytes),
        None => pid_end(text),
    }
}

// Behind a term that holds no terms.
fn leaf_end(text: &str) -> Option<&str>
    ensures some { IfSome result (λ rest. past (leaf_read (chars text.now)) ≡ Some (chars rest.now)) }
    ensures none { result ≡ None → past (leaf_read (chars text.now)) ≡ None }
    ensures shorter { IfSome result (λ rest. length (chars rest.now) < length (chars text.now)) }
{
    if let Some(parts) = after(text, '#') {
        return reference_end(parts);
    }
    if let Some(inside) = after(text, '<') {
        return angled_end(text, inside);
    }
    if begins_number(text) {
        return match integer_at(text) {
            Ok((_, rest)) => Some(rest),
            Err(_) => None,
        };
    }
    atom_end(text)
}

// Behind a term that nests at most `room` levels deep.
#[cycle(ends)]
fn term_end(text: &str, room: usize) -> Option<&str>
    ensures some { IfSome result (λ rest. past (term_read room (chars text.now)) ≡ Some (chars rest.now)) }
    ensures none { result ≡ None → past (term_read room (chars text.now)) ≡ None }
    ensures shorter { IfSome result (λ rest. length (chars rest.now) < length (chars text.now)) }
{
    if room == 0 {
        return None;
    }
    if let Some(inside) = after(text, '{') {
        return elements_end(inside, '}', room - 1);
    }
    if let Some(inside) = after(text, '[') {
        return elements_end(inside, ']', room - 1);
    }
    leaf_end(text)
}

// Behind elements, and the bracket that ends them.
#[cycle(ends)]
fn elements_end(text: &str, last: char, room: usize) -> Option<&str>
    ensures some { IfSome result (λ rest. past (elements_read (term_read room) last (chars text.now)) ≡ Some (chars rest.now)) }
    ensures none { result ≡ None → past (elements_read (term_read room) last (chars text.now)) ≡ None }
    ensures shorter { IfSome result (λ rest. length (chars rest.now) < length (chars text.now)) }
{
    if let Some(rest) = after(text, last) {
        return Some(rest);
    }
    let mut rest = text;
    loop {
        let follows = term_end(rest, room)?;
        match after(follows, ',') {
            Some(more) => rest = more,
            None => return after(follows, last),
        }
    }
}

// Whether nothing follows.
fn is_end(rest: Option<&str>) -> bool
    ensures some { IfSome rest.entry (λ text. result ≡ (length (chars text.now) == 0)) }
    ensures none { rest.entry ≡ None → result ≡ false }
{
    match rest {
        Some(rest) => is_over(rest),
        None => false,
    }
}

/// Whether this is the text of an atom.
pub fn is_atom(text: &str) -> bool
    ensures { result ≡ is_some (atom_from_text (chars text.now)) }
{
    is_end(atom_end(text))
}

/// Whether this is the text of a pid.
pub fn is_pid(text: &str) -> bool
    ensures { result ≡ is_some (pid_of (chars text.now)) }
{
    is_end(pid_end(text))
}

/// Whether this is the text of a term.
pub fn is_term(text: &str) -> bool
    ensures { result ≡ is_some (term_of (chars text.now)) }
{
    is_end(term_end(text, MAX_DEPTH))
}
