//! Terms.

ghost use Rattle.std.specs.Prelude.{◌≡◌, ◌<◌, length, drop, Some, None, IfOk, IfErr};
ghost use Rattle.std.specs.Str.{chars};
ghost use Rattle.pg_text.specs.Reading.{leaf_at as leaf_read, angled_at as angled_read, term_at as term_read};
ghost use Rattle.pg_text.specs.Reading.{elements_at as elements_read, begins_number as number_begins};
ghost use Rattle.pg_text.specs.declared.fault.TextFault.TheVariants.{BadText};

use crate::fault::TextFault;
use crate::reading::Read;
use crate::reading::atoms::atom_at;
use crate::reading::fronts::{after, behind, first_of};
use crate::reading::numerals::integer_at;
use crate::reading::parts::{bytes_at, pid_at, reference_at};
use pg_term::{Boxed, Fields, Items, Term};
use std::alloc::Global;

// A term that nests at most `room` levels deep, and what follows it.
#[cycle(term)]
#[tactic(auto, unfolding(crate::specs::Reading::term_at))]
pub fn term_at(alloc: Global, text: &str, room: usize) -> Read<'_, Term>
    ensures ok { IfOk result (λ read. term_read room (chars text.now) ≡ Some (read.0, chars read.1.now)) }
    ensures err { IfErr result (λ fault. fault ≡ BadText → term_read room (chars text.now) ≡ None) }
    ensures shorter { IfOk result (λ read. length (chars read.1.now) < length (chars text.now)) }
{
    if room == 0 {
        return Err(TextFault::BadText);
    }
    if let Some(inside) = after(text, '{') {
        let (elements, rest) = elements_at(alloc, inside, '}', room - 1)?;
        return Ok((Term::Tuple(Fields::from_vec(elements)), rest));
    }
    if let Some(inside) = after(text, '[') {
        let (elements, rest) = elements_at(alloc, inside, ']', room - 1)?;
        return Ok((Term::List(Items::from_vec(elements)), rest));
    }
    leaf_at(alloc, text)
}

// The elements up to the closing bracket, and what follows it.
#[cycle(term)]
fn elements_at(alloc: Global, text: &str, last: char, room: usize) -> Read<'_, Vec<Term>>
    ensures ok { IfOk result (λ read. elements_read (term_read room) last (chars text.now) ≡ Some (read.0.items, chars read.1.now)) }
    ensures err { IfErr result (λ fault. fault ≡ BadText → elements_read (term_read room) last (chars text.now) ≡ None) }
    ensures shorter { IfOk result (λ read. length (chars read.1.now) < length (chars text.now)) }
{
    let mut elements = Vec::new(alloc);
    if let Some(rest) = after(text, last) {
        return Ok((elements, rest));
    }
    let mut rest = text;
    loop {
        let (element, follows) = term_at(alloc, rest, room)?;
        elements.push(element)?;
        match after(follows, ',') {
            Some(more) => rest = more,
            None => return Ok((elements, behind(follows, last)?)),
        }
    }
}

// Whether a minus or a digit comes first.
pub fn begins_number(text: &str) -> bool
    ensures { result ≡ number_begins (chars text.now) }
{
    match first_of(text) {
        Some((first, _)) => first == '-' || first.is_ascii_digit(),
        None => false,
    }
}

// A binary, after its first `<`, or else a pid, where it begins with one.
fn angled_at<'a>(alloc: Global, text: &'a str, inside: &'a str) -> Read<'a, Term>
    requires { chars inside.now ≡ drop 1 (chars text.now) }
    ensures ok { IfOk result (λ read. angled_read (chars text.now) ≡ Some (read.0, chars read.1.now)) }
    ensures err { IfErr result (λ fault. fault ≡ BadText → angled_read (chars text.now) ≡ None) }
    ensures shorter { IfOk result (λ read. length (chars read.1.now) < length (chars text.now)) }
{
    if let Some(bytes) = after(inside, '<') {
        let (content, rest) = bytes_at(alloc, bytes)?;
        return Ok((Term::Binary(Items::from_vec(content)), rest));
    }
    let (pid, rest) = pid_at(alloc, text)?;
    Ok((Term::Pid(pid), rest))
}

// A term that holds no terms.
#[tactic(auto, unfolding(crate::specs::Reading::leaf_at))]
fn leaf_at(alloc: Global, text: &str) -> Read<'_, Term>
    ensures ok { IfOk result (λ read. leaf_read (chars text.now) ≡ Some (read.0, chars read.1.now)) }
    ensures err { IfErr result (λ fault. fault ≡ BadText → leaf_read (chars text.now) ≡ None) }
    ensures shorter { IfOk result (λ read. length (chars read.1.now) < length (chars text.now)) }
{
    if let Some(parts) = after(text, '#') {
        let (reference, rest) = reference_at(alloc, parts)?;
        return Ok((Term::Ref(Boxed::new(alloc, reference)?), rest));
    }
    if let Some(inside) = after(text, '<') {
        return angled_at(alloc, text, inside);
    }
    if begins_number(text) {
        let (number, rest) = integer_at(text)?;
        return Ok((Term::Int(number), rest));
    }
    let (atom, rest) = atom_at(alloc, text)?;
    Ok((Term::Atom(atom), rest))
}
