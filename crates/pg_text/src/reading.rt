//! Values out of their text.

ghost use Rattle.std.specs.Prelude.{◌≡◌, ◌≢◌, length, Some, None, IfOk, IfErr};
ghost use Rattle.std.specs.Str.{chars};
ghost use Rattle.pg_text.specs.Reading.{term_of, atom_from_text, pid_of, number_of};
ghost use Rattle.pg_text.specs.declared.fault.TextFault.TheVariants.{BadText, OutOfMemory};

mod atoms;
mod ends;
mod fronts;
mod numerals;
mod parts;
mod quoted;
mod terms;

use crate::fault::TextFault;
use crate::reading::atoms::atom_at;
use crate::reading::ends::{is_atom, is_pid, is_term};
use crate::reading::fronts::is_over;
use crate::reading::numerals::number_at;
use crate::reading::parts::pid_at;
use crate::reading::terms::term_at;
use pg_term::{Atom, Pid, Term};
use std::alloc::Global;

/// How many levels deep a term nests at most.
pub const MAX_DEPTH: usize = 64;

// What is at the start of a text, and what follows it.
pub(crate) type Read<'a, T> = Result<(T, &'a str), TextFault>;

// What was read, where nothing follows it.
fn whole<T: Drop>(value: T, rest: &str) -> Result<T, TextFault>
    ensures ok { IfOk result (λ whole. (whole ≡ value) × (length (chars rest.now) ≡ 0)) }
    ensures err { IfErr result (λ fault. (fault ≡ BadText) × (length (chars rest.now) ≢ 0)) }
{
    if is_over(rest) {
        Ok(value)
    } else {
        Err(TextFault::BadText)
    }
}

/// Reads a term.
///
/// Errors: `BadText` exactly where this is the text of no term of at most 64 levels; else `OutOfMemory`.
///
/// Cost: memory for the term. Where memory is refused, the text is walked through a second time.
pub fn read_term(alloc: Global, text: &str) -> Result<Term, TextFault>
    ensures ok { IfOk result (λ term. term_of (chars text.now) ≡ Some term) }
    ensures err { IfErr result (λ fault. fault ≡ BadText → term_of (chars text.now) ≡ None) }
    ensures memory { IfErr result (λ fault. fault ≡ OutOfMemory → term_of (chars text.now) ≢ None) }
{
    match term_at(alloc, text, MAX_DEPTH) {
        Ok((term, rest)) => whole(term, rest),
        Err(TextFault::OutOfMemory) if is_term(text) => Err(TextFault::OutOfMemory),
        Err(_) => Err(TextFault::BadText),
    }
}

/// Reads an atom.
///
/// Errors: `BadText` exactly where this is the text of no atom; else `OutOfMemory`.
///
/// Cost: memory for the atom. Where memory is refused, the text is walked through a second time.
pub fn read_atom(alloc: Global, text: &str) -> Result<Atom, TextFault>
    ensures ok { IfOk result (λ atom. atom_from_text (chars text.now) ≡ Some atom) }
    ensures err { IfErr result (λ fault. fault ≡ BadText → atom_from_text (chars text.now) ≡ None) }
    ensures memory { IfErr result (λ fault. fault ≡ OutOfMemory → atom_from_text (chars text.now) ≢ None) }
{
    match atom_at(alloc, text) {
        Ok((atom, rest)) => whole(atom, rest),
        Err(TextFault::OutOfMemory) if is_atom(text) => Err(TextFault::OutOfMemory),
        Err(_) => Err(TextFault::BadText),
    }
}

/// Reads a pid.
///
/// Errors: `BadText` exactly where this is the text of no pid; else `OutOfMemory`.
///
/// Cost: memory for the pid. Where memory is refused, the text is walked through a second time.
pub fn read_pid(alloc: Global, text: &str) -> Result<Pid, TextFault>
    ensures ok { IfOk result (λ pid. pid_of (chars text.now) ≡ Some pid) }
    ensures err { IfErr result (λ fault. fault ≡ BadText → pid_of (chars text.now) ≡ None) }
    ensures memory { IfErr result (λ fault. fault ≡ OutOfMemory → pid_of (chars text.now) ≢ None) }
{
    match pid_at(alloc, text) {
        Ok((pid, rest)) => whole(pid, rest),
        Err(TextFault::OutOfMemory) if is_pid(text) => Err(TextFault::OutOfMemory),
        Err(_) => Err(TextFault::BadText),
    }
}

/// Reads a number of 32 bits in decimal, without sign and leading zeros.
///
/// Errors: `BadText` where this is the text of no such number, and nothing else.
///
/// Cost: no memory.
pub fn read_number(text: &str) -> Result<u32, TextFault>
    ensures ok { IfOk result (λ number. number_of (chars text.now) ≡ Some number) }
    ensures err { IfErr result (λ fault. (fault ≡ BadText) × (number_of (chars text.now) ≡ None)) }
{
    let (number, rest) = number_at(text)?;
    whole(number, rest)
}
