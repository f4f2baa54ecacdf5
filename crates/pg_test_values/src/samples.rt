//! Terms that tests name by small values.

use pg_term::{Atom, Boxed, Fields, Pid, Reference, Term, TermFault};
use pg_text::{TextFault, read_term};
use std::alloc::Global;

/// A term, or why there is none.
pub type Made = Result<Term, TermFault>;

#[derive(Clone, Copy)]
pub enum Sample {
    /// The term of this text.
    Text(&'static str),
    /// An atom of so many times the text.
    Atom(usize, &'static str),
    /// A reference of these words.
    Reference(&'static [u32]),
    /// A tuple of so many times the integer.
    Tuple(usize, i64),
    /// An empty tuple within so many tuples.
    Deep(usize),
    /// A tuple that is too long, and one that makes both too deep.
    LongAndDeep,
}

/// The pid of node a with this id.
pub fn pid(alloc: Global, id: u32) -> Result<Pid, TermFault> {
    Ok(Pid {
        node: Atom::new(alloc, "a")?,
        serial: 0,
        id,
        creation: 1,
    })
}

/// The reference of node a with these words.
pub fn reference(alloc: Global, words: &[u32]) -> Result<Reference, TermFault> {
    Reference::new(Atom::new(alloc, "a")?, 1, words)
}

/// So many times the text.
pub fn atom(alloc: Global, times: usize, text: &str) -> Result<Term, TermFault> {
    let mut name = String::new(alloc);
    for _ in 0..times {
        name.push_str(text)?;
    }
    Ok(Term::Atom(Atom::new(alloc, name.as_str())?))
}

fn tuple(alloc: Global, times: usize, number: i64) -> Result<Term, TermFault> {
    let mut items = Vec::with_capacity(alloc, times)?;
    for _ in 0..times {
        items.push(Term::Int(number))?;
    }
    Ok(Term::Tuple(Fields::from_vec(items)))
}

/// A term within so many tuples.
pub fn nested(alloc: Global, levels: usize, inner: Term) -> Result<Term, TermFault> {
    let mut term = inner;
    for _ in 0..levels {
        term = Term::Tuple(Fields::from_vec(vec![in alloc; term]?));
    }
    Ok(term)
}

fn deep(alloc: Global, levels: usize) -> Result<Term, TermFault> {
    let innermost = Term::Tuple(Fields::from_vec(Vec::new(alloc)));
    nested(alloc, levels, innermost)
}

/// A tuple of two.
pub fn pair(alloc: Global, first: Term, second: Made) -> Made {
    match second {
        Ok(second) => Ok(Term::Tuple(Fields::from_vec(vec![in alloc; first, second]?))),
        Err(fault) => {
            drop(first);
            Err(fault)
        }
    }
}

fn reference_term(alloc: Global, words: &[u32]) -> Result<Term, TermFault> {
    Ok(Term::Ref(Boxed::new(alloc, reference(alloc, words)?)?))
}

fn long_and_deep(alloc: Global) -> Result<Term, TermFault> {
    pair(alloc, tuple(alloc, 1_525_201, i64::MAX)?, deep(alloc, 63))
}

// A text that is none of a term is told as a tag that is none.
fn read(alloc: Global, text: &str) -> Result<Term, TermFault> {
    match read_term(alloc, text) {
        Ok(term) => Ok(term),
        Err(TextFault::OutOfMemory) => Err(TermFault::OutOfMemory),
        Err(TextFault::BadText) => Err(TermFault::UnknownTag),
    }
}

/// The term.
pub fn made(alloc: Global, sample: Sample) -> Result<Term, TermFault> {
    match sample {
        Sample::Text(text) => read(alloc, text),
        Sample::Atom(times, text) => atom(alloc, times, text),
        Sample::Reference(words) => reference_term(alloc, words),
        Sample::Tuple(times, number) => tuple(alloc, times, number),
        Sample::Deep(levels) => deep(alloc, levels),
        Sample::LongAndDeep => long_and_deep(alloc),
    }
}
