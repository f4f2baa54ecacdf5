//! What is tried of a term: the bytes that are written for it, that these and others are read as it, and that it is refused.

use crate::rows::Row;
use crate::samples::{Sample, made};
use bytes::BytesMut;
use pg_message::MessageFault;
use pg_term::{Term, TermFault};
use pg_term_io::{check_term, decode, encode, encode_into, encode_len};
use std::alloc::Global;

/// A term is written as so many bytes that begin with these, and is read from them and from each of the others.
#[derive(Clone, Copy)]
pub struct Made(
    pub Sample,
    pub usize,
    pub &'static [u8],
    pub &'static [&'static [u8]],
);

// Whether the bytes are read as the term.
fn spell(alloc: Global, bytes: &[u8], term: &Term) -> Result<bool, TermFault> {
    check_term(bytes)?;
    with!(decode(alloc, bytes), read => Ok(read == *term))
}

// Whether so many bytes are written, which begin with these, and are read as the term.
fn is_written(alloc: Global, term: &Term, len: usize, front: &[u8]) -> Result<bool, TermFault> {
    let is_long = encode_len(term) == Ok(len);
    match encode(alloc, term) {
        Ok(bytes) => {
            let is_same = bytes.len() == len && bytes.as_slice().starts_with(front);
            let spell = spell(alloc, &bytes, term);
            drop(bytes);
            Ok(spell? && is_same && is_long)
        }
        Err(fault) => Err(fault),
    }
}

// Whether the term is written and read as the row says.
fn is_as_made(alloc: Global, term: &Term, row: Made) -> Result<bool, TermFault> {
    let mut told = is_written(alloc, term, row.1, row.2);
    for bytes in row.3 {
        if told == Ok(true) {
            told = spell(alloc, bytes, term);
        }
    }
    told
}

impl Row for Made {
    fn told(&self, alloc: Global) -> Result<bool, MessageFault> {
        let told = with!(made(alloc, self.0), term => is_as_made(alloc, &term, *self));
        Ok(told?)
    }
}

/// There is no such term, or it is neither measured nor written, for this fault.
#[derive(Clone, Copy)]
pub struct Refused(pub Sample, pub TermFault);

// Appends a number, again where memory was refused, and tells whether nothing was appended then.
fn put(out: &mut BytesMut, number: i64) -> Result<bool, TermFault> {
    let term = Term::Int(number);
    let len = out.len();
    let mut told = encode_into(&term, out);
    let mut is_kept = true;
    if told == Err(TermFault::OutOfMemory) {
        is_kept = out.len() == len;
        told = encode_into(&term, out);
    }
    drop(term);
    told?;
    Ok(is_kept)
}

// Whether the term is not appended, and the bytes before it are these.
fn is_kept(out: &mut BytesMut, term: &Term, fault: TermFault, bytes: &[u8]) -> bool {
    encode_into(term, out) == Err(fault) && out.as_slice() == bytes
}

// Whether the term is appended neither to nothing nor to a number, and another number is.
fn is_not_appended(out: &mut BytesMut, term: &Term, fault: TermFault) -> Result<bool, TermFault> {
    let told = is_kept(out, term, fault, b"") && put(out, 5)?;
    let told = told && is_kept(out, term, fault, b"\x83a\x05") && put(out, -1)?;
    Ok(told && out.as_slice() == b"\x83a\x05\x83b\xff\xff\xff\xff".as_slice())
}

// Whether the term is neither measured nor written nor appended, for this fault.
fn is_refused(alloc: Global, term: &Term, fault: TermFault) -> Result<bool, TermFault> {
    let mut out = BytesMut::new(alloc);
    let told = is_not_appended(&mut out, term, fault);
    drop(out);
    let is_unmeasured = encode_len(term) == Err(fault);
    match encode(alloc, term).err() {
        Some(TermFault::OutOfMemory) => Err(TermFault::OutOfMemory),
        written => Ok(told? && is_unmeasured && written == Some(fault)),
    }
}

impl Row for Refused {
    fn told(&self, alloc: Global) -> Result<bool, MessageFault> {
        let told = with!(made(alloc, self.0), term => is_refused(alloc, &term, self.1));
        Ok(told == Err(self.1) || told?)
    }
}
