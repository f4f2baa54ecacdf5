ghost use Rattle.std.specs.Prelude.{◌≡◌, ◌+◌, ◌<◌, ◌≤◌, ◌↔◌, ◌∷◌, ◌++◌, length, OnOk};
ghost use Rattle.std.specs.Prelude.{OnErr, IfOk, IsOk, IsOkUnless, MatchResult};
ghost use Rattle.pg_term.specs.Depth.{depth};
ghost use Rattle.pg_term_io.specs.Writing.{big_bytes, int_bytes, atom_bytes, pid_bytes, reference_bytes};
ghost use Rattle.pg_term_io.specs.Writing.{binary_bytes, tuple_head, list_head, item_bytes, all_bytes, tuple_bytes};
ghost use Rattle.pg_term_io.specs.Writing.{list_bytes, written, IsWritable, IsTooLong, IsSpelled, AreSpelled};
ghost use Rattle.pg_term_io.specs.Spelling.{IsAtom, Spells};
ghost use Rattle.pg_term_io.specs.Limits.{max_depth, max_len};

use crate::tag::{
    ATOM_UTF8_EXT, BINARY_EXT, INTEGER_EXT, LARGE_TUPLE_EXT, LIST_EXT, NEW_PID_EXT,
    NEWER_REFERENCE_EXT, NIL_EXT, SMALL_ATOM_UTF8_EXT, SMALL_BIG_EXT, SMALL_INTEGER_EXT,
    SMALL_TUPLE_EXT,
};
use crate::writer::size::{digit_count, encode_len};
use bytes::BytesMut;
use pg_term::{Atom, Pid, Reference, Term, TermFault};
use std::alloc::Global;

/// Writes an integer into room that was reserved: SMALL_INTEGER_EXT, INTEGER_EXT or SMALL_BIG_EXT
/// of the External Term Format, the first that holds it.
///
/// Cost: no memory.
#[tactic(auto, using(crate::proofs::Spelled::number_spelled))]
pub fn put_int(out: &mut BytesMut, number: i64)
    requires { length (int_bytes number) ≤ out.old.spare }
    ensures items { out.new.items ≡ out.old.items ++ int_bytes number }
    ensures spare { out.new.spare + length (int_bytes number) ≡ out.old.spare }
    ensures spelled { IsSpelled (Term.Int number) }
{
    if let Ok(small) = u8::try_from(number) {
        out.extend_reserved(&[SMALL_INTEGER_EXT, small]);
    } else if let Ok(word) = i32::try_from(number) {
        out.extend_reserved(&[INTEGER_EXT]);
        out.extend_reserved(&word.to_be_bytes());
    } else if number < 0 {
        put_big(out, 1, number.unsigned_abs());
    } else {
        put_big(out, 0, number.unsigned_abs());
    }
}

#[tactic(auto, using(crate::proofs::WrittenDigits::counting), unfolding(crate::specs::Writing::big_bytes))]
fn put_big(out: &mut BytesMut, sign: u8, magnitude: u64)
    requires { length (big_bytes sign magnitude) ≤ out.old.spare }
    ensures items { out.new.items ≡ out.old.items ++ big_bytes sign magnitude }
    ensures spare { out.new.spare + length (big_bytes sign magnitude) ≡ out.old.spare }
{
    out.extend_reserved(&[SMALL_BIG_EXT, digit_count(magnitude) as u8, sign]);
    let mut rest = magnitude;
    while rest > 0 {
        out.extend_reserved(&[(rest % 256) as u8]);
        rest /= 256;
    }
}

/// Writes an atom into room that was reserved: SMALL_ATOM_UTF8_EXT or ATOM_UTF8_EXT.
///
/// Cost: no memory.
#[tactic(auto, using(crate::proofs::Spelled::atom_spelled), unfolding(crate::specs::Writing::atom_bytes))]
pub fn put_atom(out: &mut BytesMut, atom: &Atom)
    requires { length (atom_bytes atom.now) ≤ out.old.spare }
    ensures items { out.new.items ≡ out.old.items ++ atom_bytes atom.now }
    ensures spare { out.new.spare + length (atom_bytes atom.now) ≡ out.old.spare }
    ensures spelled { IsAtom atom.now (atom_bytes atom.now) }
{
    let text = atom.as_str().as_bytes();
    let len = text.len();
    if len <= 255 {
        out.extend_reserved(&[SMALL_ATOM_UTF8_EXT, len as u8]);
    } else {
        out.extend_reserved(&[ATOM_UTF8_EXT]);
        out.extend_reserved(&(len as u16).to_be_bytes());
    }
    out.extend_reserved(text);
}

/// Writes a pid into room that was reserved: NEW_PID_EXT.
///
/// Cost: no memory.
#[tactic(auto, unfolding(crate::specs::Writing::pid_bytes))]
pub fn put_pid(out: &mut BytesMut, pid: &Pid)
    requires { length (pid_bytes pid.now) ≤ out.old.spare }
    ensures items { out.new.items ≡ out.old.items ++ pid_bytes pid.now }
    ensures spare { out.new.spare + length (pid_bytes pid.now) ≡ out.old.spare }
    ensures spelled { IsSpelled (Term.Pid pid.now) }
{
    out.extend_reserved(&[NEW_PID_EXT]);
    put_atom(out, &pid.node);
    out.extend_reserved(&pid.id.to_be_bytes());
    out.extend_reserved(&pid.serial.to_be_bytes());
    out.extend_reserved(&pid.creation.to_be_bytes());
}

/// Writes a reference into room that was reserved: NEWER_REFERENCE_EXT.
///
/// Cost: no memory.
#[tactic(auto, using(crate::proofs::WrittenWords::reference_len), unfolding(crate::specs::Writing::reference_bytes))]
pub fn put_reference(out: &mut BytesMut, reference: &Reference)
    requires { length (reference_bytes reference.now) ≤ out.old.spare }
    ensures items { out.new.items ≡ out.old.items ++ reference_bytes reference.now }
    ensures spare { out.new.spare + length (reference_bytes reference.now) ≡ out.old.spare }
    ensures spelled { IsSpelled (Term.Ref reference.now) }
{
    out.extend_reserved(&[NEWER_REFERENCE_EXT]);
    out.extend_reserved(&(reference.words().len() as u16).to_be_bytes());
    put_atom(out, reference.node());
    out.extend_reserved(&reference.creation().to_be_bytes());
    for word in reference.words() {
        out.extend_reserved(&word.to_be_bytes());
    }
}

// Writes a binary into room that was reserved: BINARY_EXT.
fn put_binary(out: &mut BytesMut, content: &[u8])
    requires short { length (binary_bytes content.now) ≤ max_len }
    requires room { length (binary_bytes content.now) ≤ out.old.spare }
    ensures items { out.new.items ≡ out.old.items ++ binary_bytes content.now }
    ensures spare { out.new.spare + length (binary_bytes content.now) ≡ out.old.spare }
    ensures spelled { IsSpelled (Term.Binary content.now) }
{
    out.extend_reserved(&[BINARY_EXT]);
    out.extend_reserved(&(content.len() as u32).to_be_bytes());
    out.extend_reserved(content);
}

/// Writes what is before the elements of a tuple into room that was reserved: SMALL_TUPLE_EXT or LARGE_TUPLE_EXT.
///
/// Cost: no memory.
pub fn put_tuple_head(out: &mut BytesMut, arity: u32)
    requires { length (tuple_head arity) ≤ out.old.spare }
    ensures items { out.new.items ≡ out.old.items ++ tuple_head arity }
    ensures spare { out.new.spare + length (tuple_head arity) ≡ out.old.spare }
{
    if arity <= 255 {
        out.extend_reserved(&[SMALL_TUPLE_EXT, arity as u8]);
    } else {
        out.extend_reserved(&[LARGE_TUPLE_EXT]);
        out.extend_reserved(&arity.to_be_bytes());
    }
}

/// Writes what is before the elements of a list into room that was reserved: LIST_EXT, or nothing for no elements.
/// After the elements belongs NIL_EXT.
///
/// Cost: no memory.
pub fn put_list_head(out: &mut BytesMut, count: u32)
    requires { length (list_head count) ≤ out.old.spare }
    ensures items { out.new.items ≡ out.old.items ++ list_head count }
    ensures spare { out.new.spare + length (list_head count) ≡ out.old.spare }
{
    if count > 0 {
        out.extend_reserved(&[LIST_EXT]);
        out.extend_reserved(&count.to_be_bytes());
    }
}

/// Writes a term as one item, without the version byte 131, into room that was reserved.
///
/// Cost: no memory; one walk over the term, as many levels down as it nests: `item_len` bounds them.
#[cycle(put)]
pub fn put_item(out: &mut BytesMut, term: &Term)
    requires short { length (item_bytes term.now) ≤ max_len }
    requires room { length (item_bytes term.now) ≤ out.old.spare }
    ensures items { out.new.items ≡ out.old.items ++ item_bytes term.now }
    ensures spare { out.new.spare + length (item_bytes term.now) ≡ out.old.spare }
    ensures spelled { IsSpelled term.now }
{
    match term {
        Term::Int(number) => put_int(out, *number),
        Term::Atom(atom) => put_atom(out, atom),
        Term::Ref(reference) => put_reference(out, reference.get()),
        Term::Pid(pid) => put_pid(out, pid),
        Term::Tuple(items) => put_tuple(out, items.as_slice()),
        Term::List(items) => put_list(out, items.as_slice()),
        Term::Binary(content) => put_binary(out, content.as_slice()),
    }
}

#[cycle(put)]
fn put_tuple(out: &mut BytesMut, terms: &[Term])
    requires short { length (tuple_bytes terms.now) ≤ max_len }
    requires room { length (tuple_bytes terms.now) ≤ out.old.spare }
    ensures items { out.new.items ≡ out.old.items ++ tuple_bytes terms.now }
    ensures spare { out.new.spare + length (tuple_bytes terms.now) ≡ out.old.spare }
    ensures spelled { IsSpelled (Term.Tuple terms.now) }
{
    put_tuple_head(out, terms.len() as u32);
    put_all(out, terms);
}

#[cycle(put)]
fn put_list(out: &mut BytesMut, terms: &[Term])
    requires short { length (list_bytes terms.now) ≤ max_len }
    requires room { length (list_bytes terms.now) ≤ out.old.spare }
    ensures items { out.new.items ≡ out.old.items ++ list_bytes terms.now }
    ensures spare { out.new.spare + length (list_bytes terms.now) ≡ out.old.spare }
    ensures spelled { IsSpelled (Term.List terms.now) }
{
    put_list_head(out, terms.len() as u32);
    put_all(out, terms);
    out.extend_reserved(&[NIL_EXT]);
}

#[cycle(put)]
fn put_all(out: &mut BytesMut, terms: &[Term])
    requires short { length (all_bytes terms.now) ≤ max_len }
    requires room { length (all_bytes terms.now) ≤ out.old.spare }
    ensures items { out.new.items ≡ out.old.items ++ all_bytes terms.now }
    ensures spare { out.new.spare + length (all_bytes terms.now) ≡ out.old.spare }
    ensures spelled { AreSpelled terms.now }
{
    // The last of them after the loop, where a call takes the place of its caller.
    let Some((last, others)) = terms.split_last() else {
        return;
    };
    for term in others {
        put_item(out, term);
    }
    put_item(out, last);
}

#[tactic(auto, using(crate::proofs::Spelled::written_spelled))]
fn put_written(out: &mut BytesMut, term: &Term)
    requires short { length (written term.now) ≤ max_len }
    requires room { length (written term.now) ≤ out.old.spare }
    ensures items { out.new.items ≡ out.old.items ++ written term.now }
    ensures spare { out.new.spare + length (written term.now) ≡ out.old.spare }
    ensures spelled { depth term.now ≤ max_depth → Spells term.now (written term.now) }
{
    out.extend_reserved(&[131]);
    put_item(out, term);
}

/// The external term: the byte 131 and the term as one item, by the External Term Format chapter of the Erlang
/// documentation. What is written spells the term, so `decode` gives it back.
///
/// Errors: `TooDeep`, where the term nests more than 64 levels deep; `TooLong`, where it takes more than 16,777,216
/// bytes; `OutOfMemory`. The first two come before anything is allocated.
///
/// Cost: one allocation.
pub fn encode(alloc: Global, term: &Term) -> Result<Vec<u8>, TermFault>
    ensures ok { IfOk result (λ v. v.items ≡ written term.now) }
    ensures spelled { IfOk result (λ v. Spells term.now v.items) }

    // Only a writable term is written, and for it only memory can be missing.
    ensures writable { IsOk result → IsWritable term.now }
    ensures out_of_memory { IsWritable term.now → IsOkUnless result TermFault.OutOfMemory }
    ensures too_deep { (result ≡ Err TermFault.TooDeep) ↔ (max_depth < depth term.now) }
    ensures too_long { (result ≡ Err TermFault.TooLong) ↔ IsTooLong term.now }
{
    let len = encode_len(term)?;
    let mut out = BytesMut::with_capacity(alloc, len)?;
    put_written(&mut out, term);
    Ok(out.into_vec()?)
}

/// Appends what `encode` writes to what a buffer holds.
///
/// Errors: `TooDeep` and `TooLong`, as `encode`; `OutOfMemory`, where the room does not suffice and the buffer can't
/// grow. They leave the bytes of the buffer as they were.
///
/// Cost: no allocation where the room suffices; two walks over the term.
pub fn encode_into(term: &Term, out: &mut BytesMut) -> Result<(), TermFault>
    ensures ok { OnOk result (out.new.items ≡ out.old.items ++ written term.now) }
    ensures spelled { OnOk result (Spells term.now (written term.now)) }
    ensures err { OnErr result (out.new.items ≡ out.old.items) }

    // Only a writable term is written, and for it only room can be missing.
    ensures writable { IsOk result → IsWritable term.now }
    ensures out_of_memory { IsWritable term.now → IsOkUnless result TermFault.OutOfMemory }
    ensures too_deep { (result ≡ Err TermFault.TooDeep) ↔ (max_depth < depth term.now) }
    ensures too_long { (result ≡ Err TermFault.TooLong) ↔ IsTooLong term.now }
    ensures succeeds { IsWritable term.now
        → length (written term.now) ≤ out.old.spare → IsOk result }
    ensures spare { MatchResult result
        (λ _. out.old.spare ≤ out.new.spare + length (written term.now))
        (λ _. out.old.spare ≤ out.new.spare) }
{
    let len = encode_len(term)?;
    out.reserve(len)?;
    put_written(out, term);
    Ok(())
}
