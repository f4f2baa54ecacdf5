//! Packets that are spelled as they are written, read straight off their bytes: no tuple and no word is built.

ghost use Rattle.std.specs.Prelude.{◌≡◌, ◌≤◌, ◌∷◌, ◌++◌, ℕ, List, pos, codes, true, length, IfOk, IsOk, Ok};
ghost use Rattle.std.specs.Int.{w32, to_be_bytes};
ghost use Rattle.pg_term.specs.RefParts.{RefParts};
ghost use Rattle.pg_term.specs.declared.term.Term.TheVariants as terms;
ghost use Rattle.pg_term_io.specs.Reading.{item_at};
ghost use Rattle.pg_message_types.specs.Name.{is_name};
ghost use Rattle.pg_message_types.specs.Reading.{packet_spelled};
ghost use Rattle.pg_message_reader.specs.Standing.{Stands, IsTupleHead, word_bytes, said_bytes};
ghost use Rattle.pg_message_types.specs.Writing.{message_term, request_term, said_term, is_plain, is_sayable};
ghost use Rattle.pg_message_types.specs.declared.message.Message.TheVariants as messages;
ghost use Rattle.pg_message_types.specs.Limits.{max_stamp};

mod groups;

use crate::direct::groups::{groups_at, past_groups};
use crate::parts::atom;
use crate::shape::is_atom;
use pg_message_types::{MAX_NAME_LEN, MAX_STAMP, Message, Packet, Request, Said, Update, is_name};
use pg_term::{Atom, Pid, Reference, Term, TermFault};
use pg_term_io::{decode_item, decode_pid, decode_reference, skip_item};
use std::alloc::{AllocError, AllocFailed, Global};

/// How many levels a name may nest. The term of a packet may nest 64, and a name is within three tuples, as is the
/// node of an exchange.
const NAME_LEVELS: u8 = 61;

/// Why no packet is read straight off the bytes.
#[derive(Clone, Copy, Debug, PartialEq, Eq)]
pub(crate) enum Detour {
    /// Memory ran out.
    OutOfMemory,
    /// The bytes spell no packet, or spell it in another form than it is written in.
    OtherForm,
}

impl From<TermFault> for Detour {
    fn from(fault: TermFault) -> Detour {
        match fault {
            TermFault::OutOfMemory => Detour::OutOfMemory,
            _ => Detour::OtherForm,
        }
    }
}

impl From<AllocError> for Detour {
    fn from(_e: AllocError) -> Detour {
        Detour::OutOfMemory
    }
}

impl<T: Drop> From<AllocFailed<T>> for Detour {
    fn from(_e: AllocFailed<T>) -> Detour {
        Detour::OutOfMemory
    }
}

/// The packet that a body spells, where all that is around its parts is spelled as it is written. It takes memory for
/// these parts alone, and to see that an exchange whose groups do not ascend names none twice.
pub(crate) fn direct_packet(alloc: Global, body: &[u8]) -> Result<Packet, Detour>
    ensures { IfOk result (λ packet. packet_spelled body.now ≡ Ok packet) }
{
    let rest = behind(body, &[131, 104, 2])?;
    let (stamp, rest) = stamp_at(rest)?;
    let (message, rest) = message_at(alloc, rest)?;
    if !rest.is_empty() {
        drop(message);
        return Err(Detour::OtherForm);
    }
    Ok(Packet { stamp, message })
}

/// What follows these bytes at the front.
#[inline]
pub(crate) fn behind<'a>(bytes: &'a [u8], front: &[u8]) -> Result<&'a [u8], Detour>
    ensures found { IfOk result (λ rest. bytes.now ≡ front.now ++ rest.now) }
    ensures all { (rest : List ℕ) → bytes.now ≡ front.now ++ rest → IsOk result }
{
    match bytes.strip_prefix(front) {
        Some(rest) => Ok(rest),
        None => Err(Detour::OtherForm),
    }
}

/// What follows a word.
#[inline]
fn word_at<'a>(bytes: &'a [u8], word: &str) -> Result<&'a [u8], Detour>
    requires plain { is_plain word.now ≡ true }
    requires few { length word.now ≤ 255 }
    ensures term { (room : ℕ) → IfOk result (λ rest.
        Stands room (terms.Atom word.now) bytes.now rest.now) }
    ensures found { IfOk result (λ rest. bytes.now ≡ word_bytes word.now ++ rest.now) }
    ensures all { (rest : List ℕ) → bytes.now ≡ word_bytes word.now ++ rest → IsOk result }
{
    let rest = behind(bytes, &[119, word.len() as u8])?;
    behind(rest, word.as_bytes())
}

/// What follows the word with which a tuple of so many elements begins.
#[inline]
pub(crate) fn opened<'a>(bytes: &'a [u8], arity: u8, word: &str) -> Result<&'a [u8], Detour>
    requires plain { is_plain word.now ≡ true }
    requires few { length word.now ≤ 255 }
    ensures opens { IfOk result (λ rest. IsTupleHead arity word.now bytes.now rest.now) }
    ensures found { IfOk result (λ rest. bytes.now ≡ 104 ∷ arity ∷ word_bytes word.now ++ rest.now) }
    ensures all { (rest : List ℕ) → bytes.now ≡ 104 ∷ arity ∷ word_bytes word.now ++ rest → IsOk result }
{
    let rest = behind(bytes, &[104, arity])?;
    word_at(rest, word)
}

#[inline]
pub(crate) fn stamp_at(bytes: &[u8]) -> Result<(u32, &[u8]), Detour>
    ensures term { (room : ℕ) → IfOk result (λ x.
        Stands room (terms.Int (pos x.0)) bytes.now x.1.now) }
    ensures in_time { IfOk result (λ x. x.0 ≤ max_stamp) }
    ensures small { (stamp : ℕ) (rest : List ℕ) → bytes.now ≡ 97 ∷ stamp ∷ rest → IsOk result }
    ensures large { (stamp : ℕ) (rest : List ℕ) → stamp ≤ max_stamp → bytes.now ≡ 98 ∷ to_be_bytes w32 stamp ++ rest → IsOk result }
{
    if let Ok(rest) = behind(bytes, &[97]) {
        let Some((stamp, rest)) = rest.split_first() else {
            return Err(Detour::OtherForm);
        };
        Ok((u32::from(*stamp), rest))
    } else {
        large_stamp_at(bytes)
    }
}

/// A stamp that is written in four bytes.
fn large_stamp_at(bytes: &[u8]) -> Result<(u32, &[u8]), Detour>
    ensures term { (room : ℕ) → IfOk result (λ x.
        Stands room (terms.Int (pos x.0)) bytes.now x.1.now) }
    ensures in_time { IfOk result (λ x. x.0 ≤ max_stamp) }
    ensures large { (stamp : ℕ) (rest : List ℕ) → stamp ≤ max_stamp → bytes.now ≡ 98 ∷ to_be_bytes w32 stamp ++ rest → IsOk result }
{
    let rest = behind(bytes, &[98])?;
    let Some((digits, rest)) = rest.split_first_chunk::<4>() else {
        return Err(Detour::OtherForm);
    };
    let stamp = u32::from_be_bytes(*digits);
    if stamp > MAX_STAMP {
        return Err(Detour::OtherForm);
    }
    Ok((stamp, rest))
}

#[inline]
fn reference_at(alloc: Global, bytes: &[u8]) -> Result<(Reference, &[u8]), Detour>
    ensures { (room : ℕ) → IfOk result (λ x. Stands room (terms.Ref x.0) bytes.now x.1.now) }
{
    let rest = behind(bytes, &[90])?;
    Ok(decode_reference(alloc, rest)?)
}

#[inline]
fn pid_at(alloc: Global, bytes: &[u8]) -> Result<(Pid, &[u8]), Detour>
    ensures { (room : ℕ) → IfOk result (λ x. Stands room (terms.Pid x.0) bytes.now x.1.now) }
{
    let rest = behind(bytes, &[88])?;
    Ok(decode_pid(alloc, rest)?)
}

/// A name that may nest so many levels.
fn name_at(alloc: Global, levels: u8, bytes: &[u8]) -> Result<(Term, &[u8]), Detour>
    ensures term { IfOk result (λ x. item_at levels bytes.now ≡ Ok (x.0, x.1.now)) }
    ensures name { IfOk result (λ x. is_name x.0 ≡ true) }
{
    if !is_atom(bytes) {
        past_short(levels, bytes)?;
    }
    short_name_at(alloc, levels, bytes)
}

/// The same, of an atom or of what `past_short` walked over: it is decoded once, and the name that was measured is kept.
fn short_name_at(alloc: Global, levels: u8, bytes: &[u8]) -> Result<(Term, &[u8]), Detour>
    ensures term { IfOk result (λ x. item_at levels bytes.now ≡ Ok (x.0, x.1.now)) }
    ensures name { IfOk result (λ x. is_name x.0 ≡ true) }
{
    if is_atom(bytes) {
        return Ok(decode_item(alloc, levels, bytes)?);
    }
    let (name, rest) = decode_item(alloc, levels, bytes)?;
    if !is_name(&name) {
        drop(name);
        return Err(Detour::OtherForm);
    }
    Ok((name, rest))
}

/// What follows a part that takes no more bytes than a name as it is written: what takes more is left unbuilt.
fn past_short(levels: u8, bytes: &[u8]) -> Result<&[u8], Detour> {
    let behind = skip_item(levels, bytes)?;
    if bytes.len().saturating_sub(behind.len()) >= MAX_NAME_LEN {
        return Err(Detour::OtherForm);
    }
    Ok(behind)
}

fn node_at(alloc: Global, bytes: &[u8]) -> Result<(Atom, &[u8]), Detour>
    ensures { IfOk result (λ x. Stands 60 (terms.Atom x.0) bytes.now x.1.now) }
{
    if !is_atom(bytes) {
        return Err(Detour::OtherForm);
    }
    let (term, rest) = decode_item(alloc, NAME_LEVELS, bytes)?;
    let Some(node) = atom(term) else {
        return Err(Detour::OtherForm);
    };
    Ok((node, rest))
}

/// Whether groups follow a node, and nothing after them, as they are written: walked over without memory, before any
/// part is built. Whether what stands for a name is one is seen when it is built.
fn check_exchange(bytes: &[u8]) -> Result<(), Detour> {
    let groups = skip_item(NAME_LEVELS, bytes)?;
    let rest = past_groups(groups)?;
    if !rest.is_empty() {
        return Err(Detour::OtherForm);
    }
    Ok(())
}

#[inline]
fn message_at(alloc: Global, bytes: &[u8]) -> Result<(Message, &[u8]), Detour>
    ensures term { IfOk result (λ x. Stands 62 (message_term x.0) bytes.now x.1.now) }
    ensures sayable { IfOk result (λ x. is_sayable x.0 ≡ true) }
{
    // Chosen by the arity and the first letter of the word; then the word is compared.
    match bytes {
        [_, 3, _, _, b'c', ..] => call_at(alloc, opened(bytes, 3, "call")?),
        [_, 3, _, _, b'r', ..] => reply_at(alloc, opened(bytes, 3, "reply")?),
        [_, 2, _, _, b'c', ..] => cast_at(alloc, opened(bytes, 2, "cast")?),
        [_, 2, _, _, b'd', ..] => down_at(alloc, opened(bytes, 2, "down")?),
        _ => Err(Detour::OtherForm),
    }
}

// Ref, Request}
#[inline]
fn call_at(alloc: Global, bytes: &[u8]) -> Result<(Message, &[u8]), Detour>
    ensures term { (front : List ℕ) → IsTupleHead 3 (codes "call") front bytes.now → IfOk result (λ x.
        Stands 62 (message_term x.0) front x.1.now) }
    ensures sayable { IfOk result (λ x. is_sayable x.0 ≡ true) }
{
    let (reference, rest) = reference_at(alloc, bytes)?;
    let (request, rest) = request_at(alloc, rest)?;
    Ok((Message::Call(reference, request), rest))
}

// Ref, Said}
#[inline]
fn reply_at(alloc: Global, bytes: &[u8]) -> Result<(Message, &[u8]), Detour>
    ensures term { (front : List ℕ) → IsTupleHead 3 (codes "reply") front bytes.now → IfOk result (λ x.
        Stands 62 (message_term x.0) front x.1.now) }
    ensures sayable { IfOk result (λ x. is_sayable x.0 ≡ true) }
{
    let (reference, rest) = reference_at(alloc, bytes)?;
    let (said, rest) = said_at(rest)?;
    Ok((Message::Reply(reference, said), rest))
}

// {del_lock, Name, Ref}} or {exchange, Node, Groups}}
fn cast_at(alloc: Global, bytes: &[u8]) -> Result<(Message, &[u8]), Detour>
    ensures term { (front : List ℕ) → IsTupleHead 2 (codes "cast") front bytes.now → IfOk result (λ x.
        Stands 62 (message_term x.0) front x.1.now) }
    ensures sayable { IfOk result (λ x. is_sayable x.0 ≡ true) }
{
    match bytes {
        [_, 3, _, _, b'd', ..] => del_lock_at(alloc, opened(bytes, 3, "del_lock")?),
        [_, 3, _, _, b'e', ..] => exchange_at(alloc, opened(bytes, 3, "exchange")?),
        _ => Err(Detour::OtherForm),
    }
}

// Name, Ref}}
fn del_lock_at(alloc: Global, bytes: &[u8]) -> Result<(Message, &[u8]), Detour>
    ensures term { (front inner : List ℕ) → IsTupleHead 2 (codes "cast") front inner
        → IsTupleHead 3 (codes "del_lock") inner bytes.now → IfOk result (λ x.
        Stands 62 (message_term x.0) front x.1.now) }
    ensures sayable { IfOk result (λ x. is_sayable x.0 ≡ true) }
{
    let (name, rest) = name_at(alloc, NAME_LEVELS, bytes)?;
    match reference_at(alloc, rest) {
        Ok((reference, rest)) => Ok((Message::DelLock(name, reference), rest)),
        Err(detour) => {
            drop(name);
            Err(detour)
        }
    }
}

// Node, Groups}}
fn exchange_at(alloc: Global, bytes: &[u8]) -> Result<(Message, &[u8]), Detour>
    ensures term { (front inner : List ℕ) → IsTupleHead 2 (codes "cast") front inner
        → IsTupleHead 3 (codes "exchange") inner bytes.now → IfOk result (λ x.
        Stands 62 (message_term x.0) front x.1.now) }
    ensures sayable { IfOk result (λ x. is_sayable x.0 ≡ true) }
{
    check_exchange(bytes)?;
    let (node, rest) = node_at(alloc, bytes)?;
    let (groups, rest) = groups_at(alloc, rest)?;
    Ok((Message::Exchange(node, groups), rest))
}

// Pid}
#[inline]
fn down_at(alloc: Global, bytes: &[u8]) -> Result<(Message, &[u8]), Detour>
    ensures term { (front : List ℕ) → IsTupleHead 2 (codes "down") front bytes.now → IfOk result (λ x.
        Stands 62 (message_term x.0) front x.1.now) }
    ensures sayable { IfOk result (λ x. is_sayable x.0 ≡ true) }
{
    let (pid, rest) = pid_at(alloc, bytes)?;
    Ok((Message::Down(pid), rest))
}

#[inline]
fn request_at(alloc: Global, bytes: &[u8]) -> Result<(Request, &[u8]), Detour>
    ensures term { IfOk result (λ x. Stands 61 (request_term x.0) bytes.now x.1.now) }
    ensures sayable { (reference : RefParts) → IfOk result (λ x.
        is_sayable (messages.Call reference x.0) ≡ true) }
{
    match bytes {
        [_, 3, _, _, b'j', ..] => join_at(alloc, opened(bytes, 3, "join")?),
        [_, 3, _, _, b'l', ..] => leave_at(alloc, opened(bytes, 3, "leave")?),
        [_, 2, _, _, b'c', ..] => create_at(alloc, opened(bytes, 2, "create")?),
        [_, 2, _, _, b'd', ..] => delete_at(alloc, opened(bytes, 2, "delete")?),
        [_, 2, _, _, b's', ..] => set_lock_at(alloc, opened(bytes, 2, "set_lock")?),
        _ => Err(Detour::OtherForm),
    }
}

/// A name, and a pid after it.
#[inline]
fn named_pid_at(alloc: Global, bytes: &[u8]) -> Result<(Term, Pid, &[u8]), Detour>
    ensures terms { IfOk result (λ x. (mid : List ℕ)
        × Stands 60 x.0 bytes.now mid × Stands 60 (terms.Pid x.1) mid x.2.now) }
    ensures name { IfOk result (λ x. is_name x.0 ≡ true) }
{
    let (name, rest) = name_at(alloc, NAME_LEVELS, bytes)?;
    match pid_at(alloc, rest) {
        Ok((pid, rest)) => Ok((name, pid, rest)),
        Err(detour) => {
            drop(name);
            Err(detour)
        }
    }
}

// Name, Pid}
#[inline]
fn join_at(alloc: Global, bytes: &[u8]) -> Result<(Request, &[u8]), Detour>
    ensures term { (front : List ℕ) → IsTupleHead 3 (codes "join") front bytes.now → IfOk result (λ x.
        Stands 61 (request_term x.0) front x.1.now) }
    ensures sayable { (reference : RefParts) → IfOk result (λ x.
        is_sayable (messages.Call reference x.0) ≡ true) }
{
    let (name, pid, rest) = named_pid_at(alloc, bytes)?;
    Ok((Request::Change(Update::Join(name, pid)), rest))
}

// Name, Pid}
#[inline]
fn leave_at(alloc: Global, bytes: &[u8]) -> Result<(Request, &[u8]), Detour>
    ensures term { (front : List ℕ) → IsTupleHead 3 (codes "leave") front bytes.now → IfOk result (λ x.
        Stands 61 (request_term x.0) front x.1.now) }
    ensures sayable { (reference : RefParts) → IfOk result (λ x.
        is_sayable (messages.Call reference x.0) ≡ true) }
{
    let (name, pid, rest) = named_pid_at(alloc, bytes)?;
    Ok((Request::Change(Update::Leave(name, pid)), rest))
}

// Name}
#[inline]
fn create_at(alloc: Global, bytes: &[u8]) -> Result<(Request, &[u8]), Detour>
    ensures term { (front : List ℕ) → IsTupleHead 2 (codes "create") front bytes.now → IfOk result (λ x.
        Stands 61 (request_term x.0) front x.1.now) }
    ensures sayable { (reference : RefParts) → IfOk result (λ x.
        is_sayable (messages.Call reference x.0) ≡ true) }
{
    let (name, rest) = name_at(alloc, NAME_LEVELS, bytes)?;
    Ok((Request::Change(Update::Create(name)), rest))
}

// Name}
#[inline]
fn delete_at(alloc: Global, bytes: &[u8]) -> Result<(Request, &[u8]), Detour>
    ensures term { (front : List ℕ) → IsTupleHead 2 (codes "delete") front bytes.now → IfOk result (λ x.
        Stands 61 (request_term x.0) front x.1.now) }
    ensures sayable { (reference : RefParts) → IfOk result (λ x.
        is_sayable (messages.Call reference x.0) ≡ true) }
{
    let (name, rest) = name_at(alloc, NAME_LEVELS, bytes)?;
    Ok((Request::Change(Update::Delete(name)), rest))
}

// Name}
#[inline]
fn set_lock_at(alloc: Global, bytes: &[u8]) -> Result<(Request, &[u8]), Detour>
    ensures term { (front : List ℕ) → IsTupleHead 2 (codes "set_lock") front bytes.now → IfOk result (λ x.
        Stands 61 (request_term x.0) front x.1.now) }
    ensures sayable { (reference : RefParts) → IfOk result (λ x.
        is_sayable (messages.Call reference x.0) ≡ true) }
{
    let (name, rest) = name_at(alloc, NAME_LEVELS, bytes)?;
    Ok((Request::SetLock(name), rest))
}

pub(crate) fn said_at(bytes: &[u8]) -> Result<(Said, &[u8]), Detour>
    ensures term { IfOk result (λ x. Stands 61 (said_term x.0) bytes.now x.1.now) }
    ensures found { IfOk result (λ x. bytes.now ≡ said_bytes x.0 ++ x.1.now) }
    ensures applied { (rest : List ℕ) → bytes.now ≡ word_bytes (codes "ok") ++ rest → IsOk result }
    ensures granted { (rest : List ℕ) → bytes.now ≡ word_bytes (codes "true") ++ rest → IsOk result }
    ensures denied { (rest : List ℕ) → bytes.now ≡ word_bytes (codes "false") ++ rest → IsOk result }
{
    match bytes {
        [_, _, b'o', ..] => Ok((Said::Applied, word_at(bytes, "ok")?)),
        [_, _, b't', ..] => Ok((Said::Granted, word_at(bytes, "true")?)),
        [_, _, b'f', ..] => Ok((Said::Denied, word_at(bytes, "false")?)),
        _ => Err(Detour::OtherForm),
    }
}
