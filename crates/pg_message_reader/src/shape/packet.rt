//! Whether bytes spell a packet, with memory for names alone: for those that are no atoms, and those of an exchange
//! that do not ascend. Nothing else of a body is built.

ghost use Rattle.std.specs.Prelude.{◌≡◌, ◌∷◌, [], ℕ, List, Some, Ok, is_some};
ghost use Rattle.pg_term.specs.declared.pid.Pid.{Pid};
ghost use Rattle.pg_term.specs.declared.term.Term.{Term};
ghost use Rattle.pg_message_types.specs.PgTermIo.Reading.{item_at, term_of};
ghost use Rattle.pg_message_types.specs.Parts.{elements_of};
ghost use Rattle.pg_message_types.specs.Reading.{request_on, membership_of};
ghost use Rattle.pg_message_types.specs.Reading.{request_in, request_of, message_in, message_of, cast_in, cast_of};
ghost use Rattle.pg_message_types.specs.Reading.{freed, read_exchange, said_of, stamp_of, packet_in, packet_of};
ghost use Rattle.pg_message_reader.specs.Names.{Tells, Checks, Judges, all_in, is_too_large, may_stamp, names_of_packet, names_of_message};
ghost use Rattle.pg_message_reader.specs.Names.{names_of_cast, names_of_freed, names_of_exchange, names_of_request};

use crate::reading::stamp;
use crate::shape::groups::may_be_groups;
use crate::shape::groups::names::is_name_at;
use crate::shape::leaves::{int_at, is_word};
use crate::shape::parts::{is_atom, is_int, is_pid, is_reference, past};
use pg_message_types::{MessageFault, tuple_at};
use pg_term::Term;
use std::alloc::{AllocError, Global};

/// Whether the term of a body is a packet: its fault, if it has one. Of a body that spells no term nothing is said.
///
/// Errors: `NotAMessage` and `StampTooLarge`, as `read_packet` has them; `OutOfMemory` only where all is right but names
/// and members of groups, and a name is no atom, or the names of an exchange do not ascend.
///
/// Cost: memory for names that are no atoms, and for all names of an exchange where they do not ascend; linear in the
/// bytes, but for such an exchange.
pub fn check_packet(alloc: Global, body: &[u8]) -> Result<(), MessageFault>
    ensures { (t : Term) → term_of body.now ≡ Ok t
        → Checks (names_of_packet (all_in (elements_of t))) (packet_of t) result }
{
    match body {
        [] => Ok(()),
        [_, item @ ..] => check_stamped(alloc, item),
    }
}

// {Stamp, Message}
fn check_stamped(alloc: Global, bytes: &[u8]) -> Result<(), MessageFault>
    ensures { (t : Term) (rest : List ℕ) → item_at 64 bytes.now ≡ Ok (t, rest)
        → Checks (names_of_packet (all_in (elements_of t))) (packet_of t) result }
{
    let Some((arity, parts)) = tuple_at(bytes) else {
        return Err(MessageFault::NotAMessage);
    };
    if arity != 2 {
        return Err(MessageFault::NotAMessage);
    }
    check_parts(alloc, parts)
}

fn check_parts(alloc: Global, bytes: &[u8]) -> Result<(), MessageFault>
    ensures { (a b : Term) (mid rest : List ℕ) → item_at 63 bytes.now ≡ Ok (a, mid) → item_at 63 mid ≡ Ok (b, rest)
        → Checks (names_of_packet (a ∷ b ∷ [])) (packet_in (Some (a ∷ b ∷ []))) result }
{
    if !may_be_stamp(bytes) {
        return Err(MessageFault::NotAMessage);
    }
    let message = past(63, bytes);
    if !is_message(alloc, message)? {
        return Err(MessageFault::NotAMessage);
    }
    check_stamp(bytes)
}

/// Whether a part is a stamp, be it too large or not.
fn may_be_stamp(bytes: &[u8]) -> bool
    ensures { (room : ℕ) (t : Term) (rest : List ℕ) → item_at room bytes.now ≡ Ok (t, rest)
        → result ≡ may_stamp (stamp_of t) }
{
    match check_stamp(bytes) {
        Ok(()) => true,
        Err(fault) => is_too_large(fault),
    }
}

fn is_too_large(fault: MessageFault) -> bool
    ensures { result ≡ is_too_large fault }
{
    match fault {
        MessageFault::StampTooLarge => true,
        _ => false,
    }
}

/// Whether a part is a stamp, or its fault.
fn check_stamp(bytes: &[u8]) -> Result<(), MessageFault>
    ensures { (room : ℕ) (t : Term) (rest : List ℕ) → item_at room bytes.now ≡ Ok (t, rest)
        → Judges (stamp_of t) result }
{
    if !is_int(bytes) {
        return Err(MessageFault::NotAMessage);
    }
    let Some(number) = int_at(bytes) else {
        return Err(MessageFault::NotAMessage);
    };
    let term = Term::Int(number);
    match stamp(&term) {
        Ok(_) => Ok(()),
        Err(fault) => Err(fault),
    }
}

// {Word, Said} or {Word, Ref, Said}
fn is_message(alloc: Global, bytes: &[u8]) -> Result<bool, AllocError>
    ensures { (t : Term) (rest : List ℕ) → item_at 63 bytes.now ≡ Ok (t, rest)
        → Tells (names_of_message (all_in (elements_of t))) (is_some (message_of t)) result }
{
    let Some((arity, parts)) = tuple_at(bytes) else {
        return Ok(false);
    };
    if arity == 2 {
        is_unreferred(alloc, parts)
    } else if arity == 3 {
        is_referred(alloc, parts)
    } else {
        Ok(false)
    }
}

// {cast, Cast} or {down, Pid}
fn is_unreferred(alloc: Global, bytes: &[u8]) -> Result<bool, AllocError>
    ensures { (a b : Term) (mid rest : List ℕ) → item_at 62 bytes.now ≡ Ok (a, mid) → item_at 62 mid ≡ Ok (b, rest)
        → Tells (names_of_message (a ∷ b ∷ [])) (is_some (message_in (a ∷ b ∷ []))) result }
{
    let said = past(62, bytes);
    if is_word(bytes, "cast") {
        is_cast(alloc, said)
    } else if is_word(bytes, "down") {
        Ok(is_pid(said))
    } else {
        Ok(false)
    }
}

// {call, Ref, Request} or {reply, Ref, Said}
fn is_referred(alloc: Global, bytes: &[u8]) -> Result<bool, AllocError>
    ensures { (a b c : Term) (mid then rest : List ℕ) → item_at 62 bytes.now ≡ Ok (a, mid)
        → item_at 62 mid ≡ Ok (b, then) → item_at 62 then ≡ Ok (c, rest)
        → Tells (names_of_message (a ∷ b ∷ c ∷ [])) (is_some (message_in (a ∷ b ∷ c ∷ []))) result }
{
    let reference = past(62, bytes);
    let said = past(62, reference);
    if !is_reference(reference) {
        Ok(false)
    } else if is_word(bytes, "call") {
        is_request(alloc, said)
    } else if is_word(bytes, "reply") {
        Ok(is_said(said))
    } else {
        Ok(false)
    }
}

/// Whether a part is what a reply says.
fn is_said(bytes: &[u8]) -> bool
    ensures { (room : ℕ) (t : Term) (rest : List ℕ) → item_at room bytes.now ≡ Ok (t, rest)
        → result ≡ is_some (said_of t) }
{
    if is_word(bytes, "true") {
        true
    } else if is_word(bytes, "false") {
        true
    } else {
        is_word(bytes, "ok")
    }
}

// {Word, Name} or {Word, Name, Pid}
fn is_request(alloc: Global, bytes: &[u8]) -> Result<bool, AllocError>
    ensures { (t : Term) (rest : List ℕ) → item_at 62 bytes.now ≡ Ok (t, rest)
        → Tells (names_of_request (all_in (elements_of t))) (is_some (request_of t)) result }
{
    let Some((arity, parts)) = tuple_at(bytes) else {
        return Ok(false);
    };
    if arity == 2 {
        is_request_on(alloc, parts)
    } else if arity == 3 {
        is_membership(alloc, parts)
    } else {
        Ok(false)
    }
}

// {set_lock, Name}, {create, Name} or {delete, Name}
fn is_request_on(alloc: Global, bytes: &[u8]) -> Result<bool, AllocError>
    ensures { (a b : Term) (mid rest : List ℕ) → item_at 61 bytes.now ≡ Ok (a, mid) → item_at 61 mid ≡ Ok (b, rest)
        → Tells (names_of_request (a ∷ b ∷ [])) (is_some (request_in (a ∷ b ∷ []))) result }
{
    if asks_of_name(bytes) {
        is_name_at(alloc, 61, past(61, bytes))
    } else {
        Ok(false)
    }
}

/// Whether a part is the word of a request that has a name alone.
fn asks_of_name(bytes: &[u8]) -> bool
    ensures { (room : ℕ) (t : Term) (rest : List ℕ) (name : Term) → item_at room bytes.now ≡ Ok (t, rest)
        → result ≡ is_some (request_on t name) }
{
    if is_word(bytes, "set_lock") {
        true
    } else if is_word(bytes, "create") {
        true
    } else {
        is_word(bytes, "delete")
    }
}

// {join, Name, Pid} or {leave, Name, Pid}
fn is_membership(alloc: Global, bytes: &[u8]) -> Result<bool, AllocError>
    ensures { (a b c : Term) (mid then rest : List ℕ) → item_at 61 bytes.now ≡ Ok (a, mid)
        → item_at 61 mid ≡ Ok (b, then) → item_at 61 then ≡ Ok (c, rest)
        → Tells (names_of_request (a ∷ b ∷ c ∷ [])) (is_some (request_in (a ∷ b ∷ c ∷ []))) result }
{
    let name = past(61, bytes);
    if !is_pid(past(61, name)) {
        Ok(false)
    } else if asks_of_member(bytes) {
        is_name_at(alloc, 61, name)
    } else {
        Ok(false)
    }
}

/// Whether a part is the word of a request that has a member.
fn asks_of_member(bytes: &[u8]) -> bool
    ensures { (room : ℕ) (t : Term) (rest : List ℕ) (name : Term) (pid : Pid) → item_at room bytes.now ≡ Ok (t, rest)
        → result ≡ is_some (membership_of t name pid) }
{
    if is_word(bytes, "join") {
        true
    } else {
        is_word(bytes, "leave")
    }
}

// {del_lock, Name, Ref} or {exchange, Node, Groups}
fn is_cast(alloc: Global, bytes: &[u8]) -> Result<bool, AllocError>
    ensures { (t : Term) (rest : List ℕ) → item_at 62 bytes.now ≡ Ok (t, rest)
        → Tells (names_of_cast (all_in (elements_of t))) (is_some (cast_of t)) result }
{
    let Some((arity, parts)) = tuple_at(bytes) else {
        return Ok(false);
    };
    if arity != 3 {
        return Ok(false);
    }
    is_casting(alloc, parts)
}

fn is_casting(alloc: Global, bytes: &[u8]) -> Result<bool, AllocError>
    ensures { (a b c : Term) (mid then rest : List ℕ) → item_at 61 bytes.now ≡ Ok (a, mid)
        → item_at 61 mid ≡ Ok (b, then) → item_at 61 then ≡ Ok (c, rest)
        → Tells (names_of_cast (a ∷ b ∷ c ∷ [])) (is_some (cast_in (a ∷ b ∷ c ∷ []))) result }
{
    let first = past(61, bytes);
    let second = past(61, first);
    if is_word(bytes, "del_lock") {
        is_freed(alloc, first, second)
    } else if is_word(bytes, "exchange") {
        is_exchange(alloc, first, second)
    } else {
        Ok(false)
    }
}

/// Whether a lock is freed: by its name and a reference.
fn is_freed(alloc: Global, name: &[u8], reference: &[u8]) -> Result<bool, AllocError>
    ensures { (b c : Term) (then rest : List ℕ) → item_at 61 name.now ≡ Ok (b, then)
        → item_at 61 reference.now ≡ Ok (c, rest) → Tells (names_of_freed b c) (is_some (freed b c)) result }
{
    if is_reference(reference) {
        is_name_at(alloc, 61, name)
    } else {
        Ok(false)
    }
}

/// Whether groups are announced: by a node and its groups.
fn is_exchange(alloc: Global, node: &[u8], groups: &[u8]) -> Result<bool, AllocError>
    ensures { (b c : Term) (then rest : List ℕ) → item_at 61 node.now ≡ Ok (b, then)
        → item_at 61 groups.now ≡ Ok (c, rest) → Tells (names_of_exchange b c) (is_some (read_exchange b c)) result }
{
    if is_atom(node) {
        may_be_groups(alloc, 61, groups)
    } else {
        Ok(false)
    }
}
