//! Terms and bytes to packets.

ghost use Rattle.std.specs.Prelude.{◌≡◌, ◌⊎◌, ◌∷◌, [], length, true, Some, None, IfOk, Ok, Err};
ghost use Rattle.std.specs.Prelude.{if◌then◌else◌};
ghost use Rattle.std.specs.Option.{option_and_then};
ghost use Rattle.pg_term.specs.declared.term.Term.{Term};
ghost use Rattle.pg_term_io.specs.Spelling.{Spells};
ghost use Rattle.pg_message_types.specs.Fault.{Gives};
ghost use Rattle.pg_message_types.specs.Members.{IsShort};
ghost use Rattle.pg_message_types.specs.Name.{is_name};
ghost use Rattle.pg_message_types.specs.Parts.{pid_of};
ghost use Rattle.pg_message_types.specs.Reading.{stamp_of, message_in, message_of, unreferred, referred, cast_in, cast_of};
ghost use Rattle.pg_message_types.specs.Reading.{freed, read_exchange, request_in, request_of, request_on, membership_of};
ghost use Rattle.pg_message_types.specs.Reading.{said_of, stamped_message, packet_in, packet_of, packet_spelled, SpellsPacket};
ghost use Rattle.pg_message_types.specs.declared.packet.Packet.{Packet};
ghost use Rattle.pg_message_reader.specs.Names.{NeedsNames};

use crate::direct::{Detour, direct_packet};
use crate::exchange::groups;
use crate::parts::{atom, elements, is_word, pid, reference, three, two};
use crate::shape::check_packet;
use pg_message_types::{MAX_STAMP, Message, MessageFault, Packet, Request, Said, Update, is_name};
use pg_term::{Reference, Term, TermFault};
use pg_term_io::{check_term, decode};
use std::alloc::{AllocError, Global};

/// The packet that a body spells, all of its bytes.
///
/// Errors: those of its term, as `pg_term_io::decode` has them; `NotAMessage`, where the term has not the shape of a
/// packet, a name in it is refused by `check_name`, an exchange names a group twice, or the stamp is negative;
/// `StampTooLarge`. `OutOfMemory` may come in the place of a packet; in the place of a fault only of `NotAMessage` and
/// `StampTooLarge`, where words, reference, pid and node are those of a message, the stamp may be one but for its size,
/// and a name is no atom, or the groups of an exchange do not ascend in the order of terms.
///
/// Cost: linear in the number of bytes, but for an exchange whose groups do not ascend in the order of terms: their
/// names are looked up in a tree. Of a body that is spelled as it is written only the parts that are in the message
/// are built, and nothing of a body that is no term: it is walked over first, without memory.
///
/// The rule: the forms are those of the External Term Format chapter of the Erlang documentation; the messages are
/// those of `gen_server`, `global` and `pg2` (their manual pages), `{down, Pid}` in the place of pg2's monitors.
pub fn read_packet(alloc: Global, body: &[u8]) -> Result<Packet, MessageFault>
    // What is read is spelled so.
    ensures found { IfOk result (λ packet. SpellsPacket packet body.now) }
    // What is spelled so is read, unless memory runs out.
    ensures only { (packet : Packet) → SpellsPacket packet body.now
        → Gives (λ packet. packet) result (Ok packet) }
    // Which fault it is.
    ensures exact { Gives (λ packet. packet) result (packet_spelled body.now) }
    // Each fault is told whatever memory there is, unless names have to be built.
    ensures told { (fault : MessageFault) → packet_spelled body.now ≡ Err fault
        → NeedsNames body.now ⊎ (result ≡ Err fault) }
    // No list of members in it is longer than the body.
    ensures few { IfOk result (λ packet. IsShort (length body.now) packet.message) }
{
    whole_packet(alloc, body)
}

// Its clauses are proved of one; those of the call above follow from it.
#[inline]
fn whole_packet(alloc: Global, body: &[u8]) -> Result<Packet, MessageFault>
    ensures exact { Gives (λ packet. packet) result (packet_spelled body.now) }
    ensures told { (fault : MessageFault) → packet_spelled body.now ≡ Err fault
        → NeedsNames body.now ⊎ (result ≡ Err fault) }
{
    match direct_packet(alloc, body) {
        Ok(packet) => Ok(packet),
        Err(detour) => detoured_packet(alloc, body, detour),
    }
}

/// The packet of a body that was not read straight off it.
fn detoured_packet(alloc: Global, body: &[u8], detour: Detour) -> Result<Packet, MessageFault>
    ensures exact { Gives (λ packet. packet) result (packet_spelled body.now) }
    ensures told { (fault : MessageFault) → packet_spelled body.now ≡ Err fault
        → NeedsNames body.now ⊎ (result ≡ Err fault) }
{
    // What is no packet is refused before anything but names is built.
    check_term(body)?;
    check_packet(alloc, body)?;
    match detour {
        Detour::OutOfMemory => Err(MessageFault::Term(TermFault::OutOfMemory)),
        Detour::OtherForm => packet(alloc, decode(alloc, body)?),
    }
}

/// The packet that a term is.
fn packet(alloc: Global, term: Term) -> Result<Packet, MessageFault>
    ensures { Gives (λ packet. packet) result (packet_of term) }
{
    match elements(term) {
        Some(parts) => packet_in(alloc, parts),
        None => Err(MessageFault::NotAMessage),
    }
}

// {Stamp, Message}
fn packet_in(alloc: Global, parts: Vec<Term>) -> Result<Packet, MessageFault>
    ensures { Gives (λ packet. packet) result (packet_in (Some parts.items)) }
{
    if parts.len() != 2 {
        drop(parts);
        return Err(MessageFault::NotAMessage);
    }
    let (first, said) = two(parts);
    let stamp = stamp(&first);
    drop(first);
    match message(alloc, said) {
        Ok(message) => stamped_message(message, stamp),
        Err(AllocError) => Err(MessageFault::Term(TermFault::OutOfMemory)),
    }
}

// What is wrong with the stamp is given only where all else is right.
fn stamped_message(
    message: Option<Message>,
    stamp: Result<u32, MessageFault>,
) -> Result<Packet, MessageFault>
    ensures { Gives (λ packet. packet) result (stamped_message message stamp) }
{
    let Some(message) = message else {
        return Err(MessageFault::NotAMessage);
    };
    match stamp {
        Ok(stamp) => Ok(Packet { stamp, message }),
        Err(fault) => {
            drop(message);
            Err(fault)
        }
    }
}

pub(crate) fn stamp(term: &Term) -> Result<u32, MessageFault>
    ensures { result ≡ stamp_of term.now }
{
    match term {
        Term::Int(stamp) => match u32::try_from(*stamp) {
            Ok(stamp) if stamp <= MAX_STAMP => Ok(stamp),
            _ if *stamp < 0 => Err(MessageFault::NotAMessage),
            _ => Err(MessageFault::StampTooLarge),
        },
        _ => Err(MessageFault::NotAMessage),
    }
}

fn message(alloc: Global, term: Term) -> Result<Option<Message>, AllocError>
    ensures { IfOk result (λ message. message ≡ message_of term) }
{
    match elements(term) {
        Some(parts) => message_in(alloc, parts),
        None => Ok(None),
    }
}

fn message_in(alloc: Global, parts: Vec<Term>) -> Result<Option<Message>, AllocError>
    ensures { IfOk result (λ message. message ≡ message_in parts.items) }
{
    match parts.len() {
        2 => {
            let (word, said) = two(parts);
            let message = unreferred(alloc, &word, said);
            drop(word);
            message
        }
        3 => Ok(referred_in(parts)),
        _ => {
            drop(parts);
            Ok(None)
        }
    }
}

// {cast, Cast} or {down, Pid}
fn unreferred(alloc: Global, word: &Term, said: Term) -> Result<Option<Message>, AllocError>
    ensures { IfOk result (λ message. message ≡ unreferred word.now said) }
{
    if is_word(word, "cast") {
        cast(alloc, said)
    } else if is_word(word, "down") {
        Ok(pid(said).map(Message::Down))
    } else {
        Ok(None)
    }
}

// {Word, Ref, Said}
fn referred_in(parts: Vec<Term>) -> Option<Message>
    requires { length parts.items ≡ 3 }
    ensures { result ≡ message_in parts.items }
{
    let (word, second, said) = three(parts);
    let message = match reference(second) {
        Some(reference) => referred(&word, reference, said),
        None => {
            drop(said);
            None
        }
    };
    drop(word);
    message
}

// {call, Ref, Request} or {reply, Ref, Said}
fn referred(word: &Term, reference: Reference, said: Term) -> Option<Message>
    ensures { result ≡ referred word.now reference said }
{
    if is_word(word, "call") {
        match request(said) {
            Some(request) => Some(Message::Call(reference, request)),
            None => {
                drop(reference);
                None
            }
        }
    } else if is_word(word, "reply") {
        let answer = answer(&said);
        drop(said);
        match answer {
            Some(said) => Some(Message::Reply(reference, said)),
            None => {
                drop(reference);
                None
            }
        }
    } else {
        drop(reference);
        drop(said);
        None
    }
}

fn cast(alloc: Global, term: Term) -> Result<Option<Message>, AllocError>
    ensures { IfOk result (λ message. message ≡ cast_of term) }
{
    match elements(term) {
        Some(parts) => cast_in(alloc, parts),
        None => Ok(None),
    }
}

fn cast_in(alloc: Global, parts: Vec<Term>) -> Result<Option<Message>, AllocError>
    ensures { IfOk result (λ message. message ≡ cast_in parts.items) }
{
    if parts.len() != 3 {
        drop(parts);
        return Ok(None);
    }
    let (word, first, second) = three(parts);
    let message = casting(alloc, &word, first, second);
    drop(word);
    message
}

fn casting(
    alloc: Global,
    word: &Term,
    first: Term,
    second: Term,
) -> Result<Option<Message>, AllocError>
    ensures { IfOk result (λ message. message ≡ cast_in (word.now ∷ first ∷ second ∷ [])) }
{
    if is_word(word, "del_lock") {
        Ok(freed(first, second))
    } else if is_word(word, "exchange") {
        exchanged(alloc, first, second)
    } else {
        drop(first);
        drop(second);
        Ok(None)
    }
}

// {del_lock, Name, Ref}
fn freed(name: Term, second: Term) -> Option<Message>
    ensures { result ≡ freed name second }
{
    if !is_name(&name) {
        drop(name);
        drop(second);
        return None;
    }
    match reference(second) {
        Some(reference) => Some(Message::DelLock(name, reference)),
        None => {
            drop(name);
            None
        }
    }
}

// {exchange, Node, Groups}
fn exchanged(alloc: Global, first: Term, second: Term) -> Result<Option<Message>, AllocError>
    ensures { IfOk result (λ message. message ≡ read_exchange first second) }
{
    let Some(node) = atom(first) else {
        drop(second);
        return Ok(None);
    };
    match groups(alloc, second) {
        Ok(Some(groups)) => Ok(Some(Message::Exchange(node, groups))),
        Ok(None) => Ok(None),
        Err(AllocError) => Err(AllocError),
    }
}

fn request(term: Term) -> Option<Request>
    ensures { result ≡ request_of term }
{
    match elements(term) {
        Some(parts) => request_in(parts),
        None => None,
    }
}

fn request_in(parts: Vec<Term>) -> Option<Request>
    ensures { result ≡ request_in parts.items }
{
    match parts.len() {
        2 => {
            let (word, name) = two(parts);
            let request = request_on(&word, name);
            drop(word);
            request
        }
        3 => {
            let (word, name, member) = three(parts);
            let request = membership(&word, name, member);
            drop(word);
            request
        }
        _ => {
            drop(parts);
            None
        }
    }
}

// {set_lock, Name}, {create, Name} or {delete, Name}
fn request_on(word: &Term, name: Term) -> Option<Request>
    ensures { result ≡ (if is_name name then request_on word.now name else None) }
{
    if !is_name(&name) {
        drop(name);
        None
    } else if is_word(word, "set_lock") {
        Some(Request::SetLock(name))
    } else if is_word(word, "create") {
        Some(Request::Change(Update::Create(name)))
    } else if is_word(word, "delete") {
        Some(Request::Change(Update::Delete(name)))
    } else {
        drop(name);
        None
    }
}

// {join, Name, Pid} or {leave, Name, Pid}
fn membership(word: &Term, name: Term, member: Term) -> Option<Request>
    ensures { result ≡ (if is_name name
        then option_and_then (membership_of word.now name) (pid_of member) else None) }
{
    if !is_name(&name) {
        drop(name);
        drop(member);
        return None;
    }
    let Some(pid) = pid(member) else {
        drop(name);
        return None;
    };
    if is_word(word, "join") {
        Some(Request::Change(Update::Join(name, pid)))
    } else if is_word(word, "leave") {
        Some(Request::Change(Update::Leave(name, pid)))
    } else {
        drop(name);
        drop(pid);
        None
    }
}

fn answer(term: &Term) -> Option<Said>
    ensures { result ≡ said_of term.now }
{
    if is_word(term, "true") {
        Some(Said::Granted)
    } else if is_word(term, "false") {
        Some(Said::Denied)
    } else if is_word(term, "ok") {
        Some(Said::Applied)
    } else {
        None
    }
}
