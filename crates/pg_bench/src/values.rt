//! How fast terms and packets are read and written, copied and compared.

use bytes::BytesMut;
use pg_message::{Message, MessageFault, Packet, read_packet, write_packet, write_packet_into};
use pg_term::{Atom, Fields, Items, Pid, Term, TermFault};
use pg_term_io::{decode, encode, encode_into};
use pg_test_kit::{Watch, head, number, pid, report, word};
use std::alloc::Global;

// The bytes of `{0, {call, Ref, {join, g, Pid}}}`, by which a peer asks to join a process of its own to a group.
const JOIN_CALL: [u8; 62] = [
    131, 104, 2, 97, 0, 104, 3, 119, 4, 99, 97, 108, 108, 90, 0, 3, 119, 1, 97, 0, 0, 0, 1, 0, 0,
    0, 1, 0, 0, 0, 0, 0, 0, 0, 0, 104, 3, 119, 4, 106, 111, 105, 110, 119, 1, 103, 88, 119, 1, 97,
    0, 0, 0, 1, 0, 0, 0, 0, 0, 0, 0, 1,
];

/// What is read and written.
#[derive(Clone, Copy)]
pub enum Sample {
    /// The call by which a node's group server is asked to join a process to a group, as a term.
    Join,
    /// A list of 1,000,000 integers below 256.
    Numbers,
    /// A list of 10,000 pids.
    Pids,
    /// A tuple in a tuple, 60 levels deep.
    Deep,
    /// The same call, as a packet.
    Call,
    /// What a node with 1,000 groups of 10 members each announces to a peer.
    Exchange,
}

/// Samples, each with the word that names it and what its figures are headed by.
pub type Samples = &'static [(&'static str, &'static str, Sample)];

/// Those that are terms.
pub const TERMS: Samples = &[
    ("join", "bytes of a join call", Sample::Join),
    ("numbers", "bytes of 1,000,000 integers", Sample::Numbers),
    ("pids", "bytes of 10,000 pids", Sample::Pids),
    ("deep", "bytes of 60 levels", Sample::Deep),
];

/// Those that are packets.
pub const PACKETS: Samples = &[
    ("join", "bytes of a join call", Sample::Call),
    (
        "exchange",
        "bytes of an exchange of 1,000 groups of 10",
        Sample::Exchange,
    ),
];

// A term or a packet.
#[derive(Drop)]
enum Value {
    Term(Term),
    Packet(Packet),
}

fn numbers(alloc: Global) -> Result<Term, TermFault> {
    let mut items = Vec::new(alloc);
    for number in 0..1_000_000 {
        items.push(Term::Int(number % 256))?;
    }
    Ok(Term::List(Items::from_vec(items)))
}

fn pids(alloc: Global, count: u32) -> Result<Vec<Pid>, TermFault> {
    let mut pids = Vec::new(alloc);
    for id in 0..count {
        pids.push(pid(alloc, "a", id)?)?;
    }
    Ok(pids)
}

fn list_of_pids(alloc: Global) -> Result<Term, TermFault> {
    let mut items = Vec::new(alloc);
    for id in 0..10_000 {
        items.push(Term::Pid(pid(alloc, "a", id)?))?;
    }
    Ok(Term::List(Items::from_vec(items)))
}

fn deep(alloc: Global) -> Result<Term, TermFault> {
    let mut term = Term::Tuple(Fields::from_vec(Vec::new(alloc)));
    for _ in 1..60 {
        term = Term::Tuple(Fields::from_vec(vec![in alloc; term]?));
    }
    Ok(term)
}

fn exchange(alloc: Global) -> Result<Packet, MessageFault> {
    let mut groups = Vec::new(alloc);
    for number in 0..1_000 {
        let members = Items::from_vec(pids(alloc, 10)?);
        groups.push((Term::Int(number), members))?;
    }
    let message = Message::Exchange(Atom::new(alloc, "a")?, Items::from_vec(groups));
    Ok(Packet { stamp: 0, message })
}

fn term_of(term: Result<Term, TermFault>) -> Option<Value> {
    match term {
        Ok(term) => Some(Value::Term(term)),
        Err(_) => None,
    }
}

fn packet_of(packet: Result<Packet, MessageFault>) -> Option<Value> {
    match packet {
        Ok(packet) => Some(Value::Packet(packet)),
        Err(_) => None,
    }
}

// The value of a sample, if there is memory for it.
fn value_of(alloc: Global, sample: Sample) -> Option<Value> {
    match sample {
        Sample::Join => term_of(decode(alloc, &JOIN_CALL)),
        Sample::Numbers => term_of(numbers(alloc)),
        Sample::Pids => term_of(list_of_pids(alloc)),
        Sample::Deep => term_of(deep(alloc)),
        Sample::Call => packet_of(read_packet(alloc, &JOIN_CALL)),
        Sample::Exchange => packet_of(exchange(alloc)),
    }
}

// Writes a value at the end of a buffer that is emptied for it, a packet as a frame; whether it could.
fn write_into(value: &Value, buffer: &mut BytesMut) -> bool {
    buffer.clear();
    match value {
        Value::Term(term) => encode_into(term, buffer).is_ok(),
        Value::Packet(packet) => write_packet_into(packet, buffer).is_ok(),
    }
}

fn written_term(alloc: Global, term: &Term) -> Option<Vec<u8>> {
    encode(alloc, term).ok()
}

// Writes a value into new bytes.
fn written(alloc: Global, value: &Value) -> Option<Vec<u8>> {
    match value {
        Value::Term(term) => written_term(alloc, term),
        Value::Packet(packet) => write_packet(alloc, packet).ok(),
    }
}

fn is_written(alloc: Global, value: &Value) -> bool {
    match written(alloc, value) {
        Some(bytes) => {
            drop(bytes);
            true
        }
        None => false,
    }
}

fn is_term(alloc: Global, bytes: &[u8]) -> bool {
    match decode(alloc, bytes) {
        Ok(term) => {
            drop(term);
            true
        }
        Err(_) => false,
    }
}

fn is_packet(alloc: Global, bytes: &[u8]) -> bool {
    match read_packet(alloc, bytes) {
        Ok(packet) => {
            drop(packet);
            true
        }
        Err(_) => false,
    }
}

// Reads bytes as they were written of a value of this kind; whether it could.
fn is_read(alloc: Global, value: &Value, bytes: &[u8]) -> bool {
    match value {
        Value::Term(_) => is_term(alloc, bytes),
        Value::Packet(_) => is_packet(alloc, bytes),
    }
}

fn is_copied(alloc: Global, value: &Value) -> bool {
    match value {
        Value::Term(term) => match term.copy(alloc) {
            Ok(copy) => {
                drop(copy);
                true
            }
            Err(_) => false,
        },
        Value::Packet(_) => false,
    }
}

fn is_same(one: &Value, other: &Value) -> bool {
    match (one, other) {
        (Value::Term(one), Value::Term(other)) => one == other,
        _ => false,
    }
}

// What is done with a value.
#[derive(Clone, Copy)]
enum Call {
    Read,
    WriteInto,
    Write,
    Copy,
    Compare,
}

// Each call, with what its figures are headed by, and whether it is of bytes.
const CALLS: &[(Call, &str, bool)] = &[
    (Call::Read, "read", true),
    (Call::WriteInto, "written into a buffer", true),
    (Call::Write, "written into new bytes", true),
    (Call::Copy, "copied and dropped", false),
    (Call::Compare, "compared", false),
];

// A value, another that is the same, and their bytes.
#[derive(Clone, Copy)]
struct Work<'a> {
    value: &'a Value,
    other: &'a Value,
    bytes: &'a [u8],
}

fn once(alloc: Global, work: Work<'_>, call: Call, buffer: &mut BytesMut) -> bool {
    match call {
        Call::Read => is_read(alloc, work.value, work.bytes),
        Call::WriteInto => write_into(work.value, buffer),
        Call::Write => is_written(alloc, work.value),
        Call::Copy => is_copied(alloc, work.value),
        Call::Compare => is_same(work.value, work.other),
    }
}

fn many(alloc: Global, work: Work<'_>, call: Call, buffer: &mut BytesMut, rounds: u64) -> u64 {
    let mut done = 0_u64;
    for _ in 0..rounds {
        if once(alloc, work, call, buffer) {
            done = done.wrapping_add(1);
        }
    }
    done
}

// Makes each call so many times, timed. What a value can't do has no line.
fn measure(rt: &HostRuntime, work: Work<'_>, rounds: u64) {
    let mut buffer = BytesMut::new(rt.alloc());
    for (call, what, is_of_bytes) in CALLS {
        let watch = Watch::begin(rt);
        let done = many(rt.alloc(), work, *call, &mut buffer, rounds);
        let len = if *is_of_bytes { work.bytes.len() } else { 0 };
        if done > 0 {
            report(rt, what, done, len, watch);
        }
    }
}

fn measure_pair(rt: &HostRuntime, what: &str, value: &Value, other: &Value, rounds: u64) -> bool {
    match written(rt.alloc(), value) {
        Some(bytes) => {
            head(rt, bytes.len() as u64, what);
            let work = Work {
                value,
                other,
                bytes: bytes.as_slice(),
            };
            measure(rt, work, rounds);
            drop(bytes);
            true
        }
        None => false,
    }
}

fn measure_with(rt: &HostRuntime, what: &str, value: &Value, sample: Sample, rounds: u64) -> bool {
    match value_of(rt.alloc(), sample) {
        Some(other) => {
            let is_done = measure_pair(rt, what, value, &other, rounds);
            drop(other);
            is_done
        }
        None => false,
    }
}

fn measure_sample(rt: &HostRuntime, what: &str, sample: Sample, rounds: u64) -> bool {
    match value_of(rt.alloc(), sample) {
        Some(value) => {
            let is_done = measure_with(rt, what, &value, sample, rounds);
            drop(value);
            is_done
        }
        None => false,
    }
}

/// The words after `codec` or `packets`: which of these samples, and how many times; with none, each once. Whether it could.
pub fn run(rt: &HostRuntime, words: &[String], samples: Samples) -> bool {
    let Some(rounds) = number(words, 2, 1) else {
        return false;
    };
    let wanted = word(words, 1);
    let mut is_done = false;
    for (name, what, sample) in samples {
        if wanted.is_empty() || wanted == *name {
            is_done = measure_sample(rt, what, *sample, rounds);
        }
    }
    is_done
}
