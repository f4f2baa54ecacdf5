//! Packets, as they are shown.

ghost use Rattle.std.specs.Prelude.{◌≡◌, ◌≤◌, length};
ghost use Rattle.pg_script_trace.specs.Topics.{topic_of};

use crate::texts::{reference_text, term_text};
use pg_script_diagram::Topic;
use pg_term::Term;
use pg_world::{Deframer, Message, Packet, Request, Said, decode, read_packet};
use std::alloc::{AllocError, Global};

/// A packet that was sent.
#[derive(Debug, Drop)]
pub struct Letter {
    /// The node that sent it, by its place.
    pub from: usize,
    /// The node that it is for.
    pub to: usize,
    /// The clock of the event that sent it.
    pub stamp: u32,
    pub topic: Topic,
    /// The text of its message.
    pub text: String,
    /// The lock that it asks for.
    pub asks: Option<Asked>,
    /// It denies a lock.
    pub denies: bool,
}

/// A lock that is asked for: its name, and the reference of who asks, as texts.
#[derive(Debug, Drop)]
pub struct Asked {
    pub name: String,
    pub by: String,
}

/// What a message is about.
fn topic_of(message: &Message) -> Topic
    ensures { result ≡ topic_of message.now }
{
    match message {
        Message::Call(_, Request::SetLock(_)) => Topic::Lock,
        Message::Call(_, Request::Change(_)) => Topic::Update,
        Message::Reply(_, _) => Topic::Reply,
        Message::DelLock(_, _) => Topic::Free,
        Message::Exchange(_, _) => Topic::Exchange,
        Message::Down(_) => Topic::End,
    }
}

/// The lock that a message asks for.
fn asked_of(alloc: Global, message: &Message) -> Result<Option<Asked>, AllocError> {
    match message {
        Message::Call(reference, Request::SetLock(name)) => Ok(Some(Asked {
            name: term_text(alloc, name)?,
            by: reference_text(alloc, reference)?,
        })),
        _ => Ok(None),
    }
}

/// The packet whose body this is, from one node to another.
///
/// Errors: `AllocError`, also for a body that is no packet: a node writes none.
fn letter_of(alloc: Global, from: usize, to: usize, body: &[u8]) -> Result<Letter, AllocError> {
    match read_packet(alloc, body) {
        Ok(packet) => {
            let letter = letter_with(alloc, from, to, &packet, body);
            // By a call: its forms are not written out here.
            drop(packet);
            letter
        }
        Err(_) => Err(AllocError),
    }
}

/// The letter of a packet, whose body this is.
fn letter_with(
    alloc: Global,
    from: usize,
    to: usize,
    packet: &Packet,
    body: &[u8],
) -> Result<Letter, AllocError> {
    let text = message_text(alloc, body)?;
    let asks = asked_of(alloc, &packet.message)?;
    Ok(Letter {
        from,
        to,
        stamp: packet.stamp,
        topic: topic_of(&packet.message),
        text,
        asks,
        denies: is_denial(&packet.message),
    })
}

/// Whether a message denies a lock.
fn is_denial(message: &Message) -> bool {
    matches!(message, Message::Reply(_, Said::Denied))
}

/// The text of the message of the packet whose body this is: the second part of its tuple.
///
/// Errors: `AllocError`, also for a body that is no term: a node writes none.
fn message_text(alloc: Global, body: &[u8]) -> Result<String, AllocError> {
    match decode(alloc, body) {
        Ok(term) => {
            let text = match second_part(&term) {
                Some(message) => term_text(alloc, message),
                None => Ok(String::new(alloc)),
            };
            drop(term);
            text
        }
        Err(_) => Err(AllocError),
    }
}

/// The second part of a tuple of two.
fn second_part(term: &Term) -> Option<&Term> {
    match term {
        Term::Tuple(parts) => match parts.as_slice() {
            [_, second] => Some(second),
            _ => None,
        },
        _ => None,
    }
}

/// Appends the packets whose frames these bytes are, from one node to another. Each is one that a node wrote.
///
/// Errors: `AllocError`.
pub(crate) fn add_letters(
    alloc: Global,
    from: usize,
    to: usize,
    bytes: &[u8],
    letters: &mut Vec<Letter>,
) -> Result<(), AllocError>
    ensures { length letters.old.items ≤ length letters.new.items }
{
    let mut frames = Deframer::new(alloc);
    let added = match frames.feed(bytes) {
        Ok(()) => add_frames(alloc, from, to, &mut frames, bytes.len(), letters),
        Err(error) => Err(error),
    };
    drop(frames);
    added
}

/// Appends the packets of these frames, so many at most.
fn add_frames(
    alloc: Global,
    from: usize,
    to: usize,
    frames: &mut Deframer,
    most: usize,
    letters: &mut Vec<Letter>,
) -> Result<(), AllocError>
    ensures { length letters.old.items ≤ length letters.new.items }
{
    for _ in 0..most {
        match frames.front() {
            Ok(Some(body)) => add_letter(alloc, from, to, body, letters)?,
            _ => return Ok(()),
        }
        let _ = frames.next();
    }
    Ok(())
}

/// Appends the packet whose body this is.
fn add_letter(
    alloc: Global,
    from: usize,
    to: usize,
    body: &[u8],
    letters: &mut Vec<Letter>,
) -> Result<(), AllocError>
    ensures { length letters.old.items ≤ length letters.new.items }
{
    match letter_of(alloc, from, to, body) {
        Ok(letter) => Ok(letters.push(letter)?),
        Err(error) => Err(error),
    }
}
