//! Moves of a deframer, in rows. What is refused memory once changes nothing, and succeeds when it is made again.

use pg_frame::{Deframer, TooLong};

#[derive(Clone, Copy)]
pub enum Move<'a> {
    /// A piece is fed.
    Feed(&'a [u8]),
    /// A piece is fed for which there is room.
    Put(&'a [u8]),
    /// Room for so many bytes is made.
    Room(usize),
    /// The next frame has this body, and is taken.
    Take(&'a [u8]),
    /// No frame is whole.
    Open,
    /// The length of the next frame is refused.
    Refused,
    /// So many bytes are there.
    Rest(usize),
}

fn is_fed(deframer: &mut Deframer, piece: &[u8]) -> bool {
    let before = deframer.rest_len();
    deframer.feed(piece).is_ok() || deframer.rest_len() == before && deframer.feed(piece).is_ok()
}

fn is_roomy(deframer: &mut Deframer, count: usize) -> bool {
    let before = deframer.rest_len();
    deframer.make_room(count).is_ok()
        || deframer.rest_len() == before && deframer.make_room(count).is_ok()
}

fn plays_one(deframer: &mut Deframer, step: Move<'_>) -> bool {
    match step {
        Move::Feed(piece) => is_fed(deframer, piece),
        Move::Put(piece) => deframer.feed(piece).is_ok(),
        Move::Room(count) => is_roomy(deframer, count),
        Move::Take(body) => deframer.front() == Ok(Some(body)) && deframer.next() == Ok(true),
        Move::Open => deframer.front() == Ok(None) && deframer.next() == Ok(false),
        Move::Refused => deframer.front() == Err(TooLong) && deframer.next() == Err(TooLong),
        Move::Rest(len) => deframer.rest_len() == len,
    }
}

/// Whether each of the moves goes as it says.
pub fn plays(deframer: &mut Deframer, moves: &[Move<'_>]) -> bool {
    for step in moves {
        if !plays_one(deframer, *step) {
            return false;
        }
    }
    true
}
