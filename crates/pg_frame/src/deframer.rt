ghost use Rattle.std.specs.Prelude.{◌≡◌, ℕ, ◌^◌, ◌<◌, ◌≤◌, [], ◌++◌, length, IsTrue, IsOk, IfOk, OnOk, OnErr};
ghost use Rattle.pg_frame.specs.Buffered.{UsesRoom, MakesRoom};
ghost use Rattle.pg_frame.specs.Frames.{IsBytes, contents, has_frame, front_of, after_front};

use crate::{MAX_BODY, TooLong};
use byteorder::{BigEndian, ByteOrder};
use bytes::BytesMut;
use std::alloc::{AllocError, Global};
use std::marker::Model;

// A frame's length takes this many bytes.
const LENGTH_BYTES: usize = 4;

/// The bytes that came in and of which no frame was taken out yet. Frames come out whole and in
/// order, in whatever pieces their bytes came in. A frame is four bytes of length, the highest first,
/// and that many bytes, as under `{packet, 4}` of Erlang's `inet:setopts/2`.
#[derive(Debug, Drop)]
pub struct Deframer {
    bytes: BytesMut<Global>,
}

impl Model for Deframer {
    ghost use Rattle.pg_frame.specs.Buffered.{Buffered, buffered_code};

    ghost Value = { Buffered };

    ghost coded = { buffered_code };

    ghost view = { λ d. record { unread = d.bytes.items; room = d.bytes.spare } };
}

impl Deframer {
    /// A deframer with no bytes, on this allocator.
    ///
    /// Cost: no memory, which is taken once bytes come.
    pub fn new(alloc: Global) -> Deframer
        ensures unread { result.unread ≡ [] }
        ensures room { result.room ≡ 0 }
    {
        Deframer {
            bytes: BytesMut::new(alloc),
        }
    }

    /// Makes room for `n` bytes: from now on pieces of together at most `n` bytes can be fed with no further memory,
    /// whatever frames are taken meanwhile. The unread bytes stay.
    ///
    /// Errors: `AllocError`, where the room was missing; it changes at most the room, which never shrinks.
    ///
    /// Cost: O(`n` + unread bytes) at most.
    pub fn make_room(&mut self, n: usize) -> Result<(), AllocError>
        ensures unread { self.new.unread ≡ self.old.unread }
        ensures room { MakesRoom result self.old.room self.new.room n }
    {
        self.bytes.reserve(n)
    }

    /// Adds the next piece of the stream at the end of the unread bytes.
    ///
    /// Errors: `AllocError`, where room for the piece was missing; it changes at most the room.
    ///
    /// Cost: O(n) for n bytes in pieces of any size, over the deframer's life.
    pub fn feed(&mut self, piece: &[u8]) -> Result<(), AllocError>
        ensures ok { OnOk result (self.new.unread ≡ self.old.unread ++ piece.now) }
        ensures err { OnErr result (self.new.unread ≡ self.old.unread) }
        ensures succeeds { length piece.now ≤ self.old.room → IsOk result }
        ensures room { UsesRoom result self.old.room self.new.room (length piece.now) }
    {
        self.bytes.extend_from_slice(piece)
    }

    /// The body of the first frame that was not taken out, or `None` while that frame isn't whole.
    ///
    /// Errors: `TooLong`, where the length in the next frame's place is above `MAX_BODY`; such a length stays there
    /// for good (`overlong_stays`).
    ///
    /// Cost: no memory; O(1).
    #[tactic(auto, unfolding(crate::specs::Frames::front_of, crate::specs::Frames::size_at))]
    pub fn front(&self) -> Result<Option<&[u8]>, TooLong>
        ensures body { contents result ≡ front_of self.now.unread }
        ensures bytes { IsBytes self.now.unread }
    {
        let bytes = self.bytes.as_slice();
        if bytes.len() < LENGTH_BYTES {
            return Ok(None);
        }
        let len = BigEndian::read_u32(bytes);
        if len > MAX_BODY {
            return Err(TooLong);
        }
        let body = &bytes[LENGTH_BYTES..];
        let len = len as usize;
        if body.len() < len {
            return Ok(None);
        }
        Ok(Some(&body[..len]))
    }

    /// Takes out the first frame, if it is whole, and says whether it was. Otherwise nothing changes.
    ///
    /// Errors: `TooLong`, where `front` gives it; it changes nothing.
    ///
    /// Cost: no memory, and the room stays as it is; O(1).
    #[tactic(auto, using(crate::proofs::Fronts::front_fits, crate::proofs::Fronts::shorter_behind), unfolding(crate::specs::Frames::after_front))]
    pub fn next(&mut self) -> Result<bool, TooLong>
        ensures taken { result ≡ has_frame (front_of self.old.unread) }
        ensures unread { self.new.unread ≡ after_front self.old.unread }
        ensures shorter { IfOk result
            (λ taken. IsTrue taken → length self.new.unread < length self.old.unread) }
        ensures room { self.new.room ≡ self.old.room }
    {
        match self.front()? {
            Some(body) => {
                let len = body.len();
                self.bytes.advance(LENGTH_BYTES + len);
                Ok(true)
            }
            None => Ok(false),
        }
    }

    /// How many bytes are unread, those of whole frames among them.
    ///
    /// Cost: no memory; O(1).
    pub fn rest_len(&self) -> usize
        ensures value { result ≡ length self.now.unread }
        ensures bound { result < 2 ^ 63 }
    {
        self.bytes.len()
    }
}
