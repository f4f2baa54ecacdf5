//! Laws of packets that cross from one node to another as bytes in pieces: what is in an outbox, on a ring and after
//! it is, in this order, the frames of the packets on the way. Each function does nothing, and its contract is the
//! law.

ghost use Rattle.std.specs.Prelude.{◌≡◌, ◌≢◌, ◌∷◌, ◌++◌, ℕ, List, [], Ok, Err, Some};
ghost use Rattle.std.specs.List.{AllByRecursion, flat_map};
ghost use Rattle.pg_frame.specs.Frames.{IsBody, frame, front_of, too_long};
ghost use Rattle.pg_frame.specs.Pieces.{Bytes, ArePackets, AreShort, frames_of, ring_put, pull, put_out, piece_taken};
ghost use Rattle.pg_frame.specs.Pieces.{FirstPacket, FirstPackets, AreCut, StayWhole, FirstOfCut};

use crate::laws::{pieces_continue, taking_leaves_others, written_is_read};

/// Bytes that move between the outbox, the ring and what came are the same packets, however many move at once.
pub fn moving_keeps_packets<P>()
    ensures put { (write : P → List ℕ) (packets : List P) (bytes : Bytes) (count : ℕ)
        → ArePackets write packets bytes → ArePackets write packets (ring_put count bytes) }
    ensures pull { (write : P → List ℕ) (packets : List P) (bytes : Bytes) (count : ℕ)
        → ArePackets write packets bytes → ArePackets write packets (pull count bytes) }
{}

/// Frames that are added to the outbox are so many packets more, after those on the way.
pub fn sending_adds_packets<P>()
    ensures { (write : P → List ℕ) (packets others : List P) (bytes : Bytes)
        → ArePackets write packets bytes → ArePackets write (packets ++ others) (put_out (frames_of write others) bytes) }
{}

/// The first whole frame of what came is the first packet, and without it the others are on the way. No overlong frame comes.
pub fn front_is_first_packet<P>()
    ensures first { (write : P → List ℕ) (packets : List P) (bytes : Bytes) (body : List ℕ)
        → AreShort write packets → ArePackets write packets bytes → front_of bytes.came ≡ Ok (Some body)
        → FirstPacket write packets bytes body }
    ensures lawful { (write : P → List ℕ) (packets : List P) (bytes : Bytes)
        → AreShort write packets → ArePackets write packets bytes → front_of bytes.came ≢ Err too_long }
{
    pieces_continue();
    taking_leaves_others();
    written_is_read();
}

/// Once nothing is left in the outbox and on the ring, the frame of the first packet has come whole.
pub fn whole_frames_come<P>()
    ensures { (write : P → List ℕ) (first : P) (others : List P) (bytes : Bytes)
        → AreShort write (first ∷ others) → ArePackets write (first ∷ others) bytes
        → bytes.ring ≡ [] → bytes.outbox ≡ [] → front_of bytes.came ≡ Ok (Some (write first)) }
{
    written_is_read();
}

/// Of the frames of some packets the bodies that are whole are the first packets, and what follows them is the frames of
/// the others.
pub fn packets_cross_in_order<P>()
    ensures { (write : P → List ℕ) (packets : List P) (bodies : List (List ℕ)) (behind : List ℕ)
        → AreShort write packets → AllByRecursion IsBody bodies → flat_map frame bodies ++ behind ≡ frames_of write packets
        → FirstPackets write packets bodies behind }
{
    written_is_read();
}

/// Where a node is lost, its outbox counts no more: of the packets on the way the first stay, as many as were put
/// whole, and after them there may be a piece of the next. However many bytes of them are pulled at once, they are
/// the same packets.
pub fn loss_cuts_packets<P>()
    ensures cut { (write : P → List ℕ) (packets : List P) (bytes : Bytes)
        → AreShort write packets → ArePackets write packets bytes → StayWhole write packets bytes }
    ensures pull { (write : P → List ℕ) (packets : List P) (bytes : Bytes) (count : ℕ)
        → AreCut write packets bytes → AreCut write packets (pull count bytes) }
{
    pieces_continue();
    written_is_read();
}

/// The first whole frame of what came of a lost node is the first packet, and without it the others are left. No overlong frame comes,
/// and once the ring is empty the frame of the first packet has come whole.
pub fn front_is_first_of_cut<P>()
    ensures first { (write : P → List ℕ) (packets : List P) (bytes : Bytes) (body : List ℕ)
        → AreShort write packets → AreCut write packets bytes → front_of bytes.came ≡ Ok (Some body)
        → FirstOfCut write packets bytes body }
    ensures lawful { (write : P → List ℕ) (packets : List P) (bytes : Bytes)
        → AreShort write packets → AreCut write packets bytes → front_of bytes.came ≢ Err too_long }
    ensures whole { (write : P → List ℕ) (first : P) (others : List P) (bytes : Bytes)
        → AreShort write (first ∷ others) → AreCut write (first ∷ others) bytes
        → bytes.ring ≡ [] → front_of bytes.came ≡ Ok (Some (write first)) }
{
    pieces_continue();
    taking_leaves_others();
    written_is_read();
}
