//! Packets out of bytes: frames, each a length and that many bytes.
//!
//! `deframer.feed(bytes)?` takes bytes in, and `deframer.front()?` lends the first whole body. Begin with `specs/Frames.antt`, then
//! `src/deframer.rt`.
#![tactic(auto)]

mod deframer;
mod fault;
mod laws;
mod pieces;
mod write;

pub use deframer::Deframer;
pub use fault::{FrameFault, TooLong};
pub use laws::{
    front_is_first, front_is_frame, loop_keeps, one_reading, overlong_stays, pieces_continue,
    rest_begins_no_frame, taking_leaves_others, written_is_read,
};
pub use pieces::{
    front_is_first_of_cut, front_is_first_packet, loss_cuts_packets, moving_keeps_packets,
    packets_cross_in_order, sending_adds_packets, whole_frames_come,
};
pub use write::{frame_into, write_frame};

/// The greatest length of a frame's body, in bytes: 16 MiB. This project's own limit.
pub const MAX_BODY: u32 = 16_777_216;
