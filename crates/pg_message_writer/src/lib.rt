//! Packets to bodies and frames.
//!
//! `write_packet_into(&packet, &mut out)?` appends the frame of a packet. Begin with `src/frame.rt`, then `specs/Frames.antt`.
#![tactic(auto)]

mod frame;
mod laws;
mod lent;
mod parts;
mod reply;
mod size;
mod told;

pub use frame::{write_packet, write_packet_into};
pub use laws::limit_of_small_packets;
pub use lent::{write_call_into, write_del_lock_into, write_down_into};
pub use reply::write_reply_into;
pub use size::{MAX_SMALL_LEN, packet_len};
pub use told::{Asked, Mark};
