//! Bodies to packets.
//!
//! `read_packet(alloc, body)?` gives the packet that a body spells. Begin with `src/reading.rt`; `specs/Reading.antt` of pg_message_types says
//! which it is. `read_own_reply(own, body)` gives a reply to the own node as numbers. `src/shape.rt` gives the fault of
//! what is no packet before anything of it is built.
#![tactic(auto)]

mod direct;
mod exchange;
mod own;
mod parts;
mod reading;
mod shape;

pub use own::{OwnReply, read_own_reply};
pub use reading::read_packet;
pub use shape::{check_packet, is_atom, may_be_groups, pid_head};
