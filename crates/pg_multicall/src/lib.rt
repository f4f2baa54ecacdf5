//! The replies of several nodes to one call.
//!
//! `gather.reply(place)` is what a node replied. Begin with `specs/Replies.antt`, the rule of a reply, then `src/gather.rt`.
#![tactic(auto)]

mod gather;
mod places;

pub use gather::{Gather, Taken};
pub use places::{MAX_PLACES, Places};
