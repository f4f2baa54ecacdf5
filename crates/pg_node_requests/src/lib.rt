//! What a service is asked and what it replies, as terms; and what the nodes of a service know at first, as text.
//!
//! `read_request(term, &layout)` is what a term asks for, and `reply_term(alloc, reply)?` a reply as a term. Begin with `src/request.rt`, then
//! `specs/Requests.antt`; replies are in `specs/Replies.antt`, what nodes know in `specs/Members.antt`.
#![tactic(auto)]

mod input;
mod layout;
mod members;
mod parts;
mod reply;
mod request;

pub use input::Input;
pub use layout::{Layout, NodePorts};
pub use members::{groups_of, node_name, node_names, starts_of};
pub use reply::{
    bad_request, has_ended, lost, many_ended, node_lost, numbered, old_clock, refused, reply_term,
    unknown,
};
pub use request::read_request;
