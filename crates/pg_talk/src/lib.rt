//! What speaks with a cluster: a conversation that shows it, and a service that other programs use over bytes.
#![tactic(auto)]

mod conversation;
mod laws;
mod onlooker;
mod service;
mod speaker;
mod verdict;

pub use conversation::{Conversation, Outcome, run_threads};
pub use laws::frames_are_read;
pub use onlooker::{Onlooker, Quiet};
pub use pg_cluster::Sleepless;
pub use pg_node_requests::node_names;
pub use service::fault::ServiceFault;
pub use service::members::config_of;
pub use service::run::{Served, serve_cluster};
pub use service::{CLOCK_MARGIN, CLOCK_WAIT, MAX_WAITING, Service};
pub use verdict::Verdict;
