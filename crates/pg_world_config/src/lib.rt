//! Configurations of worlds: the nodes as they start, and whether these are a configuration.
//!
//! `config.check(alloc)?` gives the first fault of a `Config`. Begin with `src/config.rt`; `src/starts.rt` makes the nodes.
#![tactic(auto)]

mod config;
mod fault;
mod laws;
mod starts;

pub use config::{Config, MAX_NODES, MAX_PORTS};
pub use fault::WorldFault;
pub use laws::configs_are_decided;
pub use starts::{node_at, nodes_of};
