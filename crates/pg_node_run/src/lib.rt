//! One node with its links to its peers, its log and its ports: what a thread that owns the node does, turn by turn.
//!
//! `run_node(place, run, &gate, limit)` runs a node until it is told to stop. Begin with `src/run.rt`, one turn, then `src/port.rt`, where
//! clients speak. `src/laws.rt` says what is left to do where a round of turns does nothing.
#![tactic(auto)]

mod events;
mod laws;
mod linked;
mod log;
mod losses;
mod moves;
mod notices;
mod pauses;
mod phases;
mod port;
mod ports;
mod rest;
mod retries;
mod run;
mod running;
mod serving;

pub use laws::{a_still_turn_has_nothing_to_do, all_is_taken_where_a_round_is_still};
pub use linked::{LinkedNode, Peer};
pub use log::{LogEntry, NodeEvent};
pub use notices::{NOTICE_PLACES, Notice};
pub use pauses::Pauses;
pub use pg_node::Held;
pub use port::{Asked, Client, PORT_PLACES, Port};
pub use ports::{port_pair, ports_together};
pub use rest::{Rest, Sleepless};
pub use run::{NodeRun, Turned};
pub use running::{Gate, Ran, run_node};
