//! One node of a fixed set as a process: what its host says to it and hears of it, as bodies over standard input and output.
//!
//! `parties.read(alloc, body)?` is what a body of the input asks for, and an `Outlet` gathers what goes out. Begin with `src/body.rt` and
//! `specs/Bodies.antt`; what goes out is in `specs/Outputs.antt`, the requests of a port in `src/desk.rt`, the
//! log in `src/journal.rt`, and a mirror of the table in `src/mirror.rt`.
#![tactic(auto)]

mod assignments;
mod body;
mod config;
mod desk;
mod groups;
mod journal;
mod laws;
mod mirror;
mod outlet;
mod passing;
mod pieces;
mod retries;

pub use body::{Body, Parties};
pub use config::{MAX_PEERS, MAX_PORTS, ProcessConfig};
pub use desk::{Desk, MAX_WAITING, Numbered, Taken};
pub use groups::{GroupsFault, filled, read_groups};
pub use journal::{Head, Journal, LOG_FORMAT, MAX_LABEL, Mark};
pub use laws::{
    changes_go_in_turn, heads_fit, logs_are_read, no_port_waits_for_long, outputs_are_heard,
};
pub use mirror::{groups_with, tell_end, tell_groups, tell_rows, tell_update};
pub use outlet::{Address, FORMAT, Outlet};
pub use passing::{PassFault, pass_on};
pub use pieces::{Parcel, Portion};
pub use retries::{Courtesy, Seen};
