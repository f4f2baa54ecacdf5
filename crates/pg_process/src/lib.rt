//! One node of a fixed set as a process: a node over bytes, the requests of its ports, and what it says to its host.
//!
//! `serve(alloc, config, version, &mut reader, &mut writer, &mut log)?` serves a node to the end of its input. Begin with `src/serving.rt` and
//! `specs/Serving.antt`. `process.hear(body)?` is what a process does between two reads: `src/process.rt`, and `specs/Deeds.antt`, which says
//! what each of its deeds makes of what it keeps, what it says, and what is logged of it.
#![tactic(auto)]

mod answering;
mod begin;
mod bytes;
mod changes;
mod fault;
mod hearing;
mod laws;
mod mirror;
mod passing;
mod process;
mod serving;
mod telling;
mod work;

pub use fault::{BeginFault, EndFault, ProcessFault};
pub use laws::{chains_account, chains_keep_mirrors, chains_reply, no_port_keeps_for_long};
pub use process::{Process, Told};
pub use serving::serve;
