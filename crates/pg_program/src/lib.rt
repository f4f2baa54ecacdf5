//! What the program does for its words, over any source, sinks and system: the replica of one node over bytes, runs of scripts, all
//! runs of one, a conversation with nodes as threads, a service, and one node as a process.
//!
//! `run_words(alloc, &words, &mut reader, &mut writer, &mut system, &mut log, &mut faults)` gives the status. Begin with `run.rt`, and with
//! `specs/CommandLine.antt` for the words.
#![tactic(auto)]

mod bytes;
mod explore;
mod fault;
mod help;
mod input;
mod laws;
mod node;
mod run;
mod script;
mod service;
mod system;
mod threads;
mod words;

pub use input::MAX_SCRIPT_LEN;
pub use laws::limit_of_scripts;
pub use run::{refuse, refuse_given, run_words};
pub use system::{LogFile, System};
