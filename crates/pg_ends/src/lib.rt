//! The processes of a node: which were made, and what their ends change.
//!
//! `processes.make()` makes a process, and `take_end(&pid, &mut table, &mut ended)?` takes it out of all groups. Begin with
//! `src/processes.rt`.
#![tactic(auto)]

mod end;
mod fault;
mod laws;
mod processes;

pub use end::take_end;
pub use fault::EndFault;
pub use laws::numbered_from_one;
pub use processes::{MAX_PROCESSES, Processes};
