//! What is counted over worlds and the ways between them, and the page that lists it: plain data, which knows nothing of worlds.
//!
//! `takes_to(alloc, &worlds)?` counts takes, `longest_run(alloc, &worlds, &marks)?` finds a run, and `report.page(alloc)?` is the page. Begin
//! with `src/report.rt`, then `specs/Walks.antt`.
#![tactic(auto)]

mod counts;
mod page;
mod report;
mod runs;
mod streaks;
mod takes;
mod ways;

pub use counts::{Counted, Counts};
pub use report::{Report, Section};
pub use runs::{Run, longest_run};
pub use streaks::Hop;
pub use takes::{Takes, takes_to};
pub use ways::Way;
