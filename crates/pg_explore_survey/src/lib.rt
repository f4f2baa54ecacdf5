//! What is seen over all runs of a script's commands: how many worlds and ends there are, which histories and answers occur, and a run to any end
//! as a script.
//!
//! `survey(alloc, &read_scenario(alloc, text)?, limits, &mut observer)?` explores. Begin with `src/findings.rt`, then `src/scenario.rt`.
#![tactic(auto)]

mod answers;
mod commands;
mod differing;
mod drawing;
mod findings;
mod forms;
mod histories;
mod hops;
mod moving;
mod pen;
mod recorder;
mod report;
mod scenario;
mod scripts;
mod tally;

pub use findings::{Findings, survey};
pub use recorder::Observer;
pub use scenario::{Scenario, read_scenario};
