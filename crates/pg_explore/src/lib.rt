//! All runs of a configuration within limits: each order in which packets are taken, commands come in, waiting commands are tried again and
//! losses happen and are seen, where worlds that are alike are met once.
//!
//! `explore(alloc, &config, &plans, limits, &mut visitor)?` meets them. Begin with `src/exploration.rt`, then `specs/Explorations.antt`.
#![tactic(auto)]

mod bins;
mod exploration;
mod explored;
mod fault;
mod listing;
mod losses;
mod making;
mod moment;
mod moves;
mod number;
mod plan;
mod strand;
mod strands;
mod visitor;
mod ways;

pub use exploration::explore;
pub use explored::{Before, Explored, Met};
pub use fault::ExploreFault;
pub use moment::Moment;
pub use moves::{Limits, Move};
pub use plan::{Plan, Planned};
pub use strand::Strand;
pub use visitor::{Led, Visitor};
