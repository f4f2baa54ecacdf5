//! What tests and figures share: numbers that look random, watches, lines, and small values that figures are about.
//!
//! `Random::new(seed).below(6)` is a number below six. Begin with `src/random.rt` and `src/figures.rt`.
#![tactic(auto)]

mod changes;
mod figures;
mod random;
mod samples;

pub use changes::{Change, Groups};
pub use figures::{Watch, head, number, report, report_each, say, word};
pub use random::Random;
pub use samples::{pid, reference};
