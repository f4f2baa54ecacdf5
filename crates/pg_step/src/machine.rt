//! Any machine of nodes that step one at a time, as definitions with laws: events, worlds, runs and what they report;
//! clocks for a step that knows of none; nodes that may be lost.
//!
//! There is no code: `runs()` and its like are laws. Begin with `specs/Machines/Machine.antt`, then `specs/Machines/Runs.antt`;
//! `src/machine/laws.rt` has what holds of them.

mod laws;

pub use laws::{
    any_events, clocks, locality, runs, what_happens, what_is_reported, without_clocks,
};
