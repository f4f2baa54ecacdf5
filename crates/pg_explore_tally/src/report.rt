//! What was counted over all runs.

ghost use Rattle.std.specs.Prelude.{◌≡◌, IfOk, string_bytes};
ghost use Rattle.pg_explore_tally.specs.Pages.{page_of};

use crate::counts::Counted;
use crate::page::{add_sections, add_totals, width_of};
use crate::takes::Takes;
use std::alloc::{AllocError, Global};

/// What was counted over all runs.
#[derive(Debug, Drop)]
pub struct Report {
    /// How many worlds were met, and whether these are all.
    pub worlds: usize,
    pub is_whole: bool,
    /// How many of them are ends.
    pub ends: usize,
    /// The fewest and the most takes to an end; `None` where there is none.
    pub takes: Option<Takes>,
    /// At how many ends a lock is held.
    pub held: usize,
    /// In how many worlds two formed nodes differ, and in how many of these a node sees the lock free and no end is pending.
    pub differing: usize,
    pub free: usize,
    pub sections: Vec<Section>,
}

/// What occurs at ends, and at how many of them.
#[derive(Debug, Drop)]
pub struct Section {
    pub title: String,
    pub rows: Vec<Counted>,
}

impl Report {
    /// The lines of a page: numbers in a column, each with what it counts; then the sections, each behind an empty
    /// line.
    ///
    /// Errors: `AllocError`.
    ///
    /// Cost: memory for the text, and for the digits of each number.
    pub fn page(&self, alloc: Global) -> Result<String, AllocError>
        ensures { IfOk result (λ text. string_bytes text ≡ page_of self.now) }
    {
        let width = width_of(alloc, self.worlds)?;
        let mut out = String::new(alloc);
        add_totals(&mut out, alloc, width, self)?;
        add_sections(&mut out, alloc, width, self.sections.as_slice())?;
        Ok(out)
    }
}
