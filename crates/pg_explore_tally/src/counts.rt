//! How often each of some texts occurs.

ghost use Rattle.std.specs.Prelude.{◌≡◌, ◌<◌, [], IfOk, IsPermutation, OnOk, length, string_bytes};
ghost use Rattle.pg_explore_tally.specs.Counts.{IsCountedAt, IsDescending, IsFound, IsOneMore};

use crate::report::Section;
use std::alloc::{AllocError, Global};

/// A text, and how often it occurs.
#[derive(Debug, Drop)]
pub struct Counted {
    pub text: String,
    pub count: usize,
}

/// Texts, each once, and how often each occurs.
#[derive(Debug, Drop)]
pub struct Counts {
    pub rows: Vec<Counted>,
}

impl Counts {
    /// Nothing occurs.
    ///
    /// Cost: no memory.
    pub fn new(alloc: Global) -> Counts
        ensures { result.rows.items ≡ [] }
    {
        Counts {
            rows: Vec::new(alloc),
        }
    }

    /// A text occurs once more.
    ///
    /// Errors: `AllocError`, also where a count is 2^64.
    ///
    /// Cost: that of comparing it with each text.
    pub fn add(&mut self, text: String) -> Result<(), AllocError>
        ensures { OnOk result (IsOneMore (string_bytes text) self.old.rows.items self.new.rows.items) }
    {
        match self.find(text.as_str()) {
            Some(place) => {
                drop(text);
                self.count(place)
            }
            None => {
                self.rows.push(Counted { text, count: 1 })?;
                Ok(())
            }
        }
    }

    /// A section with this title: the texts that occur most often come first.
    ///
    /// Errors: `AllocError`.
    ///
    /// Cost: that of a stable sort of the texts, with a buffer for it.
    pub fn section(self, title: String) -> Result<Section, AllocError>
        ensures title { IfOk result (λ section. section.title ≡ title) }
        ensures rows { IfOk result (λ section. IsPermutation self.rows.items section.rows.items) }
        ensures order { IfOk result (λ section. IsDescending section.rows.items) }
    {
        let Counts { rows } = self;
        let mut sorted = rows;
        match sort(&mut sorted) {
            Ok(()) => Ok(Section {
                title,
                rows: sorted,
            }),
            Err(AllocError) => {
                drop(sorted);
                drop(title);
                Err(AllocError)
            }
        }
    }

    /// The place of the row of a text.
    fn find(&self, text: &str) -> Option<usize>
        ensures { IsFound self.now.rows.items text.now result }
    {
        for place in 0..self.rows.len() {
            if self.rows[place].text.as_str() == text {
                return Some(place);
            }
        }
        None
    }

    /// The text of a row occurs once more.
    ///
    /// Errors: `AllocError`, where its count is 2^64.
    fn count(&mut self, place: usize) -> Result<(), AllocError>
        requires { place < length self.old.rows.items }
        ensures { OnOk result (IsCountedAt place self.old.rows.items self.new.rows.items) }
    {
        match self.rows[place].count.checked_add(1) {
            Some(count) => {
                self.rows[place].count = count;
                Ok(())
            }
            None => Err(AllocError),
        }
    }
}

/// Sorts rows: those of the greatest counts come first, and rows of one count stay in their order.
///
/// Errors: `AllocError`.
fn sort(rows: &mut Vec<Counted>) -> Result<(), AllocError>
    ensures rows { OnOk result (IsPermutation rows.old.items rows.new.items) }
    ensures order { OnOk result (IsDescending rows.new.items) }
{
    rows.sort_by_key(|row| usize::MAX - row.count)
}
