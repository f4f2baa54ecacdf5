//! What is counted of the worlds that were met.

ghost use Rattle.std.specs.Prelude.{◌≡◌, ◌++◌, [], IfOk, false, get_or, slice_get};
ghost use Rattle.std.specs.Option.{option_copied};
ghost use Rattle.std.specs.List.{count_by};
ghost use Rattle.pg_explore_survey.specs.Findings.{AreMarks, DiffersFreeIn, DiffersIn, HoldsIn, ends_from};
ghost use Rattle.pg_explore_survey.specs.Names.{AddsNames, changed_in, known_in};

use crate::commands::{all_groups, changed_groups};
use crate::differing::{is_differing, is_differing_free, is_held};
use crate::scenario::Scenario;
use pg_explore::Met;
use pg_explore_tally::Way;
use pg_term::Term;
use std::alloc::{AllocError, Global};

/// What is counted of the worlds that were met.
#[derive(Drop)]
pub(crate) struct Tally {
    /// The places of the ends.
    pub(crate) ends: Vec<usize>,
    /// The groups that commands change.
    pub(crate) groups: Vec<Term>,
    /// These, and those that nodes know as they start.
    pub(crate) names: Vec<Term>,
    /// Of each world: whether two formed nodes differ on one of them.
    pub(crate) differing: Vec<bool>,
    /// Whether two differ on one of which a node sees the lock free, and no end is pending.
    pub(crate) free: Vec<bool>,
    /// Whether a node sees the lock of one of them held.
    pub(crate) held: Vec<bool>,
}

/// Counts what was met. `ways`: those from each world that was lent.
///
/// Errors: `AllocError`.
pub(crate) fn tally_of(
    alloc: Global,
    scenario: &Scenario<'_>,
    mets: &[Met],
    ways: &[Vec<Way>],
) -> Result<Tally, AllocError>
    ensures ends { IfOk result (λ tally. tally.ends.items ≡ ends_from 0 ways.now) }
    ensures groups { IfOk result (λ tally. AddsNames (changed_in scenario.now.plans.items) [] tally.groups.items) }
    ensures names { IfOk result (λ tally. AddsNames (changed_in scenario.now.plans.items ++ known_in scenario.now.config.starts.items) [] tally.names.items) }
    ensures differing { IfOk result (λ tally. AreMarks (DiffersIn tally.names.items) mets.now tally.differing.items) }
    ensures free { IfOk result (λ tally. AreMarks (DiffersFreeIn tally.names.items) mets.now tally.free.items) }
    ensures held { IfOk result (λ tally. AreMarks (HoldsIn tally.names.items) mets.now tally.held.items) }
{
    let groups = changed_groups(alloc, scenario)?;
    let names = all_groups(alloc, scenario)?;
    let ends = ends_of(alloc, ways)?;
    let differing = differing_of(alloc, mets, names.as_slice())?;
    let free = free_of(alloc, mets, names.as_slice())?;
    let held = held_of(alloc, mets, names.as_slice())?;
    Ok(Tally {
        ends,
        groups,
        names,
        differing,
        free,
        held,
    })
}

/// The places of the worlds from which no way leads.
///
/// Errors: `AllocError`.
fn ends_of(alloc: Global, ways: &[Vec<Way>]) -> Result<Vec<usize>, AllocError>
    ensures { IfOk result (λ ends. ends.items ≡ ends_from 0 ways.now) }
{
    let mut ends = Vec::new(alloc);
    for place in 0..ways.len() {
        if ways[place].is_empty() {
            ends.push(place)?;
        }
    }
    Ok(ends)
}

/// Of each world, whether two formed nodes differ.
///
/// Errors: `AllocError`.
fn differing_of(alloc: Global, mets: &[Met], names: &[Term]) -> Result<Vec<bool>, AllocError>
    ensures { IfOk result (λ marks. AreMarks (DiffersIn names.now) mets.now marks.items) }
{
    let mut marks = Vec::with_capacity(alloc, mets.len())?;
    for met in mets {
        let count = met.moment.strands.len();
        let mark = is_differing(alloc, &met.moment.world, count, names)?;
        marks.push(mark)?;
    }
    Ok(marks)
}

/// Of each world, whether two differ on a group of which a node sees the lock free, and no end is pending.
///
/// Errors: `AllocError`.
fn free_of(alloc: Global, mets: &[Met], names: &[Term]) -> Result<Vec<bool>, AllocError>
    ensures { IfOk result (λ marks. AreMarks (DiffersFreeIn names.now) mets.now marks.items) }
{
    let mut marks = Vec::with_capacity(alloc, mets.len())?;
    for met in mets {
        let count = met.moment.strands.len();
        let mark = is_differing_free(alloc, &met.moment.world, count, names)?;
        marks.push(mark)?;
    }
    Ok(marks)
}

/// Of each world, whether a node that is not lost sees the lock of a group held.
///
/// Errors: `AllocError`.
fn held_of(alloc: Global, mets: &[Met], names: &[Term]) -> Result<Vec<bool>, AllocError>
    ensures { IfOk result (λ marks. AreMarks (HoldsIn names.now) mets.now marks.items) }
{
    let mut marks = Vec::with_capacity(alloc, mets.len())?;
    for met in mets {
        let count = met.moment.strands.len();
        let mark = is_held(&met.moment.world, count, names);
        marks.push(mark)?;
    }
    Ok(marks)
}

/// How many marks there are.
pub(crate) fn count_marks(marks: &[bool]) -> usize
    ensures { result ≡ count_by (λ mark. mark) marks.now }
{
    let mut count = 0usize;
    for mark in marks {
        if *mark {
            count += 1;
        }
    }
    count
}

/// How many of these places have a mark.
pub(crate) fn count_at(marks: &[bool], places: &[usize]) -> usize
    ensures { result ≡ count_by (λ place. get_or marks.now place false) places.now }
{
    let mut count = 0usize;
    for place in places {
        if mark_at(marks, *place) {
            count += 1;
        }
    }
    count
}

/// Whether a place has a mark.
pub(crate) fn mark_at(marks: &[bool], place: usize) -> bool
    ensures { result ≡ get_or marks.now place false }
{
    match marks.get(place) {
        Some(mark) => *mark,
        None => false,
    }
}

/// The world of a place, as it was met.
pub(crate) fn met_at(mets: &[Met], place: usize) -> Option<&Met>
    ensures { option_copied result ≡ slice_get mets.now place }
{
    mets.get(place)
}
