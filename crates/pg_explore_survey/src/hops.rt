//! Runs through the worlds that were met.

ghost use Rattle.std.specs.Prelude.{◌≡◌, IfOk, is_some};
ghost use Rattle.pg_explore_survey.specs.Findings.{IsWhereMarked, differing_marks, met_in};
ghost use Rattle.pg_explore_survey.specs.Runs.{IsRunTo, met_by};

use crate::findings::Findings;
use crate::tally::met_at;
use pg_explore::{Met, Move};
use pg_explore_tally::{Hop, longest_run};
use std::alloc::{AllocError, Global};

/// A step of a run, and the place of the world before it.
#[derive(Debug, Drop)]
pub(crate) struct Stride {
    pub(crate) place: usize,
    pub(crate) step: Move,
}

impl Findings<'_, '_> {
    /// A run to a world, as it was met: the shortest.
    ///
    /// Errors: `AllocError`, also where it leads back to where it began.
    pub(crate) fn run_to(&self, place: usize) -> Result<Vec<Stride>, AllocError>
        ensures { IfOk result (λ strides. IsRunTo (met_in self.now) place strides.items) }
    {
        run_back(self.alloc, self.explored.met(), place)
    }

    /// A run in which two formed nodes differ as long as in any, up to where they do last; `None` where they never
    /// differ.
    ///
    /// Errors: `AllocError`, also where a run leads back to where it began.
    pub(crate) fn differing_run(&self) -> Result<Option<Vec<Stride>>, AllocError>
        ensures { IfOk result (λ run. IsWhereMarked (differing_marks self.now) (is_some run)) }
    {
        let ways = self.ways.ways.as_slice();
        match longest_run(self.alloc, ways, self.tally.differing.as_slice())? {
            Some(run) => {
                let strides = self.run_on(run.first, run.hops.as_slice())?;
                Ok(Some(strides))
            }
            None => Ok(None),
        }
    }

    /// A run to a world, and these hops from there.
    ///
    /// Errors: `AllocError`, also where there is no such way.
    fn run_on(&self, first: usize, hops: &[Hop]) -> Result<Vec<Stride>, AllocError> {
        let mut strides = self.run_to(first)?;
        for hop in hops {
            let step = self.step_of(*hop)?;
            strides.push(Stride {
                place: hop.place,
                step,
            })?;
        }
        Ok(strides)
    }

    /// The step of a way.
    ///
    /// Errors: `AllocError`, also where there is none.
    fn step_of(&self, hop: Hop) -> Result<Move, AllocError> {
        match self.ways.led.as_slice().get(hop.place) {
            Some(led) => match led.as_slice().get(hop.way) {
                Some(way) => way.step.copy(self.alloc),
                None => Err(AllocError),
            },
            None => Err(AllocError),
        }
    }
}

/// The run to the world of a place, as it was met.
///
/// Errors: `AllocError`, also where it leads back to where it began.
fn run_back(alloc: Global, mets: &[Met], place: usize) -> Result<Vec<Stride>, AllocError>
    ensures { IfOk result (λ strides. IsRunTo mets.now place strides.items) }
{
    let mut strides = Vec::new(alloc);
    let mut reached = place;
    for _ in 0..mets.len() {
        match stride_to(alloc, mets, reached)? {
            Some(stride) => {
                reached = stride.place;
                strides.push(stride)?;
            }
            None => {
                strides.as_mut_slice().reverse();
                return Ok(strides);
            }
        }
    }
    Err(AllocError)
}

/// The step by which the world of a place was met; `None` where it is the first.
///
/// Errors: `AllocError`.
fn stride_to(alloc: Global, mets: &[Met], place: usize) -> Result<Option<Stride>, AllocError>
    ensures { IfOk result (λ stride. stride ≡ met_by mets.now place) }
{
    match met_at(mets, place) {
        Some(met) => match &met.before {
            Some(before) => {
                let step = before.step.copy(alloc)?;
                Ok(Some(Stride {
                    place: before.place,
                    step,
                }))
            }
            None => Ok(None),
        },
        None => Ok(None),
    }
}
