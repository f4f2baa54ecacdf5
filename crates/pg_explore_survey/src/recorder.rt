//! The ways between worlds, as they are lent.

ghost use Rattle.std.specs.Prelude.{◌≡◌, IfOk, Some};
ghost use Rattle.pg_explore_survey.specs.Ways.{AreWaysOf, all_led};

use pg_explore::{Led, Met, Move, Visitor};
use pg_explore_tally::Way;
use std::alloc::{AllocError, Global};

/// Watches an exploration.
pub trait Observer {
    /// Is shown at each world how many were explored before it.
    fn look(&mut self, explored: u64);
}

/// The steps that happen at each world that was lent, by its place, and where they lead; and these as ways.
#[derive(Drop)]
pub(crate) struct Ways {
    pub(crate) led: Vec<Vec<Led>>,
    pub(crate) ways: Vec<Vec<Way>>,
}

impl Ways {
    /// Those of such steps.
    ///
    /// Errors: `AllocError`.
    pub(crate) fn of(alloc: Global, led: Vec<Vec<Led>>) -> Result<Ways, AllocError>
        ensures led { IfOk result (λ ways. ways.led ≡ led) }
        ensures ways { IfOk result (λ ways. AreWaysOf (all_led led.items) ways.ways.items) }
    {
        match all_ways(alloc, led.as_slice()) {
            Ok(ways) => Ok(Ways { led, ways }),
            Err(AllocError) => {
                drop(led);
                Err(AllocError)
            }
        }
    }
}

ghost use Rattle.std.specs.Prelude.{map};
ghost use Rattle.pg_explore_survey.specs.Ways.{is_take, way_of};

/// The ways of some worlds.
///
/// Errors: `AllocError`.
fn all_ways(alloc: Global, led: &[Vec<Led>]) -> Result<Vec<Vec<Way>>, AllocError>
    ensures { IfOk result (λ ways. AreWaysOf (all_led led.now) ways.items) }
{
    let mut all = Vec::with_capacity(alloc, led.len())?;
    for row in led {
        let ways = ways_of(alloc, row.as_slice())?;
        all.push(ways)?;
    }
    Ok(all)
}

/// The ways of a world.
///
/// Errors: `AllocError`.
fn ways_of(alloc: Global, led: &[Led]) -> Result<Vec<Way>, AllocError>
    ensures { IfOk result (λ ways. ways.items ≡ map way_of led.now) }
{
    let mut ways = Vec::with_capacity(alloc, led.len())?;
    for way in led {
        ways.push(Way {
            place: way.place,
            is_take: is_take(&way.step),
        })?;
    }
    Ok(ways)
}

fn is_take(step: &Move) -> bool
    ensures { result ≡ is_take step.now }
{
    match step {
        Move::Take { node: _, peer: _ } => true,
        _ => false,
    }
}

/// The same steps, and where they lead.
///
/// Errors: `AllocError`.
fn copies_of(alloc: Global, led: &[Led]) -> Result<Vec<Led>, AllocError>
    ensures { IfOk result (λ copies. copies.items ≡ led.now) }
{
    let mut copies = Vec::with_capacity(alloc, led.len())?;
    for way in led {
        let step = way.step.copy(alloc)?;
        copies.push(Led {
            step,
            place: way.place,
        })?;
    }
    Ok(copies)
}

/// Keeps the steps that happen at the worlds that it is lent, and shows an observer how many these are.
#[derive(Drop)]
pub(crate) struct Recorder<'a, O> {
    pub(crate) alloc: Global,
    pub(crate) led: Vec<Vec<Led>>,
    pub(crate) observer: &'a mut O,
}

impl<O: Observer> Visitor for Recorder<'_, O> {
    ghost ways = { λ recorder. Some (all_led recorder.led.items) };

    fn visit(&mut self, place: usize, _met: &Met, led: &[Led]) -> Result<(), AllocError> {
        self.observer.look(place as u64);
        let led = copies_of(self.alloc, led)?;
        self.led.push(led)?;
        Ok(())
    }
}
