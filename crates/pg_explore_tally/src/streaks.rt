//! The longest runs through marked worlds that end with each world.

ghost use Rattle.std.specs.Prelude.{◌≡◌, false, IfOk, OnOk, Ok, get_or, map};
ghost use Rattle.pg_explore_tally.specs.Runs.{AreSettled, AreStreaks, IsSettledAt, alone_of, followed, no_streak};

use crate::ways::Way;
use std::alloc::{AllocError, Global};

/// A way from a world: the place of the world, and the number of the way among those from there, from 0 on.
#[derive(Clone, Copy, Debug, PartialEq, Eq)]
pub struct Hop {
    pub place: usize,
    pub way: usize,
}

/// How many worlds a run through marked worlds has that ends with a world, and the way by which it comes there. A world that is not marked has none.
#[derive(Clone, Copy, Debug)]
pub(crate) struct Streak {
    pub(crate) len: usize,
    pub(crate) before: Option<Hop>,
}

/// The longest runs through marked worlds that end with each.
///
/// Errors: `AllocError`, also where a run leads back to where it began.
pub(crate) fn streaks(
    alloc: Global,
    worlds: &[Vec<Way>],
    marks: &[bool],
) -> Result<Vec<Streak>, AllocError>
    ensures streaks { IfOk result (λ streaks. AreStreaks worlds.now marks.now streaks.items) }
    ensures settled { IfOk result (λ streaks. AreSettled worlds.now streaks.items) }
{
    let mut streaks = begun(alloc, marks)?;
    for _ in 0..marks.len().saturating_add(1) {
        if !pass(worlds, marks, streaks.as_mut_slice())? {
            return Ok(streaks);
        }
    }
    Err(AllocError)
}

/// Each marked world alone.
///
/// Errors: `AllocError`.
fn begun(alloc: Global, marks: &[bool]) -> Result<Vec<Streak>, AllocError>
    ensures { IfOk result (λ streaks. streaks.items ≡ map alone_of marks.now) }
{
    let mut streaks = Vec::with_capacity(alloc, marks.len())?;
    for mark in marks {
        streaks.push(alone(*mark))?;
    }
    Ok(streaks)
}

/// A world by itself.
fn alone(mark: bool) -> Streak
    ensures { result ≡ alone_of mark }
{
    let len = if mark { 1 } else { 0 };
    Streak { len, before: None }
}

/// Follows each way once; whether a longer run was found.
///
/// Errors: `AllocError`, where a run has 2^64 worlds.
fn pass(worlds: &[Vec<Way>], marks: &[bool], streaks: &mut [Streak]) -> Result<bool, AllocError>
    requires streaks { AreStreaks worlds.now marks.now streaks.old }
    ensures streaks { OnOk result (AreStreaks worlds.now marks.now streaks.new) }
    ensures settled { result ≡ Ok false → AreSettled worlds.now streaks.new }
{
    let mut changed = false;
    for place in 0..worlds.len() {
        if follow_all(worlds, marks, streaks, place)? {
            changed = true;
        }
    }
    Ok(changed)
}

/// Follows each way from a world; whether a longer run was found.
///
/// Errors: `AllocError`, where a run has 2^64 worlds.
fn follow_all(
    worlds: &[Vec<Way>],
    marks: &[bool],
    streaks: &mut [Streak],
    place: usize,
) -> Result<bool, AllocError>
    requires streaks { AreStreaks worlds.now marks.now streaks.old }
    ensures streaks { OnOk result (AreStreaks worlds.now marks.now streaks.new) }
    ensures same { result ≡ Ok false → streaks.new ≡ streaks.old }
    ensures settled { result ≡ Ok false → IsSettledAt worlds.now streaks.new place }
{
    let mut changed = false;
    if let Some(ways) = worlds.get(place) {
        let ways = ways.as_slice();
        for way in 0..ways.len() {
            if follow(streaks, Hop { place, way }, ways[way].place)? {
                changed = true;
            }
        }
    }
    Ok(changed)
}

/// Follows a way; whether a longer run was found.
///
/// Errors: `AllocError`, where a run has 2^64 worlds.
fn follow(streaks: &mut [Streak], hop: Hop, reached: usize) -> Result<bool, AllocError>
    ensures followed { OnOk result (streaks.new ≡ followed streaks.old hop reached) }
    ensures same { result ≡ Ok false → streaks.new ≡ streaks.old }
{
    let from = streak_at(streaks, hop.place).len;
    let to = streak_at(streaks, reached).len;
    if reached >= streaks.len() || to < 1 || from < to {
        return Ok(false);
    }
    match from.checked_add(1) {
        Some(len) => {
            streaks[reached] = Streak {
                len,
                before: Some(hop),
            };
            Ok(true)
        }
        None => Err(AllocError),
    }
}

/// That of a place; of no world where there is none.
pub(crate) fn streak_at(streaks: &[Streak], place: usize) -> Streak
    ensures { result ≡ get_or streaks.now place no_streak }
{
    match streaks.get(place) {
        Some(streak) => *streak,
        None => Streak {
            len: 0,
            before: None,
        },
    }
}
