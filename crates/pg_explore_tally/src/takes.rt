//! How many packets are taken on the walks to each world.

ghost use Rattle.std.specs.Prelude.{◌≡◌, ◌<◌, ◌+◌, false, IfOk, OnOk, None, Some, Ok, length, get_or};
ghost use Rattle.std.proofs.Math.ListN.{set};
ghost use Rattle.pg_explore_tally.specs.Takes.{AreClosed, AreKept, AreTakes, IsClosedAt, followed, takes_after, widened_to};

use crate::ways::Way;
use std::alloc::{AllocError, Global};

/// The fewest and the most takes on the walks to a world.
#[derive(Clone, Copy, Debug, PartialEq, Eq)]
pub struct Takes {
    pub fewest: usize,
    pub most: usize,
}

/// The fewest and the most takes on the walks from the first of some worlds to each of them; `None`: no walk leads
/// there.
///
/// Errors: `AllocError`, also where a walk with takes leads back to where it began, and where a count is 2^64.
///
/// Cost: that of following all ways, some times over: twice where worlds stand in the order in which walks meet them.
pub fn takes_to(alloc: Global, worlds: &[Vec<Way>]) -> Result<Vec<Option<Takes>>, AllocError>
    ensures { IfOk result (λ takes. AreTakes worlds.now takes.items) }
{
    let mut takes = Vec::from_elem(alloc, None, worlds.len())?;
    start(takes.as_mut_slice());
    for _ in 0..worlds.len().saturating_add(1) {
        if !pass(worlds, takes.as_mut_slice())? {
            return Ok(takes);
        }
    }
    Err(AllocError)
}

/// The first world is reached with no take.
fn start(takes: &mut [Option<Takes>])
    ensures { takes.new ≡ set takes.old 0 (Some (record { fewest = 0; most = 0 })) }
{
    if takes.len() > 0 {
        takes[0] = Some(Takes { fewest: 0, most: 0 });
    }
}

/// Follows each way once; whether a number changed.
///
/// Errors: `AllocError`, where a count is 2^64.
fn pass(worlds: &[Vec<Way>], takes: &mut [Option<Takes>]) -> Result<bool, AllocError>
    requires { AreKept worlds.now takes.old }
    ensures kept { OnOk result (AreKept worlds.now takes.new) }
    ensures closed { result ≡ Ok false → AreClosed worlds.now takes.new }
{
    let mut changed = false;
    for place in 0..worlds.len() {
        if follow_all(worlds, takes, place)? {
            changed = true;
        }
    }
    Ok(changed)
}

/// Follows each way from a world; whether a number changed.
///
/// Errors: `AllocError`, where a count is 2^64.
fn follow_all(
    worlds: &[Vec<Way>],
    takes: &mut [Option<Takes>],
    place: usize,
) -> Result<bool, AllocError>
    requires { AreKept worlds.now takes.old }
    ensures kept { OnOk result (AreKept worlds.now takes.new) }
    ensures same { result ≡ Ok false → takes.new ≡ takes.old }
    ensures closed { result ≡ Ok false → IsClosedAt worlds.now takes.new place }
{
    let mut changed = false;
    if let Some(ways) = worlds.get(place) {
        for way in ways.as_slice() {
            if follow(takes, place, *way)? {
                changed = true;
            }
        }
    }
    Ok(changed)
}

/// Follows a way from a world; whether a number changed.
///
/// Errors: `AllocError`, where a count is 2^64.
fn follow(takes: &mut [Option<Takes>], place: usize, way: Way) -> Result<bool, AllocError>
    ensures followed { OnOk result (takes.new ≡ followed takes.old place way) }
    ensures same { result ≡ Ok false → takes.new ≡ takes.old }
{
    let Some(from) = takes_at(takes, place) else {
        return Ok(false);
    };
    if way.place >= takes.len() {
        return Ok(false);
    }
    let reached = after(from, way)?;
    let old = takes[way.place];
    let new = Some(widened(old, reached));
    if old == new {
        return Ok(false);
    }
    takes[way.place] = new;
    Ok(true)
}

fn takes_at(takes: &[Option<Takes>], place: usize) -> Option<Takes>
    ensures { result ≡ get_or takes.now place None }
{
    match takes.get(place) {
        Some(takes) => *takes,
        None => None,
    }
}

/// What it takes to come by a way to where it leads.
///
/// Errors: `AllocError`, where a count is 2^64.
fn after(from: Takes, way: Way) -> Result<Takes, AllocError>
    ensures { IfOk result (λ takes. takes ≡ takes_after from way) }
{
    if !way.is_take {
        return Ok(from);
    }
    match (from.fewest.checked_add(1), from.most.checked_add(1)) {
        (Some(fewest), Some(most)) => Ok(Takes { fewest, most }),
        _ => Err(AllocError),
    }
}

/// The fewest and the most of both.
fn widened(old: Option<Takes>, new: Takes) -> Takes
    ensures { result ≡ widened_to old new }
{
    match old {
        Some(old) => Takes {
            fewest: old.fewest.min(new.fewest),
            most: old.most.max(new.most),
        },
        None => new,
    }
}
