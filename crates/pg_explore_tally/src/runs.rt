//! The longest run through marked worlds.

ghost use Rattle.std.specs.Prelude.{Bool, IfOk, List};
ghost use Rattle.std.specs.Global.{Vec};
ghost use Rattle.pg_explore_tally.specs.declared.ways.Way.{Way};
ghost use Rattle.pg_explore_tally.specs.Runs.{AreSettled, AreStreaks, IsGreatest, IsLongest, IsMarked, IsRunTo, len_at};

use crate::streaks::{Hop, Streak, streak_at, streaks};
use crate::ways::Way;
use std::alloc::{AllocError, Global};

/// Ways, one after another, from the first of the worlds that they lead through.
#[derive(Debug, Drop)]
pub struct Run {
    /// The place of the first world.
    pub first: usize,
    pub hops: Vec<Hop>,
}

/// The longest of the runs through marked worlds; `None` where none is marked.
///
/// Errors: `AllocError`, also where a run leads back to where it began.
///
/// Cost: that of following all ways, some times over: twice where worlds stand in the order in which walks meet them.
pub fn longest_run(
    alloc: Global,
    worlds: &[Vec<Way>],
    marks: &[bool],
) -> Result<Option<Run>, AllocError>
    ensures { IfOk result (IsLongest worlds.now marks.now) }
{
    let streaks = streaks(alloc, worlds, marks)?;
    let last = greatest(streaks.as_slice());
    if streak_at(streaks.as_slice(), last).len == 0 {
        return Ok(None);
    }
    Ok(Some(chain(alloc, streaks.as_slice(), last)?))
}

/// The place of the longest of some streaks.
fn greatest(streaks: &[Streak]) -> usize
    ensures { IsGreatest streaks.now result }
{
    let mut found = 0;
    for place in 0..streaks.len() {
        if streaks[found].len < streaks[place].len {
            found = place;
        }
    }
    found
}

/// The run that ends with a marked world.
///
/// Errors: `AllocError`, also where a run leads back to where it began.
fn chain(alloc: Global, streaks: &[Streak], last: usize) -> Result<Run, AllocError>
    ensures { IfOk result (λ run. (worlds : List (Vec Way)) (marks : List Bool) → AreStreaks worlds marks streaks.now → AreSettled worlds streaks.now
        → IsMarked marks last → IsRunTo worlds marks run.first run.hops.items (len_at streaks.now last)) }
{
    let mut hops = Vec::new(alloc);
    let mut reached = last;
    for _ in 0..streaks.len() {
        match streak_at(streaks, reached).before {
            Some(hop) => {
                hops.push(hop)?;
                reached = hop.place;
            }
            None => {
                hops.as_mut_slice().reverse();
                return Ok(Run {
                    first: reached,
                    hops,
                });
            }
        }
    }
    Err(AllocError)
}
