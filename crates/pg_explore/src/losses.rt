//! The ways in which a node can be lost.

ghost use Rattle.std.specs.Prelude.{◌≡◌, ◌<◌, ◌++◌, ◌∷◌, ◌↔◌, ◌≤◌, [], ℕ, IfOk, OnOk, get_or, length, map};
ghost use Rattle.std.specs.List.{Contains};
ghost use Rattle.pg_world_packets.specs.FrameWorlds.{traffic_of};
ghost use Rattle.pg_explore.specs.Listings.{ListsWanted, IsLossOf};
ghost use Rattle.pg_explore.specs.Keeping.{AddsLonger, AreLonger, AreUpTo};
ghost use Rattle.pg_explore.specs.Moments.{IsSized};

use crate::moment::Moment;
use crate::moves::Move;
use crate::ways::way;
use pg_term::Items;
use std::alloc::{AllocError, Global};

/// Adds each way in which a node can be lost: one for each number of packets that stay on each way.
///
/// Errors: `AllocError`.
pub(crate) fn add_losses(
    moves: &mut Vec<Move>,
    alloc: Global,
    moment: &Moment,
    node: usize,
) -> Result<(), AllocError>
    requires sized { IsSized moment.now }
    requires node { node < length moment.now.strands.items }
    ensures { OnOk result (ListsWanted (IsLossOf node (get_or (traffic_of moment.now.world).ways node [])) moves.old.items moves.new.items) }
{
    let lens = lens_of(alloc, moment, node)?;
    let keeps = keeps_of(alloc, lens.as_slice())?;
    for keep in keeps.as_slice() {
        let keep = Vec::from_slice(alloc, keep.as_slice())?;
        moves.push(Move::Loss {
            node,
            keep: Items::from_vec(keep),
        })?;
    }
    Ok(())
}

/// How many packets are on the way from a node to each of its peers, by their places.
///
/// Errors: `AllocError`.
fn lens_of(alloc: Global, moment: &Moment, node: usize) -> Result<Vec<usize>, AllocError>
    requires sized { IsSized moment.now }
    requires node { node < length moment.now.strands.items }
    ensures { IfOk result (λ lens. lens.items ≡ map length (get_or (traffic_of moment.now.world).ways node [])) }
{
    let mut lens = Vec::new(alloc);
    for place in 0..moment.strands.len() - 1 {
        let packets = way(moment, node, place);
        lens.push(packets.len())?;
    }
    Ok(lens)
}

/// Each list of as many numbers, none of them above the one at its place.
///
/// Errors: `AllocError`.
fn keeps_of(alloc: Global, lens: &[usize]) -> Result<Vec<Items<usize>>, AllocError>
    ensures { IfOk result (λ keeps. AreUpTo lens.now keeps.items) }
{
    let mut keeps = Vec::new(alloc);
    keeps.push(Items::from_vec(Vec::new(alloc)))?;
    for most in lens {
        keeps = longer(alloc, keeps.as_slice(), *most)?;
    }
    Ok(keeps)
}

/// Each of some lists with each number up to this one more at its end.
///
/// Errors: `AllocError`.
fn longer(
    alloc: Global,
    keeps: &[Items<usize>],
    most: usize,
) -> Result<Vec<Items<usize>>, AllocError>
    ensures { IfOk result (λ all. AreLonger most keeps.now all.items) }
{
    let mut all = Vec::new(alloc);
    for keep in keeps {
        add_longer(&mut all, alloc, keep.as_slice(), most)?;
    }
    Ok(all)
}

/// Adds a list with each number up to this one more at its end.
///
/// Errors: `AllocError`.
fn add_longer(
    all: &mut Vec<Items<usize>>,
    alloc: Global,
    keep: &[usize],
    most: usize,
) -> Result<(), AllocError>
    ensures { OnOk result (AddsLonger most keep.now all.old.items all.new.items) }
{
    for count in 0..most {
        add_with(all, alloc, keep, count)?;
    }
    add_with(all, alloc, keep, most)?;
    Ok(())
}

/// Adds a list with a number more at its end.
///
/// Errors: `AllocError`.
fn add_with(
    all: &mut Vec<Items<usize>>,
    alloc: Global,
    keep: &[usize],
    count: usize,
) -> Result<(), AllocError>
    ensures { OnOk result (all.new.items ≡ all.old.items ++ (keep.now ++ count ∷ []) ∷ []) }
{
    let mut more = Vec::from_slice(alloc, keep)?;
    more.push(count)?;
    all.push(Items::from_vec(more))?;
    Ok(())
}
