//! Whether nodes differ, and which locks they see held.

ghost use Rattle.std.specs.Prelude.{◌≡◌, false, true, IfOk, option_map};
ghost use Rattle.std.specs.Option.{option_copied};
ghost use Rattle.pg_script.specs.PgWorldPackets.FrameWorlds.{lost_of, traffic_of};
ghost use Rattle.pg_script.specs.PgWorldConfig.Seen.{seen_of};
ghost use Rattle.pg_explore_survey.specs.Differing.{Differ, DifferFree, DifferFreeOn, DifferOn};
ghost use Rattle.pg_explore_survey.specs.Differing.{IsApartOrSame, IsLiveAt, IsOtherOrSame, IsSomeLive};
ghost use Rattle.pg_explore_survey.specs.Differing.{LiveOf, Sees, SeesAt, SeesOne, Decides, is_held_at};

use pg_script::{FrameWorld, IndexTable, NodeState, same_group};
use pg_term::Term;
use std::alloc::{AllocError, Global};

/// Whether two of the first nodes, so many, that are formed and not lost have not the same of one of some groups.
///
/// Errors: `AllocError`.
pub(crate) fn is_differing(
    alloc: Global,
    world: &FrameWorld<IndexTable>,
    count: usize,
    names: &[Term],
) -> Result<bool, AllocError>
    ensures { IfOk result (Decides (Differ (traffic_of world.now).nodes (lost_of world.now) count names.now)) }
{
    for name in names {
        if differ(alloc, world, count, name)? {
            return Ok(true);
        }
    }
    Ok(false)
}

/// Whether two do of a group of which a node sees the lock free, where no end is pending.
///
/// Errors: `AllocError`.
pub(crate) fn is_differing_free(
    alloc: Global,
    world: &FrameWorld<IndexTable>,
    count: usize,
    names: &[Term],
) -> Result<bool, AllocError>
    ensures { IfOk result (Decides (DifferFree (traffic_of world.now).nodes (lost_of world.now) count names.now)) }
{
    let pending = world.pending_ends()?;
    if pending.len() > 0 {
        return Ok(false);
    }
    for name in names {
        if differ_free(alloc, world, count, name)? {
            return Ok(true);
        }
    }
    Ok(false)
}

/// Whether two differ on a group of which a node sees the lock free.
///
/// Errors: `AllocError`.
fn differ_free(
    alloc: Global,
    world: &FrameWorld<IndexTable>,
    count: usize,
    name: &Term,
) -> Result<bool, AllocError>
    ensures { IfOk result (Decides (DifferFreeOn (traffic_of world.now).nodes (lost_of world.now) count name.now)) }
{
    if sees(world, count, name, false) {
        differ(alloc, world, count, name)
    } else {
        Ok(false)
    }
}

/// Whether two have not the same of a group: whether one has not what the first of them has.
///
/// Errors: `AllocError`.
fn differ(
    alloc: Global,
    world: &FrameWorld<IndexTable>,
    count: usize,
    name: &Term,
) -> Result<bool, AllocError>
    ensures { IfOk result (Decides (DifferOn (traffic_of world.now).nodes (lost_of world.now) count name.now)) }
{
    match first_live(world, count) {
        Some(first) => is_other(alloc, world, count, name, first),
        None => Ok(false),
    }
}

/// The first node that is formed and not lost.
fn first_live(world: &FrameWorld<IndexTable>, count: usize) -> Option<&NodeState<IndexTable>>
    ensures { IsSomeLive (traffic_of world.now).nodes (lost_of world.now) count (option_map seen_of (option_copied result)) }
{
    for place in 0..count {
        if let Some(node) = live_node(world, place) {
            return Some(node);
        }
    }
    None
}

/// Whether a node that is formed and not lost has not the same of a group as this one.
///
/// Errors: `AllocError`.
fn is_other(
    alloc: Global,
    world: &FrameWorld<IndexTable>,
    count: usize,
    name: &Term,
    first: &NodeState<IndexTable>,
) -> Result<bool, AllocError>
    ensures { IfOk result (IsOtherOrSame (traffic_of world.now).nodes (lost_of world.now) count name.now (seen_of first.now)) }
{
    for place in 0..count {
        if is_apart(alloc, world, place, name, first)? {
            return Ok(true);
        }
    }
    Ok(false)
}

/// Whether the node at a place is such a one, and has not the same of a group as this one.
///
/// Errors: `AllocError`.
fn is_apart(
    alloc: Global,
    world: &FrameWorld<IndexTable>,
    place: usize,
    name: &Term,
    first: &NodeState<IndexTable>,
) -> Result<bool, AllocError>
    ensures { IfOk result (IsApartOrSame (traffic_of world.now).nodes (lost_of world.now) name.now (seen_of first.now) place) }
{
    match live_node(world, place) {
        Some(node) => {
            let same = same_group(alloc, node.table(), first.table(), name)?;
            Ok(!same)
        }
        None => Ok(false),
    }
}

/// The node at a place, where it is formed and not lost.
fn live_node(world: &FrameWorld<IndexTable>, place: usize) -> Option<&NodeState<IndexTable>>
    ensures { IsLiveAt (traffic_of world.now).nodes (lost_of world.now) place (option_map seen_of (option_copied result)) }
{
    match world.node(place) {
        Some(node) => live(node, world.is_lost(place)),
        None => None,
    }
}

/// A node, where it is formed and not lost.
fn live(node: &NodeState<IndexTable>, is_lost: bool) -> Option<&NodeState<IndexTable>>
    ensures { LiveOf (seen_of node.now) is_lost (option_map seen_of (option_copied result)) }
{
    if is_lost {
        return None;
    }
    if node.formed() { Some(node) } else { None }
}

/// Whether a node that is not lost sees the lock of one of some groups held.
pub(crate) fn is_held(world: &FrameWorld<IndexTable>, count: usize, names: &[Term]) -> bool
    ensures { Decides (SeesOne (traffic_of world.now).nodes (lost_of world.now) true count names.now) result }
{
    for name in names {
        if sees(world, count, name, true) {
            return true;
        }
    }
    false
}

/// Whether a node that is not lost sees the lock of a group held, or free.
fn sees(world: &FrameWorld<IndexTable>, count: usize, name: &Term, held: bool) -> bool
    ensures { Decides (Sees (traffic_of world.now).nodes (lost_of world.now) held count name.now) result }
{
    for place in 0..count {
        if sees_at(world, place, name, held) {
            return true;
        }
    }
    false
}

/// Whether a node is not lost, and sees the lock of a group so.
fn sees_at(world: &FrameWorld<IndexTable>, place: usize, name: &Term, held: bool) -> bool
    ensures { Decides (SeesAt (traffic_of world.now).nodes (lost_of world.now) held name.now place) result }
{
    if world.is_lost(place) {
        return false;
    }
    let is_held = is_held_at(world, place, name);
    if held { is_held } else { !is_held }
}

/// Whether a node sees the lock of a group held.
fn is_held_at(world: &FrameWorld<IndexTable>, place: usize, name: &Term) -> bool
    ensures { result ≡ is_held_at (traffic_of world.now).nodes place name.now }
{
    match world.node(place) {
        Some(node) => node.holder(name).is_some(),
        None => false,
    }
}
