//! What a step makes of a world.

ghost use Rattle.std.specs.Prelude.{◌≡◌, Some, IfOk, map};
ghost use Rattle.std.specs.Option.{option_copied};
ghost use Rattle.pg_world_packets.specs.FrameWorlds.{view_of, lost_of, given_of};
ghost use Rattle.pg_explore.specs.Moments.{progress_of};
ghost use Rattle.pg_world_packets.specs.PgStep.Step.{Retry as tried_again};
ghost use Rattle.pg_world_packets.specs.Losing.{told_take, told_own, told_sight};
ghost use Rattle.pg_explore.specs.Moves.{IsOutcome, Makes, MakesLoss, MakesPlanned, MakesStep, MakesTold};

use crate::moves::Move;
use crate::plan::{Plan, Planned};
use crate::strand::Strand;
use crate::strands::planned_next;
use pg_world_packets::{FrameStep, FrameWorld, IndexTable, NodeFault, OpId, Stepped};
use std::alloc::{AllocError, Global};

/// Makes a step of a world, where the plans have come so far; whether it happened.
///
/// Errors: `AllocError`.
pub(crate) fn make(
    world: &mut FrameWorld<IndexTable>,
    alloc: Global,
    strands: &[Strand],
    plans: &[Plan],
    step: &Move,
) -> Result<bool, AllocError>
    ensures made { IfOk result (Makes plans.now (map progress_of strands.now) step.now (view_of world.old) (lost_of world.old) (view_of world.new) (lost_of world.new)) }
    ensures given { given_of world.new ≡ given_of world.old }
{
    match step {
        Move::Take { node, peer } => take(world, *node, *peer),
        Move::Next { node } => make_planned(world, planned_next(plans, strands, *node)),
        Move::Loss { node, keep } => lose(world, alloc, *node, keep.as_slice()),
        Move::Retry { node, op } => retry(world, *node, *op),
        Move::SeeLoss { node, peer } => see_loss(world, *node, *peer),
    }
}

/// Has a node take the first packet of a peer; whether it happened.
///
/// Errors: `AllocError`.
fn take(world: &mut FrameWorld<IndexTable>, node: usize, peer: usize) -> Result<bool, AllocError>
    ensures made { IfOk result (MakesTold (λ config u. Some (told_take config u node peer)) (view_of world.old) (lost_of world.old) (view_of world.new) (lost_of world.new)) }
    ensures given { given_of world.new ≡ given_of world.old }
{
    let step = FrameStep::Take { node, peer };
    make_step(world, &step)
}

/// Has a node try a command again; whether it happened.
///
/// Errors: `AllocError`.
fn retry(world: &mut FrameWorld<IndexTable>, node: usize, op: OpId) -> Result<bool, AllocError>
    ensures made { IfOk result (MakesTold (λ config u. Some (told_own config u node (tried_again op))) (view_of world.old) (lost_of world.old) (view_of world.new) (lost_of world.new)) }
    ensures given { given_of world.new ≡ given_of world.old }
{
    let step = FrameStep::Retry { node, op };
    make_step(world, &step)
}

/// Has a node see the loss of a peer; whether it happened.
///
/// Errors: `AllocError`.
fn see_loss(
    world: &mut FrameWorld<IndexTable>,
    node: usize,
    peer: usize,
) -> Result<bool, AllocError>
    ensures made { IfOk result (MakesTold (λ config u. Some (told_sight config u node peer)) (view_of world.old) (lost_of world.old) (view_of world.new) (lost_of world.new)) }
    ensures given { given_of world.new ≡ given_of world.old }
{
    let step = FrameStep::SeeLoss { node, peer };
    make_step(world, &step)
}

/// Makes the step that is planned, where it is one; whether it happened.
///
/// Errors: `AllocError`.
fn make_planned(
    world: &mut FrameWorld<IndexTable>,
    planned: Option<&Planned>,
) -> Result<bool, AllocError>
    ensures made { IfOk result (MakesPlanned (option_copied planned.entry) (view_of world.old) (lost_of world.old) (view_of world.new) (lost_of world.new)) }
    ensures given { given_of world.new ≡ given_of world.old }
{
    match planned {
        Some(Planned::Step(step)) => make_step(world, step),
        Some(Planned::Loss) | None => Ok(false),
    }
}

/// Loses a node, where so many packets stay; whether it happened.
///
/// Errors: `AllocError`.
fn lose(
    world: &mut FrameWorld<IndexTable>,
    alloc: Global,
    node: usize,
    keep: &[usize],
) -> Result<bool, AllocError>
    ensures made { IfOk result (MakesLoss node keep.now (view_of world.old) (lost_of world.old) (view_of world.new) (lost_of world.new)) }
    ensures given { given_of world.new ≡ given_of world.old }
{
    let keep = Vec::from_slice(alloc, keep)?;
    let step = FrameStep::Lose { node, keep };
    make_step(world, &step)
}

/// Makes a step; whether it happened.
///
/// Errors: `AllocError`.
fn make_step(world: &mut FrameWorld<IndexTable>, step: &FrameStep) -> Result<bool, AllocError>
    ensures made { IfOk result (MakesStep step.now (view_of world.old) (lost_of world.old) (view_of world.new) (lost_of world.new)) }
    ensures given { given_of world.new ≡ given_of world.old }
{
    has_happened(world.step(step))
}

/// Whether a step happened.
///
/// Errors: `AllocError`.
fn has_happened(stepped: Result<Stepped, NodeFault>) -> Result<bool, AllocError>
    ensures { IfOk result (IsOutcome stepped) }
{
    match stepped {
        Ok(Stepped::Happened(_)) | Ok(Stepped::Gone) => Ok(true),
        Ok(Stepped::Nothing) | Ok(Stepped::Moved(_)) => Ok(false),
        Err(NodeFault::OutOfMemory) => Err(AllocError),
        Err(_) => Ok(false),
    }
}
