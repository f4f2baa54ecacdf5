//! How far the plans of all nodes have come.

ghost use Rattle.std.specs.Prelude.{◌≡◌, ◌↔◌, IsTrue, IfOk, OnOk, length, map, replicate};
ghost use Rattle.std.specs.Option.{option_copied};
ghost use Rattle.pg_explore.specs.Moments.{change_at, no_progress, progress_after};
ghost use Rattle.pg_explore.specs.Moments.{progress_of, with_command, with_loss, with_retry};
ghost use Rattle.pg_explore.specs.Moves.{planned_next};

use crate::moves::Move;
use crate::plan::{Plan, Planned};
use crate::strand::Strand;
use std::alloc::{AllocError, Global};

/// So many strands of which nothing has come in.
///
/// Errors: `AllocError`.
pub(crate) fn idle_strands(alloc: Global, count: usize) -> Result<Vec<Strand>, AllocError>
    ensures { IfOk result (λ strands. map progress_of strands.items ≡ replicate count no_progress) }
{
    let mut strands = Vec::with_capacity(alloc, count)?;
    for place in 0..count {
        strands.push(Strand::new(alloc))?;
    }
    Ok(strands)
}

/// Whether there are as many, and each has come as far as the one at its place. It takes no memory.
pub(crate) fn same_strands(strands: &[Strand], others: &[Strand]) -> bool
    ensures { IsTrue result ↔ (map progress_of strands.now ≡ map progress_of others.now) }
{
    strands.len() == others.len() && agree(strands, others)
}

/// Whether each of as many has come as far as the one at its place.
fn agree(strands: &[Strand], others: &[Strand]) -> bool
    requires { length strands.now ≡ length others.now }
    ensures { IsTrue result ↔ (map progress_of strands.now ≡ map progress_of others.now) }
{
    for place in 0..strands.len() {
        let strand = &strands[place];
        if !strand.same(&others[place]) {
            return false;
        }
    }
    true
}

/// The same.
///
/// Errors: `AllocError`.
fn copies_of(alloc: Global, strands: &[Strand]) -> Result<Vec<Strand>, AllocError>
    ensures { IfOk result (λ copies. map progress_of copies.items ≡ map progress_of strands.now) }
{
    let mut copies = Vec::with_capacity(alloc, strands.len())?;
    for strand in strands {
        copies.push(strand.copy(alloc)?)?;
    }
    Ok(copies)
}

/// How far the plans have come after a step.
///
/// Errors: `AllocError`.
pub(crate) fn strands_after(
    alloc: Global,
    strands: &[Strand],
    step: &Move,
) -> Result<Vec<Strand>, AllocError>
    ensures { IfOk result (λ after. map progress_of after.items ≡ progress_after step.now (map progress_of strands.now)) }
{
    let mut copies = copies_of(alloc, strands)?;
    match step {
        Move::Next { node } => add_command(copies.as_mut_slice(), *node)?,
        Move::Loss { node, keep: _ } => add_loss(copies.as_mut_slice(), *node)?,
        Move::Retry { node, op } => add_retry(copies.as_mut_slice(), *node, op.number)?,
        Move::Take { .. } | Move::SeeLoss { .. } => {}
    }
    Ok(copies)
}

/// A command came in at a node.
///
/// Errors: `AllocError`.
fn add_command(strands: &mut [Strand], node: usize) -> Result<(), AllocError>
    ensures { OnOk result (map progress_of strands.new ≡ change_at node with_command (map progress_of strands.old)) }
{
    if node < strands.len() {
        let strand = &mut strands[node];
        strand.add_command()?;
    }
    Ok(())
}

/// A node was lost.
///
/// Errors: `AllocError`.
fn add_loss(strands: &mut [Strand], node: usize) -> Result<(), AllocError>
    ensures { OnOk result (map progress_of strands.new ≡ change_at node with_loss (map progress_of strands.old)) }
{
    if node < strands.len() {
        let strand = &mut strands[node];
        strand.add_loss()?;
    }
    Ok(())
}

/// A command of a node was tried again.
///
/// Errors: `AllocError`.
fn add_retry(strands: &mut [Strand], node: usize, number: u32) -> Result<(), AllocError>
    ensures { OnOk result (map progress_of strands.new ≡ change_at node (with_retry number) (map progress_of strands.old)) }
{
    if node < strands.len() {
        let strand = &mut strands[node];
        strand.add_retry(number)?;
    }
    Ok(())
}

/// What is planned next of a node. It takes no memory.
pub(crate) fn planned_next<'a>(
    plans: &'a [Plan],
    strands: &[Strand],
    node: usize,
) -> Option<&'a Planned>
    ensures { option_copied result ≡ planned_next plans.now (map progress_of strands.now) node }
{
    let strand = strands.get(node)?;
    let plan = plans.get(node)?;
    plan.steps.as_slice().get(strand.come)
}
