//! The phase of a turn in which commands that wait are tried again.

ghost use Rattle.std.specs.List.{IsDistinct, list_any};
ghost use Rattle.std.specs.Prelude.{◌≡◌, ◌≢◌, ◌⊎◌, true, false, ℕ, map, slice_get, Some, IfOk};
ghost use Rattle.pg_node_run.specs.declared.pauses.Wait.TheVariants.{Tried};
ghost use Rattle.pg_node_run.specs.Follows.{log_of, node_of};
ghost use Rattle.pg_node_run.specs.Logs.{IsDueRetry, LogsOnly, MayLogRetry};
ghost use Rattle.pg_node_run.specs.Pauses.{Waits, is_due, wait_of};
ghost use Rattle.pg_node_run.specs.Tries.{HasRetried, WasWanting, is_ready_at, waits_at};
ghost use Rattle.pg_node_run.specs.Turns.{GoesOn};
ghost use Rattle.pg_node.specs.PgStep.declared.command.OpId.{OpId};
ghost use Rattle.pg_node.specs.PgStep.Attempts.{same_op};

use crate::linked::LinkedNode;
use crate::pauses::Pauses;
use crate::phases::Phase;
use pg_node::{GroupTable, Inlet, Link, NodeFault, OpId};
use rand_core::Rng;
use std::alloc::{AllocError, Global};

/// Each command that waits is tried where it is ready or its pause is over.
pub(crate) fn retry_all<T: GroupTable + Drop, L: Link + Drop, I: Inlet + Drop, K: Rng>(
    alloc: Global,
    linked: &mut LinkedNode<T, L, I>,
    pauses: &mut Pauses,
    generator: &mut K,
) -> Phase
    ensures goes { GoesOn L.accepts I.gives linked.old linked.new }
    ensures wanting { result.whole ≡ false → WasWanting L.accepts I.gives linked.old linked.new }
    ensures tried { result.whole ≡ true → (op : OpId) → waits_at (node_of linked.old) op ≡ true
        → is_due (is_ready_at (node_of linked.old) op) (wait_of pauses.old op) ≡ true → HasRetried L.accepts I.gives op linked.old linked.new }
    ensures waits { (op : OpId) → waits_at (node_of linked.old) op ≡ true
        → Waits (is_ready_at (node_of linked.old) op) result.whole (wait_of pauses.old op) (wait_of pauses.new op) }
    ensures others { (op : OpId) → waits_at (node_of linked.old) op ≡ false → wait_of pauses.new op ≡ wait_of pauses.old op }
    ensures logs { LogsOnly (IsDueRetry (is_ready_at (node_of linked.old)) pauses.old pauses.new) (log_of linked.old) (log_of linked.new) }
{
    let state = linked.node().state();
    if state.open_count() == 0 {
        return Phase::idle();
    }
    match state.waiting() {
        Ok(ops) => retry_listed(alloc, linked, pauses, generator, ops.as_slice()),
        Err(AllocError) => Phase::of(false, Some(NodeFault::OutOfMemory)),
    }
}

/// Each of these commands, which wait, is tried where it is ready or its pause is over.
fn retry_listed<T: GroupTable + Drop, L: Link + Drop, I: Inlet + Drop, K: Rng>(
    alloc: Global,
    linked: &mut LinkedNode<T, L, I>,
    pauses: &mut Pauses,
    generator: &mut K,
    ops: &[OpId],
) -> Phase
    requires once { IsDistinct same_op ops.now }
    ensures goes { GoesOn L.accepts I.gives linked.old linked.new }
    ensures wanting { result.whole ≡ false → WasWanting L.accepts I.gives linked.old linked.new }
    ensures tried { result.whole ≡ true → (k : ℕ) (op : OpId) → slice_get ops.now k ≡ Some op
        → is_due (is_ready_at (node_of linked.old) op) (wait_of pauses.old op) ≡ true → HasRetried L.accepts I.gives op linked.old linked.new }
    ensures waits { (k : ℕ) (op : OpId) → slice_get ops.now k ≡ Some op
        → Waits (is_ready_at (node_of linked.old) op) result.whole (wait_of pauses.old op) (wait_of pauses.new op) }
    ensures others { (op : OpId) → list_any (λ other. same_op other op) ops.now ≡ false → wait_of pauses.new op ≡ wait_of pauses.old op }
    ensures logs { LogsOnly (IsDueRetry (is_ready_at (node_of linked.old)) pauses.old pauses.new) (log_of linked.old) (log_of linked.new) }
{
    match ready_among(alloc, linked, ops) {
        Ok(ready) => retry_each(linked, pauses, generator, ops, ready.as_slice()),
        Err(AllocError) => Phase::of(false, Some(NodeFault::OutOfMemory)),
    }
}

/// Which of these commands are ready, each by its place.
///
/// Errors: `AllocError`.
fn ready_among<T: GroupTable + Drop, L: Drop, I: Drop>(
    alloc: Global,
    linked: &LinkedNode<T, L, I>,
    ops: &[OpId],
) -> Result<Vec<bool>, AllocError>
    ensures { IfOk result (λ ready. ready.items ≡ map (is_ready_at (node_of linked.now)) ops.now) }
{
    let mut ready = Vec::with_capacity(alloc, ops.len())?;
    for place in 0..ops.len() {
        ready.push_reserved(linked.node().state().is_ready(ops[place]));
    }
    Ok(ready)
}

/// Each of these commands, which wait, is tried where it is ready or its pause is over. `ready`: which are ready, by their places.
fn retry_each<T: GroupTable + Drop, L: Link + Drop, I: Inlet + Drop, K: Rng>(
    linked: &mut LinkedNode<T, L, I>,
    pauses: &mut Pauses,
    generator: &mut K,
    ops: &[OpId],
    ready: &[bool],
) -> Phase
    requires once { IsDistinct same_op ops.now }
    requires ready { ready.now ≡ map (is_ready_at (node_of linked.old)) ops.now }
    ensures goes { GoesOn L.accepts I.gives linked.old linked.new }
    ensures wanting { result.whole ≡ false → WasWanting L.accepts I.gives linked.old linked.new }
    ensures tried { result.whole ≡ true → (k : ℕ) (op : OpId) → slice_get ops.now k ≡ Some op
        → is_due (is_ready_at (node_of linked.old) op) (wait_of pauses.old op) ≡ true → HasRetried L.accepts I.gives op linked.old linked.new }
    ensures waits { (k : ℕ) (op : OpId) → slice_get ops.now k ≡ Some op
        → Waits (is_ready_at (node_of linked.old) op) result.whole (wait_of pauses.old op) (wait_of pauses.new op) }
    ensures others { (op : OpId) → list_any (λ other. same_op other op) ops.now ≡ false → wait_of pauses.new op ≡ wait_of pauses.old op }
    ensures logs { LogsOnly (IsDueRetry (is_ready_at (node_of linked.old)) pauses.old pauses.new) (log_of linked.old) (log_of linked.new) }
{
    let mut phase = Phase::idle();
    for place in 0..ops.len() {
        let op = ops[place];
        phase = phase.and(retry_when_due(linked, pauses, generator, op, ready[place]));
    }
    phase
}

/// A command that waits is tried where it is ready, or its pause is over.
fn retry_when_due<T: GroupTable + Drop, L: Link + Drop, I: Inlet + Drop, K: Rng>(
    linked: &mut LinkedNode<T, L, I>,
    pauses: &mut Pauses,
    generator: &mut K,
    op: OpId,
    ready: bool,
) -> Phase
    ensures goes { GoesOn L.accepts I.gives linked.old linked.new }
    ensures wanting { result.whole ≡ false → WasWanting L.accepts I.gives linked.old linked.new }
    ensures tried { result.whole ≡ true → is_due ready (wait_of pauses.old op) ≡ true → HasRetried L.accepts I.gives op linked.old linked.new }
    ensures waits { Waits ready result.whole (wait_of pauses.old op) (wait_of pauses.new op) }
    ensures logs { MayLogRetry op pauses.new (log_of linked.old) (log_of linked.new) }
    ensures spared { is_due ready (wait_of pauses.old op) ≡ false → log_of linked.new ≡ log_of linked.old }
    ensures others { (other : OpId) → other ≢ op → wait_of pauses.new other ≡ wait_of pauses.old other }
{
    if ready {
        return retry_of(linked, pauses, op);
    }
    match pauses.pass(op, generator) {
        Ok(true) => retry_of(linked, pauses, op),
        Ok(false) => Phase::idle(),
        Err(AllocError) => Phase::of(false, Some(NodeFault::OutOfMemory)),
    }
}

/// A command is tried; what it makes the node send is put at once.
fn retry_of<T: GroupTable + Drop, L: Link + Drop, I: Inlet + Drop>(
    linked: &mut LinkedNode<T, L, I>,
    pauses: &mut Pauses,
    op: OpId,
) -> Phase
    ensures goes { GoesOn L.accepts I.gives linked.old linked.new }
    ensures wanting { result.whole ≡ false → WasWanting L.accepts I.gives linked.old linked.new }
    ensures tried { result.whole ≡ true → HasRetried L.accepts I.gives op linked.old linked.new }
    ensures waits { (wait_of pauses.new op ≡ wait_of pauses.old op) ⊎ (wait_of pauses.new op ≡ Some Tried) }
    ensures logs { MayLogRetry op pauses.new (log_of linked.old) (log_of linked.new) }
    ensures others { (other : OpId) → other ≢ op → wait_of pauses.new other ≡ wait_of pauses.old other }
{
    if usize::from(op.port) >= linked.node().state().port_count() {
        return Phase::idle();
    }
    match linked.retry(op) {
        Ok(()) => {
            pauses.tried(op);
            linked.put_waiting();
            Phase::of(true, None)
        }
        Err(fault) => Phase::of(false, Some(fault)),
    }
}
