//! The exploration.

ghost use Rattle.std.specs.Prelude.{◌≡◌, ◌<◌, ◌≤◌, ◌+◌, IfOk, IfErr, OnOk, length, max, take};
ghost use Rattle.pg_explore.specs.Explorations.{AreUnlike, AreFollowed, AreReached, ExploredHolds, met_of};
ghost use Rattle.pg_explore.specs.Faults.{CantExplore};
ghost use Rattle.pg_explore.specs.Lent.{AreLent};
ghost use Rattle.pg_explore.specs.Ways.{AreLentWays, AreWays};

use crate::explored::Explored;
use crate::fault::ExploreFault;
use crate::moves::Limits;
use crate::plan::Plan;
use crate::visitor::Visitor;
use pg_world_packets::Config;
use std::alloc::{AllocError, Global};

/// Meets the moments of a configuration, of whose nodes this is planned, by their places: each order in which packets
/// are taken, what is planned comes in, waiting commands are tried again and losses are seen. Moments that are the
/// same but for clocks and stamps are met once. The first is that in which the configuration begins, with what each
/// node sends the others on its way. The visitor is lent each moment once all steps were made that can be made there.
///
/// Each moment that was met is reached: a step that could be made at an earlier one led to it. No two are alike.
/// Where it is whole, each step that can be made at one of them within the limits does not happen there, or leads to
/// one that is alike to one of them. Else the limit of moments was reached, and the first were lent alone.
///
/// Errors: those of `FrameWorld::new`; `OutOfMemory`.
///
/// Cost: for each step that can be made at each moment, a copy of the world, the step, and the moments of the same
/// number compared; and the memory of all moments that were met.
pub fn explore<V: Visitor>(
    alloc: Global,
    config: &Config,
    plans: &[Plan],
    limits: Limits,
    visitor: &mut V,
) -> Result<Explored, ExploreFault>
    ensures reached { IfOk result (λ explored. AreReached config.now.starts.items plans.now limits.retries (met_of explored)) }
    ensures distinct { IfOk result (λ explored. AreUnlike (met_of explored)) }
    ensures first { IfOk result (λ explored. 0 < length (met_of explored)) }
    ensures few { IfOk result (λ explored. length (met_of explored) ≤ max 1 limits.worlds) }
    ensures followed { IfOk result (λ explored. AreFollowed plans.now limits.retries (met_of explored) explored.lent) }
    ensures cut { IfOk result (λ explored. explored.lent < length (met_of explored) → limits.worlds ≤ length (met_of explored)) }
    ensures lent { IfOk result (λ explored. AreLent (V.lent visitor.old) (V.lent visitor.new) (take explored.lent (met_of explored))) }
    ensures ways { IfOk result (λ explored. AreLentWays (V.ways visitor.old) (V.ways visitor.new) (AreWays plans.now limits.retries (met_of explored) explored.lent)) }
    ensures fault { IfErr result (CantExplore config.now) }
{
    match Explored::begin(alloc, config, plans, limits) {
        Ok(begun) => {
            let mut explored = begun;
            match lend_all(&mut explored, config, plans, limits, visitor) {
                Ok(()) => Ok(explored),
                Err(AllocError) => {
                    drop(explored);
                    Err(ExploreFault::OutOfMemory)
                }
            }
        }
        Err(fault) => Err(fault),
    }
}

/// Lends a visitor one moment after another, until all were lent or a step leads beyond the limit.
///
/// Errors: `AllocError`.
fn lend_all<V: Visitor>(
    explored: &mut Explored,
    config: &Config,
    plans: &[Plan],
    limits: Limits,
    visitor: &mut V,
) -> Result<(), AllocError>
    requires holds { ExploredHolds config.now.starts.items plans.now limits.retries explored.old }
    requires first { length (met_of explored.old) ≡ 1 }
    requires lent { explored.old.lent ≡ 0 }
    ensures holds { ExploredHolds config.now.starts.items plans.now limits.retries explored.new }
    ensures first { 0 < length (met_of explored.new) }
    ensures few { length (met_of explored.new) ≤ max 1 limits.worlds }
    ensures followed { OnOk result (AreFollowed plans.now limits.retries (met_of explored.new) explored.new.lent) }
    ensures cut { OnOk result (explored.new.lent < length (met_of explored.new) → limits.worlds ≤ length (met_of explored.new)) }
    ensures lent { OnOk result (AreLent (V.lent visitor.old) (V.lent visitor.new) (take explored.new.lent (met_of explored.new))) }
    ensures ways { OnOk result (AreLentWays (V.ways visitor.old) (V.ways visitor.new) (AreWays plans.now limits.retries (met_of explored.new) explored.new.lent)) }
{
    for turn in 0..limits.worlds {
        if explored.is_whole() {
            return Ok(());
        }
        if !explored.lend(config, plans, limits, visitor)? {
            return Ok(());
        }
    }
    Ok(())
}
