//! A moment of a run.

ghost use Rattle.std.specs.Prelude.{◌≡◌, ◌↔◌, IsTrue, IfOk, IfErr, map};
ghost use Rattle.std.specs.Option.{ForSome};
ghost use Rattle.pg_world_packets.specs.FrameWorlds.{view_of, lost_of, given_of};
ghost use Rattle.pg_explore.specs.Faults.{CantExplore};
ghost use Rattle.pg_explore.specs.Moments.{AreAlike, IsFirst, IsMomentOf, progress_after, progress_of, sight_of};
ghost use Rattle.pg_explore.specs.Moves.{ComesOf, ComesFrom};

use crate::fault::ExploreFault;
use crate::making::make;
use crate::moves::Move;
use crate::plan::Plan;
use crate::strand::Strand;
use crate::strands::{idle_strands, same_strands, strands_after};
use pg_world_packets::{Config, FrameWorld, IndexTable};
use std::alloc::{AllocError, Global};

/// A moment of a run: the world, and how far the plan of each node has come, by the places of the nodes.
#[derive(Drop)]
pub struct Moment {
    pub world: FrameWorld<IndexTable>,
    pub strands: Vec<Strand>,
}

impl Moment {
    /// How a configuration begins.
    ///
    /// Errors: those of `FrameWorld::new`; `OutOfMemory`.
    pub(crate) fn begin(alloc: Global, config: &Config) -> Result<Moment, ExploreFault>
        ensures first { IfOk result (λ moment. IsFirst config.now.starts.items (sight_of moment)) }
        ensures of { IfOk result (IsMomentOf config.now.starts.items) }
        ensures fault { IfErr result (CantExplore config.now) }
    {
        let strands = idle_strands(alloc, config.starts.len())?;
        match FrameWorld::new(alloc, config) {
            Ok(world) => Ok(Moment { world, strands }),
            Err(fault) => Err(ExploreFault::World(fault)),
        }
    }

    /// Whether both are the same but for clocks and stamps. Its cost is that of `FrameWorld::is_alike`.
    ///
    /// Errors: `AllocError`.
    pub(crate) fn is_alike(&self, other: &Moment) -> Result<bool, AllocError>
        ensures { IfOk result (λ alike. IsTrue alike ↔ AreAlike (sight_of self.now) (sight_of other.now)) }
    {
        if same_strands(self.strands.as_slice(), other.strands.as_slice()) {
            self.world.is_alike(&other.world)
        } else {
            Ok(false)
        }
    }

    /// What a step makes of it; `None` where it does not happen. Its cost is that of a copy of the world, and of the step.
    ///
    /// Errors: `AllocError`.
    pub(crate) fn after(
        &self,
        alloc: Global,
        config: &Config,
        plans: &[Plan],
        step: &Move,
    ) -> Result<Option<Moment>, AllocError>
        requires { IsMomentOf config.now.starts.items self.now }
        ensures comes { IfOk result (ComesOf plans.now (sight_of self.now) step.now) }
        ensures of { IfOk result (λ after. ForSome after (IsMomentOf config.now.starts.items)) }
    {
        let strands = strands_after(alloc, self.strands.as_slice(), step)?;
        let copy = self.world.copy(config);
        match copy {
            Ok(world) => made(world, strands, alloc, self.strands.as_slice(), plans, step),
            Err(fault) => Err(fault),
        }
    }
}

/// The moment to which a step leads from a world, where the plans have come so far after it; `None` where it does not
/// happen.
///
/// Errors: `AllocError`.
fn made(
    world: FrameWorld<IndexTable>,
    strands: Vec<Strand>,
    alloc: Global,
    old: &[Strand],
    plans: &[Plan],
    step: &Move,
) -> Result<Option<Moment>, AllocError>
    requires { map progress_of strands.items ≡ progress_after step.now (map progress_of old.now) }
    ensures comes { IfOk result (ComesFrom plans.now (view_of world) (lost_of world) (map progress_of old.now) step.now) }
    ensures given { IfOk result (λ after. ForSome after (λ moment. given_of moment.world ≡ given_of world)) }
    ensures strands { IfOk result (λ after. ForSome after (λ moment. moment.strands.items ≡ strands.items)) }
{
    let mut left = world;
    match make(&mut left, alloc, old, plans, step) {
        Ok(true) => Ok(Some(Moment {
            world: left,
            strands,
        })),
        Ok(false) => {
            drop(left);
            Ok(None)
        }
        Err(fault) => {
            drop(left);
            Err(fault)
        }
    }
}
