//! A world that is watched, or not.

ghost use Rattle.std.specs.Prelude.{◌≡◌, IfOk};
ghost use Rattle.pg_script_trace.specs.PgWorld.Bars.{bytes_lost_after};
ghost use Rattle.pg_script_trace.specs.PgWorld.ByteWorlds.{account_of, crossing_of, given_of, lost_of, room_of};
ghost use Rattle.pg_script_trace.specs.PgWorld.BytesPast.{BytesGoOn};
ghost use Rattle.pg_script_trace.specs.PgWorld.Changes.{StepChanges};

use pg_script_trace::{IndexTable, NodeFault, Step, Stepped, Watch, World};
use std::alloc::AllocError;

/// A world, and what is seen of it where it is watched.
#[derive(Drop)]
pub(crate) struct Stage {
    pub(crate) world: World<IndexTable>,
    pub(crate) watch: Option<Watch>,
}

impl Stage {
    /// Makes a step. `is_quiet`: where it moves no byte and takes no packet, nothing is seen.
    ///
    /// Errors: `AllocError`, where there is no memory for what was seen; the step may have happened. Within: that of
    /// the step.
    pub(crate) fn step(
        &mut self,
        step: &Step,
        is_quiet: bool,
    ) -> Result<Result<Stepped, NodeFault>, AllocError>
        ensures goes_on { IfOk result (λ made. ∥ BytesGoOn (given_of self.old.world) (crossing_of self.old.world)
            (account_of self.old.world) (lost_of self.old.world) step.now made (crossing_of self.new.world)
            (account_of self.new.world) (lost_of self.new.world) ∥₁) }
        ensures changes { IfOk result (λ made. StepChanges (room_of self.old.world) (crossing_of self.old.world)
            (crossing_of self.new.world) step.now made) }
        ensures lost { IfOk result (λ made. lost_of self.new.world ≡ bytes_lost_after step.now made
            (lost_of self.old.world)) }
        ensures given { given_of self.new.world ≡ given_of self.old.world }
        ensures room { room_of self.new.world ≡ room_of self.old.world }
    {
        match &mut self.watch {
            Some(watch) => watch.step(&mut self.world, step, is_quiet),
            None => Ok(self.world.step(step)),
        }
    }
}
