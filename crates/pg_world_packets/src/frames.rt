//! Runs of steps from a configuration.

ghost use Rattle.std.specs.Prelude.{◌≡◌, [], false, IfOk, IfErr, length};
ghost use Rattle.pg_ring.specs.Capacity.{IsCapacity};
ghost use Rattle.pg_node_state.specs.PgStep.Config.{Config as Configuration, IsConfig};
ghost use Rattle.pg_world_packets.specs.FrameWorlds.{given_of as given_by, lost_of as lost_by, view_of as shown_by};
ghost use Rattle.pg_world_packets.specs.Losing.{ShowsLosing as shows_losing};
ghost use Rattle.pg_world_packets.specs.Openings.{AllFit, CantBegin};
ghost use Rattle.pg_world_packets.specs.Past.{RanFrames};
ghost use Rattle.pg_world_packets.specs.Runs.{LosesNone as NoneIsLost};

use crate::begun::places_for;
use crate::frame_world::FrameWorld;
use crate::step::FrameStep;
use pg_index::IndexTable;
use pg_laws_losses::each_world_past_losses;
use pg_node_state::GroupTable;
use pg_world_config::{Config, WorldFault};
use std::alloc::Global;

impl<T: GroupTable + Drop> FrameWorld<T> {
    ghost use Rattle.pg_world_packets.specs.Runs.{StepsTo, GoesTo, LosesNone};
    ghost use Rattle.pg_node_state.specs.PgStep.LossLaws.{LosingFrameWorld};
    ghost use Rattle.pg_world_packets.specs.FrameWorlds.{view_of, lost_of, given_of};
    ghost use Rattle.pg_world_packets.specs.Losing.{ShowsLosing};
    ghost use Rattle.pg_world_packets.specs.Past.{FramesRunOn, HistoriesGrow};
    ghost use Rattle.pg_world_packets.specs.Worlds.{is_loss};

    /// Makes steps, one after another, and writes the number of each in its place: 0 where it happened, or nothing
    /// was on the way; else that of its fault. A step that is refused changes nothing, and the others follow.
    ///
    /// The events that led to the world lead on by those of the steps that happened, and of all of them holds what
    /// `step` says.
    ///
    /// Cost: that of the steps.
    pub fn run(&mut self, steps: &[FrameStep], numbers: &mut Vec<u8>)
        requires { length numbers.old.items ≡ length steps.now }
        ensures len { length numbers.new.items ≡ length steps.now }
        ensures runs_on { ∥ FramesRunOn (given_of self.old) (view_of self.old) (lost_of self.old) steps.now numbers.new.items (view_of self.new) (lost_of self.new) ∥₁ }
        ensures grows { HistoriesGrow (view_of self.old).account (view_of self.new).account }
        ensures given { given_of self.new ≡ given_of self.old }
        ensures lost { LosesNone steps.now → lost_of self.new ≡ lost_of self.old }
        ensures runs { (config : Configuration) (u : LosingFrameWorld) → ShowsLosing config (view_of self.old) (lost_of self.old) u
            → GoesTo config u steps.now numbers.new.items (ShowsLosing config (view_of self.new) (lost_of self.new)) }
    {
        each_world_past_losses();
        for place in 0..steps.len() {
            let number = self.step_number(&steps[place]);
            numbers[place] = number;
        }
    }

    /// Makes one step, and gives its number.
    fn step_number(&mut self, step: &FrameStep) -> u8
        ensures given { given_of self.new ≡ given_of self.old }
        ensures lost { is_loss step.now ≡ false → lost_of self.new ≡ lost_of self.old }
        ensures steps { (config : Configuration) (u : LosingFrameWorld) → ShowsLosing config (view_of self.old) (lost_of self.old) u
            → StepsTo config u step.now result (ShowsLosing config (view_of self.new) (lost_of self.new)) }
    {
        match self.step(step) {
            Ok(_) => 0,
            Err(fault) => fault.number(),
        }
    }
}

/// Performs steps from the start of a configuration: the world after them, and for each step its number, as
/// `FrameWorld::run` gives it. The places of the numbers are got first; a step that is refused did not happen, and
/// the run goes on.
///
/// The contract is one chain, whoever is lost: of each step its number, its event or none, and the world behind it. The events lead
/// from the start of the configuration to a world that is shown at last, of which all holds that `LossesSurvived` says. Where no node is
/// lost at the end, as where no step is a loss, or each loss was refused, it is a world of the frame machine, and all holds that
/// `OneHistory` and `NothingIsStuck` say.
///
/// Errors: those of `FrameWorld::new`.
///
/// Cost: that of `FrameWorld::new` and of the steps, and a byte for each step.
pub fn run_frames(
    alloc: Global,
    config: &Config,
    steps: &[FrameStep],
) -> Result<(FrameWorld<IndexTable>, Vec<u8>), WorldFault>
    ensures good { IfOk result (λ ran. IsConfig config.now.starts.items × IsCapacity config.now.ring) }
    ensures fits { IfOk result (λ ran. AllFit config.now.starts.items) }
    ensures given { IfOk result (λ ran. given_by ran.0 ≡ config.now.starts.items) }
    ensures ran { IfOk result (λ ran. RanFrames config.now.starts.items steps.now ran.1.items (λ given. shows_losing given (shown_by ran.0) (lost_by ran.0))) }
    ensures lost { IfOk result (λ ran. NoneIsLost steps.now → lost_by ran.0 ≡ []) }
    ensures fault { IfErr result (CantBegin config.now.ring config.now.starts.items) }
{
    each_world_past_losses();
    let mut numbers = places_for(alloc, config, steps.len())?;
    match FrameWorld::new(alloc, config) {
        Ok(begun) => {
            let mut world = begun;
            world.run(steps, &mut numbers);
            Ok((world, numbers))
        }
        Err(fault) => Err(fault),
    }
}
