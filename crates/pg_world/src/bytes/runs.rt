//! Runs of steps over bytes from a configuration.

ghost use Rattle.std.specs.Prelude.{◌≡◌, [], false, IfOk, IfErr, length};
ghost use Rattle.pg_world_packets.specs.PgRing.Capacity.{IsCapacity};
ghost use Rattle.pg_world_packets.specs.PgStep.Config.{Config as Configuration, IsConfig};
ghost use Rattle.pg_world.specs.BytesLosing.{ShowsLosingBytes as shows_losing};
ghost use Rattle.pg_world.specs.ByteWorlds.{account_of as kept_of, crossing_of as shown_by};
ghost use Rattle.pg_world.specs.ByteWorlds.{given_of as given_by, lost_of as lost_by, room_of as room_in};
ghost use Rattle.pg_world.specs.CrossingRuns.{NobodyLost as NoneIsLost, RanBytes};
ghost use Rattle.pg_world_packets.specs.Openings.{AllFit, CantBegin};

use crate::byte_world::World;
use crate::step::Step;
use pg_world_packets::{
    Config, GroupTable, IndexTable, WorldFault, each_world_past_losses, places_for,
};
use std::alloc::Global;

impl<T: GroupTable + Drop> World<T> {
    ghost use Rattle.std.specs.Prelude.{◌∷◌};
    ghost use Rattle.pg_world.specs.ByteWorlds.{account_of, crossing_of, given_of, lost_of, room_of};
    ghost use Rattle.pg_world.specs.Crossings.{is_loss_in};
    ghost use Rattle.pg_world_packets.specs.PgStep.LossLaws.{LosingFrameWorld};
    ghost use Rattle.pg_world.specs.BytesLosing.{ShowsLosingBytes};
    ghost use Rattle.pg_world_packets.specs.Losing.{IsReachedLosing};
    ghost use Rattle.pg_world.specs.CrossingRuns.{CrossesTo, NobodyLost};
    ghost use Rattle.pg_world_packets.specs.Past.{HistoriesGrow};
    ghost use Rattle.pg_world.specs.BytesPast.{BytesRunOn};

    /// Makes steps, one after another, and writes the number of each in its place: 0 where it happened, bytes moved,
    /// or no whole packet had come; else that of its fault. A step that is refused changes nothing, and the others
    /// follow.
    ///
    /// The events that led to the world lead on by those of the steps that happened, and of all of them holds what
    /// `step` says.
    ///
    /// Cost: that of the steps.
    pub fn run(&mut self, steps: &[Step], numbers: &mut Vec<u8>)
        requires { length numbers.old.items ≡ length steps.now }
        ensures len { length numbers.new.items ≡ length steps.now }
        ensures runs_on { ∥ BytesRunOn (given_of self.old) (room_of self.old) (crossing_of self.old) (account_of self.old) (lost_of self.old) steps.now numbers.new.items (crossing_of self.new) (account_of self.new) (lost_of self.new) ∥₁ }
        ensures grows { HistoriesGrow (account_of self.old) (account_of self.new) }
        ensures given { given_of self.new ≡ given_of self.old }
        ensures room { room_of self.new ≡ room_of self.old }
        ensures lost { NobodyLost steps.now → lost_of self.new ≡ lost_of self.old }
        ensures crosses { (config : Configuration) (u : LosingFrameWorld) → IsReachedLosing config u
            → ShowsLosingBytes config (crossing_of self.old) (account_of self.old) (lost_of self.old) u
            → CrossesTo config (room_of self.old) (crossing_of self.old) u steps.now numbers.new.items (crossing_of self.new)
            (ShowsLosingBytes config (crossing_of self.new) (account_of self.new) (lost_of self.new)) }
    {
        each_world_past_losses();
        for place in 0..steps.len() {
            let number = self.step_number(&steps[place]);
            numbers[place] = number;
        }
    }

    /// Makes one step, and gives its number.
    fn step_number(&mut self, step: &Step) -> u8
        ensures given { given_of self.new ≡ given_of self.old }
        ensures room { room_of self.new ≡ room_of self.old }
        ensures lost { is_loss_in step.now ≡ false → lost_of self.new ≡ lost_of self.old }
        ensures crosses { (config : Configuration) (u : LosingFrameWorld) → IsReachedLosing config u
            → ShowsLosingBytes config (crossing_of self.old) (account_of self.old) (lost_of self.old) u
            → CrossesTo config (room_of self.old) (crossing_of self.old) u (step.now ∷ []) (result ∷ []) (crossing_of self.new)
            (ShowsLosingBytes config (crossing_of self.new) (account_of self.new) (lost_of self.new)) }
    {
        match self.step(step) {
            Ok(_) => 0,
            Err(fault) => fault.number(),
        }
    }
}

/// Performs steps over bytes from the start of a configuration: the world after them, and for each step its number,
/// as `World::run` gives it. The places of the numbers are got first; a step that is refused did not happen, and the
/// run goes on.
///
/// The contract is one chain, however the bytes were cut and whoever is lost: of each step its number, its event or none, what it
/// changed, and the world behind it. What bars a step is its number, whatever memory there is. The events lead from the start of the
/// configuration to a world that is shown at last, of which all holds that `LossesSurvived` says, and where no node is lost all that
/// `OneHistory` and `NothingIsStuck` say.
///
/// Errors: those of `World::new`.
///
/// Cost: that of `World::new` and of the steps, and a byte for each step.
pub fn run(
    alloc: Global,
    config: &Config,
    steps: &[Step],
) -> Result<(World<IndexTable>, Vec<u8>), WorldFault>
    ensures good { IfOk result (λ ran. IsConfig config.now.starts.items × IsCapacity config.now.ring) }
    ensures fits { IfOk result (λ ran. AllFit config.now.starts.items) }
    ensures given { IfOk result (λ ran. given_by ran.0 ≡ config.now.starts.items) }
    ensures room { IfOk result (λ ran. room_in ran.0 ≡ config.now.ring) }
    ensures ran { IfOk result (λ ran. RanBytes config.now.starts.items config.now.ring steps.now ran.1.items (shown_by ran.0)
        (λ given. shows_losing given (shown_by ran.0) (kept_of ran.0) (lost_by ran.0))) }
    ensures lost { IfOk result (λ ran. NoneIsLost steps.now → lost_by ran.0 ≡ []) }
    ensures fault { IfErr result (CantBegin config.now.ring config.now.starts.items) }
{
    each_world_past_losses();
    let mut numbers = places_for(alloc, config, steps.len())?;
    match World::new(alloc, config) {
        Ok(begun) => {
            let mut world = begun;
            world.run(steps, &mut numbers);
            Ok((world, numbers))
        }
        Err(fault) => Err(fault),
    }
}
