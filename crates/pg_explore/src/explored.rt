//! The moments that an exploration has met.

ghost use Rattle.std.specs.Prelude.{◌≡◌, ◌≢◌, ◌<◌, ◌≤◌, ◌↔◌, ◌∷◌, ◌++◌, [], false, IsTrue, None, Ok};
ghost use Rattle.std.specs.Prelude.{IfOk, IfErr, OnOk, OnErr, length, max, vec_len, vec_capacity};
ghost use Rattle.std.specs.List.{Contains};
ghost use Rattle.std.specs.Option.{ForSome};
ghost use Rattle.pg_explore.specs.declared.explored.Arrival.TheVariants.{Beyond};
ghost use Rattle.pg_explore.specs.declared.moves.Move.{Move};
ghost use Rattle.pg_explore.specs.Bins.{Keeps, spots_of};
ghost use Rattle.pg_explore.specs.Explorations.{AreFollowed, AreBinned, AreSized, MeetsMore, ExploredHolds};
ghost use Rattle.pg_explore.specs.Explorations.{IsAlikeAt, IsFound, IsOpenAt, LeadsFrom, Lends, met_of};
ghost use Rattle.pg_explore.specs.Faults.{CantExplore};
ghost use Rattle.pg_explore.specs.Moments.{IsMomentOf, sight_of};
ghost use Rattle.pg_explore.specs.Numbers.{number_in};
ghost use Rattle.pg_explore.specs.Ways.{AreLedAt, Arrives, IsArrived, LendsWays};

use crate::bins::Bins;
use crate::fault::ExploreFault;
use crate::listing::moves_of;
use crate::moment::Moment;
use crate::moves::{Limits, Move};
use crate::number::number_of;
use crate::plan::Plan;
use crate::visitor::{Led, Visitor};
use pg_world_packets::Config;
use std::alloc::{AllocError, Global};

/// How a moment was met: by a step that was made at the moment of an earlier place.
#[derive(Debug, Drop)]
pub struct Before {
    pub place: usize,
    pub step: Move,
}

/// A moment that was met, and how. The first has none before it.
#[derive(Drop)]
pub struct Met {
    pub moment: Moment,
    pub before: Option<Before>,
}

/// The moments that an exploration has met, each once, in the order in which they were met.
#[derive(Drop)]
pub struct Explored {
    alloc: Global,
    met: Vec<Met>,
    bins: Bins,
    // How many of them were lent.
    lent: usize,
}

/// Where a step leads.
#[derive(Clone, Copy)]
enum Arrival {
    /// It does not happen.
    Nowhere,
    /// To the moment at this place.
    At(usize),
    /// To a moment that is beyond the limit.
    Beyond,
}

impl Explored {
    /// The first moment alone.
    ///
    /// Errors: those of `FrameWorld::new`; `OutOfMemory`.
    pub(crate) fn begin(
        alloc: Global,
        config: &Config,
        plans: &[Plan],
        limits: Limits,
    ) -> Result<Explored, ExploreFault>
        ensures holds { IfOk result (ExploredHolds config.now.starts.items plans.now limits.retries) }
        ensures first { IfOk result (λ explored. length (met_of explored) ≡ 1) }
        ensures lent { IfOk result (λ explored. explored.lent ≡ 0) }
        ensures fault { IfErr result (CantExplore config.now) }
    {
        let bins = Bins::new(alloc)?;
        let met = Vec::with_capacity(alloc, 1)?;
        let mut explored = Explored {
            alloc,
            met,
            bins,
            lent: 0,
        };
        match Moment::begin(alloc, config) {
            Ok(moment) => {
                let number = number_of(&moment);
                match explored.add(moment, number, None) {
                    Ok(()) => Ok(explored),
                    Err(AllocError) => {
                        drop(explored);
                        Err(ExploreFault::OutOfMemory)
                    }
                }
            }
            Err(fault) => {
                drop(explored);
                Err(fault)
            }
        }
    }

    /// The moments, in the order in which they were met.
    ///
    /// Cost: no memory.
    pub fn met(&self) -> &[Met]
        ensures { result.now ≡ met_of self.now }
    {
        self.met.as_slice()
    }

    /// Whether all of them were lent: then each moment within the limits was met.
    ///
    /// Cost: no memory.
    pub fn is_whole(&self) -> bool
        ensures { IsTrue result ↔ (length (met_of self.now) ≤ self.now.lent) }
    {
        self.met.len() <= self.lent
    }

    /// Lends a visitor the next moment, once each step was made that can be made there; false where one leads beyond the limit, and
    /// then nothing is lent.
    ///
    /// Errors: `AllocError`.
    pub(crate) fn lend<V: Visitor>(
        &mut self,
        config: &Config,
        plans: &[Plan],
        limits: Limits,
        visitor: &mut V,
    ) -> Result<bool, AllocError>
        requires holds { ExploredHolds config.now.starts.items plans.now limits.retries self.old }
        requires more { self.old.lent < length (met_of self.old) }
        requires followed { AreFollowed plans.now limits.retries (met_of self.old) self.old.lent }
        ensures holds { ExploredHolds config.now.starts.items plans.now limits.retries self.new }
        ensures grows { MeetsMore (met_of self.old) (met_of self.new) }
        ensures few { length (met_of self.new) ≤ max (length (met_of self.old)) limits.worlds }
        ensures followed { OnOk result (AreFollowed plans.now limits.retries (met_of self.new) self.new.lent) }
        ensures lends { IfOk result (Lends (V.lent visitor.old) (V.lent visitor.new) self.old.lent self.new.lent (met_of self.new)) }
        ensures ways { IfOk result (LendsWays (V.ways visitor.old) (V.ways visitor.new) (AreLedAt plans.now limits.retries (met_of self.new) self.old.lent)) }
        ensures beyond { result ≡ Ok false → limits.worlds ≤ length (met_of self.new) }
    {
        let place = self.lent;
        match self.expand(config, plans, limits, place) {
            Ok(Some(led)) => {
                let met = &self.met[place];
                let told = visitor.visit(place, met, led.as_slice());
                drop(led);
                told?;
                self.lent += 1;
                Ok(true)
            }
            Ok(None) => Ok(false),
            Err(AllocError) => Err(AllocError),
        }
    }

    /// Makes each step that can be made at the moment of a place, and says where those lead that happen; `None` where
    /// one leads beyond the limit.
    ///
    /// Errors: `AllocError`.
    fn expand(
        &mut self,
        config: &Config,
        plans: &[Plan],
        limits: Limits,
        place: usize,
    ) -> Result<Option<Vec<Led>>, AllocError>
        requires holds { ExploredHolds config.now.starts.items plans.now limits.retries self.old }
        requires place { place < length (met_of self.old) }
        ensures holds { ExploredHolds config.now.starts.items plans.now limits.retries self.new }
        ensures grows { MeetsMore (met_of self.old) (met_of self.new) }
        ensures few { length (met_of self.new) ≤ max (length (met_of self.old)) limits.worlds }
        ensures lent { self.new.lent ≡ self.old.lent }
        ensures led { IfOk result (λ led. ForSome led (λ ways. AreLedAt plans.now limits.retries (met_of self.new) place ways.items)) }
        ensures beyond { result ≡ Ok None → limits.worlds ≤ length (met_of self.new) }
    {
        let moves = self.moves_at(plans, limits, place)?;
        let mut led = Vec::with_capacity(self.alloc, moves.len())?;
        for step in moves.as_slice() {
            match self.lead(config, plans, limits, place, step)? {
                Arrival::Nowhere => {}
                Arrival::At(reached) => add_led(&mut led, self.alloc, step, reached)?,
                Arrival::Beyond => return Ok(None),
            }
        }
        Ok(Some(led))
    }

    /// The steps that can be made at the moment of a place.
    ///
    /// Errors: `AllocError`.
    fn moves_at(
        &self,
        plans: &[Plan],
        limits: Limits,
        place: usize,
    ) -> Result<Vec<Move>, AllocError>
        requires sized { AreSized (met_of self.now) }
        requires place { place < length (met_of self.now) }
        ensures { IfOk result (λ moves. (step : Move) → Contains moves.items step ↔ IsOpenAt plans.now limits.retries (met_of self.now) place step) }
    {
        let met = &self.met[place];
        moves_of(self.alloc, &met.moment, plans, limits)
    }

    /// Makes a step at the moment of a place, where it can be made; where it leads.
    ///
    /// Errors: `AllocError`.
    fn lead(
        &mut self,
        config: &Config,
        plans: &[Plan],
        limits: Limits,
        place: usize,
        step: &Move,
    ) -> Result<Arrival, AllocError>
        requires holds { ExploredHolds config.now.starts.items plans.now limits.retries self.old }
        requires can { IsOpenAt plans.now limits.retries (met_of self.old) place step.now }
        requires place { place < length (met_of self.old) }
        ensures holds { ExploredHolds config.now.starts.items plans.now limits.retries self.new }
        ensures grows { MeetsMore (met_of self.old) (met_of self.new) }
        ensures few { length (met_of self.new) ≤ max (length (met_of self.old)) limits.worlds }
        ensures lent { self.new.lent ≡ self.old.lent }
        ensures arrives { IfOk result (Arrives plans.now (met_of self.new) place step.now) }
        ensures beyond { result ≡ Ok Beyond → limits.worlds ≤ length (met_of self.new) }
    {
        let met = &self.met[place];
        match met.moment.after(self.alloc, config, plans, step) {
            Ok(Some(moment)) => self.meet(config, plans, limits, place, step, moment),
            Ok(None) => Ok(Arrival::Nowhere),
            Err(fault) => Err(fault),
        }
    }

    /// Looks up a moment to which a step leads, or adds it; where it is.
    ///
    /// Errors: `AllocError`.
    fn meet(
        &mut self,
        config: &Config,
        plans: &[Plan],
        limits: Limits,
        place: usize,
        step: &Move,
        moment: Moment,
    ) -> Result<Arrival, AllocError>
        requires holds { ExploredHolds config.now.starts.items plans.now limits.retries self.old }
        requires can { IsOpenAt plans.now limits.retries (met_of self.old) place step.now }
        requires place { place < length (met_of self.old) }
        requires leads { LeadsFrom plans.now (met_of self.old) place step.now (sight_of moment) }
        requires of { IsMomentOf config.now.starts.items moment }
        ensures holds { ExploredHolds config.now.starts.items plans.now limits.retries self.new }
        ensures grows { MeetsMore (met_of self.old) (met_of self.new) }
        ensures few { length (met_of self.new) ≤ max (length (met_of self.old)) limits.worlds }
        ensures lent { self.new.lent ≡ self.old.lent }
        ensures arrived { IfOk result (IsArrived (met_of self.new) (sight_of moment)) }
        ensures beyond { result ≡ Ok Beyond → limits.worlds ≤ length (met_of self.new) }
    {
        let number = number_of(&moment);
        match self.find(&moment, number) {
            Ok(Some(found)) => {
                drop(moment);
                Ok(Arrival::At(found))
            }
            Ok(None) => self.add_new(config, plans, limits, place, step, moment, number),
            Err(fault) => {
                drop(moment);
                Err(fault)
            }
        }
    }

    /// Adds a moment to which a step leads, if the limit allows it; where it is.
    ///
    /// Errors: `AllocError`.
    fn add_new(
        &mut self,
        config: &Config,
        plans: &[Plan],
        limits: Limits,
        place: usize,
        step: &Move,
        moment: Moment,
        number: u64,
    ) -> Result<Arrival, AllocError>
        requires holds { ExploredHolds config.now.starts.items plans.now limits.retries self.old }
        requires can { IsOpenAt plans.now limits.retries (met_of self.old) place step.now }
        requires place { place < length (met_of self.old) }
        requires leads { LeadsFrom plans.now (met_of self.old) place step.now (sight_of moment) }
        requires of { IsMomentOf config.now.starts.items moment }
        requires number { number ≡ number_in (sight_of moment) }
        requires new { IsFound (met_of self.old) (sight_of moment) None }
        ensures holds { ExploredHolds config.now.starts.items plans.now limits.retries self.new }
        ensures grows { MeetsMore (met_of self.old) (met_of self.new) }
        ensures few { length (met_of self.new) ≤ max (length (met_of self.old)) limits.worlds }
        ensures lent { self.new.lent ≡ self.old.lent }
        ensures arrived { IfOk result (IsArrived (met_of self.new) (sight_of moment)) }
        ensures beyond { result ≡ Ok Beyond → limits.worlds ≤ length (met_of self.new) }
    {
        let new = self.met.len();
        if new >= limits.worlds {
            drop(moment);
            return Ok(Arrival::Beyond);
        }
        match step.copy(self.alloc) {
            Ok(step) => match self.add(moment, number, Some(Before { place, step })) {
                Ok(()) => Ok(Arrival::At(new)),
                Err(fault) => Err(fault),
            },
            Err(fault) => {
                drop(moment);
                Err(fault)
            }
        }
    }

    /// The place of a moment that is the same but for clocks and stamps; `None` where there is none.
    ///
    /// Errors: `AllocError`.
    fn find(&self, moment: &Moment, number: u64) -> Result<Option<usize>, AllocError>
        requires kept { AreBinned self.now.bins (met_of self.now) }
        requires number { number ≡ number_in (sight_of moment.now) }
        ensures { IfOk result (IsFound (met_of self.now) (sight_of moment.now)) }
    {
        for spot in self.bins.bin(number) {
            if spot.number == number && self.is_alike_at(spot.place, moment)? {
                return Ok(Some(spot.place));
            }
        }
        Ok(None)
    }

    /// Whether the moment of a place is the same as another but for clocks and stamps.
    ///
    /// Errors: `AllocError`.
    fn is_alike_at(&self, place: usize, moment: &Moment) -> Result<bool, AllocError>
        ensures { IfOk result (λ alike. IsTrue alike ↔ IsAlikeAt (met_of self.now) place (sight_of moment.now)) }
    {
        match self.met.as_slice().get(place) {
            Some(met) => met.moment.is_alike(moment),
            None => Ok(false),
        }
    }

    /// Adds a moment.
    ///
    /// Errors: `AllocError`, by which none is added.
    fn add(&mut self, moment: Moment, number: u64, before: Option<Before>) -> Result<(), AllocError>
        requires number { number ≡ number_in (sight_of moment) }
        ensures ok { OnOk result (met_of self.new ≡ met_of self.old ++ record { moment = moment; before = before } ∷ []) }
        ensures err { OnErr result (met_of self.new ≡ met_of self.old) }
        ensures kept { AreBinned self.old.bins (met_of self.old) → AreBinned self.new.bins (met_of self.new) }
        ensures lent { self.new.lent ≡ self.old.lent }
    {
        match self.make_room(number) {
            Ok(()) => {
                self.met.push_reserved(Met { moment, before });
                Ok(())
            }
            Err(fault) => {
                drop(moment);
                drop(before);
                Err(fault)
            }
        }
    }

    /// Makes room for one more moment, whose place is in the bin of this number then.
    ///
    /// Errors: `AllocError`.
    fn make_room(&mut self, number: u64) -> Result<(), AllocError>
        ensures met { met_of self.new ≡ met_of self.old }
        ensures room { OnOk result (vec_len self.new.met < vec_capacity self.new.met) }
        ensures keeps { Keeps self.old.bins self.new.bins }
        ensures added { OnOk result (Contains (spots_of self.new.bins number) (record { number = number; place = length (met_of self.old) })) }
        ensures lent { self.new.lent ≡ self.old.lent }
    {
        self.met.reserve(1)?;
        self.bins.add(number, self.met.len())
    }
}

/// Adds that a step leads to the moment of a place.
///
/// Errors: `AllocError`.
fn add_led(led: &mut Vec<Led>, alloc: Global, step: &Move, place: usize) -> Result<(), AllocError>
    ensures { OnOk result (led.new.items ≡ led.old.items ++ record { step = step.now; place = place } ∷ []) }
{
    let step = step.copy(alloc)?;
    led.push(Led { step, place })?;
    Ok(())
}
