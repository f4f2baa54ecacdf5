//! What a survey prints.

ghost use Rattle.std.specs.Prelude.{◌≡◌, IfOk, List, None, get_or, string_bytes};
ghost use Rattle.std.specs.Global.{Vec};
ghost use Rattle.pg_explore_tally.specs.declared.ways.Way.{Way};
ghost use Rattle.pg_explore_tally.specs.Takes.{AreTakes, widened_to};
ghost use Rattle.pg_explore_survey.specs.Findings.{AreAmong, joined_takes, IsPage, IsReport, countings_in, end_places, ways_in};
ghost use Rattle.pg_explore_survey.specs.Texts.{AreSections};

use crate::answers::add_answers;
use crate::findings::Findings;
use crate::histories::add_histories;
use crate::tally::{count_at, count_marks};
use pg_explore_tally::{Report, Section, Takes, takes_to};
use std::alloc::AllocError;

impl Findings<'_, '_> {
    /// What was found, in lines of a number and what it counts.
    ///
    /// Errors: `AllocError`, also where a walk with takes leads back to where it began.
    ///
    /// Cost: that of `report`, and of `Report::page`.
    pub fn page(&self) -> Result<String, AllocError>
        ensures { IfOk result (λ text. IsPage self.now (string_bytes text)) }
    {
        let report = self.report()?;
        let page = report.page(self.alloc);
        drop(report);
        page
    }

    /// What was found.
    ///
    /// Errors: `AllocError`, also where a walk with takes leads back to where it began.
    ///
    /// Cost: that of `takes_to`. For each end, and each group and each command, a text is made and compared with the
    /// different ones before it.
    pub fn report(&self) -> Result<Report, AllocError>
        ensures { IfOk result (IsReport self.now) }
    {
        let takes = self.takes()?;
        let sections = self.sections()?;
        Ok(Report {
            worlds: self.explored.met().len(),
            is_whole: self.is_whole(),
            ends: self.tally.ends.len(),
            takes,
            held: count_at(self.tally.held.as_slice(), self.tally.ends.as_slice()),
            differing: count_marks(self.tally.differing.as_slice()),
            free: count_marks(self.tally.free.as_slice()),
            sections,
        })
    }

    /// The fewest and the most takes to an end; `None` where there is none.
    ///
    /// Errors: `AllocError`, also where a walk with takes leads back to where it began.
    fn takes(&self) -> Result<Option<Takes>, AllocError>
        ensures { IfOk result (AreAmong (ways_in self.now) (end_places self.now)) }
    {
        let takes = takes_to(self.alloc, self.ways.ways.as_slice())?;
        Ok(takes_among(takes.as_slice(), self.tally.ends.as_slice()))
    }

    /// Of each group that commands change, the histories at ends; of each command, what it is answered there.
    ///
    /// Errors: `AllocError`.
    fn sections(&self) -> Result<Vec<Section>, AllocError>
        ensures { IfOk result (λ sections. AreSections (countings_in self.now) sections.items) }
    {
        let mut sections = Vec::new(self.alloc);
        let mets = self.explored.met();
        let ends = self.tally.ends.as_slice();
        let groups = self.tally.groups.as_slice();
        add_histories(&mut sections, self.alloc, self.scenario, mets, ends, groups)?;
        add_answers(&mut sections, self.alloc, self.scenario, mets, ends)?;
        Ok(sections)
    }
}

/// The fewest and the most takes to one of these places.
fn takes_among(takes: &[Option<Takes>], places: &[usize]) -> Option<Takes>
    ensures { (worlds : List (Vec Way)) → AreTakes worlds takes.now → AreAmong worlds places.now result }
{
    let mut among = None;
    for place in places {
        among = with_next(among, takes, *place);
    }
    among
}

/// Those of a place more, where some are known.
fn with_next(among: Option<Takes>, takes: &[Option<Takes>], place: usize) -> Option<Takes>
    ensures { result ≡ joined_takes among (get_or takes.now place None) }
{
    match takes.get(place) {
        Some(Some(next)) => Some(both(among, *next)),
        _ => among,
    }
}

/// The fewest and the most of both.
fn both(one: Option<Takes>, other: Takes) -> Takes
    ensures { result ≡ widened_to one other }
{
    match one {
        Some(one) => Takes {
            fewest: one.fewest.min(other.fewest),
            most: one.most.max(other.most),
        },
        None => other,
    }
}
