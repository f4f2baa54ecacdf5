//! The state graph of a survey.

ghost use Rattle.std.specs.Prelude.{◌≡◌, ◌++◌, IfOk, OnOk, length, map};
ghost use Rattle.pg_explore_survey.specs.Findings.{AreSpots, IsDrawn, is_end_at, link_kind, led_in, link_line, links_from, met_in};

use crate::findings::Findings;
use crate::tally::mark_at;
use pg_explore::{Led, Met, Move};
use pg_explore_tally::Way;
use pg_script::{Graph, Link, LinkKind, Spot};
use std::alloc::{AllocError, Global};

/// How many worlds are drawn at most.
const MAX_WORLDS: usize = 60;

impl Findings<'_, '_> {
    /// The worlds and the steps between them, as a picture shows them; `None` where there are more than 60.
    ///
    /// Errors: `AllocError`.
    ///
    /// Cost: no memory where there are more than 60; else memory for each world and each step between them.
    pub fn graph(&self) -> Result<Option<Graph>, AllocError>
        ensures { IfOk result (IsDrawn self.now) }
    {
        let mets = self.explored.met();
        if mets.len() > MAX_WORLDS {
            return Ok(None);
        }
        let spots = self.spots(mets)?;
        let links = self.links()?;
        Ok(Some(Graph { spots, links }))
    }

    /// The worlds.
    ///
    /// Errors: `AllocError`.
    fn spots(&self, mets: &[Met]) -> Result<Vec<Spot>, AllocError>
        ensures { IfOk result (λ spots. AreSpots self.now (length mets.now) spots.items) }
    {
        let mut spots = Vec::with_capacity(self.alloc, mets.len())?;
        for place in 0..mets.len() {
            let row = row_of(mets, spots.as_slice(), place);
            spots.push(Spot {
                row,
                is_end: has_no_way(self.ways.ways.as_slice(), place),
                is_marked: mark_at(self.tally.differing.as_slice(), place),
            })?;
        }
        Ok(spots)
    }

    /// The steps between worlds.
    ///
    /// Errors: `AllocError`.
    fn links(&self) -> Result<Vec<Link>, AllocError>
        ensures { IfOk result (λ links. links.items ≡ links_from 0 (led_in self.now)) }
    {
        let mut links = Vec::new(self.alloc);
        for from in 0..self.ways.led.len() {
            let led = &self.ways.led[from];
            add_links(&mut links, from, led.as_slice())?;
        }
        Ok(links)
    }
}

/// Adds the ways from a world.
///
/// Errors: `AllocError`.
fn add_links(links: &mut Vec<Link>, from: usize, led: &[Led]) -> Result<(), AllocError>
    ensures { OnOk result (links.new.items ≡ links.old.items ++ map (link_line from) led.now) }
{
    for way in led {
        links.push(Link {
            from,
            to: way.place,
            kind: kind_of(&way.step),
        })?;
    }
    Ok(())
}

/// How many steps the run has by which the world of a place was met.
fn row_of(mets: &[Met], spots: &[Spot], place: usize) -> usize {
    match mets.get(place) {
        Some(met) => match &met.before {
            Some(before) => match spots.get(before.place) {
                Some(spot) => spot.row.saturating_add(1),
                None => 0,
            },
            None => 0,
        },
        None => 0,
    }
}

fn has_no_way(ways: &[Vec<Way>], place: usize) -> bool
    ensures { result ≡ is_end_at ways.now place }
{
    match ways.get(place) {
        Some(ways) => ways.is_empty(),
        None => false,
    }
}

fn kind_of(step: &Move) -> LinkKind
    ensures { result ≡ link_kind step.now }
{
    match step {
        Move::Take { .. } => LinkKind::Take,
        Move::Next { .. } => LinkKind::Command,
        Move::Retry { .. } => LinkKind::Retry,
        Move::Loss { .. } | Move::SeeLoss { .. } => LinkKind::Loss,
    }
}
