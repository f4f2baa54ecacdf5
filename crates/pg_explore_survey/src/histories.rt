//! The histories of groups at ends.

ghost use Rattle.std.specs.Prelude.{◌≡◌, ◌++◌, [], List, ℕ, IfOk, OnOk, fold, map, string_bytes};
ghost use Rattle.std.specs.Option.{option_copied};
ghost use Rattle.pg_script.specs.PgWorldAccount.Histories.{as_entry, last_entries};
ghost use Rattle.pg_script.specs.PgWorldPackets.FrameWorlds.{view_of};
ghost use Rattle.pg_explore_survey.specs.Texts.{AddSections, AddTexts, EndsAs, IsSection, history_counting};
ghost use Rattle.pg_explore_survey.specs.Texts.{history_text, history_title, or_nothing, text_at, with_entry, written};

use crate::pen::Pen;
use crate::scenario::Scenario;
use crate::tally::met_at;
use pg_explore::Met;
use pg_explore_tally::{Counts, Section};
use pg_script::{Entry, FrameWorld, IndexTable};
use pg_term::Term;
use std::alloc::{AllocError, Global};

/// Adds a section for each group: the commands of its history at ends, and at how many.
///
/// Errors: `AllocError`.
pub(crate) fn add_histories(
    sections: &mut Vec<Section>,
    alloc: Global,
    scenario: &Scenario<'_>,
    mets: &[Met],
    ends: &[usize],
    groups: &[Term],
) -> Result<(), AllocError>
    ensures { OnOk result (AddSections (map (history_counting scenario.now mets.now ends.now) groups.now) sections.old.items sections.new.items) }
{
    for group in groups {
        let section = history_section(alloc, scenario, mets, ends, group)?;
        sections.push(section)?;
    }
    Ok(())
}

/// The section of a group.
///
/// Errors: `AllocError`.
fn history_section(
    alloc: Global,
    scenario: &Scenario<'_>,
    mets: &[Met],
    ends: &[usize],
    group: &Term,
) -> Result<Section, AllocError>
    ensures { IfOk result (IsSection (history_counting scenario.now mets.now ends.now group.now)) }
{
    let mut counts = Counts::new(alloc);
    for end in ends {
        count_history(&mut counts, alloc, scenario, mets, group, *end)?;
    }
    let title = history_title(alloc, group)?;
    counts.section(title)
}

/// Counts the history of a group at an end.
///
/// Errors: `AllocError`.
fn count_history(
    counts: &mut Counts,
    alloc: Global,
    scenario: &Scenario<'_>,
    mets: &[Met],
    group: &Term,
    end: usize,
) -> Result<(), AllocError>
    ensures { OnOk result (AddTexts (text_at (history_text scenario.now group.now) mets.now end) counts.old.rows.items counts.new.rows.items) }
{
    match met_at(mets, end) {
        Some(met) => {
            let text = history_text(alloc, scenario, &met.moment.world, group)?;
            counts.add(text)
        }
        None => Ok(()),
    }
}

fn history_title(alloc: Global, group: &Term) -> Result<String, AllocError>
    ensures { IfOk result (λ title. string_bytes title ≡ history_title group.now) }
{
    let mut pen = Pen::new(alloc);
    pen.add("ends by the history of ");
    pen.add_term(group);
    pen.finish()
}

/// The lines of the commands in a group's history, with commas between them.
///
/// Errors: `AllocError`.
fn history_text(
    alloc: Global,
    scenario: &Scenario<'_>,
    world: &FrameWorld<IndexTable>,
    group: &Term,
) -> Result<String, AllocError>
    ensures { IfOk result (λ text. string_bytes text ≡ or_nothing (fold (with_entry scenario.now) [] ((view_of world.now).account.histories group.now))) }
{
    let (entries, last) = world.history(group);
    let mut pen = Pen::new(alloc);
    add_entries(&mut pen, scenario, entries);
    add_last(&mut pen, scenario, last);
    add_nothing(&mut pen);
    pen.finish()
}

/// Adds the lines of some commands.
fn add_entries(pen: &mut Pen, scenario: &Scenario<'_>, entries: &[Entry])
    ensures { EndsAs (fold (with_entry scenario.now) (written pen.old) (map as_entry entries.now)) pen.old pen.new }
{
    for entry in entries {
        add_entry(pen, scenario, entry);
    }
}

/// Adds the line of a command, where one is there.
fn add_last(pen: &mut Pen, scenario: &Scenario<'_>, last: Option<&Entry>)
    ensures { EndsAs (fold (with_entry scenario.now) (written pen.old) (last_entries (option_copied last.entry))) pen.old pen.new }
{
    if let Some(entry) = last {
        add_entry(pen, scenario, entry);
    }
}

/// Adds the line of a command, after a comma where some are there.
fn add_entry(pen: &mut Pen, scenario: &Scenario<'_>, entry: &Entry)
    ensures { EndsAs (with_entry scenario.now (written pen.old) (as_entry entry.now)) pen.old pen.new }
{
    if !pen.is_empty() {
        pen.add(", ");
    }
    pen.add(scenario.command(entry.node, entry.op.number));
}

/// Says that nothing is there, where nothing is.
fn add_nothing(pen: &mut Pen)
    ensures { EndsAs (or_nothing (written pen.old)) pen.old pen.new }
{
    if pen.is_empty() {
        pen.add("nothing");
    }
}
