//! What commands are answered at ends.

ghost use Rattle.std.specs.Prelude.{◌≡◌, ◌++◌, List, ℕ, IfOk, OnOk, map, length, string_bytes};
ghost use Rattle.std.specs.List.{flat_map, range_with_len};
ghost use Rattle.std.specs.Option.{option_copied};
ghost use Rattle.pg_script.specs.PgWorldPackets.FrameWorlds.{traffic_of};
ghost use Rattle.pg_explore_survey.specs.Texts.{AddSections, AddTexts, IsSection, answer_counting, answer_countings};
ghost use Rattle.pg_explore_survey.specs.Texts.{answer_text, answer_title, answer_to, answers_at, told_text, text_at};

use crate::pen::Pen;
use crate::scenario::Scenario;
use crate::tally::met_at;
use pg_explore::Met;
use pg_explore_tally::{Counts, Section};
use pg_script::{Answer, FrameWorld, IndexTable};
use std::alloc::{AllocError, Global};

/// Adds a section for each command of each node: what it is answered at ends, and at how many.
///
/// Errors: `AllocError`.
pub(crate) fn add_answers(
    sections: &mut Vec<Section>,
    alloc: Global,
    scenario: &Scenario<'_>,
    mets: &[Met],
    ends: &[usize],
) -> Result<(), AllocError>
    ensures { OnOk result (AddSections (flat_map (answer_countings scenario.now mets.now ends.now) (range_with_len 0 (length scenario.now.commands.items))) sections.old.items sections.new.items) }
{
    for node in 0..scenario.commands.len() {
        add_answers_of(sections, alloc, scenario, mets, ends, node)?;
    }
    Ok(())
}

/// Adds a section for each command of a node.
///
/// Errors: `AllocError`.
fn add_answers_of(
    sections: &mut Vec<Section>,
    alloc: Global,
    scenario: &Scenario<'_>,
    mets: &[Met],
    ends: &[usize],
    node: usize,
) -> Result<(), AllocError>
    ensures { OnOk result (AddSections (answer_countings scenario.now mets.now ends.now node) sections.old.items sections.new.items) }
{
    for place in 0..scenario.command_count(node) {
        let section = answer_section(alloc, scenario, mets, ends, node, place)?;
        sections.push(section)?;
    }
    Ok(())
}

/// The section of a command.
///
/// Errors: `AllocError`.
fn answer_section(
    alloc: Global,
    scenario: &Scenario<'_>,
    mets: &[Met],
    ends: &[usize],
    node: usize,
    place: usize,
) -> Result<Section, AllocError>
    ensures { IfOk result (IsSection (answer_counting scenario.now mets.now ends.now node place)) }
{
    let mut counts = Counts::new(alloc);
    for end in ends {
        count_answer(&mut counts, alloc, mets, node, place, *end)?;
    }
    let title = answer_title(alloc, scenario, node, place)?;
    counts.section(title)
}

/// Counts the answer to a command at an end.
///
/// Errors: `AllocError`.
fn count_answer(
    counts: &mut Counts,
    alloc: Global,
    mets: &[Met],
    node: usize,
    place: usize,
    end: usize,
) -> Result<(), AllocError>
    ensures { OnOk result (AddTexts (text_at (answer_text node place) mets.now end) counts.old.rows.items counts.new.rows.items) }
{
    match met_at(mets, end) {
        Some(met) => {
            let text = answer_text(alloc, place, answers_of(&met.moment.world, node))?;
            counts.add(text)
        }
        None => Ok(()),
    }
}

fn answer_title(
    alloc: Global,
    scenario: &Scenario<'_>,
    node: usize,
    place: usize,
) -> Result<String, AllocError>
    ensures { IfOk result (λ title. string_bytes title ≡ answer_title scenario.now node place) }
{
    let mut pen = Pen::new(alloc);
    pen.add("ends by the answer to ");
    pen.add(scenario.command_at(node, place));
    pen.finish()
}

/// The answers that a node gave at its one port.
fn answers_of(world: &FrameWorld<IndexTable>, node: usize) -> &[Answer]
    ensures { result.now ≡ answers_at (traffic_of world.now).nodes node }
{
    match world.node(node) {
        Some(state) if state.port_count() > 0 => state.answers(0),
        _ => &[],
    }
}

/// What a command was answered. `place`: its number, from 0 on.
///
/// Errors: `AllocError`.
fn answer_text(alloc: Global, place: usize, answers: &[Answer]) -> Result<String, AllocError>
    ensures { IfOk result (λ text. string_bytes text ≡ told_text (answer_to place answers.now)) }
{
    let mut pen = Pen::new(alloc);
    match answer_to(place, answers) {
        Some(answer) => pen.add_reply(&answer.reply),
        None => pen.add("not answered"),
    }
    pen.finish()
}

fn answer_to(place: usize, answers: &[Answer]) -> Option<&Answer>
    ensures { option_copied result ≡ answer_to place answers.now }
{
    for answer in answers {
        if answer.number.saturating_sub(1) as usize == place {
            return Some(answer);
        }
    }
    None
}
