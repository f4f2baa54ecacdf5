//! Which lines a scenario has.

ghost use Rattle.std.specs.Prelude.{◌≡◌, ◌∷◌, IfOk, Ok, option_map};
ghost use Rattle.pg_script.specs.PgScriptLines.Forms.{line_of};
ghost use Rattle.pg_script.specs.Scripts.{is_skipped, lines_in, lines_of_rest};
ghost use Rattle.pg_explore_survey.specs.Scenarios.{is_other, is_other_form, is_planned, other_in, texts_of};

use pg_script::{Line, NodeForm, TextFault, read_line};
use std::alloc::{AllocError, Global};

/// The number of the first line of a text, from 1 on, that has a form, but none of a declaration, a command or a
/// loss.
///
/// Errors: `AllocError`.
pub(crate) fn other_line(alloc: Global, text: &str) -> Result<Option<usize>, AllocError>
    ensures { IfOk result (λ found. found ≡ other_in 1 (lines_in text.now)) }
{
    let mut number = 0usize;
    let mut rest = Some(text);
    while let Some(left) = rest {
        let (line, behind) = first_line(left);
        rest = behind;
        number += 1;
        match is_other(alloc, line) {
            Ok(true) => return Ok(Some(number)),
            Ok(false) => {}
            Err(AllocError) => return Err(AllocError),
        }
    }
    Ok(None)
}

/// The lines of a text.
///
/// Errors: `AllocError`.
pub(crate) fn lines_of(alloc: Global, text: &str) -> Result<Vec<&str>, AllocError>
    ensures { IfOk result (λ lines. texts_of lines.items ≡ lines_in text.now) }
{
    let mut lines = Vec::new(alloc);
    let mut rest = Some(text);
    while let Some(left) = rest {
        let (line, behind) = first_line(left);
        rest = behind;
        lines.push(line)?;
    }
    Ok(lines)
}

/// The first line of a text, and what follows the line feed behind it, where one stands there.
fn first_line(text: &str) -> (&str, Option<&str>)
    ensures { lines_in text.now ≡ result.0.now ∷ lines_of_rest (option_map (λ rest. rest.now) result.1) }
{
    match text.split_once('\n') {
        Some((line, rest)) => (line, Some(rest)),
        None => (text, None),
    }
}

/// Whether a line has a form that is none of these.
///
/// Errors: `AllocError`.
fn is_other(alloc: Global, text: &str) -> Result<bool, AllocError>
    ensures { IfOk result (λ other. other ≡ is_other text.now) }
{
    if is_skipped(text) {
        return Ok(false);
    }
    match read_line(alloc, text) {
        Ok(line) => {
            let is_planned = is_planned(&line);
            drop(line);
            Ok(!is_planned)
        }
        Err(TextFault::OutOfMemory) => Err(AllocError),
        Err(TextFault::BadText) => Ok(false),
    }
}

/// Whether a line is empty or a comment.
fn is_skipped(text: &str) -> bool
    ensures { result ≡ is_skipped text.now }
{
    text.is_empty() || text.starts_with('%')
}

/// Whether a line is a declaration, a command or a loss.
fn is_planned(line: &Line) -> bool
    ensures { result ≡ is_planned line.now }
{
    match line {
        Line::Node { .. } | Line::Has { .. } => true,
        Line::At { node: _, form } => match form {
            NodeForm::Command(_) | NodeForm::Lose => true,
            NodeForm::Retry(_) | NodeForm::Lock(_) => false,
        },
        Line::Ring(_) | Line::Pair { .. } | Line::Settle(_) | Line::History(_) => false,
    }
}
