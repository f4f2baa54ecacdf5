//! Lines of cells that line up, as a trace has them.

ghost use Rattle.std.specs.Prelude.{◌≡◌, OnOk, length, replicate, string_bytes};
ghost use Rattle.std.specs.Str.{chars};
ghost use Rattle.pg_text.specs.Writing.{GrowsBy};
ghost use Rattle.pg_script_lines.specs.Rows.{left_cell, right_cell, row_line};

use crate::adding::{add_char, add_text};
use std::alloc::AllocError;

/// How many characters the cells of a line take at least: the number of the line, the node, its clock, what happens, and the other
/// node.
#[derive(Clone, Copy, Debug)]
pub struct Widths {
    pub line: usize,
    pub node: usize,
    pub clock: usize,
    pub event: usize,
    pub way: usize,
}

/// The cells of a line.
#[derive(Debug, Drop)]
pub struct Row {
    pub line: String,
    pub node: String,
    pub clock: String,
    pub event: String,
    pub way: String,
    pub what: String,
}

/// Appends the cells after a `%`, and a line feed: numbers on the right of their cells.
///
/// Errors: `AllocError`; some of it may have been appended.
///
/// Cost: memory where `out` has no room for it.
pub fn print_row(out: &mut String, widths: Widths, row: &Row) -> Result<(), AllocError>
    ensures { OnOk result (GrowsBy (row_line widths row.now) (string_bytes out.old) (string_bytes out.new)) }
{
    add_text(out, "% ")?;
    add_right(out, row.line.as_str(), widths.line)?;
    add_left(out, row.node.as_str(), widths.node)?;
    add_right(out, row.clock.as_str(), widths.clock)?;
    add_left(out, row.event.as_str(), widths.event)?;
    add_left(out, row.way.as_str(), widths.way)?;
    add_text(out, row.what.as_str())?;
    add_char(out, '\n')?;
    Ok(())
}

/// Appends a text, spaces up to so many characters, and two more.
fn add_left(out: &mut String, text: &str, width: usize) -> Result<(), AllocError>
    ensures { OnOk result (GrowsBy (left_cell width (chars text.now)) (string_bytes out.old) (string_bytes out.new)) }
{
    add_text(out, text)?;
    add_spaces(out, width.saturating_sub(char_count(text)))?;
    add_spaces(out, 2)?;
    Ok(())
}

/// Appends spaces up to so many characters, a text, and two spaces more.
fn add_right(out: &mut String, text: &str, width: usize) -> Result<(), AllocError>
    ensures { OnOk result (GrowsBy (right_cell width (chars text.now)) (string_bytes out.old) (string_bytes out.new)) }
{
    add_spaces(out, width.saturating_sub(char_count(text)))?;
    add_text(out, text)?;
    add_spaces(out, 2)?;
    Ok(())
}

/// How many characters a text has.
fn char_count(text: &str) -> usize
    ensures { result ≡ length (chars text.now) }
{
    text.chars().count()
}

/// Appends so many spaces.
fn add_spaces(out: &mut String, count: usize) -> Result<(), AllocError>
    ensures { OnOk result (GrowsBy (replicate count 32) (string_bytes out.old) (string_bytes out.new)) }
{
    for _ in 0..count {
        add_char(out, ' ')?;
    }
    Ok(())
}
