//! The lines of a page.

ghost use Rattle.std.specs.Prelude.{◌≡◌, ◌++◌, IfOk, OnOk, codes, decimal, length, max, map, replicate, string_bytes};
ghost use Rattle.std.specs.List.{flat_map};
ghost use Rattle.pg_explore_tally.specs.Pages.{GrowsBy, counted_row, limit_line, row_of, section_of, takes_rows, totals_of};

use crate::counts::Counted;
use crate::report::{Report, Section};
use crate::takes::Takes;
use std::alloc::{AllocError, Global};

/// How many digits numbers have room for at least.
const LEAST_WIDTH: usize = 7;

/// How many digits the numbers of a page have room for, where this is the greatest.
///
/// Errors: `AllocError`.
pub(crate) fn width_of(alloc: Global, greatest: usize) -> Result<usize, AllocError>
    ensures { IfOk result (λ width. width ≡ max 7 (length (decimal greatest))) }
{
    let digits = format!(in alloc; "{greatest}")?;
    Ok(digits.len().max(LEAST_WIDTH))
}

/// Adds the numbers of all worlds and ends.
///
/// Errors: `AllocError`.
pub(crate) fn add_totals(
    out: &mut String,
    alloc: Global,
    width: usize,
    report: &Report,
) -> Result<(), AllocError>
    ensures { OnOk result (GrowsBy (totals_of width report.now) (string_bytes out.old) (string_bytes out.new)) }
{
    add_row(out, alloc, width, report.worlds, "worlds")?;
    add_limit(out, report.is_whole)?;
    add_row(out, alloc, width, report.ends, "ends")?;
    add_takes(out, alloc, width, report.takes)?;
    add_row(
        out,
        alloc,
        width,
        report.held,
        "ends at which a lock is held",
    )?;
    add_row(
        out,
        alloc,
        width,
        report.differing,
        "worlds in which two formed nodes differ",
    )?;
    add_row(
        out,
        alloc,
        width,
        report.free,
        "of these, a node sees the lock free and no end is pending",
    )
}

/// Adds a line where not all worlds were met.
///
/// Errors: `AllocError`.
fn add_limit(out: &mut String, is_whole: bool) -> Result<(), AllocError>
    ensures { OnOk result (GrowsBy (limit_line is_whole) (string_bytes out.old) (string_bytes out.new)) }
{
    if is_whole {
        Ok(())
    } else {
        out.push_str("the limit of worlds was reached: there are more\n")
    }
}

/// Adds the fewest and the most takes, where there are some.
///
/// Errors: `AllocError`.
fn add_takes(
    out: &mut String,
    alloc: Global,
    width: usize,
    takes: Option<Takes>,
) -> Result<(), AllocError>
    ensures { OnOk result (GrowsBy (takes_rows width takes) (string_bytes out.old) (string_bytes out.new)) }
{
    match takes {
        Some(takes) => {
            add_row(
                out,
                alloc,
                width,
                takes.fewest,
                "takes to an end, the fewest",
            )?;
            add_row(out, alloc, width, takes.most, "takes to an end, the most")
        }
        None => Ok(()),
    }
}

/// Adds sections.
///
/// Errors: `AllocError`.
pub(crate) fn add_sections(
    out: &mut String,
    alloc: Global,
    width: usize,
    sections: &[Section],
) -> Result<(), AllocError>
    ensures { OnOk result (GrowsBy (flat_map (section_of width) sections.now) (string_bytes out.old) (string_bytes out.new)) }
{
    for section in sections {
        add_section(out, alloc, width, section)?;
    }
    Ok(())
}

/// Adds an empty line, a title, and rows.
///
/// Errors: `AllocError`.
fn add_section(
    out: &mut String,
    alloc: Global,
    width: usize,
    section: &Section,
) -> Result<(), AllocError>
    ensures { OnOk result (GrowsBy (section_of width section.now) (string_bytes out.old) (string_bytes out.new)) }
{
    out.push_str("\n")?;
    out.push_str(section.title.as_str())?;
    out.push_str("\n")?;
    add_rows(out, alloc, width, section.rows.as_slice())
}

/// Adds rows.
///
/// Errors: `AllocError`.
fn add_rows(
    out: &mut String,
    alloc: Global,
    width: usize,
    rows: &[Counted],
) -> Result<(), AllocError>
    ensures { OnOk result (GrowsBy (flat_map (counted_row width) rows.now) (string_bytes out.old) (string_bytes out.new)) }
{
    for row in rows {
        add_row(out, alloc, width, row.count, row.text.as_str())?;
    }
    Ok(())
}

/// Adds a line: a number on the right of its column, and what it counts.
///
/// Errors: `AllocError`.
fn add_row(
    out: &mut String,
    alloc: Global,
    width: usize,
    number: usize,
    what: &str,
) -> Result<(), AllocError>
    ensures { OnOk result (GrowsBy (row_of width number what.now) (string_bytes out.old) (string_bytes out.new)) }
{
    let digits = format!(in alloc; "{number}")?;
    add_spaces(out, width.saturating_sub(digits.len()))?;
    out.push_str(digits.as_str())?;
    out.push_str("  ")?;
    out.push_str(what)?;
    out.push_str("\n")
}

/// Adds so many spaces.
///
/// Errors: `AllocError`.
fn add_spaces(out: &mut String, count: usize) -> Result<(), AllocError>
    ensures { OnOk result (GrowsBy (replicate count 32) (string_bytes out.old) (string_bytes out.new)) }
{
    for _ in 0..count {
        out.push_str(" ")?;
    }
    Ok(())
}
