//! Where things are, in pixels.

ghost use Rattle.std.specs.Prelude.{◌≡◌, length};
ghost use Rattle.pg_script_diagram.specs.Rows.{row_y, x_of, y_of};

use crate::cut::cells;
use crate::data::{Diagram, Event};

/// How far a row is below the one before it.
pub(crate) const PITCH: u128 = 20;

/// How many rows are under a line of names.
pub(crate) const ROWS_UNDER_NAMES: usize = 40;

/// How much room a line of names takes.
pub(crate) const NAMES: u128 = 50;

/// How much room the numbers of lines take, on the left.
const GUTTER: u128 = 116;

/// How many cells of a label are shown.
pub(crate) const MAX_CELLS: usize = 44;

/// How many cells of a name are shown.
pub(crate) const MAX_NAME_CELLS: usize = 24;

/// How many cells a column has at least.
const MIN_CELLS: usize = 14;

/// The widths of a diagram, and where its rows begin.
#[derive(Clone, Copy)]
pub(crate) struct Layout {
    /// From one lifeline to the next.
    pub(crate) gap: u128,
    /// How many lifelines there are.
    pub(crate) nodes: usize,
    /// Where the first line of names begins.
    pub(crate) top: u128,
    /// How many rows there are.
    pub(crate) rows: usize,
}

impl Layout {
    /// The layout of a diagram with so many rows, without the legend's room.
    pub(crate) fn new(diagram: &Diagram, rows: usize) -> Layout
        ensures { result.nodes ≡ length diagram.now.nodes.items }
    {
        let mut most = MIN_CELLS;
        for name in diagram.nodes.iter() {
            most = most.max(cells(name.as_str()).min(MAX_NAME_CELLS));
        }
        for event in diagram.events.iter() {
            most = most.max(label_cells(event).min(MAX_CELLS));
        }
        Layout {
            gap: text_width(most).saturating_add(44),
            nodes: diagram.nodes.len(),
            top: 0,
            rows,
        }
    }

    /// Where the lifeline of a node is.
    pub(crate) fn x_of(&self, node: usize) -> u128
        ensures { result ≡ x_of self.now.gap node }
    {
        GUTTER.saturating_add(self.gap.saturating_mul(node as u128))
    }

    /// Where a row is.
    pub(crate) fn y_of(&self, row: usize) -> u128
        ensures { result ≡ y_of self.now.top row }
    {
        self.top.saturating_add(row_y(row))
    }

    /// How wide the diagram is.
    pub(crate) fn width(&self) -> u128 {
        self.x_of(self.nodes).max(720)
    }

    /// Where the rows end.
    pub(crate) fn bottom(&self) -> u128 {
        self.y_of(self.rows).saturating_add(PITCH)
    }
}

/// How far a row is below the begin of the first line of names: a line of names is above each forty rows.
fn row_y(row: usize) -> u128
    ensures { result ≡ row_y row }
{
    let names = row / ROWS_UNDER_NAMES + 1;
    PITCH * row as u128 + NAMES * names as u128
}

/// How wide so many cells of a label's font are.
pub(crate) fn text_width(cells: usize) -> u128 {
    (cells as u128 * 73).div_ceil(10)
}

/// How many cells the label of an event takes.
fn label_cells(event: &Event) -> usize {
    match event {
        Event::Sent {
            from: _,
            to: _,
            topic: _,
            label,
        } => cells(label.as_str()),
        Event::Note { node: _, label } => cells(label.as_str()),
        Event::Line(_) | Event::Taken { .. } | Event::Lost { .. } => 0,
    }
}
