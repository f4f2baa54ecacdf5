//! The tags of a picture.

ghost use Rattle.std.specs.Prelude.{[], codes};
ghost use Rattle.pg_script_diagram.specs.Graphs.{text_begin};
ghost use Rattle.pg_script_diagram.specs.Lines.{CLOSED, head_of, line_text};
ghost use Rattle.pg_script_diagram.specs.Pens.{Writes};

use crate::pen::Pen;
use crate::shapes::Point;

/// Appends a line.
pub(crate) fn add_line(pen: &mut Pen, class: &str, start: Point, end: Point)
    ensures { Writes (line_text class.now [] start end CLOSED) pen.old pen.new }
{
    begin_line(pen, class, "", start, end);
    pen.add("/>\n");
}

/// Appends a dashed line.
pub(crate) fn add_dashed_line(pen: &mut Pen, class: &str, start: Point, end: Point)
    ensures { Writes (line_text class.now (codes " way") start end CLOSED) pen.old pen.new }
{
    begin_line(pen, class, " way", start, end);
    pen.add("/>\n");
}

/// Appends a line that ends in the head of an arrow.
pub(crate) fn add_arrow_line(pen: &mut Pen, class: &str, start: Point, end: Point)
    ensures { Writes (line_text class.now [] start end (head_of class.now)) pen.old pen.new }
{
    begin_line(pen, class, "", start, end);
    write!(pen, " marker-end=\"url(#{class})\"/>\n");
}

/// Appends a line: all but the end of its tag. `more`: its further classes.
fn begin_line(pen: &mut Pen, class: &str, more: &str, start: Point, end: Point)
    ensures { Writes (line_text class.now more.now start end []) pen.old pen.new }
{
    write!(pen, "<line class=\"{class}{more}\"");
    write!(pen, " x1=\"{}\" y1=\"{}\"", start.x, start.y);
    write!(pen, " x2=\"{}\" y2=\"{}\"", end.x, end.y);
}

/// Appends two places of a line that is bent.
pub(crate) fn add_stroke(pen: &mut Pen, start: Point, end: Point) {
    write!(pen, "{},{} {},{}", start.x, start.y, end.x, end.y);
}

/// Appends a box: all but the end of its tag.
pub(crate) fn begin_box(pen: &mut Pen, class: &str, corner: Point, width: u128, height: u128) {
    write!(
        pen,
        "<rect class=\"{class}\" x=\"{}\" y=\"{}\" width=\"{width}\" height=\"{height}\"",
        corner.x, corner.y
    );
}

/// Appends the begin of a text: all but the end of its tag.
pub(crate) fn begin_text(pen: &mut Pen, class: &str, at: Point)
    ensures { Writes (text_begin class.now at) pen.old pen.new }
{
    write!(pen, "<text class=\"{class}\" x=\"{}\" y=\"{}\"", at.x, at.y);
}

/// Appends the mark of what happens at a node.
pub(crate) fn add_mark(pen: &mut Pen, at: Point) {
    write!(
        pen,
        "<circle class=\"mark\" cx=\"{}\" cy=\"{}\" r=\"3.5\"/>\n",
        at.x, at.y
    );
}
