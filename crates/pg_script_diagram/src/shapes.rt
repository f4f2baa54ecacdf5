//! The shapes of a picture.

ghost use Rattle.std.specs.Prelude.{◌≡◌, ◌+◌, ◌-◌, min};
ghost use Rattle.pg_script_diagram.specs.Lines.{arrow_text, class_of, near, third, way_text};
ghost use Rattle.pg_script_diagram.specs.Pens.{Writes};

use crate::cut::{add_cut, cells};
use crate::data::Topic;
use crate::layout::{MAX_CELLS, MAX_NAME_CELLS, text_width};
use crate::legend::class_of;
use crate::pen::Pen;
use crate::tags::{
    add_arrow_line, add_dashed_line, add_line, add_mark, add_stroke, begin_box, begin_text,
};

/// A place in the picture, in pixels from the left and from above.
#[derive(Clone, Copy)]
pub(crate) struct Point {
    pub(crate) x: u128,
    pub(crate) y: u128,
}

impl Point {
    /// So far to the left of it.
    fn left(self, by: u128) -> Point
        ensures x { result.x ≡ self.x - by }
        ensures y { result.y ≡ self.y }
    {
        Point {
            x: self.x.saturating_sub(by),
            y: self.y,
        }
    }

    /// So far to the right of it.
    pub(crate) fn right(self, by: u128) -> Point
        ensures x { result.x ≡ min (self.x + by) u128.MAX }
        ensures y { result.y ≡ self.y }
    {
        Point {
            x: self.x.saturating_add(by),
            y: self.y,
        }
    }

    /// A third of the way to another place.
    fn near(self, other: Point) -> Point
        ensures { result ≡ near self other }
    {
        Point {
            x: third(self.x, other.x),
            y: third(self.y, other.y),
        }
    }

    /// So far above it.
    fn above(self, by: u128) -> Point {
        Point {
            x: self.x,
            y: self.y.saturating_sub(by),
        }
    }

    /// So far below it.
    pub(crate) fn below(self, by: u128) -> Point
        ensures x { result.x ≡ self.x }
        ensures y { result.y ≡ min (self.y + by) u128.MAX }
    {
        Point {
            x: self.x,
            y: self.y.saturating_add(by),
        }
    }
}

/// The mark of a lifeline that ends here: it is broken.
pub(crate) fn add_break(pen: &mut Pen, at: Point) {
    pen.add("<polyline class=\"break\" points=\"");
    add_stroke(pen, at.left(10), at.left(3).above(6));
    pen.add(" ");
    add_stroke(pen, at.right(3).below(6), at.right(10));
    pen.add("\"/>\n");
}

/// A lifeline.
pub(crate) fn add_lifeline(pen: &mut Pen, at: Point, end: u128) {
    add_line(pen, "life", at, Point { x: at.x, y: end });
}

/// The name of a node, in a box around its lifeline. `at`: the middle of its upper side.
pub(crate) fn add_name(pen: &mut Pen, at: Point, name: &str) {
    let width = text_width(cells(name).min(MAX_NAME_CELLS)).saturating_add(24);
    begin_box(pen, "name", at.left(width / 2), width, 24);
    pen.add(" rx=\"4\"/>\n");
    begin_text(pen, "name", at.below(16));
    pen.add(">");
    add_cut(pen, name, MAX_NAME_CELLS);
    pen.add("</text>\n");
}

/// The begin of a line of the script: a rule, and its number.
pub(crate) fn add_rule(pen: &mut Pen, y: u128, width: u128, line: usize) {
    let start = Point { x: 10, y };
    let end = Point {
        x: width.saturating_sub(10),
        y,
    };
    add_line(pen, "rule", start, end);
    add_line_number(pen, start, line);
}

/// The number of a line of the script. `at`: the begin of its rule.
fn add_line_number(pen: &mut Pen, at: Point, line: usize) {
    let width = text_width(line_cells(line));
    begin_box(pen, "back", at.above(8), width, 16);
    pen.add("/>\n");
    begin_text(pen, "line", at.below(4));
    write!(pen, ">line {line}</text>\n");
}

/// How many cells `line N` takes.
fn line_cells(line: usize) -> usize {
    let mut count = 6usize;
    let mut rest = line / 10;
    // A number has at most twenty digits.
    for _ in 0..20 {
        if rest == 0 {
            break;
        }
        count = count.saturating_add(1);
        rest /= 10;
    }
    count
}

/// An arrow from one place to another, where its packet was taken.
pub(crate) fn add_arrow(pen: &mut Pen, topic: Topic, start: Point, end: Point)
    ensures { Writes (arrow_text (class_of topic) start end) pen.old pen.new }
{
    let tip = if start.x < end.x {
        end.left(2)
    } else {
        end.right(2)
    };
    add_arrow_line(pen, class_of(topic), start, tip);
}

/// An arrow whose packet is still on its way: it ends dashed, before it is there.
pub(crate) fn add_way(pen: &mut Pen, topic: Topic, start: Point, end: Point)
    ensures { Writes (way_text (class_of topic) start (near start end) (near end start)) pen.old pen.new }
{
    add_broken_line(pen, topic, start, start.near(end), end.near(start));
}

/// An arrow whose packet goes to a lost node: it ends dashed, at the node's lifeline.
pub(crate) fn add_lost_way(pen: &mut Pen, topic: Topic, start: Point, end: Point)
    ensures { Writes (way_text (class_of topic) start (near start end) end) pen.old pen.new }
{
    add_broken_line(pen, topic, start, start.near(end), end);
}

/// A line that is dashed from `mid` on.
fn add_broken_line(pen: &mut Pen, topic: Topic, start: Point, mid: Point, end: Point)
    ensures { Writes (way_text (class_of topic) start mid end) pen.old pen.new }
{
    let class = class_of(topic);
    add_line(pen, class, start, mid);
    add_dashed_line(pen, class, mid, end);
}

/// A third of the way from one number to another.
fn third(start: u128, end: u128) -> u128
    ensures { result ≡ third start end }
{
    if start < end {
        start + (end - start) / 3
    } else {
        start - (start - end) / 3
    }
}

/// A label on the right of a lifeline, or on its left.
pub(crate) fn add_label(pen: &mut Pen, at: Point, is_right: bool, class: &str, label: &str) {
    let near = if is_right { at.right(9) } else { at.left(9) };
    add_back(pen, near, is_right, cells(label).min(MAX_CELLS));
    begin_text(pen, class, near.above(5));
    pen.add(anchor_of(is_right));
    add_cut(pen, label, MAX_CELLS);
    pen.add("</text>\n");
}

/// What follows a label of so many cells that begins here, or ends here.
fn add_back(pen: &mut Pen, near: Point, is_right: bool, cells: usize) {
    let width = text_width(cells);
    let corner = if is_right { near } else { near.left(width) };
    begin_box(pen, "back", corner.above(16), width, 15);
    pen.add("/>\n");
}

/// The end of the tag of a label: which of its ends is at its place.
fn anchor_of(is_right: bool) -> &'static str {
    if is_right {
        " text-anchor=\"start\">"
    } else {
        " text-anchor=\"end\">"
    }
}

/// A mark on a lifeline, with its label.
pub(crate) fn add_note(pen: &mut Pen, at: Point, label: &str) {
    add_mark(pen, at.above(9));
    add_label(pen, at, true, "note", label);
}
