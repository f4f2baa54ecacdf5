//! Graphs of worlds: what one shows, and its picture.

ghost use Rattle.std.specs.Prelude.{◌≡◌, ◌≤◌, IfOk, length, string_bytes, take};
ghost use Rattle.std.specs.List.{flat_map};
ghost use Rattle.pg_script_diagram.specs.Graphs.{ShowsGraph, circle_text, worlds_in_row, end_text, line_between, link_class};
ghost use Rattle.pg_script_diagram.specs.Graphs.{link_text, number_text, point_at, point_of, shapes_of, spot_class};
ghost use Rattle.pg_script_diagram.specs.Graphs.{spot_text, spots_text, width_of};
ghost use Rattle.pg_script_diagram.specs.Pens.{Writes};

use crate::pen::Pen;
use crate::shapes::Point;
use crate::tags::{add_line, begin_text};
use std::alloc::{AllocError, Global};

/// What leads from one world to another: the colour of the line.
#[derive(Clone, Copy, Debug, PartialEq, Eq)]
pub enum LinkKind {
    /// A packet is taken.
    Take,
    /// A command comes in.
    Command,
    /// A command is tried again.
    Retry,
    /// A node is lost, or a loss is seen.
    Loss,
}

/// A world. Those of row 0 are at the top.
#[derive(Clone, Copy, Debug)]
pub struct Spot {
    pub row: usize,
    /// Nothing is left to do there.
    pub is_end: bool,
    /// It is filled with a colour.
    pub is_marked: bool,
}

/// A line from one world to another, by their places. What names a world that is not there is not drawn.
#[derive(Clone, Copy, Debug)]
pub struct Link {
    pub from: usize,
    pub to: usize,
    pub kind: LinkKind,
}

/// Worlds, and what leads from one to another.
#[derive(Debug, Drop)]
pub struct Graph {
    pub spots: Vec<Spot>,
    pub links: Vec<Link>,
}

/// How far a row is below the one before it.
const ROW_PITCH: u128 = 64;

/// How far worlds of a row are apart.
const SPOT_PITCH: u128 = 52;

/// Where the first row is.
const FIRST_ROW: u128 = 104;

/// How wide a picture is at least: the legend takes so much.
const MIN_WIDTH: u128 = 640;

/// Draws a graph as SVG, which is XML: each world as a circle with its number, from 1 on, and each step as a line between
/// its two worlds.
///
/// Errors: `AllocError`.
///
/// Cost: memory for the text; O((worlds + links) × worlds), as those of a row are counted.
pub fn graph_svg(alloc: Global, graph: &Graph) -> Result<String, AllocError>
    ensures { IfOk result (λ text. ShowsGraph graph.now (string_bytes text)) }
{
    let most = most_in(graph.spots.as_slice());
    let mut text = drawn_under(alloc, graph, most)?;
    let shapes = drawn_shapes(alloc, graph, most)?;
    text.push_str(shapes.as_str())?;
    text.push_str("</svg>\n")?;
    Ok(text)
}

/// What is under the shapes: the head and the legend.
fn drawn_under(alloc: Global, graph: &Graph, most: usize) -> Result<String, AllocError> {
    let mut pen = Pen::new(alloc);
    add_head(&mut pen, width_of(most), height_of(graph));
    add_legend(&mut pen);
    pen.finish()
}

/// The steps, and over them the worlds.
fn drawn_shapes(alloc: Global, graph: &Graph, most: usize) -> Result<String, AllocError>
    ensures { IfOk result (λ text. string_bytes text ≡ shapes_of most graph.now) }
{
    let mut pen = Pen::new(alloc);
    add_links(&mut pen, graph, most);
    add_spots(&mut pen, graph, most);
    pen.finish()
}

/// How many worlds the row has that has the most.
fn most_in(spots: &[Spot]) -> usize {
    let mut most = 1usize;
    for spot in spots {
        most = most.max(count_in(spots, spots.len(), spot.row));
    }
    most
}

/// How many of the first `count` worlds are in a row.
fn count_in(spots: &[Spot], count: usize, row: usize) -> usize
    requires { count ≤ length spots.now }
    ensures { result ≡ worlds_in_row row (take count spots.now) }
{
    let mut found = 0usize;
    for place in 0..count {
        if spots[place].row == row {
            found += 1;
        }
    }
    found
}

/// How wide a picture is that has so many worlds in a row.
fn width_of(most: usize) -> u128
    ensures { result ≡ width_of most }
{
    (SPOT_PITCH * most as u128 + 40).max(MIN_WIDTH)
}

/// How high a picture is.
fn height_of(graph: &Graph) -> u128 {
    let mut rows = 1u128;
    for spot in graph.spots.as_slice() {
        rows = rows.max(spot.row as u128 + 1);
    }
    ROW_PITCH.saturating_mul(rows).saturating_add(FIRST_ROW)
}

/// Where a world is, by its place among all worlds and its row: those of a row side by side, in the middle of the picture.
fn point_of(most: usize, spots: &[Spot], place: usize, row: usize) -> Point
    requires { place ≤ length spots.now }
    ensures { result ≡ point_of most spots.now place row }
{
    let count = count_in(spots, spots.len(), row) as u128;
    let before = count_in(spots, place, row) as u128;
    let left = width_of(most).saturating_sub(SPOT_PITCH * count) / 2;
    Point {
        x: left + SPOT_PITCH * before + SPOT_PITCH / 2,
        y: ROW_PITCH * row as u128 + FIRST_ROW,
    }
}

/// Where the world at a place is, if there is one.
fn point_at(most: usize, spots: &[Spot], place: usize) -> Option<Point>
    ensures { result ≡ point_at most spots.now place }
{
    match spots.get(place) {
        Some(spot) => Some(point_of(most, spots, place, spot.row)),
        None => None,
    }
}

/// What is before the shapes.
fn add_head(pen: &mut Pen, width: u128, height: u128) {
    pen.add("<?xml version=\"1.0\" encoding=\"UTF-8\"?>\n");
    write!(
        pen,
        "<svg xmlns=\"http://www.w3.org/2000/svg\" width=\"{width}\" height=\"{height}\" viewBox=\"0 0 {width} {height}\">\n"
    );
    pen.add("<title>Worlds, and the steps between them</title>\n<style>\n");
    pen.add(STYLE);
    write!(
        pen,
        "</style>\n<rect class=\"page\" width=\"{width}\" height=\"{height}\"/>\n"
    );
}

/// The name of a kind in the style of the picture.
fn class_of(kind: LinkKind) -> &'static str
    ensures { result.now ≡ link_class kind }
{
    match kind {
        LinkKind::Take => "take",
        LinkKind::Command => "command",
        LinkKind::Retry => "retry",
        LinkKind::Loss => "loss",
    }
}

/// The kinds with what they mean, as the legend has them.
const KINDS: [(LinkKind, &str); 4] = [
    (LinkKind::Take, "a packet is taken"),
    (LinkKind::Command, "a command comes in"),
    (LinkKind::Retry, "it is tried again"),
    (LinkKind::Loss, "a loss"),
];

/// What the colours mean.
fn add_legend(pen: &mut Pen) {
    let mut at = Point { x: 20, y: 28 };
    for (kind, meaning) in &KINDS {
        add_line(pen, class_of(*kind), at, at.right(26));
        add_meaning(pen, at, meaning);
        at = at.right(168);
    }
    let end = Point { x: 33, y: 54 };
    add_circle(pen, "end", end, 9);
    add_circle(pen, "spot", end, 6);
    add_meaning(pen, Point { x: 20, y: 54 }, "an end");
    add_circle(pen, "marked", Point { x: 201, y: 54 }, 7);
    add_meaning(pen, Point { x: 188, y: 54 }, "two formed nodes differ");
}

/// The text of an entry.
fn add_meaning(pen: &mut Pen, at: Point, meaning: &str) {
    begin_text(pen, "legend", at.right(34).below(4));
    write!(pen, ">{meaning}</text>\n");
}

fn add_links(pen: &mut Pen, graph: &Graph, most: usize)
    ensures { Writes (flat_map (link_text most graph.now.spots.items) graph.now.links.items) pen.old pen.new }
{
    for place in 0..graph.links.len() {
        add_link(pen, graph.spots.as_slice(), most, &graph.links[place]);
    }
}

/// A step: a line between its two worlds, if both are there.
fn add_link(pen: &mut Pen, spots: &[Spot], most: usize, link: &Link)
    ensures { Writes (link_text most spots.now link.now) pen.old pen.new }
{
    let from = point_at(most, spots, link.from);
    let to = point_at(most, spots, link.to);
    add_line_between(pen, class_of(link.kind), from, to);
}

fn add_line_between(pen: &mut Pen, class: &str, from: Option<Point>, to: Option<Point>)
    ensures { Writes (line_between class.now from to) pen.old pen.new }
{
    match from {
        Some(from) => match to {
            Some(to) => add_line(pen, class, from, to),
            None => {}
        },
        None => {}
    }
}

fn add_spots(pen: &mut Pen, graph: &Graph, most: usize)
    ensures { Writes (spots_text most graph.now.spots.items 0 graph.now.spots.items) pen.old pen.new }
{
    for place in 0..graph.spots.len() {
        let spot = &graph.spots[place];
        let at = point_of(most, graph.spots.as_slice(), place, spot.row);
        add_spot(pen, spot, at, place + 1);
    }
}

/// A world with its number.
fn add_spot(pen: &mut Pen, spot: &Spot, at: Point, number: usize)
    ensures { Writes (spot_text spot.now at number) pen.old pen.new }
{
    add_end(pen, spot, at);
    add_circle(pen, spot_class(spot), at, 14);
    add_number(pen, at, number);
}

/// A circle around the other, where nothing is left to do.
fn add_end(pen: &mut Pen, spot: &Spot, at: Point)
    ensures { Writes (end_text spot.now at) pen.old pen.new }
{
    if spot.is_end {
        add_circle(pen, "end", at, 18);
    }
}

/// The name of a world in the style of the picture.
fn spot_class(spot: &Spot) -> &'static str
    ensures { result.now ≡ spot_class spot.now }
{
    if spot.is_marked { "marked" } else { "spot" }
}

/// A number, in the middle of its circle.
fn add_number(pen: &mut Pen, at: Point, number: usize)
    ensures { Writes (number_text at number) pen.old pen.new }
{
    begin_text(pen, "number", at.below(4));
    write!(pen, ">{number}</text>\n");
}

fn add_circle(pen: &mut Pen, class: &str, at: Point, radius: u128)
    ensures { Writes (circle_text class.now at radius) pen.old pen.new }
{
    write!(
        pen,
        "<circle class=\"{class}\" cx=\"{}\" cy=\"{}\" r=\"{radius}\"/>\n",
        at.x, at.y
    );
}

/// The looks of the shapes.
const STYLE: &str =
    "text{font-family:ui-monospace,'DejaVu Sans Mono',Menlo,Consolas,'Liberation Mono',monospace;font-size:12px}
.page{fill:#ffffff}
line{stroke-width:1.6}
.take{stroke:#8b93a3}
.command{stroke:#2563a8}
.retry{stroke:#b7791f}
.loss{stroke:#b23a48}
.spot{fill:#f3f5f9;stroke:#5b6475;stroke-width:1.5}
.marked{fill:#f7c98b;stroke:#5b6475;stroke-width:1.5}
.end{fill:#ffffff;stroke:#1d222b;stroke-width:1.5}
.number{fill:#1d222b;text-anchor:middle}
.legend{fill:#4a5160}
";
