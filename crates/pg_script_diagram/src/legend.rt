//! The legend: what the colours and the marks mean.

ghost use Rattle.std.specs.Prelude.{◌≡◌, ◌<◌};
ghost use Rattle.pg_script_diagram.specs.Lines.{class_of};

use crate::data::Topic;
use crate::pen::Pen;
use crate::shapes::{Point, add_break};
use crate::tags::{add_arrow_line, add_dashed_line, add_line, add_mark, begin_text};

/// How wide an entry is.
const ENTRY_WIDTH: u128 = 172;

/// How far a line of entries is below the one before it.
const ENTRY_PITCH: u128 = 22;

/// Where the first line of entries is.
const FIRST: u128 = 24;

/// How many entries there are.
const ENTRIES: u128 = 9;

/// The name of a topic in the style of the picture.
pub(crate) fn class_of(topic: Topic) -> &'static str
    ensures { result.now ≡ class_of topic }
{
    match topic {
        Topic::Lock => "lock",
        Topic::Update => "update",
        Topic::Reply => "reply",
        Topic::Free => "free",
        Topic::End => "end",
        Topic::Exchange => "exchange",
    }
}

/// All topics, as the legend has them.
pub(crate) const TOPICS: [Topic; 6] = [
    Topic::Lock,
    Topic::Update,
    Topic::Reply,
    Topic::Free,
    Topic::End,
    Topic::Exchange,
];

/// What the topics mean, in the legend.
fn meaning_of(topic: Topic) -> &'static str {
    match topic {
        Topic::Lock => "asks for a lock",
        Topic::Update => "changes a group",
        Topic::Reply => "replies",
        Topic::Free => "frees a lock",
        Topic::End => "a process ended",
        Topic::Exchange => "tells its groups",
    }
}

/// How many entries are in a line of this width.
fn per_line(width: u128) -> u128
    ensures some { 0 < result }
{
    (width.saturating_sub(20) / ENTRY_WIDTH).max(1)
}

/// How much room the legend takes in a picture of this width.
pub(crate) fn legend_height(width: u128) -> u128 {
    let lines = ENTRIES.div_ceil(per_line(width));
    FIRST.saturating_add(lines.saturating_mul(ENTRY_PITCH))
}

/// Where the entry of a number is.
fn entry_at(width: u128, number: u128) -> Point {
    let line = number / per_line(width);
    let column = number % per_line(width);
    Point {
        x: column.saturating_mul(ENTRY_WIDTH).saturating_add(20),
        y: line.saturating_mul(ENTRY_PITCH).saturating_add(FIRST),
    }
}

/// Draws the legend.
pub(crate) fn add_legend(pen: &mut Pen, width: u128) {
    let mut number = 0u128;
    for topic in &TOPICS {
        add_topic_entry(pen, entry_at(width, number), *topic);
        number = number.saturating_add(1);
    }
    add_way_entry(pen, entry_at(width, 6));
    add_note_entry(pen, entry_at(width, 7));
    add_lost_entry(pen, entry_at(width, 8));
}

/// An arrow, and what it means.
fn add_topic_entry(pen: &mut Pen, at: Point, topic: Topic) {
    add_arrow_line(pen, class_of(topic), at, at.right(30));
    add_meaning(pen, at, meaning_of(topic));
}

/// An arrow that ends dashed.
fn add_way_entry(pen: &mut Pen, at: Point) {
    let mid = at.right(14);
    add_line(pen, "lock", at, mid);
    add_dashed_line(pen, "lock", mid, at.right(30));
    add_meaning(pen, at, "not taken at end");
}

/// A mark on a lifeline.
fn add_note_entry(pen: &mut Pen, at: Point) {
    add_mark(pen, at.right(15));
    add_meaning(pen, at, "command or answer");
}

/// A lifeline that ends broken.
fn add_lost_entry(pen: &mut Pen, at: Point) {
    add_break(pen, at.right(15));
    add_meaning(pen, at, "the node is lost");
}

/// The text of an entry.
fn add_meaning(pen: &mut Pen, at: Point, meaning: &str) {
    begin_text(pen, "legend", at.right(40).below(4));
    write!(pen, ">{meaning}</text>\n");
}
