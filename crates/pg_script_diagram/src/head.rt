//! What is before the shapes.

use crate::data::Topic;
use crate::legend::{TOPICS, class_of};
use crate::pen::Pen;

/// Appends what is before the shapes: the size, the colours and the fonts.
pub(crate) fn add_head(pen: &mut Pen, width: u128, height: u128) {
    pen.add("<?xml version=\"1.0\" encoding=\"UTF-8\"?>\n");
    add_size(pen, width, height);
    pen.add("<title>Packets between nodes</title>\n<style>\n");
    pen.add(STYLE);
    for topic in &TOPICS {
        add_colour(pen, *topic);
    }
    pen.add("</style>\n<defs>\n");
    for topic in &TOPICS {
        add_marker(pen, *topic);
    }
    add_page(pen, width, height);
}

/// The begin of the picture, with its size.
fn add_size(pen: &mut Pen, width: u128, height: u128) {
    write!(
        pen,
        "<svg xmlns=\"http://www.w3.org/2000/svg\" width=\"{width}\" height=\"{height}\" viewBox=\"0 0 {width} {height}\">\n"
    );
}

/// The colour of the arrows of a topic.
fn colour_of(topic: Topic) -> &'static str {
    match topic {
        Topic::Lock => "#2563a8",
        Topic::Update => "#2a7f4f",
        Topic::Reply => "#7b8190",
        Topic::Free => "#b7791f",
        Topic::End => "#b23a48",
        Topic::Exchange => "#7a5ba6",
    }
}

/// How the arrows of a topic look.
fn add_colour(pen: &mut Pen, topic: Topic) {
    write!(
        pen,
        ".{}{{stroke:{};stroke-width:1.6}}\n",
        class_of(topic),
        colour_of(topic)
    );
}

/// The head of the arrows of a topic.
fn add_marker(pen: &mut Pen, topic: Topic) {
    write!(
        pen,
        "<marker id=\"{}\" markerUnits=\"userSpaceOnUse\" markerWidth=\"10\" markerHeight=\"8\" refX=\"9\" refY=\"4\" orient=\"auto\"><path d=\"M0,0 L10,4 L0,8 z\" fill=\"{}\"/></marker>\n",
        class_of(topic),
        colour_of(topic)
    );
}

/// What follows all shapes.
fn add_page(pen: &mut Pen, width: u128, height: u128) {
    write!(
        pen,
        "</defs>\n<rect class=\"page\" width=\"{width}\" height=\"{height}\"/>\n"
    );
}

/// The looks of the shapes.
const STYLE: &str =
    "text{font-family:ui-monospace,'DejaVu Sans Mono',Menlo,Consolas,'Liberation Mono',monospace;font-size:12px}
.page{fill:#ffffff}
.back{fill:#ffffff;fill-opacity:0.88}
.life{stroke:#b9c0cc;stroke-width:1.5}
.rule{stroke:#e6e9ef;stroke-width:1}
.line{fill:#8b93a3;font-size:11px}
.label{fill:#2b303b}
.note{fill:#2b303b;font-weight:bold}
.lost{fill:#b23a48;font-weight:bold}
.legend{fill:#4a5160;font-size:12px}
.mark{fill:#2b303b}
.break{fill:none;stroke:#b23a48;stroke-width:2}
rect.name{fill:#f3f5f9;stroke:#9aa3b2}
text.name{fill:#1d222b;font-weight:bold;text-anchor:middle}
.way{stroke-dasharray:4 4}
";
