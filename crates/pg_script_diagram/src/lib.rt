//! Sequence diagrams as SVG: a lifeline for each node, and an arrow for each packet from where it was sent to where it was taken. Graphs of
//! worlds, too.
//!
//! `write_svg(alloc, &diagram, &mut file)?` draws a diagram. Begin with `src/data.rt`, what a diagram is, then `src/draw.rt`.
#![tactic(auto)]

mod adding;
mod arrows;
mod cut;
mod data;
mod draw;
mod escape;
mod graph;
mod head;
mod laws;
mod layout;
mod legend;
mod pen;
mod shapes;
mod tags;

pub use data::{Diagram, Event, Topic};
pub use draw::{svg_of, write_svg};
pub use graph::{Graph, Link, LinkKind, Spot, graph_svg};
pub use laws::{rows_go_down, texts_are_escaped, worlds_are_apart};
