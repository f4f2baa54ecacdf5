//! The picture of a diagram.

ghost use Rattle.std.specs.Prelude.{◌≡◌, IfOk, OnOk, length, string_bytes};
ghost use Rattle.pg_script_diagram.specs.Drawn.{IsWritten, Parts, ShowsPackets};

use crate::arrows::{Arrow, Ending, arrows_of, ending_of, lost_in};
use crate::data::{Diagram, Event};
use crate::head::add_head;
use crate::layout::{Layout, ROWS_UNDER_NAMES};
use crate::legend::{add_legend, legend_height};
use crate::pen::Pen;
use crate::shapes::{
    Point, add_arrow, add_break, add_label, add_lifeline, add_lost_way, add_name, add_note,
    add_rule, add_way,
};
use std::alloc::{AllocError, Global};
use std::io;
use std::io::Write;

/// What a picture is drawn from.
#[derive(Drop)]
struct Picture<'a> {
    diagram: &'a Diagram,
    layout: Layout,
    arrows: Vec<Arrow>,
}

/// Draws a diagram as SVG, which is XML. Rows go down with the events; a label is cut where it would reach the next
/// lifeline.
///
/// Each packet is one arrow, from the lifeline of its sender in the row in which it was sent to the lifeline of its
/// receiver in the row in which it was taken.
///
/// Errors: `AllocError`.
///
/// Cost: memory for the text; O(events + packets × events), as each end of a lifeline is looked for.
pub fn svg_of(alloc: Global, diagram: &Diagram) -> Result<String, AllocError>
    ensures { IfOk result (λ text. ShowsPackets diagram.now (string_bytes text)) }
{
    let arrows = arrows_of(alloc, diagram.events.as_slice())?;
    let layout = layout_of(diagram, arrows.as_slice());
    let picture = Picture {
        diagram,
        layout,
        arrows,
    };
    picture.text(alloc)
}

/// Where the parts of a picture are.
fn layout_of(diagram: &Diagram, arrows: &[Arrow]) -> Layout
    ensures { result.nodes ≡ length diagram.now.nodes.items }
{
    let events = diagram.events.as_slice();
    let rows = events.len().saturating_add(way_count(events, arrows));
    let mut layout = Layout::new(diagram, rows);
    layout.top = legend_height(layout.width());
    layout
}

/// Draws a diagram as SVG, and writes it.
///
/// Errors: of the kind `OutOfMemory` where memory runs out; else that of the writer. Some of it may have been
/// written.
///
/// Cost: that of `svg_of`, and of one write.
pub fn write_svg<W: Write>(alloc: Global, diagram: &Diagram, writer: &mut W) -> io::Result<()>
    ensures { OnOk result (IsWritten diagram.now (W.contents writer.old) (W.contents writer.new)) }
{
    let text = svg_of(alloc, diagram)?;
    writer.write_all(text.as_bytes())?;
    writer.flush()
}

/// How many packets are still on their way.
fn way_count(events: &[Event], arrows: &[Arrow]) -> usize {
    let mut count = 0usize;
    for arrow in arrows {
        if let Ending::OnItsWay = ending_of(events, arrow) {
            count = count.saturating_add(1);
        }
    }
    count
}

impl Picture<'_> {
    ghost use Rattle.std.specs.Prelude.{◌≡◌, IfOk, length, string_bytes};
    ghost use Rattle.pg_script_diagram.specs.Arrows.{ending_of};
    ghost use Rattle.pg_script_diagram.specs.Drawn.{all_drawn, drawn, is_drawn, places_of, point_of, row_after, text_of};
    ghost use Rattle.pg_script_diagram.specs.Pens.{Writes};

    /// The picture: what is under the arrows, the arrows, and what is over them.
    ///
    /// Errors: `AllocError`.
    fn text(&self, alloc: Global) -> Result<String, AllocError>
        ensures { IfOk result (λ text. Parts (all_drawn (places_of self.now.layout) self.now.diagram.now.events.items (length self.now.diagram.now.events.items) self.now.arrows.items) (string_bytes text)) }
    {
        let mut text = self.drawn_under(alloc)?;
        let arrows = self.drawn_arrows(alloc)?;
        let over = self.drawn_over(alloc)?;
        text.push_str(arrows.as_str())?;
        text.push_str(over.as_str())?;
        Ok(text)
    }

    /// What is under the arrows: the head, the legend, lifelines and rules.
    fn drawn_under(&self, alloc: Global) -> Result<String, AllocError> {
        let mut pen = Pen::new(alloc);
        let width = self.layout.width();
        let height = self.layout.bottom().saturating_add(44);
        add_head(&mut pen, width, height);
        add_legend(&mut pen, width);
        self.add_lifelines(&mut pen);
        self.add_rules(&mut pen);
        pen.finish()
    }

    fn drawn_arrows(&self, alloc: Global) -> Result<String, AllocError>
        ensures { IfOk result (λ text. string_bytes text ≡ all_drawn (places_of self.now.layout) self.now.diagram.now.events.items (length self.now.diagram.now.events.items) self.now.arrows.items) }
    {
        let mut pen = Pen::new(alloc);
        self.add_arrows(&mut pen);
        pen.finish()
    }

    /// What is over the arrows: labels and names.
    fn drawn_over(&self, alloc: Global) -> Result<String, AllocError> {
        let mut pen = Pen::new(alloc);
        self.add_labels(&mut pen);
        self.add_names(&mut pen);
        pen.add("</svg>\n");
        pen.finish()
    }

    fn add_lifelines(&self, pen: &mut Pen) {
        for node in 0..self.layout.nodes {
            let top = Point {
                x: self.layout.x_of(node),
                y: self.layout.top.saturating_add(4),
            };
            match lost_in(self.diagram.events.as_slice(), node) {
                Some(row) => {
                    let end = self.point(node, row);
                    add_lifeline(pen, top, end.y);
                    add_break(pen, end);
                }
                None => add_lifeline(pen, top, self.layout.bottom()),
            }
        }
    }

    /// Where a row meets a lifeline.
    fn point(&self, node: usize, row: usize) -> Point
        ensures { result ≡ point_of (places_of self.now.layout) node row }
    {
        Point {
            x: self.layout.x_of(node),
            y: self.layout.y_of(row),
        }
    }

    fn add_rules(&self, pen: &mut Pen) {
        for (row, event) in self.diagram.events.iter().enumerate() {
            if let Event::Line(line) = event {
                let y = self.layout.y_of(row).saturating_sub(9);
                add_rule(pen, y, self.layout.width(), *line);
            }
        }
    }

    fn add_arrows(&self, pen: &mut Pen)
        ensures { Writes (all_drawn (places_of self.now.layout) self.now.diagram.now.events.items (length self.now.diagram.now.events.items) self.now.arrows.items) pen.old pen.new }
    {
        // Packets on their way end in rows of their own, below all others.
        let mut last = self.diagram.events.len();
        for place in 0..self.arrows.len() {
            last = self.add_arrow_of(pen, &self.arrows[place], last);
        }
    }

    /// Draws the arrow of a packet; one that is on its way ends in the row `last`. Gives the row of the next that is.
    fn add_arrow_of(&self, pen: &mut Pen, arrow: &Arrow, last: usize) -> usize
        ensures drawn { Writes (drawn (places_of self.now.layout) self.now.diagram.now.events.items last arrow.now) pen.old pen.new }
        ensures last { result ≡ row_after last (ending_of self.now.diagram.now.events.items arrow.now) }
    {
        let ending = ending_of(self.diagram.events.as_slice(), arrow);
        if self.is_drawn(arrow.from, arrow.to) {
            self.add_ending(pen, arrow, ending, last);
        }
        match ending {
            Ending::OnItsWay => last.saturating_add(1),
            Ending::Taken(_) | Ending::Lost(_) => last,
        }
    }

    fn add_ending(&self, pen: &mut Pen, arrow: &Arrow, ending: Ending, last: usize)
        ensures { Writes (text_of (places_of self.now.layout) last arrow.now ending) pen.old pen.new }
    {
        let start = self.point(arrow.from, arrow.start);
        match ending {
            Ending::Taken(row) => add_arrow(pen, arrow.topic, start, self.point(arrow.to, row)),
            Ending::Lost(row) => add_lost_way(pen, arrow.topic, start, self.point(arrow.to, row)),
            Ending::OnItsWay => add_way(pen, arrow.topic, start, self.point(arrow.to, last)),
        }
    }

    /// Whether these are two nodes that are there.
    fn is_drawn(&self, from: usize, to: usize) -> bool
        ensures { result ≡ is_drawn self.now.layout.nodes from to }
    {
        from < self.layout.nodes && to < self.layout.nodes && from != to
    }

    fn add_labels(&self, pen: &mut Pen) {
        for (row, event) in self.diagram.events.iter().enumerate() {
            self.add_label_of(pen, row, event);
        }
    }

    /// The label of the event of a row, if it has one.
    fn add_label_of(&self, pen: &mut Pen, row: usize, event: &Event) {
        match event {
            Event::Sent {
                from,
                to,
                topic: _,
                label,
            } => self.add_packet_label(pen, row, *from, *to, label.as_str()),
            Event::Note { node, label } => self.add_note_at(pen, row, *node, label.as_str()),
            Event::Lost { node } => self.add_loss_at(pen, row, *node),
            Event::Line(_) | Event::Taken { .. } => {}
        }
    }

    fn add_packet_label(&self, pen: &mut Pen, row: usize, from: usize, to: usize, label: &str) {
        if self.is_drawn(from, to) {
            let at = self.point(from, row);
            add_label(pen, at, from < to, "label", label);
        }
    }

    fn add_note_at(&self, pen: &mut Pen, row: usize, node: usize, label: &str) {
        if node < self.layout.nodes {
            let at = self.point(node, row);
            add_note(pen, at, label);
        }
    }

    fn add_loss_at(&self, pen: &mut Pen, row: usize, node: usize) {
        if node < self.layout.nodes {
            let at = self.point(node, row);
            add_label(pen, at, true, "lost", "lost");
        }
    }

    /// The names of the nodes, above each so many rows and below all.
    fn add_names(&self, pen: &mut Pen) {
        let lines = self.layout.rows / ROWS_UNDER_NAMES;
        for line in 0..=lines {
            let row = line.saturating_mul(ROWS_UNDER_NAMES);
            let y = self.layout.y_of(row).saturating_sub(46);
            self.add_names_at(pen, row, y);
        }
        let bottom = self.layout.bottom();
        self.add_names_at(pen, self.layout.rows, bottom);
    }

    /// The names of the nodes that are not lost before this row.
    fn add_names_at(&self, pen: &mut Pen, row: usize, y: u128) {
        for node in 0..self.layout.nodes {
            let is_there = match lost_in(self.diagram.events.as_slice(), node) {
                Some(end) => row <= end,
                None => true,
            };
            if is_there {
                let x = self.layout.x_of(node);
                add_name(pen, Point { x, y }, name_of(self.diagram, node));
            }
        }
    }
}

/// The name of a node.
fn name_of(diagram: &Diagram, node: usize) -> &str {
    match diagram.nodes.get(node) {
        Some(name) => name.as_str(),
        None => "",
    }
}
