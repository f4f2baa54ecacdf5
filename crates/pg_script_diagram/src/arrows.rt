//! The packets of a diagram as arrows between rows.

ghost use Rattle.std.specs.Prelude.{◌≡◌, IfOk, OnOk};
ghost use Rattle.pg_script_diagram.specs.Arrows.{arrows_from, ending_of, is_loss, landed, loss_row, with_event};

use crate::data::{Event, Topic};
use std::alloc::{AllocError, Global};

/// A packet: from where it was sent to where it was taken.
#[derive(Clone, Copy)]
pub(crate) struct Arrow {
    pub(crate) from: usize,
    pub(crate) to: usize,
    pub(crate) topic: Topic,
    /// The row in which it was sent.
    pub(crate) start: usize,
    /// The row in which it was taken.
    pub(crate) end: Option<usize>,
}

impl Arrow {
    ghost use Rattle.pg_script_diagram.specs.Arrows.{lands};

    /// The same packet, which was taken in this row if it was not taken before.
    fn taken_in(&self, row: usize) -> Arrow
        ensures { result ≡ lands row self.now }
    {
        Arrow {
            from: self.from,
            to: self.to,
            topic: self.topic,
            start: self.start,
            end: self.end.or(Some(row)),
        }
    }
}

/// Where an arrow ends.
#[derive(Clone, Copy)]
pub(crate) enum Ending {
    /// The packet was taken, in this row.
    Taken(usize),
    /// The packet was not taken, and its node is lost: it ends where the lifeline ended, or in its own row, below that.
    Lost(usize),
    /// The packet is still on its way.
    OnItsWay,
}

/// The arrows of these events, by the numbers of their packets.
///
/// Errors: `AllocError`.
pub(crate) fn arrows_of(alloc: Global, events: &[Event]) -> Result<Vec<Arrow>, AllocError>
    ensures { IfOk result (λ arrows. arrows.items ≡ arrows_from 0 0 events.now) }
{
    let mut arrows = Vec::new(alloc);
    for row in 0..events.len() {
        add_event(&mut arrows, row, &events[row])?;
    }
    Ok(arrows)
}

/// What the event of a row adds to the arrows of those above it.
fn add_event(arrows: &mut Vec<Arrow>, row: usize, event: &Event) -> Result<(), AllocError>
    ensures { OnOk result (arrows.new.items ≡ with_event row event.now arrows.old.items) }
{
    match event {
        Event::Sent {
            from,
            to,
            topic,
            label: _,
        } => Ok(arrows.push(Arrow {
            from: *from,
            to: *to,
            topic: *topic,
            start: row,
            end: None,
        })?),
        Event::Taken { packet } => {
            land(arrows, *packet, row);
            Ok(())
        }
        Event::Line(_) | Event::Note { .. } | Event::Lost { .. } => Ok(()),
    }
}

/// A packet is taken in this row. One that was not sent yet, or was taken before, is passed over.
fn land(arrows: &mut Vec<Arrow>, packet: usize, row: usize)
    ensures { arrows.new.items ≡ landed packet row 0 arrows.old.items }
{
    if packet < arrows.len() {
        let arrow = arrows[packet].taken_in(row);
        arrows[packet] = arrow;
    }
}

/// Where an arrow among these events ends.
pub(crate) fn ending_of(events: &[Event], arrow: &Arrow) -> Ending
    ensures { result ≡ ending_of events.now arrow.now }
{
    match arrow.end {
        Some(row) => Ending::Taken(row),
        None => match lost_in(events, arrow.to) {
            Some(row) => Ending::Lost(row.max(arrow.start)),
            None => Ending::OnItsWay,
        },
    }
}

/// The row in which a node is lost.
pub(crate) fn lost_in(events: &[Event], node: usize) -> Option<usize>
    ensures { result ≡ loss_row node 0 events.now }
{
    for row in 0..events.len() {
        if is_loss(&events[row], node) {
            return Some(row);
        }
    }
    None
}

/// Whether an event is the loss of a node.
fn is_loss(event: &Event, node: usize) -> bool
    ensures { result ≡ is_loss node event.now }
{
    match event {
        Event::Lost { node: lost } => *lost == node,
        _ => false,
    }
}
