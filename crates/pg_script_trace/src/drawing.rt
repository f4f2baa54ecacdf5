//! The sequence diagram of a run.

ghost use Rattle.std.specs.Prelude.{◌≡◌, ◌++◌, IfOk, OnOk, map, slice_get, string_bytes};
ghost use Rattle.std.specs.List.{flat_map};
ghost use Rattle.pg_script_trace.specs.Happenings.{note_happenings, noted_at, seen_as, sent_happenings as sent_as, shown, shown_if};

use crate::seen::{Seen, Sight};
use crate::watch::Watch;
use pg_script_diagram::{Diagram, Event};
use std::alloc::{AllocError, Global};

/// What was seen of a run, as a diagram shows it: packets, commands with their answers, and losses, in the order in
/// which they were seen.
///
/// Errors: `AllocError`.
///
/// Cost: memory for each node and each event, with its label.
pub fn diagram_of(alloc: Global, watch: &Watch) -> Result<Diagram, AllocError>
    ensures names { IfOk result (λ diagram. map string_bytes diagram.nodes.items ≡ map string_bytes watch.now.names.items) }
    ensures happened { IfOk result (λ diagram. flat_map shown diagram.events.items ≡ flat_map (λ sight. seen_as watch.now.letters.items sight.seen) watch.now.sights.items) }
{
    let mut diagram = Diagram {
        nodes: Vec::new(alloc),
        events: Vec::new(alloc),
    };
    match fill(&mut diagram, alloc, watch) {
        Ok(()) => Ok(diagram),
        Err(error) => {
            drop(diagram);
            Err(error)
        }
    }
}

/// Adds the nodes and the events of a watch.
fn fill(diagram: &mut Diagram, alloc: Global, watch: &Watch) -> Result<(), AllocError>
    ensures names { OnOk result (map string_bytes diagram.new.nodes.items ≡ map string_bytes diagram.old.nodes.items ++ map string_bytes watch.now.names.items) }
    ensures happened { OnOk result (flat_map shown diagram.new.events.items
        ≡ flat_map shown diagram.old.events.items ++ flat_map (λ sight. seen_as watch.now.letters.items sight.seen) watch.now.sights.items) }
{
    add_names(&mut diagram.nodes, watch.names.as_slice())?;
    add_sights(&mut diagram.events, alloc, watch, watch.sights.as_slice())
}

/// Adds the names of nodes.
fn add_names(nodes: &mut Vec<String>, names: &[String]) -> Result<(), AllocError>
    ensures { OnOk result (map string_bytes nodes.new.items ≡ map string_bytes nodes.old.items ++ map string_bytes names.now) }
{
    for place in 0..names.len() {
        nodes.push(names[place].clone()?)?;
    }
    Ok(())
}

/// Adds the events of sights.
fn add_sights(
    events: &mut Vec<Event>,
    alloc: Global,
    watch: &Watch,
    sights: &[Sight],
) -> Result<(), AllocError>
    ensures { OnOk result (flat_map shown events.new.items ≡ flat_map shown events.old.items ++ flat_map (λ sight. seen_as watch.now.letters.items sight.seen) sights.now) }
{
    let mut line = 0;
    for place in 0..sights.len() {
        line = add_sight(events, alloc, watch, &sights[place], line)?;
    }
    Ok(())
}

/// Adds the event of a sight, if it has one, and the number of its line where that is another than that of the event before it.
/// Gives the number of the line of the last event.
fn add_sight(
    events: &mut Vec<Event>,
    alloc: Global,
    watch: &Watch,
    sight: &Sight,
    line: usize,
) -> Result<usize, AllocError>
    ensures { IfOk result (λ last. flat_map shown events.new.items ≡ flat_map shown events.old.items ++ seen_as watch.now.letters.items sight.now.seen) }
{
    match event_of(alloc, watch, &sight.seen)? {
        Some(event) => {
            add_event(events, event, line, sight.line)?;
            Ok(sight.line)
        }
        None => Ok(line),
    }
}

/// Adds an event of a line, after one of the line before.
fn add_event(
    events: &mut Vec<Event>,
    event: Event,
    before: usize,
    line: usize,
) -> Result<(), AllocError>
    ensures { OnOk result (flat_map shown events.new.items ≡ flat_map shown events.old.items ++ shown event) }
{
    if line != before {
        if let Err(_) = events.push(Event::Line(line)) {
            drop(event);
            return Err(AllocError);
        }
    }
    Ok(events.push(event)?)
}

/// How a diagram shows what was seen, if it does.
fn event_of(alloc: Global, watch: &Watch, seen: &Seen) -> Result<Option<Event>, AllocError>
    ensures { IfOk result (λ event. shown_if event ≡ seen_as watch.now.letters.items seen.now) }
{
    match seen {
        Seen::Taken { packet, .. } => Ok(Some(Event::Taken { packet: *packet })),
        Seen::Sent { packet } => sent(watch, *packet),
        Seen::Lost { node } => Ok(Some(Event::Lost { node: *node })),
        other => note(alloc, watch, other),
    }
}

/// A packet was sent.
fn sent(watch: &Watch, packet: usize) -> Result<Option<Event>, AllocError>
    ensures { IfOk result (λ event. shown_if event ≡ sent_as (slice_get watch.now.letters.items packet)) }
{
    match watch.letters.get(packet) {
        Some(letter) => Ok(Some(Event::Sent {
            from: letter.from,
            to: letter.to,
            topic: letter.topic,
            label: letter.text.clone()?,
        })),
        None => Ok(None),
    }
}

/// What happened at one node.
fn note(alloc: Global, watch: &Watch, seen: &Seen) -> Result<Option<Event>, AllocError>
    ensures { IfOk result (λ event. shown_if event ≡ note_happenings (noted_at seen.now)) }
{
    match noted_at(seen) {
        Some(node) => {
            let label = label_of(alloc, watch, seen)?;
            Ok(Some(Event::Note { node, label }))
        }
        None => Ok(None),
    }
}

/// The node at which something happened that is noted there.
fn noted_at(seen: &Seen) -> Option<usize>
    ensures { result ≡ noted_at seen.now }
{
    match seen {
        Seen::Came { node, .. }
        | Seen::Tried { node, .. }
        | Seen::Waits { node, .. }
        | Seen::Answered { node, .. }
        | Seen::LossSeen { node, .. } => Some(*node),
        _ => None,
    }
}

/// What is noted there.
fn label_of(alloc: Global, watch: &Watch, seen: &Seen) -> Result<String, AllocError> {
    match seen {
        Seen::Came { number, text, .. } | Seen::Answered { number, text, .. } => {
            label_with(alloc, *number, text.as_str())
        }
        Seen::Tried { number, .. } => label_with(alloc, *number, "again"),
        Seen::Waits { number, .. } => label_with(alloc, *number, "waits"),
        Seen::LossSeen { peer, .. } => loss_text(alloc, watch, *peer),
        _ => Ok(String::new(alloc)),
    }
}

/// What is noted of the command of a number.
fn label_with(alloc: Global, number: u32, text: &str) -> Result<String, AllocError> {
    format!(in alloc; "{number}: {text}")
}

/// That the loss of a node is seen.
fn loss_text(alloc: Global, watch: &Watch, peer: usize) -> Result<String, AllocError> {
    match watch.names.get(peer) {
        Some(name) => format!(in alloc; "sees the loss of {}", name.as_str()),
        None => String::from_str(alloc, "sees a loss"),
    }
}
