//! What no clause says of pictures: that they are XML, and what they show.

use crate::rows::{holds, row_holds};
use pg_script_diagram::Topic::{self, *};
use pg_script_diagram::{Diagram, Event, svg_of, write_svg};
use std::alloc::{AllocError, Global};
use std::io;
use std::io::Write;
use std::test::*;

const NODES: &[&str] = &["a", "'<&\">'", LONG, "'\u{1}\u{ffff}'"];

const LONG: &str = "a name that is too long to be shown whole";

const TOPICS: [Topic; 6] = [Lock, Update, Reply, Free, End, Exchange];

fn label(alloc: Global, number: usize) -> Result<String, AllocError> {
    format!(in alloc; "{{call,#<'a&\"b'/1.{number}.0.0>,{{join,'it\\'s',<b.{number}.0>}}}}")
}

// A packet from one of four nodes to another.
fn put_sent(alloc: Global, events: &mut Vec<Event>, number: usize) -> Result<(), AllocError> {
    let label = label(alloc, number)?;
    events.push(Event::Sent {
        from: number % 4,
        to: (number % 4 + 1 + number % 3) % 4,
        topic: TOPICS[number % 6],
        label,
    })?;
    Ok(())
}

// A packet of its line, a note, and the packet three before it that is taken.
fn put_packet(alloc: Global, events: &mut Vec<Event>, number: usize) -> Result<(), AllocError> {
    events.push(Event::Line(number.saturating_add(5)))?;
    put_sent(alloc, events, number)?;
    let label = String::from_str(alloc, "1: create '<g>'")?;
    events.push(Event::Note {
        node: number % 5,
        label,
    })?;
    if number >= 3 {
        events.push(Event::Taken { packet: number - 3 })?;
    }
    Ok(())
}

// So many packets, each taken three later, and a loss; or what names nodes and packets that are not there.
fn put_events(
    alloc: Global,
    events: &mut Vec<Event>,
    packets: Option<usize>,
) -> Result<(), AllocError> {
    let Some(packets) = packets else {
        events.push(Event::Taken { packet: 7 })?;
        events.push(Event::Lost { node: 9 })?;
        return put_sent(alloc, events, 2);
    };
    for number in 0..packets {
        put_packet(alloc, events, number)?;
    }
    events.push(Event::Lost { node: 1 })?;
    Ok(())
}

fn put_nodes(alloc: Global, nodes: &mut Vec<String>, names: &[&str]) -> Result<(), AllocError> {
    for name in names {
        nodes.push(String::from_str(alloc, name)?)?;
    }
    Ok(())
}

fn drawn(alloc: Global, names: &[&str], packets: Option<usize>) -> Result<Diagram, AllocError> {
    let mut diagram = Diagram {
        nodes: Vec::new(alloc),
        events: Vec::new(alloc),
    };
    let nodes = put_nodes(alloc, &mut diagram.nodes, names);
    let events = put_events(alloc, &mut diagram.events, packets);
    if nodes.is_ok() && events.is_ok() {
        Ok(diagram)
    } else {
        drop(diagram);
        Err(AllocError)
    }
}

// Opens or closes the tag that begins a part, which a `>` ends.
fn is_tag<'a>(open: &mut Vec<&'a str>, part: &'a str) -> Result<bool, AllocError> {
    let Some((inside, behind)) = part.split_once('>') else {
        return Ok(false);
    };
    if behind.contains('>') {
        return Ok(false);
    }
    if let Some(name) = inside.strip_prefix('/') {
        return Ok(open.pop() == Some(name));
    }
    if !inside.ends_with('/') {
        let name = inside.split(' ').next().unwrap_or(inside);
        open.push(name)?;
    }
    Ok(true)
}

// Each `<` begins a tag that a `>` ends, and each tag is closed by its own end.
fn is_well_formed(alloc: Global, svg: &str) -> Result<bool, AllocError> {
    let mut open = Vec::new(alloc);
    let Some((_, body)) = svg.split_once("?>\n") else {
        return Ok(false);
    };
    for part in body.split('<').skip(1) {
        if !is_tag(&mut open, part)? {
            return Ok(false);
        }
    }
    Ok(open.is_empty())
}

// Each `&` begins the name of a character.
fn has_names_alone(svg: &str) -> bool {
    let names = ["amp;", "lt;", "gt;", "quot;", "#39;"];
    let mut parts = svg.split('&').skip(1);
    parts.all(|part| names.iter().any(|name| part.starts_with(*name)))
}

/// The nodes and packets of a picture, how many arrows it has and one more, what stands in it, and what does not.
#[derive(Clone, Copy)]
struct Shown(
    &'static [&'static str],
    Option<usize>,
    usize,
    &'static [&'static str],
    &'static [&'static str],
);

// Six arrows are in the legend; the last three packets are not taken.
const PICTURES: &[Shown] = &[
    Shown(NODES, Some(0), 7, &[], &[]),
    Shown(NODES, Some(1), 7, TEXTS, &[]),
    Shown(NODES, Some(39), 43, &[], &[]),
    Shown(NODES, Some(200), 204, &[], &[]),
    // Nodes and packets that are not there are passed over.
    Shown(&[], None, 7, &[], &["class=\"label\""]),
];

// Names are escaped and cut.
const TEXTS: &[&str] = &[
    ">&#39;&lt;&amp;&quot;&gt;&#39;</text>",
    ">a name that is too long…</text>",
    ">&#39;\u{fffd}\u{fffd}&#39;</text>",
    ">1: create &#39;&lt;g&gt;&#39;</text>",
    ">lost</text>",
    ">line 5</text>",
];

// Whether a text is XML, and shows what it should.
fn is_picture(alloc: Global, svg: &str, row: Shown) -> Result<bool, AllocError> {
    let Shown(_, _, parts, shown, hidden) = row;
    let is_shown = has_names_alone(svg)
        && svg.split("marker-end").count() == parts
        && shown.iter().all(|text| svg.contains(*text))
        && !hidden.iter().any(|text| svg.contains(*text));
    Ok(is_shown && is_well_formed(alloc, svg)?)
}

fn is_drawn(alloc: Global, row: Shown) -> Result<bool, AllocError> {
    let diagram = drawn(alloc, row.0, row.1)?;
    let svg = svg_of(alloc, &diagram);
    drop(diagram);
    let svg = svg?;
    is_picture(alloc, svg.as_str(), row)
}

#[test]
fn pictures_are_xml(rt: HostRuntime) {
    for (at, row) in PICTURES.iter().enumerate() {
        row_holds(&rt, is_drawn(rt.alloc(), *row) == Ok(true), at);
    }
}

// Takes so many bytes, and then fails.
#[derive(Drop)]
struct Narrow {
    left: usize,
}

impl Write for Narrow {
    fn write(&mut self, buf: &[u8]) -> io::Result<usize> {
        if self.left == 0 {
            return Err(io::Error::from(io::ErrorKind::BrokenPipe));
        }
        let count = buf.len().min(self.left);
        self.left -= count;
        Ok(count)
    }

    fn flush(&mut self) -> io::Result<()> {
        Ok(())
    }
}

// Whether a narrow writer fails, and another has the picture then.
fn is_written(alloc: Global, diagram: &Diagram) -> Result<bool, io::Error> {
    let has_failed = write_svg(alloc, diagram, &mut Narrow { left: 100 }).is_err();
    let mut picture = Vec::new(alloc);
    write_svg(alloc, diagram, &mut picture)?;
    let svg = svg_of(alloc, diagram)?;
    Ok(has_failed && picture.as_slice() == svg.as_bytes())
}

#[test]
fn a_write_fails(rt: HostRuntime) -> Result<(), Fail> {
    let diagram = drawn(rt.alloc(), NODES, Some(4))?;
    let told = is_written(rt.alloc(), &diagram);
    drop(diagram);
    holds(&rt, told?, "the picture is written");
    Ok(())
}
