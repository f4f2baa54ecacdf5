//! Lines of what was seen.

ghost use Rattle.std.specs.Prelude.{◌≡◌, ◌++◌, OnOk, codes, decimal, is_ok, true, length, slice_get, string_bytes};
ghost use Rattle.std.specs.Str.{chars};
ghost use Rattle.pg_text.specs.Writing.{GrowsBy};
ghost use Rattle.pg_script_lines.specs.Rows.{row_line};
ghost use Rattle.pg_script_trace.specs.Traces.{Appends, GrewBy, IsEmpty, IsHead, IsLine, PrintsSight, clock_cell, clock_of};
ghost use Rattle.pg_script_trace.specs.Traces.{command_text, event_cell, name_of, place_cell, place_of, receiver_cell};
ghost use Rattle.pg_script_trace.specs.Traces.{sender_cell, stamp_in, text_at, way_cell, what_cell, widest, widths_of};

use crate::seen::{Seen, Sight};
use crate::watch::Watch;
use itoa::Buffer;
use pg_script_lines::{Row, Widths, print_row};
use std::alloc::{AllocError, Global};

/// The widths of the lines of what was seen.
#[derive(Clone, Copy, Debug)]
pub struct Columns {
    alloc: Global,
    widths: Widths,
}

impl Columns {
    /// Columns for the nodes of a watch, where no line has a greater number.
    ///
    /// Cost: no memory; one walk over the names.
    pub fn new(alloc: Global, watch: &Watch, last_line: usize) -> Columns
        ensures { result.widths ≡ widths_of watch.now.names.items last_line }
    {
        let node = widest(watch.names.as_slice());
        Columns {
            alloc,
            widths: Widths {
                line: digits(last_line).max(4),
                node: node.max(4),
                clock: 5,
                event: 5,
                way: node.saturating_add(5),
            },
        }
    }

    /// Appends the line of the columns' names.
    ///
    /// Errors: `AllocError`; some of it may have been appended.
    ///
    /// Cost: memory for the cells, and where `out` has no room for them.
    pub fn print_head(&self, out: &mut String) -> Result<(), AllocError>
        ensures { OnOk result (Appends self.now.widths IsHead (string_bytes out.old) (string_bytes out.new)) }
    {
        let mut row = empty_row(self.alloc);
        let filled = fill_head(&mut row);
        self.print_filled(out, row, filled)
    }

    /// Appends the line of a sight of this watch. An answer has none, as the run prints it by itself.
    ///
    /// Errors: `AllocError`; some of it may have been appended.
    ///
    /// Cost: memory for the cells, and where `out` has no room for them.
    pub fn print(&self, out: &mut String, watch: &Watch, sight: &Sight) -> Result<(), AllocError>
        ensures { OnOk result (PrintsSight self.now.widths watch.now.names.items watch.now.letters.items sight.now.line sight.now.seen
            (string_bytes out.old) (string_bytes out.new)) }
    {
        match &sight.seen {
            Seen::Answered { .. } => Ok(()),
            _ => self.print_line(out, watch, sight),
        }
    }

    /// Appends the line of a sight, whatever it is.
    fn print_line(&self, out: &mut String, watch: &Watch, sight: &Sight) -> Result<(), AllocError>
        ensures { OnOk result (Appends self.now.widths
            (IsLine watch.now.names.items watch.now.letters.items sight.now.line sight.now.seen)
            (string_bytes out.old) (string_bytes out.new)) }
    {
        let mut row = empty_row(self.alloc);
        let filled = fill(&mut row, watch, sight);
        self.print_filled(out, row, filled)
    }

    /// Appends the line of a row, where it could be filled.
    fn print_filled(
        &self,
        out: &mut String,
        row: Row,
        filled: Result<(), AllocError>,
    ) -> Result<(), AllocError>
        ensures filled { OnOk result (is_ok filled ≡ true) }
        ensures printed { OnOk result (GrowsBy (row_line self.now.widths row) (string_bytes out.old)
            (string_bytes out.new)) }
    {
        let printed = match filled {
            Ok(()) => print_row(out, self.widths, &row),
            Err(error) => Err(error),
        };
        drop(row);
        printed
    }
}

/// A row of empty cells.
fn empty_row(alloc: Global) -> Row
    ensures { IsEmpty result }
{
    Row {
        line: String::new(alloc),
        node: String::new(alloc),
        clock: String::new(alloc),
        event: String::new(alloc),
        way: String::new(alloc),
        what: String::new(alloc),
    }
}

/// Writes the names of the columns into their cells.
fn fill_head(row: &mut Row) -> Result<(), AllocError>
    requires { IsEmpty row.old }
    ensures { OnOk result (IsHead row.new) }
{
    row.line.push_str("line")?;
    row.node.push_str("node")?;
    row.clock.push_str("clock")?;
    row.event.push_str("event")?;
    row.way.push_str("with")?;
    row.what.push_str("what")
}

/// Writes what was seen into the cells.
fn fill(row: &mut Row, watch: &Watch, sight: &Sight) -> Result<(), AllocError>
    requires { IsEmpty row.old }
    ensures { OnOk result (IsLine watch.now.names.items watch.now.letters.items sight.now.line sight.now.seen row.new) }
{
    let seen = &sight.seen;
    write!(row.line, "{}", sight.line)?;
    add_place(&mut row.node, watch, seen)?;
    add_clock(&mut row.clock, watch, seen)?;
    row.event.push_str(event_of(seen))?;
    add_way(&mut row.way, watch, seen)?;
    add_what(&mut row.what, watch, seen)
}

/// Appends the name of a node.
fn add_name(out: &mut String, watch: &Watch, node: usize) -> Result<(), AllocError>
    ensures { OnOk result (GrewBy (name_of watch.now.names.items node) out.old out.new) }
{
    match watch.names.get(node) {
        Some(name) => out.push_str(name.as_str()),
        None => out.push('?'),
    }
}

/// Appends the name of the node of a sight.
fn add_place(out: &mut String, watch: &Watch, seen: &Seen) -> Result<(), AllocError>
    ensures { OnOk result (GrewBy (place_cell watch.now.names.items
        (place_of watch.now.letters.items seen.now)) out.old out.new) }
{
    match place_of(watch, seen) {
        Some(node) => add_name(out, watch, node),
        None => Ok(()),
    }
}

/// Appends the clock of a sight.
fn add_clock(out: &mut String, watch: &Watch, seen: &Seen) -> Result<(), AllocError>
    ensures { OnOk result (GrewBy (clock_cell (clock_of watch.now.letters.items seen.now)) out.old out.new) }
{
    match clock_of(watch, seen) {
        Some(clock) => write!(out, "{clock}"),
        None => Ok(()),
    }
}

/// Appends the other node of a sight after a word.
fn add_way(out: &mut String, watch: &Watch, seen: &Seen) -> Result<(), AllocError>
    ensures { OnOk result (GrewBy (way_cell watch.now.names.items watch.now.letters.items seen.now) out.old out.new) }
{
    match seen {
        Seen::Put { to, .. } => add_other(out, "to ", watch, *to),
        Seen::Pulled { from, .. } => add_other(out, "from ", watch, *from),
        Seen::NotThere { peer, .. } => add_other(out, "from ", watch, *peer),
        Seen::Taken { packet, .. } => add_sender(out, watch, *packet),
        Seen::Sent { packet } => add_receiver(out, watch, *packet),
        Seen::LossSeen { peer, .. } => add_other(out, "of ", watch, *peer),
        _ => Ok(()),
    }
}

/// Appends a word, and the name of a node.
fn add_other(out: &mut String, word: &str, watch: &Watch, node: usize) -> Result<(), AllocError>
    ensures { OnOk result (GrewBy (word.now ++ name_of watch.now.names.items node) out.old out.new) }
{
    out.push_str(word)?;
    add_name(out, watch, node)
}

/// Appends who sent a packet.
fn add_sender(out: &mut String, watch: &Watch, packet: usize) -> Result<(), AllocError>
    ensures { OnOk result (GrewBy (sender_cell watch.now.names.items
        (slice_get watch.now.letters.items packet)) out.old out.new) }
{
    match watch.letters.get(packet) {
        Some(letter) => add_other(out, "from ", watch, letter.from),
        None => Ok(()),
    }
}

/// Appends whom a packet is for.
fn add_receiver(out: &mut String, watch: &Watch, packet: usize) -> Result<(), AllocError>
    ensures { OnOk result (GrewBy (receiver_cell watch.now.names.items
        (slice_get watch.now.letters.items packet)) out.old out.new) }
{
    match watch.letters.get(packet) {
        Some(letter) => add_other(out, "to ", watch, letter.to),
        None => Ok(()),
    }
}

/// Appends what else was seen.
fn add_what(out: &mut String, watch: &Watch, seen: &Seen) -> Result<(), AllocError>
    ensures { OnOk result (GrewBy (what_cell watch.now.letters.items seen.now) out.old out.new) }
{
    match seen {
        Seen::Put { count, .. } | Seen::Pulled { count, .. } => write!(out, "{count} bytes"),
        Seen::NotThere { .. } => out.push_str("no whole packet"),
        Seen::Taken { packet, .. } | Seen::Sent { packet } => add_message(out, watch, *packet),
        Seen::Came { number, text, .. } => add_command(out, *number, ": ", text.as_str()),
        Seen::Tried { number, .. } => add_command(out, *number, " again", ""),
        Seen::Waits { number, .. } => add_command(out, *number, " waits for a retry", ""),
        Seen::Granted { name, to, .. } => add_lock(out, name.as_str(), " granted to ", to.as_str()),
        Seen::Freed { name, by, .. } => add_lock(out, name.as_str(), " freed by ", by.as_str()),
        Seen::Denied { name, to, .. } => add_lock(out, name.as_str(), " denied to ", to.as_str()),
        Seen::Answered { text, .. } => out.push_str(text.as_str()),
        Seen::LossSeen { .. } => out.push_str("the loss is seen"),
        Seen::Lost { .. } => out.push_str("the node is lost"),
    }
}

/// Appends the text of a packet's message.
fn add_message(out: &mut String, watch: &Watch, packet: usize) -> Result<(), AllocError>
    ensures { OnOk result (GrewBy (text_at (slice_get watch.now.letters.items packet)) out.old out.new) }
{
    match watch.letters.get(packet) {
        Some(letter) => out.push_str(letter.text.as_str()),
        None => Ok(()),
    }
}

/// Appends what happened to a command. `text`: its own text, where that is shown.
fn add_command(out: &mut String, number: u32, happened: &str, text: &str) -> Result<(), AllocError>
    ensures { OnOk result (GrewBy (command_text number happened.now text.now) out.old out.new) }
{
    write!(out, "command {number}{happened}{text}")
}

/// Appends what a reference did with a lock.
fn add_lock(out: &mut String, name: &str, done: &str, reference: &str) -> Result<(), AllocError>
    ensures { OnOk result (GrewBy (name.now ++ done.now ++ reference.now) out.old out.new) }
{
    out.push_str(name)?;
    out.push_str(done)?;
    out.push_str(reference)
}

/// How many digits a number has.
fn digits(number: usize) -> usize
    ensures { result ≡ length (decimal number) }
{
    let mut buffer = Buffer::new();
    buffer.format(number).len()
}

/// How many characters the longest name has.
fn widest(names: &[String]) -> usize
    ensures { result ≡ widest names.now }
{
    let mut most = 0usize;
    for place in 0..names.len() {
        most = most.max(char_count(names[place].as_str()));
    }
    most
}

/// How many characters a text has.
fn char_count(text: &str) -> usize
    ensures { result ≡ length (chars text.now) }
{
    text.chars().count()
}

/// The node of a sight.
fn place_of(watch: &Watch, seen: &Seen) -> Option<usize>
    ensures { result ≡ place_of watch.now.letters.items seen.now }
{
    match seen {
        Seen::Put { from, .. } => Some(*from),
        Seen::Pulled { to, .. } => Some(*to),
        Seen::Sent { packet } => match watch.letters.get(*packet) {
            Some(letter) => Some(letter.from),
            None => None,
        },
        Seen::NotThere { node, .. }
        | Seen::Taken { node, .. }
        | Seen::Came { node, .. }
        | Seen::Tried { node, .. }
        | Seen::Granted { node, .. }
        | Seen::Freed { node, .. }
        | Seen::Denied { node, .. }
        | Seen::Waits { node, .. }
        | Seen::Answered { node, .. }
        | Seen::LossSeen { node, .. }
        | Seen::Lost { node } => Some(*node),
    }
}

/// The clock that a node has after an event, or with which it sent a packet.
fn clock_of(watch: &Watch, seen: &Seen) -> Option<u32>
    ensures { result ≡ clock_of watch.now.letters.items seen.now }
{
    match seen {
        Seen::Taken { clock, .. }
        | Seen::Came { clock, .. }
        | Seen::Tried { clock, .. }
        | Seen::LossSeen { clock, .. } => Some(*clock),
        Seen::Sent { packet } => stamp_of(watch, *packet),
        _ => None,
    }
}

/// The clock with which a packet was sent.
fn stamp_of(watch: &Watch, packet: usize) -> Option<u32>
    ensures { result ≡ stamp_in (slice_get watch.now.letters.items packet) }
{
    match watch.letters.get(packet) {
        Some(letter) => Some(letter.stamp),
        None => None,
    }
}

/// What kind of sight it is.
fn event_of(seen: &Seen) -> &'static str
    ensures { result.now ≡ event_cell seen.now }
{
    match seen {
        Seen::Put { .. } => "put",
        Seen::Pulled { .. } => "pull",
        Seen::NotThere { .. } | Seen::Taken { .. } => "take",
        Seen::Came { .. } => "do",
        Seen::Tried { .. } => "retry",
        Seen::Sent { .. } => "send",
        Seen::Granted { .. } | Seen::Freed { .. } | Seen::Denied { .. } => "lock",
        Seen::Waits { .. } => "wait",
        Seen::Answered { .. } => "reply",
        Seen::LossSeen { .. } => "see",
        Seen::Lost { .. } => "lose",
    }
}
