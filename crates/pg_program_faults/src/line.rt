//! What is wrong with a line of a script.

use crate::causes::say_cause;
use crate::declared::{Declared, declared_in};
use crate::faults::row_of;
use crate::forms::{FORMS, Form, Kind, form_of};
use crate::nearest::Nearest;
use crate::parts::{Part, is_skipped, lines_of, parts_of};
use crate::saying::Saying;
use crate::spelling::Walk;
use std::alloc::{AllocError, Global};

/// A line of a script that was refused.
#[derive(Clone, Copy)]
pub(crate) struct Refused<'a> {
    pub(crate) script: &'a str,
    /// From 1 on.
    pub(crate) line: usize,
    /// The number of the fault.
    pub(crate) number: u8,
    /// It was read for `explore`.
    pub(crate) is_explored: bool,
}

/// Says what is wrong with a line.
///
/// Error: `AllocError`; some of it may have been said.
pub(crate) fn say_line(
    alloc: Global,
    refused: Refused<'_>,
    saying: &mut Saying,
) -> Result<(), AllocError> {
    let lines = lines_of(alloc, refused.script)?;
    let text = match lines.as_slice().get(refused.line.saturating_sub(1)) {
        Some(text) => *text,
        None => "",
    };
    saying.line(refused.line);
    if is_ended(text, saying) || is_blank(alloc, text, saying)? {
        return Ok(());
    }
    let parts = parts_of(alloc, text)?;
    let declared = declared_in(alloc, lines.as_slice())?;
    if !say_parts(alloc, refused, parts.as_slice(), &declared, saying) {
        say_when(refused.number, saying);
    }
    Ok(())
}

/// Says what is known of a fault's number.
pub(crate) fn say_when(number: u8, saying: &mut Saying) {
    saying.text(": ");
    if let Some(row) = row_of(number) {
        saying.text(row.when);
    }
}

/// Says a place within a line.
fn say_column(column: usize, saying: &mut Saying) {
    saying.text(", column ");
    saying.number(column as u64);
    saying.text(": ");
}

/// Says which word of a line it is, from 1 on.
fn say_word(place: usize, saying: &mut Saying) {
    saying.text(", word ");
    saying.number(place as u64);
}

/// Whether a line ends with a carriage return, which is said.
fn is_ended(text: &str, saying: &mut Saying) -> bool {
    let is_so = text.ends_with('\r');
    if is_so {
        saying.text(": it ends with a carriage return; a line feed alone ends a line");
    }
    is_so
}

/// Whether there is a tab or a blank too many, which is said.
///
/// Error: `AllocError`.
fn is_blank(alloc: Global, text: &str, saying: &mut Saying) -> Result<bool, AllocError> {
    let mut column = 0usize;
    for character in text.chars() {
        column = column.saturating_add(1);
        if character == '\t' {
            say_column(column, saying);
            saying.text("a tab; one space parts words");
            return Ok(true);
        }
    }
    let parts = parts_of(alloc, text)?;
    for part in &parts {
        if part.text.is_empty() {
            say_column(part.column, saying);
            saying.text("a blank too many; one space parts words, and none ends a line");
            return Ok(true);
        }
    }
    Ok(false)
}

/// Says what is wrong with the parts of a line; whether it was found.
fn say_parts(
    alloc: Global,
    refused: Refused<'_>,
    parts: &[Part],
    declared: &Declared,
    saying: &mut Saying,
) -> bool {
    let [first, rest @ ..] = parts else {
        return false;
    };
    let word = first.text.as_str();
    let Some(form) = form_of(word) else {
        say_unknown(alloc, word, saying);
        return true;
    };
    match refused.number {
        40 => say_form(alloc, refused, form, rest, saying),
        41 => say_nodes(alloc, refused.line, form, rest, declared, saying),
        42 => say_late(form, declared, saying),
        15 => say_twice(rest, declared, saying),
        _ => false,
    }
}

/// Says that no line begins with this word.
fn say_unknown(alloc: Global, word: &str, saying: &mut Saying) {
    say_word(1, saying);
    saying.text(": no command ");
    saying.quoted(word);
    let mut nearest = Nearest::new();
    for form in FORMS {
        nearest.look(alloc, word, form.word);
    }
    nearest.ask(saying);
}

/// Says where a line has not its form; whether it was found.
fn say_form(
    alloc: Global,
    refused: Refused<'_>,
    form: &Form,
    parts: &[Part],
    saying: &mut Saying,
) -> bool {
    if refused.is_explored && !form.is_explored {
        saying.text(", word 1: explore takes no line ");
        saying.quoted(form.word);
        return true;
    }
    if !form.takes(parts.len()) {
        say_count(form, parts.len(), saying);
        return true;
    }
    say_spelling(alloc, form, parts, saying) || say_rest(form, saying)
}

/// Says that a line of a form has not so many parts behind its word.
fn say_count(form: &Form, count: usize, saying: &mut Saying) {
    saying.text(": ");
    saying.quoted(form.word);
    if count < form.most {
        saying.text(" has too few parts; its form is ");
    } else {
        saying.text(" has too many parts; its form is ");
    }
    saying.text(form.usage);
}

/// Says which part is none of its kind, and where; whether one was found.
fn say_spelling(alloc: Global, form: &Form, parts: &[Part], saying: &mut Saying) -> bool {
    for (place, part) in parts.iter().enumerate() {
        let is_said = match form.kind(place) {
            Some(Kind::Made) => say_made(place, part, saying),
            Some(kind) => say_part(alloc, place, kind, part, saying),
            None => false,
        };
        if is_said {
            return true;
        }
    }
    false
}

/// Says that the word `made` is wanted, where another is there.
fn say_made(place: usize, part: &Part, saying: &mut Saying) -> bool {
    if part.text.as_str() == "made" {
        return false;
    }
    say_word(place.saturating_add(2), saying);
    say_column(part.column, saying);
    saying.quoted(part.text.as_str());
    saying.text(", wanted 'made' and a number");
    true
}

/// Says where a part is none of its kind, and what was wanted there.
fn say_part(alloc: Global, place: usize, kind: Kind, part: &Part, saying: &mut Saying) -> bool {
    let mut walk = Walk::new(alloc, kind);
    let mut column = part.column;
    for character in part.text.chars() {
        if let Some(wanted) = walk.take(character) {
            say_word(place.saturating_add(2), saying);
            say_column(column, saying);
            saying.character(character);
            say_wanted(wanted, saying);
            return true;
        }
        column = column.saturating_add(1);
    }
    match walk.end() {
        Some(wanted) => {
            say_word(place.saturating_add(2), saying);
            say_column(column, saying);
            saying.text("the word ends");
            say_wanted(wanted, saying);
            true
        }
        None => false,
    }
}

fn say_wanted(wanted: &str, saying: &mut Saying) {
    saying.text(", wanted ");
    saying.text(wanted);
}

/// Says what else a line of a form may lack.
fn say_rest(form: &Form, saying: &mut Saying) -> bool {
    match form.word {
        "settle" => {
            saying.text(", word 2: a number of at most 1000000 is wanted");
            true
        }
        "ring" => {
            saying.text(": a line above has told the capacity of rings");
            true
        }
        _ => false,
    }
}

/// Says which node is not declared; whether one was found.
fn say_nodes(
    alloc: Global,
    line: usize,
    form: &Form,
    parts: &[Part],
    declared: &Declared,
    saying: &mut Saying,
) -> bool {
    for (place, part) in parts.iter().enumerate() {
        if form.kind(place) == Some(Kind::Node) {
            let found = declared.line_of(part.text.as_str());
            let is_above = match found {
                Some(at) => at < line,
                None => false,
            };
            if !is_above {
                say_word(place.saturating_add(2), saying);
                say_node(alloc, part.text.as_str(), found, declared, saying);
                return true;
            }
        }
    }
    saying.text(": a node has no link with itself; two nodes are wanted");
    true
}

/// Says that a node is not declared, or too late.
fn say_node(
    alloc: Global,
    name: &str,
    found: Option<usize>,
    declared: &Declared,
    saying: &mut Saying,
) {
    saying.text(": node ");
    saying.quoted(name);
    match found {
        Some(at) => {
            saying.text(" is declared too late, in ");
            saying.line(at);
        }
        None => {
            saying.text(" is not declared");
            declared.nearest(alloc, name).ask(saying);
        }
    }
}

/// Says behind which line a declaration can't be.
fn say_late(form: &Form, declared: &Declared, saying: &mut Saying) -> bool {
    let Some(other) = declared.others else {
        return false;
    };
    saying.text(", word 1: ");
    saying.quoted(form.word);
    saying.text(" declares, and is too late behind ");
    saying.line(other);
    saying.text(", which declares nothing");
    true
}

/// Says where a node was declared before.
fn say_twice(parts: &[Part], declared: &Declared, saying: &mut Saying) -> bool {
    let [name, ..] = parts else {
        return false;
    };
    let Some(line) = declared.line_of(name.text.as_str()) else {
        return false;
    };
    saying.text(", word 2: node ");
    saying.quoted(name.text.as_str());
    saying.text(" is declared in ");
    saying.line(line);
    saying.text(" already");
    true
}

/// Says what is wrong with the configuration that a script declares.
///
/// Error: `AllocError`.
pub(crate) fn say_config(
    alloc: Global,
    script: &str,
    number: u8,
    saying: &mut Saying,
) -> Result<(), AllocError> {
    let lines = lines_of(alloc, script)?;
    let declared = declared_in(alloc, lines.as_slice())?;
    let count = declared.nodes.len();
    let is_some_line = number == 15 && count > 0 && count <= 16;
    if is_some_line && say_cause(alloc, lines.as_slice(), saying)? {
        return Ok(());
    }
    match (number, declared.ring) {
        (15, _) if count == 0 => saying.text("no node is declared, at least 1 is wanted"),
        (15, _) if count > 16 => {
            saying.number(count as u64);
            saying.text(" nodes: at most 16");
        }
        (18, Some(line)) => {
            saying.line(line);
            saying.text(", word 2: a capacity of 1 to 65536 is wanted");
        }
        _ => say_alone(number, saying),
    }
    Ok(())
}

/// Says what is known of a fault's number, at the begin.
pub(crate) fn say_alone(number: u8, saying: &mut Saying) {
    if let Some(row) = row_of(number) {
        saying.text(row.when);
    }
}
