//! Which line of a script declares what no configuration has.

use crate::parts::{Part, is_skipped, parts_of};
use crate::saying::Saying;
use std::alloc::{AllocError, Global};

/// How many processes a node makes at most.
const MOST_MADE: u64 = 268_435_455;

/// Says which line of a script makes a configuration of it that can't be, if one alone does; whether one was found.
///
/// Error: `AllocError`.
pub(crate) fn say_cause(
    alloc: Global,
    lines: &[&str],
    saying: &mut Saying,
) -> Result<bool, AllocError> {
    let all = parts_of_all(alloc, lines)?;
    for place in 0..all.len() {
        if say_line(all.as_slice(), place, saying) {
            return Ok(true);
        }
    }
    Ok(false)
}

/// The parts of each line; none of a line that says nothing.
///
/// Error: `AllocError`.
fn parts_of_all(alloc: Global, lines: &[&str]) -> Result<Vec<Vec<Part>>, AllocError> {
    let mut all = Vec::new(alloc);
    for line in lines {
        let parts = if is_skipped(line) {
            Vec::new(alloc)
        } else {
            parts_of(alloc, line)?
        };
        all.push(parts)?;
    }
    Ok(all)
}

/// The text of a part; empty where there is none.
fn word(parts: &[Part], place: usize) -> &str {
    match parts.get(place) {
        Some(part) => part.text.as_str(),
        None => "",
    }
}

/// The parts of a line; none where there is no such line.
fn line_at(all: &[Vec<Part>], place: usize) -> &[Part] {
    match all.get(place) {
        Some(parts) => parts.as_slice(),
        None => &[],
    }
}

/// Says what is wrong with what a line declares; whether something is.
fn say_line(all: &[Vec<Part>], place: usize, saying: &mut Saying) -> bool {
    let parts = line_at(all, place);
    match word(parts, 0) {
        "node" => say_made(parts, place, saying),
        "has" => say_twice(all, place, saying) || say_unmade(all, place, saying),
        _ => false,
    }
}

/// Says a word of a line, both by their places, which begin at 0.
fn say_place(line: usize, word: usize, saying: &mut Saying) {
    saying.line(line.saturating_add(1));
    saying.text(", word ");
    saying.number(word.saturating_add(1) as u64);
    saying.text(": ");
}

/// Says that a node makes too many processes; whether it does.
fn say_made(parts: &[Part], place: usize, saying: &mut Saying) -> bool {
    match word(parts, 3).parse::<u64>() {
        Ok(made) if made > MOST_MADE => {
            say_place(place, 3, saying);
            saying.number(made);
            saying.text(" processes: at most ");
            saying.number(MOST_MADE);
            true
        }
        _ => false,
    }
}

/// Says that a line above tells the same group of the same node; whether one does.
fn say_twice(all: &[Vec<Part>], place: usize, saying: &mut Saying) -> bool {
    let parts = line_at(all, place);
    for above in 0..place {
        let other = line_at(all, above);
        if word(other, 0) == "has"
            && word(other, 1) == word(parts, 1)
            && word(other, 2) == word(parts, 2)
        {
            say_place(place, 2, saying);
            saying.text("group ");
            saying.quoted(word(parts, 2));
            saying.text(" of node ");
            saying.quoted(word(parts, 1));
            saying.text(" is told in ");
            saying.line(above.saturating_add(1));
            saying.text(" already");
            return true;
        }
    }
    false
}

/// Says that a member was not made; whether one was not.
fn say_unmade(all: &[Vec<Part>], place: usize, saying: &mut Saying) -> bool {
    for (at, part) in line_at(all, place).iter().enumerate() {
        if at > 2 && !is_made(all, part.text.as_str()) {
            say_place(place, at, saying);
            saying.text("no node made process ");
            saying.quoted(part.text.as_str());
            return true;
        }
    }
    false
}

/// Whether a node made the process of this text, `<NODE.NUMBER.CREATION>`.
fn is_made(all: &[Vec<Part>], text: &str) -> bool {
    let Some((head, creation)) = text.rsplit_once('.') else {
        return true;
    };
    match head.rsplit_once('.') {
        Some((name, number)) => match number.parse::<u64>() {
            Ok(number) => {
                creation == "0>"
                    && number > 0
                    && number <= made_by(all, name.strip_prefix('<').unwrap_or(name))
            }
            Err(_) => true,
        },
        None => true,
    }
}

/// How many processes a node of this name made.
fn made_by(all: &[Vec<Part>], name: &str) -> u64 {
    for parts in all {
        if word(parts.as_slice(), 0) == "node" && word(parts.as_slice(), 1) == name {
            return word(parts.as_slice(), 3).parse::<u64>().unwrap_or(0);
        }
    }
    0
}
