//! The parts of a line.

use std::alloc::{AllocError, Global};
use std::mem;

/// A part of a line, and the column at which it begins, from 1 on.
#[derive(Drop)]
pub(crate) struct Part {
    pub(crate) text: String,
    pub(crate) column: usize,
}

/// Where a walk over a line is: a space within single quotes parts nothing.
#[derive(Clone, Copy, PartialEq, Eq)]
enum Stand {
    Bare,
    Quoted,
    Escaped,
}

fn after(stand: Stand, character: char) -> Stand {
    match stand {
        Stand::Bare if character == '\'' => Stand::Quoted,
        Stand::Bare => Stand::Bare,
        Stand::Quoted if character == '\'' => Stand::Bare,
        Stand::Quoted if character == '\\' => Stand::Escaped,
        Stand::Quoted | Stand::Escaped => Stand::Quoted,
    }
}

/// The parts of a line, between single spaces; an empty one where a blank is too many.
///
/// Error: `AllocError`.
pub(crate) fn parts_of(alloc: Global, line: &str) -> Result<Vec<Part>, AllocError> {
    let mut parts = Vec::new(alloc);
    let mut part = begun(alloc, 1);
    let mut stand = Stand::Bare;
    let mut column = 1usize;
    for character in line.chars() {
        column = column.saturating_add(1);
        if character == ' ' && stand == Stand::Bare {
            parts.push(mem::replace(&mut part, begun(alloc, column)))?;
        } else {
            part.text.push(character)?;
            stand = after(stand, character);
        }
    }
    parts.push(part)?;
    Ok(parts)
}

/// A part that begins at this column.
fn begun(alloc: Global, column: usize) -> Part {
    Part {
        text: String::new(alloc),
        column,
    }
}

/// The lines of a script.
///
/// Error: `AllocError`.
pub(crate) fn lines_of(alloc: Global, script: &str) -> Result<Vec<&str>, AllocError> {
    script.split('\n').collect(alloc)
}

/// Whether a line is empty or a comment.
pub(crate) fn is_skipped(line: &str) -> bool {
    line.is_empty() || line.starts_with('%')
}
