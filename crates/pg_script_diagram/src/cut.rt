//! Labels of a limited width.

use crate::pen::Pen;

/// How many cells of a label's font a character takes at most.
fn cells_of(character: char) -> usize {
    if character < '\u{1100}' { 1 } else { 2 }
}

/// How many cells a text takes at most.
pub(crate) fn cells(text: &str) -> usize {
    let mut count = 0usize;
    for character in text.chars() {
        count = count.saturating_add(cells_of(character));
    }
    count
}

/// Appends a text, escaped. One that takes more cells than `most` is cut, and ends with an ellipsis.
pub(crate) fn add_cut(pen: &mut Pen, text: &str, most: usize) {
    if cells(text) <= most {
        pen.add_escaped(text);
    } else {
        add_front(pen, text, most);
    }
}

/// Appends as much of a text as leaves room for the ellipsis after it.
fn add_front(pen: &mut Pen, text: &str, most: usize) {
    let mut count = 1usize;
    for character in text.chars() {
        count = count.saturating_add(cells_of(character));
        if count > most {
            break;
        }
        pen.add_escaped_char(character);
    }
    pen.add_char('…');
}
