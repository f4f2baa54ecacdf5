//! A text that grows.

use std::alloc::Global;

/// Words one after another. Where memory is short, they are cut.
#[derive(Drop)]
pub(crate) struct Saying {
    text: String,
}

impl Saying {
    /// Nothing was said yet. It takes no memory.
    pub(crate) fn new(alloc: Global) -> Saying {
        Saying {
            text: String::new(alloc),
        }
    }

    /// Appends a text.
    pub(crate) fn text(&mut self, text: &str) {
        let _ = self.text.push_str(text);
    }

    /// Appends a text in single quotes.
    pub(crate) fn quoted(&mut self, text: &str) {
        self.text("'");
        self.text(text);
        self.text("'");
    }

    /// Appends a character in single quotes; a control character by its number.
    pub(crate) fn character(&mut self, character: char) {
        if character.is_control() {
            self.text("character ");
            self.number(u64::from(u32::from(character)));
        } else {
            self.text("'");
            let _ = self.text.push(character);
            self.text("'");
        }
    }

    /// Appends a number in decimal.
    pub(crate) fn number(&mut self, number: u64) {
        let _ = write!(self.text, "{number}");
    }

    /// Appends `line L`.
    pub(crate) fn line(&mut self, line: usize) {
        self.text("line ");
        self.number(line as u64);
    }

    /// All that was said.
    pub(crate) fn said(self) -> String {
        let Saying { text } = self;
        text
    }
}
