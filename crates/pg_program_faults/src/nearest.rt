//! The word that was meant.

use crate::saying::Saying;
use std::alloc::Global;
use strsim::osa_distance;

/// How many changes of a letter a word may be away.
const FAR: usize = 2;

/// The nearest of some words, if one is near, and how far it is away.
#[derive(Clone, Copy)]
pub(crate) struct Nearest<'a> {
    word: Option<&'a str>,
    distance: usize,
}

impl<'a> Nearest<'a> {
    /// No word was looked at.
    pub(crate) fn new() -> Nearest<'a> {
        Nearest {
            word: None,
            distance: FAR + 1,
        }
    }

    /// Looks at one word more.
    pub(crate) fn look(&mut self, alloc: Global, given: &str, known: &'a str) {
        if let Ok(distance) = osa_distance(alloc, given, known) {
            if distance < self.distance && distance < given.len() {
                self.word = Some(known);
                self.distance = distance;
            }
        }
    }

    /// Appends the question whether it was meant.
    pub(crate) fn ask(&self, saying: &mut Saying) {
        if let Some(word) = self.word {
            saying.text("; did you mean ");
            saying.quoted(word);
            saying.text("?");
        }
    }
}
