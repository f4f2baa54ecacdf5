//! The nodes that a script declares.

use crate::forms::form_of;
use crate::nearest::Nearest;
use crate::parts::{Part, is_skipped, parts_of};
use std::alloc::{AllocError, Global};

/// What the lines of a script are, as far as declarations go.
#[derive(Drop)]
pub(crate) struct Declared {
    /// The names of the nodes and their lines, from 1 on.
    pub(crate) nodes: Vec<(String, usize)>,
    /// The first line that is no declaration.
    pub(crate) others: Option<usize>,
    /// The line that tells the capacity of rings.
    pub(crate) ring: Option<usize>,
}

/// What the lines of a script declare.
///
/// Error: `AllocError`.
pub(crate) fn declared_in(alloc: Global, lines: &[&str]) -> Result<Declared, AllocError> {
    let mut declared = Declared {
        nodes: Vec::new(alloc),
        others: None,
        ring: None,
    };
    for (place, line) in lines.iter().enumerate() {
        if !is_skipped(line) {
            let parts = parts_of(alloc, line)?;
            declared.add(parts, place.saturating_add(1))?;
        }
    }
    Ok(declared)
}

impl Declared {
    /// Adds a line's declaration.
    ///
    /// Error: `AllocError`.
    fn add(&mut self, parts: Vec<Part>, line: usize) -> Result<(), AllocError> {
        let mut parts = parts.into_iter();
        let Some(first) = parts.next() else {
            return Ok(());
        };
        match first.text.as_str() {
            "node" => {
                if let Some(name) = parts.next() {
                    let Part { text, column: _ } = name;
                    self.nodes.push((text, line))?;
                }
            }
            "ring" => self.ring = Some(line),
            word => self.see(word, line),
        }
        Ok(())
    }

    /// Sees a line that begins so, and declares no node and no ring.
    fn see(&mut self, word: &str, line: usize) {
        let declares = match form_of(word) {
            Some(form) => form.is_declaration,
            None => true,
        };
        if !declares && self.others.is_none() {
            self.others = Some(line);
        }
    }

    /// The first line that declares this node.
    pub(crate) fn line_of(&self, name: &str) -> Option<usize> {
        for (node, line) in &self.nodes {
            if node.as_str() == name {
                return Some(*line);
            }
        }
        None
    }

    /// The nearest of the names.
    pub(crate) fn nearest(&self, alloc: Global, name: &str) -> Nearest<'_> {
        let mut nearest = Nearest::new();
        for (node, _) in &self.nodes {
            nearest.look(alloc, name, node.as_str());
        }
        nearest
    }
}
