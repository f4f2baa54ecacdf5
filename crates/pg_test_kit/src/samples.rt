//! Small values that figures are about.

use pg_term::{Atom, Pid, Reference, TermFault};
use std::alloc::Global;

/// The pid of this node with this id.
///
/// Errors: those of `Atom::new`.
///
/// Cost: that of `Atom::new`.
pub fn pid(alloc: Global, node: &str, id: u32) -> Result<Pid, TermFault> {
    Ok(Pid {
        node: Atom::new(alloc, node)?,
        serial: 0,
        id,
        creation: 1,
    })
}

/// The reference of this node of this number.
///
/// Errors: those of `Atom::new`.
///
/// Cost: that of `Atom::new`.
pub fn reference(alloc: Global, node: &str, number: u32) -> Result<Reference, TermFault> {
    Reference::new(Atom::new(alloc, node)?, 1, &[number, 0, 0])
}
