//! The nodes that worlds and clusters are made of.

use pg_cluster::{Config, Start};
use pg_term::{Atom, Items, TermFault};
use std::alloc::Global;

// A node that has made one process, by its place.
fn start(alloc: Global, place: u16, ports: u16) -> Result<Start, TermFault> {
    let name = format!(in alloc; "n{place}")?;
    Ok(Start {
        name: Atom::new(alloc, name.as_str())?,
        made: 1,
        ports,
        groups: Items::from_vec(Vec::new(alloc)),
    })
}

/// The nodes `n0`, `n1` and so on, with so many ports each; each has made one process.
///
/// Errors: those of `Atom::new`.
///
/// Cost: memory for each.
pub fn config(alloc: Global, nodes: u16, ports: u16) -> Result<Config, TermFault> {
    let mut starts = Vec::new(alloc);
    for place in 0..nodes {
        starts.push(start(alloc, place, ports)?)?;
    }
    Ok(Config {
        ring: 65_536,
        starts,
    })
}
