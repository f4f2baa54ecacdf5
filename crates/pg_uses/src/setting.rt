//! What the three programs begin with: two nodes, and the name of a group.

use pg_cluster::{Config, Start};
use pg_term::{Atom, Items, Term};
use std::alloc::Global;

/// The name of the group.
pub(crate) fn workers(alloc: Global) -> Option<Term> {
    let name = Atom::new(alloc, "workers").ok()?;
    Some(Term::Atom(name))
}

/// The nodes `a` and `b`, each with one port. They have made no process and know no group.
pub(crate) fn two_nodes(alloc: Global) -> Option<Config> {
    let first = node(alloc, "a")?;
    let second = node(alloc, "b")?;
    let starts = Vec::from_array(alloc, [first, second]).ok()?;
    Some(Config { ring: 64, starts })
}

fn node(alloc: Global, name: &str) -> Option<Start> {
    let name = Atom::new(alloc, name).ok()?;
    Some(Start {
        name,
        made: 0,
        ports: 1,
        groups: Items::from_vec(Vec::new(alloc)),
    })
}
