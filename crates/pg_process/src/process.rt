//! One node as a process.

ghost use Rattle.std.specs.Prelude.{◌≡◌, ◌≤◌, ◌∷◌, length};
ghost use Rattle.pg_node.specs.Nodes.{held_by};
ghost use Rattle.pg_node.specs.PgNodeOpens.Places.{name_at};
ghost use Rattle.pg_node.specs.PgNodeState.Issued.{ports_of};
ghost use Rattle.pg_node.specs.PgNodeState.States.{names_of};
ghost use Rattle.pg_process.specs.Parties.{whom_of};

use pg_node::{IndexTable, Node};
use pg_node_process::{Courtesy, Desk, Journal, Outlet, Parcel, Parties};
use pg_term::Atom;
use std::alloc::Global;

/// What a process told its host once only, and whether it tells of its table.
#[derive(Clone, Copy, Debug, PartialEq, Eq)]
pub struct Told {
    /// That its node is formed.
    pub formed: bool,
    /// That its clock is old.
    pub old_clock: bool,
    /// That many processes have ended.
    pub many_ended: bool,
    /// It tells what its table becomes, as the host mirrors it.
    pub mirrored: bool,
}

/// One node of a fixed set, the requests of its ports, and what it says to its host.
#[derive(Drop)]
pub struct Process {
    pub(crate) node: Node<IndexTable>,
    // Whom the bodies of the input are of.
    pub(crate) parties: Parties,
    // The names of the peers, by their places.
    pub(crate) peers: Vec<Atom>,
    // The requests of each port, and how the port gives way.
    pub(crate) desks: Vec<Desk>,
    pub(crate) courtesies: Vec<Courtesy>,
    // What goes out, and what is logged.
    pub(crate) outlet: Outlet,
    pub(crate) journal: Journal,
    // Where bytes for a peer are on their way out.
    pub(crate) parcel: Parcel,
    // How many bodies came.
    pub(crate) came: u64,
    pub(crate) told: Told,
    pub(crate) alloc: Global,
    ghost named: { names_of (held_by node) ≡ name_at (names_of (held_by node)) 0 ∷ peers.items },
    ghost few: { length peers.items ≤ 15 },
    ghost all_desks: { length desks.items ≡ ports_of (held_by node) },
    ghost all_courtesies: { length courtesies.items ≡ ports_of (held_by node) },
    ghost ports: { ports_of (held_by node) ≤ 64 },
    ghost whom: { parties ≡ whom_of (names_of (held_by node)) (ports_of (held_by node)) (length peers.items) },
}
