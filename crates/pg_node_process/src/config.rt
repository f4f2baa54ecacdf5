//! How a process begins.

ghost use Rattle.std.specs.Prelude.{◌≡◌};
ghost use Rattle.std.specs.List.{list_any};
ghost use Rattle.pg_term.specs.Same.{same_atom};
ghost use Rattle.pg_node_process.specs.Configs.{are_apart as are_apart_in};

use crate::journal::MAX_LABEL;
use pg_step::MAX_PROCESSES;
use pg_term::Atom;

/// How many peers a node has at most.
pub const MAX_PEERS: usize = 15;

/// How many ports it has at most.
pub const MAX_PORTS: u16 = 64;

/// What a process is told as it begins.
#[derive(Debug, Drop)]
pub struct ProcessConfig {
    /// The name of its node.
    pub own: Atom,
    /// Those of its peers, in the order of their places, at most 15.
    pub peers: Vec<Atom>,
    /// How many ports the node has, 1 to 64.
    pub ports: u16,
    /// How many processes count as made, at most 268,435,455.
    pub made: u32,
    /// What the host calls the run, at most 255 bytes.
    pub label: Vec<u8>,
    /// Whether the host mirrors the node's table.
    pub mirrored: bool,
}

impl ProcessConfig {
    ghost use Rattle.std.specs.Prelude.{◌≡◌, ◌≤◌, ◌∷◌, IsTrue, length};
    ghost use Rattle.std.specs.List.{IsDistinct};
    ghost use Rattle.pg_term.specs.Same.{same_atom};
    ghost use Rattle.pg_step.specs.PgEnds.Limits.{max_processes};
    ghost use Rattle.pg_node_process.specs.Configs.{are_apart, are_counts_within, is_config};

    /// Whether a process can begin so: no name comes twice, and each number is within its limits.
    ///
    /// Cost: no memory; a comparison of each two names.
    pub fn is_valid(&self) -> bool
        ensures value { result ≡ is_config self.now }
        ensures apart { IsTrue result → IsDistinct same_atom (self.now.own ∷ self.now.peers.items) }
        ensures peers { IsTrue result → length self.now.peers.items ≤ 15 }
        ensures made { IsTrue result → self.now.made ≤ max_processes }
    {
        self.are_counts_valid() && self.are_names_apart()
    }

    /// Whether each number is within its limits.
    fn are_counts_valid(&self) -> bool
        ensures { result ≡ are_counts_within self.now }
    {
        self.peers.len() <= MAX_PEERS
            && 1 <= self.ports
            && self.ports <= MAX_PORTS
            && self.made <= MAX_PROCESSES
            && self.label.len() <= MAX_LABEL
    }

    /// Whether no name comes twice.
    #[tactic(auto, using(crate::proofs::Apart::apart_names))]
    fn are_names_apart(&self) -> bool
        ensures value { result ≡ are_apart (self.now.own ∷ self.now.peers.items) }
        ensures apart { IsTrue result → IsDistinct same_atom (self.now.own ∷ self.now.peers.items) }
    {
        !has_name(&self.own, self.peers.as_slice()) && are_apart(self.peers.as_slice())
    }
}

/// Whether no two of these names are one. Each is compared with all that follow it.
fn are_apart(names: &[Atom]) -> bool
    ensures { result ≡ are_apart_in names.now }
{
    let mut left = names;
    while let [first, rest @ ..] = left {
        if has_name(first, rest) {
            return false;
        }
        left = rest;
    }
    true
}

/// Whether one of these is the name.
fn has_name(name: &Atom, names: &[Atom]) -> bool
    ensures { result ≡ list_any (same_atom name.now) names.now }
{
    for other in names {
        if *name == *other {
            return true;
        }
    }
    false
}
