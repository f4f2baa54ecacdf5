//! Why a request has no answer.

use pg_node_requests::{node_lost, refused, unknown};
use pg_term::faults::CLOCK_FULL;
use pg_term::{Atom, Term};
use std::alloc::{AllocError, Global};

/// Why a request has no answer.
#[derive(Clone, Copy, Debug, PartialEq, Eq)]
pub(crate) enum Ending {
    /// Its node was lost.
    Lost,
    /// A clock was full, and the request was with its node still: it may have happened.
    Open,
    /// A clock was full, and the request was not handed over.
    Unasked,
}

impl Ending {
    ghost use Rattle.std.specs.Prelude.{◌≡◌, IfOk};
    ghost use Rattle.pg_talk.specs.Written.{ending_term};

    /// What is told of it. `node`: the name of the node.
    ///
    /// Error: `AllocError`.
    pub(crate) fn term(self, alloc: Global, node: &Atom) -> Result<Term, AllocError>
        ensures { IfOk result (λ term. term ≡ ending_term node.now self) }
    {
        match self {
            Ending::Lost => node_lost(alloc, node),
            Ending::Open => unknown(alloc, CLOCK_FULL),
            Ending::Unasked => refused(alloc, CLOCK_FULL),
        }
    }
}
