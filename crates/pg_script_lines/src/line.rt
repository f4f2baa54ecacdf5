//! What a line says, where nodes are given by their names.

use pg_step::Command;
use pg_term::{Atom, Items, Pid, Term};

/// A line of a script, read by itself.
#[derive(Debug, Drop)]
pub enum Line {
    /// `ring N`
    Ring(u32),
    /// `node NODE`, `node NODE made N`
    Node {
        name: Atom,
        made: u32,
    },
    /// `has NODE TERM PID ..`
    Has {
        node: Atom,
        group: Term,
        members: Items<Pid>,
    },
    /// A line about two nodes.
    Pair {
        first: Atom,
        second: Atom,
        form: PairForm,
    },
    /// A line about one node.
    At {
        node: Atom,
        form: NodeForm,
    },
    /// `settle`, `settle N`
    Settle(u32),
    /// `history TERM`
    History(Term),
}

/// What a line about two nodes asks for.
#[derive(Clone, Copy, Debug)]
pub enum PairForm {
    /// `put A B`, `put A B N`
    Put(u32),
    /// `pull B A`, `pull B A N`
    Pull(u32),
    /// `take B A`
    Take,
    /// `outbox A B`
    Outbox,
    /// `seeloss B A`
    SeeLoss,
}

/// What a line about one node asks for.
#[derive(Debug, Drop)]
pub enum NodeForm {
    /// A change, a process made or ended, a query.
    Command(Command),
    /// `retry A K`
    Retry(u32),
    /// `lock A TERM`
    Lock(Term),
    /// `lose A`
    Lose,
}
