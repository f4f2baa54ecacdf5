//! Changes of groups that figures are about.

use pg_group::Update;
use pg_term::{Pid, Term};

/// What is done to a group.
#[derive(Clone, Copy)]
pub enum Change {
    /// It is created.
    Create,
    /// A process joins it.
    Join,
    /// A process leaves it.
    Leave,
}

impl Change {
    /// What the figures are headed by.
    pub fn name(self) -> &'static str {
        match self {
            Change::Create => "create",
            Change::Join => "join",
            Change::Leave => "leave",
        }
    }

    /// The update that does it, of this group, with this process where one is needed.
    pub fn update(self, group: Term, process: Pid) -> Update {
        match self {
            Change::Create => Update::Create(group),
            Change::Join => Update::Join(group, process),
            Change::Leave => Update::Leave(group, process),
        }
    }
}

/// Which groups are changed by several changes, or by several who make them.
#[derive(Clone, Copy)]
pub enum Groups {
    /// All change one.
    One,
    /// Each changes its own.
    Own,
}

impl Groups {
    /// The groups that a word names: `own`, or all one.
    pub fn of(word: &str) -> Groups {
        match word {
            "own" => Groups::Own,
            _ => Groups::One,
        }
    }

    /// What the figures are headed by.
    pub fn name(self) -> &'static str {
        match self {
            Groups::One => "calls of b, all of one group",
            Groups::Own => "calls of b, each of a group of its own",
        }
    }

    /// The group of this change, by its number.
    pub fn group(self, number: u32) -> Term {
        match self {
            Groups::One => Term::Int(0),
            Groups::Own => Term::Int(i64::from(number)),
        }
    }
}
