//! The forms of a script's lines, as they are explained. `pg_script_lines` reads them.

/// What a part of a line is.
#[derive(Clone, Copy, Debug, PartialEq, Eq)]
pub(crate) enum Kind {
    /// The name of a node, an atom.
    Node,
    /// The name of a group, a term.
    Term,
    Pid,
    /// A number of 32 bits.
    Number,
    /// The word `made`.
    Made,
}

/// A line's form.
#[derive(Clone, Copy, Debug)]
pub(crate) struct Form {
    pub(crate) word: &'static str,
    /// How it is written.
    pub(crate) usage: &'static str,
    /// What its parts are; the last one is that of all that follow, too.
    pub(crate) kinds: &'static [Kind],
    /// How many parts follow the word: so many, or so many.
    pub(crate) least: usize,
    pub(crate) most: usize,
    pub(crate) is_declaration: bool,
    /// Whether `explore` takes it.
    pub(crate) is_explored: bool,
}

/// A list of parts has no end.
pub(crate) const ANY: usize = usize::MAX;

const NUMBER: &[Kind] = &[Kind::Number];

const NAME: &[Kind] = &[Kind::Term];

const NODE: &[Kind] = &[Kind::Node];

const MADE: &[Kind] = &[Kind::Node, Kind::Made, Kind::Number];

const GROUP: &[Kind] = &[Kind::Node, Kind::Term];

const MEMBER: &[Kind] = &[Kind::Node, Kind::Term, Kind::Pid];

const CHOICE: &[Kind] = &[Kind::Node, Kind::Term, Kind::Number];

const PROCESS: &[Kind] = &[Kind::Node, Kind::Pid];

const COUNTED: &[Kind] = &[Kind::Node, Kind::Number];

const PAIR: &[Kind] = &[Kind::Node, Kind::Node];

const MOVED: &[Kind] = &[Kind::Node, Kind::Node, Kind::Number];

/// All forms.
pub(crate) const FORMS: &[Form] = &[
    Form {
        word: "ring",
        usage: "ring N",
        kinds: NUMBER,
        least: 1,
        most: 1,
        is_declaration: true,
        is_explored: false,
    },
    Form {
        word: "node",
        usage: "node NODE [made N]",
        kinds: MADE,
        least: 1,
        most: 3,
        is_declaration: true,
        is_explored: true,
    },
    Form {
        word: "has",
        usage: "has NODE TERM [PID ..]",
        kinds: MEMBER,
        least: 2,
        most: ANY,
        is_declaration: true,
        is_explored: true,
    },
    Form {
        word: "put",
        usage: "put A B [N]",
        kinds: MOVED,
        least: 2,
        most: 3,
        is_declaration: false,
        is_explored: false,
    },
    Form {
        word: "pull",
        usage: "pull B A [N]",
        kinds: MOVED,
        least: 2,
        most: 3,
        is_declaration: false,
        is_explored: false,
    },
    Form {
        word: "take",
        usage: "take B A",
        kinds: PAIR,
        least: 2,
        most: 2,
        is_declaration: false,
        is_explored: false,
    },
    Form {
        word: "settle",
        usage: "settle [N]",
        kinds: NUMBER,
        least: 0,
        most: 1,
        is_declaration: false,
        is_explored: false,
    },
    Form {
        word: "create",
        usage: "create A TERM",
        kinds: GROUP,
        least: 2,
        most: 2,
        is_declaration: false,
        is_explored: true,
    },
    Form {
        word: "delete",
        usage: "delete A TERM",
        kinds: GROUP,
        least: 2,
        most: 2,
        is_declaration: false,
        is_explored: true,
    },
    Form {
        word: "join",
        usage: "join A TERM PID",
        kinds: MEMBER,
        least: 3,
        most: 3,
        is_declaration: false,
        is_explored: true,
    },
    Form {
        word: "leave",
        usage: "leave A TERM PID",
        kinds: MEMBER,
        least: 3,
        most: 3,
        is_declaration: false,
        is_explored: true,
    },
    Form {
        word: "make",
        usage: "make A",
        kinds: NODE,
        least: 1,
        most: 1,
        is_declaration: false,
        is_explored: true,
    },
    Form {
        word: "end",
        usage: "end A PID",
        kinds: PROCESS,
        least: 2,
        most: 2,
        is_declaration: false,
        is_explored: true,
    },
    Form {
        word: "members",
        usage: "members A TERM",
        kinds: GROUP,
        least: 2,
        most: 2,
        is_declaration: false,
        is_explored: true,
    },
    Form {
        word: "local",
        usage: "local A TERM",
        kinds: GROUP,
        least: 2,
        most: 2,
        is_declaration: false,
        is_explored: true,
    },
    Form {
        word: "groups",
        usage: "groups A",
        kinds: NODE,
        least: 1,
        most: 1,
        is_declaration: false,
        is_explored: true,
    },
    Form {
        word: "closest",
        usage: "closest A TERM N",
        kinds: CHOICE,
        least: 3,
        most: 3,
        is_declaration: false,
        is_explored: true,
    },
    Form {
        word: "retry",
        usage: "retry A K",
        kinds: COUNTED,
        least: 2,
        most: 2,
        is_declaration: false,
        is_explored: false,
    },
    Form {
        word: "lose",
        usage: "lose A",
        kinds: NODE,
        least: 1,
        most: 1,
        is_declaration: false,
        is_explored: true,
    },
    Form {
        word: "seeloss",
        usage: "seeloss B A",
        kinds: PAIR,
        least: 2,
        most: 2,
        is_declaration: false,
        is_explored: false,
    },
    Form {
        word: "lock",
        usage: "lock A TERM",
        kinds: GROUP,
        least: 2,
        most: 2,
        is_declaration: false,
        is_explored: false,
    },
    Form {
        word: "outbox",
        usage: "outbox A B",
        kinds: PAIR,
        least: 2,
        most: 2,
        is_declaration: false,
        is_explored: false,
    },
    Form {
        word: "history",
        usage: "history TERM",
        kinds: NAME,
        least: 1,
        most: 1,
        is_declaration: false,
        is_explored: false,
    },
];

/// The form of the lines that begin with this word, if there is one.
pub(crate) fn form_of(word: &str) -> Option<&'static Form> {
    FORMS.iter().find(|form| form.word == word)
}

impl Form {
    /// Whether so many parts may follow the word.
    pub(crate) fn takes(&self, count: usize) -> bool {
        count == self.least || count == self.most || (self.most == ANY && count > self.least)
    }

    /// What the part at this place behind the word is, from 0 on.
    pub(crate) fn kind(&self, place: usize) -> Option<Kind> {
        match self.kinds.get(place) {
            Some(kind) => Some(*kind),
            None => self.kinds.last().copied(),
        }
    }
}
