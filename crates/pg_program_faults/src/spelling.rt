//! Where a term, a name, a pid or a number can no more be one, and what was wanted there.

use crate::forms::Kind;
use std::alloc::Global;

/// How many levels deep a term nests at most.
const MAX_DEPTH: usize = 64;

/// How many characters an atom has at most.
const MAX_ATOM: usize = 255;

/// What a value stands within.
#[derive(Clone, Copy)]
enum Inside {
    Tuple,
    List,
    Binary,
    /// A pid, behind so many of its numbers.
    Pid(u8),
    /// A reference, behind so many of its numbers.
    Reference(u8),
}

/// What a walk over a spelling is at.
#[derive(Clone, Copy)]
enum State {
    /// A value begins.
    Value,
    /// A value begins, or a bracket closes.
    First,
    /// A bare or quoted atom begins.
    Atom,
    /// A pid begins.
    Pid,
    /// Digits begin, of a number of at most so much.
    Digits(u64),
    /// A digit from 1 to 9, behind a minus.
    Minus,
    /// Digits go on: their value, and the most that they may come to.
    Number(u64, u64),
    /// Nothing but 0.
    Zero,
    /// The characters of a bare atom: how many.
    Word(usize),
    /// Within quotes: how many characters, and whether the atom could stand bare.
    Quoted(usize, bool),
    /// Behind a backslash.
    Escape(usize),
    /// Behind `\x`.
    Opening(usize),
    /// Within the braces of an escape.
    Hex(usize),
    /// Behind `<`, which begins a pid or a binary.
    Angle,
    /// Behind `#`.
    Hash,
    /// The second `>` of a binary.
    Closing,
    /// Behind a value.
    Ended,
}

/// A walk over a spelling.
#[derive(Drop)]
pub(crate) struct Walk {
    state: State,
    inside: Vec<Inside>,
}

const LARGEST: u64 = u64::MAX >> 1;

const LARGEST_PART: u64 = 4_294_967_295;

const TERM: &str = "a term";

const DIGIT: &str = "a digit";

const NODE: &str = "an atom, as a or 'my node'";

const PID: &str = "a pid, as <a.1.0>";

const CHARACTER: &str = "a character or a single quote";

const ESCAPE: &str = "\\', \\\\ or \\x{H}";

const SHORT: &str = "an atom of at most 255 characters";

impl Walk {
    /// Before the first character of such a part.
    pub(crate) fn new(alloc: Global, kind: Kind) -> Walk {
        let state = match kind {
            Kind::Node => State::Atom,
            Kind::Term | Kind::Made => State::Value,
            Kind::Pid => State::Pid,
            Kind::Number => State::Digits(LARGEST_PART),
        };
        Walk {
            state,
            inside: Vec::new(alloc),
        }
    }

    /// Takes one character more; what was wanted, where it can't be there.
    pub(crate) fn take(&mut self, character: char) -> Option<&'static str> {
        match self.state {
            State::Value => self.begin(character, TERM),
            State::First => self.begin_or_close(character),
            State::Atom => self.begin_atom(character, NODE),
            State::Pid => self.begin_pid(character),
            State::Digits(most) => self.begin_number(character, most, DIGIT),
            State::Minus => self.begin_negative(character),
            State::Number(value, most) => self.go_on(character, value, most),
            State::Zero => self.behind_zero(character),
            State::Word(count) => self.more_of_word(character, count),
            State::Quoted(count, is_bare) => self.quoted(character, count, is_bare),
            State::Escape(count) => self.escape(character, count),
            State::Opening(count) => self.open(character, count),
            State::Hex(count) => self.hex(character, count),
            State::Angle => self.behind_angle(character),
            State::Hash => self.behind_hash(character),
            State::Closing => self.close_binary(character),
            State::Ended => self.behind(character),
        }
    }

    /// What is wanted where the part ends here; nothing where it may.
    pub(crate) fn end(&self) -> Option<&'static str> {
        match self.state {
            State::Value | State::First => Some(TERM),
            State::Atom | State::Hash => Some(NODE),
            State::Pid => Some(PID),
            State::Digits(_) | State::Minus => Some(DIGIT),
            State::Quoted(_, _) => Some("a single quote that ends the atom"),
            State::Escape(_) | State::Opening(_) | State::Hex(_) => Some(ESCAPE),
            State::Angle => Some("a node of a pid, or < of a binary"),
            State::Closing => Some(">"),
            State::Number(_, _) | State::Zero | State::Word(_) | State::Ended => {
                self.wanted_behind()
            }
        }
    }

    /// What is wanted behind a value, where the part can't end there.
    fn wanted_behind(&self) -> Option<&'static str> {
        match self.inside.last() {
            Some(inside) => Some(wanted_in(*inside)),
            None => None,
        }
    }

    fn goes(&mut self, state: State) -> Option<&'static str> {
        self.state = state;
        None
    }

    /// Goes one level deeper.
    fn enters(&mut self, inside: Inside, state: State) -> Option<&'static str> {
        if self.inside.len() >= MAX_DEPTH {
            return Some("at most 64 levels");
        }
        let _ = self.inside.push(inside);
        self.goes(state)
    }

    /// Goes one level up.
    fn leaves(&mut self) -> Option<&'static str> {
        let _ = self.inside.pop();
        self.goes(State::Ended)
    }

    /// Stands within something else from now on.
    fn turns(&mut self, inside: Inside, state: State) -> Option<&'static str> {
        let _ = self.inside.pop();
        let _ = self.inside.push(inside);
        self.goes(state)
    }

    fn begin(&mut self, character: char, wanted: &'static str) -> Option<&'static str> {
        match character {
            '{' => self.enters(Inside::Tuple, State::First),
            '[' => self.enters(Inside::List, State::First),
            '<' => self.goes(State::Angle),
            '#' => self.goes(State::Hash),
            '-' => self.goes(State::Minus),
            '0'..='9' => self.begin_number(character, LARGEST, wanted),
            _ => self.begin_atom(character, wanted),
        }
    }

    fn begin_or_close(&mut self, character: char) -> Option<&'static str> {
        match (self.inside.last(), character) {
            (Some(Inside::Tuple), '}') | (Some(Inside::List), ']') => self.leaves(),
            (Some(Inside::Binary), '>') => self.goes(State::Closing),
            (Some(Inside::Binary), _) => self.begin_number(character, 255, "a byte or >>"),
            _ => self.begin(character, "a term or the closing bracket"),
        }
    }

    fn begin_atom(&mut self, character: char, wanted: &'static str) -> Option<&'static str> {
        match character {
            'a'..='z' => self.goes(State::Word(1)),
            '\'' => self.goes(State::Quoted(0, true)),
            _ => Some(wanted),
        }
    }

    fn begin_pid(&mut self, character: char) -> Option<&'static str> {
        if character == '<' {
            return self.enters(Inside::Pid(0), State::Atom);
        }
        Some(PID)
    }

    fn begin_number(
        &mut self,
        character: char,
        most: u64,
        wanted: &'static str,
    ) -> Option<&'static str> {
        match character.to_digit(10) {
            Some(0) => self.goes(State::Zero),
            Some(digit) => self.goes(State::Number(u64::from(digit), most)),
            None => Some(wanted),
        }
    }

    fn begin_negative(&mut self, character: char) -> Option<&'static str> {
        match character.to_digit(10) {
            Some(0) | None => Some("a digit from 1 to 9"),
            Some(digit) => self.goes(State::Number(u64::from(digit), LARGEST + 1)),
        }
    }

    fn go_on(&mut self, character: char, value: u64, most: u64) -> Option<&'static str> {
        match character.to_digit(10) {
            Some(digit) => {
                let value = value.saturating_mul(10).saturating_add(u64::from(digit));
                if value > most {
                    return Some(too_large(most));
                }
                self.goes(State::Number(value, most))
            }
            None => self.behind(character),
        }
    }

    fn behind_zero(&mut self, character: char) -> Option<&'static str> {
        if character.is_ascii_digit() {
            return Some("a number without a leading zero");
        }
        self.behind(character)
    }

    fn more_of_word(&mut self, character: char, count: usize) -> Option<&'static str> {
        if is_word(character) {
            if count >= MAX_ATOM {
                return Some(SHORT);
            }
            return self.goes(State::Word(count.saturating_add(1)));
        }
        self.behind(character)
    }

    fn quoted(&mut self, character: char, count: usize, is_bare: bool) -> Option<&'static str> {
        if character == '\'' {
            if is_bare && count > 0 {
                return Some("an atom without quotes, which it does not need");
            }
            return self.goes(State::Ended);
        }
        if character == '\\' {
            return self.goes(State::Escape(count));
        }
        if character.is_ascii_control() {
            return Some(CHARACTER);
        }
        let is_bare = is_bare
            && if count == 0 {
                character.is_ascii_lowercase()
            } else {
                is_word(character)
            };
        self.counted(count, is_bare)
    }

    /// One character more within quotes.
    fn counted(&mut self, count: usize, is_bare: bool) -> Option<&'static str> {
        if count >= MAX_ATOM {
            return Some(SHORT);
        }
        self.goes(State::Quoted(count.saturating_add(1), is_bare))
    }

    fn escape(&mut self, character: char, count: usize) -> Option<&'static str> {
        match character {
            '\'' | '\\' => self.counted(count, false),
            'x' => self.goes(State::Opening(count)),
            _ => Some(ESCAPE),
        }
    }

    fn open(&mut self, character: char, count: usize) -> Option<&'static str> {
        if character == '{' {
            return self.goes(State::Hex(count));
        }
        Some(ESCAPE)
    }

    fn hex(&mut self, character: char, count: usize) -> Option<&'static str> {
        match character {
            '}' => self.counted(count, false),
            '0'..='9' | 'a'..='f' => None,
            _ => Some("a digit from 0 to 9 or a to f, or }"),
        }
    }

    fn behind_angle(&mut self, character: char) -> Option<&'static str> {
        if character == '<' {
            return self.enters(Inside::Binary, State::First);
        }
        match self.enters(Inside::Pid(0), State::Atom) {
            None => self.begin_atom(character, "a node of a pid, or < of a binary"),
            deep => deep,
        }
    }

    fn behind_hash(&mut self, character: char) -> Option<&'static str> {
        if character == '<' {
            return self.enters(Inside::Reference(0), State::Atom);
        }
        Some("<")
    }

    fn close_binary(&mut self, character: char) -> Option<&'static str> {
        if character == '>' {
            return self.leaves();
        }
        Some(">")
    }

    /// A character behind a value.
    fn behind(&mut self, character: char) -> Option<&'static str> {
        let Some(inside) = self.inside.last().copied() else {
            return Some("the end of the part");
        };
        match (inside, character) {
            (Inside::Tuple, ',') | (Inside::List, ',') => self.goes(State::Value),
            (Inside::Tuple, '}') | (Inside::List, ']') => self.leaves(),
            (Inside::Binary, ',') => self.goes(State::Digits(255)),
            (Inside::Binary, '>') => self.goes(State::Closing),
            (Inside::Pid(_), _) | (Inside::Reference(_), _) => self.part(inside, character),
            _ => Some(wanted_in(inside)),
        }
    }

    /// A character behind a part of a pid or a reference.
    fn part(&mut self, inside: Inside, character: char) -> Option<&'static str> {
        let digits = State::Digits(LARGEST_PART);
        match (inside, character) {
            (Inside::Pid(0), '.') => self.turns(Inside::Pid(1), digits),
            (Inside::Pid(1), '.') => self.turns(Inside::Pid(2), digits),
            (Inside::Pid(2), '/') => self.turns(Inside::Pid(3), digits),
            (Inside::Pid(2), '>') | (Inside::Pid(3), '>') => self.leaves(),
            (Inside::Reference(0), '/') => self.turns(Inside::Reference(1), digits),
            (Inside::Reference(1), '.') => self.turns(Inside::Reference(2), digits),
            (Inside::Reference(2), '.') => self.turns(Inside::Reference(3), digits),
            (Inside::Reference(3), '.') => self.turns(Inside::Reference(4), digits),
            (Inside::Reference(2), '>')
            | (Inside::Reference(3), '>')
            | (Inside::Reference(4), '>') => self.leaves(),
            _ => Some(wanted_in(inside)),
        }
    }
}

/// A character of a bare atom.
fn is_word(character: char) -> bool {
    character.is_ascii_alphanumeric() || character == '_' || character == '@'
}

/// What is wanted behind a value that stands there.
fn wanted_in(inside: Inside) -> &'static str {
    match inside {
        Inside::Tuple => "a comma or }",
        Inside::List => "a comma or ]",
        Inside::Binary => "a comma or >>",
        Inside::Pid(0) | Inside::Pid(1) => "a dot and a number of the pid",
        Inside::Pid(2) => "> or a slash and the creation of the pid",
        Inside::Pid(_) => "> of the pid",
        Inside::Reference(0) => "a slash and the creation of the reference",
        Inside::Reference(1) => "a dot and a number of the reference",
        Inside::Reference(_) => "a dot and a number of the reference, or >",
    }
}

/// A number is above what it may be.
fn too_large(most: u64) -> &'static str {
    if most == 255 {
        "a number of at most 255"
    } else if most == LARGEST_PART {
        "a number of at most 4294967295"
    } else {
        "a number of 64 bits"
    }
}
