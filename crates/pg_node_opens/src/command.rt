ghost use Rattle.std.specs.Prelude.{◌≡◌, ◌<◌, false, true, length, get_or, IfOk, IfSome, IfNone, slice_get};
ghost use Rattle.std.specs.List.{list_any};
ghost use Rattle.pg_step.specs.Attempts.{same_op};
ghost use Rattle.pg_node_opens.specs.declared.mark.Mark.TheVariants.{Unasked};
ghost use Rattle.pg_node_opens.specs.Commands.{has_in};

use crate::mark::{Asked, Wanted};
use crate::marks::Marks;
use crate::outlook::Outlook;
use pg_step::{Attempt, OpId, Taken, Update};
use std::alloc::{AllocError, Global};

/// The stage of an open command with what is kept beside: who was asked first, and the lock of an update.
#[derive(Clone, Copy, Debug, PartialEq, Eq)]
pub enum Phase {
    /// It waits for its retry.
    Waiting,
    /// It asks for the lock under the first, and asked the node at that place first and alone.
    Asking(u32, usize),
    /// It holds the lock of the first, while its update goes out under the second.
    Changing(u32, u32),
}

/// An open command.
#[derive(Debug, Drop)]
pub struct OpenCommand {
    pub op: OpId,
    pub update: Update,
    pub phase: Phase,
    // What has come of each node, by the places of the nodes: of the lock or of the update, whichever it asks for.
    pub marks: Marks,
}

/// What an open command gathers under a reference.
#[derive(Clone, Copy, Debug, PartialEq, Eq)]
pub enum Gathering {
    /// Nothing: no open command gathers for it.
    Nothing,
    /// The answers to the request of this command for the lock.
    Lock(OpId),
    /// The replies to the update of this command, under the lock of the reference of that number.
    Update(OpId, u32),
}

/// The stage of a command, as a caller sees it.
#[derive(Clone, Copy, Debug, PartialEq, Eq)]
pub enum Stage {
    /// It is not open.
    Closed,
    /// It waits for its retry.
    Waiting,
    /// It asks for the lock, under the reference of this number.
    Asking(u32),
    /// Its update goes out, under the reference of this number.
    Changing(u32),
}

impl Stage {
    ghost use Rattle.pg_node_opens.specs.Readings.{is_closed};

    /// Whether the command is not open.
    ///
    /// Cost: no memory.
    pub fn is_closed(self) -> bool
        ensures { result ≡ is_closed self }
    {
        match self {
            Stage::Closed => true,
            Stage::Waiting | Stage::Asking(_) | Stage::Changing(_) => false,
        }
    }
}

impl Gathering {
    ghost use Rattle.pg_node_opens.specs.Readings.{is_lock, is_update};

    /// Whether answers to a request for the lock are gathered.
    ///
    /// Cost: no memory.
    pub fn is_lock(self) -> bool
        ensures { result ≡ is_lock self }
    {
        match self {
            Gathering::Lock(_) => true,
            Gathering::Nothing | Gathering::Update(_, _) => false,
        }
    }

    /// Whether replies to an update are gathered.
    ///
    /// Cost: no memory.
    pub fn is_update(self) -> bool
        ensures { result ≡ is_update self }
    {
        match self {
            Gathering::Update(_, _) => true,
            Gathering::Nothing | Gathering::Lock(_) => false,
        }
    }
}

impl OpenCommand {
    ghost use Rattle.std.specs.Prelude.{ℕ, slice_set};
    ghost use Rattle.pg_node_opens.specs.declared.mark.Mark.TheVariants.{Yes, Asked as AskedYet};
    ghost use Rattle.pg_node_opens.specs.declared.command.Phase.TheVariants.{Waiting, Asking, Changing};
    ghost use Rattle.pg_node_opens.specs.Marks.{first_mark, mark_at, asked_in, has_yes, verdict_mark};
    ghost use Rattle.pg_node_opens.specs.Commands.{Turns, Forgets, first_in};
    ghost use Rattle.pg_node_opens.specs.Readings.{gathering_in, stage_seen_in, heard_in};
    ghost use Rattle.pg_node_opens.specs.Readings.{complete_in, update_in, waiting_in, gathers_in};
    ghost use Rattle.std.specs.Option.{option_copied};
    ghost use Rattle.pg_node_opens.specs.Outlooks.{outlook_in, round_in};

    /// An equal command.
    ///
    /// Errors: `AllocError`.
    pub fn copy(&self, alloc: Global) -> Result<OpenCommand, AllocError>
        ensures { IfOk result (λ copy. copy ≡ self.now) }
    {
        Ok(OpenCommand {
            op: self.op,
            update: self.update.copy(alloc)?,
            phase: self.phase,
            marks: self.marks.copy(),
        })
    }

    /// Whether it has a reference.
    fn has(&self, number: u32) -> bool
        ensures { result ≡ has_in self.now.phase number }
    {
        match self.phase {
            Phase::Waiting => false,
            Phase::Asking(lock, _) => lock == number,
            Phase::Changing(lock, update) => update == number || lock == number,
        }
    }

    /// Whether it is this command.
    pub fn is(&self, op: OpId) -> bool
        ensures { result ≡ same_op self.now.op op }
    {
        self.op.port == op.port && self.op.number == op.number
    }

    pub fn gathering(&self, number: u32) -> Gathering
        ensures { result ≡ gathering_in self.now.op self.now.phase number }
    {
        match self.phase {
            Phase::Waiting => Gathering::Nothing,
            Phase::Asking(lock, _) => {
                if lock == number {
                    Gathering::Lock(self.op)
                } else {
                    Gathering::Nothing
                }
            }
            Phase::Changing(lock, update) => {
                if update == number {
                    Gathering::Update(self.op, lock)
                } else {
                    Gathering::Nothing
                }
            }
        }
    }

    pub fn stage(&self) -> Stage
        ensures { result ≡ stage_seen_in self.now.phase }
    {
        match self.phase {
            Phase::Waiting => Stage::Waiting,
            Phase::Asking(lock, _) => Stage::Asking(lock),
            Phase::Changing(_, update) => Stage::Changing(update),
        }
    }

    /// Its update, where it gathers under a reference.
    pub fn update_under(&self, number: u32) -> Option<&Update>
        ensures { option_copied result ≡ update_in self.now.update self.now.phase number }
    {
        if self.gathers(number) {
            Some(&self.update)
        } else {
            None
        }
    }

    fn gathers(&self, number: u32) -> bool
        ensures { result ≡ gathers_in self.now.phase number }
    {
        match self.phase {
            Phase::Waiting => false,
            Phase::Asking(lock, _) => lock == number,
            Phase::Changing(_, update) => update == number,
        }
    }

    /// Its update, where it waits for its retry.
    pub fn waiting_update(&self) -> Option<&Update>
        ensures { option_copied result ≡ waiting_in self.now.update self.now.phase }
    {
        if self.phase == Phase::Waiting {
            Some(&self.update)
        } else {
            None
        }
    }

    /// Whether the node at a place has granted the lock, or applied the update.
    pub fn has_yes(&self, place: usize) -> bool
        requires { place < length self.now.marks }
        ensures { result ≡ has_yes (get_or self.now.marks place Unasked) }
    {
        self.marks.at(place).is_yes()
    }

    /// A new attempt: nobody was asked.
    pub fn start(&mut self, lock: u32, first: usize)
        ensures turns { Turns self.old self.new (Asking lock first) }
        ensures marks { (place : ℕ) → place < length self.old.marks → get_or self.new.marks place Unasked ≡ first_mark Unasked place }
    {
        self.phase = Phase::Asking(lock, first);
        self.marks = Marks::none(self.marks.len());
    }

    /// Asks these nodes for the lock.
    pub fn ask(&mut self, lost: &[bool], who: Asked, granted: bool)
        requires { length lost.now ≡ length self.old.marks }
        ensures turns { Turns self.old self.new self.old.phase }
        ensures marks { (place : ℕ) → place < length self.old.marks
            → get_or self.new.marks place Unasked
            ≡ mark_at (get_or self.old.marks place Unasked) (get_or lost.now place false) who place granted }
    {
        self.marks.ask(lost, who, granted);
    }

    /// Whether the node at a place is asked for the lock, where these are.
    pub fn is_asked_by(&self, lost: &[bool], who: Asked, place: usize) -> bool
        requires place { place < length self.now.marks }
        requires flags { length lost.now ≡ length self.now.marks }
        ensures { result ≡ asked_in (get_or self.now.marks place Unasked) (get_or lost.now place false) who place }
    {
        self.marks.is_asked_by(lost[place], who, place)
    }

    /// The answer of the node at a place is counted.
    pub fn count(&mut self, place: usize, granted: bool)
        requires { place < length self.old.marks }
        ensures turns { Turns self.old self.new self.old.phase }
        ensures marks { self.new.marks ≡ slice_set self.old.marks place (verdict_mark granted) }
    {
        self.marks.count(place, granted);
    }

    /// The answer of the node at a place is taken back.
    pub fn take_back(&mut self, place: usize)
        requires { place < length self.old.marks }
        ensures turns { Turns self.old self.new self.old.phase }
        ensures marks { self.new.marks ≡ slice_set self.old.marks place AskedYet }
    {
        self.marks.ask_one(place);
    }

    /// The node at a place is forgotten.
    pub fn forget(&mut self, place: usize)
        requires { place < length self.old.marks }
        ensures { Forgets place self.old self.new }
    {
        self.marks.forget(place);
    }

    /// Its update goes out: the own node has applied it.
    pub fn begin(&mut self, lock: u32, update: u32)
        ensures turns { Turns self.old self.new (Changing lock update) }
        ensures marks { (place : ℕ) → place < length self.old.marks → get_or self.new.marks place Unasked ≡ first_mark Yes place }
    {
        self.phase = Phase::Changing(lock, update);
        self.marks = Marks::of_own(self.marks.len());
    }

    /// It waits for its retry.
    pub fn wait(&mut self)
        ensures { Turns self.old self.new Waiting }
    {
        self.phase = Phase::Waiting;
    }

    /// Whether all has come that it gathers under a reference.
    pub fn is_complete(&self, lost: &[bool], number: u32) -> bool
        requires { length lost.now ≡ length self.now.marks }
        ensures { result ≡ complete_in self.now.phase self.now.marks lost.now number }
    {
        let marks = &self.marks;
        match self.phase {
            Phase::Waiting => false,
            Phase::Asking(lock, _) => {
                lock == number && marks.all_pass(lost, Wanted::Answered, Asked::Nobody, false)
            }
            Phase::Changing(_, update) => {
                update == number && marks.all_pass(lost, Wanted::Granted, Asked::Nobody, false)
            }
        }
    }

    /// What follows for its request for the lock. `granted`: what the own node would answer.
    pub fn outlook(&self, lost: &[bool], granted: bool) -> Outlook
        requires flags { length lost.now ≡ length self.now.marks }
        requires first { first_in self.now.phase < length self.now.marks }
        ensures { result ≡ outlook_in self.now.phase self.now.marks lost.now granted }
    {
        let Phase::Asking(_, first) = self.phase else {
            return Outlook::Wait;
        };
        let marks = &self.marks;
        let answered = marks.all_pass(lost, Wanted::Answered, Asked::Nobody, granted);
        let none_denied = marks.all_pass(lost, Wanted::NotDenied, Asked::Nobody, granted);
        // In both rounds the command waits exactly where one has denied.
        let waits = self.round(first).after_round(none_denied).waits();
        let all_granted = marks.all_pass(lost, Wanted::Granted, Asked::All, granted);
        let none_missing = marks.all_pass(lost, Wanted::Answered, Asked::All, granted);
        Outlook::of(answered, !waits, all_granted, none_missing)
    }

    /// The round of its request for the lock: the rest is asked once the one that was asked first has granted.
    fn round(&self, first: usize) -> Attempt
        requires { first < length self.now.marks }
        ensures { result ≡ round_in self.now.marks first }
    {
        if self.has_yes(first) {
            Attempt::AskingRest
        } else {
            Attempt::AskingFirst
        }
    }

    /// What a reply under a reference is to it, by the place of the node.
    pub fn heard(&self, number: u32, place: usize) -> Taken
        requires { place < length self.now.marks }
        ensures { result ≡ heard_in self.now.phase (get_or self.now.marks place Unasked) place number }
    {
        match self.phase {
            Phase::Waiting => Taken::Stranger,
            Phase::Asking(lock, first) => {
                if lock == number {
                    self.marks.heard(place, first == place)
                } else {
                    Taken::Stranger
                }
            }
            Phase::Changing(_, update) => {
                if update != number {
                    Taken::Stranger
                } else if self.has_yes(place) {
                    Taken::Double
                } else {
                    Taken::Counted
                }
            }
        }
    }
}

/// Where the command is that has a reference. `recent`: the place that is looked at first.
pub fn place_of(commands: &[OpenCommand], recent: usize, number: u32) -> Option<usize>
    ensures none { IfNone result (list_any (λ command. has_in command.phase number) commands.now ≡ false) }
    ensures within { IfSome result (λ place. place < length commands.now) }
    ensures some { IfSome result (λ place. IfSome (slice_get commands.now place) (λ command. has_in command.phase number ≡ true)) }
{
    if recent < commands.len() && commands[recent].has(number) {
        return Some(recent);
    }
    for (place, command) in commands.iter().enumerate() {
        if command.has(number) {
            return Some(place);
        }
    }
    None
}

/// Where a command is. `recent`: the place that is looked at first.
pub fn place_of_op(commands: &[OpenCommand], recent: usize, op: OpId) -> Option<usize>
    ensures none { IfNone result (list_any (λ command. same_op command.op op) commands.now ≡ false) }
    ensures within { IfSome result (λ place. place < length commands.now) }
    ensures some { IfSome result (λ place. IfSome (slice_get commands.now place) (λ command. same_op command.op op ≡ true)) }
{
    if recent < commands.len() && commands[recent].is(op) {
        return Some(recent);
    }
    for (place, command) in commands.iter().enumerate() {
        if command.is(op) {
            return Some(place);
        }
    }
    None
}
