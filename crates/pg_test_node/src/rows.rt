//! Tables of what nodes are told, and of what is seen at them. Each event is told to two nodes that are the same; where it is refused for
//! memory its node is as it was, and the event is told again.

use crate::nodes::{Kind, Sight, State, either, made, sees};
use crate::texts::has_answered;
use crate::told::{Did, Event, NOTHING, happens};
use pg_node::{NodeFault, Odd, Refusal, Said};
use std::alloc::{AllocError, Global};
use std::mem;
use std::process::Abort;

/// A row of a table.
#[derive(Clone, Copy)]
pub enum Row<'a> {
    /// The event happens at both nodes, which are the same then.
    Told(Event<'a>),
    /// A command comes in at the port, as a line of a script, and is answered at once, as a line.
    Asked(&'a str, &'a str),
    /// The event happens so many times.
    Often(u32, Event<'a>),
    /// So many groups of different names are to be created.
    Creates(u32),
    /// The event is refused, whatever memory there is, and changes nothing.
    Refused(Event<'a>, Refusal),
    /// So many answers of the port are forgotten, and how many are kept and were forgotten then.
    Forgets(usize, usize, u64),
    /// The event happens at the first node alone, or at the other, and whether both are the same then, and but for their clocks.
    Alone(bool, Event<'a>, bool, bool),
    /// What the last event did.
    Did(Deed),
    /// The last answer of the port, as a line.
    Answered(&'a str),
    /// What is seen at the nodes.
    Seen(Sight<'a>),
}

/// A row, and others of what it did and left.
pub type Turn<'a> = &'a [Row<'a>];

/// What an event did.
#[derive(Clone, Copy)]
pub enum Deed {
    /// So many packets are sent.
    Sends(usize),
    /// One packet is sent, to this peer.
    SendsTo(usize),
    /// The first peer is replied to so, and nothing else is sent.
    Replies(Said),
    /// Whether the first packet asks for the lock.
    AsksLock(bool),
    /// The first packet is a call, of another number than this.
    CallsBut(u32),
    /// Whether a command got its last grant.
    Began(bool),
    /// A reply that completed nothing.
    Odd(Option<Odd>),
}

// Two nodes, the same but while an event is under way; after each event the other is a copy of the first.
#[derive(Drop)]
struct Twins {
    one: State,
    other: State,
    // What the last event did.
    did: Did,
}

// The command that creates the group of a number.
fn create_line(rt: &impl Abort, alloc: Global, number: u32) -> String {
    let line = format!(in alloc; "create a {number}");
    either(rt, line, format!(in alloc; "create a {number}"))
}

// Whether so many answers are kept, and so many were forgotten, once so many are forgotten.
fn has_forgotten(node: &mut State, count: usize, kept: usize, forgotten: u64) -> bool {
    if node.port_count() != 1 {
        return false;
    }
    node.forget_answers(0, count);
    node.port_count() == 1 && node.answers(0).len() == kept && node.forgotten(0) == forgotten
}

// How many answers of its one port were forgotten.
fn forgotten_at(node: &State) -> u64 {
    if node.port_count() == 1 {
        node.forgotten(0)
    } else {
        0
    }
}

impl Twins {
    fn are_same(&self) -> bool {
        match self.one.same(&self.other) {
            Ok(same) => same,
            Err(AllocError) => self.one.same(&self.other) == Ok(true),
        }
    }

    // Whether both are the same but for their clocks.
    fn are_alike(&self) -> bool {
        match self.one.is_alike(&self.other) {
            Ok(alike) => alike,
            Err(AllocError) => self.one.is_alike(&self.other) == Ok(true),
        }
    }

    // What the event does at the first, which is told it a second time where memory was refused and it is as it was.
    fn tell_one(&mut self, alloc: Global, event: Event<'_>) -> Result<Did, NodeFault> {
        match happens(alloc, &mut self.one, event) {
            Err(NodeFault::OutOfMemory) if self.are_same() => {
                happens(alloc, &mut self.one, event)
            }
            told => told,
        }
    }

    fn tell_other(&mut self, alloc: Global, event: Event<'_>) -> Result<Did, NodeFault> {
        match happens(alloc, &mut self.other, event) {
            Err(NodeFault::OutOfMemory) => happens(alloc, &mut self.other, event),
            told => told,
        }
    }

    // Whether the event happens at both so many times, and both are the same each time. Then the other is a copy of the first.
    fn tell(&mut self, rt: &impl Abort, alloc: Global, times: u32, event: Event<'_>) -> bool {
        for _ in 0..times {
            match (self.tell_one(alloc, event), self.tell_other(alloc, event)) {
                (Ok(did), Ok(_)) => self.did = did,
                _ => return false,
            }
            if !self.are_same() {
                return false;
            }
            let copy = either(rt, self.one.copy(), self.one.copy());
            drop(mem::replace(&mut self.other, copy));
        }
        true
    }

    // Whether both take the commands that create so many groups of different names.
    fn create(&mut self, rt: &impl Abort, alloc: Global, count: u32) -> bool {
        let mut are_told = true;
        for number in 0..count {
            let line = create_line(rt, alloc, number.saturating_add(1));
            are_told = self.tell(rt, alloc, 1, Event::Command(line.as_str())) && are_told;
            drop(line);
        }
        are_told
    }

    // Whether the event is refused so at both, which are the same then. It is told once: no refusal needs memory.
    fn refuse(&mut self, alloc: Global, event: Event<'_>, refusal: Refusal) -> bool {
        let wanted = Some(NodeFault::Refused(refusal));
        happens(alloc, &mut self.one, event).err() == wanted
            && happens(alloc, &mut self.other, event).err() == wanted
            && self.are_same()
    }

    // Whether so many answers are kept once so many were forgotten at both, which are the same but while one has forgotten more; and
    // how many were forgotten so far, at a copy too.
    fn forget(&mut self, rt: &impl Abort, count: usize, kept: usize, forgotten: u64) -> bool {
        let is_copied = has_forgotten(&mut self.one, count, kept, forgotten)
            && self.are_same() == (forgotten_at(&self.other) == forgotten)
            && has_forgotten(&mut self.other, count, kept, forgotten)
            && self.are_same();
        let mut copy = either(rt, self.one.copy(), self.one.copy());
        let is_same = has_forgotten(&mut copy, 0, kept, forgotten);
        drop(copy);
        is_copied && is_same
    }

    // Whether the event happens at one of them alone.
    fn tells_alone(&mut self, alloc: Global, is_first: bool, event: Event<'_>) -> bool {
        if is_first {
            self.tell_one(alloc, event).is_ok()
        } else {
            self.tell_other(alloc, event).is_ok()
        }
    }

    fn has_done(&self, deed: Deed) -> bool {
        let did = self.did;
        match deed {
            Deed::Sends(count) => did.sends == count,
            Deed::SendsTo(peer) => did.sends == 1 && did.peer == peer,
            Deed::Replies(said) => did.sends == 1 && did.peer == 0 && did.said == Some(said),
            Deed::AsksLock(asks) => did.asks_lock == asks,
            Deed::CallsBut(number) => did.call != 0 && did.call != number,
            Deed::Began(began) => did.began == began,
            Deed::Odd(odd) => did.odd == odd,
        }
    }

    // Whether the row holds.
    fn holds(&mut self, rt: &impl Abort, alloc: Global, row: &Row<'_>) -> bool {
        match row {
            Row::Told(event) => self.tell(rt, alloc, 1, *event),
            Row::Often(times, event) => self.tell(rt, alloc, *times, *event),
            Row::Creates(count) => self.create(rt, alloc, *count),
            Row::Asked(line, answer) => {
                self.tell(rt, alloc, 1, Event::Command(line))
                    && has_answered(alloc, &self.one, answer)
            }
            Row::Refused(event, refusal) => self.refuse(alloc, *event, *refusal),
            Row::Forgets(count, kept, forgotten) => self.forget(rt, *count, *kept, *forgotten),
            Row::Alone(is_first, event, same, alike) => {
                self.tells_alone(alloc, *is_first, *event)
                    && self.are_same() == *same
                    && self.are_alike() == *alike
            }
            Row::Did(deed) => self.has_done(*deed),
            Row::Answered(line) => has_answered(alloc, &self.one, line),
            Row::Seen(sight) => sees(alloc, &self.one, *sight),
        }
    }
}

/// Each row of a table holds.
pub fn check(rt: &impl Abort, alloc: Global, of: &str, kind: Kind, turns: &[Turn<'_>]) {
    let mut twins = Twins {
        one: made(rt, alloc, kind),
        other: made(rt, alloc, kind),
        did: NOTHING,
    };
    for (place, turn) in turns.iter().enumerate() {
        for row in *turn {
            assert!(rt; twins.holds(rt, alloc, row), "{of} {place}");
        }
    }
    drop(twins);
}
