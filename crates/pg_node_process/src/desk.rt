//! The requests of one port, of which one change at a time is with the node.

ghost use Rattle.std.specs.Prelude.{◌≤◌, length};

use pg_step::Command;
use std::alloc::{AllocError, Global};
use std::collections::VecDeque;

/// How many changes wait at a port at most.
pub const MAX_WAITING: usize = 1024;

/// A change, and its number among the requests of its port, from 1.
#[derive(Debug, Drop)]
pub struct Numbered {
    pub number: u64,
    pub command: Command,
}

/// What becomes of a change that comes in.
#[derive(Clone, Copy, Debug, PartialEq, Eq)]
pub enum Taken {
    /// It waits for its turn.
    Waits,
    /// As many wait as may: it is refused, under this number.
    Full(u64),
}

/// The requests of one port. A query is answered as it comes, and is only counted here. A change waits until those before it were
/// answered.
#[derive(Drop)]
pub struct Desk {
    // How many requests came.
    came: u64,
    // The changes that wait for their turn.
    waiting: VecDeque<Numbered>,
    // The change that is with the node.
    current: Option<Numbered>,
    ghost few: { length waiting.items ≤ 1024 },
}

impl Desk {
    ghost use Rattle.std.specs.Prelude.{◌≡◌, ◌≤◌, ◌⊎◌, ◌≢◌, ◌∷◌, [], None, true, false, IfOk, OnErr, OnOk, IsOk, IsTrue, length};
    ghost use Rattle.std.specs.Option.{option_map};
    ghost use Rattle.pg_node_process.specs.Desks.{Changing, Handed, HandsOver, HasRoom, Rests, TakesIn, counted, first_of, next_number, nothing_came, port_after, port_of, room_of, with_answer};

    /// One to which nothing came.
    ///
    /// Cost: no memory.
    pub fn new(alloc: Global) -> Desk
        ensures { port_of result ≡ nothing_came }
    {
        Desk {
            came: 0,
            waiting: VecDeque::new(alloc),
            current: None,
        }
    }

    /// A query comes in: its number.
    ///
    /// Cost: no memory.
    pub fn count(&mut self) -> u64
        ensures number { result ≡ next_number (port_of self.old) }
        ensures port { port_of self.new ≡ counted (port_of self.old) }
        ensures room { room_of self.new ≡ room_of self.old }
    {
        self.came = self.came.saturating_add(1);
        self.came
    }

    /// A change comes in.
    ///
    /// Errors: `AllocError`, by which it did not come; only where fewer than 1,024 wait and the room that was had before does not suffice.
    ///
    /// Cost: no memory where as many waited before.
    pub fn take_in(&mut self, command: Command) -> Result<Taken, AllocError>
        ensures ok { IfOk result (λ taken. TakesIn command (port_of self.old) taken (port_of self.new)) }
        ensures step { OnOk result (port_of self.new ≡ port_after (port_of self.old) (Changing command)) }
        ensures err { OnErr result (port_of self.new ≡ port_of self.old) }

        // Only memory can be missing, and none is where room was had before.
        ensures full { 1024 ≤ length self.old.waiting.items → IsOk result }
        ensures succeeds { HasRoom self.old → IsOk result }
        ensures room { room_of self.old ≤ room_of self.new }
    {
        if self.waiting.len() >= MAX_WAITING {
            drop(command);
            return Ok(Taken::Full(self.count()));
        }
        let number = self.came.saturating_add(1);
        match self.waiting.push_back(Numbered { number, command }) {
            Ok(()) => {
                self.came = number;
                Ok(Taken::Waits)
            }
            Err(failed) => {
                drop(failed);
                Err(AllocError)
            }
        }
    }

    /// The change that waits for longest is now with the node, if none is; whether it is so.
    ///
    /// Cost: no memory.
    pub fn next(&mut self) -> bool
        ensures some { IsTrue result → HandsOver (port_of self.old) (port_of self.new) }
        ensures none { result ≡ false → Rests (port_of self.old) (port_of self.new) }
        ensures step { port_of self.new ≡ port_after (port_of self.old) Handed }
        ensures room { room_of self.new ≡ room_of self.old }
    {
        if self.current.is_some() {
            return false;
        }
        match self.waiting.pop_front() {
            Some(next) => {
                drop(self.current.replace(next));
                true
            }
            None => false,
        }
    }

    /// The change that is with the node.
    ///
    /// Cost: no memory.
    pub fn current(&self) -> Option<&Numbered>
        ensures { option_map (λ current. current.now) result ≡ (port_of self.now).current }
    {
        self.current.as_ref()
    }

    /// The change that is with the node was answered: its number.
    ///
    /// Cost: no memory.
    pub fn answered(&mut self) -> Option<u64>
        ensures number { result ≡ option_map (λ current. current.number) (port_of self.old).current }
        ensures port { port_of self.new ≡ with_answer (port_of self.old) }
        ensures room { room_of self.new ≡ room_of self.old }
    {
        match self.current.take() {
            Some(current) => {
                let number = current.number;
                drop(current);
                Some(number)
            }
            None => None,
        }
    }

    /// The change that is handed over next.
    ///
    /// Cost: no memory.
    pub fn front(&self) -> Option<&Numbered>
        ensures { option_map (λ next. next.now) result ≡ first_of (port_of self.now).waiting }
    {
        self.waiting.front()
    }
}
