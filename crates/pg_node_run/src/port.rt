//! A port, at which the commands of a client come in: the client's end, and the node's.

ghost use Rattle.std.specs.Prelude.{◌≡◌, ◌<◌, ◌≤◌, ◌+◌, ◌-◌, ◌^◌, [], ◌∷◌, ◌++◌, true, false, min, length, None};
ghost use Rattle.std.specs.Prelude.{Ok, IsTrue, IsFalse, IsOk, IsSome, IfOk, IfErr, IfSome, IfNone, OnOk, OnErr};
ghost use mathlib.Core.List.{IsPrefix};
ghost use Rattle.pg_node.specs.PgRing.Slots.{taken};

use crate::pauses::Pauses;
use crate::phases::Phase;
use pg_node::{Answer, Command, OpId, SlotIn, SlotOut};
use std::alloc::{AllocError, Global};

/// How many commands, and how many answers, are on their way at a port at most.
pub const PORT_PLACES: usize = 64;

/// A command, and how many answers its client had polled when it submitted it.
#[derive(Debug, Drop)]
pub struct Asked {
    pub command: Command,
    pub polled: u64,
}

/// The end of a port where commands are submitted and answers polled.
#[derive(Drop)]
pub struct Client {
    pub(crate) commands: SlotOut<Asked>,
    pub(crate) answers: SlotIn<Answer>,
    // How many answers were polled.
    pub(crate) polled: u64,
    ghost counted: { polled ≡ min (length (taken answers)) (2 ^ 64 - 1) },
}

/// The end of a port at its node.
#[derive(Drop)]
pub struct Port {
    pub(crate) commands: SlotIn<Asked>,
    pub(crate) answers: SlotOut<Answer>,
    // A command that came and was not taken by the node.
    pub(crate) kept: Option<Asked>,
    // How many answers were handed over.
    pub(crate) handed: usize,
}

impl Client {
    ghost use Rattle.pg_node_run.specs.Ports.{SameClient, submitted, polled, polled_count, places_free, answers_left};

    /// Submits a command, with the count of the answers that were polled before it. It waits for nobody.
    ///
    /// Errors: the command, handed back where no place is found to be free; then nothing was submitted.
    ///
    /// Cost: no memory; O(1).
    pub fn submit(&mut self, command: Command) -> Result<(), Command>
        ensures same { SameClient self.old self.new }
        ensures polled { polled self.new ≡ polled self.old }
        ensures ok { OnOk result (submitted self.new ≡ submitted self.old ++ record { command = command; polled = polled_count self.old } ∷ []) }
        ensures free { OnOk result (places_free self.old ≤ places_free self.new + 1) }
        ensures back { IfErr result (λ back. back ≡ command) }
        ensures err { OnErr result (submitted self.new ≡ submitted self.old) }
        ensures full { OnErr result (places_free self.new ≡ 0) }
        ensures succeeds { 0 < places_free self.old → IsOk result }
        ensures left { answers_left self.new ≡ answers_left self.old }
    {
        let asked = Asked {
            command,
            polled: self.polled,
        };
        match self.commands.give(asked) {
            Ok(()) => Ok(()),
            Err(Asked { command, polled: _ }) => Err(command),
        }
    }

    /// The next answer, or `None` where none is found to be there. It waits for nobody.
    ///
    /// Cost: no memory; O(1).
    pub fn poll(&mut self) -> Option<Answer>
        ensures same { SameClient self.old self.new }
        ensures submitted { submitted self.new ≡ submitted self.old }
        ensures some { IfSome result (λ answer. polled self.new ≡ polled self.old ++ answer ∷ []) }
        // The answers that are known to be there come first.
        ensures known { IfSome result (λ answer. IsPrefix (answers_left self.old) (answer ∷ answers_left self.new)) }
        ensures none { IfNone result (polled self.new ≡ polled self.old) }
        ensures empty { IfNone result (answers_left self.new ≡ []) }
        ensures succeeds { 0 < length (answers_left self.old) → IsSome result }
        ensures free { places_free self.new ≡ places_free self.old }
    {
        let answer = self.answers.take_one()?;
        self.polled = self.polled.saturating_add(1);
        Some(answer)
    }
}

impl Port {
    ghost use Rattle.pg_node_run.specs.Ports.{SamePort, ForgetsHanded, Hands, HandsNext, GivesNext, KeepsAll};
    ghost use Rattle.pg_node_run.specs.Ports.{KeepsSame, IsPortServed, asked, handed, asked_kept, handed_count};
    ghost use Rattle.pg_node_run.specs.Ports.{HandsNoMore, HandsAll, HasLookedIn, answers_free, commands_left};

    /// The next command, if one is there whose client had polled no more answers than were handed over; else it is
    /// kept, if there is one.
    ///
    /// Cost: no memory.
    pub(crate) fn next(&mut self) -> Option<Asked>
        ensures same { SamePort self.old self.new }
        ensures some { IfSome result (GivesNext self.old self.new) }
        ensures waited { IfSome result (λ next. next.polled ≤ handed_count self.new) }
        ensures none { IfNone result (KeepsAll self.old self.new) }
        ensures served { IfNone result (IsPortServed self.old self.new) }
        ensures looked { asked_kept self.old ≡ [] → HasLookedIn self.old self.new }
        ensures handed { handed self.new ≡ handed self.old }
        ensures count { handed_count self.new ≡ handed_count self.old }
    {
        let next = self.first()?;
        if next.polled <= self.handed as u64 {
            Some(next)
        } else {
            self.keep(next);
            None
        }
    }

    /// The command that was kept, or else the next that comes, if there is one.
    ///
    /// Cost: no memory.
    fn first(&mut self) -> Option<Asked>
        ensures same { SamePort self.old self.new }
        ensures some { IfSome result (GivesNext self.old self.new) }
        ensures none { IfNone result (KeepsAll self.old self.new) }
        ensures kept { asked_kept self.new ≡ [] }
        ensures looked { asked_kept self.old ≡ [] → HasLookedIn self.old self.new }
        ensures handed { handed self.new ≡ handed self.old }
        ensures count { handed_count self.new ≡ handed_count self.old }
    {
        match self.kept.take() {
            Some(next) => Some(next),
            None => self.commands.take_one(),
        }
    }

    /// Keeps a command that the node did not take.
    ///
    /// Cost: no memory.
    pub(crate) fn keep(&mut self, next: Asked)
        ensures same { SamePort self.old self.new }
        ensures asked { asked self.new ≡ asked self.old }
        ensures left { commands_left self.new ≡ commands_left self.old }
        ensures kept { asked_kept self.new ≡ next ∷ [] }
        ensures handed { handed self.new ≡ handed self.old }
        ensures count { handed_count self.new ≡ handed_count self.old }
    {
        drop(self.kept.replace(next));
    }

    /// Hands over the next of these answers, if one is left and there is a place; the number of its command, if it
    /// did.
    ///
    /// Errors: `AllocError`, which hands over nothing.
    fn hand(&mut self, alloc: Global, answers: &[Answer]) -> Result<Option<u32>, AllocError>
        ensures hands { Hands answers.now self.old self.new }
        ensures number { IfOk result (λ number. HandsNext number self.old self.new) }
        ensures none { result ≡ Ok None → HandsNoMore answers.now self.new }
        ensures err { OnErr result (handed self.new ≡ handed self.old) }
        ensures left { OnErr result (handed_count self.new < length answers.now) }
    {
        let Some(answer) = answers.get(self.handed) else {
            return Ok(None);
        };
        let copy = answer.copy(alloc)?;
        let number = copy.number;
        if self.give(copy) {
            Ok(Some(number))
        } else {
            Ok(None)
        }
    }

    /// Hands over an answer, if there is a place; whether it did.
    ///
    /// Cost: no memory.
    fn give(&mut self, answer: Answer) -> bool
        requires { handed_count self.old + 1 < 2 ^ 64 }
        ensures same { SamePort self.old self.new }
        ensures keeps { KeepsSame self.old self.new }
        ensures yes { IsTrue result → (handed self.new ≡ handed self.old ++ answer ∷ []) × (handed_count self.new ≡ handed_count self.old + 1) }
        ensures no { IsFalse result → (handed self.new ≡ handed self.old) × (handed_count self.new ≡ handed_count self.old) }
        ensures full { IsFalse result → answers_free self.new ≡ 0 }
    {
        match self.answers.give(answer) {
            Ok(()) => {
                self.handed += 1;
                true
            }
            Err(answer) => {
                drop(answer);
                false
            }
        }
    }

    /// Hands over the next of these answers, as many as are left and as there are places. The pauses of what they answer are
    /// forgotten. `place`: that of the port.
    pub(crate) fn hand_all(
        &mut self,
        alloc: Global,
        answers: &[Answer],
        place: u16,
        pauses: &mut Pauses,
    ) -> Phase
        ensures hands { Hands answers.now self.old self.new }
        ensures forgets { ForgetsHanded place self.old self.new pauses.old pauses.new }
        ensures all { result.whole ≡ true → HandsAll answers.now self.old self.new }
        ensures left { result.whole ≡ false → handed_count self.new < length answers.now }
    {
        let mut phase = Phase::idle();
        for _ in 0..PORT_PLACES {
            match self.hand(alloc, answers) {
                Ok(Some(number)) => {
                    let op = OpId {
                        port: place,
                        number,
                    };
                    pauses.forget(op);
                    phase.busy = true;
                }
                Ok(None) => break,
                Err(AllocError) => {
                    phase.whole = false;
                    break;
                }
            }
        }
        phase
    }
}
