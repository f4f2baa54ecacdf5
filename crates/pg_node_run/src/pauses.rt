//! How long commands that were refused the lock wait until they are tried again.

ghost use Rattle.std.specs.Prelude.{◌≡◌, ◌≢◌, ◌<◌, ◌≤◌, ℕ, length, not, slice_get};
ghost use Rattle.std.specs.Prelude.{Some, None, IsOk, IfOk, IfSome, IfNone, OnErr};
ghost use Rattle.pg_node_run.specs.declared.pauses.Pause.{Pause};
ghost use Rattle.pg_node_run.specs.declared.pauses.Wait.TheVariants.{Tried};
ghost use Rattle.pg_node_run.specs.Pauses.{Passed, counts_turns, is_pausing, wait_of};
ghost use Rattle.pg_node.specs.PgStep.declared.command.OpId.{OpId};
ghost use Rattle.pg_node.specs.PgStep.Attempts.{same_op};

use pg_node::OpId;
use rand_core::Rng;
use std::alloc::{AllocError, Global};

/// How a command waits.
#[derive(Clone, Copy, Debug, PartialEq, Eq)]
pub(crate) enum Wait {
    /// For so many turns.
    Turns(u32),
    /// It is due to be tried.
    Due,
    /// It was tried.
    Tried,
}

/// The pause of a command, and how often an attempt of it was refused.
#[derive(Clone, Copy, Debug)]
pub(crate) struct Pause {
    pub(crate) op: OpId,
    refused: u32,
    pub(crate) wait: Wait,
}

/// The pauses of commands that were refused.
#[derive(Debug, Drop)]
pub struct Pauses {
    pub(crate) entries: Vec<Pause>,
}

/// How many turns a pause takes at most.
const LONGEST_PAUSE: u32 = 4096;

/// The pause after so many refused attempts, in turns: 1 to 4,096.
fn pause_after<K: Rng>(refused: u32, generator: &mut K) -> u32
    ensures least { 1 ≤ result }
    ensures most { result ≤ 4096 }
{
    let bits = refused.saturating_add(3).min(12);
    1 + (generator.next_u32() % (1 << bits)).min(LONGEST_PAUSE - 1)
}

/// Whether a pause is that of another command.
fn is_of_another(pause: &Pause, op: OpId) -> bool
    ensures { result ≡ not (same_op pause.now.op op) }
{
    !(pause.op == op)
}

impl Pauses {
    /// No pause.
    ///
    /// Cost: no memory.
    pub fn new(alloc: Global) -> Pauses
        ensures { (op : OpId) → wait_of result op ≡ None }
    {
        Pauses {
            entries: Vec::new(alloc),
        }
    }

    /// A turn passes for a command that waits; whether it is due to be tried. Its pause is a turn shorter then, or
    /// over, by which it is due; where it has none, as where it was tried since, one begins, of 1 to 4,096 turns.
    ///
    /// Errors: `AllocError`, by which no turn passes, and only where it has no pause yet.
    ///
    /// Cost: O(n) in the commands that have a pause; memory for one more where this one has none.
    pub fn pass<K: Rng>(&mut self, op: OpId, generator: &mut K) -> Result<bool, AllocError>
        ensures passed { IfOk result (λ due. Passed (wait_of self.old op) due (wait_of self.new op)) }
        ensures err { OnErr result (wait_of self.new op ≡ wait_of self.old op) }
        ensures sure { wait_of self.old op ≢ None → IsOk result }
        ensures others { (other : OpId) → other ≢ op → wait_of self.new other ≡ wait_of self.old other }
    {
        match self.place_of(op) {
            Some(place) => {
                let pause = &mut self.entries[place];
                Ok(pause.pass(generator))
            }
            None => {
                self.entries.reserve(1)?;
                self.entries.push_reserved(Pause {
                    op,
                    refused: 1,
                    wait: Wait::Turns(pause_after(1, generator)),
                });
                Ok(false)
            }
        }
    }

    /// A command was tried: where it had a pause it has none.
    ///
    /// Cost: no memory.
    pub fn tried(&mut self, op: OpId)
        ensures tried { wait_of self.old op ≢ None → wait_of self.new op ≡ Some Tried }
        ensures none { wait_of self.old op ≡ None → wait_of self.new op ≡ None }
        ensures others { (other : OpId) → other ≢ op → wait_of self.new other ≡ wait_of self.old other }
    {
        match self.place_of(op) {
            Some(place) => {
                let pause = &mut self.entries[place];
                pause.wait = Wait::Tried;
            }
            None => {}
        }
    }

    /// A command was answered: it has no pause then.
    ///
    /// Cost: no memory; O(n) in the commands that have a pause.
    pub fn forget(&mut self, op: OpId)
        ensures forgotten { wait_of self.new op ≡ None }
        ensures others { (other : OpId) → other ≢ op → wait_of self.new other ≡ wait_of self.old other }
    {
        self.entries.retain(|pause| is_of_another(pause, op));
    }

    /// Whether a pause is not over, or its command is due and was not tried yet.
    ///
    /// Cost: no memory; O(n) in the commands that have a pause.
    pub fn are_running(&self) -> bool
        ensures { result ≡ is_pausing self.now }
    {
        self.entries.iter().any(|pause| pause.is_running())
    }

    /// The place of the pause of a command, if it has one.
    fn place_of(&self, op: OpId) -> Option<usize>
        ensures within { IfSome result (λ place. place < length self.now.entries.items) }
        ensures first { IfSome result (λ place. (k : ℕ) (pause : Pause) → k < place → slice_get self.now.entries.items k ≡ Some pause → pause.op ≢ op) }
        ensures some { IfSome result (λ place. IfSome (slice_get self.now.entries.items place) (λ pause. pause.op ≡ op)) }
        ensures none { IfNone result ((k : ℕ) (pause : Pause) → slice_get self.now.entries.items k ≡ Some pause → pause.op ≢ op) }
    {
        for place in 0..self.entries.len() {
            if self.entries[place].op == op {
                return Some(place);
            }
        }
        None
    }
}

impl Pause {
    /// Whether turns are to pass until the command is tried.
    ///
    /// Cost: no memory.
    fn is_running(&self) -> bool
        ensures { result ≡ counts_turns self.now }
    {
        match self.wait {
            Wait::Turns(_) | Wait::Due => true,
            Wait::Tried => false,
        }
    }

    /// A turn passes; whether the command is due.
    ///
    /// Cost: no memory.
    fn pass<K: Rng>(&mut self, generator: &mut K) -> bool
        ensures op { self.new.op ≡ self.old.op }
        ensures passed { Passed (Some self.old.wait) result (Some self.new.wait) }
    {
        match self.wait {
            Wait::Turns(left) if left > 1 => {
                self.wait = Wait::Turns(left - 1);
                false
            }
            Wait::Turns(_) | Wait::Due => {
                self.wait = Wait::Due;
                true
            }
            Wait::Tried => {
                self.refused = self.refused.saturating_add(1);
                self.wait = Wait::Turns(pause_after(self.refused, generator));
                false
            }
        }
    }
}
