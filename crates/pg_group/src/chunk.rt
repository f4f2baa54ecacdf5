ghost use Rattle.std.specs.Prelude.{◌≡◌, ◌∷◌, false, ◌++◌, [], map, OnOk, OnErr, IfOk, IfSome, IfNone};
ghost use Rattle.std.specs.BTreeSet.{insert_key};
ghost use Rattle.std.specs.List.{list_all};
ghost use Rattle.std.specs.List.Sorted.{IsStrictlySortedBy};
ghost use Rattle.std.specs.Ordering.{is_gt};
ghost use Rattle.pg_group.specs.Numbers.{number_cmp, chunk_numbers, has_number, pid_at};

use crate::number::Number;
use crate::numbers::Numbers;
use pg_term::{Atom, Pid};
use std::alloc::{AllocError, Global};

/// A chunk of more numbers than these is full.
const FULL: usize = 512;

/// Where numbers come by chance, room is taken for so many at a time, since twice the room would stand half empty.
const STEP: usize = 32;

/// Some numbers in one piece of memory, at least one.
#[derive(Drop)]
pub struct Chunk {
    front: Vec<Number>,
    pub last: Number,
}

/// Whether a set has all these numbers.
fn are_within(numbers: &[Number], other: &Numbers) -> bool
    ensures { result ≡ list_all (has_number other.now) numbers.now }
{
    numbers.iter().all(|number| other.has(*number))
}

impl Chunk {
    /// A chunk of one number.
    pub fn of(alloc: Global, number: Number) -> Chunk
        ensures { chunk_numbers result ≡ number ∷ [] }
    {
        Chunk {
            front: Vec::new(alloc),
            last: number,
        }
    }

    /// Whether it has so many numbers that another is to follow.
    pub fn is_full(&self) -> bool {
        self.front.len() >= FULL
    }

    /// Whether it has a number.
    pub fn has(&self, number: Number) -> bool
        requires { IsStrictlySortedBy number_cmp (chunk_numbers self.now) }
        ensures { result ≡ has_number (chunk_numbers self.now) number }
    {
        number == self.last || self.front.binary_search(&number).is_ok()
    }

    /// Puts a number behind all others.
    ///
    /// Errors: `AllocError`, which changes nothing.
    pub fn append(&mut self, number: Number) -> Result<(), AllocError>
        ensures ok { OnOk result (chunk_numbers self.new ≡ chunk_numbers self.old ++ number ∷ []) }
        ensures err { OnErr result (chunk_numbers self.new ≡ chunk_numbers self.old) }
    {
        self.front.push(self.last)?;
        self.last = number;
        Ok(())
    }

    /// Puts a number in that is not above the last.
    ///
    /// Errors: `AllocError`, which changes nothing.
    pub fn insert(&mut self, number: Number) -> Result<(), AllocError>
        requires sorted { IsStrictlySortedBy number_cmp (chunk_numbers self.old) }
        requires within { is_gt (number_cmp number self.old.last) ≡ false }
        ensures ok { OnOk result (chunk_numbers self.new ≡ insert_key number_cmp (chunk_numbers self.old) number) }
        ensures err { OnErr result (chunk_numbers self.new ≡ chunk_numbers self.old) }
    {
        if number == self.last {
            return Ok(());
        }
        let Err(place) = self.front.binary_search(&number) else {
            return Ok(());
        };
        self.make_room()?;
        self.front.insert(place, number)?;
        Ok(())
    }

    /// Takes room for some numbers more where there is none.
    fn make_room(&mut self) -> Result<(), AllocError>
        ensures front { self.new.front.items ≡ self.old.front.items }
        ensures last { self.new.last ≡ self.old.last }
    {
        if self.front.len() == self.front.capacity() {
            self.front.reserve_exact(STEP)?;
        }
        Ok(())
    }

    /// Whether another set has all its numbers.
    pub fn is_within(&self, other: &Numbers) -> bool
        ensures { result ≡ list_all (has_number other.now) (chunk_numbers self.now) }
    {
        are_within(&self.front, other) && other.has(self.last)
    }

    /// Appends the pids of a node that have its numbers.
    ///
    /// Errors: `AllocError`.
    pub fn list(&self, node: &Atom, pids: &mut Vec<Pid>) -> Result<(), AllocError>
        ensures { OnOk result (pids.new.items ≡ pids.old.items ++ map (pid_at node.now) (chunk_numbers self.now)) }
    {
        for number in &self.front {
            pids.push(number.pid(node)?)?;
        }
        pids.push(self.last.pid(node)?)?;
        Ok(())
    }

    /// The same numbers.
    ///
    /// Errors: `AllocError`.
    pub fn copy(&self, alloc: Global) -> Result<Chunk, AllocError>
        ensures { IfOk result (λ copy. chunk_numbers copy ≡ chunk_numbers self.now) }
    {
        Ok(Chunk {
            front: Vec::from_slice(alloc, &self.front)?,
            last: self.last,
        })
    }

    /// Splits the later half off, where it is full and there is memory.
    pub fn split(&mut self) -> Option<Chunk>
        ensures some { IfSome result (λ later. chunk_numbers self.old ≡ chunk_numbers self.new ++ chunk_numbers later) }
        ensures none { IfNone result (chunk_numbers self.new ≡ chunk_numbers self.old) }
    {
        if self.front.len() < FULL {
            return None;
        }
        let Ok(front) = self.front.split_off(FULL / 2) else {
            return None;
        };
        let later = Chunk {
            front,
            last: self.last,
        };
        let Some(last) = self.front.pop() else {
            unreachable!()
        };
        self.last = last;
        self.front.shrink_to_fit();
        Some(later)
    }
}
