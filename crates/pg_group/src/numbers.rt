ghost use Rattle.std.specs.Prelude.{◌≡◌, ◌<◌, ◌≤◌, ◌∷◌, ◌++◌, [], map, length, OnOk, OnErr, IfOk, IsTrue};
ghost use Rattle.std.specs.BTreeSet.{insert_key};
ghost use Rattle.std.specs.List.{list_all};
ghost use Rattle.std.specs.List.Sorted.{IsStrictlySortedBy};
ghost use Rattle.pg_group.specs.Numbers.{number_cmp, has_number, chunk_numbers, all_numbers, pid_at, IsPlace};

use crate::chunk::Chunk;
use crate::number::Number;
use pg_term::{Atom, Pid};
use std::alloc::{AllocError, Global};
use std::marker::Model;

/// A set of numbers, in order: chunks one after the other. A number takes 12 bytes, and a chunk between two others has at least half of
/// what it has room for.
#[derive(Drop)]
pub struct Numbers {
    chunks: Vec<Chunk>,
    alloc: Global,
}

impl Model for Numbers {
    ghost use Rattle.std.specs.Prelude.{List};
    ghost use Rattle.std.specs.List.Sorted.{IsStrictlySortedBy};
    ghost use Rattle.pg_group.specs.declared.number.Number.{Number};

    ghost Value = { List Number };

    ghost use Rattle.pg_group.specs.Numbers.{number_cmp, all_numbers};

    ghost view = { λ n. all_numbers n.chunks.items };

    ghost invariant = { λ n. IsStrictlySortedBy number_cmp (all_numbers n.chunks.items) };
}

/// How many chunks are below a number.
fn find(chunks: &[Chunk], number: Number) -> usize
    ensures { IsPlace chunks.now number result }
{
    let mut low = 0;
    let mut high = chunks.len();
    while low < high {
        let middle = low + (high - low) / 2;
        if chunks[middle].last < number {
            low = middle + 1;
        } else {
            high = middle;
        }
    }
    low
}

/// Splits a chunk in two, if it is full and there is memory for it.
fn divide(chunks: &mut Vec<Chunk>, at: usize)
    requires { at < length chunks.old.items }
    ensures { all_numbers chunks.new.items ≡ all_numbers chunks.old.items }
{
    let Ok(()) = chunks.reserve(1) else {
        return;
    };
    if let Some(later) = chunks[at].split() {
        let _ = chunks.insert(at + 1, later);
    }
}

/// Puts a number into the first chunk that is not below it.
fn put_at(chunks: &mut Vec<Chunk>, at: usize, number: Number) -> Result<(), AllocError>
    requires sorted { IsStrictlySortedBy number_cmp (all_numbers chunks.old.items) }
    requires place { IsPlace chunks.old.items number at }
    requires within { at < length chunks.old.items }
    ensures ok { OnOk result (all_numbers chunks.new.items ≡ insert_key number_cmp (all_numbers chunks.old.items) number) }
    ensures err { OnErr result (all_numbers chunks.new.items ≡ all_numbers chunks.old.items) }
{
    chunks[at].insert(number)?;
    divide(chunks, at);
    Ok(())
}

/// Whether the last chunk is there and is not full.
fn has_room(chunks: &[Chunk]) -> bool
    ensures { IsTrue result → 0 < length chunks.now }
{
    match chunks.last() {
        Some(chunk) => !chunk.is_full(),
        None => false,
    }
}

/// Puts a number behind all others.
fn append(chunks: &mut Vec<Chunk>, alloc: Global, number: Number) -> Result<(), AllocError>
    ensures ok { OnOk result (all_numbers chunks.new.items ≡ all_numbers chunks.old.items ++ number ∷ []) }
    ensures err { OnErr result (all_numbers chunks.new.items ≡ all_numbers chunks.old.items) }
{
    if has_room(chunks) {
        let last = chunks.len() - 1;
        chunks[last].append(number)?;
    } else {
        chunks.push(Chunk::of(alloc, number))?;
    }
    Ok(())
}

/// Puts a number in.
fn put(chunks: &mut Vec<Chunk>, alloc: Global, number: Number) -> Result<(), AllocError>
    requires { IsStrictlySortedBy number_cmp (all_numbers chunks.old.items) }
    ensures ok { OnOk result (all_numbers chunks.new.items ≡ insert_key number_cmp (all_numbers chunks.old.items) number) }
    ensures err { OnErr result (all_numbers chunks.new.items ≡ all_numbers chunks.old.items) }
{
    let at = find(chunks, number);
    if at < chunks.len() {
        put_at(chunks, at, number)?;
    } else {
        append(chunks, alloc, number)?;
    }
    Ok(())
}

/// Whether chunks have a number.
fn has(chunks: &[Chunk], number: Number) -> bool
    requires { IsStrictlySortedBy number_cmp (all_numbers chunks.now) }
    ensures { result ≡ has_number (all_numbers chunks.now) number }
{
    let at = find(chunks, number);
    at < chunks.len() && chunks[at].has(number)
}

/// Whether a set has all numbers of chunks.
fn are_within(chunks: &[Chunk], other: &Numbers) -> bool
    ensures { result ≡ list_all (λ chunk. list_all (has_number other.now) (chunk_numbers chunk)) chunks.now }
{
    chunks.iter().all(|chunk| chunk.is_within(other))
}

/// Appends the pids of a node that have the numbers of chunks.
fn list(chunks: &[Chunk], node: &Atom, pids: &mut Vec<Pid>) -> Result<(), AllocError>
    ensures { OnOk result (pids.new.items ≡ pids.old.items ++ map (pid_at node.now) (all_numbers chunks.now)) }
{
    for chunk in chunks {
        chunk.list(node, pids)?;
    }
    Ok(())
}

/// The same chunks.
fn copy(chunks: &[Chunk], alloc: Global) -> Result<Vec<Chunk>, AllocError>
    ensures { IfOk result (λ copy. all_numbers copy.items ≡ all_numbers chunks.now) }
{
    let mut copy = Vec::new(alloc);
    for chunk in chunks {
        copy.push(chunk.copy(alloc)?)?;
    }
    Ok(copy)
}

impl Numbers {
    /// No number.
    ///
    /// Cost: no memory.
    pub fn new(alloc: Global) -> Numbers
        ensures { result ≡ [] }
    {
        Numbers {
            chunks: Vec::new(alloc),
            alloc,
        }
    }

    /// Whether it has a number.
    ///
    /// Cost: no memory; O(log n) in the numbers.
    pub fn has(&self, number: Number) -> bool
        ensures { result ≡ has_number self.now number }
    {
        has(&self.chunks, number)
    }

    /// Whether another set has all its numbers.
    ///
    /// Cost: no memory; O(n log n) in the numbers.
    pub fn is_within(&self, other: &Numbers) -> bool
        ensures { result ≡ list_all (has_number other.now) self.now }
    {
        are_within(&self.chunks, other)
    }

    /// Appends the pids of a node that have its numbers.
    ///
    /// Errors: `AllocError`.
    ///
    /// Cost: a copy of the node's name for each.
    pub fn list(&self, node: &Atom, pids: &mut Vec<Pid>) -> Result<(), AllocError>
        ensures pids { OnOk result (pids.new.items ≡ pids.old.items ++ map (pid_at node.now) self.now) }
        ensures ordered { IsStrictlySortedBy number_cmp self.now }
    {
        list(&self.chunks, node, pids)?;
        Ok(())
    }

    /// The same numbers.
    ///
    /// Errors: `AllocError`.
    ///
    /// Cost: memory for each.
    pub fn copy(&self) -> Result<Numbers, AllocError>
        ensures { IfOk result (λ copy. copy ≡ self.now) }
    {
        Ok(Numbers {
            chunks: copy(&self.chunks, self.alloc)?,
            alloc: self.alloc,
        })
    }

    /// Puts a number in.
    ///
    /// Errors: `AllocError`, which changes nothing.
    ///
    /// Cost: O(log n) in the numbers, and a move of the numbers of one chunk; memory for some numbers more.
    pub fn insert(&mut self, number: Number) -> Result<(), AllocError>
        ensures ok { OnOk result (self.new ≡ insert_key number_cmp self.old number) }
        ensures err { OnErr result (self.new ≡ self.old) }
    {
        put(&mut self.chunks, self.alloc, number)?;
        Ok(())
    }
}
