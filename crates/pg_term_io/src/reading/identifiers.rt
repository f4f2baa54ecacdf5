//! Pids and references, after their tags.

ghost use Rattle.std.specs.Prelude.{◌≡◌, ◌<◌, IsOk, Err};
ghost use Rattle.std.specs.Int.{w32};
ghost use Rattle.pg_term.specs.declared.fault.TermFault.{TermFault};
ghost use Rattle.pg_term.specs.declared.fault.TermFault.TheVariants.{OutOfMemory};
ghost use Rattle.pg_term.specs.Fault.{Gives};
ghost use Rattle.pg_term_io.specs.Reading.{pid_at, old_reference_at, words_at, new_reference_at};
ghost use Rattle.pg_term_io.specs.Reading.{items_at, number_at, creation_width};

use crate::reading::atoms::atom_at;
use crate::reading::numbers::{creation_at, u8_at, u16_at, u32_at};
use crate::reading::scanning;
use crate::reading::scanning::fault_of;
use crate::tag::Creation;
use pg_term::{Atom, Pid, Reference, TermFault};
use std::alloc::Global;

/// A pid, after its tag.
#[inline]
#[tactic(auto, unfolding(crate::specs::Reading::pid_at))]
pub(crate) fn pid_at(
    alloc: Global,
    creation: Creation,
    bytes: &[u8],
) -> Result<(Pid, &[u8]), TermFault>
    ensures { Gives (λ x. (x.0, x.1.now)) result (pid_at (creation_width creation) bytes.now) }
{
    let (node, rest) = atom_at(alloc, bytes)?;
    let (id, rest) = u32_at(rest)?;
    let (serial, rest) = u32_at(rest)?;
    let (creation, rest) = creation_at(creation, rest)?;
    let pid = Pid {
        node,
        serial,
        id,
        creation,
    };
    Ok((pid, rest))
}

/// The pid whose tag, NEW_PID_EXT, is before the bytes, as a part of what `decode` reads, and the bytes after it.
///
/// Errors: those of what follows the tag, as `decode` has them. `OutOfMemory` comes only of bytes that begin with a pid.
///
/// Cost: memory for the name of its node. Where that runs out the bytes are walked over once more.
pub fn decode_pid(alloc: Global, bytes: &[u8]) -> Result<(Pid, &[u8]), TermFault>
    ensures exact { Gives (λ x. (x.0, x.1.now)) result (pid_at w32 bytes.now) }
    // The fault of the bytes is given, also where memory runs out.
    ensures first { (f : TermFault) → pid_at w32 bytes.now ≡ Err f → result ≡ Err f }
    // So memory runs out only of bytes that begin with a pid.
    ensures computed { result ≡ Err OutOfMemory → IsOk (pid_at w32 bytes.now) }
{
    match pid_at(alloc, Creation::Word, bytes) {
        Ok(read) => Ok(read),
        Err(TermFault::OutOfMemory) => Err(fault_of(scanning::pid(Creation::Word, bytes))),
        Err(fault) => Err(fault),
    }
}

/// A reference of one word.
#[tactic(auto, unfolding(crate::specs::Reading::old_reference_at))]
pub(crate) fn old_reference_at(alloc: Global, bytes: &[u8]) -> Result<(Reference, &[u8]), TermFault>
    ensures { Gives (λ x. (x.0, x.1.now)) result (old_reference_at bytes.now) }
{
    let (node, rest) = atom_at(alloc, bytes)?;
    let (word, rest) = u32_at(rest)?;
    let (creation, rest) = u8_at(rest)?;
    Ok((Reference::new(node, u32::from(creation), &[word])?, rest))
}

/// A reference that says how many words it has, after its tag.
#[inline]
#[tactic(auto, unfolding(crate::specs::Reading::new_reference_at))]
pub(crate) fn reference_at(
    alloc: Global,
    creation: Creation,
    bytes: &[u8],
) -> Result<(Reference, &[u8]), TermFault>
    ensures { Gives (λ x. (x.0, x.1.now)) result
        (new_reference_at (creation_width creation) bytes.now) }
{
    let (count, rest) = u16_at(bytes)?;
    if count == 0 || count > 3 {
        return Err(TermFault::BadReference);
    }
    let (node, rest) = atom_at(alloc, rest)?;
    let (creation, rest) = creation_at(creation, rest)?;
    reference_words(node, creation, count, rest)
}

/// The reference whose tag, NEWER_REFERENCE_EXT, is before the bytes, as a part of what `decode` reads, and the bytes
/// after it.
///
/// Errors: those of what follows the tag, as `decode` has them. `OutOfMemory` comes only of bytes that begin with a
/// reference.
///
/// Cost: memory for the name of its node. Where that runs out the bytes are walked over once more.
pub fn decode_reference(alloc: Global, bytes: &[u8]) -> Result<(Reference, &[u8]), TermFault>
    ensures exact { Gives (λ x. (x.0, x.1.now)) result (new_reference_at w32 bytes.now) }
    // The fault of the bytes is given, also where memory runs out.
    ensures first { (f : TermFault) → new_reference_at w32 bytes.now ≡ Err f → result ≡ Err f }
    // So memory runs out only of bytes that begin with a reference.
    ensures computed { result ≡ Err OutOfMemory → IsOk (new_reference_at w32 bytes.now) }
{
    match reference_at(alloc, Creation::Word, bytes) {
        Ok(read) => Ok(read),
        Err(TermFault::OutOfMemory) => Err(fault_of(scanning::reference(Creation::Word, bytes))),
        Err(fault) => Err(fault),
    }
}

#[tactic(auto, unfolding(crate::specs::Reading::items_at))]
fn two_words(bytes: &[u8]) -> Result<([u32; 2], &[u8]), TermFault>
    ensures { Gives (λ x. (x.0, x.1.now)) result (items_at (number_at w32) 2 bytes.now) }
{
    let (first, rest) = u32_at(bytes)?;
    let (second, rest) = u32_at(rest)?;
    Ok(([first, second], rest))
}

#[tactic(auto, unfolding(crate::specs::Reading::items_at))]
fn three_words(bytes: &[u8]) -> Result<([u32; 3], &[u8]), TermFault>
    ensures { Gives (λ x. (x.0, x.1.now)) result (items_at (number_at w32) 3 bytes.now) }
{
    let (first, rest) = u32_at(bytes)?;
    let (second, rest) = u32_at(rest)?;
    let (third, rest) = u32_at(rest)?;
    Ok(([first, second, third], rest))
}

fn reference_words(
    node: Atom,
    creation: u32,
    count: u16,
    bytes: &[u8],
) -> Result<(Reference, &[u8]), TermFault>
    requires some { 0 < count }
    requires few { count < 4 }
    ensures { Gives (λ x. (x.0, x.1.now)) result (words_at node creation count bytes.now) }
{
    match count {
        1 => of_one_word(node, creation, bytes),
        2 => of_two_words(node, creation, bytes),
        3 => of_three_words(node, creation, bytes),
        _ => unreachable!(),
    }
}

#[tactic(auto, unfolding(crate::specs::Reading::words_at, crate::specs::Reading::items_at))]
fn of_one_word(node: Atom, creation: u32, bytes: &[u8]) -> Result<(Reference, &[u8]), TermFault>
    ensures { Gives (λ x. (x.0, x.1.now)) result (words_at node creation 1 bytes.now) }
{
    match u32_at(bytes) {
        Ok((word, rest)) => Ok((Reference::new(node, creation, &[word])?, rest)),
        Err(fault) => {
            drop(node);
            Err(fault)
        }
    }
}

#[tactic(auto, unfolding(crate::specs::Reading::words_at))]
fn of_two_words(node: Atom, creation: u32, bytes: &[u8]) -> Result<(Reference, &[u8]), TermFault>
    ensures { Gives (λ x. (x.0, x.1.now)) result (words_at node creation 2 bytes.now) }
{
    let (words, rest) = match two_words(bytes) {
        Ok(read) => read,
        Err(fault) => {
            drop(node);
            return Err(fault);
        }
    };
    Ok((Reference::new(node, creation, &words)?, rest))
}

#[tactic(auto, unfolding(crate::specs::Reading::words_at))]
fn of_three_words(node: Atom, creation: u32, bytes: &[u8]) -> Result<(Reference, &[u8]), TermFault>
    ensures { Gives (λ x. (x.0, x.1.now)) result (words_at node creation 3 bytes.now) }
{
    let (words, rest) = match three_words(bytes) {
        Ok(read) => read,
        Err(fault) => {
            drop(node);
            return Err(fault);
        }
    };
    Ok((Reference::new(node, creation, &words)?, rest))
}
