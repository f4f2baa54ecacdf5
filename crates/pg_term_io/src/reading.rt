//! Bytes to terms.

ghost use Rattle.std.specs.Prelude.{◌≡◌, ◌≢◌, IfOk, IfErr, IsOk, Ok, Err};
ghost use Rattle.pg_term.specs.declared.fault.TermFault.{TermFault};
ghost use Rattle.pg_term.specs.declared.fault.TermFault.TheVariants.{OutOfMemory, TooLong};
ghost use Rattle.pg_term.specs.declared.term.Term.{Term};
ghost use Rattle.pg_term.specs.Fault.{Gives};
ghost use Rattle.pg_term_io.specs.Spelling.{Spells};
ghost use Rattle.pg_term_io.specs.Faults.{Breaks};
ghost use Rattle.pg_term_io.specs.Scanning.{Names as Judges, fault_or_memory};
ghost use Rattle.pg_term_io.specs.Reading.{item_at, term_of};

mod atoms;
mod identifiers;
mod items;
mod lists;
mod numbers;
mod outline;
mod scanning;

use crate::limits::MAX_DEPTH;
pub use crate::reading::identifiers::{decode_pid, decode_reference};
use crate::reading::items::item;
pub use crate::reading::lists::next_element;
pub use crate::reading::outline::{kind_at, skip_item, tuple_at};
use crate::reading::scanning::fault_of;
use pg_term::{Term, TermFault};
use std::alloc::Global;

/// The term that the bytes spell, all of the bytes: the byte 131 and one item. The tags that are read are in
/// `src/tag.rt`. Terms may nest 64 levels deep.
///
/// Errors: the first that holds, where items are read from left to right, an item before its parts:
///
/// 1. `Truncated`: there is no byte; `BadVersion`: the first byte is not 131;
/// 2. of an item, `Truncated`: there is no byte; `TooDeep`: its depth is above 64; `UnknownTag`, in the place of a
///    tail `ImproperList`, and in the place of an atom of a pid or a reference `BadAtom`: its tag is none that may be
///    there; `Truncated`: a field or a text is cut; `IntegerTooLarge`: no signed integer of 64 bits; `BadAtom`: more
///    than 255 characters, or not UTF-8; `BadReference`: not one to three words, seen before the atom is read;
///    `TooDeep`: a STRING at depth 64 with a byte, seen once its bytes are there;
/// 3. `TrailingBytes`: bytes follow the item.
///
/// `OutOfMemory` comes only of bytes that spell a term.
///
/// Cost: linear in the number of bytes. Room for elements is taken once, for no more of them than there are bytes
/// for, those of the lists around included; an atom takes one allocation, above 22 bytes three. Where memory runs out
/// the bytes are walked over once more, as `check_term` does.
///
/// The rule: the External Term Format chapter of the Erlang documentation.
pub fn decode(alloc: Global, bytes: &[u8]) -> Result<Term, TermFault>
    // What is read is spelled so.
    ensures found { IfOk result (λ t. Spells t bytes.now) }
    // What is spelled so is read, unless memory runs out.
    ensures only { (t : Term) → Spells t bytes.now → Gives (λ t. t) result (Ok t) }
    // A fault is that of the bytes, unless memory ran out.
    ensures told { IfErr result (λ f. f ≢ OutOfMemory → Breaks f bytes.now) }
    // The fault of the bytes is given, also where memory runs out.
    ensures first { (f : TermFault) → Breaks f bytes.now → result ≡ Err f }
    // So memory runs out only of bytes that spell a term.
    ensures memory { result ≡ Err OutOfMemory → (t : Term) × Spells t bytes.now }
    ensures never { result ≢ Err TooLong }
    // The same by a function that computes, for callers.
    ensures exact { Gives (λ t. t) result (term_of bytes.now) }
    ensures computed { result ≡ Err OutOfMemory → IsOk (term_of bytes.now) }
{
    whole_term(alloc, bytes)
}

// A growth may be refused before the bytes are read to their end. Then their own fault is told, where they have one.
fn whole_term(alloc: Global, bytes: &[u8]) -> Result<Term, TermFault>
    ensures given { Gives (λ t. t) result (term_of bytes.now) }
    ensures memory { result ≡ Err OutOfMemory → (t : Term) × (term_of bytes.now ≡ Ok t) }
{
    match built_term(alloc, bytes) {
        Ok(term) => Ok(term),
        Err(TermFault::OutOfMemory) => Err(fault_without_memory(bytes)),
        Err(fault) => Err(fault),
    }
}

fn fault_without_memory(bytes: &[u8]) -> TermFault
    ensures { result ≡ fault_or_memory (term_of bytes.now) }
{
    match check_term(bytes) {
        Ok(()) => TermFault::OutOfMemory,
        Err(fault) => fault,
    }
}

#[tactic(auto, unfolding(crate::specs::Reading::term_of))]
fn built_term(alloc: Global, bytes: &[u8]) -> Result<Term, TermFault>
    ensures { Gives (λ t. t) result (term_of bytes.now) }
{
    match bytes {
        [] => Err(TermFault::Truncated),
        [131, rest @ ..] => {
            let (term, rest) = item(alloc, MAX_DEPTH, 0, rest)?;
            if !rest.is_empty() {
                drop(term);
                return Err(TermFault::TrailingBytes);
            }
            Ok(term)
        }
        [_, ..] => Err(TermFault::BadVersion),
    }
}

/// The item at the start of the bytes, as a part of what `decode` reads, and the bytes after it. So many levels of
/// terms may nest in it, itself the first of them.
///
/// Errors: those of an item, as `decode` has them. `OutOfMemory` comes only of bytes that begin with an item.
///
/// Cost: that of `decode` for the bytes of the item. Where memory runs out they are walked over once more, as
/// `skip_item` does.
pub fn decode_item(alloc: Global, levels: u8, bytes: &[u8]) -> Result<(Term, &[u8]), TermFault>
    ensures exact { Gives (λ x. (x.0, x.1.now)) result (item_at levels bytes.now) }
    // The fault of the bytes is given, also where memory runs out.
    ensures first { (f : TermFault) → item_at levels bytes.now ≡ Err f → result ≡ Err f }
    // So memory runs out only of bytes that begin with an item.
    ensures computed { result ≡ Err OutOfMemory → IsOk (item_at levels bytes.now) }
{
    match item(alloc, levels, 0, bytes) {
        Ok(read) => Ok(read),
        Err(TermFault::OutOfMemory) => Err(fault_of(skip_item(levels, bytes))),
        Err(fault) => Err(fault),
    }
}

/// Whether `decode` reads the bytes as a term. What is no term costs no memory so.
///
/// Errors: that of `decode`, but for `OutOfMemory`.
///
/// Cost: no memory; linear in the number of bytes.
pub fn check_term(bytes: &[u8]) -> Result<(), TermFault>
    ensures exact { Judges result (term_of bytes.now) }
    // Some term is spelled so, or the fault is that of the bytes.
    ensures ok { IfOk result (λ done. (t : Term) × Spells t bytes.now) }
    ensures err { IfErr result (λ fault. Breaks fault bytes.now) }
{
    scanning::term(bytes)?;
    Ok(())
}
