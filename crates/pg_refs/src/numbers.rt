ghost use Rattle.std.specs.Prelude.{◌≡◌, ◌&&◌, ◌^◌, cond, nat_lt, Some, None, IfOk};
ghost use Rattle.pg_term.specs.RefParts.{ref_eq};
ghost use Rattle.pg_refs.specs.Numbered.{numbered, number_in, number_of_words, words_in};

use crate::source::FIRST_WORDS;
use pg_term::{Atom, Reference};
use std::alloc::AllocError;

/// The words of the reference of this number, as every node makes them: its creation is 1.
///
/// Cost: no memory.
pub fn words_of(number: u32) -> [u32; 3]
    ensures { result ≡ words_in number }
{
    [number % FIRST_WORDS, number / FIRST_WORDS, 0]
}

/// The reference of this number that the node makes.
///
/// Errors: `AllocError`.
///
/// Cost: a copy of the name of the node.
pub fn reference_of(node: &Atom, number: u32) -> Result<Reference, AllocError>
    ensures { IfOk result (λ reference. reference ≡ numbered node.now number) }
{
    let node = node.copy()?;
    let Ok(reference) = Reference::new(node, 1, &words_of(number)) else {
        // Three words are as many as a reference may have.
        unreachable!()
    };
    Ok(reference)
}

/// The number whose words (`words_of`) the reference has, where its node is this one and its creation is 1; `None`
/// for any other reference. Whether the node has made that reference is not looked at.
///
/// Cost: no memory.
pub fn number_of(node: &Atom, reference: &Reference) -> Option<u32>
    ensures { result ≡ cond (ref_eq (numbered node.now (number_in reference.now)) reference.now
        && nat_lt (number_in reference.now) (2 ^ 32)) (Some (number_in reference.now)) None }
{
    if reference.node() != node || reference.creation() != 1 {
        return None;
    }
    let [low, high, _] = reference.words() else {
        return None;
    };
    let number = u64::from(*low) + u64::from(FIRST_WORDS) * u64::from(*high);
    let number = u32::try_from(number).ok()?;
    if reference.words() != words_of(number).as_slice() {
        return None;
    }
    Some(number)
}
