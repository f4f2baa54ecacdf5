//! Replies to references of the node itself, read as numbers: nothing is built.

ghost use Rattle.std.specs.Prelude.{◌≡◌, ◌≤◌, ◌<◌, ◌+◌, ◌^◌, [], ◌∷◌, ◌++◌, ℕ, List, length, IfOk, OnOk, IsOk, IfSome, IsSome, Ok};
ghost use Rattle.std.specs.Int.{w16, w32, to_be_bytes};
ghost use Rattle.std.specs.List.{flat_map};
ghost use Rattle.pg_term.specs.declared.term.Term.TheVariants as terms;
ghost use Rattle.pg_term_io.specs.Reading.{items_at, number_at};
ghost use Rattle.pg_term_io.specs.Spelling.{IsAtom};
ghost use Rattle.pg_term_io.specs.Writing.{atom_bytes, reference_bytes, written};
ghost use Rattle.pg_refs.specs.Numbered.{numbered, words_in};
ghost use Rattle.pg_message_types.specs.Limits.{max_stamp};
ghost use Rattle.pg_message_types.specs.Reading.{packet_spelled};
ghost use Rattle.pg_message_types.specs.Writing.{term_of_packet};
ghost use Rattle.pg_message_reader.specs.declared.own.OwnReply.{OwnReply};
ghost use Rattle.pg_message_reader.specs.Own.{own_reply};
ghost use Rattle.pg_message_reader.specs.Standing.{Stands};

use crate::direct::{Detour, behind, opened, said_at, stamp_at};
use pg_message_types::Said;
use pg_refs::words_of;
use pg_term::Atom;

/// A reply to a reference that the node itself has numbered.
#[derive(Clone, Copy, Debug, PartialEq, Eq)]
pub struct OwnReply {
    /// The clock of who replies.
    pub stamp: u32,
    /// The number of the reference (`pg_refs::reference_of`).
    pub number: u32,
    /// What the reply says.
    pub said: Said,
}

/// The reply to a reference of the node of this name that a body spells, where the body is as it is written; `None` of
/// any other packet, and of what is none.
///
/// Cost: no memory; at most that of the body's length.
pub fn read_own_reply(own: &Atom, body: &[u8]) -> Option<OwnReply>
    // What is read is spelled so.
    ensures found { IfSome result (λ reply. packet_spelled body.now ≡ Ok (own_reply own.now reply)) }
    // What is written so is read.
    ensures all { (reply : OwnReply) → reply.stamp ≤ max_stamp → reply.number < 2 ^ 32
        → body.now ≡ written (term_of_packet (own_reply own.now reply)) → IsSome result }
{
    match own_reply_in(own, body) {
        Ok(reply) => Some(reply),
        Err(_) => None,
    }
}

fn own_reply_in(own: &Atom, body: &[u8]) -> Result<OwnReply, Detour>
    ensures found { IfOk result (λ reply. packet_spelled body.now ≡ Ok (own_reply own.now reply)) }
    ensures all { (reply : OwnReply) → reply.stamp ≤ max_stamp → reply.number < 2 ^ 32
        → body.now ≡ written (term_of_packet (own_reply own.now reply)) → IsOk result }
{
    let rest = behind(body, &[131, 104, 2])?;
    let (stamp, rest) = stamp_at(rest)?;
    let rest = opened(rest, 3, "reply")?;
    let (number, rest) = own_reference_at(own, rest)?;
    let (said, rest) = said_at(rest)?;
    if !rest.is_empty() {
        return Err(Detour::OtherForm);
    }
    Ok(OwnReply {
        stamp,
        number,
        said,
    })
}

/// The number of a reference of this node, and what follows it.
#[inline]
fn own_reference_at<'a>(own: &Atom, bytes: &'a [u8]) -> Result<(u32, &'a [u8]), Detour>
    ensures term { (room : ℕ) → IfOk result (λ x. Stands room (terms.Ref (numbered own.now x.0)) bytes.now x.1.now) }
    ensures all { (number : ℕ) (rest : List ℕ) → number < 2 ^ 32
        → bytes.now ≡ reference_bytes (numbered own.now number) ++ rest → IsOk result }
    ensures rest { (number : ℕ) (rest : List ℕ) → number < 2 ^ 32
        → bytes.now ≡ reference_bytes (numbered own.now number) ++ rest → IfOk result (λ x. x.1.now ≡ rest) }
{
    let rest = own_node_at(own, bytes)?;
    own_words_at(rest)
}

/// What follows the node of a reference, which is this one, and its creation, which is 1.
#[inline]
fn own_node_at<'a>(own: &Atom, bytes: &'a [u8]) -> Result<&'a [u8], Detour>
    ensures found { IfOk result (λ rest. bytes.now
        ≡ 90 ∷ to_be_bytes w16 3 ++ (atom_bytes own.now ++ (to_be_bytes w32 1 ++ rest.now))) }
    ensures all { (rest : List ℕ) → bytes.now
        ≡ 90 ∷ to_be_bytes w16 3 ++ (atom_bytes own.now ++ (to_be_bytes w32 1 ++ rest)) → IsOk result }
    ensures spelled { OnOk result (IsAtom own.now (atom_bytes own.now)) }
{
    let rest = behind(bytes, &[90, 0, 3])?;
    let rest = atom_at(own, rest)?;
    behind(rest, &[0, 0, 0, 1])
}

/// What follows this atom.
#[inline]
#[tactic(auto, using(pg_term_io::proofs::Spelled::atom_spelled), unfolding(pg_term_io::specs::Writing::atom_bytes))]
fn atom_at<'a>(atom: &Atom, bytes: &'a [u8]) -> Result<&'a [u8], Detour>
    ensures found { IfOk result (λ rest. bytes.now ≡ atom_bytes atom.now ++ rest.now) }
    ensures all { (rest : List ℕ) → bytes.now ≡ atom_bytes atom.now ++ rest → IsOk result }
    ensures spelled { OnOk result (IsAtom atom.now (atom_bytes atom.now)) }
{
    let text = atom.as_str().as_bytes();
    let len = text.len();
    let rest = if len <= 255 {
        behind(bytes, &[119, len as u8])?
    } else {
        let [high, low] = (len as u16).to_be_bytes();
        behind(bytes, &[118, high, low])?
    };
    behind(rest, text)
}

/// The number that the words of a reference tell, and what follows the words.
#[inline]
fn own_words_at(bytes: &[u8]) -> Result<(u32, &[u8]), Detour>
    ensures found { IfOk result (λ x. items_at (number_at w32) 3 bytes.now ≡ Ok (words_in x.0, x.1.now)) }
    ensures all { (number : ℕ) (rest : List ℕ) → number < 2 ^ 32
        → bytes.now ≡ flat_map (to_be_bytes w32) (words_in number) ++ rest → IsOk result }
    ensures rest { (number : ℕ) (rest : List ℕ) → number < 2 ^ 32
        → bytes.now ≡ flat_map (to_be_bytes w32) (words_in number) ++ rest → IfOk result (λ x. x.1.now ≡ rest) }
{
    let (words, rest) = three_words_at(bytes)?;
    let number = number_of(words)?;
    Ok((number, rest))
}

/// The number whose words these are, as each node makes them.
#[inline]
fn number_of(words: [u32; 3]) -> Result<u32, Detour>
    ensures found { IfOk result (λ number. words ≡ words_in number) }
    ensures all { (number : ℕ) → number < 2 ^ 32 → words ≡ words_in number → IsOk result }
{
    let [low, high, _] = words;
    let number = high.wrapping_mul(1 << 18).wrapping_add(low);
    if words != words_of(number) {
        return Err(Detour::OtherForm);
    }
    Ok(number)
}

#[inline]
#[tactic(auto, unfolding(pg_term_io::specs::Reading::items_at))]
fn three_words_at(bytes: &[u8]) -> Result<([u32; 3], &[u8]), Detour>
    ensures found { IfOk result (λ x. items_at (number_at w32) 3 bytes.now ≡ Ok (x.0, x.1.now)) }
    ensures all { 12 ≤ length bytes.now → IsOk result }
    ensures value { (a b c : ℕ) (rest : List ℕ) → a < 2 ^ 32 → b < 2 ^ 32 → c < 2 ^ 32
        → bytes.now ≡ to_be_bytes w32 a ++ (to_be_bytes w32 b ++ (to_be_bytes w32 c ++ rest))
        → IfOk result (λ x. (x.0 ≡ a ∷ b ∷ c ∷ []) × (x.1.now ≡ rest)) }
{
    let (first, rest) = word_at(bytes)?;
    let (second, rest) = word_at(rest)?;
    let (third, rest) = word_at(rest)?;
    Ok(([first, second, third], rest))
}

/// The number in four bytes, the highest first, and what follows it.
#[inline]
fn word_at(bytes: &[u8]) -> Result<(u32, &[u8]), Detour>
    ensures found { IfOk result (λ x. number_at w32 bytes.now ≡ Ok (x.0, x.1.now)) }
    ensures len { IfOk result (λ x. length bytes.now ≡ 4 + length x.1.now) }
    ensures all { 4 ≤ length bytes.now → IsOk result }
{
    let Some((digits, rest)) = bytes.split_first_chunk::<4>() else {
        return Err(Detour::OtherForm);
    };
    Ok((u32::from_be_bytes(*digits), rest))
}
