//! Lists of pids, walked over. After a pid those that begin as it are skipped by their length.

ghost use Rattle.std.specs.Prelude.{◌≡◌, ◌≢◌, ◌∷◌, ◌<◌, ◌≤◌, ◌++◌, ℕ, List, Option, length, drop};
ghost use Rattle.std.specs.Prelude.{true, false, is_some, Ok, None, IfSome, IfNone, MatchOption};
ghost use Rattle.pg_term.specs.declared.pid.Pid.{Pid};
ghost use Rattle.pg_term.specs.declared.term.Term.{Term};
ghost use Rattle.pg_term.specs.Order.{kind_of};
ghost use Rattle.pg_message_types.specs.PgTermIo.Reading.{item_at};
ghost use Rattle.pg_message_types.specs.PgTermIo.Scanning.{past};
ghost use Rattle.pg_message_types.specs.Parts.{pid_of};
ghost use Rattle.pg_message_reader.specs.Shapes.Alike.{Heads};
ghost use Rattle.pg_message_reader.specs.Shapes.Lists.{EndsAlike};
ghost use Rattle.pg_message_reader.specs.Shapes.Shape.{members_of};

use crate::shape::groups::is_list;
use crate::shape::parts::is_pid;
use pg_message_types::{NextElement, next_element, skip_item};

/// How many bytes the numbers of a pid take: an id, a serial and a creation.
const NUMBERS: usize = 12;

/// The bytes before the numbers of a pid that is spelled as it is written, with a node of at most 255 bytes; `None` for
/// another part. Pids that begin with the same bytes have the same node.
///
/// Cost: no memory; O(1).
pub fn pid_head(bytes: &[u8]) -> Option<&[u8]>
    ensures some { IfSome result (λ head. Heads head.now bytes.now) }
    ensures none { (text numbers : List ℕ) → IfNone result
        (bytes.now ≢ 88 ∷ 119 ∷ length text ∷ (text ++ numbers)) }
{
    let Some(rest) = bytes.strip_prefix(&[88, 119]) else {
        return None;
    };
    let Some((len, text)) = rest.split_first() else {
        return None;
    };
    if usize::from(*len) > text.len() {
        return None;
    }
    Some(&bytes[..3 + usize::from(*len)])
}

/// What follows a list of pids; `None` for what is none.
pub(crate) fn past_pids(levels: u8, bytes: &[u8]) -> Option<&[u8]>
    ensures pids { (t : Term) (rest : List ℕ) → item_at levels bytes.now ≡ Ok (t, rest)
        → MatchOption result (members_of t ≡ None)
        (λ behind. (rest ≡ behind.now) × (is_some (members_of t) ≡ true)) }
    ensures shorter { IfSome result (λ behind. length behind.now < length bytes.now) }
{
    if !is_list(bytes) {
        return None;
    }
    let mut room = levels;
    let mut count = 0;
    let mut left = bytes;
    'elements: loop {
        match next_element(room, count, left) {
            NextElement::Item(below, more, pid) => {
                let Some(behind) = past_pid(below, pid) else {
                    return None;
                };
                let (others, after) = past_alike(pid, more, behind);
                room = below;
                count = others;
                left = after;
            }
            NextElement::End(behind) => return Some(behind),
            NextElement::NoItem => return None,
        }
    }
}

/// What follows those of so many pids that begin as the first one, and how many there are still to come.
fn past_alike<'a>(first: &[u8], count: u32, bytes: &'a [u8]) -> (u32, &'a [u8])
    ensures pids { (room : ℕ) (t : Term) (end : List ℕ) → item_at room first.now ≡ Ok (t, end)
        → (levels : ℕ) (whole : Option (List Pid)) (rest : List ℕ)
        → EndsAlike pid_of levels count bytes.now whole rest
        → EndsAlike pid_of levels result.0 result.1.now whole rest }
    ensures shorter { length result.1.now ≤ length bytes.now }
{
    let mut others = count;
    let mut left = bytes;
    let Some(head) = pid_head(first) else {
        return (others, left);
    };
    while others > 0 {
        let Some(behind) = past_numbers(head, left) else {
            return (others, left);
        };
        others -= 1;
        left = behind;
    }
    (others, left)
}

/// What follows a pid that begins with these bytes; `None` for what begins otherwise, or is cut.
#[inline]
fn past_numbers<'a>(head: &[u8], bytes: &'a [u8]) -> Option<&'a [u8]>
    ensures { IfSome result (λ behind. (numbers : List ℕ)
        × (bytes.now ≡ head.now ++ numbers) × (12 ≤ length numbers) × (behind.now ≡ drop 12 numbers)) }
{
    match bytes.strip_prefix(head) {
        Some(numbers) if numbers.len() >= NUMBERS => Some(&numbers[NUMBERS..]),
        _ => None,
    }
}

/// What follows a pid; `None` for what is none.
fn past_pid(levels: u8, bytes: &[u8]) -> Option<&[u8]>
    ensures some { IfSome result (λ behind. past (item_at levels bytes.now) ≡ Ok behind.now) }
    ensures pid { (t : Term) (rest : List ℕ) → IfSome result (λ behind.
        item_at levels bytes.now ≡ Ok (t, rest) → is_some (pid_of t) ≡ true) }
    ensures none { (t : Term) (rest : List ℕ) → IfNone result
        (item_at levels bytes.now ≡ Ok (t, rest) → pid_of t ≡ None) }
    ensures shorter { IfSome result (λ behind. length behind.now < length bytes.now) }
{
    if !is_pid(bytes) {
        return None;
    }
    match skip_item(levels, bytes) {
        Ok(behind) => Some(behind),
        Err(_) => None,
    }
}
