//! Whether the last part of an exchange announces groups, none of them named twice. Its bytes are walked over
//! once: each walk over a part gives what follows it. No member is built; a name is, to see whether it is one, but
//! for an atom.

ghost use Rattle.std.specs.Prelude.{◌≡◌, ◌≢◌, ◌<◌, ◌≤◌, ◌&&◌, ℕ, List, [], ◌∷◌, length, true};
ghost use Rattle.std.specs.Prelude.{false, is_some, Ok, None, IfOk, IfSome, OnErr, MatchOption};
ghost use Rattle.pg_term.specs.declared.term.Term.{Term};
ghost use Rattle.pg_term.specs.Order.{kind_of};
ghost use Rattle.pg_message_types.specs.PgTermIo.Lists.{list_from};
ghost use Rattle.pg_message_types.specs.PgTermIo.Reading.{item_at};
ghost use Rattle.pg_message_types.specs.Name.{is_name};
ghost use Rattle.pg_message_types.specs.Reading.{group_in, group_of, groups_of};
ghost use Rattle.pg_message_reader.specs.Names.{Tells, names_of_groups};
ghost use Rattle.pg_message_reader.specs.Shapes.Groups.{Sees, FirstNames, BuildsFirst};

pub(crate) mod names;

use crate::shape::groups::names::{Name, are_apart, checked_name};
use crate::shape::pids::past_pids;
use pg_message_types::{Kind, NextElement, kind_at, next_element};
use std::alloc::{AllocError, Global};

/// Whether a part is a list of groups, none of them named twice.
///
/// Errors: `AllocError`, where a name is no atom, or the names do not ascend in the order of terms.
///
/// Cost: where names ascend in the order of terms, as a node announces them, two of them are kept at a time, and of
/// atoms none; else the groups are walked over again, and all names kept.
pub fn may_be_groups(alloc: Global, levels: u8, bytes: &[u8]) -> Result<bool, AllocError>
    requires { levels ≤ 64 }
    ensures { (t : Term) (rest : List ℕ) → item_at levels bytes.now ≡ Ok (t, rest)
        → Tells (names_of_groups t) (is_some (groups_of t)) result }
{
    if !is_list(bytes) {
        return Ok(false);
    }
    match do_ascend(alloc, levels, bytes)? {
        None => Ok(false),
        Some(ascend) => {
            if ascend {
                Ok(true)
            } else {
                are_apart(alloc, levels, bytes)
            }
        }
    }
}

/// Whether the names of groups are seen to ascend; `None` for what is no list of groups.
fn do_ascend(alloc: Global, levels: u8, bytes: &[u8]) -> Result<Option<bool>, AllocError>
    requires { levels ≤ 64 }
    ensures { (t : Term) (rest : List ℕ) → item_at levels bytes.now ≡ Ok (t, rest)
        → kind_of t ≡ 5 → Sees t result }
{
    let mut last = None;
    do_rise(alloc, &mut last, levels, bytes)
}

/// The same, with a place for the last name.
fn do_rise<'a>(
    alloc: Global,
    last: &mut Option<Name<'a>>,
    levels: u8,
    bytes: &'a [u8],
) -> Result<Option<bool>, AllocError>
    requires shallow { levels ≤ 64 }
    requires none { last.old ≡ None }
    ensures { (t : Term) (rest : List ℕ) → item_at levels bytes.now ≡ Ok (t, rest)
        → kind_of t ≡ 5 → Sees t result }
{
    let mut ascend = true;
    let mut room = levels;
    let mut count = 0;
    let mut left = bytes;
    'elements: loop {
        match next_element(room, count, left) {
            NextElement::Item(below, more, group) => {
                let Some((name, behind)) = past_group(alloc, below, group)? else {
                    return Ok(None);
                };
                let greater = name.follows(last);
                ascend = both(ascend, greater);
                room = below;
                count = more;
                left = behind;
            }
            NextElement::End(_) => return Ok(Some(ascend)),
            NextElement::NoItem => return Ok(None),
        }
    }
}

fn both(first: bool, second: bool) -> bool
    ensures { result ≡ (first && second) }
{
    first && second
}

// [Name, Members]
/// The name of what may be a group, and what follows that; `None` for what is none.
fn past_group(
    alloc: Global,
    levels: u8,
    bytes: &[u8],
) -> Result<Option<(Name<'_>, &[u8])>, AllocError>
    requires { levels ≤ 64 }
    ensures group { (t : Term) (rest : List ℕ) → item_at levels bytes.now ≡ Ok (t, rest) → IfOk result (λ found.
        MatchOption found (group_of t ≡ None)
        (λ x. (rest ≡ x.1.now) × (is_some (group_of t) ≡ true) × FirstNames x.0 t)) }
    // Memory is taken for other names than atoms alone.
    ensures built { (t : Term) (rest : List ℕ) → item_at levels bytes.now ≡ Ok (t, rest)
        → OnErr result (BuildsFirst t) }
    ensures shorter { IfOk result (λ found. IfSome found (λ x. length x.1.now < length bytes.now)) }
{
    if !is_list(bytes) {
        return Ok(None);
    }
    let NextElement::Item(room, more, name) = next_element(levels, 0, bytes) else {
        return Ok(None);
    };
    let Some((name, behind)) = checked_name(alloc, room, name)? else {
        return Ok(None);
    };
    match past_members(room, more, behind) {
        Some(rest) => Ok(Some((name, rest))),
        None => {
            drop(name);
            Ok(None)
        }
    }
}

/// What follows a list of which its last element is left, which may be a list of members; `None` for what ends no group.
pub(crate) fn past_members(levels: u8, count: u32, bytes: &[u8]) -> Option<&[u8]>
    ensures group { (name : Term) (others : List Term) (rest : List ℕ)
        → list_from levels count bytes.now ≡ Ok (others, rest)
        → MatchOption result (group_in (name ∷ others) ≡ None) (λ behind. (rest ≡ behind.now)
        × (is_name name ≡ true → is_some (group_in (name ∷ others)) ≡ true)) }
    ensures shorter { IfSome result (λ behind. length behind.now < length bytes.now) }
{
    let NextElement::Item(room, more, members) = next_element(levels, count, bytes) else {
        return None;
    };
    match past_pids(room, members) {
        Some(behind) => past_end(room, more, behind),
        None => None,
    }
}

/// What follows a list of which nothing is left; `None` for one of which some is.
fn past_end(levels: u8, count: u32, bytes: &[u8]) -> Option<&[u8]>
    ensures over { (others : List Term) (rest : List ℕ)
        → list_from levels count bytes.now ≡ Ok (others, rest)
        → MatchOption result (others ≢ []) (λ behind. (rest ≡ behind.now) × (others ≡ [])) }
    ensures shorter { IfSome result (λ behind. length behind.now < length bytes.now) }
{
    match next_element(levels, count, bytes) {
        NextElement::End(behind) => Some(behind),
        _ => None,
    }
}

/// Whether a part is a list.
pub(crate) fn is_list(bytes: &[u8]) -> bool
    ensures yes { (room : ℕ) (t : Term) (rest : List ℕ) → result ≡ true
        → item_at room bytes.now ≡ Ok (t, rest) → kind_of t ≡ 5 }
    ensures no { (room : ℕ) (t : Term) (rest : List ℕ) → result ≡ false
        → item_at room bytes.now ≡ Ok (t, rest) → kind_of t ≢ 5 }
{
    match kind_at(bytes) {
        Some(Kind::List) => true,
        _ => false,
    }
}
