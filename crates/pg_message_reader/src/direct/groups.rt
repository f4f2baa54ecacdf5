//! The groups that an exchange announces, read straight off their bytes: no list of terms is built.

ghost use Rattle.std.specs.Prelude.{◌≡◌, ◌<◌, ◌≤◌, ◌∷◌, ◌++◌, ℕ, suc, List, true, map, length, drop, IfOk, IfSome, Ok};
ghost use Rattle.std.specs.List.{list_all};
ghost use Rattle.pg_term.specs.declared.term.Term.{List as Listed};
ghost use Rattle.pg_term.specs.declared.term.Term.TheVariants as terms;
ghost use Rattle.pg_term_io.specs.Reading.{items_at, item_at, with_front};
ghost use Rattle.pg_message_types.specs.Name.{is_name};
ghost use Rattle.pg_message_types.specs.Reading.{is_named_once};
ghost use Rattle.pg_message_reader.specs.Standing.{Stands, IsListHead, EndsWith, number_of};
ghost use Rattle.pg_message_types.specs.Writing.{group_term, is_sayable};
ghost use Rattle.pg_message_types.specs.declared.message.Message.TheVariants as messages;

use crate::direct::{Detour, behind, past_short, pid_at, short_name_at};
use crate::shape::pid_head;
use crate::shape::pids::past_pids;
use pg_message_types::are_told_once;
use pg_term::{Items, Pid, Term};
use std::alloc::{AllocError, Global};

/// How many levels the name of a group may nest: it is within two lists and three tuples.
const GROUP_NAME_LEVELS: u8 = 59;

/// How many bytes a group takes at least: the head of its list, a name, an empty list of members, and the list's end.
const LEAST_GROUP: usize = 8;

/// How many bytes a pid takes at least: its tag, an empty atom, two words and a creation.
const LEAST_PID: usize = 15;

/// What follows a list of groups, each with a part in the place of its name that is as short as a name.
pub(crate) fn past_groups(bytes: &[u8]) -> Result<&[u8], Detour> {
    if let Ok(rest) = behind(bytes, &[106]) {
        return Ok(rest);
    }
    let (count, first) = count_at(bytes, LEAST_GROUP)?;
    let mut rest = first;
    for _ in 0..count {
        rest = past_group(rest)?;
    }
    behind(rest, &[106])
}

/// What follows a group.
fn past_group(bytes: &[u8]) -> Result<&[u8], Detour> {
    let name = behind(bytes, &[108, 0, 0, 0, 2])?;
    let members = past_short(GROUP_NAME_LEVELS, name)?;
    match past_pids(GROUP_NAME_LEVELS, members) {
        Some(end) => behind(end, &[106]),
        None => Err(Detour::OtherForm),
    }
}

/// The groups that a list spells, none of them named twice, and what follows.
pub(crate) fn groups_at(
    alloc: Global,
    bytes: &[u8],
) -> Result<(Items<(Term, Items<Pid>)>, &[u8]), Detour>
    ensures term { IfOk result (λ x. Stands 60 (Listed (map group_term x.0)) bytes.now x.1.now) }
    ensures sayable { (node : List ℕ) → IfOk result (λ x.
        is_sayable (messages.Exchange node x.0) ≡ true) }
{
    if let Ok(rest) = behind(bytes, &[106]) {
        return Ok((Items::from_vec(Vec::new(alloc)), rest));
    }
    let (count, rest) = count_at(bytes, LEAST_GROUP)?;
    let (groups, end) = all_groups_at(alloc, count, rest)?;
    match past_told(alloc, groups.as_slice(), end) {
        Ok(rest) => Ok((Items::from_vec(groups), rest)),
        Err(detour) => {
            drop(groups);
            Err(detour)
        }
    }
}

/// What follows the end of a list of these groups, none of them named twice.
fn past_told<'a>(
    alloc: Global,
    groups: &[(Term, Items<Pid>)],
    bytes: &'a [u8],
) -> Result<&'a [u8], Detour>
    ensures end { IfOk result (λ rest. bytes.now ≡ 106 ∷ rest.now) }
    ensures once { IfOk result (λ rest. is_named_once groups.now ≡ true) }
{
    let rest = behind(bytes, &[106])?;
    if !are_told_once(alloc, groups) {
        return Err(Detour::OtherForm);
    }
    Ok(rest)
}

/// How many elements a list has, each of which takes so many bytes at least, and what follows its head. No more than
/// may be in these bytes.
fn count_at(bytes: &[u8], least: usize) -> Result<(u32, &[u8]), Detour>
    requires some { 0 < least }
    ensures { IfOk result (λ x. IsListHead x.0 bytes.now x.1.now) }
{
    let rest = behind(bytes, &[108])?;
    let Some((digits, rest)) = rest.split_first_chunk::<4>() else {
        return Err(Detour::OtherForm);
    };
    let count = u32::from_be_bytes(*digits);
    if count as usize > rest.len() / least {
        return Err(Detour::OtherForm);
    }
    Ok((count, rest))
}

/// So many groups, one after the other.
fn all_groups_at(
    alloc: Global,
    count: u32,
    bytes: &[u8],
) -> Result<(Vec<(Term, Items<Pid>)>, &[u8]), Detour>
    ensures terms { IfOk result (λ x.
        items_at (item_at 60) count bytes.now ≡ Ok (map group_term x.0.items, x.1.now)) }
    ensures names { IfOk result (λ x. list_all (λ group. is_name group.0) x.0.items ≡ true) }
{
    let mut groups = Vec::with_capacity(alloc, count as usize)?;
    let mut rest = bytes;
    for _ in 0..count {
        let (group, after) = group_at(alloc, rest)?;
        groups.push(group)?;
        rest = after;
    }
    Ok((groups, rest))
}

/// [Name, Members], and what follows. `past_group` walked over it.
fn group_at(alloc: Global, bytes: &[u8]) -> Result<((Term, Items<Pid>), &[u8]), Detour>
    ensures term { IfOk result (λ x. Stands 59 (group_term x.0) bytes.now x.1.now) }
    ensures name { IfOk result (λ x. is_name x.0.0 ≡ true) }
{
    let rest = behind(bytes, &[108, 0, 0, 0, 2])?;
    let (name, rest) = short_name_at(alloc, GROUP_NAME_LEVELS, rest)?;
    match last_members_at(alloc, rest) {
        Ok((members, rest)) => Ok(((name, members), rest)),
        Err(detour) => {
            drop(name);
            Err(detour)
        }
    }
}

/// A list of pids, and what follows the end of a list after it.
fn last_members_at(alloc: Global, bytes: &[u8]) -> Result<(Items<Pid>, &[u8]), Detour>
    ensures { IfOk result (λ x. (end : List ℕ)
        × Stands 58 (Listed (map terms.Pid x.0)) bytes.now end × (end ≡ 106 ∷ x.1.now)) }
{
    let (members, end) = members_at(alloc, bytes)?;
    match behind(end, &[106]) {
        Ok(rest) => Ok((members, rest)),
        Err(detour) => {
            drop(members);
            Err(detour)
        }
    }
}

/// A list of pids, and what follows.
fn members_at(alloc: Global, bytes: &[u8]) -> Result<(Items<Pid>, &[u8]), Detour>
    ensures { (room : ℕ) → IfOk result (λ x.
        Stands (suc room) (Listed (map terms.Pid x.0)) bytes.now x.1.now) }
{
    if let Ok(rest) = behind(bytes, &[106]) {
        return Ok((Items::from_vec(Vec::new(alloc)), rest));
    }
    let (count, rest) = count_at(bytes, LEAST_PID)?;
    let (pids, end) = all_pids_at(alloc, count, rest)?;
    match behind(end, &[106]) {
        Ok(rest) => Ok((Items::from_vec(pids), rest)),
        Err(detour) => {
            drop(pids);
            Err(detour)
        }
    }
}

/// So many pids, one after the other.
fn all_pids_at(alloc: Global, count: u32, bytes: &[u8]) -> Result<(Vec<Pid>, &[u8]), Detour>
    ensures { (room : ℕ) → IfOk result (λ x.
        items_at (item_at (suc room)) count bytes.now ≡ Ok (map terms.Pid x.0.items, x.1.now)) }
{
    let mut pids = Vec::with_capacity(alloc, count as usize)?;
    let mut more = count;
    let mut rest = bytes;
    while more > 0 {
        let (pid, after) = pid_at(alloc, rest)?;
        pids.push(pid)?;
        let (others, behind) = alike_at(&mut pids, rest, more - 1, after)?;
        more = others;
        rest = behind;
    }
    Ok((pids, rest))
}

/// Of so many pids those that begin as the last one, which is in front of them; how many are left, and what follows.
/// Only their numbers are read: the node is copied.
fn alike_at<'a>(
    pids: &mut Vec<Pid>,
    last: &[u8],
    count: u32,
    bytes: &'a [u8],
) -> Result<(u32, &'a [u8]), AllocError>
    requires { EndsWith pids.old.items last.now }
    ensures pids { (room : ℕ) → IfOk result (λ x.
        with_front (map terms.Pid pids.new.items) (items_at (item_at (suc room)) x.0 x.1.now)
        ≡ with_front (map terms.Pid pids.old.items) (items_at (item_at (suc room)) count bytes.now)) }
    ensures fewer { IfOk result (λ x. x.0 ≤ count) }
{
    let mut more = count;
    let mut rest = bytes;
    let Some(head) = pid_head(last) else {
        return Ok((more, rest));
    };
    while more > 0 {
        let Some((id, serial, creation, after)) = numbers_at(head, rest) else {
            return Ok((more, rest));
        };
        let Some(before) = pids.last() else {
            return Ok((more, rest));
        };
        let node = before.node.copy()?;
        pids.push(Pid {
            node,
            serial,
            id,
            creation,
        })?;
        more -= 1;
        rest = after;
    }
    Ok((more, rest))
}

/// The numbers of a pid that begins with these bytes: its id, serial and creation; and what follows it. `None` for what
/// begins otherwise, or is cut.
#[inline]
fn numbers_at<'a>(head: &[u8], bytes: &'a [u8]) -> Option<(u32, u32, u32, &'a [u8])>
    ensures { IfSome result (λ x. (numbers : List ℕ)
        × (bytes.now ≡ head.now ++ numbers) × (12 ≤ length numbers)
        × (x.0 ≡ number_of numbers) × (x.1 ≡ number_of (drop 4 numbers))
        × (x.2 ≡ number_of (drop 4 (drop 4 numbers))) × (x.3.now ≡ drop 12 numbers)) }
{
    let numbers = bytes.strip_prefix(head)?;
    let (id, rest) = numbers.split_first_chunk::<4>()?;
    let (serial, rest) = rest.split_first_chunk::<4>()?;
    let (creation, rest) = rest.split_first_chunk::<4>()?;
    Some((
        u32::from_be_bytes(*id),
        u32::from_be_bytes(*serial),
        u32::from_be_bytes(*creation),
        rest,
    ))
}
