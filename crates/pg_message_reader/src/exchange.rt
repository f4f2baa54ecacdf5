//! What an exchange announces: groups with their members.

ghost use Rattle.std.specs.Prelude.{◌≡◌, IfOk};
ghost use Rattle.std.specs.Option.{option_and_then, option_map};
ghost use Rattle.pg_message_types.specs.Parts.{items_of, pid_of};
ghost use Rattle.pg_message_types.specs.Reading.{read_each, group_in, group_of, groups_of};

use crate::parts::{items, pid, two};
use pg_message_types::{are_told_once, is_name};
use pg_term::{Items, Pid, Term};
use std::alloc::{AllocError, Global};

/// The groups that a term spells, none of them named twice.
pub(crate) fn groups(
    alloc: Global,
    term: Term,
) -> Result<Option<Items<(Term, Items<Pid>)>>, AllocError>
    ensures { IfOk result (λ groups. groups ≡ groups_of term) }
{
    let Some(terms) = items(term) else {
        return Ok(None);
    };
    let Some(groups) = all_groups(alloc, terms)? else {
        return Ok(None);
    };
    if !are_told_once(alloc, groups.as_slice()) {
        return Ok(None);
    }
    Ok(Some(Items::from_vec(groups)))
}

fn all_groups(
    alloc: Global,
    terms: Vec<Term>,
) -> Result<Option<Vec<(Term, Items<Pid>)>>, AllocError>
    ensures { IfOk result (λ groups. option_map (λ v. v.items) groups ≡ read_each group_of terms.items) }
{
    let mut rest = terms;
    rest.reverse();
    let mut groups = Vec::with_capacity(alloc, rest.len())?;
    while let Some(term) = rest.pop() {
        let Some(group) = group(alloc, term)? else {
            return Ok(None);
        };
        groups.push(group)?;
    }
    Ok(Some(groups))
}

fn group(alloc: Global, term: Term) -> Result<Option<(Term, Items<Pid>)>, AllocError>
    ensures { IfOk result (λ group. group ≡ group_of term) }
{
    match items(term) {
        Some(parts) => group_in(alloc, parts),
        None => Ok(None),
    }
}

// [Name, Members]
fn group_in(alloc: Global, parts: Vec<Term>) -> Result<Option<(Term, Items<Pid>)>, AllocError>
    ensures { IfOk result (λ group. group ≡ group_in parts.items) }
{
    if parts.len() != 2 {
        drop(parts);
        return Ok(None);
    }
    let (name, second) = two(parts);
    if !is_name(&name) {
        drop(name);
        drop(second);
        return Ok(None);
    }
    match members(alloc, second) {
        Ok(Some(members)) => Ok(Some((name, members))),
        Ok(None) => {
            drop(name);
            Ok(None)
        }
        Err(AllocError) => {
            drop(name);
            Err(AllocError)
        }
    }
}

fn members(alloc: Global, term: Term) -> Result<Option<Items<Pid>>, AllocError>
    ensures { IfOk result (λ pids. pids ≡ option_and_then (read_each pid_of) (items_of term)) }
{
    let Some(terms) = items(term) else {
        return Ok(None);
    };
    let Some(pids) = all_pids(alloc, terms)? else {
        return Ok(None);
    };
    Ok(Some(Items::from_vec(pids)))
}

fn all_pids(alloc: Global, terms: Vec<Term>) -> Result<Option<Vec<Pid>>, AllocError>
    ensures { IfOk result (λ pids. option_map (λ v. v.items) pids ≡ read_each pid_of terms.items) }
{
    let mut rest = terms;
    rest.reverse();
    let mut pids = Vec::with_capacity(alloc, rest.len())?;
    while let Some(term) = rest.pop() {
        let Some(pid) = pid(term) else {
            return Ok(None);
        };
        pids.push(pid)?;
    }
    Ok(Some(pids))
}
