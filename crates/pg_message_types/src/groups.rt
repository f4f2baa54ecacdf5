//! Whether a list of groups names one twice.

ghost use Rattle.std.specs.Prelude.{◌≡◌, IfOk};
ghost use Rattle.std.specs.List.{list_any};
ghost use Rattle.pg_term.specs.Same.{same_term};
ghost use Rattle.pg_message_types.specs.Groups.{is_ascending};
ghost use Rattle.pg_message_types.specs.Reading.{is_named_once};

use pg_term::{Items, Pid, Term};
use std::alloc::{AllocError, Global};
use std::cmp::Ordering;
use std::collections::BTreeSet;

/// Whether no group is named twice.
///
/// Cost: no memory; one walk over the groups where they ascend in the order of terms, as a node announces them; else
/// each name is compared with all that follow it.
pub fn are_named_once(groups: &[(Term, Items<Pid>)]) -> bool
    ensures { result ≡ is_named_once groups.now }
{
    do_ascend(groups) || do_differ(groups)
}

/// Whether no group is named twice, for groups that come from outside. It answers whatever memory there is.
///
/// Cost: one walk and no memory where they ascend in the order of terms; else each name is looked up in a tree of those
/// before it, and where memory for the tree runs out compared with all that follow it.
pub fn are_told_once(alloc: Global, groups: &[(Term, Items<Pid>)]) -> bool
    ensures { result ≡ is_named_once groups.now }
{
    if do_ascend(groups) {
        return true;
    }
    match do_differ_in_tree(alloc, groups) {
        Ok(once) => once,
        Err(AllocError) => do_differ(groups),
    }
}

fn do_differ_in_tree(alloc: Global, groups: &[(Term, Items<Pid>)]) -> Result<bool, AllocError>
    ensures { IfOk result (λ once. once ≡ is_named_once groups.now) }
{
    let mut names = BTreeSet::new(alloc);
    for (name, _) in groups {
        if !names.insert(name)? {
            return Ok(false);
        }
    }
    Ok(true)
}

fn do_ascend(groups: &[(Term, Items<Pid>)]) -> bool
    ensures { result ≡ is_ascending groups.now }
{
    let mut left = groups;
    while let [first, second, ..] = left {
        if first.0.cmp(&second.0) != Ordering::Less {
            return false;
        }
        left = &left[1..];
    }
    true
}

fn do_differ(groups: &[(Term, Items<Pid>)]) -> bool
    ensures { result ≡ is_named_once groups.now }
{
    let mut left = groups;
    while let [first, rest @ ..] = left {
        if is_among(&first.0, rest) {
            return false;
        }
        left = rest;
    }
    true
}

fn is_among(name: &Term, groups: &[(Term, Items<Pid>)]) -> bool
    ensures { result ≡ list_any (λ group. same_term group.0 name.now) groups.now }
{
    groups.iter().any(|group| group.0 == *name)
}
