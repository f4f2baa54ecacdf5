//! The names of the groups that an exchange announces: whether each is one, and whether one is there twice.

ghost use Rattle.std.specs.Prelude.{◌≡◌, ◌≢◌, ◌<◌, ◌≤◌, ◌∷◌, ℕ, List, [], length, true, false};
ghost use Rattle.std.specs.Prelude.{nat_eq, Ok, Some, None, IfOk, IfSome, OnErr, MatchOption};
ghost use Rattle.std.specs.declared.cmp.Ordering.TheVariants.{Less};
ghost use Rattle.pg_term.specs.declared.term.Term.{Term};
ghost use Rattle.pg_term.specs.Order.{kind_of};
ghost use Rattle.pg_term.specs.Same.{term_cmp};
ghost use Rattle.pg_message_types.specs.PgTermIo.Reading.{item_at};
ghost use Rattle.pg_message_types.specs.Groups.{IsNamed, is_less};
ghost use Rattle.pg_message_types.specs.Name.{is_name};
ghost use Rattle.pg_message_types.specs.Reading.{Groups, group_of, groups_of, is_named_once};
ghost use Rattle.pg_message_reader.specs.Names.{Tells};
ghost use Rattle.pg_message_reader.specs.Shapes.Leaves.{Names};
ghost use Rattle.pg_message_reader.specs.Shapes.Shape.{listed_of};
ghost use Rattle.pg_message_reader.specs.declared.shape.groups.names.Name.{Name};

use crate::shape::groups::{is_list, past_members};
use crate::shape::leaves::is_lower;
use crate::shape::parts::{is_atom, past_name};
use pg_message_types::{NextElement, decode_item, is_name, next_element};
use pg_term::{Term, TermFault};
use std::alloc::{AllocError, Global};
use std::cmp::Ordering;
use std::collections::BTreeSet;

/// A name that was walked over.
#[derive(Drop)]
pub(crate) enum Name<'a> {
    /// An atom, which is left unbuilt: the bytes from its tag on.
    Atom(&'a [u8]),
    /// Another term.
    Built(Term),
}

impl<'a> Name<'a> {
    /// Puts the name in the place of the last one: whether it is seen to be greater in the order of terms, or the first.
    pub(crate) fn follows(self, last: &mut Option<Name<'a>>) -> bool
        ensures kept { last.new ≡ Some self.entry }
        ensures first { last.old ≡ None → result ≡ true }
        ensures less { (before : Name) (a b : Term) → last.old ≡ Some before → Names before a → Names self.entry b
            → result ≡ true → term_cmp a b ≡ Less }
        ensures atoms { (before : Name) (a b : Term) → last.old ≡ Some before → Names before a → Names self.entry b
            → kind_of a ≡ 1 → kind_of b ≡ 1 → result ≡ is_less (term_cmp a b) }
    {
        let greater = match last {
            Some(last) => last.is_below(&self),
            None => true,
        };
        drop(last.replace(self));
        greater
    }

    /// Whether a name is seen to be less than another.
    fn is_below(&self, other: &Name<'a>) -> bool
        ensures less { (a b : Term) → Names self.now a → Names other.now b → result ≡ true → term_cmp a b ≡ Less }
        ensures atoms { (a b : Term) → Names self.now a → Names other.now b
            → kind_of a ≡ 1 → kind_of b ≡ 1 → result ≡ is_less (term_cmp a b) }
    {
        match (self, other) {
            (Name::Atom(bytes), Name::Atom(others)) => is_lower(bytes, others),
            (Name::Built(name), Name::Built(other)) => name.cmp(other) == Ordering::Less,
            // Integers alone are below atoms.
            (Name::Atom(_), Name::Built(other)) => !is_number(other),
            (Name::Built(name), Name::Atom(_)) => is_number(name),
        }
    }
}

fn is_number(term: &Term) -> bool
    ensures { result ≡ nat_eq (kind_of term.now) 0 }
{
    match term {
        Term::Int(_) => true,
        _ => false,
    }
}

/// The name at the front of a part, and what follows it; `None` for what is none. What takes more bytes than a name can is
/// left unbuilt.
pub(crate) fn checked_name(
    alloc: Global,
    levels: u8,
    bytes: &[u8],
) -> Result<Option<(Name<'_>, &[u8])>, AllocError>
    requires { levels ≤ 64 }
    ensures name { (t : Term) (rest : List ℕ) → item_at levels bytes.now ≡ Ok (t, rest) → IfOk result (λ found.
        MatchOption found (is_name t ≡ false)
        (λ x. (rest ≡ x.1.now) × (is_name t ≡ true) × Names x.0 t)) }
    // Memory is taken for other names than atoms alone.
    ensures built { (t : Term) (rest : List ℕ) → item_at levels bytes.now ≡ Ok (t, rest) → OnErr result (kind_of t ≢ 1) }
    ensures shorter { IfOk result (λ found. IfSome found (λ x. length x.1.now < length bytes.now)) }
{
    let Some(behind) = past_name(levels, bytes) else {
        return Ok(None);
    };
    if is_atom(bytes) {
        return Ok(Some((Name::Atom(bytes), behind)));
    }
    match built_name(alloc, levels, bytes)? {
        Some(name) => Ok(Some((Name::Built(name), behind))),
        None => Ok(None),
    }
}

/// Whether a part is a name.
pub(crate) fn is_name_at(alloc: Global, levels: u8, bytes: &[u8]) -> Result<bool, AllocError>
    requires { levels ≤ 64 }
    ensures { (t : Term) (rest : List ℕ) → item_at levels bytes.now ≡ Ok (t, rest) → Tells (t ∷ []) (is_name t) result }
{
    let name = checked_name(alloc, levels, bytes)?;
    Ok(name.is_some())
}

/// The name at the front of a part; `None` for what is none.
fn built_name(alloc: Global, levels: u8, bytes: &[u8]) -> Result<Option<Term>, AllocError>
    ensures { (t : Term) (rest : List ℕ) → item_at levels bytes.now ≡ Ok (t, rest) → IfOk result (λ found.
        MatchOption found (is_name t ≡ false) (λ name. (name ≡ t) × (is_name t ≡ true))) }
{
    match decode_item(alloc, levels, bytes) {
        Ok((name, _)) => {
            if is_name(&name) {
                Ok(Some(name))
            } else {
                drop(name);
                Ok(None)
            }
        }
        Err(TermFault::OutOfMemory) => Err(AllocError),
        Err(_) => Ok(None),
    }
}

/// Whether no two groups of a list have the same name. All names are kept.
pub(crate) fn are_apart(alloc: Global, levels: u8, bytes: &[u8]) -> Result<bool, AllocError>
    requires { levels ≤ 64 }
    ensures twice { (t : Term) (rest : List ℕ) → result ≡ Ok false
        → item_at levels bytes.now ≡ Ok (t, rest) → groups_of t ≡ None }
    ensures once { (t : Term) (rest : List ℕ) → result ≡ Ok true → item_at levels bytes.now ≡ Ok (t, rest)
        → kind_of t ≡ 5 → (groups : Groups) → listed_of t ≡ Some groups → is_named_once groups ≡ true }
{
    let mut names = BTreeSet::new(alloc);
    are_new(alloc, &mut names, levels, bytes)
}

/// Whether no group has a name that is among these or before it. They are put among these.
fn are_new(
    alloc: Global,
    names: &mut BTreeSet<Term>,
    levels: u8,
    bytes: &[u8],
) -> Result<bool, AllocError>
    requires shallow { levels ≤ 64 }
    requires none { names.old.keys ≡ [] }
    ensures twice { (t : Term) (rest : List ℕ) → result ≡ Ok false
        → item_at levels bytes.now ≡ Ok (t, rest) → groups_of t ≡ None }
    ensures once { (t : Term) (rest : List ℕ) → result ≡ Ok true → item_at levels bytes.now ≡ Ok (t, rest)
        → kind_of t ≡ 5 → (groups : Groups) → listed_of t ≡ Some groups → is_named_once groups ≡ true }
{
    let mut room = levels;
    let mut count = 0;
    let mut left = bytes;
    'elements: loop {
        match next_element(room, count, left) {
            NextElement::Item(below, more, group) => {
                let Some((name, behind)) = group_name(alloc, below, group)? else {
                    return Ok(false);
                };
                if !names.insert(name)? {
                    return Ok(false);
                }
                room = below;
                count = more;
                left = behind;
            }
            NextElement::End(_) => return Ok(true),
            NextElement::NoItem => return Ok(false),
        }
    }
}

// [Name, Members]
/// The name of what may be a group, built, and what follows that; `None` for what is none.
fn group_name(alloc: Global, levels: u8, bytes: &[u8]) -> Result<Option<(Term, &[u8])>, AllocError>
    requires { levels ≤ 64 }
    ensures group { (t : Term) (rest : List ℕ) → item_at levels bytes.now ≡ Ok (t, rest) → IfOk result (λ found.
        MatchOption found (group_of t ≡ None) (λ x. IsNamed x.0 (group_of t) × (rest ≡ x.1.now))) }
    ensures shorter { IfOk result (λ found. IfSome found (λ x. length x.1.now < length bytes.now)) }
{
    if !is_list(bytes) {
        return Ok(None);
    }
    let NextElement::Item(room, more, first) = next_element(levels, 0, bytes) else {
        return Ok(None);
    };
    let Some(behind) = past_name(room, first) else {
        return Ok(None);
    };
    let Some(name) = built_name(alloc, room, first)? else {
        return Ok(None);
    };
    match past_members(room, more, behind) {
        Some(rest) => Ok(Some((name, rest))),
        None => {
            drop(name);
            Ok(None)
        }
    }
}
