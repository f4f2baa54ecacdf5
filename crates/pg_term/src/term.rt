ghost use Rattle.std.specs.Prelude.{◌≡◌, IfOk, min};
ghost use Rattle.pg_term.specs.Depth.{depth, greatest_depth};

use crate::atom::Atom;
use crate::boxed::Boxed;
use crate::fields::Fields;
use crate::items::Items;
use crate::pid::Pid;
use crate::reference::Reference;
use std::alloc::{AllocError, Global};

/// An Erlang term of this project's profile. The order of the variants is the order of terms: integers, atoms,
/// references, pids, tuples, lists, binaries. It takes 32 bytes, and what it holds in blocks.
#[derive(Debug, Drop, PartialEq, Eq, PartialOrd, Ord, Hash)]
pub enum Term {
    Int(i64),
    Atom(Atom),
    Ref(Boxed<Reference>),
    Pid(Pid),
    Tuple(Fields<Term>),
    List(Items<Term>),
    Binary(Items<u8>),
}

impl Term {
    /// An equal term.
    ///
    /// Errors: `AllocError`.
    ///
    /// Cost: grows with the term: an allocation for each atom, pid, tuple, list and binary, and two for each reference; two
    /// more for each name above 22 bytes.
    pub fn copy(&self, alloc: Global) -> Result<Term, AllocError>
        ensures { IfOk result (λ t. t ≡ self.now) }
    {
        copy(alloc, self)
    }

    /// How deep the term nests: 1, and for a tuple or list one more than its deepest element.
    ///
    /// Cost: grows with the term.
    pub fn depth(&self) -> u64
        ensures { result ≡ min (depth self.now) u64.MAX }
    {
        depth(self)
    }
}

#[cycle(copy)]
fn copy(alloc: Global, term: &Term) -> Result<Term, AllocError>
    ensures { IfOk result (λ t. t ≡ term.now) }
{
    match term {
        Term::Int(n) => Ok(Term::Int(*n)),
        Term::Atom(a) => Ok(Term::Atom(a.copy()?)),
        Term::Ref(r) => Ok(Term::Ref(Boxed::new(alloc, r.get().copy()?)?)),
        Term::Pid(p) => Ok(Term::Pid(p.copy()?)),
        Term::Tuple(items) => Ok(Term::Tuple(Fields::from_vec(copy_all(alloc, items.as_slice())?))),
        Term::List(items) => Ok(Term::List(Items::from_vec(copy_all(alloc, items.as_slice())?))),
        Term::Binary(bytes) => Ok(Term::Binary(Items::from_vec(bytes.as_slice().to_vec(alloc)?))),
    }
}

#[cycle(copy)]
fn copy_all(alloc: Global, terms: &[Term]) -> Result<Vec<Term>, AllocError>
    ensures { IfOk result (λ v. v.items ≡ terms.now) }
{
    let mut copies = Vec::with_capacity(alloc, terms.len())?;
    for term in terms {
        copies.push(copy(alloc, term)?)?;
    }
    Ok(copies)
}

#[cycle(depth)]
fn depth(term: &Term) -> u64
    ensures { result ≡ min (depth term.now) u64.MAX }
{
    match term {
        Term::Int(_) | Term::Atom(_) | Term::Ref(_) | Term::Pid(_) | Term::Binary(_) => 1,
        Term::Tuple(items) => greatest_depth(items.as_slice()).saturating_add(1),
        Term::List(items) => greatest_depth(items.as_slice()).saturating_add(1),
    }
}

#[cycle(depth)]
fn greatest_depth(terms: &[Term]) -> u64
    ensures { result ≡ min (greatest_depth terms.now) u64.MAX }
{
    let mut greatest = 0;
    for term in terms {
        greatest = greatest.max(depth(term));
    }
    greatest
}

impl Term {
    ghost use Rattle.std.specs.Prelude.{◌↔◌, IsTrue};

    /// Whether the two are one term, as `==` has it.
    ///
    /// Cost: grows with the smaller of the two.
    pub fn is(&self, other: &Term) -> bool
        ensures { IsTrue result ↔ (self.now ≡ other.now) }
    {
        self == other
    }
}
