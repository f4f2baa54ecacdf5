//! Assignments: what a host makes of its mirror of the table, as terms, gathered for bodies.

ghost use Rattle.std.specs.Prelude.{◌≡◌, ◌≤◌, ◌<◌, ◌^◌, ◌∷◌, [], IfOk, OnOk, OnErr, vec_capacity};
ghost use Rattle.pg_node_process.specs.Mirrors.{Adds, entry, gone, row};

use crate::outlet::Outlet;
use pg_node_requests::reply_term;
use pg_step::Reply;
use pg_term::{Fields, Items, Pid, Term};
use std::alloc::{AllocError, Global};
use std::mem;

/// How many assignments a body has at most.
const ASSIGNMENTS: usize = 1024;

/// How many members the rows of a body have together, from which on no more are added.
const MEMBERS: usize = 4096;

/// Assignments that are gathered for the next body.
#[derive(Drop)]
pub struct Batch {
    terms: Vec<Term>,
    // How many members their rows have together.
    members: usize,
    alloc: Global,
}

impl Batch {
    ghost use Rattle.std.specs.Prelude.{◌≡◌, ◌<◌, ◌∷◌, [], OnOk, OnErr, vec_len, vec_capacity};
    ghost use Rattle.pg_node_process.specs.Mirrors.{Adds, IsLonger};

    /// None.
    ///
    /// Cost: no memory.
    pub fn new(alloc: Global) -> Batch
        ensures { result.terms.items ≡ [] }
    {
        Batch {
            terms: Vec::new(alloc),
            members: 0,
            alloc,
        }
    }

    /// Adds an assignment, a row of so many members. What was gathered is said before, where that is much.
    ///
    /// Errors: `AllocError`, which may say some of what was gathered.
    ///
    /// Cost: memory for some terms more, and where a body is said for that.
    pub fn add(&mut self, outlet: &mut Outlet, term: Term, members: usize) -> Result<(), AllocError>
        ensures ok { OnOk result (Adds (term ∷ []) outlet.old.gathered.items outlet.new.gathered.items self.old.terms.items self.new.terms.items) }
        ensures err { OnErr result (IsLonger outlet.old.gathered.items outlet.new.gathered.items) }
    {
        match self.make_room(outlet) {
            Ok(()) => {
                self.terms.push_reserved(term);
                self.members = self.members.saturating_add(members);
                Ok(())
            }
            Err(AllocError) => {
                drop(term);
                Err(AllocError)
            }
        }
    }

    /// Makes room for one assignment more.
    fn make_room(&mut self, outlet: &mut Outlet) -> Result<(), AllocError>
        ensures ok { OnOk result (Adds [] outlet.old.gathered.items outlet.new.gathered.items self.old.terms.items self.new.terms.items) }
        ensures room { OnOk result (vec_len self.new.terms < vec_capacity self.new.terms) }
        ensures err { OnErr result (IsLonger outlet.old.gathered.items outlet.new.gathered.items) }
    {
        if self.terms.len() >= ASSIGNMENTS || self.members >= MEMBERS {
            match self.flush(outlet) {
                Ok(()) => {}
                Err(AllocError) => return Err(AllocError),
            }
        }
        self.terms.reserve(1)
    }

    /// Says what is gathered, where there is some.
    ///
    /// Errors: `AllocError`, which says nothing.
    ///
    /// Cost: that of the body.
    pub fn flush(&mut self, outlet: &mut Outlet) -> Result<(), AllocError>
        ensures ok { OnOk result (Adds [] outlet.old.gathered.items outlet.new.gathered.items self.old.terms.items []) }
        ensures none { OnOk result (self.new.terms.items ≡ []) }
        ensures err { OnErr result (outlet.new.gathered.items ≡ outlet.old.gathered.items) }
    {
        if self.terms.is_empty() {
            return Ok(());
        }
        self.members = 0;
        let terms = mem::replace(&mut self.terms, Vec::new(self.alloc));
        say(outlet, terms)
    }
}

/// Says these assignments.
fn say(outlet: &mut Outlet, terms: Vec<Term>) -> Result<(), AllocError>
    ensures ok { OnOk result (Adds [] outlet.old.gathered.items outlet.new.gathered.items terms.items []) }
    ensures err { OnErr result (outlet.new.gathered.items ≡ outlet.old.gathered.items) }
{
    let list = Term::List(Items::from_vec(terms));
    let said = outlet.put_mirrored(&list);
    drop(list);
    said
}

/// `{Name}`: the group is gone.
///
/// Errors: `AllocError`.
pub fn gone_term(alloc: Global, name: &Term) -> Result<Term, AllocError>
    ensures { IfOk result (λ term. term ≡ gone name.now) }
{
    Ok(Term::Tuple(Fields::from_vec(named(alloc, name, 1)?)))
}

/// `{Name, Pids}`: the group is there, and has these members.
///
/// Errors: `AllocError`.
pub fn row_term(alloc: Global, name: &Term, pids: Vec<Pid>) -> Result<Term, AllocError>
    ensures { IfOk result (λ term. term ≡ row name.now pids.items) }
{
    let pids = reply_term(alloc, Reply::Pids(Items::from_vec(pids)))?;
    match named(alloc, name, 2) {
        Ok(parts) => {
            let mut parts = parts;
            parts.push_reserved(pids);
            Ok(Term::Tuple(Fields::from_vec(parts)))
        }
        Err(AllocError) => {
            drop(pids);
            Err(AllocError)
        }
    }
}

/// A name, with room for so many parts in all.
fn named(alloc: Global, name: &Term, parts: usize) -> Result<Vec<Term>, AllocError>
    requires { 1 ≤ parts }
    ensures name { IfOk result (λ it. it.items ≡ name.now ∷ []) }
    ensures room { IfOk result (λ it. parts ≤ vec_capacity it) }
{
    let name = name.copy(alloc)?;
    let Ok(mut named) = Vec::with_capacity(alloc, parts) else {
        drop(name);
        return Err(AllocError);
    };
    named.push_reserved(name);
    Ok(named)
}
