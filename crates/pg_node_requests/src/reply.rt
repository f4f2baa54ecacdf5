//! Replies as terms.

ghost use Rattle.std.specs.Prelude.{◌≡◌, ◌<◌, ◌∷◌, [], pos, IfOk, map, vec_len, vec_capacity};
ghost use Rattle.std.specs.Str.{chars};
ghost use Rattle.pg_term.specs.declared.term.Term.{List as Listed};
ghost use Rattle.pg_term.specs.declared.term.Term.TheVariants.{Int, Atom as Word, Pid as Process};
ghost use Rattle.pg_node_requests.specs.Replies.{bad_request_term, count_reply, error_term, has_ended_term, lost_term};
ghost use Rattle.pg_node_requests.specs.Replies.{many_ended_term, node_lost_term, old_clock_term, numbered_term, pair, refused_term, reply_term, unknown_term};

use pg_step::Reply;
use pg_term::{Atom, Fields, Items, Pid, Term};
use std::alloc::{AllocError, Global};

/// The atom of this word.
///
/// Errors: `AllocError`.
fn word(alloc: Global, text: &str) -> Result<Term, AllocError>
    ensures { IfOk result (λ term. term ≡ Word (chars text.now)) }
{
    match Atom::new(alloc, text) {
        Ok(atom) => Ok(Term::Atom(atom)),
        Err(_) => Err(AllocError),
    }
}

/// A pair.
fn pair(alloc: Global, first: Term, second: Term) -> Result<Term, AllocError>
    ensures { IfOk result (λ term. term ≡ pair first second) }
{
    let Ok(mut parts) = Vec::with_capacity(alloc, 2) else {
        drop(first);
        drop(second);
        return Err(AllocError);
    };
    parts.push_reserved(first);
    parts.push_reserved(second);
    Ok(Term::Tuple(Fields::from_vec(parts)))
}

/// `{Word, What}`.
fn tagged(alloc: Global, text: &str, what: Term) -> Result<Term, AllocError>
    ensures { IfOk result (λ term. term ≡ pair (Word (chars text.now)) what) }
{
    match word(alloc, text) {
        Ok(word) => pair(alloc, word, what),
        Err(AllocError) => {
            drop(what);
            Err(AllocError)
        }
    }
}

/// `{error, {Word, What}}`.
fn error(alloc: Global, text: &str, what: Term) -> Result<Term, AllocError>
    ensures { IfOk result (λ term. term ≡ error_term (chars text.now) what) }
{
    let cause = tagged(alloc, text, what)?;
    tagged(alloc, "error", cause)
}

/// `{refused, N}`.
///
/// Errors: `AllocError`.
///
/// Cost: memory for the term.
pub fn refused(alloc: Global, number: u8) -> Result<Term, AllocError>
    ensures { IfOk result (λ term. term ≡ refused_term number) }
{
    tagged(alloc, "refused", Term::Int(i64::from(number)))
}

/// `{error, {unknown, N}}`.
///
/// Errors: `AllocError`.
///
/// Cost: memory for the term.
pub fn unknown(alloc: Global, number: u8) -> Result<Term, AllocError>
    ensures { IfOk result (λ term. term ≡ unknown_term number) }
{
    error(alloc, "unknown", Term::Int(i64::from(number)))
}

/// `{error, {node_lost, Node}}`.
///
/// Errors: `AllocError`.
///
/// Cost: memory for the term, with a copy of the name.
pub fn node_lost(alloc: Global, name: &Atom) -> Result<Term, AllocError>
    ensures { IfOk result (λ term. term ≡ node_lost_term name.now) }
{
    let name = name.copy()?;
    error(alloc, "node_lost", Term::Atom(name))
}

/// `{lost, Node}`.
///
/// Errors: `AllocError`.
///
/// Cost: memory for the term, with a copy of the name.
pub fn lost(alloc: Global, name: &Atom) -> Result<Term, AllocError>
    ensures { IfOk result (λ term. term ≡ lost_term name.now) }
{
    let name = name.copy()?;
    tagged(alloc, "lost", Term::Atom(name))
}

/// `{error, {bad_request, N}}`.
///
/// Errors: `AllocError`.
///
/// Cost: memory for the term.
pub fn bad_request(alloc: Global, number: u64) -> Result<Term, AllocError>
    ensures { IfOk result (λ term. term ≡ bad_request_term number) }
{
    error(alloc, "bad_request", count_reply(number))
}

/// `{old_clock, Clock}`.
///
/// Errors: `AllocError`.
///
/// Cost: memory for the term.
pub fn old_clock(alloc: Global, clock: u32) -> Result<Term, AllocError>
    ensures { IfOk result (λ term. term ≡ old_clock_term clock) }
{
    tagged(alloc, "old_clock", count_reply(u64::from(clock)))
}

/// `{many_ended, Count}`.
///
/// Errors: `AllocError`.
///
/// Cost: memory for the term.
pub fn many_ended(alloc: Global, count: u64) -> Result<Term, AllocError>
    ensures { IfOk result (λ term. term ≡ many_ended_term count) }
{
    tagged(alloc, "many_ended", count_reply(count))
}

/// `{has_ended, {Node, Port, Number}}`.
///
/// Errors: `AllocError`.
///
/// Cost: memory for the term, with a copy of the name.
pub fn has_ended(alloc: Global, name: &Atom, port: u16, number: u64) -> Result<Term, AllocError>
    ensures { IfOk result (λ term. term ≡ has_ended_term name.now port number) }
{
    let parts = first_parts(alloc, name, port, number)?;
    tagged(alloc, "has_ended", Term::Tuple(Fields::from_vec(parts)))
}

/// A count as a term.
fn count_reply(number: u64) -> Term
    ensures { result ≡ count_reply number }
{
    Term::Int(i64::try_from(number).unwrap_or(i64::MAX))
}

/// A reply as a term.
///
/// Errors: `AllocError`.
///
/// Cost: memory for the term; O(n) in what the reply lists.
pub fn reply_term(alloc: Global, reply: Reply) -> Result<Term, AllocError>
    ensures { IfOk result (λ term. term ≡ reply_term reply) }
{
    match reply {
        Reply::Ok => word(alloc, "ok"),
        Reply::Made(pid) => Ok(Term::Pid(pid)),
        Reply::Pids(pids) => pid_list(alloc, pids.into_vec()),
        Reply::Closest(pid) => Ok(Term::Pid(pid)),
        Reply::Groups(names) => Ok(Term::List(names)),
        Reply::NoSuchGroup(name) => error(alloc, "no_such_group", name),
        Reply::NoProcess(name) => error(alloc, "no_process", name),
        Reply::Refused(number) => refused(alloc, number),
    }
}

/// A list of pids.
fn pid_list(alloc: Global, pids: Vec<Pid>) -> Result<Term, AllocError>
    ensures { IfOk result (λ term. term ≡ Listed (map Process pids.items)) }
{
    let mut terms = Vec::with_capacity(alloc, pids.len())?;
    for pid in pids {
        terms.push_reserved(Term::Pid(pid));
    }
    Ok(Term::List(Items::from_vec(terms)))
}

/// `{Node, Port, Number, Reply}`.
///
/// Errors: `AllocError`.
///
/// Cost: memory for the tuple, with a copy of the name.
pub fn numbered(
    alloc: Global,
    name: &Atom,
    port: u16,
    number: u64,
    reply: Term,
) -> Result<Term, AllocError>
    ensures { IfOk result (λ term. term ≡ numbered_term name.now port number reply) }
{
    match first_parts(alloc, name, port, number) {
        Ok(parts) => {
            let mut parts = parts;
            parts.push_reserved(reply);
            Ok(Term::Tuple(Fields::from_vec(parts)))
        }
        Err(AllocError) => {
            drop(reply);
            Err(AllocError)
        }
    }
}

/// The parts of a numbered reply before it, and room for it.
fn first_parts(alloc: Global, name: &Atom, port: u16, number: u64) -> Result<Vec<Term>, AllocError>
    ensures parts { IfOk result (λ parts. parts.items ≡ Word name.now ∷ Int (pos port) ∷ count_reply number ∷ []) }
    ensures room { IfOk result (λ parts. vec_len parts < vec_capacity parts) }
{
    let name = name.copy()?;
    let mut parts = Vec::with_capacity(alloc, 4)?;
    parts.push_reserved(Term::Atom(name));
    parts.push_reserved(Term::Int(i64::from(port)));
    parts.push_reserved(count_reply(number));
    Ok(parts)
}
