//! The parts of a term, each moved out of it.

ghost use Rattle.std.specs.Prelude.{◌≡◌, ◌∷◌, [], Some, None, IfOk, IfErr, length};
ghost use Rattle.std.specs.Option.{option_map};
ghost use Rattle.pg_step.specs.PgMessageTypes.Parts.{elements_of, items_of, is_word, atom_of, pid_of};
ghost use Rattle.pg_node_requests.specs.Requests.{number_of};

use pg_term::{Atom, Pid, Term};

/// The elements of a tuple, or the term.
pub(crate) fn elements(term: Term) -> Result<Vec<Term>, Term>
    ensures tuple { IfOk result (λ parts. elements_of term ≡ Some parts.items) }
    ensures other { IfErr result (λ back. (back ≡ term) × (elements_of term ≡ None)) }
{
    match term {
        Term::Tuple(fields) => Ok(fields.into_vec()),
        other => Err(other),
    }
}

/// The elements of a list.
pub(crate) fn items(term: Term) -> Option<Vec<Term>>
    ensures { option_map (λ v. v.items) result ≡ items_of term }
{
    match term {
        Term::List(items) => Some(items.into_vec()),
        _ => None,
    }
}

/// Two parts, in their order.
pub(crate) fn two(parts: Vec<Term>) -> (Term, Term)
    requires { length parts.items ≡ 2 }
    ensures { parts.items ≡ result.0 ∷ result.1 ∷ [] }
{
    let mut rest = parts;
    let second = rest.pop().unwrap();
    let first = rest.pop().unwrap();
    drop(rest);
    (first, second)
}

/// Three parts, in their order.
pub(crate) fn three(parts: Vec<Term>) -> (Term, Term, Term)
    requires { length parts.items ≡ 3 }
    ensures { parts.items ≡ result.0 ∷ result.1 ∷ result.2 ∷ [] }
{
    let mut rest = parts;
    let third = rest.pop().unwrap();
    let second = rest.pop().unwrap();
    let first = rest.pop().unwrap();
    drop(rest);
    (first, second, third)
}

/// Whether a term is the atom of this text.
pub(crate) fn is_word(term: &Term, text: &str) -> bool
    ensures { result ≡ is_word term.now text.now }
{
    match term {
        Term::Atom(atom) => atom.as_str() == text,
        _ => false,
    }
}

/// The atom that a term is.
pub(crate) fn atom(term: &Term) -> Option<&Atom>
    ensures { option_map (λ atom. atom.now) result ≡ atom_of term.now }
{
    match term {
        Term::Atom(atom) => Some(atom),
        _ => None,
    }
}

/// The atom that a term is, moved out of it.
pub(crate) fn name_of(term: Term) -> Option<Atom>
    ensures { result ≡ atom_of term }
{
    match term {
        Term::Atom(atom) => Some(atom),
        _ => None,
    }
}

/// The process that a term is.
pub(crate) fn pid(term: Term) -> Option<Pid>
    ensures { result ≡ pid_of term }
{
    match term {
        Term::Pid(pid) => Some(pid),
        _ => None,
    }
}

/// The number of 16 bits that a term is.
pub(crate) fn small_number(term: &Term) -> Option<u16>
    ensures { result ≡ number_of 16 term.now }
{
    match term {
        Term::Int(number) => u16::try_from(*number).ok(),
        _ => None,
    }
}

/// The number of 32 bits that a term is.
pub(crate) fn number(term: &Term) -> Option<u32>
    ensures { result ≡ number_of 32 term.now }
{
    match term {
        Term::Int(number) => u32::try_from(*number).ok(),
        _ => None,
    }
}
