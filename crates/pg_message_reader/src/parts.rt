//! What a term is: the parts that messages are made of, each moved out of its term.

ghost use Rattle.std.specs.Prelude.{◌≡◌, ◌∷◌, [], length};
ghost use Rattle.std.specs.Option.{option_map};
ghost use Rattle.pg_message_types.specs.Parts.{elements_of, items_of, is_word, atom_of, reference_of, pid_of};

use pg_term::{Atom, Pid, Reference, Term};

/// The elements of a tuple.
pub(crate) fn elements(term: Term) -> Option<Vec<Term>>
    ensures { option_map (λ v. v.items) result ≡ elements_of term }
{
    match term {
        Term::Tuple(fields) => Some(fields.into_vec()),
        _ => None,
    }
}

/// The elements of a list.
pub(crate) fn items(term: Term) -> Option<Vec<Term>>
    ensures { option_map (λ v. v.items) result ≡ items_of term }
{
    match term {
        Term::List(items) => Some(items.into_vec()),
        _ => None,
    }
}

/// Two parts, in their order.
pub(crate) fn two(parts: Vec<Term>) -> (Term, Term)
    requires { length parts.items ≡ 2 }
    ensures { parts.items ≡ result.0 ∷ result.1 ∷ [] }
{
    let mut rest = parts;
    let second = rest.pop().unwrap();
    let first = rest.pop().unwrap();
    drop(rest);
    (first, second)
}

/// Three parts, in their order.
pub(crate) fn three(parts: Vec<Term>) -> (Term, Term, Term)
    requires { length parts.items ≡ 3 }
    ensures { parts.items ≡ result.0 ∷ result.1 ∷ result.2 ∷ [] }
{
    let mut rest = parts;
    let third = rest.pop().unwrap();
    let second = rest.pop().unwrap();
    let first = rest.pop().unwrap();
    drop(rest);
    (first, second, third)
}

/// Whether a term is the atom of this text.
pub(crate) fn is_word(term: &Term, text: &str) -> bool
    ensures { result ≡ is_word term.now text.now }
{
    match term {
        Term::Atom(atom) => atom.as_str() == text,
        _ => false,
    }
}

/// The atom that a term is.
pub(crate) fn atom(term: Term) -> Option<Atom>
    ensures { result ≡ atom_of term }
{
    match term {
        Term::Atom(atom) => Some(atom),
        _ => None,
    }
}

/// The reference that a term is.
pub(crate) fn reference(term: Term) -> Option<Reference>
    ensures { result ≡ reference_of term }
{
    match term {
        Term::Ref(reference) => Some(reference.into_inner()),
        _ => None,
    }
}

/// The pid that a term is.
pub(crate) fn pid(term: Term) -> Option<Pid>
    ensures { result ≡ pid_of term }
{
    match term {
        Term::Pid(pid) => Some(pid),
        _ => None,
    }
}
