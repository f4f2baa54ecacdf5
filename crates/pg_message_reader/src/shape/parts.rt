//! What kind of part is at the start of bytes, and what follows it: no memory is taken.

ghost use Rattle.std.specs.Prelude.{◌≡◌, ◌<◌, ◌≤◌, ℕ, List, length, true, false, nat_eq, is_some, IfSome, IfNone, Ok};
ghost use Rattle.pg_term.specs.declared.term.Term.{Term};
ghost use Rattle.pg_term.specs.Order.{kind_of};
ghost use Rattle.pg_message_types.specs.PgTermIo.Reading.{item_at};
ghost use Rattle.pg_message_types.specs.PgTermIo.Scanning.{past};
ghost use Rattle.pg_message_types.specs.Name.{is_name};
ghost use Rattle.pg_message_types.specs.Parts.{atom_of, pid_of, reference_of};

use pg_message_types::{Kind, MAX_NAME_LEN, kind_at, skip_item};

/// How many bytes a name takes at most, however it is spelled: 400 times as many as it is written in.
const MAX_SPELLED_NAME: usize = 400 * (MAX_NAME_LEN - 1);

/// Whether a part is an atom. Each atom may be a name.
///
/// Cost: no memory; O(1).
pub fn is_atom(bytes: &[u8]) -> bool
    ensures kind { (room : ℕ) (t : Term) (rest : List ℕ) → item_at room bytes.now ≡ Ok (t, rest)
        → result ≡ nat_eq (kind_of t) 1 }
    ensures atom { (room : ℕ) (t : Term) (rest : List ℕ) → item_at room bytes.now ≡ Ok (t, rest)
        → result ≡ is_some (atom_of t) }
{
    match kind_at(bytes) {
        Some(Kind::Atom) => true,
        _ => false,
    }
}

/// Whether a part is an integer.
pub(crate) fn is_int(bytes: &[u8]) -> bool
    ensures { (room : ℕ) (t : Term) (rest : List ℕ) → item_at room bytes.now ≡ Ok (t, rest)
        → result ≡ nat_eq (kind_of t) 0 }
{
    match kind_at(bytes) {
        Some(Kind::Integer) => true,
        _ => false,
    }
}

/// Whether a part is a reference.
pub(crate) fn is_reference(bytes: &[u8]) -> bool
    ensures { (room : ℕ) (t : Term) (rest : List ℕ) → item_at room bytes.now ≡ Ok (t, rest)
        → result ≡ is_some (reference_of t) }
{
    match kind_at(bytes) {
        Some(Kind::Reference) => true,
        _ => false,
    }
}

/// Whether a part is a pid.
pub(crate) fn is_pid(bytes: &[u8]) -> bool
    ensures { (room : ℕ) (t : Term) (rest : List ℕ) → item_at room bytes.now ≡ Ok (t, rest)
        → result ≡ is_some (pid_of t) }
{
    match kind_at(bytes) {
        Some(Kind::Pid) => true,
        _ => false,
    }
}

/// What follows a part that may nest so many levels; of what is none, the bytes themselves.
pub(crate) fn past(levels: u8, bytes: &[u8]) -> &[u8]
    ensures { (t : Term) (rest : List ℕ) → item_at levels bytes.now ≡ Ok (t, rest) → rest ≡ result.now }
{
    match skip_item(levels, bytes) {
        Ok(rest) => rest,
        Err(_) => bytes,
    }
}

/// What follows a part that may be a name by its length; `None` for what is none.
pub(crate) fn past_name(levels: u8, bytes: &[u8]) -> Option<&[u8]>
    requires { levels ≤ 64 }
    ensures some { IfSome result (λ rest. past (item_at levels bytes.now) ≡ Ok rest.now) }
    ensures none { (t : Term) (rest : List ℕ) → IfNone result
        (item_at levels bytes.now ≡ Ok (t, rest) → is_name t ≡ false) }
    ensures shorter { IfSome result (λ rest. length rest.now < length bytes.now) }
{
    match skip_item(levels, bytes) {
        Ok(rest) if bytes.len().saturating_sub(rest.len()) <= MAX_SPELLED_NAME => Some(rest),
        _ => None,
    }
}
