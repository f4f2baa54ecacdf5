ghost use Rattle.std.specs.Prelude.{◌≡◌, ◌+◌, ◌<◌, ◌≤◌, ◌↔◌, ◌∷◌, ◌++◌, length, min, IfOk, IfErr, IsOk};
ghost use Rattle.pg_term.specs.Depth.{depth, greatest_depth};
ghost use Rattle.pg_term_io.specs.Writing.{digits, int_bytes, atom_bytes, pid_bytes, reference_bytes};
ghost use Rattle.pg_term_io.specs.Writing.{binary_bytes, tuple_head, list_head, item_bytes, all_bytes};
ghost use Rattle.pg_term_io.specs.Writing.{tuple_bytes, list_bytes, written, IsWritable, IsTooLong};
ghost use Rattle.pg_term_io.specs.Limits.{max_depth};

use crate::limits::{MAX_DEPTH, MAX_LEN};
use pg_term::{Atom, Pid, Reference, Term, TermFault};

// How many digits a number has in base 256.
#[tactic(auto, using(crate::proofs::WrittenDigits::counting))]
pub(crate) fn digit_count(number: u64) -> usize
    ensures value { result ≡ length (digits number) }
    ensures few { result ≤ 8 }
{
    let mut rest = number;
    let mut count = 0;
    while rest > 0 {
        rest /= 256;
        count += 1;
    }
    count
}

/// How many bytes an integer takes: SMALL_INTEGER_EXT, INTEGER_EXT or SMALL_BIG_EXT of the External
/// Term Format.
///
/// Cost: no memory.
#[tactic(auto, unfolding(crate::specs::Writing::big_bytes))]
pub fn int_len(number: i64) -> usize
    ensures value { result ≡ length (int_bytes number) }
    ensures few { result ≤ 11 }
{
    if u8::try_from(number).is_ok() {
        2
    } else if i32::try_from(number).is_ok() {
        5
    } else {
        3 + digit_count(number.unsigned_abs())
    }
}

/// How many bytes an atom takes: SMALL_ATOM_UTF8_EXT or ATOM_UTF8_EXT.
///
/// Cost: no memory.
#[tactic(auto, unfolding(crate::specs::Writing::atom_bytes))]
pub fn atom_len(atom: &Atom) -> usize
    ensures value { result ≡ length (atom_bytes atom.now) }
    ensures few { result ≤ 1023 }
{
    let len = atom.as_str().len();
    if len <= 255 { 2 + len } else { 3 + len }
}

/// How many bytes a pid takes: NEW_PID_EXT.
///
/// Cost: no memory.
#[tactic(auto, unfolding(crate::specs::Writing::pid_bytes))]
pub fn pid_len(pid: &Pid) -> usize
    ensures value { result ≡ length (pid_bytes pid.now) }
    ensures few { result ≤ 1036 }
{
    13 + atom_len(&pid.node)
}

/// How many bytes a reference takes: NEWER_REFERENCE_EXT.
///
/// Cost: no memory.
#[tactic(auto, using(crate::proofs::WrittenWords::reference_len))]
pub fn reference_len(reference: &Reference) -> usize
    ensures value { result ≡ length (reference_bytes reference.now) }
    ensures few { result ≤ 1042 }
{
    7 + atom_len(reference.node()) + 4 * reference.words().len()
}

// How many bytes a binary takes, or `usize::MAX` where that is smaller: BINARY_EXT.
fn binary_len(content: &[u8]) -> usize
    ensures { result ≡ min (length (binary_bytes content.now)) usize.MAX }
{
    content.len().saturating_add(5)
}

/// How many bytes are before the elements of a tuple: SMALL_TUPLE_EXT or LARGE_TUPLE_EXT.
///
/// Cost: no memory.
pub fn tuple_head_len(arity: usize) -> usize
    ensures { result ≡ length (tuple_head arity) }
{
    if arity <= 255 { 2 } else { 5 }
}

/// How many bytes are before the elements of a list: LIST_EXT, or none for no elements.
///
/// Cost: no memory.
pub fn list_head_len(count: usize) -> usize
    ensures { result ≡ length (list_head count) }
{
    if count == 0 { 0 } else { 5 }
}

/// How many bytes a term takes as one item, without the version byte 131, or `usize::MAX` where that is smaller.
///
/// Errors: `TooDeep`, where the term nests more than `room` levels deep.
///
/// Cost: no memory; one walk over the term, at most `room` levels down.
#[cycle(size)]
pub fn item_len(term: &Term, room: usize) -> Result<usize, TermFault>
    ensures ok { IfOk result
        (λ n. (n ≡ min (length (item_bytes term.now)) usize.MAX) × (depth term.now ≤ room)) }
    ensures err { IfErr result (λ e. (e ≡ TermFault.TooDeep) × (room < depth term.now)) }
{
    if room == 0 {
        return Err(TermFault::TooDeep);
    }
    match term {
        Term::Int(number) => Ok(int_len(*number)),
        Term::Atom(atom) => Ok(atom_len(atom)),
        Term::Ref(reference) => Ok(reference_len(reference.get())),
        Term::Pid(pid) => Ok(pid_len(pid)),
        Term::Tuple(items) => tuple_len(items.as_slice(), room - 1),
        Term::List(items) => list_len(items.as_slice(), room - 1),
        Term::Binary(content) => Ok(binary_len(content.as_slice())),
    }
}

#[cycle(size)]
fn tuple_len(terms: &[Term], room: usize) -> Result<usize, TermFault>
    ensures ok { IfOk result
        (λ n. (n ≡ min (length (tuple_bytes terms.now)) usize.MAX)
        × (greatest_depth terms.now ≤ room)) }
    ensures err { IfErr result (λ e. (e ≡ TermFault.TooDeep) × (room < greatest_depth terms.now)) }
{
    let head = tuple_head_len(terms.len());
    Ok(all_len(terms, room)?.saturating_add(head))
}

#[cycle(size)]
fn list_len(terms: &[Term], room: usize) -> Result<usize, TermFault>
    ensures ok { IfOk result
        (λ n. (n ≡ min (length (list_bytes terms.now)) usize.MAX)
        × (greatest_depth terms.now ≤ room)) }
    ensures err { IfErr result (λ e. (e ≡ TermFault.TooDeep) × (room < greatest_depth terms.now)) }
{
    let around = list_head_len(terms.len()) + 1;
    Ok(all_len(terms, room)?.saturating_add(around))
}

#[cycle(size)]
fn all_len(terms: &[Term], room: usize) -> Result<usize, TermFault>
    ensures ok { IfOk result
        (λ n. (n ≡ min (length (all_bytes terms.now)) usize.MAX)
        × (greatest_depth terms.now ≤ room)) }
    ensures err { IfErr result (λ e. (e ≡ TermFault.TooDeep) × (room < greatest_depth terms.now)) }
{
    let mut len = 0_usize;
    for term in terms {
        len = len.saturating_add(item_len(term, room)?);
    }
    Ok(len)
}

/// How many bytes `encode` writes for the term.
///
/// Errors: `TooDeep`, where the term nests more than 64 levels deep; `TooLong`, where it takes more than 16,777,216
/// bytes.
///
/// Cost: no memory; one walk over the term, at most 64 levels down.
pub fn encode_len(term: &Term) -> Result<usize, TermFault>
    ensures ok { IfOk result (λ n. n ≡ length (written term.now)) }
    ensures too_deep { (result ≡ Err TermFault.TooDeep) ↔ (max_depth < depth term.now) }
    ensures too_long { (result ≡ Err TermFault.TooLong) ↔ IsTooLong term.now }
    ensures succeeds { IsOk result ↔ IsWritable term.now }
{
    let len = item_len(term, usize::from(MAX_DEPTH))?.saturating_add(1);
    if len > MAX_LEN {
        return Err(TermFault::TooLong);
    }
    Ok(len)
}
