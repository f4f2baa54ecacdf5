ghost use Rattle.std.specs.Prelude.{◌≡◌, ◌↔◌, ◌+◌, ◌≤◌, length, IsTrue, IsOk, IfOk, IfErr, IfSome, IfNone, true, false};
ghost use Rattle.pg_term_io.specs.Writing.{item_bytes};
ghost use Rattle.pg_message_types.specs.Name.{is_name};

use crate::fault::MessageFault;
use pg_term::Term;
use pg_term_io::item_len;

/// How many bytes a name takes at most, as it is written with the byte 131: this project's own limit.
pub const MAX_NAME_LEN: usize = 1024;

/// How deep a name nests at most: this project's own limit.
pub const MAX_NAME_DEPTH: usize = 32;

/// Whether a term may name a group.
///
/// Errors: `NameTooLarge`, where the term nests more than 32 levels deep, or takes more than 1,024 bytes as
/// `pg_term_io::encode` writes it.
///
/// Cost: no memory; one walk over the term, at most 32 levels down.
pub fn check_name(name: &Term) -> Result<(), MessageFault>
    ensures ok { IsOk result ↔ IsTrue (is_name name.now) }
    ensures err { IfErr result (λ fault. fault ≡ MessageFault.NameTooLarge) }
{
    match name_len(name) {
        Some(_) => Ok(()),
        None => Err(MessageFault::NameTooLarge),
    }
}

/// Whether a term may name a group.
///
/// Cost: no memory; the same walk as `check_name`.
pub fn is_name(term: &Term) -> bool
    ensures { result ≡ is_name term.now }
{
    name_len(term).is_some()
}

/// How many bytes a name takes as one item, without the byte 131; `None` for what `check_name` refuses.
///
/// Cost: no memory; the same walk as `check_name`.
pub fn name_len(term: &Term) -> Option<usize>
    ensures name { IfSome result (λ len. is_name term.now ≡ true) }
    ensures len { IfSome result (λ len. len ≡ length (item_bytes term.now)) }
    ensures few { IfSome result (λ len. len ≤ 1023) }
    ensures none { IfNone result (is_name term.now ≡ false) }
{
    match item_len(term, MAX_NAME_DEPTH) {
        Ok(len) if len < MAX_NAME_LEN => Some(len),
        _ => None,
    }
}
