//! The text of a script.

ghost use Rattle.std.specs.Prelude.{◌≡◌, true, false, IfOk, ◌≤◌, length, IfErr};
ghost use Rattle.std.specs.Str.{is_utf8};
ghost use Rattle.pg_program.specs.Inputs.{IsInput, IsUnread, NoInput};
ghost use Rattle.pg_program.specs.Limits.{max_script_len};
ghost use Rattle.pg_program.specs.declared.fault.Fault.TheVariants.{Given};

use crate::fault::Fault;
use pg_streams::Source;
use pg_term::faults::{BAD_LINE, OUT_OF_MEMORY, READ_FAULT, TOO_LONG};
use std::alloc::Global;

/// How many bytes a script has at most.
pub const MAX_SCRIPT_LEN: usize = 16_777_216;

/// How many bytes one read asks for.
const PIECE_LEN: usize = 65_536;

/// Reads the input to its end, but for what follows `MAX_SCRIPT_LEN` bytes.
///
/// Faults: where a read fails, where the input is longer, or where there is no memory.
pub(crate) fn read_input<R: Source>(alloc: Global, reader: &mut R) -> Result<Vec<u8>, Fault>
    ensures bytes { IfOk result (λ bytes. IsInput R.remaining R.gives reader.old reader.new bytes.items
        × (length bytes.items ≤ max_script_len)) }
    ensures fault { IfErr result (NoInput (IsInput R.remaining R.gives reader.old reader.new)
        (IsUnread R.gives R.fails reader.old reader.new)) }
{
    let mut input = Vec::new(alloc);
    let mut piece = [0; PIECE_LEN];
    loop {
        let count = match reader.read_some(&mut piece) {
            Ok(count) => count,
            Err(_) => return Err(Fault::Run(READ_FAULT)),
        };
        if count == 0 {
            return Ok(input);
        }
        if count > MAX_SCRIPT_LEN - input.len() {
            return Err(Fault::Given(TOO_LONG));
        }
        if input.extend_from_slice(&piece[..count]).is_err() {
            return Err(Fault::Run(OUT_OF_MEMORY));
        }
    }
}

/// The text of these bytes.
///
/// Fault: where they are none.
pub(crate) fn text_of(bytes: &[u8]) -> Result<&str, Fault>
    ensures text { IfOk result (λ text. (text.now ≡ bytes.now) × (is_utf8 bytes.now ≡ true)) }
    ensures none { IfErr result (λ fault. (fault ≡ Given 40) × (is_utf8 bytes.now ≡ false)) }
{
    match str::from_utf8(bytes) {
        Ok(text) => Ok(text),
        Err(_) => Err(Fault::Given(BAD_LINE)),
    }
}
