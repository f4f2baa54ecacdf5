//! Bytes that go out whole.

ghost use Rattle.std.specs.Prelude.{◌≡◌, ◌++◌, List, ℕ, OnOk, OnErr, IfErr};
ghost use Rattle.std.specs.Io.KnownBytes.{Appends};
ghost use Rattle.pg_script_trace.specs.PgNode.Replicas.Causes.{FailedAt};
ghost use Rattle.pg_script.specs.declared.fault.RunFault.TheVariants.{WriteFault};

use crate::fault::RunFault;
use pg_streams::Sink;

/// Writes all the bytes.
///
/// Errors: `WriteFault`, where a write fails; what was written is a prefix of the bytes then.
///
/// Cost: no memory; as many writes as the writer takes the bytes in.
pub fn put_whole<W: Sink>(writer: &mut W, bytes: &[u8]) -> Result<(), RunFault>
    ensures ok { OnOk result (Appends (W.contents writer.old) (W.contents writer.new) bytes.now) }
    ensures fault { IfErr result (λ fault. (fault ≡ WriteFault)
        × ((part : List ℕ) × (behind : List ℕ) × (part ++ behind ≡ bytes.now)
        × Appends (W.contents writer.old) (W.contents writer.new) part)) }
    ensures cause { OnErr result (FailedAt W.fails writer.new) }
{
    let mut rest = bytes;
    while !rest.is_empty() {
        match writer.write_some(rest) {
            Ok(count) => rest = &rest[count..],
            Err(_) => return Err(RunFault::WriteFault),
        }
    }
    Ok(())
}
