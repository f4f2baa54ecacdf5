//! `pg2sim bytes`.

ghost use Rattle.std.specs.Prelude.{◌≡◌, IfSome, IfOk, IfErr};
ghost use Rattle.std.specs.Str.{chars};
ghost use Rattle.pg_cluster.specs.PgNode.Replicas.Causes.{AllAnswered, FailedAt, Unread};
ghost use Rattle.pg_program.specs.Bytes.{BytesCause, NameFault, NamesFault, ServesAs, pair_of_texts};

use pg_cluster::{MessageFault, ServeFault, serve};
use pg_streams::{Sink, Source};
use pg_term::faults::BAD_CONFIG;
use pg_term::{Atom, TermFault};
use std::alloc::Global;

/// Why the input was not served to its end.
#[derive(Clone, Copy, Debug, PartialEq, Eq)]
pub(crate) enum BytesFault {
    /// The names are none, by the number of the fault: one is too long, or they are equal.
    Names(u8),
    /// The run was refused.
    Serve(ServeFault),
}

/// Serves the input as a node of this name with one peer.
pub(crate) fn serve_input<R: Source, W: Sink>(
    alloc: Global,
    own: &str,
    peer: &str,
    reader: &mut R,
    writer: &mut W,
) -> Result<(), BytesFault>
    ensures known { IfSome (R.remaining reader.old) (λ input.
        ServesAs (chars own.now) (chars peer.now) (W.contents writer.old) (W.contents writer.new) input result) }
    ensures cause { IfErr result (BytesCause (Unread R.gives R.fails reader.old reader.new
        (AllAnswered (pair_of_texts (chars own.now) (chars peer.now)) (W.contents writer.old) (W.contents writer.new)))
        (FailedAt W.fails writer.new)) }
{
    match names_of(alloc, own, peer) {
        Ok((own, peer)) => match serve(alloc, &own, &peer, reader, writer) {
            Ok(()) => Ok(()),
            Err(fault) => Err(BytesFault::Serve(fault)),
        },
        Err(fault) => Err(fault),
    }
}

/// The names of the node and of its peer.
fn names_of(alloc: Global, own: &str, peer: &str) -> Result<(Atom, Atom), BytesFault>
    ensures own { IfOk result (λ names. names.0 ≡ chars own.now) }
    ensures peer { IfOk result (λ names. names.1 ≡ chars peer.now) }
    ensures fault { IfErr result (NamesFault (chars own.now) (chars peer.now)) }
{
    let first = name_of(alloc, own)?;
    let second = name_of(alloc, peer)?;
    if first == second {
        return Err(BytesFault::Names(BAD_CONFIG));
    }
    Ok((first, second))
}

/// The name that a text is.
fn name_of(alloc: Global, text: &str) -> Result<Atom, BytesFault>
    ensures name { IfOk result (λ name. name ≡ chars text.now) }
    ensures fault { IfErr result (NameFault (chars text.now)) }
{
    match Atom::new(alloc, text) {
        Ok(name) => Ok(name),
        Err(TermFault::BadAtom) => Err(BytesFault::Names(TermFault::BadAtom.number())),
        Err(fault) => Err(BytesFault::Serve(ServeFault::Message(MessageFault::Term(fault)))),
    }
}
