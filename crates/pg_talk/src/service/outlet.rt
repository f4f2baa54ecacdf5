//! Where replies go.

use crate::service::fault::ServiceFault;
use bytes::BytesMut;
use pg_cluster::{FrameFault, encode_into, frame_into};
use pg_node_requests::{numbered, refused};
use pg_streams::Sink;
use pg_term::{Atom, Term, TermFault};
use std::alloc::Global;

/// The room for a frame that is written, and whether something was written that was not passed on.
#[derive(Drop)]
pub(crate) struct Outlet {
    body: BytesMut,
    frame: BytesMut,
    is_waiting: bool,
    alloc: Global,
}

/// Where a reply goes: the name of the node, the port's number and that of the request.
#[derive(Clone, Copy)]
pub(crate) struct Address<'a> {
    pub name: &'a Atom,
    pub port: u16,
    pub number: u64,
}

impl Outlet {
    ghost use Rattle.std.specs.Prelude.{◌≡◌, true, false, IfOk, IfErr, IfSome, IfNone, OnOk};
    ghost use Rattle.std.specs.Io.KnownBytes.{Appends, Keeps};
    ghost use Rattle.pg_cluster.specs.PgNode.Replicas.Causes.{FailedAt};
    ghost use Rattle.pg_talk.specs.Faults.{Interrupted};
    ghost use Rattle.pg_talk.specs.Frames.{framed, IsUntellable, WritesReply, untellable_number};
    ghost use Rattle.pg_talk.specs.Outlets.{StaysPassedOn};
    ghost use Rattle.pg_talk.specs.declared.service.fault.ServiceFault.TheVariants.{OutOfMemory};
    ghost use Rattle.pg_node_requests.specs.Replies.{numbered_term, refused_term};

    /// One by which nothing was written. It takes no memory.
    pub(crate) fn new(alloc: Global) -> Outlet
        ensures { result.is_waiting ≡ false }
    {
        Outlet {
            body: BytesMut::new(alloc),
            frame: BytesMut::new(alloc),
            is_waiting: false,
            alloc,
        }
    }

    /// Writes a term in a frame.
    ///
    /// Faults: `WriteFault`, where a write fails; else `OutOfMemory`, also where no frame holds the term.
    pub(crate) fn put<W: Sink>(&mut self, writer: &mut W, term: &Term) -> Result<(), ServiceFault>
        ensures wrote { OnOk result (Appends (W.contents writer.old) (W.contents writer.new) (framed term.now)) }
        ensures passed { OnOk result (StaysPassedOn W.flushed self.old self.new writer.old writer.new) }
        ensures fault { IfErr result (Interrupted (FailedAt W.fails writer.new)) }
    {
        match self.put_or_tell(writer, term) {
            Ok(None) => Ok(()),
            Ok(Some(_)) => Err(ServiceFault::OutOfMemory),
            Err(fault) => Err(fault),
        }
    }

    /// Writes the reply to a request, or, where no frame holds it, that it is refused by the number of that fault.
    ///
    /// Faults: `WriteFault`, where a write fails; else `OutOfMemory`.
    pub(crate) fn put_reply<W: Sink>(
        &mut self,
        writer: &mut W,
        address: Address<'_>,
        reply: Term,
    ) -> Result<(), ServiceFault>
        ensures wrote { OnOk result (WritesReply (W.contents writer.old) (W.contents writer.new) address.entry.name.now address.entry.port address.entry.number reply) }
        ensures passed { OnOk result (StaysPassedOn W.flushed self.old self.new writer.old writer.new) }
        ensures fault { IfErr result (Interrupted (FailedAt W.fails writer.new)) }
    {
        match self.put_numbered(writer, address, reply) {
            Ok(None) => Ok(()),
            Ok(Some(fault)) => self.put_refused(writer, address, fault),
            Err(fault) => Err(fault),
        }
    }

    /// Writes the reply to a request, or gives the number of the fault by which no frame holds it; then nothing was written.
    fn put_numbered<W: Sink>(
        &mut self,
        writer: &mut W,
        address: Address<'_>,
        reply: Term,
    ) -> Result<Option<u8>, ServiceFault>
        ensures none { IfOk result (λ told. IfNone told (Appends (W.contents writer.old) (W.contents writer.new)
            (framed (numbered_term address.entry.name.now address.entry.port address.entry.number reply)))) }
        ensures some { IfOk result (λ told. IfSome told (λ fault. IsUntellable (numbered_term address.entry.name.now address.entry.port address.entry.number reply)
            × Keeps (W.contents writer.old) (W.contents writer.new))) }
        ensures number { IfOk result (λ told. IfSome told (λ fault. fault ≡ untellable_number
            (numbered_term address.entry.name.now address.entry.port address.entry.number reply))) }
        ensures passed { OnOk result (StaysPassedOn W.flushed self.old self.new writer.old writer.new) }
        ensures fault { IfErr result (Interrupted (FailedAt W.fails writer.new)) }
    {
        let term = numbered(
            self.alloc,
            address.name,
            address.port,
            address.number,
            reply,
        )?;
        let told = self.put_or_tell(writer, &term);
        drop(term);
        told
    }

    /// Writes that the reply to a request is refused by this number.
    fn put_refused<W: Sink>(
        &mut self,
        writer: &mut W,
        address: Address<'_>,
        fault: u8,
    ) -> Result<(), ServiceFault>
        ensures wrote { OnOk result (Appends (W.contents writer.old) (W.contents writer.new)
            (framed (numbered_term address.entry.name.now address.entry.port address.entry.number (refused_term fault)))) }
        ensures passed { OnOk result (StaysPassedOn W.flushed self.old self.new writer.old writer.new) }
        ensures fault { IfErr result (Interrupted (FailedAt W.fails writer.new)) }
    {
        let reply = refused(self.alloc, fault)?;
        let term = numbered(
            self.alloc,
            address.name,
            address.port,
            address.number,
            reply,
        )?;
        let told = self.put(writer, &term);
        drop(term);
        told
    }

    /// Writes a term in a frame, or gives the number of the fault by which no frame holds it; then nothing was written.
    fn put_or_tell<W: Sink>(
        &mut self,
        writer: &mut W,
        term: &Term,
    ) -> Result<Option<u8>, ServiceFault>
        ensures none { IfOk result (λ told. IfNone told (Appends (W.contents writer.old) (W.contents writer.new) (framed term.now))) }
        ensures some { IfOk result (λ told. IfSome told (λ fault. IsUntellable term.now × Keeps (W.contents writer.old) (W.contents writer.new))) }
        ensures number { IfOk result (λ told. IfSome told (λ fault. fault ≡ untellable_number term.now)) }
        ensures passed { OnOk result (StaysPassedOn W.flushed self.old self.new writer.old writer.new) }
        ensures fault { IfErr result (Interrupted (FailedAt W.fails writer.new)) }
    {
        match self.frame_of(term)? {
            None => {
                self.write(writer)?;
                Ok(None)
            }
            Some(fault) => Ok(Some(fault)),
        }
    }

    /// Makes the frame of a term, or gives the number of the fault by which no frame holds it.
    fn frame_of(&mut self, term: &Term) -> Result<Option<u8>, ServiceFault>
        ensures none { IfOk result (λ told. IfNone told (self.new.frame.items ≡ framed term.now)) }
        ensures some { IfOk result (λ told. IfSome told (λ fault. IsUntellable term.now)) }
        ensures number { IfOk result (λ told. IfSome told (λ fault. fault ≡ untellable_number term.now)) }
        ensures waiting { self.new.is_waiting ≡ self.old.is_waiting }
        ensures fault { IfErr result (λ fault. fault ≡ OutOfMemory) }
    {
        self.body.clear();
        match encode_into(term, &mut self.body) {
            Ok(()) => {}
            Err(TermFault::OutOfMemory) => return Err(ServiceFault::OutOfMemory),
            Err(fault) => return Ok(Some(fault.number())),
        }
        self.frame.clear();
        match frame_into(&mut self.frame, self.body.as_slice()) {
            Ok(()) => Ok(None),
            Err(FrameFault::TooLong) => Ok(Some(FrameFault::TooLong.number())),
            Err(FrameFault::OutOfMemory) => Err(ServiceFault::OutOfMemory),
        }
    }

    /// Writes the frame.
    fn write<W: Sink>(&mut self, writer: &mut W) -> Result<(), ServiceFault>
        ensures wrote { OnOk result (Appends (W.contents writer.old) (W.contents writer.new) self.old.frame.items) }
        ensures waiting { self.new.is_waiting ≡ true }
        ensures fault { IfErr result (Interrupted (FailedAt W.fails writer.new)) }
    {
        self.is_waiting = true;
        put_whole(writer, self.frame.as_slice())
    }

    /// Passes on what was written.
    ///
    /// Fault: `WriteFault`, where a flush fails.
    pub(crate) fn flush<W: Sink>(&mut self, writer: &mut W) -> Result<(), ServiceFault>
        ensures bytes { OnOk result (Keeps (W.contents writer.old) (W.contents writer.new)) }
        ensures none { OnOk result (self.new.is_waiting ≡ false) }
        ensures passed { OnOk result (StaysPassedOn W.flushed self.old self.new writer.old writer.new) }
        ensures fault { IfErr result (Interrupted (FailedAt W.fails writer.new)) }
    {
        if !self.is_waiting {
            return Ok(());
        }
        match writer.flush_all() {
            Ok(()) => {
                self.is_waiting = false;
                Ok(())
            }
            Err(_) => Err(ServiceFault::WriteFault),
        }
    }
}

ghost use Rattle.std.specs.Prelude.{OnOk, IfErr};
ghost use Rattle.std.specs.Io.KnownBytes.{Appends};
ghost use Rattle.pg_cluster.specs.PgNode.Replicas.Causes.{FailedAt};
ghost use Rattle.pg_talk.specs.Faults.{Interrupted};

/// Writes all the bytes.
///
/// Fault: `WriteFault`, where a write fails.
fn put_whole<W: Sink>(writer: &mut W, bytes: &[u8]) -> Result<(), ServiceFault>
    ensures wrote { OnOk result (Appends (W.contents writer.old) (W.contents writer.new) bytes.now) }
    ensures fault { IfErr result (Interrupted (FailedAt W.fails writer.new)) }
{
    let mut rest = bytes;
    while !rest.is_empty() {
        match writer.write_some(rest) {
            Ok(count) => rest = &rest[count..],
            Err(_) => return Err(ServiceFault::WriteFault),
        }
    }
    Ok(())
}
