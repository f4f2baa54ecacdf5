//! The link of a node to one peer.

ghost use Rattle.std.specs.Prelude.{◌≡◌, ◌≤◌, ◌+◌, ◌^◌, true, false, length};
ghost use Rattle.std.specs.Prelude.{take, min, Some, Ok, Err, IfOk, IfErr, IfSome, OnOk, OnErr};
ghost use Rattle.pg_node_state.specs.PgMessageWriter.Limits.{max_small_len};
ghost use Rattle.pg_node.specs.Bytes.{damages};

use bytes::BytesMut;
use pg_message_reader::{OwnReply, read_own_reply, read_packet};
use pg_node_state::{Deframer, MAX_SMALL_LEN, NodeFault, Packet, Refusal};
use pg_ring::{Inlet, Link};
use pg_term::Atom;
use std::alloc::{AllocError, Global};

/// What came in from a peer and what goes out to it.
#[derive(Debug, Drop)]
pub(crate) struct Wire {
    // The bytes that came in and were not taken.
    pub(crate) deframer: Deframer,
    // The bytes that go out and were not put.
    pub(crate) outbox: BytesMut,
    // What came in had a fault.
    pub(crate) damaged: bool,
}

impl Wire {
    ghost use Rattle.pg_node_state.specs.PgMessageTypes.Members.{IsShort};
    ghost use Rattle.pg_node_state.specs.declared.state.fault.NodeFault.TheVariants.{Damaged, OutOfMemory};
    ghost use Rattle.pg_node_state.specs.NodeFault.{from_message};
    ghost use Rattle.pg_node.specs.Links.{idle_link, link_of, with_more, with_fed, without_front, HasFrameRoom};
    ghost use Rattle.pg_message_reader.specs.Own.{own_reply};
    ghost use Rattle.pg_node.specs.Bytes.{next_packet, ReadsNext, IsSeenBroken, marked, passed, closed, is_drained, is_idle};
    ghost use Rattle.pg_node_state.specs.PgMessageTypes.declared.fault.MessageFault.{MessageFault};

    /// A link where nothing came in and nothing goes out. It takes no memory yet.
    pub(crate) fn new(alloc: Global) -> Wire
        ensures { link_of result ≡ idle_link }
    {
        Wire {
            deframer: Deframer::new(alloc),
            outbox: BytesMut::new(alloc),
            damaged: false,
        }
    }

    /// Makes room for one small frame in the outbox.
    ///
    /// Errors: `AllocError`, which changes nothing.
    pub(crate) fn reserve(&mut self) -> Result<(), AllocError>
        ensures same { link_of self.new ≡ link_of self.old }
        ensures room { OnOk result (HasFrameRoom self.new) }
        ensures stays { self.old.outbox.spare ≤ self.new.outbox.spare }
    {
        self.outbox.reserve(4 + MAX_SMALL_LEN)
    }

    /// Appends a small frame to the outbox, where there is room. It takes no memory.
    pub(crate) fn append(&mut self, frame: &[u8])
        requires short { length frame.now ≤ 4 + max_small_len }
        requires room { HasFrameRoom self.old }
        ensures { link_of self.new ≡ with_more (link_of self.old) frame.now }
    {
        self.outbox.extend_reserved(frame);
    }

    /// Moves up to `max` bytes of the outbox's front into the link, and returns how many it took. It takes no memory.
    pub(crate) fn put<L: Link>(&mut self, link: &mut L, max: usize) -> usize
        ensures within { result ≤ max }
        ensures some { result ≤ length (link_of self.old).outbox }
        ensures moved { L.accepts link.old (take result (link_of self.old).outbox) link.new }
        ensures many { L.moves link.old (min max (length (link_of self.old).outbox)) result }
        ensures rest { link_of self.new ≡ without_front (link_of self.old) result }
        ensures room { self.new.outbox.spare ≡ self.old.outbox.spare }
    {
        let bytes = self.outbox.as_slice();
        let some = max.min(bytes.len());
        let count = link.put(&bytes[..some]);
        if count > 0 {
            self.outbox.advance(count);
        }
        count
    }

    /// Adds what an inlet gives to the bytes that came in, and returns how many it gave. `piece`: where they are on
    /// the way; no more is asked for than it holds.
    ///
    /// Errors: `Damaged`, exactly where what came in had a fault; else `OutOfMemory`. They change nothing.
    pub(crate) fn pull<I: Inlet>(
        &mut self,
        inlet: &mut I,
        piece: &mut [u8],
    ) -> Result<usize, NodeFault>
        ensures within { IfOk result (λ count. count ≤ length piece.old) }
        ensures moved { IfOk result (λ count. I.gives inlet.old (take count piece.new) inlet.new) }
        ensures many { IfOk result (λ count. I.moves inlet.old (length piece.old) count) }
        ensures fed { IfOk result (λ count. link_of self.new ≡ with_fed (link_of self.old) (take count piece.new)) }
        ensures len { length piece.new ≡ length piece.old }
        ensures damaged { (link_of self.old).damaged ≡ true → result ≡ Err Damaged }
        ensures memory { (link_of self.old).damaged ≡ false → IfErr result (λ fault. fault ≡ OutOfMemory) }
        ensures err { OnErr result (link_of self.new ≡ link_of self.old) }
        ensures room { self.new.outbox.spare ≡ self.old.outbox.spare }
        ensures err_inlet { OnErr result (inlet.new ≡ inlet.old) }
    {
        if self.damaged {
            return Err(NodeFault::Damaged);
        }
        self.deframer.make_room(piece.len())?;
        let count = inlet.take(piece);
        if count > 0 {
            self.deframer.feed(&piece[..count]).unwrap();
        }
        Ok(count)
    }

    /// The packet of the next whole frame, which stays. A fault of the frame or of its body damages the link.
    ///
    /// Errors: `Damaged`; `TooLong`; `Message`. `OutOfMemory` may come in the place of a `Message` that takes memory to be
    /// seen, as `read_packet` has it.
    pub(crate) fn next(&mut self, alloc: Global) -> Result<Option<Packet>, NodeFault>
        ensures told { ReadsNext (next_packet (link_of self.old)) result }
        ensures broken { (fault : MessageFault) → IsSeenBroken (link_of self.old) fault → result ≡ Err (from_message fault) }
        ensures few { IfOk result (λ some. IfSome some (λ packet. IsShort (2 ^ 32) packet.message)) }
        ensures same { OnOk result (link_of self.new ≡ link_of self.old) }
        ensures marked { IfErr result (λ fault. link_of self.new ≡ marked (link_of self.old) fault) }
        ensures room { self.new.outbox.spare ≡ self.old.outbox.spare }
    {
        match self.front_packet(alloc) {
            Ok(packet) => Ok(packet),
            Err(fault) => {
                self.mark(fault);
                Err(fault)
            }
        }
    }

    /// The same, but that nothing is marked.
    fn front_packet(&self, alloc: Global) -> Result<Option<Packet>, NodeFault>
        ensures told { ReadsNext (next_packet (link_of self.now)) result }
        ensures broken { (fault : MessageFault) → IsSeenBroken (link_of self.now) fault → result ≡ Err (from_message fault) }
        ensures few { IfOk result (λ some. IfSome some (λ packet. IsShort (2 ^ 32) packet.message)) }
    {
        if self.damaged {
            return Err(NodeFault::Damaged);
        }
        match self.deframer.front() {
            Ok(Some(body)) => match read_packet(alloc, body) {
                Ok(packet) => Ok(Some(packet)),
                Err(fault) => Err(NodeFault::from(fault)),
            },
            Ok(None) => Ok(None),
            Err(_) => Err(NodeFault::TooLong),
        }
    }

    /// The next packet, where that is a reply which is read as numbers (`read_own_reply`) by the node of this name. It takes no
    /// memory.
    pub(crate) fn own_reply(&self, own: &Atom) -> Option<OwnReply>
        ensures { IfSome result (λ reply. next_packet (link_of self.now) ≡ Ok (Some (own_reply own.now reply))) }
    {
        if self.damaged {
            return None;
        }
        match self.deframer.front() {
            Ok(Some(body)) => read_own_reply(own, body),
            _ => None,
        }
    }

    /// Damages the link, where this fault of what came in does. It takes no memory.
    pub(crate) fn mark(&mut self, fault: NodeFault)
        ensures marked { link_of self.new ≡ marked (link_of self.old) fault }
        ensures room { self.new.outbox.spare ≡ self.old.outbox.spare }
    {
        if damages(fault) {
            self.damaged = true;
        }
    }

    /// Takes out the next whole frame, where one is there. It takes no memory.
    pub(crate) fn pass(&mut self)
        ensures passed { link_of self.new ≡ passed (link_of self.old) }
        ensures room { self.new.outbox.spare ≡ self.old.outbox.spare }
    {
        let _ = self.deframer.next();
    }

    /// Nothing goes out any more.
    pub(crate) fn close(&mut self)
        ensures closed { link_of self.new ≡ closed (link_of self.old) }
        ensures room { self.old.outbox.spare ≤ self.new.outbox.spare }
    {
        self.outbox.clear();
    }

    /// Whether nothing is there to be read yet: no whole frame came, and no fault. It takes no memory.
    pub(crate) fn is_idle(&self) -> bool
        ensures { result ≡ is_idle (link_of self.now) }
    {
        !self.damaged && matches!(self.deframer.front(), Ok(None))
    }

    /// Whether nothing is left to be taken: what came in had a fault, or no whole frame is there. It takes no memory.
    pub(crate) fn is_drained(&self) -> bool
        ensures { result ≡ is_drained (link_of self.now) }
    {
        self.damaged || !matches!(self.deframer.front(), Ok(Some(_)))
    }
}

// Whether a fault of what came in damages the link.
fn damages(fault: NodeFault) -> bool
    ensures { result ≡ damages fault }
{
    match fault {
        NodeFault::Message(_) | NodeFault::TooLong => true,
        NodeFault::Refused(refusal) => matches!(refusal, Refusal::NotAMessage),
        NodeFault::Damaged | NodeFault::OutOfMemory => false,
    }
}
