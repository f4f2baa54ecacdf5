ghost use Rattle.std.specs.Prelude.{◌≡◌, ◌<◌, ◌∷◌, ◌++◌, ⊤, true, false, List, ℕ, length, [], Some, None};
ghost use Rattle.std.specs.Prelude.{Ok, Err, IfSome, IfOk, IfErr, OnOk, OnErr, ◌⊎◌, ◌==◌, if◌then◌else◌};
ghost use Rattle.std.specs.Io.KnownBytes.{Appends, Keeps, Consumes, IsAtEnd};
ghost use Rattle.pg_node_state.specs.PgFrame.Frames.{front_of};
ghost use Rattle.pg_node.specs.Replicas.Causes.{AllAnswered, Cause, EachGave, FailedAt, Gave, InTurn, LeavesFlushed, Unread};
ghost use Rattle.pg_node.specs.Replicas.Fault.{out_of_memory};
ghost use Rattle.pg_node.specs.Replicas.Replica.{start, pair_of, Serves};
ghost use Rattle.pg_node_state.specs.States.{names_of, state_of};
ghost use Rattle.pg_term.specs.Same.{same_atom};
ghost use Rattle.pg_node.specs.Replicas.Progress.{HasServed, ReadsSome, StopsAt, Stops};
ghost use Rattle.pg_node.specs.declared.replica.fault.ServeFault.TheVariants.{Message, ReadFault, WriteFault};
ghost use Rattle.pg_node_state.specs.PgMessageTypes.declared.fault.MessageFault.TheVariants.{Term};
ghost use Rattle.pg_term.specs.declared.fault.TermFault.TheVariants.{Truncated};

use crate::replica::answer::answer;
use crate::replica::fault::ServeFault;
use bytes::BytesMut;
use pg_index::IndexTable;
use pg_node_state::{Deframer, GroupTable, MessageFault, NodeConfig, NodeState, started};
use pg_streams::{Sink, Source};
use pg_term::{Atom, TermFault};
use std::alloc::{AllocError, Global};

/// How many bytes one read asks for.
const PIECE_LEN: usize = 65_536;

/// How many reads a server makes at most.
const MAX_READS: u64 = 1 << 40;

/// Writes all the bytes.
///
/// Errors: `WriteFault`, where a write fails; what was written is a prefix of the bytes then.
fn put_whole<W: Sink>(writer: &mut W, bytes: &[u8]) -> Result<(), ServeFault>
    ensures ok { OnOk result (Appends (W.contents writer.old) (W.contents writer.new) bytes.now) }
    ensures fault { IfErr result (λ fault. (fault ≡ WriteFault)
        × ((part : List ℕ) × (behind : List ℕ) × (part ++ behind ≡ bytes.now)
        × Appends (W.contents writer.old) (W.contents writer.new) part)) }
    ensures cause { OnErr result (FailedAt W.fails writer.new) }
{
    let mut rest = bytes;
    while !rest.is_empty() {
        match writer.write_some(rest) {
            Ok(count) => rest = &rest[count..],
            Err(_) => return Err(ServeFault::WriteFault),
        }
    }
    Ok(())
}

/// A node with one peer, the bytes that came in and the reply that goes out.
#[derive(Drop)]
struct Server<T: GroupTable> {
    deframer: Deframer,
    node: NodeState<T>,
    reply: BytesMut,
    alloc: Global,
    ghost one_peer: { length (names_of node) ≡ 2 },
}

impl<T: GroupTable + Drop> Server<T> {
    /// Answers the next packet, if it is there: its reply is written whole before the packet is taken away.
    fn answer_next<W: Sink>(&mut self, writer: &mut W) -> Result<bool, ServeFault>
        ensures progress { OnOk result (HasServed (pair_of self.old.node) self.old.deframer.unread
            self.new.deframer.unread
            (state_of self.old.node) (state_of self.new.node)
            (W.contents writer.old) (W.contents writer.new)) }
        ensures pair { pair_of self.new.node ≡ pair_of self.old.node }
        ensures some { IfOk result (λ taken. taken ≡ true
            → length self.new.deframer.unread < length self.old.deframer.unread) }
        ensures none { IfOk result (λ taken. taken ≡ false → front_of self.new.deframer.unread ≡ Ok None) }
        ensures fault { IfErr result (λ fault. StopsAt (pair_of self.old.node) fault self.old.deframer.unread
            (state_of self.old.node) (W.contents writer.old) (W.contents writer.new)) }
        ensures cause { IfErr result (Cause ⊥ (FailedAt W.fails writer.new)) }
    {
        let body = match self.deframer.front() {
            Ok(Some(body)) => body,
            Ok(None) => return Ok(false),
            Err(_) => return Err(ServeFault::FrameTooLong),
        };
        self.reply.clear();
        answer(self.alloc, &mut self.node, body, &mut self.reply)?;
        put_whole(writer, self.reply.as_slice())?;
        // `front` gave a whole frame, so there is one to take out.
        let _ = self.deframer.next();
        Ok(true)
    }

    /// Answers all packets that are there.
    fn answer_all<W: Sink>(&mut self, writer: &mut W) -> Result<(), ServeFault>
        ensures progress { OnOk result (HasServed (pair_of self.old.node) self.old.deframer.unread
            self.new.deframer.unread
            (state_of self.old.node) (state_of self.new.node)
            (W.contents writer.old) (W.contents writer.new)) }
        ensures pair { pair_of self.new.node ≡ pair_of self.old.node }
        ensures none { OnOk result (front_of self.new.deframer.unread ≡ Ok None) }
        ensures fault { IfErr result (λ fault. Stops (pair_of self.old.node) fault self.old.deframer.unread
            (state_of self.old.node) (W.contents writer.old) (W.contents writer.new)) }
        ensures cause { IfErr result (Cause ⊥ (FailedAt W.fails writer.new)) }
    {
        while self.answer_next(writer)? {}
        Ok(())
    }

    /// Reads the next piece of the input. `false`: it is over.
    fn read<R: Source>(&mut self, reader: &mut R, piece: &mut [u8]) -> Result<bool, ServeFault>
        requires { 0 < length piece.old }
        ensures piece { IfOk result (ReadsSome (λ bytes. R.gives reader.old bytes reader.new) (R.remaining reader.old)
            (R.remaining reader.new) self.old.deframer.unread self.new.deframer.unread) }
        ensures fault { IfErr result (λ fault. (fault ≡ ReadFault) ⊎ (fault ≡ out_of_memory)) }
        ensures cause { IfErr result (Cause (R.fails reader.old reader.new) ⊥) }
        ensures memory { result ≡ Err out_of_memory → Gave R.gives reader.old reader.new }
        ensures pair { pair_of self.new.node ≡ pair_of self.old.node }
        ensures state { state_of self.new.node ≡ state_of self.old.node }
    {
        let count = match reader.read_some(piece) {
            Ok(count) => count,
            Err(_) => return Err(ServeFault::ReadFault),
        };
        if count == 0 {
            return Ok(false);
        }
        self.deframer.feed(&piece[..count])?;
        Ok(true)
    }

    /// Serves the whole input.
    fn run<R: Source, W: Sink>(&mut self, reader: &mut R, writer: &mut W) -> Result<(), ServeFault>
        requires fresh { self.old.deframer.unread ≡ [] }
        requires start { state_of self.old.node ≡ start }
        ensures known { IfSome (R.remaining reader.old) (λ input.
            Serves (pair_of self.old.node) (W.contents writer.old) (W.contents writer.new) input result) }
        ensures cause { IfErr result (Cause (Unread R.gives R.fails reader.old reader.new
            (AllAnswered (pair_of self.old.node) (W.contents writer.old) (W.contents writer.new)))
            (FailedAt W.fails writer.new)) }
        ensures flushed { LeavesFlushed W.flushed writer.old writer.new result }
        ensures memory { result ≡ Err out_of_memory → EachGave R.gives reader.old reader.new }
        ensures order { IfErr result (Cause ⊤ (InTurn R.gives W.flushed W.contents reader.old reader.new writer.old writer.new
            (λ between input. AllAnswered (pair_of self.old.node) (W.contents writer.old) (W.contents between) input))) }
    {
        let mut piece = [0; PIECE_LEN];
        for _ in 0..MAX_READS {
            if !self.read(reader, &mut piece)? {
                return self.finish();
            }
            self.answer_all(writer)?;
            if writer.flush_all().is_err() {
                return Err(ServeFault::WriteFault);
            }
        }
        Err(ServeFault::ReadFault)
    }

    /// What the end of the input leads to.
    fn finish(&self) -> Result<(), ServeFault>
        ensures { result ≡ (if length self.now.deframer.unread == 0 then Ok tt else Err (Message (Term Truncated))) }
    {
        if self.deframer.rest_len() == 0 {
            Ok(())
        } else {
            Err(ServeFault::Message(MessageFault::Term(TermFault::Truncated)))
        }
    }
}

/// Serves a stream of framed packets: the replica of the node `own`, which has the one peer `peer`, no port and no
/// group, and sends no exchange. It answers requests for updates and for locks; a lock that is free is granted once
/// the exchange of the peer was taken. It takes in the peer's groups, freed locks and ends of processes. A reply to
/// it is a stranger's, as it asks for nothing. A packet with stamp s sets the clock to `max(clock, s) + 1`, and what
/// is sent for it carries that clock.
///
/// Each reply is written whole before the next packet is taken, and all are flushed before the next read: wherever a
/// write or a flush fails, the replies to all packets that were whole before the last read had been written and
/// flushed by that read. It ends with `Ok` at the end of the input, where no bytes are left over.
///
/// Errors: the first that comes, in this order for one packet, which ends it:
///
/// - `FrameTooLong`, the faults of terms, `NotAMessage`, `StampTooLarge`, `ClockFull`, and `NotAMessage` for an
///   exchange of another node than the peer or a second one; `OutOfMemory`. The replies to the packets before it were
///   written whole. `OutOfMemory` comes only before the first read, or once a read gave some bytes: what the end of the
///   input leads to takes no memory.
/// - `ReadFault`, where a read failed or 2^40 reads were made. The replies to all packets that were read whole were
///   written and flushed.
/// - `WriteFault`, where a write or a flush failed or a write took nothing. What was written is a prefix of the
///   replies' frames. Into a `Vec` a write fails only where it is full and can't grow.
/// - `Truncated`, where the input ends and bytes are left over.
///
/// Cost: the time of the input, each update with a search of its group; an exchange costs the groups that it lists,
/// and an end the groups of its process. The memory is that of the longest frame, and of the groups with their
/// members, the ended pids and the locks that are held.
///
/// The rules: `global:set_lock/2` and `global:del_lock/1` of the global manual page, a `gen_server` call and its
/// reply (`gen_server:multi_call/4`), whose terms are in the External Term Format, and `create/1`, `delete/1`,
/// `join/2` and `leave/2` of the pg2 manual page.
pub fn serve<R: Source, W: Sink>(
    alloc: Global,
    own: &Atom,
    peer: &Atom,
    reader: &mut R,
    writer: &mut W,
) -> Result<(), ServeFault>
    ensures known { IfSome (R.remaining reader.old) (λ input. Serves (record { own = own.now; peer = peer.now })
        (W.contents writer.old) (W.contents writer.new) input result) }
    ensures cause { IfErr result (Cause (Unread R.gives R.fails reader.old reader.new
        (AllAnswered (record { own = own.now; peer = peer.now }) (W.contents writer.old) (W.contents writer.new)))
        (FailedAt W.fails writer.new)) }
    ensures flushed { LeavesFlushed W.flushed writer.old writer.new result }
    ensures memory { result ≡ Err out_of_memory → EachGave R.gives reader.old reader.new }
    ensures order { IfErr result (Cause ⊤ (InTurn R.gives W.flushed W.contents reader.old reader.new writer.old writer.new
        (λ between input. AllAnswered (record { own = own.now; peer = peer.now }) (W.contents writer.old) (W.contents between) input))) }
{
    let mut server = idle_server(alloc, own, peer)?;
    let served = server.run(reader, writer);
    drop(server);
    served
}

/// A server that has read nothing.
fn idle_server(alloc: Global, own: &Atom, peer: &Atom) -> Result<Server<IndexTable>, ServeFault>
    ensures own { same_atom own.now peer.now ≡ false → IfOk result (λ server. (pair_of server.node).own ≡ own.now) }
    ensures peer { IfOk result (λ server. (pair_of server.node).peer ≡ peer.now) }
    ensures state { IfOk result (λ server. state_of server.node ≡ start) }
    ensures unread { IfOk result (λ server. server.deframer.unread ≡ []) }
    ensures fault { IfErr result (λ fault. fault ≡ out_of_memory) }
{
    let config = NodeConfig {
        own: own_name(alloc, own, peer)?,
        peers: one_peer(alloc, peer)?,
        made: 0,
        ports: 0,
    };
    Ok(Server {
        deframer: Deframer::new(alloc),
        node: started(alloc, config, IndexTable::new(alloc))?,
        reply: BytesMut::new(alloc),
        alloc,
    })
}

/// The node's own name. The names of a set differ, so where it is the peer's another one takes its place: a node
/// without commands shows its own name in nothing that it answers.
fn own_name(alloc: Global, own: &Atom, peer: &Atom) -> Result<Atom, ServeFault>
    ensures own { same_atom own.now peer.now ≡ false → IfOk result (λ name. name ≡ own.now) }
    ensures apart { IfOk result (λ name. same_atom name peer.now ≡ false) }
    ensures fault { IfErr result (λ fault. fault ≡ out_of_memory) }
{
    if own != peer {
        return Ok(own.copy()?);
    }
    match other_name(alloc, peer) {
        Ok(name) => Ok(name),
        Err(_) => Err(ServeFault::Message(MessageFault::Term(TermFault::OutOfMemory))),
    }
}

/// A name that is not this one.
fn other_name(alloc: Global, name: &Atom) -> Result<Atom, TermFault>
    ensures { IfOk result (λ other. same_atom other name.now ≡ false) }
{
    if name.as_str().is_empty() {
        Atom::new(alloc, "a")
    } else {
        Atom::new(alloc, "")
    }
}

/// A list of this one name.
fn one_peer(alloc: Global, peer: &Atom) -> Result<Vec<Atom>, AllocError>
    ensures { IfOk result (λ peers. peers.items ≡ peer.now ∷ []) }
{
    let mut peers = Vec::with_capacity(alloc, 1)?;
    peers.push(peer.copy()?)?;
    Ok(peers)
}
