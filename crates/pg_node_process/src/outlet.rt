//! What goes out, gathered until it is written.

use bytes::BytesMut;
use pg_frame::{FrameFault, frame_into};
use pg_node_requests::{numbered, refused};
use pg_step::encode_into;
use pg_term::{Atom, Pid, Term, TermFault};
use pg_term_io::{MAX_LEN, int_len, item_len, pid_len, put_int, put_item, put_pid};
use std::alloc::{AllocError, Global};

/// The number of the format of what a process reads and writes.
pub const FORMAT: u8 = 1;

/// The first byte of a body that tells the clock.
const CLOCK: u8 = 17;

/// The first byte of a body that tells of a denied lock.
const DENIED: u8 = 19;

/// The first byte of a body that tells the format and the version.
const VERSION: u8 = 21;

/// The body that tells that the node is formed.
const FORMED: u8 = 22;

/// The first byte of a body that tells what the table has become.
const MIRRORED: u8 = 23;

/// What stands in a body before the name of the one assignment `{Name, Pid, Count}`: the first byte, the version of an external term, LIST_EXT of one, and
/// SMALL_TUPLE_EXT of three.
const BEFORE_ENTRY: [u8; 9] = [MIRRORED, 131, 108, 0, 0, 0, 1, 104, 3];

/// What ends its list: NIL_EXT.
const NIL: u8 = 106;

/// How many bytes these are.
const AROUND_ENTRY: usize = 10;

/// How many levels the name of a group may have there.
const NAME_DEPTH: usize = 62;

/// Where a reply goes: the name of the node, the number of the port from 1, and that of the request.
#[derive(Clone, Copy)]
pub struct Address<'a> {
    pub name: &'a Atom,
    pub port: u16,
    pub number: u64,
}

/// The frames that go out and were not written.
///
/// `AllocError` of a `put` adds nothing. But for a reply it comes only where the room that was had before does not suffice. `clear` keeps that
/// room, and a frame takes no more of it than its bytes.
#[derive(Drop)]
pub struct Outlet {
    gathered: BytesMut,
    // The body of the next frame.
    body: BytesMut,
    alloc: Global,
}

impl Outlet {
    ghost use Rattle.std.specs.Prelude.{◌≡◌, ◌≤◌, ◌<◌, ◌+◌, ◌^◌, ◌∷◌, ◌++◌, [], IfOk, IfSome, IfNone, IsOk, OnOk, OnErr, length, take};
    ghost use Rattle.std.specs.Int.{w32, to_be_bytes};
    ghost use Rattle.pg_frame.specs.Frames.{frame};
    ghost use Rattle.pg_frame.specs.Limits.{max_body};
    ghost use Rattle.pg_step.specs.PgTermIo.Writing.{IsWritable, written};
    ghost use Rattle.pg_node_requests.specs.Replies.{numbered_term, refused_term};
    ghost use Rattle.pg_term.specs.declared.term.Term.{List as Listed};
    ghost use Rattle.pg_node_process.specs.Mirrors.{entry};
    ghost use Rattle.pg_node_process.specs.Outputs.{Bytes, Clock, Denied, Formed, IsUntellable, Mirrored, Said, Says, SaysReply, Version, said, untellable_number};
    ghost use Rattle.pg_node_process.specs.Rooms.{HasRoomFor, KeepsRoom, body_room};

    /// One in which nothing is gathered.
    ///
    /// Cost: no memory.
    pub fn new(alloc: Global) -> Outlet
        ensures { result.gathered.items ≡ [] }
    {
        Outlet {
            gathered: BytesMut::new(alloc),
            body: BytesMut::new(alloc),
            alloc,
        }
    }

    /// The bytes that are gathered.
    ///
    /// Cost: no memory.
    pub fn bytes(&self) -> &[u8]
        ensures { result.now ≡ self.now.gathered.items }
    {
        self.gathered.as_slice()
    }

    /// Lets go what is gathered, once it was written.
    ///
    /// Cost: no memory, and what was taken is kept for what comes.
    pub fn clear(&mut self)
        ensures items { self.new.gathered.items ≡ [] }
        ensures room { length self.old.gathered.items + self.old.gathered.spare ≤ self.new.gathered.spare }
        ensures body { body_room self.new ≡ body_room self.old }
    {
        self.gathered.clear();
    }

    /// Lets go what was gathered behind so many bytes.
    ///
    /// Cost: no memory.
    pub fn cut(&mut self, len: usize)
        ensures { self.new.gathered.items ≡ take len self.old.gathered.items }
    {
        self.gathered.truncate(len);
    }

    /// The number of the format, and the version of the program, of at most 16,777,214 bytes.
    ///
    /// Errors: `AllocError`, which adds nothing.
    ///
    /// Cost: that of its bytes, here and below.
    pub fn put_version(&mut self, version: &str) -> Result<(), AllocError>
        requires { length version.now + 2 ≤ max_body }
        ensures ok { OnOk result (self.new.gathered.items ≡ self.old.gathered.items ++ said (Version 1 version.now)) }
        ensures err { OnErr result (self.new.gathered.items ≡ self.old.gathered.items) }
        ensures succeeds { HasRoomFor self.old (length version.now + 2) → IsOk result }
        ensures room { KeepsRoom result self.old self.new (length version.now + 2) }
    {
        self.put(&[VERSION, FORMAT], version.as_bytes())
    }

    /// Bytes for the peer at a place, at most 16,777,215. They are heard as such of a place below 16.
    ///
    /// Errors: `AllocError`, which adds nothing.
    pub fn put_bytes(&mut self, peer: u8, bytes: &[u8]) -> Result<(), AllocError>
        requires { length bytes.now + 1 ≤ max_body }
        ensures ok { OnOk result (self.new.gathered.items ≡ self.old.gathered.items ++ said (Bytes peer bytes.now)) }
        ensures err { OnErr result (self.new.gathered.items ≡ self.old.gathered.items) }
        ensures succeeds { HasRoomFor self.old (length bytes.now + 1) → IsOk result }
        ensures room { KeepsRoom result self.old self.new (length bytes.now + 1) }
    {
        self.put(&[peer], bytes)
    }

    /// The clock.
    ///
    /// Errors: `AllocError`, which adds nothing.
    pub fn put_clock(&mut self, clock: u32) -> Result<(), AllocError>
        ensures ok { OnOk result (self.new.gathered.items ≡ self.old.gathered.items ++ said (Clock clock)) }
        ensures err { OnErr result (self.new.gathered.items ≡ self.old.gathered.items) }
        ensures succeeds { HasRoomFor self.old 5 → IsOk result }
        ensures room { KeepsRoom result self.old self.new 5 }
    {
        self.put(&[CLOCK], &clock.to_be_bytes())
    }

    /// That the node is formed.
    ///
    /// Errors: `AllocError`, which adds nothing.
    pub fn put_formed(&mut self) -> Result<(), AllocError>
        ensures ok { OnOk result (self.new.gathered.items ≡ self.old.gathered.items ++ said Formed) }
        ensures err { OnErr result (self.new.gathered.items ≡ self.old.gathered.items) }
        ensures succeeds { HasRoomFor self.old 1 → IsOk result }
        ensures room { KeepsRoom result self.old self.new 1 }
    {
        self.put(&[FORMED], &[])
    }

    /// That a change was denied its lock, by the number of its port from 1.
    ///
    /// Errors: `AllocError`, which adds nothing.
    pub fn put_denied(&mut self, port: u8) -> Result<(), AllocError>
        ensures ok { OnOk result (self.new.gathered.items ≡ self.old.gathered.items ++ said (Denied port)) }
        ensures err { OnErr result (self.new.gathered.items ≡ self.old.gathered.items) }
        ensures succeeds { HasRoomFor self.old 2 → IsOk result }
        ensures room { KeepsRoom result self.old self.new 2 }
    {
        self.put(&[DENIED], &[port])
    }

    /// What the table has become, as a term of which a host's mirror is told.
    ///
    /// Errors: `AllocError`, which adds nothing: also where no frame holds the term behind its first byte.
    pub fn put_mirrored(&mut self, term: &Term) -> Result<(), AllocError>
        ensures ok { OnOk result (Says self.old.gathered.items self.new.gathered.items (Mirrored term.now)) }
        ensures err { OnErr result (self.new.gathered.items ≡ self.old.gathered.items) }

        // Only room can be missing, and of a term that a frame holds behind its first byte.
        ensures succeeds { IsWritable term.now → length (written term.now) + 1 ≤ max_body → HasRoomFor self.old (length (written term.now) + 1) → IsOk result }
    {
        self.body.clear();
        self.body.reserve(1)?;
        self.body.extend_reserved(&[MIRRORED]);
        match encode_into(term, &mut self.body) {
            Ok(()) => {}
            Err(_) => return Err(AllocError),
        }
        match frame_into(&mut self.gathered, self.body.as_slice()) {
            Ok(()) => Ok(()),
            Err(_) => Err(AllocError),
        }
    }

    /// That a process counts so often in a group, as one assignment: `[{Name, Pid, Count}]` behind the first byte of a body, as `put_mirrored` has it.
    ///
    /// Errors: `AllocError`, which adds nothing: also of a count of 2^63 or more, and where no frame holds the term behind its first byte.
    pub fn put_entry(&mut self, name: &Term, pid: &Pid, count: u64) -> Result<(), AllocError>
        ensures ok { OnOk result (Says self.old.gathered.items self.new.gathered.items (Mirrored (Listed (entry name.now pid.now count ∷ [])))) }
        ensures few { OnOk result (count < 2 ^ 63) }
        ensures err { OnErr result (self.new.gathered.items ≡ self.old.gathered.items) }

        // Only room can be missing, and of a term that a frame holds behind its first byte.
        ensures succeeds { count < 2 ^ 63 → IsWritable (Listed (entry name.now pid.now count ∷ [])) → length (written (Listed (entry name.now pid.now count ∷ []))) + 1 ≤ max_body
            → HasRoomFor self.old (length (written (Listed (entry name.now pid.now count ∷ []))) + 1) → IsOk result }
    {
        let (Ok(number), Ok(name_len)) = (i64::try_from(count), item_len(name, NAME_DEPTH)) else {
            return Err(AllocError);
        };
        let len = name_len.saturating_add(pid_len(pid) + int_len(number) + AROUND_ENTRY);
        if len > MAX_LEN {
            return Err(AllocError);
        }
        self.gathered.reserve(4 + len)?;
        self.gathered.extend_reserved(&(len as u32).to_be_bytes());
        self.gathered.extend_reserved(&BEFORE_ENTRY);
        put_item(&mut self.gathered, name);
        put_pid(&mut self.gathered, pid);
        put_int(&mut self.gathered, number);
        self.gathered.extend_reserved(&[NIL]);
        Ok(())
    }

    /// A notice: `None`, or the number of the fault by which no frame holds the term, which then adds nothing. It is 4 (`TooDeep`), where the
    /// term nests more than 64 levels deep, and else 11 (`TooLong`).
    ///
    /// Errors: `AllocError`, which adds nothing, and comes only of a term that a frame holds.
    pub fn put_term(&mut self, term: &Term) -> Result<Option<u8>, AllocError>
        ensures none { IfOk result (λ told. IfNone told (Says self.old.gathered.items self.new.gathered.items (Said term.now))) }
        ensures some { IfOk result (λ told. IfSome told (λ fault. IsUntellable term.now)) }
        ensures number { IfOk result (λ told. IfSome told (λ fault. fault ≡ untellable_number term.now)) }
        ensures kept { IfOk result (λ told. IfSome told (λ fault. self.new.gathered.items ≡ self.old.gathered.items)) }
        ensures err { OnErr result (self.new.gathered.items ≡ self.old.gathered.items) }

        // Only room can be missing, and of a term that a frame holds.
        ensures succeeds { HasRoomFor self.old (length (written term.now)) → IsOk result }
        ensures untellable { IsUntellable term.now → IsOk result }
        ensures room { KeepsRoom result self.old self.new (length (written term.now)) }
    {
        self.body.clear();
        match encode_into(term, &mut self.body) {
            Ok(()) => {}
            Err(TermFault::OutOfMemory) => return Err(AllocError),
            Err(fault) => return Ok(Some(fault.number())),
        }
        match frame_into(&mut self.gathered, self.body.as_slice()) {
            Ok(()) => Ok(None),
            Err(FrameFault::OutOfMemory) => Err(AllocError),
            Err(FrameFault::TooLong) => unreachable!(),
        }
    }

    /// The reply to a request, or, where no frame holds it, that it is refused by the number of that fault. A frame always holds that.
    ///
    /// Errors: `AllocError`, which adds nothing.
    ///
    /// Cost: that of its bytes, and memory for the tuple, with a copy of the name.
    pub fn put_reply(&mut self, address: Address<'_>, reply: Term) -> Result<(), AllocError>
        ensures ok { OnOk result (SaysReply self.old.gathered.items self.new.gathered.items address.entry.name.now address.entry.port address.entry.number reply) }
        ensures err { OnErr result (self.new.gathered.items ≡ self.old.gathered.items) }
    {
        match self.put_numbered(address, reply) {
            Ok(None) => Ok(()),
            Ok(Some(fault)) => self.put_refused(address, fault),
            Err(AllocError) => Err(AllocError),
        }
    }

    /// The reply to a request, or the number of the fault by which no frame holds it.
    fn put_numbered(&mut self, address: Address<'_>, reply: Term) -> Result<Option<u8>, AllocError>
        ensures none { IfOk result (λ told. IfNone told (Says self.old.gathered.items self.new.gathered.items
            (Said (numbered_term address.entry.name.now address.entry.port address.entry.number reply)))) }
        ensures some { IfOk result (λ told. IfSome told (λ fault. IsUntellable (numbered_term address.entry.name.now address.entry.port address.entry.number reply))) }
        ensures number { IfOk result (λ told. IfSome told (λ fault. fault
            ≡ untellable_number (numbered_term address.entry.name.now address.entry.port address.entry.number reply))) }
        ensures kept { IfOk result (λ told. IfSome told (λ fault. self.new.gathered.items ≡ self.old.gathered.items)) }
        ensures err { OnErr result (self.new.gathered.items ≡ self.old.gathered.items) }
    {
        let term = numbered(
            self.alloc,
            address.name,
            address.port,
            address.number,
            reply,
        )?;
        let told = self.put_term(&term);
        drop(term);
        told
    }

    /// That a request is refused by this number, which a frame always holds.
    fn put_refused(&mut self, address: Address<'_>, fault: u8) -> Result<(), AllocError>
        ensures ok { OnOk result (Says self.old.gathered.items self.new.gathered.items
            (Said (numbered_term address.entry.name.now address.entry.port address.entry.number (refused_term fault)))) }
        ensures err { OnErr result (self.new.gathered.items ≡ self.old.gathered.items) }
    {
        refusal_fits(address.name, address.port, address.number, fault);
        let reply = refused(self.alloc, fault)?;
        match self.put_numbered(address, reply) {
            Ok(None) => Ok(()),
            Ok(Some(_)) => unreachable!(),
            Err(AllocError) => Err(AllocError),
        }
    }

    /// The frame of a body of two parts.
    fn put(&mut self, head: &[u8], rest: &[u8]) -> Result<(), AllocError>
        requires { length head.now + length rest.now ≤ max_body }
        ensures ok { OnOk result (self.new.gathered.items ≡ self.old.gathered.items ++ frame (head.now ++ rest.now)) }
        ensures err { OnErr result (self.new.gathered.items ≡ self.old.gathered.items) }
        ensures succeeds { HasRoomFor self.old (length head.now + length rest.now) → IsOk result }
        ensures room { KeepsRoom result self.old self.new (length head.now + length rest.now) }
    {
        self.body.clear();
        self.body.reserve(head.len() + rest.len())?;
        self.body.extend_reserved(head);
        self.body.extend_reserved(rest);
        match frame_into(&mut self.gathered, self.body.as_slice()) {
            Ok(()) => Ok(()),
            Err(FrameFault::OutOfMemory) => Err(AllocError),
            Err(FrameFault::TooLong) => unreachable!(),
        }
    }
}

ghost use Rattle.pg_step.specs.PgTermIo.Writing.{IsWritable};
ghost use Rattle.pg_node_requests.specs.Replies.{numbered_term, refused_term};

/// A frame holds each refusal, since a name has at most 255 characters.
fn refusal_fits(name: &Atom, port: u16, number: u64, fault: u8)
    ensures { IsWritable (numbered_term name.now port number (refused_term fault)) }
{
    let _ = name.as_str();
}
