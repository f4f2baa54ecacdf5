//! What is logged, gathered until it is written: a head, and then each body as it was read, with a mark for each act that it does not decide.

ghost use Rattle.std.specs.Prelude.{◌≡◌, ◌∷◌, [], pos, IfOk, map};
ghost use Rattle.pg_term.specs.declared.term.Term.{List as Listed};
ghost use Rattle.pg_term.specs.declared.term.Term.TheVariants.{Int, Atom as Word, Binary as Bytes};
ghost use Rattle.pg_node_process.specs.Logs.{head_term};

use bytes::BytesMut;
use pg_frame::{FrameFault, frame_into};
use pg_step::encode_into;
use pg_term::{Atom, Fields, Items, Term};
use std::alloc::{AllocError, Global};

/// The number of the format of a log.
pub const LOG_FORMAT: u8 = 1;

/// How many bytes a label has at most.
pub const MAX_LABEL: usize = 255;

/// The first byte of a mark. No length of a body begins with it.
const MARK: u8 = 255;

/// The second byte of a mark of a change that was tried again.
const TRIED: u8 = 1;

/// The second byte of a mark of a change that was handed over.
const HANDED: u8 = 2;

/// What a log begins with.
#[derive(Clone, Copy)]
pub struct Head<'a> {
    /// The version of the program, as text.
    pub version: &'a [u8],
    /// The name of the node, and those of its peers, in the order of their places.
    pub own: &'a Atom,
    pub peers: &'a [Atom],
    /// How many ports the node has, and how many processes count as made.
    pub ports: u16,
    pub made: u32,
    /// What the host calls the run.
    pub label: &'a [u8],
}

/// An act of the node that no body decides, by the number of a port from 1.
#[derive(Clone, Copy, Debug, PartialEq, Eq)]
pub enum Mark {
    /// The change of the port was tried again.
    Tried(u8),
    /// The next change of the port was handed over.
    Handed(u8),
}

/// What is to be logged and was not written.
#[derive(Drop)]
pub struct Journal {
    gathered: BytesMut,
    // The body of the head.
    body: BytesMut,
}

impl Journal {
    ghost use Rattle.std.specs.Prelude.{◌≡◌, ◌≤◌, ◌+◌, ◌++◌, [], IsOk, OnOk, OnErr, length};
    ghost use Rattle.pg_frame.specs.Limits.{max_body};
    ghost use Rattle.pg_node_process.specs.Rooms.{TakesRoom};
    ghost use Rattle.pg_node_process.specs.Logs.{HeadIsRead, Read, entry_bytes, entry_of, head_bytes, head_given};

    /// One in which nothing is gathered.
    ///
    /// Cost: no memory.
    pub fn new(alloc: Global) -> Journal
        ensures { result.gathered.items ≡ [] }
    {
        Journal {
            gathered: BytesMut::new(alloc),
            body: BytesMut::new(alloc),
        }
    }

    /// The bytes that are gathered.
    ///
    /// Cost: no memory.
    pub fn bytes(&self) -> &[u8]
        ensures { result.now ≡ self.now.gathered.items }
    {
        self.gathered.as_slice()
    }

    /// Lets go what is gathered, once it was written.
    ///
    /// Cost: no memory, and what was taken is kept for what comes.
    pub fn clear(&mut self)
        ensures items { self.new.gathered.items ≡ [] }
        ensures room { length self.old.gathered.items + self.old.gathered.spare ≤ self.new.gathered.spare }
    {
        self.gathered.clear();
    }

    /// What a log begins with. It is read back as what it is, whatever is logged behind it.
    ///
    /// Errors: `AllocError`, which adds nothing, and comes also where no frame holds it.
    ///
    /// Cost: that of its bytes, and of a copy of each name.
    pub fn put_head(&mut self, alloc: Global, head: Head<'_>) -> Result<(), AllocError>
        ensures ok { OnOk result (self.new.gathered.items ≡ self.old.gathered.items ++ head_bytes (head_given head.entry)) }
        ensures back { OnOk result (HeadIsRead (head_given head.entry)) }
        ensures err { OnErr result (self.new.gathered.items ≡ self.old.gathered.items) }
    {
        let term = head_term(alloc, head)?;
        self.body.clear();
        let written = encode_into(&term, &mut self.body);
        drop(term);
        match written {
            Ok(()) => {}
            Err(_) => return Err(AllocError),
        }
        match frame_into(&mut self.gathered, self.body.as_slice()) {
            Ok(()) => Ok(()),
            Err(_) => Err(AllocError),
        }
    }

    /// A body as it was read, of at most 16,777,216 bytes.
    ///
    /// Errors: `AllocError`, which adds nothing, and comes only where the room that was had before does not suffice.
    ///
    /// Cost: that of its bytes.
    pub fn put_body(&mut self, body: &[u8]) -> Result<(), AllocError>
        requires { length body.now ≤ max_body }
        ensures ok { OnOk result (self.new.gathered.items ≡ self.old.gathered.items ++ entry_bytes (Read body.now)) }
        ensures err { OnErr result (self.new.gathered.items ≡ self.old.gathered.items) }
        ensures succeeds { 4 + length body.now ≤ self.old.gathered.spare → IsOk result }
        ensures room { TakesRoom result self.old.gathered.spare self.new.gathered.spare (4 + length body.now) }
    {
        match frame_into(&mut self.gathered, body) {
            Ok(()) => Ok(()),
            Err(FrameFault::OutOfMemory) => Err(AllocError),
            Err(FrameFault::TooLong) => unreachable!(),
        }
    }

    /// A mark.
    ///
    /// Errors: `AllocError`, which adds nothing, and comes only where the room that was had before does not suffice.
    ///
    /// Cost: that of four bytes.
    pub fn put_mark(&mut self, mark: Mark) -> Result<(), AllocError>
        ensures ok { OnOk result (self.new.gathered.items ≡ self.old.gathered.items ++ entry_bytes (entry_of mark)) }
        ensures err { OnErr result (self.new.gathered.items ≡ self.old.gathered.items) }
        ensures succeeds { 4 ≤ self.old.gathered.spare → IsOk result }
        ensures room { TakesRoom result self.old.gathered.spare self.new.gathered.spare 4 }
    {
        match mark {
            Mark::Tried(port) => self.gathered.extend_from_slice(&[MARK, TRIED, 0, port]),
            Mark::Handed(port) => self.gathered.extend_from_slice(&[MARK, HANDED, 0, port]),
        }
    }
}

ghost use Rattle.pg_node_process.specs.Logs.{head_given};

/// What a log begins with, as a term.
fn head_term(alloc: Global, head: Head<'_>) -> Result<Term, AllocError>
    ensures { IfOk result (λ term. term ≡ head_term (head_given head.entry)) }
{
    let peers = names(alloc, head.peers)?;
    match head_parts(alloc, head, peers) {
        Ok(parts) => Ok(Term::Tuple(Fields::from_vec(parts))),
        Err(AllocError) => Err(AllocError),
    }
}

/// Its parts.
fn head_parts(alloc: Global, head: Head<'_>, peers: Vec<Term>) -> Result<Vec<Term>, AllocError>
    ensures { IfOk result (λ parts. parts.items
        ≡ Int (pos 1) ∷ Bytes head.entry.version.now ∷ Word head.entry.own.now ∷ Listed peers.items ∷ Int (pos head.entry.ports) ∷ Int (pos head.entry.made) ∷ Bytes head.entry.label.now ∷ []) }
{
    let version = head.version.to_vec(alloc)?;
    let label = head.label.to_vec(alloc)?;
    let own = head.own.copy()?;
    let mut parts = Vec::with_capacity(alloc, 7)?;
    parts.push_reserved(Term::Int(i64::from(LOG_FORMAT)));
    parts.push_reserved(Term::Binary(Items::from_vec(version)));
    parts.push_reserved(Term::Atom(own));
    parts.push_reserved(Term::List(Items::from_vec(peers)));
    parts.push_reserved(Term::Int(i64::from(head.ports)));
    parts.push_reserved(Term::Int(i64::from(head.made)));
    parts.push_reserved(Term::Binary(Items::from_vec(label)));
    Ok(parts)
}

/// Names as terms.
fn names(alloc: Global, atoms: &[Atom]) -> Result<Vec<Term>, AllocError>
    ensures { IfOk result (λ terms. terms.items ≡ map Word atoms.now) }
{
    let mut terms = Vec::with_capacity(alloc, atoms.len())?;
    for atom in atoms {
        let name = atom.copy()?;
        terms.push(Term::Atom(name))?;
    }
    Ok(terms)
}
