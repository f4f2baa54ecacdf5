//! What a node sends its peers, by what it names.

ghost use Rattle.std.specs.Prelude.{◌≡◌, IfOk};
ghost use Rattle.pg_node_opens.specs.Opens.{live_of};
ghost use Rattle.pg_node_opens.specs.PgStep.Attempts.{own_reference};
ghost use Rattle.pg_message_writer.specs.Told.{reference_lent};
ghost use Rattle.pg_node_sends.specs.Orders.{message_of, reference_in};

use pg_message_writer::Mark;
use pg_node_opens::{Message, Opens, Request, Said, Update, reference_of, words_of};
use pg_term::{Atom, Pid, Reference, Term};
use std::alloc::{AllocError, Global};

/// A reference of a node by its number. It is made where it goes.
#[derive(Clone, Copy)]
pub struct Numbered<'a> {
    /// The name of the node.
    pub node: &'a Atom,
    /// The number, as `pg_refs::reference_of` numbers references.
    pub number: u32,
}

impl<'a> Numbered<'a> {
    /// The reference. A copy of the name of the node.
    ///
    /// Errors: `AllocError`.
    pub fn made(self) -> Result<Reference, AllocError>
        ensures { IfOk result (λ reference. reference ≡ reference_in self.entry) }
    {
        reference_of(self.node, self.number)
    }

    /// The reference, lent to a writer by its parts. It takes no memory.
    pub(crate) fn lent(self) -> Mark<'a>
        ensures { reference_lent result ≡ reference_in self.entry }
    {
        Mark::Parts(self.node, 1, words_of(self.number))
    }
}

/// The own reference of a number. It takes no memory.
pub fn own_under(opens: &Opens, number: u32) -> Numbered<'_>
    ensures { reference_in result ≡ own_reference (live_of opens.now) number }
{
    Numbered {
        node: opens.name(0),
        number,
    }
}

/// What a node sends its peers: for a command of its own, or as the answer to one of theirs.
#[derive(Clone, Copy)]
pub enum Order<'a> {
    /// The lock of a name is asked for, under a reference.
    Lock(&'a Term, Numbered<'a>),
    /// The lock of a name is free, which this reference held.
    Free(&'a Term, Numbered<'a>),
    /// A group changes, under a reference.
    Change(&'a Update, Numbered<'a>),
    /// A process has ended.
    End(&'a Pid),
    /// This is said to a call, by its reference.
    Reply(&'a Reference, Said),
}

impl Order<'_> {
    /// The message that says it. A copy of what it names.
    ///
    /// Errors: `AllocError`.
    pub fn message(&self, alloc: Global) -> Result<Message, AllocError>
        ensures { IfOk result (λ message. message ≡ message_of self.now) }
    {
        Ok(match self {
            Order::Lock(name, reference) => {
                Message::Call(reference.made()?, Request::SetLock(name.copy(alloc)?))
            }
            Order::Free(name, reference) => {
                let reference = reference.made()?;
                Message::DelLock(name.copy(alloc)?, reference)
            }
            Order::Change(update, reference) => {
                Message::Call(reference.made()?, Request::Change(update.copy(alloc)?))
            }
            Order::End(pid) => Message::Down(pid.copy()?),
            Order::Reply(reference, said) => Message::Reply(reference.copy()?, *said),
        })
    }
}
