//! Messages that are lent.

ghost use Rattle.std.specs.Prelude.{◌≡◌};
ghost use Rattle.pg_message_writer.specs.Told.{asked_for, message_told};

use pg_message_types::{Message, Request, Said, Update};
use pg_term::{Atom, Items, Pid, Reference, Term};

/// The reference of a call, lent: as it is, or by its parts, with no need to build it.
#[derive(Clone, Copy)]
pub enum Mark<'a> {
    /// This reference.
    Whole(&'a Reference),
    /// The reference of this node, with this creation and these words.
    Parts(&'a Atom, u32, [u32; 3]),
}

/// What a call asks for, lent: a request of pg_message_types.
#[derive(Clone, Copy)]
pub enum Asked<'a> {
    /// The lock of a name.
    SetLock(&'a Term),
    /// A change of a group.
    Change(&'a Update),
}

impl<'a> Asked<'a> {
    /// What a request asks for.
    fn of(request: &'a Request) -> Asked<'a>
        ensures { asked_for result ≡ request.now }
    {
        match request {
            Request::SetLock(name) => Asked::SetLock(name),
            Request::Change(update) => Asked::Change(update),
        }
    }
}

/// A message, lent.
#[derive(Clone, Copy)]
pub(crate) enum Told<'a> {
    Call(Mark<'a>, Asked<'a>),
    Reply(Mark<'a>, Said),
    DelLock(&'a Term, Mark<'a>),
    Exchange(&'a Atom, &'a [(Term, Items<Pid>)]),
    Down(&'a Pid),
}

impl<'a> Told<'a> {
    /// What a message says.
    pub(crate) fn of(message: &'a Message) -> Told<'a>
        ensures { message_told result ≡ message.now }
    {
        match message {
            Message::Call(reference, request) => {
                Told::Call(Mark::Whole(reference), Asked::of(request))
            }
            Message::Reply(reference, said) => Told::Reply(Mark::Whole(reference), *said),
            Message::DelLock(name, reference) => Told::DelLock(name, Mark::Whole(reference)),
            Message::Exchange(node, groups) => Told::Exchange(node, groups.as_slice()),
            Message::Down(pid) => Told::Down(pid),
        }
    }
}
