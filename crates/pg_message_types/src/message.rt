ghost use Rattle.std.specs.Prelude.{◌≡◌, IfOk};
ghost use Rattle.pg_message_types.specs.declared.message.Message.TheVariants as messages;

use pg_group::Update;
use pg_term::{Atom, Items, Pid, Reference, Term};
use std::alloc::{AllocError, Global};

/// What a node says to a peer.
#[derive(Debug, Drop)]
pub enum Message {
    /// Asks for something, under the reference of the call: `{call, Ref, Request}`.
    Call(Reference, Request),
    /// Answers the call of this reference: `{reply, Ref, Said}`.
    Reply(Reference, Said),
    /// Frees the lock of a name that this reference holds: `{cast, {del_lock, Name, Ref}}`.
    DelLock(Term, Reference),
    /// Announces the groups of a node, each with its members, as often as they joined: `{cast, {exchange, Node,
    /// [[Name, Members], ..]}}`.
    Exchange(Atom, Items<(Term, Items<Pid>)>),
    /// A process has ended, as a monitor would say: `{down, Pid}`.
    Down(Pid),
}

impl Message {
    /// An equal message.
    ///
    /// Errors: `AllocError`.
    ///
    /// Cost: grows with the names and the groups.
    pub fn copy(&self, alloc: Global) -> Result<Message, AllocError>
        ensures { IfOk result (λ message. message ≡ self.now) }
    {
        match self {
            Message::Call(reference, request) => copy_call(alloc, reference, request),
            Message::Reply(reference, said) => Ok(Message::Reply(reference.copy()?, *said)),
            Message::DelLock(name, reference) => copy_del_lock(alloc, name, reference),
            Message::Exchange(node, groups) => copy_exchange(alloc, node, groups.as_slice()),
            Message::Down(pid) => Ok(Message::Down(pid.copy()?)),
        }
    }
}

fn copy_call(alloc: Global, reference: &Reference, request: &Request) -> Result<Message, AllocError>
    ensures { IfOk result (λ message. message ≡ messages.Call reference.now request.now) }
{
    let reference = reference.copy()?;
    let request = request.copy(alloc)?;
    Ok(Message::Call(reference, request))
}

fn copy_del_lock(alloc: Global, name: &Term, reference: &Reference) -> Result<Message, AllocError>
    ensures { IfOk result (λ message. message ≡ messages.DelLock name.now reference.now) }
{
    let reference = reference.copy()?;
    let name = name.copy(alloc)?;
    Ok(Message::DelLock(name, reference))
}

fn copy_exchange(
    alloc: Global,
    node: &Atom,
    groups: &[(Term, Items<Pid>)],
) -> Result<Message, AllocError>
    ensures { IfOk result (λ message. message ≡ messages.Exchange node.now groups.now) }
{
    let node = node.copy()?;
    let groups = copy_groups(alloc, groups)?;
    Ok(Message::Exchange(node, Items::from_vec(groups)))
}

fn copy_groups(
    alloc: Global,
    groups: &[(Term, Items<Pid>)],
) -> Result<Vec<(Term, Items<Pid>)>, AllocError>
    ensures { IfOk result (λ copies. copies.items ≡ groups.now) }
{
    let mut copies = Vec::with_capacity(alloc, groups.len())?;
    for (name, members) in groups {
        copies.push(copy_group(alloc, name, members.as_slice())?)?;
    }
    Ok(copies)
}

fn copy_group(alloc: Global, name: &Term, members: &[Pid]) -> Result<(Term, Items<Pid>), AllocError>
    ensures { IfOk result (λ group. group ≡ (name.now, members.now)) }
{
    let pids = copy_pids(alloc, members)?;
    let name = name.copy(alloc)?;
    Ok((name, Items::from_vec(pids)))
}

fn copy_pids(alloc: Global, pids: &[Pid]) -> Result<Vec<Pid>, AllocError>
    ensures { IfOk result (λ copies. copies.items ≡ pids.now) }
{
    let mut copies = Vec::with_capacity(alloc, pids.len())?;
    for pid in pids {
        copies.push(pid.copy()?)?;
    }
    Ok(copies)
}

/// What a call asks for.
#[derive(Debug, Drop)]
pub enum Request {
    /// The lock of a name: `{set_lock, Name}`.
    SetLock(Term),
    /// A change of a group: `{create, Name}`, `{delete, Name}`, `{join, Name, Pid}` or `{leave, Name, Pid}`.
    Change(Update),
}

impl Request {
    /// An equal request.
    ///
    /// Errors: `AllocError`.
    ///
    /// Cost: grows with the name.
    pub fn copy(&self, alloc: Global) -> Result<Request, AllocError>
        ensures { IfOk result (λ request. request ≡ self.now) }
    {
        Ok(match self {
            Request::SetLock(name) => Request::SetLock(name.copy(alloc)?),
            Request::Change(update) => Request::Change(update.copy(alloc)?),
        })
    }
}

/// What a reply says.
#[derive(Clone, Copy, Debug, PartialEq, Eq)]
pub enum Said {
    /// The lock is the caller's: `true`.
    Granted,
    /// The lock is not to be had: `false`.
    Denied,
    /// The update was applied: `ok`.
    Applied,
}
