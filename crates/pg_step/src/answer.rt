ghost use Rattle.std.specs.Prelude.{◌≡◌, ◌↔◌, true, IfOk};

use pg_term::{Items, Pid, Term};
use std::alloc::{AllocError, Global};

/// What a command is answered.
#[derive(Debug, Drop, PartialEq, Eq)]
pub enum Reply {
    /// It is done.
    Ok,
    /// The process that was made.
    Made(Pid),
    /// Members in the order of pids, each as often as it joined.
    Pids(Items<Pid>),
    /// The member that the word picked.
    Closest(Pid),
    /// The names of the groups in the order of terms.
    Groups(Items<Term>),
    /// There is no group of this name: `{error, {no_such_group, Name}}`.
    NoSuchGroup(Term),
    /// The group of this name has no member: `{error, {no_process, Name}}`.
    NoProcess(Term),
    /// The node refused the command, by the number of the fault.
    Refused(u8),
}

impl Reply {
    /// An equal reply.
    ///
    /// Errors: `AllocError`.
    ///
    /// Cost: grows with what it lists and with its name.
    pub fn copy(&self, alloc: Global) -> Result<Reply, AllocError>
        ensures { IfOk result (λ reply. reply ≡ self.now) }
    {
        Ok(match self {
            Reply::Ok => Reply::Ok,
            Reply::Made(pid) => Reply::Made(pid.copy()?),
            Reply::Pids(pids) => {
                let pids = copy_pids(alloc, pids.as_slice())?;
                Reply::Pids(Items::from_vec(pids))
            }
            Reply::Closest(pid) => Reply::Closest(pid.copy()?),
            Reply::Groups(names) => {
                let names = copy_names(alloc, names.as_slice())?;
                Reply::Groups(Items::from_vec(names))
            }
            Reply::NoSuchGroup(name) => Reply::NoSuchGroup(name.copy(alloc)?),
            Reply::NoProcess(name) => Reply::NoProcess(name.copy(alloc)?),
            Reply::Refused(fault) => Reply::Refused(*fault),
        })
    }
}

fn copy_pids(alloc: Global, pids: &[Pid]) -> Result<Vec<Pid>, AllocError>
    ensures { IfOk result (λ copies. copies.items ≡ pids.now) }
{
    let mut copies = Vec::with_capacity(alloc, pids.len())?;
    for pid in pids {
        copies.push(pid.copy()?)?;
    }
    Ok(copies)
}

fn copy_names(alloc: Global, names: &[Term]) -> Result<Vec<Term>, AllocError>
    ensures { IfOk result (λ copies. copies.items ≡ names.now) }
{
    let mut copies = Vec::with_capacity(alloc, names.len())?;
    for name in names {
        copies.push(name.copy(alloc)?)?;
    }
    Ok(copies)
}

/// The answer to the command of this number of a port.
#[derive(Debug, Drop, PartialEq, Eq)]
pub struct Answer {
    pub number: u32,
    pub reply: Reply,
}

impl Answer {
    /// An equal answer.
    ///
    /// Errors: `AllocError`.
    ///
    /// Cost: that of the reply.
    pub fn copy(&self, alloc: Global) -> Result<Answer, AllocError>
        ensures { IfOk result (λ answer. answer ≡ self.now) }
    {
        Ok(Answer {
            number: self.number,
            reply: self.reply.copy(alloc)?,
        })
    }
}

/// A reply that completes nothing.
#[derive(Clone, Copy, Debug, PartialEq, Eq)]
pub enum Odd {
    /// No call of the node waits for it from that peer.
    Stranger,
    /// The peer has replied to that call.
    Double,
}

ghost use Rattle.pg_step.specs.SameAnswers.{same_reply, same_answer};
ghost use Rattle.pg_step.specs.declared.answer.Answer.{Answer};
ghost use Rattle.pg_step.specs.declared.answer.Reply.{Reply};

/// `==` is true exactly where two replies, or two answers, are one.
pub fn equal_answers()
    ensures replies { (x y : Reply) → (same_reply x y ≡ true) ↔ (x ≡ y) }
    ensures answers { (x y : Answer) → (same_answer x y ≡ true) ↔ (x ≡ y) }
{}
