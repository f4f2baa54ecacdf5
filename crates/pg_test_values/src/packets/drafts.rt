//! Packets that are made, not read, and why they are not written.

use crate::samples::{atom, nested, pair, pid, reference};
use pg_group::Update;
use pg_message::{MAX_STAMP, Message, Packet, Request};
use pg_term::{Atom, Items, Pid, Term, TermFault};
use std::alloc::Global;

#[derive(Clone, Copy)]
pub enum Draft {
    /// A create call that is too late.
    Late,
    /// An exchange of groups in no order, one of them named again in the end, that is too late as well.
    Twice,
    /// An exchange of so many groups whose names take 1,010 bytes.
    Long(i64),
    /// An exchange of so many groups of so many members each, and one whose name nests as deep as a name may.
    Many(i64, u32),
}

/// A packet that calls for a group of this name.
pub fn created(alloc: Global, stamp: u32, name: Term) -> Result<Packet, TermFault> {
    match reference(alloc, &[1, 0, 0]) {
        Ok(from) => Ok(Packet {
            stamp,
            message: Message::Call(from, Request::Change(Update::Create(name))),
        }),
        Err(fault) => {
            drop(name);
            Err(fault)
        }
    }
}

type Group = (Term, Items<Pid>);

fn pids(alloc: Global, count: u32) -> Result<Items<Pid>, TermFault> {
    let mut pids = Vec::new(alloc);
    for id in 0..count {
        pids.push(pid(alloc, id)?)?;
    }
    Ok(Items::from_vec(pids))
}

// A group of so many members is put behind the others.
fn put_group(
    alloc: Global,
    groups: &mut Vec<Group>,
    name: Result<Term, TermFault>,
    members: u32,
) -> Result<(), TermFault> {
    match (name, pids(alloc, members)) {
        (Ok(name), Ok(pids)) => {
            groups.push((name, pids))?;
            Ok(())
        }
        (Err(fault), pids) => {
            drop(pids);
            Err(fault)
        }
        (name, Err(fault)) => {
            drop(name);
            Err(fault)
        }
    }
}

// A name that takes 1,010 bytes.
fn long_name(alloc: Global, number: i64) -> Result<Term, TermFault> {
    let first = Term::Int(number.saturating_add(65_536));
    pair(alloc, first, atom(alloc, 250, "\u{1f600}"))
}

fn put_groups(alloc: Global, groups: &mut Vec<Group>, draft: Draft) -> Result<(), TermFault> {
    let mut told = Ok(());
    match draft {
        Draft::Late => (),
        Draft::Twice => {
            for name in &[7, 5, 6, 5] {
                told = told.and(put_group(alloc, groups, Ok(Term::Int(*name)), 1));
            }
        }
        Draft::Long(count) => {
            for number in 0..count {
                told = told.and(put_group(alloc, groups, long_name(alloc, number), 0));
            }
        }
        Draft::Many(count, members) => {
            for number in 0..count {
                told = told.and(put_group(alloc, groups, Ok(Term::Int(number)), members));
            }
            told = told.and(put_group(alloc, groups, nested(alloc, 31, Term::Int(0)), 0));
        }
    }
    told
}

// An exchange of node a.
fn exchange(alloc: Global, stamp: u32, draft: Draft) -> Result<Packet, TermFault> {
    let node = Atom::new(alloc, "a")?;
    let mut groups = Vec::new(alloc);
    match put_groups(alloc, &mut groups, draft) {
        Ok(()) => Ok(Packet {
            stamp,
            message: Message::Exchange(node, Items::from_vec(groups)),
        }),
        Err(fault) => {
            drop(groups);
            drop(node);
            Err(fault)
        }
    }
}

pub fn drafted(alloc: Global, draft: Draft) -> Result<Packet, TermFault> {
    match draft {
        Draft::Late => created(alloc, MAX_STAMP + 1, Term::Int(7)),
        Draft::Twice => exchange(alloc, MAX_STAMP + 1, draft),
        Draft::Long(_) | Draft::Many(_, _) => exchange(alloc, 0, draft),
    }
}
