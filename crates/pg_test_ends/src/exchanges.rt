//! How a node forms. Each test passes wherever an allocation is refused: it looks at what the refusal left, and makes the call
//! again.

use crate::pids::put;
use crate::verdicts::holds;
use How::*;
use pg_exchange::{ExchangeFault, Formation, snapshot};
use pg_group::{Ended, GroupTable, RowTable};
use pg_index::IndexTable;
use pg_term::{Items, Pid, Term};
use std::alloc::Global;
use std::process::Abort;

/// What becomes of a peer.
#[derive(Clone, Copy)]
pub enum How {
    /// It announces its groups, which are lent to the node.
    Announces,
    /// It announces its groups, which are given to the node.
    Gives,
    IsLost,
}

/// What becomes of which peer, the groups that it tells, from one up to another, and whether the node has formed then.
pub type Turn = (How, usize, (u32, u32), bool);

/// How many peers a node has, how often a pid is in each group that they tell, and how it forms.
pub type Forming = (usize, u32, &'static [Turn]);

const FORMINGS: &[Forming] = &[
    // A peer that is lost tells nothing more, and is not waited for.
    (
        2,
        0,
        &[
            (IsLost, 1, (0, 0), false),
            (IsLost, 1, (0, 0), false),
            (IsLost, 0, (0, 0), true),
        ],
    ),
    // An exchange takes the greater count of both.
    (
        2,
        2,
        &[(Announces, 0, (7, 8), false), (Announces, 1, (7, 8), true)],
    ),
    // Each of two peers gives its groups: three that are absent, and then three more beside them.
    (2, 2, &[(Gives, 0, (0, 3), false), (Gives, 1, (0, 6), true)]),
];

#[test]
fn nodes_form(rt: HostRuntime) {
    all_form(&rt, rt.alloc(), FORMINGS);
    holds(&rt, ExchangeFault::NotAMessage.number() == 12, "number", 12);
}

/// A node forms in each of these ways, whichever of the tables it has.
pub fn all_form(rt: &impl Abort, alloc: Global, formings: &[Forming]) {
    for forming in formings {
        let mut rows = RowTable::new(alloc);
        forms(rt, alloc, &mut rows, forming);
        drop(rows);
        let mut index = IndexTable::new(alloc);
        forms(rt, alloc, &mut index, forming);
        drop(index);
    }
}

/// A node that forms, at which nobody has ended.
#[derive(Drop)]
struct Node {
    alloc: Global,
    formation: Formation,
    ended: Ended,
    times: u32,
}

impl Node {
    /// The groups of these numbers, each of the pid of its number.
    fn told(&self, rt: &impl Abort, (from, to): (u32, u32)) -> Vec<(Term, Items<Pid>)> {
        let mut told = Vec::new(self.alloc);
        for number in from..to {
            told.reserve(1).or(told.reserve(1)).expect(rt, "room");
            let group = (Term::Int(i64::from(number)), self.pids(rt, number));
            told.push(group).expect(rt, "room");
        }
        told
    }

    fn pids(&self, rt: &impl Abort, number: u32) -> Items<Pid> {
        let mut pids = Vec::new(self.alloc);
        for _ in 0..self.times {
            put(
                rt,
                self.alloc,
                &mut pids,
                ("a", number, number.saturating_add(1)),
            );
        }
        Items::from_vec(pids)
    }

    /// Something becomes of a peer.
    fn hear<T: GroupTable>(
        &mut self,
        rt: &impl Abort,
        table: &mut T,
        (how, peer, groups): (How, usize, (u32, u32)),
    ) -> Result<(), ExchangeFault> {
        holds(rt, peer < self.formation.peers(), "peer", peer);
        let told = self.told(rt, groups);
        match how {
            Gives => self.formation.take_owned(peer, told, table, &self.ended),
            Announces => {
                let taken = self.formation.take(peer, &told, table, &self.ended);
                drop(told);
                taken
            }
            IsLost => {
                drop(told);
                self.formation.forget(peer);
                Ok(())
            }
        }
    }

    /// Whether a table says what is told.
    fn is_said<T: GroupTable>(&self, rt: &impl Abort, table: &T, groups: (u32, u32)) -> bool {
        let told = self.told(rt, groups);
        let said = snapshot(self.alloc, table).or(snapshot(self.alloc, table));
        let said = said.expect(rt, "what it says");
        let is_said = said.as_slice() == told.as_slice();
        drop(told);
        drop(said);
        is_said
    }
}

/// The node forms when the last of its peers is merged, and says no more than they told.
fn forms<T: GroupTable>(
    rt: &impl Abort,
    alloc: Global,
    table: &mut T,
    (peers, times, turns): &Forming,
) {
    let mut node = Node {
        alloc,
        formation: formation(rt, alloc, *peers),
        ended: Ended::new(alloc),
        times: *times,
    };
    holds(rt, node.formation.peers() == *peers, "peers", *peers);
    holds(rt, !node.formation.formed(), "not formed of", *peers);
    let mut before = (0, 0);
    for (place, turn) in turns.iter().enumerate() {
        take_turn(rt, table, &mut node, before, turn);
        holds(rt, is_refused(rt, table, &mut node, turn), "turn", place);
        before = turn.2;
    }
    drop(node);
}

/// A refusal changes nothing, so that no group which was put in is left. The groups that were told before are these.
fn take_turn<T: GroupTable>(
    rt: &impl Abort,
    table: &mut T,
    node: &mut Node,
    before: (u32, u32),
    (how, peer, groups, has_formed): &Turn,
) {
    if node.hear(rt, table, (*how, *peer, *groups)).is_err() {
        holds(rt, node.is_said(rt, table, before), "as before", *peer);
        holds(rt, !node.formation.formed(), "not formed by", *peer);
        node.hear(rt, table, (*how, *peer, *groups))
            .expect(rt, "again");
    }
    holds(rt, node.is_said(rt, table, *groups), "told by", *peer);
    holds(
        rt,
        node.formation.formed() == *has_formed,
        "formed by",
        *peer,
    );
}

/// Whether a peer that is merged, or lost, can't announce its groups, or give them.
fn is_refused<T: GroupTable>(rt: &impl Abort, table: &mut T, node: &mut Node, turn: &Turn) -> bool {
    let (how, peer, groups, _) = *turn;
    let how = if matches!(how, IsLost) {
        Announces
    } else {
        how
    };
    node.hear(rt, table, (how, peer, groups)) == Err(ExchangeFault::NotAMessage)
}

/// The formation of so many peers.
pub fn formation(rt: &impl Abort, alloc: Global, peers: usize) -> Formation {
    let formation = Formation::new(alloc, peers).or(Formation::new(alloc, peers));
    formation.expect(rt, "a formation")
}

/// A peer is lost.
pub fn forget(rt: &impl Abort, formation: &mut Formation, peer: usize) {
    holds(rt, peer < formation.peers(), "peer", peer);
    formation.forget(peer);
}

/// The peers that the first of two nodes of two peers loses, and the second, and whether the formations are the same.
const PAIRS: &[(&[usize], &[usize], bool)] = &[
    (&[], &[], true),
    (&[0], &[1], false),
    (&[0, 1], &[1, 0], true),
];

/// Formations are compared by the peers that are merged, and how many there are.
#[test]
fn same_peers_are_merged(rt: HostRuntime) {
    for (lost, others, is_same) in PAIRS {
        let one = without(&rt, rt.alloc(), 2, lost);
        let other = without(&rt, rt.alloc(), 2, others);
        let of_three = without(&rt, rt.alloc(), 3, others);
        let same = (one.same(&other), one.same(&of_three));
        drop(one);
        drop(other);
        drop(of_three);
        holds(&rt, same == (*is_same, false), "lost", lost.len());
    }
}

/// The formation of so many peers that has lost these.
fn without(rt: &impl Abort, alloc: Global, peers: usize, lost: &[usize]) -> Formation {
    let mut formation = formation(rt, alloc, peers);
    for peer in lost {
        forget(rt, &mut formation, *peer);
    }
    formation
}
