//! What a closed cluster tells of its nodes and of its groups.

use crate::closed::{Judged, closed_after, holds};
use crate::judges::SURVIVING;
use pg_term::{Atom, Term};
use std::alloc::Global;
use std::process::Abort;

// Which node makes which group.
const MAKING: [(usize, &str); 3] = [(0, "k"), (1, "g"), (2, "h")];

// The node that made a group, if nothing else was done to that.
fn maker_of(alloc: Global, cluster: &Judged, name: &Term) -> Option<usize> {
    match cluster.closed.history(alloc, &cluster.config, name) {
        Ok(Some(entries)) => {
            let node = match entries.as_slice() {
                [entry] => Some(entry.node),
                _ => None,
            };
            drop(entries);
            node
        }
        _ => None,
    }
}

// The node that made the group of this name.
fn maker(rt: &impl Abort, alloc: Global, cluster: &Judged, name: &str) -> Option<usize> {
    let name = Term::Atom(Atom::new(alloc, name).ok().expect(rt, "memory"));
    let maker = maker_of(alloc, cluster, &name);
    drop(name);
    maker
}

// `c` makes `h` and is lost, and then `a` makes `k` and `b` makes `g`.
#[test]
fn of_nodes_and_groups(rt: HostRuntime) {
    let cluster = closed_after(&rt, rt.alloc(), SURVIVING);
    let closed = &cluster.closed;
    for (node, name) in MAKING {
        let made = maker(&rt, rt.alloc(), &cluster, name);
        let short = closed.short_turns(node);
        holds(&rt, made == Some(node), "its node made it");
        holds(&rt, closed.is_lost(node) == (node == 2), "only c is lost");
        holds(&rt, closed.turns(node) > short, "it makes whole turns");
        holds(&rt, short == Some(0), "and no short ones");
        let answers = closed.answers(node, 0);
        holds(&rt, matches!(answers, Some([_])), "it answers");
        holds(&rt, closed.answers(node, 1).is_none(), "it has one port");
    }
    let is_none = closed.answers(3, 0).is_none();
    holds(&rt, is_none, "no other node is there");
    drop(cluster);
}
