//! Clusters of which nodes are lost: the others go on, and the schedule replays.

use crate::rows::Row::{self, *};
use crate::rows::{Case, check, check_all};
use crate::setting::{Setting, THREE};
use pg_cluster::Refusal;

// What the two live nodes do.
const GO_ON: &[Row] = &[Asks(0, "create a g", "ok"), Asks(1, "create b h", "ok")];

const LOSS: &[Row] = &[Lose(2)];

const TWO: &[Row] = &[Lose(0), Lose(2), Asks(1, "create b g", "ok")];

const ONCE: &[Row] = &[
    NoLoss(3, Refusal::NoSuchPlace),
    Lose(1),
    NoLoss(1, Refusal::NodeLost),
];

const AHEAD: &[Row] = &[Asks(2, "make c", "<c.")];

const CASES: &[Case] = &[
    (THREE, &[(1, LOSS), (1, GO_ON)], 1),
    (THREE, &[(1, TWO)], 2),
    (THREE, &[(1, ONCE)], 1),
    // The lost node is ahead of the others, by commands of which it tells nobody: they see its loss behind its last event.
    (THREE, &[(100, AHEAD), (1, LOSS), (1, GO_ON)], 1),
];

#[test]
fn others_go_on(rt: HostRuntime) {
    check_all(&rt, rt.alloc(), CASES, &[]);
}

// The lost node may hold locks, and others may wait for its replies: whatever the seed, the live nodes agree.
const AT_WORK: &[Row] = &[Submits(2, "create c g"), Lose(2)];

#[test]
fn node_lost_at_work(rt: HostRuntime) {
    for seed in 0..20 {
        let seeded = Setting { seed, ..THREE };
        let case = (seeded, &[(1, AT_WORK), (1, GO_ON)][..], 1);
        check(&rt, rt.alloc(), &case, &[]);
    }
}
