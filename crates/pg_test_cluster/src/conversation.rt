//! Clients that speak with their nodes.

use crate::rows::Row::{self, Asks};
use crate::rows::{Case, check_all};
use crate::setting::{Setting, THREE, TWO};

// The second client creates the group, makes a process, and joins, asks for the members and leaves again and again.
const SECOND: &[Row] = &[Asks(1, "create b g", "ok"), Asks(1, "make b", "<b.1.0>")];

const AGAIN: &[Row] = &[
    Asks(1, "join b g <b.1.0>", "ok"),
    Asks(1, "members b g", "[<b.1.0>]"),
    Asks(1, "leave b g <b.1.0>", "ok"),
];

// The first client creates the group, each makes a process, and all join and leave ten times.
const FIRST: &[Row] = &[
    Asks(0, "create a g", "ok"),
    Asks(0, "make a", "<a.1.0>"),
    Asks(1, "make b", "<b.1.0>"),
    Asks(2, "make c", "<c.1.0>"),
];

const ALL_AGAIN: &[Row] = &[
    Asks(0, "join a g <a.1.0>", "ok"),
    Asks(1, "join b g <b.1.0>", "ok"),
    Asks(2, "join c g <c.1.0>", "ok"),
    Asks(0, "leave a g <a.1.0>", "ok"),
    Asks(1, "leave b g <b.1.0>", "ok"),
    Asks(2, "leave c g <c.1.0>", "ok"),
];

const RINGS_OF_ONE_BYTE: Setting = Setting { ring: 1, ..THREE };

const CASES: &[Case] = &[
    (TWO, &[(1, SECOND), (20, AGAIN)], 0),
    (RINGS_OF_ONE_BYTE, &[(1, FIRST), (10, ALL_AGAIN)], 0),
];

#[test]
fn clients_are_answered(rt: HostRuntime) {
    check_all(&rt, rt.alloc(), CASES, &[]);
}
