//! What is seen of nodes.

use pg_script::{Answer, GroupTable, IndexTable, NodeState, Reply};
use pg_term::Term;
use std::process::Abort;

/// Ends the test where something does not hold, and tells of it, and of its turn.
pub fn holds(rt: &impl Abort, holds: bool, said: &str, turn: usize) {
    assert!(rt; holds, "{said} {turn}");
}

/// A node over packets.
pub type State = NodeState<IndexTable>;

/// What is seen at a node. The group is the one named 7.
#[derive(Clone, Copy)]
pub enum Sight {
    Formed(bool),
    /// Whether it has the group.
    Group(bool),
    /// Whether the group's lock is held.
    Locked(bool),
    /// So many commands are open.
    Open(usize),
    Clock(u32),
    /// This peer is lost.
    Lost(usize),
    /// The last answer of the port is `ok`, to the command of this number.
    Answered(u32),
}

/// Whether this is seen at a node.
pub fn sees(node: &State, sight: Sight) -> bool {
    match sight {
        Sight::Formed(is) => node.formed() == is,
        Sight::Group(has) => has_group(node).0 == has,
        Sight::Locked(is) => has_group(node).1 == is,
        Sight::Open(count) => node.open_count() == count,
        Sight::Clock(clock) => node.clock() == clock,
        Sight::Lost(peer) => peer < node.peer_count() && node.is_lost(peer),
        Sight::Answered(number) => node.port_count() == 1 && is_ok(node.answers(0).last(), number),
    }
}

// Whether the node has the group, and whether its lock is held.
fn has_group(node: &State) -> (bool, bool) {
    let name = Term::Int(7);
    let has = node.table().has(&name);
    let is_held = node.holder(&name).is_some();
    drop(name);
    (has, is_held)
}

/// Whether there is an answer, and that is `ok` to the command of this number.
pub fn is_ok(answer: Option<&Answer>, number: u32) -> bool {
    match answer {
        Some(answer) => answer.number == number && matches!(&answer.reply, Reply::Ok),
        None => false,
    }
}
