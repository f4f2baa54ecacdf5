//! Nodes that tests are made of, and what is seen of them.

ghost use Rattle.std.specs.Prelude.{◌≡◌, ◌∷◌, ◌≤◌, [], false, length, IfOk};
ghost use Rattle.std.specs.List.{IsDistinct};
ghost use Rattle.pg_term.specs.Same.{same_atom};

use crate::told::{Event, happens};
use pg_node::{GroupTable, IndexTable, NodeConfig, NodeState, OpId};
use pg_term::{Atom, Term};
use pg_text::read_pid;
use std::alloc::{AllocError, Global};
use std::process::Abort;

/// A node over packets.
pub type State = NodeState<IndexTable>;

/// A node of three.
#[derive(Clone, Copy)]
pub enum Who {
    A,
    B,
    C,
}

/// The name of a node of three, those of its peers, and what they tell: that they have no group.
type Names = (&'static str, [&'static str; 2], [&'static str; 2]);

const FROM_A: &str = "{0,{cast,{exchange,a,[]}}}";

const FROM_B: &str = "{0,{cast,{exchange,b,[]}}}";

const FROM_C: &str = "{0,{cast,{exchange,c,[]}}}";

impl Who {
    fn names(self) -> Names {
        match self {
            Who::A => ("a", ["b", "c"], [FROM_B, FROM_C]),
            Who::B => ("b", ["a", "c"], [FROM_A, FROM_C]),
            Who::C => ("c", ["a", "b"], [FROM_A, FROM_B]),
        }
    }
}

/// A node of one port.
#[derive(Clone, Copy)]
pub enum Kind {
    /// `a`, which has no peer.
    Lone,
    /// The same, which can make one process more.
    Last,
    /// A node with two peers, which is not formed.
    New(Who),
    /// The same, whose peers have told their groups.
    Formed(Who),
}

/// What one of two same calls gives, of which one may have found no memory.
pub fn either<V: Drop>(
    rt: &impl Abort,
    one: Result<V, AllocError>,
    other: Result<V, AllocError>,
) -> V {
    match one {
        Ok(value) => {
            drop(other);
            value
        }
        Err(AllocError) => other.expect(rt, "memory"),
    }
}

// A node's name.
fn atom(rt: &impl Abort, alloc: Global, text: &str) -> Atom {
    match Atom::new(alloc, text) {
        Ok(atom) => atom,
        Err(_) => Atom::new(alloc, text).ok().expect(rt, "memory"),
    }
}

fn begun(alloc: Global, config: NodeConfig) -> Result<NodeState<IndexTable>, AllocError>
    requires apart { IsDistinct same_atom (config.own ∷ config.peers.items) }
    requires peers { length config.peers.items ≤ 15 }
    requires made { config.made ≤ 268435455 }
{
    let table = IndexTable::new(alloc);
    match NodeState::new(alloc, config, table) {
        Ok((node, sends)) => {
            drop(sends);
            Ok(node)
        }
        Err(error) => Err(error),
    }
}

// A node that has no peer, where so many processes were made.
fn lone_node_made(alloc: Global, own: Atom, made: u32) -> Result<State, AllocError>
    requires { made ≤ 268435455 }
{
    let peers = Vec::new(alloc);
    let config = NodeConfig {
        own,
        peers,
        made,
        ports: 1,
    };
    begun(alloc, config)
}

fn two_peers(alloc: Global, one: Atom, two: Atom) -> Result<Vec<Atom>, AllocError>
    ensures { IfOk result (λ peers. peers.items ≡ one ∷ two ∷ []) }
{
    Ok(Vec::from_array(alloc, [one, two])?)
}

fn node_of_three(
    alloc: Global,
    own: Atom,
    one: Atom,
    two: Atom,
) -> Result<NodeState<IndexTable>, AllocError>
    requires first { same_atom own one ≡ false }
    requires second { same_atom own two ≡ false }
    requires third { same_atom one two ≡ false }
{
    let peers = two_peers(alloc, one, two)?;
    let config = NodeConfig {
        own,
        peers,
        made: 0,
        ports: 1,
    };
    begun(alloc, config)
}

// A node with two peers, which is not formed.
fn new_node(rt: &impl Abort, alloc: Global, who: Who) -> Result<State, AllocError> {
    let (own, [one, two], _) = who.names();
    let own = atom(rt, alloc, own);
    let one = atom(rt, alloc, one);
    let two = atom(rt, alloc, two);
    assert!(rt; own != one);
    assert!(rt; own != two);
    assert!(rt; one != two);
    node_of_three(alloc, own, one, two)
}

fn tell(rt: &impl Abort, alloc: Global, node: &mut State, event: Event<'_>) {
    if happens(alloc, node, event).is_err() {
        happens(alloc, node, event).ok().expect(rt, "memory");
    }
}

// A node with two peers, which is formed.
fn formed_node(rt: &impl Abort, alloc: Global, who: Who) -> State {
    let (_, _, [one, two]) = who.names();
    let mut node = either(rt, new_node(rt, alloc, who), new_node(rt, alloc, who));
    tell(rt, alloc, &mut node, Event::Take(0, one));
    tell(rt, alloc, &mut node, Event::Take(1, two));
    node
}

fn lone_node(rt: &impl Abort, alloc: Global, made: u32) -> State
    requires { made ≤ 268435455 }
{
    let first = lone_node_made(alloc, atom(rt, alloc, "a"), made);
    either(rt, first, lone_node_made(alloc, atom(rt, alloc, "a"), made))
}

/// A node of this kind.
pub fn made(rt: &impl Abort, alloc: Global, kind: Kind) -> State {
    match kind {
        Kind::Lone => lone_node(rt, alloc, 0),
        Kind::Last => lone_node(rt, alloc, 268_435_454),
        Kind::New(who) => either(rt, new_node(rt, alloc, who), new_node(rt, alloc, who)),
        Kind::Formed(who) => formed_node(rt, alloc, who),
    }
}

/// What is seen at a node. The group is the one named 7.
#[derive(Clone, Copy)]
pub enum Sight<'a> {
    Formed(bool),
    /// Whether it has the group.
    Group(bool),
    /// Whether the group's lock is held.
    Locked(bool),
    /// So many commands are open.
    Open(usize),
    /// So many commands wait for a retry.
    Waiting(usize),
    /// The command of this number waits for a retry, and no other does. Whether it is ready.
    Waits(u32, bool),
    /// So many answers were given.
    Answers(usize),
    Clock(u32),
    /// This peer is lost.
    Lost(usize),
    /// This process is in the group so often.
    Counted(&'a str, u64),
}

// Whether the node has the group, and whether its lock is held.
fn has_group(node: &State) -> (bool, bool) {
    let name = Term::Int(7);
    let has = node.table().has(&name);
    let is_held = node.holder(&name).is_some();
    drop(name);
    (has, is_held)
}

fn waiting(node: &State) -> Option<usize> {
    with!(node.waiting(), Ok ops => Some(ops.len()), else None)
}

// Whether the command of this number waits, and no other.
fn is_the_one(node: &State, number: u32) -> Option<bool> {
    let op = OpId { port: 0, number };
    with!(node.waiting(), Ok ops => Some(ops.as_slice() == [op].as_slice()), else None)
}

fn counted(alloc: Global, node: &State, process: &str) -> Option<u64> {
    let name = Term::Int(7);
    let counted =
        with!(read_pid(alloc, process), Ok pid => Some(node.table().count(&name, &pid)), else None);
    drop(name);
    counted
}

// Whether this is seen at a node; none where memory was refused.
fn seen(alloc: Global, node: &State, sight: Sight<'_>) -> Option<bool> {
    match sight {
        Sight::Formed(is) => Some(node.formed() == is),
        Sight::Group(has) => Some(has_group(node).0 == has),
        Sight::Locked(is) => Some(has_group(node).1 == is),
        Sight::Open(count) => Some(node.open_count() == count),
        Sight::Waiting(count) => Some(waiting(node)? == count),
        Sight::Waits(number, ready) => Some(
            is_the_one(node, number)? && node.is_ready(OpId { port: 0, number }) == ready,
        ),
        Sight::Answers(count) => Some(node.port_count() == 1 && node.answers(0).len() == count),
        Sight::Clock(clock) => Some(node.clock() == clock),
        Sight::Lost(peer) => Some(peer < node.peer_count() && node.is_lost(peer)),
        Sight::Counted(process, count) => Some(counted(alloc, node, process)? == count),
    }
}

/// Whether this is seen at a node. It is looked at a second time where memory was refused.
pub fn sees(alloc: Global, node: &State, wanted: Sight<'_>) -> bool {
    match seen(alloc, node, wanted) {
        Some(is_seen) => is_seen,
        None => seen(alloc, node, wanted) == Some(true),
    }
}
