//! A node that one thread runs over rings in memory: none of its turns is short, and it sleeps once it has found nothing for long.

use crate::links::nodes_of;
use crate::rests::Sleeps;
use crate::sights::{holds, is_ok};
use pg_node_run::{
    Client, Gate, LinkedNode, NOTICE_PLACES, NodeRun, Notice, Port, port_pair, run_node,
};
use pg_ring::{MemRing, SlotIn, slot_pair};
use pg_script::{Command, IndexTable};
use pg_term::Term;
use rand_pcg::Pcg32;
use std::alloc::Global;
use std::process::Abort;

type Run = NodeRun<IndexTable, MemRing, MemRing, Pcg32>;

// How many turns the node makes, of which the first do something, and 300 then only yield.
const TURNS: u64 = 1000;

// In how many of them it sleeps at least, and at most.
const SLEEPING: (u64, u64) = (690, 699);

// A gate that lets everyone in.
#[derive(Drop)]
struct Open;

impl Gate for Open {
    fn pass(&self, _node: usize, _turn: u64, _clock: u32) {}
}

// Where the notices come, of which none will.
fn silence(rt: &impl Abort, alloc: Global) -> SlotIn<Notice> {
    let (teller, notices) = slot_pair(alloc, NOTICE_PLACES).ok().expect(rt, "memory");
    drop(teller);
    notices
}

// The node with the port, if it has no peer.
fn run_with(rt: &impl Abort, alloc: Global, port: Port) -> Run {
    let mut nodes = nodes_of(rt, alloc, "node a");
    let node = nodes.pop().expect(rt, "a node");
    drop(nodes);
    let stop = MemRing::new(alloc, 1).ok().expect(rt, "memory");
    let ports = Vec::from_array(alloc, [port]).ok().expect(rt, "memory");
    let notices = silence(rt, alloc);
    assert!(rt; node.state().peer_count() == 0);
    assert!(rt; node.state().port_count() == ports.len());
    let linked = LinkedNode::new(alloc, node, Vec::new(alloc));
    NodeRun::new(alloc, linked, ports, stop, notices, Pcg32::new(1, 2))
}

// Whether the node slept in as many turns as it should, and for as long.
fn slept(sleeps: &Sleeps) -> bool {
    let count = sleeps.count.get();
    SLEEPING.0 <= count && count <= SLEEPING.1 && sleeps.longest.get() == 4000
}

// Whether the client asks for a group and is answered, each turn is whole, and the node slept.
fn goes_on_whole(run: Run, mut client: Client) -> bool {
    let asked = client.submit(Command::Create(Term::Int(7)));
    let is_asked = asked.is_ok();
    drop(asked);
    let sleeps = Sleeps::none();
    let ran = run_node(0, run, &Open, &sleeps, TURNS);
    let is_whole = ran.turns == TURNS && ran.short == 0;
    drop(ran);
    let answer = client.poll();
    let is_answered = is_ok(answer.as_ref(), 1);
    drop(answer);
    drop(client);
    is_asked && is_answered && is_whole && slept(&sleeps)
}

#[test]
fn no_turn_is_short(rt: HostRuntime) {
    let alloc = rt.alloc();
    let (client, port) = port_pair(alloc).ok().expect(&rt, "memory");
    let run = run_with(&rt, alloc, port);
    holds(
        &rt,
        goes_on_whole(run, client),
        "each is whole of turns:",
        1000,
    );
}
