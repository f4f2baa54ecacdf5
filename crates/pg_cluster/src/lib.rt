//! A cluster: the nodes of a configuration in threads of their own, with rings between them, and a client at each port.
//!
//! `Running::start(rt, alloc, config, seed, OpenGate, u64::MAX)?` starts one, `submit` and `poll` speak with it, and `close` ends it. Begin
//! with CALLING.md, then `src/running.rt`; the contract of its end is in `specs/Together.antt` of pg_cluster_judges.
#![tactic(auto)]

mod clocks;
mod closing;
mod cluster;
mod fault;
mod laws;
mod member;
mod notices;
mod pairs;
mod promise;
mod running;
mod runs;
mod threads;
mod wires;

pub use clocks::Clocks;
pub use cluster::Cluster;
pub use fault::StartFault;
pub use laws::{threads_are_one_losing_run, threads_are_one_run};
pub use pg_cluster_judges::{
    Answer, Client, Closed, Command, Config, Deframer, Done, FrameFault, FrameStep, FrameWorld,
    Framed, Gate, Held, IndexTable, LinkedNode, LogEntry, MAX_NODES, Message, MessageFault,
    NOTICE_PLACES, Node, NodeConfig, NodeEvent, NodeFault, NodeRun, NodeState, Notice, Packet,
    Peer, Port, RefFault, RefSource, Refusal, Reply, Request, Rest, Said, ServeFault, Sleepless,
    Start, Step, Stepped, Stopped, TurnCount, Turned, World, WorldFault, decode, encode_into,
    frame_into, nodes_of_one_run_agree, one_losing_run_replays, one_run_replays, order_of_logs,
    port_pair, run_node, serve, starting_nodes, steps_without_losses_lose_nobody,
    survivors_of_one_run_agree, which_groups, write_packet_into,
};
pub use pg_ring::{
    Inlet, Link, MemRing, RingFault, RingIn, RingOut, SlotIn, SlotOut, ring_pair, slot_pair,
    slots_together,
};
pub use running::{OpenGate, Running};
