//! Worlds of nodes: the nodes of a configuration that step one at a time, and the bytes on the way between them. This crate is the door to
//! worlds of packets, too.
//!
//! `world.step(&step)?` makes a step, and `world.history(&name)` gives the history of a group. Begin with `src/byte_world.rt`, or with
//! `frame_world.rt` of pg_world_packets; `history.rt` of pg_uses plays such a world.
#![tactic(auto)]

mod byte_world;
mod bytes;
mod rings;
mod step;

pub use byte_world::World;
pub use bytes::{run, starting_nodes};
pub use pg_node::{
    Done, Framed, Node, NodeConfig, NodeFault, NodeState, Outgoing, ServeFault, read_packet, serve,
};
pub use pg_world_packets::{
    Answer, Command, Config, Deframer, Effect, Entry, FrameFault, FrameStep, FrameWorld,
    GroupTable, IndexTable, MAX_NODES, MAX_PORTS, Message, MessageFault, OpId, Packet, RefFault,
    RefSource, Refusal, Reply, Request, Said, Scope, Start, Stepped, Update, WorldFault,
    configs_are_decided, decode, each_world_past_losses, encode, encode_into,
    ended_processes_were_finished, ended_processes_were_finished_past_losses, fault_or_memory,
    first_packets_were_welcome, frame_into, long_groups_do_not_fit, losing_nodes_keep_time,
    no_loss_is_seen, nodes_keep_time, nodes_that_heard_the_lost_agree, one_history,
    orders_keep_tables, packet_len, pending_ends_are_listed, pieces_continue, refusals_are_exact,
    run_frames, same_group, same_groups, steps_without_losses_lose_nobody, which_groups,
    write_frame, write_packet_into, written_is_read,
};
pub use step::Step;
