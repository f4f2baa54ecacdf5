//! Worlds of packets: the nodes of a configuration that step one at a time, and the packets on the way between them.
//!
//! `world.step(&step)?` makes a step, and `world.history(&name)` gives the history of a group. Begin with `src/frame_world.rt`.
#![tactic(auto)]

mod begun;
mod effect;
mod frame_world;
mod frames;
mod laws;
mod message;
mod pending;
mod starts;
mod step;
mod way;
mod ways;
mod world;

pub use begun::{fault_or_memory, places_for, ready};
pub use effect::Effect;
pub use frame_world::FrameWorld;
pub use frames::run_frames;
pub use laws::{
    long_groups_do_not_fit, orders_keep_tables, pending_ends_are_listed, refusals_are_exact,
    steps_without_losses_lose_nobody,
};
pub use pending::pending_among;
pub use pg_index::IndexTable;
pub use pg_laws_losses::{
    each_world_past_losses, ended_processes_were_finished,
    ended_processes_were_finished_past_losses, first_packets_were_welcome, no_loss_is_seen,
    no_packet_is_refused, nodes_that_heard_the_lost_agree, one_history,
};
pub use pg_node_state::{
    Answer, Command, Deframer, FrameFault, GroupTable, Message, MessageFault, NodeFault, NodeState,
    OpId, Packet, RefFault, RefSource, Refusal, Reply, Request, Said, Scope, Start, Update, decode,
    encode, encode_into, frame_into, front_is_first_of_cut, front_is_first_packet,
    losing_nodes_keep_time, loss_cuts_packets, moving_keeps_packets, nodes_keep_time, packet_len,
    pieces_continue, same_group, same_groups, sending_adds_packets, which_groups, write_frame,
    write_packet_into, written_is_read,
};
pub use pg_ring::MemRing;
pub use pg_world_account::{Entry, Histories, Losses};
pub use pg_world_config::{Config, MAX_NODES, MAX_PORTS, WorldFault, configs_are_decided, node_at};
pub use step::{FrameStep, Stepped};
pub use world::peer_place;
