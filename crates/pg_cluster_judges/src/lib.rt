//! What is judged once nodes have ended that ran apart, each with its links as a thread runs it: their logs, joined, make them one run.
//!
//! `order_of_logs(alloc, logs)?` is the order in which logs merge, and `closed.agrees(alloc)?` says whether the nodes of a `Closed` cluster
//! agree. Begin with `specs/Merge.antt`, then `src/order.rt`; `src/laws.rt` says what holds of logs, and `src/together.rt` what holds of nodes
//! over rings. `src/closed.rt` is a cluster that has ended: its schedule, its replay and its judges.
#![tactic(auto)]

mod closed;
mod history;
mod laws;
mod order;
mod together;

pub use closed::{
    Closed, Stopped, TurnCount, nodes_of_one_run_agree, one_losing_run_replays, one_run_replays,
    survivors_of_one_run_agree,
};
pub use history::joined_history;
pub use laws::{
    logs_join, losing_logs_join, losses_stand_last, merge_is_one, merges_are_sorted,
    seen_logs_merge_alike,
};
pub use order::order_of_logs;
pub use pg_node_run::{
    Client, Gate, Held, LinkedNode, LogEntry, NOTICE_PLACES, NodeEvent, NodeRun, Notice, Peer,
    Port, Ran, Rest, Sleepless, Turned, port_pair, ports_together, run_node,
};
pub use pg_world::{
    Answer, Command, Config, Deframer, Done, Entry, FrameFault, FrameStep, FrameWorld, Framed,
    GroupTable, IndexTable, MAX_NODES, Message, MessageFault, Node, NodeConfig, NodeFault,
    NodeState, Packet, RefFault, RefSource, Refusal, Reply, Request, Said, ServeFault, Start, Step,
    Stepped, World, WorldFault, configs_are_decided, decode, each_world_past_losses, encode_into,
    ended_processes_were_finished, ended_processes_were_finished_past_losses, fault_or_memory,
    frame_into, no_loss_is_seen, nodes_that_heard_the_lost_agree, one_history, run_frames,
    same_group, same_groups, serve, starting_nodes, steps_without_losses_lose_nobody, which_groups,
    write_packet_into,
};
pub use together::{nodes_ran_together, nodes_ran_together_past_losses};
