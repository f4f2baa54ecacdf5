//! One node of a set over packets: what it keeps, and what its events make of it.
//!
//! `state.command(port, &command)?` gives a node a command, and `state.take(peer, &packet)?` has it take a packet; both give what is
//! sent. Begin with `src/state.rt` and `specs/States.antt`; docs/STEP.md says what each event does.
#![tactic(auto)]

mod laws;
mod state;

pub use laws::{answers_are_given_to_the_rest, one_form_of_frames};
pub use pg_frame::{
    Deframer, FrameFault, frame_into, front_is_first_of_cut, front_is_first_packet,
    loss_cuts_packets, moving_keeps_packets, pieces_continue, sending_adds_packets, write_frame,
    written_is_read,
};
pub use pg_node_ports::{
    Answer, Command, Ended, GroupTable, Message, MessageFault, Odd, OpId, Packet, Places, RefFault,
    RefSource, Refusal, Reply, Request, Said, Scope, Start, Update, decode, encode, encode_into,
    losing_nodes_keep_time, nodes_keep_time, numbered_from_one, same_group, same_groups,
    which_groups,
};
pub use pg_node_sends::{
    Done, Framed, Goes, Held, MAX_SMALL_LEN, Outgoing, packet_len, write_packet_into, write_small,
};
pub use state::{NodeConfig, NodeFault, NodeState, started};
