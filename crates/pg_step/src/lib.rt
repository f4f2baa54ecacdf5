//! The step of a node, as definitions: what it keeps, and what it makes of a packet, a command, a retry and a loss; the
//! machine of a configuration of such nodes; and laws of one step. `src/machine.rt` has what holds of any machine of nodes.
//!
//! `Command::Create(name)` is a command, and what a node makes of it is said in `specs/`. Begin with `specs/Step.antt` beside docs/STEP.md,
//! then `specs/State.antt`.
#![tactic(auto)]

mod answer;
mod command;
mod command_fault;
mod losses;
mod machine;
mod refusal;
mod served;
mod start;
mod step_laws;

pub use answer::{Answer, Odd, Reply, equal_answers};
pub use command::{Command, OpId};
pub use command_fault::CommandFault;
pub use losses::{
    losing_nodes_keep_time, losses_are_seen, losses_refused_in_order, without_losses,
};
pub use machine::{
    any_events, clocks, locality, runs, what_happens, what_is_reported, without_clocks,
};
pub use pg_ends::{EndFault, MAX_PROCESSES, Processes, numbered_from_one, take_end};
pub use pg_exchange::{ExchangeFault, Formation, snapshot};
pub use pg_lock::{Attempt, LockTable};
pub use pg_message_types::{
    Ended, GroupTable, MAX_STAMP, Message, MessageFault, Packet, Request, Said, Scope, Update,
    are_told_once, check_name, decode, encode, encode_into,
};
pub use pg_multicall::{Gather, MAX_PLACES, Places, Taken};
pub use pg_query::{
    QueryFault, closest, local_members, members, same_group, same_groups, which_groups,
};
pub use pg_refs::{RefFault, RefSource, number_of, reference_of, words_of};
pub use refusal::Refusal;
pub use served::peers_are_served;
pub use start::Start;
pub use step_laws::{
    looks_answer_at_once, nodes_keep_time, one_packet_each, queries_read_the_table,
    refusals_in_order, replies_are_gathered, rounds_are_followed, step_is_clocked,
};
