//! The commands that are open at a node, and what is gathered for each of them.
//!
//! `opens.stage(op)` says how far a command is, and `marks.at(place)` what has come of the node at a place that a command asks. Begin with
//! `src/opens.rt`, then `specs/Commands.antt`; of what is gathered with `specs/Marks.antt`, then `src/marks.rt`.
#![tactic(auto)]

mod command;
mod laws;
mod mark;
mod marks;
mod nodes;
mod opens;
mod outlook;
mod twin;

pub use command::{Gathering, Stage};
pub use laws::steps_go_by_outlook;
pub use mark::{Asked, Mark, Wanted};
pub use marks::Marks;
pub use opens::Opens;
pub use outlook::Outlook;
pub use pg_step::{
    Answer, Attempt, Command, CommandFault, EndFault, Ended, ExchangeFault, Formation, Gather,
    GroupTable, LockTable, MAX_PLACES, MAX_STAMP, Message, MessageFault, Odd, OpId, Packet, Places,
    Processes, QueryFault, RefFault, RefSource, Refusal, Reply, Request, Said, Scope, Start, Taken,
    Update, check_name, closest, decode, encode, encode_into, equal_answers, local_members,
    losing_nodes_keep_time, members, nodes_keep_time, number_of, numbered_from_one, reference_of,
    same_group, same_groups, snapshot, take_end, which_groups, words_of,
};
