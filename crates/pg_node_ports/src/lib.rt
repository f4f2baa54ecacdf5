//! The ports of a node, at which commands come in, and what is answered there.
//!
//! `give(&mut ports, port, reply)` counts the next command of a port and answers it. Begin with `src/port.rt`; `src/queries.rt` and
//! `src/looks.rt` say what the own table answers.
#![tactic(auto)]

mod copies;
mod looks;
mod port;
mod queries;
mod same;

pub use looks::look;
pub use pg_node_opens::{
    Answer, Asked, Command, CommandFault, EndFault, Ended, ExchangeFault, Formation, Gathering,
    GroupTable, LockTable, MAX_STAMP, Message, MessageFault, Odd, OpId, Opens, Outlook, Packet,
    Places, Processes, RefFault, RefSource, Refusal, Reply, Request, Said, Scope, Stage, Start,
    Taken, Update, check_name, decode, encode, encode_into, losing_nodes_keep_time,
    nodes_keep_time, number_of, numbered_from_one, same_group, same_groups, steps_go_by_outlook,
    take_end, which_groups,
};
pub use port::{
    Port, count, forget, forgotten, give, idle_ports, keep_reserved, next_op, reserve_answer,
    uncount,
};
pub use queries::query_reply;
pub use same::{same_forgotten, same_ports};
