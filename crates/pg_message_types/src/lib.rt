//! Packets: what nodes say to each other, as terms and as bytes.
//!
//! `check_name(&name)?` tests the name of a group. Begin with `src/message.rt`, which has each message, and then `specs/Writing.antt`, its
//! term.
#![tactic(auto)]

mod fault;
mod groups;
mod laws;
mod message;
mod name;
mod packet;

pub use fault::MessageFault;
pub use groups::{are_named_once, are_told_once};
pub use laws::{limits_of_packets, read_back};
pub use message::{Message, Request, Said};
pub use name::{MAX_NAME_DEPTH, MAX_NAME_LEN, check_name, is_name, name_len};
pub use packet::{MAX_STAMP, Packet};
pub use pg_group::{Ended, GroupTable, RowTable, Scope, Update};
pub use pg_term_io::{
    Kind, MAX_LEN, NextElement, atom_len, check_term, decode, decode_item, encode, encode_into,
    encode_len, int_len, kind_at, list_head_len, next_element, pid_len, put_atom, put_int,
    put_item, put_list_head, put_pid, put_reference, reference_len, skip_item, tuple_at,
};
