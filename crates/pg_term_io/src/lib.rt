//! Terms as bytes, in Erlang's External Term Format: read and written.
//!
//! `decode(alloc, bytes)?` reads a term, and `encode(alloc, &term)?` gives its bytes. Begin with `specs/Spelling.antt`, which bytes spell a
//! term, and `specs/Writing.antt`, what is written; then `src/reading.rt` and `src/writer.rt`. A tag more begins in `src/tag.rt`.
#![tactic(auto)]

mod element;
mod kind;
pub mod laws;
mod limits;
mod reading;
pub mod tag;
mod writer;

pub use element::NextElement;
pub use kind::Kind;
pub use limits::{MAX_DEPTH, MAX_LEN};
pub use reading::{
    check_term, decode, decode_item, decode_pid, decode_reference, kind_at, next_element,
    skip_item, tuple_at,
};
pub use writer::{
    atom_len, encode, encode_into, encode_len, int_len, item_len, list_head_len, pid_len, put_atom,
    put_int, put_item, put_list_head, put_pid, put_reference, put_tuple_head, reference_len,
    tuple_head_len,
};
