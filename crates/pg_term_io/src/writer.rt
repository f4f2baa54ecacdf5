//! Terms written as bytes: begin with `src/writer/writing.rt`. What is written is said in `specs/Writing.antt`.

mod size;
mod writing;

pub use size::{
    atom_len, encode_len, int_len, item_len, list_head_len, pid_len, reference_len, tuple_head_len,
};
pub use writing::{
    encode, encode_into, put_atom, put_int, put_item, put_list_head, put_pid, put_reference,
    put_tuple_head,
};
