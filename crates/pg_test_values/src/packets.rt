//! Tests of packets with what stands beneath them: their bytes, their faults, names, memory that runs out, and what is
//! refused unbuilt.

mod bodies;
mod drafts;
mod forms;
mod lent;
mod lists;
mod many;
mod messages;
mod names;
mod unbuilt;
