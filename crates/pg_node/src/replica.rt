//! One node as a replica: it is fed the frames of its one peer as a stream, and writes its replies.
//!
//! `serve(alloc, &own, &peer, &mut reader, &mut writer)?` serves an input to its end. Begin with `src/replica/server.rt` and
//! `specs/Replicas/Replica.antt`.

mod answer;
mod fault;
mod server;

pub use fault::ServeFault;
pub use server::serve;
