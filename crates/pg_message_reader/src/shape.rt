//! Whether bytes spell a packet, before anything of it is built: `check_packet(alloc, body)?` gives the fault of bytes that
//! spell none. Begin with `src/shape/packet.rt`.

mod groups;
mod leaves;
mod packet;
mod parts;
pub(crate) mod pids;

pub use groups::may_be_groups;
pub use packet::check_packet;
pub use parts::is_atom;
pub use pids::pid_head;
