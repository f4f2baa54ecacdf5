//! What an event of a node sends, and how it is made before anything changes.
//!
//! `begun(alloc, buffer, clock, &opens, number, op)?` is a `Done`: an update that begins, sent to each peer by its place, as packets or as one
//! frame. Begin with `src/done.rt` and `src/outgoing.rt`, then `src/orders.rt` and `src/sends.rt`.
//!
//! In each call that sends, `buffer` is memory that takes the frame, where one is written, and `clock` the stamp of what is sent, at most
//! 1,073,741,824. `opens` are the open commands, `op` is the command, and `number` that of the reference under which it gathers.
#![tactic(auto)]

mod begin;
mod calls;
mod done;
mod first;
mod framed;
mod frames;
mod framing;
mod goes;
mod held;
mod orders;
mod outgoing;
mod own;
mod replies;
mod sends;
mod served;

pub use begin::{announced, opening};
pub use calls::{asked, begun, done_with, ended, freed, has_peer, is_busy, update_under};
pub use done::Done;
pub use first::{all_asked, began_alone, first_asked, waiting_under};
pub use framed::Framed;
pub use frames::write_small;
pub use goes::Goes;
pub use held::Held;
pub use orders::{Numbered, Order, own_under};
pub use outgoing::Outgoing;
pub use own::{apply_own, ask_own, free_own, give_up_own};
pub use pg_message_writer::{MAX_SMALL_LEN, packet_len, write_packet_into};
pub use sends::to_live;
pub use served::{change_for_peer, forget_node, lock_for_peer};
