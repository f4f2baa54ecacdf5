//! Links that bytes and values cross: a ring in memory, and the two ends of a ring between threads.
//!
//! Code that speaks over a link needs the traits `Link` and `Inlet` alone, so it runs over a ring in
//! memory in a test and between threads in a program. Nothing here waits: a call moves what it can.
//!
//! `ring.put(bytes)` takes bytes in, and `ring.take(&mut piece)` gives them. Begin with `src/link.rt`, the two traits, then
//! `src/mem_ring.rt`; `src/slots.rt` has the same for values between threads.
#![tactic(auto)]

mod capacity;
mod fault;
mod laws;
mod link;
mod mem_ring;
mod pair;
mod ring_in;
mod ring_out;
mod slot_in;
mod slot_out;
mod slots;

pub use capacity::{MAX_CAPACITY, is_capacity};
pub use fault::RingFault;
pub use laws::{later_ends_pair, later_slots_pair, ring_keeps_order};
pub use link::{Inlet, Link};
pub use mem_ring::MemRing;
pub use pair::{ring_pair, together};
pub use ring_in::RingIn;
pub use ring_out::RingOut;
pub use slot_in::SlotIn;
pub use slot_out::SlotOut;
pub use slots::{slot_pair, slots_together};
