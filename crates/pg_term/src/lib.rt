//! Terms of Erlang as plain data: integers, atoms, references, pids, tuples, lists and binaries, with their order, equality and hash; and
//! the numbers of all faults (`faults`).
//!
//! `Term::Atom(Atom::new(alloc, "a")?)` is a term. Begin with `src/term.rt`, which has its forms; `specs/Same.antt` says when two terms are
//! one, and `specs/Order.antt` which comes first.
#![tactic(auto)]

mod atom;
mod boxed;
mod fault;
pub mod faults;
mod fields;
mod items;
mod laws;
mod pid;
mod reference;
mod short;
mod term;
mod text;

pub use atom::{Atom, is_long};
pub use boxed::Boxed;
pub use fault::TermFault;
pub use fields::Fields;
pub use items::Items;
pub use laws::{equality, numbers_of_faults, order, order_by_kind};
pub use pid::Pid;
pub use reference::Reference;
pub use term::Term;
