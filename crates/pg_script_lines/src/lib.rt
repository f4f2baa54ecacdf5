//! Lines of scripts: their words, and what each of them says.
//!
//! `read_line(alloc, "create a g")?` reads a line. Begin with `src/line.rt`, what a line is, then `specs/Forms.antt` beside
//! `examples/scripts/SCRIPTS.md`, which has each line with an example.
#![tactic(auto)]

mod adding;
mod forms;
mod keyword;
mod line;
mod printing;
mod rows;
mod words;

pub use adding::{add_char, add_number, add_text};
pub use forms::{MAX_ROUNDS, read_line};
pub use line::{Line, NodeForm, PairForm};
pub use printing::{print_answer, print_lock, print_outbox, print_refused, print_reply};
pub use rows::{Row, Widths, print_row};
