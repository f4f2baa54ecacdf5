//! Faults in words: what a line of standard error means, with the place in the script or among the words; and questions about the program
//! itself.
//!
//! `explain(alloc, &told)` makes the second line of a refusal, `line_of_fault(alloc, 40)` what is known of a number. Begin with
//! `src/refusal.rt`; `src/faults.rt` has the table of faults, `src/forms.rt` that of a script's lines.
#![tactic(auto)]

mod asides;
mod causes;
mod declared;
mod faults;
mod forms;
mod given;
mod heard;
mod line;
mod nearest;
mod parts;
mod refusal;
mod saying;
mod spelling;

pub use asides::{Aside, aside_of};
pub use faults::{FAULTS, FaultRow, line_of_fault};
pub use heard::{Heard, Kept};
pub use refusal::{Told, explain};
