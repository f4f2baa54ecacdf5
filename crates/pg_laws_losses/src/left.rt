//! What the live nodes agree on, where others were lost: begin with `src/left/laws.rt`.

mod laws;

pub use laws::{
    ended_processes_were_finished_past_losses, losses_take_along, nodes_that_heard_the_lost_agree,
    tables_are_made_of_what_was_taken,
};
