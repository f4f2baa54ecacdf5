//! The headline, read slowly off a world over bytes: what each node's table should be, by the history of each group.
//!
//! `Scene::fault` tells what does not hold of a world, `are_answered` looks for what was answered in the histories, and `is_query_told` reads
//! what a query answers off the table. Begin with `src/slow/scene.rt`.

mod answered;
mod held;
mod kept;
mod queries;
mod scene;

pub use answered::are_answered;
pub use queries::is_query_told;
pub use scene::{GROUPS, Heard, History, Scene, State, World, len_of, state_of};
