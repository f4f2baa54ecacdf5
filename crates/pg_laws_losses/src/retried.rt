//! What becomes of retries where nodes were lost, and what holds of one world, whoever is lost: `each_world_past_losses()` is the law that
//! joins them. Begin with `specs/Retrying/Survived.antt`, then `src/retried/laws.rt`.

mod laws;
mod world;

pub use laws::{
    a_retry_is_answered_past_losses, every_command_can_be_answered_past_losses,
    every_lock_can_be_freed_past_losses, retries_are_answered_where_none_is_ready,
};
pub use world::each_world_past_losses;
