//! Who watches a conversation.

/// Watches a conversation.
pub trait Onlooker {
    /// Is told at each look at the clients how many commands were answered by then, and how many there are to be asked.
    fn look(&mut self, answered: u64, asked: u64);
}

/// Watches nothing.
#[derive(Drop)]
pub struct Quiet;

impl Onlooker for Quiet {
    fn look(&mut self, _answered: u64, _asked: u64) {}
}
