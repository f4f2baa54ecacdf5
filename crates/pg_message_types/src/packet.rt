ghost use Rattle.std.specs.Prelude.{◌≡◌, IfOk};

use crate::message::Message;
use std::alloc::{AllocError, Global};

/// The greatest clock of a node, and so the greatest stamp: this project's own limit.
pub const MAX_STAMP: u32 = 1_073_741_824;

/// A message with the clock of its sender: `{Stamp, Message}`.
#[derive(Debug, Drop)]
pub struct Packet {
    /// The clock of the event that sent it, at most 1,073,741,824.
    pub stamp: u32,
    /// What is said.
    pub message: Message,
}

impl Packet {
    /// An equal packet.
    ///
    /// Errors: `AllocError`.
    ///
    /// Cost: grows with the names and the groups.
    pub fn copy(&self, alloc: Global) -> Result<Packet, AllocError>
        ensures { IfOk result (λ packet. packet ≡ self.now) }
    {
        Ok(Packet {
            stamp: self.stamp,
            message: self.message.copy(alloc)?,
        })
    }
}
