ghost use Rattle.std.specs.Prelude.{◌≡◌, IfOk};

use crate::atom::Atom;
use std::alloc::AllocError;

/// A process identifier, by its node and three numbers (NEW_PID_EXT of the External Term Format). Pids are compared by
/// node, serial, id and creation: the order of the fields.
#[derive(Debug, Drop, PartialEq, Eq, PartialOrd, Ord, Hash)]
pub struct Pid {
    pub node: Atom,
    pub serial: u32,
    pub id: u32,
    pub creation: u32,
}

impl Pid {
    /// An equal pid.
    ///
    /// Errors: `AllocError`.
    ///
    /// Cost: that of its node's copy.
    pub fn copy(&self) -> Result<Pid, AllocError>
        ensures { IfOk result (λ p. p ≡ self.now) }
    {
        Ok(Pid {
            node: self.node.copy()?,
            serial: self.serial,
            id: self.id,
            creation: self.creation,
        })
    }
}
