ghost use Rattle.std.specs.Prelude.{◌≡◌, IfOk};
ghost use Rattle.pg_group.specs.Numbers.{number_of, pid_at};

use pg_term::{Atom, Pid};
use std::alloc::AllocError;

/// What tells the pids of one node apart. They are compared by serial, id and creation, as pids are.
#[derive(Clone, Copy, Debug, PartialEq, Eq, PartialOrd, Ord)]
pub struct Number {
    pub serial: u32,
    pub id: u32,
    pub creation: u32,
}

impl Number {
    /// That of a pid.
    pub fn of(pid: &Pid) -> Number
        ensures { result ≡ number_of pid.now }
    {
        Number {
            serial: pid.serial,
            id: pid.id,
            creation: pid.creation,
        }
    }

    /// The pid of a node that has this number.
    ///
    /// Errors: `AllocError`.
    pub fn pid(self, node: &Atom) -> Result<Pid, AllocError>
        ensures { IfOk result (λ pid. pid ≡ pid_at node.now self) }
    {
        Ok(Pid {
            node: node.copy()?,
            serial: self.serial,
            id: self.id,
            creation: self.creation,
        })
    }
}
