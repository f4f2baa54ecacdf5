ghost use Rattle.std.specs.Prelude.{◌≡◌, IfOk};

use pg_term::{Pid, Term};
use std::alloc::{AllocError, Global};

/// A change of one group (`create/1`, `delete/1`, `join/2` and `leave/2` of the pg2 manual page).
#[derive(Debug, Drop)]
pub enum Update {
    /// Makes an absent group empty.
    Create(Term),
    /// Makes the group absent, with all its memberships.
    Delete(Term),
    /// Adds one to the count of a pid in a group that is there.
    Join(Term, Pid),
    /// Takes one from the count of a pid that is a member.
    Leave(Term, Pid),
}

impl Update {
    ghost use Rattle.pg_group.specs.Value.{name_of};

    /// The group that it changes.
    ///
    /// Cost: no memory.
    pub fn name(&self) -> &Term
        ensures { result.now ≡ name_of self.now }
    {
        match self {
            Update::Create(name) | Update::Delete(name) => name,
            Update::Join(name, _) | Update::Leave(name, _) => name,
        }
    }

    /// An equal update.
    ///
    /// Errors: `AllocError`.
    ///
    /// Cost: grows with the name.
    pub fn copy(&self, alloc: Global) -> Result<Update, AllocError>
        ensures { IfOk result (λ update. update ≡ self.now) }
    {
        Ok(match self {
            Update::Create(name) => Update::Create(name.copy(alloc)?),
            Update::Delete(name) => Update::Delete(name.copy(alloc)?),
            Update::Join(name, pid) => Update::Join(name.copy(alloc)?, pid.copy()?),
            Update::Leave(name, pid) => Update::Leave(name.copy(alloc)?, pid.copy()?),
        })
    }
}
