//! Why an exploration ends early.

use pg_term::faults::OUT_OF_MEMORY;
use pg_world_packets::WorldFault;
use std::alloc::{AllocError, AllocFailed};
use thiserror::Error;

/// Why an exploration ended early.
#[derive(Clone, Copy, Debug, PartialEq, Eq, Error)]
pub enum ExploreFault {
    /// No world of the configuration can begin.
    #[error(transparent)]
    World(WorldFault),
    #[error("out of memory")]
    OutOfMemory,
}

impl ExploreFault {
    ghost use Rattle.std.specs.Prelude.{◌≡◌};
    ghost use Rattle.pg_explore.specs.Faults.{explore_number_of};

    /// The number of the fault in this project's one list of faults.
    ///
    /// Cost: no memory.
    pub fn number(self) -> u8
        ensures { result ≡ explore_number_of self }
    {
        match self {
            ExploreFault::World(fault) => fault.number(),
            ExploreFault::OutOfMemory => OUT_OF_MEMORY,
        }
    }
}

impl From<AllocError> for ExploreFault {
    ghost use Rattle.std.specs.Prelude.{◌≡◌};
    ghost use Rattle.pg_explore.specs.declared.fault.ExploreFault.TheVariants.{OutOfMemory};

    ghost from_gives = { λ _ e. e ≡ OutOfMemory };

    fn from(_e: AllocError) -> ExploreFault {
        ExploreFault::OutOfMemory
    }
}

impl<T: Drop> From<AllocFailed<T>> for ExploreFault {
    ghost use Rattle.std.specs.Prelude.{◌≡◌};
    ghost use Rattle.pg_explore.specs.declared.fault.ExploreFault.TheVariants.{OutOfMemory};

    ghost from_gives = { λ _ e. e ≡ OutOfMemory };

    fn from(_e: AllocFailed<T>) -> ExploreFault {
        ExploreFault::OutOfMemory
    }
}
