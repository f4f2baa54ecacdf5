use pg_term::faults::{BAD_CAPACITY, BAD_CONFIG, NAME_TOO_LARGE, OUT_OF_MEMORY, TOO_LONG};
use std::alloc::{AllocError, AllocFailed};
use thiserror::Error;

/// Why a world can't begin.
#[derive(Clone, Copy, Debug, PartialEq, Eq, Error)]
pub enum WorldFault {
    /// The configuration is none: too few or too many nodes, two with one name, or one that is not as a node may start.
    #[error("the configuration is none")]
    BadConfig,
    /// The name of a group takes more than 1,024 bytes or nests more than 32 levels deep.
    #[error("the name of a group is too large")]
    NameTooLarge,
    /// The capacity of the rings is 0 or above 65,536.
    #[error("a ring can't have this capacity")]
    BadCapacity,
    /// What a node announces of its groups takes more than 16,777,216 bytes.
    #[error("the groups of a node take more than one frame")]
    TooLong,
    #[error("out of memory")]
    OutOfMemory,
}

impl WorldFault {
    ghost use Rattle.std.specs.Prelude.{◌≡◌};
    ghost use Rattle.pg_world_config.specs.Faults.{world_number_of};

    /// The number of the fault in this project's one list of faults.
    ///
    /// Cost: no memory.
    pub fn number(self) -> u8
        ensures { result ≡ world_number_of self }
    {
        match self {
            WorldFault::OutOfMemory => OUT_OF_MEMORY,
            WorldFault::TooLong => TOO_LONG,
            WorldFault::BadConfig => BAD_CONFIG,
            WorldFault::BadCapacity => BAD_CAPACITY,
            WorldFault::NameTooLarge => NAME_TOO_LARGE,
        }
    }
}

impl From<AllocError> for WorldFault {
    ghost use Rattle.std.specs.Prelude.{◌≡◌};
    ghost use Rattle.pg_world_config.specs.declared.fault.WorldFault.TheVariants.{OutOfMemory};

    ghost from_gives = { λ _ e. e ≡ OutOfMemory };

    fn from(_e: AllocError) -> WorldFault {
        WorldFault::OutOfMemory
    }
}

impl<T: Drop> From<AllocFailed<T>> for WorldFault {
    ghost use Rattle.std.specs.Prelude.{◌≡◌};
    ghost use Rattle.pg_world_config.specs.declared.fault.WorldFault.TheVariants.{OutOfMemory};

    ghost from_gives = { λ _ e. e ≡ OutOfMemory };

    fn from(_e: AllocFailed<T>) -> WorldFault {
        WorldFault::OutOfMemory
    }
}
