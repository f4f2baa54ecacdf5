ghost use Rattle.std.specs.Prelude.{◌≡◌};

use pg_term::faults::{BAD_CAPACITY, OUT_OF_MEMORY};
use std::alloc::AllocError;
use thiserror::Error;

/// Why no ring was made.
#[derive(Clone, Copy, Debug, PartialEq, Eq, Error)]
pub enum RingFault {
    /// The capacity is 0 or above `MAX_CAPACITY`.
    #[error("a ring has room for 1 to 65,536")]
    BadCapacity,
    /// There is no memory for the ring.
    #[error("out of memory")]
    OutOfMemory,
}

impl RingFault {
    ghost use Rattle.pg_ring.specs.Fault.{number_of};

    /// The number of the fault in this project's one list of faults.
    ///
    /// Cost: no memory.
    pub fn number(self) -> u8
        ensures { result ≡ number_of self }
    {
        match self {
            RingFault::BadCapacity => BAD_CAPACITY,
            RingFault::OutOfMemory => OUT_OF_MEMORY,
        }
    }
}

impl From<AllocError> for RingFault {
    ghost use Rattle.pg_ring.specs.declared.fault.RingFault.TheVariants.{OutOfMemory};

    ghost from_gives = { λ _ fault. fault ≡ OutOfMemory };

    fn from(_refused: AllocError) -> RingFault {
        Self::OutOfMemory
    }
}
