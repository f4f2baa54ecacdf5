use pg_term::faults::{CLOCK_FULL, OUT_OF_MEMORY};
use std::alloc::AllocError;
use thiserror::Error;

/// Why a node makes no further reference.
#[derive(Clone, Copy, Debug, PartialEq, Eq, Error)]
pub enum RefFault {
    /// It made 2^31 references.
    #[error("all references were made")]
    ClockFull,
    /// Memory ran out.
    #[error("out of memory")]
    OutOfMemory,
}

impl RefFault {
    ghost use Rattle.std.specs.Prelude.{◌≡◌};
    ghost use Rattle.pg_refs.specs.Fault.{number_of};

    /// The number of the fault in this project's one list of faults.
    ///
    /// Cost: no memory.
    pub fn number(self) -> u8
        ensures { result ≡ number_of self }
    {
        match self {
            RefFault::ClockFull => CLOCK_FULL,
            RefFault::OutOfMemory => OUT_OF_MEMORY,
        }
    }
}

impl From<AllocError> for RefFault {
    ghost use Rattle.std.specs.Prelude.{◌≡◌};
    ghost use Rattle.pg_refs.specs.declared.fault.RefFault.TheVariants.{OutOfMemory};

    ghost from_gives = { λ _ e. e ≡ OutOfMemory };

    fn from(_e: AllocError) -> RefFault {
        RefFault::OutOfMemory
    }
}
