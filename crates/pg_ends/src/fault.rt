ghost use Rattle.std.specs.Prelude.{◌≡◌};

use pg_term::faults::{ALREADY_ENDED, FOREIGN_PID, NOT_MADE, OUT_OF_MEMORY, PROCESS_LIMIT};
use std::alloc::{AllocError, AllocFailed};
use thiserror::Error;

/// Why a process is not made, or can't end.
#[derive(Clone, Copy, Debug, PartialEq, Eq, Error)]
pub enum EndFault {
    #[error("the process is of another node")]
    ForeignPid,
    #[error("no such process was made")]
    NotMade,
    #[error("the process has ended")]
    AlreadyEnded,
    #[error("no process number is left")]
    ProcessLimit,
    #[error("out of memory")]
    OutOfMemory,
}

impl EndFault {
    ghost use Rattle.pg_ends.specs.EndFault.{end_number_of};

    /// The number of the fault in this project's one list of faults.
    ///
    /// Cost: no memory.
    pub fn number(self) -> u8
        ensures { result ≡ end_number_of self }
    {
        match self {
            EndFault::ForeignPid => FOREIGN_PID,
            EndFault::NotMade => NOT_MADE,
            EndFault::AlreadyEnded => ALREADY_ENDED,
            EndFault::ProcessLimit => PROCESS_LIMIT,
            EndFault::OutOfMemory => OUT_OF_MEMORY,
        }
    }
}

impl From<AllocError> for EndFault {
    ghost use Rattle.std.specs.Prelude.{◌≡◌};
    ghost use Rattle.pg_ends.specs.declared.fault.EndFault.TheVariants.{OutOfMemory};

    ghost from_gives = { λ _ e. e ≡ OutOfMemory };

    fn from(_e: AllocError) -> EndFault {
        EndFault::OutOfMemory
    }
}

impl<T: Drop> From<AllocFailed<T>> for EndFault {
    ghost use Rattle.std.specs.Prelude.{◌≡◌};
    ghost use Rattle.pg_ends.specs.declared.fault.EndFault.TheVariants.{OutOfMemory};

    ghost from_gives = { λ _ e. e ≡ OutOfMemory };

    fn from(_e: AllocFailed<T>) -> EndFault {
        EndFault::OutOfMemory
    }
}
