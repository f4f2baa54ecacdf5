//! Why a service did not come to its end.

use pg_cluster::StartFault;
use pg_term::faults::{BAD_LINE, OUT_OF_MEMORY, WRITE_FAULT};
use std::alloc::{AllocError, AllocFailed};
use thiserror::Error;

/// Why a service did not come to its end.
#[derive(Clone, Copy, Debug, PartialEq, Eq, Error)]
pub enum ServiceFault {
    /// No cluster was started.
    #[error(transparent)]
    Start(StartFault),
    /// A text tells of no members.
    #[error("the text tells of no members of these nodes")]
    BadText,
    /// A write or a flush failed.
    #[error("a write failed")]
    WriteFault,
    /// There was no memory.
    #[error("out of memory")]
    OutOfMemory,
}

impl ServiceFault {
    ghost use Rattle.std.specs.Prelude.{◌≡◌};
    ghost use Rattle.pg_talk.specs.Services.{service_number_of};

    /// The number of the fault in this project's one list of faults.
    ///
    /// Cost: no memory.
    pub fn number(self) -> u8
        ensures { result ≡ service_number_of self }
    {
        match self {
            ServiceFault::Start(fault) => fault.number(),
            ServiceFault::BadText => BAD_LINE,
            ServiceFault::WriteFault => WRITE_FAULT,
            ServiceFault::OutOfMemory => OUT_OF_MEMORY,
        }
    }
}

impl From<AllocError> for ServiceFault {
    ghost use Rattle.std.specs.Prelude.{◌≡◌};
    ghost use Rattle.pg_talk.specs.declared.service.fault.ServiceFault.TheVariants as faults;

    ghost from_gives = { λ _ e. e ≡ faults.OutOfMemory };

    fn from(_e: AllocError) -> ServiceFault {
        ServiceFault::OutOfMemory
    }
}

impl<T: Drop> From<AllocFailed<T>> for ServiceFault {
    ghost use Rattle.std.specs.Prelude.{◌≡◌};
    ghost use Rattle.pg_talk.specs.declared.service.fault.ServiceFault.TheVariants as faults;

    ghost from_gives = { λ _ e. e ≡ faults.OutOfMemory };

    fn from(_e: AllocFailed<T>) -> ServiceFault {
        ServiceFault::OutOfMemory
    }
}
