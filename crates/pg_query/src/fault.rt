ghost use Rattle.std.specs.Prelude.{◌≡◌};

use pg_term::faults::{NO_MEMBER, NO_SUCH_GROUP, OUT_OF_MEMORY};
use std::alloc::{AllocError, AllocFailed};
use thiserror::Error;

/// Why a question is not answered.
#[derive(Clone, Copy, Debug, PartialEq, Eq, Error)]
pub enum QueryFault {
    #[error("there is no such group")]
    NoSuchGroup,
    #[error("the group has no member")]
    NoMember,
    #[error("out of memory")]
    OutOfMemory,
}

impl QueryFault {
    ghost use Rattle.pg_query.specs.QueryFault.{query_number_of};

    /// The number of the fault in this project's one list of faults.
    ///
    /// Cost: no memory.
    pub fn number(self) -> u8
        ensures { result ≡ query_number_of self }
    {
        match self {
            QueryFault::NoSuchGroup => NO_SUCH_GROUP,
            QueryFault::NoMember => NO_MEMBER,
            QueryFault::OutOfMemory => OUT_OF_MEMORY,
        }
    }
}

impl From<AllocError> for QueryFault {
    ghost use Rattle.std.specs.Prelude.{◌≡◌};
    ghost use Rattle.pg_query.specs.declared.fault.QueryFault.TheVariants.{OutOfMemory};

    ghost from_gives = { λ _ e. e ≡ OutOfMemory };

    fn from(_e: AllocError) -> QueryFault {
        QueryFault::OutOfMemory
    }
}

impl<T: Drop> From<AllocFailed<T>> for QueryFault {
    ghost use Rattle.std.specs.Prelude.{◌≡◌};
    ghost use Rattle.pg_query.specs.declared.fault.QueryFault.TheVariants.{OutOfMemory};

    ghost from_gives = { λ _ e. e ≡ OutOfMemory };

    fn from(_e: AllocFailed<T>) -> QueryFault {
        QueryFault::OutOfMemory
    }
}
