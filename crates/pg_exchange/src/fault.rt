ghost use Rattle.std.specs.Prelude.{◌≡◌};

use pg_term::faults::{NOT_A_MESSAGE, OUT_OF_MEMORY};
use std::alloc::{AllocError, AllocFailed};
use thiserror::Error;

/// Why an exchange is not taken.
#[derive(Clone, Copy, Debug, PartialEq, Eq, Error)]
pub enum ExchangeFault {
    #[error("the peer is merged already")]
    NotAMessage,
    #[error("out of memory")]
    OutOfMemory,
}

impl ExchangeFault {
    ghost use Rattle.pg_exchange.specs.ExchangeFault.{exchange_number_of};

    /// The number of the fault in this project's one list of faults.
    ///
    /// Cost: no memory.
    pub fn number(self) -> u8
        ensures { result ≡ exchange_number_of self }
    {
        match self {
            ExchangeFault::NotAMessage => NOT_A_MESSAGE,
            ExchangeFault::OutOfMemory => OUT_OF_MEMORY,
        }
    }
}

impl From<AllocError> for ExchangeFault {
    ghost use Rattle.std.specs.Prelude.{◌≡◌};
    ghost use Rattle.pg_exchange.specs.declared.fault.ExchangeFault.TheVariants.{OutOfMemory};

    ghost from_gives = { λ _ e. e ≡ OutOfMemory };

    fn from(_e: AllocError) -> ExchangeFault {
        ExchangeFault::OutOfMemory
    }
}

impl<T: Drop> From<AllocFailed<T>> for ExchangeFault {
    ghost use Rattle.std.specs.Prelude.{◌≡◌};
    ghost use Rattle.pg_exchange.specs.declared.fault.ExchangeFault.TheVariants.{OutOfMemory};

    ghost from_gives = { λ _ e. e ≡ OutOfMemory };

    fn from(_e: AllocFailed<T>) -> ExchangeFault {
        ExchangeFault::OutOfMemory
    }
}
