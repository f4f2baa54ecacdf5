ghost use Rattle.std.specs.Prelude.{◌≡◌};

use crate::faults::{
    BAD_ATOM, BAD_REFERENCE, BAD_VERSION, IMPROPER_LIST, INTEGER_TOO_LARGE, OUT_OF_MEMORY,
    TOO_DEEP, TOO_LONG, TRAILING_BYTES, TRUNCATED, UNKNOWN_TAG,
};
use std::alloc::{AllocError, AllocFailed};
use thiserror::Error;

/// Why a term can't be made, read or written.
#[derive(Clone, Copy, Debug, PartialEq, Eq, Error)]
pub enum TermFault {
    #[error("the bytes end within the term")]
    Truncated,
    #[error("the first byte is not 131")]
    BadVersion,
    #[error("no term begins with this tag")]
    UnknownTag,
    #[error("the term nests more than 64 levels deep")]
    TooDeep,
    #[error("the integer needs more than 64 bits")]
    IntegerTooLarge,
    #[error("an atom of at most 255 characters of text is wanted here")]
    BadAtom,
    #[error("the list ends in a term that is no list")]
    ImproperList,
    #[error("a reference has one to three words")]
    BadReference,
    #[error("bytes follow the term")]
    TrailingBytes,
    #[error("out of memory")]
    OutOfMemory,
    #[error("the term takes more than 16,777,216 bytes")]
    TooLong,
}

impl TermFault {
    ghost use Rattle.pg_term.specs.Fault.{number_of};

    /// The number of the fault in this project's one list of faults.
    ///
    /// Cost: no memory.
    pub fn number(self) -> u8
        ensures { result ≡ number_of self }
    {
        match self {
            TermFault::Truncated => TRUNCATED,
            TermFault::BadVersion => BAD_VERSION,
            TermFault::UnknownTag => UNKNOWN_TAG,
            TermFault::TooDeep => TOO_DEEP,
            TermFault::IntegerTooLarge => INTEGER_TOO_LARGE,
            TermFault::BadAtom => BAD_ATOM,
            TermFault::ImproperList => IMPROPER_LIST,
            TermFault::BadReference => BAD_REFERENCE,
            TermFault::TrailingBytes => TRAILING_BYTES,
            TermFault::OutOfMemory => OUT_OF_MEMORY,
            TermFault::TooLong => TOO_LONG,
        }
    }
}

impl From<AllocError> for TermFault {
    ghost use Rattle.std.specs.Prelude.{◌≡◌};
    ghost use Rattle.pg_term.specs.declared.fault.TermFault.TheVariants.{OutOfMemory};

    ghost from_gives = { λ _ e. e ≡ OutOfMemory };

    fn from(_e: AllocError) -> TermFault {
        TermFault::OutOfMemory
    }
}

impl<T: Drop> From<AllocFailed<T>> for TermFault {
    ghost use Rattle.std.specs.Prelude.{◌≡◌};
    ghost use Rattle.pg_term.specs.declared.fault.TermFault.TheVariants.{OutOfMemory};

    ghost from_gives = { λ _ e. e ≡ OutOfMemory };

    fn from(_e: AllocFailed<T>) -> TermFault {
        TermFault::OutOfMemory
    }
}
