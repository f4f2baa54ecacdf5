ghost use Rattle.std.specs.Prelude.{◌≡◌};

use pg_term::faults::{OUT_OF_MEMORY, TOO_LONG};
use std::alloc::AllocError;
use thiserror::Error;

/// The length in the place of the next frame is above `MAX_BODY`: no frame follows.
#[derive(Clone, Copy, Debug, PartialEq, Eq, Error)]
#[error("the length of the next frame is above 16,777,216")]
pub struct TooLong;

impl TooLong {
    /// The number of the fault in this project's one list of faults.
    ///
    /// Cost: no memory.
    pub fn number(self) -> u8
        ensures { result ≡ 11 }
    {
        FrameFault::from(self).number()
    }
}

/// Why a body can't be written as a frame.
#[derive(Clone, Copy, Debug, PartialEq, Eq, Error)]
pub enum FrameFault {
    /// There is no room for the frame, and none can be had.
    #[error("out of memory")]
    OutOfMemory,
    /// The body is longer than `MAX_BODY`.
    #[error("the body takes more than 16,777,216 bytes")]
    TooLong,
}

impl FrameFault {
    ghost use Rattle.pg_frame.specs.Fault.{number_of};

    /// The number of the fault in this project's one list of faults.
    ///
    /// Cost: no memory.
    pub fn number(self) -> u8
        ensures { result ≡ number_of self }
    {
        match self {
            FrameFault::OutOfMemory => OUT_OF_MEMORY,
            FrameFault::TooLong => TOO_LONG,
        }
    }
}

impl From<TooLong> for FrameFault {
    ghost use Rattle.std.specs.Prelude.{◌≡◌};
    ghost use Rattle.pg_frame.specs.declared.fault.FrameFault.TheVariants as variants;

    ghost from_gives = { λ _ e. e ≡ variants.TooLong };

    fn from(_e: TooLong) -> FrameFault {
        FrameFault::TooLong
    }
}

impl From<AllocError> for FrameFault {
    ghost use Rattle.std.specs.Prelude.{◌≡◌};
    ghost use Rattle.pg_frame.specs.declared.fault.FrameFault.TheVariants.{OutOfMemory};

    ghost from_gives = { λ _ e. e ≡ OutOfMemory };

    fn from(_e: AllocError) -> FrameFault {
        FrameFault::OutOfMemory
    }
}
