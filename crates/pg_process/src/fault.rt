//! Why a process ends while it does something.

use pg_node_process::{GroupsFault, PassFault};
use pg_step::MessageFault;
use pg_term::faults::{BAD_CONFIG, CLOCK_FULL, OUT_OF_MEMORY, READ_FAULT, TOO_LONG, TRUNCATED};
use std::alloc::AllocError;
use thiserror::Error;

/// Why a process can't go on.
#[derive(Clone, Copy, Debug, PartialEq, Eq, Error)]
pub enum ProcessFault {
    /// The clock of its node is full.
    #[error("the clock is full")]
    ClockFull,
    #[error("out of memory")]
    OutOfMemory,
}

impl ProcessFault {
    ghost use Rattle.std.specs.Prelude.{◌≡◌};
    ghost use Rattle.pg_process.specs.Faults.{process_number_of};

    /// The number of the fault in this project's one list of faults.
    ///
    /// Cost: no memory.
    pub fn number(self) -> u8
        ensures { result ≡ process_number_of self }
    {
        match self {
            ProcessFault::ClockFull => CLOCK_FULL,
            ProcessFault::OutOfMemory => OUT_OF_MEMORY,
        }
    }
}

impl From<AllocError> for ProcessFault {
    ghost use Rattle.std.specs.Prelude.{◌≡◌};
    ghost use Rattle.pg_process.specs.declared.fault.ProcessFault.TheVariants.{OutOfMemory};

    ghost from_gives = { λ _ e. e ≡ OutOfMemory };

    fn from(_e: AllocError) -> ProcessFault {
        ProcessFault::OutOfMemory
    }
}

/// Why a process can't begin.
#[derive(Clone, Copy, Debug, PartialEq, Eq, Error)]
pub enum BeginFault {
    /// The config names a node twice, or a number of it is out of its limits.
    #[error("no valid config")]
    BadConfig,
    /// The groups that the host brings can't be the node's.
    #[error(transparent)]
    Groups(GroupsFault),
    /// What announces the groups to the peers can't be written.
    #[error(transparent)]
    Message(MessageFault),
    #[error("out of memory")]
    OutOfMemory,
}

impl BeginFault {
    ghost use Rattle.std.specs.Prelude.{◌≡◌};
    ghost use Rattle.pg_process.specs.Faults.{begin_number_of};

    /// The number of the fault in this project's one list of faults.
    ///
    /// Cost: no memory.
    pub fn number(self) -> u8
        ensures { result ≡ begin_number_of self }
    {
        match self {
            BeginFault::BadConfig => BAD_CONFIG,
            BeginFault::Groups(fault) => fault.number(),
            BeginFault::Message(fault) => fault.number(),
            BeginFault::OutOfMemory => OUT_OF_MEMORY,
        }
    }
}

/// Why a process ends before its input does.
#[derive(Clone, Copy, Debug, PartialEq, Eq, Error)]
pub enum EndFault {
    /// It can't begin.
    #[error(transparent)]
    Begin(BeginFault),
    /// The first body has no groups.
    #[error("the first body has no groups")]
    NoGroups,
    /// It can't go on.
    #[error(transparent)]
    Work(ProcessFault),
    /// The length of a body is above 16,777,216.
    #[error("the length of a body is above 16,777,216")]
    TooLong,
    /// The input ends within a body.
    #[error("the input ends within a body")]
    Truncated,
    /// A read failed, or there were 2^40 reads.
    #[error("the input can't be read")]
    ReadFault,
    /// A write or a flush failed.
    #[error(transparent)]
    Pass(PassFault),
}

impl EndFault {
    ghost use Rattle.std.specs.Prelude.{◌≡◌};
    ghost use Rattle.pg_process.specs.Faults.{end_number_of};

    /// The number of the fault in this project's one list of faults.
    ///
    /// Cost: no memory.
    pub fn number(self) -> u8
        ensures { result ≡ end_number_of self }
    {
        match self {
            EndFault::Begin(fault) => fault.number(),
            EndFault::NoGroups => BAD_CONFIG,
            EndFault::Work(fault) => fault.number(),
            EndFault::TooLong => TOO_LONG,
            EndFault::Truncated => TRUNCATED,
            EndFault::ReadFault => READ_FAULT,
            EndFault::Pass(fault) => fault.number(),
        }
    }
}

impl From<AllocError> for EndFault {
    ghost use Rattle.std.specs.Prelude.{◌≡◌};
    ghost use Rattle.pg_process.specs.declared.fault.EndFault.TheVariants.{Work};
    ghost use Rattle.pg_process.specs.declared.fault.ProcessFault.TheVariants.{OutOfMemory};

    ghost from_gives = { λ _ e. e ≡ Work OutOfMemory };

    fn from(_e: AllocError) -> EndFault {
        EndFault::Work(ProcessFault::OutOfMemory)
    }
}
