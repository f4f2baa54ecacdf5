//! Why a script is not read, and why a run of one ends early.

use pg_script_trace::{TextFault, WorldFault};
use pg_term::faults::{
    BAD_CONFIG, BAD_LINE, LATE_DECLARATION, OUT_OF_MEMORY, UNKNOWN_NODE, WRITE_FAULT,
};
use std::alloc::{AllocError, AllocFailed};
use thiserror::Error;

/// What is wrong with a line of a script.
#[derive(Clone, Copy, Debug, PartialEq, Eq, Error)]
pub enum LineFault {
    /// It has no form of a line.
    #[error("the line has no form")]
    BadLine,
    /// It names a node that no line above declares, or one node twice where it has to name two.
    #[error("a node is not declared, or is no pair with itself")]
    UnknownNode,
    /// It is a declaration after a line that is none.
    #[error("a declaration stands behind other lines")]
    LateDeclaration,
    /// It declares a node of a name that a line above declares.
    #[error("a node is declared twice")]
    BadConfig,
    #[error("out of memory")]
    OutOfMemory,
}

impl LineFault {
    ghost use Rattle.std.specs.Prelude.{◌≡◌};
    ghost use Rattle.pg_script.specs.Faults.{line_number_of};

    /// The number of the fault in this project's one list of faults.
    ///
    /// Cost: no memory.
    pub fn number(self) -> u8
        ensures { result ≡ line_number_of self }
    {
        match self {
            LineFault::OutOfMemory => OUT_OF_MEMORY,
            LineFault::BadConfig => BAD_CONFIG,
            LineFault::BadLine => BAD_LINE,
            LineFault::UnknownNode => UNKNOWN_NODE,
            LineFault::LateDeclaration => LATE_DECLARATION,
        }
    }
}

impl From<TextFault> for LineFault {
    ghost use Rattle.std.specs.Prelude.{◌≡◌};
    ghost use Rattle.pg_script.specs.Faults.{line_fault_of};

    ghost from_gives = { λ fault e. e ≡ line_fault_of fault };

    fn from(fault: TextFault) -> LineFault {
        match fault {
            TextFault::BadText => LineFault::BadLine,
            TextFault::OutOfMemory => LineFault::OutOfMemory,
        }
    }
}

impl From<AllocError> for LineFault {
    ghost use Rattle.std.specs.Prelude.{◌≡◌};
    ghost use Rattle.pg_script.specs.declared.fault.LineFault.TheVariants.{OutOfMemory};

    ghost from_gives = { λ _ e. e ≡ OutOfMemory };

    fn from(_e: AllocError) -> LineFault {
        LineFault::OutOfMemory
    }
}

impl<T: Drop> From<AllocFailed<T>> for LineFault {
    ghost use Rattle.std.specs.Prelude.{◌≡◌};
    ghost use Rattle.pg_script.specs.declared.fault.LineFault.TheVariants.{OutOfMemory};

    ghost from_gives = { λ _ e. e ≡ OutOfMemory };

    fn from(_e: AllocFailed<T>) -> LineFault {
        LineFault::OutOfMemory
    }
}

/// Why a text is no script: its first faulty line, from 1, and what is wrong with it.
#[derive(Clone, Copy, Debug, PartialEq, Eq, Error)]
#[error("line {line}: {fault}")]
pub struct ScriptFault {
    pub line: usize,
    pub fault: LineFault,
}

/// Why a run of a script ended early.
#[derive(Clone, Copy, Debug, PartialEq, Eq, Error)]
pub enum RunFault {
    /// The declarations are no configuration of a world.
    #[error(transparent)]
    World(WorldFault),
    #[error("out of memory")]
    OutOfMemory,
    /// A write failed.
    #[error("a write failed")]
    WriteFault,
}

impl RunFault {
    ghost use Rattle.std.specs.Prelude.{◌≡◌};
    ghost use Rattle.pg_script.specs.Faults.{run_number_of};

    /// The number of the fault in this project's one list of faults.
    ///
    /// Cost: no memory.
    pub fn number(self) -> u8
        ensures { result ≡ run_number_of self }
    {
        match self {
            RunFault::World(fault) => fault.number(),
            RunFault::OutOfMemory => OUT_OF_MEMORY,
            RunFault::WriteFault => WRITE_FAULT,
        }
    }
}

impl From<AllocError> for RunFault {
    ghost use Rattle.std.specs.Prelude.{◌≡◌};
    ghost use Rattle.pg_script.specs.declared.fault.RunFault.TheVariants.{OutOfMemory};

    ghost from_gives = { λ _ e. e ≡ OutOfMemory };

    fn from(_e: AllocError) -> RunFault {
        RunFault::OutOfMemory
    }
}

impl From<WorldFault> for RunFault {
    ghost use Rattle.std.specs.Prelude.{◌≡◌};
    ghost use Rattle.pg_script.specs.declared.fault.RunFault.TheVariants.{World};

    ghost from_gives = { λ fault e. e ≡ World fault };

    fn from(fault: WorldFault) -> RunFault {
        RunFault::World(fault)
    }
}
