use pg_cluster_judges::WorldFault;
use pg_ring::RingFault;
use pg_term::faults::NO_THREAD;
use std::alloc::{AllocError, AllocFailed};
use thiserror::Error;

/// Why no cluster was started.
#[derive(Clone, Copy, Debug, PartialEq, Eq, Error)]
pub enum StartFault {
    /// The configuration is none, or can't begin.
    #[error(transparent)]
    World(WorldFault),
    /// A thread could not be started.
    #[error("a thread could not be started")]
    NoThread,
}

impl StartFault {
    ghost use Rattle.std.specs.Prelude.{◌≡◌};
    ghost use Rattle.pg_cluster.specs.Fault.{start_number_of};

    /// The number of the fault in this project's one list of faults.
    ///
    /// Cost: no memory.
    pub fn number(self) -> u8
        ensures { result ≡ start_number_of self }
    {
        match self {
            StartFault::World(fault) => fault.number(),
            StartFault::NoThread => NO_THREAD,
        }
    }
}

impl From<AllocError> for StartFault {
    ghost use Rattle.std.specs.Prelude.{◌≡◌};
    ghost use Rattle.pg_cluster_judges.specs.PgWorldConfig.declared.fault.WorldFault.TheVariants.{OutOfMemory};
    ghost use Rattle.pg_cluster.specs.declared.fault.StartFault.TheVariants as faults;

    ghost from_gives = { λ _ e. e ≡ faults.World OutOfMemory };

    fn from(_e: AllocError) -> StartFault {
        StartFault::World(WorldFault::OutOfMemory)
    }
}

impl<T: Drop> From<AllocFailed<T>> for StartFault {
    ghost use Rattle.std.specs.Prelude.{◌≡◌};
    ghost use Rattle.pg_cluster_judges.specs.PgWorldConfig.declared.fault.WorldFault.TheVariants.{OutOfMemory};
    ghost use Rattle.pg_cluster.specs.declared.fault.StartFault.TheVariants as faults;

    ghost from_gives = { λ _ e. e ≡ faults.World OutOfMemory };

    fn from(_e: AllocFailed<T>) -> StartFault {
        StartFault::World(WorldFault::OutOfMemory)
    }
}
