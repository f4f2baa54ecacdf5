//! A service: requests of a stream go to the ports of a cluster, and their replies come back on another.

pub(crate) mod desk;
pub(crate) mod ending;
pub(crate) mod fault;
pub(crate) mod limits;
pub(crate) mod members;
pub(crate) mod outlet;
pub(crate) mod reader;
pub(crate) mod reading;
pub(crate) mod run;
pub(crate) mod serving;

use pg_cluster::Config;

/// How many requests wait for their turn at one port at most.
pub const MAX_WAITING: usize = 1024;

/// How near to its end a clock comes before a cluster is ended, where nothing else is asked for.
pub const CLOCK_MARGIN: u32 = 1 << 20;

/// How many milliseconds what is open then is waited for, where nothing else is asked for.
pub const CLOCK_WAIT: u32 = 10_000;

/// How a service is to be.
#[derive(Debug, Drop)]
pub struct Service {
    /// The nodes of its cluster, with their ports.
    pub config: Config,
    /// After how many requests the input counts as ended.
    pub requests: u64,
    /// The seed of the pauses of the first node; that of each further node is one more, and wraps.
    pub seed: u64,
    /// How near to 1,073,741,824, where it is full, the clock of a node comes before the service ends.
    pub margin: u32,
    /// How many milliseconds it then waits at most for what its nodes have not answered.
    pub wait: u32,
}
