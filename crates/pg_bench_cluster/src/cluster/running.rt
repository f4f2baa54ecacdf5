//! A cluster with its clients.

use pg_cluster::{Answer, Command, Config, OpenGate};
use std::alloc::Global;
use std::thread::Threads;
use std::time::Clock;

/// A cluster with its clients, of which one that is not there takes and gives nothing.
#[derive(Drop)]
pub struct Running {
    cluster: pg_cluster::Running,
}

impl Running {
    /// The nodes of a configuration as a cluster, and its clients.
    pub fn start<R: Threads, C: Clock + Clone + Drop + Send + 'static>(
        rt: &R,
        alloc: Global,
        config: Config,
        clock: C,
    ) -> Option<Running> {
        match pg_cluster::Running::start(rt, alloc, config, 0, OpenGate, clock, u64::MAX) {
            Ok(cluster) => Some(Running { cluster }),
            Err(_) => None,
        }
    }

    /// Submits a command at the client at a place; whether it did.
    pub fn submit(&mut self, place: usize, command: Command) -> bool {
        if place >= self.cluster.client_count() {
            drop(command);
            return false;
        }
        match self.cluster.submit(place, command) {
            Ok(()) => true,
            Err(command) => {
                drop(command);
                false
            }
        }
    }

    /// The next answer of the client at a place, if one is there.
    pub fn poll(&mut self, place: usize) -> Option<Answer> {
        if place >= self.cluster.client_count() {
            return None;
        }
        self.cluster.poll(place)
    }

    /// Stops the nodes.
    pub fn close<R: Threads>(self, rt: &R) {
        drop(self.cluster.close(rt));
    }
}
