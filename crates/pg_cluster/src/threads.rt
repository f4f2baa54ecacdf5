//! How the threads of a cluster are started and stopped.

ghost use Rattle.std.specs.Prelude.{◌≡◌, false, Err, IfErr, IfOk};
ghost use Rattle.pg_cluster.specs.Fault.{IsShortage};
ghost use Rattle.pg_cluster.specs.Members.{is_lost, losses_in, thread_of, threads_in};
ghost use Rattle.pg_cluster_judges.specs.Schedule.{NobodyLost};
ghost use Rattle.pg_cluster.specs.Promises.{RanAs};
ghost use Rattle.pg_cluster.specs.Threads.{StartedWith, begun_by, limit_of};

use crate::fault::StartFault;
use crate::member::Member;
use crate::promise::{NodeRan, RanFrom};
use crate::runs::Run;
use pg_cluster_judges::{Gate, WorldFault, run_node};
use pg_ring::{Link, RingOut};
use rand_core::Rng;
use std::alloc::{AllocError, Global};
use std::snapshot::Snapshot;
use std::sync::Arc;
use std::thread;
use std::thread::Threads;
use std::time::Clock;

/// Writes the stop byte of each thread.
pub(crate) fn stop_all(stops: &mut Vec<RingOut>) {
    for stop in stops.iter_mut() {
        let _ = stop.put(&[1]);
    }
}

/// Writes the stop byte of one thread.
pub(crate) fn stop_one(stops: &mut Vec<RingOut>, node: usize) {
    if let Some(stop) = stops.get_mut(node) {
        let _ = stop.put(&[1]);
    }
}

/// Stops the threads and joins them, and gives back the fault.
fn give_up<K: Rng + Drop + Send + 'static, R: Threads>(
    rt: &R,
    members: Vec<Member<K>>,
    stops: &mut Vec<RingOut>,
    fault: StartFault,
) -> Result<Vec<Member<K>>, StartFault>
    ensures { result ≡ Err fault }
{
    stop_all(stops);
    for member in members {
        drop(member.join(rt));
    }
    Err(fault)
}

/// Starts a thread for each node, which rests by a clock of its own. Where one can't be started, those that run are stopped and joined.
///
/// Errors: `NoThread`; `World` of `OutOfMemory`.
pub(crate) fn start_all<
    K: Rng + Drop + Send + 'static,
    G: Gate + Drop + Send + Sync + 'static,
    C: Clock + Clone + Drop + Send + 'static,
    R: Threads,
>(
    rt: &R,
    alloc: Global,
    runs: Vec<Run<K>>,
    stops: &mut Vec<RingOut>,
    gate: &Arc<G, Global>,
    clock: &C,
    limit: u64,
) -> Result<Vec<Member<K>>, StartFault>
    ensures started { IfOk result (λ members. StartedWith runs.items limit (threads_in members.items)) }
    ensures lost { IfOk result (λ members. NobodyLost (losses_in members.items)) }
    ensures fault { IfErr result IsShortage }
{
    let mut members: Vec<Member<K>> = Vec::with_capacity(alloc, runs.len())?;
    for run in runs {
        match start_one(rt, run, members.len(), gate, clock, limit) {
            Ok(member) => members.push_reserved(member),
            Err(fault) => return give_up(rt, members, stops, fault),
        }
    }
    Ok(members)
}

/// Starts the thread of the node at a place.
///
/// Errors: `NoThread`; `World` of `OutOfMemory`.
fn start_one<
    K: Rng + Drop + Send + 'static,
    G: Gate + Drop + Send + Sync + 'static,
    C: Clock + Clone + Drop + Send + 'static,
    R: Threads,
>(
    rt: &R,
    run: Run<K>,
    place: usize,
    gate: &Arc<G, Global>,
    clock: &C,
    limit: u64,
) -> Result<Member<K>, StartFault>
    ensures begun { IfOk result (λ member. begun_by (thread_of member) ≡ run) }
    ensures limit { IfOk result (λ member. limit_of (thread_of member) ≡ limit) }
    ensures lost { IfOk result (λ member. is_lost member ≡ false) }
    ensures fault { IfErr result IsShortage }
{
    let Ok(gate) = Arc::try_clone(gate) else {
        drop(run);
        return Err(StartFault::World(WorldFault::OutOfMemory));
    };
    let clock: Result<C, AllocError> = clock.clone();
    let Ok(clock) = clock else {
        drop(run);
        drop(gate);
        return Err(StartFault::World(WorldFault::OutOfMemory));
    };
    let promise = RanFrom {
        run: Snapshot::of(&run),
        limit,
    };
    match thread::spawn_with(
        rt,
        promise,
        move || -> NodeRan<K>
            ensures { RanAs run limit result }
        { run_node(place, run, &*gate, &clock, limit) },
    ) {
        Ok(thread) => Ok(Member::new(thread)),
        Err(_) => Err(StartFault::NoThread),
    }
}
