//! A service from its start to its end.

ghost use Rattle.std.specs.Prelude.{◌≡◌, [], None, Option, ℕ, List, false, IfOk, IfErr, OnOk, map};
ghost use Rattle.std.specs.List.{All};
ghost use Rattle.pg_cluster.specs.PgNode.Replicas.Causes.{FailedAt, IsFlushed};
ghost use Rattle.pg_cluster.specs.PgRing.Slots.{taken};
ghost use Rattle.pg_cluster.specs.Running.{config_in};
ghost use Rattle.pg_talk.specs.Written.{ports_in};
ghost use Rattle.pg_node_requests.specs.Layouts.{layout_of};
ghost use Rattle.pg_talk.specs.Readers.{IsPaired, Reads};
ghost use Rattle.pg_talk.specs.Faults.{Interrupted, NotServed};
ghost use Rattle.pg_talk.specs.Outlets.{EndsPassedOn};
ghost use Rattle.pg_talk.specs.Services.{AreThreadsOf, Begins, WasServed};
ghost use Rattle.pg_talk.specs.Servings.{Begun, HasServedAll, IsNew, known_lost, names_of, ports_of, running_of, view_of};
ghost use Rattle.pg_talk.specs.declared.service.Service.{Service as ServiceValue};

use crate::service::Service;
use crate::service::fault::ServiceFault;
use crate::service::limits::Limits;
use crate::service::reader::Reader;
use crate::service::serving::{Desks, Serving, Stop};
use crate::verdict::{Verdict, close_and_judge};
use pg_cluster::{Clocks, Running, Start};
use pg_node_requests::Layout;
use pg_streams::{Sink, Source};
use pg_term::faults::CLOCK_FULL;
use std::alloc::{AllocError, Global};
use std::thread::Threads;
use std::time::Clock;

/// How a service went that came to its end.
#[derive(Clone, Copy, Debug, PartialEq, Eq)]
pub struct Served {
    /// What the cluster is found to be.
    pub verdict: Verdict,
    /// By which fault the input ended, if it was broken or could not be read, or a clock was full.
    pub fault: Option<u8>,
}

/// Starts the cluster of a service, reads requests from `source`, and writes the replies to `writer`, until the input is over and each
/// request was replied to. Then the cluster is closed and judged. `clock`: that by which its threads sleep that find nothing to do, as
/// `Rest` of pg_cluster says. It may wait for threads.
///
/// Each body that the source holds is one input, in its order, up to its end, the first broken frame, or the last request that `Service`
/// allows; none is left out (`AreRead`). One that spells no term asks for nothing. Where a read fails, or memory for reading runs out, the
/// input ends with that fault.
///
/// Where the clock of a node comes within the margin of `Service` of its end, the service ends, as at the end of its input: no more is
/// read, and of what had come each request that was not handed over is refused by that fault. The others are waited for, as long as
/// `Service` says; one that has no answer then may have happened, and is told to be unknown.
///
/// A request of a port is handed over once the one before it there was replied to. Each has one reply in a frame, in their order and
/// numbered from 1: what the node answered, or why it has no answer. A loss and a body that asks for nothing have a notice each,
/// and nothing else is written (`AllServed`). What was written is passed on whenever no further reply is at hand, and all of it by the end.
///
/// Errors: first `Start`, where no cluster was started, as `Running::start` of pg_cluster tells, or no thread that reads; nothing was
/// written then. Then `WriteFault`, only where a write or a flush failed, also while more could be read. `OutOfMemory`, where memory runs
/// out before or after one of these. No node runs after an error, none is judged, and the reading thread ends after the read that it is
/// in, as it does where a clock was full. Some of what was due may be written then.
///
/// Cost: the logs of all nodes, which grow with each event until the end, and 64 KB for each ring between two nodes. At most 1,024 requests
/// wait at a port, and 1,024 inputs before all ports. A thread for each node, and one that reads.
pub fn serve_cluster<
    R: Threads,
    C: Clock + Clone + Drop + Send + 'static,
    S: Source + Send + Drop + 'static,
    W: Sink,
>(
    rt: &R,
    alloc: Global,
    clock: C,
    service: Service,
    source: S,
    writer: &mut W,
) -> Result<Served, ServiceFault>
    ensures served { IfOk result (WasServed S.remaining S.fails service (S.remaining source) (W.contents writer.old) (W.contents writer.new)) }
    ensures flushed { OnOk result (IsFlushed W.flushed writer.old writer.new) }
    ensures fault { IfErr result (NotServed service.config.ring service.config.starts.items (writer.new ≡ writer.old) (FailedAt W.fails writer.new)) }
{
    let Service {
        config,
        requests,
        seed,
        margin,
        wait,
    } = service;
    let (layout, desks) = match rooms_of(alloc, config.starts.as_slice()) {
        Ok(rooms) => rooms,
        Err(AllocError) => {
            drop(config);
            drop(source);
            return Err(ServiceFault::OutOfMemory);
        }
    };
    let Ok((theirs, gate, clocks)) = hands_of(alloc, &clock, config.starts.len()) else {
        drop(config);
        drop(layout);
        drop(desks);
        drop(source);
        return Err(ServiceFault::OutOfMemory);
    };
    match Running::start(rt, alloc, config, seed, gate, theirs, u64::MAX) {
        Ok(running) => {
            let limits = Limits {
                clocks,
                margin,
                wait,
            };
            let serving = Serving::new(alloc, running, desks, limits);
            serve_by(rt, alloc, clock, serving, layout, requests, source, writer)
        }
        Err(fault) => {
            drop(clock);
            drop(clocks);
            drop(layout);
            drop(desks);
            drop(source);
            Err(ServiceFault::Start(fault))
        }
    }
}

/// The clock by which the nodes sleep, and their own clocks, twice: for them, and for who looks.
///
/// Error: `AllocError`.
fn hands_of<C: Clock + Clone + Drop>(
    alloc: Global,
    clock: &C,
    nodes: usize,
) -> Result<(C, Clocks, Clocks), AllocError> {
    let clocks = Clocks::new(alloc, nodes)?;
    let gate = clocks.share()?;
    let theirs: Result<C, AllocError> = clock.clone();
    Ok((theirs?, gate, clocks))
}

/// Starts the thread that reads, and serves; the cluster is closed.
fn serve_by<
    R: Threads,
    C: Clock + Clone + Drop + Send + 'static,
    S: Source + Send + Drop + 'static,
    W: Sink,
>(
    rt: &R,
    alloc: Global,
    clock: C,
    serving: Serving,
    layout: Layout,
    requests: u64,
    source: S,
    writer: &mut W,
) -> Result<Served, ServiceFault>
    requires { serving.kept ≡ None }
    ensures served { IfOk result (λ served. (service : ServiceValue) → layout.nodes.items ≡ layout_of 0 service.config.starts.items → requests ≡ service.requests
        → Begins service (view_of serving) (W.contents writer.old)
        → WasServed S.remaining S.fails service (S.remaining source) (W.contents writer.old) (W.contents writer.new) served) }
    ensures flushed { OnOk result (IsFlushed W.flushed writer.old writer.new) }
    ensures fault { IfErr result (NotServed (config_in (running_of serving)).ring (config_in (running_of serving)).starts.items
        (writer.new ≡ writer.old) (FailedAt W.fails writer.new)) }
{
    match Reader::start(rt, alloc, &clock, source, layout, requests) {
        Ok(reader) => serve_all(rt, alloc, &clock, serving, reader, writer),
        Err(fault) => {
            drop(serving.into_running().close(rt));
            Err(fault)
        }
    }
}

/// What a service of such nodes looks up.
///
/// Error: `AllocError`.
fn rooms_of(alloc: Global, starts: &[Start]) -> Result<(Layout, Desks), AllocError>
    ensures layout { IfOk result (λ rooms. rooms.0.nodes.items ≡ layout_of 0 starts.now) }
    ensures ports { IfOk result (λ rooms. ports_of rooms.1.desks.items ≡ ports_in 0 starts.now) }
    ensures new { IfOk result (λ rooms. All IsNew rooms.1.desks.items) }
    ensures names { IfOk result (λ rooms. names_of rooms.1.nodes.items ≡ map (λ start. start.name) starts.now) }
    ensures there { IfOk result (λ rooms. known_lost rooms.1.nodes.items ≡ map (λ start. false) starts.now) }
{
    let layout = Layout::of(alloc, starts)?;
    let desks = Desks::of(alloc, starts)?;
    Ok((layout, desks))
}

/// Serves until the input is over and each request was replied to, or a clock is full, and closes and judges the cluster. After a fault
/// it is not judged.
fn serve_all<R: Threads, C: Clock, S: Source + Send + Drop + 'static, W: Sink>(
    rt: &R,
    alloc: Global,
    clock: &C,
    serving: Serving,
    reader: Reader<S>,
    writer: &mut W,
) -> Result<Served, ServiceFault>
    requires kept { serving.kept ≡ None }
    requires came { taken reader.inlet ≡ [] }
    requires paired { IsPaired reader }
    ensures served { IfOk result (λ served. (service : ServiceValue) (source : Option (List ℕ))
        → Reads S.remaining (layout_of 0 service.config.starts.items) service.requests source reader → Begins service (view_of serving) (W.contents writer.old)
        → WasServed S.remaining S.fails service source (W.contents writer.old) (W.contents writer.new) served) }
    ensures flushed { OnOk result (IsFlushed W.flushed writer.old writer.new) }
    ensures fault { IfErr result (Interrupted (FailedAt W.fails writer.new)) }
{
    let mut serving = serving;
    let mut reader = reader;
    match serving.run(rt, clock, &mut reader.inlet, writer) {
        Ok(Stop::Over) => {
            let fault = serving.fault();
            let verdict = close_and_judge(rt, alloc, serving.into_running());
            reader.join(rt);
            Ok(Served {
                verdict: verdict?,
                fault,
            })
        }
        Ok(Stop::Full) => serve_full(rt, alloc, clock, serving, reader, writer),
        Err(fault) => {
            drop(serving.into_running().close(rt));
            reader.leave();
            Err(fault)
        }
    }
}

/// A clock is full: replies to each request that came, and closes and judges the cluster. After a fault it is not judged.
fn serve_full<R: Threads, C: Clock, S: Source + Send + Drop + 'static, W: Sink>(
    rt: &R,
    alloc: Global,
    clock: &C,
    serving: Serving,
    reader: Reader<S>,
    writer: &mut W,
) -> Result<Served, ServiceFault>
    requires paired { IsPaired reader }
    ensures served { IfOk result (λ served. (service : ServiceValue) (first : Begun) (source : Option (List ℕ))
        → Reads S.remaining (layout_of 0 service.config.starts.items) service.requests source reader → AreThreadsOf service first.threads
        → HasServedAll service.config.starts.items first (taken reader.inlet) serving (W.contents writer.old)
        → WasServed S.remaining S.fails service source first.written (W.contents writer.new) served) }
    ensures flushed { OnOk result (EndsPassedOn W.flushed serving.outlet writer.old writer.new) }
    ensures fault { IfErr result (Interrupted (FailedAt W.fails writer.new)) }
{
    let mut serving = serving;
    let mut reader = reader;
    reader.stop();
    let ended = serving.end_full(rt, clock, &mut reader.inlet, writer);
    match ended {
        Ok(()) => {
            let verdict = close_and_judge(rt, alloc, serving.into_running());
            reader.leave();
            Ok(Served {
                verdict: verdict?,
                fault: Some(CLOCK_FULL),
            })
        }
        Err(fault) => {
            drop(serving.into_running().close(rt));
            reader.leave();
            Err(fault)
        }
    }
}
