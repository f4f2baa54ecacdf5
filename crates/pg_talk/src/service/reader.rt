//! Where what the thread that reads gives comes in.

use crate::service::fault::ServiceFault;
use crate::service::reading::{ReadOf, Reading, read_all};
use pg_cluster::{Deframer, SlotIn, StartFault, slot_pair, slots_together};
use pg_node_requests::{Input, Layout};
use pg_streams::Source;
use std::alloc::Global;
use std::snapshot::Snapshot;
use std::sync::Arc;
use std::sync::atomic::{AtomicBool, Ordering};
use std::thread;
use std::thread::{PromisedHandle, Threads};
use std::time::Clock;

/// How many inputs are between the thread that reads and the one that writes at most.
const INPUT_PLACES: usize = 1024;

/// The thread that reads, and where what it gives comes in.
#[derive(Drop)]
pub(crate) struct Reader<S: Source + Drop> {
    /// Where it comes in.
    pub inlet: SlotIn<Input>,
    thread: PromisedHandle<Reading<S>, ReadOf<S>>,
    is_over: Arc<AtomicBool, Global>,
}

impl<S: Source + Send + Drop + 'static> Reader<S> {
    ghost use Rattle.std.specs.Prelude.{◌≡◌, ◌⊎◌, ◌++◌, [], ℕ, List, Option, IfOk, IfErr};
    ghost use Rattle.pg_cluster.specs.declared.fault.StartFault.TheVariants.{NoThread};
    ghost use Rattle.pg_cluster.specs.PgRing.Slots.{taken};
    ghost use Rattle.pg_node_requests.specs.declared.input.Input.{Input as InputValue};
    ghost use Rattle.pg_node_requests.specs.declared.layout.NodePorts.{NodePorts};
    ghost use Rattle.pg_talk.specs.Readers.{IsPaired, Reads};
    ghost use Rattle.pg_talk.specs.Readings.{AreRead};
    ghost use Rattle.pg_talk.specs.ReadingThread.{EndsAt};
    ghost use Rattle.pg_talk.specs.declared.service.fault.ServiceFault.TheVariants.{OutOfMemory, Start};

    /// Starts a thread that reads requests to the ports of a layout from a source. `requests`: after how many the input counts as
    /// ended. `clock`: that by which it sleeps where there is no place for what it read.
    ///
    /// Faults: `Start` of `NoThread`; `OutOfMemory`.
    pub(crate) fn start<R: Threads, C: Clock + Clone + Drop + Send + 'static>(
        rt: &R,
        alloc: Global,
        clock: &C,
        source: S,
        layout: Layout,
        requests: u64,
    ) -> Result<Reader<S>, ServiceFault>
        ensures taken { IfOk result (λ reader. taken reader.inlet ≡ []) }
        ensures paired { IfOk result IsPaired }
        ensures reads { IfOk result (Reads S.remaining layout.nodes.items requests (S.remaining source)) }
        ensures fault { IfErr result (λ fault. (fault ≡ Start NoThread) ⊎ (fault ≡ OutOfMemory)) }
    {
        let is_over = Arc::new(alloc, AtomicBool::new(false))?;
        let told = Arc::try_clone(&is_over)?;
        let clock = clock.clone()?;
        let Ok((out, inlet)) = slot_pair(alloc, INPUT_PLACES) else {
            return Err(ServiceFault::OutOfMemory);
        };
        let reading = Reading {
            source,
            layout,
            out,
            is_over: told,
            requests,
            deframer: Deframer::new(alloc),
            alloc,
        };
        let promise = ReadOf {
            reading: Snapshot::of(&reading),
        };
        match thread::spawn_with(
            rt,
            promise,
            move || -> Reading<S>
                ensures { EndsAt S.remaining S.fails reading result }
            { read_all(reading, &clock) },
        ) {
            Ok(thread) => Ok(Reader {
                inlet,
                thread,
                is_over,
            }),
            Err(_) => Err(ServiceFault::Start(StartFault::NoThread)),
        }
    }

    /// The input is over: the thread is joined. What came in is the first of what it read. It may wait for it.
    pub(crate) fn join<R: Threads>(self, rt: &R)
        requires { IsPaired self }
        ensures { (nodes : List NodePorts) (wanted : ℕ) (source : Option (List ℕ)) → Reads S.remaining nodes wanted source self
            → (further : List InputValue) × AreRead S.remaining S.fails nodes wanted source (taken self.inlet ++ further) }
    {
        let Reader {
            inlet,
            thread,
            is_over,
        } = self;
        let mut inlet = inlet;
        let mut read = thread.join(rt);
        slots_together(&mut read.out, &mut inlet);
        drop(inlet);
        drop(read);
        drop(is_over);
    }

    /// No more is to be read. The thread ends by itself, once it gave on what the read that it is in brings.
    pub(crate) fn stop(&self) {
        self.is_over.store(true, Ordering::SeqCst);
    }

    /// Nobody takes what is read any more. The thread ends by itself, once it is through with the read that it is in.
    pub(crate) fn leave(self) {
        self.stop();
        drop(self);
    }
}
