//! The thread that reads the input.

ghost use Rattle.std.specs.Prelude.{◌≡◌};
ghost use Rattle.pg_talk.specs.ReadingThread.{EndsAt as ReadsToItsEnd, IsAsked, breaks as is_broken};

use pg_cluster::{Deframer, Rest, SlotOut, decode};
use pg_node_requests::{Input, Layout, read_request};
use pg_streams::Source;
use pg_term::TermFault;
use pg_term::faults::{OUT_OF_MEMORY, READ_FAULT, TRUNCATED};
use std::alloc::{AllocError, Global};
use std::snapshot::Snapshot;
use std::sync::Arc;
use std::sync::atomic::{AtomicBool, Ordering};
use std::thread::Promise;
use std::time::Clock;

/// How many bytes one read asks for.
const PIECE_LEN: usize = 65_536;

/// What the thread that reads holds.
#[derive(Drop)]
pub(crate) struct Reading<S: Drop> {
    pub source: S,
    pub layout: Layout,
    pub out: SlotOut<Input>,
    /// No more is to be read, and soon nobody takes what was.
    pub is_over: Arc<AtomicBool, Global>,
    /// After how many further requests the input counts as ended.
    pub requests: u64,
    pub deframer: Deframer,
    pub alloc: Global,
}

/// What the thread promises: that it read its source to the end, and gave on what it read.
#[derive(Drop)]
pub(crate) struct ReadOf<S: Drop> {
    pub reading: Snapshot<Reading<S>>,
}

impl<S: Source + Drop> Promise<Reading<S>> for ReadOf<S> {
    ghost use Rattle.pg_talk.specs.ReadingThread.{EndsAt};

    ghost kept_by = { λ p r. EndsAt S.remaining S.fails p.reading.value r };
}

/// Reads the input to its end, and gives on what comes in.
pub(crate) fn read_all<S: Source + Drop, C: Clock>(reading: Reading<S>, clock: &C) -> Reading<S>
    ensures { ReadsToItsEnd S.remaining S.fails reading result }
{
    let mut reading = reading;
    reading.run(clock);
    reading
}

impl<S: Source + Drop> Reading<S> {
    ghost use Rattle.std.specs.Prelude.{◌≡◌, ◌≢◌, ◌⊎◌, ◌<◌, ◌∷◌, ◌++◌, ◌-◌, [], false};
    ghost use Rattle.std.specs.Prelude.{None, Ok, IsTrue, IfSome, IfNone, length};
    ghost use Rattle.std.specs.Io.KnownBytes.{IsAtEnd};
    ghost use Rattle.pg_cluster.specs.PgFrame.Frames.{front_of};
    ghost use Rattle.pg_cluster.specs.PgRing.Slots.{SameSlotOut, given};
    ghost use Rattle.pg_talk.specs.Readings.{requests_in};
    ghost use Rattle.pg_talk.specs.ReadingThread.{EndsAt, GoesOn, IsWaiting, TakesFront};

    /// Reads the input to its end, and gives on what comes in.
    fn run<C: Clock>(&mut self, clock: &C)
        ensures { EndsAt S.remaining S.fails self.old self.new }
    {
        let mut piece = [0; PIECE_LEN];
        for _ in 0..u64::MAX {
            if !self.give_all(clock) {
                return;
            }
            if self.is_over.load(Ordering::SeqCst) {
                return;
            }
            if !self.read(clock, &mut piece) {
                return;
            }
        }
    }

    /// Gives on what each whole frame asks for; whether more is to be read.
    fn give_all<C: Clock>(&mut self, clock: &C) -> bool
        ensures on { IsTrue result → GoesOn S.remaining S.fails self.old self.new }
        ensures waits { IsTrue result → IsWaiting self.new.requests self.new.deframer.unread }
        ensures end { result ≡ false → EndsAt S.remaining S.fails self.old self.new }
    {
        for _ in 0..u64::MAX {
            if self.requests == 0 {
                return true;
            }
            let Some(input) = self.front() else {
                return true;
            };
            let is_last = breaks(&input);
            self.count(&input);
            if !self.give(clock, input) {
                return false;
            }
            if is_last {
                return false;
            }
        }
        false
    }

    /// Reads a piece of the input; whether more is to be read. No whole frame is there.
    fn read<C: Clock>(&mut self, clock: &C, piece: &mut [u8]) -> bool
        requires piece { 0 < length piece.old }
        requires waits { IsWaiting self.old.requests self.old.deframer.unread }
        ensures on { IsTrue result → GoesOn S.remaining S.fails self.old self.new }
        ensures end { result ≡ false → EndsAt S.remaining S.fails self.old self.new }
        ensures len { length piece.new ≡ length piece.old }
    {
        if self.requests == 0 {
            return self.end(clock, Input::End);
        }
        let count = match self.source.read_some(piece) {
            Ok(count) => count,
            Err(_) => return self.end(clock, Input::Broken(READ_FAULT)),
        };
        if count == 0 {
            return self.end_of_input(clock);
        }
        match self.deframer.feed(&piece[..count]) {
            Ok(()) => true,
            Err(AllocError) => self.end(clock, Input::Broken(OUT_OF_MEMORY)),
        }
    }

    /// Gives on that the input is over, or broken where a frame is cut.
    fn end_of_input<C: Clock>(&mut self, clock: &C) -> bool
        requires source { IsAtEnd (S.remaining self.old.source) }
        requires none { front_of self.old.deframer.unread ≡ Ok None }
        requires wanted { self.old.requests ≢ 0 }
        ensures value { result ≡ false }
        ensures end { EndsAt S.remaining S.fails self.old self.new }
    {
        if self.deframer.rest_len() == 0 {
            self.end(clock, Input::End)
        } else {
            self.end(clock, Input::Broken(TRUNCATED))
        }
    }

    /// Gives on what ends the input.
    fn end<C: Clock>(&mut self, clock: &C, input: Input) -> bool
        ensures value { result ≡ false }
        ensures same { SameSlotOut self.old.out self.new.out }
        ensures gave { (given self.new.out ≡ given self.old.out ++ input ∷ []) ⊎ (given self.new.out ≡ given self.old.out) }
    {
        self.give(clock, input);
        false
    }

    /// What the next frame asks for, if it is whole. The frame is taken out, unless it is too long.
    fn front(&mut self) -> Option<Input>
        ensures some { IfSome result (λ input. TakesFront self.old.layout.nodes.items self.old.deframer.unread self.new.deframer.unread input) }
        ensures none { IfNone result (front_of self.old.deframer.unread ≡ Ok None) }
        ensures stays { IfNone result (self.new ≡ self.old) }
        ensures rest { self.new ≡ record self.old { deframer = self.new.deframer } }
    {
        let input = match self.deframer.front() {
            Ok(Some(body)) => input_of(self.alloc, body, &self.layout),
            Ok(None) => return None,
            Err(fault) => return Some(Input::Broken(fault.number())),
        };
        let _ = self.deframer.next();
        Some(input)
    }

    /// One request fewer is wanted, if the input is one.
    fn count(&mut self, input: &Input)
        ensures { self.new ≡ record self.old { requests = self.old.requests - requests_in input.now } }
    {
        if let Input::Ask { .. } = input {
            self.requests = self.requests.saturating_sub(1);
        }
    }

    /// Gives on one input, once there is a place; whether it did. It rests by the clock until there is one.
    fn give<C: Clock>(&mut self, clock: &C, input: Input) -> bool
        ensures same { SameSlotOut self.old.out self.new.out }
        ensures ok { IsTrue result → given self.new.out ≡ given self.old.out ++ input ∷ [] }
        ensures err { result ≡ false → given self.new.out ≡ given self.old.out }
        ensures rest { self.new ≡ record self.old { out = self.new.out } }
    {
        let mut kept = input;
        let mut rest = Rest::new();
        for _ in 0..u64::MAX {
            match self.out.give(kept) {
                Ok(()) => return true,
                Err(back) => kept = back,
            }
            if self.is_over.load(Ordering::SeqCst) {
                break;
            }
            rest.rest(clock);
        }
        drop(kept);
        false
    }
}

/// Whether an input is the last, since it is broken.
fn breaks(input: &Input) -> bool
    ensures { result ≡ is_broken input.now }
{
    matches!(input, Input::Broken(_))
}

/// What a body asks for: nothing, where it spells no term. Where there was no memory to read it the input is broken.
fn input_of(alloc: Global, body: &[u8], layout: &Layout) -> Input
    ensures { IsAsked layout.now.nodes.items body.now result }
{
    match decode(alloc, body) {
        Ok(term) => read_request(term, layout),
        Err(TermFault::OutOfMemory) => Input::Broken(OUT_OF_MEMORY),
        Err(_) => Input::Bad,
    }
}
