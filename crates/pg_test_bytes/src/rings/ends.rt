//! Known moves, each public call once, and each trait at both of its kinds.

ghost use Rattle.std.specs.Prelude.{IfOk};
ghost use Rattle.pg_ring.specs.Ends.{AreEnds};
ghost use Rattle.pg_ring.specs.Slots.{AreSlots};

use crate::rows::{holds, row_holds};
use pg_ring::{
    Inlet, Link, MAX_CAPACITY, MemRing, RingFault, RingIn, RingOut, SlotIn, SlotOut, ring_pair,
    slot_pair, slots_together, together,
};
use std::alloc::Global;
use std::test::Fail;

type Text = &'static str;

// Each of these makes a ring, a second time where memory was refused.

fn mem_ring(alloc: Global, cap: usize) -> Result<MemRing, RingFault> {
    match MemRing::new(alloc, cap) {
        Err(RingFault::OutOfMemory) => MemRing::new(alloc, cap),
        told => told,
    }
}

fn ends(alloc: Global, cap: usize) -> Result<(RingOut, RingIn), RingFault>
    ensures { IfOk result (λ pair. AreEnds pair.0 pair.1) }
{
    match ring_pair(alloc, cap) {
        Err(RingFault::OutOfMemory) => ring_pair(alloc, cap),
        told => told,
    }
}

fn text_slots(alloc: Global, cap: usize) -> Result<(SlotOut<Text>, SlotIn<Text>), RingFault>
    ensures { IfOk result (λ pair. AreSlots pair.0 pair.1) }
{
    match slot_pair(alloc, cap) {
        Err(RingFault::OutOfMemory) => slot_pair(alloc, cap),
        told => told,
    }
}

// Whether these bytes come out where so many are asked for, and what is behind them stays as it is.
fn gives<I: Inlet>(inlet: &mut I, room: usize, bytes: &[u8]) -> bool {
    let mut buffer = [9u8; 8];
    let taken = inlet.take(&mut buffer[..room.min(8)]);
    &buffer[..taken] == bytes && buffer[taken..].iter().all(|byte| *byte == 9)
}

// Whether a ring of three accepts and gives back what it should.
fn is_ring_played(ring: &mut MemRing) -> bool {
    ring.put(&[1, 2, 3, 4, 5]) == 3
        && ring.put(&[4, 5]) == 0
        && gives(ring, 2, &[1, 2])
        && ring.put(&[4, 5]) == 2
        && gives(ring, 8, &[3, 4, 5])
        && gives(ring, 8, &[])
}

// Whether the ends of a ring of two do.
fn are_ends_played(out: &mut RingOut, inlet: &mut RingIn) -> bool {
    out.put(&[1, 2, 3]) == 2 && gives(inlet, 4, &[1, 2]) && gives(inlet, 4, &[])
}

#[test]
fn ring_moves(rt: HostRuntime) -> Result<(), Fail> {
    let mut ring = mem_ring(rt.alloc(), 3)?;
    let is_played = is_ring_played(&mut ring);
    drop(ring);
    let (mut out, mut inlet) = ends(rt.alloc(), 2)?;
    let are_played = are_ends_played(&mut out, &mut inlet);
    drop(out);
    drop(inlet);
    holds(&rt, is_played && are_played, "a ring, and the ends of one");
    Ok(())
}

// Takes five bytes from the one, and puts them into the other.
fn relay<I: Inlet, L: Link>(from: &mut I, to: &mut L) -> (usize, usize) {
    let mut buffer = [0u8; 5];
    let taken = from.take(&mut buffer);
    (taken, to.put(&buffer[..taken]))
}

// Whether bytes move from a ring of eight over the ends of one of four into a ring of three, and what is left comes out.
fn are_relayed(
    source: &mut MemRing,
    out: &mut RingOut,
    inlet: &mut RingIn,
    sink: &mut MemRing,
) -> bool {
    source.put(&[1, 2, 3, 4, 5, 6, 7, 8, 9]) == 8
        && relay(source, out) == (5, 4)
        && relay(inlet, sink) == (4, 3)
        && relay(source, out) == (3, 3)
        && gives(sink, 5, &[1, 2, 3])
        && gives(inlet, 5, &[6, 7, 8])
}

#[test]
fn both_kinds_of_link(rt: HostRuntime) -> Result<(), Fail> {
    let (mut out, mut inlet) = ends(rt.alloc(), 4)?;
    let mut source = mem_ring(rt.alloc(), 8)?;
    let mut sink = mem_ring(rt.alloc(), 3)?;
    let are_relayed = are_relayed(&mut source, &mut out, &mut inlet, &mut sink);
    drop(out);
    drop(inlet);
    drop(source);
    drop(sink);
    holds(&rt, are_relayed, "the bytes move");
    Ok(())
}

// Whether rings with so many places have this fault, or none.
fn have_fault(alloc: Global, cap: usize, fault: Option<RingFault>) -> bool {
    mem_ring(alloc, cap).err() == fault
        && ends(alloc, cap).err() == fault
        && text_slots(alloc, cap).err() == fault
}

const CAPACITIES: &[(usize, Option<RingFault>)] = &[
    (0, Some(RingFault::BadCapacity)),
    (MAX_CAPACITY, None),
    (MAX_CAPACITY + 1, Some(RingFault::BadCapacity)),
    (usize::MAX, Some(RingFault::BadCapacity)),
];

#[test]
fn capacities(rt: HostRuntime) {
    for (cap, fault) in CAPACITIES {
        row_holds(&rt, have_fault(rt.alloc(), *cap, *fault), *cap);
    }
    let numbers = [
        RingFault::BadCapacity.number(),
        RingFault::OutOfMemory.number(),
    ];
    holds(&rt, numbers == [18, 10], "the numbers of the faults");
}

// What the ends of a ring of four accept and give back, looked at together.
fn is_left(out: &mut RingOut, inlet: &mut RingIn) -> bool
    requires { AreEnds out.old inlet.old }
{
    let (mut first, mut second, mut last) = ([0u8; 2], [0u8; 2], [0u8; 2]);
    let three = out.put(&[1, 2, 3]);
    together(out, inlet);
    let one = out.put(&[4, 5]);
    let two = inlet.take(&mut first);
    // The third byte was known, and the fourth is found by a look.
    let again = inlet.take(&mut second);
    together(out, inlet);
    let none = inlet.take(&mut last);
    let put = out.put(&[6]);
    let sixth = inlet.take(&mut last);
    [three, one, two, again, none, put, sixth] == [3, 1, 2, 2, 0, 1, 1]
        && [first, second, last] == [[1, 2], [3, 4], [6, 0]]
}

#[test]
fn what_is_left(rt: HostRuntime) -> Result<(), Fail> {
    let (mut out, mut inlet) = ends(rt.alloc(), 4)?;
    let is_left = is_left(&mut out, &mut inlet);
    drop(out);
    drop(inlet);
    holds(&rt, is_left, "what is left");
    Ok(())
}

// What slots for two texts give back and accept, looked at together.
fn texts(
    out: &mut SlotOut<Text>,
    inlet: &mut SlotIn<Text>,
) -> ([Option<Text>; 5], [Result<(), Text>; 4])
    requires { AreSlots out.old inlet.old }
{
    let none = inlet.take_one();
    let one = out.give("one");
    let two = out.give("two");
    let full = out.give("three");
    let first = inlet.take_one();
    slots_together(out, inlet);
    let three = out.give("three");
    let second = inlet.take_one();
    let third = inlet.take_one();
    let last = inlet.take_one();
    ([none, first, second, third, last], [one, two, full, three])
}

#[test]
fn slots(rt: HostRuntime) -> Result<(), Fail> {
    let (mut out, mut inlet) = text_slots(rt.alloc(), 2)?;
    let texts = texts(&mut out, &mut inlet);
    drop(out);
    drop(inlet);
    let taken = [None, Some("one"), Some("two"), Some("three"), None];
    let given = [Ok(()), Ok(()), Err("three"), Ok(())];
    holds(&rt, texts == (taken, given), "the texts");
    Ok(())
}
