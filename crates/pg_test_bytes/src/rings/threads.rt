ghost use Rattle.std.specs.Prelude.{◌≡◌, length};
ghost use Rattle.pg_ring.specs.Ends.{SameRingOut, SameRingIn};

use crate::rows::holds;
use pg_ring::{Inlet, Link, RingIn, RingOut, ring_pair, together};
use std::snapshot::Snapshot;
use std::sync::Wait;
use std::test::Fail;
use std::thread;
use std::thread::Promise;

// A thousand pieces of a thousand bytes cross the ring.
const PIECES: usize = 1000;

const PIECE: usize = 1000;

// What the sending thread gives back: its end, and the sum of its bytes.
#[derive(Drop)]
struct Sent {
    out: RingOut,
    sum: u64,
}

// The promise that the end that comes back is the end that was given to the thread.
#[derive(Drop)]
struct SameEnd {
    given: Snapshot<RingOut>,
}

impl Promise<Sent> for SameEnd {
    ghost kept_by = { λ p sent. SameRingOut p.given.value sent.out };
}

// The sum after some more bytes. Each byte's place counts.
fn sum_after(sum: u64, bytes: &[u8]) -> u64 {
    let mut sum = sum;
    for byte in bytes {
        sum = sum.wrapping_mul(31).wrapping_add(u64::from(*byte));
    }
    sum
}

// Puts all the bytes, over any link, and waits where it is full.
fn put_all<W: Wait, L: Link>(rt: &W, link: &mut L, bytes: &[u8])
    ensures { L.accepts link.old bytes.now link.new }
{
    let mut count = 0;
    for _ in rt.forever() {
        if count == bytes.len() {
            return;
        }
        let more = link.put(&bytes[count..]);
        if more == 0 {
            thread::yield_now();
        }
        count += more;
    }
    unreachable!()
}

// Sends the pieces.
fn send_pieces(rt: &impl Wait, out: RingOut) -> Sent
    ensures { SameRingOut out result.out }
{
    let mut out = out;
    let mut piece = [0u8; PIECE];
    for i in 0..PIECE {
        piece[i] = (i % 251) as u8;
    }
    let mut sum = 0;
    for _ in 0..PIECES {
        put_all(rt, &mut out, &piece);
        sum = sum_after(sum, &piece);
    }
    Sent { out, sum }
}

// Receives so many bytes, and returns their sum.
fn receive(rt: &impl Wait, inlet: &mut RingIn, count: usize) -> u64
    ensures { SameRingIn inlet.old inlet.new }
{
    let mut buffer = [0u8; 64];
    let mut left = count;
    let mut sum = 0;
    for _ in rt.forever() {
        if left == 0 {
            return sum;
        }
        let room = left.min(64);
        let taken = inlet.take(&mut buffer[..room]);
        if taken == 0 {
            thread::yield_now();
        }
        sum = sum_after(sum, &buffer[..taken]);
        left -= taken;
    }
    unreachable!()
}

#[test]
fn a_million_bytes_between_threads(rt: HostRuntime) -> Result<(), Fail> {
    let (out, mut inlet) = ring_pair(rt.alloc(), 256)?;
    let promise = SameEnd {
        given: Snapshot::of(&out),
    };
    let sending = thread::spawn_with(
        &rt,
        promise,
        move || -> Sent
            ensures { SameRingOut out result.out }
        { send_pieces(&rt, out) },
    );
    let Ok(sending) = sending else {
        holds(&rt, false, "no thread was started");
        return Ok(());
    };
    let sum = receive(&rt, &mut inlet, PIECES * PIECE);
    let Sent {
        mut out,
        sum: sent_sum,
    } = sending.join(&rt);
    holds(&rt, sum == sent_sum, "what is sent is received");
    holds(&rt, sum == 14102120543434856496, "the sum of the bytes");
    together(&mut out, &mut inlet);
    let left = inlet.take(&mut [0u8; 8]);
    holds(&rt, left == 0, "nothing is left");
    Ok(())
}
