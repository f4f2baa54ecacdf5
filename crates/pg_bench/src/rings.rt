//! How many bytes a second cross a ring between two threads, for pieces of several sizes.

use pg_ring::{Inlet, Link, RingIn, RingOut, ring_pair};
use pg_test_kit::Watch;
use std::io::Eprint;
use std::sync::Wait;
use std::thread;
use std::thread::Threads;
use std::time::Clock;

// The capacity of the ring, in bytes.
const CAPACITY: usize = 65_536;

// The greatest piece, in bytes.
const MAX_PIECE: usize = 4096;

// Sizes of pieces in bytes, and how many pieces of that size cross.
const ROUNDS: [(usize, usize); 3] = [(1, 20_000_000), (64, 20_000_000), (4096, 2_000_000)];

// Puts so many pieces, each whole before the next.
fn send(rt: &impl Wait, out: RingOut, size: usize, pieces: usize) {
    let mut out = out;
    let buffer = [7u8; MAX_PIECE];
    for _ in 0..pieces {
        let mut rest = &buffer[..size.min(MAX_PIECE)];
        for _ in rt.forever() {
            let count = out.put(rest);
            rest = &rest[count..];
            if rest.is_empty() {
                break;
            }
            if count == 0 {
                thread::yield_now();
            }
        }
    }
}

// Takes so many bytes, by at most a piece a call.
fn receive(rt: &impl Wait, inlet: &mut RingIn, size: usize, bytes: usize) {
    let mut buffer = [0u8; MAX_PIECE];
    let mut left = bytes;
    for _ in rt.forever() {
        if left == 0 {
            return;
        }
        let count = inlet.take(&mut buffer[..size.min(MAX_PIECE)]);
        if count == 0 {
            thread::yield_now();
        }
        left = left.saturating_sub(count);
    }
    unreachable!()
}

// Starts the thread that puts so many pieces of this size, and takes them here; whether it could.
fn cross_pieces<R: Threads + Wait + AllocGlobal + Copy + Send + 'static>(
    rt: &R,
    size: usize,
    pieces: usize,
) -> bool {
    let Ok((out, mut inlet)) = ring_pair(rt.alloc(), CAPACITY) else {
        return false;
    };
    let own = *rt;
    let Ok(sending) = thread::spawn(rt, move || send(&own, out, size, pieces)) else {
        return false;
    };
    receive(rt, &mut inlet, size, size.saturating_mul(pieces));
    sending.join(rt);
    true
}

/// Prints the figures of each size, of so many parts of the pieces one. Whether it could.
pub fn cross<R: Threads + Wait + Clock + Eprint + AllocGlobal + Copy + Send + 'static>(
    rt: &R,
    parts: usize,
) -> bool {
    for &(size, all) in &ROUNDS {
        let pieces = all / parts.max(1);
        let watch = Watch::begin(rt);
        if !cross_pieces(rt, size, pieces) {
            return false;
        }
        let megabytes = watch.rate(rt, size.saturating_mul(pieces) as u64) / 1_000_000;
        let _ = eprintln!(rt; "pieces of {size} bytes: {megabytes} MB/s");
    }
    true
}
