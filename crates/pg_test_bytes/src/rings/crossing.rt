//! A frame that crosses a ring.

use crate::frames::CREATE_CALL;
use crate::moves::Move::{Feed, Open, Rest, Take};
use crate::moves::plays;
use crate::rows::holds;
use pg_frame::Deframer;
use pg_ring::{Inlet, Link, RingIn, RingOut, ring_pair};
use std::test::*;

// Whether a byte crosses the ring while no frame is whole.
fn is_crossed(out: &mut RingOut, inlet: &mut RingIn, deframer: &mut Deframer, byte: u8) -> bool {
    let mut place = [0u8; 1];
    plays(deframer, &[Open])
        && out.put(&[byte, 0]) == 1
        && inlet.take(&mut place) == 1
        && plays(deframer, &[Feed(&place)])
}

// Whether a frame crosses a ring byte by byte, is whole then, and nothing is left.
fn is_crossing(
    out: &mut RingOut,
    inlet: &mut RingIn,
    deframer: &mut Deframer,
    frame: &[u8],
) -> bool {
    let mut is_crossing = true;
    for byte in frame {
        is_crossing = is_crossing && is_crossed(out, inlet, deframer, *byte);
    }
    let body = frame.get(4..).unwrap_or(&[]);
    is_crossing
        && plays(deframer, &[Rest(frame.len()), Take(body), Rest(0)])
        && inlet.take(&mut [0u8; 1]) == 0
}

#[test]
fn frame_byte_by_byte(rt: HostRuntime) -> Result<(), Fail> {
    let (mut out, mut inlet) = ring_pair(rt.alloc(), 1)?;
    let mut deframer = Deframer::new(rt.alloc());
    let is_crossing = is_crossing(&mut out, &mut inlet, &mut deframer, CREATE_CALL);
    drop(deframer);
    drop(out);
    drop(inlet);
    holds(&rt, is_crossing, "the frame crosses");
    Ok(())
}
