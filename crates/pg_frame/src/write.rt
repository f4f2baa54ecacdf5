ghost use Rattle.std.specs.Prelude.{◌≡◌, ◌+◌, ◌<◌, ◌≤◌, ◌↔◌, ◌++◌, length, IsErr};
ghost use Rattle.std.specs.Prelude.{IfOk, OnOk, OnErr, IsErrOf, vec_len, vec_capacity};
ghost use Rattle.std.specs.Int.{w32, to_be_bytes};
ghost use Rattle.pg_frame.specs.Frames.{frame};
ghost use Rattle.pg_frame.specs.Limits.{max_body};

use crate::{FrameFault, MAX_BODY, TooLong};
use byteorder::{BigEndian, ByteOrder};
use bytes::BytesMut;

// The length of the body as it is written in the frame.
fn length_of(body: &[u8]) -> Result<[u8; 4], TooLong>
    ensures ok { IfOk result (λ head. head ≡ to_be_bytes w32 (length body.now)) }
    ensures too_long { IsErr result ↔ (max_body < length body.now) }
{
    if body.len() > MAX_BODY as usize {
        return Err(TooLong);
    }
    let mut head = [0; 4];
    BigEndian::write_u32(&mut head, body.len() as u32);
    Ok(head)
}

/// Appends the frame with this body to `out`: four bytes, which are the body's length with the highest byte first,
/// and the body. The greatest length is this project's own.
///
/// Errors: `TooLong` where the body is longer than `MAX_BODY`; else `OutOfMemory`, which comes only where `out` had
/// no capacity for the frame. They change nothing.
///
/// Cost: O(length of the body), and at times that of `out`.
///
/// The rule: `{packet, 4}` of Erlang's `inet:setopts/2`.
#[tactic(auto, unfolding(crate::specs::Frames::frame))]
pub fn write_frame(out: &mut Vec<u8>, body: &[u8]) -> Result<(), FrameFault>
    ensures ok { OnOk result (out.new.items ≡ out.old.items ++ frame body.now) }
    ensures err { OnErr result (out.new.items ≡ out.old.items) }
    ensures too_long { IsErrOf result FrameFault.TooLong ↔ (max_body < length body.now) }
    ensures out_of_memory { IsErrOf result FrameFault.OutOfMemory
        → vec_capacity out.old < vec_len out.old + length (frame body.now) }
{
    let head = length_of(body)?;
    out.reserve(head.len() + body.len())?;
    out.extend_from_slice(&head).unwrap();
    out.extend_from_slice(body).unwrap();
    Ok(())
}

/// `write_frame` for a buffer: appends the frame with this body to `out`, or changes no more than its spare room,
/// which then stays or grows. A frame takes no more of that room than its length.
///
/// Errors: `TooLong` where the body is longer than `MAX_BODY`; else `OutOfMemory`, which comes only where `out` had
/// no spare room for the frame. They leave the bytes of the buffer as they were.
///
/// Cost: that of `write_frame`.
#[tactic(auto, unfolding(crate::specs::Frames::frame))]
pub fn frame_into(out: &mut BytesMut, body: &[u8]) -> Result<(), FrameFault>
    ensures ok { OnOk result (out.new.items ≡ out.old.items ++ frame body.now) }
    ensures err { OnErr result (out.new.items ≡ out.old.items) }
    ensures too_long { IsErrOf result FrameFault.TooLong ↔ (max_body < length body.now) }
    ensures out_of_memory { IsErrOf result FrameFault.OutOfMemory
        → out.old.spare < length (frame body.now) }
    ensures spare { OnOk result (out.old.spare ≤ out.new.spare + length (frame body.now)) }
    ensures spare_stays { OnErr result (out.old.spare ≤ out.new.spare) }
{
    let head = length_of(body)?;
    out.reserve(head.len() + body.len())?;
    out.extend_reserved(&head);
    out.extend_reserved(body);
    Ok(())
}
