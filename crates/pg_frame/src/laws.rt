//! Laws of frames: each function does nothing, and its contract is the law.
ghost use Rattle.pg_frame.specs.Laws.{OneReading, RestBeginsNoFrame, PiecesContinue, OverlongStays};
ghost use Rattle.pg_frame.specs.Laws.{FrontIsFirst, FrontIsFrame, TakingLeavesOthers, WrittenIsRead, LoopKeeps};

/// Each list of bytes is one list of frames and one rest.
pub fn one_reading()
    ensures { OneReading }
{}

/// A rest is exactly what begins with no whole frame.
pub fn rest_begins_no_frame()
    ensures { RestBeginsNoFrame }
{}

/// The bodies of some bytes are the first bodies of these bytes and more.
pub fn pieces_continue()
    ensures { PiecesContinue }
{}

/// After a length that is too great nothing is a frame.
pub fn overlong_stays()
    ensures { OverlongStays }
{}

/// What `Deframer::front` answers is the first of all bodies.
pub fn front_is_first()
    ensures { FrontIsFirst }
{}

/// What `Deframer::front` answers lies in a frame at the front of the bytes.
pub fn front_is_frame()
    ensures { FrontIsFrame }
{}

/// What `Deframer::next` leaves are the other bodies and the rest.
pub fn taking_leaves_others()
    ensures { TakingLeavesOthers }
{}

/// What `write_frame` appends is read again.
pub fn written_is_read()
    ensures { WrittenIsRead }
{}

/// The bodies taken so far and those of the unread bytes are the bodies of all bytes fed.
pub fn loop_keeps()
    ensures { LoopKeeps }
{}
