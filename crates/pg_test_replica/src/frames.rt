//! Frames that node a sends, and those that node b answers.

// A call of `create g` by node a with stamp 0, framed, and the framed reply.
pub const CREATE: &[u8] =
    b"\0\0\0-\x83h\x02a\0h\x03w\x04callr\0\x03w\x01a\x01\0\0\0\x01\0\0\0\0\0\0\0\0h\x02w\x06createw\x01g";

pub const CREATED: &[u8] =
    b"\0\0\0(\x83h\x02a\x01h\x03w\x05replyZ\0\x03w\x01a\0\0\0\x01\0\0\0\x01\0\0\0\0\0\0\0\0w\x02ok";

// The same call with the stamp 1,073,741,823, and its reply; then with 1,073,741,824, which no clock passes.
pub const LAST_STAMP: &[u8] =
    b"\0\0\0\x30\x83h\x02b?\xff\xff\xffh\x03w\x04callr\0\x03w\x01a\x01\0\0\0\x01\0\0\0\0\0\0\0\0h\x02w\x06createw\x01g";

pub const LAST_REPLY: &[u8] =
    b"\0\0\0+\x83h\x02b@\0\0\0h\x03w\x05replyZ\0\x03w\x01a\0\0\0\x01\0\0\0\x01\0\0\0\0\0\0\0\0w\x02ok";

pub const FULL_STAMP: &[u8] =
    b"\0\0\0\x30\x83h\x02b@\0\0\0h\x03w\x04callr\0\x03w\x01a\x01\0\0\0\x01\0\0\0\0\0\0\0\0h\x02w\x06createw\x01g";

// A process that ended, with the stamp 1,073,741,825.
pub const LARGE_STAMP: &[u8] =
    b"\0\0\0\x1d\x83h\x02b@\0\0\x01h\x02w\x04downgw\x01a\0\0\0\x01\0\0\0\0\x01";

// The exchange of node a, which has no group, and its request for the lock of g.
pub const EXCHANGE: &[u8] = b"\0\0\0\x1d\x83h\x02a\0h\x02w\x04casth\x03w\x08exchangew\x01aj";

pub const SET_LOCK: &[u8] =
    b"\0\0\0/\x83h\x02a\x01h\x03w\x04callr\0\x03w\x01a\x01\0\0\0\x01\0\0\0\0\0\0\0\0h\x02w\x08set_lockw\x01g";

pub const GRANTED: &[u8] =
    b"\0\0\0*\x83h\x02a\x02h\x03w\x05replyZ\0\x03w\x01a\0\0\0\x01\0\0\0\x01\0\0\0\0\0\0\0\0w\x04true";

pub const DENIED: &[u8] =
    b"\0\0\0+\x83h\x02a\x02h\x03w\x05replyZ\0\x03w\x01a\0\0\0\x01\0\0\0\x01\0\0\0\0\0\0\0\0w\x05false";

// The call with a reference as it is written, of the greatest creation, and its reply.
pub const WIDE_CALL: &[u8] =
    b"\0\0\0\x30\x83h\x02a\0h\x03w\x04callZ\0\x03w\x01a\xff\xff\xff\xff\0\0\0\x01\0\0\0\0\0\0\0\0h\x02w\x06createw\x01g";

pub const WIDE_REPLY: &[u8] =
    b"\0\0\0(\x83h\x02a\x01h\x03w\x05replyZ\0\x03w\x01a\xff\xff\xff\xff\0\0\0\x01\0\0\0\0\0\0\0\0w\x02ok";

// The first 30 bytes of the call.
pub const CUT: &[u8] = b"\0\0\0-\x83h\x02a\0h\x03w\x04callr\0\x03w\x01a\x01\0\0\0\x01\0\0";
