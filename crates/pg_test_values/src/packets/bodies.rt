//! Bodies of packets, byte by byte from outside.

/// {0, {call, Ref, {create, g}}}
pub const CREATE: &[u8] =
    b"\x83h\x02a\0h\x03w\x04callZ\0\x03w\x01a\0\0\0\x01\0\0\0\x01\0\0\0\0\0\0\0\0\
    h\x02w\x06createw\x01g";

/// {0, {call, Ref, {join, g, <a.1.0>}}}
pub const JOIN: &[u8] = b"\x83h\x02a\0h\x03w\x04callZ\0\x01w\x01a\0\0\0\0\0\0\0\x07\
    h\x03w\x04joinw\x01gXw\x01a\0\0\0\x01\0\0\0\0\0\0\0\x01";

/// {0, {call, Ref, {join, [1, 2], <a.1.0>}}}
pub const JOIN_OF_LIST: &[u8] = b"\x83h\x02a\0h\x03w\x04callZ\0\x01w\x01a\0\0\0\0\0\0\0\x07\
    h\x03w\x04joinl\0\0\0\x02a\x01a\x02jXw\x01a\0\0\0\x01\0\0\0\0\0\0\0\x01";

/// {1, {reply, Ref, ok}}
pub const APPLIED: &[u8] =
    b"\x83h\x02a\x01h\x03w\x05replyZ\0\x03w\x01a\0\0\0\x01\0\0\0\x01\0\0\0\0\0\0\0\0w\x02ok";

/// {9, {cast, {del_lock, g, Ref}}}
pub const DEL_LOCK: &[u8] =
    b"\x83h\x02a\x09h\x02w\x04casth\x03w\x08del_lockw\x01gZ\0\x01w\x01a\0\0\0\0\0\0\0\x07";

/// {0, {cast, {exchange, a, []}}}
pub const EMPTY: &[u8] = b"\x83h\x02a\0h\x02w\x04casth\x03w\x08exchangew\x01aj";

/// {0, {cast, {exchange, a, [[h, []], [g, [<a.2.0>, <a.1.0>, <a.1.0>]]]}}}
pub const EXCHANGE: &[u8] = b"\x83h\x02a\0h\x02w\x04casth\x03w\x08exchangew\x01al\0\0\0\x02\
    l\0\0\0\x02w\x01hjjl\0\0\0\x02w\x01gl\0\0\0\x03Xw\x01a\0\0\0\x02\0\0\0\0\0\0\0\x01\
    Xw\x01a\0\0\0\x01\0\0\0\0\0\0\0\x01Xw\x01a\0\0\0\x01\0\0\0\0\0\0\0\x01jjj";

/// {3, {down, <a.1.0>}}
pub const DOWN: &[u8] = b"\x83h\x02a\x03h\x02w\x04downXw\x01a\0\0\0\x01\0\0\0\0\0\0\0\x01";

/// {0, {down, <a.1.0>}}
pub const DOWN_AT_0: &[u8] = b"\x83h\x02a\0h\x02w\x04downXw\x01a\0\0\0\x01\0\0\0\0\0\0\0\x01";
