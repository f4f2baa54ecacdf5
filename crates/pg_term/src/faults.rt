//! The numbers of faults: one list for all crates. Each enum of faults tells them by its method `number`; a program prints
//! `refused N` with the number. `docs/FAULTS.md` says which enum tells which, and where.
//!
//! `READ_FAULT` is such a number. Begin with docs/FAULTS.md.

/// The bytes end within a term, or the input ends within a frame.
pub const TRUNCATED: u8 = 1;

/// A term's first byte is not 131.
pub const BAD_VERSION: u8 = 2;

/// An item begins with a tag that is not read.
pub const UNKNOWN_TAG: u8 = 3;

/// A term nests more than 64 levels deep.
pub const TOO_DEEP: u8 = 4;

/// An integer needs more than 64 bits with its sign.
pub const INTEGER_TOO_LARGE: u8 = 5;

/// An atom has more than 255 characters, is no UTF-8, or something else stands in an atom's place.
pub const BAD_ATOM: u8 = 6;

/// A list's tail is no list.
pub const IMPROPER_LIST: u8 = 7;

/// A reference has no word, or more than three.
pub const BAD_REFERENCE: u8 = 8;

/// Bytes follow the term.
pub const TRAILING_BYTES: u8 = 9;

/// A growth of memory was refused.
pub const OUT_OF_MEMORY: u8 = 10;

/// A frame, a term or a script takes more than 16,777,216 bytes, or a graph of more than 60 worlds is asked for.
pub const TOO_LONG: u8 = 11;

/// A term is none of the messages between nodes, or is one that may not come then.
pub const NOT_A_MESSAGE: u8 = 12;

/// A packet's stamp is above 1,073,741,824.
pub const STAMP_TOO_LARGE: u8 = 13;

/// A link had a fault before.
pub const DAMAGED: u8 = 14;

/// A configuration is faulty, as where it has no node or two of one name.
pub const BAD_CONFIG: u8 = 15;

/// A node, a port or a peer that is named is not there.
pub const NO_SUCH_PLACE: u8 = 16;

/// A retry of a command that does not wait.
pub const NOT_WAITING: u8 = 17;

/// A ring's capacity is 0 or above 65,536.
pub const BAD_CAPACITY: u8 = 18;

/// A node is lost, or the loss of a peer was seen.
pub const NODE_LOST: u8 = 19;

/// A question names a group that is absent.
pub const NO_SUCH_GROUP: u8 = 20;

/// The closest member of a group without members is asked for.
pub const NO_MEMBER: u8 = 21;

/// A change is to be opened where 256 commands are open.
pub const BUSY: u8 = 22;

/// The name of a group takes more than 1,024 bytes or nests more than 32 levels deep.
pub const NAME_TOO_LARGE: u8 = 23;

/// A process is of another node, or of none of the set.
pub const FOREIGN_PID: u8 = 24;

/// A process shall end at a node that has not taken every exchange.
pub const NOT_FORMED: u8 = 25;

/// A process that shall end was never made.
pub const NOT_MADE: u8 = 26;

/// A process that shall end has ended.
pub const ALREADY_ENDED: u8 = 27;

/// A node made 268,435,455 processes.
pub const PROCESS_LIMIT: u8 = 28;

/// The loss of a peer of which a packet is still on the way.
pub const NOT_DRAINED: u8 = 29;

/// The node's clock would pass 1,073,741,824, or it made 2^31 references.
pub const CLOCK_FULL: u8 = 30;

/// A read failed.
pub const READ_FAULT: u8 = 31;

/// A write failed or took nothing.
pub const WRITE_FAULT: u8 = 32;

/// The loss of a peer that is not lost.
pub const NOT_LOST: u8 = 33;

/// A thread of a cluster, or one that reads for it, can't be started.
pub const NO_THREAD: u8 = 34;

/// A line of a script has no form, or a text is that of no such value.
pub const BAD_LINE: u8 = 40;

/// A line of a script names a node that no line above declares.
pub const UNKNOWN_NODE: u8 = 41;

/// A declaration of a script stands after a line that is none.
pub const LATE_DECLARATION: u8 = 42;
