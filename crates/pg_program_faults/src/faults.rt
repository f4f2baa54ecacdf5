//! The table of faults: what `docs/FAULTS.md` has of each number.

ghost use Rattle.std.specs.Prelude.{◌≡◌, IfSome, is_some};
ghost use Rattle.pg_program_faults.specs.Faults.{is_fault};

use crate::saying::Saying;
use std::alloc::Global;

/// A fault of the project's one list.
#[derive(Clone, Copy, Debug)]
pub struct FaultRow {
    pub number: u8,
    pub name: &'static str,
    /// When it comes.
    pub when: &'static str,
}

/// All faults, by their numbers.
pub const FAULTS: &[FaultRow] = &[
    FaultRow {
        number: 1,
        name: "Truncated",
        when: "bytes end within a term, a body is empty, or the input ends within a frame",
    },
    FaultRow {
        number: 2,
        name: "BadVersion",
        when: "a term's first byte is not 131",
    },
    FaultRow {
        number: 3,
        name: "UnknownTag",
        when: "an item's tag is not read",
    },
    FaultRow {
        number: 4,
        name: "TooDeep",
        when: "an item, read or written, is more than 64 levels deep",
    },
    FaultRow {
        number: 5,
        name: "IntegerTooLarge",
        when: "an integer needs more than 64 bits with its sign",
    },
    FaultRow {
        number: 6,
        name: "BadAtom",
        when: "an atom has more than 255 characters, is no UTF-8, or something else is there",
    },
    FaultRow {
        number: 7,
        name: "ImproperList",
        when: "a list's tail is no list",
    },
    FaultRow {
        number: 8,
        name: "BadReference",
        when: "a reference has no word, or more than three",
    },
    FaultRow {
        number: 9,
        name: "TrailingBytes",
        when: "bytes follow the term",
    },
    FaultRow {
        number: 10,
        name: "OutOfMemory",
        when: "a growth of memory was refused",
    },
    FaultRow {
        number: 11,
        name: "TooLong",
        when: "a frame, a term or a script takes more than 16,777,216 bytes, or a graph of more than 60 worlds is asked for",
    },
    FaultRow {
        number: 12,
        name: "NotAMessage",
        when: "a term is no message between nodes, or has too large a name; an exchange names a group twice or another node than its sender, or comes again; a reply is not of the kind gathered",
    },
    FaultRow {
        number: 13,
        name: "StampTooLarge",
        when: "a stamp is above 1,073,741,824, and nothing else is wrong with its packet",
    },
    FaultRow {
        number: 14,
        name: "Damaged",
        when: "a link had a fault before",
    },
    FaultRow {
        number: 15,
        name: "BadConfig",
        when: "a configuration has no node, more than 16, or two with one name; a node has more than 64 ports or 268,435,455 processes, names a group twice, or has a member that no node made; a service lacks a node's name; `bytes` has one name twice",
    },
    FaultRow {
        number: 16,
        name: "NoSuchPlace",
        when: "a node, port or peer is not there, or a node is its own peer; more should remain of a lost node than is on the way; an end that `explore --show` names is not there",
    },
    FaultRow {
        number: 17,
        name: "NotWaiting",
        when: "a retry is of a command that does not wait",
    },
    FaultRow {
        number: 18,
        name: "BadCapacity",
        when: "a ring's capacity is 0 or above 65,536",
    },
    FaultRow {
        number: 19,
        name: "NodeLost",
        when: "a node is lost, or its loss was seen",
    },
    FaultRow {
        number: 20,
        name: "NoSuchGroup",
        when: "a question names an absent group",
    },
    FaultRow {
        number: 21,
        name: "NoMember",
        when: "the closest member is asked of a group without members",
    },
    FaultRow {
        number: 22,
        name: "Busy",
        when: "a change would open where 256 commands are open",
    },
    FaultRow {
        number: 23,
        name: "NameTooLarge",
        when: "a group's name, in a command or configuration, takes more than 1,024 bytes or 32 levels",
    },
    FaultRow {
        number: 24,
        name: "ForeignPid",
        when: "a process to be ended is another node's; one that joins or leaves is of no node of the set",
    },
    FaultRow {
        number: 25,
        name: "NotFormed",
        when: "the node that shall end a process has not taken every exchange",
    },
    FaultRow {
        number: 26,
        name: "NotMade",
        when: "a process to be ended was never made",
    },
    FaultRow {
        number: 27,
        name: "AlreadyEnded",
        when: "a process to be ended has ended",
    },
    FaultRow {
        number: 28,
        name: "ProcessLimit",
        when: "a node made 268,435,455 processes",
    },
    FaultRow {
        number: 29,
        name: "NotDrained",
        when: "a packet of the lost peer is on the way; at a `Node`, a whole frame is left",
    },
    FaultRow {
        number: 30,
        name: "ClockFull",
        when: "the node's clock would pass 1,073,741,824, or it made 2^31 references; in `serve` and `threads`, a node's clock is nearly there",
    },
    FaultRow {
        number: 31,
        name: "ReadFault",
        when: "a read failed, or there were 2^40 reads",
    },
    FaultRow {
        number: 32,
        name: "WriteFault",
        when: "a write failed or took nothing",
    },
    FaultRow {
        number: 33,
        name: "NotLost",
        when: "the peer is not lost (by the step alone)",
    },
    FaultRow {
        number: 34,
        name: "NoThread",
        when: "a cluster's thread, or one that reads for it, can't be started",
    },
    FaultRow {
        number: 40,
        name: "BadLine",
        when: "a script's line has no form, or is none that `explore` takes; a text is of no value or gives no members; a script is no UTF-8",
    },
    FaultRow {
        number: 41,
        name: "UnknownNode",
        when: "a script's line names a node that none above declares, or one node as a pair",
    },
    FaultRow {
        number: 42,
        name: "LateDeclaration",
        when: "a declaration follows a line that is none",
    },
];

/// The row of a fault, if there is one of this number.
pub(crate) fn row_of(number: u8) -> Option<&'static FaultRow>
    ensures number { IfSome result (λ row. row.now.number ≡ number) }
    ensures known { is_some result ≡ is_fault number }
{
    FAULTS.iter().find(|row| row.number == number)
}

/// `N NAME: WHEN`, and a line feed; `None` where no fault has this number. Where memory is short it is cut.
///
/// Cost: memory for the line.
pub fn line_of_fault(alloc: Global, number: u8) -> Option<String>
    ensures { is_some result ≡ is_fault number }
{
    match row_of(number) {
        Some(row) => {
            let mut saying = Saying::new(alloc);
            saying.number(u64::from(row.number));
            saying.text(" ");
            saying.text(row.name);
            saying.text(": ");
            saying.text(row.when);
            saying.text("\n");
            Some(saying.said())
        }
        None => None,
    }
}
