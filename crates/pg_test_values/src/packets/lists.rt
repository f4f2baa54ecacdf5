//! Lists of an exchange: in other forms, in two parts, and such as are none.

use super::bodies::EXCHANGE;
use super::forms::{CUT, Changed, Fault, Forms, LETTER, NO_PACKET, Same, Wanted};
use crate::rows::Edit::At;
use crate::rows::check;
use pg_message::MessageFault;
use pg_term::TermFault;
use std::test::*;

const IMPROPER: Wanted = Fault(MessageFault::Term(TermFault::ImproperList));

#[test]
fn each_part_of_an_exchange_in_other_forms(rt: HostRuntime) {
    const ROWS: &[Forms] = &[
        Forms(EXCHANGE, 5, 2, &[b"i\0\0\0\x02"]),
        Forms(EXCHANGE, 7, 2, &[b"v\0\x04"]),
        Forms(EXCHANGE, 13, 2, &[b"i\0\0\0\x03"]),
        Forms(EXCHANGE, 15, 2, &[b"s\x08"]),
        Forms(EXCHANGE, 25, 2, LETTER),
        Forms(EXCHANGE, 38, 2, &[b"v\0\x01"]),
        Forms(EXCHANGE, 41, 1, NIL),
        Forms(EXCHANGE, 42, 1, NIL),
        Forms(EXCHANGE, 57, 2, &[b"d\0\x01"]),
        Forms(EXCHANGE, 104, 1, NIL),
        Forms(EXCHANGE, 105, 1, &[b"k\0\0"]),
        Forms(EXCHANGE, 106, 1, NIL),
    ];
    const NIL: &[&[u8]] = &[b"k\0\0", b"l\0\0\0\0j"];
    const IN_PARTS: &[Changed] = &[
        // The first counts so many elements, and a list of so many others is its tail.
        Changed(EXCHANGE, &[At(28, 5, ONE), At(43, 0, ONE)], Same),
        Changed(EXCHANGE, &[At(33, 5, ONE), At(41, 0, ONE)], Same),
        Changed(EXCHANGE, &[At(51, 5, ONE), At(72, 0, TWO)], Same),
        Changed(EXCHANGE, &[At(51, 5, THREE), At(104, 0, NONE)], Same),
    ];
    const NONE: &[u8] = b"l\0\0\0\0";
    const ONE: &[u8] = b"l\0\0\0\x01";
    const TWO: &[u8] = b"l\0\0\0\x02";
    const THREE: &[u8] = b"l\0\0\0\x03";
    check(&rt, rt.alloc(), ROWS);
    check(&rt, rt.alloc(), IN_PARTS);
}

// A count that is larger than the bytes, one that is too small, and an end that is no list.
#[test]
fn lists_that_are_none(rt: HostRuntime) {
    const ROWS: &[Changed] = &[
        Changed(EXCHANGE, &[At(29, 4, b"\xff\xff\xff\xff")], CUT),
        Changed(EXCHANGE, &[At(29, 4, b"\0\0\0\x03")], CUT),
        Changed(EXCHANGE, &[At(34, 4, b"\xff\xff\xff\xff")], CUT),
        Changed(EXCHANGE, &[At(52, 4, b"\xff\xff\xff\xff")], CUT),
        Changed(EXCHANGE, &[At(52, 4, b"\0\0\x01\x03")], CUT),
        Changed(EXCHANGE, &[At(52, 4, b"\0\0\0\x02")], IMPROPER),
        Changed(EXCHANGE, &[At(106, 2, b"a\0")], IMPROPER),
        Changed(EXCHANGE, &[At(105, 1, b"a")], IMPROPER),
        Changed(EXCHANGE, &[At(104, 1, b"a")], IMPROPER),
        Changed(EXCHANGE, &[At(40, 1, b"g")], NO_PACKET),
    ];
    check(&rt, rt.alloc(), ROWS);
}
