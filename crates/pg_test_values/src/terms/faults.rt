//! Bytes that spell no term, and the first fault of them.

use crate::rows::Edit::{self, Times};
use crate::rows::{OUT_OF_MEMORY, Row, check, edited};
use pg_message::MessageFault;
use pg_term::TermFault::{self, *};
use pg_term_io::{check_term, decode, decode_item, decode_pid, decode_reference};
use std::alloc::Global;
use std::test::*;

/// Bytes with what stands behind them, and the fault that they have when they are read and when they are only looked at.
#[derive(Clone, Copy)]
struct Spelled(&'static [u8], &'static [Edit], Option<TermFault>);

impl Row for Spelled {
    fn told(&self, alloc: Global) -> Result<bool, MessageFault> {
        with!(edited(alloc, self.0, 0, &[], self.1), bytes => match decode(alloc, &bytes).err() {
            Some(OutOfMemory) if self.2.is_none() => Err(OUT_OF_MEMORY),
            read => Ok(read == self.2 && check_term(&bytes).err() == self.2),
        })
    }
}

const CUT: Option<TermFault> = Some(Truncated);

#[test]
fn decode_faults(rt: HostRuntime) {
    const ROWS: &[Spelled] = &[
        Spelled(b"", &[], CUT),
        Spelled(b"\x83a", &[], CUT),
        Spelled(b"\x83n\x03\0\x01\x02", &[], CUT),
        Spelled(b"\x83l\xff\xff\xff\xffj", &[], CUT),
        Spelled(b"\x83i\xff\xff\xff\xff", &[], CUT),
        Spelled(b"\x83Z\0", &[], CUT),
        Spelled(b"\x83Z\0\x01w\x01a\0\0\0\x02\0\0\0", &[], CUT),
        Spelled(b"\x83Xw\x01a\0\0\0\x01\0\0\0\0\xff\xff\xff", &[], CUT),
        Spelled(b"\x83m\0\0\0", &[], CUT),
        Spelled(b"\x83m\0\0\0\x03\x01\x02", &[], CUT),
        Spelled(b"\x83m\xff\xff\xff\xff\x01\x02", &[], CUT),
        Spelled(b"\x82a\x01", &[], Some(BadVersion)),
        Spelled(b"\x83F", &[], Some(UnknownTag)),
        Spelled(b"\x83a\x01\0", &[], Some(TrailingBytes)),
        Spelled(b"\x83m\0\0\0\0\x01", &[], Some(TrailingBytes)),
        Spelled(b"\x83n\x08\0\0\0\0\0\0\0\0\x80", &[], Some(IntegerTooLarge)),
        Spelled(LARGE, &[], Some(IntegerTooLarge)),
        Spelled(b"\x83l\0\0\0\x01a\x01a\x02", &[], Some(ImproperList)),
        Spelled(b"\x83l\0\0\0\0a\x01", &[], Some(ImproperList)),
        Spelled(b"\x83r\0\x04", &[], Some(BadReference)),
        Spelled(b"\x83Z\0\x04", &[], Some(BadReference)),
        Spelled(b"\x83Z\0\0w", &[], Some(BadReference)),
        Spelled(b"\x83r\0\0", &[], Some(BadReference)),
        Spelled(b"\x83Z\0\x01a", &[], Some(BadAtom)),
        Spelled(b"\x83Xa\0", &[], Some(BadAtom)),
        Spelled(b"\x83ga\0", &[], Some(BadAtom)),
        Spelled(b"\x83gw\x01\xff", &[], Some(BadAtom)),
        Spelled(b"\x83w\x01\xff", &[], Some(BadAtom)),
        // Each kind of term that takes memory, in one.
        Spelled(EACH_KIND, &[], None),
    ];
    const LARGE: &[u8] = b"\x83n\x09\x01\0\0\0\0\0\0\0\0\x01";
    const EACH_KIND: &[u8] = b"\x83h\x07m\0\0\0\x02\x01\x02w\x01ak\0\x02\x01\x02\
        gd\0\x01b\0\0\0\x01\0\0\0\x02\x03l\0\0\0\x01s\x01cj\
        r\0\x02w\x01a\x02\0\0\0\x07\0\0\0\x08ed\0\x01a\0\0\0\x07\x02";
    check(&rt, rt.alloc(), ROWS);
}

#[test]
fn long_atoms_and_depth(rt: HostRuntime) {
    // So many tuples of one element, one in the other.
    const IN_62: Edit = Times(62, b"h\x01");
    const IN_63: Edit = Times(63, b"h\x01");
    const IN_64: Edit = Times(64, b"h\x01");
    const ROWS: &[Spelled] = &[
        Spelled(b"\x83v\0\xff", &[Times(255, b"a")], None),
        Spelled(b"\x83v\x01\0", &[Times(256, b"a")], Some(BadAtom)),
        Spelled(b"\x83d\0\xff", &[Times(255, b"a")], None),
        Spelled(b"\x83d\x01\0", &[Times(256, b"a")], Some(BadAtom)),
        Spelled(b"\x83", &[IN_63, Times(1, b"k\0\0")], None),
        Spelled(b"\x83", &[IN_63, Times(1, b"k\0\x01\x07")], DEEP),
        Spelled(b"\x83", &[IN_63, Times(1, b"k\0\x01")], CUT),
        Spelled(b"\x83", &[IN_62, Times(1, b"k\0\x01\x07")], None),
        Spelled(b"\x83", &[IN_63, Times(1, b"a\0")], None),
        Spelled(b"\x83", &[IN_64, Times(1, b"a\0")], DEEP),
        Spelled(b"\x83", &[IN_64], CUT),
        Spelled(b"\x83", &[IN_63, Times(1, b"l\0\0\0\0j")], DEEP),
        Spelled(b"\x83", &[IN_62, Times(1, b"l\0\0\0\0j")], None),
    ];
    const DEEP: Option<TermFault> = Some(TooDeep);
    check(&rt, rt.alloc(), ROWS);
}

/// Bytes that begin with a part, the tag of a pid or a reference left out, and the fault that they have.
#[derive(Clone, Copy)]
enum Part {
    Item(&'static [u8], Option<TermFault>),
    Pid(&'static [u8], Option<TermFault>),
    Reference(&'static [u8], Option<TermFault>),
}

impl Row for Part {
    fn told(&self, alloc: Global) -> Result<bool, MessageFault> {
        let (read, fault) = match *self {
            Part::Item(bytes, fault) => (decode_item(alloc, 64, bytes).err(), fault),
            Part::Pid(bytes, fault) => (decode_pid(alloc, bytes).err(), fault),
            Part::Reference(bytes, fault) => (decode_reference(alloc, bytes).err(), fault),
        };
        match read {
            Some(OutOfMemory) if fault.is_none() => Err(OUT_OF_MEMORY),
            read => Ok(read == fault),
        }
    }
}

// The fault stands behind a name that takes memory.
#[test]
fn faults_of_parts(rt: HostRuntime) {
    const ROWS: &[Part] = &[
        Part::Item(b"h\x02w\x01aw\x01\xff", Some(BadAtom)),
        Part::Item(b"h\x02w\x01aF", Some(UnknownTag)),
        Part::Item(b"h\x02w\x01a", CUT),
        Part::Item(b"l\0\0\0\x01w\x01aa\x01", Some(ImproperList)),
        Part::Item(b"h\x01w\x01aF", None),
        Part::Pid(b"w\x01a\0\0\0\x01\0\0\0\0\0\0\0", CUT),
        Part::Pid(b"w\x01a\0\0\0\x01\0\0\0\0\0\0\0\x01", None),
        Part::Reference(b"\0\x02w\x01a\0\0\0\x01\0\0\0\0\0\0\0", CUT),
        Part::Reference(b"\0\x01w\x01a\0\0\0\x01\0\0\0\x07", None),
    ];
    check(&rt, rt.alloc(), ROWS);
}
