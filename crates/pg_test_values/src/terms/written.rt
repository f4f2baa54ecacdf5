//! Terms and their bytes, those that are written and others from outside. In a text of bytes each tag stands as its letter.

use super::made::{Made, Refused};
use crate::rows::check;
use crate::samples::Sample::*;
use pg_term::TermFault::*;
use std::test::*;

#[test]
fn integers_and_atoms(rt: HostRuntime) {
    const ROWS: &[Made] = &[
        Made(Text("0"), 3, b"\x83a\0", &[b"\x83n\0\x01"]),
        Made(Text("5"), 3, b"\x83a\x05", &[b"\x83n\x01\0\x05"]),
        Made(Text("255"), 3, b"\x83a\xff", &[]),
        Made(Text("256"), 6, b"\x83b\0\0\x01\0", &[]),
        Made(Text("65538"), 6, b"\x83b\0\x01\0\x02", &[]),
        Made(Text("-1"), 6, b"\x83b\xff\xff\xff\xff", &[]),
        Made(Text("-2147483648"), 6, b"\x83b\x80\0\0\0", &[]),
        Made(Text("''"), 3, b"\x83w\0", &[]),
        Made(Text("'é'"), 5, b"\x83w\x02\xc3\xa9", OTHERS),
        Made(Text("'aß'"), 6, b"\x83w\x03a\xc3\x9f", &[b"\x83s\x02a\xdf"]),
        Made(Text("'€'"), 6, b"\x83w\x03\xe2\x82\xac", &[]),
        Made(Atom(255, "a"), 258, b"\x83w\xffa", &[]),
        Made(Atom(255, "é"), 514, b"\x83v\x01\xfe\xc3\xa9", &[]),
        Made(Atom(255, "\u{1f600}"), 1024, b"\x83v\x03\xfc\xf0", &[]),
    ];
    const OTHERS: &[&[u8]] = &[b"\x83d\0\x01\xe9", b"\x83v\0\x02\xc3\xa9"];
    check(&rt, rt.alloc(), ROWS);
    check(&rt, rt.alloc(), &[Refused(Atom(256, "é"), BadAtom)]);
}

#[test]
fn tuples_bigs_and_lists(rt: HostRuntime) {
    const ROWS: &[Made] = &[
        Made(Text("2147483648"), 8, b"\x83n\x04\0\0\0\0\x80", &[]),
        Made(Text("-2147483649"), 8, b"\x83n\x04\x01\x01\0\0\x80", &[]),
        Made(Text("4294967296"), 9, b"\x83n\x05\0\0\0\0\0\x01", &[]),
        Made(Text("9223372036854775807"), 12, MAX, &[]),
        Made(Text("-9223372036854775808"), 12, MIN, &[]),
        Made(Text("-513"), 6, b"\x83b\xff\xff\xfd\xff", BIG),
        Made(Text("1"), 3, b"\x83a\x01", LONG),
        Made(Text("{}"), 3, b"\x83h\0", &[]),
        Made(Text("{7}"), 5, b"\x83h\x01a\x07", LARGE),
        Made(Tuple(255, 7), 513, b"\x83h\xffa\x07", &[]),
        Made(Tuple(256, 7), 518, b"\x83i\0\0\x01\0a\x07", &[]),
        Made(Text("[]"), 2, b"\x83j", &[b"\x83l\0\0\0\0j"]),
        Made(Text("[7]"), 9, b"\x83l\0\0\0\x01a\x07j", &[]),
        Made(Text("[7,7]"), 11, b"\x83l\0\0\0\x02a\x07a\x07j", &[]),
    ];
    const MAX: &[u8] = b"\x83n\x08\0\xff\xff\xff\xff\xff\xff\xff\x7f";
    // A sign other than 0 and 1, and zeros behind the number.
    const BIG: &[&[u8]] = &[b"\x83n\x02\x07\x01\x02"];
    const LONG: &[&[u8]] = &[b"\x83n\x09\0\x01\0\0\0\0\0\0\0\0"];
    const LARGE: &[&[u8]] = &[b"\x83i\0\0\0\x01a\x07"];
    const MIN: &[u8] = b"\x83n\x08\x01\0\0\0\0\0\0\0\x80";
    check(&rt, rt.alloc(), ROWS);
}

#[test]
fn lists_and_old_references(rt: HostRuntime) {
    const ROWS: &[Made] = &[
        Made(Text("[1,2]"), 11, b"\x83l\0\0\0\x02a\x01a\x02j", TEXTS),
        Made(Text("#<a/2.7>"), 15, SEVEN, OLD),
        Made(Text("#<a/2.0>"), 15, b"\x83Z\0\x01w", &[]),
        Made(Text("#<a/2.1.4294967295>"), 19, b"\x83Z\0\x02w", &[]),
        Made(Text("#<a/2.1.2.3>"), 23, b"\x83Z\0\x03w", &[]),
    ];
    const TEXTS: &[&[u8]] = &[b"\x83k\0\x02\x01\x02", b"\x83l\0\0\0\x01a\x01k\0\x01\x02"];
    const SEVEN: &[u8] = b"\x83Z\0\x01w\x01a\0\0\0\x02\0\0\0\x07";
    const OLD: &[&[u8]] = &[
        b"\x83ed\0\x01a\0\0\0\x07\x02",
        b"\x83r\0\x01w\x01a\x02\0\0\0\x07",
    ];
    const NONE: &[Refused] = &[
        Refused(Reference(&[]), BadReference),
        Refused(Reference(&[1, 2, 3, 4]), BadReference),
    ];
    check(&rt, rt.alloc(), ROWS);
    check(&rt, rt.alloc(), NONE);
}

#[test]
fn wide_creations_and_binaries(rt: HostRuntime) {
    const ROWS: &[Made] = &[
        Made(Text("<a.1.258/3>"), 17, THREE, &[]),
        Made(Text("<a.1.258/0>"), 17, FRONT, &[]),
        Made(Text("<a.1.258/255>"), 17, FRONT, &[]),
        Made(Text("<a.1.258/256>"), 17, FRONT, &[]),
        Made(Text("<a.1.258/4294967295>"), 17, FRONT, &[]),
        Made(Text("<a.1.0/4294967295>"), 17, WIDE, &[]),
        Made(Text("<a.1.0>"), 17, ONE, OLD),
        Made(Text("<<>>"), 6, b"\x83m\0\0\0\0", &[]),
        Made(Text("<<1,2>>"), 8, b"\x83m\0\0\0\x02\x01\x02", &[]),
        Made(Text("<<131,0,255>>"), 9, b"\x83m\0\0\0\x03\x83\0\xff", &[]),
    ];
    const FRONT: &[u8] = b"\x83Xw\x01a\0\0\0\x01\0\0\x01\x02";
    const THREE: &[u8] = b"\x83Xw\x01a\0\0\0\x01\0\0\x01\x02\0\0\0\x03";
    const WIDE: &[u8] = b"\x83Xw\x01a\0\0\0\x01\0\0\0\0\xff\xff\xff\xff";
    const OLD: &[&[u8]] = &[b"\x83gw\x01a\0\0\0\x01\0\0\0\0\x01"];
    const ONE: &[u8] = b"\x83Xw\x01a\0\0\0\x01\0\0\0\0\0\0\0\x01";
    check(&rt, rt.alloc(), ROWS);
}

// The deepest that is written, and terms beyond it. Depth is told before length.
#[test]
fn deepest(rt: HostRuntime) {
    const DEEP: &[Refused] = &[Refused(Deep(64), TooDeep), Refused(LongAndDeep, TooDeep)];
    check(&rt, rt.alloc(), &[Made(Deep(63), 129, b"\x83h\x01", &[])]);
    check(&rt, rt.alloc(), DEEP);
}

#[test]
fn longest(rt: HostRuntime) {
    const FRONT: &[u8] = b"\x83i\0\x19\x99\x99n\x07\0\0";
    const ROWS: &[Made] = &[Made(Tuple(1_677_721, 1 << 48), 16_777_216, FRONT, &[])];
    check(&rt, rt.alloc(), ROWS);
}

#[test]
fn too_long(rt: HostRuntime) {
    const ROWS: &[Refused] = &[Refused(Tuple(1_525_201, i64::MAX), TooLong)];
    check(&rt, rt.alloc(), ROWS);
}
