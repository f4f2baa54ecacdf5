//! Configurations that are refused, each by its number, and how many bytes find room on a ring.

use pg_script::{Act, Config, FrameWorld, ScriptLine, Stepped, World, WorldFault, read_script};
use pg_term::{Atom, Fields, Items, Pid, Term, TermFault};
use std::alloc::{AllocError, Global};
use std::mem;
use std::process::Abort;
use std::test::*;

/// Ends the test where something does not hold, and tells of it, and of its place: a node, a row or a step.
pub fn holds(rt: &impl Abort, holds: bool, said: &str, place: usize) {
    assert!(rt; holds, "{said} {place}");
}

/// How a configuration is changed that declarations name.
#[derive(Clone, Copy)]
enum Edit {
    Nothing,
    /// Each node has so many ports.
    Ports(u16),
    /// The last node has the name of the first.
    Twice,
    /// Node `a` has so many groups more, whose names take above 1,000 bytes.
    Groups(u32),
}

/// Declarations, the change, and the number by which no world can begin so; 0 where one begins.
type Row = (&'static str, Edit, u8);

const TWO: &str =
    "ring 3\nnode a made 1\nnode b made 1\nhas a 1 <a.1.0> <b.1.0>\nhas a 2\nhas b 1\n";

const ROWS: &[Row] = &[
    (TWO, Edit::Nothing, 0),
    (TWO, Edit::Ports(64), 0),
    (TWO, Edit::Ports(65), 15),
    (TWO, Edit::Twice, 15),
    (TWO, Edit::Groups(100), 0),
    (TWO, Edit::Groups(17_000), 11),
    ("", Edit::Nothing, 15),
    (SIXTEEN, Edit::Nothing, 0),
    (SEVENTEEN, Edit::Nothing, 15),
    ("node a\nhas a 1\nhas a 2\nhas a 1", Edit::Nothing, 15),
    ("node a\nnode b made 1\nhas a 1 <b.2.0>", Edit::Nothing, 15),
    ("node a\nhas a 1 <c.1.0>", Edit::Nothing, 15),
    ("node a made 268435455", Edit::Nothing, 0),
    ("node a made 268435456", Edit::Nothing, 15),
    (DEEP, Edit::Nothing, 0),
    (TOO_DEEP, Edit::Nothing, 23),
    ("ring 0\nnode a", Edit::Nothing, 18),
    ("ring 65536\nnode a", Edit::Nothing, 0),
    ("ring 65537\nnode a", Edit::Nothing, 18),
    // The first fault is told: of the nodes, then of names, then of rings.
    ("ring 0\nnode a\nhas a 1\nhas a 1", Edit::Nothing, 15),
    (TOO_DEEP_AND_NO_RING, Edit::Nothing, 23),
];

const SIXTEEN: &str =
    "node a\nnode b\nnode c\nnode d\nnode e\nnode f\nnode g\nnode h\nnode i\nnode j\nnode k\nnode l\nnode m\nnode n\nnode o\nnode p";

const SEVENTEEN: &str =
    "node a\nnode b\nnode c\nnode d\nnode e\nnode f\nnode g\nnode h\nnode i\nnode j\nnode k\nnode l\nnode m\nnode n\nnode o\nnode p\nnode q";

// Tuples in tuples: 32 levels with what is in the last, and 33.
const DEEP: &str = "node a\nhas a {{{{{{{{{{{{{{{{{{{{{{{{{{{{{{{1}}}}}}}}}}}}}}}}}}}}}}}}}}}}}}}";

const TOO_DEEP: &str =
    "node a\nhas a {{{{{{{{{{{{{{{{{{{{{{{{{{{{{{{{1}}}}}}}}}}}}}}}}}}}}}}}}}}}}}}}}";

const TOO_DEEP_AND_NO_RING: &str =
    "ring 0\nnode a\nhas a {{{{{{{{{{{{{{{{{{{{{{{{{{{{{{{{1}}}}}}}}}}}}}}}}}}}}}}}}}}}}}}}}";

// Puts so many groups behind the others, each named by a number and this name.
fn put_groups(
    alloc: Global,
    groups: &mut Vec<(Term, Items<Pid>)>,
    name: &Atom,
    count: u32,
) -> Result<(), AllocError> {
    for number in 0..count {
        let name = name.copy()?;
        let pair = vec![in alloc; Term::Int(i64::from(number)), Term::Atom(name)]?;
        let group = Term::Tuple(Fields::from_vec(pair));
        groups.push((group, Items::from_vec(Vec::new(alloc))))?;
    }
    Ok(())
}

// A name of 250 characters that take four bytes each.
fn long_name(alloc: Global) -> Result<Atom, TermFault> {
    let mut name = String::new(alloc);
    for _ in 0..250 {
        name.push('\u{1f600}')?;
    }
    Atom::new(alloc, name.as_str())
}

// Whether the first node gets so many groups of long names.
fn names_long(alloc: Global, config: &mut Config, count: u32) -> bool {
    match (config.starts.first_mut(), long_name(alloc)) {
        (Some(start), Ok(name)) => {
            let none = Items::from_vec(Vec::new(alloc));
            let mut groups = mem::replace(&mut start.groups, none).into_vec();
            let told = put_groups(alloc, &mut groups, &name, count);
            start.groups = Items::from_vec(groups);
            drop(name);
            told.is_ok()
        }
        _ => false,
    }
}

// Whether the last node gets the name of the first.
fn names_twice(config: &mut Config) -> bool {
    match config.starts.as_mut_slice() {
        [first, .., last] => match first.name.copy() {
            Ok(name) => {
                drop(mem::replace(&mut last.name, name));
                true
            }
            Err(AllocError) => false,
        },
        _ => false,
    }
}

// Whether no world begins over bytes for the fault of this number, and none over packets, which is not asked of many groups.
fn has_fault(alloc: Global, config: &Config, edit: Edit, number: u8) -> bool {
    number_of(World::new(alloc, config)) == number
        && (matches!(edit, Edit::Groups(_)) || number_of(FrameWorld::new(alloc, config)) == number)
}

fn number_of<W: Drop>(begun: Result<W, WorldFault>) -> u8 {
    match begun {
        Ok(world) => {
            drop(world);
            0
        }
        Err(fault) => fault.number(),
    }
}

// Whether a configuration is changed so.
fn is_changed(alloc: Global, config: &mut Config, edit: Edit) -> bool {
    match edit {
        Edit::Nothing => true,
        Edit::Ports(ports) => {
            for start in config.starts.as_mut_slice() {
                start.ports = ports;
            }
            true
        }
        Edit::Twice => names_twice(config),
        Edit::Groups(count) => names_long(alloc, config, count),
    }
}

// Whether declarations that are changed so are refused by this number.
fn is_so(alloc: Global, row: &Row) -> bool {
    let (declared, edit, number) = *row;
    match read_script(alloc, declared) {
        Ok(mut script) => {
            let is_so = is_changed(alloc, &mut script.config, edit)
                && has_fault(alloc, &script.config, edit, number);
            drop(script);
            is_so
        }
        Err(_) => false,
    }
}

#[test]
fn refused_configurations(rt: HostRuntime) {
    for (place, row) in ROWS.iter().enumerate() {
        holds(&rt, is_so(rt.alloc(), row), "a configuration:", place);
    }
}

const MOVES: &str =
    "ring 3\nnode a\nnode b\nput a b 5\nput a b 5\npull b a 2\nput a b 5\npull b a 9\nput a b 2";

// How many bytes each of the moves moves.
const MOVED: [usize; 6] = [3, 0, 2, 2, 3, 2];

// Whether each line moves as many bytes.
fn do_move(alloc: Global, config: &Config, lines: &[ScriptLine]) -> bool {
    let Ok(mut world) = World::new(alloc, config) else {
        return false;
    };
    let mut do_move = lines.len() == MOVED.len();
    for (line, count) in lines.iter().zip(&MOVED) {
        do_move = do_move
            && match &line.act {
                Act::Step(step) => world.step(step) == Ok(Stepped::Moved(*count)),
                _ => false,
            };
    }
    drop(world);
    do_move
}

// A ring with room for three bytes takes three of five, then none, and then as many as were pulled.
#[test]
fn a_ring_of_three(rt: HostRuntime) {
    let script = read_script(rt.alloc(), MOVES);
    let do_move =
        with!(script, script => do_move(rt.alloc(), &script.config, &script.lines), else false);
    holds(&rt, do_move, "bytes on a ring of", 3);
}
