//! What a process makes of a whole input, what it logs, and how it ends.

use crate::passed::{Sheet, blank_sheet};
use crate::sights::holds_at;
use pg_node_process::ProcessConfig;
use pg_process::{Process, serve};
use pg_streams::AnyWriter;
use pg_term::Atom;
use std::alloc::{AllocError, Global};

/// Inputs of the process of node a alone, which has one port and made one process; what goes out behind the version, and by which fault it ends,
/// 0 by none.
const ROWS: &[(&[u8], &[u8], u8)] = &[
    // Nothing.
    (b"", b"", 0),
    // Within a length, and within a body.
    (b"\0\0\0", b"", 1),
    (b"\0\0\0\x03\x14\x83", b"", 1),
    // No groups: formed.
    (b"\0\0\0\x03\x14\x83j", b"\0\0\0\x01\x16", 0),
    // Behind that, within a body.
    (b"\0\0\0\x03\x14\x83j\0\0\0\x02\x11", b"\0\0\0\x01\x16", 1),
    // The clock, and then a length that is too great.
    (
        b"\0\0\0\x03\x14\x83j\0\0\0\x01\x11\x01\0\0\x01",
        b"\0\0\0\x01\x16\0\0\0\x05\x11\0\0\0\0",
        11,
    ),
    // A length that is too great at first.
    (b"\x01\0\0\x01", b"", 11),
    // Another first body: a tick, none at all, and a term.
    (b"\0\0\0\x01\x10", b"", 15),
    (b"\0\0\0\0", b"", 15),
    (b"\0\0\0\x02\x83j", b"", 15),
    // A group with the process that was made, asked for its members: {a, 1, 1, [<a.1.0>]}
    (
        b"\0\0\0\x23\x14\x83l\0\0\0\x01h\x02w\x01gl\0\0\0\x01Xw\x01a\0\0\0\x01\0\0\0\0\0\0\0\x01jj\0\0\0\x16\x83h\x03w\x01aa\x01h\x02w\x07membersw\x01g",
        b"\0\0\0\x01\x16\0\0\0\x20\x83h\x04w\x01aa\x01a\x01l\0\0\0\x01Xw\x01a\0\0\0\x01\0\0\0\0\0\0\0\x01j",
        0,
    ),
    // The first body counts: {error, {bad_request, 2}}
    (
        b"\0\0\0\x03\x14\x83j\0\0\0\x03\x14\x83j",
        b"\0\0\0\x01\x16\0\0\0\x1b\x83h\x02w\x05errorh\x02w\x0bbad_requesta\x02",
        0,
    ),
];

/// The groups that the first body brings, and by which fault the process ends: none, another body than such a list, and processes that are not
/// its own.
const BROUGHT: &[(&[u8], u8)] = &[
    (b"\x83j", 0),
    // [{g, []}, {h, []}]
    (b"\x83l\0\0\0\x02h\x02w\x01gjh\x02w\x01hjj", 0),
    // [{g, [<a.1.0>, <a.1.0>]}]
    (
        b"\x83l\0\0\0\x01h\x02w\x01gl\0\0\0\x02Xw\x01a\0\0\0\x01\0\0\0\0\0\0\0\x01Xw\x01a\0\0\0\x01\0\0\0\0\0\0\0\x01jj",
        0,
    ),
    (b"", 15),
    (b"\x83", 15),
    (b"\x83a\x01", 15),
    (b"\x83w\x01g", 15),
    (b"\x83l\0\0\0\x01w\x01gj", 15),
    (b"\x83l\0\0\0\x01h\x02w\x01gw\x01gj", 15),
    // [{g, []}, {g, []}]
    (b"\x83l\0\0\0\x02h\x02w\x01gjh\x02w\x01gjj", 15),
    // The process 2 of node a, and the process 1 of node b.
    (
        b"\x83l\0\0\0\x01h\x02w\x01gl\0\0\0\x01Xw\x01a\0\0\0\x02\0\0\0\0\0\0\0\x01jj",
        24,
    ),
    (
        b"\x83l\0\0\0\x01h\x02w\x01gl\0\0\0\x01Xw\x01b\0\0\0\x01\0\0\0\0\0\0\0\x01jj",
        24,
    ),
];

/// Bodies of a process with two ports, what goes out of each, and what is logged behind it.
const HEARD: &[(&[u8], &[u8], &[u8])] = &[
    // No groups: the node is formed.
    (b"\x14\x83j", b"\0\0\0\x01\x16", b""),
    // {a, 1, {create, g}}: {a, 1, 1, ok}
    (
        b"\x83h\x03w\x01aa\x01h\x02w\x06createw\x01g",
        b"\0\0\0\x0e\x83h\x04w\x01aa\x01a\x01w\x02ok",
        b"\xff\x02\0\x01",
    ),
    // {a, 1, {members, g}}: {a, 1, 2, []}
    (
        b"\x83h\x03w\x01aa\x01h\x02w\x07membersw\x01g",
        b"\0\0\0\x0b\x83h\x04w\x01aa\x01a\x02j",
        b"",
    ),
    // {a, 2, make}: {a, 2, 1, <a.2.0>}
    (
        b"\x83h\x03w\x01aa\x02w\x04make",
        b"\0\0\0\x1a\x83h\x04w\x01aa\x02a\x01Xw\x01a\0\0\0\x02\0\0\0\0\0\0\0\x01",
        b"\xff\x02\0\x02",
    ),
    // {a, 1, {join, g, <a.2.0>}}: {a, 1, 3, ok}
    (
        b"\x83h\x03w\x01aa\x01h\x03w\x04joinw\x01gXw\x01a\0\0\0\x02\0\0\0\0\0\0\0\x01",
        b"\0\0\0\x0e\x83h\x04w\x01aa\x01a\x03w\x02ok",
        b"\xff\x02\0\x01",
    ),
    // {a, 1, {members, g}}: {a, 1, 4, [<a.2.0>]}
    (
        b"\x83h\x03w\x01aa\x01h\x02w\x07membersw\x01g",
        b"\0\0\0\x20\x83h\x04w\x01aa\x01a\x04l\0\0\0\x01Xw\x01a\0\0\0\x02\0\0\0\0\0\0\0\x01j",
        b"",
    ),
    // A body that asks for nothing: {error, {bad_request, 7}}
    (
        b"\x12",
        b"\0\0\0\x1b\x83h\x02w\x05errorh\x02w\x0bbad_requesta\x07",
        b"",
    ),
    // {a, 2, {finish, <a.9.0>}}: {a, 2, 2, {refused, 26}}
    (
        b"\x83h\x03w\x01aa\x02h\x02w\x06finishXw\x01a\0\0\0\x09\0\0\0\0\0\0\0\x01",
        b"\0\0\0\x17\x83h\x04w\x01aa\x02a\x02h\x02w\x07refuseda\x1a",
        b"\xff\x02\0\x02",
    ),
    // The groups a second time: {error, {bad_request, 9}}
    (
        b"\x14\x83j",
        b"\0\0\0\x1b\x83h\x02w\x05errorh\x02w\x0bbad_requesta\x09",
        b"",
    ),
];

/// The most bytes of a body.
const MAX: usize = 16_777_216;

/// The version of all processes here, and its frame.
const VERSION: &str = "v";

const OPENING: &[u8] = b"\0\0\0\x03\x15\x01v";

/// A host mirrors the table: it brings a group of one process, makes another, and has the process join it; the process ends, and joins once more; the
/// first group goes.
const MIRRORED: &[u8] =
    b"\0\0\0#\x14\x83l\0\0\0\x01h\x02w\x01gl\0\0\0\x01Xw\x01a\0\0\0\x01\0\0\0\0\0\0\0\x01jj\0\0\0\x15\x83h\
        \x03w\x01aa\x01h\x02w\x06createw\x01h\0\0\0#\x83h\x03w\x01aa\x01h\x03w\x04joinw\x01hXw\x01a\0\0\0\
        \x01\0\0\0\0\0\0\0\x01\0\0\0\"\x83h\x03w\x01aa\x01h\x02w\x06finishXw\x01a\0\0\0\x01\0\0\0\0\0\0\0\
        \x01\0\0\0#\x83h\x03w\x01aa\x01h\x03w\x04joinw\x01hXw\x01a\0\0\0\x01\0\0\0\0\0\0\0\x01\0\0\0\x15\x83\
        h\x03w\x01aa\x01h\x02w\x06deletew\x01g";

/// What it is told: the group that it brought, and that the node is formed; each change before its answer; and that the process has ended.
const TOLD: &[u8] =
    b"\0\0\0#\x17\x83l\0\0\0\x01h\x02w\x01gl\0\0\0\x01Xw\x01a\0\0\0\x01\0\0\0\0\0\0\0\x01jj\0\0\0\x01\
        \x16\0\0\0\x0e\x17\x83l\0\0\0\x01h\x02w\x01hjj\0\0\0\x0e\x83h\x04w\x01aa\x01a\x01w\x02ok\0\0\0\
        \x1f\x17\x83l\0\0\0\x01h\x03w\x01hXw\x01a\0\0\0\x01\0\0\0\0\0\0\0\x01a\x01j\0\0\0\x0e\x83h\x04w\
        \x01aa\x01a\x02w\x02ok\0\0\0\x14\x17\x83l\0\0\0\x02h\x02w\x01gjh\x02w\x01hjj\0\0\0\x0e\x83h\x04w\
        \x01aa\x01a\x03w\x02ok\0\0\0\x17\x83h\x02w\x09has_endedh\x03w\x01aa\x01a\x04\0\0\0\x0e\x83h\x04w\
        \x01aa\x01a\x04w\x02ok\0\0\0\x0d\x17\x83l\0\0\0\x01h\x01w\x01gj\0\0\0\x0e\x83h\x04w\x01aa\x01a\
        \x05w\x02ok";

/// How the process of node a begins.
fn config(alloc: Global, ports: u16, mirrored: bool) -> Result<ProcessConfig, AllocError> {
    let Ok(own) = Atom::new(alloc, "a") else {
        return Err(AllocError);
    };
    Ok(ProcessConfig {
        own,
        peers: Vec::new(alloc),
        ports,
        made: 1,
        label: Vec::new(alloc),
        mirrored,
    })
}

/// What goes out of an input, what is logged, and by which fault it ends.
fn served(
    alloc: Global,
    ports: u16,
    mirrored: bool,
    input: &[u8],
) -> Result<(Vec<u8>, Vec<u8>, u8), AllocError> {
    let config = config(alloc, ports, mirrored)?;
    let mut reader = input;
    let mut out = Vec::new(alloc);
    let mut log = Vec::new(alloc);
    let ended = serve(alloc, config, VERSION, &mut reader, &mut out, &mut log);
    let number = match ended {
        Ok(()) => 0,
        Err(fault) => fault.number(),
    };
    Ok((out, log, number))
}

/// Whether just this goes out behind the version, this is logged last, and the process ends by that fault.
fn is_heard(
    alloc: Global,
    ports: u16,
    mirrored: bool,
    input: &[u8],
    said: &[u8],
    logged: &[u8],
    fault: u8,
) -> bool {
    match served(alloc, ports, mirrored, input) {
        Ok((out, log, number)) => {
            let is_so = number == fault
                && out.as_slice().starts_with(OPENING)
                && &out.as_slice()[OPENING.len().min(out.len())..] == said
                && log.as_slice().ends_with(logged);
            drop(out);
            drop(log);
            is_so
        }
        Err(AllocError) => false,
    }
}

/// The same of a process with one port, whatever is logged.
fn is_served(alloc: Global, mirrored: bool, input: &[u8], said: &[u8], fault: u8) -> bool {
    is_heard(alloc, 1, mirrored, input, said, b"", fault)
}

#[test]
fn inputs_are_served(rt: HostRuntime) {
    for place in 0..ROWS.len() {
        let (input, said, fault) = ROWS[place];
        let is_so = is_served(rt.alloc(), false, input, said, fault);
        holds_at(&rt, is_so, "what is served in row", place);
    }
}

#[test]
fn a_table_is_mirrored(rt: HostRuntime) {
    holds_at(
        &rt,
        is_served(rt.alloc(), true, MIRRORED, TOLD, 0),
        "what a mirror is told",
        0,
    );
}

/// A frame with this body behind some bytes: its length, the number that says what it is, if there is one, and the rest.
fn put_body(bytes: &mut Vec<u8>, number: &[u8], rest: &[u8]) -> Result<(), AllocError> {
    let len = number.len().wrapping_add(rest.len());
    let len = u32::try_from(len).unwrap_or(u32::MAX);
    bytes.extend_from_slice(&len.to_be_bytes())?;
    bytes.extend_from_slice(number)?;
    bytes.extend_from_slice(rest)
}

/// Whether a process that these groups are brought to ends by that fault, and is formed else.
fn is_brought(alloc: Global, groups: &[u8], fault: u8) -> Result<bool, AllocError> {
    let mut input = Vec::new(alloc);
    put_body(&mut input, b"\x14", groups)?;
    let said: &[u8] = if fault == 0 { b"\0\0\0\x01\x16" } else { b"" };
    let is_so = is_served(alloc, false, input.as_slice(), said, fault);
    drop(input);
    Ok(is_so)
}

/// A name that is a binary of 1,025 bytes, with no members, behind a list of one group.
fn large_name(alloc: Global) -> Result<Vec<u8>, AllocError> {
    let mut bytes = Vec::new(alloc);
    bytes.extend_from_slice(b"\x83l\0\0\0\x01h\x02m\0\0\x04\x01")?;
    for _ in 0..1025 {
        bytes.push(b'x')?;
    }
    bytes.extend_from_slice(b"jj")?;
    Ok(bytes)
}

/// Whether such a name ends the process.
fn is_too_large(alloc: Global) -> Result<bool, AllocError> {
    let groups = large_name(alloc)?;
    let is_so = is_brought(alloc, groups.as_slice(), 23);
    drop(groups);
    is_so
}

#[test]
fn groups_are_brought(rt: HostRuntime) {
    for place in 0..BROUGHT.len() {
        let (groups, fault) = BROUGHT[place];
        let is_so = is_brought(rt.alloc(), groups, fault) == Ok(true);
        holds_at(&rt, is_so, "groups of row", place);
    }
    let is_so = is_too_large(rt.alloc()) == Ok(true);
    holds_at(&rt, is_so, "a large name is refused at", 0);
}

/// Whether all of these bodies, one behind the other, have all of what goes out and is logged.
fn are_heard(alloc: Global) -> Result<bool, AllocError> {
    let mut input = Vec::new(alloc);
    let mut said = Vec::new(alloc);
    let mut logged = Vec::new(alloc);
    for place in 0..HEARD.len() {
        let (body, out, marks) = HEARD[place];
        put_body(&mut input, b"", body)?;
        said.extend_from_slice(out)?;
        put_body(&mut logged, b"", body)?;
        logged.extend_from_slice(marks)?;
    }
    let is_so = is_heard(
        alloc,
        2,
        false,
        input.as_slice(),
        said.as_slice(),
        logged.as_slice(),
        0,
    );
    drop(input);
    drop(said);
    drop(logged);
    Ok(is_so)
}

#[test]
fn bodies_are_heard(rt: HostRuntime) {
    holds_at(&rt, are_heard(rt.alloc()) == Ok(true), "a conversation", 0);
}

/// Whether a process that is handed this body says just that, logs the body with these marks behind it, passes both on, and keeps neither.
fn is_heard_alone(
    alloc: Global,
    process: &mut Process,
    body: &[u8],
    said: &[u8],
    marks: &[u8],
) -> bool {
    if body.len() > MAX || process.hear(body).is_err() {
        return false;
    }
    let is_so = process.output() == said && process.logged().ends_with(marks);
    let (mut out, mut log) = (Vec::new(alloc), Vec::new(alloc));
    let is_passed = process.pass_on(&mut out, &mut log).is_ok();
    let is_whole = out.as_slice() == said && log.len() == 4 + body.len() + marks.len();
    drop(out);
    drop(log);
    is_so && is_passed && is_whole && process.output().is_empty() && process.logged().is_empty()
}

/// The process to which no groups were brought, with two ports.
fn begun(alloc: Global) -> Result<Process, AllocError> {
    let config = config(alloc, 2, false)?;
    match Process::begin(alloc, config, b"\x83j") {
        Ok(process) => Ok(process),
        Err(_) => Err(AllocError),
    }
}

#[test]
fn bodies_are_handed_over(rt: HostRuntime) {
    let Ok(mut process) = begun(rt.alloc()) else {
        holds_at(&rt, false, "a process that begins", 0);
        return;
    };
    for place in 0..HEARD.len() {
        let (body, said, marks) = HEARD[place];
        // (a tick stands for the groups, which are there)
        let body = if place == 0 { b"\x10" } else { body };
        let is_so = is_heard_alone(rt.alloc(), &mut process, body, said, marks);
        holds_at(&rt, is_so, "what is said of the body", place);
    }
    drop(process);
}

/// Whether a process without a port is refused, and nothing goes out.
fn is_refused(alloc: Global) -> bool {
    match served(alloc, 0, false, b"\0\0\0\x03\x14\x83j") {
        Ok((out, log, number)) => {
            let is_so = number == 15 && out.is_empty() && log.is_empty();
            drop(out);
            drop(log);
            is_so
        }
        Err(AllocError) => false,
    }
}

#[test]
fn an_invalid_config_is_refused(rt: HostRuntime) {
    holds_at(&rt, is_refused(rt.alloc()), "a refused config", 0);
}

/// After how many calls the log and the output fail, of a process that is asked for its clock behind its first body; and how many bytes of
/// each were flushed then. The head has 28 bytes, and takes 10 writes and a flush; the bodies 12, which take 4. The version has 7 bytes, and
/// takes 3 writes; what follows has 14, which take 5.
const FAILING: &[(usize, usize, usize, usize)] = &[
    (0, 99, 0, 0),
    (10, 99, 0, 0),
    (99, 3, 28, 0),
    (11, 99, 28, 7),
    (15, 99, 28, 7),
    (16, 4, 40, 7),
    (99, 9, 40, 7),
    (99, 10, 40, 21),
];

/// How many bytes of the log and of the output were flushed, and whether the process ended by 32.
fn failed(
    alloc: Global,
    log_calls: usize,
    calls: usize,
) -> Result<(usize, usize, bool), AllocError> {
    let config = config(alloc, 1, false)?;
    let mut reader: &[u8] = b"\0\0\0\x03\x14\x83j\0\0\0\x01\x11";
    let mut out: AnyWriter<Sheet> = blank_sheet(alloc, calls);
    let mut log: AnyWriter<Sheet> = blank_sheet(alloc, log_calls);
    let ended = serve(alloc, config, VERSION, &mut reader, &mut out, &mut log);
    let logged = log.writer.flushed;
    let written = out.writer.flushed;
    drop(out);
    drop(log);
    match ended {
        Ok(()) => Ok((logged, written, false)),
        Err(fault) => Ok((logged, written, fault.number() == 32)),
    }
}

#[test]
fn nothing_goes_out_before_it_is_logged(rt: HostRuntime) {
    for place in 0..FAILING.len() {
        let (log_calls, calls, to_log, to_output) = FAILING[place];
        let is_so = match failed(rt.alloc(), log_calls, calls) {
            Ok((logged, written, is_fault)) => {
                logged == to_log && written == to_output && is_fault == (place + 1 < FAILING.len())
            }
            Err(AllocError) => false,
        };
        holds_at(&rt, is_so, "what was flushed in row", place);
    }
}
