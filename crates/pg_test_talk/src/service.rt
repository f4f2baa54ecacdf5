//! What a service replies, and how it ends.

use crate::verdicts::holds_at;
use pg_streams::Source;
use pg_talk::{
    CLOCK_MARGIN, CLOCK_WAIT, Served, Service, ServiceFault, Sleepless, config_of, node_names,
    serve_cluster,
};
use pg_text::read_term;
use pg_world::{encode, write_frame};
use std::alloc::Global;
use std::io;
use std::io::ErrorKind;
use std::process::Abort;
use std::thread::Threads;

/// Gives these bytes in pieces of so many, and then fails, or ends.
#[derive(Drop)]
struct Input {
    bytes: Vec<u8>,
    at: usize,
    piece: usize,
    fails: bool,
}

impl Source for Input {
    ghost use Rattle.std.specs.Prelude.{⊤, None};

    ghost remaining = { λ source. None };

    ghost gives = { λ a bytes b. ⊤ };

    ghost fails = { λ a b. ⊤ };

    fn read_some(&mut self, piece: &mut [u8]) -> io::Result<usize> {
        let rest = &self.bytes[self.at.min(self.bytes.len())..];
        if rest.is_empty() && self.fails {
            return Err(io::Error::from(ErrorKind::BrokenPipe));
        }
        let count = rest.len().min(piece.len()).min(self.piece);
        piece[..count].copy_from_slice(&rest[..count]);
        self.at = self.at.saturating_add(count);
        Ok(count)
    }
}

/// A request, and its reply; none where the service ends before.
pub(crate) type Said<'a> = (&'a str, &'a str);

/// Each call, in an order in which some are refused.
pub(crate) const CALLS: &[Said] = &[
    ("{n1,1,make}", "{n1,1,1,<n1.1.0>}"),
    ("{n1,1,{create,g}}", "{n1,1,2,ok}"),
    ("{n1,1,{closest,g,7}}", "{n1,1,3,{error,{no_process,g}}}"),
    ("{n1,1,{join,g,<n1.1.0>}}", "{n1,1,4,ok}"),
    ("{n1,1,{join,g,<n1.1.0>}}", "{n1,1,5,ok}"),
    ("{n1,1,{members,g}}", "{n1,1,6,[<n1.1.0>,<n1.1.0>]}"),
    ("{n1,1,{local_members,g}}", "{n1,1,7,[<n1.1.0>,<n1.1.0>]}"),
    ("{n1,1,{closest,g,4294967295}}", "{n1,1,8,<n1.1.0>}"),
    ("{n1,1,which_groups}", "{n1,1,9,[g]}"),
    ("{n1,1,{leave,g,<n1.1.0>}}", "{n1,1,10,ok}"),
    ("{n1,1,{members,g}}", "{n1,1,11,[<n1.1.0>]}"),
    ("{n1,1,{finish,<n1.1.0>}}", "{n1,1,12,ok}"),
    ("{n1,1,{members,g}}", "{n1,1,13,[]}"),
    ("{n1,1,{finish,<n1.1.0>}}", "{n1,1,14,{refused,27}}"),
    ("{n1,1,{delete,g}}", "{n1,1,15,ok}"),
    ("{n1,1,{members,g}}", "{n1,1,16,{error,{no_such_group,g}}}"),
];

/// What asks for nothing, or of a node that is lost.
const NO_CALLS: &[Said] = &[
    ("g", "{error,{bad_request,1}}"),
    ("{n1,1}", "{error,{bad_request,2}}"),
    ("{n9,1,make}", "{error,{bad_request,3}}"),
    ("{n1,0,make}", "{error,{bad_request,4}}"),
    ("{n1,2,make}", "{error,{bad_request,5}}"),
    ("{n1,1,{closest,g,-1}}", "{error,{bad_request,6}}"),
    ("{n1,1,{closest,g,4294967296}}", "{error,{bad_request,7}}"),
    ("{n1,1,{join,g,7}}", "{error,{bad_request,8}}"),
    ("{n1,1,{create}}", "{error,{bad_request,9}}"),
    ("{lose,n9}", "{error,{bad_request,10}}"),
    ("{lose,n2}", "{lost,n2}"),
    ("{lose,n2}", "{error,{bad_request,12}}"),
    ("{n2,1,make}", "{n2,1,1,{error,{node_lost,n2}}}"),
];

pub(crate) const MAKES: Said = ("{n1,1,make}", "{n1,1,1,<n1.1.0>}");

const LATE: Said = ("{n1,1,make}", "");

pub(crate) const OTHER_MAKES: Said = ("{n2,1,make}", "{n2,1,1,<n2.1.0>}");

/// What is said, and the bytes behind the requests; in pieces of how many bytes at most they come in, whether a read fails then, how many
/// requests are taken, and the fault of the input.
#[derive(Clone, Copy)]
struct Row<'a>(&'a [Said<'a>], &'a [u8], usize, bool, u64, Option<u8>);

const ROWS: &[Row] = &[
    Row(&[], b"", ANY, false, ALL, None),
    Row(CALLS, b"", ANY, false, ALL, None),
    Row(NO_CALLS, b"", 1, false, ALL, None),
    Row(&[MAKES, LATE], b"", ANY, false, 1, None),
    Row(&[], b"\x00\x00", ANY, false, ALL, Some(1)),
    Row(&[MAKES], b"\x00\x00\x00\x02\x83", 1, false, ALL, Some(1)),
    Row(&[], b"\x7f\x00\x00\x00", ANY, false, ALL, Some(11)),
    Row(&[OTHER_MAKES], b"", ANY, true, ALL, Some(31)),
];

const ANY: usize = usize::MAX;

const ALL: u64 = u64::MAX;

/// Bodies that spell no term: none, another version, no tag, a float, a map, a fun, a byte left over, an atom that is no text, one without
/// its name, and a list in a list and so on.
const ODD: &[&[u8]] = &[
    b"",
    b"\x84",
    b"\x83",
    b"\x83F\x3f\xf0\x00\x00\x00\x00\x00\x00",
    b"\x83t\x00\x00\x00\x00",
    b"\x83p\x00\x00\x00\x04",
    b"\x83j\x00",
    b"\x83w\x02\xc3\x28",
    b"\x83w\x02g",
    DEEP,
];

const DEEP: &[u8] =
    b"\x83hhhhhhhhhhhhhhhhhhhhhhhhhhhhhhhhhhhhhhhhhhhhhhhhhhhhhhhhhhhhhhhhhhhhhhhhhhhhhhhhhhhhhhhhhhhhhhhhhhhhhhhhhhhhhhhhhhhhhhhhhhhhhhhhhhhhhhhhhhhhhhhhhhhhhhhhhhhhhhhh";

/// The frames of the terms of the requests, or of the replies.
pub(crate) fn frames(alloc: Global, said: &[Said<'_>], are_replies: bool) -> Option<Vec<u8>> {
    let mut bytes = Vec::new(alloc);
    for (request, reply) in said {
        let text = if are_replies { reply } else { request };
        if !text.is_empty() {
            let term = read_term(alloc, text).ok()?;
            let body = encode(alloc, &term);
            drop(term);
            write_frame(&mut bytes, body.ok()?.as_slice()).ok()?;
        }
    }
    Some(bytes)
}

/// A service of two nodes with one port each.
pub(crate) fn service_of(alloc: Global, limit: u64) -> Option<Service> {
    let names = node_names(alloc, 2).ok()?;
    let config = config_of(alloc, names.as_slice(), 1, "[]");
    drop(names);
    Some(Service {
        config: config.ok()?,
        requests: limit,
        seed: 1,
        margin: CLOCK_MARGIN,
        wait: CLOCK_WAIT,
    })
}

/// Bodies of which each spells no term, and behind them a request.
fn odd_input(alloc: Global) -> Option<Input> {
    let mut bytes = Vec::new(alloc);
    for body in ODD {
        write_frame(&mut bytes, body).ok()?;
    }
    let last = frames(alloc, &[MAKES], false)?;
    bytes.extend_from_slice(last.as_slice()).ok()?;
    Some(Input {
        bytes,
        at: 0,
        piece: 7,
        fails: false,
    })
}

/// The replies to these.
fn odd_replies(alloc: Global) -> Option<Vec<u8>> {
    let mut bytes = Vec::new(alloc);
    for place in 0..ODD.len() {
        let text = format!(in alloc; "{{error,{{bad_request,{}}}}}", place + 1).ok()?;
        let reply = frames(alloc, &[("", text.as_str())], true)?;
        bytes.extend_from_slice(reply.as_slice()).ok()?;
    }
    let last = frames(alloc, &[MAKES], true)?;
    bytes.extend_from_slice(last.as_slice()).ok()?;
    Some(bytes)
}

/// What comes in by a row.
fn input_of(alloc: Global, row: Row<'_>) -> Option<Input> {
    let Row(said, rest, piece, fails, _, _) = row;
    let mut bytes = frames(alloc, said, false)?;
    bytes.extend_from_slice(rest).ok()?;
    Some(Input {
        bytes,
        at: 0,
        piece,
        fails,
    })
}

/// Whether a service ended by this fault, or by none, and is well.
fn is_so(served: Result<Served, ServiceFault>, fault: Option<u8>) -> bool {
    match served {
        Ok(served) => served.verdict.agree && served.verdict.replay && served.fault == fault,
        Err(_) => false,
    }
}

/// Whether a service goes as a row says, and writes the replies.
fn goes(rt: &impl Threads, alloc: Global, row: Row<'_>) -> Option<bool> {
    let Row(said, _, _, _, limit, fault) = row;
    let wanted = frames(alloc, said, true)?;
    let source = input_of(alloc, row)?;
    let service = service_of(alloc, limit)?;
    let mut written = Vec::new(alloc);
    let served = serve_cluster(rt, alloc, Sleepless, service, source, &mut written);
    Some(is_so(served, fault) && written == wanted)
}

#[test]
fn requests_are_replied_to(rt: HostRuntime) {
    for place in 0..ROWS.len() {
        let went = goes(&rt, rt.alloc(), ROWS[place]) == Some(true);
        holds_at(&rt, went, "a service of row", place as u64);
    }
}

/// Whether a service replies to each odd body, and to the request behind them.
fn goes_on_past_odd(rt: &impl Threads, alloc: Global) -> Option<bool> {
    let wanted = odd_replies(alloc)?;
    let source = odd_input(alloc)?;
    let service = service_of(alloc, ALL)?;
    let mut written = Vec::new(alloc);
    let served = serve_cluster(rt, alloc, Sleepless, service, source, &mut written);
    Some(is_so(served, None) && written == wanted)
}

#[test]
fn odd_bodies_end_nobody(rt: HostRuntime) {
    let went = goes_on_past_odd(&rt, rt.alloc()) == Some(true);
    holds_at(&rt, went, "odd bodies of", ODD.len() as u64);
}
