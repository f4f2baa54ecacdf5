//! Runs of the program with words, and what they print.

use crate::fakes::With::{self, *};
use crate::fakes::{Desk, Input, Log, Output, WELL};
use pg_cluster::{StartFault, WorldFault};
use pg_program::{MAX_SCRIPT_LEN, refuse_given, run_words};
use pg_streams::{AnyReader, AnyWriter};
use pg_talk::ServiceFault::{self, WriteFault};
use pg_talk::{Outcome, Served, Verdict};
use std::alloc::{AllocError, Global};
use std::io;
use std::io::ErrorKind::{self, BrokenPipe, IsADirectory};
use std::test::*;

// What comes in, and what else is so; what is printed, what is told on standard error, and the status.
type Row = (
    &'static [u8],
    &'static [With],
    &'static [u8],
    &'static str,
    u8,
);

// Words, and rows of runs with them.
const RUNS: &[(&str, &[Row])] = &[
    ("bytes", FRAMES),
    ("bytes --node a", &[(CREATE, &[], b"", "refused 15\n", 2)]),
    ("script", SCRIPTS),
    // A trace, a diagram, and both where no file can be made: the trace alone.
    ("script --trace", &[(LOST, &[], TRACE, "", 0)]),
    ("script --diagram x.svg", &[(LOST, DRAWN, ALONE, "", 0)]),
    (
        "script --trace --diagram x",
        &[(LOST, &[Full], TRACE, UNWRITTEN, 1)],
    ),
    ("threads", TALKS),
    ("threads --json", &[(b"", &[Talks(SLACK)], IN_JSON, "", 1)]),
    ("serve", SERVICES),
    ("serve --members members", &[(b"", &[], b"", SERVED, 0)]),
    ("serve --members none", NO_MEMBERS),
    ("serve --members bytes", NO_MEMBERS),
    (OTHER_FILE, &[(b"", &[], b"", UNREAD, 1)]),
    ("serve --name a", &[(b"", &[], b"", "refused 15\n", 2)]),
    ("explore", EXPLORATIONS),
    ("explore --limit 1", &[(TWO, &[], CUT, "", 1)]),
    ("explore --differing", &[(TWO, &[], DIFFERING, "", 0)]),
    ("explore --show 2", &[(TWO, &[], b"", "refused 16\n", 2)]),
    ("explore --graph x", &[(TWO, &[Full], b"", UNWRITTEN, 1)]),
    ("byte", NO_WORDS),
    ("threads --nodes 17", NO_WORDS),
    ("serve --ports 65", NO_WORDS),
    ("explore --retries 1001", NO_WORDS),
    ("", NO_WORDS),
];

// The same of the word `node`.
const NODE_RUNS: &[(&str, &[Row])] = &[
    ("node --own a", NODES),
    (
        "node --own a --log x --label run",
        &[(ASKED, &[Logs("x", LOGGED)], DONE, "", 0)],
    ),
    (
        "node --own a --log x",
        &[(ASKED, &[Full], b"", UNWRITTEN, 1)],
    ),
    ("node --own a --peers b,c", &[(GROUPS, &[], TOLD, "", 0)]),
    ("node --own a --peers=", &[(GROUPS, &[], FORMED, "", 0)]),
    ("node --own a --peers b,a", NO_NODE),
    ("node --own a --ports 0 --log x", NO_NODE),
    ("node --own a --ports 65", NO_NODE),
    ("node --own a --made 268435456", NO_NODE),
    (LONG, &[(ASKED, &[], b"", "refused 6\n", 2)]),
    ("node", NO_WORDS),
    ("node --own a --own b", NO_WORDS),
    ("node --own a --ports 65536", NO_WORDS),
];

const OTHER_FILE: &str = "serve --nodes 2 --name a --name b --members other";

const UNREAD: &str = "refused 31\n";

const UNWRITTEN: &str = "refused 32\n";

// A call of `create g` by node a with stamp 0, framed, and the framed reply.
const CREATE: &[u8] =
    b"\x00\x00\x00\x2d\x83h\x02a\x00h\x03w\x04callr\x00\x03w\x01a\x01\x00\x00\x00\x01\x00\x00\x00\x00\x00\x00\x00\x00h\x02w\x06createw\x01g";

const CREATED: &[u8] =
    b"\x00\x00\x00\x28\x83h\x02a\x01h\x03w\x05replyZ\x00\x03w\x01a\x00\x00\x00\x01\x00\x00\x00\x01\x00\x00\x00\x00\x00\x00\x00\x00w\x02ok";

const FRAMES: &[Row] = &[
    PLAIN,
    (CREATE, &[Pieces(1)], CREATED, "", 0),
    (b"\x00\x00\x00\x2d\x83", &[], b"", "refused 1\n", 1),
    (CREATE, &[Fails(BrokenPipe)], CREATED, UNREAD, 1),
    (CREATE, &[Room(40)], CREATED, UNWRITTEN, 1),
    (CREATE, &[Room(44)], CREATED, "", 0),
    (CREATE, &[Room(0)], CREATED, UNWRITTEN, 1),
    (CREATE, &[Stuck], CREATED, UNWRITTEN, 1),
];

const PLAIN: Row = (CREATE, &[], CREATED, "", 0);

const SCRIPTS: &[Row] = &[
    (SCRIPT, &[], ANSWERS, "", 0),
    // Five thousand reads.
    (b"\nnode a\ngroups a\n", SIGN_BY_SIGN, b"a 1 []\n", "", 0),
    // A refused step is no end.
    (b"node a\nretry a 1", &[], b"line 2 refused 17\n", "", 0),
    (SCRIPT, &[Room(0)], ANSWERS, UNWRITTEN, 1),
    (SCRIPT, &[Stuck], ANSWERS, UNWRITTEN, 1),
    (b"settle\n", &[], b"", "refused 15\n", 2),
    (b"ring 0\nnode a\n", &[], b"", "refused 18\n", 2),
    (b"node a\ntake a b\n", &[], b"", "line 2 refused 41\n", 2),
    (b"node \xff\n", &[], b"", "refused 40\n", 2),
    // As many bytes as a script may have, one more, and no end.
    (b"\nnode a\n", &[Signs(LEFT)], b"", "", 0),
    (b"\nnode a\n", &[Signs(LEFT + 1)], b"", "refused 11\n", 2),
    (SCRIPT, &[Signs(usize::MAX)], b"", "refused 11\n", 2),
    // A directory is no script.
    (b"", &[Fails(IsADirectory)], b"", UNREAD, 1),
    (LOST, &[], ALONE, "", 0),
    // By the run of `explore --differing` `a` has the group, and `b` has not.
    (DIFFERING, &[], b"", "", 0),
];

const SCRIPT: &[u8] = b"node a\ncreate a g\ngroups a\n";

const ANSWERS: &[u8] = b"a 1 ok\na 2 [g]\n";

const SIGN_BY_SIGN: &[With] = &[Signs(5_000), Pieces(1)];

const LEFT: usize = MAX_SCRIPT_LEN - 8;

const LOST: &[u8] = b"node 'a<b'\ncreate 'a<b' g\nlose 'a<b'\n";

const ALONE: &[u8] = b"'a<b' 1 ok\n";

const DRAWN: &[With] = &[Draws("x.svg")];

const TRACE: &[u8] = b"% line  node   clock  event  with        what
%    2  'a<b'      1  do                 command 1: create g
'a<b' 1 ok
%    3  'a<b'         lose               the node is lost
";

const TALKS: &[Row] = &[
    (b"", &[], b"", "refused 34\n", 1),
    (b"", &[Talks(SLACK)], SAID, "", 1),
];

const SLACK: Outcome = Outcome {
    nodes: 3,
    clients: 6,
    answered: 606,
    asked: 607,
    agree: true,
    replay: false,
    is_full: false,
};

const SAID: &[u8] = b"nodes 3 clients 6\nanswered 606 of 607\nagree yes\nreplay no\n";

const IN_JSON: &[u8] = b"{\"nodes\":3,\"clients\":6,\"answered\":606,\"asked\":607,\
    \"agree\":true,\"replay\":false,\"microseconds\":41}\n";

const SERVICES: &[Row] = &[
    (b"", &[], b"", SERVED, 0),
    (b"", &[Serves(Ok(SPLIT))], b"", "agree no\nreplay yes\n", 1),
    (b"", &[Serves(Ok(BROKEN))], b"", SERVED_AND_BROKEN, 1),
    (b"", &[Serves(Err(WriteFault))], b"", UNWRITTEN, 1),
    (b"", &[Serves(Err(NO_START))], b"", "refused 15\n", 2),
];

const NO_MEMBERS: &[Row] = &[(b"", &[], b"", "refused 40\n", 2)];

const SERVED: &str = "agree yes\nreplay yes\n";

const SERVED_AND_BROKEN: &str = "agree yes\nreplay yes\nrefused 2\n";

const SPLIT: Served = Served {
    verdict: Verdict {
        agree: false,
        replay: true,
    },
    fault: None,
};

const BROKEN: Served = Served {
    fault: Some(2),
    ..WELL
};

const NO_START: ServiceFault = ServiceFault::Start(StartFault::World(WorldFault::BadConfig));

const EXPLORATIONS: &[Row] = &[
    (TWO, &[], EXPLORED, "", 0),
    (TWO, &[Room(0)], EXPLORED, UNWRITTEN, 1),
    (TWO_FAULTS, &[], b"", "line 3 refused 40\n", 2),
    (b"create a g\n", &[], b"", "line 1 refused 41\n", 2),
    (b"node \xff\n", &[], b"", "refused 40\n", 2),
];

const TWO: &[u8] = b"node a\nnode b\ncreate a g\n";

const TWO_FAULTS: &[u8] = b"node a\nnode b\nsettle\nfaulty\n";

const EXPLORED: &[u8] = b"     14  worlds
      1  ends
      7  takes to an end, the fewest
      7  takes to an end, the most
      0  ends at which a lock is held
      1  worlds in which two formed nodes differ
      0  of these, a node sees the lock free and no end is pending

ends by the history of g
      1  create a g

ends by the answer to create a g
      1  ok
";

const CUT: &[u8] = b"      1  worlds
the limit of worlds was reached: there are more
      0  ends
      0  ends at which a lock is held
      0  worlds in which two formed nodes differ
      0  of these, a node sees the lock free and no end is pending

ends by the history of g

ends by the answer to create a g
";

const DIFFERING: &[u8] = b"node a
node b
put b a
pull a b
take a b
create a g
put a b
pull b a
take b a
take b a
put b a
pull a b
take a b
";

const NODES: &[Row] = &[
    // The version goes out before anything comes in.
    (b"", &[], OPENED, "", 0),
    (ASKED, &[], DONE, "", 0),
    (ASKED, &[Pieces(1)], DONE, "", 0),
    (b"\x00\x00\x00\x01\x16", &[], OPENED, "refused 15\n", 1),
    (b"\x00\x00\x00", &[], OPENED, "refused 1\n", 1),
    (b"\x01\x00\x00\x01", &[], OPENED, "refused 11\n", 1),
    (GROUPS, &[Fails(BrokenPipe)], FORMED, UNREAD, 1),
    // Its host went away.
    (ASKED, &[Room(0)], DONE, "", 1),
    (ASKED, &[Room(20)], DONE, "", 1),
    (ASKED, &[Stuck], OPENED, "", 1),
];

const NO_NODE: &[Row] = &[(ASKED, &[], b"", "refused 15\n", 2)];

// A node of 256 characters.
const LONG: &str = "node --own \
    nnnnnnnnnnnnnnnnnnnnnnnnnnnnnnnnnnnnnnnnnnnnnnnnnnnnnnnnnnnnnnnn\
    nnnnnnnnnnnnnnnnnnnnnnnnnnnnnnnnnnnnnnnnnnnnnnnnnnnnnnnnnnnnnnnn\
    nnnnnnnnnnnnnnnnnnnnnnnnnnnnnnnnnnnnnnnnnnnnnnnnnnnnnnnnnnnnnnnn\
    nnnnnnnnnnnnnnnnnnnnnnnnnnnnnnnnnnnnnnnnnnnnnnnnnnnnnnnnnnnnnnnn";

// No groups; and then a request at port 1 of `a`, to create `g`.
const GROUPS: &[u8] = b"\x00\x00\x00\x03\x14\x83j";

const ASKED: &[u8] =
    b"\x00\x00\x00\x03\x14\x83j\x00\x00\x00\x15\x83h\x03w\x01aa\x01h\x02w\x06createw\x01g";

// The version; then that the node is formed; then the reply.
const OPENED: &[u8] = b"\x00\x00\x00\x0d\x15\x01of Zulayefi";

const FORMED: &[u8] = b"\x00\x00\x00\x0d\x15\x01of Zulayefi\x00\x00\x00\x01\x16";

const DONE: &[u8] =
    b"\x00\x00\x00\x0d\x15\x01of Zulayefi\x00\x00\x00\x01\x16\x00\x00\x00\x0e\x83h\x04w\x01aa\x01a\x01w\x02ok";

// To each of two peers, that the node has no groups.
const TOLD: &[u8] = b"\x00\x00\x00\x0d\x15\x01of Zulayefi\
    \x00\x00\x00\x22\x00\x00\x00\x00\x1d\x83h\x02a\x00h\x02w\x04casth\x03w\x08exchangew\x01aj\
    \x00\x00\x00\x22\x01\x00\x00\x00\x1d\x83h\x02a\x00h\x02w\x04casth\x03w\x08exchangew\x01aj";

// The head, both bodies, and that the change was handed over.
const LOGGED: &[u8] =
    b"\x00\x00\x00\x25\x83h\x07a\x01m\x00\x00\x00\x0bof Zulayefiw\x01aja\x01a\x00m\x00\x00\x00\x03run\
    \x00\x00\x00\x03\x14\x83j\x00\x00\x00\x15\x83h\x03w\x01aa\x01h\x02w\x06createw\x01g\xff\x02\x00\x01";

const NO_WORDS: &[Row] = &[(CREATE, &[], b"", WORDS, 2)];

// What the text of refused words begins with. Nothing is read then.
const WORDS: &str = "error: ";

fn words_of(alloc: Global, given: &str) -> Result<Vec<String>, AllocError> {
    let mut words = Vec::new(alloc);
    for word in given.split(' ') {
        if !word.is_empty() {
            words.push(String::from_str(alloc, word)?)?;
        }
    }
    Ok(words)
}

// How a run ended, how much it wrote, and whether it printed what its row says, as much of it as there is room for. None where there is
// no memory for the words.
fn run(alloc: Global, given: &str, row: Row, desk: &mut Desk) -> Option<(u8, usize, bool)> {
    let (text, withs, output, told, status) = row;
    let Ok(words) = words_of(alloc, given) else {
        return None;
    };
    let mut reader = AnyReader {
        reader: Input::new(text),
    };
    let mut writer = AnyWriter {
        writer: Output::new(alloc),
    };
    let mut log = Log::new(alloc);
    for with in withs {
        with.set(&mut reader.reader, &mut writer.writer, desk, &mut log);
    }
    let mut faults = Vec::new(alloc);
    let ended = run_words(
        alloc,
        &words,
        &mut reader,
        &mut writer,
        desk,
        &mut log,
        &mut faults,
    );
    drop(words);
    let is_told = if told == WORDS {
        faults.as_slice().starts_with(WORDS.as_bytes()) && reader.reader.text.len() == text.len()
    } else {
        faults.as_slice() == told.as_bytes()
    };
    let (wanted, _) = output.split_at(output.len().min(writer.writer.room));
    let is_written = writer.writer.text.as_slice() == wanted;
    let len = writer.writer.text.len();
    let is_kept = log.is_kept();
    drop(writer);
    drop(log);
    drop(faults);
    Some((
        ended,
        len,
        is_told && is_written && is_kept && ended == status,
    ))
}

fn is_printed(alloc: Global, words: &str, row: Row) -> bool {
    let mut desk = Desk::new(alloc);
    let is_printed = match run(alloc, words, row, &mut desk) {
        Some((_, _, is_so)) => is_so && desk.is_drawn(),
        None => false,
    };
    drop(desk);
    is_printed
}

#[test]
fn rows(rt: HostRuntime) {
    for (words, rows) in RUNS {
        for (place, row) in rows.iter().enumerate() {
            assert!(&rt; is_printed(rt.alloc(), words, *row), "{words}: row {place}");
        }
    }
}

#[test]
fn rows_of_nodes(rt: HostRuntime) {
    for (words, rows) in NODE_RUNS {
        for (place, row) in rows.iter().enumerate() {
            assert!(&rt; is_printed(rt.alloc(), words, *row), "{words}: row {place}");
        }
    }
}

// Passes wherever an allocation is refused: nothing or all of a reply was written.
#[test]
fn refused_growth(rt: HostRuntime) {
    for again in 0..2 {
        let mut desk = Desk::new(rt.alloc());
        let is_whole = match run(rt.alloc(), "bytes", PLAIN, &mut desk) {
            Some((0, len, _)) => len == CREATED.len(),
            Some((_, len, _)) => len == 0,
            None => true,
        };
        drop(desk);
        assert!(&rt; is_whole, "run {again}");
    }
}

// How words that can't be had end, the begin of what is told, and whether that is all.
const NOT_THERE: &[(ErrorKind, u8, &[u8], bool)] = &[
    (ErrorKind::InvalidData, 2, b"error: invalid UTF-8", false),
    (ErrorKind::OutOfMemory, 1, b"refused 10\n", true),
    (ErrorKind::Other, 1, b"refused 10\n", true),
];

// A word that is no text is refused as other words are; else there was no memory for the words.
#[test]
fn words_that_are_not_there(rt: HostRuntime) {
    for (kind, status, begin, is_all) in NOT_THERE {
        let mut faults = Vec::new(rt.alloc());
        let error = io::Error::from(*kind);
        let got = refuse_given(&mut faults, &error);
        drop(error);
        let is_told = faults.as_slice().starts_with(begin)
            && (faults.len() == begin.len()) == *is_all;
        drop(faults);
        assert!(&rt; is_told && got == *status, "status {status}");
    }
}
