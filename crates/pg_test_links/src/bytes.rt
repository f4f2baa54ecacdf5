//! Nodes over bytes: what moves between two of them, and what damages a link.

use crate::links::{Pair, link_to, lose, read, take, two_alone, two_of_three};
use crate::sights::Sight::{self, *};
use crate::sights::{holds, sees};
use Part::*;
use pg_script::{Command, encode, read_term};
use pg_term::Term;
use std::alloc::Global;
use std::process::Abort;

/// A row of a table. Places of peers are those of the first node.
#[derive(Clone, Copy)]
enum Part<'a> {
    /// At most 7 bytes move each way, so many times, and what is whole is taken. No fault is told.
    Settle(u32),
    /// At most so many bytes move, to the second node or back, so many times.
    Moves(bool, usize, u32),
    /// The bytes that are looked at come to the first node from its first peer: refused by this fault, or by none.
    Fed(Option<u8>),
    /// The fault of those bytes is told.
    Told,
    /// The first node takes a packet of a peer: refused by this fault, or by none.
    Take(usize, Option<u8>),
    /// The first node reads a packet of a peer, which stays: refused by this fault, or by none.
    Read(usize, Option<u8>),
    /// The first node sees the loss of a peer, whose clock was this at last: refused by this fault, or by none.
    Lose(usize, u32, Option<u8>),
    /// The bytes of a packet come to the first node from a peer: refused by this fault, or by none.
    Heard(usize, &'a str, Option<u8>),
    /// Whether the link of the first node to a peer is damaged.
    Damaged(usize, bool),
    /// The first node is told to make the group.
    Create,
    /// Bytes of the first node go out to its first peer.
    GoesOut,
    /// So many bytes wait at the first node, or at the second, to go to its first peer.
    Waits(bool, usize),
    /// The first node has put so often.
    Puts(u32),
    /// What is seen at the first node, or at the second.
    Seen(bool, Sight),
}

/// A row, and others of what it leaves.
type Turn<'a> = &'a [Part<'a>];

/// Bytes that are looked at, and the number of their fault.
type Case<'a> = (u8, &'a [u8]);

// The body of the packet `{Stamp, Message}` of this text.
fn body_of(alloc: Global, text: &str) -> Option<Vec<u8>> {
    let term = read_term(alloc, text).ok()?;
    let body = encode(alloc, &term).ok();
    drop(term);
    body
}

// The number of the fault by which the frame of a packet is refused, if it is.
fn feed_packet(alloc: Global, pair: &mut Pair, peer: usize, text: &str) -> Option<u8> {
    let Some(body) = body_of(alloc, text) else {
        return Some(10);
    };
    let len = u32::try_from(body.len()).unwrap_or(0);
    let head = pair.feed(peer, &len.to_be_bytes());
    let fault = pair.feed(peer, body.as_slice());
    drop(body);
    head.or(fault)
}

fn creates(pair: &mut Pair) -> bool {
    let command = Command::Create(Term::Int(7));
    let is_given = pair.is_given(&command);
    drop(command);
    is_given
}

fn moves_often(pair: &mut Pair, ways: &[bool], max: usize, times: u32) -> bool {
    for _ in 0..times {
        for is_there in ways {
            if !pair.moves(*is_there, max) {
                return false;
            }
        }
    }
    true
}

// Whether a row holds.
fn is_part(alloc: Global, pair: &mut Pair, part: &Part<'_>, case: Case<'_>) -> bool {
    match part {
        Part::Settle(rounds) => moves_often(pair, &[true, false], 7, *rounds),
        Part::Moves(is_there, max, times) => moves_often(pair, &[*is_there], *max, *times),
        Part::Fed(fault) => pair.feed(0, case.1) == *fault,
        Part::Told => take(&mut pair.one, 0) == Some(case.0),
        Part::Take(peer, fault) => take(&mut pair.one, *peer) == *fault,
        Part::Read(peer, fault) => read(&mut pair.one, *peer) == *fault,
        Part::Lose(peer, last, fault) => lose(&mut pair.one, *peer, *last) == *fault,
        Part::Heard(peer, text, fault) => feed_packet(alloc, pair, *peer, text) == *fault,
        Part::Damaged(peer, is) => link_to(&pair.one, *peer).1 == *is,
        Part::Create => creates(pair),
        Part::GoesOut => pair.goes_out(),
        Part::Waits(is_first, len) => link_to(pair.node(*is_first), 0).0 == *len,
        Part::Puts(puts) => pair.puts() == *puts,
        Part::Seen(is_first, sight) => sees(pair.node(*is_first).state(), *sight),
    }
}

// Each row of a table holds, one after another.
fn play(rt: &impl Abort, alloc: Global, pair: Pair, turns: &[Turn<'_>], case: Case<'_>) {
    let mut pair = pair;
    for (place, turn) in turns.iter().enumerate() {
        for part in *turn {
            holds(rt, is_part(alloc, &mut pair, part, case), "turn", place);
        }
    }
    drop(pair);
}

// The same of two nodes of three.
fn play_of_three(rt: &impl Abort, alloc: Global, turns: &[Turn<'_>], case: Case<'_>) {
    play(rt, alloc, two_of_three(rt, alloc), turns, case);
}

static NO_CASE: Case<'static> = (0, &[]);

// Both are formed once all has come that they tell each other, and not before; and both agree on a group once one of them was told to
// create it, and neither has its lock then. Nothing of them waits.
static AGREE: &[Turn<'static>] = &[
    &[Seen(true, Formed(false)), Seen(false, Formed(false))],
    &[Settle(60), Seen(true, Formed(true))],
    &[Seen(false, Formed(true)), Seen(true, Group(false))],
    &[Seen(false, Group(false))],
    &[Create],
    &[Settle(60), Seen(true, Answered(1)), Seen(true, Group(true))],
    &[Seen(false, Group(true)), Seen(true, Locked(false))],
    &[Seen(false, Locked(false)), Waits(true, 0)],
    &[Waits(false, 0), Puts(120)],
];

#[test]
fn two_nodes_agree(rt: HostRuntime) {
    // By each number but 0 one put moves nothing: what it does not take goes out later, and nothing is lost.
    for skipped in 0..121u32 {
        let pair = two_alone(&rt, rt.alloc(), skipped);
        play(&rt, rt.alloc(), pair, AGREE, NO_CASE);
    }
}

// What a link does not take stays in the outbox, and goes out later.
static FULL: &[Turn<'static>] = &[
    &[Waits(true, 33)],
    &[Moves(true, 64, 1), Waits(true, 33), Puts(1)],
    &[Settle(200), Waits(true, 0), Seen(false, Formed(true))],
];

#[test]
fn full_link_takes_nothing(rt: HostRuntime) {
    let pair = two_alone(&rt, rt.alloc(), 1);
    play(&rt, rt.alloc(), pair, FULL, NO_CASE);
}

// A fault of what comes in is told once, and damages the link for good; the other way goes on.
static ONE_WAY: &[Turn<'static>] = &[
    &[Fed(None), Told],
    &[Take(0, Some(14))],
    &[Fed(Some(14))],
    &[Moves(true, 7, 20), Seen(false, Formed(true))],
    &[Seen(true, Formed(false))],
];

// A fault of what comes from one peer damages its link alone: what goes out to it goes out, and the other peer hears and is heard.
static ONE_LINK: &[Turn<'static>] = &[
    &[Fed(None), Damaged(0, false), Told, Damaged(0, true)],
    &[Take(0, Some(14))],
    &[Fed(Some(14))],
    &[Take(0, Some(14)), GoesOut],
    &[Moves(false, 64, 1)],
    &[Moves(true, 64, 1), Damaged(1, false)],
    &[Seen(true, Clock(1)), Seen(false, Clock(1))],
];

/// Frames, and the number of the first fault of each.
static FAULTS: &[Case<'static>] = &[
    // The body ends within its term.
    (1, &[0, 0, 0, 2, 131, 97]),
    // Its first byte is not 131.
    (2, &[0, 0, 0, 1, 130]),
    // A tag that is not read.
    (3, &[0, 0, 0, 2, 131, 70]),
    // A term that nests 65 levels deep.
    (4, DEEP),
    // 2^64
    (5, &[0, 0, 0, 13, 131, 110, 9, 0, 0, 0, 0, 0, 0, 0, 0, 0, 1]),
    // An atom that is no UTF-8.
    (6, &[0, 0, 0, 4, 131, 119, 1, 255]),
    // A list whose tail is 2.
    (7, &[0, 0, 0, 10, 131, 108, 0, 0, 0, 1, 97, 1, 97, 2]),
    // A reference without a word.
    (8, &[0, 0, 0, 8, 131, 114, 0, 0, 119, 1, 97, 1]),
    // A byte behind its term.
    (9, &[0, 0, 0, 4, 131, 97, 1, 97]),
    // A frame of 16,777,217 bytes.
    (11, &[1, 0, 0, 1]),
    // 5
    (12, &[0, 0, 0, 3, 131, 97, 5]),
    // {1073741825, {down, <b.1.0>}}
    (
        13,
        b"\0\0\0\x20\x83h\x02b@\0\0\x01h\x02w\x04downXw\x01b\0\0\0\x01\0\0\0\0\0\0\0\x01",
    ),
];

const DEEP: &[u8] = b"\0\0\0\x83\x83\
    h\x01h\x01h\x01h\x01h\x01h\x01h\x01h\x01h\x01h\x01h\x01h\x01h\x01h\x01h\x01h\x01\
    h\x01h\x01h\x01h\x01h\x01h\x01h\x01h\x01h\x01h\x01h\x01h\x01h\x01h\x01h\x01h\x01\
    h\x01h\x01h\x01h\x01h\x01h\x01h\x01h\x01h\x01h\x01h\x01h\x01h\x01h\x01h\x01h\x01\
    h\x01h\x01h\x01h\x01h\x01h\x01h\x01h\x01h\x01h\x01h\x01h\x01h\x01h\x01h\x01h\x01a\x01";

#[test]
fn each_fault_damages_its_link(rt: HostRuntime) {
    for case in FAULTS {
        let pair = two_alone(&rt, rt.alloc(), 0);
        play(&rt, rt.alloc(), pair, ONE_WAY, *case);
        play_of_three(&rt, rt.alloc(), ONE_LINK, *case);
    }
}

const EXCHANGE: &str = "{0,{cast,{exchange,b,[]}}}";

// `b` tells twice that it has no group: that is taken once, and then refused.
static TOLD_TWICE: &[Turn<'static>] = &[
    &[Heard(0, EXCHANGE, None)],
    &[Take(0, None)],
    &[Heard(0, EXCHANGE, None), Damaged(0, false)],
    &[Take(0, Some(12)), Damaged(0, true)],
    &[Take(0, Some(14))],
    &[Heard(0, EXCHANGE, Some(14))],
    &[Take(0, Some(14)), Seen(true, Clock(1))],
    &[Moves(false, 64, 1), Seen(true, Formed(true))],
];

const APPLIED: &str = "{0,{reply,#<a/1.1.0.0>,ok}}";

// The greatest, `c`, is played here as well. It grants the lock, and then `b` is asked, which answers by `ok`: that answers an update
// alone. The lock stays asked for.
static WRONG_KIND: &[Turn<'static>] = &[
    &[Create],
    &[Heard(1, "{0,{reply,#<a/1.1.0.0>,true}}", None)],
    &[Take(1, None)],
    &[Heard(0, APPLIED, None), Damaged(0, false)],
    &[Take(0, Some(12)), Damaged(0, true)],
    &[Take(0, Some(14))],
    &[Heard(0, APPLIED, Some(14))],
    &[Take(0, Some(14)), Seen(true, Open(1))],
    &[Moves(false, 64, 1)],
];

#[test]
fn unwelcome_packets_damage_their_link(rt: HostRuntime) {
    play_of_three(&rt, rt.alloc(), TOLD_TWICE, NO_CASE);
    play_of_three(&rt, rt.alloc(), WRONG_KIND, NO_CASE);
}

const NODE_LOST: Option<u8> = Some(19);

// Of a peer whose loss was seen nothing comes in, is read or is taken, and that changes nothing; the other peer is heard. The loss is not
// seen while a whole frame is left.
static LOST: &[Turn<'static>] = &[
    &[Heard(0, EXCHANGE, None)],
    &[Read(0, None)],
    &[Lose(0, 4, Some(29))],
    &[Take(0, None), Waits(true, 33)],
    &[Lose(0, 4, None), Waits(true, 0), Seen(true, Clock(5))],
    &[Take(0, NODE_LOST)],
    &[Read(0, NODE_LOST)],
    &[Fed(NODE_LOST)],
    &[Lose(0, 9, NODE_LOST), Damaged(0, false)],
    &[Seen(true, Lost(0)), Seen(true, Clock(5))],
    &[Moves(false, 64, 1), Seen(true, Formed(true))],
];

// The loss is told before the damage of the link.
static LOST_DAMAGED: &[Turn<'static>] = &[
    &[Fed(None), Told],
    &[Read(0, Some(14))],
    &[Lose(0, 4, None)],
    &[Take(0, NODE_LOST)],
    &[Read(0, NODE_LOST)],
    &[Fed(NODE_LOST)],
    &[Lose(0, 4, NODE_LOST), Damaged(0, true)],
];

#[test]
fn nothing_comes_of_the_lost(rt: HostRuntime) {
    let case = (1, &[0, 0, 0, 2, 131, 97][..]);
    play_of_three(&rt, rt.alloc(), LOST, case);
    play_of_three(&rt, rt.alloc(), LOST_DAMAGED, case);
}
