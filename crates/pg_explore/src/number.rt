//! A number that moments have in common which are the same but for clocks and stamps.

ghost use Rattle.std.specs.Prelude.{◌≡◌, ◌<◌, [], fold, get_or, length, map};
ghost use Rattle.std.specs.Option.{option_copied, option_map_or};
ghost use Rattle.pg_world_packets.specs.PgNodeSends.Sent.{stamped_of};
ghost use Rattle.pg_world_packets.specs.Alike.{without_clock, without_stamps};
ghost use Rattle.pg_world_packets.specs.PgWorldConfig.Seen.{seen_of};
ghost use Rattle.pg_world_packets.specs.FrameWorlds.{traffic_of};
ghost use Rattle.pg_explore.specs.Moments.{IsSized, progress_of, sight_of};
ghost use Rattle.pg_explore.specs.Numbers.{answer_count, kind_number, mixed, mixed_message, mixed_node};
ghost use Rattle.pg_explore.specs.Numbers.{mixed_progress, mixed_row, mixed_way, number_in, unstamped_of};

use crate::moment::Moment;
use crate::strand::Strand;
use crate::ways::way;
use pg_world_packets::{IndexTable, Message, NodeState, Packet, Request, Update};
use std::collections::VecDeque;

/// The number of a moment. It takes no memory.
pub(crate) fn number_of(moment: &Moment) -> u64
    requires { IsSized moment.now }
    ensures { result ≡ number_in (sight_of moment.now) }
{
    let number = with_strands(moment.strands.as_slice());
    let number = with_rows(number, moment);
    with_nodes(number, moment)
}

/// Mixes a mark into a number.
fn with(number: u64, mark: u64) -> u64
    ensures { result ≡ mixed number mark }
{
    number
        .wrapping_add(mark)
        .wrapping_mul(0x9e37_79b9_7f4a_7c15)
}

/// Mixes in some numbers.
fn with_each(number: u64, marks: &[u32]) -> u64
    ensures { result ≡ fold mixed number marks.now }
{
    let mut mixed = number;
    for mark in marks {
        mixed = with(mixed, u64::from(*mark));
    }
    mixed
}

/// The number of how far plans have come.
fn with_strands(strands: &[Strand]) -> u64
    ensures { result ≡ fold mixed_progress 0 (map progress_of strands.now) }
{
    let mut mixed = 0u64;
    for strand in strands {
        mixed = with_strand(mixed, strand);
    }
    mixed
}

fn with_strand(number: u64, strand: &Strand) -> u64
    ensures { result ≡ mixed_progress number (progress_of strand.now) }
{
    with_each(with(number, strand.come as u64), strand.retries.as_slice())
}

/// Mixes in what is on the way.
fn with_rows(number: u64, moment: &Moment) -> u64
    requires { IsSized moment.now }
    ensures { result ≡ fold mixed_row number (map without_stamps (traffic_of moment.now.world).ways) }
{
    let mut mixed = number;
    for node in 0..moment.strands.len() {
        mixed = with_row(mixed, moment, node);
    }
    mixed
}

/// Mixes in what is on the way from a node.
fn with_row(number: u64, moment: &Moment, node: usize) -> u64
    requires sized { IsSized moment.now }
    requires place { node < length moment.now.strands.items }
    ensures { result ≡ mixed_row number (without_stamps (get_or (traffic_of moment.now.world).ways node [])) }
{
    let mut mixed = number;
    for place in 0..moment.strands.len() - 1 {
        mixed = with_way(mixed, way(moment, node, place));
    }
    mixed
}

/// Mixes in packets.
fn with_way(number: u64, packets: &VecDeque<Packet>) -> u64
    ensures { result ≡ mixed_way number (unstamped_of (map stamped_of packets.now.items)) }
{
    let mut mixed = with(number, packets.len() as u64);
    for place in 0..packets.len() {
        let packet = &packets[place];
        mixed = with_message(mixed, &packet.message);
    }
    mixed
}

fn with_message(number: u64, message: &Message) -> u64
    ensures { result ≡ mixed_message number message.now }
{
    match message {
        Message::Call(reference, Request::SetLock(_)) => {
            with_each(with(number, 11), reference.words())
        }
        Message::Call(reference, Request::Change(update)) => {
            with_each(with(number, kind_number(update)), reference.words())
        }
        Message::Reply(reference, _) => with_each(with(number, 12), reference.words()),
        Message::DelLock(_, reference) => with_each(with(number, 13), reference.words()),
        Message::Exchange(_, _) => with(number, 14),
        Message::Down(_) => with(number, 15),
    }
}

/// The number of a kind of update.
fn kind_number(update: &Update) -> u64
    ensures { result ≡ kind_number update.now }
{
    match update {
        Update::Create(_) => 1,
        Update::Delete(_) => 2,
        Update::Join(_, _) => 3,
        Update::Leave(_, _) => 4,
    }
}

/// Mixes in how many answers each node gave.
fn with_nodes(number: u64, moment: &Moment) -> u64
    requires { IsSized moment.now }
    ensures { result ≡ fold mixed_node number (map without_clock (traffic_of moment.now.world).nodes) }
{
    let mut mixed = number;
    for node in 0..moment.strands.len() {
        mixed = with_node(mixed, moment.world.node(node));
    }
    mixed
}

fn with_node(number: u64, node: Option<&NodeState<IndexTable>>) -> u64
    ensures { result ≡ option_map_or (λ state. mixed_node number (without_clock (seen_of state))) (option_copied node.entry) number }
{
    match node {
        Some(state) => with(number, answers_of(state) as u64),
        None => number,
    }
}

/// How many answers a node gave at its first port.
fn answers_of(state: &NodeState<IndexTable>) -> usize
    ensures { result ≡ answer_count (without_clock (seen_of state.now)) }
{
    if state.port_count() > 0 {
        state.answers(0).len()
    } else {
        0
    }
}
