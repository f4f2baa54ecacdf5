//! What the peers say.

use pg_cluster::{Message, Packet, RefFault, RefSource, Request, Said};
use pg_term::{Atom, Items, TermFault};
use pg_test_kit::{Change, Groups, pid, reference};
use std::alloc::Global;

/// What a peer of this name announces at first: it has no group.
///
/// Errors: those of `Atom::new`.
///
/// Cost: one packet.
pub fn no_groups(alloc: Global, name: &str) -> Result<Vec<Packet>, TermFault> {
    let node = Atom::new(alloc, name)?;
    let message = Message::Exchange(node, Items::from_vec(Vec::new(alloc)));
    Ok(vec![in alloc; Packet { stamp: 0, message }]?)
}

// The process that the change of this number is about: where all are of one group, its 1,000 processes in turn.
fn process(groups: Groups, number: u32) -> u32 {
    match groups {
        Groups::One => number % 1_000 + 1,
        Groups::Own => 1,
    }
}

// The call of b of this number.
fn call(alloc: Global, change: Change, groups: Groups, number: u32) -> Result<Packet, TermFault> {
    let process = pid(alloc, "a", process(groups, number))?;
    let from = reference(alloc, "b", number)?;
    let update = change.update(groups.group(number), process);
    let message = Message::Call(from, Request::Change(update));
    Ok(Packet { stamp: 0, message })
}

/// So many calls of b that ask for the change.
///
/// Errors: those of `Atom::new`.
///
/// Cost: memory for each.
pub fn calls(
    alloc: Global,
    change: Change,
    groups: Groups,
    count: u32,
) -> Result<Vec<Packet>, TermFault> {
    let mut packets = Vec::new(alloc);
    for number in 0..count {
        packets.push(call(alloc, change, groups, number)?)?;
    }
    Ok(packets)
}

// A reply to the next call of the node that has these references.
fn reply(references: &mut RefSource, said: Said) -> Result<Packet, RefFault> {
    let message = Message::Reply(references.next()?, said);
    Ok(Packet { stamp: 0, message })
}

/// A reply to each of the next so many calls of the node that has these references.
///
/// Errors: those of `RefSource::next`.
///
/// Cost: memory for each.
pub fn replies(
    alloc: Global,
    references: &mut RefSource,
    count: usize,
    said: Said,
) -> Result<Vec<Packet>, RefFault> {
    let mut packets = Vec::new(alloc);
    for _ in 0..count {
        let packet = reply(references, said)?;
        if packets.push(packet).is_err() {
            return Err(RefFault::OutOfMemory);
        }
    }
    Ok(packets)
}
