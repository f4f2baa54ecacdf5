//! Tables: what is tried of each row, the bytes that a row is about, and how a test ends whose row does not hold.

use pg_message::MessageFault;
use pg_term::TermFault;
use std::alloc::{AllocError, Global};
use std::process::Abort;

pub const OUT_OF_MEMORY: MessageFault = MessageFault::Term(TermFault::OutOfMemory);

/// A row of a table.
pub trait Row {
    /// Whether all of it holds, or why a call failed that should not.
    fn told(&self, alloc: Global) -> Result<bool, MessageFault>;
}

/// Ends the test where a row does not hold. Where memory was refused it is tried a second time, and has to hold then.
pub fn check<R: Row>(rt: &impl Abort, alloc: Global, rows: &[R]) {
    for (at, row) in rows.iter().enumerate() {
        let told = match row.told(alloc) {
            Err(OUT_OF_MEMORY) => row.told(alloc),
            told => told,
        };
        assert!(rt; told.unwrap_or(false), "at {at}: {told:?}");
    }
}

/// Ends the test where something does not hold, and tells of it.
pub fn holds(rt: &impl Abort, holds: bool, said: &str) {
    assert!(rt; holds, "{said}");
}

/// A change of bytes.
#[derive(Clone, Copy)]
pub enum Edit {
    /// At this place so many are replaced by these.
    At(usize, usize, &'static [u8]),
    /// Behind them stand so many times these.
    Times(usize, &'static [u8]),
}

fn is_put(bytes: &mut Vec<u8>, more: &[u8]) -> bool {
    bytes.extend_from_slice(more).is_ok()
}

/// The first bytes, and the others from one place on, where they are changed from left to right.
pub fn edited(
    alloc: Global,
    front: &[u8],
    from: usize,
    others: &[u8],
    edits: &[Edit],
) -> Result<Vec<u8>, AllocError> {
    let mut bytes = Vec::new(alloc);
    let mut told = is_put(&mut bytes, front);
    let mut from = from;
    for edit in edits {
        match *edit {
            Edit::At(at, len, with) => {
                told = told && is_put(&mut bytes, others.get(from..at).unwrap_or(&[]));
                told = told && is_put(&mut bytes, with);
                from = at.saturating_add(len);
            }
            Edit::Times(times, with) => {
                for _ in 0..times {
                    told = told && is_put(&mut bytes, with);
                }
            }
        }
    }
    if told && is_put(&mut bytes, others.get(from..).unwrap_or(&[])) {
        Ok(bytes)
    } else {
        Err(AllocError)
    }
}
