//! Which updates of a history a node has applied.

use crate::slow::held::{Held, bit_of};
use crate::slow::scene::{History, Scene, State, entry_at, len_of, state_of};
use pg_term::{Pid, Reference};
use pg_world::{Answer, Entry};

/// What a node leaves out of a history.
#[derive(Clone, Copy)]
pub(crate) struct LeftOut {
    /// Of the nodes at these places, a bit for each, the one update that is not answered.
    pub of_lost: u32,
    /// The last update.
    pub is_short: bool,
}

/// Whether a command of this number was answered.
fn has_number(answers: &[Answer], number: u32) -> bool {
    for answer in answers {
        if answer.number == number {
            return true;
        }
    }
    false
}

/// The places of the nodes whose loss the node at a place saw, a bit for each.
pub(crate) fn lost_to(place: usize, node: &State) -> u32 {
    let mut seen = 0;
    for peer in 0..node.peer_count() {
        if node.is_lost(peer) {
            seen |= bit_of(peer.saturating_add(usize::from(peer >= place)));
        }
    }
    seen
}

impl Scene<'_> {
    /// The places of the nodes that are lost, a bit for each.
    pub(crate) fn lost(&self) -> u32 {
        let mut lost = 0;
        for place in 0..self.starts.len() {
            if self.world.is_lost(place) {
                lost |= bit_of(place);
            }
        }
        lost
    }

    /// Whether a lock is held for one of these nodes.
    pub(crate) fn is_of_lost(&self, holder: Option<&Reference>, lost: u32) -> bool {
        let Some(holder) = holder else {
            return false;
        };
        for (place, start) in self.starts.iter().enumerate() {
            if bit_of(place) & lost > 0 && start.name == *holder.node() {
                return true;
            }
        }
        false
    }

    /// Whether the command of an entry was answered.
    fn is_answered(&self, entry: &Entry) -> bool {
        let number = entry.op.number;
        match state_of(self.world, entry.node) {
            Some(node) if node.port_count() == 1 => has_number(node.answers(0), number),
            _ => false,
        }
    }

    /// The bit of the node of an entry, if its update is left out.
    fn missed(&self, entry: &Entry, out: LeftOut) -> u32 {
        let bit = bit_of(entry.node) & out.of_lost;
        if bit > 0 && self.is_answered(entry) {
            0
        } else {
            bit
        }
    }

    /// Whether there is a last update, and it is not answered.
    fn is_last_open(&self, history: History<'_>) -> bool {
        match entry_at(history, len_of(history).wrapping_sub(1)) {
            Some(entry) => !self.is_answered(entry),
            None => false,
        }
    }

    /// Whether each update but the last is answered, unless the node that asked for it is lost.
    pub(crate) fn are_others_answered(&self, history: History<'_>) -> bool {
        for place in 0..len_of(history).saturating_sub(1) {
            match entry_at(history, place) {
                Some(entry) if !self.is_answered(entry) && !self.world.is_lost(entry.node) => {
                    return false;
                }
                _ => {}
            }
        }
        true
    }

    /// How many updates of a history are left, if just one is left out of each of the nodes. An update that is answered is never left
    /// out.
    pub(crate) fn kept(&self, history: History<'_>, out: LeftOut) -> Option<u128> {
        let (mut kept, mut all) = (0u128, 0u32);
        for place in 0..len_of(history).saturating_sub(usize::from(out.is_short)) {
            let missed = match entry_at(history, place) {
                Some(entry) => self.missed(entry, out),
                None => 0,
            };
            if all & missed > 0 {
                return None;
            }
            all |= missed;
            kept = kept.saturating_add(u128::from(missed == 0));
        }
        if all == out.of_lost && (!out.is_short || self.is_last_open(history)) {
            Some(kept)
        } else {
            None
        }
    }

    /// Changes what is held of a process as the updates do that are left.
    pub(crate) fn replay(&self, held: &mut Held, history: History<'_>, out: LeftOut, pid: &Pid) {
        for place in 0..len_of(history).saturating_sub(usize::from(out.is_short)) {
            match entry_at(history, place) {
                Some(entry) if self.missed(entry, out) == 0 => held.apply(&entry.update, pid),
                _ => {}
            }
        }
    }
}
