//! A group, as far as one process goes.

use pg_term::{Pid, Term};
use pg_world::{Start, Update};

/// Whether a group is there, and how often a process is in it.
#[derive(Clone, Copy)]
pub(crate) struct Held {
    pub is_there: bool,
    pub count: u64,
}

/// The bits of the places.
const BITS: [u32; 5] = [1, 2, 4, 8, 16];

/// All places, a bit for each.
pub(crate) const ALL: u32 = 31;

/// The bit of a place.
pub(crate) fn bit_of(place: usize) -> u32 {
    *BITS.get(place).unwrap_or(&0)
}

/// How often a process is in a list.
pub(crate) fn count_in(pids: &[Pid], pid: &Pid) -> u64 {
    let mut count = 0u64;
    for other in pids {
        if other == pid {
            count = count.saturating_add(1);
        }
    }
    count
}

impl Held {
    /// What the nodes at these places, a bit for each, begin with: the process is there as often as at the one where it is most often.
    pub(crate) fn begun(starts: &[Start], places: u32, name: &Term, pid: &Pid) -> Held {
        let mut held = Held {
            is_there: false,
            count: 0,
        };
        for (place, start) in starts.iter().enumerate() {
            if bit_of(place) & places > 0 {
                held.merge(start, name, pid);
            }
        }
        held
    }

    /// Takes in what a node begins with.
    fn merge(&mut self, start: &Start, name: &Term, pid: &Pid) {
        for (group, members) in start.groups.as_slice() {
            if group == name {
                self.is_there = true;
                self.count = self.count.max(count_in(members.as_slice(), pid));
            }
        }
    }

    /// What is left of it where it is known whether the process has ended.
    pub(crate) fn less(self, has_ended: bool) -> Held {
        Held {
            is_there: self.is_there,
            count: if has_ended { 0 } else { self.count },
        }
    }

    /// Changes it as an update does.
    pub(crate) fn apply(&mut self, update: &Update, pid: &Pid) {
        match update {
            Update::Create(_) => self.is_there = true,
            Update::Delete(_) => {
                self.is_there = false;
                self.count = 0;
            }
            Update::Join(_, other) if self.is_there && other == pid => {
                self.count = self.count.saturating_add(1);
            }
            Update::Leave(_, other) if other == pid => {
                self.count = self.count.saturating_sub(1);
            }
            _ => {}
        }
    }
}
