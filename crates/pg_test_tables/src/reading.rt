//! What the rules make of two groups and two pids, read slowly.

use crate::change::Act;

/// How often each of the two pids is a member; `None` where the group is absent.
pub type Counts = Option<(u64, u64)>;

/// What the rules make of the groups 1 and 2.
#[derive(Clone, Copy)]
pub struct Reading {
    pub first: Counts,
    pub second: Counts,
    /// Whether the process of the first pid has ended.
    pub first_ended: bool,
}

impl Reading {
    /// How many groups are there.
    pub fn group_count(&self) -> usize {
        match (self.first, self.second) {
            (None, None) => 0,
            (Some(_), Some(_)) => 2,
            (Some(_), None) | (None, Some(_)) => 1,
        }
    }

    /// What a change makes of the groups. Each of the two pids is the only one of its node.
    pub fn after(self, group: i64, act: Act<'_>) -> Reading {
        let (first, second) = (self.first, self.second);
        let (first, second) = match act {
            Act::Drop(pid) | Act::DropNode(pid) => (dropped(first, pid), dropped(second, pid)),
            _ if group == 1 => (self.changed(first, act), second),
            _ => (first, self.changed(second, act)),
        };
        Reading {
            first,
            second,
            ..self
        }
    }

    /// What a change makes of the group that it names.
    fn changed(&self, group: Counts, act: Act<'_>) -> Counts {
        match (act, group) {
            (Act::Create, None) => Some((0, 0)),
            (Act::Delete, _) => None,
            (Act::Join(pid), Some(counts)) if !self.has_ended(pid) => Some(joined(counts, pid)),
            (Act::Leave(0), Some((a, b))) => Some((a.saturating_sub(1), b)),
            (Act::Leave(_), Some((a, b))) => Some((a, b.saturating_sub(1))),
            (Act::Merge(told), _) => Some(self.merged(group.unwrap_or((0, 0)), told)),
            (_, there) => there,
        }
    }

    fn has_ended(&self, pid: usize) -> bool {
        pid == 0 && self.first_ended
    }

    /// The greater of both, of each pid that has not ended.
    fn merged(&self, counts: (u64, u64), told: &[usize]) -> (u64, u64) {
        let mut list = (0, 0);
        for pid in told {
            if !self.has_ended(*pid) {
                list = joined(list, *pid);
            }
        }
        (counts.0.max(list.0), counts.1.max(list.1))
    }
}

fn joined(counts: (u64, u64), pid: usize) -> (u64, u64) {
    if pid == 0 {
        (counts.0.saturating_add(1), counts.1)
    } else {
        (counts.0, counts.1.saturating_add(1))
    }
}

/// A group without a pid.
fn dropped(group: Counts, pid: usize) -> Counts {
    match (group, pid) {
        (None, _) => None,
        (Some((_, b)), 0) => Some((0, b)),
        (Some((a, _)), _) => Some((a, 0)),
    }
}
