//! How much memory the ended take, and how long one more takes.

use crate::tables::peak;
use pg_group::Ended;
use pg_term::{Atom, Pid};
use pg_test_kit::{Random, Watch, number, report_each, word};
use std::alloc::{AllocError, Global};

// So many pids of a node end: in a row, or by chance.
fn end(ended: &mut Ended, node: &Atom, count: u32, by_chance: bool) -> Result<(), AllocError> {
    let mut random = Random::new(1);
    for place in 0..count {
        let id = if by_chance { random.word() } else { place };
        ended.add(Pid {
            node: node.copy()?,
            serial: 0,
            id,
            creation: 1,
        })?;
    }
    Ok(())
}

fn weigh(rt: &HostRuntime, ended: &mut Ended, node: &Atom, count: u32, by_chance: bool) -> bool {
    let before = peak(rt);
    let watch = Watch::begin(rt);
    let is_done = end(ended, node, count, by_chance).is_ok();
    report_each(rt, "add", u64::from(count), watch);
    match (before, peak(rt)) {
        (Some(before), Some(then)) => {
            let bytes = then.saturating_sub(before) / u64::from(count.max(1));
            let _ = eprintln!(rt; "{count} ended: {bytes} bytes each");
            is_done
        }
        _ => false,
    }
}

/// The words after `ended`: how many pids (1,000,000), and `chance` for pids by chance. Whether it could.
pub fn run(rt: &HostRuntime, words: &[String]) -> bool {
    let count = number(words, 1, 1_000_000).map(u32::try_from);
    let (Some(Ok(count)), Ok(node)) = (count, Atom::new(rt.alloc(), "n1@example.org")) else {
        return false;
    };
    let mut ended = Ended::new(rt.alloc());
    let is_done = weigh(rt, &mut ended, &node, count, word(words, 2) == "chance");
    drop(ended);
    drop(node);
    is_done
}
