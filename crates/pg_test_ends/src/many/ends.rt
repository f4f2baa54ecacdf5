use crate::ends::each_ends;
use crate::pids::{pids_of, put};
use crate::verdicts::holds;
use pg_group::Ended;
use pg_term::Pid;
use std::alloc::Global;
use std::process::Abort;

/// 1,001 pids of one node end, each once; and 1,001 nodes are lost. Those of the other list have not ended. And 1,001 processes are
/// made, numbered from 1, and leave their group one after the other by their ends.
#[test]
fn many_have_ended(rt: HostRuntime) {
    let of_one = pids_of(&rt, rt.alloc(), &[("a", 0, 1001)]);
    let of_many = of_many_nodes(&rt, rt.alloc());
    end_each(&rt, rt.alloc(), &of_one, &of_many, false);
    end_each(&rt, rt.alloc(), &of_many, &of_one, true);
    drop(of_one);
    drop(of_many);
    each_ends(&rt, rt.alloc(), 0, 1001);
}

/// A pid of each of 1,001 nodes.
fn of_many_nodes(rt: &impl Abort, alloc: Global) -> Vec<Pid> {
    let mut pids = Vec::new(alloc);
    for number in 0..1001 {
        let node = format!(in alloc; "n{number}").expect(rt, "name");
        put(
            rt,
            alloc,
            &mut pids,
            (node.as_str(), number, number.saturating_add(1)),
        );
        drop(node);
    }
    pids
}

/// The pids end one after the other, each by itself or by the loss of its node, and none of the others does.
fn end_each(rt: &impl Abort, alloc: Global, pids: &[Pid], others: &[Pid], by_loss: bool) {
    let mut ended = Ended::new(alloc);
    holds(rt, pids.len() == 1001, "all", pids.len());
    for (place, pid) in pids.iter().enumerate() {
        holds(rt, !ended.has(pid), "not before", place);
        if by_loss {
            ended.add_node(&pid.node).expect(rt, "loss");
        } else {
            ended.add(pid.copy().expect(rt, "copy")).expect(rt, "end");
        }
    }
    holds(rt, all_are(&ended, pids, true), "ended", pids.len());
    holds(rt, all_are(&ended, others, false), "others", others.len());
    drop(ended);
}

/// Whether all of the pids have ended, or none.
fn all_are(ended: &Ended, pids: &[Pid], have_ended: bool) -> bool {
    for pid in pids {
        if ended.has(pid) != have_ended {
            return false;
        }
    }
    true
}
