//! What the judges of a cluster say of one that was tampered with after it was closed.

use crate::closed::{Judged, closed_after, holds};
use Saying::*;
use pg_cluster::FrameStep;
use std::alloc::{AllocError, Global};
use std::mem;
use std::process::Abort;
use std::thread::Threads;

/// What a judge says of a cluster.
#[derive(Clone, Copy)]
enum Saying {
    Agrees,
    SurvivorsAgree,
    Replays,
    AreSame,
}

/// A script, how many nodes are lost in it, and whether its cluster is judged then with the second node of that of another script, or
/// without its last step; what was said of it before, and is not then.
type Case<'a> = (&'a str, usize, Option<&'a str>, &'a [Saying]);

const TWO: &str = "node a\nnode b\ncreate b g";

const OTHER_TWO: &str = "node a\nnode b\ncreate b x";

const LOSS: &str = "node a\nnode b\nnode c\nlose c\ncreate b g";

/// All three nodes speak before the last is lost, and the first after it.
pub const SURVIVING: &str = "node a\nnode b\nnode c\ncreate c h\nlose c\ncreate a k\ncreate b g";

const OTHER_SURVIVING: &str = "node a\nnode b\nnode c\ncreate c h\nlose c\ncreate a k\ncreate b x";

const CASES: &[Case] = &[
    (TWO, 0, None, &[Replays]),
    // The last step is one behind each loss, since as many losses are left.
    (LOSS, 1, None, &[Replays]),
    (TWO, 0, Some(OTHER_TWO), &[Agrees, Replays]),
    (
        SURVIVING,
        1,
        Some(OTHER_SURVIVING),
        &[SurvivorsAgree, AreSame],
    ),
];

impl Judged {
    fn is_said(&self, alloc: Global, saying: Saying) -> Result<bool, AllocError> {
        match saying {
            Saying::Agrees => self.closed.agrees(alloc),
            Saying::SurvivorsAgree => self.closed.survivors_agree(alloc),
            Saying::Replays => self.closed.replays(alloc, &self.config),
            Saying::AreSame => self.closed.same_after_loss(alloc),
        }
    }

    // Whether all of this is said of a cluster, or nothing of it.
    fn are_said(&self, alloc: Global, sayings: &[Saying], are_said: bool) -> bool {
        for saying in sayings {
            if self.is_said(alloc, *saying) != Ok(are_said) {
                return false;
            }
        }
        true
    }

    // Takes the last step away; whether there was one.
    fn forget_step(&mut self) -> bool {
        self.closed.order.pop().is_some()
    }

    // Has the node of another cluster at a place; whether both have one there.
    fn swap_node(&mut self, other: &mut Judged, place: usize) -> bool {
        let (Some(own), Some(node)) = (
            self.closed.nodes.get_mut(place),
            other.closed.nodes.get_mut(place),
        ) else {
            return false;
        };
        mem::swap(own, node);
        true
    }

    // Whether so many losses are among the steps.
    fn has_losses(&self, alloc: Global, losses: usize) -> bool {
        match self.closed.schedule(alloc) {
            Ok(steps) => {
                let has_losses = loss_count(steps.as_slice()) == losses;
                drop(steps);
                has_losses
            }
            Err(AllocError) => false,
        }
    }
}

fn loss_count(steps: &[FrameStep]) -> usize {
    let mut count: usize = 0;
    for step in steps {
        if matches!(step, FrameStep::Lose { .. }) {
            count = count.saturating_add(1);
        }
    }
    count
}

fn check(rt: &(impl Threads + Abort), alloc: Global, case: &Case<'_>) {
    let (script, losses, other, sayings) = *case;
    let mut cluster = closed_after(rt, alloc, script);
    let is_said = cluster.are_said(alloc, sayings, true);
    holds(rt, is_said, "it is said of a cluster");
    match other {
        Some(other) => {
            let mut other = closed_after(rt, alloc, other);
            holds(rt, cluster.swap_node(&mut other, 1), "another node");
            drop(other);
        }
        None => {
            holds(rt, cluster.forget_step(), "a step less");
            let are_left = cluster.has_losses(alloc, losses);
            holds(rt, are_left, "no loss is left out");
        }
    }
    let is_said = !cluster.are_said(alloc, sayings, false);
    drop(cluster);
    holds(rt, !is_said, "nor is it said of another");
}

#[test]
fn no_is_said(rt: HostRuntime) {
    for case in CASES {
        check(&rt, rt.alloc(), case);
    }
}
