//! The gathered replies of several nodes to one call.

use crate::samples::row_holds;
use Step::*;
use pg_node_opens::Taken::{self, *};
use pg_node_opens::{Gather, MAX_PLACES, Places};
use std::process::Abort;

/// What becomes of a node: of the place 0, 1 or 15.
#[derive(Clone, Copy)]
enum Step {
    /// It replies: whether it grants, and what that reply is.
    Replies(usize, bool, Taken),
    /// It is asked, once more where it has replied.
    Asked(usize),
    /// It is lost.
    Lost(usize),
}

/// Steps, each with whether all that were asked have replied then, and whether all have granted; and the replies of the places 0 and
/// 15 that stand at last.
type Script = (&'static [(Step, bool, bool)], [Option<Option<bool>>; 2]);

/// 0 and 15 are asked.
const SCRIPTS: &[Script] = &[
    // Both grant. A second reply of a node changes nothing.
    (
        &[
            (Replies(0, true, Counted), false, false),
            (Replies(0, false, Double), false, false),
            (Replies(15, true, Counted), true, true),
            (Replies(15, false, Double), true, true),
        ],
        [Some(Some(true)), Some(Some(true))],
    ),
    // One denies. The reply of a node that was not asked changes nothing, and neither does that of a place where no node is.
    (
        &[
            (Replies(1, true, Stranger), false, false),
            (Replies(16, true, Stranger), false, false),
            (Replies(15, false, Counted), false, false),
            (Replies(0, true, Counted), true, false),
        ],
        [Some(Some(true)), Some(Some(false))],
    ),
    // A node that is lost is waited for no longer, and its reply does not stand.
    (
        &[
            (Replies(15, false, Counted), false, false),
            (Lost(15), false, false),
            (Replies(15, true, Stranger), false, false),
            (Lost(16), false, false),
            (Lost(0), true, true),
        ],
        [None, None],
    ),
    // The one that has not replied is lost.
    (
        &[
            (Replies(0, true, Counted), false, false),
            (Lost(1), false, false),
            (Lost(15), true, true),
        ],
        [Some(Some(true)), None],
    ),
    // A denial is taken back, and the node replies again. One more is asked, which is lost.
    (
        &[
            (Replies(0, false, Counted), false, false),
            (Replies(15, true, Counted), true, false),
            (Asked(0), false, false),
            (Asked(1), false, false),
            (Replies(0, true, Counted), false, false),
            (Lost(1), true, true),
        ],
        [Some(Some(true)), Some(Some(true))],
    ),
];

#[test]
fn gather_over_two(rt: HostRuntime) {
    for script in SCRIPTS {
        run(&rt, script);
    }
}

fn run(rt: &impl Abort, script: &Script) {
    let mut gather = Gather::new(Places::none().with(0).with(15));
    for (row, (step, is_complete, is_granted)) in script.0.iter().enumerate() {
        row_holds(rt, went(&mut gather, *step), row);
        row_holds(rt, gather.complete() == *is_complete, row);
        row_holds(rt, gather.is_granted() == *is_granted, row);
    }
    for (place, reply) in [0, 15].iter().zip(script.1.iter()) {
        check!(rt; gather.reply(*place) == *reply);
    }
    check!(rt; gather.reply(1) == None);
}

/// Whether a reply is what the step says.
fn went(gather: &mut Gather, step: Step) -> bool {
    match step {
        Step::Replies(place, granted, taken) => {
            gather.what(place) == taken && gather.take(place, granted) == taken
        }
        Step::Asked(place) => {
            if place >= MAX_PLACES {
                return false;
            }
            gather.ask(place);
            true
        }
        Step::Lost(place) => {
            gather.forget(place);
            true
        }
    }
}

#[test]
fn nobody_asked(rt: HostRuntime) {
    let gather = Gather::new(Places::none());
    check!(&rt; gather.complete());
    check!(&rt; gather.is_granted());
}

/// All sixteen are asked, and reply one after another: the replies are complete at the last.
#[test]
fn gather_over_all(rt: HostRuntime) {
    let mut asked = Places::none();
    for place in 0..MAX_PLACES {
        asked = asked.with(place);
    }
    let mut gather = Gather::new(asked);
    for place in 0..MAX_PLACES {
        check!(&rt; !gather.complete());
        check!(&rt; gather.take(place, true) == Taken::Counted);
    }
    check!(&rt; gather.is_granted());
    check!(&rt; !asked.without(3).has(3));
    check!(&rt; asked.with_or_without(3, false).are_within(asked));
    check!(&rt; !asked.has(MAX_PLACES));
}
