use crate::commands::sights::Sight::{self, *};
use crate::commands::steps::Step::{self, *};
use pg_node_opens::Taken::{Counted, Double, Stranger};
use pg_node_opens::{Gathering, OpId, Outlook, Stage};

/// Steps, and what is seen then.
pub type Row = (&'static [Step], &'static [Sight]);

/// The same at the first of two nodes, or at the second; and whether their commands are the same then.
pub type Both = (bool, &'static [Step], &'static [Sight], bool);

const ONE: OpId = OpId { port: 0, number: 1 };

const TWO: OpId = OpId { port: 0, number: 2 };

/// Of a, b and c the last is the greatest, until it is lost.
pub const LOST: &[Row] = &[
    (&[], &[Named(2, "c", true), Named(1, "c", false)]),
    (&[], &[Place("c", Some(2)), Place("d", None)]),
    (&[], &[Lost(2, false, true), Lost(0, false, false)]),
    (&[], &[Greatest(2)]),
    (&[Loses(2)], &[Lost(2, true, false), Lost(1, false, true)]),
    (&[], &[Place("c", Some(2)), Greatest(1)]),
];

/// An attempt of the command 1 begins, of which c is asked first.
const BEGINS: &[Step] = &[Opens(1), Starts(1, 2), Asks(1, Some(2), true)];

/// Who is asked: first c alone, then the others, of whom b is lost.
pub const ASKED: &[Row] = &[
    (&[Opens(1), Starts(1, 2)], &[IsAsked(1, Some(2), 2, true)]),
    (&[], &[IsAsked(1, Some(2), 1, false)]),
    (&[Asks(1, Some(2), true)], &[IsAsked(1, None, 2, false)]),
    (&[], &[IsAsked(1, None, 1, true), IsAsked(1, None, 0, true)]),
    (&[Loses(1)], &[IsAsked(1, None, 1, false)]),
];

/// Both open the commands 1 and 2, in another order, and start the first; one hears from a node that both lose.
pub const SAME: &[Both] = &[
    (true, &[Opens(1)], &[], false),
    (true, &[Opens(2)], &[At(0, Some(ONE)), At(2, None)], false),
    (false, &[Opens(2)], &[At(0, Some(TWO))], false),
    (false, &[Opens(1)], &[], true),
    (true, &[Starts(1, 2)], &[], false),
    (false, &[Starts(1, 2)], &[], true),
    (true, &[Asks(1, None, true)], &[], false),
    (false, &[Asks(1, None, true)], &[], true),
    (true, &[Updates(1)], &[], false),
    (false, &[Updates(1)], &[], true),
    (true, &[Replies(2, 1)], &[], false),
    (true, &[Loses(1)], &[], false),
    (false, &[Loses(1)], &[], true),
];

/// c is asked first, then a and b; the update goes out, and the command ends.
pub const GATHERED: &[Row] = &[
    (&[Opens(1)], &[Open(1), HasWaitingUpdate(1)]),
    (&[Starts(1, 2)], &[Stands(1, Stage::Asking(1))]),
    (&[Asks(1, Some(2), true)], &[Looks(1, true, Outlook::Wait)]),
    (&[], &[Hears(1, 1, Stranger)]),
    (&[Answers(1, 2, true)], &[Looks(1, true, Outlook::Ask)]),
    (&[Asks(1, None, true)], &[Hears(1, 2, Stranger)]),
    (&[], &[Hears(1, 1, Counted)]),
    (&[Answers(1, 1, true)], &[Hears(1, 1, Double)]),
    (&[], &[Looks(1, true, Outlook::Begin)]),
    (&[Updates(1)], &[Gathers(2, Gathering::Update(ONE, 1))]),
    (&[], &[HasUpdate(2)]),
    (&[Replies(2, 1)], &[IsComplete(2, false)]),
    (&[Replies(2, 2)], &[IsComplete(2, true)]),
    (&[Finishes(2)], &[Stands(1, Stage::Closed), Open(0)]),
];

/// A counted answer that is taken back is counted again, and so is a reply.
pub const TAKEN_BACK: &[Row] = &[
    (BEGINS, &[]),
    (&[Answers(1, 2, true), TakesBackAnswer(1, 2)], &[]),
    (&[], &[Looks(1, true, Outlook::Wait), Hears(1, 2, Counted)]),
    (&[Answers(1, 2, true), Asks(1, None, true)], &[]),
    (&[Answers(1, 1, true), Updates(1)], &[]),
    (&[Replies(2, 1), Replies(2, 2), TakesBackReply(2, 1)], &[]),
    (&[Opens(2), LooksFor(2)], &[Open(2)]),
    (&[], &[IsComplete(2, false), Hears(2, 1, Counted)]),
];

/// One denies, and the command waits for its retry; then the own node denies, which alone was not asked.
pub const DENIED: &[Row] = &[
    (BEGINS, &[]),
    (&[Answers(1, 2, false)], &[Looks(1, true, Outlook::GiveUp)]),
    (&[GivesUp(1)], &[Waits(1, true)]),
    (&[], &[Gathers(1, Gathering::Nothing)]),
    (&[Starts(1, 2)], &[Stands(1, Stage::Asking(2))]),
    (&[Asks(2, Some(2), true), Answers(2, 2, true)], &[]),
    (&[Loses(1)], &[Looks(2, false, Outlook::GiveUp)]),
    (&[], &[Looks(2, true, Outlook::Begin)]),
];

/// What waits for a lost node alone waits for its retry.
pub const READY: &[Row] = &[
    (BEGINS, &[Waits(1, false)]),
    (&[Loses(2)], &[Waits(1, true), Hears(1, 2, Stranger)]),
    (&[], &[Looks(1, false, Outlook::Ask)]),
];
