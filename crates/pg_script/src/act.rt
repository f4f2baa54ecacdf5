//! What a line of a script does, where nodes are given by their places.

ghost use Rattle.std.specs.Prelude.{◌≡◌};
ghost use Rattle.pg_script.specs.Scripts.{node_act, pair_act};

use pg_script_trace::{FrameStep, NodeForm, OpId, PairForm, Step};
use pg_term::Term;

/// What a line does that is no declaration. Nodes are named by their places.
#[derive(Debug, Drop)]
pub enum Act {
    /// A step of the world.
    Step(Step),
    /// Rounds of steps, at most so many.
    Settle(u32),
    /// Prints whether a node sees the lock of a group free.
    Lock { node: usize, group: Term },
    /// Prints how many bytes wait at a node to go to another.
    Outbox { from: usize, to: usize },
    /// Prints the updates of a group.
    History(Term),
}

/// What a line about two nodes does.
pub(crate) fn pair_act(first: usize, second: usize, form: PairForm) -> Act
    ensures { result ≡ pair_act first second form }
{
    match form {
        PairForm::Put(max) => Act::Step(Step::Put {
            from: first,
            to: second,
            max: max as usize,
        }),
        PairForm::Pull(max) => Act::Step(Step::Pull {
            to: first,
            from: second,
            max: max as usize,
        }),
        PairForm::Take => Act::Step(Step::Event(FrameStep::Take {
            node: first,
            peer: second,
        })),
        PairForm::SeeLoss => Act::Step(Step::Event(FrameStep::SeeLoss {
            node: first,
            peer: second,
        })),
        PairForm::Outbox => Act::Outbox {
            from: first,
            to: second,
        },
    }
}

/// What a line about one node does. Each node has the one port 0.
pub(crate) fn node_act(node: usize, form: NodeForm) -> Act
    ensures { result ≡ node_act node form }
{
    match form {
        NodeForm::Command(command) => Act::Step(Step::Event(FrameStep::Command {
            node,
            port: 0,
            command,
        })),
        NodeForm::Retry(number) => Act::Step(Step::Event(FrameStep::Retry {
            node,
            op: OpId { port: 0, number },
        })),
        NodeForm::Lock(group) => Act::Lock { node, group },
        NodeForm::Lose => Act::Step(Step::Lose { node }),
    }
}
