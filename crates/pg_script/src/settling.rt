//! Rounds of steps until nothing moves.

ghost use Rattle.std.specs.Prelude.{◌≡◌, ◌||◌, nat_eq, Some, IfOk, OnOk};
ghost use Rattle.pg_script.specs.Rounds.{MovesBy, RoundPasses, PassesIf, Round, RowFrom, Settles, moved_by, view_of};

use crate::stage::Stage;
use pg_script_trace::{FrameStep, NodeFault, Refusal, Step, Stepped};
use std::alloc::AllocError;

/// How many bytes a round moves at most of each pair.
const MAX_MOVED: usize = 65_536;

/// Why rounds end early.
#[derive(Clone, Copy)]
pub(crate) enum Halt {
    /// A step was refused.
    Refused(NodeFault),
    /// There was no memory for what was seen.
    OutOfMemory,
}

impl From<AllocError> for Halt {
    ghost use Rattle.std.specs.Prelude.{◌≡◌};
    ghost use Rattle.pg_script.specs.declared.settling.Halt.TheVariants.{OutOfMemory};

    ghost from_gives = { λ _ e. e ≡ OutOfMemory };

    fn from(_e: AllocError) -> Halt {
        Halt::OutOfMemory
    }
}

/// Makes rounds: for each ordered pair of nodes, by their places, bytes move from the first to the second, and it takes a
/// packet there. It ends after a round in which no byte moved and no packet was taken, after so many rounds, or at a refused
/// step. Steps of lost nodes are passed over.
pub(crate) fn settle(stage: &mut Stage, count: usize, rounds: u32) -> Result<(), Halt>
    ensures { OnOk result (Settles count rounds (view_of stage.old.world) (view_of stage.new.world)) }
{
    for _ in 0..rounds {
        if !round(stage, count)? {
            return Ok(());
        }
    }
    Ok(())
}

/// One round; whether a byte moved or a packet was taken.
fn round(stage: &mut Stage, count: usize) -> Result<bool, Halt>
    ensures { IfOk result (λ moved. Round count moved (view_of stage.old.world) (view_of stage.new.world)) }
{
    let mut moved = false;
    for from in 0..count {
        let was_moved = row(stage, from, count)?;
        moved = either(moved, was_moved);
    }
    Ok(moved)
}

/// The steps of a node with each other in a round.
fn row(stage: &mut Stage, from: usize, count: usize) -> Result<bool, Halt>
    ensures { IfOk result (λ moved. RowFrom from count moved (view_of stage.old.world) (view_of stage.new.world)) }
{
    let mut moved = false;
    for to in 0..count {
        let was_moved = pass_if(stage, from, to)?;
        moved = either(moved, was_moved);
    }
    Ok(moved)
}

/// Whether one of two things is so.
fn either(one: bool, other: bool) -> bool
    ensures { result ≡ (one || other) }
{
    one || other
}

/// The steps of one pair in a round, if these are two nodes.
fn pass_if(stage: &mut Stage, from: usize, to: usize) -> Result<bool, Halt>
    ensures { IfOk result (λ moved. PassesIf (nat_eq from to) from to moved (view_of stage.old.world)
        (view_of stage.new.world)) }
{
    if from == to {
        Ok(false)
    } else {
        pass(stage, from, to)
    }
}

/// The steps of one pair in a round.
fn pass(stage: &mut Stage, from: usize, to: usize) -> Result<bool, Halt>
    ensures { IfOk result (λ moved. RoundPasses from to moved (view_of stage.old.world) (view_of stage.new.world)) }
{
    let max = MAX_MOVED;
    let was_put = moves(stage, Step::Put { from, to, max })?;
    let was_pulled = moves(stage, Step::Pull { to, from, max })?;
    let was_taken = moves(
        stage,
        Step::Event(FrameStep::Take {
            node: to,
            peer: from,
        }),
    )?;
    Ok(either(was_put, either(was_pulled, was_taken)))
}

/// Makes a step; whether a byte moved or an event happened.
fn moves(stage: &mut Stage, step: Step) -> Result<bool, Halt>
    ensures { IfOk result (λ moved. MovesBy step moved (view_of stage.old.world) (view_of stage.new.world)) }
{
    let stepped = stage.step(&step, true);
    // By a call: its forms are not written out here.
    drop(step);
    match stepped {
        Ok(stepped) => has_moved(stepped),
        Err(AllocError) => Err(Halt::OutOfMemory),
    }
}

/// Whether a step that was made moved a byte or was an event.
fn has_moved(stepped: Result<Stepped, NodeFault>) -> Result<bool, Halt>
    ensures { IfOk result (λ moved. moved_by stepped ≡ Some moved) }
{
    match stepped {
        Ok(Stepped::Nothing) => Ok(false),
        Ok(Stepped::Moved(count)) => Ok(count != 0),
        Ok(_) => Ok(true),
        Err(NodeFault::Refused(Refusal::NodeLost)) => Ok(false),
        Err(fault) => Err(Halt::Refused(fault)),
    }
}
