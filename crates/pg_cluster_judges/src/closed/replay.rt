//! The steps that the logs of a cluster are, made one after another: there is no list of them all.

ghost use Rattle.std.specs.Prelude.{◌≡◌, ◌++◌, IfOk, IfErr, OnOk, map, List};
ghost use Rattle.pg_world.specs.PgWorldPackets.Openings.{CantBegin};
ghost use Rattle.pg_world.specs.PgWorldPackets.declared.step.FrameStep.{FrameStep};
ghost use Rattle.pg_world.specs.PgStep.Config.{Config as Configuration};
ghost use Rattle.pg_cluster_judges.specs.Replay.{HasMade, HasMadeAll, MadeOn};
ghost use Rattle.pg_cluster_judges.specs.Schedule.{seen_step, steps_at, steps_behind};

use crate::closed::schedule::{add_with_loss, first_losses};
use pg_node_run::LogEntry;
use pg_world::{
    Config, FrameStep, FrameWorld, IndexTable, WorldFault, each_world_past_losses, fault_or_memory,
    run_frames,
};
use std::alloc::{AllocError, Global};

/// A world that has made steps, and the number of each, as `FrameWorld::run` gives it.
#[derive(Drop)]
pub(crate) struct Replay {
    pub world: FrameWorld<IndexTable>,
    pub numbers: Vec<u8>,
}

/// What the steps lead to that the entries of these logs are, in this order, with the losses of these nodes, from the
/// start of a configuration.
///
/// Errors: those of `run_frames`.
///
/// Cost: that of the steps, a byte for each, and the memory of one step.
pub(crate) fn replay_all(
    alloc: Global,
    config: &Config,
    logs: &[Vec<LogEntry>],
    lost: &[bool],
    order: &[(usize, usize)],
) -> Result<Replay, WorldFault>
    ensures ok { IfOk result (HasMadeAll config.now.starts.items (map (λ v. v.items) logs.now) lost.now order.now) }
    ensures fault { IfErr result (CantBegin config.now.ring config.now.starts.items) }
{
    match first_losses(alloc, logs, lost, order) {
        Ok(first) => replay_behind(alloc, config, logs, lost, order, first.as_slice()),
        Err(AllocError) => Err(fault_or_memory(alloc, config)),
    }
}

/// The same, where these are the losses of the nodes that did nothing.
fn replay_behind(
    alloc: Global,
    config: &Config,
    logs: &[Vec<LogEntry>],
    lost: &[bool],
    order: &[(usize, usize)],
    first: &[FrameStep],
) -> Result<Replay, WorldFault>
    ensures ok { IfOk result (MadeOn config.now.starts.items first.now (steps_behind (map (λ v. v.items) logs.now) lost.now order.now)) }
    ensures fault { IfErr result (CantBegin config.now.ring config.now.starts.items) }
{
    let mut replay = begun(alloc, config, first)?;
    match replay.make_entries(alloc, logs, lost, order) {
        Ok(()) => Ok(replay),
        Err(AllocError) => {
            drop(replay);
            Err(fault_or_memory(alloc, config))
        }
    }
}

/// A world that has made these steps from the start of a configuration.
fn begun(alloc: Global, config: &Config, first: &[FrameStep]) -> Result<Replay, WorldFault>
    ensures ok { IfOk result (HasMade config.now.starts.items first.now) }
    ensures fault { IfErr result (CantBegin config.now.ring config.now.starts.items) }
{
    match run_frames(alloc, config, first) {
        Ok((world, numbers)) => Ok(Replay { world, numbers }),
        Err(fault) => Err(fault),
    }
}

impl Replay {
    ghost use Rattle.std.specs.Prelude.{drop as rest_from};

    /// Makes the steps that these entries are, each by its log and its place there, and behind the last of a node that
    /// was lost its loss.
    ///
    /// Errors: `AllocError`.
    fn make_entries(
        &mut self,
        alloc: Global,
        logs: &[Vec<LogEntry>],
        lost: &[bool],
        order: &[(usize, usize)],
    ) -> Result<(), AllocError>
        ensures { OnOk result ((given : Configuration) (made : List FrameStep) → HasMade given made self.old
            → MadeOn given made (steps_behind (map (λ v. v.items) logs.now) lost.now order.now) self.new) }
    {
        for place in 0..order.len() {
            let at = order[place];
            let later = &order[place + 1..];
            self.make_entry(alloc, logs, lost, at, later)?;
        }
        Ok(())
    }

    /// Makes the step that the entry at a place of a log is, and behind the last of a node that was lost its loss.
    /// `later`: the entries that follow.
    ///
    /// Errors: `AllocError`.
    fn make_entry(
        &mut self,
        alloc: Global,
        logs: &[Vec<LogEntry>],
        lost: &[bool],
        at: (usize, usize),
        later: &[(usize, usize)],
    ) -> Result<(), AllocError>
        ensures { OnOk result ((given : Configuration) (made : List FrameStep) → HasMade given made self.old
            → MadeOn given made (steps_at (map (λ v. v.items) logs.now) lost.now at later.now) self.new) }
    {
        let mut steps = Vec::new(alloc);
        match add_with_loss(alloc, logs, lost, at, later, &mut steps) {
            Ok(()) => self.make(alloc, steps.as_slice()),
            Err(AllocError) => Err(AllocError),
        }
    }

    /// Makes these steps, one after another.
    ///
    /// Errors: `AllocError`.
    fn make(&mut self, alloc: Global, steps: &[FrameStep]) -> Result<(), AllocError>
        ensures { OnOk result ((given : Configuration) (made : List FrameStep) → HasMade given made self.old
            → HasMade given (made ++ steps.now) self.new) }
    {
        each_world_past_losses();
        let mut numbers = Vec::from_elem(alloc, 0, steps.len())?;
        self.world.run(steps, &mut numbers);
        self.numbers.extend_from_slice(numbers.as_slice())
    }
}
