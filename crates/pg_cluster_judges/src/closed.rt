//! A cluster whose threads have ended.

ghost use Rattle.std.specs.Prelude.{◌≡◌, IfOk, IfErr, map, length};
ghost use Rattle.pg_cluster_judges.specs.Schedule.{NobodyLost};

mod history;
mod judges;
mod laws;
mod nodes;
mod replay;
mod same;
mod schedule;
mod survivors;

use crate::closed::replay::{Replay, replay_all};
use crate::closed::schedule::steps_with_losses;
use crate::order::order_of_logs;
pub use laws::{
    nodes_of_one_run_agree, one_losing_run_replays, one_run_replays, survivors_of_one_run_agree,
};
use pg_node_run::{Client, LogEntry};
use pg_world::{Config, FrameStep, IndexTable, Node, WorldFault};
use std::alloc::{AllocError, Global};

/// How many turns the thread of a node made.
#[derive(Clone, Copy, Debug, PartialEq, Eq)]
pub struct TurnCount {
    /// How many it made; that in which it was stopped counts not.
    pub made: u64,
    /// How many of them were short.
    pub short: u64,
}

/// A cluster whose threads have ended, without the order of its logs' entries.
#[derive(Drop)]
pub struct Stopped {
    nodes: Vec<Node<IndexTable>>,
    logs: Vec<Vec<LogEntry>>,
    turns: Vec<TurnCount>,
    clients: Vec<Client>,
    // Which of the nodes were lost.
    lost: Vec<bool>,
    alloc: Global,
}

/// A cluster that has ended.
#[derive(Drop)]
pub struct Closed {
    /// The nodes as they ended.
    pub nodes: Vec<Node<IndexTable>>,
    /// The log of each node: its events with the clocks that they set.
    pub logs: Vec<Vec<LogEntry>>,
    /// How many turns each node made.
    pub turns: Vec<TurnCount>,
    /// The order in which the events of all nodes happened, as steps of one world: each by its node and its place in
    /// the log of that. By their clocks, and at one clock by their nodes. `schedule` gives the steps.
    pub order: Vec<(usize, usize)>,
    /// The clients, those of the first node first.
    pub clients: Vec<Client>,
    /// Which of the nodes were lost.
    pub lost: Vec<bool>,
}

impl Stopped {
    ghost use Rattle.pg_cluster_judges.specs.Closed.{HasSteps, IsByClock, IsOneLosingRun, IsOneRun, JoinsToOneLosingRun, JoinsToOneRun};
    ghost use Rattle.pg_cluster_judges.specs.Closed.{nodes_of, logs_of, turns_of, losses_of, clients_of};
    ghost use Rattle.pg_cluster_judges.specs.Judges.{Agree};
    ghost use Rattle.pg_cluster_judges.specs.Survivors.{SurvivorsAgree};
    ghost use Rattle.pg_world.specs.PgStep.Config.{Config as Configuration};

    /// A cluster whose threads have ended.
    ///
    /// Cost: no memory.
    pub fn new(
        alloc: Global,
        nodes: Vec<Node<IndexTable>>,
        logs: Vec<Vec<LogEntry>>,
        turns: Vec<TurnCount>,
        clients: Vec<Client>,
        lost: Vec<bool>,
    ) -> Stopped
        ensures nodes { nodes_of result ≡ nodes.items }
        ensures logs { logs_of result ≡ map (λ v. v.items) logs.items }
        ensures turns { turns_of result ≡ turns.items }
        ensures clients { clients_of result ≡ clients.items }
        ensures lost { losses_of result ≡ lost.items }
    {
        Stopped {
            nodes,
            logs,
            turns,
            clients,
            lost,
            alloc,
        }
    }

    /// The nodes as they ended, their logs, and the order in which the entries of these happened.
    ///
    /// Errors: where there is no memory for the order, what stopped, unchanged.
    ///
    /// Cost: a look at each log for each entry, and two words for each.
    pub fn finish(self) -> Result<Closed, Stopped>
        ensures nodes { IfOk result (λ closed. closed.nodes.items ≡ nodes_of self) }
        ensures logs { IfOk result (λ closed. map (λ v. v.items) closed.logs.items ≡ logs_of self) }
        ensures order { IfOk result IsByClock }
        ensures steps { IfOk result HasSteps }
        ensures one_run { IfOk result (λ closed. NobodyLost (losses_of self) → (given : Configuration) → JoinsToOneRun given (nodes_of self) (logs_of self)
            → IsOneRun given closed) }
        ensures agree { IfOk result (λ closed. NobodyLost (losses_of self) → (given : Configuration) → JoinsToOneRun given (nodes_of self) (logs_of self)
            → Agree closed.nodes.items closed.logs.items) }
        ensures losing_run { IfOk result (λ closed. (given : Configuration) → JoinsToOneLosingRun given (losses_of self) (nodes_of self) (logs_of self)
            → IsOneLosingRun given closed) }
        ensures survivors { IfOk result (λ closed. (given : Configuration) → JoinsToOneLosingRun given (losses_of self) (nodes_of self) (logs_of self)
            → length (logs_of self) ≡ length (nodes_of self) → ∥ SurvivorsAgree closed.nodes.items closed.lost.items closed.logs.items ∥₁) }
        ensures turns { IfOk result (λ closed. closed.turns.items ≡ turns_of self) }
        ensures clients { IfOk result (λ closed. closed.clients.items ≡ clients_of self) }
        ensures lost { IfOk result (λ closed. closed.lost.items ≡ losses_of self) }
        ensures err { IfErr result (λ stopped. stopped ≡ self) }
    {
        nodes_of_one_run_agree();
        survivors_of_one_run_agree();
        self.in_order()
    }

    /// The same, with the order of the logs' entries.
    ///
    /// Errors: where there is no memory for the order, what stopped, unchanged.
    fn in_order(self) -> Result<Closed, Stopped>
        ensures nodes { IfOk result (λ closed. closed.nodes.items ≡ nodes_of self) }
        ensures logs { IfOk result (λ closed. map (λ v. v.items) closed.logs.items ≡ logs_of self) }
        ensures order { IfOk result IsByClock }
        ensures turns { IfOk result (λ closed. closed.turns.items ≡ turns_of self) }
        ensures clients { IfOk result (λ closed. closed.clients.items ≡ clients_of self) }
        ensures lost { IfOk result (λ closed. closed.lost.items ≡ losses_of self) }
        ensures err { IfErr result (λ stopped. stopped ≡ self) }
    {
        match order_of_logs(self.alloc, self.logs.as_slice()) {
            Ok(order) => Ok(Closed {
                nodes: self.nodes,
                logs: self.logs,
                turns: self.turns,
                order,
                clients: self.clients,
                lost: self.lost,
            }),
            Err(AllocError) => Err(self),
        }
    }
}

impl Closed {
    ghost use Rattle.pg_world.specs.PgWorldPackets.Openings.{CantBegin};
    ghost use Rattle.pg_cluster_judges.specs.Closed.{AreStepsOf, logs_in};
    ghost use Rattle.pg_cluster_judges.specs.Replay.{HasMadeAll};

    /// The events of all nodes as steps of one world, in their order. The loss of each node that was lost comes after its
    /// last event, or first where it did nothing, and keeps as many packets for each other node as that takes later.
    ///
    /// Errors: `AllocError`.
    ///
    /// Cost: memory for each step, of 88 bytes and its command; for each loss, a walk over the entries after it for each
    /// other node.
    pub fn schedule(&self, alloc: Global) -> Result<Vec<FrameStep>, AllocError>
        ensures { IfOk result (λ steps. AreStepsOf self.now steps.items) }
    {
        let logs = self.logs.as_slice();
        steps_with_losses(alloc, logs, self.lost.as_slice(), self.order.as_slice())
    }

    /// What these steps lead to, made one after another from the start of a configuration.
    ///
    /// Errors: those of `run_frames`.
    pub(crate) fn replayed(&self, alloc: Global, config: &Config) -> Result<Replay, WorldFault>
        ensures ok { IfOk result (HasMadeAll config.now.starts.items (logs_in self.now) self.now.lost.items self.now.order.items) }
        ensures fault { IfErr result (CantBegin config.now.ring config.now.starts.items) }
    {
        let logs = self.logs.as_slice();
        replay_all(
            alloc,
            config,
            logs,
            self.lost.as_slice(),
            self.order.as_slice(),
        )
    }
}
