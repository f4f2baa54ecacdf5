//! Worlds of bytes: nodes to which events led from the start of a configuration, however the bytes between them were cut.

ghost use Rattle.pg_world.specs.Crossings.{crossing_of as seen_as};
ghost use Rattle.pg_world_packets.specs.PgWorldAccount.Histories.{account_of as kept_by};
ghost use Rattle.pg_world_packets.specs.PgWorldAccount.Losses.{lost_in};
ghost use Rattle.pg_world.specs.BytesPast.{BytesHavePast};

use crate::bytes::ByteNodes;
use crate::step::Step;
use pg_node::{Node, NodeFault};
use pg_term::{Pid, Term};
use pg_world_packets::{
    Config, Entry, GroupTable, IndexTable, Stepped, WorldFault, each_world_past_losses,
    pending_ends_are_listed,
};
use std::alloc::{AllocError, Global};
use std::snapshot::Snapshot;

/// Nodes whose packets cross as bytes, as they have come from the start of a configuration, and the rings between them.
#[derive(Drop)]
pub struct World<T: GroupTable> {
    bytes: ByteNodes<T>,
    // The configuration, as clauses see it.
    given: Snapshot<Config>,
    pub ghost past: { ∥ BytesHavePast given.value.starts.items (seen_as bytes) (kept_by bytes.histories) (lost_in bytes.losses) ∥₁ },
}

impl World<IndexTable> {
    ghost use Rattle.std.specs.Prelude.{◌≡◌, [], true, IfOk, IfErr};
    ghost use Rattle.pg_world_packets.specs.PgRing.Capacity.{IsCapacity};
    ghost use Rattle.pg_world_packets.specs.PgStep.Config.{IsConfig};
    ghost use Rattle.pg_world.specs.BytesStart.{BytesBegin, OpensBytes};
    ghost use Rattle.pg_world.specs.ByteWorlds.{account_of, crossing_of, given_of, lost_of, room_of};
    ghost use Rattle.pg_world_packets.specs.Openings.{AllFit, CantBegin, have_few};

    /// The nodes of a configuration as they start, where what each of them announces of its groups is in its outbox
    /// to each other, and the ring from each to each other is empty.
    ///
    /// Errors: those of `FrameWorld::new`.
    ///
    /// Cost: that of `FrameWorld::new`, and of the rings.
    pub fn new(alloc: Global, config: &Config) -> Result<World<IndexTable>, WorldFault>
        ensures good { IfOk result (λ world. IsConfig config.now.starts.items × IsCapacity config.now.ring) }
        ensures fits { IfOk result (λ world. AllFit config.now.starts.items) }
        ensures few { IfOk result (λ world. have_few config.now.starts.items ≡ true) }
        ensures begins { IfOk result (λ world. BytesBegin config.now.starts.items (crossing_of world) (account_of world)) }
        ensures opens { IfOk result (λ world. OpensBytes config.now.starts.items (crossing_of world)) }
        ensures given { IfOk result (λ world. given_of world ≡ config.now.starts.items) }
        ensures room { IfOk result (λ world. room_of world ≡ config.now.ring) }
        ensures lost { IfOk result (λ world. lost_of world ≡ []) }
        ensures fault { IfErr result (CantBegin config.now.ring config.now.starts.items) }
    {
        each_world_past_losses();
        let given = Snapshot::of(config);
        match ByteNodes::new(alloc, config) {
            Ok(bytes) => Ok(World { bytes, given }),
            Err(fault) => Err(fault),
        }
    }
}

impl<T: GroupTable + Drop> World<T> {
    ghost use Rattle.std.specs.Prelude.{◌≡◌, ◌<◌, ◌+◌, ◌↔◌, ◌++◌, [], true, false, IsTrue};
    ghost use Rattle.std.specs.Prelude.{IfOk, IfSome, ℕ, length, map, option_map, slice_get};
    ghost use Rattle.std.specs.Option.{option_copied};
    ghost use Rattle.pg_term.specs.declared.term.Term.{Term};
    ghost use Rattle.pg_world_packets.specs.PgStep.Machines.Clocked.{plain};
    ghost use Rattle.pg_world_packets.specs.PgLaws.History.{LockFree};
    ghost use Rattle.pg_world_packets.specs.PgStep.Config.{Config as Configuration};
    ghost use Rattle.pg_world_packets.specs.PgStep.LossLaws.{LosingFrameWorld};
    ghost use Rattle.pg_world.specs.Bars.{RefusesBarred, StepTellsUndrained, bar_of, bytes_formed_after, bytes_lost_after};
    ghost use Rattle.pg_world.specs.BytesLosing.{ShowsLosingBytes, StepLeaves};
    ghost use Rattle.pg_world_packets.specs.Losing.{IsReachedLosing};
    ghost use Rattle.pg_world.specs.ByteWorlds.{account_of, crossing_of, given_of, lost_of, room_of};
    ghost use Rattle.pg_node.specs.Nodes.{has_lost, held_by, links_of};
    ghost use Rattle.pg_world_packets.specs.PgNodeState.States.{names_of};
    ghost use Rattle.pg_world.specs.Changes.{StepChanges};
    ghost use Rattle.pg_world.specs.Crossings.{node_of, ShowsCrossing};
    ghost use Rattle.pg_world_packets.specs.PgWorldAccount.Histories.{as_entry, last_entries};
    ghost use Rattle.pg_world_packets.specs.PgWorldAccount.Losses.{is_lost};
    ghost use Rattle.pg_world_packets.specs.Past.{HistoriesGrow};
    ghost use Rattle.pg_world_packets.specs.Past.{missed_in};
    ghost use Rattle.pg_world.specs.BytesPast.{BytesFormedFirst, BytesGoOn, BytesMissed};
    ghost use Rattle.pg_world_packets.specs.Pending.{AgreeOn, pending_of, sees_free};
    ghost use Rattle.pg_world_packets.specs.Worlds.{TimedFrameWorld};

    /// The node at a place, with its links, of which none is damaged. To a peer whose loss it has seen nothing goes out any more.
    ///
    /// Cost: no memory.
    pub fn node(&self, place: usize) -> Option<&Node<T>>
        ensures node { option_map node_of (option_copied result) ≡ slice_get (crossing_of self.now).nodes place }
        ensures links { option_map links_of (option_copied result) ≡ slice_get (crossing_of self.now).links place }
        ensures sound { IfSome result (λ node. (peer : ℕ) → peer + 1 < length (names_of (held_by node.now)) → (links_of node.now peer).damaged ≡ false) }
        ensures silent { IfSome result (λ node. (peer : ℕ) → peer + 1 < length (names_of (held_by node.now)) → has_lost (held_by node.now) peer ≡ true
            → (links_of node.now peer).outbox ≡ []) }
    {
        self.bytes.node(place)
    }

    /// The updates of a group in the order in which they got their last grant, each with its node and its command: a
    /// slice, and one more after it, where the last event began it.
    ///
    /// Cost: no memory; O(log n) in the groups that were named.
    pub fn history(&self, name: &Term) -> (&[Entry], Option<&Entry>)
        ensures { map as_entry result.0.now ++ last_entries (option_copied result.1) ≡ (account_of self.now).histories name.now }
    {
        self.bytes.histories.history(name)
    }

    /// How many updates of a group a node has applied: those that it began, and those that it took of its peers.
    ///
    /// Cost: no memory; O(log n) in the groups that were named.
    pub fn applied(&self, node: usize, name: &Term) -> u128
        ensures { result ≡ (account_of self.now).applied node name.now }
    {
        self.bytes.histories.applied(node, name)
    }

    /// Whether a node is there that sees the lock of a group free. Where it does, and no node is lost, each node has applied all of
    /// the group's history.
    ///
    /// Cost: no memory; O(log n) in the names that have a holder there.
    pub fn lock_free(&self, node: usize, name: &Term) -> bool
        ensures sees { result ≡ sees_free (crossing_of self.now).nodes node name.now }
        ensures free { node < length (crossing_of self.now).nodes → (config : Configuration) (w : TimedFrameWorld) → ShowsCrossing config (crossing_of self.now) w
            → IsTrue result ↔ LockFree (plain w) node name.now }
        ensures applied { IsTrue result → lost_of self.now ≡ [] → (i : ℕ) → i < length (crossing_of self.now).nodes
            → (account_of self.now).applied i name.now ≡ length ((account_of self.now).histories name.now) }
    {
        node < self.bytes.nodes.len() && self.sees_free(node, name)
    }

    /// Whether a node sees the lock of a group free.
    fn sees_free(&self, node: usize, name: &Term) -> bool
        requires place { node < length (crossing_of self.now).nodes }
        ensures sees { result ≡ sees_free (crossing_of self.now).nodes node name.now }
        ensures free { (config : Configuration) (w : TimedFrameWorld) → ShowsCrossing config (crossing_of self.now) w
            → IsTrue result ↔ LockFree (plain w) node name.now }
        ensures applied { IsTrue result → lost_of self.now ≡ [] → (i : ℕ) → i < length (crossing_of self.now).nodes
            → (account_of self.now).applied i name.now ≡ length ((account_of self.now).histories name.now) }
    {
        let bytes = &self.bytes;
        let over = &bytes.nodes[node];
        over.state().holder(name).is_none()
    }

    /// Whether a node is lost.
    ///
    /// Cost: no memory; O(n) in the nodes that are lost.
    pub fn is_lost(&self, node: usize) -> bool
        ensures { result ≡ is_lost (lost_of self.now) node }
    {
        self.bytes.losses.has(node)
    }

    /// What the losses that a node has seen took along of a group: the updates by nodes whose loss it has seen that it has not applied,
    /// each with its node and its command, in the order of the history; none where no such node is there.
    ///
    /// Of a node that is not lost: it is one at most of each lost node, and none was answered. The rest of the history, up to what
    /// it has applied, makes its table, of its own groups and those of the exchanges that it took, less the ended (`TakenAlong`).
    ///
    /// Errors: `AllocError`.
    ///
    /// Cost: O(log n) in the groups that were named, a mark for each node, a walk over the history of the group, and a copy of each
    /// update that is missed.
    pub fn missed(&self, node: usize, name: &Term) -> Result<Vec<Entry>, AllocError>
        ensures list { IfOk result (λ missed. map as_entry missed.items ≡ missed_in (crossing_of self.now).nodes (account_of self.now) node name.now) }
        ensures along { node < length (crossing_of self.now).nodes → is_lost (lost_of self.now) node ≡ false
            → IfOk result (λ missed. ∥ BytesMissed (given_of self.now) (crossing_of self.now) (account_of self.now) (lost_of self.now) node name.now (map as_entry missed.items) ∥₁) }
    {
        self.bytes.missed(node, name)
    }

    /// Whether every node was formed when the first was lost; yes too where none is lost. Where it is yes, formed live nodes
    /// agree on a group of which they have applied the same updates, once each has seen each loss and no end is pending among them.
    ///
    /// Cost: no memory.
    pub fn formed_at_first_loss(&self) -> bool
        ensures told { result ≡ (account_of self.now).formed }
        ensures run { ∥ BytesFormedFirst (given_of self.now) (crossing_of self.now) (account_of self.now) (lost_of self.now) result ∥₁ }
    {
        self.bytes.histories.formed_at_first_loss()
    }

    /// The ends that are pending: each is that of a process whose home has it, and which some node has not. Of nodes
    /// that are lost nothing counts. They are listed home by home, and by number at each.
    ///
    /// Where the list is empty, no node is lost and one node sees the lock of a group free, formed nodes have the
    /// same of that group.
    ///
    /// Errors: `AllocError`.
    ///
    /// Cost: a search at each live node for each process that has ended at its home, and the memory of the
    /// list.
    pub fn pending_ends(&self) -> Result<Vec<Pid>, AllocError>
        ensures list { IfOk result (λ pids. pids.items ≡ pending_of (crossing_of self.now).nodes (lost_of self.now)) }
        ensures agree { IfOk result (λ pids. pids.items ≡ [] → lost_of self.now ≡ [] → (x : ℕ) (name : Term)
            → sees_free (crossing_of self.now).nodes x name ≡ true → AgreeOn (crossing_of self.now).nodes name) }
    {
        pending_ends_are_listed();
        self.bytes.pending_ends()
    }

    /// Makes one step. The events that led to the world lead on: where the step is an event that happened, it is one
    /// more, and the last; bytes that move add none. Of all of them, and of the world to which they lead, everything
    /// holds that `LossesSurvived` says, and where no node is lost all that `OneHistory` says. Each history grows.
    ///
    /// Whatever world of the machine with losses the world shows, as events lead to it from the start of a configuration: an event
    /// that happens is its event there, and the world shows what it leaves; bytes that move leave it as it is. Where no node is
    /// lost it is an event of the frame machine.
    ///
    /// Errors, which change nothing, the first that holds: `Refused` by `NoSuchPlace` where a node, a port or a peer
    /// is not there, or a node and its peer are one; those of `NodeState::take`, once the whole frame has come, and of
    /// `command` and `retry`, of which `NotAMessage` never comes; `OutOfMemory` may come in the place of each, but not of
    /// `NoSuchPlace`, `NodeLost`, `NotLost` or `NotDrained`. No link is ever damaged.
    ///
    /// A step of a node that is lost, and a put from it, is refused by `NodeLost`, after `NoSuchPlace`, and so is a pull or a take
    /// of a peer whose loss was seen.
    /// `SeeLoss`: `NoSuchPlace`; `NodeLost`, also where it was seen before; `NotLost`; `NotDrained` where bytes of
    /// the peer are on the ring, or a whole frame of it has come; `ClockFull`. `Lose`: `NoSuchPlace`, `NodeLost`.
    ///
    /// Cost: that of the call of `Node`; for an event also O(log n) in the groups that were named, and memory for one
    /// more entry of a history. A loss: O(n) in the nodes that are lost.
    pub fn step(&mut self, step: &Step) -> Result<Stepped, NodeFault>
        ensures goes_on { ∥ BytesGoOn (given_of self.old) (crossing_of self.old) (account_of self.old) (lost_of self.old) step.now result (crossing_of self.new) (account_of self.new) (lost_of self.new) ∥₁ }
        ensures grows { HistoriesGrow (account_of self.old) (account_of self.new) }
        ensures given { given_of self.new ≡ given_of self.old }
        ensures losing { (config : Configuration) (u : LosingFrameWorld) → IsReachedLosing config u
            → ShowsLosingBytes config (crossing_of self.old) (account_of self.old) (lost_of self.old) u
            → StepLeaves config u step.now result (ShowsLosingBytes config (crossing_of self.new) (account_of self.new) (lost_of self.new)) }
        ensures changes { StepChanges (room_of self.old) (crossing_of self.old) (crossing_of self.new) step.now result }
        ensures barred { RefusesBarred (bar_of (crossing_of self.old) (lost_of self.old) step.now) result }
        ensures undrained { StepTellsUndrained (crossing_of self.old) step.now result }
        ensures lost { lost_of self.new ≡ bytes_lost_after step.now result (lost_of self.old) }
        ensures formed { (account_of self.new).formed
            ≡ bytes_formed_after step.now result (crossing_of self.old).nodes (lost_of self.old) (account_of self.old).formed }
        ensures room { room_of self.new ≡ room_of self.old }
    {
        each_world_past_losses();
        self.bytes.step(step)
    }
}
