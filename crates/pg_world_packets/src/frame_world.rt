//! Worlds of packets: nodes to which events led from the start of a configuration.

ghost use Rattle.pg_world_packets.specs.Losing.{lost_of as lost_among};
ghost use Rattle.pg_world_packets.specs.Past.{FramesHavePast};
ghost use Rattle.pg_world_packets.specs.Worlds.{view_of as seen_as};

use crate::laws::pending_ends_are_listed;
use crate::step::{FrameStep, Stepped};
use crate::world::FrameNodes;
use pg_index::IndexTable;
use pg_laws_losses::each_world_past_losses;
use pg_node_state::{GroupTable, NodeFault, NodeState, Packet};
use pg_term::{Pid, Term};
use pg_world_account::Entry;
use pg_world_config::{Config, WorldFault};
use std::alloc::{AllocError, Global};
use std::collections::VecDeque;
use std::snapshot::Snapshot;

/// Nodes over packets, as they have come from the start of a configuration, and the packets on the way between them.
#[derive(Drop)]
pub struct FrameWorld<T: GroupTable> {
    frames: FrameNodes<T>,
    // The configuration, as clauses see it.
    given: Snapshot<Config>,
    pub ghost past: { ∥ FramesHavePast given.value.starts.items (seen_as frames) (lost_among frames) ∥₁ },
}

impl FrameWorld<IndexTable> {
    ghost use Rattle.std.specs.Prelude.{◌≡◌, [], true, IfOk, IfErr};
    ghost use Rattle.pg_ring.specs.Capacity.{IsCapacity};
    ghost use Rattle.pg_node_state.specs.PgStep.Config.{IsConfig};
    ghost use Rattle.pg_world_packets.specs.FrameWorlds.{view_of, lost_of, given_of};
    ghost use Rattle.pg_world_packets.specs.Openings.{AllFit, CantBegin, have_few};
    ghost use Rattle.pg_world_packets.specs.Starts.{Begins};

    /// The nodes of a configuration as they start, where what each of them announces of its groups is on the way to each
    /// other.
    ///
    /// Errors, the first that holds: those of `Config::check`; `TooLong`, where what a node announces takes more than a
    /// frame, as a group of more than 2^32 members does; `OutOfMemory`, which may come in the place of that `TooLong`
    /// where no group has so many members, and of no fault of `Config::check`.
    ///
    /// Cost: that of `Config::check`, of the groups of each node, once in its table and once for each peer, and for
    /// each node that of all names.
    pub fn new(alloc: Global, config: &Config) -> Result<FrameWorld<IndexTable>, WorldFault>
        ensures good { IfOk result (λ world. IsConfig config.now.starts.items × IsCapacity config.now.ring) }
        ensures fits { IfOk result (λ world. AllFit config.now.starts.items) }
        ensures few { IfOk result (λ world. have_few config.now.starts.items ≡ true) }
        ensures begins { IfOk result (λ world. Begins config.now.starts.items (view_of world)) }
        ensures given { IfOk result (λ world. given_of world ≡ config.now.starts.items) }
        ensures lost { IfOk result (λ world. lost_of world ≡ []) }
        ensures fault { IfErr result (CantBegin config.now.ring config.now.starts.items) }
    {
        each_world_past_losses();
        let given = Snapshot::of(config);
        match FrameNodes::new(alloc, config) {
            Ok(frames) => Ok(FrameWorld { frames, given }),
            Err(fault) => Err(fault),
        }
    }
}

impl<T: GroupTable + Drop> FrameWorld<T> {
    ghost use Rattle.std.specs.Prelude.{◌≡◌, ◌<◌, ◌↔◌, ◌++◌, [], true, false, IsTrue, Ok, IfOk};
    ghost use Rattle.std.specs.Prelude.{IfSome, OnErr, ℕ, length, map, option_map, slice_get};
    ghost use Rattle.std.specs.Option.{is_some, option_copied};
    ghost use Rattle.pg_node_state.specs.PgStep.Machines.Places.{is_pair};
    ghost use Rattle.pg_node_state.specs.PgNodeSends.Sent.{stamped_of};
    ghost use Rattle.pg_term.specs.declared.term.Term.{Term};
    ghost use Rattle.pg_node_state.specs.PgStep.Machines.Clocked.{plain};
    ghost use Rattle.pg_laws_losses.specs.PgLaws.History.{LockFree};
    ghost use Rattle.pg_node_state.specs.PgStep.Config.{Config as Configuration};
    ghost use Rattle.pg_node_state.specs.PgStep.LossLaws.{LosingFrameWorld};
    ghost use Rattle.pg_world_packets.specs.Alike.{AreAlikeWorlds};
    ghost use Rattle.pg_world_packets.specs.FrameWorlds.{view_of, traffic_of, lost_of, given_of};
    ghost use Rattle.pg_world_account.specs.Histories.{as_entry, last_entries};
    ghost use Rattle.pg_world_packets.specs.Losing.{formed_after, lost_after, told_of, ShowsLosing, LosingComesTo};
    ghost use Rattle.pg_world_account.specs.Losses.{is_lost};
    ghost use Rattle.pg_world_packets.specs.Past.{FormedFirst, FramesGoOn, HistoriesGrow, MissedInRun, missed_in};
    ghost use Rattle.pg_world_packets.specs.Pending.{AgreeOn, pending_of, sees_free};
    ghost use Rattle.pg_world_config.specs.Seen.{seen_of};
    ghost use Rattle.pg_world_packets.specs.Views.{on_the_way};
    ghost use Rattle.pg_world_packets.specs.Worlds.{TimedFrameWorld, ShowsWorld};

    /// The same world: it is seen as the same, and the same nodes are lost. The caller lends the configuration from
    /// which it began.
    ///
    /// Errors: `AllocError`.
    ///
    /// Cost: that of the copies of all that the world keeps.
    pub fn copy(&self, config: &Config) -> Result<FrameWorld<T>, AllocError>
        requires given { given_of self.now ≡ config.now.starts.items }
        ensures view { IfOk result (λ copy. view_of copy ≡ view_of self.now) }
        ensures lost { IfOk result (λ copy. lost_of copy ≡ lost_of self.now) }
        ensures given { IfOk result (λ copy. given_of copy ≡ given_of self.now) }
    {
        let given = Snapshot::of(config);
        let frames = self.frames.copy()?;
        Ok(FrameWorld { frames, given })
    }

    /// Whether both worlds are alike: the same but for clocks and stamps. They have as many nodes, each the same as
    /// the one at its place but for its clock, and the same packets on each way but for their stamps. The same nodes
    /// are lost, each group has the same history, and each node has applied as many of its updates. What was missed, and
    /// whether all were formed at the first loss, may differ.
    ///
    /// Errors: `AllocError`. It ends at the first difference.
    ///
    /// Cost: that of `NodeState::is_alike` for each node, which alone takes memory, and a walk over the packets on
    /// the way and over the histories, with O(log n) in the groups that were named for each group and each node.
    pub fn is_alike(&self, other: &FrameWorld<T>) -> Result<bool, AllocError>
        ensures { IfOk result (λ alike. IsTrue alike ↔ AreAlikeWorlds (view_of self.now) (lost_of self.now) (view_of other.now) (lost_of other.now)) }
    {
        self.frames.is_alike(&other.frames)
    }

    /// The node at a place.
    ///
    /// Cost: no memory.
    pub fn node(&self, place: usize) -> Option<&NodeState<T>>
        ensures { option_map seen_of (option_copied result) ≡ slice_get (view_of self.now).traffic.nodes place }
    {
        self.frames.nodes.get(place)
    }

    /// The updates of a group in the order in which they got their last grant, each with its node and its command: a
    /// slice, and one more after it, where the last event began it.
    ///
    /// Cost: no memory; O(log n) in the groups that were named.
    pub fn history(&self, name: &Term) -> (&[Entry], Option<&Entry>)
        ensures { map as_entry result.0.now ++ last_entries (option_copied result.1) ≡ (view_of self.now).account.histories name.now }
    {
        self.frames.histories.history(name)
    }

    /// How many updates of a group a node has applied: those that it began, and those that it took of its peers.
    ///
    /// Cost: no memory; O(log n) in the groups that were named.
    pub fn applied(&self, node: usize, name: &Term) -> u128
        ensures { result ≡ (view_of self.now).account.applied node name.now }
    {
        self.frames.histories.applied(node, name)
    }

    /// Whether a node is there that sees the lock of a group free. Where it does, and no node is lost, each node has applied all of
    /// the group's history.
    ///
    /// Cost: no memory; O(log n) in the names that have a holder there.
    pub fn lock_free(&self, node: usize, name: &Term) -> bool
        ensures sees { result ≡ sees_free (traffic_of self.now).nodes node name.now }
        ensures free { node < length (traffic_of self.now).nodes → (config : Configuration) (w : TimedFrameWorld) → ShowsWorld config (view_of self.now) w
            → IsTrue result ↔ LockFree (plain w) node name.now }
        ensures applied { IsTrue result → lost_of self.now ≡ [] → (i : ℕ) → i < length (traffic_of self.now).nodes
            → (view_of self.now).account.applied i name.now ≡ length ((view_of self.now).account.histories name.now) }
    {
        node < self.frames.nodes.len() && self.sees_free(node, name)
    }

    /// Whether a node sees the lock of a group free.
    fn sees_free(&self, node: usize, name: &Term) -> bool
        requires place { node < length (traffic_of self.now).nodes }
        ensures sees { result ≡ sees_free (traffic_of self.now).nodes node name.now }
        ensures free { (config : Configuration) (w : TimedFrameWorld) → ShowsWorld config (view_of self.now) w
            → IsTrue result ↔ LockFree (plain w) node name.now }
        ensures applied { IsTrue result → lost_of self.now ≡ [] → (i : ℕ) → i < length (traffic_of self.now).nodes
            → (view_of self.now).account.applied i name.now ≡ length ((view_of self.now).account.histories name.now) }
    {
        let frames = &self.frames;
        let state = &frames.nodes[node];
        state.holder(name).is_none()
    }

    /// The packets on the way from one node to another, the first to be taken first; `None` unless both are there and
    /// differ.
    ///
    /// Cost: no memory.
    pub fn on_way(&self, from: usize, to: usize) -> Option<&VecDeque<Packet>>
        ensures there { is_some result ≡ is_pair (length (traffic_of self.now).nodes) to from }
        ensures packets { IfSome result (λ packets. map stamped_of packets.now.items ≡ on_the_way (traffic_of self.now) from to) }
    {
        self.frames.on_way(from, to)
    }

    /// Whether a node is lost.
    ///
    /// Cost: no memory; O(n) in the nodes that are lost.
    pub fn is_lost(&self, node: usize) -> bool
        ensures { result ≡ is_lost (lost_of self.now) node }
    {
        self.frames.losses.has(node)
    }

    /// What the losses that a node has seen took along of a group: the updates by nodes whose loss it has seen that it has not applied,
    /// each with its node and its command, in the order of the history; none where no such node is there.
    ///
    /// Of a node that is not lost: it is one at most of each lost node, and none was answered. The rest of the history, up to what
    /// it has applied, makes its table, of its own groups and those of the exchanges that it took, less the ended (`TakenAlong`).
    ///
    /// Errors: `AllocError`.
    ///
    /// Cost: O(log n) in the groups that were named, a mark for each node, a walk over the history of the group, and a copy of each
    /// update that is missed.
    pub fn missed(&self, node: usize, name: &Term) -> Result<Vec<Entry>, AllocError>
        ensures list { IfOk result (λ missed. map as_entry missed.items ≡ missed_in (traffic_of self.now).nodes (view_of self.now).account node name.now) }
        ensures along { node < length (traffic_of self.now).nodes → is_lost (lost_of self.now) node ≡ false
            → IfOk result (λ missed. ∥ MissedInRun (given_of self.now) (view_of self.now) (lost_of self.now) node name.now (map as_entry missed.items) ∥₁) }
    {
        self.frames.missed(node, name)
    }

    /// Whether every node was formed when the first was lost; yes too where none is lost. Where it is yes, formed live nodes
    /// agree on a group of which they have applied the same updates, once each has seen each loss and no end is pending among them.
    ///
    /// Cost: no memory.
    pub fn formed_at_first_loss(&self) -> bool
        ensures told { result ≡ (view_of self.now).account.formed }
        ensures run { ∥ FormedFirst (given_of self.now) (view_of self.now) (lost_of self.now) result ∥₁ }
    {
        self.frames.histories.formed_at_first_loss()
    }

    /// The ends that are pending: each is that of a process whose home has it, and which some node has not. Of nodes
    /// that are lost nothing counts. They are listed home by home, and by number at each.
    ///
    /// Where the list is empty, no node is lost and one node sees the lock of a group free, formed nodes have the
    /// same of that group.
    ///
    /// Errors: `AllocError`.
    ///
    /// Cost: a search at each live node for each process that has ended at its home, and the memory of the
    /// list.
    pub fn pending_ends(&self) -> Result<Vec<Pid>, AllocError>
        ensures list { IfOk result (λ pids. pids.items ≡ pending_of (traffic_of self.now).nodes (lost_of self.now)) }
        ensures agree { IfOk result (λ pids. pids.items ≡ [] → lost_of self.now ≡ [] → (x : ℕ) (name : Term)
            → sees_free (traffic_of self.now).nodes x name ≡ true → AgreeOn (traffic_of self.now).nodes name) }
    {
        pending_ends_are_listed();
        self.frames.pending_ends()
    }

    /// Makes one step. The events that led to the world lead on: where the step happened its event is one more, and
    /// the last. Of all of them, and of the world to which they lead, everything holds that `LossesSurvived` says,
    /// and where no node is lost all that `OneHistory` says. Each history grows.
    ///
    /// Whatever world of the machine with losses the world shows, the step is its event there, and the world shows what it leaves.
    /// Where no node is lost it is an event of the frame machine.
    ///
    /// Errors, which change nothing, the first that holds: `Refused` by `NoSuchPlace` where a node, a port or a peer
    /// is not there, or a node would take from itself; those of `NodeState::take`, `command` and `retry`;
    /// `OutOfMemory` may come in the place of each after `NoSuchPlace`, as room for what is sent is made before
    /// anything changes. It never comes in the place of `NoSuchPlace`, `NodeLost`, `NotLost` or `NotDrained`.
    ///
    /// A step of a node that is lost is refused by `NodeLost`, after `NoSuchPlace`, and so is a take of a peer whose loss was
    /// seen. `SeeLoss`: `NoSuchPlace`; `NodeLost`, also where it was seen before; `NotLost`; `NotDrained` where a packet of the
    /// peer is on the way; `ClockFull`. `Lose`: `NoSuchPlace`, also where `keep` has not one number for each peer, or more
    /// should stay than are on the way; `NodeLost`.
    ///
    /// Cost: that of the call of `NodeState`, O(log n) in the groups that were named, and memory for one more packet
    /// to each peer and one more entry of a history. `Lose`: O(packets that go) in the place of the call.
    pub fn step(&mut self, step: &FrameStep) -> Result<Stepped, NodeFault>
        ensures goes_on { ∥ FramesGoOn (given_of self.old) (view_of self.old) (lost_of self.old) step.now result (view_of self.new) (lost_of self.new) ∥₁ }
        ensures grows { HistoriesGrow (view_of self.old).account (view_of self.new).account }
        ensures given { given_of self.new ≡ given_of self.old }
        ensures losing { (config : Configuration) (u : LosingFrameWorld) → ShowsLosing config (view_of self.old) (lost_of self.old) u
            → LosingComesTo config u (told_of config u step.now) result (ShowsLosing config (view_of self.new) (lost_of self.new)) }
        ensures lost { lost_of self.new ≡ lost_after step.now result (lost_of self.old) }
        ensures formed { (view_of self.new).account.formed
            ≡ formed_after step.now result (traffic_of self.old).nodes (lost_of self.old) (view_of self.old).account.formed }
        ensures nothing { result ≡ Ok Stepped.Nothing → view_of self.new ≡ view_of self.old }
        ensures err { OnErr result (view_of self.new ≡ view_of self.old) }
    {
        each_world_past_losses();
        self.frames.step(step)
    }
}
