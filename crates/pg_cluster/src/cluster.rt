//! A cluster between its start and its end.

ghost use Rattle.std.specs.Prelude.{◌≡◌, ◌↔◌, ◌⊎◌, ◌≤◌, true, Some, Err, IfOk, IfErr, OnOk, OnErr};
ghost use Rattle.std.specs.Prelude.{MatchResult, length, map, slice_get, slice_set, vec_len, vec_capacity};
ghost use Rattle.std.specs.List.{All as AllOf};
ghost use Rattle.pg_ring.specs.Slots.{AreSlots};
ghost use Rattle.pg_cluster.specs.Clients.{AllPairs, ports_begun};
ghost use Rattle.pg_cluster.specs.Ended.{AreWired};
ghost use Rattle.pg_cluster.specs.Members.{lasts_in, losses_in, threads_in};
ghost use Rattle.pg_cluster.specs.Notices.{HaveNoticeRoom, HasNoNotice as IsSilentTeller, SaysLost};
ghost use Rattle.pg_cluster_judges.specs.Schedule.{NobodyLost as IsNobodyLost};
ghost use Rattle.pg_cluster.specs.Room.{HasClosingRoom};
ghost use Rattle.pg_cluster.specs.Threads.{rows_begun, notices_begun};

use crate::closing::{Room, stopped_of};
use crate::fault::StartFault;
use crate::laws::{threads_are_one_losing_run, threads_are_one_run};
use crate::member::Member;
use crate::notices::{Teller, tell_all};
use crate::promise::NodeRan;
use crate::runs::make;
use crate::threads::{start_all, stop_all, stop_one};
use pg_cluster_judges::{
    Client, Closed, Config, Gate, NodeFault, Refusal, Stopped, fault_or_memory,
    nodes_of_one_run_agree, survivors_of_one_run_agree,
};
use pg_ring::RingOut;
use rand_core::Rng;
use std::alloc::{AllocError, Global};
use std::sync::Arc;
use std::thread::Threads;
use std::time::Clock;

/// The nodes of a configuration, each in a thread of its own until it is lost.
#[derive(Drop)]
pub struct Cluster<K: Rng + Drop> {
    members: Vec<Member<K>>,
    stops: Vec<RingOut>,
    // Where each is told of losses.
    tellers: Vec<Teller>,
    // Where what the threads give back goes, and which nodes were lost.
    rans: Vec<NodeRan<K>>,
    lost: Vec<bool>,
    room: Room,
    alloc: Global,
    ghost lost_fit: { (vec_len lost ≡ 0) × (vec_len members ≤ vec_capacity lost) },
    ghost rans_fit: { (vec_len rans ≡ 0) × (vec_len members ≤ vec_capacity rans) },
    ghost room_fits: { HasClosingRoom room (vec_len members) (length (ports_begun (threads_in members.items))) },
    ghost wired: { AreWired (length (threads_in members.items)) (rows_begun (threads_in members.items)) },
    ghost told: { AllPairs AreSlots tellers.items (notices_begun (threads_in members.items)) },
    ghost roomy: { HaveNoticeRoom (losses_in members.items) tellers.items },
    ghost untold: { IsNobodyLost (losses_in members.items) → AllOf IsSilentTeller tellers.items },
    ghost says: { ∥ SaysLost (losses_in members.items) (lasts_in members.items) tellers.items ∥₁ },
}

/// Room for what the threads of a cluster give back, and for which of its nodes were lost.
#[derive(Drop)]
struct Kept<K: Rng + Drop> {
    rans: Vec<NodeRan<K>>,
    lost: Vec<bool>,
    room: Room,
}

impl<K: Rng + Drop> Kept<K> {
    ghost use Rattle.std.specs.Prelude.{vec_len, vec_capacity};
    ghost use Rattle.pg_cluster.specs.Room.{HasClosingRoom as IsRoomFor};

    /// Room for so many nodes, with so many ports.
    ///
    /// Errors: `AllocError`.
    fn with_capacity(alloc: Global, nodes: usize, ports: usize) -> Result<Kept<K>, AllocError>
        ensures rans { IfOk result (λ kept. (vec_len kept.rans ≡ 0) × (nodes ≤ vec_capacity kept.rans)) }
        ensures lost { IfOk result (λ kept. (vec_len kept.lost ≡ 0) × (nodes ≤ vec_capacity kept.lost)) }
        ensures room { IfOk result (λ kept. IsRoomFor kept.room nodes ports) }
    {
        let rans = Vec::with_capacity(alloc, nodes)?;
        let lost = Vec::with_capacity(alloc, nodes)?;
        let room = Room::with_capacity(alloc, nodes, ports)?;
        Ok(Kept { rans, lost, room })
    }
}

impl<K: Rng + Drop + Send + 'static> Cluster<K> {
    ghost use Rattle.pg_cluster_judges.specs.PgNodeRun.Ports.{IsSilent};
    ghost use Rattle.pg_cluster.specs.Clients.{AreClients, ClientsRest, AllHeard};
    ghost use Rattle.pg_cluster.specs.Clusters.{AllTold, NoticesCame, tellers_of};
    ghost use Rattle.pg_cluster_judges.specs.Closed.{JoinsToOneLosingRun, JoinsToOneRun};
    ghost use Rattle.pg_cluster_judges.specs.Closed.{HasSteps, IsByClock, IsOneLosingRun, IsOneRun};
    ghost use Rattle.pg_cluster.specs.Clusters.{threads_of, lost_of};
    ghost use Rattle.pg_cluster_judges.specs.Closed.{nodes_of, logs_of, turns_of, losses_of, clients_of};
    ghost use Rattle.pg_cluster.specs.Fault.{CantRun};
    ghost use Rattle.pg_cluster_judges.specs.Schedule.{NobodyLost};
    ghost use Rattle.pg_cluster_judges.specs.PgNodeState.declared.state.fault.NodeFault.TheVariants.{Refused};
    ghost use Rattle.pg_cluster_judges.specs.PgStep.declared.refusal.Refusal.TheVariants.{NoSuchPlace, NodeLost};
    ghost use Rattle.std.specs.List.{All};
    ghost use Rattle.pg_cluster.specs.Threads.{AreMade, EndedWith, HaveRings, begun_by, limit_of};
    ghost use Rattle.pg_cluster_judges.specs.PgNodeRun.Runs.{generator_of};
    ghost use Rattle.pg_cluster_judges.specs.PgStep.Config.{Config as Configuration};
    ghost use Rattle.pg_cluster_judges.specs.Judges.{Agree};
    ghost use Rattle.pg_cluster_judges.specs.PgWorldPackets.Openings.{CanBegin};
    ghost use Rattle.pg_cluster_judges.specs.Survivors.{SurvivorsAgree};

    /// Starts a thread for each node of a configuration, with rings of so many bytes between them: the cluster, and a
    /// client for each port, those of the first node first. `generators`: of the pauses, one for each node. `gate`:
    /// what each node passes at the start of each turn. `clock`: that by which a node sleeps which finds nothing to do,
    /// as `Rest` of pg_node_run says; each thread has its own. `limit`: how many turns a node makes at most. It may wait for
    /// threads.
    ///
    /// Errors: `World`, exactly as `World::new` gives them; `NoThread`, where a thread can't be started: those that
    /// run are stopped and joined.
    ///
    /// Cost: that of `starting_nodes` of pg_world, of two rings for each two nodes, of two rings of 64 places for
    /// each port, and of a thread for each node.
    pub fn start<
        G: Gate + Drop + Send + Sync + 'static,
        C: Clock + Clone + Drop + Send + 'static,
        R: Threads,
    >(
        rt: &R,
        alloc: Global,
        config: &Config,
        generators: Vec<K>,
        gate: G,
        clock: C,
        limit: u64,
    ) -> Result<(Cluster<K>, Vec<Client>), StartFault>
        requires generators { length generators.items ≡ length config.now.starts.items }
        ensures can { IfOk result (λ started. CanBegin config.now.ring config.now.starts.items) }
        ensures starts { IfOk result (λ started. AreMade config.now.starts.items (map begun_by (threads_of started.0))) }
        ensures rings { IfOk result (λ started. HaveRings config.now.ring (map begun_by (threads_of started.0))) }
        ensures generators { IfOk result (λ started. map generator_of (map begun_by (threads_of started.0)) ≡ generators.items) }
        ensures limit { IfOk result (λ started. All (λ thread. limit_of thread ≡ limit) (threads_of started.0)) }
        ensures clients { IfOk result (λ started. AreClients (threads_of started.0) started.1.items) }
        ensures silent { IfOk result (λ started. All IsSilent started.1.items) }
        ensures lost { IfOk result (λ started. NobodyLost (lost_of started.0)) }
        ensures fault { IfErr result (CantRun config.now.ring config.now.starts.items) }
    {
        let Ok(gate) = Arc::new(alloc, gate) else {
            return Err(StartFault::World(fault_or_memory(alloc, config)));
        };
        let made = make(alloc, config, generators)?;
        let kept = match Kept::with_capacity(alloc, made.runs.len(), made.clients.len()) {
            Ok(kept) => kept,
            Err(AllocError) => {
                drop(made);
                return Err(StartFault::World(fault_or_memory(alloc, config)));
            }
        };
        let mut stops = made.stops;
        match start_all(rt, alloc, made.runs, &mut stops, &gate, &clock, limit) {
            Ok(members) => {
                let cluster = Cluster {
                    members,
                    stops,
                    tellers: made.tellers,
                    rans: kept.rans,
                    lost: kept.lost,
                    room: kept.room,
                    alloc,
                };
                Ok((cluster, made.clients))
            }
            Err(fault) => {
                drop(stops);
                drop(made.tellers);
                drop(made.clients);
                drop(kept);
                Err(fault)
            }
        }
    }

    /// A node is lost for good: its thread is stopped and joined, and each other node is told of it, with the clock
    /// of the node at last. `node`: its place. What it had sent and what had reached the others by then they still
    /// take. It waits for the thread.
    ///
    /// Errors, which change nothing: `Refused` by `NoSuchPlace` where there is no such node, and by `NodeLost` where
    /// it was lost before.
    ///
    /// Cost: no memory; O(n) in the nodes.
    pub fn lose<R: Threads>(&mut self, rt: &R, node: usize) -> Result<(), NodeFault>
        ensures place { (result ≡ Err (Refused NoSuchPlace)) ↔ (length (lost_of self.old) ≤ node) }
        ensures again { (result ≡ Err (Refused NodeLost)) ↔ (slice_get (lost_of self.old) node ≡ Some true) }
        ensures fault { IfErr result (λ fault. (fault ≡ Refused NoSuchPlace) ⊎ (fault ≡ Refused NodeLost)) }
        ensures lost { OnOk result (lost_of self.new ≡ slice_set (lost_of self.old) node true) }
        ensures told { OnOk result (AllTold node self.old self.new) }
        ensures err { OnErr result (self.new ≡ self.old) }
        ensures threads { threads_of self.new ≡ threads_of self.old }
    {
        if node >= self.members.len() {
            return Err(NodeFault::Refused(Refusal::NoSuchPlace));
        }
        if self.members[node].is_lost() {
            return Err(NodeFault::Refused(Refusal::NodeLost));
        }
        stop_one(&mut self.stops, node);
        let member = &mut self.members[node];
        let last = member.stop(rt);
        tell_all(&mut self.tellers, node, last);
        Ok(())
    }

    /// Stops the threads and joins them: the nodes as they ended, their logs, and the order of the entries of these. The
    /// steps that they are, in this order, are one run of the configuration that was started, of the machine with
    /// losses where nodes were lost, and what of that which the clients said and heard is in it. `clients`: those that
    /// `start` gave, in their order. It may wait for threads.
    ///
    /// Errors: where there is no memory for the order, what stopped, of which `finish` tries again.
    ///
    /// Cost: that of `Stopped::finish`. To stop takes no memory; both ends of each ring and of each port are looked
    /// at.
    pub fn close<R: Threads>(self, rt: &R, clients: Vec<Client>) -> Result<Closed, Stopped>
        requires clients { AreClients (threads_of self) clients.items }
        ensures ended { MatchResult result
            (λ closed. ∥ EndedWith (lost_of self) (threads_of self) closed.nodes.items (map (λ v. v.items) closed.logs.items)
            closed.turns.items ∥₁)
            (λ stopped. ∥ EndedWith (lost_of self) (threads_of self) (nodes_of stopped) (logs_of stopped)
            (turns_of stopped) ∥₁) }
        ensures one_run { IfOk result (λ closed. NobodyLost (lost_of self) → (given : Configuration) → AreMade given (map begun_by (threads_of self))
            → IsOneRun given closed) }
        ensures agree { IfOk result (λ closed. NobodyLost (lost_of self) → (given : Configuration) → AreMade given (map begun_by (threads_of self))
            → Agree closed.nodes.items closed.logs.items) }
        ensures order { IfOk result IsByClock }
        ensures steps { IfOk result HasSteps }
        ensures losing_run { IfOk result (λ closed. (given : Configuration) → AreMade given (map begun_by (threads_of self))
            → IsOneLosingRun given closed) }
        ensures survivors { IfOk result (λ closed. (given : Configuration) → AreMade given (map begun_by (threads_of self))
            → ∥ SurvivorsAgree closed.nodes.items closed.lost.items closed.logs.items ∥₁) }
        ensures heard { MatchResult result
            (λ closed. (given : Configuration) → AreMade given (map begun_by (threads_of self))
            → ∥ AllHeard (threads_of self) closed.nodes.items (map (λ v. v.items) closed.logs.items) clients.items ∥₁)
            (λ stopped. (given : Configuration) → AreMade given (map begun_by (threads_of self))
            → ∥ AllHeard (threads_of self) (nodes_of stopped) (logs_of stopped) clients.items ∥₁) }
        ensures lost { MatchResult result (λ closed. closed.lost.items ≡ lost_of self) (λ stopped. losses_of stopped ≡ lost_of self) }
        ensures joins { IfErr result (λ stopped. NobodyLost (lost_of self) → (given : Configuration) → AreMade given (map begun_by (threads_of self))
            → JoinsToOneRun given (nodes_of stopped) (logs_of stopped)) }
        ensures joins_losing { IfErr result (λ stopped. (given : Configuration) → AreMade given (map begun_by (threads_of self))
            → JoinsToOneLosingRun given (lost_of self) (nodes_of stopped) (logs_of stopped)) }
        ensures told { ∥ NoticesCame (tellers_of self) (threads_of self) ∥₁ }
        ensures clients { MatchResult result (λ closed. ClientsRest clients.items closed.clients.items) (λ stopped. ClientsRest clients.items (clients_of stopped)) }
    {
        let stopped = self.stop(rt, clients);
        threads_are_one_run::<K>();
        threads_are_one_losing_run::<K>();
        nodes_of_one_run_agree();
        survivors_of_one_run_agree();
        stopped.finish()
    }

    /// Stops the threads and joins them: what stopped. It may wait for threads.
    fn stop<R: Threads>(self, rt: &R, clients: Vec<Client>) -> Stopped
        requires clients { AreClients (threads_of self) clients.items }
        ensures ended { ∥ EndedWith (lost_of self) (threads_of self) (nodes_of result) (logs_of result)
            (turns_of result) ∥₁ }
        ensures alone { NobodyLost (lost_of self)
            → EndedWith (lost_of self) (threads_of self) (nodes_of result) (logs_of result) (turns_of result) }
        ensures heard { (given : Configuration) → AreMade given (map begun_by (threads_of self))
            → ∥ AllHeard (threads_of self) (nodes_of result) (logs_of result) clients.items ∥₁ }
        ensures lost { losses_of result ≡ lost_of self }
        ensures told { ∥ NoticesCame (tellers_of self) (threads_of self) ∥₁ }
        ensures clients { ClientsRest clients.items (clients_of result) }
    {
        let Cluster {
            members,
            mut stops,
            tellers,
            mut rans,
            mut lost,
            room,
            alloc,
        } = self;
        stop_all(&mut stops);
        for member in members {
            lost.push_reserved(member.is_lost());
            rans.push_reserved(member.join(rt));
        }
        stopped_of(alloc, rans, room, tellers, clients, lost)
    }
}
