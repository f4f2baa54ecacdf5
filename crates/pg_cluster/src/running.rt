//! A cluster with its clients and its configuration, in one hand.

ghost use Rattle.std.specs.Prelude.{map, IfOk, length, ◌≡◌};
ghost use Rattle.pg_cluster.specs.Clients.{AreClients};
ghost use Rattle.pg_cluster.specs.Clusters.{threads_of};
ghost use Rattle.pg_cluster_judges.specs.PgWorldPackets.Openings.{CanBegin};
ghost use Rattle.pg_cluster.specs.Seeds.{AreSeeded};
ghost use Rattle.pg_cluster.specs.Threads.{AreMade, begun_by};

use crate::cluster::Cluster;
use crate::fault::StartFault;
use pg_cluster_judges::{
    Answer, Client, Closed, Command, Config, Gate, NodeFault, Stopped, fault_or_memory,
};
use rand_pcg::Pcg32;
use std::alloc::{AllocError, Global};
use std::thread::Threads;
use std::time::Clock;

/// The stream of the generators of pauses.
const STREAM: u64 = 2;

/// A gate that lets every node into every turn.
#[derive(Drop)]
pub struct OpenGate;

impl Gate for OpenGate {
    fn pass(&self, _node: usize, _turn: u64, _clock: u32) {}
}

/// A cluster that runs, with a client for each port and the configuration that it was started with. A client is named by its place:
/// those of the first node come first, in the order of its ports.
#[derive(Drop)]
pub struct Running {
    cluster: Cluster<Pcg32>,
    clients: Vec<Client>,
    config: Config,
    ghost own: { AreClients (threads_of cluster) clients.items },
    ghost made: { ∥ AreMade config.starts.items (map begun_by (threads_of cluster)) ∥₁ },
    ghost can: { ∥ CanBegin config.ring config.starts.items ∥₁ },
}

impl Running {
    ghost use Rattle.std.specs.Prelude.{◌<◌, ◌+◌, ◌++◌, ◌∷◌, [], ◌↔◌, ◌≤◌, ◌⊎◌, true, get_or, IfErr, IfSome};
    ghost use Rattle.std.specs.Prelude.{IfNone, IsOk, IsSome, OnOk, OnErr, Some, Err, MatchResult, slice_get, slice_set};
    ghost use Rattle.std.specs.List.{All};
    ghost use mathlib.Core.List.{IsPrefix};
    ghost use Rattle.pg_cluster_judges.specs.PgNodeState.declared.state.fault.NodeFault.TheVariants.{Refused};
    ghost use Rattle.pg_cluster_judges.specs.PgNodeRun.Ports.{IsSilent, polled_count};
    ghost use Rattle.pg_cluster_judges.specs.PgNodeRun.declared.port.Client.{Client as ClientEnd};
    ghost use Rattle.pg_cluster_judges.specs.PgStep.declared.refusal.Refusal.TheVariants.{NoSuchPlace, NodeLost};
    ghost use Rattle.pg_cluster.specs.Clients.{AllHeard, ClientsRest};
    ghost use Rattle.pg_cluster.specs.Clusters.{AllTold};
    ghost use Rattle.pg_cluster_judges.specs.Closed.{HasSteps, IsByClock, IsOneLosingRun, IsOneRun, JoinsToOneLosingRun, JoinsToOneRun};
    ghost use Rattle.pg_cluster.specs.Clusters.{NoticesCame};
    ghost use Rattle.pg_cluster_judges.specs.Closed.{nodes_of, logs_of, turns_of, losses_of, clients_of};
    ghost use Rattle.pg_cluster.specs.Fault.{CantRun};
    ghost use Rattle.pg_cluster_judges.specs.Judges.{Agree};
    ghost use Rattle.pg_cluster_judges.specs.Schedule.{NobodyLost};
    ghost use Rattle.pg_cluster.specs.Running.{clients_in, config_in, tellers_in, threads_in};
    ghost use Rattle.pg_cluster.specs.Running.{losses_in, submitted_at, polled_at, free_at, left_at, OnlyClient};
    ghost use Rattle.pg_cluster.specs.Threads.{limit_of, EndedWith, HaveRings};
    ghost use Rattle.pg_cluster_judges.specs.PgNodeRun.Runs.{generator_of};
    ghost use Rattle.pg_cluster_judges.specs.Survivors.{SurvivorsAgree};

    /// Starts a thread for each node of a configuration, and a client for each port. `seed`: of the pauses of the
    /// first node; that of each further node is one more, and wraps. `gate`: what each node passes at the start of
    /// each turn. `clock`: that by which a node sleeps which finds nothing to do, as `Rest` says; each thread has its
    /// own. `limit`: how many turns a node makes at most. It may wait for threads.
    ///
    /// Errors: those of `Cluster::start`.
    ///
    /// Cost: that of `Cluster::start`, and one allocation.
    pub fn start<
        G: Gate + Drop + Send + Sync + 'static,
        C: Clock + Clone + Drop + Send + 'static,
        R: Threads,
    >(
        rt: &R,
        alloc: Global,
        config: Config,
        seed: u64,
        gate: G,
        clock: C,
        limit: u64,
    ) -> Result<Running, StartFault>
        ensures config { IfOk result (λ running. config_in running ≡ config) }
        ensures rings { IfOk result (λ running. HaveRings config.ring (map begun_by (threads_in running))) }
        ensures seeds { IfOk result (λ running. AreSeeded seed (map generator_of (map begun_by (threads_in running)))) }
        ensures limit { IfOk result (λ running. All (λ thread. limit_of thread ≡ limit) (threads_in running)) }
        ensures silent { IfOk result (λ running. All IsSilent (clients_in running)) }
        ensures lost { IfOk result (λ running. NobodyLost (losses_in running)) }
        ensures fault { IfErr result (CantRun config.ring config.starts.items) }
    {
        let Ok(generators) = generators(alloc, config.starts.len(), seed) else {
            let fault = fault_or_memory(alloc, &config);
            drop(config);
            drop(gate);
            drop(clock);
            return Err(StartFault::World(fault));
        };
        match Cluster::start(rt, alloc, &config, generators, gate, clock, limit) {
            Ok((cluster, clients)) => Ok(Running {
                cluster,
                clients,
                config,
            }),
            Err(fault) => {
                drop(config);
                Err(fault)
            }
        }
    }

    /// How many clients there are.
    ///
    /// Cost: no memory.
    pub fn client_count(&self) -> usize
        ensures { result ≡ length (clients_in self.now) }
    {
        self.clients.len()
    }

    /// The configuration that it was started with.
    ///
    /// Cost: no memory.
    pub fn config(&self) -> &Config
        ensures { result.now ≡ config_in self.now }
    {
        &self.config
    }

    /// Submits a command at the client at a place, as `Client::submit` does.
    ///
    /// Errors: the command, handed back where the client knows of no free place; then nothing was submitted.
    ///
    /// Cost: no memory; O(1).
    pub fn submit(&mut self, place: usize, command: Command) -> Result<(), Command>
        requires { place < length (clients_in self.old) }
        ensures only { OnlyClient place self.old self.new }
        ensures ok { OnOk result ((none : ClientEnd) → submitted_at place none self.new
            ≡ submitted_at place none self.old ++ record { command = command; polled = polled_count (get_or (clients_in self.old) place none) } ∷ []) }
        ensures back { IfErr result (λ back. back ≡ command) }
        ensures err { OnErr result ((none : ClientEnd) → submitted_at place none self.new ≡ submitted_at place none self.old) }
        ensures polled { (none : ClientEnd) → polled_at place none self.new ≡ polled_at place none self.old }
        ensures free { OnOk result ((none : ClientEnd) → free_at place none self.old ≤ free_at place none self.new + 1) }
        ensures full { OnErr result ((none : ClientEnd) → free_at place none self.new ≡ 0) }
        ensures succeeds { (none : ClientEnd) → 0 < free_at place none self.old → IsOk result }
        ensures left { (none : ClientEnd) → left_at place none self.new ≡ left_at place none self.old }
    {
        self.clients[place].submit(command)
    }

    /// The next answer of the client at a place, as `Client::poll` gives it: none only where the client knows of none.
    ///
    /// Cost: no memory; O(1).
    pub fn poll(&mut self, place: usize) -> Option<Answer>
        requires { place < length (clients_in self.old) }
        ensures only { OnlyClient place self.old self.new }
        ensures some { IfSome result (λ answer. (none : ClientEnd) → polled_at place none self.new ≡ polled_at place none self.old ++ answer ∷ []) }
        ensures none { IfNone result ((none : ClientEnd) → polled_at place none self.new ≡ polled_at place none self.old) }
        ensures submitted { (none : ClientEnd) → submitted_at place none self.new ≡ submitted_at place none self.old }
        // The answers that are known to be there come first.
        ensures known { IfSome result (λ answer. (none : ClientEnd) → IsPrefix (left_at place none self.old) (answer ∷ left_at place none self.new)) }
        ensures empty { IfNone result ((none : ClientEnd) → left_at place none self.new ≡ []) }
        ensures succeeds { (none : ClientEnd) → 0 < length (left_at place none self.old) → IsSome result }
        ensures free { (none : ClientEnd) → free_at place none self.new ≡ free_at place none self.old }
    {
        self.clients[place].poll()
    }

    /// A node is lost for good, as by `Cluster::lose`. It may wait for threads.
    ///
    /// Errors: those of `Cluster::lose`, which change nothing.
    ///
    /// Cost: that of `Cluster::lose`.
    pub fn lose<R: Threads>(&mut self, rt: &R, node: usize) -> Result<(), NodeFault>
        ensures place { (result ≡ Err (Refused NoSuchPlace)) ↔ (length (losses_in self.old) ≤ node) }
        ensures again { (result ≡ Err (Refused NodeLost)) ↔ (slice_get (losses_in self.old) node ≡ Some true) }
        ensures fault { IfErr result (λ fault. (fault ≡ Refused NoSuchPlace) ⊎ (fault ≡ Refused NodeLost)) }
        ensures lost { OnOk result (losses_in self.new ≡ slice_set (losses_in self.old) node true) }
        ensures told { OnOk result (AllTold node self.old.cluster self.new.cluster) }
        ensures err { OnErr result (self.new ≡ self.old) }
        ensures clients { clients_in self.new ≡ clients_in self.old }
        ensures threads { threads_in self.new ≡ threads_in self.old }
        ensures config { config_in self.new ≡ config_in self.old }
    {
        self.cluster.lose(rt, node)
    }

    /// Stops the threads and joins them, as `Cluster::close` does: what that gives, and the configuration. It may
    /// wait for threads.
    ///
    /// Errors: that of `Cluster::close`, beside the configuration.
    ///
    /// Cost: that of `Cluster::close`.
    pub fn close<R: Threads>(self, rt: &R) -> (Result<Closed, Stopped>, Config)
        ensures config { result.1 ≡ config_in self }
        ensures can { ∥ CanBegin (config_in self).ring (config_in self).starts.items ∥₁ }
        ensures made { ∥ AreMade (config_in self).starts.items (map begun_by (threads_in self)) ∥₁ }
        ensures ended { MatchResult result.0
            (λ closed. ∥ EndedWith (losses_in self) (threads_in self) closed.nodes.items (map (λ v. v.items) closed.logs.items)
            closed.turns.items ∥₁)
            (λ stopped. ∥ EndedWith (losses_in self) (threads_in self) (nodes_of stopped) (logs_of stopped)
            (turns_of stopped) ∥₁) }
        ensures one_run { IfOk result.0 (λ closed. NobodyLost (losses_in self)
            → ∥ IsOneRun (config_in self).starts.items closed ∥₁) }
        ensures agree { IfOk result.0 (λ closed. NobodyLost (losses_in self) → ∥ Agree closed.nodes.items closed.logs.items ∥₁) }
        ensures order { IfOk result.0 IsByClock }
        ensures steps { IfOk result.0 HasSteps }
        ensures losing_run { IfOk result.0 (IsOneLosingRun (config_in self).starts.items) }
        ensures survivors { IfOk result.0 (λ closed. ∥ SurvivorsAgree closed.nodes.items closed.lost.items closed.logs.items ∥₁) }
        ensures joins { IfErr result.0 (λ stopped. NobodyLost (losses_in self)
            → ∥ JoinsToOneRun (config_in self).starts.items (nodes_of stopped) (logs_of stopped) ∥₁) }
        ensures joins_losing { IfErr result.0 (λ stopped. ∥ JoinsToOneLosingRun (config_in self).starts.items (losses_in self) (nodes_of stopped) (logs_of stopped) ∥₁) }
        ensures told { ∥ NoticesCame (tellers_in self) (threads_in self) ∥₁ }
        ensures heard { MatchResult result.0
            (λ closed. ∥ AllHeard (threads_in self) closed.nodes.items (map (λ v. v.items) closed.logs.items) (clients_in self) ∥₁)
            (λ stopped. ∥ AllHeard (threads_in self) (nodes_of stopped) (logs_of stopped) (clients_in self) ∥₁) }
        ensures lost { MatchResult result.0 (λ closed. closed.lost.items ≡ losses_in self) (λ stopped. losses_of stopped ≡ losses_in self) }
        ensures clients { MatchResult result.0 (λ closed. ClientsRest (clients_in self) closed.clients.items)
            (λ stopped. ClientsRest (clients_in self) (clients_of stopped)) }
    {
        let closed = self.cluster.close(rt, self.clients);
        (closed, self.config)
    }
}

/// A generator for each node.
fn generators(alloc: Global, count: usize, seed: u64) -> Result<Vec<Pcg32>, AllocError>
    ensures count { IfOk result (λ all. length all.items ≡ count) }
    ensures seeds { IfOk result (λ all. AreSeeded seed all.items) }
{
    let mut all = Vec::with_capacity(alloc, count)?;
    for place in 0..count {
        all.push_reserved(Pcg32::new(seed.wrapping_add(place as u64), STREAM));
    }
    Ok(all)
}
