//! The nodes of a cluster before their threads are started.

ghost use Rattle.std.specs.Prelude.{◌≡◌, IfOk, IfErr, [], length, map};
ghost use Rattle.std.specs.List.{All as AllOf};
ghost use Rattle.pg_cluster.specs.Clients.{AllPairs as Pairs, IsOpenClient as IsOpened, OpensMore};
ghost use Rattle.pg_cluster_judges.specs.PgNodeRun.Notices.{IsUntold as IsUntoldAt};
ghost use Rattle.pg_cluster_judges.specs.PgNodeRun.Runs.{generator_of as generator_of_run};
ghost use Rattle.pg_cluster_judges.specs.PgNodeRun.Runs.{notices_at as notices_of_run, notices_of as told_of_run};
ghost use Rattle.pg_cluster.specs.Notices.{IsFresh as IsFreshPair};
ghost use Rattle.pg_cluster.specs.Fault.{CantRun, IsShortage as IsShort};
ghost use Rattle.pg_cluster_judges.specs.PgWorldPackets.Openings.{CanBegin};
ghost use Rattle.pg_cluster.specs.Threads.{AreMade, HaveRings, HasLinks as HasLinksOf, node_in as node_of_run};
ghost use Rattle.pg_cluster.specs.Threads.{row_in as row_of_run, log_in as log_of_run, ports_of_runs as ports_in_runs};

use crate::fault::StartFault;
use crate::notices::Teller;
use crate::wires::{Row, wire_all};
use pg_cluster_judges::{
    Client, Config, IndexTable, LinkedNode, NOTICE_PLACES, Node, NodeRun, Notice, Port, WorldFault,
    fault_or_memory, port_pair, starting_nodes,
};
use pg_ring::{RingIn, RingOut, SlotIn, ring_pair, slot_pair};
use rand_core::Rng;
use std::alloc::{AllocError, Global};

/// A node as its thread runs it.
pub(crate) type Run<K> = NodeRun<IndexTable, RingOut, RingIn, K>;

/// The nodes of a cluster, where each is stopped and told of losses, and its clients.
#[derive(Drop)]
pub(crate) struct Made<K: Drop> {
    pub runs: Vec<Run<K>>,
    pub stops: Vec<RingOut>,
    pub tellers: Vec<Teller>,
    pub clients: Vec<Client>,
}

/// The nodes of a configuration as they start, with rings between them and a client at each port. `generators`: one
/// for each node.
///
/// Errors: those of `World::new`.
pub(crate) fn make<K: Rng + Drop>(
    alloc: Global,
    config: &Config,
    generators: Vec<K>,
) -> Result<Made<K>, StartFault>
    requires generators { length generators.items ≡ length config.now.starts.items }
    ensures can { IfOk result (λ made. CanBegin config.now.ring config.now.starts.items) }
    ensures made { IfOk result (λ made. AreMade config.now.starts.items made.runs.items) }
    ensures rings { IfOk result (λ made. HaveRings config.now.ring made.runs.items) }
    ensures generators { IfOk result (λ made. map generator_of_run made.runs.items ≡ generators.items) }
    ensures clients { IfOk result (λ made. Pairs IsOpened made.clients.items (ports_in_runs made.runs.items)) }
    ensures notices { IfOk result (λ made. Pairs IsFreshPair made.tellers.items (map notices_of_run made.runs.items)) }
    ensures fault { IfErr result (CantRun config.now.ring config.now.starts.items) }
{
    let nodes = match starting_nodes(alloc, config) {
        Ok(nodes) => nodes,
        Err(fault) => return Err(StartFault::World(fault)),
    };
    match wire_all(alloc, nodes.len(), config.ring) {
        Ok(rows) => make_all(alloc, nodes, rows, generators),
        Err(_) => Err(StartFault::World(fault_or_memory(alloc, config))),
    }
}

/// The same of these nodes with these links, and a generator for each.
///
/// Errors: `World` of `OutOfMemory`.
fn make_all<K: Rng + Drop>(
    alloc: Global,
    nodes: Vec<Node<IndexTable>>,
    rows: Vec<Row>,
    generators: Vec<K>,
) -> Result<Made<K>, StartFault>
    requires rows { Pairs HasLinksOf (map (λ v. v.items) rows.items) nodes.items }
    requires generators { length generators.items ≡ length nodes.items }
    ensures nodes { IfOk result (λ made. map node_of_run made.runs.items ≡ nodes.items) }
    ensures rows { IfOk result (λ made. map row_of_run made.runs.items ≡ map (λ v. v.items) rows.items) }
    ensures generators { IfOk result (λ made. map generator_of_run made.runs.items ≡ generators.items) }
    ensures unlogged { IfOk result (λ made. AllOf (λ run. log_of_run run ≡ []) made.runs.items) }
    ensures untold { IfOk result (λ made. AllOf (λ run. IsUntoldAt (told_of_run run)) made.runs.items) }
    ensures clients { IfOk result (λ made. Pairs IsOpened made.clients.items (ports_in_runs made.runs.items)) }
    ensures notices { IfOk result (λ made. Pairs IsFreshPair made.tellers.items (map notices_of_run made.runs.items)) }
    ensures fault { IfErr result IsShort }
{
    let mut made = Made {
        runs: Vec::new(alloc),
        stops: Vec::new(alloc),
        tellers: Vec::new(alloc),
        clients: Vec::new(alloc),
    };
    let mut rows = rows.into_iter();
    let mut generators = generators.into_iter();
    for node in nodes {
        let row = match rows.next() {
            Some(row) => row,
            None => unreachable!(),
        };
        let generator = match generators.next() {
            Some(generator) => generator,
            None => unreachable!(),
        };
        match made.add(alloc, node, row, generator) {
            Ok(()) => {}
            Err(fault) => {
                drop(made);
                return Err(fault);
            }
        }
    }
    Ok(made)
}

impl<K: Rng + Drop> Made<K> {
    ghost use Rattle.std.specs.Prelude.{◌≡◌, ◌<◌, ◌++◌, ◌∷◌, [], IfOk, IfErr, OnOk, length, map, vec_capacity, vec_len};
    ghost use Rattle.std.specs.List.{All};
    ghost use Rattle.pg_cluster.specs.Clients.{AllPairs, IsOpenClient, OpensMore};
    ghost use Rattle.pg_cluster.specs.Fault.{IsShortage};
    ghost use Rattle.pg_ring.specs.Slots.{taken};
    ghost use Rattle.pg_cluster_judges.specs.PgNodeRun.Notices.{IsUntold};
    ghost use Rattle.pg_cluster_judges.specs.PgNodeRun.Runs.{generator_of, notices_at, notices_of};
    ghost use Rattle.pg_cluster.specs.Notices.{IsFresh};
    ghost use Rattle.pg_cluster.specs.Threads.{HasLinks, node_in, row_in, log_in, ports_of_runs};

    /// A further node, which has a link to each of its peers, with its clients.
    ///
    /// Errors: `World` of `OutOfMemory`.
    fn add(
        &mut self,
        alloc: Global,
        node: Node<IndexTable>,
        row: Row,
        generator: K,
    ) -> Result<(), StartFault>
        requires links { HasLinks row.items node }
        ensures nodes { OnOk result (map node_in self.new.runs.items ≡ map node_in self.old.runs.items ++ node ∷ []) }
        ensures rows { OnOk result (map row_in self.new.runs.items ≡ map row_in self.old.runs.items ++ row.items ∷ []) }
        ensures generators { OnOk result (map generator_of self.new.runs.items ≡ map generator_of self.old.runs.items ++ generator ∷ []) }
        ensures unlogged { OnOk result (All (λ run. log_in run ≡ []) self.old.runs.items → All (λ run. log_in run ≡ []) self.new.runs.items) }
        ensures untold { OnOk result (All (λ run. IsUntold (notices_of run)) self.old.runs.items → All (λ run. IsUntold (notices_of run)) self.new.runs.items) }
        ensures clients { OnOk result (AllPairs IsOpenClient self.old.clients.items (ports_of_runs self.old.runs.items) → AllPairs IsOpenClient self.new.clients.items (ports_of_runs self.new.runs.items)) }
        ensures notices { OnOk result (AllPairs IsFresh self.old.tellers.items (map notices_at self.old.runs.items) → AllPairs IsFresh self.new.tellers.items (map notices_at self.new.runs.items)) }
        ensures fault { IfErr result IsShortage }
    {
        match self.open(alloc, node.state().port_count()) {
            Ok(
                Ends {
                    ports,
                    stopped,
                    notices,
                },
            ) => {
                let linked = LinkedNode::new(alloc, node, row);
                let run = NodeRun::new(alloc, linked, ports, stopped, notices, generator);
                self.runs.push_reserved(run);
                Ok(())
            }
            Err(fault) => {
                drop(node);
                drop(row);
                drop(generator);
                Err(fault)
            }
        }
    }

    /// Room for a further node, and what it is run with beside its links. Its clients, and where it is stopped and told of losses,
    /// come after the others.
    fn open(&mut self, alloc: Global, ports: usize) -> Result<Ends, StartFault>
        ensures runs { self.new.runs.items ≡ self.old.runs.items }
        ensures room { OnOk result (vec_len self.new.runs < vec_capacity self.new.runs) }
        ensures count { IfOk result (λ ends. length ends.ports.items ≡ ports) }
        ensures clients { IfOk result (λ ends. OpensMore self.old.clients.items self.new.clients.items ends.ports.items) }
        ensures tellers { IfOk result (λ ends. (teller : _) × (self.new.tellers.items ≡ self.old.tellers.items ++ teller ∷ []) × IsFresh teller ends.notices) }
        ensures untaken { IfOk result (λ ends. taken ends.notices ≡ []) }
        ensures fault { IfErr result IsShortage }
    {
        self.runs.reserve(1)?;
        self.stops.reserve(1)?;
        self.tellers.reserve(1)?;
        let ports = open_ports(alloc, ports, &mut self.clients)?;
        let Ok((stop, stopped)) = ring_pair(alloc, 1) else {
            drop(ports);
            return Err(StartFault::World(WorldFault::OutOfMemory));
        };
        let Ok((teller, notices)) = slot_pair(alloc, NOTICE_PLACES) else {
            drop(ports);
            drop(stop);
            drop(stopped);
            return Err(StartFault::World(WorldFault::OutOfMemory));
        };
        self.stops.push_reserved(stop);
        self.tellers.push_reserved(teller);
        Ok(Ends {
            ports,
            stopped,
            notices,
        })
    }
}

/// What a node is run with beside its links: its ports, and where it is stopped and told of losses.
#[derive(Drop)]
struct Ends {
    ports: Vec<Port>,
    stopped: RingIn,
    notices: SlotIn<Notice>,
}

/// So many ports; their clients come after the others.
///
/// Errors: `AllocError`.
fn open_ports(
    alloc: Global,
    count: usize,
    clients: &mut Vec<Client>,
) -> Result<Vec<Port>, AllocError>
    ensures count { IfOk result (λ ports. length ports.items ≡ count) }
    ensures clients { IfOk result (λ ports. OpensMore clients.old.items clients.new.items ports.items) }
{
    let mut ports = Vec::new(alloc);
    for _ in 0..count {
        clients.reserve(1)?;
        ports.reserve(1)?;
        let (client, port) = port_pair(alloc)?;
        clients.push_reserved(client);
        ports.push_reserved(port);
    }
    Ok(ports)
}
