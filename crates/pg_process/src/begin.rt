//! How a process begins.

ghost use Rattle.std.specs.Prelude.{◌≡◌, ◌≤◌, ◌∷◌, ◌^◌, ℕ, [], Ok, IfErr, IfOk, length};
ghost use Rattle.std.specs.List.{IsDistinct};
ghost use Rattle.pg_term.specs.Same.{same_atom};
ghost use Rattle.pg_step.specs.Config.{first_table};
ghost use Rattle.pg_step.specs.PgEnds.Limits.{max_processes};
ghost use Rattle.pg_step.specs.PgMessageTypes.Members.{HasFewMembers};
ghost use Rattle.pg_step.specs.State.{new_state};
ghost use Rattle.pg_node.specs.Begun.{BeginsLinked};
ghost use Rattle.pg_node.specs.Nodes.{held_by, links_of};
ghost use Rattle.pg_node.specs.PgNodeOpens.Places.{name_at};
ghost use Rattle.pg_node.specs.PgNodeState.Issued.{ports_of};
ghost use Rattle.pg_node.specs.PgNodeState.States.{answers_of, names_of, state_of};
ghost use Rattle.pg_node_process.specs.Desks.{nothing_came, port_of};
ghost use Rattle.pg_node_process.specs.Groups.{brought};
ghost use Rattle.pg_node_process.specs.Retries.{at_first};
ghost use Rattle.pg_process.specs.Beginnings.{Begins, CantStart, IsUnbrought, first_situation};
ghost use Rattle.pg_process.specs.Situations.{seen_in, setting_of, situation_of};

use crate::fault::BeginFault;
use crate::process::{Process, Told};
use pg_node::{IndexTable, Node, NodeConfig, NodeFault};
use pg_node_process::{
    Courtesy, Desk, GroupsFault, Journal, Outlet, Parcel, Parties, ProcessConfig, filled,
    read_groups,
};
use pg_step::Processes;
use pg_term::{Atom, Items, Pid, Term};
use std::alloc::{AllocError, Global};

impl Process {
    ghost use Rattle.std.specs.Prelude.{◌≡◌, ◌≤◌, false, Err, IfErr, IfOk, length};
    ghost use Rattle.pg_frame.specs.Limits.{max_body};
    ghost use Rattle.pg_node_process.specs.Configs.{is_config};
    ghost use Rattle.pg_process.specs.declared.fault.BeginFault.TheVariants.{BadConfig};
    ghost use Rattle.pg_process.specs.Beginnings.{BeginsBy, CantBegin};

    /// A process as it begins: its table has the groups that its host brings, and the frame that announces them waits for each peer. Nothing
    /// is said or logged. `bytes`: those of a term `[{Name, [Pid, ..]}, ..]`.
    ///
    /// Errors, the first that holds: `BadConfig`, where the config is not valid; `Groups`, as `read_groups` has them; `Message`, where what
    /// announces the groups can't be written, as `Node::new` has it. `OutOfMemory` may come in the place of each but the first.
    ///
    /// Cost: that of `read_groups`, of `filled` and of `Node::new`, with memory for each port and each peer.
    pub fn begin(alloc: Global, config: ProcessConfig, bytes: &[u8]) -> Result<Process, BeginFault>
        requires { length bytes.now ≤ max_body }
        ensures config { is_config config ≡ false → result ≡ Err BadConfig }
        ensures begins { IfOk result (BeginsBy config bytes.now) }
        ensures fault { IfErr result (CantBegin config bytes.now) }
    {
        if !config.is_valid() {
            drop(config);
            return Err(BeginFault::BadConfig);
        }
        match groups_brought(alloc, &config.own, config.made, bytes) {
            Ok(groups) => {
                let begun = begun_with(alloc, config, groups.as_slice());
                drop(groups);
                begun
            }
            Err(fault) => {
                drop(config);
                Err(fault)
            }
        }
    }
}

/// The groups that are brought to the node of this name.
fn groups_brought(
    alloc: Global,
    own: &Atom,
    made: u32,
    bytes: &[u8],
) -> Result<Items<(Term, Items<Pid>)>, BeginFault>
    requires { made ≤ max_processes }
    ensures groups { IfOk result (λ groups. brought own.now made bytes.now ≡ Ok groups) }
    ensures few { IfOk result (λ groups. HasFewMembers (length bytes.now) groups) }
    ensures fault { IfErr result (IsUnbrought own.now made bytes.now) }
{
    let Ok(name) = own.copy() else {
        return Err(BeginFault::OutOfMemory);
    };
    let processes = Processes::new(name, made);
    let read = read_groups(alloc, bytes, &processes);
    drop(processes);
    match read {
        Ok(groups) => Ok(groups),
        Err(GroupsFault::OutOfMemory) => Err(BeginFault::OutOfMemory),
        Err(fault) => Err(BeginFault::Groups(fault)),
    }
}

/// A process that begins with these groups.
fn begun_with(
    alloc: Global,
    config: ProcessConfig,
    groups: &[(Term, Items<Pid>)],
) -> Result<Process, BeginFault>
    requires apart { IsDistinct same_atom (config.own ∷ config.peers.items) }
    requires peers { length config.peers.items ≤ 15 }
    requires made { config.made ≤ max_processes }
    requires ports { config.ports ≤ 64 }
    requires few { HasFewMembers (2 ^ 32) groups.now }
    ensures begins { IfOk result (Begins config groups.now) }
    ensures fault { IfErr result (CantStart (first_table groups.now) config.own) }
{
    let Ok(peers) = copy_names(alloc, config.peers.as_slice()) else {
        drop(config);
        return Err(BeginFault::OutOfMemory);
    };
    let ports = config.ports;
    let mirrored = config.mirrored;
    let node_config = NodeConfig {
        own: config.own,
        peers: config.peers,
        made: config.made,
        ports,
    };
    match begun_node(alloc, node_config, groups) {
        Ok(node) => match assembled(alloc, node, peers, ports, mirrored) {
            Ok(process) => Ok(process),
            Err(AllocError) => Err(BeginFault::OutOfMemory),
        },
        Err(fault) => {
            drop(peers);
            Err(fault)
        }
    }
}

/// A node that begins with these groups.
fn begun_node(
    alloc: Global,
    config: NodeConfig,
    groups: &[(Term, Items<Pid>)],
) -> Result<Node<IndexTable>, BeginFault>
    requires apart { IsDistinct same_atom (config.own ∷ config.peers.items) }
    requires peers { length config.peers.items ≤ 15 }
    requires made { config.made ≤ max_processes }
    requires few { HasFewMembers (2 ^ 32) groups.now }
    ensures names { IfOk result (λ node. names_of (held_by node) ≡ config.own ∷ config.peers.items) }
    ensures state { IfOk result (λ node. state_of (held_by node) ≡ record { clock = 0; state = new_state (first_table groups.now) config.made }) }
    ensures ports { IfOk result (λ node. ports_of (held_by node) ≡ config.ports) }
    ensures answers { IfOk result (λ node. answers_of (held_by node) ≡ (λ port. [])) }
    ensures begun { IfOk result (λ node. BeginsLinked (first_table groups.now) config.own (length config.peers.items) (links_of node)) }
    ensures fault { IfErr result (CantStart (first_table groups.now) config.own) }
{
    let Ok(table) = filled(alloc, IndexTable::new(alloc), groups) else {
        drop(config);
        return Err(BeginFault::OutOfMemory);
    };
    match Node::new(alloc, config, table) {
        Ok(node) => Ok(node),
        Err(NodeFault::Message(fault)) => Err(BeginFault::Message(fault)),
        Err(_) => Err(BeginFault::OutOfMemory),
    }
}

/// A process of a node, to which nothing came.
fn assembled(
    alloc: Global,
    node: Node<IndexTable>,
    peers: Vec<Atom>,
    ports: u16,
    mirrored: bool,
) -> Result<Process, AllocError>
    requires named { names_of (held_by node) ≡ name_at (names_of (held_by node)) 0 ∷ peers.items }
    requires few { length peers.items ≤ 15 }
    requires ports { ports_of (held_by node) ≡ ports }
    requires limit { ports ≤ 64 }
    ensures setting { IfOk result (λ process. setting_of process ≡ record { names = names_of (held_by node); ports = ports }) }
    ensures situation { IfOk result (λ process. situation_of process ≡ first_situation mirrored (state_of (held_by node)) (answers_of (held_by node)) (links_of node)) }
    ensures outlet { IfOk result (λ process. process.outlet.gathered.items ≡ []) }
    ensures journal { IfOk result (λ process. process.journal.gathered.items ≡ []) }
{
    match parts(alloc, node.state().own(), ports, peers.len()) {
        Ok((parties, (desks, courtesies))) => Ok(Process {
            node,
            parties,
            peers,
            desks,
            courtesies,
            outlet: Outlet::new(alloc),
            journal: Journal::new(alloc),
            parcel: Parcel::new(alloc),
            came: 0,
            told: Told {
                formed: false,
                old_clock: false,
                many_ended: false,
                mirrored,
            },
            alloc,
        }),
        Err(AllocError) => {
            drop(node);
            drop(peers);
            Err(AllocError)
        }
    }
}

/// Whom the bodies are of, and the requests of each port, with how it gives way.
fn parts(
    alloc: Global,
    name: &Atom,
    ports: u16,
    peers: usize,
) -> Result<(Parties, (Vec<Desk>, Vec<Courtesy>)), AllocError>
    ensures parties { IfOk result (λ parts. parts.0 ≡ record { name = name.now; ports = ports; peers = peers }) }
    ensures all_desks { IfOk result (λ parts. length parts.1.0.items ≡ ports) }
    ensures desks { IfOk result (λ parts. (place : ℕ) → seen_in port_of nothing_came parts.1.0.items place ≡ nothing_came) }
    ensures all_courtesies { IfOk result (λ parts. length parts.1.1.items ≡ ports) }
    ensures courtesies { IfOk result (λ parts. (place : ℕ) → seen_in (λ c. c) at_first parts.1.1.items place ≡ at_first) }
{
    let courtesies = new_courtesies(alloc, ports as usize)?;
    let desks = new_desks(alloc, ports as usize)?;
    let parties = Parties::new(alloc, name.copy()?, ports, peers)?;
    Ok((parties, (desks, courtesies)))
}

/// The requests of so many ports.
fn new_desks(alloc: Global, ports: usize) -> Result<Vec<Desk>, AllocError>
    ensures all { IfOk result (λ desks. length desks.items ≡ ports) }
    ensures new { IfOk result (λ desks. (place : ℕ) → seen_in port_of nothing_came desks.items place ≡ nothing_came) }
{
    let mut desks = Vec::with_capacity(alloc, ports)?;
    for _ in 0..ports {
        desks.push(Desk::new(alloc))?;
    }
    Ok(desks)
}

/// How so many ports give way.
fn new_courtesies(alloc: Global, ports: usize) -> Result<Vec<Courtesy>, AllocError>
    ensures all { IfOk result (λ courtesies. length courtesies.items ≡ ports) }
    ensures new { IfOk result (λ courtesies. (place : ℕ) → seen_in (λ c. c) at_first courtesies.items place ≡ at_first) }
{
    let mut courtesies = Vec::with_capacity(alloc, ports)?;
    for _ in 0..ports {
        courtesies.push(Courtesy::new())?;
    }
    Ok(courtesies)
}

/// The same names.
fn copy_names(alloc: Global, names: &[Atom]) -> Result<Vec<Atom>, AllocError>
    ensures { IfOk result (λ copies. copies.items ≡ names.now) }
{
    let mut copies = Vec::with_capacity(alloc, names.len())?;
    for name in names {
        copies.push(name.copy()?)?;
    }
    Ok(copies)
}
