//! How a node starts, and what is read of it.

ghost use Rattle.std.specs.Prelude.{◌≡◌, ◌∷◌, ◌≤◌, ◌<◌, ◌+◌, ◌^◌, [], true, IfOk, OnErr, length};
ghost use Rattle.std.specs.List.{IsDistinct};
ghost use Rattle.std.specs.Option.{option_copied};
ghost use Rattle.pg_term.specs.Same.{same_atom};
ghost use Rattle.pg_term.specs.declared.pid.Pid.{Pid};
ghost use Rattle.pg_term.specs.declared.term.Term.{Term};
ghost use Rattle.pg_node_ports.specs.PgGroup.Ended.{IsEndedCount};
ghost use Rattle.pg_node_ports.specs.PgGroup.Value.{count_in};
ghost use Rattle.pg_node_ports.specs.PgEnds.Numbers.{ended_among};
ghost use Rattle.pg_node_ports.specs.PgEnds.Limits.{max_processes};

use crate::state::NodeState;
use pg_node_ports::{
    Answer, Ended, Formation, GroupTable, LockTable, OpId, Opens, Packet, Processes, idle_ports,
};
use pg_node_sends::opening;
use pg_term::{Atom, Pid, Reference, Term};
use std::alloc::{AllocError, Global};

/// A node as it starts.
#[derive(Debug, Drop)]
pub struct NodeConfig {
    /// Its name.
    pub own: Atom,
    /// The names of the other nodes of the set, at most 15.
    pub peers: Vec<Atom>,
    /// How many processes it has made.
    pub made: u32,
    /// How many ports it has, at which commands come in.
    pub ports: u16,
}

ghost use Rattle.pg_node_ports.specs.PgNodeOpens.Places.{name_at};
ghost use Rattle.pg_node_ports.specs.PgStep.State.{new_state, formed};
ghost use Rattle.pg_node_state.specs.Issued.{ports_of};
ghost use Rattle.pg_node_sends.specs.Opening.{Announces};
ghost use Rattle.pg_node_state.specs.States.{names_of, nodes_of, live_of, kept_by, state_of, answers_of, forgotten_of};
ghost use Rattle.pg_node_sends.specs.Sent.{sends_in};
ghost use Rattle.pg_node_state.specs.Waiting.{AreWaiting, ops_of, waiting_among};
ghost use Rattle.pg_node_ports.specs.PgStep.declared.command.OpId.{OpId};
ghost use Rattle.pg_node_ports.specs.PgStep.Attempts.{waits};

impl<T: GroupTable + Drop> NodeState<T> {
    /// A node at time 0, which has this table and has taken nothing, and the packets with which it begins, each to a
    /// peer by its place among the peers: to every peer the groups of the table, as `snapshot` lists them, at time 0.
    ///
    /// Errors: `AllocError`.
    ///
    /// Cost: that of the snapshot, and of a copy of it for each peer.
    pub fn new(
        alloc: Global,
        config: NodeConfig,
        table: T,
    ) -> Result<(NodeState<T>, Vec<(usize, Packet)>), AllocError>
        requires apart { IsDistinct same_atom (config.own ∷ config.peers.items) }
        requires peers { length config.peers.items ≤ 15 }
        requires made { config.made ≤ max_processes }
        requires few { (name : Term) (pid : Pid) → count_in (T.contents table name) pid ≤ 2 ^ 32 }
        ensures names { IfOk result (λ begun. names_of begun.0 ≡ config.own ∷ config.peers.items) }
        ensures state { IfOk result (λ begun. state_of begun.0 ≡ record { clock = 0; state = new_state (T.contents table) config.made }) }
        ensures ports { IfOk result (λ begun. ports_of begun.0 ≡ config.ports) }
        ensures answers { IfOk result (λ begun. answers_of begun.0 ≡ (λ port. [])) }
        ensures forgotten { IfOk result (λ begun. forgotten_of begun.0 ≡ (λ port. 0)) }
        ensures sends { IfOk result (λ begun. Announces (T.contents table) (nodes_of begun.0) (sends_in (names_of begun.0) begun.1.items)) }
    {
        let node = started(alloc, config, table)?;
        match opening(alloc, &node.opens, &node.table) {
            Ok(sends) => Ok((node, sends)),
            Err(fault) => {
                drop(node);
                Err(fault)
            }
        }
    }

    /// The same node, before it sends anything; what `new` sends to each peer is its `announcement`.
    ///
    /// Errors: `AllocError`.
    ///
    /// Cost: that of the names.
    pub fn started(alloc: Global, config: NodeConfig, table: T) -> Result<NodeState<T>, AllocError>
        requires apart { IsDistinct same_atom (config.own ∷ config.peers.items) }
        requires peers { length config.peers.items ≤ 15 }
        requires made { config.made ≤ max_processes }
        requires few { (name : Term) (pid : Pid) → count_in (T.contents table name) pid ≤ 2 ^ 32 }
        ensures names { IfOk result (λ node. names_of node ≡ config.own ∷ config.peers.items) }
        ensures state { IfOk result (λ node. state_of node ≡ record { clock = 0; state = new_state (T.contents table) config.made }) }
        ensures ports { IfOk result (λ node. ports_of node ≡ config.ports) }
        ensures answers { IfOk result (λ node. answers_of node ≡ (λ port. [])) }
        ensures forgotten { IfOk result (λ node. forgotten_of node ≡ (λ port. 0)) }
    {
        started(alloc, config, table)
    }

    /// Its clock.
    ///
    /// Cost: no memory.
    pub fn clock(&self) -> u32
        ensures { result ≡ (state_of self.now).clock }
    {
        self.clock
    }

    /// The name of its node.
    ///
    /// Cost: no memory.
    pub fn own(&self) -> &Atom
        ensures { result.now ≡ name_at (names_of self.now) 0 }
    {
        self.opens.name(0)
    }

    /// How many peers it has, the lost ones too.
    ///
    /// Cost: no memory.
    pub fn peer_count(&self) -> usize
        ensures { result + 1 ≡ length (names_of self.now) }
    {
        self.formation.peers()
    }

    /// How many ports it has.
    ///
    /// Cost: no memory.
    pub fn port_count(&self) -> usize
        ensures { result ≡ ports_of self.now }
    {
        self.ports.len()
    }

    /// Whether it is formed: each peer has announced its groups, or its loss was seen.
    ///
    /// Cost: no memory.
    pub fn formed(&self) -> bool
        ensures { result ≡ formed (live_of self.now) (kept_by self.now) }
    {
        self.formation.formed()
    }

    /// How many processes its node has made: their pids are numbered from 1.
    ///
    /// Cost: no memory.
    pub fn made(&self) -> u32
        ensures { result ≡ (kept_by self.now).processes }
    {
        self.processes.made()
    }

    /// The processes of its node that have ended, by their numbers.
    ///
    /// Errors: `AllocError`.
    ///
    /// Cost: that of a search in the ended, and of the list.
    pub fn own_ended(&self) -> Result<Vec<Pid>, AllocError>
        ensures { IfOk result (λ pids. pids.items
            ≡ ended_among (name_at (names_of self.now) 0) (kept_by self.now).processes (kept_by self.now).ended) }
    {
        self.processes.ended(self.alloc, &self.ended)
    }

    /// Its table of groups.
    ///
    /// Cost: no memory.
    pub fn table(&self) -> &T
        ensures { T.contents result.now ≡ (kept_by self.now).table }
    {
        &self.table
    }

    /// Whether a process has ended, as far as the node knows.
    ///
    /// Cost: no memory; O(log n) in the ended.
    pub fn ended(&self, pid: &Pid) -> bool
        ensures { result ≡ (kept_by self.now).ended pid.now }
    {
        self.ended.has(pid)
    }

    /// How many processes have ended, as far as the node knows, or `u64::MAX` where there are more. Those of a lost node, all of which have,
    /// do not count, but for each whose end came before.
    ///
    /// Cost: no memory, and O(1).
    pub fn ended_count(&self) -> u64
        ensures { IsEndedCount (kept_by self.now).ended result }
    {
        self.ended.count()
    }

    /// The holder of the lock of a name at this node.
    ///
    /// Cost: no memory; O(log n) in the names that have a holder.
    pub fn holder(&self, name: &Term) -> Option<&Reference>
        ensures { option_copied result ≡ (kept_by self.now).locks name.now }
    {
        self.locks.holder(name)
    }

    /// The answers that were given at a port and not forgotten, in the order in which they were given.
    ///
    /// Cost: no memory.
    pub fn answers(&self, port: u16) -> &[Answer]
        requires place { port < ports_of self.now }
        ensures { result.now ≡ answers_of self.now port }
    {
        let entry = &self.ports[usize::from(port)];
        entry.answers.as_slice()
    }

    /// The open commands that wait for their retry, each once, in the order in which they were opened.
    ///
    /// Errors: `AllocError`, only where a command waits.
    ///
    /// Cost: a walk over the open commands, O(nodes) for each.
    pub fn waiting(&self) -> Result<Vec<OpId>, AllocError>
        ensures each { IfOk result (λ ops. AreWaiting (live_of self.now) (kept_by self.now) ops.items) }
        ensures order { IfOk result (λ ops. ops.items ≡ waiting_among (live_of self.now) (kept_by self.now) (ops_of self.now)) }
        ensures memory { OnErr result ((op : OpId) × (waits (live_of self.now) ((kept_by self.now).stages op) (kept_by self.now) ≡ true)) }
    {
        self.opens.has_each_once();
        let mut ops = Vec::new(self.alloc);
        for place in 0..self.open_count() {
            let op = self.opens.op_at(place);
            if self.opens.waits_near(place, op) {
                ops.push(op)?;
            }
        }
        Ok(ops)
    }

    /// Whether the loss of a peer was seen. `peer`: its place among the peers.
    ///
    /// Cost: no memory.
    pub fn is_lost(&self, peer: usize) -> bool
        requires place { peer + 1 < length (names_of self.now) }
        ensures { result ≡ (kept_by self.now).lost (name_at (names_of self.now) (peer + 1)) }
    {
        self.opens.is_lost(peer + 1)
    }

    /// How many commands are open.
    ///
    /// Cost: no memory.
    pub fn open_count(&self) -> usize
        ensures { result ≡ (kept_by self.now).opened }
    {
        self.opens.open_count()
    }
}

/// A node at time 0, before it sends anything.
///
/// Errors: `AllocError`.
///
/// Cost: a copy of its name, and memory for each peer and each port.
pub fn started<T: GroupTable + Drop>(
    alloc: Global,
    config: NodeConfig,
    table: T,
) -> Result<NodeState<T>, AllocError>
    requires apart { IsDistinct same_atom (config.own ∷ config.peers.items) }
    requires peers { length config.peers.items ≤ 15 }
    requires made { config.made ≤ max_processes }
    requires few { (name : Term) (pid : Pid) → count_in (T.contents table name) pid ≤ 2 ^ 32 }
    ensures names { IfOk result (λ node. names_of node ≡ config.own ∷ config.peers.items) }
    ensures state { IfOk result (λ node. state_of node ≡ record { clock = 0; state = new_state (T.contents table) config.made }) }
    ensures ports { IfOk result (λ node. ports_of node ≡ config.ports) }
    ensures answers { IfOk result (λ node. answers_of node ≡ (λ port. [])) }
    ensures forgotten { IfOk result (λ node. forgotten_of node ≡ (λ port. 0)) }
{
    let own = config.own.copy()?;
    let formation = Formation::new(alloc, config.peers.len())?;
    let mut names = config.peers;
    names.insert(0, config.own)?;
    Ok(NodeState {
        clock: 0,
        opens: Opens::new(alloc, names)?,
        table,
        ended: Ended::new(alloc),
        locks: LockTable::new(alloc),
        formation,
        processes: Processes::new(own, config.made),
        ports: idle_ports(alloc, config.ports)?,
        alloc,
    })
}
