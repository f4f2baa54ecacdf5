//! One node over packets: what it keeps, and what its events make of it.

ghost use Rattle.std.specs.Prelude.{◌≡◌, ◌≤◌, ◌<◌, ◌+◌, ◌*◌, ◌^◌, ℕ, true, length};
ghost use Rattle.pg_term.specs.declared.pid.Pid.{Pid};
ghost use Rattle.pg_term.specs.declared.term.Term.{Term};
ghost use Rattle.pg_node_ports.specs.PgGroup.Value.{count_in};
ghost use Rattle.pg_node_ports.specs.PgEnds.Processes.{node_of};
ghost use Rattle.pg_node_ports.specs.PgMessageTypes.Limits.{max_stamp};
ghost use Rattle.pg_node_ports.specs.PgStep.Nodes.{Node};
ghost use Rattle.pg_node_ports.specs.PgNodeOpens.Opens.{names_of as open_names, lost_of, references_of, uses_of, stages_of};
ghost use Rattle.pg_node_ports.specs.PgNodeOpens.Places.{name_at};
ghost use Rattle.pg_node_state.specs.Ports.{merged_in, CameIn, AreGiven};
ghost use Rattle.pg_node_ports.specs.Ports.{port_commands};

mod answers;
mod attempts;
mod changes;
mod command;
mod copies;
mod fault;
mod first;
mod forgets;
mod fresh;
mod made;
mod numbered;
mod opening;
mod peers;
mod processes;
mod refusals;
mod replies;
mod retry;
mod same;
mod short;
mod take;
mod turns;
mod undertake;

pub use fault::NodeFault;
pub use made::{NodeConfig, started};
use pg_node_ports::{Ended, Formation, GroupTable, LockTable, Opens, Port, Processes};
use std::alloc::Global;

/// A node of a set over packets.
#[derive(Drop)]
pub struct NodeState<T: GroupTable> {
    clock: u32,
    opens: Opens,
    table: T,
    ended: Ended,
    locks: LockTable,
    // Which peers are merged.
    formation: Formation,
    processes: Processes,
    ports: Vec<Port>,
    alloc: Global,
    ghost peers: { length formation + 1 ≡ length (open_names opens) },
    ghost own: { node_of processes ≡ name_at (open_names opens) 0 },
    // The loss of a peer counts as its exchange.
    ghost forgotten: { (q : Node) → lost_of opens q ≡ true → merged_in (open_names opens) formation q ≡ true },
    ghost within: { clock ≤ max_stamp },
    // An event makes two references at most.
    ghost made: { references_of opens ≤ 2 * clock },
    ghost counted: { (port : ℕ) → port_commands ports.items port ≤ clock },
    // Each open command came in at a port, with the update that is gathered for or that waits.
    ghost given: { AreGiven (CameIn (length ports.items) (port_commands ports.items)) (uses_of opens) (stages_of opens) },
    // A count is at most what it was at first or in an exchange, and grows by one with an update.
    ghost few: { (name : Term) (pid : Pid) → count_in (T.contents table name) pid ≤ 2 ^ 32 + clock },
}
