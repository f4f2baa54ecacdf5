//! What the threads of a cluster gave back, taken apart.

ghost use Rattle.std.specs.Prelude.{◌≡◌, map, length};
ghost use Rattle.pg_cluster.specs.Room.{HasClosingRoom};
ghost use Rattle.pg_ring.specs.Slots.{AreSlots};
ghost use Rattle.pg_cluster_judges.specs.Closed.{nodes_of as nodes_with, logs_of as logs_with, turns_of as turns_with};
ghost use Rattle.pg_cluster_judges.specs.Closed.{losses_of as losses_with, clients_of as clients_with};
ghost use Rattle.pg_cluster_judges.specs.PgNodeRun.Ports.{ArePort, Meets};
ghost use Rattle.pg_cluster.specs.Clients.{AllPairs, ClientsRest, ports_ended};
ghost use Rattle.pg_cluster.specs.Ended.{AreJoined, AllArrived};
ghost use Rattle.pg_cluster.specs.Notices.{Told};
ghost use Rattle.pg_cluster.specs.Threads.{node_in, log_in, turns_in, rows_ended, notices_ended};

use crate::notices::{Teller, settle_notices};
use crate::pairs::{move_ports, settle_all, settle_ports};
use crate::promise::NodeRan;
use crate::wires::Row;
use pg_cluster_judges::{Client, IndexTable, LogEntry, Node, Notice, Port, Stopped, TurnCount};
use pg_ring::SlotIn;
use rand_core::Rng;
use std::alloc::{AllocError, Global};

/// What stopped, of what the threads gave back: both ends of each ring, of each port and of where each node was told of losses are
/// looked at before they go. There is room for its nodes, its links, its logs, its ports and its notices.
pub(crate) fn stopped_of<K: Rng + Drop>(
    alloc: Global,
    rans: Vec<NodeRan<K>>,
    room: Room,
    tellers: Vec<Teller>,
    clients: Vec<Client>,
    lost: Vec<bool>,
) -> Stopped
    requires room { HasClosingRoom room (length rans.items) (length (ports_ended rans.items)) }
    requires joined { AreJoined (length rans.items) (rows_ended rans.items) }
    requires ports { AllPairs ArePort clients.items (ports_ended rans.items) }
    requires notices { AllPairs AreSlots tellers.items (notices_ended rans.items) }
    ensures nodes { nodes_with result ≡ map (λ ran. node_in ran.run) rans.items }
    ensures logs { logs_with result ≡ map (λ ran. log_in ran.run) rans.items }
    ensures turns { turns_with result ≡ map turns_in rans.items }
    ensures clients { ClientsRest clients.items (clients_with result) }
    ensures arrived { AllArrived (length rans.items) (rows_ended rans.items) }
    ensures meets { AllPairs Meets clients.items (ports_ended rans.items) }
    ensures told { AllPairs Told tellers.items (notices_ended rans.items) }
    ensures lost { losses_with result ≡ lost.items }
{
    let Room {
        nodes,
        rows,
        logs,
        turns,
        mut ports,
        notices,
    } = parts_of(rans, room);
    settle_all(rows);
    settle_notices(tellers, notices);
    let mut clients = clients;
    settle_ports(&mut ports, &mut clients);
    Stopped::new(alloc, nodes, logs, turns, clients, lost)
}

/// What the threads gave back, taken apart, in the order of the nodes.
///
/// Cost: no memory.
fn parts_of<K: Rng + Drop>(rans: Vec<NodeRan<K>>, room: Room) -> Room
    requires { HasClosingRoom room (length rans.items) (length (ports_ended rans.items)) }
    ensures nodes { result.nodes.items ≡ map (λ ran. node_in ran.run) rans.items }
    ensures rows { map (λ v. v.items) result.rows.items ≡ rows_ended rans.items }
    ensures logs { map (λ v. v.items) result.logs.items ≡ map (λ ran. log_in ran.run) rans.items }
    ensures turns { result.turns.items ≡ map turns_in rans.items }
    ensures ports { result.ports.items ≡ ports_ended rans.items }
    ensures notices { result.notices.items ≡ notices_ended rans.items }
{
    let mut parts = room;
    for ran in rans {
        let (linked, own, _, inlet) = ran.run.into_parts();
        let (node, row, log) = linked.into_parts();
        parts.nodes.push_reserved(node);
        parts.rows.push_reserved(row);
        parts.logs.push_reserved(log);
        move_ports(&mut parts.ports, own);
        parts.notices.push_reserved(inlet);
        parts.turns.push_reserved(TurnCount {
            made: ran.turns,
            short: ran.short,
        });
    }
    parts
}

/// Where what the threads give back goes.
#[derive(Drop)]
pub(crate) struct Room {
    pub nodes: Vec<Node<IndexTable>>,
    pub rows: Vec<Row>,
    pub logs: Vec<Vec<LogEntry>>,
    pub turns: Vec<TurnCount>,
    pub ports: Vec<Port>,
    pub notices: Vec<SlotIn<Notice>>,
}

impl Room {
    ghost use Rattle.std.specs.Prelude.{IfOk};
    ghost use Rattle.pg_cluster.specs.Room.{HasClosingRoom as IsRoomFor};

    /// Room for so many nodes, with so many ports.
    ///
    /// Errors: `AllocError`.
    pub fn with_capacity(alloc: Global, count: usize, places: usize) -> Result<Room, AllocError>
        ensures { IfOk result (λ room. IsRoomFor room count places) }
    {
        let nodes = Vec::with_capacity(alloc, count)?;
        let rows = Vec::with_capacity(alloc, count)?;
        let logs = Vec::with_capacity(alloc, count)?;
        let turns = Vec::with_capacity(alloc, count)?;
        let ports = Vec::with_capacity(alloc, places)?;
        let notices = Vec::with_capacity(alloc, count)?;
        Ok(Room {
            nodes,
            rows,
            logs,
            turns,
            ports,
            notices,
        })
    }
}
