//! Both ends of each ring in one hand, once the threads have ended.

ghost use Rattle.std.specs.Prelude.{◌≡◌, ◌<◌, ◌≤◌, ◌+◌, ◌++◌, vec_len, vec_capacity, length, map};
ghost use Rattle.pg_cluster_judges.specs.PgNodeRun.Ports.{ArePort, Meets};
ghost use Rattle.pg_cluster.specs.Clients.{AllPairs, ClientsRest};
ghost use Rattle.pg_cluster.specs.Ended.{AreJoined, AllArrived, AreEndsAt, ArrivedAt};
ghost use Rattle.pg_cluster.specs.Ended.{AreLast, ArrivedLast, SameRow, SameRows};

use crate::wires::Row;
use pg_cluster_judges::{Client, Port, ports_together};
use pg_ring::together;

/// Looks at both ends of each ring between nodes, whose links these are: what was received, and then what is left, is what was sent.
pub(crate) fn settle_all(rows: Vec<Row>)
    requires joined { AreJoined (length rows.items) (map (λ v. v.items) rows.items) }
    ensures arrived { AllArrived (length rows.items) (map (λ v. v.items) rows.items) }
{
    let mut rows = rows;
    while let Some(row) = rows.pop() {
        let mut row = row;
        settle_last(&mut rows, &mut row);
    }
}

/// The same of the rings between a last node and those before it.
fn settle_last(rows: &mut Vec<Row>, row: &mut Row)
    requires last { AreLast rows.old.items row.old.items }
    ensures rows { SameRows rows.old.items rows.new.items }
    ensures arrived { ArrivedLast rows.old.items row.old.items }
{
    for place in 0..rows.len() {
        let last = rows.len() - 1;
        settle(&mut rows[place], last, row, place);
    }
}

/// The same of the two rings between two nodes, whose ends are at these places of their rows.
fn settle(low: &mut Row, p: usize, high: &mut Row, q: usize)
    requires places { (p < vec_len low.old) × (q < vec_len high.old) }
    requires ends { AreEndsAt low.old.items p high.old.items q }
    ensures low { SameRow low.old.items low.new.items }
    ensures high { SameRow high.old.items high.new.items }
    ensures arrived { ArrivedAt low.old.items p high.old.items q }
{
    let here = &mut low[p];
    let there = &mut high[q];
    together(&mut here.link, &mut there.inlet);
    together(&mut there.link, &mut here.inlet);
}

/// Looks at both ends of each of these ports: what came at the node is the first of what was submitted, and what was polled is the
/// first of what was handed over.
pub(crate) fn settle_ports(ports: &mut Vec<Port>, clients: &mut Vec<Client>)
    requires { AllPairs ArePort clients.old.items ports.old.items }
    ensures clients { ClientsRest clients.old.items clients.new.items }
    ensures meets { AllPairs Meets clients.old.items ports.old.items }
{
    for place in 0..ports.len() {
        ports_together(&mut clients[place], &mut ports[place]);
    }
}

/// Moves ports after others, for which there is room.
pub(crate) fn move_ports(all: &mut Vec<Port>, ports: Vec<Port>)
    requires room { vec_len all.old + vec_len ports ≤ vec_capacity all.old }
    ensures items { all.new.items ≡ all.old.items ++ ports.items }
    ensures capacity { vec_capacity all.old ≤ vec_capacity all.new }
{
    let mut ports = ports;
    let _ = all.append(&mut ports);
}
