//! The phases of a turn that are between a node and its clients.

ghost use Rattle.std.specs.Prelude.{◌≡◌, ◌<◌, ◌^◌, true, false, length};
ghost use Rattle.pg_node.specs.PgNodeState.Issued.{ports_of};
ghost use Rattle.pg_node.specs.Nodes.{held_by};
ghost use Rattle.pg_node.specs.PgNodeState.States.{answers_of};
ghost use Rattle.pg_node_run.specs.Follows.{log_of, node_of};
ghost use Rattle.pg_node_run.specs.Logs.{IsCommand, LogsOnly};
ghost use Rattle.pg_node_run.specs.Ports.{IsPortServed, handed, handed_count};
ghost use Rattle.pg_node_run.specs.Served.{AllForgetHanded, AreHanded, AreServed, HandNone, IsHandedAt};
ghost use Rattle.pg_node_run.specs.Served.{IsServedAt, LeavesAnswer, LeavesAnswerAt, StayBut, KeepTheSame};
ghost use Rattle.pg_node_run.specs.Tries.{WasWanting};
ghost use Rattle.pg_node_run.specs.Turns.{Serves, ServesPort};

use crate::linked::LinkedNode;
use crate::pauses::Pauses;
use crate::phases::Phase;
use crate::port::{Asked, Port};
use pg_node::{GroupTable, Inlet, Link};
use std::alloc::Global;

/// Each port gives a command at most.
pub(crate) fn command_all<T: GroupTable + Drop, L: Link + Drop, I: Inlet + Drop>(
    linked: &mut LinkedNode<T, L, I>,
    ports: &mut Vec<Port>,
) -> Phase
    requires { length ports.old.items ≡ ports_of (held_by (node_of linked.old)) }
    ensures serves { Serves L.accepts I.gives linked.old ports.old.items linked.new ports.new.items }
    ensures served { result.whole ≡ true → AreServed ports.old.items ports.new.items }
    ensures wanting { result.whole ≡ false → WasWanting L.accepts I.gives linked.old linked.new }
    ensures count { HandNone ports.old.items ports.new.items }
    ensures logs { LogsOnly IsCommand (log_of linked.old) (log_of linked.new) }
{
    let mut phase = Phase::idle();
    for port in 0..ports.len() {
        phase = phase.and(command_of(linked, ports, port));
    }
    phase
}

/// The port at a place gives a command at most. There are no more places than the number of a port can say.
fn command_of<T: GroupTable + Drop, L: Link + Drop, I: Inlet + Drop>(
    linked: &mut LinkedNode<T, L, I>,
    ports: &mut Vec<Port>,
    port: usize,
) -> Phase
    requires ports { length ports.old.items ≡ ports_of (held_by (node_of linked.old)) }
    requires place { port < length ports.old.items }
    ensures serves { Serves L.accepts I.gives linked.old ports.old.items linked.new ports.new.items }
    ensures served { result.whole ≡ true → port < 2 ^ 16 → IsServedAt port ports.old.items ports.new.items }
    ensures wanting { result.whole ≡ false → WasWanting L.accepts I.gives linked.old linked.new }
    ensures count { HandNone ports.old.items ports.new.items }
    ensures others { StayBut port ports.old.items ports.new.items }
    ensures logs { LogsOnly IsCommand (log_of linked.old) (log_of linked.new) }
{
    match u16::try_from(port) {
        Ok(place) => command_at(linked, ports, place),
        Err(_) => Phase::idle(),
    }
}

/// The port of this number gives a command at most; what it makes the node send is put at once.
fn command_at<T: GroupTable + Drop, L: Link + Drop, I: Inlet + Drop>(
    linked: &mut LinkedNode<T, L, I>,
    ports: &mut Vec<Port>,
    place: u16,
) -> Phase
    requires ports { length ports.old.items ≡ ports_of (held_by (node_of linked.old)) }
    requires place { place < length ports.old.items }
    ensures serves { Serves L.accepts I.gives linked.old ports.old.items linked.new ports.new.items }
    ensures served { result.whole ≡ true → IsServedAt place ports.old.items ports.new.items }
    ensures wanting { result.whole ≡ false → WasWanting L.accepts I.gives linked.old linked.new }
    ensures count { HandNone ports.old.items ports.new.items }
    ensures others { StayBut place ports.old.items ports.new.items }
    ensures logs { LogsOnly IsCommand (log_of linked.old) (log_of linked.new) }
{
    let port = &mut ports[usize::from(place)];
    let phase = serve(linked, port, place);
    if phase.busy {
        linked.put_waiting();
    }
    phase
}

/// This port, which is at that place, gives a command at most.
fn serve<T: GroupTable + Drop, L: Link + Drop, I: Inlet + Drop>(
    linked: &mut LinkedNode<T, L, I>,
    port: &mut Port,
    place: u16,
) -> Phase
    requires { place < ports_of (held_by (node_of linked.old)) }
    ensures serves { ServesPort L.accepts I.gives place linked.old port.old linked.new port.new }
    ensures served { result.whole ≡ true → IsPortServed port.old port.new }
    ensures wanting { result.whole ≡ false → WasWanting L.accepts I.gives linked.old linked.new }
    ensures count { handed_count port.new ≡ handed_count port.old }
    ensures handed { handed port.new ≡ handed port.old }
    ensures logs { LogsOnly IsCommand (log_of linked.old) (log_of linked.new) }
{
    match port.next() {
        Some(Asked { command, polled }) => match linked.command(place, command) {
            Ok(()) => Phase::of(true, None),
            Err((fault, command)) => {
                port.keep(Asked { command, polled });
                Phase::of(false, Some(fault))
            }
        },
        None => Phase::idle(),
    }
}

/// Answers are handed over at each port.
pub(crate) fn hand_all<T: GroupTable + Drop, L: Link + Drop, I: Inlet + Drop>(
    alloc: Global,
    linked: &LinkedNode<T, L, I>,
    ports: &mut Vec<Port>,
    pauses: &mut Pauses,
) -> Phase
    requires { length ports.old.items ≡ ports_of (held_by (node_of linked.now)) }
    ensures serves { Serves L.accepts I.gives linked.now ports.old.items linked.now ports.new.items }
    ensures kept { KeepTheSame ports.old.items ports.new.items }
    ensures all { result.whole ≡ true → AreHanded (answers_of (held_by (node_of linked.now))) ports.old.items ports.new.items }
    ensures left { result.whole ≡ false → LeavesAnswer (answers_of (held_by (node_of linked.now))) ports.new.items }
    ensures forgets { AllForgetHanded ports.old.items ports.new.items pauses.old pauses.new }
{
    let mut phase = Phase::idle();
    for port in 0..ports.len() {
        phase = phase.and(hand_of(alloc, linked, ports, pauses, port));
    }
    phase
}

/// Answers are handed over at the port at a place, as many as there are places.
fn hand_of<T: GroupTable + Drop, L: Link + Drop, I: Inlet + Drop>(
    alloc: Global,
    linked: &LinkedNode<T, L, I>,
    ports: &mut Vec<Port>,
    pauses: &mut Pauses,
    port: usize,
) -> Phase
    requires ports { length ports.old.items ≡ ports_of (held_by (node_of linked.now)) }
    requires place { port < length ports.old.items }
    ensures serves { Serves L.accepts I.gives linked.now ports.old.items linked.now ports.new.items }
    ensures kept { KeepTheSame ports.old.items ports.new.items }
    ensures all { result.whole ≡ true → port < 2 ^ 16 → IsHandedAt (answers_of (held_by (node_of linked.now))) port ports.old.items ports.new.items }
    ensures left { result.whole ≡ false → LeavesAnswerAt (answers_of (held_by (node_of linked.now))) port ports.new.items }
    ensures others { StayBut port ports.old.items ports.new.items }
    ensures forgets { AllForgetHanded ports.old.items ports.new.items pauses.old pauses.new }
{
    match u16::try_from(port) {
        Ok(place) => hand_at(alloc, linked, ports, pauses, place),
        Err(_) => Phase::idle(),
    }
}

/// Answers are handed over at the port of this number.
fn hand_at<T: GroupTable + Drop, L: Link + Drop, I: Inlet + Drop>(
    alloc: Global,
    linked: &LinkedNode<T, L, I>,
    ports: &mut Vec<Port>,
    pauses: &mut Pauses,
    place: u16,
) -> Phase
    requires ports { length ports.old.items ≡ ports_of (held_by (node_of linked.now)) }
    requires place { place < length ports.old.items }
    ensures serves { Serves L.accepts I.gives linked.now ports.old.items linked.now ports.new.items }
    ensures kept { KeepTheSame ports.old.items ports.new.items }
    ensures all { result.whole ≡ true → IsHandedAt (answers_of (held_by (node_of linked.now))) place ports.old.items ports.new.items }
    ensures left { result.whole ≡ false → LeavesAnswerAt (answers_of (held_by (node_of linked.now))) place ports.new.items }
    ensures others { StayBut place ports.old.items ports.new.items }
    ensures forgets { AllForgetHanded ports.old.items ports.new.items pauses.old pauses.new }
{
    let answers = linked.node().state().answers(place);
    let port = &mut ports[usize::from(place)];
    port.hand_all(alloc, answers, place, pauses)
}
