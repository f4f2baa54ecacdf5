//! A node as its thread runs it, and one turn of it.

ghost use Rattle.std.specs.Prelude.{◌≡◌, cond, length};
ghost use Rattle.pg_node.specs.PgNodeState.Issued.{ports_of};
ghost use Rattle.pg_node.specs.Nodes.{held_by};
ghost use Rattle.pg_node_run.specs.Follows.{node_of};
ghost use Rattle.pg_node_run.specs.declared.run.Turned.TheVariants as Turned;

use crate::linked::LinkedNode;
use crate::losses::see_next;
use crate::notices::{Notice, Notices};
use crate::pauses::Pauses;
use crate::phases::Phase;
use crate::port::Port;
use crate::retries::retry_all;
use crate::serving::{command_all, hand_all};
use pg_node::{GroupTable, Inlet, Link, SlotIn};
use rand_core::Rng;
use std::alloc::Global;

/// How a turn went.
#[derive(Clone, Copy, Debug, PartialEq, Eq)]
pub enum Turned {
    /// All that was there to be done was done.
    Whole,
    /// A growth of memory was refused, or the clock is full.
    Short,
    /// The stop byte came, and nothing was done.
    Stopped,
}

/// How a turn went that was not stopped.
fn turned_by(phase: Phase) -> Turned
    ensures { result ≡ cond phase.whole Turned.Whole Turned.Short }
{
    if phase.whole {
        Turned::Whole
    } else {
        Turned::Short
    }
}

/// A node with its links and its log, its ports, where the stop byte and notices of losses come, and the generator of its pauses.
#[derive(Drop)]
pub struct NodeRun<T: GroupTable, L: Drop, I: Drop, K: Drop> {
    pub(crate) linked: LinkedNode<T, L, I>,
    pub(crate) ports: Vec<Port>,
    pub(crate) stop: I,
    pub(crate) notices: Notices,
    generator: K,
    pub(crate) pauses: Pauses,
    // Something moved or happened in the last turn.
    pub(crate) busy: bool,
    alloc: Global,
    ghost ported: { length ports.items ≡ ports_of (held_by (node_of linked)) },
}

impl<T: GroupTable + Drop, L: Link + Drop, I: Inlet + Drop, K: Rng + Drop> NodeRun<T, L, I, K> {
    ghost use Rattle.std.specs.Prelude.{[], false, None};
    ghost use Rattle.pg_node_run.specs.Notices.{kept_of};
    ghost use Rattle.pg_node_run.specs.Pauses.{is_pausing, wait_of};
    ghost use Rattle.pg_node_run.specs.Tries.{RetriedBy, TurnDid};
    ghost use Rattle.pg_node_run.specs.Runs.{linked_of, ports_at, stop_of, notices_at};
    ghost use Rattle.pg_node_run.specs.Runs.{notices_of, generator_of, busy_of, pauses_of, Runs, TurnedTo};
    ghost use Rattle.pg_node.specs.PgStep.declared.command.OpId.{OpId};

    /// A node that has made no turn.
    ///
    /// Cost: no memory.
    pub fn new(
        alloc: Global,
        linked: LinkedNode<T, L, I>,
        ports: Vec<Port>,
        stop: I,
        notices: SlotIn<Notice>,
        generator: K,
    ) -> NodeRun<T, L, I, K>
        requires { length ports.items ≡ ports_of (held_by (node_of linked)) }
        ensures linked { linked_of result ≡ linked }
        ensures ports { ports_at result ≡ ports.items }
        ensures stop { stop_of result ≡ stop }
        ensures notices { notices_at result ≡ notices }
        ensures kept { kept_of (notices_of result) ≡ [] }
        ensures generator { generator_of result ≡ generator }
        ensures busy { busy_of result ≡ false }
        ensures pauses { (op : OpId) → wait_of (pauses_of result) op ≡ None }
    {
        NodeRun {
            linked,
            ports,
            stop,
            notices: Notices::new(notices),
            generator,
            pauses: Pauses::new(alloc),
            busy: false,
            alloc,
        }
    }

    /// The node with its links and its log.
    ///
    /// Cost: no memory.
    pub fn linked(&self) -> &LinkedNode<T, L, I>
        ensures { result.now ≡ linked_of self.now }
    {
        &self.linked
    }

    /// Whether something moved or happened in the last turn.
    ///
    /// Cost: no memory.
    pub fn is_busy(&self) -> bool
        ensures { result ≡ busy_of self.now }
    {
        self.busy
    }

    /// Whether a command is in a pause, of which each turn takes one off.
    ///
    /// Cost: no memory; O(n) in the commands that have a pause.
    pub fn is_pausing(&self) -> bool
        ensures { result ≡ is_pausing (pauses_of self.now) }
    {
        self.pauses.are_running()
    }

    /// The node with its links and its log, its ports, and where the stop byte and the notices come.
    ///
    /// Cost: no memory.
    pub fn into_parts(self) -> (LinkedNode<T, L, I>, Vec<Port>, I, SlotIn<Notice>)
        ensures linked { result.0 ≡ linked_of self }
        ensures ports { result.1.items ≡ ports_at self }
        ensures stop { result.2 ≡ stop_of self }
        ensures notices { result.3 ≡ notices_at self }
    {
        (self.linked, self.ports, self.stop, self.notices.inlet)
    }

    /// One turn: a look for the stop byte; of each peer up to 4,096 bytes come in, and the next packet is taken; the
    /// loss of which a notice has is seen, once all that came of the lost peer is taken; each port gives a command at
    /// most; each command that waits is tried where its pause is over, or at once where all has come that it gathers;
    /// answers are handed over. What an event makes the node send is put at once, and what a link did not take then
    /// after the retries.
    ///
    /// Cost: that of the bytes that move, of the events, each with a look at each peer, and of copies of the answers
    /// that are handed over; for the retries, where commands are open, that of `NodeState::waiting` and O(n) in the
    /// pauses for each command that waits.
    pub fn turn(&mut self) -> Turned
        ensures runs { Runs L.accepts I.gives self.old self.new }
        ensures stop { TurnedTo I.gives (stop_of self.old) result (stop_of self.new) }
        ensures did { TurnDid L.accepts I.gives L.moves I.moves result self.old self.new }
        ensures retried { RetriedBy L.accepts I.gives L.moves I.moves result self.old self.new }
    {
        let mut stop = [0u8; 1];
        if self.stop.take(&mut stop) > 0 {
            return Turned::Stopped;
        }
        let took = self.linked.take_all();
        let saw = see_next(&mut self.linked, &mut self.notices);
        let commanded = command_all(&mut self.linked, &mut self.ports);
        let retried = retry_all(
            self.alloc,
            &mut self.linked,
            &mut self.pauses,
            &mut self.generator,
        );
        let put = self.linked.put_all();
        let handed = hand_all(self.alloc, &self.linked, &mut self.ports, &mut self.pauses);
        let phase = took
            .and(saw)
            .and(commanded)
            .and(retried)
            .and(put)
            .and(handed);
        self.busy = phase.busy;
        turned_by(phase)
    }
}
