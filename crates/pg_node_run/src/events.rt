//! The events of a node with its links, each of which is logged.

ghost use Rattle.std.specs.Prelude.{◌≡◌, ◌<◌, ◌+◌, ◌^◌, ◌++◌, [], ◌∷◌, true, false, Ok, None, Some};
ghost use Rattle.std.specs.Prelude.{IfOk, IfErr, IfSome, OnOk, OnErr, length, vec_len, vec_capacity};

use crate::linked::LinkedNode;
use crate::log::NodeEvent;
use pg_node::{Command, GroupTable, Held, Inlet, Link, NodeFault, OpId};

impl<T: GroupTable + Drop, L: Link + Drop, I: Inlet + Drop> LinkedNode<T, L, I> {
    ghost use Rattle.pg_node.specs.PgMessageTypes.Members.{IsShort};
    ghost use Rattle.pg_node.specs.Bytes.{next_packet, is_drained, marked, closed};
    ghost use Rattle.pg_node.specs.Links.{at_link};
    ghost use Rattle.pg_node.specs.PgNodeState.Issued.{ports_of};
    ghost use Rattle.pg_node.specs.Nodes.{held_by, links_of};
    ghost use Rattle.pg_node.specs.PgNodeState.States.{names_of, kept_by, state_of};
    ghost use Rattle.pg_node.specs.PgNodeOpens.Places.{name_at};
    ghost use Rattle.pg_node_run.specs.Acts.{Saw, Did};
    ghost use Rattle.pg_node_run.specs.Events.{TookNext, Acted, IsFault, IsRefusedAs};
    ghost use Rattle.pg_node_run.specs.Events.{told_of_peer, told_of_action, told_of_loss};
    ghost use Rattle.pg_node_run.specs.Follows.{node_of, peers_of, log_of};
    ghost use Rattle.pg_node.specs.PgStep.Step.{Issue, Retry};

    /// Takes the next packet of a peer, if its frame is whole, and logs that; whether it did. `peer`: its place among
    /// the peers. The place in the log is got first.
    ///
    /// Errors, by which nothing happens and nothing is logged: those of `Node::take`, of which `TooLong`, `Message`
    /// and `NotAMessage` damage the link; `OutOfMemory` may come in the place of each.
    ///
    /// Cost: that of `Node::take`, and memory for one more entry of the log.
    pub fn take(&mut self, peer: usize) -> Result<bool, NodeFault>
        requires place { peer < length (peers_of self.old) }
        ensures took { TookNext L.accepts I.gives peer result self.old self.new }
        ensures none { result ≡ Ok false → next_packet (links_of (node_of self.old) peer) ≡ Ok None }
        ensures fault { IfErr result (IsFault (told_of_peer (node_of self.old) peer)) }
        ensures same { result ≡ Ok false → links_of (node_of self.new) ≡ links_of (node_of self.old) }
        ensures marked { IfErr result (λ fault. links_of (node_of self.new) ≡ at_link peer (λ l. marked l fault) (links_of (node_of self.old))) }
        ensures peers { peers_of self.new ≡ peers_of self.old }
    {
        if self.node.is_idle(peer) {
            return Ok(false);
        }
        if self.log.reserve(1).is_err() {
            return Err(NodeFault::OutOfMemory);
        }
        match self.node.take(peer) {
            Ok(Some(done)) => {
                self.node.reuse(done);
                self.keep(NodeEvent::Take(peer));
                Ok(true)
            }
            Ok(None) => Ok(false),
            Err(fault) => Err(fault),
        }
    }

    /// Takes a command that comes in at a port, and logs it. `port`: its place among the ports. The command's block and
    /// the place in the log are got first.
    ///
    /// Errors, by which nothing happens, nothing is logged, and the command is handed back: those of `Node::command`;
    /// `OutOfMemory` may come in the place of each.
    ///
    /// Cost: that of `Node::command`, and memory for one more entry of the log and for the command.
    pub fn command(&mut self, port: u16, command: Command) -> Result<(), (NodeFault, Command)>
        requires place { port < ports_of (held_by (node_of self.old)) }
        ensures acted { Acted L.accepts I.gives (Did (Issue port command)) result self.old self.new }
        ensures fault { IfErr result (λ back. IsRefusedAs (told_of_action (node_of self.old) (Issue port command)) back.0) }
        ensures back { IfErr result (λ back. back.1 ≡ command) }
        ensures kept { OnErr result (links_of (node_of self.new) ≡ links_of (node_of self.old)) }
        ensures peers { peers_of self.new ≡ peers_of self.old }
    {
        match Held::new(*self.log.allocator(), command) {
            Ok(command) => self.command_held(port, command),
            Err(command) => Err((NodeFault::OutOfMemory, command)),
        }
    }

    /// Takes a command that comes in at a port, and logs it.
    fn command_held(
        &mut self,
        port: u16,
        command: Held<Command>,
    ) -> Result<(), (NodeFault, Command)>
        requires place { port < ports_of (held_by (node_of self.old)) }
        ensures acted { Acted L.accepts I.gives (Did (Issue port command)) result self.old self.new }
        ensures fault { IfErr result (λ back. IsRefusedAs (told_of_action (node_of self.old) (Issue port command)) back.0) }
        ensures back { IfErr result (λ back. back.1 ≡ command) }
        ensures kept { OnErr result (links_of (node_of self.new) ≡ links_of (node_of self.old)) }
        ensures peers { peers_of self.new ≡ peers_of self.old }
    {
        if self.log.reserve(1).is_err() {
            return Err((NodeFault::OutOfMemory, command.into_inner()));
        }
        match self.node.command(port, command.get()) {
            Ok(done) => {
                self.node.reuse(done);
                self.keep(NodeEvent::Command(port, command));
                Ok(())
            }
            Err(fault) => Err((fault, command.into_inner())),
        }
    }

    /// Tries a command again that waits, and logs that. The place in the log is got first.
    ///
    /// Errors, by which nothing happens and nothing is logged: those of `Node::retry`; `OutOfMemory` may come in
    /// the place of each.
    ///
    /// Cost: that of `Node::retry`, and memory for one more entry of the log.
    pub fn retry(&mut self, op: OpId) -> Result<(), NodeFault>
        requires place { op.port < ports_of (held_by (node_of self.old)) }
        ensures acted { Acted L.accepts I.gives (Did (Retry op)) result self.old self.new }
        ensures fault { IfErr result (λ fault. IsRefusedAs (told_of_action (node_of self.old) (Retry op)) fault) }
        ensures kept { OnErr result (links_of (node_of self.new) ≡ links_of (node_of self.old)) }
        ensures peers { peers_of self.new ≡ peers_of self.old }
    {
        if self.log.reserve(1).is_err() {
            return Err(NodeFault::OutOfMemory);
        }
        match self.node.retry(op) {
            Ok(done) => {
                self.node.reuse(done);
                self.keep(NodeEvent::Retry(op));
                Ok(())
            }
            Err(fault) => Err(fault),
        }
    }

    /// Sees the loss of a peer, and logs that; what waits for it is dropped. `peer`: its place among the peers.
    /// `last`: its clock at last. The place in the log is got first.
    ///
    /// Errors, by which nothing happens and nothing is logged: those of `Node::see_loss`; `OutOfMemory` may come
    /// in the place of each.
    ///
    /// Cost: that of `Node::see_loss`, and memory for one more entry of the log.
    pub fn see_loss(&mut self, peer: usize, last: u32) -> Result<(), NodeFault>
        requires place { peer < length (peers_of self.old) }
        ensures acted { Acted L.accepts I.gives (Saw peer last) result self.old self.new }
        ensures drained { OnOk result (is_drained (links_of (node_of self.old) peer) ≡ true) }
        ensures fault { IfErr result (IsRefusedAs (told_of_loss (node_of self.old) peer last)) }
        ensures closed { OnOk result (links_of (node_of self.new) ≡ at_link peer closed (links_of (node_of self.old))) }
        ensures kept { OnErr result (links_of (node_of self.new) ≡ links_of (node_of self.old)) }
        ensures peers { peers_of self.new ≡ peers_of self.old }
    {
        if self.log.reserve(1).is_err() {
            return Err(NodeFault::OutOfMemory);
        }
        match self.node.see_loss(peer, last) {
            Ok(done) => {
                self.node.reuse(done);
                self.keep(NodeEvent::SeeLoss(peer));
                Ok(())
            }
            Err(fault) => Err(fault),
        }
    }

    /// Logs an event that happened, with the clock that it set. There is room for it.
    ///
    /// Cost: no memory.
    fn keep(&mut self, event: NodeEvent)
        requires room { vec_len self.old.log < vec_capacity self.old.log }
        ensures log { log_of self.new ≡ log_of self.old ++ ((state_of (held_by (node_of self.old))).clock, event) ∷ [] }
        ensures node { node_of self.new ≡ node_of self.old }
        ensures peers { peers_of self.new ≡ peers_of self.old }
    {
        let clock = self.node.state().clock();
        self.log.push_reserved((clock, event));
    }
}
