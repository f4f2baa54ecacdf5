//! What a node does for a peer.

ghost use Rattle.std.specs.Prelude.{◌≡◌, ◌↔◌, ◌⊎◌, ◌<◌, ◌+◌, ◌^◌, true, Err, IfOk, IfErr, OnOk, length};
ghost use Rattle.pg_node_ports.specs.PgMessageTypes.Members.{HasFewMembers};
ghost use Rattle.pg_node_state.specs.declared.state.fault.NodeFault.TheVariants.{Refused, OutOfMemory};
ghost use Rattle.pg_node_ports.specs.PgStep.declared.refusal.Refusal.TheVariants.{NotAMessage};

use crate::state::{NodeFault, NodeState};
use bytes::BytesMut;
use pg_node_ports::{ExchangeFault, GroupTable, Refusal, Update, take_end};
use pg_node_sends::{Done, Outgoing, change_for_peer, forget_node, lock_for_peer};
use pg_term::{Atom, Items, Pid, Reference, Term};
use std::alloc::AllocError;

impl<T: GroupTable + Drop> NodeState<T> {
    ghost use Rattle.pg_node_ports.specs.PgNodeOpens.Places.{name_at};
    ghost use Rattle.pg_node_ports.specs.PgStep.Peers.{lock_request, update_request, lock_freed};
    ghost use Rattle.pg_node_ports.specs.PgStep.Peers.{exchange, process_end, is_bad_exchange, verdict};
    ghost use Rattle.pg_node_ports.specs.PgStep.Losses.{see_loss};
    ghost use Rattle.pg_node_ports.specs.PgStep.Step.{at_clock};
    ghost use Rattle.pg_node_state.specs.Clocks.{IsNow};
    ghost use Rattle.pg_node_state.specs.Issued.{ports_of};
    ghost use Rattle.pg_node_state.specs.States.{Stays};
    ghost use Rattle.pg_node_state.specs.States.{names_of, live_of, kept_by, state_of, answers_of, forgotten_of, IsReported};
    ghost use Rattle.pg_node_sends.specs.Sendable.{AreSendable};

    /// Answers a request for a lock.
    pub(crate) fn serve_lock<S: Outgoing + Drop>(
        &mut self,
        buffer: &mut BytesMut,
        clock: u32,
        peer: usize,
        reference: &Reference,
        name: &Term,
    ) -> Result<Done<S>, AllocError>
        requires now { IsNow self.old.clock clock }
        requires place { peer + 1 < length (names_of self.old) }
        ensures state { OnOk result (state_of self.new
            ≡ (at_clock clock (lock_request (live_of self.old) (name_at (names_of self.old) (peer + 1)) reference.now name.now (kept_by self.old))).state) }
        ensures told { IfOk result (IsReported (names_of self.old)
            (at_clock clock (lock_request (live_of self.old) (name_at (names_of self.old) (peer + 1)) reference.now name.now (kept_by self.old)))) }
        ensures stays { Stays self.old self.new result }
        ensures fits { IfOk result (λ done. AreSendable (names_of self.old) (S.listed done.sends)) }
        ensures answers { answers_of self.new ≡ answers_of self.old }
    {
        let formed = self.formation.formed();
        let done = lock_for_peer(
            self.alloc,
            buffer,
            clock,
            peer,
            &mut self.locks,
            formed,
            reference,
            name,
        )?;
        self.clock = clock;
        Ok(done)
    }

    /// Applies an update for a peer.
    pub(crate) fn serve_update<S: Outgoing + Drop>(
        &mut self,
        buffer: &mut BytesMut,
        clock: u32,
        peer: usize,
        reference: &Reference,
        update: &Update,
    ) -> Result<Done<S>, AllocError>
        requires now { IsNow self.old.clock clock }
        requires place { peer + 1 < length (names_of self.old) }
        ensures state { OnOk result (state_of self.new
            ≡ (at_clock clock (update_request (name_at (names_of self.old) (peer + 1)) reference.now update.now (kept_by self.old))).state) }
        ensures told { IfOk result (IsReported (names_of self.old)
            (at_clock clock (update_request (name_at (names_of self.old) (peer + 1)) reference.now update.now (kept_by self.old)))) }
        ensures stays { Stays self.old self.new result }
        ensures fits { IfOk result (λ done. AreSendable (names_of self.old) (S.listed done.sends)) }
        ensures answers { answers_of self.new ≡ answers_of self.old }
    {
        let done = change_for_peer(
            self.alloc,
            buffer,
            clock,
            peer,
            &mut self.table,
            &self.ended,
            reference,
            update,
        )?;
        self.clock = clock;
        Ok(done)
    }

    /// Frees a lock that a peer gives up.
    pub(crate) fn free_lock<S: Outgoing + Drop>(
        &mut self,
        clock: u32,
        reference: &Reference,
        name: &Term,
    ) -> Done<S>
        requires now { IsNow self.old.clock clock }
        ensures state { state_of self.new
            ≡ (at_clock clock (lock_freed name.now reference.now (kept_by self.old))).state }
        ensures told { IsReported (names_of self.old)
            (at_clock clock (lock_freed name.now reference.now (kept_by self.old))) result }
        ensures names { names_of self.new ≡ names_of self.old }
        ensures ports { ports_of self.new ≡ ports_of self.old }
        ensures forgotten { forgotten_of self.new ≡ forgotten_of self.old }
        ensures fits { AreSendable (names_of self.old) (S.listed result.sends) }
        ensures answers { answers_of self.new ≡ answers_of self.old }
    {
        self.locks.give_up(name, reference);
        self.clock = clock;
        Done::nothing(self.alloc)
    }

    /// Takes in the first groups of a peer.
    ///
    /// Errors: `NotAMessage` where the groups are of another node, or the peer has announced its groups; else
    /// `OutOfMemory`.
    pub(crate) fn take_groups<S: Outgoing + Drop>(
        &mut self,
        clock: u32,
        peer: usize,
        node: &Atom,
        groups: &[(Term, Items<Pid>)],
    ) -> Result<Done<S>, NodeFault>
        requires now { IsNow self.old.clock clock }
        requires place { peer + 1 < length (names_of self.old) }
        requires few { HasFewMembers (2 ^ 32) groups.now }
        ensures state { OnOk result (state_of self.new
            ≡ (at_clock clock (exchange (name_at (names_of self.old) (peer + 1)) groups.now (kept_by self.old))).state) }
        ensures told { IfOk result (IsReported (names_of self.old)
            (at_clock clock (exchange (name_at (names_of self.old) (peer + 1)) groups.now (kept_by self.old)))) }
        ensures bad { (result ≡ Err (Refused NotAMessage))
            ↔ (is_bad_exchange (name_at (names_of self.old) (peer + 1)) node.now (kept_by self.old) ≡ true) }
        ensures fault { IfErr result (λ fault. (fault ≡ Refused NotAMessage) ⊎ (fault ≡ OutOfMemory)) }
        ensures stays { Stays self.old self.new result }
        ensures fits { IfOk result (λ done. AreSendable (names_of self.old) (S.listed done.sends)) }
        ensures answers { answers_of self.new ≡ answers_of self.old }
    {
        if node != self.opens.name(peer + 1) {
            return Err(NodeFault::Refused(Refusal::NotAMessage));
        }
        match self
            .formation
            .take(peer, groups, &mut self.table, &self.ended)
        {
            Ok(()) => {}
            Err(ExchangeFault::NotAMessage) => {
                return Err(NodeFault::Refused(Refusal::NotAMessage));
            }
            Err(ExchangeFault::OutOfMemory) => return Err(NodeFault::OutOfMemory),
        }
        self.clock = clock;
        Ok(Done::nothing(self.alloc))
    }

    /// The same of groups that are given to the node.
    ///
    /// Errors: `NotAMessage` where the groups are of another node, or the peer has announced its groups; else
    /// `OutOfMemory`.
    pub(crate) fn take_owned_groups<S: Outgoing + Drop>(
        &mut self,
        clock: u32,
        peer: usize,
        node: &Atom,
        groups: Vec<(Term, Items<Pid>)>,
    ) -> Result<Done<S>, NodeFault>
        requires now { IsNow self.old.clock clock }
        requires place { peer + 1 < length (names_of self.old) }
        requires few { HasFewMembers (2 ^ 32) groups.items }
        ensures state { OnOk result (state_of self.new
            ≡ (at_clock clock (exchange (name_at (names_of self.old) (peer + 1)) groups.items (kept_by self.old))).state) }
        ensures told { IfOk result (IsReported (names_of self.old)
            (at_clock clock (exchange (name_at (names_of self.old) (peer + 1)) groups.items (kept_by self.old)))) }
        ensures bad { (result ≡ Err (Refused NotAMessage))
            ↔ (is_bad_exchange (name_at (names_of self.old) (peer + 1)) node.now (kept_by self.old) ≡ true) }
        ensures fault { IfErr result (λ fault. (fault ≡ Refused NotAMessage) ⊎ (fault ≡ OutOfMemory)) }
        ensures stays { Stays self.old self.new result }
        ensures fits { IfOk result (λ done. AreSendable (names_of self.old) (S.listed done.sends)) }
        ensures answers { answers_of self.new ≡ answers_of self.old }
    {
        if node != self.opens.name(peer + 1) {
            drop(groups);
            return Err(NodeFault::Refused(Refusal::NotAMessage));
        }
        match self
            .formation
            .take_owned(peer, groups, &mut self.table, &self.ended)
        {
            Ok(()) => {}
            Err(ExchangeFault::NotAMessage) => {
                return Err(NodeFault::Refused(Refusal::NotAMessage));
            }
            Err(ExchangeFault::OutOfMemory) => return Err(NodeFault::OutOfMemory),
        }
        self.clock = clock;
        Ok(Done::nothing(self.alloc))
    }

    /// Takes the end of a process.
    pub(crate) fn take_end<S: Outgoing + Drop>(
        &mut self,
        clock: u32,
        pid: &Pid,
    ) -> Result<Done<S>, AllocError>
        requires now { IsNow self.old.clock clock }
        ensures state { OnOk result (state_of self.new ≡ (at_clock clock (process_end pid.now (kept_by self.old))).state) }
        ensures told { IfOk result (IsReported (names_of self.old) (at_clock clock (process_end pid.now (kept_by self.old)))) }
        ensures stays { Stays self.old self.new result }
        ensures fits { IfOk result (λ done. AreSendable (names_of self.old) (S.listed done.sends)) }
        ensures answers { answers_of self.new ≡ answers_of self.old }
    {
        take_end(pid, &mut self.table, &mut self.ended)?;
        self.clock = clock;
        Ok(Done::nothing(self.alloc))
    }

    /// Sees the loss of a peer.
    pub(crate) fn forget_peer<S: Outgoing + Drop>(
        &mut self,
        clock: u32,
        peer: usize,
    ) -> Result<Done<S>, AllocError>
        requires now { IsNow self.old.clock clock }
        requires place { peer + 1 < length (names_of self.old) }
        ensures state { OnOk result (state_of self.new
            ≡ (at_clock clock (see_loss (name_at (names_of self.old) (peer + 1)) (kept_by self.old))).state) }
        ensures told { IfOk result (IsReported (names_of self.old)
            (at_clock clock (see_loss (name_at (names_of self.old) (peer + 1)) (kept_by self.old)))) }
        ensures stays { Stays self.old self.new result }
        ensures fits { IfOk result (λ done. AreSendable (names_of self.old) (S.listed done.sends)) }
        ensures answers { answers_of self.new ≡ answers_of self.old }
    {
        forget_node(
            &self.opens,
            peer + 1,
            &mut self.ended,
            &mut self.table,
            &mut self.locks,
        )?;
        self.formation.forget(peer);
        self.opens.lose(peer + 1);
        self.clock = clock;
        Ok(Done::nothing(self.alloc))
    }
}
