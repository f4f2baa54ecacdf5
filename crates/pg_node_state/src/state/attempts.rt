//! How an attempt of a command of the node begins, and what follows at once.

ghost use Rattle.std.specs.Prelude.{◌≡◌, ◌≤◌, ◌<◌, ◌+◌, ◌*◌, ◌^◌, true, false, IfOk, length};
ghost use Rattle.pg_node_ports.specs.PgGroup.declared.update.Update.{Update};
ghost use Rattle.pg_node_ports.specs.PgGroup.Value.{count_in, name_of};
ghost use Rattle.pg_node_ports.specs.PgMessageTypes.Limits.{max_stamp};
ghost use Rattle.pg_node_ports.specs.PgNodeOpens.Readings.{stage_seen};
ghost use Rattle.pg_node_ports.specs.PgNodeOpens.declared.command.Stage.TheVariants as seen;
ghost use Rattle.pg_node_ports.specs.PgStep.declared.command.OpId.{OpId};
ghost use Rattle.pg_node_ports.specs.PgStep.Nodes.{Node, greatest, is_peer};
ghost use Rattle.pg_node_ports.specs.PgStep.Peers.{would_grant};
ghost use Rattle.pg_node_ports.specs.PgStep.State.Stage.{Waiting};
ghost use Rattle.pg_term.specs.declared.pid.Pid.{Pid};
ghost use Rattle.pg_term.specs.declared.term.Term.{Term};

use crate::state::NodeState;
use crate::state::first::{ask_first, end_alone};
use bytes::BytesMut;
use pg_node_ports::{Asked, GroupTable, OpId, Reply, keep_reserved, reserve_answer};
use pg_node_sends::{
    Done, Outgoing, all_asked, ask_own, began_alone, first_asked, has_peer, own_under,
    waiting_under,
};
use std::alloc::AllocError;

impl<T: GroupTable + Drop> NodeState<T> {
    ghost use Rattle.pg_node_ports.specs.PgNodeOpens.Places.{name_at};
    ghost use Rattle.pg_node_ports.specs.PgStep.Attempts.{attempt};
    ghost use Rattle.pg_node_ports.specs.PgStep.Step.{at_clock};
    ghost use Rattle.pg_node_state.specs.Issued.{ports_of};
    ghost use Rattle.pg_node_sends.specs.Sendable.{AreSendable};
    ghost use Rattle.pg_node_state.specs.States.{Stays};
    ghost use Rattle.pg_node_state.specs.States.{names_of, live_of, kept_by, state_of, answers_of, forgotten_of, Happens};

    /// Begins an attempt of a command that waits: the greatest live node is asked for the lock, alone, and what
    /// follows is done at once where it is the own one.
    pub(crate) fn attempt<S: Outgoing + Drop>(
        &mut self,
        buffer: &mut BytesMut,
        clock: u32,
        op: OpId,
    ) -> Result<Done<S>, AllocError>
        requires later { self.old.clock ≤ clock }
        requires within { clock ≤ max_stamp }
        requires made { (kept_by self.old).references + 2 ≤ 2 * clock }
        requires few { (name : Term) (pid : Pid) → count_in (T.contents self.old.table name) pid + 1 ≤ 2 ^ 32 + clock }
        requires waits { stage_seen ((kept_by self.old).stages op) ≡ seen.Waiting }
        ensures happens { (update : Update) → (kept_by self.old).stages op ≡ Waiting update → IfOk result (λ done. Happens (names_of self.old)
            (at_clock clock (attempt (live_of self.old) op update (kept_by self.old)))
            done (state_of self.new) (answers_of self.old) (answers_of self.new)) }
        ensures stays { Stays self.old self.new result }
        ensures fits { IfOk result (λ done. AreSendable (names_of self.old) (S.listed done.sends)) }
    {
        let first = self.opens.greatest();
        if first != 0 {
            return self.ask_greatest(buffer, clock, op, first);
        }
        if !self.would_grant_to(op) {
            return Ok(self.deny_itself(clock, op));
        }
        if has_peer(&self.opens) {
            self.ask_everyone(buffer, clock, op)
        } else {
            self.change_alone(clock, op)
        }
    }

    /// The greatest node is asked, which is a peer. `first`: its place, by the names.
    fn ask_greatest<S: Outgoing + Drop>(
        &mut self,
        buffer: &mut BytesMut,
        clock: u32,
        op: OpId,
        first: usize,
    ) -> Result<Done<S>, AllocError>
        requires later { self.old.clock ≤ clock }
        requires within { clock ≤ max_stamp }
        requires made { (kept_by self.old).references + 2 ≤ 2 * clock }
        requires few { (name : Term) (pid : Pid) → count_in (T.contents self.old.table name) pid + 1 ≤ 2 ^ 32 + clock }
        requires waits { stage_seen ((kept_by self.old).stages op) ≡ seen.Waiting }
        requires place { first < length (names_of self.old) }
        requires apart { 0 < first }
        requires peer { is_peer (live_of self.old) (name_at (names_of self.old) first) ≡ true }
        requires greatest { name_at (names_of self.old) first ≡ greatest (live_of self.old) }
        ensures happens { (update : Update) → (kept_by self.old).stages op ≡ Waiting update → IfOk result (λ done. Happens (names_of self.old)
            (at_clock clock (attempt (live_of self.old) op update (kept_by self.old)))
            done (state_of self.new) (answers_of self.old) (answers_of self.new)) }
        ensures stays { Stays self.old self.new result }
        ensures fits { IfOk result (λ done. AreSendable (names_of self.old) (S.listed done.sends)) }
    {
        let done = first_asked(self.alloc, buffer, clock, &self.opens, op, first)?;
        let granted = self.would_grant_to(op);
        ask_first(&mut self.opens, op, first, granted);
        self.clock = clock;
        Ok(done)
    }

    /// The own node is the greatest, and denies the lock: the command waits.
    fn deny_itself<S: Outgoing + Drop>(&mut self, clock: u32, op: OpId) -> Done<S>
        requires later { self.old.clock ≤ clock }
        requires within { clock ≤ max_stamp }
        requires made { (kept_by self.old).references + 2 ≤ 2 * clock }
        requires few { (name : Term) (pid : Pid) → count_in (T.contents self.old.table name) pid + 1 ≤ 2 ^ 32 + clock }
        requires waits { stage_seen ((kept_by self.old).stages op) ≡ seen.Waiting }
        requires own { name_at (names_of self.old) 0 ≡ greatest (live_of self.old) }
        requires denies { (update : Update) → (kept_by self.old).stages op ≡ Waiting update → would_grant (live_of self.old) (kept_by self.old) (name_of update) ≡ false }
        ensures happens { (update : Update) → (kept_by self.old).stages op ≡ Waiting update → Happens (names_of self.old)
            (at_clock clock (attempt (live_of self.old) op update (kept_by self.old)))
            result (state_of self.new) (answers_of self.old) (answers_of self.new) }
        ensures names { names_of self.new ≡ names_of self.old }
        ensures ports { ports_of self.new ≡ ports_of self.old }
        ensures forgotten { forgotten_of self.new ≡ forgotten_of self.old }
        ensures fits { AreSendable (names_of self.old) (S.listed result.sends) }
    {
        let number = self.opens.references() + 1;
        ask_first(&mut self.opens, op, 0, false);
        self.opens.give_up(number);
        self.clock = clock;
        Done::nothing(self.alloc)
    }

    /// The own node is the greatest, and grants the lock: every live peer is asked.
    fn ask_everyone<S: Outgoing + Drop>(
        &mut self,
        buffer: &mut BytesMut,
        clock: u32,
        op: OpId,
    ) -> Result<Done<S>, AllocError>
        requires later { self.old.clock ≤ clock }
        requires within { clock ≤ max_stamp }
        requires made { (kept_by self.old).references + 2 ≤ 2 * clock }
        requires few { (name : Term) (pid : Pid) → count_in (T.contents self.old.table name) pid + 1 ≤ 2 ^ 32 + clock }
        requires waits { stage_seen ((kept_by self.old).stages op) ≡ seen.Waiting }
        requires own { name_at (names_of self.old) 0 ≡ greatest (live_of self.old) }
        requires grants { (update : Update) → (kept_by self.old).stages op ≡ Waiting update → would_grant (live_of self.old) (kept_by self.old) (name_of update) ≡ true }
        requires some { (q : Node) × (is_peer (live_of self.old) q ≡ true) }
        ensures happens { (update : Update) → (kept_by self.old).stages op ≡ Waiting update → IfOk result (λ done. Happens (names_of self.old)
            (at_clock clock (attempt (live_of self.old) op update (kept_by self.old)))
            done (state_of self.new) (answers_of self.old) (answers_of self.new)) }
        ensures stays { Stays self.old self.new result }
        ensures fits { IfOk result (λ done. AreSendable (names_of self.old) (S.listed done.sends)) }
    {
        let done = all_asked(self.alloc, buffer, clock, &self.opens, op)?;
        let number = self.opens.references() + 1;
        let name = waiting_under(&self.opens, op).name();
        let lock = own_under(&self.opens, number);
        match ask_own(&mut self.locks, true, name, lock) {
            Ok(()) => {
                ask_first(&mut self.opens, op, 0, true);
                // The own node was asked, so that it does not matter what it would answer now: it holds the lock.
                self.opens.ask(number, Asked::All, false);
                self.clock = clock;
                Ok(done)
            }
            Err(fault) => {
                drop(done);
                Err(fault)
            }
        }
    }

    /// The own node grants the lock, and no peer counts: the update is applied, and the command ends.
    fn change_alone<S: Outgoing + Drop>(
        &mut self,
        clock: u32,
        op: OpId,
    ) -> Result<Done<S>, AllocError>
        requires later { self.old.clock ≤ clock }
        requires within { clock ≤ max_stamp }
        requires made { (kept_by self.old).references + 2 ≤ 2 * clock }
        requires few { (name : Term) (pid : Pid) → count_in (T.contents self.old.table name) pid + 1 ≤ 2 ^ 32 + clock }
        requires waits { stage_seen ((kept_by self.old).stages op) ≡ seen.Waiting }
        requires own { name_at (names_of self.old) 0 ≡ greatest (live_of self.old) }
        requires grants { (update : Update) → (kept_by self.old).stages op ≡ Waiting update → would_grant (live_of self.old) (kept_by self.old) (name_of update) ≡ true }
        requires alone { (q : Node) → is_peer (live_of self.old) q ≡ false }
        ensures happens { (update : Update) → (kept_by self.old).stages op ≡ Waiting update → IfOk result (λ done. Happens (names_of self.old)
            (at_clock clock (attempt (live_of self.old) op update (kept_by self.old)))
            done (state_of self.new) (answers_of self.old) (answers_of self.new)) }
        ensures stays { Stays self.old self.new result }
        ensures fits { IfOk result (λ done. AreSendable (names_of self.old) (S.listed done.sends)) }
    {
        reserve_answer(&mut self.ports, op.port)?;
        let done = began_alone(self.alloc, &self.opens, op)?;
        let update = waiting_under(&self.opens, op);
        match self.table.apply(update, &self.ended) {
            Ok(()) => {
                end_alone(&mut self.opens, op);
                keep_reserved(&mut self.ports, op, Reply::Ok);
                self.clock = clock;
                Ok(done)
            }
            Err(fault) => {
                drop(done);
                Err(fault)
            }
        }
    }

    /// Whether the own node would grant the lock to a command that waits.
    fn would_grant_to(&self, op: OpId) -> bool
        requires { stage_seen ((kept_by self.now).stages op) ≡ seen.Waiting }
        ensures { (update : Update) → (kept_by self.now).stages op ≡ Waiting update → result ≡ would_grant (live_of self.now) (kept_by self.now) (name_of update) }
    {
        let name = waiting_under(&self.opens, op).name();
        self.locks.grants(self.formation.formed(), name)
    }
}
