//! What follows once answers to a command of the node are in.

ghost use Rattle.std.specs.Prelude.{◌≡◌, ◌<◌, ◌+◌, Bool, true, false, IfOk};
ghost use Rattle.pg_node_ports.specs.PgGroup.declared.update.Update.{Update};
ghost use Rattle.pg_node_ports.specs.PgGroup.Value.{name_of};
ghost use Rattle.pg_node_ports.specs.PgNodeOpens.Outlooks.{turn_by};
ghost use Rattle.pg_node_ports.specs.PgNodeOpens.Readings.{is_locking};
ghost use Rattle.pg_node_ports.specs.PgNodeOpens.declared.outlook.Outlook.TheVariants as outlooks;
ghost use Rattle.pg_node_ports.specs.PgStep.declared.command.OpId.{OpId};
ghost use Rattle.pg_node_ports.specs.PgStep.Nodes.{Node, is_peer};
ghost use Rattle.pg_node_ports.specs.PgStep.Peers.{would_grant};
ghost use Rattle.pg_node_ports.specs.PgStep.State.{Status};
ghost use Rattle.pg_node_ports.specs.PgStep.State.Use.{Locking, Updating};

use crate::state::NodeState;
use bytes::BytesMut;
use pg_node_ports::{
    Asked, GroupTable, OpId, Outlook, Reply, keep_reserved, reserve_answer, steps_go_by_outlook,
};
use pg_node_sends::{
    Done, Outgoing, apply_own, ask_own, asked, begun, ended, free_own, freed, give_up_own,
    has_peer, own_under, update_under,
};
use pg_term::equality;
use std::alloc::AllocError;

impl<T: GroupTable + Drop> NodeState<T> {
    ghost use Rattle.pg_node_ports.specs.PgNodeOpens.Readings.{gathering_of};
    ghost use Rattle.pg_node_ports.specs.PgNodeOpens.declared.command.Gathering.TheVariants as gatherings;
    ghost use Rattle.pg_node_ports.specs.PgStep.Attempts.{ask, begin, finish, give_up, go_on};
    ghost use Rattle.pg_node_ports.specs.PgStep.Step.{at_clock};
    ghost use Rattle.pg_node_ports.specs.PgStep.Turns.{becomes};
    ghost use Rattle.pg_node_state.specs.Clocks.{IsNow};
    ghost use Rattle.pg_node_state.specs.Issued.{ports_of};
    ghost use Rattle.pg_node_state.specs.States.{Stays};
    ghost use Rattle.pg_node_state.specs.States.{names_of, live_of, kept_by, state_of, answers_of, forgotten_of, Happens};
    ghost use Rattle.pg_node_sends.specs.Sendable.{AreSendable};

    /// Gives an attempt up: frees the lock at each node that granted it. `number`: the one of its reference.
    pub(crate) fn stop_asking<S: Outgoing + Drop>(
        &mut self,
        buffer: &mut BytesMut,
        clock: u32,
        number: u32,
    ) -> Result<Done<S>, AllocError>
        requires now { IsNow self.old.clock clock }
        requires locking { is_locking ((kept_by self.old).uses number) ≡ true }
        ensures happens { (op : OpId) (update : Update) (first : Node) (st : Node → Status) → (kept_by self.old).uses number ≡ Locking op update first st
            → IfOk result (λ done. Happens (names_of self.old) (at_clock clock
            (give_up (live_of self.old) number op update st (kept_by self.old)))
            done (state_of self.new) (answers_of self.old) (answers_of self.new)) }
        ensures stays { Stays self.old self.new result }
        ensures fits { IfOk result (λ done. AreSendable (names_of self.old) (S.listed done.sends)) }
    {
        let done = freed(self.alloc, buffer, clock, &self.opens, number)?;
        let granted = self.opens.has_granted(number, 0);
        let name = update_under(&self.opens, number).name();
        let lock = own_under(&self.opens, number);
        free_own(&mut self.locks, granted, name, lock);
        self.opens.give_up(number);
        self.clock = clock;
        Ok(done)
    }

    /// Asks for the lock those that were not asked, the own node too. `number`: the one of its reference.
    pub(crate) fn ask_rest<S: Outgoing + Drop>(
        &mut self,
        buffer: &mut BytesMut,
        clock: u32,
        number: u32,
    ) -> Result<Done<S>, AllocError>
        requires now { IsNow self.old.clock clock }
        requires locking { is_locking ((kept_by self.old).uses number) ≡ true }
        ensures happens { (op : OpId) (update : Update) (first : Node) (st : Node → Status) → (kept_by self.old).uses number ≡ Locking op update first st
            → IfOk result (λ done. Happens (names_of self.old) (at_clock clock
            (ask (live_of self.old) (λ q. true) number op update first st (kept_by self.old)))
            done (state_of self.new) (answers_of self.old) (answers_of self.new)) }
        ensures stays { Stays self.old self.new result }
        ensures fits { IfOk result (λ done. AreSendable (names_of self.old) (S.listed done.sends)) }
    {
        let done = asked(self.alloc, buffer, clock, &self.opens, number)?;
        let granted = self.would_grant(number);
        let asks = self.opens.is_asked_by(number, Asked::All, 0) & granted;
        let name = update_under(&self.opens, number).name();
        let lock = own_under(&self.opens, number);
        match ask_own(&mut self.locks, asks, name, lock) {
            Ok(()) => {
                self.opens.ask(number, Asked::All, granted);
                self.clock = clock;
                Ok(done)
            }
            Err(fault) => {
                drop(done);
                Err(fault)
            }
        }
    }

    /// Begins the update of a command that all have granted, once the rest was asked: it has a new reference, changes the own
    /// table, and goes to every live peer. `number`: the one of the reference of its lock.
    pub(crate) fn begin<S: Outgoing + Drop>(
        &mut self,
        buffer: &mut BytesMut,
        clock: u32,
        number: u32,
        op: OpId,
    ) -> Result<Done<S>, AllocError>
        requires now { IsNow self.old.clock clock }
        requires locking { gathering_of ((kept_by self.old).uses number) ≡ gatherings.Lock op }
        ensures happens { (update : Update) (first : Node) (st : Node → Status) → (kept_by self.old).uses number ≡ Locking op update first st
            → IfOk result (λ done. Happens (names_of self.old) (at_clock clock
            (begin (live_of self.old) number op update (ask (live_of self.old) (λ q. true) number op update first st (kept_by self.old)).state))
            done (state_of self.new) (answers_of self.old) (answers_of self.new)) }
        ensures stays { Stays self.old self.new result }
        ensures fits { IfOk result (λ done. AreSendable (names_of self.old) (S.listed done.sends)) }
    {
        let done = begun(self.alloc, buffer, clock, &self.opens, number, op)?;
        let granted = self.would_grant(number);
        let asks = self.opens.is_asked_by(number, Asked::All, 0) & granted;
        let update = update_under(&self.opens, number);
        let lock = own_under(&self.opens, number);
        match apply_own(
            &mut self.locks,
            &mut self.table,
            &self.ended,
            asks,
            update,
            lock,
        ) {
            Ok(()) => {
                self.opens.ask(number, Asked::All, granted);
                self.opens.begin(number);
                self.clock = clock;
                Ok(done)
            }
            Err(fault) => {
                drop(done);
                Err(fault)
            }
        }
    }

    /// Ends a command whose update every node has applied: frees the lock everywhere, and answers ok. `number`: the one of
    /// the reference of its update; `lock`: the one of its lock.
    pub(crate) fn finish<S: Outgoing + Drop>(
        &mut self,
        buffer: &mut BytesMut,
        clock: u32,
        number: u32,
        op: OpId,
        lock: u32,
    ) -> Result<Done<S>, AllocError>
        requires now { IsNow self.old.clock clock }
        requires updating { gathering_of ((kept_by self.old).uses number) ≡ gatherings.Update op lock }
        ensures happens { (update : Update) (replied : Node → Bool) → (kept_by self.old).uses number ≡ Updating op update lock replied
            → IfOk result (λ done. Happens (names_of self.old) (at_clock clock
            (finish (live_of self.old) number op update lock (kept_by self.old)))
            done (state_of self.new) (answers_of self.old) (answers_of self.new)) }
        ensures stays { Stays self.old self.new result }
        ensures fits { IfOk result (λ done. AreSendable (names_of self.old) (S.listed done.sends)) }
    {
        reserve_answer(&mut self.ports, op.port)?;
        let done = ended(self.alloc, buffer, clock, &self.opens, number, lock)?;
        keep_reserved(&mut self.ports, op, Reply::Ok);
        let name = update_under(&self.opens, number).name();
        let held = own_under(&self.opens, lock);
        give_up_own(&mut self.locks, name, held);
        self.opens.finish(number);
        self.clock = clock;
        Ok(done)
    }

    /// Begins the update of a command that all have granted, at a node of which no peer counts: the command ends at once.
    fn begin_alone<S: Outgoing + Drop>(
        &mut self,
        buffer: &mut BytesMut,
        clock: u32,
        number: u32,
        op: OpId,
    ) -> Result<Done<S>, AllocError>
        requires now { IsNow self.old.clock clock }
        requires locking { gathering_of ((kept_by self.old).uses number) ≡ gatherings.Lock op }
        requires alone { (q : Node) → is_peer (live_of self.old) q ≡ false }
        ensures happens { (update : Update) (first : Node) (st : Node → Status) → (kept_by self.old).uses number ≡ Locking op update first st
            → IfOk result (λ done. Happens (names_of self.old) (at_clock clock
            (turn_by outlooks.Begin (live_of self.old) number op update first st (kept_by self.old)))
            done (state_of self.new) (answers_of self.old) (answers_of self.new)) }
        ensures stays { Stays self.old self.new result }
        ensures fits { IfOk result (λ done. AreSendable (names_of self.old) (S.listed done.sends)) }
    {
        reserve_answer(&mut self.ports, op.port)?;
        let done = begun(self.alloc, buffer, clock, &self.opens, number, op)?;
        let granted = self.would_grant(number);
        let changing = self.opens.references() + 1;
        let update = update_under(&self.opens, number);
        let lock = own_under(&self.opens, number);
        match self.table.apply(update, &self.ended) {
            Ok(()) => {
                equality();
                give_up_own(&mut self.locks, update.name(), lock);
                self.opens.ask(number, Asked::All, granted);
                self.opens.begin(number);
                self.opens.finish(changing);
                keep_reserved(&mut self.ports, op, Reply::Ok);
                self.clock = clock;
                Ok(done)
            }
            Err(fault) => {
                drop(done);
                Err(fault)
            }
        }
    }

    /// What follows once the answers to a request for the lock are in. `number`: the one of its reference.
    pub(crate) fn go_on<S: Outgoing + Drop>(
        &mut self,
        buffer: &mut BytesMut,
        clock: u32,
        number: u32,
        op: OpId,
    ) -> Result<Done<S>, AllocError>
        requires now { IsNow self.old.clock clock }
        requires locking { gathering_of ((kept_by self.old).uses number) ≡ gatherings.Lock op }
        ensures happens { IfOk result (λ done. Happens (names_of self.old) (at_clock clock
            (go_on (live_of self.old) number ((kept_by self.old).uses number) (kept_by self.old)))
            done (state_of self.new) (answers_of self.old) (answers_of self.new)) }
        ensures stays { Stays self.old self.new result }
        ensures fits { IfOk result (λ done. AreSendable (names_of self.old) (S.listed done.sends)) }
    {
        steps_go_by_outlook();
        let granted = self.would_grant(number);
        match self.opens.outlook(number, granted) {
            Outlook::Wait => Ok(self.wait(clock)),
            Outlook::GiveUp => self.stop_asking(buffer, clock, number),
            Outlook::Ask => self.ask_rest(buffer, clock, number),
            Outlook::Begin => {
                if has_peer(&self.opens) {
                    self.begin(buffer, clock, number, op)
                } else {
                    self.begin_alone(buffer, clock, number, op)
                }
            }
        }
    }

    /// Nothing follows yet.
    pub(crate) fn wait<S: Outgoing + Drop>(&mut self, clock: u32) -> Done<S>
        requires now { IsNow self.old.clock clock }
        ensures happens { Happens (names_of self.old) (at_clock clock (becomes (kept_by self.old))) result (state_of self.new) (answers_of self.old) (answers_of self.new) }
        ensures names { names_of self.new ≡ names_of self.old }
        ensures ports { ports_of self.new ≡ ports_of self.old }
        ensures forgotten { forgotten_of self.new ≡ forgotten_of self.old }
        ensures fits { AreSendable (names_of self.old) (S.listed result.sends) }
    {
        self.clock = clock;
        Done::nothing(self.alloc)
    }

    /// Whether the own node would grant the lock that is asked for under the reference of this number.
    fn would_grant(&self, number: u32) -> bool
        requires { is_locking ((kept_by self.now).uses number) ≡ true }
        ensures { (op : OpId) (update : Update) (first : Node) (st : Node → Status) → (kept_by self.now).uses number ≡ Locking op update first st
            → result ≡ would_grant (live_of self.now) (kept_by self.now) (name_of update) }
    {
        let name = update_under(&self.opens, number).name();
        self.locks.grants(self.formation.formed(), name)
    }
}
