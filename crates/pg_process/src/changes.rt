//! Changes that come in at the ports: they wait, are handed over to the node, and are tried again where they were denied their lock.

use crate::fault::ProcessFault;
use crate::mirror::{began, ends_by, finished_by, groups_left, tell_applied, tell_finished};
use crate::process::Process;
use pg_node::{Command, Done, Framed, IndexTable, NodeFault, NodeState, OpId, Refusal};
use pg_node_process::{Mark, Numbered, Outlet, Seen, Taken};
use pg_node_requests::refused;
use pg_term::Term;
use pg_term::faults::BUSY;
use std::alloc::{AllocError, Global};

impl Process {
    ghost use Rattle.std.specs.Prelude.{◌≡◌, ◌⊎◌, ◌≤◌, ◌<◌, ◌+◌, true, false, None, Ok, Err, IfOk, IfErr, OnOk, OnErr, length, [], option_copied};
    ghost use Rattle.pg_node.specs.Nodes.{held_by};
    ghost use Rattle.pg_node.specs.PgNodeState.Issued.{ports_of};
    ghost use Rattle.pg_node.specs.PgStep.declared.refusal.Refusal.{Refusal};
    ghost use Rattle.pg_node_process.specs.Desks.{Port};
    ghost use Rattle.pg_node_run.specs.Acts.{Act};
    ghost use Rattle.pg_process.specs.Chains.{Fails, Makes, Rests, Silent};
    ghost use Rattle.pg_process.specs.Changes.{HandsOver, Refuses, Retries, StopsHanding, StopsTrying};
    ghost use Rattle.pg_process.specs.Deeds.{Declined, Handed, Looked, Queued, Tried};
    ghost use Rattle.pg_process.specs.Locks.{change_of, lock_seen, seen_of};
    ghost use Rattle.pg_process.specs.Situations.{setting_of, situation_of};

    /// A change comes in at a port: it waits for its turn, or is refused where 1,024 do.
    ///
    /// Errors: `OutOfMemory`.
    pub fn queue(&mut self, port: usize, command: Command) -> Result<(), ProcessFault>
        requires { port < ports_of (held_by self.old.node) }
        ensures made { OnOk result (Makes (Queued port command) self.old self.new) }
        ensures failed { IfErr result (λ fault. Fails (Queued port command) fault self.old self.new) }
    {
        match self.desks[port].take_in(command)? {
            Taken::Waits => Ok(()),
            Taken::Full(number) => {
                let reply = refused(self.alloc, BUSY)?;
                self.say(port, number, reply)
            }
        }
    }

    /// Hands the change that waits for longest over to the node, where none is with it; whether it did. A change that the node refuses is
    /// answered by that.
    ///
    /// Errors: `ClockFull`, where the step says so; `OutOfMemory`.
    ///
    /// Cost: that of `Node::command`.
    pub fn hand_over(&mut self, port: usize) -> Result<bool, ProcessFault>
        requires { port < ports_of (held_by self.old.node) }
        ensures made { IfOk result (λ handed. HandsOver port handed self.old self.new) }
        ensures failed { IfErr result (λ fault. StopsHanding port fault self.old self.new) }
    {
        if !self.desks[port].next() {
            return Ok(false);
        }
        let Some(change) = self.desks[port].current() else {
            return Ok(false);
        };
        let left = groups_left_by(
            self.told.mirrored,
            self.alloc,
            self.node.state(),
            &change.command,
        );
        let Ok(names) = left else {
            return Err(ProcessFault::OutOfMemory);
        };
        match self.node.command(port as u16, &change.command) {
            Ok(done) => {
                match self.journal.put_mark(Mark::Handed(port as u8 + 1)) {
                    Ok(()) => {}
                    Err(AllocError) => {
                        drop(done);
                        drop(names);
                        return Err(ProcessFault::OutOfMemory);
                    }
                }
                let told = tell_command(
                    self.told.mirrored,
                    &mut self.outlet,
                    self.alloc,
                    self.node.state(),
                    &change.command,
                    names.as_slice(),
                    &done,
                );
                self.node.reuse(done);
                drop(names);
                match told {
                    Ok(()) => Ok(true),
                    Err(AllocError) => Err(ProcessFault::OutOfMemory),
                }
            }
            Err(NodeFault::Refused(refusal)) => {
                drop(names);
                match refusal {
                    Refusal::ClockFull => Err(ProcessFault::ClockFull),
                    _ => match self.decline(port, refusal.number()) {
                        Ok(()) => Ok(true),
                        Err(_) => Err(ProcessFault::OutOfMemory),
                    },
                }
            }
            Err(NodeFault::OutOfMemory) => {
                drop(names);
                Err(ProcessFault::OutOfMemory)
            }
            // These are told of what came in only.
            Err(NodeFault::Message(_) | NodeFault::TooLong | NodeFault::Damaged) => unreachable!(),
        }
    }

    /// The change that is with the node is refused by this number, which is its answer.
    ///
    /// Errors: `OutOfMemory`, which says nothing.
    fn decline(&mut self, port: usize, number: u8) -> Result<(), ProcessFault>
        requires { port < ports_of (held_by self.old.node) }
        ensures made { OnOk result (Refuses port number self.old self.new) }
        ensures failed { IfErr result (λ fault. (refusal : Refusal) → Fails (Declined port refusal) fault self.old self.new) }
    {
        self.mark(Mark::Handed(port as u8 + 1))?;
        let change = self.desks[port].answered().unwrap_or(0);
        let reply = refused(self.alloc, number)?;
        self.say(port, change, reply)
    }

    /// A port looks at the lock of the group that its change is of, or its next one; what it saw.
    ///
    /// Cost: no memory.
    pub fn look(&mut self, port: usize, is_tick: bool) -> Seen
        requires { port < ports_of (held_by self.old.node) }
        ensures made { Makes (Looked port result is_tick) self.old self.new }
    {
        let seen = self.seen(port);
        self.courtesies[port].look(seen, is_tick);
        seen
    }

    /// What is seen of the lock of the group that the change of a port is of, or its next one.
    fn seen(&self, port: usize) -> Seen
        requires { port < ports_of (held_by self.now.node) }
        ensures { result ≡ seen_of (setting_of self.now) (situation_of self.now) port }
    {
        match self.change(port) {
            Some(change) => match group_of(&change.command) {
                Some(name) => self.lock(name),
                None => Seen::Own,
            },
            None => Seen::Own,
        }
    }

    /// The change of a port, or its next one.
    fn change(&self, port: usize) -> Option<&Numbered>
        requires { port < ports_of (held_by self.now.node) }
        ensures { option_copied result ≡ change_of ((situation_of self.now).ports port).current ((situation_of self.now).ports port).waiting }
    {
        let desk = &self.desks[port];
        match desk.current() {
            Some(current) => Some(current),
            None => desk.front(),
        }
    }

    /// What is seen of the lock of a group.
    fn lock(&self, name: &Term) -> Seen
        ensures { result ≡ lock_seen (setting_of self.now) (situation_of self.now) name.now }
    {
        let state = self.node.state();
        if !state.formed() {
            return Seen::Own;
        }
        match state.holder(name) {
            Some(reference) if *reference.node() == *state.own() => Seen::Own,
            Some(_) => Seen::Other,
            None => Seen::Free,
        }
    }

    /// A change that was denied its lock is tried again.
    ///
    /// Errors: `ClockFull`, where the step says so; `OutOfMemory`.
    ///
    /// Cost: that of `Node::retry`.
    pub fn retry(&mut self, op: OpId) -> Result<bool, ProcessFault>
        requires { op.port < ports_of (held_by self.old.node) }
        ensures made { IfOk result (λ tried. Retries op tried self.old self.new) }
        ensures failed { IfErr result (λ fault. StopsTrying op fault self.old self.new) }
    {
        match self.node.retry(op) {
            Ok(done) => {
                self.courtesies[usize::from(op.port)].try_now();
                match self.journal.put_mark(Mark::Tried(op.port as u8 + 1)) {
                    Ok(()) => {}
                    Err(AllocError) => {
                        drop(done);
                        return Err(ProcessFault::OutOfMemory);
                    }
                }
                let told = tell_trial(
                    self.told.mirrored,
                    &mut self.outlet,
                    self.alloc,
                    self.node.state(),
                    &done,
                );
                self.node.reuse(done);
                match told {
                    Ok(()) => Ok(true),
                    Err(AllocError) => Err(ProcessFault::OutOfMemory),
                }
            }
            Err(NodeFault::Refused(Refusal::ClockFull)) => Err(ProcessFault::ClockFull),
            Err(NodeFault::OutOfMemory) => Err(ProcessFault::OutOfMemory),
            Err(NodeFault::Refused(_)) => Ok(false),
            // These are told of what came in only.
            Err(NodeFault::Message(_) | NodeFault::TooLong | NodeFault::Damaged) => unreachable!(),
        }
    }
}

ghost use Rattle.std.specs.Prelude.{◌≡◌, ℕ, IfOk, OnOk, OnErr, option_copied};
ghost use Rattle.pg_node.specs.PgGroup.Table.{Table};
ghost use Rattle.pg_node.specs.PgNodeState.States.{kept_by};
ghost use Rattle.pg_node.specs.PgStep.State.{State};
ghost use Rattle.pg_node.specs.PgStep.Step.{Issue, Retry};
ghost use Rattle.pg_node.specs.PgStep.declared.command.OpId.{OpId};
ghost use Rattle.pg_node_run.specs.Acts.{Did};
ghost use Rattle.pg_process.specs.Changes.{LeavesFor};
ghost use Rattle.pg_process.specs.Locks.{group_of as group_changed};
ghost use Rattle.pg_process.specs.Mirrors.{KeepsEndedBy};
ghost use Rattle.pg_process.specs.Tables.{began_update, by_update, table_issued};
ghost use Rattle.pg_process.specs.Takings.{TellsMade};

/// The name of the group that a command changes.
fn group_of(command: &Command) -> Option<&Term>
    ensures { option_copied result ≡ group_changed command.now }
{
    match command {
        Command::Create(name) | Command::Delete(name) => Some(name),
        Command::Join(name, _) | Command::Leave(name, _) => Some(name),
        _ => None,
    }
}

/// The groups that the process of a command leaves, which has not ended, where the host mirrors the table.
fn groups_left_by(
    is_mirrored: bool,
    alloc: Global,
    state: &NodeState<IndexTable>,
    command: &Command,
) -> Result<Vec<Term>, AllocError>
    ensures { IfOk result (λ names. LeavesFor is_mirrored command.now (kept_by state.now) names.items) }
{
    if !is_mirrored {
        return Ok(Vec::new(alloc));
    }
    groups_left(alloc, state, ends_by(state, command))
}

/// Tells what a command made of the table, where the host mirrors it. `names`: the groups that its process left.
///
/// Errors: `AllocError`, which says nothing.
fn tell_command(
    is_mirrored: bool,
    outlet: &mut Outlet,
    alloc: Global,
    state: &NodeState<IndexTable>,
    command: &Command,
    names: &[Term],
    done: &Done<Framed>,
) -> Result<(), AllocError>
    ensures ok { OnOk result ((before : State) (port : ℕ) → LeavesFor is_mirrored command.now before names.now → KeepsEndedBy command.now before.ended (kept_by state.now).ended
        → (kept_by state.now).table ≡ table_issued command.now (began_update done.now.began) before (kept_by state.now).ended
        → TellsMade is_mirrored (Did (Issue port command.now)) (began_update done.now.began) before.table (kept_by state.now).table outlet.old.gathered.items outlet.new.gathered.items) }
    ensures err { OnErr result (outlet.new.gathered.items ≡ outlet.old.gathered.items) }
{
    if !is_mirrored {
        return Ok(());
    }
    match finished_by(command) {
        Some(pid) => tell_finished(outlet, alloc, state, pid, names),
        None => tell_applied(outlet, alloc, state, began(done)),
    }
}

/// Tells what a trial made of the table, where the host mirrors it.
///
/// Errors: `AllocError`, which says nothing.
fn tell_trial(
    is_mirrored: bool,
    outlet: &mut Outlet,
    alloc: Global,
    state: &NodeState<IndexTable>,
    done: &Done<Framed>,
) -> Result<(), AllocError>
    ensures ok { OnOk result ((before : Table) (op : OpId) → (kept_by state.now).table ≡ by_update (began_update done.now.began) before (kept_by state.now).ended
        → TellsMade is_mirrored (Did (Retry op)) (began_update done.now.began) before (kept_by state.now).table outlet.old.gathered.items outlet.new.gathered.items) }
    ensures err { OnErr result (outlet.new.gathered.items ≡ outlet.old.gathered.items) }
{
    if !is_mirrored {
        return Ok(());
    }
    tell_applied(outlet, alloc, state, began(done))
}
