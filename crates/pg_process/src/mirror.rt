//! What a host is told that mirrors the table: what the first body brought, and what each act makes of it.

ghost use Rattle.std.specs.Prelude.{◌≡◌, true, false, Option, Some, None, [], IfOk, OnOk, OnErr, List, option_copied};
ghost use Rattle.pg_term.specs.declared.pid.Pid.{Pid};
ghost use Rattle.pg_node.specs.PgGroup.Table.{Table};
ghost use Rattle.pg_node.specs.PgNodeState.States.{kept_by};
ghost use Rattle.pg_node.specs.PgStep.State.{State};
ghost use Rattle.pg_node_process.specs.Mirrors.{AreGroupsOf, SaysTable, TellsRows, TellsUpdate, has_joined as has_joined_in};
ghost use Rattle.pg_node_process.specs.Outputs.{Output};
ghost use Rattle.pg_node.specs.PgStep.declared.command.Command.TheVariants.{Finish};
ghost use Rattle.pg_process.specs.Mirrors.{IfTaken, TellsMessage, ended_in, finished_in, living};
ghost use Rattle.pg_process.specs.Tables.{by_update, began_update, table_issued};

use crate::fault::ProcessFault;
use crate::process::Process;
use pg_node::{Command, Done, Framed, IndexTable, Message, NodeState, Packet, Request};
use pg_node_process::{Outlet, groups_with, tell_end, tell_groups, tell_rows, tell_update};
use pg_step::Update;
use pg_term::{Pid, Term};
use std::alloc::{AllocError, Global};

impl Process {
    ghost use Rattle.std.specs.Prelude.{◌≡◌, IfErr, OnOk};
    ghost use Rattle.pg_process.specs.Chains.{Fails, Makes};
    ghost use Rattle.pg_process.specs.Deeds.{Brought};

    /// Tells a host that mirrors the table of the groups that the first body brought.
    ///
    /// Errors: `OutOfMemory`.
    ///
    /// Cost: that of all groups and members, where the host mirrors the table.
    pub fn tell_brought(&mut self) -> Result<(), ProcessFault>
        ensures made { OnOk result (Makes Brought self.old self.new) }
        ensures failed { IfErr result (λ fault. Fails Brought fault self.old self.new) }
    {
        if !self.told.mirrored {
            return Ok(());
        }
        tell_groups(&mut self.outlet, self.alloc, self.node.state().table())?;
        Ok(())
    }
}

/// The groups that a process leaves by its end, where there is one.
pub(crate) fn groups_left(
    alloc: Global,
    state: &NodeState<IndexTable>,
    gone: Option<&Pid>,
) -> Result<Vec<Term>, AllocError>
    ensures some { IfOk result (λ names. (pid : Pid) → option_copied gone.entry ≡ Some pid → AreGroupsOf (kept_by state.now).table pid names.items) }
    ensures none { IfOk result (λ names. option_copied gone.entry ≡ None → names.items ≡ []) }
{
    match gone {
        Some(pid) => groups_with(alloc, state.table(), pid),
        None => Ok(Vec::new(alloc)),
    }
}

/// Tells of an update that was applied, where one was.
pub(crate) fn tell_applied(
    outlet: &mut Outlet,
    alloc: Global,
    state: &NodeState<IndexTable>,
    update: Option<&Update>,
) -> Result<(), AllocError>
    ensures ok { OnOk result ((before : Table) → (kept_by state.now).table ≡ by_update (option_copied update.entry) before (kept_by state.now).ended
        → (outputs : List Output) × SaysTable before (kept_by state.now).table outlet.old.gathered.items outlet.new.gathered.items outputs × TellsUpdate (option_copied update.entry) outputs) }
    ensures err { OnErr result (outlet.new.gathered.items ≡ outlet.old.gathered.items) }
{
    match update {
        Some(update) => tell_update(
            outlet,
            alloc,
            state.table(),
            update,
            has_joined(state, update),
        ),
        None => Ok(()),
    }
}

/// Tells of a command that ends a process, where it did. `names`: the groups that the process was a member of.
pub(crate) fn tell_finished(
    outlet: &mut Outlet,
    alloc: Global,
    state: &NodeState<IndexTable>,
    pid: &Pid,
    names: &[Term],
) -> Result<(), AllocError>
    ensures ok { OnOk result ((before : State) → (before.ended pid.now ≡ false → AreGroupsOf before.table pid.now names.now) → (before.ended pid.now ≡ true → names.now ≡ [])
        → (kept_by state.now).table ≡ table_issued (Finish pid.now) None before (kept_by state.now).ended
        → (outputs : List Output) × SaysTable before.table (kept_by state.now).table outlet.old.gathered.items outlet.new.gathered.items outputs × TellsRows (kept_by state.now).table outputs) }
    ensures err { OnErr result (outlet.new.gathered.items ≡ outlet.old.gathered.items) }
{
    if names.is_empty() || !state.ended(pid) {
        return Ok(());
    }
    tell_end(outlet, alloc, state.table(), names)
}

/// Tells what a packet made of the table. `names`: the groups that its process was a member of, where it tells of an end.
pub(crate) fn tell_packet(
    outlet: &mut Outlet,
    alloc: Global,
    state: &NodeState<IndexTable>,
    packet: &Packet,
    names: &[Term],
    done: &Done<Framed>,
) -> Result<(), AllocError>
    ensures ok { OnOk result (IfTaken packet.now.message done.now.began names.now (kept_by state.now) (λ before applied.
        (outputs : List Output) × SaysTable before.table (kept_by state.now).table outlet.old.gathered.items outlet.new.gathered.items outputs × TellsMessage packet.now.message applied (kept_by state.now).table outputs)) }
    ensures err { OnErr result (outlet.new.gathered.items ≡ outlet.old.gathered.items) }
{
    match &packet.message {
        Message::Call(_, Request::Change(update)) => tell_applied(
            outlet,
            alloc,
            state,
            Some(update),
        ),
        Message::Exchange(_, groups) => tell_rows(outlet, alloc, state.table(), groups.as_slice()),
        Message::Down(_) => tell_end(outlet, alloc, state.table(), names),
        Message::Reply(..) => tell_applied(outlet, alloc, state, began(done)),
        Message::Call(_, Request::SetLock(_)) | Message::DelLock(..) => Ok(()),
    }
}

/// The update that an event began.
pub(crate) fn began(done: &Done<Framed>) -> Option<&Update>
    ensures { option_copied result ≡ began_update done.now.began }
{
    match &done.began {
        Some(held) => Some(&held.get().1),
        None => None,
    }
}

/// Whether an update is a join of a process that has ended.
fn has_joined(state: &NodeState<IndexTable>, update: &Update) -> bool
    ensures { result ≡ has_joined_in update.now (kept_by state.now).ended }
{
    match update {
        Update::Join(_, pid) => state.ended(pid),
        _ => false,
    }
}

/// The process that a packet tells the end of.
pub(crate) fn ended_by(packet: &Packet) -> Option<&Pid>
    ensures { option_copied result ≡ ended_in packet.now.message }
{
    match &packet.message {
        Message::Down(pid) => Some(pid),
        _ => None,
    }
}

/// The process that a command ends.
pub(crate) fn finished_by(command: &Command) -> Option<&Pid>
    ensures { option_copied result ≡ finished_in command.now }
{
    match command {
        Command::Finish(pid) => Some(pid),
        _ => None,
    }
}

/// The process that a command ends, if it has not ended.
pub(crate) fn ends_by<'a>(state: &NodeState<IndexTable>, command: &'a Command) -> Option<&'a Pid>
    ensures { option_copied result ≡ living (kept_by state.now).ended (finished_in command.entry.now) }
{
    match finished_by(command) {
        Some(pid) if !state.ended(pid) => Some(pid),
        _ => None,
    }
}
