//! What a node does with its own lock and table for a peer, and what the peer is told.

ghost use Rattle.std.specs.Prelude.{◌≡◌, ◌≤◌, ◌<◌, ◌+◌, List, None, IfOk, OnOk, OnErr, length};
ghost use Rattle.pg_node_opens.specs.PgGroup.Ended.{ended_of, ended_with};
ghost use Rattle.pg_node_opens.specs.PgGroup.Table.{HasRoom, changed, without_node as table_without};
ghost use Rattle.pg_node_opens.specs.PgLock.Locks.{locks_of, grants, after_ask, without_node as locks_without};
ghost use Rattle.pg_node_opens.specs.PgStep.Machines.Clocked.{stamped};
ghost use Rattle.pg_node_opens.specs.PgMessageTypes.declared.message.Message.TheVariants as messages;
ghost use Rattle.pg_node_opens.specs.PgMessageTypes.declared.message.Said.TheVariants as answers;
ghost use Rattle.pg_node_opens.specs.PgMessageTypes.Limits.{max_stamp};
ghost use Rattle.pg_node_opens.specs.Opens.{names_of};
ghost use Rattle.pg_node_opens.specs.Places.{name_at};
ghost use Rattle.pg_node_opens.specs.PgStep.Nodes.{Node, to_one};
ghost use Rattle.pg_node_opens.specs.PgStep.Peers.{verdict};
ghost use Rattle.pg_node_sends.specs.Sent.{sends_in};
ghost use Rattle.pg_node_sends.specs.Sendable.{AreSendable};

use crate::done::Done;
use crate::outgoing::Outgoing;
use crate::replies::{reply, verdict};
use bytes::BytesMut;
use pg_node_opens::{Ended, GroupTable, LockTable, Opens, Said, Update};
use pg_term::{Reference, Term};
use std::alloc::{AllocError, Global};

/// A peer asks for the lock of a name, and is told whether it got it. `peer`: its place among the peers. `formed`: whether
/// the node is, which denies every lock before.
///
/// Errors: `AllocError`, which changes nothing but `buffer`: that may be left empty and without its memory.
pub fn lock_for_peer<S: Outgoing + Drop>(
    alloc: Global,
    buffer: &mut BytesMut,
    clock: u32,
    peer: usize,
    locks: &mut LockTable,
    formed: bool,
    reference: &Reference,
    name: &Term,
) -> Result<Done<S>, AllocError>
    requires within { clock ≤ max_stamp }
    ensures locks { OnOk result (locks_of locks.new
        ≡ after_ask (grants formed (locks_of locks.old) name.now) (locks_of locks.old) name.now reference.now) }
    ensures sends { (names : List Node) → IfOk result (λ done. sends_in names (S.listed done.sends)
        ≡ (λ q. stamped clock (to_one (name_at names (peer + 1)) (messages.Reply reference.now (verdict (grants formed (locks_of locks.old) name.now))) q))) }
    ensures began { IfOk result (λ done. done.began ≡ None) }
    ensures odd { IfOk result (λ done. done.odd ≡ None) }
    ensures fits { (names : List Node) → peer + 1 < length names → IfOk result (λ done. AreSendable names (S.listed done.sends)) }
    ensures err { OnErr result (locks_of locks.new ≡ locks_of locks.old) }
{
    let granted = locks.grants(formed, name);
    let done = reply(alloc, buffer, clock, peer, reference, verdict(granted))?;
    match locks.ask(formed, name, reference) {
        Ok(_) => Ok(done),
        Err(fault) => {
            drop(done);
            Err(fault)
        }
    }
}

/// A peer changes a group, and is told that it is done. `peer`: its place among the peers.
///
/// Errors: `AllocError`, which changes nothing but `buffer`: that may be left empty and without its memory.
pub fn change_for_peer<T: GroupTable + Drop, S: Outgoing + Drop>(
    alloc: Global,
    buffer: &mut BytesMut,
    clock: u32,
    peer: usize,
    table: &mut T,
    ended: &Ended,
    reference: &Reference,
    update: &Update,
) -> Result<Done<S>, AllocError>
    requires within { clock ≤ max_stamp }
    requires room { HasRoom (T.contents table.old) update.now }
    ensures table { OnOk result (T.contents table.new ≡ changed (T.contents table.old) update.now (ended_of ended.now)) }
    ensures sends { (names : List Node) → IfOk result (λ done. sends_in names (S.listed done.sends)
        ≡ (λ q. stamped clock (to_one (name_at names (peer + 1)) (messages.Reply reference.now answers.Applied) q))) }
    ensures began { IfOk result (λ done. done.began ≡ None) }
    ensures odd { IfOk result (λ done. done.odd ≡ None) }
    ensures fits { (names : List Node) → peer + 1 < length names → IfOk result (λ done. AreSendable names (S.listed done.sends)) }
    ensures err { OnErr result (T.contents table.new ≡ T.contents table.old) }
{
    let done = reply(alloc, buffer, clock, peer, reference, Said::Applied)?;
    match table.apply(update, ended) {
        Ok(()) => Ok(done),
        Err(fault) => {
            drop(done);
            Err(fault)
        }
    }
}

/// Nothing is left of the node at a place: its processes have ended and are in no group, and the locks of its references are
/// free. `place`: its place among the names.
///
/// Errors: `AllocError`, which changes nothing.
pub fn forget_node<T: GroupTable + Drop>(
    opens: &Opens,
    place: usize,
    ended: &mut Ended,
    table: &mut T,
    locks: &mut LockTable,
) -> Result<(), AllocError>
    requires place { place < length (names_of opens.now) }
    ensures ended { OnOk result (ended_of ended.new ≡ ended_with (ended_of ended.old) (name_at (names_of opens.now) place)) }
    ensures table { OnOk result (T.contents table.new ≡ table_without (T.contents table.old) (name_at (names_of opens.now) place)) }
    ensures locks { OnOk result (locks_of locks.new ≡ locks_without (locks_of locks.old) (name_at (names_of opens.now) place)) }
    ensures err_ended { OnErr result (ended_of ended.new ≡ ended_of ended.old) }
    ensures err_table { OnErr result (T.contents table.new ≡ T.contents table.old) }
    ensures err_locks { OnErr result (locks_of locks.new ≡ locks_of locks.old) }
{
    let name = opens.name(place);
    ended.add_node(name)?;
    table.drop_node(name);
    locks.free_node(name);
    Ok(())
}
