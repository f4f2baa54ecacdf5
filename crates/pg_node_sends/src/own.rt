//! What an own command does to the node's own lock and table.

ghost use Rattle.std.specs.Prelude.{◌≡◌, ◌&&◌, ◌⊎◌, true, false, IsOk, OnOk, OnErr};
ghost use Rattle.pg_node_opens.specs.PgGroup.Ended.{ended_of};
ghost use Rattle.pg_node_opens.specs.PgGroup.Table.{Adds, HasRoom, Overfills, changed};
ghost use Rattle.pg_node_opens.specs.PgGroup.Value.{name_of};
ghost use Rattle.pg_node_opens.specs.PgLock.Locks.{locks_of, grants, after_ask, given_up, is_holder};
ghost use Rattle.pg_node_sends.specs.Orders.{reference_in};

use crate::orders::Numbered;
use pg_node_opens::{Ended, GroupTable, LockTable, Update, words_of};
use pg_term::{Term, equality};
use std::alloc::AllocError;

/// Frees the lock of a name at the own node, where the reference holds it. It takes no memory.
pub fn give_up_own(locks: &mut LockTable, name: &Term, reference: Numbered<'_>)
    ensures { locks_of locks.new
        ≡ given_up (is_holder (locks_of locks.old name.now) (reference_in reference.entry)) (locks_of locks.old) name.now }
{
    locks.give_up_by(name, reference.node, 1, &words_of(reference.number));
}

/// Frees the lock of a name at the own node, where it granted it to the reference. It takes no memory.
pub fn free_own(locks: &mut LockTable, granted: bool, name: &Term, reference: Numbered<'_>)
    ensures { locks_of locks.new
        ≡ given_up (granted && is_holder (locks_of locks.old name.now) (reference_in reference.entry)) (locks_of locks.old) name.now }
{
    if granted {
        give_up_own(locks, name, reference);
    }
}

/// The own node's lock of a name goes to the reference, where it is granted.
///
/// Errors: `AllocError`, which changes nothing, only for a lock that is granted.
pub fn ask_own(
    locks: &mut LockTable,
    granted: bool,
    name: &Term,
    reference: Numbered<'_>,
) -> Result<(), AllocError>
    requires free { granted ≡ true → grants true (locks_of locks.old) name.now ≡ true }
    ensures ok { OnOk result (locks_of locks.new ≡ after_ask granted (locks_of locks.old) name.now (reference_in reference.entry)) }
    ensures err { OnErr result (locks_of locks.new ≡ locks_of locks.old) }
    ensures light { granted ≡ false → IsOk result }
{
    if granted {
        let reference = reference.made()?;
        locks.ask_moved(true, name, reference)?;
    }
    Ok(())
}

/// The own node applies an update, and its lock of the group goes to the reference, where it is granted.
///
/// Errors: `AllocError`, which changes nothing, only where the lock is granted, a group or a member is added, or the members of
/// the group would pass 64 bits.
pub fn apply_own<T: GroupTable + Drop>(
    locks: &mut LockTable,
    table: &mut T,
    ended: &Ended,
    granted: bool,
    update: &Update,
    lock: Numbered<'_>,
) -> Result<(), AllocError>
    requires room { HasRoom (T.contents table.old) update.now }
    requires free { granted ≡ true → grants true (locks_of locks.old) (name_of update.now) ≡ true }
    ensures locks { OnOk result (locks_of locks.new ≡ after_ask granted (locks_of locks.old) (name_of update.now) (reference_in lock.entry)) }
    ensures table { OnOk result (T.contents table.new ≡ changed (T.contents table.old) update.now (ended_of ended.now)) }
    ensures err_locks { OnErr result (locks_of locks.new ≡ locks_of locks.old) }
    ensures err_table { OnErr result (T.contents table.new ≡ T.contents table.old) }
    ensures memory { OnErr result ((granted ≡ true) ⊎ (Adds (T.contents table.old) update.now (ended_of ended.now)
        ⊎ Overfills (T.contents table.old) update.now)) }
{
    ask_own(locks, granted, update.name(), lock)?;
    match table.apply(update, ended) {
        Ok(()) => Ok(()),
        Err(fault) => {
            equality();
            free_own(locks, granted, update.name(), lock);
            Err(fault)
        }
    }
}
