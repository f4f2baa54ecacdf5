//! What the turns after answers send, made before anything changes.

ghost use Rattle.std.specs.Prelude.{◌≡◌, ◌≤◌, ◌<◌, ◌+◌, ◌^◌, ℕ, Bool, true, Some, None, is_some, IfOk};
ghost use Rattle.pg_node_opens.specs.PgGroup.declared.update.Update.{Update};
ghost use Rattle.pg_node_opens.specs.PgGroup.Value.{name_of};
ghost use Rattle.pg_node_opens.specs.PgStep.Machines.Clocked.{stamped};
ghost use Rattle.pg_node_opens.specs.PgMessageTypes.declared.message.Message.TheVariants as messages;
ghost use Rattle.pg_node_opens.specs.PgMessageTypes.declared.message.Request.TheVariants as requests;
ghost use Rattle.pg_node_opens.specs.Opens.{names_of, live_of, uses_of, references_of};
ghost use Rattle.pg_node_opens.specs.Readings.{is_locking, is_updating, update_of};
ghost use Rattle.pg_node_opens.specs.PgStep.declared.command.OpId.{OpId};
ghost use Rattle.pg_node_opens.specs.PgStep.Attempts.{asks, is_yes, own_reference};
ghost use Rattle.pg_node_opens.specs.PgStep.Nodes.{Node, to_peers};
ghost use Rattle.pg_node_opens.specs.PgStep.State.{Status};
ghost use Rattle.pg_node_opens.specs.PgStep.State.Use.{Locking, Updating};
ghost use Rattle.pg_node_sends.specs.Sent.{sends_in};
ghost use Rattle.pg_node_sends.specs.Sendable.{AreSendable};
ghost use Rattle.pg_node_opens.specs.PgMessageTypes.Name.{is_name};
ghost use Rattle.pg_node_opens.specs.PgMessageTypes.Limits.{max_stamp};

use crate::done::Done;
use crate::held::Held;
use crate::orders::{Order, own_under};
use crate::outgoing::Outgoing;
use crate::sends::{to_asked, to_granted, to_live};
use bytes::BytesMut;
use pg_node_opens::{OpId, Opens, Update};
use std::alloc::{AllocError, Global};

/// An attempt is given up: each peer that granted frees the lock.
///
/// Errors: `AllocError`.
pub fn freed<S: Outgoing + Drop>(
    alloc: Global,
    buffer: &mut BytesMut,
    clock: u32,
    opens: &Opens,
    number: u32,
) -> Result<Done<S>, AllocError>
    requires locking { is_locking (uses_of opens.now number) ≡ true }
    requires within { clock ≤ max_stamp }
    requires named { (update : Update) → update_of (uses_of opens.now number) ≡ Some update → is_name (name_of update) ≡ true }
    ensures sends { (op : OpId) (update : Update) (first : Node) (st : Node → Status) → uses_of opens.now number ≡ Locking op update first st
        → IfOk result (λ done. sends_in (names_of opens.now) (S.listed done.sends) ≡ (λ q. stamped clock (to_peers (live_of opens.now)
        (λ q. is_yes (st q)) (messages.DelLock (name_of update) (own_reference (live_of opens.now) number)) q))) }
    ensures began { IfOk result (λ done. done.began ≡ None) }
    ensures odd { IfOk result (λ done. done.odd ≡ None) }
    ensures fits { IfOk result (λ done. AreSendable (names_of opens.now) (S.listed done.sends)) }
{
    let update = update_under(opens, number);
    let order = Order::Free(update.name(), own_under(opens, number));
    let sends = to_granted(alloc, buffer, clock, order, opens, number)?;
    Ok(done_with(sends, None))
}

/// The rest is asked for the lock.
///
/// Errors: `AllocError`.
pub fn asked<S: Outgoing + Drop>(
    alloc: Global,
    buffer: &mut BytesMut,
    clock: u32,
    opens: &Opens,
    number: u32,
) -> Result<Done<S>, AllocError>
    requires locking { is_locking (uses_of opens.now number) ≡ true }
    requires within { clock ≤ max_stamp }
    requires named { (update : Update) → update_of (uses_of opens.now number) ≡ Some update → is_name (name_of update) ≡ true }
    ensures sends { (op : OpId) (update : Update) (first : Node) (st : Node → Status) → uses_of opens.now number ≡ Locking op update first st
        → IfOk result (λ done. sends_in (names_of opens.now) (S.listed done.sends) ≡ (λ q. stamped clock (to_peers (live_of opens.now)
        (asks (λ q. true) st) (messages.Call (own_reference (live_of opens.now) number) (requests.SetLock (name_of update))) q))) }
    ensures began { IfOk result (λ done. done.began ≡ None) }
    ensures odd { IfOk result (λ done. done.odd ≡ None) }
    ensures fits { IfOk result (λ done. AreSendable (names_of opens.now) (S.listed done.sends)) }
{
    let update = update_under(opens, number);
    let order = Order::Lock(update.name(), own_under(opens, number));
    let sends = to_asked(alloc, buffer, clock, order, opens, number)?;
    Ok(done_with(sends, None))
}

/// The update goes to every live peer, under the next reference.
///
/// Errors: `AllocError`.
pub fn begun<S: Outgoing + Drop>(
    alloc: Global,
    buffer: &mut BytesMut,
    clock: u32,
    opens: &Opens,
    number: u32,
    op: OpId,
) -> Result<Done<S>, AllocError>
    requires locking { is_locking (uses_of opens.now number) ≡ true }
    requires within { clock ≤ max_stamp }
    requires named { (update : Update) → update_of (uses_of opens.now number) ≡ Some update → is_name (name_of update) ≡ true }
    requires next { references_of opens.now + 1 < 2 ^ 32 }
    ensures sends { (other : OpId) (update : Update) (first : Node) (st : Node → Status) → uses_of opens.now number ≡ Locking other update first st
        → IfOk result (λ done. sends_in (names_of opens.now) (S.listed done.sends) ≡ (λ q. stamped clock (to_peers (live_of opens.now)
        (λ q. true) (messages.Call (own_reference (live_of opens.now) (references_of opens.now + 1)) (requests.Change update)) q))) }
    ensures began { (update : Update) → update_of (uses_of opens.now number) ≡ Some update → IfOk result (λ done. done.began ≡ Some (op, update)) }
    ensures odd { IfOk result (λ done. done.odd ≡ None) }
    ensures fits { IfOk result (λ done. AreSendable (names_of opens.now) (S.listed done.sends)) }
{
    let update = update_under(opens, number);
    let call = own_under(opens, opens.references() + 1);
    let sends = to_live(alloc, buffer, clock, Order::Change(update, call), opens)?;
    match began(alloc, op, update) {
        Ok(began) => Ok(done_with(sends, Some(began))),
        Err(fault) => {
            drop(sends);
            Err(fault)
        }
    }
}

/// A command, and a copy of its update.
///
/// Errors: `AllocError`.
pub(crate) fn began(
    alloc: Global,
    op: OpId,
    update: &Update,
) -> Result<Held<(OpId, Update)>, AllocError>
    ensures { IfOk result (λ began. began ≡ (op, update.now)) }
{
    let update = update.copy(alloc)?;
    match Held::new(alloc, (op, update)) {
        Ok(began) => Ok(began),
        Err(back) => {
            drop(back);
            Err(AllocError)
        }
    }
}

/// The command ends: every live peer frees the lock. `lock`: the number of its reference.
///
/// Errors: `AllocError`.
pub fn ended<S: Outgoing + Drop>(
    alloc: Global,
    buffer: &mut BytesMut,
    clock: u32,
    opens: &Opens,
    number: u32,
    lock: u32,
) -> Result<Done<S>, AllocError>
    requires updating { is_updating (uses_of opens.now number) ≡ true }
    requires within { clock ≤ max_stamp }
    requires named { (update : Update) → update_of (uses_of opens.now number) ≡ Some update → is_name (name_of update) ≡ true }
    ensures sends { (op : OpId) (update : Update) (holder : ℕ) (replied : Node → Bool) → uses_of opens.now number ≡ Updating op update holder replied
        → IfOk result (λ done. sends_in (names_of opens.now) (S.listed done.sends) ≡ (λ q. stamped clock (to_peers (live_of opens.now)
        (λ q. true) (messages.DelLock (name_of update) (own_reference (live_of opens.now) lock)) q))) }
    ensures began { IfOk result (λ done. done.began ≡ None) }
    ensures odd { IfOk result (λ done. done.odd ≡ None) }
    ensures fits { IfOk result (λ done. AreSendable (names_of opens.now) (S.listed done.sends)) }
{
    let update = update_under(opens, number);
    let order = Order::Free(update.name(), own_under(opens, lock));
    let sends = to_live(alloc, buffer, clock, order, opens)?;
    Ok(done_with(sends, None))
}

/// What a turn sends, with no odd reply.
pub fn done_with<S: Outgoing + Drop>(sends: S, began: Option<Held<(OpId, Update)>>) -> Done<S>
    ensures sends { S.listed result.sends ≡ S.listed sends }
    ensures began { result.began ≡ began }
    ensures odd { result.odd ≡ None }
{
    Done {
        sends,
        began,
        odd: None,
    }
}

/// The update of the command that gathers under the reference of this number. It takes no memory: O(open commands).
pub fn update_under(opens: &Opens, number: u32) -> &Update
    requires { is_some (update_of (uses_of opens.now number)) ≡ true }
    ensures { update_of (uses_of opens.now number) ≡ Some result.now }
{
    match opens.update(number) {
        Some(update) => update,
        None => unreachable!(),
    }
}

ghost use Rattle.std.specs.Prelude.{false, nat_le};
ghost use Rattle.pg_node_opens.specs.Opens.{opened_of};
ghost use Rattle.pg_node_opens.specs.PgStep.Commands.{OPEN_LIMIT as limit_of_open};
ghost use Rattle.pg_node_opens.specs.PgStep.Nodes.{is_peer};

/// How many commands are open at most at one node.
const OPEN_LIMIT: usize = 256;

/// Whether as many commands are open as can be. It takes no memory.
pub fn is_busy(opens: &Opens) -> bool
    ensures { result ≡ nat_le limit_of_open (opened_of opens.now) }
{
    opens.open_count() >= OPEN_LIMIT
}

/// Whether a peer counts. It takes no memory: O(nodes).
pub fn has_peer(opens: &Opens) -> bool
    ensures some { result ≡ true → (q : Node) × (is_peer (live_of opens.now) q ≡ true) }
    ensures none { result ≡ false → (q : Node) → is_peer (live_of opens.now) q ≡ false }
{
    for place in 1..opens.node_count() {
        if opens.is_live(place) {
            return true;
        }
    }
    false
}
