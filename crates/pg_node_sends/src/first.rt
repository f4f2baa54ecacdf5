//! The first request of an attempt, made before anything changes.

ghost use Rattle.std.specs.Prelude.{◌≡◌, ◌≤◌, ◌<◌, ◌+◌, ◌^◌, List, [], true, Some, None, IfOk, length};
ghost use Rattle.pg_node_opens.specs.PgGroup.declared.update.Update.{Update};
ghost use Rattle.pg_node_opens.specs.PgGroup.Value.{name_of};
ghost use Rattle.pg_node_opens.specs.PgStep.Machines.Clocked.{stamped};
ghost use Rattle.pg_node_opens.specs.PgMessageTypes.declared.message.Message.TheVariants as messages;
ghost use Rattle.pg_node_opens.specs.PgMessageTypes.declared.message.Request.TheVariants as requests;
ghost use Rattle.pg_node_opens.specs.Opens.{names_of, live_of, references_of, stages_of};
ghost use Rattle.pg_node_opens.specs.Places.{name_at};
ghost use Rattle.pg_node_opens.specs.Readings.{stage_seen};
ghost use Rattle.pg_node_opens.specs.declared.command.Stage.TheVariants as seen;
ghost use Rattle.pg_node_opens.specs.PgStep.Attempts.{own_reference};
ghost use Rattle.pg_node_opens.specs.PgStep.Nodes.{Node, to_one, to_peers};
ghost use Rattle.pg_node_opens.specs.PgStep.State.Stage.{Waiting};
ghost use Rattle.pg_node_opens.specs.PgMessageTypes.Name.{is_name};
ghost use Rattle.pg_node_opens.specs.PgMessageTypes.Limits.{max_stamp};
ghost use Rattle.pg_node_sends.specs.Sendable.{AreSendable};
ghost use Rattle.pg_node_sends.specs.Sent.{sends_in};

use crate::calls::{began, done_with};
use crate::done::Done;
use crate::orders::{Order, own_under};
use crate::outgoing::Outgoing;
use crate::sends::{to_live, to_place};
use bytes::BytesMut;
use pg_node_opens::{OpId, Opens, Update};
use std::alloc::{AllocError, Global};

/// The node at a place is asked, under the next reference.
///
/// Errors: `AllocError`.
pub fn first_asked<S: Outgoing + Drop>(
    alloc: Global,
    buffer: &mut BytesMut,
    clock: u32,
    opens: &Opens,
    op: OpId,
    first: usize,
) -> Result<Done<S>, AllocError>
    requires waits { stage_seen (stages_of opens.now op) ≡ seen.Waiting }
    requires next { references_of opens.now + 1 < 2 ^ 32 }
    requires place { first < length (names_of opens.now) }
    requires peer { 0 < first }
    requires within { clock ≤ max_stamp }
    requires named { (update : Update) → stages_of opens.now op ≡ Waiting update → is_name (name_of update) ≡ true }
    ensures sends { (update : Update) → stages_of opens.now op ≡ Waiting update
        → IfOk result (λ done. sends_in (names_of opens.now) (S.listed done.sends) ≡ (λ q. stamped clock (to_one (name_at (names_of opens.now) first)
        (messages.Call (own_reference (live_of opens.now) (references_of opens.now + 1)) (requests.SetLock (name_of update))) q))) }
    ensures began { IfOk result (λ done. done.began ≡ None) }
    ensures odd { IfOk result (λ done. done.odd ≡ None) }
    ensures fits { IfOk result (λ done. AreSendable (names_of opens.now) (S.listed done.sends)) }
{
    let name = waiting_under(opens, op).name();
    let lock = own_under(opens, opens.references() + 1);
    let sends = to_place(alloc, buffer, clock, Order::Lock(name, lock), first)?;
    Ok(done_with(sends, None))
}

/// Every peer that counts is asked, under the next reference.
///
/// Errors: `AllocError`.
pub fn all_asked<S: Outgoing + Drop>(
    alloc: Global,
    buffer: &mut BytesMut,
    clock: u32,
    opens: &Opens,
    op: OpId,
) -> Result<Done<S>, AllocError>
    requires waits { stage_seen (stages_of opens.now op) ≡ seen.Waiting }
    requires next { references_of opens.now + 1 < 2 ^ 32 }
    requires within { clock ≤ max_stamp }
    requires named { (update : Update) → stages_of opens.now op ≡ Waiting update → is_name (name_of update) ≡ true }
    ensures sends { (update : Update) → stages_of opens.now op ≡ Waiting update
        → IfOk result (λ done. sends_in (names_of opens.now) (S.listed done.sends) ≡ (λ q. stamped clock (to_peers (live_of opens.now)
        (λ q. true) (messages.Call (own_reference (live_of opens.now) (references_of opens.now + 1)) (requests.SetLock (name_of update))) q))) }
    ensures began { IfOk result (λ done. done.began ≡ None) }
    ensures odd { IfOk result (λ done. done.odd ≡ None) }
    ensures fits { IfOk result (λ done. AreSendable (names_of opens.now) (S.listed done.sends)) }
{
    let name = waiting_under(opens, op).name();
    let lock = own_under(opens, opens.references() + 1);
    let sends = to_live(alloc, buffer, clock, Order::Lock(name, lock), opens)?;
    Ok(done_with(sends, None))
}

/// The update of a command that waits begins, and nobody is sent anything.
///
/// Errors: `AllocError`.
pub fn began_alone<S: Outgoing + Drop>(
    alloc: Global,
    opens: &Opens,
    op: OpId,
) -> Result<Done<S>, AllocError>
    requires waits { stage_seen (stages_of opens.now op) ≡ seen.Waiting }
    ensures sends { IfOk result (λ done. S.listed done.sends ≡ []) }
    ensures began { (update : Update) → stages_of opens.now op ≡ Waiting update → IfOk result (λ done. done.began ≡ Some (op, update)) }
    ensures odd { IfOk result (λ done. done.odd ≡ None) }
    ensures fits { (names : List Node) → IfOk result (λ done. AreSendable names (S.listed done.sends)) }
{
    let began = began(alloc, op, waiting_under(opens, op))?;
    Ok(Done {
        sends: S::nothing(alloc),
        began: Some(began),
        odd: None,
    })
}

/// The update of a command that waits. It takes no memory: O(open commands).
pub fn waiting_under(opens: &Opens, op: OpId) -> &Update
    requires { stage_seen (stages_of opens.now op) ≡ seen.Waiting }
    ensures { stages_of opens.now op ≡ Waiting result.now }
{
    match opens.waiting_update(op) {
        Some(update) => update,
        None => unreachable!(),
    }
}
