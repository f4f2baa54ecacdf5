//! The phase of a turn in which a loss is seen.

ghost use Rattle.std.specs.Prelude.{◌≡◌, ◌<◌, [], ◌∷◌, true, false, length, Ok, IfOk, IfErr, IsErrAnd};
ghost use Rattle.pg_node_run.specs.Follows.{log_of};
ghost use Rattle.pg_node_run.specs.Logs.{LogsLoss};
ghost use Rattle.pg_node_run.specs.declared.notices.Notice.{Notice as Told};
ghost use Rattle.pg_node_run.specs.Notices.{inlet_of, kept_of};
ghost use Rattle.pg_node_run.specs.Tries.{HasLooked, IsPutOff, SawDrained, WasWanting};
ghost use Rattle.pg_node_run.specs.Turns.{SeesTold};

use crate::linked::LinkedNode;
use crate::notices::{Notice, Notices};
use crate::phases::{PULL_LEN, Phase};
use pg_node::{GroupTable, Inlet, Link, NodeFault};

/// The loss in the next notice is seen, once all that came of the lost peer is taken. It is busy where it is seen.
pub(crate) fn see_next<T: GroupTable + Drop, L: Link + Drop, I: Inlet + Drop>(
    linked: &mut LinkedNode<T, L, I>,
    notices: &mut Notices,
) -> Phase
    ensures sees { SeesTold L.accepts I.gives linked.old notices.old linked.new notices.new }
    ensures logs { LogsLoss result.busy (log_of linked.old) (log_of linked.new) }
    ensures drained { result.busy ≡ true → SawDrained L.accepts I.gives I.moves linked.old linked.new }
    ensures looked { result.whole ≡ true → HasLooked L.accepts I.gives linked.old notices.old linked.new notices.new }
    ensures wanting { result.whole ≡ false → WasWanting L.accepts I.gives linked.old linked.new }
{
    match notices.next() {
        Some(notice) => see_told(linked, notices, notice),
        None => Phase::idle(),
    }
}

/// The loss in this notice, which is kept, is seen, once all that came of the lost peer is taken.
fn see_told<T: GroupTable + Drop, L: Link + Drop, I: Inlet + Drop>(
    linked: &mut LinkedNode<T, L, I>,
    notices: &mut Notices,
    notice: Notice,
) -> Phase
    requires kept { kept_of notices.old ≡ notice ∷ [] }
    ensures sees { SeesTold L.accepts I.gives linked.old notices.old linked.new notices.new }
    ensures logs { LogsLoss result.busy (log_of linked.old) (log_of linked.new) }
    ensures drained { result.busy ≡ true → SawDrained L.accepts I.gives I.moves linked.old linked.new }
    ensures inlet { inlet_of notices.new ≡ inlet_of notices.old }
    ensures put_off { result.whole ≡ true → (other : Told) → kept_of notices.new ≡ other ∷ [] → IsPutOff L.accepts I.gives other linked.old linked.new }
    ensures wanting { result.whole ≡ false → WasWanting L.accepts I.gives linked.old linked.new }
{
    if notice.peer >= linked.peer_count() {
        return Phase::idle();
    }
    match linked.see_when_taken(notice) {
        Ok(true) => {
            notices.pass();
            Phase::of(true, None)
        }
        Ok(false) => Phase::idle(),
        Err(fault) => Phase::of(false, Some(fault)),
    }
}

impl<T: GroupTable + Drop, L: Link + Drop, I: Inlet + Drop> LinkedNode<T, L, I> {
    ghost use Rattle.pg_node.specs.Bytes.{is_drained};
    ghost use Rattle.pg_node.specs.Nodes.{links_of};
    ghost use Rattle.pg_node_run.specs.Acts.{Saw};
    ghost use Rattle.pg_node_run.specs.Events.{ActsOnce};
    ghost use Rattle.pg_node_run.specs.Follows.{log_of, node_of, peers_of};
    ghost use Rattle.pg_node_run.specs.Logs.{LogsLoss, saw_loss};
    ghost use Rattle.pg_node_run.specs.Tries.{CameMore, IsNoWant, IsWant, RefusedLoss};
    ghost use Rattle.pg_node_run.specs.Tries.{SawDrained as SeesDrained, WasWanting as Wants};
    ghost use Rattle.pg_node_run.specs.Turns.{SeesOnce};

    /// The loss in a notice is seen where nothing more comes in of the peer and no whole frame of it is
    /// left, or the link is damaged; whether it is.
    ///
    /// Errors: those of `pull` and `see_loss`, by which it is not seen.
    fn see_when_taken(&mut self, notice: Notice) -> Result<bool, NodeFault>
        requires place { notice.peer < length (peers_of self.old) }
        ensures sees { SeesOnce L.accepts I.gives notice result self.old self.new }
        ensures logs { LogsLoss (saw_loss result) (log_of self.old) (log_of self.new) }
        ensures drained { result ≡ Ok true → SeesDrained L.accepts I.gives I.moves self.old self.new }
        ensures more { result ≡ Ok false → CameMore L.accepts I.gives notice.peer self.old self.new }
        ensures refused { IfErr result (λ fault. IsNoWant fault → RefusedLoss L.accepts I.gives notice self.old self.new) }
        ensures wanting { IsErrAnd result IsWant → Wants L.accepts I.gives self.old self.new }
    {
        if self.node.damaged(notice.peer) {
            return self.see(notice);
        }
        match self.pull(notice.peer, PULL_LEN) {
            Ok(count) => {
                if count > 0 {
                    Ok(false)
                } else {
                    self.see(notice)
                }
            }
            Err(fault) => Err(fault),
        }
    }

    /// The loss in a notice is seen where no whole frame of the peer is left.
    ///
    /// Errors: those of `see_loss`.
    fn see(&mut self, notice: Notice) -> Result<bool, NodeFault>
        requires place { notice.peer < length (peers_of self.old) }
        ensures sees { SeesOnce L.accepts I.gives notice result self.old self.new }
        ensures logs { LogsLoss (saw_loss result) (log_of self.old) (log_of self.new) }
        ensures drained { IfOk result (λ seen. is_drained (links_of (node_of self.old) notice.peer) ≡ true) }
        ensures saw { IfOk result (λ seen. ActsOnce L.accepts I.gives (λ input. input ≡ Saw notice.peer notice.last) self.old self.new) }
        ensures seen { IfOk result (λ seen. seen ≡ true) }
        ensures refused { IfErr result (λ fault. IsNoWant fault → RefusedLoss L.accepts I.gives notice self.old self.new) }
        ensures wanting { IsErrAnd result IsWant → Wants L.accepts I.gives self.old self.new }
    {
        match self.see_loss(notice.peer, notice.last) {
            Ok(()) => Ok(true),
            Err(fault) => Err(fault),
        }
    }
}
