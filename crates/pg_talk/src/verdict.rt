//! What a cluster is found to be once it has ended.

ghost use Rattle.std.specs.Prelude.{◌≡◌, ◌↔◌, true, IfOk, IsTrue};
ghost use Rattle.std.specs.List.{list_any};
ghost use Rattle.pg_cluster.specs.PgClusterJudges.Judges.{Agree};
ghost use Rattle.pg_cluster.specs.PgClusterJudges.Schedule.{NobodyLost};
ghost use Rattle.pg_cluster.specs.Running.{clients_in, config_in, losses_in, threads_in};
ghost use Rattle.pg_cluster.specs.PgClusterJudges.Survivors.{SurvivorsAgree};
ghost use Rattle.pg_talk.specs.Verdicts.{IsJudged};

use pg_cluster::{Closed, Running};
use std::alloc::{AllocError, Global};
use std::thread::Threads;

/// What a cluster is found to be once it has ended.
#[derive(Clone, Copy, Debug, PartialEq, Eq)]
pub struct Verdict {
    /// Whether the nodes agree: `Closed::agrees`, or, where some were lost, `Closed::survivors_agree`.
    pub agree: bool,
    /// Whether the steps come to the nodes as they ended: `Closed::replays`.
    pub replay: bool,
}

/// Closes a cluster, and judges what it came to. It may wait for threads.
///
/// Error: `AllocError`.
pub(crate) fn close_and_judge<R: Threads>(
    rt: &R,
    alloc: Global,
    running: Running,
) -> Result<Verdict, AllocError>
    ensures { IfOk result (IsJudged (config_in running).starts.items (losses_in running) (threads_in running) (clients_in running)) }
{
    let (closed, config) = running.close(rt);
    let closed = match closed {
        Ok(closed) => closed,
        Err(stopped) => {
            drop(stopped);
            drop(config);
            return Err(AllocError);
        }
    };
    let agree = agreement(alloc, &closed);
    let replay = closed.replays(alloc, &config);
    drop(closed);
    drop(config);
    Ok(Verdict {
        agree: agree?,
        replay: replay?,
    })
}

/// Whether the nodes of a cluster that has ended agree, or those of them that were not lost.
///
/// Error: `AllocError`.
fn agreement(alloc: Global, closed: &Closed) -> Result<bool, AllocError>
    ensures nobody { IfOk result (λ yes. NobodyLost closed.now.lost.items → (IsTrue yes ↔ Agree closed.now.nodes.items closed.now.logs.items)) }
    ensures some { IfOk result (λ yes. list_any (λ one. one) closed.now.lost.items ≡ true
        → (IsTrue yes ↔ SurvivorsAgree closed.now.nodes.items closed.now.lost.items closed.now.logs.items)) }
{
    if is_any_lost(closed.lost.as_slice()) {
        closed.survivors_agree(alloc)
    } else {
        closed.agrees(alloc)
    }
}

/// Whether a node was lost.
fn is_any_lost(lost: &[bool]) -> bool
    ensures { result ≡ list_any (λ one. one) lost.now }
{
    lost.iter().any(|one| *one)
}
