//! The ends that are pending among nodes.

ghost use Rattle.std.specs.Prelude.{◌≡◌, ◌++◌, IfOk, OnOk, not};
ghost use Rattle.std.specs.List.{list_any};
ghost use Rattle.pg_node_state.specs.States.{kept_by};
ghost use Rattle.pg_world_packets.specs.Pending.{lent_as, pending_at, pending_among};
ghost use Rattle.pg_world_config.specs.Seen.{seen_of};

use pg_node_state::{GroupTable, NodeState};
use pg_term::Pid;
use std::alloc::{AllocError, Global};

/// The ends that are pending among the live nodes: node by node those of the processes that it made, by
/// their numbers.
///
/// Errors: `AllocError`.
///
/// Cost: a search at each of the nodes for each process that has ended at its home, and the memory of the list.
pub fn pending_among<T: GroupTable + Drop>(
    alloc: Global,
    left: &[&NodeState<T>],
) -> Result<Vec<Pid>, AllocError>
    ensures { IfOk result (λ pids. pids.items ≡ pending_among (lent_as left.now) (lent_as left.now)) }
{
    let mut pids = Vec::new(alloc);
    for place in 0..left.len() {
        add_pending(&mut pids, left[place], left)?;
    }
    Ok(pids)
}

/// Those of the processes that one of them made.
///
/// Errors: `AllocError`.
///
/// Cost: a search at each node for each of them that has ended.
fn add_pending<T: GroupTable + Drop>(
    pids: &mut Vec<Pid>,
    home: &NodeState<T>,
    left: &[&NodeState<T>],
) -> Result<(), AllocError>
    ensures { OnOk result (pids.new.items ≡ pids.old.items ++ pending_at (lent_as left.now) (seen_of home.now)) }
{
    for pid in home.own_ended()? {
        if is_untaken(&pid, left) {
            pids.push(pid)?;
        }
    }
    Ok(())
}

/// Whether one of the live nodes has not taken the end of a process.
fn is_untaken<T: GroupTable + Drop>(pid: &Pid, left: &[&NodeState<T>]) -> bool
    ensures { result ≡ list_any (λ node. not ((kept_by node.now).ended pid.now)) left.now }
{
    for node in left {
        if !node.ended(pid) {
            return true;
        }
    }
    false
}
