//! How a world begins.

ghost use Rattle.std.specs.Prelude.{◌≡◌, [], true, false, None, IfOk, IfErr, OnOk, length};
ghost use Rattle.pg_ring.specs.Capacity.{IsCapacity};
ghost use Rattle.pg_node_state.specs.PgStep.Config.{IsConfig};
ghost use Rattle.pg_world_config.specs.Configs.{refusal_of};

use crate::starts::openings;
use crate::world::FrameNodes;
use pg_index::IndexTable;
use pg_node_state::Start;
use pg_term::{Items, Pid, Term};
use pg_world_config::{Config, WorldFault, nodes_of};
use std::alloc::{AllocError, Global};

impl FrameNodes<IndexTable> {
    ghost use Rattle.pg_world_packets.specs.Openings.{AreReady, AllFit, CantBegin, CantStart};
    ghost use Rattle.pg_world_packets.specs.Starts.{Begins};
    ghost use Rattle.pg_world_packets.specs.Worlds.{view_of};
    ghost use Rattle.pg_world_packets.specs.Losing.{lost_of};

    /// The nodes of a configuration as they start, where what each of them announces of its groups is on the way to each
    /// other.
    ///
    /// Errors, the first that holds: those of `Config::check`; `TooLong`, where what a node announces takes more than a
    /// frame, as a group of more than 2^32 members does; `OutOfMemory`, which may come in the place of that `TooLong`
    /// where no group has so many members, and of no fault of `Config::check`.
    ///
    /// Cost: that of `Config::check`, of the groups of each node, once in its table and once for each peer, and for
    /// each node that of all names.
    pub(crate) fn new(alloc: Global, config: &Config) -> Result<FrameNodes<IndexTable>, WorldFault>
        ensures good { IfOk result (λ world. IsConfig config.now.starts.items × IsCapacity config.now.ring) }
        ensures fits { IfOk result (λ world. AllFit config.now.starts.items) }
        ensures few { IfOk result (λ world. have_few config.now.starts.items ≡ true) }
        ensures begins { IfOk result (λ world. Begins config.now.starts.items (view_of world)) }
        ensures lost { IfOk result (λ world. lost_of world ≡ []) }
        ensures formed { IfOk result (λ world. (view_of world).account.formed ≡ true) }
        ensures fault { IfErr result (CantBegin config.now.ring config.now.starts.items) }
    {
        match ready(alloc, config) {
            Ok(()) => FrameNodes::begun(alloc, config.starts.as_slice()),
            Err(fault) => Err(fault),
        }
    }

    /// The same of nodes that can start.
    fn begun(alloc: Global, starts: &[Start]) -> Result<FrameNodes<IndexTable>, WorldFault>
        requires ready { AreReady starts.now }
        ensures begins { IfOk result (λ world. Begins starts.now (view_of world)) }
        ensures lost { IfOk result (λ world. lost_of world ≡ []) }
        ensures formed { IfOk result (λ world. (view_of world).account.formed ≡ true) }
        ensures fits { IfOk result (λ world. AllFit starts.now) }
        ensures fault { IfErr result (CantStart starts.now) }
    {
        let nodes = nodes_of(alloc, starts)?;
        match openings(alloc, nodes.as_slice()) {
            Ok(outgoing) => Ok(FrameNodes::of_parts(alloc, nodes, outgoing)),
            Err(fault) => Err(fault),
        }
    }
}

ghost use Rattle.pg_world_packets.specs.Openings.{AreReady as AreReadyNodes};
ghost use Rattle.pg_world_packets.specs.Openings.{CantBegin as CantBeginWith, are_few, have_few};

/// Whether a world of a configuration can begin, but for the length of what its nodes announce.
///
/// Errors, the first that holds: those of `Config::check`; `TooLong`, where a group has more than 2^32 members.
///
/// Cost: that of `Config::check`.
pub fn ready(alloc: Global, config: &Config) -> Result<(), WorldFault>
    ensures good { OnOk result (IsConfig config.now.starts.items × IsCapacity config.now.ring) }
    ensures ready { OnOk result (AreReadyNodes config.now.starts.items) }
    ensures none { OnOk result (refusal_of config.now.ring config.now.starts.items ≡ None) }
    ensures few { OnOk result (have_few config.now.starts.items ≡ true) }
    ensures fault { IfErr result (CantBeginWith config.now.ring config.now.starts.items) }
{
    match config.check(alloc) {
        Ok(()) => few_enough(config.starts.as_slice()),
        Err(fault) => Err(fault),
    }
}

/// Why no world of a configuration begins where room could not be made: what `ready` tells, whatever memory there is, else
/// `OutOfMemory`.
///
/// Cost: that of `ready`.
pub fn fault_or_memory(alloc: Global, config: &Config) -> WorldFault
    ensures { CantBeginWith config.now.ring config.now.starts.items result }
{
    match ready(alloc, config) {
        Ok(()) => WorldFault::OutOfMemory,
        Err(fault) => fault,
    }
}

/// A place for the number of each of so many steps of a world that is to begin.
///
/// Errors: those of `fault_or_memory`.
///
/// Cost: a byte for each step.
pub fn places_for(alloc: Global, config: &Config, steps: usize) -> Result<Vec<u8>, WorldFault>
    ensures len { IfOk result (λ numbers. length numbers.items ≡ steps) }
    ensures fault { IfErr result (CantBeginWith config.now.ring config.now.starts.items) }
{
    match Vec::from_elem(alloc, 0, steps) {
        Ok(numbers) => Ok(numbers),
        Err(AllocError) => Err(fault_or_memory(alloc, config)),
    }
}

/// Tells `TooLong` where a group has more than 2^32 members.
fn few_enough(starts: &[Start]) -> Result<(), WorldFault>
    ensures few { OnOk result (have_few starts.now ≡ true) }
    ensures fault { IfErr result (λ fault. (fault ≡ WorldFault.TooLong) × (have_few starts.now ≡ false)) }
{
    if have_few(starts) {
        Ok(())
    } else {
        Err(WorldFault::TooLong)
    }
}

/// How many members a group has at most that is handed in.
const MAX_MEMBERS: usize = 4_294_967_296;

/// Whether no group of a node has more than 2^32 members.
fn have_few(starts: &[Start]) -> bool
    ensures { result ≡ have_few starts.now }
{
    for start in starts {
        if !are_few(start.groups.as_slice()) {
            return false;
        }
    }
    true
}

fn are_few(groups: &[(Term, Items<Pid>)]) -> bool
    ensures { result ≡ are_few groups.now }
{
    for group in groups {
        if group.1.as_slice().len() > MAX_MEMBERS {
            return false;
        }
    }
    true
}
