//! The history of a group in the run that a cluster made.

ghost use Rattle.std.specs.Prelude.{◌≡◌, ◌≢◌, ◌++◌, ◌∷◌, [], false, None, IfOk, IfSome, OnOk, map};
ghost use Rattle.std.specs.Option.{is_some, option_copied, option_to_list};
ghost use Rattle.pg_world.specs.PgWorldAccount.Histories.{as_entry};
ghost use Rattle.pg_world.specs.PgWorldPackets.FrameWorlds.{view_of};
ghost use Rattle.pg_cluster_judges.specs.Judges.{all_made as were_all_made, ran_out as has_run_out};

use crate::closed::Closed;
use crate::closed::judges::{all_made, ran_out};
use pg_term::Term;
use pg_world::{Config, Entry, FrameWorld, IndexTable, WorldFault, configs_are_decided};
use std::alloc::{AllocError, Global};

impl Closed {
    ghost use Rattle.std.specs.Prelude.{true};
    ghost use Rattle.pg_world.specs.PgWorldPackets.Openings.{CanBegin};
    ghost use Rattle.pg_cluster_judges.specs.Closed.{IsHistory, IsOneLosingRun};

    /// The updates of a group in the order in which they got their last grant, each with its node and its command, as
    /// the steps have them, made one after another from the start of this configuration. None where that can't be made:
    /// never of what `Cluster::close` gives, whoever was lost, and the configuration that was started.
    ///
    /// Errors: `AllocError`, also where a step was refused for memory.
    ///
    /// Cost: that of the steps, and of a copy of each update of the group.
    pub fn history(
        &self,
        alloc: Global,
        config: &Config,
        name: &Term,
    ) -> Result<Option<Vec<Entry>>, AllocError>
        ensures history { IfOk result (λ found. IfSome found (λ entries.
            IsHistory config.now.starts.items self.now name.now (map as_entry entries.items))) }
        ensures some { IfOk result (λ found. CanBegin config.now.ring config.now.starts.items → IsOneLosingRun config.now.starts.items self.now
            → is_some found ≡ true) }
    {
        configs_are_decided();
        match self.replayed(alloc, config) {
            Ok(replay) => {
                let numbers = replay.numbers.as_slice();
                let found = history_of(alloc, &replay.world, numbers, name);
                drop(replay);
                found
            }
            Err(fault) => unbegun(fault),
        }
    }
}

/// What is found where no world could begin: no history.
///
/// Errors: `AllocError`, where that was for memory.
fn unbegun(fault: WorldFault) -> Result<Option<Vec<Entry>>, AllocError>
    ensures { IfOk result (λ found. (found ≡ None) × (fault ≢ WorldFault.OutOfMemory)) }
{
    match fault {
        WorldFault::OutOfMemory => Err(AllocError),
        _ => Ok(None),
    }
}

/// The history of a group in a world to which steps led that had these numbers; none where a step was refused.
///
/// Errors: `AllocError`, also where a step was refused for memory.
fn history_of(
    alloc: Global,
    world: &FrameWorld<IndexTable>,
    numbers: &[u8],
    name: &Term,
) -> Result<Option<Vec<Entry>>, AllocError>
    ensures history { IfOk result (λ found. IfSome found (λ entries.
        map as_entry entries.items ≡ (view_of world.now).account.histories name.now)) }
    ensures some { IfOk result (λ found. is_some found ≡ were_all_made numbers.now) }
    ensures ran { IfOk result (λ found. has_run_out numbers.now ≡ false) }
{
    if ran_out(numbers) {
        return Err(AllocError);
    }
    if !all_made(numbers) {
        return Ok(None);
    }
    match entries_of(alloc, world, name) {
        Ok(entries) => Ok(Some(entries)),
        Err(AllocError) => Err(AllocError),
    }
}

/// The history of a group in a world.
///
/// Errors: `AllocError`.
fn entries_of(
    alloc: Global,
    world: &FrameWorld<IndexTable>,
    name: &Term,
) -> Result<Vec<Entry>, AllocError>
    ensures { IfOk result (λ all. map as_entry all.items ≡ (view_of world.now).account.histories name.now) }
{
    let (entries, last) = world.history(name);
    let mut copies = Vec::new(alloc);
    match add_all(alloc, entries, last, &mut copies) {
        Ok(()) => Ok(copies),
        Err(AllocError) => Err(AllocError),
    }
}

/// Adds copies of entries, and of one more behind them, where there is one.
///
/// Errors: `AllocError`.
fn add_all(
    alloc: Global,
    entries: &[Entry],
    last: Option<&Entry>,
    copies: &mut Vec<Entry>,
) -> Result<(), AllocError>
    ensures { OnOk result (copies.new.items
        ≡ copies.old.items ++ entries.now ++ option_to_list (option_copied last.entry)) }
{
    add_each(alloc, entries, copies)?;
    match last {
        Some(entry) => add(alloc, entry, copies),
        None => Ok(()),
    }
}

/// Adds copies of entries.
///
/// Errors: `AllocError`.
fn add_each(alloc: Global, entries: &[Entry], copies: &mut Vec<Entry>) -> Result<(), AllocError>
    ensures { OnOk result (copies.new.items ≡ copies.old.items ++ entries.now) }
{
    for entry in entries {
        add(alloc, entry, copies)?;
    }
    Ok(())
}

/// Adds a copy of an entry.
///
/// Errors: `AllocError`.
fn add(alloc: Global, entry: &Entry, copies: &mut Vec<Entry>) -> Result<(), AllocError>
    ensures { OnOk result (copies.new.items ≡ copies.old.items ++ entry.now ∷ []) }
{
    copies.push(entry.copy(alloc)?)?;
    Ok(())
}
