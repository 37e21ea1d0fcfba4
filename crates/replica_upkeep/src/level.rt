//! The turn of a level.

ghost use Rattle.std.specs.Prelude.{◌≡◌, ◌≤◌, IfOk, IfErr, OnOk};
ghost use Rattle.crash_disk.specs.Files.{files_after};
ghost use Rattle.crash_disk.specs.GoesOn.{GoesOn};
ghost use Rattle.crash_disk.specs.Told.{IfTold};
ghost use Rattle.compact_levels.specs.Level.{IsMergeLevel};
ghost use Rattle.replica_store.specs.Chain.{IsListOrdered, names_of};
ghost use Rattle.replica_upkeep.specs.Answers.{HasCause};
ghost use Rattle.replica_upkeep.specs.Kept.{AreFiles};
ghost use Rattle.replica_upkeep.specs.Turn.{HasTurned, StopsTurn};

use crate::adding::add_name;
use crate::answer::UpkeepStop;
use compact_levels::{due, merge};
use crash_disk::Disk;
use ls_base::Memory;
use replica_store::{Dated, FileName, header_of};
use std::alloc::Global;

/// The names without their moments.
fn names_in(alloc: Global, dated: &[Dated]) -> Result<Vec<FileName>, Memory>
    ensures { IfOk result (λ names. names.items ≡ names_of dated.now) }
{
    Ok(dated.iter().map(|one| one.name).collect(alloc)?)
}

/// Merges the run that is due at the level, if one is, and adds the name of the merged file to the list, with the
/// moment that its header tells. How many were merged, which is 0 or 1.
pub fn merge_level<S: Disk>(
    alloc: Global,
    store: &mut S,
    dated: &mut Vec<Dated>,
    level: u8,
    now: u64,
) -> Result<u32, UpkeepStop>
    requires in_order { IsListOrdered (names_of dated.old.items) }
    requires level { IsMergeLevel level }
    requires files { IfTold (S.told store.old) (λ events. AreFiles (files_after events) dated.old.items) }
    ensures ok { IfOk result (λ count. GoesOn (S.told store.old) (S.told store.new) (HasTurned level now
        dated.old.items dated.new.items count)) }
    ensures one { IfOk result (λ count. count ≤ 1) }
    ensures in_order { OnOk result (IsListOrdered (names_of dated.new.items)) }
    ensures files { OnOk result (IfTold (S.told store.new) (λ events. AreFiles (files_after events)
        dated.new.items)) }
    ensures err { IfErr result (λ stop. GoesOn (S.told store.old) (S.told store.new) (StopsTurn level now
        dated.old.items stop)) }
    ensures same_folder { S.folder store.new ≡ S.folder store.old }
    ensures cause { HasCause (S.fault_count store.old) (S.fault_count store.new) result }
{
    let Some(run) = due(dated, level, now) else {
        return Ok(0);
    };
    let names = names_in(alloc, dated)?;
    let name = merge(alloc, store, &names, &run)?;
    let moment = header_of(store, &name)?.moment;
    add_name(dated, Dated { name, moment })?;
    Ok(1)
}
