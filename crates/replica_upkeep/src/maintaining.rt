//! The upkeep of a replica.

ghost use Rattle.std.specs.Prelude.{◌≡◌, ◌-◌, IfOk, IfErr, OnOk};
ghost use Rattle.crash_disk.specs.Files.{files_after};
ghost use Rattle.crash_disk.specs.GoesOn.{GoesOn};
ghost use Rattle.crash_disk.specs.Told.{IfTold};
ghost use Rattle.replica_store.specs.Chain.{IsListOrdered, names_of};
ghost use Rattle.replica_upkeep.specs.Answers.{Explains, HasCause, IsSound};
ghost use Rattle.replica_upkeep.specs.Faith.{KeepsFaith, Settles};
ghost use Rattle.replica_upkeep.specs.Kept.{AreFiles, KeepsFiles};
ghost use Rattle.replica_upkeep.specs.Levels.{merge_levels};
ghost use Rattle.replica_upkeep.specs.Maintained.{HasMaintained};
ghost use Rattle.replica_upkeep.specs.Turn.{HaveTurned, StopsTurns};

use crate::answer::{Upkeep, UpkeepStop};
use crate::level::merge_level;
use crash_disk::Disk;
use replica_store::{Dated, DatedNames};
use retention::{drops, prune};
use std::alloc::Global;

/// Gives each level its turn. How many files were merged from runs.
fn merge_levels<S: Disk>(
    alloc: Global,
    store: &mut S,
    dated: &mut Vec<Dated>,
    now: u64,
) -> Result<u32, UpkeepStop>
    requires in_order { IsListOrdered (names_of dated.old.items) }
    requires files { IfTold (S.told store.old) (λ events. AreFiles (files_after events) dated.old.items) }
    ensures ok { IfOk result (λ count. GoesOn (S.told store.old) (S.told store.new) (HaveTurned merge_levels now
        dated.old.items dated.new.items count)) }
    ensures err { IfErr result (λ stop. GoesOn (S.told store.old) (S.told store.new) (StopsTurns now
        dated.old.items stop)) }
    ensures same_folder { S.folder store.new ≡ S.folder store.old }
    ensures cause { HasCause (S.fault_count store.old) (S.fault_count store.new) result }
{
    let first = merge_level(alloc, store, dated, 1, now)?;
    let second = merge_level(alloc, store, dated, 2, now)?;
    let third = merge_level(alloc, store, dated, 3, now)?;
    let whole = merge_level(alloc, store, dated, 9, now)?;
    Ok(first + second + third + whole)
}

/// Keeps the replica in order: what is due is merged, and what is older than `keep` is dropped, as far as no
/// transaction is lost that is to stay. `dated` are the replica's files with their moments in list order, each once.
/// `keep`, `now` and the moments are in milliseconds, the latter two since 1970-01-01T00:00:00Z; the cut is `keep`
/// before `now`, at least 0.
///
/// The levels 1, 2, 3 and 9 have their turns in this order: where a run is due by the names as they are then, it is
/// merged, and the merged file's name joins them, with the moment of the run's last file. Then the names that may go
/// are dropped. Behind Ok the names are brought to the disk.
///
/// `Damaged` and `PageMissing` as the merge of a run tells them: no file that tells the truth about a database is ever
/// blamed. `Store` for a fault of the disk, and `Memory` for want of it. After a refusal each file has its bytes, or
/// was older than the cut and is gone, and each new one is a merge. No list of the replica is made, and no header is
/// read but those of merged files.
pub fn maintain<S: Disk>(
    alloc: Global,
    store: &mut S,
    dated: DatedNames,
    keep: u64,
    now: u64,
) -> Result<Upkeep, UpkeepStop>
    requires in_order { IsListOrdered (names_of dated) }
    requires files { IfTold (S.told store.old) (λ events. AreFiles (files_after events) dated) }
    ensures ok { IfOk result (λ upkeep. GoesOn (S.told store.old) (S.told store.new) (HasMaintained dated keep now
        upkeep)) }
    ensures files { GoesOn (S.told store.old) (S.told store.new) (KeepsFiles (now - keep)) }
    ensures faith { GoesOn (S.told store.old) (S.told store.new) (KeepsFaith (now - keep)) }
    ensures settles { OnOk result (GoesOn (S.told store.old) (S.told store.new) Settles) }
    ensures explained { IfErr result (λ stop. IfTold (S.told store.old) (Explains dated now stop)) }
    ensures sound { IfErr result (λ stop. IfTold (S.told store.old) (IsSound stop)) }
    ensures same_folder { S.folder store.new ≡ S.folder store.old }
    ensures cause { HasCause (S.fault_count store.old) (S.fault_count store.new) result }
{
    let mut dated = dated.into_vec();
    let merged = merge_levels(alloc, store, &mut dated, now)?;
    let drops = drops(alloc, &dated, now.saturating_sub(keep))?;
    prune(store, &drops)?;
    Ok(Upkeep {
        merged,
        dropped: drops.names().len() as u64,
        lost: drops.lost().len() as u64,
    })
}
